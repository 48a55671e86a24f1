ghost use Rattle.std.specs.Prelude.{◌≡◌, ◌++◌, OnOk};
ghost use Rattle.dq_report.specs.Report as form;

use crate::rows::put_table;
use crate::texts::put_end;
use dq_base::{Invalid, Memory, Text, put_labelled};
use dq_journal::{LaneResults, StepResult, ZoneResult, ZoneResults};

fn put_invalid(text: &mut Text, reason: Invalid) -> Result<(), Memory>
    ensures { OnOk result (text.new ≡ text.old ++ form.invalid_word reason) }
{
    match reason {
        Invalid::Source => text.append(b"source"),
        Invalid::Column => text.append(b"column"),
        Invalid::RepeatedDim => text.append(b"repeated"),
        Invalid::WrongSort => text.append(b"sort"),
        Invalid::NothingShown => text.append(b"shown"),
        Invalid::OrderKey => text.append(b"order"),
        Invalid::TooLong => text.append(b"long"),
    }
}

fn put_refusal(text: &mut Text, reason: Invalid) -> Result<(), Memory>
    ensures { OnOk result (text.new ≡ text.old ++ form.refusal_text reason) }
{
    text.append(b" invalid ")?;
    put_invalid(text, reason)?;
    put_end(text)
}

fn put_outcome(text: &mut Text, outcome: &ZoneResult) -> Result<(), Memory>
    ensures { OnOk result (text.new ≡ text.old ++ form.outcome_text outcome.now) }
{
    match outcome {
        ZoneResult::Rows(table) => put_table(text, table),
        ZoneResult::Invalid(reason) => put_refusal(text, *reason),
        ZoneResult::BackEnd => text.append(b" backend\n"),
        ZoneResult::Memory => text.append(b" memory\n"),
    }
}

fn put_zone(text: &mut Text, number: u64, outcome: &ZoneResult) -> Result<(), Memory>
    ensures { OnOk result (text.new ≡ text.old ++ form.zone_text number outcome.now) }
{
    put_labelled(text, b"zone ", number)?;
    put_outcome(text, outcome)
}

fn put_zones(text: &mut Text, zones: &[ZoneResult]) -> Result<(), Memory>
    ensures { OnOk result (text.new ≡ text.old ++ form.zones_text 1 zones.now) }
{
    let mut number: u64 = 1;
    for outcome in zones {
        put_zone(text, number, outcome)?;
        number += 1;
    }
    Ok(())
}

fn put_batch(text: &mut Text, zones: &ZoneResults) -> Result<(), Memory>
    ensures { OnOk result (text.new ≡ text.old ++ form.batch_text zones.now) }
{
    put_labelled(text, b" zones ", zones.len())?;
    put_end(text)?;
    put_zones(text, zones.as_slice())
}

fn put_done(text: &mut Text, done: &StepResult) -> Result<(), Memory>
    ensures { OnOk result (text.new ≡ text.old ++ form.result_text done.now) }
{
    match done {
        StepResult::Published(place) => {
            put_labelled(text, b" published ", *place)?;
            put_end(text)
        }
        StepResult::Unpublished => text.append(b" refused memory\n"),
        StepResult::Admitted(place, zones) => {
            put_labelled(text, b" admitted ", *place)?;
            put_batch(text, zones)
        }
        StepResult::Unadmitted(zones) => {
            text.append(b" refused memory")?;
            put_batch(text, zones)
        }
    }
}

fn put_step(text: &mut Text, number: u64, done: &StepResult) -> Result<(), Memory>
    ensures { OnOk result (text.new ≡ text.old ++ form.step_text number done.now) }
{
    put_labelled(text, b"step ", number)?;
    put_done(text, done)
}

fn put_steps(text: &mut Text, steps: &[StepResult]) -> Result<(), Memory>
    ensures { OnOk result (text.new ≡ text.old ++ form.steps_text 1 steps.now) }
{
    let mut number: u64 = 1;
    for done in steps {
        put_step(text, number, done)?;
        number += 1;
    }
    Ok(())
}

fn put_lane(text: &mut Text, number: u64, steps: &LaneResults) -> Result<(), Memory>
    ensures { OnOk result (text.new ≡ text.old ++ form.lane_text number steps.now) }
{
    put_labelled(text, b"lane ", number)?;
    put_labelled(text, b" steps ", steps.len())?;
    put_end(text)?;
    put_steps(text, steps.as_slice())
}

/// Puts the results of the lanes behind the text. The cost is that of the results and of the answers' cells.
pub fn put_lanes(text: &mut Text, lanes: &[LaneResults]) -> Result<(), Memory>
    ensures { OnOk result (text.new ≡ text.old ++ form.lanes_text 1 lanes.now) }
{
    let mut number: u64 = 1;
    for steps in lanes {
        put_lane(text, number, steps)?;
        number += 1;
    }
    Ok(())
}
