ghost use Rattle.std.specs.Prelude.{◌≡◌, ◌++◌, IfOk, codes};
ghost use Rattle.std.specs.Arc.{arc_value};
ghost use Rattle.std.specs.List.{AllByRecursion};
ghost use Rattle.dq_base.specs.Rests.{Anything};
ghost use Rattle.dq_parse.specs.Reading.{Any, IsAnswer, Many, Takes, reason_text, steps_counted};
ghost use Rattle.dq_parse.specs.Sizes.{IsSizedLane, IsSizedResult, IsSizedZone};
ghost use Rattle.dq_reading.specs.Reading.{Reads};
ghost use Rattle.dq_report.specs.Report.{batch_text, lane_text, lanes_text, outcome_text, result_text, step_text, steps_text, zone_text, zones_text};

use crate::cells::read_table;
use crate::words::{read_invalid, read_line, read_marked};
use dq_base::{Invalid, List, Memory, Table};
use dq_journal::{LaneResults, LaneResultsList, StepResult, ZoneResult, ZoneResults};
use dq_reading::{Left, TextFault, read_u64};
use std::alloc::Global;
use std::sync::Arc;

// Reads why a query isn't valid, with the line's end.
fn read_reason(left: &mut Left) -> Result<Invalid, TextFault>
    ensures { Reads Any Anything reason_text left.old left.new result }
{
    let reason = read_invalid(left)?;
    if !left.skip(b"\n") {
        return Err(TextFault::NotInGrammar);
    }
    Ok(reason)
}

// Reads a refusal, behind its word.
fn read_refusal(left: &mut Left) -> Result<ZoneResult, TextFault>
    ensures { Takes IsSizedZone Anything outcome_text (codes " invalid " ++ left.old) left.new result }
{
    let reason = read_reason(left)?;
    Ok(ZoneResult::Invalid(reason))
}

// A table that can be shared.
fn share(alloc: Global, table: Table) -> Result<Arc<Table>, Memory>
    ensures { IfOk result (λ shared. arc_value shared ≡ table) }
{
    Ok(Arc::new(alloc, table)?)
}

// Reads a zone's answer.
fn read_answer(alloc: Global, left: &mut Left) -> Result<ZoneResult, TextFault>
    ensures { Takes IsAnswer Anything outcome_text left.old left.new result }
{
    let table = read_table(alloc, left)?;
    let shared = share(alloc, table)?;
    Ok(ZoneResult::Rows(shared))
}

// Reads what became of a zone.
fn read_outcome(alloc: Global, left: &mut Left) -> Result<ZoneResult, TextFault>
    ensures { Takes IsSizedZone Anything outcome_text left.old left.new result }
{
    if left.skip(b" backend\n") {
        return Ok(ZoneResult::BackEnd);
    }
    if left.skip(b" memory\n") {
        return Ok(ZoneResult::Memory);
    }
    if left.skip(b" invalid ") {
        return read_refusal(left);
    }
    read_answer(alloc, left)
}

// Reads the zone of a number.
fn read_zone(alloc: Global, left: &mut Left, number: u64) -> Result<ZoneResult, TextFault>
    ensures { Takes IsSizedZone Anything (zone_text number) left.old left.new result }
{
    read_marked(left, b"zone ", number)?;
    read_outcome(alloc, left)
}

// Reads so many zones.
fn read_zones(alloc: Global, left: &mut Left, count: u64) -> Result<ZoneResults, TextFault>
    ensures { Takes (Many IsSizedZone count) Anything (zones_text 1) left.old left.new result }
{
    let mut zones = List::new(alloc);
    for before in 0..count {
        let zone = read_zone(alloc, left, before + 1)?;
        zones.push(zone)?;
    }
    Ok(zones)
}

// Reads a number of zones, and the zones.
fn read_batch(alloc: Global, left: &mut Left) -> Result<ZoneResults, TextFault>
    ensures { Takes (AllByRecursion IsSizedZone) Anything batch_text left.old left.new result }
{
    let _size = left.len();
    let count = read_line(left, b" zones ")?;
    read_zones(alloc, left, count)
}

// Reads a step that was refused for memory, behind its words.
fn read_refused(alloc: Global, left: &mut Left) -> Result<StepResult, TextFault>
    ensures { Takes IsSizedResult Anything result_text (codes " refused memory" ++ left.old) left.new result }
{
    if left.skip(b"\n") {
        return Ok(StepResult::Unpublished);
    }
    let zones = read_batch(alloc, left)?;
    Ok(StepResult::Unadmitted(zones))
}

// Reads a batch that was admitted, behind its word.
fn read_admitted(alloc: Global, left: &mut Left) -> Result<StepResult, TextFault>
    ensures { Takes IsSizedResult Anything result_text (codes " admitted " ++ left.old) left.new result }
{
    let place = read_u64(left)?;
    let zones = read_batch(alloc, left)?;
    Ok(StepResult::Admitted(place, zones))
}

// Reads what became of a step.
fn read_done(alloc: Global, left: &mut Left) -> Result<StepResult, TextFault>
    ensures { Takes IsSizedResult Anything result_text left.old left.new result }
{
    if left.skip(b" refused memory") {
        return read_refused(alloc, left);
    }
    if left.skip(b" admitted ") {
        return read_admitted(alloc, left);
    }
    let place = read_line(left, b" published ")?;
    Ok(StepResult::Published(place))
}

// Reads the step of a number.
fn read_step(alloc: Global, left: &mut Left, number: u64) -> Result<StepResult, TextFault>
    ensures { Takes IsSizedResult Anything (step_text number) left.old left.new result }
{
    read_marked(left, b"step ", number)?;
    read_done(alloc, left)
}

// Reads so many steps.
fn read_steps(alloc: Global, left: &mut Left, count: u64) -> Result<LaneResults, TextFault>
    ensures { Takes (Many IsSizedResult count) Anything (steps_text 1) left.old left.new result }
{
    let mut steps = List::new(alloc);
    for before in 0..count {
        let step = read_step(alloc, left, before + 1)?;
        steps.push(step)?;
    }
    Ok(steps)
}

// Reads a number of steps, and the steps.
fn read_counted_steps(alloc: Global, left: &mut Left) -> Result<LaneResults, TextFault>
    ensures { Takes IsSizedLane Anything steps_counted left.old left.new result }
{
    let _size = left.len();
    let count = read_line(left, b" steps ")?;
    read_steps(alloc, left, count)
}

// Reads the lane of a number.
fn read_lane(alloc: Global, left: &mut Left, number: u64) -> Result<LaneResults, TextFault>
    ensures { Takes IsSizedLane Anything (lane_text number) left.old left.new result }
{
    read_marked(left, b"lane ", number)?;
    read_counted_steps(alloc, left)
}

/// Reads the results of so many lanes.
pub(crate) fn read_lanes(
    alloc: Global,
    left: &mut Left,
    count: u64,
) -> Result<LaneResultsList, TextFault>
    ensures { Takes (Many IsSizedLane count) Anything (lanes_text 1) left.old left.new result }
{
    let mut lanes = List::new(alloc);
    for before in 0..count {
        let lane = read_lane(alloc, left, before + 1)?;
        lanes.push(lane)?;
    }
    Ok(lanes)
}
