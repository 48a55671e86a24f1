ghost use Rattle.std.specs.Arc.{arc_value};
ghost use Rattle.std.specs.Option.{option_copied};
ghost use Rattle.std.specs.Prelude.{◌≡◌, ◌+◌, ◌^◌, ◌<◌, IfOk, None, Some, List as ListOf, ◌++◌, length, option_map};
ghost use Rattle.dq_base.specs.Blends.{blend_of};
ghost use Rattle.dq_base.specs.Numbered.{numbered};
ghost use Rattle.dq_base.specs.Scripts.{step_of, zones_of};
ghost use Rattle.dq_extract.specs.Loads.{LoadedFiles};
ghost use Rattle.dq_journal.specs.Shown.{AreLanesShown, AreRows, AreShown, AreStepsShown, IsBlend, IsSame, IsStepShown, Shown, joint_at, joint_of, measures_of};
ghost use Rattle.dq_shown.specs.Showing.{Advances, LeadFrom};

use crate::starts::{Starts, blend_at, starts_of};
use dq_base::{Blend, List, Memory, Numbers, Query, Script, Step, Table};
use dq_blend::blend;
use dq_extract::Loaded;
use dq_journal::{LaneResults, LaneResultsList, StepResult, ZoneResult, ZoneResults};
use std::alloc::Global;
use std::sync::Arc;

/// The same outcome. Its rows are shared, not copied.
fn same(zone: &ZoneResult) -> Result<ZoneResult, Memory>
    ensures { IfOk result (IsSame zone.now) }
{
    match zone {
        ZoneResult::Rows(table) => {
            let table = Arc::try_clone(table)?;
            Ok(ZoneResult::Rows(table))
        }
        ZoneResult::Invalid(reason) => Ok(ZoneResult::Invalid(*reason)),
        ZoneResult::BackEnd => Ok(ZoneResult::BackEnd),
        ZoneResult::Memory => Ok(ZoneResult::Memory),
    }
}

/// The query of a zone, whose number counts from 1.
fn zone_query(script: &Script, lane: u32, step: u32, zone: u64) -> Option<&Query>
    ensures { option_copied result ≡ numbered (zones_of (step_of script.now.lanes lane step)) (zone + 1) }
{
    match script.lanes.numbered(lane)?.numbered(step)? {
        Step::Batch(zones) => zones.get(zone),
        Step::Publish { .. } => None,
    }
}

/// How many measures the second zone of a blend brings.
pub fn measures_of(script: &Script, blend: &Blend) -> u64
    ensures { result ≡ (joint_of script.now.lanes blend.now).measures }
{
    match zone_query(script, blend.lane, blend.step, u64::from(blend.zone)) {
        Some(query) => query.measures.len(),
        None => 0,
    }
}

/// The rows of two answers as one, or want of memory.
fn blend_rows(
    alloc: Global,
    first: &Table,
    second: &Table,
    links: &Numbers,
    measures: u64,
) -> ZoneResult
    ensures { AreRows (blend_of first.now second.now links.now measures) result }
{
    let Ok(count) = u32::try_from(measures) else {
        return ZoneResult::Memory;
    };
    let Ok(table) = blend(alloc, first, second, links, count) else {
        return ZoneResult::Memory;
    };
    match Arc::new(alloc, table) {
        Ok(owner) => ZoneResult::Rows(owner),
        Err(_) => ZoneResult::Memory,
    }
}

/// The one outcome of two zones that are blended.
fn blend_zones(
    alloc: Global,
    script: &Script,
    blend: &Blend,
    first: &ZoneResult,
    second: &ZoneResult,
) -> ZoneResult
    ensures { IsBlend (joint_of script.now.lanes blend.now) first.now second.now result }
{
    match first {
        ZoneResult::Rows(one) => match second {
            ZoneResult::Rows(two) => {
                blend_rows(alloc, one, two, &blend.links, measures_of(script, blend))
            }
            ZoneResult::Invalid(reason) => ZoneResult::Invalid(*reason),
            ZoneResult::BackEnd => ZoneResult::BackEnd,
            ZoneResult::Memory => ZoneResult::Memory,
        },
        ZoneResult::Invalid(reason) => ZoneResult::Invalid(*reason),
        ZoneResult::BackEnd => ZoneResult::BackEnd,
        ZoneResult::Memory => ZoneResult::Memory,
    }
}

/// The first zone of a blend whose second one is to come.
#[derive(Clone, Copy)]
pub struct Pending<'a> {
    blend: &'a Blend,
    first: &'a ZoneResult,
}

/// Puts what is shown of one more outcome of a batch behind the others, unless a blend begins with it.
fn show_zone<'a>(
    alloc: Global,
    script: &'a Script,
    starts: &Starts,
    start: (u64, u64, u64),
    pending: Option<Pending<'a>>,
    zone: &'a ZoneResult,
    shown: &mut ZoneResults,
) -> Result<Option<Pending<'a>>, Memory>
    requires { LeadFrom 0 script.now.blends starts.now.entries }
    ensures { IfOk result (λ next. Advances script.now start.0 start.1 start.2 pending.entry zone.now next shown.old shown.new) }
{
    if let Some(Pending { blend, first }) = pending {
        shown.push(blend_zones(alloc, script, blend, first, zone))?;
        return Ok(None);
    }
    if let Some(blend) = blend_at(&script.blends, starts, start) {
        return Ok(Some(Pending { blend, first: zone }));
    }
    shown.push(same(zone)?)?;
    Ok(None)
}

/// What is shown of a batch's outcomes.
fn show_zones(
    alloc: Global,
    script: &Script,
    starts: &Starts,
    lane: u64,
    step: u64,
    zones: &[ZoneResult],
) -> Result<ZoneResults, Memory>
    requires { LeadFrom 0 script.now.blends starts.now.entries }
    ensures { IfOk result (AreShown (joint_at script.now lane step) 1 None zones.now) }
{
    let mut shown = ZoneResults::new(alloc);
    let mut pending = None;
    for (place, zone) in zones.iter().enumerate() {
        let start = (lane, step, place as u64 + 1);
        pending = show_zone(alloc, script, starts, start, pending, zone, &mut shown)?;
    }
    match pending {
        None => Ok(shown),
        Some(Pending { first, .. }) => {
            shown.push(same(first)?)?;
            Ok(shown)
        }
    }
}

/// What is shown of a step.
fn show_step(
    alloc: Global,
    script: &Script,
    starts: &Starts,
    lane: u64,
    step: u64,
    outcome: &StepResult,
) -> Result<StepResult, Memory>
    requires { LeadFrom 0 script.now.blends starts.now.entries }
    ensures { IfOk result (IsStepShown (joint_at script.now lane step) outcome.now) }
{
    match outcome {
        StepResult::Published(place) => Ok(StepResult::Published(*place)),
        StepResult::Unpublished => Ok(StepResult::Unpublished),
        StepResult::Admitted(place, zones) => {
            let zones = show_zones(alloc, script, starts, lane, step, zones.as_slice())?;
            Ok(StepResult::Admitted(*place, zones))
        }
        StepResult::Unadmitted(zones) => {
            let zones = show_zones(alloc, script, starts, lane, step, zones.as_slice())?;
            Ok(StepResult::Unadmitted(zones))
        }
    }
}

/// What is shown of a lane's steps.
fn show_lane(
    alloc: Global,
    script: &Script,
    starts: &Starts,
    lane: u64,
    steps: &[StepResult],
) -> Result<LaneResults, Memory>
    requires { LeadFrom 0 script.now.blends starts.now.entries }
    ensures { IfOk result (AreStepsShown (joint_at script.now lane) 1 steps.now) }
{
    let mut shown = LaneResults::new(alloc);
    for (place, step) in steps.iter().enumerate() {
        let step = show_step(alloc, script, starts, lane, place as u64 + 1, step)?;
        shown.push(step)?;
    }
    Ok(shown)
}

/// What is shown of the results of all lanes: where two zones are blended, one outcome in the place of two. Rows are shared,
/// but for those of blends. The cost is that of the blends, and linear in the zones times the logarithm of the blends.
pub fn show(
    alloc: Global,
    loaded: &Loaded,
    results: &LaneResultsList,
) -> Result<LaneResultsList, Memory>
    ensures { IfOk result (Shown loaded.now results.now) }
{
    let script = loaded.script();
    let starts = starts_of(alloc, &script.blends)?;
    let mut shown = LaneResultsList::new(alloc);
    for (place, steps) in results.as_slice().iter().enumerate() {
        let lane = show_lane(alloc, script, &starts, place as u64 + 1, steps.as_slice())?;
        shown.push(lane)?;
    }
    Ok(shown)
}
