ghost use Rattle.std.specs.Prelude.{◌≡◌, ◌+◌, ◌++◌, IfOk, OnOk, map};
ghost use Rattle.dq_base.specs.Scripts.{IsScript};
ghost use Rattle.dq_base.specs.Sessions.{shielded, shielded_lanes, shielded_step};
ghost use Rattle.dq_shield.specs.Own.{filters_over, sessions_of, step_with, zone_with};

use dq_base::{
    Duplicate, LaneSteps, Memory, Predicate, Predicates, Queries, Query, Script, Session, Sessions,
    Step, Steps,
};
use std::alloc::Global;

/// The sessions of a lane, in order.
fn own_of(alloc: Global, sessions: &Sessions, lane: u64) -> Result<Vec<&Session>, Memory>
    ensures { IfOk result (λ own. map (λ s. s.now) own.items ≡ sessions_of lane sessions.now) }
{
    let mut own = Vec::new(alloc);
    for session in sessions.as_slice() {
        if u64::from(session.lane) == lane {
            own.push(session)?;
        }
    }
    Ok(own)
}

/// Puts copies of predicates behind others.
fn push_filters(alloc: Global, filters: &mut Predicates, more: &[Predicate]) -> Result<(), Memory>
    ensures { OnOk result (filters.new ≡ filters.old ++ more.now) }
{
    for predicate in more {
        filters.push(predicate.duplicate(alloc)?)?;
    }
    Ok(())
}

/// Puts the filters of these sessions over a source behind others.
fn push_over(
    alloc: Global,
    filters: &mut Predicates,
    source: u32,
    own: &[&Session],
) -> Result<(), Memory>
    ensures { OnOk result (filters.new ≡ filters.old ++ filters_over source (map (λ s. s.now) own.now)) }
{
    for session in own {
        if session.source == source {
            push_filters(alloc, filters, session.filters.as_slice())?;
        }
    }
    Ok(())
}

/// Shields a zone.
fn shield_zone(alloc: Global, zone: &mut Query, own: &[&Session]) -> Result<(), Memory>
    ensures { OnOk result (zone.new ≡ zone_with (map (λ s. s.now) own.now) zone.old) }
{
    push_over(alloc, &mut zone.filters, zone.source, own)
}

/// Shields the zones of a batch.
fn shield_zones(alloc: Global, zones: &mut Queries, own: &[&Session]) -> Result<(), Memory>
    ensures { OnOk result (zones.new ≡ map (zone_with (map (λ s. s.now) own.now)) zones.old) }
{
    for place in 0..zones.len() {
        shield_zone(alloc, zones.item_mut(place), own)?;
    }
    Ok(())
}

/// Shields a step. A publication asks for nothing.
fn shield_step(alloc: Global, step: &mut Step, own: &[&Session]) -> Result<(), Memory>
    ensures { OnOk result (step.new ≡ step_with (map (λ s. s.now) own.now) step.old) }
{
    match step {
        Step::Publish { .. } => Ok(()),
        Step::Batch(zones) => shield_zones(alloc, zones, own),
    }
}

/// Shields the steps of the lane of these sessions.
fn shield_steps(alloc: Global, steps: &mut Steps, own: &[&Session]) -> Result<(), Memory>
    ensures { OnOk result (steps.new ≡ map (step_with (map (λ s. s.now) own.now)) steps.old) }
{
    for place in 0..steps.len() {
        shield_step(alloc, steps.item_mut(place), own)?;
    }
    Ok(())
}

/// Shields the steps of a lane of that number.
fn shield_lane(
    alloc: Global,
    steps: &mut Steps,
    sessions: &Sessions,
    lane: u64,
) -> Result<(), Memory>
    ensures { OnOk result (steps.new ≡ map (shielded_step sessions.now lane) steps.old) }
{
    let own = own_of(alloc, sessions, lane)?;
    shield_steps(alloc, steps, own.as_slice())?;
    Ok(())
}

/// Shields each lane.
fn shield_lanes(alloc: Global, lanes: &mut LaneSteps, sessions: &Sessions) -> Result<(), Memory>
    ensures { OnOk result (lanes.new ≡ shielded_lanes sessions.now 1 lanes.old) }
{
    for place in 0..lanes.len() {
        shield_lane(alloc, lanes.item_mut(place), sessions, place + 1)?;
    }
    Ok(())
}

/// The script whose zones ask of what the sessions of their lanes leave: each session's filters over a zone's source stand
/// behind the zone's own. All else stays, and only filters are copied. On an `Err` the script is dropped.
///
/// It costs the sessions times the lanes, the zones times the sessions of their lanes, and the copies.
pub fn shield(alloc: Global, script: Script) -> Result<Script, Memory>
    ensures shielded { IfOk result (λ s. s ≡ shielded script) }
    ensures fits { IsScript script → IfOk result IsScript }
{
    let mut script = script;
    shield_lanes(alloc, &mut script.lanes, &script.sessions)?;
    Ok(script)
}
