ghost use Rattle.std.specs.Prelude.{◌≡◌, ◌≤◌, ◌++◌, true, nat_le, length, map, IfOk};
ghost use Rattle.std.specs.List.{list_all};
ghost use Rattle.dq_script.specs.Scripts.{bound_with, fails_in, fails_from, session_with, blend_with, blends_in, blends_from, script_with};
ghost use Rattle.dq_script.specs.Made.{few_pairs, few_lane, CanBeMade};

use crate::batch::{Pair, Pairs};
use crate::draft::Draft;
use crate::faults::Fault;
use crate::form::Form;
use crate::sessions::Filtered;
use dq_base::{
    Blend, Blends, Bound, Duplicate, Fails, FailsList, List, Memory, Numbers, Numbers64, Script,
    Session, Sessions, Steps,
};
use std::alloc::Global;

// A copy of numbers.
fn copy_of(alloc: Global, numbers: &[u64]) -> Result<Numbers64, Memory>
    ensures { IfOk result (λ copy. copy ≡ numbers.now) }
{
    let items = numbers.to_vec(alloc)?;
    Ok(List::from_vec(items))
}

// What a fault wants to fail.
fn fails_of(alloc: Global, fault: &Fault) -> Result<Fails, Memory>
    ensures { IfOk result (λ fails. fails ≡ record { dials = fault.now.dials; links = fault.now.links }) }
{
    let dials = copy_of(alloc, fault.dials.as_slice())?;
    let links = copy_of(alloc, fault.links.as_slice())?;
    Ok(Fails { dials, links })
}

// What is wanted to fail in a lane.
fn fails_in(alloc: Global, faults: &[Fault], lane: u64) -> Result<Fails, Memory>
    ensures { IfOk result (λ fails. fails ≡ fails_in faults.now lane) }
{
    for fault in faults {
        if fault.lane == lane {
            return fails_of(alloc, fault);
        }
    }
    Ok(Fails {
        dials: Numbers64::new(alloc),
        links: Numbers64::new(alloc),
    })
}

// What is wanted to fail, lane by lane.
fn make_fails(alloc: Global, faults: &[Fault], lanes: &[Steps]) -> Result<FailsList, Memory>
    ensures { IfOk result (λ fails. fails ≡ fails_from faults.now 1 lanes.now) }
{
    let mut fails = FailsList::new(alloc);
    for (place, _steps) in lanes.iter().enumerate() {
        fails.push(fails_in(alloc, faults, place as u64 + 1)?)?;
    }
    Ok(fails)
}

// The turns as numbers of lanes.
fn make_turns(alloc: Global, turns: &[u64]) -> Result<Numbers, Memory>
    requires { list_all (λ turn. nat_le turn 4294967295) turns.now ≡ true }
    ensures { IfOk result (λ numbers. numbers ≡ turns.now) }
{
    let mut numbers = Numbers::new(alloc);
    for turn in turns {
        numbers.push(*turn as u32)?;
    }
    Ok(numbers)
}

// A session of a lane that there is.
fn make_session(alloc: Global, session: &Filtered) -> Result<Session, Memory>
    requires { nat_le session.now.lane 64 ≡ true }
    ensures { IfOk result (λ made. made ≡ session_with session.now) }
{
    let filters = session.filters.duplicate(alloc)?;
    Ok(Session {
        lane: session.lane as u32,
        source: session.source,
        filters,
    })
}

// Sessions of lanes that there are. Their filters are copied, which have few items.
fn make_sessions(alloc: Global, sessions: &[Filtered]) -> Result<Sessions, Memory>
    requires { list_all (λ s. nat_le s.lane 64) sessions.now ≡ true }
    ensures { IfOk result (λ made. made ≡ map session_with sessions.now) }
{
    let mut made = Sessions::new(alloc);
    for session in sessions {
        made.push(make_session(alloc, session)?)?;
    }
    Ok(made)
}

// The blends of a step.
fn put_pairs(
    alloc: Global,
    blends: Blends,
    lane: u32,
    step: u32,
    pairs: &[Pair],
) -> Result<Blends, Memory>
    requires { few_pairs pairs.now ≡ true }
    ensures { IfOk result (λ made. made ≡ blends ++ map (blend_with lane step) pairs.now) }
{
    let mut made = blends;
    for pair in pairs {
        let links = pair.links.duplicate(alloc)?;
        made.push(Blend {
            lane,
            step,
            zone: pair.zone as u32,
            links,
        })?;
    }
    Ok(made)
}

// The blends of a lane.
fn put_steps(alloc: Global, blends: Blends, lane: u32, pairs: &[Pairs]) -> Result<Blends, Memory>
    requires { few_lane pairs.now ≡ true }
    ensures { IfOk result (λ made. made ≡ blends ++ blends_in lane 1 pairs.now) }
{
    let mut made = blends;
    for (place, step) in pairs.iter().enumerate() {
        made = put_pairs(alloc, made, lane, place as u32 + 1, step.as_slice())?;
    }
    Ok(made)
}

// The blends of lanes.
fn make_blends(alloc: Global, pairs: &[List<Pairs>]) -> Result<Blends, Memory>
    requires few { length pairs.now ≤ 64 }
    requires lanes { list_all few_lane pairs.now ≡ true }
    ensures { IfOk result (λ made. made ≡ blends_from 1 pairs.now) }
{
    let mut made = Blends::new(alloc);
    for (place, lane) in pairs.iter().enumerate() {
        made = put_steps(alloc, made, place as u32 + 1, lane.as_slice())?;
    }
    Ok(made)
}

// How much a cache holds, by the form.
fn bound_with(form: Form, number: u64) -> Bound
    requires { number ≤ 4194304 }
    ensures { result ≡ bound_with form number }
{
    match form {
        Form::First => Bound::Entries(number as u32),
        Form::Second => Bound::Cells(number as u32),
    }
}

// The script of a draft against which there is no reason.
pub fn make_script(alloc: Global, draft: Draft) -> Result<Script, Memory>
    requires { CanBeMade draft }
    ensures { IfOk result (λ script. script ≡ script_with draft) }
{
    let Draft {
        form,
        extracts,
        plan,
    } = draft;
    let fails = make_fails(alloc, plan.faults.as_slice(), plan.lanes.lanes.as_slice())?;
    let schedule = make_turns(alloc, plan.schedule.as_slice())?;
    let sessions = make_sessions(alloc, plan.sessions.as_slice())?;
    let blends = make_blends(alloc, plan.lanes.pairs.as_slice())?;
    Ok(Script {
        names: extracts.names.into_list(),
        schemas: extracts.schemas,
        literal: bound_with(form, plan.literal),
        clever: bound_with(form, plan.clever),
        lanes: plan.lanes.lanes,
        schedule,
        fails,
        sessions,
        blends,
    })
}
