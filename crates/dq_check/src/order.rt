ghost use Rattle.std.specs.List.{flat_map, list_all};
ghost use Rattle.std.specs.Option.{option_copied};
ghost use Rattle.std.specs.Prelude.{◌≡◌, ◌++◌, ◌≤◌, IfOk, OnOk, drop, length, nat_eq};
ghost use Rattle.std.specs.Cmp.Lexicographic.{pointwise};
ghost use Rattle.dq_base.specs.Scripts.{numbered};
ghost use Rattle.dq_journal.specs.Journals as journals;
ghost use Rattle.dq_journal.specs.Steps as named;
ghost use Rattle.dq_journal.specs.Steps.{done_from, entries_of, steps_named};
ghost use Rattle.dq_machine.specs.Order as specified;
ghost use Rattle.dq_machine.specs.State.{none_left};

use dq_base::{LaneSteps, List, Memory, Numbers64, Step, Steps};
use dq_extract::Loaded;
use dq_journal::{Entry, LaneResults, LaneResultsList, StepResult};
use dq_machine::{lane_of, step_at};
use std::alloc::Global;

/// The entry at a place from 1.
pub(crate) fn entry_at(journal: &[Entry], place: u64) -> Option<&Entry>
    ensures { option_copied result ≡ numbered journal.now place }
{
    if place == 0 {
        return None;
    }
    journal.get((place - 1) as usize)
}

/// Whether the entry publishes this step.
fn publishes(entry: Option<&Entry>, lane: u64, number: u64) -> bool
    ensures { result ≡ specified.publishes lane number (option_copied entry.entry) }
{
    match entry {
        Some(Entry::Publish { lane: a, step: b }) => {
            u64::from(*a) == lane && u64::from(*b) == number
        }
        _ => false,
    }
}

/// Whether the entry admits it.
fn admits(entry: Option<&Entry>, lane: u64, number: u64) -> bool
    ensures { result ≡ specified.admits lane number (option_copied entry.entry) }
{
    match entry {
        Some(
            Entry::Admit {
                lane: a,
                step: b,
                ..
            },
        ) => u64::from(*a) == lane && u64::from(*b) == number,
        _ => false,
    }
}

/// Whether the result is that of a refresh, and tells the place of its entry.
fn refresh_tells(journal: &[Entry], lane: u64, number: u64, told: &StepResult) -> bool
    ensures { result ≡ specified.refresh_tells journal.now lane number told.now }
{
    match told {
        StepResult::Published(place) => publishes(entry_at(journal, *place), lane, number),
        StepResult::Unpublished => true,
        StepResult::Admitted(..) => false,
        StepResult::Unadmitted(_) => false,
    }
}

/// Whether the result is that of a batch, and tells the place of its entry.
fn batch_tells(journal: &[Entry], lane: u64, number: u64, told: &StepResult) -> bool
    ensures { result ≡ specified.batch_tells journal.now lane number told.now }
{
    match told {
        StepResult::Published(_) => false,
        StepResult::Unpublished => false,
        StepResult::Admitted(place, _) => admits(entry_at(journal, *place), lane, number),
        StepResult::Unadmitted(_) => true,
    }
}

/// Whether a step's result is of its kind, and tells the place of its entry.
fn tells_place(journal: &[Entry], lane: u64, number: u64, step: &Step, told: &StepResult) -> bool
    ensures { result ≡ specified.tells_place journal.now lane number step.now told.now }
{
    match step {
        Step::Publish { .. } => refresh_tells(journal, lane, number, told),
        Step::Batch(_) => batch_tells(journal, lane, number, told),
    }
}

/// Whether there is one such result for each step of a lane.
fn tell_places(journal: &[Entry], lane: u64, steps: &[Step], told: &[StepResult]) -> bool
    ensures { result ≡ specified.tell_places journal.now lane 1 steps.now told.now }
{
    if steps.len() != told.len() {
        return false;
    }
    for (place, step) in steps.iter().enumerate() {
        if !tells_place(journal, lane, place as u64 + 1, step, &told[place]) {
            return false;
        }
    }
    true
}

/// Puts the step that an entry names at the end, if it names one.
fn push_step(steps: &mut Numbers64, entry: &Entry) -> Result<(), Memory>
    ensures { OnOk result (steps.new ≡ steps.old ++ named.step_in entry.now) }
{
    match entry {
        Entry::Publish { step, .. } => steps.push(u64::from(*step)),
        Entry::Admit { step, .. } => steps.push(u64::from(*step)),
        _ => Ok(()),
    }
}

/// The steps that a lane's entries name, in order.
fn steps_in(alloc: Global, journal: &[Entry], lane: u64) -> Result<Numbers64, Memory>
    ensures { IfOk result (λ steps. steps ≡ flat_map named.step_in (entries_of lane journal.now)) }
{
    let mut steps = List::new(alloc);
    for entry in journal {
        if u64::from(lane_of(entry)) == lane {
            push_step(&mut steps, entry)?;
        }
    }
    Ok(steps)
}

/// Puts a step's number at the end, unless the step was refused.
fn push_done(steps: &mut Numbers64, number: u64, told: &StepResult) -> Result<(), Memory>
    ensures { OnOk result (steps.new ≡ steps.old ++ named.unless_refused number told.now) }
{
    match told {
        StepResult::Published(_) => steps.push(number),
        StepResult::Unpublished => Ok(()),
        StepResult::Admitted(..) => steps.push(number),
        StepResult::Unadmitted(_) => Ok(()),
    }
}

/// The numbers of the steps that weren't refused.
fn steps_done(alloc: Global, told: &[StepResult]) -> Result<Numbers64, Memory>
    ensures { IfOk result (λ steps. steps ≡ done_from 1 told.now) }
{
    let mut steps = List::new(alloc);
    for (place, result) in told.iter().enumerate() {
        push_done(&mut steps, place as u64 + 1, result)?;
    }
    Ok(steps)
}

/// Whether the lists have the same numbers, one by one.
fn are_equal(a: &[u64], b: &[u64]) -> bool
    ensures { result ≡ pointwise nat_eq a.now b.now }
{
    if a.len() != b.len() {
        return false;
    }
    for (place, number) in a.iter().enumerate() {
        if *number != b[place] {
            return false;
        }
    }
    true
}

/// Whether an entry ends its lane.
fn is_end(entry: &Entry) -> bool
    ensures { result ≡ named.is_end entry.now }
{
    match entry {
        Entry::End { .. } => true,
        _ => false,
    }
}

/// Whether a lane has no entry from a place on, which counts from 0.
fn none_from(journal: &[Entry], lane: u64, from: usize) -> bool
    requires { from ≤ length journal.now }
    ensures { result ≡ none_left (entries_of lane (drop from journal.now)) }
{
    for place in from..journal.len() {
        if u64::from(lane_of(&journal[place])) == lane {
            return false;
        }
    }
    true
}

/// Whether a lane has one End, which is its last entry.
fn ends_once(journal: &[Entry], lane: u64) -> bool
    ensures { result ≡ specified.ends_once (entries_of lane journal.now) }
{
    for (place, entry) in journal.iter().enumerate() {
        if u64::from(lane_of(entry)) == lane && is_end(entry) {
            return none_from(journal, lane, place + 1);
        }
    }
    false
}

/// Whether a lane's results tell the places of its entries, which name its steps in order, each once but the refused ones, and
/// end once. It reads the journal twice.
fn lane_keeps(
    alloc: Global,
    journal: &[Entry],
    lane: u64,
    steps: &Steps,
    told: &LaneResults,
) -> Result<bool, Memory>
    ensures { IfOk result (λ keeps. keeps ≡ specified.lane_keeps journal.now lane steps.now told.now) }
{
    if !tell_places(journal, lane, steps.as_slice(), told.as_slice()) {
        return Ok(false);
    }
    let named = steps_in(alloc, journal, lane)?;
    let done = steps_done(alloc, told.as_slice())?;
    Ok(are_equal(named.as_slice(), done.as_slice()) && ends_once(journal, lane))
}

/// Whether all lanes do.
fn lanes_keep(
    alloc: Global,
    journal: &[Entry],
    lanes: &[Steps],
    told: &[LaneResults],
) -> Result<bool, Memory>
    ensures { IfOk result (λ keeps. keeps ≡ specified.lanes_keep journal.now 1 lanes.now told.now) }
{
    if lanes.len() != told.len() {
        return Ok(false);
    }
    for (place, steps) in lanes.iter().enumerate() {
        if !lane_keeps(alloc, journal, place as u64 + 1, steps, &told[place])? {
            return Ok(false);
        }
    }
    Ok(true)
}

/// Whether the entry's step, if it names one, is of its kind.
fn names_kind(lanes: &LaneSteps, entry: &Entry) -> bool
    ensures { result ≡ specified.names_kind entry.now (steps_named lanes.now (journals.lane_of entry.now) (named.step_in entry.now)) }
{
    match entry {
        Entry::Publish { lane, step } => match step_at(lanes, *lane, *step) {
            Some(Step::Publish { .. }) => true,
            _ => false,
        },
        Entry::Admit { lane, step, .. } => match step_at(lanes, *lane, *step) {
            Some(Step::Batch(_)) => true,
            _ => false,
        },
        _ => true,
    }
}

/// Whether the lane is the script's, and the step that the entry names is of its kind.
fn is_known(lanes: &LaneSteps, entry: &Entry) -> bool
    ensures { result ≡ specified.is_known lanes.now entry.now }
{
    let lane = lane_of(entry);
    0 < lane && u64::from(lane) <= lanes.len() && names_kind(lanes, entry)
}

/// Whether all entries are known so.
fn are_known(lanes: &LaneSteps, journal: &[Entry]) -> bool
    ensures { result ≡ list_all (specified.is_known lanes.now) journal.now }
{
    journal.iter().all(|entry| is_known(lanes, entry))
}

/// Whether the journal keeps each lane's order, and the results tell its places. It reads the journal three times a lane.
pub(crate) fn keeps_order(
    alloc: Global,
    loaded: &Loaded,
    journal: &[Entry],
    told: &LaneResultsList,
) -> Result<bool, Memory>
    ensures { IfOk result (λ keeps. keeps ≡ specified.keeps_order loaded.now journal.now told.now) }
{
    let lanes = &loaded.script().lanes;
    let keep = lanes_keep(alloc, journal, lanes.as_slice(), told.as_slice())?;
    Ok(keep && are_known(lanes, journal))
}
