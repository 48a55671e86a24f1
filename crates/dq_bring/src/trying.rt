ghost use Rattle.std.specs.Prelude.{◌≡◌, None, IfOk, false};
ghost use Rattle.dq_base.specs.Validity.{invalid_by};
ghost use Rattle.dq_bring.specs.Dials.{IsPlanOf, UndialledBy};
ghost use Rattle.dq_bring.specs.Phases.{CanTry, IsPhase, Standing, is_pending, is_untold};
ghost use Rattle.dq_bring.specs.Tried.{AnswersAs, TriedTo};
ghost use Rattle.dq_trial.specs.Links.{IsNamed};

use crate::bringing::Bearings;
use crate::phase::{Answer, Phase};
use dq_base::{Canon, Memory, Table};
use dq_desk::Stood;
use dq_link::{Dialer, Link, LinkFault, Lost, Pooled};
use dq_outside::Gate;
use dq_text::body;
use dq_trial::{Tried, try_flight};
use std::alloc::Global;
use std::sync::Arc;

/// An answer that is ready to land.
fn ready_answer(alloc: Global, key: &Canon, table: Table) -> Result<Answer, Memory>
    ensures { IfOk result (AnswersAs key.now table) }
{
    let body = body(alloc, key)?;
    let table = Arc::new(alloc, table)?;
    let further = Arc::try_clone(&table)?;
    Ok(Answer {
        body,
        table,
        further,
    })
}

/// What a trial leaves to be told.
fn tried_phase<L: Link>(alloc: Global, key: &Canon, tried: Tried<L>) -> Phase<L>
    ensures { TriedTo key.now tried result }
{
    match tried {
        Tried::Answered(link, table) => {
            let answer = ready_answer(alloc, key, table).ok();
            Phase::Back(link, true, answer)
        }
        Tried::Wanting(link, ran) => Phase::Back(link, ran, None),
        Tried::Lost(wreck, ran) => Phase::Lost(wreck.number(), Lost::Link(wreck, ran)),
    }
}

/// Tries the flight on its link.
fn try_on<L: Link, G: Gate>(
    alloc: Global,
    gate: &G,
    lane: u32,
    step: u32,
    link: Pooled<L>,
    key: &Canon,
    stood: &Stood,
) -> Phase<L>
    ghost at: { Standing }
    requires link { CanTry (record { runs = L.runs; calls = L.calls; mounts = L.mounts; planned = L.planned }) at at.course link }
    requires key { at.key ≡ key.now }
    requires same { at.stamp ≡ stood.now.stamp }
    requires stood { IsNamed at.loaded.script.schemas at.versions key.now.source (record { stamp = stood.now.stamp; version = stood.now.extract }) }
    requires valid { invalid_by at.loaded.script.schemas key.now ≡ None }
    ensures phase { IsPhase (record { runs = L.runs; calls = L.calls; mounts = L.mounts; planned = L.planned }) at result }
    ensures done { is_pending result ≡ false }
    ensures told { is_untold result ≡ false }
{
    let tried = try_flight(
        alloc,
        gate,
        lane,
        step,
        link,
        stood.stamp(),
        stood.extract(),
        key,
    );
    tried_phase(alloc, key, tried)
}

/// Dials the link of that number, and tries the flight on it.
fn dial_and_try<L: Link, G: Gate, D: Dialer<L = L>>(
    alloc: Global,
    gate: &G,
    dialer: &mut D,
    lane: u32,
    step: u32,
    number: u64,
    key: &Canon,
    stood: &Stood,
) -> Phase<L>
    ghost at: { Standing }
    requires phase { IsPhase (record { runs = L.runs; calls = L.calls; mounts = L.mounts; planned = L.planned }) at (Phase.Dial number) }
    requires key { at.key ≡ key.now }
    requires same { at.stamp ≡ stood.now.stamp }
    requires stood { IsNamed at.loaded.script.schemas at.versions key.now.source (record { stamp = stood.now.stamp; version = stood.now.extract }) }
    requires valid { invalid_by at.loaded.script.schemas key.now ≡ None }
    requires plan { IsPlanOf at.loaded lane (D.plan dialer.old) }
    ensures phase { IsPhase (record { runs = L.runs; calls = L.calls; mounts = L.mounts; planned = L.planned }) at result }
    ensures done { is_pending result ≡ false }
    ensures dials { UndialledBy false (is_untold result) (D.faults dialer.old) (D.faults dialer.new) }
    ensures plan { D.plan dialer.new ≡ D.plan dialer.old }
{
    match dialer.dial(alloc) {
        Ok(link) => {
            let link = Pooled::new(alloc, number, link);
            try_on(alloc, gate, lane, step, link, key, stood)
        }
        Err(LinkFault::Failed) => Phase::Lost(number, Lost::Dial),
        Err(LinkFault::Memory) => Phase::Undialled,
    }
}

/// What needs no turn: a link that was leased is dialled, if it is a fresh one, and the flight is tried on it.
pub(crate) fn work_on<L: Link, G: Gate, D: Dialer<L = L>>(
    alloc: Global,
    gate: &G,
    dialer: &mut D,
    bearings: &Bearings,
    step: u32,
    phase: Phase<L>,
    key: &Canon,
    stood: &Stood,
) -> Phase<L>
    ghost at: { Standing }
    requires phase { IsPhase (record { runs = L.runs; calls = L.calls; mounts = L.mounts; planned = L.planned }) at phase }
    requires key { at.key ≡ key.now }
    requires same { at.stamp ≡ stood.now.stamp }
    requires stood { IsNamed at.loaded.script.schemas at.versions key.now.source (record { stamp = stood.now.stamp; version = stood.now.extract }) }
    requires valid { invalid_by at.loaded.script.schemas key.now ≡ None }
    requires plan { IsPlanOf at.loaded bearings.now.lane (D.plan dialer.old) }
    ensures phase { IsPhase (record { runs = L.runs; calls = L.calls; mounts = L.mounts; planned = L.planned }) at result }
    ensures done { is_pending result ≡ false }
    ensures dials { UndialledBy (is_untold phase) (is_untold result) (D.faults dialer.old) (D.faults dialer.new) }
    ensures plan { D.plan dialer.new ≡ D.plan dialer.old }
{
    let lane = bearings.lane;
    match phase {
        Phase::Idle(link) => try_on(alloc, gate, lane, step, link, key, stood),
        Phase::Dial(number) => dial_and_try(alloc, gate, dialer, lane, step, number, key, stood),
        other => other,
    }
}
