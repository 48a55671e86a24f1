ghost use Rattle.std.specs.Prelude.{◌≡◌, ◌<◌, ◌≤◌, false};
ghost use Rattle.dq_bring.specs.Flights.{IsBringing};
ghost use Rattle.dq_bring.specs.Phases.{is_pending};
ghost use Rattle.dq_bring.specs.Told.{GivenTo, IsTold};

use crate::bringing::Bringing;
use crate::phase::{Answer, Phase};
use dq_base::Table;
use dq_desk::{Desk, Leased};
use dq_extract::Loaded;
use dq_journal::Cause;
use dq_laws::calls_are_few;
use dq_link::{Link, Lost, Pooled};
use std::sync::Arc;

/// How a flight ended.
#[derive(Drop)]
pub enum Ending {
    /// It landed with this answer.
    Landed(Arc<Table>),
    /// Two links were lost for it.
    BackEnd,
    /// Memory was wanting.
    Memory,
}

/// What a turn made of a flight.
#[derive(Drop)]
pub enum Flown<L: Link> {
    /// It is still to be brought.
    On(Bringing<L>),
    /// It ended.
    Over(Ending),
}

/// What an event made of a flight: how many links it lost so far and how far it is, or how it ended.
#[derive(Drop)]
pub(crate) enum Told<L: Link> {
    On(u32, Phase<L>),
    Over(Ending),
}

/// A link for a flight that has none.
fn lease<L: Link>(
    desk: &mut Desk<L>,
    loaded: &Loaded,
    lane: u32,
    flight: u64,
    losses: u32,
) -> Told<L>
    requires same { desk.old.loaded ≡ loaded.now }
    requires bringing { IsBringing (record { runs = L.runs; calls = L.calls; mounts = L.mounts; planned = L.planned }) desk.old.loaded lane flight losses desk.old.journal Phase.New }
    requires few { losses < 2 }
    ensures told { IsTold (record { runs = L.runs; calls = L.calls; mounts = L.mounts; planned = L.planned }) desk.old.loaded lane flight Phase.New desk.old.journal desk.new.journal result }
    ensures loaded { desk.new.loaded ≡ desk.old.loaded }
{
    let leased = desk.lease(lane, flight);
    calls_are_few(loaded, desk.journal().as_slice());
    match leased {
        Leased::Idle(link) => Told::On(losses, Phase::Idle(link)),
        Leased::Dial(number) => Told::On(losses, Phase::Dial(number)),
    }
}

/// A flight that lost two links falls.
fn fail<L: Link>(desk: &mut Desk<L>, lane: u32, flight: u64, losses: u32) -> Told<L>
    requires bringing { IsBringing (record { runs = L.runs; calls = L.calls; mounts = L.mounts; planned = L.planned }) desk.old.loaded lane flight losses desk.old.journal Phase.New }
    requires many { 2 ≤ losses }
    ensures told { IsTold (record { runs = L.runs; calls = L.calls; mounts = L.mounts; planned = L.planned }) desk.old.loaded lane flight Phase.New desk.old.journal desk.new.journal result }
    ensures loaded { desk.new.loaded ≡ desk.old.loaded }
{
    desk.fall(lane, flight, Cause::BackEnd);
    Told::Over(Ending::BackEnd)
}

/// What is left once a link was given back.
fn given<L: Link>(answer: Option<Answer>) -> Phase<L>
    ensures { GivenTo answer result }
{
    match answer {
        Some(answer) => Phase::Landing(answer),
        None => Phase::Falling,
    }
}

/// A link goes back to the desk.
fn give<L: Link>(
    desk: &mut Desk<L>,
    lane: u32,
    flight: u64,
    losses: u32,
    link: Pooled<L>,
    ran: bool,
    answer: Option<Answer>,
) -> Told<L>
    requires bringing { IsBringing (record { runs = L.runs; calls = L.calls; mounts = L.mounts; planned = L.planned }) desk.old.loaded lane flight losses desk.old.journal (Phase.Back link ran answer) }
    ensures told { IsTold (record { runs = L.runs; calls = L.calls; mounts = L.mounts; planned = L.planned }) desk.old.loaded lane flight (Phase.Back link ran answer) desk.old.journal desk.new.journal result }
    ensures loaded { desk.new.loaded ≡ desk.old.loaded }
{
    desk.give(lane, flight, link, ran);
    Told::On(losses, given(answer))
}

/// A link was lost, or a dial failed.
fn lose<L: Link>(
    desk: &mut Desk<L>,
    lane: u32,
    flight: u64,
    losses: u32,
    number: u64,
    lost: Lost<L>,
) -> Told<L>
    requires bringing { IsBringing (record { runs = L.runs; calls = L.calls; mounts = L.mounts; planned = L.planned }) desk.old.loaded lane flight losses desk.old.journal (Phase.Lost number lost) }
    ensures told { IsTold (record { runs = L.runs; calls = L.calls; mounts = L.mounts; planned = L.planned }) desk.old.loaded lane flight (Phase.Lost number lost) desk.old.journal desk.new.journal result }
    ensures loaded { desk.new.loaded ≡ desk.old.loaded }
{
    desk.lose(lane, flight, number, lost);
    Told::On(losses + 1, Phase::New)
}

/// A flight for which memory was wanting in a dial falls.
fn fall_undialled<L: Link>(desk: &mut Desk<L>, lane: u32, flight: u64, losses: u32) -> Told<L>
    requires bringing { IsBringing (record { runs = L.runs; calls = L.calls; mounts = L.mounts; planned = L.planned }) desk.old.loaded lane flight losses desk.old.journal Phase.Undialled }
    ensures told { IsTold (record { runs = L.runs; calls = L.calls; mounts = L.mounts; planned = L.planned }) desk.old.loaded lane flight Phase.Undialled desk.old.journal desk.new.journal result }
    ensures loaded { desk.new.loaded ≡ desk.old.loaded }
{
    desk.fall(lane, flight, Cause::Memory);
    Told::Over(Ending::Memory)
}

/// A flight for which memory was wanting after its link was given back falls.
fn fall_given<L: Link>(desk: &mut Desk<L>, lane: u32, flight: u64, losses: u32) -> Told<L>
    requires bringing { IsBringing (record { runs = L.runs; calls = L.calls; mounts = L.mounts; planned = L.planned }) desk.old.loaded lane flight losses desk.old.journal Phase.Falling }
    ensures told { IsTold (record { runs = L.runs; calls = L.calls; mounts = L.mounts; planned = L.planned }) desk.old.loaded lane flight Phase.Falling desk.old.journal desk.new.journal result }
    ensures loaded { desk.new.loaded ≡ desk.old.loaded }
{
    desk.fall(lane, flight, Cause::Memory);
    Told::Over(Ending::Memory)
}

/// A flight lands with its answer.
fn land<L: Link>(desk: &mut Desk<L>, lane: u32, flight: u64, losses: u32, answer: Answer) -> Told<L>
    requires bringing { IsBringing (record { runs = L.runs; calls = L.calls; mounts = L.mounts; planned = L.planned }) desk.old.loaded lane flight losses desk.old.journal (Phase.Landing answer) }
    ensures told { IsTold (record { runs = L.runs; calls = L.calls; mounts = L.mounts; planned = L.planned }) desk.old.loaded lane flight (Phase.Landing answer) desk.old.journal desk.new.journal result }
    ensures loaded { desk.new.loaded ≡ desk.old.loaded }
{
    let Answer {
        body,
        table,
        further,
    } = answer;
    desk.land(lane, flight, body, table);
    // A desk's journal is legal: only this read tells it to the proof.
    let _journal = desk.journal();
    Told::Over(Ending::Landed(further))
}

/// The next event of a flight on which there is no work.
pub(crate) fn tell<L: Link>(
    desk: &mut Desk<L>,
    loaded: &Loaded,
    lane: u32,
    flight: u64,
    losses: u32,
    phase: Phase<L>,
) -> Told<L>
    requires same { desk.old.loaded ≡ loaded.now }
    requires bringing { IsBringing (record { runs = L.runs; calls = L.calls; mounts = L.mounts; planned = L.planned }) desk.old.loaded lane flight losses desk.old.journal phase }
    requires worked { is_pending phase ≡ false }
    ensures told { IsTold (record { runs = L.runs; calls = L.calls; mounts = L.mounts; planned = L.planned }) desk.old.loaded lane flight phase desk.old.journal desk.new.journal result }
    ensures loaded { desk.new.loaded ≡ desk.old.loaded }
{
    match phase {
        Phase::New => {
            if losses < 2 {
                return lease(desk, loaded, lane, flight, losses);
            }
            fail(desk, lane, flight, losses)
        }
        Phase::Idle(_) | Phase::Dial(_) => unreachable!(),
        Phase::Back(link, ran, answer) => give(desk, lane, flight, losses, link, ran, answer),
        Phase::Lost(number, lost) => lose(desk, lane, flight, losses, number, lost),
        Phase::Undialled => fall_undialled(desk, lane, flight, losses),
        Phase::Landing(answer) => land(desk, lane, flight, losses, answer),
        Phase::Falling => fall_given(desk, lane, flight, losses),
    }
}
