ghost use Rattle.std.specs.Prelude.{◌≡◌, length, true, false, None};
ghost use Rattle.dq_base.specs.Scripts.{is_lane};
ghost use Rattle.dq_base.specs.Validity.{invalid_by};
ghost use Rattle.dq_bring.specs.Dials.{IsPlanOf, UndialledBy};
ghost use Rattle.dq_bring.specs.Flights.{KeyAt};
ghost use Rattle.dq_bring.specs.Turned.{IsFlown};
ghost use Rattle.dq_fates.specs.GoingOn.{GoesOn};
ghost use Rattle.dq_machine.specs.Machine.{after, legal};
ghost use Rattle.dq_machine.specs.State.{Phase as Course, flight_at, is_first, work_of};
ghost use Rattle.dq_trial.specs.Links.{IsNamed};

use crate::phase::Phase;
use crate::telling::{Flown, Told, tell};
use crate::trying::work_on;
use dq_base::Canon;
use dq_desk::{Desk, Stood};
use dq_extract::Loaded;
use dq_journal::Journal;
use dq_link::{Dialer, Link};
use dq_outside::Gate;
use std::alloc::Global;
use std::marker::Model;
use std::mem::replace;
use std::snapshot::Snapshot;

/// Where a flight stands: the lane that brings it, its number, how many links were lost for it, what was loaded, and the journal of
/// its last event.
#[derive(Drop)]
pub(crate) struct Bearings {
    pub(crate) lane: u32,
    pub(crate) flight: u64,
    pub(crate) losses: u32,
    pub(crate) loaded: Snapshot<Loaded>,
    pub(crate) seen: Snapshot<Journal>,
}

/// The first of the flights that a lane has to bring. Contracts see whether there is work before its next turn, and the journal of
/// its last event.
#[derive(Drop)]
pub struct Bringing<L: Link> {
    bearings: Bearings,
    phase: Phase<L>,
}

impl<L: Link> Model for Bringing<L> {
    ghost use Rattle.dq_bring.specs.Flights.{IsBringing};
    ghost use Rattle.dq_bring.specs.Views.{BringingOf, bringing_view};

    ghost Value = { BringingOf };

    ghost view = { λ b. bringing_view b.bearings.loaded.value b.bearings.lane b.bearings.flight b.bearings.seen.value.entries b.phase };

    ghost invariant = { λ b. IsBringing (record { runs = L.runs; calls = L.calls; mounts = L.mounts; planned = L.planned }) b.bearings.loaded.value b.bearings.lane b.bearings.flight b.bearings.losses b.bearings.seen.value.entries b.phase };
}

impl<L: Link> Bringing<L> {
    /// The first flight of a lane, which has no link and lost none. It takes no memory, and the same time always.
    pub fn new(lane: u32, flight: u64, loaded: &Loaded, journal: &Journal) -> Bringing<L>
        requires legal { legal loaded.now journal.now.entries ≡ true }
        requires lane { is_lane (length loaded.now.script.lanes) lane ≡ true }
        requires first { is_first (work_of (after loaded.now journal.now.entries) lane).own flight ≡ true }
        requires begins { (work_of (after loaded.now journal.now.entries) lane).phase ≡ Course.New 0 }
        ensures { result ≡ record { loaded = loaded.now; lane = lane; flight = flight; seen = journal.now.entries; pending = false; untold = false } }
    {
        Bringing {
            bearings: Bearings {
                lane,
                flight,
                losses: 0,
                loaded: Snapshot::of(loaded),
                seen: Snapshot::of(journal),
            },
            phase: Phase::New,
        }
    }

    /// Its number, in constant time.
    pub fn flight(&self) -> u64
        ensures flight { result ≡ self.now.flight }
        ensures legal { legal self.now.loaded self.now.seen ≡ true }
        ensures first { is_first (work_of (after self.now.loaded self.now.seen) self.now.lane).own self.now.flight ≡ true }
    {
        self.bearings.flight
    }

    /// What needs no turn: a fresh link is dialled, the link that was leased is made ready for the flight's key over the version of
    /// its stamp, the gate is passed, and the statement is run. Want of memory is kept, and the flight will fall. The cost is that of
    /// the dial and of the link's calls.
    pub fn work<G: Gate, D: Dialer<L = L>>(
        &mut self,
        alloc: Global,
        gate: &G,
        dialer: &mut D,
        step: u32,
        key: &Canon,
        stood: &Stood,
    )
        requires key { KeyAt (flight_at (after self.old.loaded self.old.seen) self.old.flight) key.now stood.now.stamp }
        requires stood { IsNamed self.old.loaded.script.schemas (after self.old.loaded self.old.seen).versions key.now.source (record { stamp = stood.now.stamp; version = stood.now.extract }) }
        requires valid { invalid_by self.old.loaded.script.schemas key.now ≡ None }
        requires plan { IsPlanOf self.old.loaded self.old.lane (D.plan dialer.old) }
        ensures worked { self.new ≡ record self.old { pending = false; untold = self.new.untold } }
        ensures dials { UndialledBy self.old.untold self.new.untold (D.faults dialer.old) (D.faults dialer.new) }
        ensures plan { D.plan dialer.new ≡ D.plan dialer.old }
    {
        let phase = replace(&mut self.phase, Phase::Falling);
        self.phase = work_on(alloc, gate, dialer, &self.bearings, step, phase, key, stood);
    }

    /// A turn: the next event of the flight. It takes no memory but for what a landing offers to the caches; the cost is that of the
    /// desk's call.
    pub fn step(self, loaded: &Loaded, desk: &mut Desk<L>) -> Flown<L>
        requires worked { self.pending ≡ false }
        requires loaded { loaded.now ≡ self.loaded }
        requires same { desk.old.loaded ≡ self.loaded }
        requires goes_on { GoesOn self.lane self.seen desk.old.journal }
        ensures loaded { desk.new.loaded ≡ desk.old.loaded }
        ensures flown { IsFlown self desk.old.journal desk.new.journal result }
    {
        // A desk's journal is legal: only this read tells it to the proof.
        let _journal = desk.journal();
        let Bringing { bearings, phase } = self;
        let Bearings {
            lane,
            flight,
            losses,
            loaded: seen_loaded,
            seen: _,
        } = bearings;
        match tell(desk, loaded, lane, flight, losses, phase) {
            Told::On(losses, phase) => Flown::On(Bringing {
                bearings: Bearings {
                    lane,
                    flight,
                    losses,
                    loaded: seen_loaded,
                    seen: Snapshot::of(desk.journal()),
                },
                phase,
            }),
            Told::Over(ending) => Flown::Over(ending),
        }
    }
}
