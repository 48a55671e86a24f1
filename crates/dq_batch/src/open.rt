ghost use Rattle.std.specs.Prelude.{◌≡◌, drop, false};
ghost use Rattle.dq_batch.specs.Courses.{HasMoved, HasTurned};
ghost use Rattle.dq_batch.specs.Nexts.{CanBegin, IsNext};
ghost use Rattle.dq_batch.specs.Open.{IsBatch, IsFree, IsOpen, IsSameBatch, is_over, pending_in, untold_in};
ghost use Rattle.dq_bring.specs.Dials.{IsPlanOf, UndialledBy};

use crate::beginning::shared;
use crate::settling::{Wait, first_wait, none_waits, settle};
use dq_base::Canons;
use dq_bring::{Bringing, Flown};
use dq_desk::{Desk, Starteds, Stoods, Taken};
use dq_extract::Loaded;
use dq_graph::Prepared;
use dq_journal::Journal;
use dq_link::{Dialer, Link};
use dq_outside::Gate;
use dq_zones::{Fetch, Fetches};
use std::alloc::Global;
use std::mem::replace;
use std::snapshot::Snapshot;

/// The flight that a lane brings.
#[derive(Drop)]
pub(crate) enum Current<L: Link> {
    /// There is none.
    Free,
    /// The first of those that were started at the admission and aren't over.
    Group(Bringing<L>),
    /// One in place of a flight that fell, for the query at this place.
    Own(u64, Bringing<L>),
}

/// A batch under way.
#[derive(Drop)]
pub(crate) struct Open<L: Link> {
    pub(crate) lane: u32,
    pub(crate) step: u32,
    pub(crate) place: u64,
    pub(crate) prepared: Prepared,
    pub(crate) queries: Canons,
    pub(crate) stood: Stoods,
    pub(crate) started: Starteds,
    // How many of those are over.
    pub(crate) over: u64,
    pub(crate) fetches: Fetches,
    pub(crate) current: Current<L>,
}

/// What a turn did.
#[derive(Clone, Copy, Debug, PartialEq, Eq)]
pub enum Turned {
    /// It brought about an event.
    Moved,
    /// The lane waits for the flight of that number.
    Waits(u64),
}

/// The first of the flights that were started which isn't over, if one is left.
pub(crate) fn next_group<L: Link>(
    lane: u32,
    loaded: &Loaded,
    desk: &Desk<L>,
    started: &Starteds,
    over: u64,
) -> Current<L>
    requires same { desk.now.loaded ≡ loaded.now }
    requires next { CanBegin loaded.now lane desk.now.journal (drop over started.now) }
    ensures { IsNext loaded.now lane desk.now.journal (drop over started.now) result }
{
    match started.get(over) {
        Some(next) => Current::Group(Bringing::new(lane, next.flight(), loaded, desk.journal())),
        None => Current::Free,
    }
}

impl<L: Link> Open<L> {
    /// Nothing is left to be brought or taken.
    pub(crate) fn is_over(&self) -> bool
        ensures { result ≡ is_over self.now }
    {
        match &self.current {
            Current::Free => none_waits(&self.fetches),
            Current::Group(_) | Current::Own(_, _) => false,
        }
    }

    /// What needs no turn.
    pub(crate) fn work<G: Gate, D: Dialer<L = L>>(
        &mut self,
        alloc: Global,
        loaded: &Snapshot<Loaded>,
        seen: &Snapshot<Journal>,
        gate: &G,
        dialer: &mut D,
    )
        requires batch { IsBatch loaded.now.value seen.now.value.entries self.old }
        requires plan { IsPlanOf loaded.now.value self.old.lane (D.plan dialer.old) }
        ensures batch { IsBatch loaded.now.value seen.now.value.entries self.new }
        ensures same { IsSameBatch self.old self.new }
        ensures worked { pending_in self.new.current ≡ false }
        ensures over { is_over self.new ≡ is_over self.old }
        ensures dials { UndialledBy (untold_in self.old.current) (untold_in self.new.current) (D.faults dialer.old) (D.faults dialer.new) }
        ensures plan { D.plan dialer.new ≡ D.plan dialer.old }
    {
        match &mut self.current {
            Current::Free => {}
            Current::Group(bringing) => {
                let Some(started) = self.started.get(self.over) else {
                    unreachable!();
                };
                let (key, stood) = (started.key(), started.stood());
                bringing.work(alloc, gate, dialer, self.step, key, stood);
            }
            Current::Own(place, bringing) => {
                let Some(query) = self.queries.get(*place) else {
                    unreachable!();
                };
                let Some(stood) = self.stood.get(*place) else {
                    unreachable!();
                };
                bringing.work(alloc, gate, dialer, self.step, query, stood);
            }
        }
    }

    /// An event of the first flight that was started at the admission and isn't over.
    fn fly_group(&mut self, loaded: &Loaded, desk: &mut Desk<L>, bringing: Bringing<L>)
        requires same { desk.old.loaded ≡ loaded.now }
        requires worked { bringing.pending ≡ false }
        requires open { IsOpen loaded.now desk.old.journal (record self.old { current = Current.Group bringing }) }
        ensures loaded { desk.new.loaded ≡ desk.old.loaded }
        ensures moved { HasMoved loaded.now (record self.old { current = Current.Group bringing }) desk.old.journal desk.new.journal self.new }
    {
        let flight = bringing.flight();
        let flown = bringing.step(loaded, desk);
        // A desk's journal is legal: only this read tells it to the proof. So does the count that it fits its type.
        desk.journal();
        self.started.len();
        match flown {
            Flown::On(bringing) => self.current = Current::Group(bringing),
            Flown::Over(ending) => {
                let Some(started) = self.started.get(self.over) else {
                    unreachable!();
                };
                settle(&mut self.fetches, flight, started.key(), &ending);
                self.over += 1;
                self.current = next_group(self.lane, loaded, desk, &self.started, self.over);
            }
        }
    }

    /// An event of a flight that was started in place of one that fell.
    fn fly_own(&mut self, loaded: &Loaded, desk: &mut Desk<L>, place: u64, bringing: Bringing<L>)
        requires same { desk.old.loaded ≡ loaded.now }
        requires worked { bringing.pending ≡ false }
        requires open { IsOpen loaded.now desk.old.journal (record self.old { current = Current.Own place bringing }) }
        ensures loaded { desk.new.loaded ≡ desk.old.loaded }
        ensures moved { HasMoved loaded.now (record self.old { current = Current.Own place bringing }) desk.old.journal desk.new.journal self.new }
    {
        let flight = bringing.flight();
        let flown = bringing.step(loaded, desk);
        desk.journal();
        match flown {
            Flown::On(bringing) => self.current = Current::Own(place, bringing),
            Flown::Over(ending) => {
                let Some(query) = self.queries.get(place) else {
                    unreachable!();
                };
                settle(&mut self.fetches, flight, query, &ending);
                self.current = Current::Free;
            }
        }
    }

    /// A look at the flight for which the first query that waits waits.
    fn look(&mut self, loaded: &Loaded, desk: &mut Desk<L>) -> Turned
        requires same { desk.old.loaded ≡ loaded.now }
        requires free { IsFree self.old.current }
        requires open { IsOpen loaded.now desk.old.journal self.old }
        requires more { is_over self.old ≡ false }
        ensures loaded { desk.new.loaded ≡ desk.old.loaded }
        ensures turned { HasTurned loaded.now self.old desk.old.journal desk.new.journal self.new result }
    {
        let Some(Wait { place, flight }) = first_wait(&self.fetches) else {
            unreachable!();
        };
        let taken = desk.take(self.lane, flight);
        let journal = desk.journal();
        match taken {
            Taken::Running => return Turned::Waits(flight),
            Taken::Landed(share) => {
                *self.fetches.item_mut(place) = shared(share);
                return Turned::Moved;
            }
            Taken::Fallen(number) => {
                *self.fetches.item_mut(place) = Fetch::Flying(number);
                let bringing = Bringing::new(self.lane, number, loaded, journal);
                self.current = Current::Own(place, bringing);
                return Turned::Moved;
            }
        }
    }

    /// A turn.
    pub(crate) fn turn(&mut self, loaded: &Loaded, desk: &mut Desk<L>) -> Turned
        requires same { desk.old.loaded ≡ loaded.now }
        requires worked { pending_in self.old.current ≡ false }
        requires open { IsOpen loaded.now desk.old.journal self.old }
        requires more { is_over self.old ≡ false }
        ensures loaded { desk.new.loaded ≡ desk.old.loaded }
        ensures turned { HasTurned loaded.now self.old desk.old.journal desk.new.journal self.new result }
    {
        match replace(&mut self.current, Current::Free) {
            Current::Free => return self.look(loaded, desk),
            Current::Group(bringing) => {
                self.fly_group(loaded, desk, bringing);
                return Turned::Moved;
            }
            Current::Own(place, bringing) => {
                self.fly_own(loaded, desk, place, bringing);
                return Turned::Moved;
            }
        }
    }
}
