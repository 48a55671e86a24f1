ghost use Rattle.std.specs.Prelude.{◌≡◌, ◌+◌, ◌^◌, ◌<◌, take};
ghost use Rattle.dq_bring.specs.Dials.{UndialledBy};
ghost use Rattle.dq_batch.specs.Turns.{IsTurned};
ghost use Rattle.dq_lane.specs.Courses.{AnswersIn, CanEnd, CanEndWith, CanGoOn, CanSettle, CanTurn, CanWorkIn, GoesOnAs, HasEnded, HasPrepared, HasWorked, StandsAt, settled};
ghost use Rattle.dq_lane.specs.View.{closed_by, closed_of, is_untold};

use crate::closing::close;
use crate::event::Event;
use crate::preparing::next_progress;
use crate::progress::Progress;
use dq_batch::{Batch, Turned};
use dq_desk::Desk;
use dq_extract::Loaded;
use dq_journal::{LaneResults, StepResult};
use dq_link::{Dialer, Link};
use dq_outside::Gate;
use std::alloc::Global;
use std::mem::replace;

/// How far a lane is. There is a result for each of its steps; those to come, and that of the batch under way, are as if they were
/// refused.
#[derive(Drop)]
pub(crate) struct Course<L: Link> {
    /// Its End stands in the journal.
    pub(crate) done: bool,
    /// The steps that had their turn.
    pub(crate) taken: u32,
    pub(crate) results: LaneResults,
    pub(crate) progress: Progress<L>,
}

/// A turn of a batch under way, and where it stands behind it.
fn turn<L: Link>(batch: &mut Batch<L>, loaded: &Loaded, desk: &mut Desk<L>) -> Turned
    requires { CanTurn loaded.now desk.old.loaded desk.old.journal batch.old }
    ensures turned { IsTurned batch.old batch.new desk.old.journal desk.new.journal result }
    ensures stands { StandsAt batch.new }
    ensures loaded { desk.new.loaded ≡ desk.old.loaded }
{
    let turned = batch.step(loaded, desk);
    // What the batch keeps is told to the proof by this read alone.
    let _over = batch.is_over();
    turned
}

/// How many steps are behind a lane of which so many had their turn.
fn closed<L: Link>(taken: u32, progress: &Progress<L>) -> u64
    ensures { result ≡ closed_by taken progress.now }
{
    match progress {
        Progress::Open(_) => u64::from(taken).saturating_sub(1),
        Progress::Fresh | Progress::Ready | Progress::Prepared(_) => u64::from(taken),
    }
}

/// What is under way behind a turn of a batch: the batch, or nothing once it is over and its zones are answered.
fn answered<L: Link>(
    alloc: Global,
    results: &mut LaneResults,
    taken: u32,
    batch: Batch<L>,
) -> Progress<L>
    requires { CanEndWith taken results.old batch }
    ensures { AnswersIn taken results.old results.new batch result }
{
    if !batch.is_over() {
        return Progress::Open(batch);
    }
    close(alloc, results.item_mut(u64::from(taken) - 1), batch);
    Progress::Fresh
}

impl<L: Link> Course<L> {
    /// Something else is under way; what was is let go.
    fn go_to(&mut self, progress: Progress<L>)
        ensures { self.new ≡ record self.old { progress = progress } }
    {
        self.progress = progress;
    }

    /// The next step had its turn.
    fn advance(&mut self, progress: Progress<L>)
        requires { self.old.taken + 1 < 2 ^ 32 }
        ensures { self.new ≡ record self.old { taken = self.old.taken + 1; progress = progress } }
    {
        self.taken += 1;
        self.go_to(progress);
    }

    /// Takes in what a turn brought about.
    pub(crate) fn settle(&mut self, event: Event<L>)
        requires { CanSettle self.old event }
        ensures { self.new ≡ settled self.old event }
    {
        match event {
            Event::Refused => self.advance(Progress::Fresh),
            Event::Published(place) => {
                *self.results.item_mut(u64::from(self.taken)) = StepResult::Published(place);
                self.advance(Progress::Fresh);
            }
            Event::Admitted(batch) => self.advance(Progress::Open(batch)),
            Event::Ended => {
                self.done = true;
                self.go_to(Progress::Ready);
            }
        }
    }

    /// The statement of the flight that the lane brings.
    pub(crate) fn fly<G: Gate, D: Dialer<L = L>>(&mut self, alloc: Global, gate: &G, dialer: &mut D)
        requires can { CanWorkIn self.old.progress (D.plan dialer.old) }
        ensures worked { HasWorked self.old self.new }
        ensures dials { UndialledBy (is_untold self.old.progress) (is_untold self.new.progress) (D.faults dialer.old) (D.faults dialer.new) }
        ensures plan { D.plan dialer.new ≡ D.plan dialer.old }
    {
        if let Progress::Open(batch) = &mut self.progress {
            batch.work(alloc, gate, dialer);
        }
    }

    /// The next event of the batch under way; none exactly where there is none.
    pub(crate) fn go_on(&mut self, loaded: &Loaded, desk: &mut Desk<L>) -> Option<Turned>
        requires { CanGoOn loaded.now desk.old.loaded desk.old.journal self.old.progress }
        ensures gone { GoesOnAs self.old desk.old.journal self.new desk.new.journal result }
        ensures loaded { desk.new.loaded ≡ desk.old.loaded }
    {
        let Progress::Open(batch) = &mut self.progress else {
            return None;
        };
        Some(turn(batch, loaded, desk))
    }

    /// Answers the zones of the batch under way, if it is over.
    pub(crate) fn end(&mut self, alloc: Global)
        requires { CanEnd self.old }
        ensures { HasEnded self.old self.new }
    {
        match replace(&mut self.progress, Progress::Fresh) {
            Progress::Open(batch) => {
                let progress = answered(alloc, &mut self.results, self.taken, batch);
                self.go_to(progress);
            }
            other => self.go_to(other),
        }
    }

    /// The results of the steps behind the lane.
    pub(crate) fn into_closed(self) -> LaneResults
        ensures { result ≡ take (closed_of self) self.results }
    {
        let Course {
            done: _,
            taken,
            results,
            progress,
        } = self;
        let mut results = results;
        results.truncate(closed(taken, &progress));
        results
    }

    /// Prepares the next step, if it wasn't looked at.
    pub(crate) fn prepare(&mut self, alloc: Global, loaded: &Loaded, lane: u32)
        requires { self.old.taken + 1 < 2 ^ 32 }
        ensures { HasPrepared loaded.now lane self.old self.new }
    {
        if let Progress::Fresh = self.progress {
            let progress = next_progress(alloc, loaded, lane, self.taken + 1);
            self.go_to(progress);
        }
    }
}
