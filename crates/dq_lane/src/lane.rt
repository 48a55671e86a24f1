ghost use Rattle.std.specs.Arc.{arc_value};
ghost use Rattle.std.specs.Prelude.{◌≡◌, ◌≤◌, false, length, map, true, IfOk};
ghost use Rattle.dq_base.specs.Scripts.{is_lane};
ghost use Rattle.dq_bring.specs.Dials.{IsPlanOf, UndialledBy};
ghost use Rattle.dq_fates.specs.Dials.{lost_dials};
ghost use Rattle.dq_fates.specs.GoingOn.{GoesOn};
ghost use Rattle.dq_machine.specs.Machine.{after};
ghost use Rattle.dq_machine.specs.State.{work_of};
ghost use Rattle.dq_lane.specs.Right.{IsRightFrom, IsRightSoFar};
ghost use Rattle.dq_lane.specs.Turns.{IsSteppedBy, IsTurn};
ghost use Rattle.dq_lane.specs.View.{new_lane, place_of, steps_of};

use crate::course::Course;
use crate::event::next_event;
use crate::progress::Progress;
use crate::refusals::refused_steps;
use dq_base::{Memory, Step};
use dq_batch::Turned;
use dq_desk::Desk;
use dq_extract::Loaded;
use dq_journal::{Journal, LaneResults};
use dq_laws::journals_are_short;
use dq_link::{Dialer, Link};
use dq_outside::Gate;
use std::alloc::Global;
use std::marker::Model;
use std::mem::replace;
use std::snapshot::Snapshot;
use std::sync::Arc;

/// What a turn of a lane did.
#[derive(Clone, Copy, Debug, PartialEq, Eq)]
pub enum Stepped {
    /// It brought about an event, or a step was refused for memory.
    Moved,
    /// It waits for the flight of that number, which another lane brings.
    Waits(u64),
    /// The lane had ended before.
    Done,
}

/// What a turn of the batch under way is for its lane.
fn told_of(turned: Turned) -> Stepped
    ensures { IsSteppedBy turned result }
{
    match turned {
        Turned::Moved => Stepped::Moved,
        Turned::Waits(flight) => Stepped::Waits(flight),
    }
}

/// One session: the lane's number, what was loaded, its dialer, and how far it is. Contracts see the places of its steps' entries, and
/// the journal of its last event.
#[derive(Drop)]
pub struct Lane<L: Link, D: Dialer<L = L>> {
    number: u32,
    loaded: Arc<Loaded>,
    dialer: D,
    course: Course<L>,
    seen: Snapshot<Journal>,
}

impl<L: Link, D: Dialer<L = L>> Model for Lane<L, D> {
    ghost use Rattle.std.specs.Arc.{arc_value};
    ghost use Rattle.dq_lane.specs.Kept.{IsLane};
    ghost use Rattle.dq_lane.specs.View.{LaneOf, lane_view};

    ghost Value = { LaneOf };

    ghost view = { λ l. lane_view (arc_value l.loaded) l.number l.seen.value.entries l.course };

    ghost invariant = { λ l. IsLane (arc_value l.loaded) l.number l.seen.value.entries l.course (D.faults l.dialer) (D.plan l.dialer) };
}

/// The steps of a lane of the script.
fn lane_steps(loaded: &Loaded, number: u32) -> &[Step]
    requires { is_lane (length loaded.now.script.lanes) number ≡ true }
    ensures { result.now ≡ steps_of loaded.now number }
{
    let Some(steps) = loaded.script().lanes.numbered(number) else {
        unreachable!();
    };
    steps.as_slice()
}

impl<L: Link, D: Dialer<L = L>> Lane<L, D> {
    /// A lane of the script that didn't begin. The room of all its results is taken, and each of its zones is checked. An `Err`
    /// is want of memory for these, and leaves nothing.
    pub fn new(
        alloc: Global,
        number: u32,
        loaded: Arc<Loaded>,
        dialer: D,
    ) -> Result<Lane<L, D>, Memory>
        requires lane { is_lane (length (arc_value loaded).script.lanes) number ≡ true }
        requires plan { IsPlanOf (arc_value loaded) number (D.plan dialer) }
        ensures { IfOk result (λ lane. lane ≡ new_lane (arc_value loaded) number) }
    {
        let steps = lane_steps(&loaded, number);
        let results = refused_steps(alloc, &loaded.script().schemas, steps)?;
        let seen = Snapshot::of(&Journal::new(alloc));
        let course = Course {
            done: false,
            taken: 0,
            results,
            progress: Progress::Fresh,
        };
        Ok(Lane {
            number,
            loaded,
            dialer,
            course,
            seen,
        })
    }

    /// All pending work: the statement of the flight that the lane brings, and where a batch is over the answers of its zones; then the
    /// next step, if it is a batch, is prepared. It costs the dial and the link's calls, or the derivations, and the checks and canonical
    /// forms of the zones. Want of memory is kept: the flight will fall, the zone is `Memory`, or the batch will be refused.
    pub fn work<G: Gate>(&mut self, alloc: Global, gate: &G)
        ensures { self.new ≡ record self.old { pending = false; untold = self.new.untold } }
    {
        self.course.fly(alloc, gate, &mut self.dialer);
        self.course.end(alloc);
        self.course.prepare(alloc, &self.loaded, self.number);
    }

    /// A turn: the next event of the batch under way, or else that of the next step, or the end behind the last step. A step that is
    /// refused for memory uses up the turn without an entry, and leaves the desk as it was. A lane that waits for another lane's flight
    /// leaves it as it was, too. It costs what the desk's call costs, and the results need no memory.
    pub fn step(&mut self, alloc: Global, desk: &mut Desk<L>) -> Stepped
        requires worked { self.old.pending ≡ false }
        requires loaded { desk.old.loaded ≡ self.old.loaded }
        requires goes_on { GoesOn self.old.number self.old.seen desk.old.journal }
        ensures number { self.new.number ≡ self.old.number }
        ensures loaded { self.new.loaded ≡ self.old.loaded }
        ensures desk { desk.new.loaded ≡ desk.old.loaded }
        ensures seen { self.new.seen ≡ desk.new.journal }
        ensures ended { (work_of (after desk.old.loaded desk.old.journal) self.old.number).ended ≡ self.old.done }
        ensures turn { IsTurn result self.old self.new desk.old.journal desk.new.journal }
    {
        journals_are_short(&self.loaded, desk.journal().as_slice());
        if self.course.done {
            self.seen = Snapshot::of(desk.journal());
            return Stepped::Done;
        }
        if let Some(turned) = self.course.go_on(&self.loaded, desk) {
            journals_are_short(&self.loaded, desk.journal().as_slice());
            self.seen = Snapshot::of(desk.journal());
            return told_of(turned);
        }
        let step = self.course.taken + 1;
        let progress = replace(&mut self.course.progress, Progress::Fresh);
        let event = next_event(alloc, desk, &self.loaded, self.number, step, progress);
        self.course.settle(event);
        journals_are_short(&self.loaded, desk.journal().as_slice());
        self.seen = Snapshot::of(desk.journal());
        Stepped::Moved
    }

    /// The results of the steps that are behind the lane, in order, and its dialer: that of a refused step says so, and each other tells
    /// the place of its entry. Once the lane is done, there is one for each of its steps. It takes no memory.
    pub fn into_results(self) -> (LaneResults, D)
        ensures places { self.done ≡ true → map place_of result.0 ≡ self.places }
        ensures so_far { IsRightSoFar self.loaded self.number self.seen result.0 }
        ensures right { self.done ≡ true → IsRightFrom self.loaded self.number self.seen result.0 }
        ensures dials { lost_dials self.number self.seen ≤ D.faults result.1 }
        ensures plan { IsPlanOf self.loaded self.number (D.plan result.1) }
    {
        let Lane {
            number: _,
            loaded: _,
            dialer,
            course,
            seen: _,
        } = self;
        (course.into_closed(), dialer)
    }
}
