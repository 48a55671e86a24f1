ghost use Rattle.std.specs.Prelude.{◌≡◌, [], ◌∷◌, drop, true, MatchOption, OnOk};
ghost use Rattle.dq_machine.specs.Machine as machine;
ghost use Rattle.dq_machine.specs.Machine.{work_ended};
ghost use Rattle.dq_machine.specs.State as state;
ghost use Rattle.dq_machine.specs.State.{New, no_work, none_left};
ghost use Rattle.dq_machine.specs.Taking as taking;
ghost use Rattle.dq_machine.specs.Taking.{work_taken};
ghost use Rattle.dq_machine.specs.Views.{phase_of};

use crate::joined::Joined;
use crate::links::Phase;
use dq_base::{List, Memory, Numbers64};
use std::alloc::Global;
use std::marker::Model;
use std::mem;

/// What a lane has done and has to do: its last step, whether it has ended, its own flights, its joins in zone order, and how far
/// its first own flight is. What is done of both lists stays in them, and is counted.
#[derive(Drop)]
pub(crate) struct Work {
    last: u32,
    ended: bool,
    own: Numbers64,
    flown: u64,
    joins: List<Joined>,
    taken: u64,
    phase: Phase,
}

impl Model for Work {
    ghost use Rattle.std.specs.Prelude.{drop};
    ghost use Rattle.dq_machine.specs.State.{Work as WorkOf};
    ghost use Rattle.dq_machine.specs.Views.{phase_of};

    ghost Value = { WorkOf };

    ghost view = { λ w. record { last = w.last; ended = w.ended; own = drop w.flown w.own; joins = drop w.taken w.joins; phase = phase_of w.phase } };
}

// The first item that is left.
fn first_left<T>(list: &List<T>, done: u64) -> Option<&T>
    ensures { MatchOption result (drop done list.now ≡ []) (λ item. drop done list.now ≡ item.now ∷ drop 1 (drop done list.now)) }
{
    let Some(item) = list.get(done) else {
        return None;
    };
    Some(item)
}

// Whether no item is left behind so many.
fn is_done<T>(list: &List<T>, done: u64) -> bool
    ensures { result ≡ none_left (drop done list.now) }
{
    match first_left(list, done) {
        None => true,
        Some(_) => false,
    }
}

// One more is done, if one is left.
fn one_more<T>(list: &List<T>, done: u64) -> u64
    ensures { drop result list.now ≡ drop 1 (drop done list.now) }
{
    if done < list.len() { done + 1 } else { done }
}

impl Work {
    /// Nothing. It takes no memory.
    pub(crate) fn new(alloc: Global) -> Work
        ensures { result ≡ no_work }
    {
        Work {
            last: 0,
            ended: false,
            own: List::new(alloc),
            flown: 0,
            joins: List::new(alloc),
            taken: 0,
            phase: Phase::New(0),
        }
    }

    /// Whether no own flight is left.
    pub(crate) fn has_no_own(&self) -> bool
        ensures { result ≡ none_left self.now.own }
    {
        is_done(&self.own, self.flown)
    }

    /// Whether nothing of the lane is open.
    pub(crate) fn is_free(&self) -> bool
        ensures { result ≡ state.is_free self.now }
    {
        !self.ended && self.has_no_own() && is_done(&self.joins, self.taken)
    }

    /// Whether the step may begin: the lane is free, and the step is a later one.
    pub(crate) fn may_begin(&self, step: u32) -> bool
        ensures { result ≡ machine.may_begin self.now step }
    {
        self.is_free() && self.last < step
    }

    /// Whether the flight is the first own one.
    pub(crate) fn is_first(&self, flight: u64) -> bool
        ensures { result ≡ state.is_first self.now.own flight }
    {
        match first_left(&self.own, self.flown) {
            None => false,
            Some(first) => *first == flight,
        }
    }

    /// Whether the flight is that of the first join.
    pub(crate) fn is_first_join(&self, flight: u64) -> bool
        ensures { result ≡ taking.is_first_join self.now.joins flight }
    {
        match first_left(&self.joins, self.taken) {
            None => false,
            Some(first) => first.flight == flight,
        }
    }

    /// The first join.
    pub(crate) fn first_join(&self) -> Option<&Joined>
        ensures { MatchOption result (self.now.joins ≡ []) (λ join. self.now.joins ≡ join.now ∷ drop 1 self.now.joins) }
    {
        first_left(&self.joins, self.taken)
    }

    /// How far the first own flight is.
    pub(crate) fn phase(&self) -> &Phase
        ensures { phase_of result.now ≡ self.now.phase }
    {
        &self.phase
    }

    /// The step is the last one.
    pub(crate) fn begin(&mut self, step: u32)
        ensures { self.new ≡ record self.old { last = step } }
    {
        self.last = step;
    }

    /// A batch was admitted, with these own flights and joins.
    pub(crate) fn admit(&mut self, step: u32, own: Numbers64, joins: List<Joined>)
        ensures { self.new ≡ record self.old { last = step; own = own; joins = joins; phase = New 0 } }
    {
        self.last = step;
        self.own = own;
        self.flown = 0;
        self.joins = joins;
        self.taken = 0;
        self.phase = Phase::New(0);
    }

    /// The first own flight is so far now.
    pub(crate) fn set_phase(&mut self, phase: Phase)
        ensures { self.new ≡ record self.old { phase = phase_of phase } }
    {
        self.phase = phase;
    }

    /// The first own flight is so far now. Answers how far it was.
    pub(crate) fn replace_phase(&mut self, phase: Phase) -> Phase
        ensures phase { phase_of result ≡ self.old.phase }
        ensures work { self.new ≡ record self.old { phase = phase_of phase } }
    {
        mem::replace(&mut self.phase, phase)
    }

    /// The first own flight has ended.
    pub(crate) fn end_flight(&mut self)
        ensures { self.new ≡ work_ended self.old }
    {
        self.flown = one_more(&self.own, self.flown);
        self.phase = Phase::New(0);
    }

    /// The first join is taken, and in its place a flight started, if one was.
    pub(crate) fn take_join(&mut self, alloc: Global, next: Option<u64>) -> Result<(), Memory>
        ensures { OnOk result (self.new ≡ work_taken self.old next) }
    {
        self.taken = one_more(&self.joins, self.taken);
        if let Some(number) = next {
            let mut own = List::new(alloc);
            own.push(number)?;
            self.own = own;
            self.flown = 0;
            self.phase = Phase::New(0);
        }
        Ok(())
    }

    /// The lane has ended.
    pub(crate) fn end(&mut self)
        ensures { self.new ≡ record self.old { ended = true } }
    {
        self.ended = true;
    }
}
