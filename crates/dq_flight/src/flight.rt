ghost use Rattle.std.specs.Arc.{arc_value};
ghost use Rattle.std.specs.Prelude.{◌≡◌, IfSome};
ghost use Rattle.dq_flight.specs.Flights.{Running, fits, runs};
ghost use Rattle.dq_flight.specs.Looks.{LooksAt};
ghost use Rattle.dq_flight.specs.States.{course_of};

use crate::look::Look;
use dq_base::{Canon, Table};
use dq_cover::covers;
use std::marker::Model;
use std::sync::Arc;

/// How far a flight has come.
#[derive(Drop)]
pub(crate) enum State {
    Running,
    Landed(Arc<Table>),
    Fallen,
}

/// A statement that a lane runs, or ran, and how many joiners wait for its result.
#[derive(Drop)]
pub(crate) struct Flight {
    number: u64,
    lane: u32,
    stamp: u64,
    key: Arc<Canon>,
    state: State,
    joiners: u64,
}

impl Model for Flight {
    ghost use Rattle.std.specs.Arc.{arc_value};
    ghost use Rattle.dq_flight.specs.Flights.{FlightOf};

    ghost Value = { FlightOf };

    ghost use Rattle.dq_flight.specs.States.{course_of};

    ghost view = { λ f. record { number = f.number; lane = f.lane; stamp = f.stamp; key = arc_value f.key; course = course_of f.state; joiners = f.joiners } };
}

/// A share of a key and a table; none is want of memory.
fn share_of(key: &Arc<Canon>, table: &Arc<Table>) -> Option<(Arc<Canon>, Arc<Table>)>
    ensures { IfSome result (λ both. (arc_value both.0 ≡ arc_value key.now) × (arc_value both.1 ≡ arc_value table.now)) }
{
    let key = Arc::try_clone(key).ok()?;
    let table = Arc::try_clone(table).ok()?;
    Some((key, table))
}

/// What a joiner of a flight in that state is told.
fn look_at(key: &Arc<Canon>, state: &State) -> Look
    ensures { LooksAt (course_of state.now) (arc_value key.now) result }
{
    match state {
        State::Running => Look::Running,
        State::Landed(table) => Look::Landed(share_of(key, table)),
        State::Fallen => Look::Fallen,
    }
}

fn is_running(state: &State) -> bool
    ensures { result ≡ runs (course_of state.now) }
{
    match state {
        State::Running => true,
        State::Landed(_) => false,
        State::Fallen => false,
    }
}

impl Flight {
    /// A flight that was just started.
    pub(crate) fn new(number: u64, lane: u32, stamp: u64, key: Arc<Canon>) -> Flight
        ensures { result ≡ record { number = number; lane = lane; stamp = stamp; key = arc_value key; course = Running; joiners = 0 } }
    {
        Flight {
            number,
            lane,
            stamp,
            key,
            state: State::Running,
            joiners: 0,
        }
    }

    /// The flight's number.
    pub(crate) fn number(&self) -> u64
        ensures { result ≡ self.now.number }
    {
        self.number
    }

    /// Its stamp and its key.
    pub(crate) fn asked(&self) -> (u64, &Arc<Canon>)
        ensures stamp { result.0 ≡ self.now.stamp }
        ensures key { arc_value result.1.now ≡ self.now.key }
    {
        (self.stamp, &self.key)
    }

    /// How many wait for it.
    pub(crate) fn joiners(&self) -> u64
        ensures { result ≡ self.now.joiners }
    {
        self.joiners
    }

    /// Whether it is under way.
    pub(crate) fn is_running(&self) -> bool
        ensures { result ≡ runs self.now.course }
    {
        is_running(&self.state)
    }

    /// Whether a query of that stamp can be computed from what it will give.
    pub(crate) fn fits(&self, stamp: u64, q: &Canon) -> bool
        ensures { result ≡ fits stamp q.now self.now }
    {
        is_running(&self.state) && self.stamp == stamp && covers(&self.key, q)
    }

    /// What a joiner is told.
    pub(crate) fn look(&self) -> Look
        ensures { LooksAt self.now.course self.now.key result }
    {
        look_at(&self.key, &self.state)
    }

    /// So many wait for it.
    pub(crate) fn set_joiners(&mut self, joiners: u64)
        ensures { self.new ≡ record self.old { joiners = joiners } }
    {
        self.joiners = joiners;
    }

    /// It is in that state.
    pub(crate) fn set_state(&mut self, state: State)
        ensures { self.new ≡ record self.old { course = course_of state } }
    {
        self.state = state;
    }
}
