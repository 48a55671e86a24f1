ghost use Rattle.std.specs.Prelude.{◌≡◌, [], drop};
ghost use Rattle.dq_desk.specs.Waits.{IsFirst};

use dq_base::{Canon, List};
use std::alloc::Global;
use std::marker::Model;
use std::sync::Arc;

/// A flight for which a zone waits, with the zone's own query and the stamp at its admission.
#[derive(Drop)]
pub(crate) struct Join {
    pub(crate) flight: u64,
    pub(crate) query: Arc<Canon>,
    pub(crate) stamp: u64,
}

impl Model for Join {
    ghost use Rattle.std.specs.Arc.{arc_value};
    ghost use Rattle.dq_machine.specs.State.{Joined};

    ghost Value = { Joined };

    ghost view = { λ j. record { flight = j.flight; query = arc_value j.query; stamp = j.stamp } };
}

/// The flights for which a lane's zones wait, in zone order.
#[derive(Drop)]
pub(crate) struct Waiting {
    joins: Vec<Join>,
}

impl Model for Waiting {
    ghost use Rattle.std.specs.Prelude.{List as ListOf};
    ghost use Rattle.dq_machine.specs.State.{Joined};

    ghost Value = { ListOf Joined };

    ghost view = { λ w. w.joins.items };
}

impl Waiting {
    /// None. It takes no memory.
    pub(crate) fn new(alloc: Global) -> Waiting
        ensures { result ≡ [] }
    {
        Waiting {
            joins: Vec::new(alloc),
        }
    }

    /// These.
    pub(crate) fn of(joins: Vec<Join>) -> Waiting
        ensures { result ≡ joins.items }
    {
        Waiting { joins }
    }

    /// Takes the first out; none exactly where there is none. It moves the others.
    pub(crate) fn take_first(&mut self) -> Option<Join>
        ensures first { IsFirst self.old result }
        ensures left { self.new ≡ drop 1 self.old }
    {
        if self.joins.is_empty() {
            return None;
        }
        Some(self.joins.remove(0))
    }
}
