use dq_base::Canon;
use std::marker::Model;
use std::sync::Arc;

/// How far a flight has come.
#[derive(Clone, Copy, Debug, PartialEq, Eq)]
pub(crate) enum Course {
    Running,
    Landed,
    Fallen,
}

/// A result that is under way, or for which somebody waits.
#[derive(Drop)]
pub(crate) struct Flown {
    pub(crate) number: u64,
    pub(crate) lane: u32,
    pub(crate) stamp: u64,
    pub(crate) key: Arc<Canon>,
    pub(crate) course: Course,
    pub(crate) joiners: u64,
}

impl Model for Flown {
    ghost use Rattle.std.specs.Arc.{arc_value};
    ghost use Rattle.dq_machine.specs.State.{Flown as FlownOf};
    ghost use Rattle.dq_machine.specs.Views.{course_of};

    ghost Value = { FlownOf };

    ghost view = { λ f. record { number = f.number; lane = f.lane; stamp = f.stamp; key = arc_value f.key; course = course_of f.course; joiners = f.joiners } };
}
