use crate::mirror::Mirror;
use std::marker::Model;

/// A link, as often as it ran a statement and was called, and what stands on it, as long as that is sure.
#[derive(Drop)]
pub(crate) struct Link {
    pub(crate) number: u64,
    pub(crate) runs: u64,
    pub(crate) calls: u64,
    pub(crate) mirror: Mirror,
    pub(crate) sure: bool,
}

impl Model for Link {
    ghost use Rattle.std.specs.Prelude.{◌≤◌, ◌+◌};
    ghost use Rattle.dq_machine.specs.State.{LinkOf};

    ghost Value = { LinkOf };

    ghost view = { λ k. record { number = k.number; runs = k.runs; calls = k.calls; mirror = k.mirror; sure = k.sure } };

    ghost invariant = { λ k. k.mirror.next ≤ k.calls + 1 };
}

/// The links that nobody uses, the last one given back first, and how many were leased fresh.
#[derive(Drop)]
pub(crate) struct Links {
    pub(crate) idle: Vec<Link>,
    pub(crate) fresh: u64,
}

impl Model for Links {
    ghost use Rattle.dq_machine.specs.State.{Links as LinksOf};

    ghost Value = { LinksOf };

    ghost view = { λ l. record { idle = l.idle.items; fresh = l.fresh } };
}

/// What becomes of a lane's first flight: after so many losses it has no link, or has that one, which is fresh or not; or its link
/// was given back, after it ran the statement or didn't.
#[derive(Drop)]
pub(crate) enum Phase {
    New(u64),
    Leased(u64, bool, Link),
    Given(bool),
}
