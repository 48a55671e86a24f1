use dq_base::{Canon, List};
use std::marker::Model;
use std::sync::Arc;

/// An answer in a cache: the flight that landed it, its version's stamp, its query, and how much it counts.
#[derive(Drop)]
pub(crate) struct Shelved {
    pub(crate) flight: u64,
    pub(crate) stamp: u64,
    pub(crate) key: Arc<Canon>,
    pub(crate) weight: u64,
}

impl Model for Shelved {
    ghost use Rattle.std.specs.Arc.{arc_value};
    ghost use Rattle.dq_machine.specs.State.{Shelved as ShelvedOf};

    ghost Value = { ShelvedOf };

    ghost view = { λ e. record { flight = e.flight; stamp = e.stamp; key = arc_value e.key; weight = e.weight } };
}

/// Both caches, the most recent first.
#[derive(Drop)]
pub(crate) struct Shelves {
    pub(crate) clever: List<Shelved>,
    pub(crate) literal: List<Shelved>,
}

impl Model for Shelves {
    ghost use Rattle.dq_machine.specs.State.{Shelves as ShelvesOf};

    ghost Value = { ShelvesOf };

    ghost view = { λ s. record { clever = s.clever; literal = s.literal } };
}
