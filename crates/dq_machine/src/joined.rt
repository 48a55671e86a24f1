use dq_base::Canon;
use std::marker::Model;
use std::sync::Arc;

/// A flight for which a zone waits, with the zone's own query and the stamp at its admission.
#[derive(Drop)]
pub(crate) struct Joined {
    pub(crate) flight: u64,
    pub(crate) query: Arc<Canon>,
    pub(crate) stamp: u64,
}

impl Model for Joined {
    ghost use Rattle.std.specs.Arc.{arc_value};
    ghost use Rattle.dq_machine.specs.State.{Joined as JoinedOf};

    ghost Value = { JoinedOf };

    ghost view = { λ j. record { flight = j.flight; query = arc_value j.query; stamp = j.stamp } };
}
