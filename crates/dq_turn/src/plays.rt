//! What each step on the table tells, and how views are cut and joined. These types are for the proofs alone.
ghost use Rattle.dq_turn.specs.Steps.{drew, watched, counted, passed, heard};
ghost use Rattle.dq_turn.specs.Views.{handing, new_lane, joining, spent, first_keeper};
ghost use Rattle.dq_turn.specs.Turning.{Turning};

use crate::views::View;
use atomic_table::{Join, Play, Split, TableRule};
use dq_journal::Chronicled;
use std::snapshot::Snapshot;

/// The rule of the table: turns by ticket.
pub struct Turns;

impl<S: Chronicled> TableRule<Option<S>, View<S>, Snapshot<S>> for Turns {
    ghost holds = { λ _. Turning S.loaded S.journal };

    ghost first = { λ key. first_keeper key.value };
}

pub(crate) struct Draw;

impl<S: Chronicled> Play<Option<S>, View<S>> for Draw {
    ghost then = { λ _ m r n. drew m r n };
}

pub(crate) struct Watch;

impl<S: Chronicled> Play<Option<S>, View<S>> for Watch {
    ghost then = { λ _. watched S.loaded S.journal };
}

pub(crate) struct Count;

impl<S: Chronicled> Play<Option<S>, View<S>> for Count {
    ghost then = { λ _ m r n. counted S.loaded S.journal m n };
}

pub(crate) struct Pass;

impl<S: Chronicled> Play<Option<S>, View<S>> for Pass {
    ghost then = { λ _ m r n. passed m n };
}

pub(crate) struct Hear;

impl<S: Chronicled> Play<Option<S>, View<S>> for Hear {
    ghost then = { λ _ m r n. heard m n };
}

pub(crate) struct HandOut;

impl<S: Chronicled> Split<View<S>> for HandOut {
    ghost left = { handing };

    ghost right = { new_lane };
}

pub(crate) struct TakeIn;

impl<S: Chronicled> Join<View<S>> for TakeIn {
    ghost both = { joining };

    ghost spent = { spent };
}
