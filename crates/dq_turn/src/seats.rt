ghost use Rattle.std.specs.Prelude.{◌≡◌, false, [], length};
ghost use Rattle.dq_turn.specs.declared.views.Role.TheVariants.{Keeper as KeeperRole, Lane};
ghost use Rattle.dq_turn.specs.Views.{is_waiting, held_at};

use crate::plays::Turns;
use crate::views::View;
use atomic_table::{Seat, Table};
use dq_journal::Chronicled;
use std::alloc::Global;
use std::snapshot::Snapshot;

pub(crate) type Place<S> = Seat<Option<S>, View<S>>;

/// A state that many threads take turns at.
///
/// It has one slot, for the state, and three words: the next ticket, the ticket that has the turn now, and the length of
/// the journal.
#[derive(Drop)]
pub struct Turnstile<S: Chronicled> {
    pub(crate) table: Table<Option<S>, View<S>, Snapshot<S>, Turns, Global>,
    ghost sized: { (table.shared.table_id.words ≡ 3) × (table.shared.table_id.slots ≡ 1) },
}

/// Hands out the lanes of a turnstile, and takes their seats in again. It has no bytes.
#[derive(Drop)]
pub struct Keeper<S> {
    pub(crate) seat: Place<S>,
    ghost is_first: { seat.id ≡ 0 },
    ghost role: { seat.me.0.role ≡ KeeperRole },
    ghost empty: { seat.me.1 ≡ [] },
}

/// The right of one lane to enter a turnstile. It has no bytes, and may go to another thread.
#[derive(Drop)]
pub struct LaneSeat<S> {
    pub(crate) seat: Place<S>,
    ghost role: { seat.me.0.role ≡ Lane },
    ghost idle: { is_waiting seat.me.0.stage ≡ false },
    ghost held: { seat.me.1 ≡ held_at seat.me.0.stage },
}

/// How many entries there were when a turn began, and the state as it then was, which only clauses read.
pub(crate) struct Mark<S: Chronicled> {
    pub(crate) count: u64,
    pub(crate) entered: Snapshot<S>,
    ghost counted: { count ≡ length (S.journal entered.value) },
}

/// The state of a turnstile, in the hands of the seat that entered. It must be spent by `leave`.
pub struct Guard<S: Chronicled> {
    pub(crate) state: S,
    pub(crate) mark: Mark<S>,
}

/// There was no memory for a turnstile. The state comes back.
#[derive(Drop)]
pub struct Unmade<S> {
    /// The state that was given.
    pub state: S,
}

/// There was no memory to close a turnstile. Both come back as they were.
#[derive(Drop)]
pub struct Closed<S: Chronicled> {
    /// The turnstile, which still holds the state.
    pub turnstile: Turnstile<S>,
    /// Its keeper.
    pub keeper: Keeper<S>,
}
