//! A turnstile: the seats of many lanes, each in a thread of its own, take turns at one state, which keeps a journal of
//! what happened to it (`dq_journal::Chronicled`).
//!
//! A `Turnstile` holds a state. Its `Keeper` splits off a `LaneSeat` for each lane. A seat enters, and then has the state
//! for itself in a `Guard`, until it leaves. In between the journal grows by one entry of the seat's lane at most. The
//! keeper joins the seats of lanes that are done. Keepers and seats have no bytes.
//!
//! The layer above may rely on this. What was loaded for the state never changes. A seat that enters finds a journal that
//! begins with all that the seat has seen, and has of its lane the entries that the seat made and no others. A seat that
//! has left has seen the journal as it left it, and a keeper that has joined a seat has seen what either had seen. Once all
//! seats were joined, `close` gives the state back: its journal begins with all that each seat had seen, and has of each
//! lane the entries that its seat made and no others, each once and in order. Nothing is said of progress.
//!
//! Inside, a table of `atomic_table` has one slot, for the state, and three words: the next ticket, the ticket that has the
//! turn, and the length of the journal. `specs/Turning.antt` is its rule, `specs/Steps.antt` says what each step tells, and
//! `steps.rt` has a function for each step of a turn.
//!
//! ```text
//! let (turnstile, mut keeper) = Turnstile::new(alloc, desk)?;
//! let mut seat = turnstile.split(&mut keeper)?;
//! let mut guard = turnstile.enter(rt, &mut seat);
//! guard.state().end(1);
//! turnstile.leave(guard, &mut seat);
//! turnstile.join(&mut keeper, seat);
//! let desk = turnstile.close(keeper)?;
//! ```
#![tactic(auto)]

mod guard;
mod lanes;
mod plays;
mod seats;
mod steps;
mod turns;
mod turnstile;
mod views;

pub use seats::{Closed, Guard, Keeper, LaneSeat, Turnstile, Unmade};

#[cfg(test)]
mod tests;
