//! What the lanes of a run share: what was loaded, what stands of each extract, both caches, the results under way, the links that
//! nobody uses, those that were lost, and the journal of what happened.
//!
//! Lanes come to the desk one at a time, and each call is one event, whose entry is the one that the list machine of dq_machine allows:
//! `publish` refreshes an extract, `admit` finds for each remote query of a batch an answer that is kept or under way and starts
//! flights for the rest, `lease`, `give` and `lose` are about the link of a lane's first flight, `land` and `fall` end that flight,
//! `take` looks at a flight for which a zone waits, `end` closes a lane. What a call asks of its lane is said of the machine's state
//! behind the journal (`specs/Events.antt`, `specs/Admissions.antt`).
//!
//! The layer above may rely on this (`specs/Kept.antt`): the journal is legal; caches, flights and idle links are those of the
//! machine's state behind it, the idle links with their numbers, counts and, where it is sure, their mirrors; every table that is
//! handed out is the answer of its key over the version of its stamp; there is a wreck for each loss of a dialled link. Only `publish`
//! and `admit` may be refused for memory: the room for all that what was started may still need is taken before.
//!
//! ```text
//! let mut desk = Desk::new(alloc, loaded)?;
//! let place = desk.publish(alloc, 1, 1)?;
//! let admitted = desk.admit(alloc, 1, 2, &prepared)?;
//! match desk.lease(1, 1) {
//!     Leased::Idle(link) => ..,
//!     Leased::Dial(number) => ..,
//! }
//! ```
#![tactic(auto)]

mod admitting;
mod desk;
mod ending;
mod handing;
mod leasing;
mod planning;
mod publishing;
mod readying;
mod roomy;
mod stack;
mod starting;
mod stood;
mod taking;
mod waiting;

pub use admitting::{Admitted, Helds};
pub use desk::{Desk, Parts, PooledList, WreckList};
pub use leasing::Leased;
pub use stood::{Started, Starteds, Stood, Stoods};
pub use taking::Taken;
