//! One flight of a lane, from its first lease to its end: a link is leased or dialled, the statement is run, the link is given back or
//! lost, and the flight lands with its answer or falls.
//!
//! `Bringing` is the first of a lane's own flights. What it keeps (`specs/Phases.antt`) ties it to the list machine of dq_machine: the
//! flight's phase is that of the machine behind the journal of its last event, the link that it has is the machine's, and what the link
//! brought is what the desk asks for. `work` does what needs no turn: it dials, makes the link ready, passes the gate and runs the
//! statement. `step` is one event at the desk. Want of memory in `work` is kept, and the flight falls.
//!
//! ```text
//! let mut bringing = Bringing::new(lane, flight, &loaded, desk.journal());
//! bringing.work(alloc, &gate, &mut dialer, step, &key, &stood);
//! match bringing.step(&loaded, &mut desk) {
//!     Flown::On(bringing) => ..,
//!     Flown::Over(ending) => ..,
//! }
//! ```
#![tactic(auto)]

mod bringing;
mod phase;
mod telling;
mod trying;

pub use bringing::Bringing;
pub use telling::{Ending, Flown};
