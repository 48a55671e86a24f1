//! The list machine: which journals are legal, and which results are right for one.
//!
//! `specs/Machine.antt` says it: a state that is folded over the journal, with a row for each kind of entry that says when it may come,
//! and what it leaves. `Machine` is the same as code: `take` answers the machine after an entry, or none exactly where the entry may not
//! come. What a batch meets is told by `admitting`, what a link may do by `leasing`, what the caches keep by `landing`.
//!
//! The layer above may rely on this: a machine's state is one that a legal journal leaves (`IsReached`). `proofs/Reached.antt` has what
//! such states keep, `proofs/Bounds.antt` that the cells of all versions stay within the room, `proofs/Numbers.antt` that flights and
//! joiners stay few.
//!
//! ```text
//! let mut machine = Machine::new(alloc, loaded)?;
//! for entry in entries {
//!     match machine.take(alloc, entry)? {
//!         Some(after) => machine = after,
//!         None => return Ok(false),
//!     }
//! }
//! ```
#![tactic(auto)]

mod admission;
mod admit_entry;
mod admitting;
mod cells;
mod ending;
mod flight_entries;
mod flights;
mod flown;
mod joined;
mod landing;
mod leasing;
mod link_entries;
mod links;
mod looking;
mod machine;
mod meeting;
mod mirror;
mod needs;
mod parts;
mod preparing;
mod publish_entry;
mod publishing;
mod readying;
mod shelf;
mod shelved;
mod stands;
mod steps;
mod taking;
mod versions;
mod work;
mod works;

pub use landing::{is_large, refusal};
pub use machine::{Machine, lane_of};
pub use meeting::{meets, miss_numbers, missed};
pub use preparing::{canons, remote_among};
pub use stands::{Refresh, Stand, no_stands, refresh_by_step};
pub use steps::step_at;
