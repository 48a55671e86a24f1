//! A whole run without threads: the lanes of a script take turns on one desk, in the order that the schedule says.
//!
//! The schedule's turns come first, and then the lanes go round until each has ended. The layer above may rely on this: the
//! run always ends, its journal is legal (`specs/Machine.antt` of dq_machine) and follows the schedule (`specs/Follows.antt`), the
//! results are right for it (`specs/Right.antt` of dq_machine), the links are those of the machine's state behind it, and the dialers
//! counted the dials that it tells to have failed (`specs/Dialled.antt`).
//!
//! ```text
//! let whole = play_script(alloc, &loaded, &mut office)?;
//! ```
#![tactic(auto)]

mod beginning;
mod gathering;
mod playing;
mod whole;

pub use beginning::new_lanes;
pub use gathering::{Gathered, gather};
pub use playing::{Played, play};
pub use whole::{Whole, play_script};
