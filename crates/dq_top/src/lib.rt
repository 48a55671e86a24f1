//! The top call: it loads the script that the words name and the script's files, plays it, and writes the report.
//!
//! `specs/Words` says which words name a script, `specs/Loading` what files load to, `specs/Progress` how far loading has come,
//! and `specs/Outcomes` what each answer means. The layer above may rely on this: what was loaded is what the files load to,
//! the journal is legal and follows the script's schedule, the results are right for both, and links and dialers agree with the
//! journal; a told sink then has the report on them, or a prefix of it where a write failed or memory was wanting; where the run
//! didn't begin nothing is written; and a fault of reading or of writing is told only where the folder's or the sink's count rose in
//! the call.
//!
//! ```text
//! let outcome = dq_top::rehearse(alloc, &words, &mut folder, &mut sink, &mut office);
//! ```
#![tactic(auto)]

mod checking;
mod fault;
mod loading;
mod outcome;
mod progress;
mod refusals;
mod rehearsing;
mod telling;
mod words;

pub use checking::{Checked, check};
pub use fault::Fault;
pub use outcome::Outcome;
pub use rehearsing::rehearse;
pub use telling::tell;
