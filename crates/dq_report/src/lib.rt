//! Writing the report on a run: its journal, and the results of its steps and zones.
//!
//! The report's text is `report_text` of `specs/Report.antt`. The layer above may rely on this: after `Ok` a told sink has
//! exactly that text more, and after an `Err` a prefix of it. Equal texts are of equal journals and equal results.
#![tactic(auto)]

mod entries;
mod law;
mod results;
mod rows;
mod sizes;
mod texts;
mod writing;

pub use law::report_tells_all;
pub use sizes::are_well_formed;
pub use writing::{WriteFault, write};
