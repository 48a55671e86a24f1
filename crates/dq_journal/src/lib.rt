//! The journal of a run, and the results of its steps and zones; and `Chronicled`, which a state meets that keeps a journal.
#![tactic(auto)]

mod chronicled;
mod entry;
mod journal;
mod result;

pub use chronicled::Chronicled;
pub use entry::{Cause, Entry, Meets, Met};
pub use journal::Journal;
pub use result::{LaneResults, LaneResultsList, StepResult, ZoneResult, ZoneResults};

#[cfg(test)]
mod tests;
