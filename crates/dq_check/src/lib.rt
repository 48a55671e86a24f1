//! Judges a report: is it one that a run may write?
#![tactic(auto)]

mod alone;
mod behind;
mod conflicts;
mod due;
mod forcing;
mod grounds;
mod joints;
mod judging;
mod losses;
mod order;
mod origins;
mod owing;
mod steps;
mod tables;
mod takes;
mod verdict;
mod walking;
mod zones;

pub use judging::judge;
pub use verdict::Verdict;
