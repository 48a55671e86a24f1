//! The tests of dq_machine, over its public calls alone. Journals are written as reports tell them.
//!
//! They stand in a crate of their own because a crate with tests is proved once with them and once without.
#![tactic(auto)]

#[cfg(test)]
mod samples;
#[cfg(test)]
mod walks;
