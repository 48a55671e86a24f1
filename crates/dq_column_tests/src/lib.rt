//! The tests of dq_column, over its public calls alone.
//!
//! They stand in a crate of their own because a crate with tests is proved once with them and once without.
#![tactic(auto)]

#[cfg(test)]
mod tests;
