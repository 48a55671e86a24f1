//! The tests of dq_top, over its public calls alone.
//!
//! They stand in a crate of their own because a crate with tests is proved once with them and once without.
#![tactic(auto)]

#[cfg(test)]
mod checks;
#[cfg(test)]
mod dashboards;
#[cfg(test)]
mod links;
#[cfg(test)]
mod plays;
#[cfg(test)]
mod tests;
#[cfg(test)]
mod verdicts;
#[cfg(test)]
mod whole;
