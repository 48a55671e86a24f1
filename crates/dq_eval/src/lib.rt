//! Evaluates a query over a version of an extract.
//!
//! The layer above may rely on this: `evaluate` gives the answer of the query over the extract's rows, whatever segments
//! they stand in, and fails for want of memory only. The tests compare it with `plain`, which takes the definition step by
//! step and knows no fold. One call: `evaluate(alloc, &extract, &key)?`.
#![tactic(auto)]

mod evaluation;

pub use evaluation::evaluate;

#[cfg(test)]
mod plain;
#[cfg(test)]
mod tests;
