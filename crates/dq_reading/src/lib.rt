//! Reading texts from their front: words, numbers and spelled texts.
//!
//! The layer above may rely on this: each reader takes the one part of its kind that stands at the front of what is left, and answers
//! `NotInGrammar` exactly where none stands there (`Reads` of `specs/Reading.antt`). After an `Err` what is left is unspecified.
//!
//! ```text
//! let mut left = Left::new(b"lanes 12\n");
//! let found = left.skip(b"lanes ");
//! let lanes = read_u32(&mut left)?;
//! ```
#![tactic(auto)]

mod fault;
mod left;
mod numbers;
mod quoted;

pub use fault::TextFault;
pub use left::Left;
pub use numbers::{read_number, read_u32, read_u64, read_wide};
pub use quoted::read_quoted;

#[cfg(test)]
mod tests;
