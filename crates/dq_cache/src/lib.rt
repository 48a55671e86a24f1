//! The caches of answers.
//!
//! `Clever` is the intelligent cache: a query finds the first entry of its stamp from which it can be computed. `Literal`
//! finds an entry by the body of its statement. Both are seen as lists of entries, the most recent first; what is found or
//! kept goes to the front, and the last is dropped as long as the cache is over its bound. The meaning stands in
//! `specs/Entries.antt`.
//!
//! The layer above may rely on this: after each call the list is exactly the one that the call names; look-ups and dropping
//! take no memory; an answer that isn't kept leaves the cache as it was. One call: `clever.find(stamp, &query)`.
#![tactic(auto)]

mod clever;
mod entry;
mod index;
mod literal;
mod shelf;
mod stack;

pub use clever::Clever;
pub use entry::Found;
pub use literal::Literal;
