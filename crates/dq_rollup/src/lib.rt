//! The answer of a query from a held answer of another one, without the rows.
//!
//! `derive` groups the held rows by the keys that the query makes of theirs, and adds up what they show. It reads no extract.
//!
//! The layer above may rely on this: over whatever rows the held table is the one query's answer, an Ok is the other query's
//! answer over these rows. One call: `derive(alloc, &held_query, &asked, &table)?`, where `covers(&held_query, &asked)`.
#![tactic(auto)]

mod checks;
mod copies;
mod derivation;
mod groups;
mod key;
mod laws;
mod measures;
mod order;
mod reading;
mod source;
mod sources;

pub use derivation::derive;
pub use laws::sums_stay_within;
