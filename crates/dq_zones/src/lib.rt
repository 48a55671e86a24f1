//! How a batch's zones are prepared, and answered from what was brought for its remote queries.
//!
//! `prepare` makes the batch ready to be admitted: the valid zones, their canonical queries, which of these are answered from others,
//! and the texts of those that are asked. `refused_zones` gives the outcomes that stand as long as nothing was answered. `Fetch` says
//! how far the answer of a remote query is, and `answer_zones` makes the outcomes of all zones of what was brought.
//!
//! The layer above may rely on this: the preparation is what the list machine makes of the zones, and the outcomes are right for every
//! journal over which an answer or a refusal was brought for each remote query (`specs/Brought.antt`). The outcomes are written in place,
//! so want of memory never takes the place of another refusal.
//!
//! ```text
//! let prepared = prepare(alloc, &schemas, &zones)?;
//! let mut outcomes = refused_zones(alloc, &schemas, zones.as_slice())?;
//! // .. an answer or a refusal is brought for each remote query
//! answer_zones(alloc, &prepared, &fetches, &mut outcomes);
//! ```
#![tactic(auto)]

mod answering;
mod fetch;
mod laws;
mod outcomes;
mod preparing;
mod refusals;

pub use answering::answer_zones;
pub use fetch::{Fetch, Fetches};
pub use laws::batches_fit;
pub use preparing::prepare;
pub use refusals::refused_zones;
