//! Links to a back end: their traits, and links that are kept for further use.
//!
//! `Link`, `Dialer` and `Office` say what an honest back end does and how a fault shows: each call is counted, and an answer
//! that blames the link comes with a count of faults that rose in that call. What stands on a link is defined in
//! `specs/Mounts`, what a text means over it in `specs/Meanings`. `Pooled` keeps a link that had no fault with a mirror of
//! what stands on it, `Wreck` one that had a fault.
//!
//! The layer above may rely on this: `Pooled::ready` mounts the version and puts the long lists of a query by the rule of
//! `specs/Mirrors`, with as few calls as that needs, and its statement means the query over the extract's rows; `Pooled::run`
//! runs a statement once, and its table is what the text means.
//!
//! ```text
//! let Readied::Ready(pooled, statement) = pooled.ready(alloc, stamp, &extract, &key) else { .. };
//! let Ran::Done(pooled, table) = pooled.run(alloc, &statement) else { .. };
//! ```
#![tactic(auto)]

mod fault;
mod law;
mod link;
mod mirrored;
mod needs;
mod office;
mod pooled;
mod ready;
mod readying;
mod run;
mod saying;
mod sending;

pub use fault::LinkFault;
pub use law::text_means_one_table;
pub use link::Link;
pub use office::{Dialer, Office};
pub use pooled::{Lost, Pooled, Wreck};
pub use ready::Readied;
pub use run::Ran;
pub use sending::links_may_be_sent;
