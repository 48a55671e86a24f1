//! Which queries of a batch one statement answers together.
//!
//! `fuse` puts queries of equal source, equal predicates and equal set of dimensions, each with its width, into one group,
//! in first-seen order. The key of a group of one is its query; that of a larger group has the first member's dimensions
//! and shows all measures, in no order and with no top. The definition is `groups` of dq_base (`specs/Batches`); what the
//! members of a group have in common is a `Kind`, by which an `IndexSet` numbers the groups.
//!
//! The layer above may rely on this: the groups are exactly those of the definition, for any queries. One call:
//! `fuse(alloc, &misses)?`.
#![tactic(auto)]

mod fusing;
mod gathering;
mod group;
mod kind;
mod laws;
mod union;

pub use fusing::fuse;
pub use group::{Group, Groups};
pub use laws::{keys_are_valid, keys_cover_members};
