//! How the queries of a batch are answered from one another.
//!
//! `split` gives each query of a batch its role: remote where a statement answers it, local where its answer is computed
//! from that of a remote one. The definition is `roles` of dq_base (`specs/Batches`). `Prepared` is a batch that is ready to
//! be admitted.
//!
//! The layer above may rely on this: the roles are exactly those of the definition, for any queries, and the source of a
//! local query is remote and covers it. One call: `split(alloc, &batch)?`.
#![tactic(auto)]

mod laws;
mod prepared;
mod splitting;

pub use laws::sources_are_remote;
pub use prepared::{Prepared, Roles};
pub use splitting::split;

#[cfg(test)]
mod tests;
