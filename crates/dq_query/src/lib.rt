//! Which queries are valid, and the canonical form of a query.
//!
//! `check` answers the first reason why a query isn't valid against the extracts' schemas, in the order in which `Invalid`
//! lists the reasons. `canonical` puts a query into canonical form: each list ascending and without repeats, bounds that
//! leave nothing as the empty list, and the predicates themselves ascending and without repeats.
//!
//! The layer above may rely on this: both answers are exactly those of the definitions (`Validity` and `Canonical` of
//! dq_base), a canonical form is its own, and over any rows a query and its canonical form have one answer. `check` takes no
//! memory. One call: `check(&schemas, &query)`, and then `canonical(alloc, &query)?`.
#![tactic(auto)]

mod form;
mod ordered;
mod validity;

pub use form::{canonical, canonical_has_same_answer};
pub use ordered::value_set;
pub use validity::check;
