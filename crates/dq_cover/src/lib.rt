//! Which answers an answer can be computed from.
//!
//! `within` says whether a test leaves only values of which another holds, `covers` whether the answer of a query can be
//! computed from the answer of another one, and `same` whether two queries are equal. None of them takes memory.
//!
//! The layer above may rely on this: the answers are exactly those of the definitions (`Covering` of dq_base), and both
//! relations hold of anything and itself and are transitive. So what covers the key of a group covers its members too. One
//! call: `covers(&held, &asked)`.
#![tactic(auto)]

mod covering;
mod laws;
mod members;
mod parts;
mod sameness;
mod testing;

pub use covering::covers;
pub use laws::{
    covering_is_reflexive, covering_is_transitive, fused_key_covers, local_has_remote,
    within_is_reflexive, within_is_transitive,
};
pub use sameness::same;
pub use testing::within;
