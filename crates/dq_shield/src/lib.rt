//! What a lane's session may see.
//!
//! `shield` puts the filters of each lane's session behind those of the lane's zones, so that all that is asked of a source
//! is asked of what the session leaves of it. `visible` copies the rows of an extract that filters leave. The definitions
//! are `shielded` and `visible` of dq_base (`specs/Sessions`).
//!
//! The layer above may rely on this: both are exactly those of the definitions, and a script that fits the limits still
//! does once it is shielded. The laws say what it is for: a shielded query has the answer of its own filters over the
//! visible rows alone, so rows that are hidden change no answer. One call: `let script = shield(alloc, script)?;`.
#![tactic(auto)]

mod laws;
mod seeing;
mod shielding;

pub use laws::{filters_hide_the_rest, hidden_rows_change_nothing};
pub use seeing::{Rows, visible};
pub use shielding::shield;
