//! What becomes of flights, in every legal journal.
//!
//! Each function is a law of the list machine (`specs/Machine.antt` of dq_machine), as those of dq_laws are: its contract says it of
//! every journal that is legal for what was loaded, and its body is empty, so that a call costs nothing. The crates above also cite
//! the lemmas of `proofs/` by name.
//!
//! ```text
//! over_flights_stay(&loaded, entries, more, flight);
//! ```
#![tactic(auto)]

mod dials;
mod ending;
mod standing;
mod under_way;

pub use dials::{dials_are_few, idle_lanes_lose_no_dials};
pub use ending::{ended_flights_are_over, flights_end_as_told, over_flights_stay};
pub use standing::{later_rows_stand, stamps_lead_to_rows};
pub use under_way::{given_flights_lost_few, own_flights_have_not_fallen};

#[cfg(test)]
mod tests;
