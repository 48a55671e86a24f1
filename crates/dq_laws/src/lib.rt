//! What holds of every legal journal.
//!
//! Each function is a law of the list machine (`specs/Machine.antt` of dq_machine): its contract says it of every journal that is
//! legal for what was loaded. The bodies do nothing but bring to a proof what holds of what was loaded, so that a call costs next
//! to nothing.
//!
//! ```text
//! some_lane_goes_on(&loaded, entries, lane);
//! ```
#![tactic(auto)]

mod counts;
mod going;
mod joining;
mod keys;
mod lengths;
mod linking;
mod losses;
mod numbers;
mod others;
mod owning;
mod room;
mod running;
mod settled;
mod stamps;

pub use counts::counts_are_few;
pub use going::some_lane_goes_on;
pub use joining::joined_flights_stay;
pub use keys::keys_are_valid;
pub use lengths::{calls_are_few, journals_are_short};
pub use linking::{links_are_few, links_differ};
pub use losses::{flights_lose_few, losses_are_few};
pub use numbers::{flights_are_few, flights_are_numbered};
pub use others::{idle_lanes_stay, other_lanes_stay};
pub use owning::running_flights_are_own;
pub use room::owed_room_lasts;
pub use running::own_flights_run;
pub use settled::{fates_are_settled, left_flights_are_over};
pub use stamps::{published_rows_stay, stamps_are_published};

#[cfg(test)]
mod tests;
