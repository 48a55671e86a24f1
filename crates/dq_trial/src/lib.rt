//! Trying a flight on a link: the link that was leased is made ready for the flight's query, and the statement is run.
//!
//! What comes back is what the desk asks of a link that is given back or lost (`specs/Trying.antt`): its counts are those that the list
//! machine allows, its mirror is the machine's where that is sure, what is mounted has the rows that its stamp names, the text that it
//! ran last is the flight's statement, and a table is the flight's answer. `specs/Links.antt` says when a link is one of the machine's.
//!
//! One call: `try_flight(alloc, &gate, lane, step, link, stamp, &extract, &key)`.
#![tactic(auto)]

mod trying;

pub use trying::{Tried, try_flight};
