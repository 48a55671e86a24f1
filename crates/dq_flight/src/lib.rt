//! Results that are under way, shared by covering.
//!
//! `Flights` is a list of flights by ascending number: those that run, and those that ended while somebody waits for them.
//! `find` answers the lowest running one from which a query can be computed; a query joins it, and takes its table once it
//! landed. The meaning stands in `specs/Flights.antt`.
//!
//! The layer above may rely on this: after each call the list is exactly the one that the call names, and only `reserve`
//! takes memory. One call: `flights.find(stamp, &query)`.
#![tactic(auto)]

mod flight;
mod flights;
mod look;

pub use flights::Flights;
pub use look::Look;

#[cfg(test)]
mod tests;
