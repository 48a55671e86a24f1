//! A lane: one session, whose steps are batches and refreshes, done in order.
//!
//! `Lane` has three parts: the results of the steps behind it, which are right for every legal journal that goes on from here; the batch
//! under way, if there is one (`Batch` of dq_batch); and what is prepared of the next step. What it keeps (`specs/Kept.antt`): its
//! results, the order of its entries and their places, that its dialer counted the dials that failed, and that this dialer's plan is the
//! script's. `work` does what needs no turn, `step` is one event at the desk.
//!
//! ```text
//! let mut lane = Lane::new(alloc, 1, loaded, dialer)?;
//! loop {
//!     lane.work(alloc, &gate);
//!     match lane.step(alloc, &mut desk) {
//!         Stepped::Moved => ..,
//!         Stepped::Waits(flight) => ..,
//!         Stepped::Done => break,
//!     }
//! }
//! let (results, dialer) = lane.into_results();
//! ```
#![tactic(auto)]

mod closing;
mod course;
mod event;
mod lane;
mod preparing;
mod progress;
mod refusals;

pub use lane::{Lane, Stepped};
