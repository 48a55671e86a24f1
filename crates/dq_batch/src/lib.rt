//! An admitted batch of a lane, from its admission to the answers of its zones.
//!
//! A `Preparation` is what a batch's admission asks for, made outside a turn. `Batch` is the batch under way: first the lane brings the
//! flights that the admission started, one after another, then it takes the flights of other lanes for which its zones wait, and brings
//! one of its own in place of each that fell. What it keeps (`specs/Open.antt`) ties it to the list machine of dq_machine behind the
//! journal of its last event: the lane's own flights and joins are the machine's, and what was brought for each remote query is what its
//! fate allows. `work` does what needs no turn, `step` is one event at the desk. Once the batch is over, `close` answers its zones; no
//! later entry changes what became of them.
//!
//! ```text
//! let preparation = Preparation::new(alloc, &schemas, &zones)?;
//! if let Some(mut batch) = Batch::admit(alloc, lane, step, &loaded, &mut desk, preparation) {
//!     while !batch.is_over() {
//!         batch.work(alloc, &gate, &mut dialer);
//!         batch.step(&loaded, &mut desk);
//!     }
//!     batch.close(alloc, &mut outcomes);
//! }
//! ```
#![tactic(auto)]

mod batch;
mod beginning;
mod open;
mod preparation;
mod settling;

pub use batch::Batch;
pub use open::Turned;
pub use preparation::Preparation;
