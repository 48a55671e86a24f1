//! What is shown of results: where two zones are blended, one outcome in the place of two.
//!
//! The layer above may rely on this: `show` answers what `Shown` of dq_journal says, and `blend_at` the first blend that begins at a
//! zone.
//!
//! ```text
//! let shown = show(alloc, &loaded, &results)?;
//! ```
#![tactic(auto)]

mod showing;
mod starts;

pub use showing::{measures_of, show};
pub use starts::{Starts, blend_at, starts_of};
