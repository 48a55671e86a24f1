//! Reads a script: extracts, lanes of steps, a schedule, what is wanted to fail, and in the second form sessions and
//! blends, from one JSON text.
//!
//! `specs/Scripts` says which script bytes mean, or the first reason against them, over the JSON that they read as. A part
//! is a `Reading` (`specs/Readings`): its value, or the path of its first fault. Extracts, filters, zones, steps, faults
//! and sessions are read by definitions of their own; a name of an extract or column is its number at once. What the whole
//! walk gives is a draft (`specs/Drafts`), whose limits and names are tested last (`specs/Reasons`).
//!
//! In the code a part is read by what has the trait `Reads`, and the items of an array are taken in by what has the trait
//! `Takes`; arrays, members and paths are proved once over these.
//!
//! The layer above may rely on this: `read` answers a script exactly where the bytes mean one, and then that one, and
//! otherwise the first fault with its path or number. The script is within the limits, its numbers of extracts and lanes
//! are in range, and its blends name pairs of neighbouring zones; that its zones are valid queries isn't said.
//!
//! ```text
//! let script = dq_script::read(alloc, bytes)?;
//! ```
#![tactic(auto)]

mod arrays;
mod batch;
mod columns;
mod dims;
mod draft;
mod extracts;
mod fault;
mod faults;
mod filters;
mod finds;
mod form;
mod items;
mod known;
mod limits;
mod making;
mod measures;
mod misfit;
mod names;
mod objects;
mod parts;
mod places;
mod reading;
mod reads;
mod sessions;
mod step;
mod strays;
mod zone;

pub use fault::ScriptFault;
pub use reading::read;
