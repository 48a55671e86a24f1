//! What a file of comma-separated values holds, and the extracts made of such files.
//!
//! A file's rows are defined in `specs/Rows`: the records that the csv crate's own definition gives behind a byte order
//! mark, the header tested, each field read by its column's sort, or the first fault. `load` answers those rows as a
//! `Segment`, which never changes and is shared from then on.
//!
//! The layer above may rely on this: a `Segment` and an `Extract` hold rows that fit their schema, within the room for
//! cells; an `Extract` shares segments and never copies rows; a `Loaded` holds a script within the limits, and for each of
//! its publish steps a segment under the schema of the step's source.
#![tactic(auto)]

mod cells;
mod extract;
mod fault;
mod loaded;
mod loading;
mod owners;
mod records;
mod segment;
mod segments;

pub use extract::Extract;
pub use fault::LoadFault;
pub use loaded::Loaded;
pub use loading::load;
pub use segment::Segment;
pub use segments::SegmentList;
