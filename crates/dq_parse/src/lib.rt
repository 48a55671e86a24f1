//! Reports parsed: the journal and the results that a report's bytes tell.
//!
//! What a report is stands with those who write it (`report_text` of `dq_report`). The layer above may rely on this: `parse` answers
//! `Ok` only where the bytes are the report of the journal and the results that it gives, which have the sizes that their types keep,
//! and `NotReport` only where no journal and results of such sizes have that report (`ParsedAs` of `specs/Parsing.antt`).
//!
//! Each reader takes the one part of its kind that stands at the front of what is left, or answers that none does. The readers of
//! results compare no tables, since zones may share them: they tell that the same is left behind any part that could stand there.
//!
//! ```text
//! let parsed = parse(alloc, report)?;
//! let entries = parsed.journal.len();
//! ```
#![tactic(auto)]

mod cells;
mod entries;
mod fault;
mod flights;
mod parsed;
mod parsing;
mod results;
mod words;

pub use fault::ParseFault;
pub use parsed::Parsed;
pub use parsing::parse;
