//! The text of a statement, as it is sent to a link: printed, and read again.
//!
//! The grammar stands in `specs/Statements.antt` as the text of each part. The layer above may rely on this: `print` gives a
//! statement's text, `parse` answers exactly the texts of statements, each by its one statement, and `body` gives the text of a
//! query, by which equal queries are found. `Said` has the statement that is sent for a query, and the query that one means.
//!
//! ```text
//! let statement = parse(alloc, b"from 0@1 by c0 show rows")?;
//! let text = print(alloc, &statement)?;
//! ```
#![tactic(auto)]

mod fault;
mod law;
mod left;
mod parsing;
mod printing;
mod printing_clauses;
mod printing_filters;
mod reading_clauses;
mod reading_numbers;
mod reading_quoted;
mod reading_values;
mod sizes;
mod statement;

pub use fault::TextFault;
pub use law::{body_tells_all, spelling_tells_all};
pub use parsing::parse;
pub use printing::{body, print};
pub use sizes::{is_sized, is_sized_key};
pub use statement::{Listed, SaidPredicate, SaidPredicates, SaidTest, Statement};
