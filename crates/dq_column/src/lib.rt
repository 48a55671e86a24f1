//! Columns of values: a list of numbers with marks, or a dictionary of texts with a code for each row.
//!
//! A `WholeColumn` grows row by row. A `TextColumn` never changes; a `TextColumnBuilder` reads its rows, gives each text the
//! number of its arrival, and when it is finished sorts the different texts once and numbers them anew. `specs/Stored.antt`
//! says what words and codes are for any list of values.
//!
//! The layer above may rely on this: contracts see a column as its values; a null has the number 0 and no mark, or the code
//! 0; the words are the different texts of the column, ascending by their bytes, and a text's code is its place among them,
//! from 1. So texts of a column are compared by comparing numbers.
#![tactic(auto)]

mod arrivals;
mod builder;
mod ranks;
mod texts;
mod wholes;

pub use builder::TextColumnBuilder;
pub use texts::TextColumn;
pub use wholes::{Marks, WholeColumn, Wholes};
