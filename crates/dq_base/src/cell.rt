use crate::list::{List, Text};
use crate::ratio::Ratio;

/// A cell of an answer: nothing, a whole number, a text, or a ratio.
#[derive(Debug, Drop)]
pub enum Cell {
    Null,
    Whole(i128),
    Word(Text),
    Ratio(Ratio),
}

/// A row of an answer.
pub type Cells = List<Cell>;

/// An answer: its rows, each of its cells.
pub type Table = List<Cells>;
