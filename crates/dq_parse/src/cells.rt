ghost use Rattle.std.specs.List.{AllByRecursion, flat_map};
ghost use Rattle.dq_base.specs.Rests.{Anything};
ghost use Rattle.dq_parse.specs.Reading.{AllSome, Ends, EndsLine, Many, Takes};
ghost use Rattle.dq_parse.specs.Sizes.{IsSizedCell, IsSizedRow};
ghost use Rattle.dq_reading.specs.Reading.{Reads};
ghost use Rattle.dq_report.specs.Report.{cell_text, cells_text, row_text, table_text};

use crate::words::read_line;
use dq_base::{Cell, Cells, List, Ratio, Table};
use dq_reading::{Left, TextFault, read_quoted, read_u64, read_wide};
use std::alloc::Global;

// Reads a cell.
fn read_cell(alloc: Global, left: &mut Left) -> Result<Cell, TextFault>
    ensures { Reads IsSizedCell Ends cell_text left.old left.new result }
{
    if left.skip(b"null") {
        return Ok(Cell::Null);
    }
    if left.skip(b"\"") {
        let text = read_quoted(alloc, left)?;
        return Ok(Cell::Word(text));
    }
    let number = read_wide(left)?;
    if !left.skip(b"/") {
        return Ok(Cell::Whole(number));
    }
    let count = read_u64(left)?;
    match Ratio::new(number, count) {
        Some(ratio) => Ok(Cell::Ratio(ratio)),
        None => Err(TextFault::NotInGrammar),
    }
}

// Reads one cell or more.
fn read_cells(alloc: Global, left: &mut Left) -> Result<Cells, TextFault>
    ensures { Reads (AllSome IsSizedCell) EndsLine cells_text left.old left.new result }
{
    let mut cells = List::new(alloc);
    let first = read_cell(alloc, left)?;
    cells.push(first)?;
    while left.skip(b" ") {
        let cell = read_cell(alloc, left)?;
        cells.push(cell)?;
    }
    Ok(cells)
}

// Reads a row.
fn read_row(alloc: Global, left: &mut Left) -> Result<Cells, TextFault>
    ensures { Reads IsSizedRow Anything row_text left.old left.new result }
{
    if left.skip(b"\n") {
        return Ok(List::new(alloc));
    }
    let cells = read_cells(alloc, left)?;
    if !left.skip(b"\n") {
        return Err(TextFault::NotInGrammar);
    }
    Ok(cells)
}

// Reads so many rows.
fn read_rows(alloc: Global, left: &mut Left, count: u64) -> Result<Table, TextFault>
    ensures { Takes (Many IsSizedRow count) Anything (flat_map row_text) left.old left.new result }
{
    let mut rows = List::new(alloc);
    for _place in 0..count {
        let row = read_row(alloc, left)?;
        rows.push(row)?;
    }
    Ok(rows)
}

/// Reads a number of rows, and the rows.
pub(crate) fn read_table(alloc: Global, left: &mut Left) -> Result<Table, TextFault>
    ensures { Takes (AllByRecursion IsSizedRow) Anything table_text left.old left.new result }
{
    let _size = left.len();
    let count = read_line(left, b" rows ")?;
    read_rows(alloc, left, count)
}
