ghost use Rattle.std.specs.Prelude.{◌≡◌, IfOk};

use dq_base::{Cell, Cells, List, Memory, Table, Text};
use std::alloc::Global;

fn copy_cell(alloc: Global, cell: &Cell) -> Result<Cell, Memory>
    ensures { IfOk result (λ copy. copy ≡ cell.now) }
{
    match cell {
        Cell::Null => Ok(Cell::Null),
        Cell::Whole(n) => Ok(Cell::Whole(*n)),
        Cell::Word(text) => Ok(Cell::Word(Text::copy_of(alloc, text.bytes())?)),
        Cell::Ratio(ratio) => Ok(Cell::Ratio(ratio.again())),
    }
}

fn copy_row(alloc: Global, row: &Cells) -> Result<Cells, Memory>
    ensures { IfOk result (λ copy. copy ≡ row.now) }
{
    let mut copy = List::with_capacity(alloc, row.len())?;
    for cell in row.as_slice() {
        copy.push(copy_cell(alloc, cell)?)?;
    }
    Ok(copy)
}

/// An equal table. The cost is that of reading it once.
pub fn copy_table(alloc: Global, table: &Table) -> Result<Table, Memory>
    ensures { IfOk result (λ copy. copy ≡ table.now) }
{
    let mut copy = List::with_capacity(alloc, table.len())?;
    for row in table.as_slice() {
        copy.push(copy_row(alloc, row)?)?;
    }
    Ok(copy)
}
