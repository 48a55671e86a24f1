ghost use Rattle.std.specs.List.{flat_map};
ghost use Rattle.std.specs.Prelude.{◌≡◌, ◌++◌, OnOk};
ghost use Rattle.dq_report.specs.Report as form;

use crate::texts::put_end;
use dq_base::{
    Cell, Cells, Memory, Ratio, Table, Text, put_labelled, put_number, put_signed, put_spelled,
};

fn put_ratio(text: &mut Text, ratio: &Ratio) -> Result<(), Memory>
    ensures { OnOk result (text.new ≡ text.old ++ form.ratio_text ratio.now) }
{
    put_signed(text, ratio.sum())?;
    text.push(b'/')?;
    put_number(text, ratio.count())
}

/// Puts a cell behind the text.
pub fn put_cell(text: &mut Text, cell: &Cell) -> Result<(), Memory>
    ensures { OnOk result (text.new ≡ text.old ++ form.cell_text cell.now) }
{
    match cell {
        Cell::Null => text.append(b"null"),
        Cell::Whole(number) => put_signed(text, *number),
        Cell::Word(word) => put_spelled(text, word.bytes()),
        Cell::Ratio(ratio) => put_ratio(text, ratio),
    }
}

fn put_spaced_cell(text: &mut Text, cell: &Cell) -> Result<(), Memory>
    ensures { OnOk result (text.new ≡ text.old ++ form.spaced_cell cell.now) }
{
    text.push(b' ')?;
    put_cell(text, cell)
}

fn put_spaced_cells(text: &mut Text, cells: &[Cell]) -> Result<(), Memory>
    ensures { OnOk result (text.new ≡ text.old ++ flat_map form.spaced_cell cells.now) }
{
    for cell in cells {
        put_spaced_cell(text, cell)?;
    }
    Ok(())
}

fn put_cells(text: &mut Text, cells: &[Cell]) -> Result<(), Memory>
    ensures { OnOk result (text.new ≡ text.old ++ form.cells_text cells.now) }
{
    match cells.split_first() {
        None => Ok(()),
        Some((first, others)) => {
            put_cell(text, first)?;
            put_spaced_cells(text, others)
        }
    }
}

fn put_row(text: &mut Text, row: &Cells) -> Result<(), Memory>
    ensures { OnOk result (text.new ≡ text.old ++ form.row_text row.now) }
{
    put_cells(text, row.as_slice())?;
    put_end(text)
}

fn put_rows(text: &mut Text, rows: &[Cells]) -> Result<(), Memory>
    ensures { OnOk result (text.new ≡ text.old ++ flat_map form.row_text rows.now) }
{
    for row in rows {
        put_row(text, row)?;
    }
    Ok(())
}

/// Puts an answer's number of rows and its rows behind the text. The cost is that of the cells.
pub fn put_table(text: &mut Text, table: &Table) -> Result<(), Memory>
    ensures { OnOk result (text.new ≡ text.old ++ form.table_text table.now) }
{
    put_labelled(text, b" rows ", table.len())?;
    put_end(text)?;
    put_rows(text, table.as_slice())
}
