ghost use Rattle.std.specs.Prelude.{◌≡◌, ◌++◌, IfOk, None, OnOk, find, length};
ghost use Rattle.std.specs.Option.{option_copied};
ghost use Rattle.dq_base.specs.Blends.{agree, blend_of, last_cells};
ghost use Rattle.dq_blend.specs.Places.{AreFirst};

use crate::exact::{linked_cells, push_copies};
use crate::places::{Places, places_of, row_with};
use dq_base::{Cell, Cells, List, Memory, Numbers, Table};
use std::alloc::Global;

/// Puts so many nulls at the end of a row.
fn push_nulls(row: &mut Cells, count: u32) -> Result<(), Memory>
    ensures { OnOk result (row.new ≡ row.old ++ last_cells count None) }
{
    for _ in 0..count {
        row.push(Cell::Null)?;
    }
    Ok(())
}

/// Puts the last cells of another row at the end of a row, or nulls where there is no other.
fn push_last(
    alloc: Global,
    row: &mut Cells,
    other: Option<&Cells>,
    measures: u32,
) -> Result<(), Memory>
    ensures { OnOk result (row.new ≡ row.old ++ last_cells measures (option_copied other.entry)) }
{
    match other {
        None => push_nulls(row, measures),
        Some(other) => {
            let cells = other.as_slice();
            let left = cells.len().saturating_sub(measures as usize);
            push_copies(alloc, row, &cells[left..])
        }
    }
}

/// The second table's row that agrees with a row at the links.
fn agreeing<'a>(
    alloc: Global,
    row: &Cells,
    second: &'a Table,
    places: &Places,
    links: &Numbers,
) -> Result<Option<&'a Cells>, Memory>
    requires { AreFirst (length links.now) second.now places.now.entries }
    ensures { IfOk result (λ other. option_copied other ≡ find (agree links.now row.now) second.now) }
{
    let key = linked_cells(alloc, row, links)?;
    Ok(row_with(second, places, links.len(), &key))
}

/// A row with the measures of the second table's row that agrees with it.
fn blended(
    alloc: Global,
    row: &Cells,
    second: &Table,
    places: &Places,
    links: &Numbers,
    measures: u32,
) -> Result<Cells, Memory>
    requires { AreFirst (length links.now) second.now places.now.entries }
    ensures { IfOk result (λ cells. cells ≡ row.now ++ last_cells measures (find (agree links.now row.now) second.now)) }
{
    let other = agreeing(alloc, row, second, places, links)?;
    let width = row.len().saturating_add(u64::from(measures));
    let mut cells = List::with_capacity(alloc, width)?;
    push_copies(alloc, &mut cells, row.as_slice())?;
    push_last(alloc, &mut cells, other, measures)?;
    Ok(cells)
}

/// Each row of the first table, with the last cells of the second table's first row that agrees with it at the links, as
/// many as there are measures, or with as many nulls where none agrees. Links are places in the first table's rows, from 1.
///
/// It costs the rows of both tables times the logarithm of the second's, and copies the first table, the links' cells and
/// the cells that are put behind.
pub fn blend(
    alloc: Global,
    first: &Table,
    second: &Table,
    links: &Numbers,
    measures: u32,
) -> Result<Table, Memory>
    ensures { IfOk result (λ table. table ≡ blend_of first.now second.now links.now measures) }
{
    let places = places_of(alloc, second, links.len())?;
    let mut table = List::with_capacity(alloc, first.len())?;
    for row in first.as_slice() {
        table.push(blended(alloc, row, second, &places, links, measures)?)?;
    }
    Ok(table)
}
