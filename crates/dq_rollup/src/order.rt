ghost use Rattle.std.specs.Prelude.{◌≡◌, OnErr, OnOk, slice_index_or, take};
ghost use Rattle.std.specs.Cmp.Lexicographic.{slice_cmp};
ghost use Rattle.dq_base.specs.Answers.{by_order, cell_at, directed, row_cmp};
ghost use Rattle.dq_base.specs.Orders.{cell_cmp};
ghost use Rattle.dq_base.specs.Sets.{ascending};
ghost use Rattle.dq_base.specs.declared.cell.Cell.TheVariants.{Null};

use dq_base::{Cell, Cells, Memory, OrderKey, Query, compare_cells};
use std::cmp::Ordering;

/// How two rows' cells at a place, counted from 1, compare. A missing cell reads as null.
fn compare_at(place: u32, a: &Cells, b: &Cells) -> Ordering
    ensures { result ≡ cell_cmp (cell_at a.now place) (cell_at b.now place) }
{
    let at = u64::from(place.saturating_sub(1));
    match a.get(at) {
        Some(x) => compare_with(x, b, at),
        None => compare_with(&Cell::Null, b, at),
    }
}

/// How a cell compares with a row's cell at a place, counted from 0.
fn compare_with(x: &Cell, b: &Cells, at: u64) -> Ordering
    ensures { result ≡ cell_cmp x.now (slice_index_or b.now at Null) }
{
    match b.get(at) {
        Some(y) => compare_cells(x, y),
        None => compare_cells(x, &Cell::Null),
    }
}

/// The order, turned where it goes down.
fn turned(down: bool, order: Ordering) -> Ordering
    ensures { result ≡ directed down order }
{
    if down { order.reverse() } else { order }
}

/// The order keys in turn.
fn compare_by(order: &[OrderKey], a: &Cells, b: &Cells) -> Ordering
    ensures { result ≡ by_order order.now a.now b.now }
{
    for key in order {
        let cells = compare_at(key.place, a, b);
        match turned(key.down, cells) {
            Ordering::Equal => {}
            other => return other,
        }
    }
    Ordering::Equal
}

/// Cells one by one.
fn compare_lists(a: &[Cell], b: &[Cell]) -> Ordering
    ensures { result ≡ slice_cmp cell_cmp a.now b.now }
{
    for (i, x) in a.iter().enumerate() {
        match b.get(i) {
            None => return Ordering::Greater,
            Some(y) => match compare_cells(x, y) {
                Ordering::Equal => {}
                other => return other,
            },
        }
    }
    if a.len() < b.len() {
        Ordering::Less
    } else {
        Ordering::Equal
    }
}

/// So many first cells of a row, or all where it has fewer.
fn first_cells(row: &Cells, count: usize) -> &[Cell]
    ensures { result.now ≡ take count row.now }
{
    let cells = row.as_slice();
    if count < cells.len() {
        &cells[..count]
    } else {
        cells
    }
}

/// The order keys in turn, and then the key.
fn compare_rows(q: &Query, a: &Cells, b: &Cells) -> Ordering
    ensures { result ≡ row_cmp q.now a.now b.now }
{
    match compare_by(q.order.as_slice(), a, b) {
        Ordering::Equal => {
            let count = q.dims.as_slice().len();
            compare_lists(first_cells(a, count), first_cells(b, count))
        }
        other => other,
    }
}

/// Sorts rows by the order of the answer. The cost is that of a merge sort. An `Err` changes nothing.
pub fn sort_rows(q: &Query, rows: &mut Vec<Cells>) -> Result<(), Memory>
    ensures ok { OnOk result (rows.new.items ≡ ascending (row_cmp q.now) rows.old.items) }
    ensures err { OnErr result (rows.new.items ≡ rows.old.items) }
{
    rows.sort_by(|a, b| compare_rows(q, a, b))?;
    Ok(())
}
