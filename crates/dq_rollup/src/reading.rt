ghost use Rattle.std.specs.Prelude.{◌≡◌, ◌*ℤ◌, pos, IfOk};
ghost use Rattle.dq_base.specs.Answers.{is_present};
ghost use Rattle.dq_rollup.specs.Reading as reading;
ghost use Rattle.dq_rollup.specs.Reading.{cell_in, number_in, sum_in};

use crate::source::Part;
use dq_base::{Cell, Cells, Memory, Text, Value};
use std::alloc::Global;

/// The number of a value. What no value of 64 bits gives is refused as want of memory.
fn number_of(n: i128) -> Result<i64, Memory>
    ensures { IfOk result (λ number. number ≡ n) }
{
    if n < i128::from(i64::MIN) || n > i128::from(i64::MAX) {
        return Err(Memory);
    }
    Ok(n as i64)
}

/// The value of which a cell was made.
fn value_of(alloc: Global, cell: &Cell) -> Result<Value, Memory>
    ensures { IfOk result (λ v. v ≡ reading.value_of cell.now) }
{
    match cell {
        Cell::Null => Ok(Value::Null),
        Cell::Whole(n) => Ok(Value::Int(number_of(*n)?)),
        Cell::Word(text) => Ok(Value::Word(Text::copy_of(alloc, text.bytes())?)),
        Cell::Ratio(_) => Ok(Value::Null),
    }
}

/// The value of which a row's cell at a place was made.
pub fn value_at(alloc: Global, row: &Cells, place: u64) -> Result<Value, Memory>
    ensures { IfOk result (λ v. v ≡ reading.value_of (cell_in row.now place)) }
{
    match row.get(place) {
        Some(cell) => value_of(alloc, cell),
        None => Ok(Value::Null),
    }
}

/// The number, or 0 where it is below. What no count of 64 bits gives is refused as want of memory.
fn natural(n: i128) -> Result<u64, Memory>
    ensures { IfOk result (λ number. number ≡ reading.natural n) }
{
    if n < 0 {
        return Ok(0);
    }
    if n > i128::from(u64::MAX) {
        return Err(Memory);
    }
    Ok(n as u64)
}

/// How many a cell counts; a ratio counts what was added.
fn count_in(cell: &Cell) -> Result<u64, Memory>
    ensures { IfOk result (λ n. n ≡ number_in cell.now) }
{
    match cell {
        Cell::Null => Ok(0),
        Cell::Whole(n) => natural(*n),
        Cell::Word(_) => Ok(0),
        Cell::Ratio(ratio) => Ok(ratio.count()),
    }
}

fn number_at(row: &Cells, place: u64) -> Result<u64, Memory>
    ensures { IfOk result (λ n. n ≡ number_in (cell_in row.now place)) }
{
    match row.get(place) {
        Some(cell) => count_in(cell),
        None => Ok(0),
    }
}

/// The sum that a cell has, if there is one.
fn sum_of(cell: &Cell) -> Option<i128>
    ensures { result ≡ sum_in cell.now }
{
    match cell {
        Cell::Null => None,
        Cell::Whole(n) => Some(*n),
        Cell::Word(_) => None,
        Cell::Ratio(ratio) => Some(ratio.sum()),
    }
}

fn sum_at(row: &Cells, place: u64) -> Option<i128>
    ensures { result ≡ sum_in (cell_in row.now place) }
{
    match row.get(place) {
        Some(cell) => sum_of(cell),
        None => None,
    }
}

/// Whether a cell was made of a value that isn't null.
fn is_filled(cell: &Cell) -> bool
    ensures { result ≡ is_present (reading.value_of cell.now) }
{
    match cell {
        Cell::Null => false,
        Cell::Whole(_) => true,
        Cell::Word(_) => true,
        Cell::Ratio(_) => false,
    }
}

fn is_filled_at(row: &Cells, place: u64) -> bool
    ensures { result ≡ is_present (reading.value_of (cell_in row.now place)) }
{
    match row.get(place) {
        Some(cell) => is_filled(cell),
        None => false,
    }
}

fn times(n: i128, count: u64) -> Result<i128, Memory>
    ensures { IfOk result (λ product. product ≡ n *ℤ pos count) }
{
    match n.checked_mul(i128::from(count)) {
        Some(product) => Ok(product),
        None => Err(Memory),
    }
}

/// The sum of so many values like that of which a cell was made, if it isn't null.
fn multiple(cell: &Cell, count: u64) -> Result<Option<i128>, Memory>
    ensures { IfOk result (λ sum. sum ≡ reading.multiple (reading.value_of cell.now) count) }
{
    match cell {
        Cell::Null => Ok(None),
        Cell::Whole(n) => Ok(Some(times(*n, count)?)),
        Cell::Word(_) => Ok(Some(times(0, count)?)),
        Cell::Ratio(_) => Ok(None),
    }
}

fn multiple_at(row: &Cells, place: u64, count: u64) -> Result<Option<i128>, Memory>
    ensures { IfOk result (λ sum. sum ≡ reading.multiple (reading.value_of (cell_in row.now place)) count) }
{
    match row.get(place) {
        Some(cell) => multiple(cell, count),
        None => Ok(None),
    }
}

/// How many values a part of a row counts.
pub fn counted(part: Part, row: &Cells) -> Result<u64, Memory>
    ensures { IfOk result (λ n. n ≡ reading.counted part row.now) }
{
    match part {
        Part::Shown(place) => number_at(row, place),
        Part::Keyed(key, rows) => {
            if is_filled_at(row, key) {
                number_at(row, rows)
            } else {
                Ok(0)
            }
        }
    }
}

/// The sum of the values of a part of a row, if there are any.
pub fn summed(part: Part, row: &Cells) -> Result<Option<i128>, Memory>
    ensures { IfOk result (λ sum. sum ≡ reading.summed part row.now) }
{
    match part {
        Part::Shown(place) => Ok(sum_at(row, place)),
        Part::Keyed(key, rows) => multiple_at(row, key, number_at(row, rows)?),
    }
}
