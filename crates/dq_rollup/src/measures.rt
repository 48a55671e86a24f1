ghost use Rattle.std.specs.BTreeSet.{keys};
ghost use Rattle.std.specs.Prelude.{◌≡◌, ◌+◌, ◌+ℤ◌, IfOk, OnOk, [], length, slice_index_or};
ghost use Rattle.dq_base.specs.Answers.{cell_of, greater, lesser};
ghost use Rattle.dq_rollup.specs.Derived as derived;
ghost use Rattle.dq_rollup.specs.Derived.{rows_at, with_some};
ghost use Rattle.dq_rollup.specs.Reading as reading;
ghost use Rattle.dq_rollup.specs.Reading.{cell_in, higher, lower, plus_sum, some_value};

use crate::reading::{counted, summed, value_at};
use crate::source::{Part, Source};
use dq_base::{Cell, List, Memory, Ratio, Table, Value, compare_values};
use std::alloc::Global;
use std::collections::BTreeSet;

fn counted_at(alloc: Global, part: Part, held: &Table, place: u64) -> Result<u64, Memory>
    ensures { IfOk result (λ n. n ≡ reading.counted part (slice_index_or held.now place [])) }
{
    match held.get(place) {
        Some(row) => counted(part, row),
        None => counted(part, &List::new(alloc)),
    }
}

fn summed_at(alloc: Global, part: Part, held: &Table, place: u64) -> Result<Option<i128>, Memory>
    ensures { IfOk result (λ sum. sum ≡ reading.summed part (slice_index_or held.now place [])) }
{
    match held.get(place) {
        Some(row) => summed(part, row),
        None => summed(part, &List::new(alloc)),
    }
}

fn value_in(alloc: Global, held: &Table, place: u64, at: u64) -> Result<Value, Memory>
    ensures { IfOk result (λ v. v ≡ reading.value_of (cell_in (slice_index_or held.now place []) at)) }
{
    match held.get(place) {
        Some(row) => value_at(alloc, row, at),
        None => value_at(alloc, &List::new(alloc), at),
    }
}

fn plus(a: u64, b: u64) -> Result<u64, Memory>
    ensures { IfOk result (λ n. n ≡ a + b) }
{
    match a.checked_add(b) {
        Some(n) => Ok(n),
        None => Err(Memory),
    }
}

/// How many values the rows at the places count.
fn total_count(alloc: Global, part: Part, held: &Table, places: &[u64]) -> Result<u64, Memory>
    ensures { IfOk result (λ n. n ≡ derived.total_count part (rows_at held.now places.now)) }
{
    let mut n = 0;
    for place in places {
        n = plus(n, counted_at(alloc, part, held, *place)?)?;
    }
    Ok(n)
}

fn plus_number(a: i128, b: i128) -> Result<i128, Memory>
    ensures { IfOk result (λ n. n ≡ a +ℤ b) }
{
    match a.checked_add(b) {
        Some(n) => Ok(n),
        None => Err(Memory),
    }
}

fn add_sums(a: Option<i128>, b: Option<i128>) -> Result<Option<i128>, Memory>
    ensures { IfOk result (λ sum. sum ≡ plus_sum a b) }
{
    match (a, b) {
        (None, _) => Ok(b),
        (Some(_), None) => Ok(a),
        (Some(x), Some(y)) => Ok(Some(plus_number(x, y)?)),
    }
}

/// The sum of the rows at the places, if there is one.
fn total_sum(
    alloc: Global,
    part: Part,
    held: &Table,
    places: &[u64],
) -> Result<Option<i128>, Memory>
    ensures { IfOk result (λ sum. sum ≡ derived.total_sum part (rows_at held.now places.now)) }
{
    let mut sum = None;
    for place in places {
        sum = add_sums(sum, summed_at(alloc, part, held, *place)?)?;
    }
    Ok(sum)
}

fn lesser_of(a: Value, b: Value) -> Value
    ensures { result ≡ lesser a b }
{
    if compare_values(&b, &a).is_lt() { b } else { a }
}

fn greater_of(a: Value, b: Value) -> Value
    ensures { result ≡ greater a b }
{
    if compare_values(&b, &a).is_gt() { b } else { a }
}

fn filled(v: Value) -> Option<Value>
    ensures { result ≡ some_value v }
{
    match v {
        Value::Null => None,
        Value::Int(n) => Some(Value::Int(n)),
        Value::Word(text) => Some(Value::Word(text)),
    }
}

fn lower_of(best: Option<Value>, v: Option<Value>) -> Option<Value>
    ensures { result ≡ lower best v }
{
    match (best, v) {
        (None, v) => v,
        (Some(a), None) => Some(a),
        (Some(a), Some(b)) => Some(lesser_of(a, b)),
    }
}

fn higher_of(best: Option<Value>, v: Option<Value>) -> Option<Value>
    ensures { result ≡ higher best v }
{
    match (best, v) {
        (None, v) => v,
        (Some(a), None) => Some(a),
        (Some(a), Some(b)) => Some(greater_of(a, b)),
    }
}

/// The least value of the rows at the places, if there is one.
fn least_in(alloc: Global, at: u64, held: &Table, places: &[u64]) -> Result<Option<Value>, Memory>
    ensures { IfOk result (λ best. best ≡ derived.least_in at (rows_at held.now places.now)) }
{
    let mut best = None;
    for place in places {
        let v = value_in(alloc, held, *place, at)?;
        best = lower_of(best, filled(v));
    }
    Ok(best)
}

/// The greatest value of the rows at the places, if there is one.
fn greatest_in(
    alloc: Global,
    at: u64,
    held: &Table,
    places: &[u64],
) -> Result<Option<Value>, Memory>
    ensures { IfOk result (λ best. best ≡ derived.greatest_in at (rows_at held.now places.now)) }
{
    let mut best = None;
    for place in places {
        let v = value_in(alloc, held, *place, at)?;
        best = higher_of(best, filled(v));
    }
    Ok(best)
}

fn add_some(set: &mut BTreeSet<Value>, v: Option<Value>) -> Result<(), Memory>
    ensures { OnOk result (keys set.new ≡ with_some v (keys set.old)) }
{
    match v {
        None => Ok(()),
        Some(v) => {
            set.insert(v)?;
            Ok(())
        }
    }
}

/// How many different values the rows at the places have.
fn different_in(alloc: Global, at: u64, held: &Table, places: &[u64]) -> Result<u64, Memory>
    ensures { IfOk result (λ n. n ≡ length (derived.different_in at (rows_at held.now places.now))) }
{
    let mut set = BTreeSet::new(alloc);
    for place in places {
        let v = value_in(alloc, held, *place, at)?;
        add_some(&mut set, filled(v))?;
    }
    Ok(set.len() as u64)
}

/// The cell of a value. It takes no memory.
pub fn cell_from(v: Value) -> Cell
    ensures { result ≡ cell_of v }
{
    match v {
        Value::Null => Cell::Null,
        Value::Int(n) => Cell::Whole(i128::from(n)),
        Value::Word(text) => Cell::Word(text),
    }
}

fn sum_cell(sum: Option<i128>) -> Cell
    ensures { result ≡ derived.sum_cell sum }
{
    match sum {
        None => Cell::Null,
        Some(n) => Cell::Whole(n),
    }
}

fn value_cell(v: Option<Value>) -> Cell
    ensures { result ≡ derived.value_cell v }
{
    match v {
        None => Cell::Null,
        Some(v) => cell_from(v),
    }
}

fn average_cell(sum: Option<i128>, count: u64) -> Result<Cell, Memory>
    ensures { IfOk result (λ cell. cell ≡ derived.average_cell sum count) }
{
    let Some(sum) = sum else {
        return Ok(Cell::Null);
    };
    match Ratio::new(sum, count) {
        Some(ratio) => Ok(Cell::Ratio(ratio)),
        None => Err(Memory),
    }
}

/// A measure over the held rows at the places of a group.
pub fn cell_over(
    alloc: Global,
    source: Source,
    held: &Table,
    places: &[u64],
) -> Result<Cell, Memory>
    ensures { IfOk result (λ cell. cell ≡ derived.cell_over (rows_at held.now places.now) source) }
{
    match source {
        Source::Count(part) => {
            let n = total_count(alloc, part, held, places)?;
            Ok(Cell::Whole(i128::from(n)))
        }
        Source::Sum(part) => Ok(sum_cell(total_sum(alloc, part, held, places)?)),
        Source::Least(at) => Ok(value_cell(least_in(alloc, at, held, places)?)),
        Source::Greatest(at) => Ok(value_cell(greatest_in(alloc, at, held, places)?)),
        Source::Different(at) => {
            let n = different_in(alloc, at, held, places)?;
            Ok(Cell::Whole(i128::from(n)))
        }
        Source::Average(sums, counts) => {
            let sum = total_sum(alloc, sums, held, places)?;
            average_cell(sum, total_count(alloc, counts, held, places)?)
        }
    }
}
