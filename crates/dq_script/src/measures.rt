ghost use Rattle.std.specs.Prelude.{◌≡◌};
ghost use Rattle.serde_json.specs.Data.{item};
ghost use Rattle.serde_json.specs.View.{view, items_view};
ghost use Rattle.dq_script.specs.Readings.{Answers, given};
ghost use Rattle.dq_script.specs.Measures.{kind_of, column_by, measure_by, rows_of, measure_in, measure_of};

use crate::misfit::{Misfit, here};
use crate::names::{Names, ReadsColumn};
use crate::parts::{is_string, only};
use crate::reads::{Reads, read_within};
use dq_base::Measure;
use serde_json::Value;
use std::alloc::Global;

// A measure, without its column.
#[derive(Clone, Copy)]
pub enum Kind {
    Rows,
    Count,
    Sum,
    Min,
    Max,
    Distinct,
    Avg,
}

// The kind of a measure, by its word.
fn kind_of(value: &Value) -> Option<Kind>
    ensures { result ≡ kind_of (view value.now) }
{
    if is_string(value, b"rows") {
        return Some(Kind::Rows);
    }
    if is_string(value, b"count") {
        return Some(Kind::Count);
    }
    if is_string(value, b"sum") {
        return Some(Kind::Sum);
    }
    if is_string(value, b"min") {
        return Some(Kind::Min);
    }
    if is_string(value, b"max") {
        return Some(Kind::Max);
    }
    if is_string(value, b"countd") {
        return Some(Kind::Distinct);
    }
    if is_string(value, b"avg") {
        return Some(Kind::Avg);
    }
    None
}

// Reads the kind of a measure.
struct ReadsKind;

impl Reads for ReadsKind {
    type Out = Kind;

    ghost reading = { λ s d. given (kind_of d) };

    fn read(&self, alloc: Global, value: &Value) -> Result<Kind, Misfit> {
        match kind_of(value) {
            Some(kind) => Ok(kind),
            None => Err(here(alloc)),
        }
    }
}

// The column of a measure, which stands alone behind the word.
fn read_column(alloc: Global, names: Names, rest: &[Value]) -> Result<u32, Misfit>
    ensures { Answers (column_by names.entry.names.now (items_view rest.now)) result }
{
    match only(rest) {
        Some(column) => read_within(&ReadsColumn { names }, alloc, b"1", column),
        None => Err(here(alloc)),
    }
}

// The count of rows, which stands alone.
fn read_rows(alloc: Global, rest: &[Value]) -> Result<Measure, Misfit>
    ensures { Answers (given (rows_of (items_view rest.now))) result }
{
    if rest.is_empty() {
        Ok(Measure::Rows)
    } else {
        Err(here(alloc))
    }
}

// A measure, by its kind and what follows.
fn read_by(alloc: Global, names: Names, rest: &[Value], kind: Kind) -> Result<Measure, Misfit>
    ensures { Answers (measure_by names.entry.names.now (items_view rest.now) kind) result }
{
    if let Kind::Rows = kind {
        return read_rows(alloc, rest);
    }
    let column = read_column(alloc, names, rest)?;
    match kind {
        Kind::Rows => Ok(Measure::Rows),
        Kind::Count => Ok(Measure::Count(column)),
        Kind::Sum => Ok(Measure::Sum(column)),
        Kind::Min => Ok(Measure::Min(column)),
        Kind::Max => Ok(Measure::Max(column)),
        Kind::Distinct => Ok(Measure::Distinct(column)),
        Kind::Avg => Ok(Measure::Avg(column)),
    }
}

// A measure, by its word and what follows.
fn read_from(alloc: Global, names: Names, word: &Value, rest: &[Value]) -> Result<Measure, Misfit>
    ensures { Answers (measure_in names.entry.names.now (item (view word.now) (items_view rest.now))) result }
{
    let kind = read_within(&ReadsKind, alloc, b"0", word)?;
    read_by(alloc, names, rest, kind)
}

// The measure of an array's items.
fn read_items(alloc: Global, names: Names, items: &[Value]) -> Result<Measure, Misfit>
    ensures { Answers (measure_in names.entry.names.now (items_view items.now)) result }
{
    if items.is_empty() {
        return Err(here(alloc));
    }
    read_from(alloc, names, &items[0], &items[1..])
}

// Reads a measure of columns of these names.
#[derive(Drop)]
pub struct ReadsMeasure<'a> {
    pub names: Names<'a>,
}

impl<'a> Reads for ReadsMeasure<'a> {
    type Out = Measure;

    ghost reading = { λ s. measure_of s.names.names.now };

    fn read(&self, alloc: Global, value: &Value) -> Result<Measure, Misfit> {
        match value.as_array() {
            Some(items) => read_items(alloc, self.names, items.as_slice()),
            None => Err(here(alloc)),
        }
    }
}
