ghost use Rattle.std.specs.Prelude.{◌≡◌, IfOk};
ghost use Rattle.serde_json.specs.View.{view};
ghost use Rattle.dq_script.specs.Readings.{Answers, given};
ghost use Rattle.dq_script.specs.Columns.{sort_of, column_of, with_column, next_column, no_columns, columns_of};

use crate::arrays::{Takes, take_items};
use crate::misfit::{Misfit, here};
use crate::parts::{ReadsNewName, is_string, some_items, two_items};
use crate::places::Places;
use crate::reads::{Reads, read_within};
use dq_base::{Memory, Schema, Sort, Sorts, Text};
use serde_json::Value;
use std::alloc::Global;

// A column as the script writes it.
#[derive(Drop)]
pub struct Column {
    pub name: Text,
    pub sort: Sort,
}

// The columns that were read so far, as many names as sorts.
#[derive(Drop)]
pub struct Columns {
    pub names: Places<Text>,
    pub sorts: Sorts,
}

// What a column holds, by its word.
fn sort_of(value: &Value) -> Option<Sort>
    ensures { result ≡ sort_of (view value.now) }
{
    if is_string(value, b"text") {
        return Some(Sort::Word);
    }
    if is_string(value, b"whole") {
        return Some(Sort::Whole);
    }
    None
}

// Reads what a column holds.
#[derive(Drop)]
struct ReadsSort;

impl Reads for ReadsSort {
    type Out = Sort;

    ghost reading = { λ s d. given (sort_of d) };

    fn read(&self, alloc: Global, value: &Value) -> Result<Sort, Misfit> {
        match sort_of(value) {
            Some(sort) => Ok(sort),
            None => Err(here(alloc)),
        }
    }
}

// A column, of a name that no earlier one has.
fn read_column(alloc: Global, earlier: &Places<Text>, value: &Value) -> Result<Column, Misfit>
    ensures { Answers (column_of earlier.now (view value.now)) result }
{
    let Some((name, sort)) = two_items(value) else {
        return Err(here(alloc));
    };
    let name = read_within(&ReadsNewName { earlier }, alloc, b"0", name)?;
    let sort = read_within(&ReadsSort, alloc, b"1", sort)?;
    Ok(Column { name, sort })
}

// These columns, and one more at the end.
fn with_column(alloc: Global, columns: Columns, column: Column) -> Result<Columns, Memory>
    ensures { IfOk result (λ more. more ≡ with_column columns column) }
{
    let Columns { names, mut sorts } = columns;
    let copy = Text::copy_of(alloc, column.name.bytes())?;
    let names = names.with(column.name, copy)?;
    sorts.push(column.sort)?;
    Ok(Columns { names, sorts })
}

// Takes columns in order.
#[derive(Drop)]
struct TakesColumns;

impl Takes for TakesColumns {
    type State = Columns;

    ghost next = { λ s. next_column };

    fn take(&self, alloc: Global, columns: Columns, value: &Value) -> Result<Columns, Misfit> {
        let column = read_column(alloc, &columns.names, value)?;
        let more = with_column(alloc, columns, column)?;
        Ok(more)
    }
}

// No columns.
fn no_columns(alloc: Global) -> Columns
    ensures { result ≡ no_columns }
{
    Columns {
        names: Places::new(alloc),
        sorts: Sorts::new(alloc),
    }
}

// Reads the columns of an extract.
#[derive(Drop)]
pub struct ReadsColumns;

impl Reads for ReadsColumns {
    type Out = Schema;

    ghost reading = { λ s d. columns_of d };

    fn read(&self, alloc: Global, value: &Value) -> Result<Schema, Misfit> {
        let Some(items) = some_items(value) else {
            return Err(here(alloc));
        };
        let columns = take_items(&TakesColumns, alloc, no_columns(alloc), items)?;
        let schema = Schema::new(alloc, columns.names.into_list(), columns.sorts)?;
        Ok(schema)
    }
}
