ghost use Rattle.std.specs.List.{AllByRecursion, flat_map};
ghost use Rattle.std.specs.Prelude.{codes};
ghost use Rattle.dq_base.specs.Rests.{Anything, Stops};
ghost use Rattle.dq_text.specs.Reading.{After, AllSome, EndsDim, IsEnd, Reads, predicate_text};
ghost use Rattle.dq_text.specs.Sizes.{IsNumber, IsSizedDim, IsSizedKey, IsSizedMeasure, IsSizedPredicate, IsSizedTop, IsWidth};
ghost use Rattle.dq_text.specs.Statements.{clause, column_text, dim_text, joined, key_text, measure_text, top_text, where_text, width_text};

use crate::fault::TextFault;
use crate::left::Left;
use crate::reading_numbers::read_u32;
use crate::reading_values::read_test;
use crate::statement::{SaidPredicate, SaidPredicates};
use dq_base::{Dim, Dims, List, Measure, Measures, OrderKey, OrderKeys};
use std::alloc::Global;

// Reads a column.
fn read_column(left: &mut Left) -> Result<u32, TextFault>
    ensures { Reads IsNumber Stops column_text left.old left.new result }
{
    if !left.skip(b"c") {
        return Err(TextFault::NotInGrammar);
    }
    read_u32(left)
}

// Reads a predicate, behind its word.
fn read_predicate(alloc: Global, left: &mut Left) -> Result<SaidPredicate, TextFault>
    ensures { Reads IsSizedPredicate Stops predicate_text left.old left.new result }
{
    let column = read_column(left)?;
    let test = read_test(alloc, left)?;
    Ok(SaidPredicate { column, test })
}

/// Reads the filters.
pub(crate) fn read_filters(alloc: Global, left: &mut Left) -> Result<SaidPredicates, TextFault>
    ensures { Reads (AllByRecursion IsSizedPredicate) (After 1) (flat_map where_text) left.old left.new result }
{
    let mut filters = List::new(alloc);
    while left.skip(b" where ") {
        let predicate = read_predicate(alloc, left)?;
        filters.push(predicate)?;
    }
    Ok(filters)
}

// Reads the width of a dimension's bands behind its column: 1 where none is written.
fn read_width(left: &mut Left) -> Result<u32, TextFault>
    ensures { Reads IsWidth EndsDim width_text left.old left.new result }
{
    if !left.skip(b"/") {
        return Ok(1);
    }
    let width = read_u32(left)?;
    if width < 2 {
        return Err(TextFault::NotInGrammar);
    }
    Ok(width)
}

// Reads a dimension.
fn read_dim(left: &mut Left) -> Result<Dim, TextFault>
    ensures { Reads IsSizedDim EndsDim dim_text left.old left.new result }
{
    let column = read_column(left)?;
    let width = read_width(left)?;
    match Dim::new(column, width) {
        Some(dim) => Ok(dim),
        None => Err(TextFault::NotInGrammar),
    }
}

// Reads one or more dimensions.
fn read_some_dims(alloc: Global, left: &mut Left) -> Result<Dims, TextFault>
    ensures { Reads (AllSome IsSizedDim) (After 2) (joined dim_text) left.old left.new result }
{
    let mut dims = List::new(alloc);
    let first = read_dim(left)?;
    dims.push(first)?;
    while left.skip(b",") {
        let dim = read_dim(left)?;
        dims.push(dim)?;
    }
    Ok(dims)
}

/// Reads the dimensions.
pub(crate) fn read_dims(alloc: Global, left: &mut Left) -> Result<Dims, TextFault>
    ensures { Reads (AllByRecursion IsSizedDim) (After 2) (clause (codes " by ") dim_text) left.old left.new result }
{
    if !left.skip(b" by ") {
        return Ok(List::new(alloc));
    }
    read_some_dims(alloc, left)
}

// Reads a measure.
fn read_measure(left: &mut Left) -> Result<Measure, TextFault>
    ensures { Reads IsSizedMeasure Stops measure_text left.old left.new result }
{
    if left.skip(b"rows") {
        return Ok(Measure::Rows);
    }
    if left.skip(b"count ") {
        let column = read_column(left)?;
        return Ok(Measure::Count(column));
    }
    if left.skip(b"sum ") {
        let column = read_column(left)?;
        return Ok(Measure::Sum(column));
    }
    if left.skip(b"min ") {
        let column = read_column(left)?;
        return Ok(Measure::Min(column));
    }
    if left.skip(b"max ") {
        let column = read_column(left)?;
        return Ok(Measure::Max(column));
    }
    if left.skip(b"countd ") {
        let column = read_column(left)?;
        return Ok(Measure::Distinct(column));
    }
    if left.skip(b"avg ") {
        let column = read_column(left)?;
        return Ok(Measure::Avg(column));
    }
    Err(TextFault::NotInGrammar)
}

// Reads one or more measures.
fn read_some_measures(alloc: Global, left: &mut Left) -> Result<Measures, TextFault>
    ensures { Reads (AllSome IsSizedMeasure) (After 3) (joined measure_text) left.old left.new result }
{
    let mut measures = List::new(alloc);
    let first = read_measure(left)?;
    measures.push(first)?;
    while left.skip(b",") {
        let measure = read_measure(left)?;
        measures.push(measure)?;
    }
    Ok(measures)
}

/// Reads the measures.
pub(crate) fn read_measures(alloc: Global, left: &mut Left) -> Result<Measures, TextFault>
    ensures { Reads (AllByRecursion IsSizedMeasure) (After 3) (clause (codes " show ") measure_text) left.old left.new result }
{
    if !left.skip(b" show ") {
        return Ok(List::new(alloc));
    }
    read_some_measures(alloc, left)
}

// Reads an order key.
fn read_key(left: &mut Left) -> Result<OrderKey, TextFault>
    ensures { Reads IsSizedKey Anything key_text left.old left.new result }
{
    let place = read_u32(left)?;
    if left.skip(b"-") {
        return Ok(OrderKey { place, down: true });
    }
    if left.skip(b"+") {
        return Ok(OrderKey { place, down: false });
    }
    Err(TextFault::NotInGrammar)
}

// Reads one or more order keys.
fn read_keys(alloc: Global, left: &mut Left) -> Result<OrderKeys, TextFault>
    ensures { Reads (AllSome IsSizedKey) (After 4) (joined key_text) left.old left.new result }
{
    let mut keys = List::new(alloc);
    let first = read_key(left)?;
    keys.push(first)?;
    while left.skip(b",") {
        let key = read_key(left)?;
        keys.push(key)?;
    }
    Ok(keys)
}

/// Reads the order keys.
pub(crate) fn read_order(alloc: Global, left: &mut Left) -> Result<OrderKeys, TextFault>
    ensures { Reads (AllByRecursion IsSizedKey) (After 4) (clause (codes " order ") key_text) left.old left.new result }
{
    if !left.skip(b" order ") {
        return Ok(List::new(alloc));
    }
    read_keys(alloc, left)
}

/// Reads the number of rows that are kept, before the end.
pub(crate) fn read_top(left: &mut Left) -> Result<Option<u32>, TextFault>
    ensures { Reads IsSizedTop IsEnd top_text left.old left.new result }
{
    if !left.skip(b" top ") {
        return Ok(None);
    }
    let rows = read_u32(left)?;
    Ok(Some(rows))
}
