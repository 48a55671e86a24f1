ghost use Rattle.std.specs.List.{AllByRecursion};
ghost use Rattle.dq_base.specs.Rests.{Anything, Stops};
ghost use Rattle.dq_text.specs.Reading.{AllSome, AreBounds, Closes, Reads, bounds_text, bracketed_text};
ghost use Rattle.dq_text.specs.Sizes.{IsSizedBound, IsSizedList, IsSizedTest, IsSizedValue};
ghost use Rattle.dq_text.specs.Statements.{bound_text, joined, list_text, test_text, value_text};

use crate::fault::TextFault;
use crate::left::Left;
use crate::reading_numbers::{read_u64, read_whole};
use crate::reading_quoted::read_quoted;
use crate::statement::{Listed, SaidTest};
use dq_base::{List, Value, Values};
use std::alloc::Global;

// Reads a value.
fn read_value(alloc: Global, left: &mut Left) -> Result<Value, TextFault>
    ensures { Reads IsSizedValue Stops value_text left.old left.new result }
{
    if left.skip(b"null") {
        return Ok(Value::Null);
    }
    if left.skip(b"\"") {
        let text = read_quoted(alloc, left)?;
        return Ok(Value::Word(text));
    }
    let number = read_whole(left)?;
    Ok(Value::Int(number))
}

// Reads one or more values.
fn read_values(alloc: Global, left: &mut Left) -> Result<Values, TextFault>
    ensures { Reads (AllSome IsSizedValue) Closes (joined value_text) left.old left.new result }
{
    let mut values = List::new(alloc);
    let first = read_value(alloc, left)?;
    values.push(first)?;
    while left.skip(b",") {
        let value = read_value(alloc, left)?;
        values.push(value)?;
    }
    Ok(values)
}

// Reads the values of a list, behind its first bracket.
fn read_bracketed(alloc: Global, left: &mut Left) -> Result<Values, TextFault>
    ensures { Reads (AllByRecursion IsSizedValue) Anything bracketed_text left.old left.new result }
{
    if left.skip(b")") {
        return Ok(List::new(alloc));
    }
    let values = read_values(alloc, left)?;
    if left.skip(b")") {
        Ok(values)
    } else {
        Err(TextFault::NotInGrammar)
    }
}

// Reads a list.
fn read_list(alloc: Global, left: &mut Left) -> Result<Listed, TextFault>
    ensures { Reads IsSizedList Stops list_text left.old left.new result }
{
    if left.skip(b"(") {
        let values = read_bracketed(alloc, left)?;
        return Ok(Listed::Spelled(values));
    }
    if left.skip(b"#") {
        let table = read_u64(left)?;
        return Ok(Listed::Named(table));
    }
    Err(TextFault::NotInGrammar)
}

// Reads a bound, or a star for a missing one.
fn read_bound(left: &mut Left) -> Result<Option<i64>, TextFault>
    ensures { Reads IsSizedBound Stops bound_text left.old left.new result }
{
    if left.skip(b"*") {
        return Ok(None);
    }
    let number = read_whole(left)?;
    Ok(Some(number))
}

// Reads two bounds.
fn read_bounds(left: &mut Left) -> Result<(Option<i64>, Option<i64>), TextFault>
    ensures { Reads AreBounds Stops bounds_text left.old left.new result }
{
    let low = read_bound(left)?;
    if !left.skip(b"..") {
        return Err(TextFault::NotInGrammar);
    }
    let high = read_bound(left)?;
    Ok((low, high))
}

/// Reads what a predicate asks of a value.
pub(crate) fn read_test(alloc: Global, left: &mut Left) -> Result<SaidTest, TextFault>
    ensures { Reads IsSizedTest Stops test_text left.old left.new result }
{
    if left.skip(b" among ") {
        let list = read_list(alloc, left)?;
        return Ok(SaidTest::Among(list));
    }
    if left.skip(b" except ") {
        let list = read_list(alloc, left)?;
        return Ok(SaidTest::Except(list));
    }
    if left.skip(b" between ") {
        let (low, high) = read_bounds(left)?;
        return Ok(SaidTest::Between(low, high));
    }
    Err(TextFault::NotInGrammar)
}
