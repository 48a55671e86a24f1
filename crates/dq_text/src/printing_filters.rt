ghost use Rattle.std.specs.List.{flat_map};
ghost use Rattle.std.specs.Prelude.{◌≡◌, ◌++◌, OnOk};
ghost use Rattle.dq_text.specs.Statements as form;

use crate::statement::{Listed, SaidPredicate, SaidTest};
use dq_base::{
    Memory, Predicate, Test, Text, Value, Values, put_labelled, put_signed, put_spelled,
};

/// Puts a column behind the text.
pub(crate) fn put_column(text: &mut Text, column: u32) -> Result<(), Memory>
    ensures { OnOk result (text.new ≡ text.old ++ form.column_text column) }
{
    put_labelled(text, b"c", u64::from(column))
}

fn put_value(text: &mut Text, value: &Value) -> Result<(), Memory>
    ensures { OnOk result (text.new ≡ text.old ++ form.value_text value.now) }
{
    match value {
        Value::Null => text.append(b"null"),
        Value::Int(number) => put_signed(text, i128::from(*number)),
        Value::Word(word) => put_spelled(text, word.bytes()),
    }
}

fn put_further_value(text: &mut Text, value: &Value) -> Result<(), Memory>
    ensures { OnOk result (text.new ≡ text.old ++ form.after_comma form.value_text value.now) }
{
    text.push(b',')?;
    put_value(text, value)
}

fn put_further_values(text: &mut Text, values: &[Value]) -> Result<(), Memory>
    ensures { OnOk result (text.new ≡ text.old ++ flat_map (form.after_comma form.value_text) values.now) }
{
    for value in values {
        put_further_value(text, value)?;
    }
    Ok(())
}

fn put_values(text: &mut Text, values: &[Value]) -> Result<(), Memory>
    ensures { OnOk result (text.new ≡ text.old ++ form.joined form.value_text values.now) }
{
    match values.split_first() {
        None => Ok(()),
        Some((first, others)) => {
            put_value(text, first)?;
            put_further_values(text, others)
        }
    }
}

fn put_spelled_list(text: &mut Text, values: &Values) -> Result<(), Memory>
    ensures { OnOk result (text.new ≡ text.old ++ form.list_text (Listed.Spelled values.now)) }
{
    text.push(b'(')?;
    put_values(text, values.as_slice())?;
    text.push(b')')
}

fn put_list(text: &mut Text, list: &Listed) -> Result<(), Memory>
    ensures { OnOk result (text.new ≡ text.old ++ form.list_text list.now) }
{
    match list {
        Listed::Spelled(values) => put_spelled_list(text, values),
        Listed::Named(table) => put_labelled(text, b"#", *table),
    }
}

fn put_bound(text: &mut Text, bound: Option<i64>) -> Result<(), Memory>
    ensures { OnOk result (text.new ≡ text.old ++ form.bound_text bound) }
{
    match bound {
        None => text.push(b'*'),
        Some(number) => put_signed(text, i128::from(number)),
    }
}

fn put_between(text: &mut Text, low: Option<i64>, high: Option<i64>) -> Result<(), Memory>
    ensures { OnOk result (text.new ≡ text.old ++ form.test_text (SaidTest.Between low high)) }
{
    text.append(b" between ")?;
    put_bound(text, low)?;
    text.append(b"..")?;
    put_bound(text, high)
}

fn put_said_test(text: &mut Text, test: &SaidTest) -> Result<(), Memory>
    ensures { OnOk result (text.new ≡ text.old ++ form.test_text test.now) }
{
    match test {
        SaidTest::Among(list) => {
            text.append(b" among ")?;
            put_list(text, list)
        }
        SaidTest::Except(list) => {
            text.append(b" except ")?;
            put_list(text, list)
        }
        SaidTest::Between(low, high) => put_between(text, *low, *high),
    }
}

fn put_test(text: &mut Text, test: &Test) -> Result<(), Memory>
    ensures { OnOk result (text.new ≡ text.old ++ form.test_text (form.plain_test test.now)) }
{
    match test {
        Test::Among(list) => {
            text.append(b" among ")?;
            put_spelled_list(text, list)
        }
        Test::Except(list) => {
            text.append(b" except ")?;
            put_spelled_list(text, list)
        }
        Test::Between(low, high) => put_between(text, *low, *high),
    }
}

fn put_said_predicate(text: &mut Text, predicate: &SaidPredicate) -> Result<(), Memory>
    ensures { OnOk result (text.new ≡ text.old ++ form.where_text predicate.now) }
{
    text.append(b" where ")?;
    put_column(text, predicate.column)?;
    put_said_test(text, &predicate.test)
}

fn put_predicate(text: &mut Text, predicate: &Predicate) -> Result<(), Memory>
    ensures { OnOk result (text.new ≡ text.old ++ form.plain_where predicate.now) }
{
    text.append(b" where ")?;
    put_column(text, predicate.column)?;
    put_test(text, &predicate.test)
}

/// Puts a statement's filters behind the text.
pub(crate) fn put_said_filters(text: &mut Text, filters: &[SaidPredicate]) -> Result<(), Memory>
    ensures { OnOk result (text.new ≡ text.old ++ flat_map form.where_text filters.now) }
{
    for predicate in filters {
        put_said_predicate(text, predicate)?;
    }
    Ok(())
}

/// Puts a query's filters behind the text, each list spelled.
pub(crate) fn put_filters(text: &mut Text, filters: &[Predicate]) -> Result<(), Memory>
    ensures { OnOk result (text.new ≡ text.old ++ flat_map form.plain_where filters.now) }
{
    for predicate in filters {
        put_predicate(text, predicate)?;
    }
    Ok(())
}
