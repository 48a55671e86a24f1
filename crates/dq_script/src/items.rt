ghost use Rattle.std.specs.Prelude.{◌≡◌, ◌+◌, ◌/◌, max, length, sum_by};
ghost use Rattle.dq_base.specs.Sessions.{value_items, list_items, test_items, filter_items};
ghost use Rattle.dq_script.specs.Reasons.{told};

use dq_base::{Predicate, Test, Value};

// The items that a text counts: one for each 32 bytes begun, and at least one.
fn text_items(text: &[u8]) -> u64
    ensures { result ≡ max 1 ((length text.now + 31) / 32) }
{
    if text.is_empty() {
        return 1;
    }
    ((text.len() + 31) / 32) as u64
}

// The items that a value counts.
fn value_items(value: &Value) -> u64
    ensures { result ≡ value_items value.now }
{
    match value {
        Value::Null => 1,
        Value::Int(_) => 1,
        Value::Word(text) => text_items(text.bytes()),
    }
}

// The items of values, as far as a number tells them.
fn values_items(values: &[Value]) -> u64
    ensures { result ≡ told (sum_by value_items values.now) }
{
    let mut count: u64 = 0;
    for value in values {
        count = count.saturating_add(value_items(value));
    }
    count
}

// The items of a list, which counts one where it is empty.
fn list_items(list: &[Value]) -> u64
    ensures { result ≡ told (list_items list.now) }
{
    if list.is_empty() {
        return 1;
    }
    values_items(list)
}

// The items of a test.
fn test_items(test: &Test) -> u64
    ensures { result ≡ told (test_items test.now) }
{
    match test {
        Test::Among(list) => list_items(list.as_slice()),
        Test::Except(list) => list_items(list.as_slice()),
        Test::Between(_, _) => 1,
    }
}

// The items of filters, as far as a number tells them.
pub fn filter_items(filters: &[Predicate]) -> u64
    ensures { result ≡ told (filter_items filters.now) }
{
    let mut count: u64 = 0;
    for filter in filters {
        count = count.saturating_add(test_items(&filter.test));
    }
    count
}
