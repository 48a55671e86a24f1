ghost use Rattle.std.specs.Prelude.{◌≡◌};
ghost use Rattle.std.specs.Option.{option_copied};
ghost use Rattle.dq_base.specs.Canonical.{IsCanonical, canonical_test};
ghost use Rattle.dq_base.specs.Filters.{from_low, holds, keeps, lies_between, passes as filters_pass, to_high, value_at};
ghost use Rattle.dq_base.specs.Orders.{value_cmp};
ghost use Rattle.dq_base.specs.Sets.{has, set_of};
ghost use Rattle.dq_fold.specs.Tallies.{filled};

use dq_base::{Predicate, Predicates, Query, Test, Value, Values, compare_values};

/// Whether an ascending list has the like of a value. It costs the logarithm of the list.
fn has_like(list: &Values, v: &Value) -> bool
    requires { set_of value_cmp list.now ≡ list.now }
    ensures { result ≡ has value_cmp list.now v.now }
{
    list.as_slice().binary_search(v).is_ok()
}

/// Whether a number isn't below the low bound, if there is one.
fn is_from(low: Option<i64>, n: i64) -> bool
    ensures { result ≡ from_low low n }
{
    match low {
        None => true,
        Some(low) => low <= n,
    }
}

/// Whether a number isn't above the high bound, if there is one.
fn is_to(high: Option<i64>, n: i64) -> bool
    ensures { result ≡ to_high high n }
{
    match high {
        None => true,
        Some(high) => n <= high,
    }
}

/// Whether a value is a whole number within the bounds.
fn is_between(low: Option<i64>, high: Option<i64>, v: &Value) -> bool
    ensures { result ≡ lies_between low high v.now }
{
    match v {
        Value::Null => false,
        Value::Int(n) => is_from(low, *n) && is_to(high, *n),
        Value::Word(_) => false,
    }
}

/// Whether a test holds of a value.
fn test_holds(test: &Test, v: &Value) -> bool
    requires { canonical_test test.now ≡ test.now }
    ensures { result ≡ holds test.now v.now }
{
    match test {
        Test::Among(list) => has_like(list, v),
        Test::Except(list) => !has_like(list, v),
        Test::Between(low, high) => is_between(*low, *high, v),
    }
}

/// Whether a predicate holds of a row.
fn predicate_holds(p: &Predicate, row: &[Value]) -> bool
    requires { canonical_test p.now.test ≡ p.now.test }
    ensures { result ≡ holds p.now.test (value_at row.now p.now.column) }
{
    match row.get(p.column as usize) {
        Some(v) => test_holds(&p.test, v),
        None => test_holds(&p.test, &Value::Null),
    }
}

/// Whether a query keeps a row. It takes no memory, and costs the predicates times the logarithm of their lists.
pub fn is_kept(q: &Query, row: &[Value]) -> bool
    requires { IsCanonical q.now }
    ensures { result ≡ keeps q.now row.now }
{
    q.filters.as_slice().iter().all(|p| predicate_holds(p, row))
}

/// The row's value in a column, if it is there and isn't null.
pub fn filled_at(row: &[Value], column: u32) -> Option<&Value>
    ensures { option_copied result ≡ filled (value_at row.now column) }
{
    let v = row.get(column as usize)?;
    match v {
        Value::Null => None,
        Value::Int(_) => Some(v),
        Value::Word(_) => Some(v),
    }
}

/// Whether a list has the like of a value. It costs the length of the list.
fn has_value(list: &Values, v: &Value) -> bool
    ensures { result ≡ has value_cmp list.now v.now }
{
    list.as_slice()
        .iter()
        .any(|other| compare_values(v, other).is_eq())
}

/// Whether any test, in canonical form or not, holds of a value.
fn test_passes(test: &Test, v: &Value) -> bool
    ensures { result ≡ holds test.now v.now }
{
    match test {
        Test::Among(list) => has_value(list, v),
        Test::Except(list) => !has_value(list, v),
        Test::Between(low, high) => is_between(*low, *high, v),
    }
}

/// Whether any predicate holds of a row.
fn predicate_passes(p: &Predicate, row: &[Value]) -> bool
    ensures { result ≡ holds p.now.test (value_at row.now p.now.column) }
{
    match row.get(p.column as usize) {
        Some(v) => test_passes(&p.test, v),
        None => test_passes(&p.test, &Value::Null),
    }
}

/// Whether a row meets each predicate, in canonical form or not. It takes no memory, and costs the lengths of the lists.
pub fn passes(filters: &Predicates, row: &[Value]) -> bool
    ensures { result ≡ filters_pass filters.now row.now }
{
    filters.as_slice().iter().all(|p| predicate_passes(p, row))
}
