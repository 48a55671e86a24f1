ghost use Rattle.std.specs.List.Sorted.{IsSorted};
ghost use Rattle.std.specs.List.{list_all, list_any};
ghost use Rattle.std.specs.Prelude.{◌≡◌, IsTrue};
ghost use Rattle.dq_base.specs.Covering as cover;
ghost use Rattle.dq_base.specs.Filters.{from_low, lies_between, to_high};
ghost use Rattle.dq_base.specs.Orders.{value_cmp};
ghost use Rattle.dq_base.specs.Sets.{all_in, has};

use crate::members::is_member;
use dq_base::{Test, Value, Values, compare_values};

/// Whether the values ascend; the likes of one may follow it.
fn ascends(list: &[Value]) -> bool
    ensures { IsTrue result → IsSorted value_cmp list.now }
{
    list.is_sorted()
}

fn is_listed(list: &[Value], v: &Value) -> bool
    ensures { result ≡ has value_cmp list.now v.now }
{
    list.iter().any(|w| compare_values(v, w).is_eq())
}

/// Whether each value is in the other list, by halving where that ascends.
fn all_listed(a: &Values, b: &Values) -> bool
    ensures { result ≡ all_in value_cmp a.now b.now }
{
    let list = b.as_slice();
    if ascends(list) {
        a.as_slice().iter().all(|v| is_member(list, v))
    } else {
        a.as_slice().iter().all(|v| is_listed(list, v))
    }
}

/// Whether some value is in the other list, by halving where that ascends.
fn any_listed(a: &Values, b: &Values) -> bool
    ensures { result ≡ list_any (has value_cmp b.now) a.now }
{
    let list = b.as_slice();
    if ascends(list) {
        a.as_slice().iter().any(|v| is_member(list, v))
    } else {
        a.as_slice().iter().any(|v| is_listed(list, v))
    }
}

fn is_from(low: Option<i64>, n: i64) -> bool
    ensures { result ≡ from_low low n }
{
    match low {
        None => true,
        Some(low) => low <= n,
    }
}

fn is_to(high: Option<i64>, n: i64) -> bool
    ensures { result ≡ to_high high n }
{
    match high {
        None => true,
        Some(high) => n <= high,
    }
}

fn is_between(low: Option<i64>, high: Option<i64>, v: &Value) -> bool
    ensures { result ≡ lies_between low high v.now }
{
    match v {
        Value::Null => false,
        Value::Int(n) => is_from(low, *n) && is_to(high, *n),
        Value::Word(_) => false,
    }
}

fn all_between(low: Option<i64>, high: Option<i64>, list: &Values) -> bool
    ensures { result ≡ list_all (lies_between low high) list.now }
{
    list.as_slice().iter().all(|v| is_between(low, high, v))
}

fn any_between(low: Option<i64>, high: Option<i64>, list: &Values) -> bool
    ensures { result ≡ list_any (lies_between low high) list.now }
{
    list.as_slice().iter().any(|v| is_between(low, high, v))
}

fn low_is_within(low: Option<i64>, outer: Option<i64>) -> bool
    ensures { result ≡ cover.low_within low outer }
{
    match (low, outer) {
        (_, None) => true,
        (None, Some(_)) => false,
        (Some(low), Some(outer)) => outer <= low,
    }
}

fn high_is_within(high: Option<i64>, outer: Option<i64>) -> bool
    ensures { result ≡ cover.high_within high outer }
{
    match (high, outer) {
        (_, None) => true,
        (None, Some(_)) => false,
        (Some(high), Some(outer)) => high <= outer,
    }
}

/// Whether the first test holds of no value of which the second doesn't, by their shapes. It takes no memory. The cost: the
/// values of both tests, and each value of the one list halves the other; a list that doesn't ascend is read for each value.
pub fn within(a: &Test, b: &Test) -> bool
    ensures { result ≡ cover.within a.now b.now }
{
    match (a, b) {
        (Test::Among(x), Test::Among(y)) => all_listed(x, y),
        (Test::Among(x), Test::Except(y)) => !any_listed(x, y),
        (Test::Among(x), Test::Between(low, high)) => all_between(*low, *high, x),
        (Test::Except(_), Test::Among(_)) => false,
        (Test::Except(x), Test::Except(y)) => all_listed(y, x),
        (Test::Except(_), Test::Between(_, _)) => false,
        (Test::Between(_, _), Test::Among(_)) => false,
        (Test::Between(low, high), Test::Except(y)) => !any_between(*low, *high, y),
        (Test::Between(k, g), Test::Between(l, h)) => {
            low_is_within(*k, *l) && high_is_within(*g, *h)
        }
    }
}
