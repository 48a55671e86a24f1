ghost use Rattle.std.specs.List.{All, list_any};
ghost use Rattle.std.specs.Prelude.{◌≡◌, ◌&&◌, IfOk, MatchOption, false, nat_eq, slice_get};
ghost use Rattle.dq_base.specs.Canonical.{canonical_test};
ghost use Rattle.dq_base.specs.Dims.{is_plain};
ghost use Rattle.dq_base.specs.Filters.{from_low, holds, lies_between, to_high};
ghost use Rattle.dq_base.specs.Orders.{value_cmp};
ghost use Rattle.dq_base.specs.Sets.{has, set_of};
ghost use Rattle.dq_rollup.specs.Keys as keys;
ghost use Rattle.dq_rollup.specs.Keys.{IsPlace, IsPlaced, spot_in};
ghost use Rattle.dq_rollup.specs.Pairs.{Paired};

use crate::reading::value_at;
use dq_base::{Cells, Dim, List, Memory, Predicate, Test, Value, Values};
use std::alloc::Global;

/// Places of dimensions, from 0, or none.
pub type Spots = List<Option<u64>>;

/// The place of a plain dimension on a column, if there is one.
pub fn plain_place(dims: &[Dim], column: u32) -> Option<u64>
    ensures { IsPlace dims.now column result }
{
    for (place, d) in dims.iter().enumerate() {
        if column == d.column() && d.width() == 1 {
            return Some(place as u64);
        }
    }
    None
}

/// For each predicate the place of the dimension whose values it tests, if there is one.
pub fn places_of(alloc: Global, dims: &[Dim], filters: &[Predicate]) -> Result<Spots, Memory>
    ensures { IfOk result (λ places. Paired (IsPlaced dims.now) filters.now places) }
{
    let mut places = List::with_capacity(alloc, filters.len() as u64)?;
    for f in filters {
        places.push(plain_place(dims, f.column))?;
    }
    Ok(places)
}

/// Whether an ascending list has the like of a value. It costs the logarithm of the list.
fn has_like(list: &Values, v: &Value) -> bool
    requires { set_of value_cmp list.now ≡ list.now }
    ensures { result ≡ has value_cmp list.now v.now }
{
    list.as_slice().binary_search(v).is_ok()
}

fn is_from(low: Option<i64>, n: i64) -> bool
    ensures { result ≡ from_low low n }
{
    match low {
        None => true,
        Some(low) => low <= n,
    }
}

fn is_to(high: Option<i64>, n: i64) -> bool
    ensures { result ≡ to_high high n }
{
    match high {
        None => true,
        Some(high) => n <= high,
    }
}

fn is_between(low: Option<i64>, high: Option<i64>, v: &Value) -> bool
    ensures { result ≡ lies_between low high v.now }
{
    match v {
        Value::Null => false,
        Value::Int(n) => is_from(low, *n) && is_to(high, *n),
        Value::Word(_) => false,
    }
}

/// Whether a test holds of a value.
fn test_holds(test: &Test, v: &Value) -> bool
    requires { canonical_test test.now ≡ test.now }
    ensures { result ≡ holds test.now v.now }
{
    match test {
        Test::Among(list) => has_like(list, v),
        Test::Except(list) => !has_like(list, v),
        Test::Between(low, high) => is_between(*low, *high, v),
    }
}

/// Whether a predicate's test holds of a held row's value at a place; true without a place.
fn passes_one(alloc: Global, f: &Predicate, spot: Option<u64>, row: &Cells) -> Result<bool, Memory>
    requires { canonical_test f.now.test ≡ f.now.test }
    ensures { IfOk result (λ passed. passed ≡ keys.passes_one f.now spot row.now) }
{
    match spot {
        None => Ok(true),
        Some(place) => {
            let v = value_at(alloc, row, place)?;
            Ok(test_holds(&f.test, &v))
        }
    }
}

/// A place in a list of places.
fn spot_at(places: &[Option<u64>], i: usize) -> Option<u64>
    ensures { result ≡ spot_in (slice_get places.now i) }
{
    match places.get(i) {
        None => None,
        Some(spot) => *spot,
    }
}

/// Whether each test holds of a held row's value at its place. It costs the logarithms of the lists, and a copy of each
/// value.
pub fn passes(
    alloc: Global,
    filters: &[Predicate],
    places: &[Option<u64>],
    row: &Cells,
) -> Result<bool, Memory>
    requires { All (λ f. canonical_test f.test ≡ f.test) filters.now }
    ensures { IfOk result (λ passed. passed ≡ keys.passes filters.now places.now row.now) }
{
    for (i, f) in filters.iter().enumerate() {
        if !passes_one(alloc, f, spot_at(places, i), row)? {
            return Ok(false);
        }
    }
    Ok(true)
}
