ghost use Rattle.std.specs.List.{list_all, list_any};
ghost use Rattle.std.specs.Prelude.{◌≡◌, ◌+◌, ◌<◌, ◌==◌, ◌||◌, ◌^◌, nat_eq, nat_le, nat_lt, length, IfErr, IsOk, MatchResult, None, Some, false};
ghost use Rattle.dq_base.specs.Dims.{dim_eq};
ghost use Rattle.dq_base.specs.Validity as valid;
ghost use Rattle.dq_base.specs.Validity.{measured};
ghost use Rattle.std.specs.Result.{result_err};

use dq_base::{
    Dim, Invalid, Measure, OrderKey, Predicate, Query, Schemas, Sort, Sorts, Test, Value, Values,
};

fn any_filter_out(count: u64, filters: &[Predicate]) -> bool
    ensures { result ≡ list_any (λ p. nat_le count p.column) filters.now }
{
    filters.iter().any(|p| count <= u64::from(p.column))
}

fn any_dim_out(count: u64, dims: &[Dim]) -> bool
    ensures { result ≡ list_any (λ d. nat_le count d.column) dims.now }
{
    dims.iter().any(|d| count <= u64::from(d.column()))
}

fn measure_out(count: u64, m: Measure) -> bool
    ensures { result ≡ list_any (nat_le count) (measured m) }
{
    match m {
        Measure::Rows => false,
        Measure::Count(c) => count <= u64::from(c),
        Measure::Sum(c) => count <= u64::from(c),
        Measure::Min(c) => count <= u64::from(c),
        Measure::Max(c) => count <= u64::from(c),
        Measure::Distinct(c) => count <= u64::from(c),
        Measure::Avg(c) => count <= u64::from(c),
    }
}

fn any_measure_out(count: u64, measures: &[Measure]) -> bool
    ensures { result ≡ list_any (λ m. list_any (nat_le count) (measured m)) measures.now }
{
    measures.iter().any(|m| measure_out(count, *m))
}

fn column_missing(count: u64, q: &Query) -> bool
    ensures { result ≡ valid.column_missing count q.now }
{
    any_filter_out(count, q.filters.as_slice())
        || any_dim_out(count, q.dims.as_slice())
        || any_measure_out(count, q.measures.as_slice())
}

fn is_same(a: &Dim, b: &Dim) -> bool
    ensures { result ≡ dim_eq a.now b.now }
{
    a.column() == b.column() && a.width() == b.width()
}

fn contains(dims: &[Dim], dim: &Dim) -> bool
    ensures { result ≡ list_any (dim_eq dim.now) dims.now }
{
    dims.iter().any(|d| is_same(dim, d))
}

// Each dimension is compared with those behind it.
fn repeats(dims: &[Dim]) -> bool
    ensures { result ≡ valid.repeats dims.now }
{
    let mut rest = dims;
    while let Some((first, others)) = rest.split_first() {
        if contains(others, first) {
            return true;
        }
        rest = others;
    }
    false
}

fn is_whole(sorts: &Sorts, column: u32) -> bool
    ensures { result ≡ valid.is_whole sorts.now column }
{
    match sorts.get(u64::from(column)) {
        Some(Sort::Whole) => true,
        Some(Sort::Word) => false,
        None => false,
    }
}

fn fits(whole: bool, v: &Value) -> bool
    ensures { result ≡ valid.fits_sort whole v.now }
{
    match v {
        Value::Null => true,
        Value::Int(_) => whole,
        Value::Word(_) => !whole,
    }
}

fn all_fit(whole: bool, list: &Values) -> bool
    ensures { result ≡ list_all (valid.fits_sort whole) list.now }
{
    list.as_slice().iter().all(|v| fits(whole, v))
}

fn test_fits(whole: bool, test: &Test) -> bool
    ensures { result ≡ valid.test_fits whole test.now }
{
    match test {
        Test::Among(list) => all_fit(whole, list),
        Test::Except(list) => all_fit(whole, list),
        Test::Between(_, _) => whole,
    }
}

fn measure_fits(sorts: &Sorts, m: Measure) -> bool
    ensures { result ≡ valid.measure_fits sorts.now m }
{
    match m {
        Measure::Sum(c) => is_whole(sorts, c),
        Measure::Avg(c) => is_whole(sorts, c),
        _ => true,
    }
}

fn filters_fit(sorts: &Sorts, filters: &[Predicate]) -> bool
    ensures { result ≡ list_all (λ p. valid.test_fits (valid.is_whole sorts.now p.column) p.test) filters.now }
{
    filters
        .iter()
        .all(|p| test_fits(is_whole(sorts, p.column), &p.test))
}

fn dim_fits(sorts: &Sorts, d: &Dim) -> bool
    ensures { result ≡ valid.dim_fits sorts.now d.now }
{
    d.width() == 1 || is_whole(sorts, d.column())
}

fn dims_fit(sorts: &Sorts, dims: &[Dim]) -> bool
    ensures { result ≡ list_all (valid.dim_fits sorts.now) dims.now }
{
    dims.iter().all(|d| dim_fits(sorts, d))
}

fn measures_fit(sorts: &Sorts, measures: &[Measure]) -> bool
    ensures { result ≡ list_all (valid.measure_fits sorts.now) measures.now }
{
    measures.iter().all(|m| measure_fits(sorts, *m))
}

fn sorts_fit(sorts: &Sorts, q: &Query) -> bool
    ensures { result ≡ valid.sorts_fit sorts.now q.now }
{
    filters_fit(sorts, q.filters.as_slice())
        && dims_fit(sorts, q.dims.as_slice())
        && measures_fit(sorts, q.measures.as_slice())
}

fn places_missing(shown: u64, order: &[OrderKey]) -> bool
    ensures { result ≡ list_any (λ k. (k.place == 0) || nat_lt shown k.place) order.now }
{
    order
        .iter()
        .any(|k| k.place == 0 || shown < u64::from(k.place))
}

fn list_too_long(test: &Test) -> bool
    ensures { result ≡ valid.list_too_long test.now }
{
    match test {
        Test::Among(list) => list.len() > 100_000,
        Test::Except(list) => list.len() > 100_000,
        Test::Between(_, _) => false,
    }
}

fn any_list_too_long(filters: &[Predicate]) -> bool
    ensures { result ≡ list_any (λ p. valid.list_too_long p.test) filters.now }
{
    filters.iter().any(|p| list_too_long(&p.test))
}

fn too_long(q: &Query) -> bool
    ensures { result ≡ valid.too_long q.now }
{
    q.filters.len() > 16
        || q.dims.len() > 64
        || q.measures.len() > 512
        || q.order.len() > 64
        || any_list_too_long(q.filters.as_slice())
}

fn first_reason(sorts: &Sorts, q: &Query) -> Result<(), Invalid>
    ensures { result_err result ≡ valid.first_reason sorts.now q.now }
{
    let shown = q.dims.as_slice().len() as u64 + q.measures.as_slice().len() as u64;
    let count = sorts.len();
    if column_missing(count, q) {
        Err(Invalid::Column)
    } else if repeats(q.dims.as_slice()) {
        Err(Invalid::RepeatedDim)
    } else if !sorts_fit(sorts, q) {
        Err(Invalid::WrongSort)
    } else if shown == 0 {
        Err(Invalid::NothingShown)
    } else if places_missing(shown, q.order.as_slice()) {
        Err(Invalid::OrderKey)
    } else if too_long(q) {
        Err(Invalid::TooLong)
    } else {
        Ok(())
    }
}

/// Whether a query is valid against the schemas of the extracts; else the first reason why it isn't.
///
/// The reasons are looked for in the order of `Invalid`. It takes no memory, and the time of reading the query once and of
/// comparing its dimensions with one another in pairs: half the square of their number, since more dimensions than an answer
/// may have are looked at for repeats before they are too many.
pub fn check(schemas: &Schemas, q: &Query) -> Result<(), Invalid>
    ensures { result_err result ≡ valid.invalid_by schemas.now q.now }
{
    match schemas.get(u64::from(q.source)) {
        None => Err(Invalid::Source),
        Some(schema) => first_reason(schema.sorts(), q),
    }
}
