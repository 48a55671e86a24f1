ghost use Rattle.std.specs.Prelude.{◌≡◌, ◌↔◌, IsTrue};
ghost use Rattle.dq_base.specs.Covering as cover;
ghost use Rattle.dq_base.specs.Covering.{lists_eq, measure_eq, order_eq, predicate_eq};
ghost use Rattle.dq_base.specs.Dims.{dim_eq};

use dq_base::{Canon, Dim, Measure, OrderKey, Predicate, Query, compare_predicates};

pub fn same_measure(a: Measure, b: Measure) -> bool
    ensures { result ≡ measure_eq a b }
{
    match (a, b) {
        (Measure::Rows, Measure::Rows) => true,
        (Measure::Count(x), Measure::Count(y)) => x == y,
        (Measure::Sum(x), Measure::Sum(y)) => x == y,
        (Measure::Min(x), Measure::Min(y)) => x == y,
        (Measure::Max(x), Measure::Max(y)) => x == y,
        (Measure::Distinct(x), Measure::Distinct(y)) => x == y,
        (Measure::Avg(x), Measure::Avg(y)) => x == y,
        _ => false,
    }
}

pub fn same_dim(a: &Dim, b: &Dim) -> bool
    ensures { result ≡ dim_eq a.now b.now }
{
    a.column() == b.column() && a.width() == b.width()
}

fn same_predicate(a: &Predicate, b: &Predicate) -> bool
    ensures { result ≡ predicate_eq a.now b.now }
{
    compare_predicates(a, b).is_eq()
}

fn same_predicates(a: &[Predicate], b: &[Predicate]) -> bool
    ensures { result ≡ lists_eq predicate_eq a.now b.now }
{
    match (a.split_first(), b.split_first()) {
        (None, None) => true,
        (Some((x, xs)), Some((y, ys))) => same_predicate(x, y) && same_predicates(xs, ys),
        _ => false,
    }
}

fn same_dims_in_order(a: &[Dim], b: &[Dim]) -> bool
    ensures { result ≡ lists_eq dim_eq a.now b.now }
{
    match (a.split_first(), b.split_first()) {
        (None, None) => true,
        (Some((x, xs)), Some((y, ys))) => same_dim(x, y) && same_dims_in_order(xs, ys),
        _ => false,
    }
}

fn same_measures(a: &[Measure], b: &[Measure]) -> bool
    ensures { result ≡ lists_eq measure_eq a.now b.now }
{
    match (a.split_first(), b.split_first()) {
        (None, None) => true,
        (Some((x, xs)), Some((y, ys))) => same_measure(*x, *y) && same_measures(xs, ys),
        _ => false,
    }
}

fn same_order(a: &[OrderKey], b: &[OrderKey]) -> bool
    ensures { result ≡ lists_eq order_eq a.now b.now }
{
    match (a.split_first(), b.split_first()) {
        (None, None) => true,
        (Some((x, xs)), Some((y, ys))) => {
            x.place == y.place && x.down == y.down && same_order(xs, ys)
        }
        _ => false,
    }
}

fn same_top(a: Option<u32>, b: Option<u32>) -> bool
    ensures { result ≡ cover.top_eq a b }
{
    match (a, b) {
        (None, None) => true,
        (Some(x), Some(y)) => x == y,
        _ => false,
    }
}

pub fn same_query(p: &Query, q: &Query) -> bool
    ensures { result ≡ cover.query_eq p.now q.now }
{
    p.source == q.source
        && same_top(p.top, q.top)
        && same_measures(p.measures.as_slice(), q.measures.as_slice())
        && same_dims_in_order(p.dims.as_slice(), q.dims.as_slice())
        && same_order(p.order.as_slice(), q.order.as_slice())
        && same_predicates(p.filters.as_slice(), q.filters.as_slice())
}

/// Whether two queries are equal. It takes no memory. The cost is that of reading the shorter one once.
pub fn same(p: &Canon, q: &Canon) -> bool
    ensures { IsTrue result ↔ (p.now ≡ q.now) }
{
    same_query(p.query(), q.query())
}
