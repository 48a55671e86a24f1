ghost use Rattle.std.specs.Prelude.{◌≡◌, ◌++◌, IfOk, OnOk};
ghost use Rattle.dq_base.specs.Filters as meaning;
ghost use Rattle.dq_base.specs.Filters.{from_low, holds, lies_between, to_high, value_at};
ghost use Rattle.dq_base.specs.Orders.{value_cmp};
ghost use Rattle.dq_base.specs.Sessions as session;
ghost use Rattle.dq_base.specs.Sets.{has};

use dq_base::{
    Duplicate, List, Memory, Predicate, Predicates, Test, Value, Values, compare_values,
};
use dq_extract::Extract;
use std::alloc::Global;

/// Rows in order.
pub type Rows = List<Values>;

/// Whether a list has the like of a value.
fn has_like(list: &[Value], v: &Value) -> bool
    ensures { result ≡ has value_cmp list.now v.now }
{
    list.iter().any(|w| compare_values(v, w).is_eq())
}

/// Whether a number isn't below the low bound, if there is one.
fn is_from(low: Option<i64>, n: i64) -> bool
    ensures { result ≡ from_low low n }
{
    match low {
        None => true,
        Some(low) => low <= n,
    }
}

/// Whether a number isn't above the high bound, if there is one.
fn is_to(high: Option<i64>, n: i64) -> bool
    ensures { result ≡ to_high high n }
{
    match high {
        None => true,
        Some(high) => n <= high,
    }
}

/// Whether a value is a whole number within the bounds.
fn is_between(low: Option<i64>, high: Option<i64>, v: &Value) -> bool
    ensures { result ≡ lies_between low high v.now }
{
    match v {
        Value::Null => false,
        Value::Int(n) => is_from(low, *n) && is_to(high, *n),
        Value::Word(_) => false,
    }
}

/// Whether a test holds of a value.
fn test_holds(test: &Test, v: &Value) -> bool
    ensures { result ≡ holds test.now v.now }
{
    match test {
        Test::Among(list) => has_like(list.as_slice(), v),
        Test::Except(list) => !has_like(list.as_slice(), v),
        Test::Between(low, high) => is_between(*low, *high, v),
    }
}

/// Whether a predicate holds of a row, which reads as null in a column that it lacks.
fn predicate_holds(p: &Predicate, row: &[Value]) -> bool
    ensures { result ≡ holds p.now.test (value_at row.now p.now.column) }
{
    match row.get(p.column as usize) {
        Some(v) => test_holds(&p.test, v),
        None => test_holds(&p.test, &Value::Null),
    }
}

/// Whether each predicate holds of a row.
fn passes(filters: &[Predicate], row: &[Value]) -> bool
    ensures { result ≡ meaning.passes filters.now row.now }
{
    filters.iter().all(|p| predicate_holds(p, row))
}

/// Copies those rows that every predicate keeps to the end of a list.
fn copy_visible(
    alloc: Global,
    filters: &Predicates,
    rows: &[Values],
    copies: &mut Rows,
) -> Result<(), Memory>
    ensures { OnOk result (copies.new ≡ copies.old ++ session.visible filters.now rows.now) }
{
    for row in rows {
        if passes(filters.as_slice(), row.as_slice()) {
            copies.push(row.duplicate(alloc)?)?;
        }
    }
    Ok(())
}

/// Copies of the rows of an extract that every predicate keeps, in order. A column that a row lacks reads as null.
///
/// It costs the rows times the predicates and the values that these list, and the copies.
pub fn visible(alloc: Global, extract: &Extract, filters: &Predicates) -> Result<Rows, Memory>
    ensures { IfOk result (λ rows. rows ≡ session.visible filters.now extract.now.rows) }
{
    let segments = extract.segments();
    let mut rows = List::new(alloc);
    for place in 0..segments.len() {
        let Some(segment) = segments.get(place) else {
            unreachable!();
        };
        copy_visible(alloc, filters, segment.rows(), &mut rows)?;
    }
    Ok(rows)
}
