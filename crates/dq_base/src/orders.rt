ghost use Rattle.std.specs.Prelude.{◌≡◌};
ghost use Rattle.dq_base.specs.Canonical.{predicate_cmp, test_cmp};
ghost use Rattle.dq_base.specs.Orders.{cell_cmp, key_cmp, value_cmp};

use crate::cell::Cell;
use crate::list::List;
use crate::predicate::{Predicate, Test};
use crate::value::Value;
use std::cmp::Ordering;

/// The order of values: null, then whole numbers, then texts by their bytes.
pub fn compare_values(a: &Value, b: &Value) -> Ordering
    ensures { result ≡ value_cmp a.now b.now }
{
    match a {
        Value::Null => match b {
            Value::Null => Ordering::Equal,
            Value::Int(_) => Ordering::Less,
            Value::Word(_) => Ordering::Less,
        },
        Value::Int(x) => match b {
            Value::Null => Ordering::Greater,
            Value::Int(y) => x.cmp(y),
            Value::Word(_) => Ordering::Less,
        },
        Value::Word(x) => match b {
            Value::Null => Ordering::Greater,
            Value::Int(_) => Ordering::Greater,
            Value::Word(y) => x.bytes().cmp(y.bytes()),
        },
    }
}

/// The order of cells: null, then whole numbers, then texts, then ratios.
pub fn compare_cells(a: &Cell, b: &Cell) -> Ordering
    ensures { result ≡ cell_cmp a.now b.now }
{
    match (a, b) {
        (Cell::Null, Cell::Null) => Ordering::Equal,
        (Cell::Null, _) => Ordering::Less,
        (_, Cell::Null) => Ordering::Greater,
        (Cell::Whole(x), Cell::Whole(y)) => x.cmp(y),
        (Cell::Whole(_), _) => Ordering::Less,
        (_, Cell::Whole(_)) => Ordering::Greater,
        (Cell::Word(x), Cell::Word(y)) => x.bytes().cmp(y.bytes()),
        (Cell::Word(_), _) => Ordering::Less,
        (_, Cell::Word(_)) => Ordering::Greater,
        (Cell::Ratio(x), Cell::Ratio(y)) => x.compare(y),
    }
}

/// Keys item by item.
pub fn compare_keys(a: &List<Value>, b: &List<Value>) -> Ordering
    ensures { result ≡ key_cmp a.now b.now }
{
    a.cmp(b)
}

/// The order of tests: by kind, and then by contents, a missing bound first.
fn compare_tests(a: &Test, b: &Test) -> Ordering
    ensures { result ≡ test_cmp a.now b.now }
{
    match (a, b) {
        (Test::Among(x), Test::Among(y)) => compare_keys(x, y),
        (Test::Among(_), _) => Ordering::Less,
        (_, Test::Among(_)) => Ordering::Greater,
        (Test::Except(x), Test::Except(y)) => compare_keys(x, y),
        (Test::Except(_), _) => Ordering::Less,
        (_, Test::Except(_)) => Ordering::Greater,
        (Test::Between(k, g), Test::Between(l, h)) => k.cmp(l).then(g.cmp(h)),
    }
}

/// The order of predicates: by column, and then by test.
pub fn compare_predicates(a: &Predicate, b: &Predicate) -> Ordering
    ensures { result ≡ predicate_cmp a.now b.now }
{
    a.column
        .cmp(&b.column)
        .then(compare_tests(&a.test, &b.test))
}
