ghost use Rattle.std.specs.List.{AllByRecursion};
ghost use Rattle.dq_base.specs.Sizes.{Fits, IsByte};
ghost use Rattle.dq_text.specs.Sizes.{IsNumber, IsWhole, IsSized, IsSizedBound, IsSizedDim, IsSizedKey, IsSizedList, IsSizedMeasure, IsSizedPredicate, IsSizedQuery, IsSizedTest, IsSizedTop, IsSizedValue};
ghost use Rattle.dq_text.specs.Statements.{plain_predicate, plain_test};

use crate::statement::{Listed, SaidPredicate, SaidTest, Statement};
use dq_base::{Canon, Dim, Measure, OrderKey, Predicate, Test, Value};

fn fit_whole(number: i64)
    ensures { IsWhole number }
{
    let _read = number;
}

fn fit_bytes(bytes: &[u8])
    ensures { AllByRecursion IsByte bytes.now }
{
    for byte in bytes {
        let _read = *byte;
    }
}

fn fit_value(value: &Value)
    ensures { IsSizedValue value.now }
{
    match value {
        Value::Null => {}
        Value::Int(number) => fit_whole(*number),
        Value::Word(text) => fit_bytes(text.as_slice()),
    }
}

fn fit_values(values: &[Value])
    ensures { AllByRecursion IsSizedValue values.now }
{
    for value in values {
        fit_value(value);
    }
}

fn fit_list(list: &Listed)
    ensures { IsSizedList list.now }
{
    match list {
        Listed::Spelled(values) => fit_values(values.as_slice()),
        Listed::Named(table) => {
            let _read = *table;
        }
    }
}

fn fit_bound(bound: Option<i64>)
    ensures { IsSizedBound bound }
{
    match bound {
        None => {}
        Some(number) => fit_whole(number),
    }
}

fn fit_said_test(test: &SaidTest)
    ensures { IsSizedTest test.now }
{
    match test {
        SaidTest::Among(list) => fit_list(list),
        SaidTest::Except(list) => fit_list(list),
        SaidTest::Between(low, high) => {
            fit_bound(*low);
            fit_bound(*high);
        }
    }
}

fn fit_test(test: &Test)
    ensures { IsSizedTest (plain_test test.now) }
{
    match test {
        Test::Among(list) => fit_values(list.as_slice()),
        Test::Except(list) => fit_values(list.as_slice()),
        Test::Between(low, high) => {
            fit_bound(*low);
            fit_bound(*high);
        }
    }
}

fn fit_said_predicate(predicate: &SaidPredicate)
    ensures { IsSizedPredicate predicate.now }
{
    let _read = predicate.column;
    fit_said_test(&predicate.test);
}

fn fit_predicate(predicate: &Predicate)
    ensures { IsSizedPredicate (plain_predicate predicate.now) }
{
    let _read = predicate.column;
    fit_test(&predicate.test);
}

fn fit_said_filters(filters: &[SaidPredicate])
    ensures { AllByRecursion IsSizedPredicate filters.now }
{
    for predicate in filters {
        fit_said_predicate(predicate);
    }
}

fn fit_filters(filters: &[Predicate])
    ensures { AllByRecursion (λ p. IsSizedPredicate (plain_predicate p)) filters.now }
{
    for predicate in filters {
        fit_predicate(predicate);
    }
}

fn fit_dim(dim: &Dim)
    ensures { IsSizedDim dim.now }
{
    let _read = (dim.column(), dim.width());
}

fn fit_dims(dims: &[Dim])
    ensures { AllByRecursion IsSizedDim dims.now }
{
    for dim in dims {
        fit_dim(dim);
    }
}

fn fit_measure(measure: Measure)
    ensures { IsSizedMeasure measure }
{
    match measure {
        Measure::Rows => {}
        Measure::Count(_column) => {}
        Measure::Sum(_column) => {}
        Measure::Min(_column) => {}
        Measure::Max(_column) => {}
        Measure::Distinct(_column) => {}
        Measure::Avg(_column) => {}
    }
}

fn fit_measures(measures: &[Measure])
    ensures { AllByRecursion IsSizedMeasure measures.now }
{
    for measure in measures {
        fit_measure(*measure);
    }
}

fn fit_key(key: OrderKey)
    ensures { IsSizedKey key }
{
    let _read = key.place;
}

fn fit_keys(keys: &[OrderKey])
    ensures { AllByRecursion IsSizedKey keys.now }
{
    for key in keys {
        fit_key(*key);
    }
}

fn fit_top(top: Option<u32>)
    ensures { IsSizedTop top }
{
    match top {
        None => {}
        Some(_rows) => {}
    }
}

fn fit_head(source: u32, stamp: u64)
    ensures source { IsNumber source }
    ensures stamp { Fits stamp }
{
    let _read = (source, stamp);
}

/// Any statement is sized, as its types keep it: the condition of `spelling_tells_all`. It takes the time of reading it once and
/// changes nothing. No program needs to call it: the clause is the fact.
pub fn is_sized(statement: &Statement)
    ensures { IsSized statement.now }
{
    fit_head(statement.source, statement.stamp);
    fit_said_filters(statement.filters.as_slice());
    fit_dims(statement.dims.as_slice());
    fit_measures(statement.measures.as_slice());
    fit_keys(statement.order.as_slice());
    fit_top(statement.top);
}

/// Any key is sized, as its types keep it: the condition of `body_tells_all`. It takes the time of reading it once and changes
/// nothing. No program needs to call it: the clause is the fact.
pub fn is_sized_key(key: &Canon)
    ensures { IsSizedQuery key.now }
{
    let query = key.query();
    let _read = query.source;
    fit_filters(query.filters.as_slice());
    fit_dims(query.dims.as_slice());
    fit_measures(query.measures.as_slice());
    fit_keys(query.order.as_slice());
    fit_top(query.top);
}
