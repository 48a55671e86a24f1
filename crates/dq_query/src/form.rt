ghost use Rattle.std.specs.Prelude.{◌≡◌, IfOk, List as ListOf, map};
ghost use Rattle.dq_base.specs.Canonical as specified;
ghost use Rattle.dq_base.specs.Canonical.{predicate_cmp};
ghost use Rattle.dq_base.specs.Answers.{answer};
ghost use Rattle.dq_base.specs.declared.query.Query.{Query as QueryOf};
ghost use Rattle.dq_base.specs.declared.value.Value.{Value as ValueOf};
ghost use Rattle.dq_base.specs.Sets.{set_of};

use crate::ordered::{insert_into, list_of, value_set};
use dq_base::{Canon, Duplicate, List, Memory, Predicate, Predicates, Query, Test};
use std::alloc::Global;
use std::collections::BTreeSet;

fn canonical_bounds(alloc: Global, low: Option<i64>, high: Option<i64>) -> Test
    ensures { result ≡ specified.canonical_bounds low high }
{
    match (low, high) {
        (Some(l), Some(h)) => {
            if h < l {
                Test::Among(List::new(alloc))
            } else {
                Test::Between(low, high)
            }
        }
        _ => Test::Between(low, high),
    }
}

fn canonical_test(alloc: Global, test: &Test) -> Result<Test, Memory>
    ensures { IfOk result (λ t. t ≡ specified.canonical_test test.now) }
{
    match test {
        Test::Among(list) => Ok(Test::Among(value_set(alloc, list)?)),
        Test::Except(list) => Ok(Test::Except(value_set(alloc, list)?)),
        Test::Between(low, high) => Ok(canonical_bounds(alloc, *low, *high)),
    }
}

fn canonical_predicate(alloc: Global, predicate: &Predicate) -> Result<Predicate, Memory>
    ensures { IfOk result (λ p. p ≡ specified.canonical_predicate predicate.now) }
{
    Ok(Predicate {
        column: predicate.column,
        test: canonical_test(alloc, &predicate.test)?,
    })
}

fn canonical_filters(alloc: Global, filters: &Predicates) -> Result<Predicates, Memory>
    ensures { IfOk result (λ fs. fs ≡ set_of predicate_cmp (map specified.canonical_predicate filters.now)) }
{
    let mut set = BTreeSet::new(alloc);
    for p in filters.as_slice() {
        insert_into(&mut set, canonical_predicate(alloc, p)?)?;
    }
    list_of(alloc, set)
}

/// The canonical form of a query, in the time of sorting its predicates and the values that they list.
pub fn canonical(alloc: Global, q: &Query) -> Result<Canon, Memory>
    ensures { IfOk result (λ c. c ≡ specified.canonical q.now) }
{
    let query = Query {
        source: q.source,
        filters: canonical_filters(alloc, &q.filters)?,
        dims: q.dims.duplicate(alloc)?,
        measures: q.measures.duplicate(alloc)?,
        order: q.order.duplicate(alloc)?,
        top: q.top,
    };
    Ok(Canon::new(query))
}

/// A query and its canonical form have one answer, over any rows. The body is empty: the clause is the fact.
pub fn canonical_has_same_answer()
    ensures { (q : QueryOf) (rows : ListOf (ListOf ValueOf)) → answer (specified.canonical q) rows ≡ answer q rows }
{}
