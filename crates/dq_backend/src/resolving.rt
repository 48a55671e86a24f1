ghost use Rattle.std.specs.Prelude.{◌≡◌, IfOk};
ghost use Rattle.dq_link.specs.Pairs.{lookup};
ghost use Rattle.dq_text.specs.Said as said;

use crate::held::TableList;
use crate::numbered::Numbered;
use dq_base::{Duplicate, List, Memory, Predicate, Predicates, Query, Test, Values};
use dq_text::{Listed, SaidPredicate, SaidTest, Statement};
use std::alloc::Global;

fn resolve_list(
    alloc: Global,
    tables: &Numbered<TableList>,
    listed: &Listed,
) -> Result<Option<Values>, Memory>
    ensures { IfOk result (λ list. list ≡ said.resolved_list (lookup tables.now) listed.now) }
{
    match listed {
        Listed::Spelled(values) => Ok(Some(values.duplicate(alloc)?)),
        Listed::Named(number) => match tables.find(*number) {
            None => Ok(None),
            Some(table) => Ok(Some(table.values().duplicate(alloc)?)),
        },
    }
}

fn resolve_test(
    alloc: Global,
    tables: &Numbered<TableList>,
    test: &SaidTest,
) -> Result<Option<Test>, Memory>
    ensures { IfOk result (λ test'. test' ≡ said.resolved_test (lookup tables.now) test.now) }
{
    match test {
        SaidTest::Among(listed) => Ok(resolve_list(alloc, tables, listed)?.map(Test::Among)),
        SaidTest::Except(listed) => Ok(resolve_list(alloc, tables, listed)?.map(Test::Except)),
        SaidTest::Between(low, high) => Ok(Some(Test::Between(*low, *high))),
    }
}

fn resolve_predicate(
    alloc: Global,
    tables: &Numbered<TableList>,
    predicate: &SaidPredicate,
) -> Result<Option<Predicate>, Memory>
    ensures { IfOk result (λ p. p ≡ said.resolved_predicate (lookup tables.now) predicate.now) }
{
    let column = predicate.column;
    match resolve_test(alloc, tables, &predicate.test)? {
        None => Ok(None),
        Some(test) => Ok(Some(Predicate { column, test })),
    }
}

fn resolve_filters(
    alloc: Global,
    tables: &Numbered<TableList>,
    filters: &[SaidPredicate],
) -> Result<Option<Predicates>, Memory>
    ensures { IfOk result (λ ps. ps ≡ said.resolved_filters (lookup tables.now) filters.now) }
{
    let mut resolved = List::new(alloc);
    for filter in filters {
        let Some(predicate) = resolve_predicate(alloc, tables, filter)? else {
            return Ok(None);
        };
        resolved.push(predicate)?;
    }
    Ok(Some(resolved))
}

/// The query that a statement means over these tables, or none where a table that it names doesn't stand.
pub(crate) fn resolve(
    alloc: Global,
    tables: &Numbered<TableList>,
    statement: &Statement,
) -> Result<Option<Query>, Memory>
    ensures { IfOk result (λ q. q ≡ said.resolved (lookup tables.now) statement.now) }
{
    match resolve_filters(alloc, tables, statement.filters.as_slice())? {
        None => Ok(None),
        Some(filters) => Ok(Some(Query {
            source: statement.source,
            filters,
            dims: statement.dims.duplicate(alloc)?,
            measures: statement.measures.duplicate(alloc)?,
            order: statement.order.duplicate(alloc)?,
            top: statement.top,
        })),
    }
}
