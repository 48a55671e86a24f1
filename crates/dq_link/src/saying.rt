ghost use Rattle.std.specs.List.{find};
ghost use Rattle.std.specs.Prelude.{◌≡◌, IfOk, map, option_map};
ghost use Rattle.dq_link.specs.Mirrors.{alike};
ghost use Rattle.dq_text.specs.Said.{said, said_list, said_predicate, said_test, table_of};
ghost use Rattle.dq_text.specs.Sizes.{IsSized};

use crate::link::Link;
use crate::mirrored::Mirrored;
use crate::needs::SPELLED;
use dq_base::{Duplicate, List, Memory, Predicate, Query, Test, Values};
use dq_text::{Listed, SaidPredicate, SaidPredicates, SaidTest, Statement, is_sized};
use std::alloc::Global;

impl<L: Link> Mirrored<L> {
    fn table_of(&self, list: &Values) -> u64
        ensures { result ≡ table_of self.now.mirror.tables list.now }
    {
        match self.find_table(list) {
            None => 0,
            Some(number) => number,
        }
    }

    fn said_list(&self, alloc: Global, list: &Values) -> Result<Listed, Memory>
        ensures { IfOk result (λ said. said ≡ said_list self.now.mirror.tables list.now) }
    {
        if list.len() <= SPELLED {
            return Ok(Listed::Spelled(list.duplicate(alloc)?));
        }
        Ok(Listed::Named(self.table_of(list)))
    }

    fn said_test(&self, alloc: Global, test: &Test) -> Result<SaidTest, Memory>
        ensures { IfOk result (λ said. said ≡ said_test self.now.mirror.tables test.now) }
    {
        match test {
            Test::Among(list) => Ok(SaidTest::Among(self.said_list(alloc, list)?)),
            Test::Except(list) => Ok(SaidTest::Except(self.said_list(alloc, list)?)),
            Test::Between(low, high) => Ok(SaidTest::Between(*low, *high)),
        }
    }

    fn said_predicate(&self, alloc: Global, predicate: &Predicate) -> Result<SaidPredicate, Memory>
        ensures { IfOk result (λ said. said ≡ said_predicate self.now.mirror.tables predicate.now) }
    {
        let test = self.said_test(alloc, &predicate.test)?;
        Ok(SaidPredicate {
            column: predicate.column,
            test,
        })
    }

    fn said_filters(&self, alloc: Global, filters: &[Predicate]) -> Result<SaidPredicates, Memory>
        ensures { IfOk result (λ said. said ≡ map (said_predicate self.now.mirror.tables) filters.now) }
    {
        let mut said = List::new(alloc);
        for predicate in filters {
            said.push(self.said_predicate(alloc, predicate)?)?;
        }
        Ok(said)
    }

    /// The statement for a query of the version with that stamp: long lists are named by their tables.
    pub(crate) fn say(&self, alloc: Global, stamp: u64, query: &Query) -> Result<Statement, Memory>
        ensures said { IfOk result (λ s. s ≡ said self.now.mirror.tables stamp query.now) }
        ensures sized { IfOk result IsSized }
    {
        let statement = Statement {
            source: query.source,
            stamp,
            filters: self.said_filters(alloc, query.filters.as_slice())?,
            dims: query.dims.duplicate(alloc)?,
            measures: query.measures.duplicate(alloc)?,
            order: query.order.duplicate(alloc)?,
            top: query.top,
        };
        is_sized(&statement);
        Ok(statement)
    }
}
