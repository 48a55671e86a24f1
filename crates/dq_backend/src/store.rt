ghost use Rattle.std.specs.Arc.{arc_value};
ghost use Rattle.std.specs.Prelude.{◌≡◌, ◌+◌, ◌<◌, ◌^◌, IfOk, OnErr, OnOk};
ghost use Rattle.dq_base.specs.Answers.{answer};
ghost use Rattle.dq_text.specs.Sizes.{IsSized};
ghost use Rattle.dq_text.specs.Statements.{spelling};
ghost use Rattle.dq_text.specs.declared.statement.Statement.{Statement as StatementOf};
ghost use Rattle.dq_link.specs.Meanings.{HasMeaning, Means};
ghost use Rattle.dq_link.specs.Pairs.{lookup, with_pair, without};
ghost use Rattle.dq_backend.specs.Standing.{nothing_standing};

use crate::held::{MountedVersion, TableList};
use crate::numbered::Numbered;
use crate::resolving::resolve;
use dq_base::{Memory, Query, Table, Values};
use dq_eval::evaluate;
use dq_extract::Extract;
use dq_query::{canonical, canonical_has_same_answer};
use dq_text::{Statement, TextFault, parse, spelling_tells_all};
use std::alloc::Global;
use std::marker::Model;
use std::sync::Arc;

/// What stands on a link, and how often the link was called.
#[derive(Drop)]
pub(crate) struct Store {
    mounts: Numbered<MountedVersion>,
    tables: Numbered<TableList>,
    runs: u64,
    calls: u64,
}

impl Model for Store {
    ghost use Rattle.dq_backend.specs.Standing.{Standing};

    ghost Value = { Standing };

    ghost view = { λ s. record { mounts = s.mounts; tables = s.tables; runs = s.runs; calls = s.calls } };
}

/// The statement that has this text.
fn read_statement(alloc: Global, text: &[u8]) -> Result<Statement, Memory>
    requires { (s : StatementOf) × IsSized s × (spelling s ≡ text.now) }
    ensures { IfOk result (λ s. (t : StatementOf) → IsSized t → spelling t ≡ text.now → t ≡ s) }
{
    spelling_tells_all();
    match parse(alloc, text) {
        Ok(statement) => Ok(statement),
        Err(TextFault::Memory) => Err(Memory),
        Err(TextFault::NotInGrammar) => unreachable!(),
    }
}

/// The answer of a query over an extract's rows.
fn answer_over(alloc: Global, extract: &Extract, query: &Query) -> Result<Table, Memory>
    ensures { IfOk result (λ table. table ≡ answer query.now extract.now.rows) }
{
    canonical_has_same_answer();
    let key = canonical(alloc, query)?;
    evaluate(alloc, extract, &key)
}

impl Store {
    /// Nothing stands, and no call was made. It takes no memory.
    pub(crate) fn new(alloc: Global) -> Store
        ensures { result ≡ nothing_standing }
    {
        Store {
            mounts: Numbered::new(alloc),
            tables: Numbered::new(alloc),
            runs: 0,
            calls: 0,
        }
    }

    /// How often the link was called.
    pub(crate) fn calls(&self) -> u64
        ensures { result ≡ self.now.calls }
    {
        self.calls
    }

    /// Counts a call.
    pub(crate) fn count_call(&mut self)
        requires { self.old.calls < 2 ^ 40 }
        ensures { self.new ≡ record self.old { calls = self.old.calls + 1 } }
    {
        self.calls += 1;
    }

    /// Counts a call of `run` among those of `run` alone.
    pub(crate) fn count_run(&mut self)
        requires { self.old.runs < 2 ^ 40 }
        ensures { self.new ≡ record self.old { runs = self.old.runs + 1 } }
    {
        self.runs += 1;
    }

    /// Mounts a version. An `Err` changes nothing.
    pub(crate) fn mount(
        &mut self,
        source: u32,
        stamp: u64,
        extract: Arc<Extract>,
    ) -> Result<(), Memory>
        ensures ok { OnOk result (self.new ≡ record self.old { mounts = with_pair self.old.mounts source (record { stamp = stamp; version = arc_value extract }) }) }
        ensures err { OnErr result (self.new ≡ self.old) }
    {
        self.mounts
            .set(u64::from(source), MountedVersion::new(stamp, extract))
    }

    /// Puts a list into a table. An `Err` changes nothing.
    pub(crate) fn put_table(&mut self, name: u64, list: Arc<Values>) -> Result<(), Memory>
        ensures ok { OnOk result (self.new ≡ record self.old { tables = with_pair self.old.tables name (arc_value list) }) }
        ensures err { OnErr result (self.new ≡ self.old) }
    {
        self.tables.set(name, TableList::new(list))
    }

    /// Takes a table out.
    pub(crate) fn drop_table(&mut self, name: u64)
        ensures { self.new ≡ record self.old { tables = without self.old.tables name } }
    {
        self.tables.remove(name);
    }

    /// What a text means over what stands, in the time of reading it and of its query's evaluation.
    pub(crate) fn answer(&self, alloc: Global, text: &[u8]) -> Result<Table, Memory>
        requires { HasMeaning (lookup self.now.mounts) (lookup self.now.tables) text.now }
        ensures { IfOk result (λ table. Means (lookup self.now.mounts) (lookup self.now.tables) text.now table) }
    {
        let statement = read_statement(alloc, text)?;
        let Some(query) = resolve(alloc, &self.tables, &statement)? else {
            unreachable!();
        };
        let Some(mounted) = self.mounts.find(u64::from(statement.source)) else {
            unreachable!();
        };
        answer_over(alloc, mounted.extract(), &query)
    }
}
