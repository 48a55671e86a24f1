ghost use Rattle.std.specs.Arc.{arc_value};
ghost use Rattle.std.specs.Prelude.{◌≡◌, true, Some, IfOk};
ghost use Rattle.dq_base.specs.Answers.{answer};
ghost use Rattle.dq_base.specs.Covering as cover;
ghost use Rattle.dq_journal.specs.Standing.{Rows};
ghost use Rattle.dq_zones.specs.Answering.{IsFetchFor, IsFetched, IsLedFrom, IsRolled};

use crate::fetch::Fetch;
use dq_base::{Canon, Memory, Table};
use dq_cover::same;
use dq_journal::ZoneResult;
use dq_rollup::derive;
use std::alloc::Global;
use std::sync::Arc;

/// The answer of a query from the answer of one that covers it; the same table where they are equal.
fn derived(alloc: Global, p: &Canon, q: &Canon, table: &Arc<Table>) -> Result<Arc<Table>, Memory>
    requires { cover.covers p.now q.now ≡ true }
    ensures { IfOk result (λ own. (rows : Rows) → arc_value table.now ≡ answer p.now rows → arc_value own ≡ answer q.now rows) }
{
    if same(p, q) {
        return Ok(Arc::try_clone(table)?);
    }
    Ok(Arc::new(alloc, derive(alloc, p, q, table)?)?)
}

/// The outcome of a zone whose query is covered by one that has this answer.
fn rolled_up(alloc: Global, p: &Canon, q: &Canon, table: &Arc<Table>) -> ZoneResult
    requires { cover.covers p.now q.now ≡ true }
    ensures { IsRolled p.now q.now (arc_value table.now) result }
{
    match derived(alloc, p, q, table) {
        Ok(own) => ZoneResult::Rows(own),
        Err(Memory) => ZoneResult::Memory,
    }
}

/// The outcome of a remote zone. Where nothing was brought yet, it is that of want of memory.
pub(crate) fn fetched(alloc: Global, q: &Canon, fetch: &Fetch) -> ZoneResult
    requires { IsFetchFor q.now (Some fetch.now) }
    ensures { IsFetched q.now fetch.now result }
{
    match fetch {
        Fetch::Waiting(_) => ZoneResult::Memory,
        Fetch::Flying(_) => ZoneResult::Memory,
        Fetch::Brought(key, table) => rolled_up(alloc, key, q, table),
        Fetch::BackEnd => ZoneResult::BackEnd,
        Fetch::Memory => ZoneResult::Memory,
    }
}

/// The outcome of a local zone whose query is covered by that of a remote zone with this outcome.
pub(crate) fn led_by(alloc: Global, p: &Canon, q: &Canon, leader: &ZoneResult) -> ZoneResult
    requires { cover.covers p.now q.now ≡ true }
    ensures { IsLedFrom p.now q.now leader.now result }
{
    match leader {
        ZoneResult::Rows(table) => rolled_up(alloc, p, q, table),
        ZoneResult::Invalid(reason) => ZoneResult::Invalid(*reason),
        ZoneResult::BackEnd => ZoneResult::BackEnd,
        ZoneResult::Memory => ZoneResult::Memory,
    }
}
