ghost use Rattle.std.specs.Prelude.{IfOk};
ghost use Rattle.dq_base.specs.Validity.{invalid_by};
ghost use Rattle.dq_journal.specs.Steps.{AreRefused, IsRefused};

use dq_base::{List, Memory, Query, Schemas};
use dq_journal::{ZoneResult, ZoneResults};
use dq_query::check;
use std::alloc::Global;

/// The outcome of a zone whose batch is refused.
fn refused_zone(schemas: &Schemas, q: &Query) -> ZoneResult
    ensures { IsRefused (invalid_by schemas.now q.now) result }
{
    match check(schemas, q) {
        Ok(()) => ZoneResult::Memory,
        Err(reason) => ZoneResult::Invalid(reason),
    }
}

/// The outcomes of a batch that is refused for memory, in zone order: valid zones are `Memory`, the others `Invalid`. Each zone is
/// checked once. An `Err` is want of memory for the list.
pub fn refused_zones(
    alloc: Global,
    schemas: &Schemas,
    zones: &[Query],
) -> Result<ZoneResults, Memory>
    ensures { IfOk result (λ outcomes. AreRefused schemas.now zones.now outcomes) }
{
    let mut outcomes = List::with_capacity(alloc, zones.len() as u64)?;
    for q in zones {
        outcomes.push(refused_zone(schemas, q))?;
    }
    Ok(outcomes)
}
