ghost use Rattle.std.specs.Arc.{arc_value};
ghost use Rattle.std.specs.Prelude.{◌≡◌, ◌++◌, [], drop, map, IfOk};
ghost use Rattle.dq_base.specs.Answers.{answer};
ghost use Rattle.dq_machine.specs.Publishing.{rows_at};
ghost use Rattle.dq_check.specs.Dues.{refused_due};
ghost use Rattle.dq_check.specs.Owed.{AreOwed, IsOwed, first_origin, first_stamp};

use crate::due::{Due, Fated};
use crate::losses::Losses;
use crate::origins::Origin;
use dq_base::{List, Memory, Query, Schemas, Table};
use dq_machine::Machine;
use dq_query::{canonical, check};
use std::alloc::Global;
use std::sync::Arc;

// No rows.
fn no_rows(alloc: Global) -> Result<Arc<Table>, Memory>
    ensures { IfOk result (λ table. arc_value table ≡ []) }
{
    let table = Arc::new(alloc, List::new(alloc))?;
    Ok(table)
}

// The answer over the rows that the publication of that stamp left.
fn answer_at(alloc: Global, machine: &Machine, stamp: u64, q: &Query) -> Result<Arc<Table>, Memory>
    ensures { IfOk result (λ table. arc_value table ≡ answer q.now (rows_at machine.now.state.versions stamp)) }
{
    let key = canonical(alloc, q)?;
    let table = machine.answer_at(alloc, stamp, &key)?;
    let owner = Arc::new(alloc, table)?;
    Ok(owner)
}

// What is due to a zone.
fn owed(
    alloc: Global,
    schemas: &Schemas,
    machine: &Machine,
    losses: &Losses,
    origin: Origin,
    stamp: u64,
    q: &Query,
) -> Result<Due, Memory>
    ensures { IfOk result (IsOwed schemas.now machine.now.state.versions losses.now origin stamp q.now) }
{
    let reason = check(schemas, q).err();
    let fate = losses.fate(origin.own);
    let want = answer_at(alloc, machine, stamp, q)?;
    Ok(Due::new(reason, fate, want, origin.leader))
}

// The first of these, or none where there is none.
fn first_origin(origins: &[Origin]) -> Origin
    ensures { result ≡ first_origin origins.now }
{
    match origins.first() {
        Some(origin) => origin.copy(),
        None => Origin::none(),
    }
}

// The first of these, or 0 where there is none.
fn first_stamp(stamps: &[u64]) -> u64
    ensures { result ≡ first_stamp stamps.now }
{
    match stamps.first() {
        Some(stamp) => *stamp,
        None => 0,
    }
}

// All but the first.
fn rest_of<T>(items: &[T]) -> &[T]
    ensures { result.now ≡ drop 1 items.now }
{
    match items.split_first() {
        Some((_, rest)) => rest,
        None => items,
    }
}

/// What is due to the zones of a batch with these origins, over the rows of these stamps. The cost is that of their answers.
pub(crate) fn all_owed(
    alloc: Global,
    schemas: &Schemas,
    machine: &Machine,
    losses: &Losses,
    origins: &[Origin],
    stamps: &[u64],
    zones: &[Query],
) -> Result<Vec<Due>, Memory>
    ensures { IfOk result (λ dues. AreOwed schemas.now machine.now.state.versions losses.now origins.now stamps.now zones.now dues.items) }
{
    let mut dues = Vec::new(alloc);
    let mut origins_left = origins;
    let mut stamps_left = stamps;
    for zone in zones {
        let origin = first_origin(origins_left);
        let stamp = first_stamp(stamps_left);
        dues.push(owed(alloc, schemas, machine, losses, origin, stamp, zone)?)?;
        origins_left = rest_of(origins_left);
        stamps_left = rest_of(stamps_left);
    }
    Ok(dues)
}

// What is due to a zone of a batch that was refused for memory.
fn refused(alloc: Global, schemas: &Schemas, q: &Query) -> Result<Due, Memory>
    ensures { IfOk result (λ due. due ≡ refused_due schemas.now q.now) }
{
    let reason = check(schemas, q).err();
    Ok(Due::new(reason, Fated::Wanting, no_rows(alloc)?, None))
}

/// What is due to the zones of a batch that was refused for memory.
pub(crate) fn all_refused(
    alloc: Global,
    schemas: &Schemas,
    zones: &[Query],
) -> Result<Vec<Due>, Memory>
    ensures { IfOk result (λ dues. dues.items ≡ map (refused_due schemas.now) zones.now) }
{
    let mut dues = Vec::new(alloc);
    for zone in zones {
        dues.push(refused(alloc, schemas, zone)?)?;
    }
    Ok(dues)
}
