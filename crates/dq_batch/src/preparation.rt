ghost use Rattle.std.specs.Prelude.{◌≡◌, ◌≤◌, IfOk, length, replicate};
ghost use Rattle.dq_base.specs.Limits.{most_zones};
ghost use Rattle.dq_batch.specs.Prepared.{IsPreparation};

use dq_base::{Canons, Memory, Queries, Schemas};
use dq_graph::Prepared;
use dq_machine::remote_among;
use dq_zones::{Fetch, Fetches, prepare};
use std::alloc::Global;

/// A batch that is ready to be admitted: what the desk asks for, the canonical queries of its remote zones, and room for what will be
/// brought for each of them.
#[derive(Drop)]
pub struct Preparation {
    pub(crate) prepared: Prepared,
    pub(crate) queries: Canons,
    pub(crate) fetches: Fetches,
}

/// As if memory was wanting for each of so many queries.
fn no_fetches(alloc: Global, count: u64) -> Result<Fetches, Memory>
    ensures { IfOk result (λ fetches. fetches ≡ replicate count Fetch.Memory) }
{
    let mut fetches = Fetches::with_capacity(alloc, count)?;
    for place in 0..count {
        let _ = place;
        fetches.push(Fetch::Memory)?;
    }
    Ok(fetches)
}

impl Preparation {
    /// Prepares a batch of these zones: each is checked, the valid ones are brought to their canonical form and compared in pairs, and
    /// the texts of the remote ones are written. An `Err` leaves nothing.
    pub fn new(alloc: Global, schemas: &Schemas, zones: &Queries) -> Result<Preparation, Memory>
        requires { length zones.now ≤ most_zones }
        ensures { IfOk result (IsPreparation schemas.now zones.now) }
    {
        let prepared = prepare(alloc, schemas, zones)?;
        let queries = remote_among(alloc, &prepared.roles, &prepared.canons)?;
        let fetches = no_fetches(alloc, queries.len())?;
        Ok(Preparation {
            prepared,
            queries,
            fetches,
        })
    }
}
