ghost use Rattle.std.specs.Arc.{arc_value};
ghost use Rattle.std.specs.List.{AllByRecursion};
ghost use Rattle.std.specs.Prelude.{◌≡◌, ◌+◌, ◌*◌, ◌^◌, ◌<◌, ◌≤◌, [], IfOk, length, map};
ghost use Rattle.dq_base.specs.Batches.{groups};
ghost use Rattle.dq_machine.specs.Admitting as machine;
ghost use Rattle.dq_desk.specs.Plans.{IsReady, plan_of};
ghost use Rattle.dq_text.specs.Statements.{body};

use crate::planning::{plan, plan_joins, stand_all};
use crate::roomy::Roomy;
use crate::starting::{keys_of, start_groups};
use crate::stood::{Starteds, Stoods};
use crate::waiting::Join;
use dq_base::{Canon, Canons, Memory, Texts};
use dq_cache::{Clever, Found, Literal};
use dq_flight::Flights;
use dq_fuse::fuse;
use dq_journal::{Journal, Meets, Met};
use dq_link::{Link, Wreck};
use dq_machine::{Stand, meets, miss_numbers, missed};
use std::alloc::Global;
use std::sync::Arc;

/// All that an admission takes memory for.
#[derive(Drop)]
pub(crate) struct Ready {
    // What each query meets; where it is an answer in a cache its flight is left open.
    pub(crate) otherwise: Meets,
    pub(crate) joins: Vec<Join>,
    pub(crate) stood: Stoods,
    pub(crate) started: Starteds,
    // A second share of the key of each flight that starts.
    pub(crate) keys: Vec<Arc<Canon>>,
    // Room for what each query meets, twice, and for what it is handed out.
    pub(crate) met: Roomy<Met>,
    pub(crate) again: Roomy<Met>,
    pub(crate) held: Roomy<Option<Found>>,
}

/// An empty list with room for so many items.
fn room_for<T: Drop>(alloc: Global, count: u64) -> Result<Roomy<T>, Memory>
    ensures items { IfOk result (λ list. list.items ≡ []) }
    ensures room { IfOk result (λ list. count ≤ list.spare) }
{
    let mut list = Roomy::new(alloc);
    list.reserve(count)?;
    Ok(list)
}

/// All that the admission of these queries takes memory for, where so many flights were started before. Nothing changes.
pub(crate) fn make_ready(
    alloc: Global,
    clever: &Clever,
    literal: &Literal,
    flights: &Flights,
    stamps: &[u64],
    stands: &[Stand],
    count: u64,
    queries: &Canons,
    texts: &Texts,
) -> Result<Ready, Memory>
    requires texts { texts.now ≡ map body queries.now }
    requires within { AllByRecursion (λ q. q.source < length stands.now) queries.now }
    requires numbers { count + 1 + length queries.now < 2 ^ 64 }
    ensures ready { IfOk result (λ r. IsReady stamps.now stands.now count queries.now
        (plan_of clever.now.entries literal.now.entries flights.now.flights stamps.now queries.now)
        (groups (machine.missed (plan_of clever.now.entries literal.now.entries flights.now.flights stamps.now queries.now) queries.now))
        r.otherwise r.joins.items r.stood r.started (map arc_value r.keys.items)) }
    ensures met { IfOk result (λ r. r.met.items ≡ []) }
    ensures met_room { IfOk result (λ r. length queries.now ≤ r.met.spare) }
    ensures again { IfOk result (λ r. r.again.items ≡ []) }
    ensures again_room { IfOk result (λ r. length queries.now ≤ r.again.spare) }
    ensures held { IfOk result (λ r. r.held.items ≡ []) }
    ensures held_room { IfOk result (λ r. length queries.now ≤ r.held.spare) }
{
    let will = plan(alloc, clever, literal, flights, stamps, queries, texts)?;
    let joins = plan_joins(alloc, stamps, &will, queries)?;
    let misses = missed(alloc, &will, queries)?;
    let groups = fuse(alloc, &misses)?;
    let numbers = miss_numbers(alloc, count + 1, &groups, &misses)?;
    let otherwise = meets(alloc, will.as_slice(), numbers.as_slice())?;
    let stood = stand_all(alloc, stamps, stands, queries)?;
    let started = start_groups(alloc, stamps, stands, count + 1, &groups)?;
    let keys = keys_of(alloc, &groups)?;
    let met = room_for(alloc, queries.len())?;
    let again = room_for(alloc, queries.len())?;
    let held = room_for(alloc, queries.len())?;
    Ok(Ready {
        otherwise,
        joins,
        stood,
        started,
        keys,
        met,
        again,
        held,
    })
}

/// What is owed after a batch of so many remote queries: each may need six entries.
fn owed_after(owed: u64, count: u64) -> Result<u64, Memory>
    ensures { IfOk result (λ now. now ≡ owed + 6 * count) }
{
    let Some(more) = count.checked_mul(6) else {
        return Err(Memory);
    };
    let Some(now) = owed.checked_add(more) else {
        return Err(Memory);
    };
    Ok(now)
}

/// Takes the room that a batch of so many remote queries may need, and answers what is owed then. An `Err` leaves the room that was
/// there, or more.
pub(crate) fn take_room<L: Link>(
    journal: &mut Journal,
    flights: &mut Flights,
    wrecks: &mut Roomy<Wreck<L>>,
    owed: u64,
    count: u64,
) -> Result<u64, Memory>
    ensures owed { IfOk result (λ now. now ≡ owed + 6 * count) }
    ensures entries { journal.new.entries ≡ journal.old.entries }
    ensures entries_room { IfOk result (λ now. now + 1 ≤ journal.new.spare) }
    ensures entries_kept { journal.old.spare ≤ journal.new.spare }
    ensures flights { flights.new.flights ≡ flights.old.flights }
    ensures flights_room { IfOk result (λ now. now + count ≤ flights.new.spare) }
    ensures flights_kept { flights.old.spare ≤ flights.new.spare }
    ensures wrecks { wrecks.new.items ≡ wrecks.old.items }
    ensures wrecks_room { IfOk result (λ now. now ≤ wrecks.new.spare) }
    ensures wrecks_kept { wrecks.old.spare ≤ wrecks.new.spare }
{
    let now = owed_after(owed, count)?;
    let Some(entries) = now.checked_add(1) else {
        return Err(Memory);
    };
    let Some(flown) = now.checked_add(count) else {
        return Err(Memory);
    };
    journal.reserve(entries)?;
    flights.reserve(flown)?;
    wrecks.reserve(now)?;
    Ok(now)
}
