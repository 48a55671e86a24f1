ghost use Rattle.std.specs.Arc.{arc_value};
ghost use Rattle.std.specs.List.{AllByRecursion, list_all};
ghost use Rattle.std.specs.Prelude.{◌≡◌, ◌+◌, ◌^◌, ◌<◌, ◌≤◌, ◌++◌, true, IfOk, length, map, nat_lt};
ghost use Rattle.dq_desk.specs.Plans.{AllCanJoin, AllStart, StartsAs, all_joined, started_flights};
ghost use Rattle.dq_text.specs.Sizes.{IsSizedQuery};

use crate::planning::{stamp_at, stood_at};
use crate::stood::{Started, Starteds};
use crate::waiting::Join;
use dq_base::{Canon, Duplicate, List, Memory};
use dq_flight::Flights;
use dq_fuse::{Group, Groups};
use dq_machine::Stand;
use dq_text::is_sized_key;
use std::alloc::Global;
use std::sync::Arc;

/// The flight of a group, as it is handed out.
fn start_group(
    alloc: Global,
    stamps: &[u64],
    stands: &[Stand],
    number: u64,
    group: &Group,
) -> Result<Started, Memory>
    requires { group.now.key.source < length stands.now }
    ensures { IfOk result (λ started. StartsAs stamps.now stands.now number group.now started) }
{
    let key = Arc::try_clone(group.key())?;
    let stood = stood_at(stamps, stands, key.query().source)?;
    let members = group.members().duplicate(alloc)?;
    Ok(Started {
        flight: number,
        key,
        stood,
        members,
    })
}

/// The flights of the groups, from this number on, as they are handed out.
pub(crate) fn start_groups(
    alloc: Global,
    stamps: &[u64],
    stands: &[Stand],
    first: u64,
    groups: &Groups,
) -> Result<Starteds, Memory>
    requires within { AllByRecursion (λ g. g.key.source < length stands.now) groups.now }
    requires numbers { first + length groups.now < 2 ^ 64 }
    ensures { IfOk result (λ started. AllStart stamps.now stands.now first groups.now started) }
{
    let mut started = List::new(alloc);
    let mut number = first;
    for group in groups.as_slice() {
        started.push(start_group(alloc, stamps, stands, number, group)?)?;
        number += 1;
    }
    Ok(started)
}

/// A share of each group's key.
pub(crate) fn keys_of(alloc: Global, groups: &Groups) -> Result<Vec<Arc<Canon>>, Memory>
    ensures { IfOk result (λ keys. map arc_value keys.items ≡ map (λ g. g.key) groups.now) }
{
    let mut keys = Vec::new(alloc);
    for group in groups.as_slice() {
        keys.push(Arc::try_clone(group.key())?)?;
    }
    Ok(keys)
}

/// One more waits for the flight of each join. It takes no memory.
pub(crate) fn join_all(flights: &mut Flights, joins: &[Join])
    requires { AllCanJoin (length joins.now) flights.old.flights joins.now }
    ensures flights { flights.new.flights ≡ all_joined flights.old.flights joins.now }
    ensures room { flights.old.spare ≤ flights.new.spare }
{
    for one in joins {
        flights.join(one.flight);
    }
}

/// Starts a flight of a lane for each key, from this number on, in room that was taken before.
pub(crate) fn start_all(
    flights: &mut Flights,
    stamps: &[u64],
    lane: u32,
    first: u64,
    keys: Vec<Arc<Canon>>,
)
    requires room { length keys.items ≤ flights.old.spare }
    requires above { list_all (λ f. nat_lt f.number first) flights.old.flights ≡ true }
    requires numbers { first + length keys.items < 2 ^ 64 }
    ensures flights { flights.new.flights ≡ flights.old.flights ++ started_flights stamps.now lane first (map arc_value keys.items) }
    ensures room { flights.old.spare ≤ flights.new.spare + length keys.items }
    ensures sized { AllByRecursion IsSizedQuery (map arc_value keys.items) }
{
    let mut number = first;
    for key in keys {
        is_sized_key(&key);
        flights.start(number, lane, stamp_at(stamps, key.query().source), key);
        number += 1;
    }
}
