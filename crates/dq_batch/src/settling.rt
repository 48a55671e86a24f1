ghost use Rattle.std.specs.Arc.{arc_value};
ghost use Rattle.std.specs.Prelude.{◌≡◌, ◌<◌, length, option_and_then, slice_get};
ghost use Rattle.dq_batch.specs.Settling.{AllSettle, BringsTo, FirstWaits, FurtherTo, SettlesAt, is_flying, none_waits as no_wait, waited};

use dq_base::{Canon, Table};
use dq_bring::Ending;
use dq_zones::{Fetch, Fetches};
use std::sync::Arc;

/// An answer of which further owners are needed; where they can't be had memory is wanting.
fn further(key: &Arc<Canon>, table: &Arc<Table>) -> Fetch
    ensures { FurtherTo (arc_value key.now) (arc_value table.now) result }
{
    let Ok(key) = Arc::try_clone(key) else {
        return Fetch::Memory;
    };
    let Ok(table) = Arc::try_clone(table) else {
        return Fetch::Memory;
    };
    Fetch::Brought(key, table)
}

/// What a flight with that key brought to each query that it flies for.
fn brought(key: &Arc<Canon>, ending: &Ending) -> Fetch
    ensures { BringsTo (arc_value key.now) ending.now result }
{
    match ending {
        Ending::Landed(table) => further(key, table),
        Ending::BackEnd => Fetch::BackEnd,
        Ending::Memory => Fetch::Memory,
    }
}

/// Whether this flight flies for the query.
fn flies(fetch: &Fetch, flight: u64) -> bool
    ensures { result ≡ is_flying flight fetch.now }
{
    match fetch {
        Fetch::Flying(number) => *number == flight,
        Fetch::Waiting(_) | Fetch::Brought(_, _) | Fetch::BackEnd | Fetch::Memory => false,
    }
}

/// The one at a place.
fn settle_at(fetches: &mut Fetches, place: u64, flight: u64, key: &Arc<Canon>, ending: &Ending)
    requires { place < length fetches.old }
    ensures { SettlesAt flight (arc_value key.now) ending.now place fetches.old fetches.new }
{
    let Some(fetch) = fetches.get(place) else {
        return;
    };
    if flies(fetch, flight) {
        *fetches.item_mut(place) = brought(key, ending);
    }
}

/// A flight ended: each query that it flew for gets what it brought.
pub(crate) fn settle(fetches: &mut Fetches, flight: u64, key: &Arc<Canon>, ending: &Ending)
    ensures { AllSettle flight (arc_value key.now) ending.now fetches.old fetches.new }
{
    for place in 0..fetches.len() {
        settle_at(fetches, place, flight, key, ending);
    }
}

/// The flight for which the query waits, if it waits.
fn waits_for(fetch: &Fetch) -> Option<u64>
    ensures { result ≡ waited fetch.now }
{
    match fetch {
        Fetch::Waiting(flight) => Some(*flight),
        Fetch::Flying(_) | Fetch::Brought(_, _) | Fetch::BackEnd | Fetch::Memory => None,
    }
}

/// That of the query at a place.
fn waits_at(fetches: &Fetches, place: u64) -> Option<u64>
    ensures { result ≡ option_and_then waited (slice_get fetches.now place) }
{
    waits_for(fetches.get(place)?)
}

/// A query that waits: its place, from 0, and the flight.
#[derive(Clone, Copy)]
pub(crate) struct Wait {
    pub(crate) place: u64,
    pub(crate) flight: u64,
}

/// The first query that waits.
pub(crate) fn first_wait(fetches: &Fetches) -> Option<Wait>
    ensures { FirstWaits fetches.now result }
{
    for place in 0..fetches.len() {
        if let Some(flight) = waits_at(fetches, place) {
            return Some(Wait { place, flight });
        }
    }
    None
}

/// None of the queries waits.
pub(crate) fn none_waits(fetches: &Fetches) -> bool
    ensures { result ≡ no_wait fetches.now }
{
    first_wait(fetches).is_none()
}
