ghost use Rattle.std.specs.Prelude.{◌≡◌, ◌<◌, None, length, slice_set};
ghost use Rattle.dq_batch.specs.Beginning.{all_begun, begun, begun_at, handed, shared as shared_as};

use dq_base::{Canon, Table};
use dq_cache::Found;
use dq_desk::Helds;
use dq_journal::{Meets, Met};
use dq_zones::{Fetch, Fetches};
use std::mem::replace;
use std::sync::Arc;

/// What a share of a key and its answer brings; a missing one is want of memory.
pub(crate) fn shared(share: Option<(Arc<Canon>, Arc<Table>)>) -> Fetch
    ensures { result ≡ shared_as share }
{
    match share {
        Some((key, table)) => Fetch::Brought(key, table),
        None => Fetch::Memory,
    }
}

/// What a cache handed out.
fn hand(held: Option<Found>) -> Fetch
    ensures { result ≡ handed held }
{
    match held {
        Some(found) => shared(found.share),
        None => Fetch::Memory,
    }
}

/// How far a query is that met this, and was handed that out of a cache.
fn begin(met: &Met, held: Option<Found>) -> Fetch
    ensures { result ≡ begun met.now held }
{
    match met {
        Met::Hit(_) | Met::Literal(_) => hand(held),
        Met::Join(flight) => Fetch::Waiting(*flight),
        Met::Group(flight) => Fetch::Flying(*flight),
    }
}

/// The one at a place.
fn begin_at(met: &Meets, held: &mut Helds, fetches: &mut Fetches, place: u64)
    requires met { place < length met.now }
    requires held { place < length held.old }
    requires fetches { place < length fetches.old }
    ensures held { held.new ≡ slice_set held.old place None }
    ensures fetches { fetches.new ≡ begun_at met.now held.old place fetches.old }
{
    let Some(meets) = met.get(place) else {
        unreachable!();
    };
    let found = replace(held.item_mut(place), None);
    *fetches.item_mut(place) = begin(meets, found);
}

/// How far each query is, in order, in place of as many.
pub(crate) fn begin_all(met: &Meets, held: Helds, fetches: &mut Fetches)
    requires held { length held ≡ length met.now }
    requires fetches { length fetches.old ≡ length met.now }
    ensures { fetches.new ≡ all_begun met.now held }
{
    let mut held = held;
    for place in 0..met.len() {
        begin_at(met, &mut held, fetches, place);
    }
}
