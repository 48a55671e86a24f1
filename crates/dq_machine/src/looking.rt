ghost use Rattle.std.specs.Prelude.{◌≡◌, [], ◌∷◌, IfOk, OnOk, find};
ghost use Rattle.dq_cache.specs.Entries.{to_front};
ghost use Rattle.dq_machine.specs.Admitting as specified;
ghost use Rattle.dq_machine.specs.Admitting.{has_cover, has_same, looked};
ghost use Rattle.dq_machine.specs.Publishing.{stamp_in};

use crate::flights::look_flights;
use crate::flown::Flown;
use crate::shelf::{find_cover, find_same};
use crate::shelved::{Shelved, Shelves};
use crate::versions::Versions;
use dq_base::{Canon, Canons, List, Memory};
use dq_journal::Met;
use std::alloc::Global;

/// What a query meets in the literal cache, or else among the flights.
fn look_literal(
    flown: &List<Flown>,
    shelf: &mut List<Shelved>,
    stamp: u64,
    q: &Canon,
) -> Result<Option<Met>, Memory>
    ensures found { IfOk result (λ met. met ≡ specified.look_literal flown.now stamp q.now (find (has_same stamp q.now) shelf.old)) }
    ensures moved { OnOk result (shelf.new ≡ to_front (has_same stamp q.now) shelf.old) }
{
    if let Some(flight) = find_same(shelf, stamp, q)? {
        return Ok(Some(Met::Literal(flight)));
    }
    Ok(look_flights(flown, stamp, q))
}

/// What a query meets at its source's stamp; none is a miss. The answer that it finds goes to the front of its shelf.
fn look(
    versions: &Versions,
    flown: &List<Flown>,
    shelves: &mut Shelves,
    q: &Canon,
) -> Result<Option<Met>, Memory>
    ensures { IfOk result (λ met. record { shelves = shelves.new; found = met ∷ [] }
        ≡ specified.look flown.now (stamp_in versions.now q.now.source) q.now shelves.old (find (has_cover (stamp_in versions.now q.now.source) q.now) shelves.old.clever)) }
{
    let stamp = versions.stamp(q.query().source);
    if let Some(flight) = find_cover(&mut shelves.clever, stamp, q)? {
        return Ok(Some(Met::Hit(flight)));
    }
    look_literal(flown, &mut shelves.literal, stamp, q)
}

/// What each query meets, one after another: each sees the shelves as those before it left them. A look-up costs a
/// comparison with each answer on a shelf up to the one that it finds, and with each flight. An `Err` leaves some of them
/// done.
pub(crate) fn look_all(
    alloc: Global,
    versions: &Versions,
    flown: &List<Flown>,
    shelves: &mut Shelves,
    queries: &Canons,
) -> Result<List<Option<Met>>, Memory>
    ensures { IfOk result (λ found. record { shelves = shelves.new; found = found } ≡ looked flown.now versions.now shelves.old queries.now) }
{
    let mut found = List::new(alloc);
    for q in queries.as_slice() {
        found.push(look(versions, flown, shelves, q)?)?;
    }
    Ok(found)
}
