ghost use Rattle.std.specs.List.{remove};
ghost use Rattle.std.specs.Option.{option_map};
ghost use Rattle.std.specs.Prelude.{◌≡◌, ◌<◌, ◌∷◌, Bool, IfOk, OnOk, find, length, position};
ghost use Rattle.dq_base.specs.Covering as specified;
ghost use Rattle.dq_cache.specs.Entries.{to_front};
ghost use Rattle.dq_machine.specs.Admitting.{has_cover, has_same};
ghost use Rattle.dq_machine.specs.State.{Shelved as ShelvedOf};

use crate::shelved::Shelved;
use dq_base::{Canon, List, Memory};
use dq_cover::{covers, same};
use std::mem;
use std::sync::Arc;

/// Whether two queries are equal.
fn is_equal(p: &Canon, q: &Canon) -> bool
    ensures { result ≡ specified.query_eq p.now q.now }
{
    same(p, q)
}

/// Whether an answer is of that stamp, to a query that covers this one.
fn is_cover(entry: &Shelved, stamp: u64, q: &Canon) -> bool
    ensures { result ≡ has_cover stamp q.now entry.now }
{
    entry.stamp == stamp && covers(&entry.key, q)
}

/// Whether an answer is of that stamp and to this query.
fn is_same(entry: &Shelved, stamp: u64, q: &Canon) -> bool
    ensures { result ≡ has_same stamp q.now entry.now }
{
    entry.stamp == stamp && is_equal(&entry.key, q)
}

/// The place of the first answer of that stamp that covers a query.
fn cover_place(shelf: &[Shelved], stamp: u64, q: &Canon) -> Option<usize>
    ensures { result ≡ position (has_cover stamp q.now) shelf.now }
{
    shelf.iter().position(|entry| is_cover(entry, stamp, q))
}

/// The place of the first answer of that stamp to a query.
pub(crate) fn same_place(shelf: &[Shelved], stamp: u64, q: &Canon) -> Option<usize>
    ensures { result ≡ position (has_same stamp q.now) shelf.now }
{
    shelf.iter().position(|entry| is_same(entry, stamp, q))
}

/// The same answer again.
pub(crate) fn copy_of(entry: &Shelved) -> Result<Shelved, Memory>
    ensures { IfOk result (λ copy. copy ≡ entry.now) }
{
    Ok(Shelved {
        flight: entry.flight,
        stamp: entry.stamp,
        key: Arc::try_clone(&entry.key)?,
        weight: entry.weight,
    })
}

/// Puts an answer at the front, in place of the one at a place. It takes no memory, and moves those before the place.
pub(crate) fn bring_front(shelf: &mut List<Shelved>, place: u64, entry: Shelved)
    requires { place < length shelf.old }
    ensures { shelf.new ≡ entry ∷ remove shelf.old place }
{
    let _len = shelf.len();
    let mut carried = entry;
    for i in 0..place + 1 {
        carried = mem::replace(shelf.item_mut(i), carried);
    }
}

/// Moves the answer at a place to the front, and answers the flight that landed it.
fn move_front(shelf: &mut List<Shelved>, place: Option<usize>) -> Result<Option<u64>, Memory>
    ensures found { (test : ShelvedOf → Bool) → place ≡ position test shelf.old → IfOk result (λ flight. flight ≡ option_map (λ e. e.flight) (find test shelf.old)) }
    ensures moved { (test : ShelvedOf → Bool) → place ≡ position test shelf.old → OnOk result (shelf.new ≡ to_front test shelf.old) }
{
    let Some(place) = place else {
        return Ok(None);
    };
    let Some(held) = shelf.get(place as u64) else {
        return Ok(None);
    };
    let entry = copy_of(held)?;
    let flight = entry.flight;
    bring_front(shelf, place as u64, entry);
    Ok(Some(flight))
}

/// The flight that landed the first answer of that stamp that covers the query, and that answer goes to the front; none
/// exactly where there is none.
pub(crate) fn find_cover(
    shelf: &mut List<Shelved>,
    stamp: u64,
    q: &Canon,
) -> Result<Option<u64>, Memory>
    ensures found { IfOk result (λ flight. flight ≡ option_map (λ e. e.flight) (find (has_cover stamp q.now) shelf.old)) }
    ensures moved { OnOk result (shelf.new ≡ to_front (has_cover stamp q.now) shelf.old) }
{
    let place = cover_place(shelf.as_slice(), stamp, q);
    move_front(shelf, place)
}

/// The flight that landed the first answer of that stamp to the query, and that answer goes to the front; none exactly where
/// there is none.
pub(crate) fn find_same(
    shelf: &mut List<Shelved>,
    stamp: u64,
    q: &Canon,
) -> Result<Option<u64>, Memory>
    ensures found { IfOk result (λ flight. flight ≡ option_map (λ e. e.flight) (find (has_same stamp q.now) shelf.old)) }
    ensures moved { OnOk result (shelf.new ≡ to_front (has_same stamp q.now) shelf.old) }
{
    let place = same_place(shelf.as_slice(), stamp, q);
    move_front(shelf, place)
}
