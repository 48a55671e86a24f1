ghost use Rattle.std.specs.BTreeMap.{get};
ghost use Rattle.std.specs.Map.{lookup_entry, remove_entry};
ghost use Rattle.std.specs.Prelude.{◌≡◌, ◌++◌, [], ◌∷◌, ℕ, List, MatchBool, Some, filter, nat_eq, not};
ghost use Rattle.dq_cache.specs.Entries.{EntryOf, is_of};
ghost use Rattle.dq_cache.specs.Shelves.{IsIndex, place_of};

use crate::shelf::Shelf;
use std::alloc::Global;
use std::collections::BTreeMap;

/// A source and a stamp.
pub(crate) type Place = (u32, u64);

/// The shelves of the sources and stamps of which there are entries.
pub(crate) type Index = BTreeMap<Place, Shelf>;

/// Puts an entry at the front of its shelf. False is want of memory, which changes nothing.
pub(crate) fn enter(
    alloc: Global,
    index: &mut Index,
    place: Place,
    number: u64,
    flight: u64,
) -> bool
    ensures { (es : List (ℕ × EntryOf)) → (e : EntryOf) → place ≡ place_of e → flight ≡ e.flight → IsIndex index.old es
        → MatchBool result (IsIndex index.new ((number, e) ∷ es)) (IsIndex index.new es) }
{
    if let Some(shelf) = index.get_mut(&place) {
        return shelf.push(number, flight);
    }
    let Some(shelf) = Shelf::of_one(alloc, number, flight) else {
        return false;
    };
    let Ok(_) = index.insert(place, shelf) else {
        return false;
    };
    true
}

/// Moves the entry of a number to the front of its shelf; it was landed by that flight.
pub(crate) fn bring(index: &mut Index, place: Place, number: u64, flight: u64)
    ensures { (es : List (ℕ × EntryOf)) → (d e : EntryOf) → place ≡ place_of d → place ≡ place_of e → flight ≡ e.flight → lookup_entry (nat_eq number) es ≡ Some (number, d)
        → IsIndex index.old es → IsIndex index.new ((number, e) ∷ remove_entry (nat_eq number) es) }
{
    if let Some(shelf) = index.get_mut(&place) {
        shelf.bring(number, flight);
    }
}

/// Takes the last entry out of its shelf.
pub(crate) fn leave(index: &mut Index, place: Place)
    ensures { (es : List (ℕ × EntryOf)) → (e : ℕ × EntryOf) → place ≡ place_of e.1 → IsIndex index.old (es ++ e ∷ []) → IsIndex index.new es }
{
    let Some(shelf) = index.get_mut(&place) else {
        return;
    };
    if shelf.drop_last() {
        index.remove(&place);
    }
}

/// Takes out all shelves of a source.
pub(crate) fn drop_shelves(index: &mut Index, source: u32)
    ensures { (es : List (ℕ × EntryOf)) → IsIndex index.old es → IsIndex index.new (filter (λ e. not (is_of source e.1)) es) }
{
    index.retain(
        |place: &Place, _shelf: &mut Shelf| -> bool
            ensures { (result ≡ not (nat_eq place.now.0 source)) × (_shelf.new ≡ _shelf.old) }
        { place.0 != source },
    );
}
