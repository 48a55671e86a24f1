ghost use Rattle.std.specs.Prelude.{◌≡◌, true, IfSome, Some, slice_get};
ghost use Rattle.std.specs.BTreeMap.{is_at};
ghost use Rattle.std.specs.List.Sorted.{IsStrictlySortedBy};
ghost use Rattle.std.specs.Map.{keys_of, lookup};
ghost use Rattle.dq_base.specs.Orders.{key_cmp};
ghost use Rattle.dq_fold.specs.Placed.{AreNumbered, slot_keys};

use crate::tally::Tally;
use dq_base::{List, Memory, Value, Values, compare_keys};
use std::alloc::Global;
use std::collections::BTreeMap;
use std::hash::{FoldHasher, Hasher};
use std::mem::replace;

/// The tallies of a group, one for each measure.
pub type Tallies = List<Tally>;

/// A group: its key and its tallies.
#[derive(Drop)]
pub struct Slot {
    pub key: Values,
    pub tallies: Tallies,
}

/// The place of each key's slot.
pub type Places = BTreeMap<Values, u64>;

/// Hints at the places of slots, in rows of eight. A hint has the first half of a key's digest and a place. Nothing rests on
/// hints but speed.
pub type Hints = List<u64>;

/// How many hints stand in a row.
const WAYS: u64 = 8;

/// The bits of a hint that are its place.
const PLACE: u64 = 0xFFFF_FFFF;

/// Feeds a value to a digest.
fn feed(digest: &mut FoldHasher, v: &Value) {
    match v {
        Value::Null => digest.write_u8(0),
        Value::Int(n) => digest.write_i64(*n),
        Value::Word(text) => digest.write(text.bytes()),
    }
}

/// The digest of a key.
fn digest_of(key: &Values) -> u64 {
    let mut digest = FoldHasher::default();
    for v in key.as_slice() {
        feed(&mut digest, v);
    }
    digest.finish()
}

/// Where the row of a digest's hints begins, among so many.
fn row_of(digest: u64, count: u64) -> u64 {
    digest & count.saturating_sub(WAYS)
}

/// Whether the slot at a place is there and has that key.
fn has_key(slots: &[Slot], place: u64, key: &Values) -> bool
    ensures { result ≡ true → slice_get (slot_keys slots.now) place ≡ Some key.now }
{
    match slots.get(place as usize) {
        Some(slot) => compare_keys(&slot.key, key).is_eq(),
        None => false,
    }
}

/// The place of a hint, if the hint is at that digest and its slot has that key.
fn place_in(slots: &[Slot], hint: u64, digest: u64, key: &Values) -> Option<u64>
    ensures { IfSome result (λ place. slice_get (slot_keys slots.now) place ≡ Some key.now) }
{
    let place = hint & PLACE;
    if (hint ^ digest) <= PLACE && has_key(slots, place, key) {
        Some(place)
    } else {
        None
    }
}

/// The place that a row's hints have for a key.
fn hinted(slots: &[Slot], hints: &Hints, digest: u64, key: &Values) -> Option<u64>
    ensures { IfSome result (λ place. slice_get (slot_keys slots.now) place ≡ Some key.now) }
{
    let row = row_of(digest, hints.len());
    for way in 0..WAYS {
        let hint = *hints.get(row | way)?;
        if let Some(place) = place_in(slots, hint, digest, key) {
            return Some(place);
        }
    }
    None
}

/// Puts a hint before the others of its row, whose last one falls out.
fn put_hint(hints: &mut Hints, digest: u64, place: u64) {
    let row = row_of(digest, hints.len());
    let mut moved = (digest & !PLACE) | (place & PLACE);
    for way in 0..WAYS {
        let at = row | way;
        if at < hints.len() {
            moved = replace(hints.item_mut(at), moved);
        }
    }
}

/// Hints at the place of a key's slot.
pub fn hint(hints: &mut Hints, key: &Values, place: u64) {
    put_hint(hints, digest_of(key), place);
}

/// The place of a key's slot, if it has one. Where the hint is right, that is one comparison; else it costs a look-up in the
/// map of places.
pub fn place_of(places: &Places, slots: &[Slot], hints: &mut Hints, key: &Values) -> Option<u64>
    requires { AreNumbered (slot_keys slots.now) places.now.entries }
    ensures place { result ≡ lookup (is_at (key_cmp key.now)) places.now.entries }
    ensures ordered { IsStrictlySortedBy key_cmp (keys_of places.now.entries) }
{
    let _ordered = places.len();
    let digest = digest_of(key);
    if let Some(place) = hinted(slots, hints, digest, key) {
        return Some(place);
    }
    let place = *places.get(key)?;
    put_hint(hints, digest, place);
    Some(place)
}

/// So many hints, all at the first slot.
fn blank(alloc: Global, count: u64) -> Result<Hints, Memory> {
    Ok(List::from_vec(vec![in alloc; 0; count as usize]?))
}

/// Makes room for the hints of so many slots and one more: at least twice as many, and a power of two. Wider hints start
/// blank.
pub fn widen(alloc: Global, hints: &mut Hints, count: u64) -> Result<(), Memory> {
    let wide = hints.len();
    if wide / 2 <= count {
        *hints = blank(alloc, wide.saturating_mul(4).max(16))?;
    }
    Ok(())
}
