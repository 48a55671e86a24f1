ghost use Rattle.std.specs.Prelude.{◌≡◌, ◌+◌, ◌<◌, ◌≤◌, ◌*◌, ◌^◌, map, sum, length, not, is_none, nat_eq, OnOk, OnErr};
ghost use Rattle.dq_cache.specs.Entries as shelves;
ghost use Rattle.dq_machine.specs.Admitting.{has_same};
ghost use Rattle.dq_machine.specs.Landing as specified;
ghost use Rattle.dq_machine.specs.State.{Shelved as ShelvedOf};
ghost use Rattle.dq_machine.specs.Publishing.{stamp_in};
ghost use Rattle.dq_machine.specs.Views.{phase_of};

use crate::flown::Flown;
use crate::links::Phase;
use crate::shelf::{bring_front, same_place};
use crate::shelved::Shelved;
use crate::versions::Versions;
use dq_base::{Bound, Kept, List, Memory};
use dq_journal::Cause;
use std::sync::Arc;

/// How many cells a cache keeps of one answer at most.
const MOST_CELLS: u64 = 65_536;

/// How many entries a cache that is bounded by cells has at most.
const MOST_ENTRIES: u64 = 4_096;

// Whether an answer of so much is beyond a bound by itself.
fn is_beyond(bound: Bound, weight: u64) -> bool
    ensures { result ≡ shelves.beyond_bound bound weight }
{
    match bound {
        Bound::Entries(_) => false,
        Bound::Cells(most) => u64::from(most) < weight,
    }
}

// How much an answer of so many cells counts.
fn weight_of(cells: u64) -> u64
    ensures { result ≡ shelves.weight_of cells }
{
    if cells == 0 { 1 } else { cells }
}

/// Whether a cache with that bound keeps no answer of so many cells.
pub fn is_large(bound: Bound, cells: u64) -> bool
    ensures { result ≡ shelves.is_large bound cells }
{
    MOST_CELLS < cells || is_beyond(bound, weight_of(cells))
}

/// Why a cache doesn't keep an answer, if it doesn't: the first that applies.
pub fn refusal(topped: bool, large: bool, stale: bool) -> Option<Kept>
    ensures { result ≡ shelves.refusal topped large stale }
{
    if topped {
        return Some(Kept::Topped);
    }
    if large {
        return Some(Kept::TooLarge);
    }
    if stale {
        return Some(Kept::Stale);
    }
    None
}

// Whether the words are the same.
fn same_word(a: Kept, b: Kept) -> bool
    ensures { result ≡ specified.word_eq a b }
{
    match (a, b) {
        (Kept::Kept, Kept::Kept) => true,
        (Kept::Topped, Kept::Topped) => true,
        (Kept::TooLarge, Kept::TooLarge) => true,
        (Kept::Stale, Kept::Stale) => true,
        (Kept::Memory, Kept::Memory) => true,
        _ => false,
    }
}

// Whether a cache may say this: the reason why the answer isn't kept, or else that it is kept or that memory is wanting.
fn may_say(reason: Option<Kept>, word: Kept) -> bool
    ensures { result ≡ specified.may_say reason word }
{
    match reason {
        Some(reason) => same_word(reason, word),
        None => same_word(Kept::Kept, word) || same_word(Kept::Memory, word),
    }
}

// Whether another version than a flight's stands of its source.
fn is_stale(versions: &Versions, flight: &Flown) -> bool
    ensures { result ≡ not (nat_eq flight.now.stamp (stamp_in versions.now flight.now.key.source)) }
{
    flight.stamp != versions.stamp(flight.key.query().source)
}

/// Whether the intelligent cache may say this of a flight that lands with so many cells.
pub(crate) fn clever_may_say(
    versions: &Versions,
    bound: Bound,
    flight: &Flown,
    cells: u64,
    word: Kept,
) -> bool
    ensures { result ≡ specified.may_say (specified.clever_refusal versions.now bound flight.now cells) word }
{
    let topped = flight.key.query().top.is_some();
    may_say(
        refusal(topped, is_large(bound, cells), is_stale(versions, flight)),
        word,
    )
}

/// Whether the literal cache may say this of it.
pub(crate) fn literal_may_say(
    versions: &Versions,
    bound: Bound,
    flight: &Flown,
    cells: u64,
    word: Kept,
) -> bool
    ensures { result ≡ specified.may_say (specified.literal_refusal versions.now bound flight.now cells) word }
{
    may_say(
        refusal(false, is_large(bound, cells), is_stale(versions, flight)),
        word,
    )
}

// How much all answers on a shelf count together.
fn total(shelf: &[Shelved]) -> u128
    ensures { result ≡ sum (map (λ (e : ShelvedOf). e.weight) shelf.now) }
{
    let mut total = 0;
    for entry in shelf {
        total += u128::from(entry.weight);
    }
    total
}

// Whether a shelf whose answers count so much together has too much.
fn is_over(bound: Bound, shelf: &List<Shelved>, total: u128) -> bool
    requires { total ≡ sum (map (λ (e : ShelvedOf). e.weight) shelf.now) }
    ensures { result ≡ shelves.is_over bound (map (λ (e : ShelvedOf). e.weight) shelf.now) }
{
    match bound {
        Bound::Entries(most) => u64::from(most) < shelf.len(),
        Bound::Cells(most) => u128::from(most) < total || MOST_ENTRIES < shelf.len(),
    }
}

// Drops the last answer, and answers how much it counted.
fn drop_last(shelf: &mut List<Shelved>) -> u64
    requires { 0 < length shelf.old }
    ensures shelf { shelf.new ≡ shelves.without_last shelf.old }
    ensures weight { sum (map (λ (e : ShelvedOf). e.weight) shelf.old) ≡ sum (map (λ (e : ShelvedOf). e.weight) shelf.new) + result }
{
    let last = shelf.len() - 1;
    let entry = &shelf.as_slice()[last as usize];
    let weight = entry.weight;
    shelf.truncate(last);
    weight
}

// Drops the last answer as long as there is too much. The total is taken once.
fn trim(bound: Bound, shelf: &mut List<Shelved>)
    ensures { shelf.new ≡ shelves.trimmed (λ (e : ShelvedOf). e.weight) bound shelf.old }
{
    let mut weight = total(shelf.as_slice());
    for dropped in 0..shelf.len() {
        let _ = dropped;
        if !is_over(bound, shelf, weight) {
            return;
        }
        weight -= u128::from(drop_last(shelf));
    }
}

// Puts an answer at the front, in place of one of equal key and stamp.
fn put_front(shelf: &mut List<Shelved>, entry: Shelved) -> Result<(), Memory>
    ensures { OnOk result (shelf.new ≡ shelves.put_front (has_same entry.stamp entry.key) entry shelf.old) }
{
    match same_place(shelf.as_slice(), entry.stamp, &entry.key) {
        None => shelf.insert(0, entry),
        Some(place) => {
            bring_front(shelf, place as u64, entry);
            Ok(())
        }
    }
}

// Keeps a flight's answer of so many cells.
fn keep(shelf: &mut List<Shelved>, bound: Bound, flight: &Flown, cells: u64) -> Result<(), Memory>
    ensures { OnOk result (shelf.new ≡ specified.shelf_kept bound flight.now cells shelf.old) }
{
    let entry = Shelved {
        flight: flight.number,
        stamp: flight.stamp,
        key: Arc::try_clone(&flight.key)?,
        weight: weight_of(cells),
    };
    put_front(shelf, entry)?;
    trim(bound, shelf);
    Ok(())
}

/// What the landing of a flight with so many cells leaves on a shelf that says this. The cost is linear in the shelf.
pub(crate) fn land_on(
    shelf: &mut List<Shelved>,
    bound: Bound,
    flight: &Flown,
    cells: u64,
    word: Kept,
) -> Result<(), Memory>
    ensures { OnOk result (shelf.new ≡ specified.shelf_landed bound flight.now cells word shelf.old) }
{
    match word {
        Kept::Kept => keep(shelf, bound, flight, cells),
        Kept::Topped => Ok(()),
        Kept::TooLarge => Ok(()),
        Kept::Stale => Ok(()),
        Kept::Memory => Ok(()),
    }
}

/// Whether the statement was run, and its link given back.
pub(crate) fn has_run(phase: &Phase) -> bool
    ensures { result ≡ specified.has_run (phase_of phase.now) }
{
    match phase {
        Phase::New(_) => false,
        Phase::Leased(..) => false,
        Phase::Given(ran) => *ran,
    }
}

/// Whether a flight that has come so far may fall so.
pub(crate) fn may_fall(phase: &Phase, cause: Cause) -> bool
    ensures { result ≡ specified.may_fall (phase_of phase.now) cause }
{
    match (phase, cause) {
        (Phase::New(losses), Cause::BackEnd) => *losses == 2,
        (Phase::New(_), Cause::Memory) => false,
        (Phase::Leased(..), Cause::BackEnd) => false,
        (Phase::Leased(_, fresh, _), Cause::Memory) => *fresh,
        (Phase::Given(_), Cause::BackEnd) => false,
        (Phase::Given(_), Cause::Memory) => true,
    }
}
