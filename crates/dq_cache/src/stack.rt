ghost use Rattle.std.specs.Map.{lookup, remove_entry, values_of};
ghost use Rattle.std.specs.Option.{option_map};
ghost use Rattle.std.specs.Prelude.{◌≡◌, ◌≤◌, ◌++◌, [], ◌∷◌, if◌then◌else◌, ℕ, ◌<◌, Bool, IfSome, IsSome, IsTrue, List, MatchBool, filter, length, nat_eq, not, sum};
ghost use Rattle.lru.specs.LruCache.{last_entry};
ghost use Rattle.dq_cache.specs.Entries.{is_of, is_over, most_cells, put_front, trimmed, without_last};
ghost use Rattle.dq_cache.specs.Finds.{Finds};
ghost use Rattle.dq_cache.specs.Stacks.{IsStack, all_below, number_in};

use crate::entry::{Found, Held};
use dq_base::{Bound, MOST_ENTRIES};
use lru::LruCache;

/// Entries by running numbers, the most recent first.
pub(crate) type Numbered<T> = LruCache<u64, T>;

/// What a look-up of the entry of that number hands out.
pub(crate) fn found_at<T: Held>(cache: &Numbered<T>, number: u64) -> Option<Found>
    ensures { Finds (option_map T.entry (lookup (nat_eq number) cache.now.entries)) result }
{
    let held = cache.peek(&number)?;
    Some(held.entry().found())
}

/// Puts an entry at the front, under the next number. False is want of memory.
pub(crate) fn add<T: Held>(
    cache: &mut Numbered<T>,
    next: &mut u64,
    total: &mut u128,
    held: T,
) -> bool
    requires stack { IsStack T.entry cache.old total.old }
    requires below { all_below next.old cache.old.entries }
    requires small { (T.entry held).weight ≤ most_cells }
    ensures stack { IsStack T.entry cache.new total.new }
    ensures below { all_below next.new cache.new.entries }
    ensures list { MatchBool result (cache.new.entries ≡ (next.old, held) ∷ cache.old.entries) (cache.new.entries ≡ cache.old.entries) }
{
    let _room = cache.len();
    let number = *next;
    if number == u64::MAX {
        return false;
    }
    let weight = u128::from(held.entry().weight());
    let Ok(_) = cache.put(number, held) else {
        return false;
    };
    *next = number + 1;
    *total += weight;
    true
}

/// Puts an entry at the front, in place of the one of that number.
pub(crate) fn replace<T: Held>(cache: &mut Numbered<T>, total: &mut u128, number: u64, held: T)
    requires stack { IsStack T.entry cache.old total.old }
    requires there { IsSome (lookup (nat_eq number) cache.old.entries) }
    requires small { (T.entry held).weight ≤ most_cells }
    ensures stack { IsStack T.entry cache.new total.new }
    ensures below { (m : ℕ) → number < m → all_below m cache.old.entries → all_below m cache.new.entries }
    ensures list { cache.new.entries ≡ (number, held) ∷ remove_entry (nat_eq number) cache.old.entries }
{
    let _room = cache.len();
    let weight = u128::from(held.entry().weight());
    if let Ok(Some(old)) = cache.put(number, held) {
        *total = *total + weight - u128::from(old.entry().weight());
    }
}

/// Takes the entry of a number out.
pub(crate) fn take_out<T: Held>(cache: &mut Numbered<T>, total: &mut u128, number: u64)
    requires stack { IsStack T.entry cache.old total.old }
    requires there { IsSome (lookup (nat_eq number) cache.old.entries) }
    ensures stack { IsStack T.entry cache.new total.new }
    ensures below { (m : ℕ) → all_below m cache.old.entries → all_below m cache.new.entries }
    ensures list { cache.new.entries ≡ remove_entry (nat_eq number) cache.old.entries }
{
    if let Some(held) = cache.pop(&number) {
        *total -= u128::from(held.entry().weight());
    }
}

/// Takes the last entry out.
pub(crate) fn pop_last<T: Held>(cache: &mut Numbered<T>, total: &mut u128) -> Option<(u64, T)>
    requires stack { IsStack T.entry cache.old total.old }
    ensures stack { IsStack T.entry cache.new total.new }
    ensures below { (m : ℕ) → all_below m cache.old.entries → all_below m cache.new.entries }
    ensures last { result ≡ last_entry cache.old.entries }
    ensures list { cache.new.entries ≡ without_last cache.old.entries }
{
    let last = cache.pop_lru()?;
    *total -= u128::from(last.1.entry().weight());
    Some(last)
}

/// Whether a cache of so many entries, which count so much together, is over its bound.
pub(crate) fn is_beyond(bound: Bound, count: usize, total: u128) -> bool
    ensures { (weights : List ℕ) → count ≡ length weights → total ≡ sum weights → result ≡ is_over bound weights }
{
    match bound {
        Bound::Entries(most) => (most as usize) < count,
        Bound::Cells(most) => u128::from(most) < total || (MOST_ENTRIES as usize) < count,
    }
}

/// The number of the last entry, and whether it is of a source.
fn last_of<T: Held>(cache: &Numbered<T>, source: u32) -> Option<(u64, bool)>
    ensures { result ≡ option_map (λ e. (e.0, is_of source (T.entry e.1))) (last_entry cache.now.entries) }
{
    let (number, held) = cache.peek_lru()?;
    Some((*number, held.entry().source() == source))
}

/// Takes the last entry out if it is of a source; else puts it at the front.
fn turn<T: Held>(cache: &mut Numbered<T>, total: &mut u128, source: u32)
    requires stack { IsStack T.entry cache.old total.old }
    ensures stack { IsStack T.entry cache.new total.new }
    ensures list { (es : List (ℕ × T)) → (e : ℕ × T) → cache.old.entries ≡ es ++ e ∷ [] → cache.new.entries ≡ (if is_of source (T.entry e.1) then es else e ∷ es) }
{
    let _distinct = cache.len();
    let Some((number, dropped)) = last_of(cache, source) else {
        return;
    };
    if dropped {
        drop(pop_last(cache, total));
        return;
    }
    cache.promote(&number);
}

/// Takes out all entries of a source; the others keep their order. Each entry is looked at once.
pub(crate) fn drop_from<T: Held>(cache: &mut Numbered<T>, total: &mut u128, source: u32)
    requires stack { IsStack T.entry cache.old total.old }
    ensures stack { IsStack T.entry cache.new total.new }
    ensures below { (m : ℕ) → all_below m cache.old.entries → all_below m cache.new.entries }
    ensures list { cache.new.entries ≡ filter (λ e. not (is_of source (T.entry e.1))) cache.old.entries }
{
    for _ in 0..cache.len() {
        turn(cache, total, source);
    }
}

/// Drops the last entry as long as there is too much.
fn trim<T: Held>(cache: &mut Numbered<T>, total: &mut u128, bound: Bound)
    requires stack { IsStack T.entry cache.old total.old }
    ensures stack { IsStack T.entry cache.new total.new }
    ensures below { (m : ℕ) → all_below m cache.old.entries → all_below m cache.new.entries }
    ensures list { values_of cache.new.entries ≡ trimmed (λ e. (T.entry e).weight) bound (values_of cache.old.entries) }
{
    while is_beyond(bound, cache.len(), *total) {
        drop(pop_last(cache, total));
    }
}

/// Puts an entry at the front, in place of the one of that number if there is one, and then drops what is too much. False is
/// want of memory, which changes nothing.
pub(crate) fn keep<T: Held>(
    cache: &mut Numbered<T>,
    next: &mut u64,
    total: &mut u128,
    bound: Bound,
    at: Option<u64>,
    held: T,
) -> bool
    requires stack { IsStack T.entry cache.old total.old }
    requires below { all_below next.old cache.old.entries }
    requires small { (T.entry held).weight ≤ most_cells }
    requires at { IfSome at (λ n. IsSome (lookup (nat_eq n) cache.old.entries) × (n < next.old)) }
    ensures stack { IsStack T.entry cache.new total.new }
    ensures below { all_below next.new cache.new.entries }
    ensures list { (test : T → Bool) → number_in test cache.old.entries ≡ at → MatchBool result
        (values_of cache.new.entries ≡ trimmed (λ e. (T.entry e).weight) bound (put_front test held (values_of cache.old.entries)))
        (cache.new.entries ≡ cache.old.entries) }
    ensures there { IsSome at → IsTrue result }
{
    let _distinct = cache.len();
    if let Some(number) = at {
        replace(cache, total, number, held);
        trim(cache, total, bound);
        return true;
    }
    if !add(cache, next, total, held) {
        return false;
    }
    trim(cache, total, bound);
    true
}
