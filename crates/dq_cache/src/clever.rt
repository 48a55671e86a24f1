ghost use Rattle.std.specs.Arc.{arc_value};
ghost use Rattle.std.specs.Map.{lookup, remove_entry, values_of};
ghost use Rattle.std.specs.Option.{option_map_or};
ghost use Rattle.std.specs.Prelude.{◌≡◌, ◌<◌, ◌≤◌, [], ◌∷◌, ℕ, IfOk, IfSome, IsSome, IsTrue, MatchBool, MatchOption, filter, find, is_some, nat_eq, not};
ghost use Rattle.dq_base.specs.Covering as specified;
ghost use Rattle.dq_cache.specs.Clevers.{passes_at};
ghost use Rattle.dq_cache.specs.Entries.{Answers, Leaves, cells_of, fits, flights_on, is_large, is_of, is_same, most_cells, put_front, refusal, to_front, trimmed, weight_of, without_last};
ghost use Rattle.dq_cache.specs.Finds.{Finds};
ghost use Rattle.dq_cache.specs.Shelves.{IsIndex, place_of};
ghost use Rattle.dq_cache.specs.Stacks.{IsStack, all_below, number_in};

use crate::entry::{Entry, Found, weight_within};
use crate::index::{Index, bring, drop_shelves, enter, leave};
use crate::stack::{Numbered, add, drop_from, found_at, is_beyond, pop_last, replace, take_out};
use dq_base::{Bound, Canon, Kept, Memory, Numbers64, Table};
use dq_cover::{covers, same};
use lru::LruCache;
use std::alloc::Global;
use std::collections::BTreeMap;
use std::marker::Model;
use std::sync::Arc;

/// The intelligent cache: answers from which others can be computed, the most recent first.
#[derive(Drop)]
pub struct Clever {
    cache: Numbered<Entry>,
    index: Index,
    alloc: Global,
    next: u64,
    total: u128,
    bound: Bound,
}

impl Model for Clever {
    ghost use Rattle.std.specs.Map.{values_of};
    ghost use Rattle.dq_cache.specs.Entries.{CleverOf};
    ghost use Rattle.dq_cache.specs.Clevers.{IsClever};

    ghost Value = { CleverOf };

    ghost view = { λ c. record { entries = values_of c.cache.entries; bound = c.bound } };

    ghost invariant = { λ c. IsClever c.cache c.index c.next c.total };
}

/// Whether the key of the entry of a number covers a query.
fn covers_at(cache: &Numbered<Entry>, number: u64, q: &Canon) -> bool
    ensures { result ≡ passes_at (λ key. specified.covers key q.now) cache.now.entries number }
{
    match cache.peek(&number) {
        Some(held) => covers(held.key(), q),
        None => false,
    }
}

/// Whether two queries are equal.
fn is_equal(p: &Canon, q: &Canon) -> bool
    ensures { result ≡ specified.query_eq p.now q.now }
{
    same(p, q)
}

/// Whether the key of the entry of a number is a query.
fn same_at(cache: &Numbered<Entry>, number: u64, q: &Canon) -> bool
    ensures { result ≡ passes_at (λ key. specified.query_eq key q.now) cache.now.entries number }
{
    match cache.peek(&number) {
        Some(held) => is_equal(held.key(), q),
        None => false,
    }
}

/// The flight that landed the entry of a number, or 0 where there is none.
fn flight_at(cache: &Numbered<Entry>, number: u64) -> u64
    ensures { result ≡ option_map_or (λ e. e.flight) (lookup (nat_eq number) cache.now.entries) 0 }
{
    match cache.peek(&number) {
        Some(held) => held.flight(),
        None => 0,
    }
}

/// The first of these numbers whose entry covers a query.
fn first_covering(cache: &Numbered<Entry>, numbers: &[u64], q: &Canon) -> Option<u64>
    ensures { result ≡ find (passes_at (λ key. specified.covers key q.now) cache.now.entries) numbers.now }
{
    numbers.iter().copied().find(|n| covers_at(cache, *n, q))
}

/// The first of these numbers whose entry's key is a query.
fn first_same(cache: &Numbered<Entry>, numbers: &[u64], q: &Canon) -> Option<u64>
    ensures { result ≡ find (passes_at (λ key. specified.query_eq key q.now) cache.now.entries) numbers.now }
{
    numbers.iter().copied().find(|n| same_at(cache, *n, q))
}

/// The number of the first entry of that stamp that covers a query: one shelf alone is looked at.
fn number_of(cache: &Numbered<Entry>, index: &Index, stamp: u64, q: &Canon) -> Option<u64>
    requires { IsIndex index.now cache.now.entries }
    ensures { result ≡ number_in (fits stamp q.now) cache.now.entries }
{
    let _distinct = cache.len();
    let shelf = index.get(&(q.query().source, stamp))?;
    first_covering(cache, shelf.numbers.as_slice(), q)
}

/// The number of the entry of that stamp and key.
fn number_same(cache: &Numbered<Entry>, index: &Index, stamp: u64, key: &Canon) -> Option<u64>
    requires { IsIndex index.now cache.now.entries }
    ensures { result ≡ number_in (is_same stamp key.now) cache.now.entries }
{
    let _distinct = cache.len();
    let shelf = index.get(&(key.query().source, stamp))?;
    first_same(cache, shelf.numbers.as_slice(), key)
}

/// Drops the last entry as long as there is too much.
fn trim(cache: &mut Numbered<Entry>, index: &mut Index, total: &mut u128, bound: Bound)
    requires stack { IsStack (λ e. e) cache.old total.old }
    requires indexed { IsIndex index.old cache.old.entries }
    ensures stack { IsStack (λ e. e) cache.new total.new }
    ensures below { (m : ℕ) → all_below m cache.old.entries → all_below m cache.new.entries }
    ensures indexed { IsIndex index.new cache.new.entries }
    ensures list { values_of cache.new.entries ≡ trimmed (λ e. e.weight) bound (values_of cache.old.entries) }
{
    while is_beyond(bound, cache.len(), *total) {
        drop_last(cache, index, total);
    }
}

/// Drops the last entry.
fn drop_last(cache: &mut Numbered<Entry>, index: &mut Index, total: &mut u128)
    requires stack { IsStack (λ e. e) cache.old total.old }
    requires indexed { IsIndex index.old cache.old.entries }
    ensures stack { IsStack (λ e. e) cache.new total.new }
    ensures below { (m : ℕ) → all_below m cache.old.entries → all_below m cache.new.entries }
    ensures indexed { IsIndex index.new cache.new.entries }
    ensures list { cache.new.entries ≡ without_last cache.old.entries }
{
    if let Some((_, held)) = pop_last(cache, total) {
        leave(index, (held.source(), held.stamp()));
    }
}

/// Puts an entry at the front, in place of the one of that number. It takes no memory.
fn put_again(
    cache: &mut Numbered<Entry>,
    index: &mut Index,
    total: &mut u128,
    number: u64,
    held: Entry,
)
    requires stack { IsStack (λ e. e) cache.old total.old }
    requires indexed { IsIndex index.old cache.old.entries }
    requires there { IsSome (lookup (nat_eq number) cache.old.entries) }
    requires place { IfSome (lookup (nat_eq number) cache.old.entries) (λ e. place_of e ≡ place_of held) }
    requires small { held.weight ≤ most_cells }
    ensures stack { IsStack (λ e. e) cache.new total.new }
    ensures below { (m : ℕ) → number < m → all_below m cache.old.entries → all_below m cache.new.entries }
    ensures indexed { IsIndex index.new cache.new.entries }
    ensures list { cache.new.entries ≡ (number, held) ∷ remove_entry (nat_eq number) cache.old.entries }
{
    bring(index, (held.source(), held.stamp()), number, held.flight());
    replace(cache, total, number, held);
}

/// Puts an entry at the front, under the next number. False is want of memory, which changes nothing.
fn put_new(
    alloc: Global,
    cache: &mut Numbered<Entry>,
    index: &mut Index,
    next: &mut u64,
    total: &mut u128,
    held: Entry,
) -> bool
    requires stack { IsStack (λ e. e) cache.old total.old }
    requires below { all_below next.old cache.old.entries }
    requires indexed { IsIndex index.old cache.old.entries }
    requires small { held.weight ≤ most_cells }
    ensures stack { IsStack (λ e. e) cache.new total.new }
    ensures below { all_below next.new cache.new.entries }
    ensures indexed { IsIndex index.new cache.new.entries }
    ensures list { MatchBool result (cache.new.entries ≡ (next.old, held) ∷ cache.old.entries) (cache.new.entries ≡ cache.old.entries) }
{
    let number = *next;
    let flight = held.flight();
    let place = (held.source(), held.stamp());
    if !add(cache, next, total, held) {
        return false;
    }
    if !enter(alloc, index, place, number, flight) {
        take_out(cache, total, number);
        return false;
    }
    true
}

/// Puts an entry at the front, in place of the one of that number if there is one. False is want of memory, which changes
/// nothing.
fn put(
    alloc: Global,
    cache: &mut Numbered<Entry>,
    index: &mut Index,
    next: &mut u64,
    total: &mut u128,
    at: Option<u64>,
    held: Entry,
) -> bool
    requires stack { IsStack (λ e. e) cache.old total.old }
    requires below { all_below next.old cache.old.entries }
    requires indexed { IsIndex index.old cache.old.entries }
    requires at { at ≡ number_in (is_same held.stamp held.key) cache.old.entries }
    requires small { held.weight ≤ most_cells }
    ensures stack { IsStack (λ e. e) cache.new total.new }
    ensures below { all_below next.new cache.new.entries }
    ensures indexed { IsIndex index.new cache.new.entries }
    ensures list { MatchBool result (values_of cache.new.entries ≡ put_front (is_same held.stamp held.key) held (values_of cache.old.entries)) (cache.new.entries ≡ cache.old.entries) }
    ensures there { IsSome at → IsTrue result }
{
    let _distinct = cache.len();
    if let Some(number) = at {
        put_again(cache, index, total, number, held);
        return true;
    }
    put_new(alloc, cache, index, next, total, held)
}

impl Clever {
    /// The empty cache of a bound: 1 to 4,096 entries, or 1 to 4,194,304 cells.
    pub fn new(alloc: Global, bound: Bound) -> Result<Clever, Memory>
        ensures { IfOk result (λ c. c ≡ record { entries = []; bound = bound }) }
    {
        let cache = LruCache::unbounded(alloc)?;
        Ok(Clever {
            cache,
            index: BTreeMap::new(alloc),
            alloc,
            next: 0,
            total: 0,
            bound,
        })
    }

    /// Whether there is an entry of that stamp whose key covers the query. It takes no memory; its cost is that of `find`.
    pub fn has(&self, stamp: u64, q: &Canon) -> bool
        ensures { result ≡ is_some (find (fits stamp q.now) self.now.entries) }
    {
        number_of(&self.cache, &self.index, stamp, q).is_some()
    }

    /// The first entry of that stamp whose key covers the query, which goes to the front; none exactly where there is none.
    ///
    /// It takes no memory. The cost: a look-up of the query's source and stamp, and a comparison of the query with the keys
    /// of these entries up to the first that covers it.
    pub fn find(&mut self, stamp: u64, q: &Canon) -> Option<Found>
        ensures found { Finds (find (fits stamp q.now) self.old.entries) result }
        ensures moved { self.new.entries ≡ to_front (fits stamp q.now) self.old.entries }
        ensures bound { self.new.bound ≡ self.old.bound }
    {
        let _distinct = self.cache.len();
        let number = number_of(&self.cache, &self.index, stamp, q)?;
        let found = found_at(&self.cache, number);
        let flight = flight_at(&self.cache, number);
        bring(&mut self.index, (q.query().source, stamp), number, flight);
        self.cache.promote(&number);
        found
    }

    /// Offers a landed answer, `now` being its source's stamp now. Every answer but `Kept` leaves the cache as it was; where
    /// an entry of equal key and stamp is there, it is replaced, which takes no memory.
    pub fn keep(
        &mut self,
        flight: u64,
        stamp: u64,
        now: u64,
        key: Arc<Canon>,
        table: Arc<Table>,
    ) -> Kept
        ensures answer { Answers (refusal (is_some (arc_value key).top) (is_large self.old.bound (cells_of (arc_value key) (arc_value table))) (not (nat_eq stamp now))) result }
        ensures list { Leaves result self.old.entries
            (trimmed (λ e. e.weight) self.old.bound (put_front (is_same stamp (arc_value key)) (record {
              flight = flight;
              stamp = stamp;
              key = arc_value key;
              weight = weight_of (cells_of (arc_value key) (arc_value table));
              table = arc_value table;
            }) self.old.entries))
            self.new.entries }
        ensures there { IsSome (find (is_same stamp (arc_value key)) self.old.entries) → result ≡ Kept.Memory → ⊥ }
        ensures bound { self.new.bound ≡ self.old.bound }
    {
        if key.query().top.is_some() {
            return Kept::Topped;
        }
        let Some(weight) = weight_within(self.bound, &key, &table) else {
            return Kept::TooLarge;
        };
        if stamp != now {
            return Kept::Stale;
        }
        let at = number_same(&self.cache, &self.index, stamp, &key);
        let held = Entry::new(flight, stamp, key, weight, table);
        if !put(
            self.alloc,
            &mut self.cache,
            &mut self.index,
            &mut self.next,
            &mut self.total,
            at,
            held,
        ) {
            return Kept::Memory;
        }
        trim(
            &mut self.cache,
            &mut self.index,
            &mut self.total,
            self.bound,
        );
        Kept::Kept
    }

    /// Drops all entries of a source; the others keep their order. It takes no memory, and looks at each entry once.
    pub fn drop_source(&mut self, source: u32)
        ensures entries { self.new.entries ≡ filter (λ e. not (is_of source e)) self.old.entries }
        ensures bound { self.new.bound ≡ self.old.bound }
    {
        drop_from(&mut self.cache, &mut self.total, source);
        drop_shelves(&mut self.index, source);
    }

    /// The flights of the entries of a source and a stamp, the most recent first; none exactly where there is none. It takes
    /// no memory; its cost is that of one look-up.
    pub fn shelf(&self, source: u32, stamp: u64) -> Option<&Numbers64>
        ensures { MatchOption result (flights_on source stamp self.now.entries ≡ []) (λ flights. flights.now ≡ flights_on source stamp self.now.entries) }
    {
        let shelf = self.index.get(&(source, stamp))?;
        Some(&shelf.flights)
    }
}
