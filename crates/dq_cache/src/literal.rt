ghost use Rattle.std.specs.Arc.{arc_value};
ghost use Rattle.std.specs.Option.{option_map};
ghost use Rattle.std.specs.Prelude.{◌≡◌, ◌<◌, ◌≤◌, [], false, filter, find, is_some, nat_eq, not, IfOk, IsSome};
ghost use Rattle.dq_cache.specs.Entries.{Answers, Leaves, cells_of, has_body, is_large, is_of, put_front, refusal, to_front, trimmed, weight_of};
ghost use Rattle.dq_cache.specs.Finds.{Finds};
ghost use Rattle.dq_cache.specs.Stacks.{number_in};

use crate::entry::{Entry, Found, Held, weight_within};
use crate::stack::{Numbered, drop_from, found_at, keep};
use dq_base::{Bound, Canon, Kept, Memory, Table, Text};
use lru::LruCache;
use std::alloc::Global;
use std::marker::Model;
use std::sync::Arc;

/// An entry that is looked up by the body of its statement.
#[derive(Drop)]
pub(crate) struct Bodied {
    entry: Entry,
    body: Text,
}

impl Model for Bodied {
    ghost use Rattle.dq_cache.specs.Entries.{BodiedOf};

    ghost Value = { BodiedOf };

    ghost view = { λ b. record { entry = b.entry; body = b.body } };
}

impl Held for Bodied {
    ghost entry = { λ b. b.entry };

    fn entry(&self) -> &Entry {
        &self.entry
    }
}

/// The literal cache: answers by the body of their statement, the most recent first.
#[derive(Drop)]
pub struct Literal {
    cache: Numbered<Bodied>,
    next: u64,
    total: u128,
    bound: Bound,
}

impl Model for Literal {
    ghost use Rattle.std.specs.Map.{values_of};
    ghost use Rattle.dq_cache.specs.Entries.{LiteralOf};
    ghost use Rattle.dq_cache.specs.Stacks.{IsLiteral};

    ghost Value = { LiteralOf };

    ghost view = { λ c. record { entries = values_of c.cache.entries; bound = c.bound } };

    ghost invariant = { λ c. IsLiteral c.cache c.next c.total };
}

/// Whether an entry is of that stamp and body.
fn is_wanted(held: &Bodied, stamp: u64, body: &[u8]) -> bool
    ensures { result ≡ has_body stamp body.now held.now }
{
    held.entry.stamp() == stamp && held.body.bytes() == body
}

/// The number of the first entry of that stamp and body.
fn number_of(cache: &Numbered<Bodied>, stamp: u64, body: &[u8]) -> Option<u64>
    ensures { result ≡ number_in (has_body stamp body.now) cache.now.entries }
{
    for (number, held) in cache.iter() {
        if is_wanted(held, stamp, body) {
            return Some(*number);
        }
    }
    None
}

impl Literal {
    /// The empty cache of a bound: 1 to 4,096 entries, or 1 to 4,194,304 cells.
    pub fn new(alloc: Global, bound: Bound) -> Result<Literal, Memory>
        ensures { IfOk result (λ c. c ≡ record { entries = []; bound = bound }) }
    {
        let cache = LruCache::unbounded(alloc)?;
        Ok(Literal {
            cache,
            next: 0,
            total: 0,
            bound,
        })
    }

    /// Whether there is an entry of that stamp and body. It takes no memory; its cost is that of reading the entries once.
    pub fn has(&self, stamp: u64, body: &Text) -> bool
        ensures { result ≡ is_some (find (has_body stamp body.now) self.now.entries) }
    {
        number_of(&self.cache, stamp, body.bytes()).is_some()
    }

    /// The first entry of that stamp and body, which goes to the front; none exactly where there is none. It takes no memory;
    /// its cost is that of reading the entries once.
    pub fn find(&mut self, stamp: u64, body: &Text) -> Option<Found>
        ensures found { Finds (option_map (λ e. e.entry) (find (has_body stamp body.now) self.old.entries)) result }
        ensures moved { self.new.entries ≡ to_front (has_body stamp body.now) self.old.entries }
        ensures bound { self.new.bound ≡ self.old.bound }
    {
        let _distinct = self.cache.len();
        let number = number_of(&self.cache, stamp, body.bytes())?;
        let found = found_at(&self.cache, number);
        self.cache.promote(&number);
        found
    }

    /// Offers a landed answer, `now` being its source's stamp now. Every answer but `Kept` leaves the cache as it was; where
    /// an entry of equal stamp and body is there, it is replaced, which takes no memory.
    pub fn keep(
        &mut self,
        flight: u64,
        stamp: u64,
        now: u64,
        key: Arc<Canon>,
        body: Text,
        table: Arc<Table>,
    ) -> Kept
        ensures answer { Answers (refusal false (is_large self.old.bound (cells_of (arc_value key) (arc_value table))) (not (nat_eq stamp now))) result }
        ensures list { Leaves result self.old.entries
            (trimmed (λ e. e.entry.weight) self.old.bound (put_front (has_body stamp body) (record {
              entry = record { flight = flight; stamp = stamp; key = arc_value key; weight = weight_of (cells_of (arc_value key) (arc_value table)); table = arc_value table };
              body = body;
            }) self.old.entries))
            self.new.entries }
        ensures there { IsSome (find (has_body stamp body) self.old.entries) → result ≡ Kept.Memory → ⊥ }
        ensures bound { self.new.bound ≡ self.old.bound }
    {
        let Some(weight) = weight_within(self.bound, &key, &table) else {
            return Kept::TooLarge;
        };
        if stamp != now {
            return Kept::Stale;
        }
        let _distinct = self.cache.len();
        let at = number_of(&self.cache, stamp, body.bytes());
        let entry = Entry::new(flight, stamp, key, weight, table);
        let held = Bodied { entry, body };
        if keep(
            &mut self.cache,
            &mut self.next,
            &mut self.total,
            self.bound,
            at,
            held,
        ) {
            return Kept::Kept;
        }
        Kept::Memory
    }

    /// Drops all entries of a source; the others keep their order. It takes no memory, and looks at each entry once.
    pub fn drop_source(&mut self, source: u32)
        ensures entries { self.new.entries ≡ filter (λ e. not (is_of source e.entry)) self.old.entries }
        ensures bound { self.new.bound ≡ self.old.bound }
    {
        drop_from(&mut self.cache, &mut self.total, source);
    }
}
