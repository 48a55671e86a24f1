ghost use Rattle.std.specs.Arc.{arc_value};
ghost use Rattle.std.specs.Prelude.{◌≡◌, ◌+◌, ◌*◌, ◌<◌, ◌≤◌, ◌^◌, [], ◌∷◌, ◌++◌, is_some, length, nat_eq, not, true, false};
ghost use Rattle.dq_cache.specs.Entries as entries;
ghost use Rattle.dq_cache.specs.Entries.{Answers, Leaves, has_body, is_same, put_front, trimmed, weight_of};
ghost use Rattle.dq_journal.specs.declared.entry.Entry.{Entry};
ghost use Rattle.dq_machine.specs.Machine.{after, allowed};
ghost use Rattle.dq_machine.specs.State.{flight_at};
ghost use Rattle.dq_desk.specs.Events.{IsAnswer, IsBody, cells_landed, may_land_now};

use crate::desk::Desk;
use crate::planning::stamp_at;
use dq_base::{Bound, Canon, Kept, Table, Text};
use dq_cache::{Clever, Literal};
use dq_journal::{Cause, Entry};
use dq_laws::keys_are_valid;
use dq_link::Link;
use dq_machine::{is_large, refusal};
use std::sync::Arc;

/// The stamps of an answer's version and of its source now.
#[derive(Clone, Copy)]
pub(crate) struct Stamps {
    version: u64,
    now: u64,
}

/// Rows times columns of a query's answer.
fn cells_of(key: &Canon, table: &Table) -> u64
    requires columns { length key.now.dims + length key.now.measures < 2 ^ 64 }
    requires cells { length table.now * (length key.now.dims + length key.now.measures) < 2 ^ 64 }
    ensures { result ≡ entries.cells_of key.now table.now }
{
    let query = key.query();
    let columns = query.dims.len() + query.measures.len();
    table.len() * columns
}

/// What a cache says of an answer for which it finds no memory.
fn without_memory(bound: Bound, topped: bool, cells: u64, stamps: Stamps) -> Kept
    ensures word { Answers (entries.refusal topped (entries.is_large bound cells) (not (nat_eq stamps.version stamps.now))) result }
    ensures other { result ≡ Kept.Kept → ⊥ }
{
    let stale = stamps.version != stamps.now;
    match refusal(topped, is_large(bound, cells), stale) {
        Some(word) => word,
        None => Kept::Memory,
    }
}

/// Offers a landed answer of so many cells to the intelligent cache. Where a further owner of its key or table can't be had,
/// memory is wanting.
fn keep_clever(
    cache: &mut Clever,
    bound: Bound,
    flight: u64,
    stamps: Stamps,
    key: &Arc<Canon>,
    table: &Arc<Table>,
    cells: u64,
) -> Kept
    requires bound { bound ≡ cache.old.bound }
    requires cells { cells ≡ entries.cells_of (arc_value key.now) (arc_value table.now) }
    ensures answer { Answers (entries.refusal (is_some (arc_value key.now).top) (entries.is_large cache.old.bound cells) (not (nat_eq stamps.version stamps.now))) result }
    ensures list { Leaves result cache.old.entries
        (trimmed (λ e. e.weight) cache.old.bound (put_front (is_same stamps.version (arc_value key.now)) (record {
          flight = flight;
          stamp = stamps.version;
          key = arc_value key.now;
          weight = weight_of cells;
          table = arc_value table.now;
        }) cache.old.entries))
        cache.new.entries }
    ensures bound { cache.new.bound ≡ cache.old.bound }
{
    let topped = key.query().top.is_some();
    let Ok(further_key) = Arc::try_clone(key) else {
        return without_memory(bound, topped, cells, stamps);
    };
    let Ok(further_table) = Arc::try_clone(table) else {
        return without_memory(bound, topped, cells, stamps);
    };
    cache.keep(
        flight,
        stamps.version,
        stamps.now,
        further_key,
        further_table,
    )
}

/// Offers it to the literal cache, with the text of its query.
fn keep_literal(
    cache: &mut Literal,
    bound: Bound,
    flight: u64,
    stamps: Stamps,
    key: &Arc<Canon>,
    body: Text,
    table: &Arc<Table>,
    cells: u64,
) -> Kept
    requires bound { bound ≡ cache.old.bound }
    requires cells { cells ≡ entries.cells_of (arc_value key.now) (arc_value table.now) }
    ensures answer { Answers (entries.refusal false (entries.is_large cache.old.bound cells) (not (nat_eq stamps.version stamps.now))) result }
    ensures list { Leaves result cache.old.entries
        (trimmed (λ e. e.entry.weight) cache.old.bound (put_front (has_body stamps.version body) (record {
          entry = record { flight = flight; stamp = stamps.version; key = arc_value key.now; weight = weight_of cells; table = arc_value table.now };
          body = body;
        }) cache.old.entries))
        cache.new.entries }
    ensures bound { cache.new.bound ≡ cache.old.bound }
{
    let Ok(further_key) = Arc::try_clone(key) else {
        return without_memory(bound, false, cells, stamps);
    };
    let Ok(further_table) = Arc::try_clone(table) else {
        return without_memory(bound, false, cells, stamps);
    };
    cache.keep(
        flight,
        stamps.version,
        stamps.now,
        further_key,
        body,
        further_table,
    )
}

impl<L: Link> Desk<L> {
    /// The first of the lane's own flights lands with its answer: the table, and the text of its query without a stamp. Both caches are
    /// offered it; what they say is answered, the intelligent cache first. They find no memory where it is wanting, which is said as well;
    /// nothing else takes memory. The cost is linear in the extracts, in the flights, in the answers of its source and stamp in the
    /// intelligent cache, and in those of the literal cache.
    pub fn land(&mut self, lane: u32, flight: u64, body: Text, table: Arc<Table>) -> (Kept, Kept)
        requires may { may_land_now (after self.old.loaded self.old.journal) lane flight ≡ true }
        requires answer { IsAnswer (after self.old.loaded self.old.journal).versions (flight_at (after self.old.loaded self.old.journal) flight) (arc_value table) }
        requires body { IsBody (flight_at (after self.old.loaded self.old.journal) flight) body }
        ensures entry { self.new.journal ≡ self.old.journal ++ Entry.Land lane flight (cells_landed (after self.old.loaded self.old.journal).versions (flight_at (after self.old.loaded self.old.journal) flight)) result.0 result.1 ∷ [] }
        ensures loaded { self.new.loaded ≡ self.old.loaded }
    {
        keys_are_valid(&self.loaded, self.journal.as_slice());
        let Some((version, key)) = self.flights.asked(flight) else {
            unreachable!();
        };
        let now = stamp_at(self.stamps.as_slice(), key.query().source);
        let stamps = Stamps { version, now };
        let cells = cells_of(key, &table);
        let script = self.loaded.script();
        let clever = keep_clever(
            &mut self.clever,
            script.clever,
            flight,
            stamps,
            key,
            &table,
            cells,
        );
        let literal = keep_literal(
            &mut self.literal,
            script.literal,
            flight,
            stamps,
            key,
            body,
            &table,
            cells,
        );
        self.flights.land(flight, table);
        self.owed -= 1;
        self.journal.push(Entry::Land {
            lane,
            flight,
            cells,
            clever,
            literal,
        });
        (clever, literal)
    }

    /// The first of the lane's own flights falls: two links were lost, or memory was wanting. It takes no memory. The cost is linear in
    /// the flights.
    pub fn fall(&mut self, lane: u32, flight: u64, cause: Cause)
        requires { allowed self.old.loaded (after self.old.loaded self.old.journal) (Entry.Fall lane flight cause) ≡ true }
        ensures entry { self.new.journal ≡ self.old.journal ++ Entry.Fall lane flight cause ∷ [] }
        ensures loaded { self.new.loaded ≡ self.old.loaded }
    {
        self.flights.fall(flight);
        self.owed -= 1;
        self.journal.push(Entry::Fall {
            lane,
            flight,
            cause,
        });
    }
}
