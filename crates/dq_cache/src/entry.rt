ghost use Rattle.std.specs.Arc.{arc_value};
ghost use Rattle.std.specs.Prelude.{◌≡◌, ◌-◌, ◌^◌, ◌≤◌, IfSome, MatchOption, Some, false, min, true};
ghost use Rattle.dq_cache.specs.Entries.{EntryOf, cells_of, is_large, most_cells, weight_of};
ghost use Rattle.dq_cache.specs.Finds.{Finds};

use dq_base::{Bound, Canon, Table};
use std::marker::Model;
use std::sync::Arc;

/// The cells of one table that a cache keeps at most.
pub(crate) const MOST_CELLS: u64 = 65536;

/// What a look-up found.
#[derive(Drop)]
pub struct Found {
    /// The flight that landed the entry.
    pub flight: u64,
    /// A share of its key and table. A missing one is want of memory.
    pub share: Option<(Arc<Canon>, Arc<Table>)>,
}

/// A landed answer.
#[derive(Drop)]
pub(crate) struct Entry {
    flight: u64,
    stamp: u64,
    key: Arc<Canon>,
    weight: u64,
    table: Arc<Table>,
}

impl Model for Entry {
    ghost use Rattle.std.specs.Arc.{arc_value};
    ghost use Rattle.dq_cache.specs.Entries.{EntryOf};

    ghost Value = { EntryOf };

    ghost view = { λ e. record { flight = e.flight; stamp = e.stamp; key = arc_value e.key; weight = e.weight; table = arc_value e.table } };
}

/// What a stack may hold: entries, or what has one in it.
pub(crate) trait Held: Drop {
    // Its entry.
    ghost entry: { Self → EntryOf };

    fn entry(&self) -> &Entry
        ensures { result.now ≡ entry self.now };
}

impl Held for Entry {
    ghost entry = { λ e. e };

    fn entry(&self) -> &Entry {
        self
    }
}

/// Rows times columns, or the greatest number where there are more.
fn count_cells(key: &Canon, table: &Table) -> u64
    ensures { result ≡ min (cells_of key.now table.now) (2 ^ 64 - 1) }
{
    let query = key.query();
    let columns = query.dims.len().saturating_add(query.measures.len());
    table.len().saturating_mul(columns)
}

/// What an entry of so many cells counts.
fn weigh(cells: u64) -> u64
    ensures { result ≡ weight_of cells }
{
    if cells == 0 { 1 } else { cells }
}

/// Whether so many cells are more than a cache of that bound keeps.
fn is_too_large(bound: Bound, cells: u64) -> bool
    ensures { result ≡ is_large bound cells }
{
    let beyond = match bound {
        Bound::Entries(_) => false,
        Bound::Cells(most) => u64::from(most) < weigh(cells),
    };
    MOST_CELLS < cells || beyond
}

/// What an answer counts; none where it is too large for a cache of that bound.
pub(crate) fn weight_within(bound: Bound, key: &Canon, table: &Table) -> Option<u64>
    ensures { MatchOption result (is_large bound (cells_of key.now table.now) ≡ true)
        (λ w. (is_large bound (cells_of key.now table.now) ≡ false) × (w ≡ weight_of (cells_of key.now table.now)) × (w ≤ most_cells)) }
{
    let cells = count_cells(key, table);
    if is_too_large(bound, cells) {
        return None;
    }
    Some(weigh(cells))
}

impl Entry {
    /// An entry of these parts.
    pub(crate) fn new(
        flight: u64,
        stamp: u64,
        key: Arc<Canon>,
        weight: u64,
        table: Arc<Table>,
    ) -> Entry
        ensures { result ≡ record { flight = flight; stamp = stamp; key = arc_value key; weight = weight; table = arc_value table } }
    {
        Entry {
            flight,
            stamp,
            key,
            weight,
            table,
        }
    }

    /// The flight that landed it.
    pub(crate) fn flight(&self) -> u64
        ensures { result ≡ self.now.flight }
    {
        self.flight
    }

    /// Its extract's stamp.
    pub(crate) fn stamp(&self) -> u64
        ensures { result ≡ self.now.stamp }
    {
        self.stamp
    }

    /// Its query.
    pub(crate) fn key(&self) -> &Canon
        ensures { result.now ≡ self.now.key }
    {
        &self.key
    }

    /// Its extract's number.
    pub(crate) fn source(&self) -> u32
        ensures { result ≡ self.now.key.source }
    {
        self.key.query().source
    }

    /// How much it counts.
    pub(crate) fn weight(&self) -> u64
        ensures { result ≡ self.now.weight }
    {
        self.weight
    }

    /// What a look-up that found it hands out.
    pub(crate) fn found(&self) -> Found
        ensures { Finds (Some self.now) (Some result) }
    {
        Found {
            flight: self.flight,
            share: share_of(&self.key, &self.table),
        }
    }
}

/// A share of a key and a table; none is want of memory.
fn share_of(key: &Arc<Canon>, table: &Arc<Table>) -> Option<(Arc<Canon>, Arc<Table>)>
    ensures { IfSome result (λ both. (arc_value both.0 ≡ arc_value key.now) × (arc_value both.1 ≡ arc_value table.now)) }
{
    let key = Arc::try_clone(key).ok()?;
    let table = Arc::try_clone(table).ok()?;
    Some((key, table))
}
