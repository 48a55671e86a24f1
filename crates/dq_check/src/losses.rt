ghost use Rattle.std.specs.BTreeMap.{get};
ghost use Rattle.std.specs.BTreeSet.{contains};
ghost use Rattle.std.specs.List.{count_by, flat_map, list_any};
ghost use Rattle.std.specs.Ordering.{nat_cmp};
ghost use Rattle.std.specs.Prelude.{◌≡◌, ◌+◌, ◌<◌, ◌^◌, ◌++◌, ◌||◌, ℕ, IfOk, OnOk, nat_eq, unwrap_or, if◌then◌else◌};
ghost use Rattle.dq_check.specs.Fates.{fate_of};
ghost use Rattle.dq_check.specs.Losses as specified;
ghost use Rattle.dq_check.specs.Losses.{AreLosses, fate_by_losses, lost_of, was_wanting};

use crate::due::Fated;
use dq_base::Memory;
use dq_journal::{Cause, Entry};
use std::alloc::Global;
use std::collections::{BTreeMap, BTreeSet};

/// What became of the flights of a journal: how many links were lost for each, and for which memory was wanting.
#[derive(Drop)]
pub(crate) struct Losses {
    lost: BTreeMap<u64, u64>,
    wanting: BTreeSet<u64>,
}

// Puts the flight for which a link is lost at the end, if the entry is such a one.
fn push_lost(flights: &mut Vec<u64>, entry: &Entry) -> Result<(), Memory>
    ensures { OnOk result (flights.new.items ≡ flights.old.items ++ specified.lost_in entry.now) }
{
    if let Entry::Lose { flight, .. } = entry {
        flights.push(*flight)?;
    }
    Ok(())
}

// The flights for which links are lost, once for each link.
fn lost_in(alloc: Global, journal: &[Entry]) -> Result<Vec<u64>, Memory>
    ensures { IfOk result (λ flights. flights.items ≡ flat_map specified.lost_in journal.now) }
{
    let mut flights = Vec::new(alloc);
    for entry in journal {
        push_lost(&mut flights, entry)?;
    }
    Ok(flights)
}

// Puts the flight that falls for want of memory at the end, if the entry is such a one.
fn push_wanting(flights: &mut Vec<u64>, entry: &Entry) -> Result<(), Memory>
    ensures { OnOk result (flights.new.items ≡ flights.old.items ++ specified.wanting_in entry.now) }
{
    if let Entry::Fall {
        flight,
        cause: Cause::Memory,
        ..
    } = entry
    {
        flights.push(*flight)?;
    }
    Ok(())
}

// The flights that fall for want of memory.
fn wanting_in(alloc: Global, journal: &[Entry]) -> Result<Vec<u64>, Memory>
    ensures { IfOk result (λ flights. flights.items ≡ flat_map specified.wanting_in journal.now) }
{
    let mut flights = Vec::new(alloc);
    for entry in journal {
        push_wanting(&mut flights, entry)?;
    }
    Ok(flights)
}

// Counts a number once more.
fn count(counts: &mut BTreeMap<u64, u64>, number: u64) -> Result<(), Memory>
    requires room { unwrap_or (get nat_cmp counts.old number) 0 + 1 < 2 ^ 64 }
    ensures { OnOk result ((q : ℕ) → unwrap_or (get nat_cmp counts.new q) 0 ≡ unwrap_or (get nat_cmp counts.old q) 0 + (if nat_eq number q then 1 else 0)) }
{
    let before = counts.get(&number).copied().unwrap_or(0);
    counts.insert(number, before + 1)?;
    Ok(())
}

// How often each number stands there.
fn counts_of(alloc: Global, numbers: &[u64]) -> Result<BTreeMap<u64, u64>, Memory>
    ensures { IfOk result (λ counts. (q : ℕ) → unwrap_or (get nat_cmp counts q) 0 ≡ count_by (λ n. nat_eq n q) numbers.now) }
{
    let mut counts = BTreeMap::new(alloc);
    for number in numbers {
        count(&mut counts, *number)?;
    }
    Ok(counts)
}

// Puts a number into a set.
fn add(set: &mut BTreeSet<u64>, number: u64) -> Result<(), Memory>
    ensures { OnOk result ((q : ℕ) → contains nat_cmp set.new q ≡ (contains nat_cmp set.old q || nat_eq number q)) }
{
    set.insert(number)?;
    Ok(())
}

// The set of these numbers.
fn set_of(alloc: Global, numbers: &[u64]) -> Result<BTreeSet<u64>, Memory>
    ensures { IfOk result (λ set. (q : ℕ) → contains nat_cmp set q ≡ list_any (λ n. nat_eq n q) numbers.now) }
{
    let mut set = BTreeSet::new(alloc);
    for number in numbers {
        add(&mut set, *number)?;
    }
    Ok(set)
}

impl Losses {
    /// Those of a journal. The cost is its length times its logarithm.
    pub(crate) fn new(alloc: Global, journal: &[Entry]) -> Result<Losses, Memory>
        ensures { IfOk result (AreLosses journal.now) }
    {
        let lost = lost_in(alloc, journal)?;
        let wanting = wanting_in(alloc, journal)?;
        let counts = counts_of(alloc, lost.as_slice())?;
        let set = set_of(alloc, wanting.as_slice())?;
        Ok(Losses {
            lost: counts,
            wanting: set,
        })
    }

    // How many links were lost for a flight.
    fn lost(&self, flight: u64) -> u64
        ensures { result ≡ lost_of self.now flight }
    {
        self.lost.get(&flight).copied().unwrap_or(0)
    }

    // Whether memory was wanting for it.
    fn is_wanting(&self, flight: u64) -> bool
        ensures { result ≡ was_wanting self.now flight }
    {
        self.wanting.contains(&flight)
    }

    /// What may be said of a zone whose own flight is this one, if it has one. In logarithmic time.
    pub(crate) fn fate(&self, own: Option<u64>) -> Fated
        ensures { fate_of result ≡ fate_by_losses self.now own }
    {
        let Some(flight) = own else {
            return Fated::Answered;
        };
        if self.lost(flight) == 2 {
            return Fated::Failed;
        }
        if self.is_wanting(flight) {
            return Fated::Wanting;
        }
        Fated::Answered
    }
}
