ghost use Rattle.std.specs.Arc.{arc_value};
ghost use Rattle.std.specs.Prelude.{◌≡◌, IfOk};
ghost use Rattle.dq_check.specs.Ends.{IsWalked};
ghost use Rattle.dq_check.specs.Walks.{stamps_at, stamps_of};

use dq_base::{List, Memory, Numbers64, Query, Step};
use dq_extract::Loaded;
use dq_journal::Entry;
use dq_machine::{Machine, step_at};
use std::alloc::Global;
use std::marker::Model;
use std::sync::Arc;

/// A legal journal's machine behind its last entry, and the stamps of the zones of each batch at its entry.
#[derive(Drop)]
pub(crate) struct History {
    pub(crate) machine: Machine,
    pub(crate) stamps: List<Numbers64>,
}

impl Model for History {
    ghost use Rattle.dq_check.specs.Walks.{HistoryOf};

    ghost Value = { HistoryOf };

    ghost view = { λ h. record { machine = h.machine; stamps = h.stamps } };
}

/// Where walking over a journal leads: behind its last entry, or to the first place, from 1, whose entry may not come.
#[derive(Drop)]
pub(crate) enum Walked {
    Legal(History),
    Illegal(u64),
}

// The stamps of the zones' sources.
fn stamps_of(alloc: Global, machine: &Machine, zones: &[Query]) -> Result<Numbers64, Memory>
    ensures { IfOk result (λ stamps. stamps ≡ stamps_of machine.now.state zones.now) }
{
    let mut stamps = List::new(alloc);
    for zone in zones {
        stamps.push(machine.stamp(zone.source))?;
    }
    Ok(stamps)
}

// Those of the zones of the batch that an entry admits.
fn stamps_at(
    alloc: Global,
    loaded: &Loaded,
    machine: &Machine,
    entry: &Entry,
) -> Result<Numbers64, Memory>
    ensures { IfOk result (λ stamps. stamps ≡ stamps_at loaded.now machine.now.state entry.now) }
{
    let Entry::Admit { lane, step, .. } = entry else {
        return Ok(List::new(alloc));
    };
    match step_at(&loaded.script().lanes, *lane, *step) {
        Some(Step::Batch(zones)) => stamps_of(alloc, machine, zones.as_slice()),
        _ => Ok(List::new(alloc)),
    }
}

/// Walks over a journal. Each entry costs what is open, and a batch its zones.
pub(crate) fn walk(alloc: Global, loaded: &Arc<Loaded>, journal: &[Entry]) -> Result<Walked, Memory>
    ensures { IfOk result (IsWalked (arc_value loaded.now) journal.now) }
{
    let mut machine = Machine::new(alloc, Arc::try_clone(loaded)?)?;
    let mut stamps = List::new(alloc);
    for (place, entry) in journal.iter().enumerate() {
        stamps.push(stamps_at(alloc, loaded, &machine, entry)?)?;
        match machine.take(alloc, entry)? {
            Some(after) => machine = after,
            None => return Ok(Walked::Illegal(place as u64 + 1)),
        }
    }
    Ok(Walked::Legal(History { machine, stamps }))
}
