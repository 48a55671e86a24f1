ghost use Rattle.std.specs.Arc.{arc_value};
ghost use Rattle.std.specs.Prelude.{◌≡◌, ◌<◌, ◌≤◌, IfOk, length, replicate};
ghost use Rattle.dq_base.specs.Answers.{answer};
ghost use Rattle.dq_base.specs.Scripts as scripts;
ghost use Rattle.dq_journal.specs.Journals as journals;
ghost use Rattle.dq_machine.specs.Machine.{IsReached};
ghost use Rattle.dq_machine.specs.Parts.{AreParts, IsTaken, TakesIf};
ghost use Rattle.dq_machine.specs.Publishing.{rows_at, stamp_in};
ghost use Rattle.dq_machine.specs.State.{no_work, start};

use crate::cells::answer_at;
use crate::links::Links;
use crate::parts::Parts;
use crate::shelved::Shelves;
use crate::stands::no_stands;
use crate::versions::Versions;
use crate::work::Work;
use crate::works::Works;
use dq_base::{Canon, List, Memory, Table};
use dq_extract::Loaded;
use dq_journal::Entry;
use std::alloc::Global;
use std::marker::Model;
use std::sync::Arc;

/// The list machine: what was loaded, and the state that a legal journal leaves.
#[derive(Drop)]
pub struct Machine {
    loaded: Arc<Loaded>,
    parts: Parts,
}

impl Model for Machine {
    ghost use Rattle.std.specs.Arc.{arc_value};
    ghost use Rattle.dq_machine.specs.Parts.{AreParts, MachineOf};

    ghost Value = { MachineOf };

    ghost view = { λ m. record { loaded = arc_value m.loaded; state = m.parts.state } };

    ghost invariant = { λ m. AreParts (arc_value m.loaded) m.parts };
}

/// The lane that an entry is of.
pub fn lane_of(entry: &Entry) -> u32
    ensures { result ≡ journals.lane_of entry.now }
{
    match entry {
        Entry::Publish { lane, .. } => *lane,
        Entry::Admit { lane, .. } => *lane,
        Entry::Lease { lane, .. } => *lane,
        Entry::Give { lane, .. } => *lane,
        Entry::Lose { lane, .. } => *lane,
        Entry::Land { lane, .. } => *lane,
        Entry::Fall { lane, .. } => *lane,
        Entry::Take { lane, .. } => *lane,
        Entry::End { lane } => *lane,
    }
}

// Whether there is such a lane among so many.
fn is_lane(count: u64, lane: u32) -> bool
    ensures { result ≡ scripts.is_lane count lane }
{
    0 < lane && u64::from(lane) <= count
}

// No work, for so many lanes.
fn no_works(alloc: Global, count: u64) -> Result<Works, Memory>
    ensures { IfOk result (λ works. works ≡ replicate count no_work) }
{
    let mut works = List::with_capacity(alloc, count)?;
    for lane in 0..count {
        let _ = lane;
        works.push(Work::new(alloc))?;
    }
    Ok(works)
}

impl Parts {
    // Takes an entry of a lane of the script. `false` and an `Err` may leave it done in part.
    fn take(&mut self, alloc: Global, loaded: &Loaded, entry: &Entry) -> Result<bool, Memory>
        requires above { 0 < journals.lane_of entry.now }
        requires within { journals.lane_of entry.now ≤ length self.old.state.works }
        requires parts { AreParts loaded.now self.old }
        ensures { IfOk result (λ may. TakesIf may loaded.now self.old self.new entry.now) }
    {
        match entry {
            Entry::Publish { lane, step } => self.publish_entry(alloc, loaded, *lane, *step),
            Entry::Admit { lane, step, met } => self.admit_entry(alloc, loaded, *lane, *step, met),
            Entry::Lease {
                lane,
                flight,
                link,
                fresh,
            } => Ok(self.lease_entry(alloc, loaded, *lane, *flight, *link, *fresh)),
            Entry::Give {
                lane,
                flight,
                link,
                ran,
                runs,
                calls,
            } => self.give_entry(alloc, loaded, *lane, *flight, *link, *ran, *runs, *calls),
            Entry::Lose {
                lane,
                flight,
                link,
                dialled,
                ran,
                runs,
                calls,
            } => self.lose_entry(
                alloc, loaded, *lane, *flight, *link, *dialled, *ran, *runs, *calls,
            ),
            Entry::Land {
                lane,
                flight,
                cells,
                clever,
                literal,
            } => self.land_entry(alloc, loaded, *lane, *flight, *cells, *clever, *literal),
            Entry::Fall {
                lane,
                flight,
                cause,
            } => self.fall_entry(loaded, *lane, *flight, *cause),
            Entry::Take { lane, flight, next } => {
                self.take_entry(alloc, loaded, *lane, *flight, *next)
            }
            Entry::End { lane } => Ok(self.end_entry(loaded, *lane)),
        }
    }
}

impl Machine {
    /// The machine before anything has happened. The cost is linear in the lanes and the extracts' columns.
    pub fn new(alloc: Global, loaded: Arc<Loaded>) -> Result<Machine, Memory>
        ensures { IfOk result (λ machine. machine ≡ record { loaded = arc_value loaded; state = start (arc_value loaded) }) }
    {
        let stands = no_stands(alloc, &loaded.script().schemas)?;
        let works = no_works(alloc, loaded.script().lanes.len())?;
        let parts = Parts {
            versions: Versions::new(alloc),
            stands,
            works,
            shelves: Shelves {
                clever: List::new(alloc),
                literal: List::new(alloc),
            },
            flown: List::new(alloc),
            started: 0,
            links: Links::new(alloc),
        };
        Ok(Machine { loaded, parts })
    }

    /// The machine after an entry, or none exactly where the entry may not come. The cost is that of the entry's kind: none is above
    /// what is open, what stands on the shelves, and for a landing the evaluation of its answer.
    pub fn take(self, alloc: Global, entry: &Entry) -> Result<Option<Machine>, Memory>
        ensures { IfOk result (λ after. IsTaken self entry.now after) }
    {
        let Machine { loaded, parts } = self;
        let mut parts = parts;
        if !is_lane(parts.works.len(), lane_of(entry)) {
            return Ok(None);
        }
        if !parts.take(alloc, &loaded, entry)? {
            return Ok(None);
        }
        Ok(Some(Machine { loaded, parts }))
    }

    /// A source's stamp: how many publications of any source there were up to and with its latest, or 0. In constant time.
    pub fn stamp(&self, source: u32) -> u64
        ensures { result ≡ stamp_in self.now.state.versions source }
    {
        self.parts.versions.stamp(source)
    }

    /// The answer over the rows that the publication of that stamp left; before any there are none. The cost is that of evaluating it.
    pub fn answer_at(&self, alloc: Global, stamp: u64, key: &Canon) -> Result<Table, Memory>
        ensures { IfOk result (λ table. table ≡ answer key.now (rows_at self.now.state.versions stamp)) }
    {
        let table = answer_at(alloc, &self.parts.versions, stamp, key)?;
        Ok(table)
    }
}
