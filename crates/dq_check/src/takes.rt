ghost use Rattle.std.specs.List.{flat_map};
ghost use Rattle.std.specs.Prelude.{◌≡◌, [], ◌∷◌, ◌++◌, IfOk, OnOk, length};
ghost use Rattle.dq_journal.specs.Steps.{entries_of};
ghost use Rattle.dq_machine.specs.Owning.{started_in};
ghost use Rattle.dq_check.specs.Takes.{AreTakes, behind_count, behind_of};

use dq_base::Memory;
use dq_journal::Entry;
use dq_machine::lane_of;
use std::alloc::Global;
use std::marker::Model;

/// What the Takes of a lane start, in order.
#[derive(Drop)]
pub(crate) struct Takes {
    started: Vec<Option<u64>>,
    // For each number of entries, from 0 on, how many of the Takes stand among so many.
    before: Vec<u64>,
}

impl Model for Takes {
    ghost use Rattle.dq_check.specs.Takes.{TakesOf};

    ghost Value = { TakesOf };

    ghost view = { λ t. record { started = t.started.items; before = t.before.items } };
}

// Puts what a Take of a lane starts at the end, if the entry is one.
fn push_started(started: &mut Vec<Option<u64>>, entry: &Entry, lane: u64) -> Result<(), Memory>
    ensures { OnOk result (started.new.items ≡ started.old.items ++ flat_map started_in (entries_of lane (entry.now ∷ []))) }
{
    if u64::from(lane_of(entry)) != lane {
        return Ok(());
    }
    if let Entry::Take { next, .. } = entry {
        started.push(*next)?;
    }
    Ok(())
}

// How many there are.
fn count_of(started: &Vec<Option<u64>>) -> u64
    ensures { result ≡ length started.now.items }
{
    started.as_slice().len() as u64
}

// Those from a count on, where there is one.
fn those_from(started: &[Option<u64>], count: Option<u64>) -> &[Option<u64>]
    ensures { result.now ≡ behind_count started.now count }
{
    let Some(count) = count else {
        return &[];
    };
    let count = count as usize;
    if started.len() < count {
        return &[];
    }
    &started[count..]
}

impl Takes {
    /// Those of a lane. It reads the journal once.
    pub(crate) fn new(alloc: Global, journal: &[Entry], lane: u64) -> Result<Takes, Memory>
        ensures { IfOk result (AreTakes lane journal.now) }
    {
        let mut started = Vec::new(alloc);
        let mut before = Vec::new(alloc);
        for entry in journal {
            before.push(count_of(&started))?;
            push_started(&mut started, entry, lane)?;
        }
        Ok(Takes { started, before })
    }

    /// What those behind so many entries start, in constant time.
    pub(crate) fn behind(&self, place: u64) -> &[Option<u64>]
        ensures { result.now ≡ behind_of self.now place }
    {
        let count = self.before.get(place as usize).copied();
        those_from(self.started.as_slice(), count)
    }
}
