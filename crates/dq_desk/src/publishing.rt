ghost use Rattle.std.specs.Prelude.{◌≡◌, [], ◌∷◌, ◌++◌, length, true, IfOk, OnErr, OnOk};
ghost use Rattle.dq_journal.specs.declared.entry.Entry.{Entry};
ghost use Rattle.dq_machine.specs.Machine.{after, allowed};

use crate::desk::Desk;
use dq_base::Memory;
use dq_journal::Entry;
use dq_link::Link;
use dq_machine::{Refresh, Stand, refresh_by_step};
use std::alloc::Global;

impl<L: Link> Desk<L> {
    /// A publish step: its file's rows come in place of those that stand of its source, or behind them, and what the caches have of
    /// the source is dropped. Answers the place of its entry, from 1. Rows are shared, not copied: the cost is linear in the number of
    /// segments that stand of the source, and in the entries of both caches. An `Err` leaves the desk as it was.
    pub fn publish(&mut self, alloc: Global, lane: u32, step: u32) -> Result<u64, Memory>
        requires { allowed self.old.loaded (after self.old.loaded self.old.journal) (Entry.Publish lane step) ≡ true }
        ensures entry { OnOk result (self.new.journal ≡ self.old.journal ++ Entry.Publish lane step ∷ []) }
        ensures place { IfOk result (λ place. place ≡ length self.new.journal) }
        ensures refused { OnErr result (self.new.journal ≡ self.old.journal) }
        ensures loaded { self.new.loaded ≡ self.old.loaded }
    {
        let Refresh { source, extract } = refresh_by_step(
            alloc,
            &self.loaded,
            self.stands.as_slice(),
            lane,
            step,
        )?;
        let Some(room) = self.owed.checked_add(1) else {
            return Err(Memory);
        };
        self.journal.reserve(room)?;
        let place = self.journal.len() + 1;
        self.published += 1;
        self.stamps[source as usize] = self.published;
        self.stands[source as usize] = Stand::new(extract);
        self.clever.drop_source(source);
        self.literal.drop_source(source);
        self.journal.push(Entry::Publish { lane, step });
        Ok(place)
    }
}
