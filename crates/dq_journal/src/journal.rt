ghost use Rattle.std.specs.Option.{option_copied};
ghost use Rattle.std.specs.Prelude.{◌≡◌, ◌+◌, ◌^◌, ◌<◌, ◌≤◌, [], ◌∷◌, ◌++◌, length, slice_get, OnOk};
ghost use Rattle.dq_journal.specs.Journals.{IsEntry, AreEntries};

use crate::entry::Entry;
use dq_base::Memory;
use std::alloc::Global;
use std::marker::Model;

/// The journal of a run: its entries in order, and the room that was taken for more. `get(0)` is the entry at place 1.
#[derive(Drop)]
pub struct Journal {
    entries: Vec<Entry>,
}

impl Model for Journal {
    ghost use Rattle.std.specs.Prelude.{vec_len, vec_capacity, ◌-◌};
    ghost use Rattle.dq_journal.specs.Journals.{JournalOf, AreEntries};

    ghost Value = { JournalOf };

    ghost view = { λ j. record { entries = j.entries.items; spare = vec_capacity j.entries - vec_len j.entries } };

    ghost invariant = { λ j. AreEntries j.entries.items };
}

impl Journal {
    /// A journal without entries. It takes no memory.
    pub fn new(alloc: Global) -> Journal
        ensures { result.entries ≡ [] }
    {
        Journal {
            entries: Vec::new(alloc),
        }
    }

    /// How many entries there are.
    pub fn len(&self) -> u64
        ensures len { result ≡ length self.now.entries }
        ensures room { result + self.now.spare < 2 ^ 64 }
        ensures sound { AreEntries self.now.entries }
    {
        let _room = self.entries.capacity();
        self.entries.len() as u64
    }

    /// The entry at a place from 0, or none exactly where the place isn't below the length.
    pub fn get(&self, place: u64) -> Option<&Entry>
        ensures { option_copied result ≡ slice_get self.now.entries place }
    {
        self.entries.get(place as usize)
    }

    /// The entries.
    pub fn as_slice(&self) -> &[Entry]
        ensures { result.now ≡ self.now.entries }
    {
        self.entries.as_slice()
    }

    /// Takes room for so many more entries at least. An `Err` changes nothing.
    pub fn reserve(&mut self, count: u64) -> Result<(), Memory>
        ensures entries { self.new.entries ≡ self.old.entries }
        ensures ok { OnOk result (count ≤ self.new.spare) }
        ensures keeps { self.old.spare ≤ self.new.spare }
    {
        self.entries.reserve(count as usize)?;
        Ok(())
    }

    /// Puts an entry at the end, in room that was taken before.
    pub fn push(&mut self, entry: Entry)
        requires room { 0 < self.old.spare }
        requires sound { IsEntry entry }
        ensures entries { self.new.entries ≡ self.old.entries ++ entry ∷ [] }
        ensures room { self.old.spare ≤ self.new.spare + 1 }
    {
        self.entries.push_reserved(entry);
    }
}
