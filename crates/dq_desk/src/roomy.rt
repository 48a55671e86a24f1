ghost use Rattle.std.specs.Prelude.{◌≡◌, ◌++◌, ◌+◌, ◌-◌, ◌≤◌, ◌<◌, [], ◌∷◌, length, OnOk};

use dq_base::{List, Memory};
use std::alloc::Global;
use std::marker::Model;

/// A list with room that was taken before: contracts see the items and the room.
#[derive(Drop)]
pub(crate) struct Roomy<T> {
    items: Vec<T>,
}

impl<T> Model for Roomy<T> {
    ghost use Rattle.std.specs.Prelude.{vec_len, vec_capacity, ◌-◌};
    ghost use Rattle.dq_desk.specs.Roomed.{Roomed, roomed_code};

    ghost Value = { Roomed T };

    ghost coded = { roomed_code T.code };

    ghost view = { λ it. record { items = it.items.items; spare = vec_capacity it.items - vec_len it.items } };
}

impl<T> Roomy<T> {
    /// An empty list. It takes no memory.
    pub(crate) fn new(alloc: Global) -> Roomy<T>
        ensures { result.items ≡ [] }
    {
        Roomy {
            items: Vec::new(alloc),
        }
    }

    /// Takes room for so many more items at least. An `Err` changes nothing.
    pub(crate) fn reserve(&mut self, count: u64) -> Result<(), Memory>
        ensures items { self.new.items ≡ self.old.items }
        ensures ok { OnOk result (count ≤ self.new.spare) }
        ensures keeps { self.old.spare ≤ self.new.spare }
    {
        self.items.reserve(count as usize)?;
        Ok(())
    }

    /// The items alone. It takes no memory.
    pub(crate) fn into_list(self) -> List<T>
        ensures { result ≡ self.items }
    {
        let Roomy { items } = self;
        List::from_vec(items)
    }
}

impl<T: Drop> Roomy<T> {
    /// Puts an item at the end, in room that was taken before.
    pub(crate) fn push(&mut self, item: T)
        requires { 0 < self.old.spare }
        ensures items { self.new.items ≡ self.old.items ++ item ∷ [] }
        ensures spare { self.old.spare ≤ self.new.spare + 1 }
    {
        self.items.push_reserved(item);
    }
}
