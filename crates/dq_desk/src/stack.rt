ghost use Rattle.std.specs.Prelude.{◌≡◌, ◌+◌, ◌-◌, ◌≤◌, ◌<◌, [], ◌∷◌, reverse, OnOk};
ghost use Rattle.dq_desk.specs.Roomed.{IsPopped};

use dq_base::{List, Memory};
use std::alloc::Global;
use std::marker::Model;

/// A stack with room that was taken before: contracts see the items, the one that was put last first, and the room.
#[derive(Drop)]
pub(crate) struct Stack<T> {
    items: Vec<T>,
}

impl<T> Model for Stack<T> {
    ghost use Rattle.std.specs.Prelude.{vec_len, vec_capacity, reverse, ◌-◌};
    ghost use Rattle.dq_desk.specs.Roomed.{Roomed, roomed_code};

    ghost Value = { Roomed T };

    ghost coded = { roomed_code T.code };

    ghost view = { λ it. record { items = reverse it.items.items; spare = vec_capacity it.items - vec_len it.items } };
}

impl<T> Stack<T> {
    /// An empty stack. It takes no memory.
    pub(crate) fn new(alloc: Global) -> Stack<T>
        ensures { result.items ≡ [] }
    {
        Stack {
            items: Vec::new(alloc),
        }
    }

    /// Takes room for so many more items at least. An `Err` changes nothing.
    pub(crate) fn reserve(&mut self, count: u64) -> Result<(), Memory>
        ensures items { self.new.items ≡ self.old.items }
        ensures ok { OnOk result (count ≤ self.new.spare) }
    {
        self.items.reserve(count as usize)?;
        Ok(())
    }

    /// The items, the one that was put last first. It takes no memory, and moves each item once.
    pub(crate) fn into_list(self) -> List<T>
        ensures { result ≡ self.items }
    {
        let Stack { mut items } = self;
        items.reverse();
        List::from_vec(items)
    }
}

impl<T: Drop> Stack<T> {
    /// Puts an item on top, in room that was taken before.
    pub(crate) fn push(&mut self, item: T)
        requires { 0 < self.old.spare }
        ensures items { self.new.items ≡ item ∷ self.old.items }
        ensures spare { self.old.spare ≤ self.new.spare + 1 }
    {
        self.items.push_reserved(item);
    }

    /// Takes the item on top; none exactly where there is none.
    pub(crate) fn pop(&mut self) -> Option<T>
        ensures { IsPopped self.old self.new result }
    {
        self.items.pop()
    }
}
