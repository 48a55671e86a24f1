ghost use Rattle.std.specs.Arc.{arc_value};
ghost use Rattle.std.specs.Prelude.{◌≡◌, ◌<◌, [], ◌∷◌, ◌++◌, Some, IfOk, OnErr, OnOk, length, option_map, slice_get};

use dq_base::{Duplicate, Memory};
use std::alloc::Global;
use std::marker::Model;
use std::sync::Arc;

/// Shared items in order. Contracts see what each owner owns; places count from 0.
#[derive(Drop)]
pub(crate) struct Owners<T> {
    owners: Vec<Arc<T>>,
}

impl<T> Model for Owners<T> {
    ghost use Rattle.std.specs.Prelude.{List};
    ghost use Rattle.std.specs.Coded.{coded_list};

    ghost Value = { List T };

    ghost coded = { coded_list T.code };

    ghost use Rattle.dq_extract.specs.Owners.{values_of};

    ghost view = { λ l. values_of l.owners.items };
}

impl<T> Owners<T> {
    /// No owners. It takes no memory.
    pub(crate) fn new(alloc: Global) -> Owners<T>
        ensures { result ≡ [] }
    {
        Owners {
            owners: Vec::new(alloc),
        }
    }

    /// Where the list takes memory.
    pub(crate) fn alloc(&self) -> Global {
        *self.owners.allocator()
    }

    /// How many owners there are.
    pub(crate) fn len(&self) -> u64
        ensures { result ≡ length self.now }
    {
        self.owners.len() as u64
    }

    /// The owner at a place, or none exactly where the place isn't below the length.
    pub(crate) fn get(&self, place: u64) -> Option<&Arc<T>>
        ensures { option_map (λ owner. arc_value owner.now) result ≡ slice_get self.now place }
    {
        self.owners.get(place as usize)
    }

    /// One more owner of the item at a place.
    pub(crate) fn share(&self, place: u64) -> Result<Arc<T>, Memory>
        requires { place < length self.now }
        ensures { IfOk result (λ owner. slice_get self.now place ≡ Some (arc_value owner)) }
    {
        let Some(owner) = self.owners.get(place as usize) else {
            unreachable!();
        };
        match Arc::try_clone(owner) {
            Ok(more) => Ok(more),
            Err(_) => Err(Memory),
        }
    }
}

impl<T: Drop> Owners<T> {
    /// Puts an owner at the end, in constant time but for growth. An `Err` changes nothing.
    pub(crate) fn push(&mut self, owner: Arc<T>) -> Result<(), Memory>
        ensures ok { OnOk result (self.new ≡ self.old ++ arc_value owner ∷ []) }
        ensures err { OnErr result (self.new ≡ self.old) }
    {
        match self.owners.push(owner) {
            Ok(()) => Ok(()),
            Err(_) => Err(Memory),
        }
    }
}

impl<T: Drop> Duplicate for Owners<T> {
    /// One more owner of each item. The items aren't copied.
    fn duplicate(&self, alloc: Global) -> Result<Owners<T>, Memory> {
        let mut list = Owners::new(alloc);
        for place in 0..self.len() {
            list.push(self.share(place)?)?;
        }
        Ok(list)
    }
}
