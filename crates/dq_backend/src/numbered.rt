ghost use Rattle.std.specs.Option.{option_copied};
ghost use Rattle.std.specs.Prelude.{◌≡◌, [], OnErr, OnOk};
ghost use Rattle.dq_link.specs.Pairs.{lookup, with_pair, without};

use dq_base::Memory;
use std::alloc::Global;
use std::marker::Model;

/// Items under numbers. Contracts see the pairs of number and item.
#[derive(Drop)]
pub(crate) struct Numbered<T> {
    pairs: Vec<(u64, T)>,
}

impl<T> Model for Numbered<T> {
    ghost use Rattle.std.specs.Prelude.{List, ℕ};
    ghost use Rattle.std.specs.Coded.{coded_list, coded×, coded_ℕ};

    ghost Value = { List (ℕ × T) };

    ghost coded = { coded_list (coded× coded_ℕ T.code) };

    ghost view = { λ n. n.pairs.items };
}

impl<T> Numbered<T> {
    /// No items. It takes no memory.
    pub(crate) fn new(alloc: Global) -> Numbered<T>
        ensures { result ≡ [] }
    {
        Numbered {
            pairs: Vec::new(alloc),
        }
    }

    /// The item under a number.
    pub(crate) fn find(&self, number: u64) -> Option<&T>
        ensures { option_copied result ≡ lookup self.now number }
    {
        let found = self.pairs.iter().find(|pair| pair.0 == number);
        match found {
            None => None,
            Some(pair) => Some(&pair.1),
        }
    }
}

impl<T: Drop> Numbered<T> {
    /// Puts an item under a number, in place of the one that was there. An `Err` changes nothing.
    pub(crate) fn set(&mut self, number: u64, item: T) -> Result<(), Memory>
        ensures ok { OnOk result (self.new ≡ with_pair self.old number item) }
        ensures err { OnErr result (self.new ≡ self.old) }
    {
        self.pairs.reserve(1)?;
        self.pairs.retain(|pair| pair.0 != number);
        self.pairs.push_reserved((number, item));
        Ok(())
    }

    /// Takes the item under a number out.
    pub(crate) fn remove(&mut self, number: u64)
        ensures { self.new ≡ without self.old number }
    {
        self.pairs.retain(|other| other.0 != number);
    }
}
