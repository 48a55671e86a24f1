ghost use Rattle.std.specs.Prelude.{◌≡◌, ◌++◌, ◌∷◌, [], false, MatchOption, OnErr, OnOk, Some, length, map, slice_get};
ghost use Rattle.std.specs.List.{list_any};
ghost use Rattle.std.specs.Str.{bytes_eq};
ghost use Rattle.std.specs.String.{string_bytes};
ghost use Rattle.dq_column.specs.Stored.{AreDifferent};

use dq_base::Memory;
use indexmap::IndexSet;
use std::alloc::Global;
use std::marker::Model;

/// Different texts in the order in which they came. Contracts see the list; places count from 0.
#[derive(Drop)]
pub(crate) struct Arrivals {
    seen: IndexSet<String>,
}

impl Model for Arrivals {
    ghost use Rattle.std.specs.Prelude.{ℕ, List, map};
    ghost use Rattle.std.specs.String.{string_bytes};
    ghost use Rattle.dq_column.specs.Stored.{AreDifferent};

    ghost Value = { List (List ℕ) };

    ghost view = { λ a. map string_bytes a.seen.keys };

    ghost invariant = { λ a. AreDifferent (map string_bytes a.seen.keys) };
}

impl Arrivals {
    /// No texts. It takes no memory.
    pub(crate) fn new(alloc: Global) -> Arrivals
        ensures { result ≡ [] }
    {
        Arrivals {
            seen: IndexSet::new(alloc),
        }
    }

    /// How many texts there are.
    pub(crate) fn len(&self) -> u64
        ensures { result ≡ length self.now }
    {
        self.seen.len() as u64
    }

    /// The texts.
    pub(crate) fn as_slice(&self) -> &[String]
        ensures texts { map string_bytes result.now ≡ self.now }
        ensures different { AreDifferent self.now }
    {
        self.seen.as_slice()
    }

    /// The place of a text, or none exactly where it isn't there.
    pub(crate) fn find(&self, text: &str) -> Option<u64>
        ensures { MatchOption result (list_any (bytes_eq text.now) self.now ≡ false) (λ place. slice_get self.now place ≡ Some text.now) }
    {
        match self.seen.get_index_of(text) {
            Some(place) => Some(place as u64),
            None => None,
        }
    }

    /// Puts a text that isn't there at the end. An `Err` changes nothing.
    pub(crate) fn add(&mut self, alloc: Global, text: &str) -> Result<(), Memory>
        requires { list_any (bytes_eq text.now) self.old ≡ false }
        ensures ok { OnOk result (self.new ≡ self.old ++ text.now ∷ []) }
        ensures err { OnErr result (self.new ≡ self.old) }
    {
        let owned = String::from_str(alloc, text)?;
        match self.seen.insert(owned) {
            Ok(_) => Ok(()),
            Err(_) => Err(Memory),
        }
    }
}
