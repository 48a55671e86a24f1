ghost use Rattle.std.specs.Prelude.{◌≡◌, [], ◌∷◌, ◌++◌, IfOk};
ghost use Rattle.std.specs.BTreeMap.{get};
ghost use Rattle.std.specs.Ordering.{is_eq};
ghost use Rattle.dq_script.specs.Places.{place_of, is_new};
ghost use Rattle.dq_script.specs.Readings.{kept_if, or_else};

use dq_base::{List, Memory};
use std::alloc::Global;
use std::collections::BTreeMap;
use std::marker::Model;

// Keys in order, and the place from 0 of each, which is looked up in logarithmic time. Contracts see the list of the keys.
#[derive(Drop)]
pub struct Places<K: Ord> {
    keys: List<K>,
    places: BTreeMap<K, u64>,
}

// These places, and that of one more key, where no equal one has a place.
fn placed<K: Ord + Drop>(
    places: BTreeMap<K, u64>,
    key: K,
    place: u64,
) -> Result<BTreeMap<K, u64>, Memory>
    ensures { IfOk result (λ more. (other : K) → get K.cmp more other ≡ or_else (get K.cmp places other) (kept_if (is_eq (K.cmp key other)) place)) }
{
    let mut more = places;
    if more.contains_key(&key) {
        return Ok(more);
    }
    more.insert(key, place)?;
    Ok(more)
}

impl<K: Ord> Model for Places<K> {
    ghost use Rattle.std.specs.Prelude.{◌≡◌, List as ListOf};
    ghost use Rattle.std.specs.BTreeMap.{get};
    ghost use Rattle.dq_script.specs.Places.{place_of};

    ghost Value = { ListOf K };

    ghost view = { λ p. p.keys };

    ghost invariant = { λ p. (key : K) → get K.cmp p.places key ≡ place_of K.cmp p.keys key };
}

impl<K: Ord + Drop> Places<K> {
    // No keys. It takes no memory.
    pub fn new(alloc: Global) -> Places<K>
        ensures { result ≡ [] }
    {
        Places {
            keys: List::new(alloc),
            places: BTreeMap::new(alloc),
        }
    }

    // The place of the first key that is equal.
    pub fn place_of(&self, key: &K) -> Option<u64>
        ensures { result ≡ place_of K.cmp self.now key.now }
    {
        self.places.get(key).copied()
    }

    // Whether no key is equal.
    pub fn is_new(&self, key: &K) -> bool
        ensures { result ≡ is_new K.cmp self.now key.now }
    {
        self.place_of(key).is_none()
    }

    // These keys, and one more at the end, of which a copy is given.
    pub fn with(self, key: K, copy: K) -> Result<Places<K>, Memory>
        requires { copy ≡ key }
        ensures { IfOk result (λ more. more ≡ self ++ key ∷ []) }
    {
        let Places { mut keys, places } = self;
        let places = placed(places, copy, keys.len())?;
        keys.push(key)?;
        Ok(Places { keys, places })
    }

    // The keys in order.
    pub fn as_slice(&self) -> &[K]
        ensures { result.now ≡ self.now }
    {
        self.keys.as_slice()
    }

    // The keys in order.
    pub fn into_list(self) -> List<K>
        ensures { result ≡ self }
    {
        let Places { keys, places } = self;
        drop(places);
        keys
    }
}
