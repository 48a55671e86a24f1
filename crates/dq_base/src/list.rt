ghost use Rattle.std.specs.Borrow.{Lends, sem};
ghost use Rattle.std.specs.List.{insert};
ghost use Rattle.std.specs.Option.{option_copied};
ghost use Rattle.std.specs.Prelude.{◌≡◌, ◌<◌, ◌≤◌, [], ◌∷◌, ◌++◌, length, slice_get, slice_set, take, OnOk, OnErr, IfOk};
ghost use Rattle.dq_base.specs.Numbered.{numbered};
ghost use Rattle.dq_base.specs.contracts.list.List.{the_row};

use crate::memory::Memory;
use std::alloc::Global;
use std::cmp::Ordering;
use std::marker::Model;

/// A list that grows at its end. Contracts see it as the list of its items; places count from 0.
#[derive(Debug, Drop)]
pub struct List<T> {
    items: Vec<T>,
}

/// A text, as the list of its bytes. It needn't be UTF-8.
pub type Text = List<u8>;

/// What a file or a piece of one holds.
pub type Bytes = List<u8>;

/// Texts in order.
pub type Texts = List<Text>;

/// Numbers of columns, lanes and the like.
pub type Numbers = List<u32>;

/// Numbers of calls, flights and the like.
pub type Numbers64 = List<u64>;

impl<T> Model for List<T> {
    ghost use Rattle.std.specs.Prelude.{List as ListOf};
    ghost use Rattle.std.specs.Coded.{coded_list};

    ghost Value = { ListOf T };

    ghost coded = { coded_list T.code };

    ghost view = { λ l. l.items.items };
}

impl<T> List<T> {
    /// The empty list. It takes no memory.
    pub fn new(alloc: Global) -> List<T>
        ensures { result ≡ [] }
    {
        List {
            items: Vec::new(alloc),
        }
    }

    /// The empty list, with room for so many items.
    pub fn with_capacity(alloc: Global, count: u64) -> Result<List<T>, Memory>
        ensures { IfOk result (λ list. list ≡ []) }
    {
        let items = Vec::with_capacity(alloc, count as usize)?;
        Ok(List { items })
    }

    /// How many items there are.
    pub fn len(&self) -> u64
        ensures { result ≡ length self.now }
    {
        self.items.len() as u64
    }

    /// The item at a place, or none exactly where the place isn't below the length.
    pub fn get(&self, place: u64) -> Option<&T>
        ensures { option_copied result ≡ slice_get self.now place }
    {
        self.items.get(place as usize)
    }

    /// The item of that number, which counts from 1, or none exactly where there is no such item.
    pub fn numbered(&self, number: u32) -> Option<&T>
        ensures { option_copied result ≡ numbered self.now number }
    {
        if number == 0 {
            return None;
        }
        self.get(u64::from(number) - 1)
    }

    /// The items.
    pub fn as_slice(&self) -> &[T]
        ensures { result.now ≡ self.now }
    {
        self.items.as_slice()
    }

    /// The list of a vector's items. It takes no memory.
    pub fn from_vec(items: Vec<T>) -> List<T>
        ensures { result ≡ items.items }
    {
        List { items }
    }

    /// Lends an item to be changed.
    pub fn item_mut(&mut self, place: u64) -> &mut T
        requires { place < length self.old }
        ensures* lends { sem 𝓛 (Lends (the_row T.row) T.row self.entry result (λ w. slice_set self.old place w)) }
        ensures value { slice_get self.old place ≡ Some result.now }
    {
        &mut self.items[place as usize]
    }
}

impl<T: Drop> List<T> {
    /// Puts an item at the end, in constant time but for growth. An `Err` changes nothing.
    pub fn push(&mut self, item: T) -> Result<(), Memory>
        ensures ok { OnOk result (self.new ≡ self.old ++ item ∷ []) }
        ensures err { OnErr result (self.new ≡ self.old) }
    {
        self.items.push(item)?;
        Ok(())
    }

    /// Puts an item in at a place, and moves those behind it. An `Err` changes nothing.
    pub fn insert(&mut self, place: u64, item: T) -> Result<(), Memory>
        requires { place ≤ length self.old }
        ensures ok { OnOk result (self.new ≡ insert self.old place item) }
        ensures err { OnErr result (self.new ≡ self.old) }
    {
        self.items.insert(place as usize, item)?;
        Ok(())
    }

    /// Keeps the first items alone.
    pub fn truncate(&mut self, count: u64)
        ensures { self.new ≡ take count self.old }
    {
        self.items.truncate(count as usize);
    }
}

impl List<u8> {
    /// A text of these bytes.
    pub fn copy_of(alloc: Global, bytes: &[u8]) -> Result<Text, Memory>
        ensures { IfOk result (λ text. text ≡ bytes.now) }
    {
        let items = bytes.to_vec(alloc)?;
        Ok(List { items })
    }

    /// The bytes.
    pub fn bytes(&self) -> &[u8]
        ensures { result.now ≡ self.now }
    {
        self.items.as_slice()
    }

    /// Puts all the bytes at the end, or none.
    pub fn append(&mut self, bytes: &[u8]) -> Result<(), Memory>
        ensures ok { OnOk result (self.new ≡ self.old ++ bytes.now) }
        ensures err { OnErr result (self.new ≡ self.old) }
    {
        self.items.extend_from_slice(bytes)?;
        Ok(())
    }
}

impl<T: PartialEq> PartialEq for List<T> {
    ghost use Rattle.std.specs.Cmp.Lexicographic.{pointwise, lists_per};

    ghost eq = { λ a b. pointwise T.eq a b };

    ghost laws = { lists_per T.laws };

    fn eq(&self, other: &Self) -> bool {
        self.items.as_slice() == other.items.as_slice()
    }
}

impl<T: Eq> Eq for List<T> {
    ghost use Rattle.std.specs.Cmp.Lexicographic.{lists_equiv};

    ghost laws = { lists_equiv T.Eq.laws };
}

impl<T: PartialOrd> PartialOrd for List<T> {
    ghost use Rattle.std.specs.Cmp.Lexicographic.{slice_partial_cmp, lists_po};

    ghost partial_cmp = { λ a b. slice_partial_cmp T.partial_cmp a b };

    ghost laws = { lists_po T.PartialOrd.laws };

    fn partial_cmp(&self, other: &Self) -> Option<Ordering> {
        self.items.as_slice().partial_cmp(&other.items.as_slice())
    }
}

impl<T: Ord> Ord for List<T> {
    ghost use Rattle.std.specs.Cmp.Lexicographic.{slice_cmp, lists_total, lists_agrees, lists_ties};

    ghost cmp = { λ a b. slice_cmp T.cmp a b };

    ghost total = { lists_total T.total };

    ghost matches_partial_cmp = { λ a b. lists_agrees T.matches_partial_cmp a b };

    ghost matches_eq = { λ a b. lists_ties T.cmp T.matches_eq a b };

    fn cmp(&self, other: &Self) -> Ordering {
        self.items.as_slice().cmp(&other.items.as_slice())
    }
}
