ghost use Rattle.std.specs.List.{position_or_len};
ghost use Rattle.dq_cache.specs.Entries.{without_last};
ghost use Rattle.std.specs.Prelude.{◌≡◌, ◌<◌, ◌==◌, [], ◌∷◌, IfSome, MatchBool, length, nat_eq, remove};

use dq_base::Numbers64;
use std::alloc::Global;
use std::mem;

/// The entries of one source and stamp: the flights that landed them and their running numbers, the most recent first.
#[derive(Drop)]
pub(crate) struct Shelf {
    pub(crate) flights: Numbers64,
    pub(crate) numbers: Numbers64,
}

/// Puts an item at the front, in place of the one at a place.
fn bring_front(list: &mut Numbers64, place: u64, item: u64)
    requires { place < length list.old }
    ensures { list.new ≡ item ∷ remove list.old place }
{
    let _len = list.len();
    let mut carried = item;
    for i in 0..place + 1 {
        carried = mem::replace(list.item_mut(i), carried);
    }
}

/// The place of a number, or the length.
fn place_of(numbers: &[u64], number: u64) -> u64
    ensures { result ≡ position_or_len (nat_eq number) numbers.now }
{
    for (place, other) in numbers.iter().enumerate() {
        if number == *other {
            return place as u64;
        }
    }
    numbers.len() as u64
}

impl Shelf {
    /// Puts an entry at the front. False is want of memory, which changes nothing.
    pub(crate) fn push(&mut self, number: u64, flight: u64) -> bool
        ensures { MatchBool result (self.new ≡ record { flights = flight ∷ self.old.flights; numbers = number ∷ self.old.numbers }) (self.new ≡ self.old) }
    {
        let place = self.flights.len();
        let last = self.numbers.len();
        if self.flights.push(flight).is_err() {
            return false;
        }
        if self.numbers.push(number).is_err() {
            self.flights.truncate(place);
            return false;
        }
        bring_front(&mut self.flights, place, flight);
        bring_front(&mut self.numbers, last, number);
        true
    }

    /// A shelf of one entry.
    pub(crate) fn of_one(alloc: Global, number: u64, flight: u64) -> Option<Shelf>
        ensures { IfSome result (λ s. s ≡ record { flights = flight ∷ []; numbers = number ∷ [] }) }
    {
        let mut flights = Numbers64::new(alloc);
        let mut numbers = Numbers64::new(alloc);
        flights.push(flight).ok()?;
        numbers.push(number).ok()?;
        Some(Shelf { flights, numbers })
    }

    /// Moves the entry of a number to the front, if it is there; it was landed by that flight.
    pub(crate) fn bring(&mut self, number: u64, flight: u64)
        ensures { position_or_len (nat_eq number) self.old.numbers < length self.old.numbers → length self.old.flights ≡ length self.old.numbers
            → self.new ≡ record {
              flights = flight ∷ remove self.old.flights (position_or_len (nat_eq number) self.old.numbers);
              numbers = number ∷ remove self.old.numbers (position_or_len (nat_eq number) self.old.numbers);
            } }
    {
        let place = place_of(self.numbers.as_slice(), number);
        if place < self.numbers.len() && place < self.flights.len() {
            bring_front(&mut self.flights, place, flight);
            bring_front(&mut self.numbers, place, number);
        }
    }

    /// Takes the last entry out, and answers whether none is left.
    pub(crate) fn drop_last(&mut self) -> bool
        ensures list { self.new ≡ record { flights = without_last self.old.flights; numbers = without_last self.old.numbers } }
        ensures empty { result ≡ (length (without_last self.old.flights) == 0) }
    {
        self.flights.truncate(self.flights.len().saturating_sub(1));
        self.numbers.truncate(self.numbers.len().saturating_sub(1));
        self.flights.len() == 0
    }
}
