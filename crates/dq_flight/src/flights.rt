ghost use Rattle.std.specs.Arc.{arc_value};
ghost use Rattle.std.specs.List.{list_all};
ghost use Rattle.std.specs.Option.{option_copied, option_map};
ghost use Rattle.std.specs.Prelude.{◌≡◌, ◌+◌, ◌-◌, ◌^◌, ◌<◌, ◌≤◌, ◌||◌, [], ◌∷◌, ◌++◌, find, length, nat_le, nat_lt, not, position, true, IfSome, IsSomeAnd, IsTrue, MatchOption, None, OnOk, vec_capacity, vec_len};
ghost use Rattle.dq_flight.specs.Flights.{Fallen, FlightOf, Landed, Running, ascends, ended, fits, flight_of, is_numbered, joined, replaced, runs, taken};
ghost use Rattle.dq_flight.specs.Looks.{LooksAt};
ghost use Rattle.dq_flight.specs.States.{course_of};

use crate::flight::{Flight, State};
use crate::look::Look;
use dq_base::{Canon, Memory, Table};
use std::alloc::Global;
use std::marker::Model;
use std::sync::Arc;

/// The flights that run, and those that ended and have joiners, by ascending number; and the room that was taken for more.
#[derive(Drop)]
pub struct Flights {
    flights: Vec<Flight>,
}

impl Model for Flights {
    ghost use Rattle.std.specs.Prelude.{◌≡◌, ◌-◌, true, vec_capacity, vec_len};
    ghost use Rattle.dq_flight.specs.Flights.{FlightsOf, ascends};

    ghost Value = { FlightsOf };

    ghost view = { λ f. record { flights = f.flights.items; spare = vec_capacity f.flights - vec_len f.flights } };

    ghost invariant = { λ f. ascends f.flights.items ≡ true };
}

/// The flight of a number.
fn flight_at(flights: &[Flight], number: u64) -> Option<&Flight>
    ensures { option_copied result ≡ flight_of number flights.now }
{
    flights.iter().find(|f| f.number() == number)
}

/// The place of the flight of that number.
fn place_of(flights: &[Flight], number: u64) -> Option<usize>
    ensures { result ≡ position (is_numbered number) flights.now }
{
    flights.iter().position(|f| f.number() == number)
}

/// The number of the first running flight of that stamp whose key covers the query.
fn first_fit(flights: &[Flight], stamp: u64, q: &Canon) -> Option<u64>
    ensures { result ≡ option_map (λ f. f.number) (find (fits stamp q.now) flights.now) }
{
    flights
        .iter()
        .find(|f| f.fits(stamp, q))
        .map(|f| f.number())
}

/// One more waits for the flight of that number.
fn wait(flights: &mut Vec<Flight>, number: u64)
    requires { IfSome (flight_of number flights.old.items) (λ f. f.joiners + 1 < 2 ^ 64) }
    ensures items { flights.new.items ≡ replaced (is_numbered number) joined flights.old.items }
    ensures room { vec_capacity flights.old - vec_len flights.old ≤ vec_capacity flights.new - vec_len flights.new }
{
    let Some(place) = place_of(flights.as_slice(), number) else {
        return;
    };
    let joiners = flights[place].joiners() + 1;
    flights[place].set_joiners(joiners);
}

/// Ends the flight of that number.
fn end(flights: &mut Vec<Flight>, number: u64, state: State)
    ensures items { flights.new.items ≡ replaced (is_numbered number) (ended (course_of state)) flights.old.items }
    ensures room { vec_capacity flights.old - vec_len flights.old ≤ vec_capacity flights.new - vec_len flights.new }
{
    let Some(place) = place_of(flights.as_slice(), number) else {
        return;
    };
    if flights[place].joiners() == 0 {
        drop(flights.remove(place));
        return;
    }
    flights[place].set_state(state);
}

/// Lets a joiner go from the flight at a place, if it has ended.
fn let_go(flights: &mut Vec<Flight>, number: u64, place: usize)
    requires { position (is_numbered number) flights.old.items ≡ Some place }
    ensures items { flights.new.items ≡ replaced (is_numbered number) taken flights.old.items }
    ensures room { vec_capacity flights.old - vec_len flights.old ≤ vec_capacity flights.new - vec_len flights.new }
{
    if flights[place].is_running() {
        return;
    }
    let joiners = flights[place].joiners().saturating_sub(1);
    if joiners == 0 {
        drop(flights.remove(place));
        return;
    }
    flights[place].set_joiners(joiners);
}

impl Flights {
    /// No flights, and no room. It takes no memory.
    pub fn new(alloc: Global) -> Flights
        ensures flights { result.flights ≡ [] }
        ensures room { result.spare ≡ 0 }
    {
        Flights {
            flights: Vec::new(alloc),
        }
    }

    /// Takes room for so many more flights at least. An `Err` changes nothing.
    pub fn reserve(&mut self, count: u64) -> Result<(), Memory>
        ensures flights { self.new.flights ≡ self.old.flights }
        ensures ok { OnOk result (count ≤ self.new.spare) }
        ensures keeps { self.old.spare ≤ self.new.spare }
    {
        self.flights.reserve(count as usize)?;
        Ok(())
    }

    /// The lowest number of a running flight of that stamp whose key covers the query; none exactly where there is none.
    ///
    /// It takes no memory, and costs a comparison of the query with each running flight of that stamp.
    pub fn find(&self, stamp: u64, q: &Canon) -> Option<u64>
        ensures found { result ≡ option_map (λ f. f.number) (find (fits stamp q.now) self.now.flights) }
        ensures lowest { IfSome result (λ number. list_all (λ f. not (fits stamp q.now f) || nat_le number f.number) self.now.flights ≡ true) }
    {
        first_fit(self.flights.as_slice(), stamp, q)
    }

    /// The stamp and the key of the flight of that number; none exactly where there is none. It takes no memory, and looks for the
    /// flight by its number.
    pub fn asked(&self, number: u64) -> Option<(u64, &Arc<Canon>)>
        ensures { MatchOption result (flight_of number self.now.flights ≡ None)
            (λ both. IsSomeAnd (flight_of number self.now.flights) (λ f. (both.0 ≡ f.stamp) × (arc_value both.1.now ≡ f.key))) }
    {
        match flight_at(self.flights.as_slice(), number) {
            None => None,
            Some(flight) => Some(flight.asked()),
        }
    }

    /// Starts a flight in room that was taken before. Nobody waits for it yet.
    pub fn start(&mut self, number: u64, lane: u32, stamp: u64, key: Arc<Canon>)
        requires room { 0 < self.old.spare }
        requires above { list_all (λ f. nat_lt f.number number) self.old.flights ≡ true }
        ensures flights { self.new.flights ≡ self.old.flights ++ record { number = number; lane = lane; stamp = stamp; key = arc_value key; course = Running; joiners = 0 } ∷ [] }
        ensures room { self.old.spare ≤ self.new.spare + 1 }
    {
        let flight = Flight::new(number, lane, stamp, key);
        self.flights.push_reserved(flight);
    }

    /// One more waits for a running flight. It takes no memory.
    pub fn join(&mut self, number: u64)
        requires runs { IsSomeAnd (flight_of number self.old.flights) (λ f. runs f.course ≡ true) }
        requires few { IsSomeAnd (flight_of number self.old.flights) (λ f. f.joiners + 1 < 2 ^ 64) }
        ensures flights { self.new.flights ≡ replaced (is_numbered number) joined self.old.flights }
        ensures room { self.old.spare ≤ self.new.spare }
    {
        wait(&mut self.flights, number);
    }

    /// A running flight has landed with a table. It stays while somebody waits for it. It takes no memory.
    pub fn land(&mut self, number: u64, table: Arc<Table>)
        requires { IsSomeAnd (flight_of number self.old.flights) (λ f. runs f.course ≡ true) }
        ensures flights { self.new.flights ≡ replaced (is_numbered number) (ended (Landed (arc_value table))) self.old.flights }
        ensures room { self.old.spare ≤ self.new.spare }
    {
        end(&mut self.flights, number, State::Landed(table));
    }

    /// A running flight has fallen. It stays while somebody waits for it. It takes no memory.
    pub fn fall(&mut self, number: u64)
        requires { IsSomeAnd (flight_of number self.old.flights) (λ f. runs f.course ≡ true) }
        ensures flights { self.new.flights ≡ replaced (is_numbered number) (ended Fallen) self.old.flights }
        ensures room { self.old.spare ≤ self.new.spare }
    {
        end(&mut self.flights, number, State::Fallen);
    }

    /// What a joiner of a flight is told. Unless the flight is running, one waits for it less, and it goes with the last one.
    /// It takes no memory.
    pub fn take(&mut self, number: u64) -> Look
        requires { IsSomeAnd (flight_of number self.old.flights) (λ f. 0 < f.joiners) }
        ensures look { IsSomeAnd (flight_of number self.old.flights) (λ f. LooksAt f.course f.key result) }
        ensures flights { self.new.flights ≡ replaced (is_numbered number) taken self.old.flights }
        ensures room { self.old.spare ≤ self.new.spare }
    {
        let Some(place) = place_of(self.flights.as_slice(), number) else {
            return Look::Running;
        };
        let look = self.flights[place].look();
        let_go(&mut self.flights, number, place);
        look
    }
}

#[cfg(test)]
impl Flights {
    /// Whether the number is above all numbers.
    fn is_above(&self, number: u64) -> bool
        ensures { result ≡ list_all (λ f. nat_lt f.number number) self.now.flights }
    {
        self.flights.iter().all(|f| f.number() < number)
    }

    /// Whether there is room for a flight more.
    fn has_room(&self) -> bool
        ensures { result ≡ nat_lt 0 self.now.spare }
    {
        self.flights.len() < self.flights.capacity()
    }

    /// Whether a flight may be started under that number.
    pub(crate) fn may_start(&self, number: u64) -> bool
        ensures above { IsTrue result → list_all (λ f. nat_lt f.number number) self.now.flights ≡ true }
        ensures room { IsTrue result → 0 < self.now.spare }
    {
        self.is_above(number) && self.has_room()
    }

    /// Whether the flight of that number is running, and how many wait for it.
    pub(crate) fn standing(&self, number: u64) -> Option<(bool, u64)>
        ensures { result ≡ option_map (λ f. (runs f.course, f.joiners)) (flight_of number self.now.flights) }
    {
        let flight = self.flights.iter().find(|f| f.number() == number)?;
        Some((flight.is_running(), flight.joiners()))
    }
}
