ghost use Rattle.std.specs.Arc.{arc_value};
ghost use Rattle.std.specs.Option.{option_map};
ghost use Rattle.std.specs.Prelude.{◌≡◌, ◌+◌, ◌<◌, ◌++◌, ◌^◌, All, IfOk, OnOk, find, length, position};
ghost use Rattle.dq_flight.specs.Flights.{replaced};
ghost use Rattle.dq_machine.specs.Admitting.{group_flights, joined_by, may_join, met_flight, numbers_from, with_joiner};
ghost use Rattle.dq_machine.specs.Admitting as specified;
ghost use Rattle.dq_machine.specs.State.{is_numbered};
ghost use Rattle.dq_machine.specs.Views.{course_of};

use crate::flown::{Course, Flown};
use crate::joined::Joined;
use crate::versions::Versions;
use dq_base::{Canon, List, Memory, Numbers64};
use dq_cover::covers;
use dq_fuse::Groups;
use dq_journal::Met;
use std::alloc::Global;
use std::sync::Arc;

/// Whether a flight on this course is under way.
fn is_running(course: Course) -> bool
    ensures { result ≡ specified.runs (course_of course) }
{
    match course {
        Course::Running => true,
        Course::Landed => false,
        Course::Fallen => false,
    }
}

/// Whether a flight is running, of that stamp, and to a query that covers this one.
fn fits(flight: &Flown, stamp: u64, q: &Canon) -> bool
    ensures { result ≡ may_join stamp q.now flight.now }
{
    is_running(flight.course) && flight.stamp == stamp && covers(&flight.key, q)
}

/// The number of the first flight that a query of that stamp may join.
fn first_fit(flown: &[Flown], stamp: u64, q: &Canon) -> Option<u64>
    ensures { result ≡ option_map (λ f. f.number) (find (may_join stamp q.now) flown.now) }
{
    flown
        .iter()
        .find(|flight| fits(flight, stamp, q))
        .map(|flight| flight.number)
}

/// The join of the lowest running flight of that stamp that covers a query; none where there is none.
pub(crate) fn look_flights(flown: &List<Flown>, stamp: u64, q: &Canon) -> Option<Met>
    ensures { result ≡ met_flight (find (may_join stamp q.now) flown.now) }
{
    first_fit(flown.as_slice(), stamp, q).map(Met::Join)
}

/// The place of the flight of that number.
pub(crate) fn place_of(flown: &[Flown], number: u64) -> Option<usize>
    ensures { result ≡ position (is_numbered number) flown.now }
{
    flown.iter().position(|flight| flight.number == number)
}

/// One more waits for a flight.
fn add_joiner(flight: &mut Flown)
    requires { flight.old.joiners + 1 < 2 ^ 64 }
    ensures { flight.new ≡ record flight.old { joiners = flight.old.joiners + 1 } }
{
    flight.joiners += 1;
}

/// One more waits for the flight of that number, if there is one.
fn join(flown: &mut List<Flown>, number: u64)
    requires { All (λ f. f.joiners + 1 < 2 ^ 64) flown.old }
    ensures { flown.new ≡ replaced (is_numbered number) with_joiner flown.old }
{
    let Some(place) = place_of(flown.as_slice(), number) else {
        return;
    };
    add_joiner(flown.item_mut(place as u64));
}

/// Each join is one joiner more of its flight. It takes no memory, and looks for each flight by its number.
fn join_all(flown: &mut List<Flown>, joins: &[Joined])
    requires { All (λ f. f.joiners + length joins.now < 2 ^ 64) flown.old }
    ensures { flown.new ≡ joined_by flown.old joins.now }
{
    for one in joins {
        join(flown, one.flight);
    }
}

/// The flight of a group, just started.
fn group_flight(number: u64, lane: u32, stamp: u64, key: &Arc<Canon>) -> Result<Flown, Memory>
    ensures { IfOk result (λ f. f ≡ specified.taking_off number lane stamp (arc_value key.now)) }
{
    Ok(Flown {
        number,
        lane,
        stamp,
        key: Arc::try_clone(key)?,
        course: Course::Running,
        joiners: 0,
    })
}

/// Puts one flight for each group at the end, from this number on.
fn start_groups(
    flown: &mut List<Flown>,
    versions: &Versions,
    lane: u32,
    first: u64,
    groups: &Groups,
) -> Result<(), Memory>
    requires { first + length groups.now < 2 ^ 64 }
    ensures { OnOk result (flown.new ≡ flown.old ++ group_flights versions.now lane first groups.now) }
{
    let mut number = first;
    for group in groups.as_slice() {
        let stamp = versions.stamp(group.key().query().source);
        flown.push(group_flight(number, lane, stamp, group.key())?)?;
        number += 1;
    }
    Ok(())
}

/// The numbers of so many flights as there are groups, from this one on.
pub(crate) fn numbers_of(alloc: Global, first: u64, groups: &Groups) -> Result<Numbers64, Memory>
    requires { first + length groups.now < 2 ^ 64 }
    ensures { IfOk result (λ numbers. numbers ≡ numbers_from first groups.now) }
{
    let mut numbers = List::new(alloc);
    for place in 0..groups.len() {
        numbers.push(first + place)?;
    }
    Ok(numbers)
}

/// The flights after an admission of a lane: its joins are counted, and its groups' flights put at the end, the first one
/// numbered behind those that were started. Answers how many are started then. An `Err` leaves some of that done.
pub(crate) fn admit_flights(
    flown: &mut List<Flown>,
    versions: &Versions,
    lane: u32,
    started: u64,
    joins: &List<Joined>,
    groups: &Groups,
) -> Result<u64, Memory>
    requires numbers { started + 1 + length groups.now < 2 ^ 64 }
    requires joiners { All (λ f. f.joiners + length joins.now < 2 ^ 64) flown.old }
    ensures flown { OnOk result (flown.new ≡ joined_by flown.old joins.now ++ group_flights versions.now lane (started + 1) groups.now) }
    ensures started { IfOk result (λ count. count ≡ started + length groups.now) }
{
    join_all(flown, joins.as_slice());
    start_groups(flown, versions, lane, started + 1, groups)?;
    Ok(started + groups.len())
}
