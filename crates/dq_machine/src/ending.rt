ghost use Rattle.std.specs.List.{remove};
ghost use Rattle.std.specs.Prelude.{◌≡◌, ◌+◌, ◌<◌, IfOk, OnOk, length};
ghost use Rattle.dq_machine.specs.Landing as landing;
ghost use Rattle.dq_machine.specs.Taking as taking;
ghost use Rattle.dq_machine.specs.Views.{course_of};

use crate::flights::place_of;
use crate::flown::{Course, Flown};
use dq_base::{List, Memory};
use std::sync::Arc;

// The same flight again.
fn copy_of(flight: &Flown) -> Result<Flown, Memory>
    ensures { IfOk result (λ copy. copy ≡ flight.now) }
{
    Ok(Flown {
        number: flight.number,
        lane: flight.lane,
        stamp: flight.stamp,
        key: Arc::try_clone(&flight.key)?,
        course: flight.course,
        joiners: flight.joiners,
    })
}

// Puts the flight behind a place there too.
fn pull(flown: &mut List<Flown>, place: u64) -> Result<(), Memory>
    requires { place + 1 < length flown.old }
    ensures removed { OnOk result (remove flown.new (place + 1) ≡ remove flown.old place) }
    ensures len { length flown.new ≡ length flown.old }
{
    let _len = flown.len();
    let Some(next) = flown.get(place + 1) else {
        return Ok(());
    };
    let copy = copy_of(next)?;
    *flown.item_mut(place) = copy;
    Ok(())
}

// Takes the flight at a place out.
fn take_out(flown: &mut List<Flown>, place: u64) -> Result<(), Memory>
    requires { place < length flown.old }
    ensures { OnOk result (flown.new ≡ remove flown.old place) }
{
    let last = flown.len() - 1;
    for i in place..last {
        pull(flown, i)?;
    }
    flown.truncate(last);
    Ok(())
}

// So many wait for the flight.
fn set_joiners(flight: &mut Flown, joiners: u64)
    ensures { flight.new ≡ record flight.old { joiners = joiners } }
{
    flight.joiners = joiners;
}

// The flight is on that course.
fn set_course(flight: &mut Flown, course: Course)
    ensures { flight.new ≡ record flight.old { course = course_of course } }
{
    flight.course = course;
}

/// Lets a joiner go from the flight of that number, which goes with the last one. The cost is linear in the flights. An `Err`
/// leaves some of them twice.
pub(crate) fn let_go(flown: &mut List<Flown>, number: u64) -> Result<(), Memory>
    ensures { OnOk result (flown.new ≡ taking.let_go number flown.old) }
{
    let Some(place) = place_of(flown.as_slice(), number) else {
        return Ok(());
    };
    let flight = &flown.as_slice()[place];
    let joiners = flight.joiners.saturating_sub(1);
    if joiners == 0 {
        take_out(flown, place as u64)?;
        return Ok(());
    }
    set_joiners(flown.item_mut(place as u64), joiners);
    Ok(())
}

/// Ends the flight of that number. It stays as long as somebody waits for it. The cost is linear in the flights. An `Err`
/// leaves some of them twice.
pub(crate) fn end(flown: &mut List<Flown>, number: u64, course: Course) -> Result<(), Memory>
    ensures { OnOk result (flown.new ≡ landing.ended (course_of course) number flown.old) }
{
    let Some(place) = place_of(flown.as_slice(), number) else {
        return Ok(());
    };
    let flight = &flown.as_slice()[place];
    if flight.joiners == 0 {
        take_out(flown, place as u64)?;
        return Ok(());
    }
    set_course(flown.item_mut(place as u64), course);
    Ok(())
}
