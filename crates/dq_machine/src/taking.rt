ghost use Rattle.std.specs.Option.{option_copied};
ghost use Rattle.std.specs.Prelude.{◌≡◌, ◌+◌, ◌<◌, ◌≤◌, ◌++◌, ◌-◌, IfOk, OnOk, find, length, nat_eq, slice_set, true};
ghost use Rattle.dq_journal.specs.declared.entry.Entry.{Entry};
ghost use Rattle.dq_machine.specs.Parts.{AreParts, TakesIf};
ghost use Rattle.dq_machine.specs.State.{Landed, Fallen, is_numbered, work_of};
ghost use Rattle.dq_machine.specs.Taking as specified;
ghost use Rattle.dq_machine.specs.Taking.{flights_taken, own_flight, work_taken};
ghost use Rattle.dq_machine.specs.Views.{course_of};

use crate::ending::let_go;
use crate::flown::{Course, Flown};
use crate::parts::Parts;
use crate::work::Work;
use crate::works::{take_join, work_at};
use dq_base::{List, Memory};
use dq_extract::Loaded;
use std::alloc::Global;
use std::sync::Arc;

/// The flight of that number. The cost is linear in the flights.
pub(crate) fn flight_of(flown: &List<Flown>, number: u64) -> Option<&Flown>
    ensures { option_copied result ≡ find (is_numbered number) flown.now }
{
    flown
        .as_slice()
        .iter()
        .find(|flight| flight.number == number)
}

// Whether a landed flight is taken so: no flight starts in its place.
fn takes_landed(started: u64, next: Option<u64>) -> bool
    ensures { result ≡ specified.takes_course started Landed next }
{
    match next {
        None => true,
        Some(_) => false,
    }
}

// Whether a fallen flight is taken so: the next one starts in its place.
fn takes_fallen(started: u64, next: Option<u64>) -> bool
    ensures { result ≡ specified.takes_course started Fallen next }
{
    match next {
        None => false,
        Some(number) => u128::from(number) == u128::from(started) + 1,
    }
}

// Whether a flight on that course is taken so.
fn takes_course(started: u64, course: Course, next: Option<u64>) -> bool
    ensures { result ≡ specified.takes_course started (course_of course) next }
{
    match course {
        Course::Running => false,
        Course::Landed => takes_landed(started, next),
        Course::Fallen => takes_fallen(started, next),
    }
}

// Whether a flight is taken so.
fn takes(started: u64, flight: Option<&Flown>, next: Option<u64>) -> bool
    ensures { result ≡ specified.takes_as started (option_copied flight.entry) next }
{
    match flight {
        None => false,
        Some(flight) => takes_course(started, flight.course, next),
    }
}

// Puts the flight that starts in place of a work's first join at the end, if there is a join.
fn start_own(flown: &mut List<Flown>, number: u64, lane: u32, work: &Work) -> Result<(), Memory>
    ensures { OnOk result (flown.new ≡ flown.old ++ own_flight number lane work.now.joins) }
{
    let Some(join) = work.first_join() else {
        return Ok(());
    };
    let flight = Flown {
        number,
        lane,
        stamp: join.stamp,
        key: Arc::try_clone(&join.query)?,
        course: Course::Running,
        joiners: 0,
    };
    flown.push(flight)
}

impl Parts {
    // Whether the lane's first join may be taken so.
    fn may_take(&self, lane: u32, flight: u64, next: Option<u64>) -> bool
        requires above { 0 < lane }
        requires within { lane ≤ length self.now.state.works }
        ensures { result ≡ specified.may_take self.now.state (work_of self.now.state lane) flight next }
    {
        let work = work_at(&self.works, lane);
        work.has_no_own()
            && work.is_first_join(flight)
            && takes(self.started, flight_of(&self.flown, flight), next)
    }

    // Takes the lane's first join so.
    fn take_first(
        &mut self,
        alloc: Global,
        lane: u32,
        flight: u64,
        next: Option<u64>,
    ) -> Result<(), Memory>
        requires above { 0 < lane }
        requires within { lane ≤ length self.old.state.works }
        ensures next { OnOk result (self.new.state ≡ record self.old.state {
          works = slice_set self.old.state.works (lane - 1) (work_taken (work_of self.old.state lane) next);
          flights = flights_taken self.old.state.flights lane flight (work_of self.old.state lane).joins next;
        }) }
        ensures stands { OnOk result (self.new.stands ≡ self.old.stands) }
    {
        let_go(&mut self.flown, flight)?;
        if let Some(number) = next {
            start_own(&mut self.flown, number, lane, work_at(&self.works, lane))?;
            self.started = number;
        }
        take_join(&mut self.works, alloc, lane, next)
    }

    /// Takes a Take entry. The cost is linear in the flights. `false` and an `Err` may leave it done in part.
    pub(crate) fn take_entry(
        &mut self,
        alloc: Global,
        loaded: &Loaded,
        lane: u32,
        flight: u64,
        next: Option<u64>,
    ) -> Result<bool, Memory>
        requires above { 0 < lane }
        requires within { lane ≤ length self.old.state.works }
        requires parts { AreParts loaded.now self.old }
        ensures { IfOk result (λ may. TakesIf may loaded.now self.old self.new (Entry.Take lane flight next)) }
    {
        if !self.may_take(lane, flight, next) {
            return Ok(false);
        }
        self.take_first(alloc, lane, flight, next)?;
        Ok(true)
    }
}
