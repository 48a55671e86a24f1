ghost use Rattle.std.specs.Option.{option_copied};
ghost use Rattle.std.specs.Prelude.{◌≡◌, ◌<◌, ◌≤◌, ◌-◌, IfOk, OnOk, length, slice_set, true};
ghost use Rattle.dq_journal.specs.declared.entry.Entry.{Entry};
ghost use Rattle.dq_machine.specs.Landing as specified;
ghost use Rattle.dq_machine.specs.Machine as machine;
ghost use Rattle.dq_machine.specs.Machine.{work_ended};
ghost use Rattle.dq_machine.specs.Parts.{AreParts, TakesIf};
ghost use Rattle.dq_machine.specs.State.{work_of};
ghost use Rattle.dq_machine.specs.Views.{course_of};

use crate::cells::has_cells;
use crate::ending::end;
use crate::flown::{Course, Flown};
use crate::landing::{clever_may_say, has_run, land_on, literal_may_say, may_fall};
use crate::parts::Parts;
use crate::shelved::Shelves;
use crate::taking::flight_of;
use crate::versions::Versions;
use crate::works;
use crate::works::{end_flight, work_at};
use dq_base::{Kept, Memory};
use dq_extract::Loaded;
use dq_journal::Cause;
use std::alloc::Global;

// Whether a flight may land with so many cells, of which both caches say this.
fn may_land_at(
    alloc: Global,
    loaded: &Loaded,
    versions: &Versions,
    flight: Option<&Flown>,
    cells: u64,
    clever: Kept,
    literal: Kept,
) -> Result<bool, Memory>
    ensures { IfOk result (λ may. may ≡ specified.may_land_at loaded.now versions.now (option_copied flight.entry) cells clever literal) }
{
    let Some(flight) = flight else {
        return Ok(false);
    };
    let script = loaded.script();
    if !has_cells(alloc, versions, flight, cells)? {
        return Ok(false);
    }
    if !clever_may_say(versions, script.clever, flight, cells, clever) {
        return Ok(false);
    }
    Ok(literal_may_say(versions, script.literal, flight, cells, literal))
}

// What the landing of a flight with so many cells leaves on the shelves, of which both caches say this.
fn land_shelves(
    loaded: &Loaded,
    shelves: &mut Shelves,
    flight: Option<&Flown>,
    cells: u64,
    clever: Kept,
    literal: Kept,
) -> Result<(), Memory>
    ensures { OnOk result (shelves.new ≡ specified.shelves_landed loaded.now (option_copied flight.entry) cells clever literal shelves.old) }
{
    let Some(flight) = flight else {
        return Ok(());
    };
    let script = loaded.script();
    land_on(&mut shelves.clever, script.clever, flight, cells, clever)?;
    land_on(&mut shelves.literal, script.literal, flight, cells, literal)?;
    Ok(())
}

impl Parts {
    // Ends the lane's first flight on that course.
    fn end_first(&mut self, lane: u32, flight: u64, course: Course) -> Result<(), Memory>
        requires above { 0 < lane }
        requires within { lane ≤ length self.old.state.works }
        ensures next { OnOk result (self.new.state ≡ record self.old.state {
          works = slice_set self.old.state.works (lane - 1) (work_ended (work_of self.old.state lane));
          flights = record self.old.state.flights { flown = specified.ended (course_of course) flight self.old.state.flights.flown };
        }) }
        ensures stands { OnOk result (self.new.stands ≡ self.old.stands) }
    {
        end(&mut self.flown, flight, course)?;
        end_flight(&mut self.works, lane);
        Ok(())
    }

    // Whether the lane's first flight may land so.
    fn may_land(
        &self,
        alloc: Global,
        loaded: &Loaded,
        lane: u32,
        flight: u64,
        cells: u64,
        clever: Kept,
        literal: Kept,
    ) -> Result<bool, Memory>
        requires above { 0 < lane }
        requires within { lane ≤ length self.now.state.works }
        ensures { IfOk result (λ may. may ≡ machine.may loaded.now self.now.state (work_of self.now.state lane) (Entry.Land lane flight cells clever literal)) }
    {
        let work = work_at(&self.works, lane);
        if !work.is_first(flight) {
            return Ok(false);
        }
        if !has_run(work.phase()) {
            return Ok(false);
        }
        let flown = flight_of(&self.flown, flight);
        let may = may_land_at(alloc, loaded, &self.versions, flown, cells, clever, literal)?;
        Ok(may)
    }

    /// Takes a Land entry. The cost is that of evaluating the flight's answer, and linear in the flights and the shelves. `false` and an
    /// `Err` may leave it done in part.
    pub(crate) fn land_entry(
        &mut self,
        alloc: Global,
        loaded: &Loaded,
        lane: u32,
        flight: u64,
        cells: u64,
        clever: Kept,
        literal: Kept,
    ) -> Result<bool, Memory>
        requires above { 0 < lane }
        requires within { lane ≤ length self.old.state.works }
        requires parts { AreParts loaded.now self.old }
        ensures { IfOk result (λ may. TakesIf may loaded.now self.old self.new (Entry.Land lane flight cells clever literal)) }
    {
        if !self.may_land(alloc, loaded, lane, flight, cells, clever, literal)? {
            return Ok(false);
        }
        let flown = flight_of(&self.flown, flight);
        land_shelves(loaded, &mut self.shelves, flown, cells, clever, literal)?;
        self.end_first(lane, flight, Course::Landed)?;
        Ok(true)
    }

    // Whether the lane's first flight may fall so.
    fn may_fall(&self, loaded: &Loaded, lane: u32, flight: u64, cause: Cause) -> bool
        requires above { 0 < lane }
        requires within { lane ≤ length self.now.state.works }
        ensures { result ≡ machine.may loaded.now self.now.state (work_of self.now.state lane) (Entry.Fall lane flight cause) }
    {
        let work = work_at(&self.works, lane);
        work.is_first(flight) && may_fall(work.phase(), cause)
    }

    /// Takes a Fall entry. The cost is linear in the flights. `false` and an `Err` may leave it done in part.
    pub(crate) fn fall_entry(
        &mut self,
        loaded: &Loaded,
        lane: u32,
        flight: u64,
        cause: Cause,
    ) -> Result<bool, Memory>
        requires above { 0 < lane }
        requires within { lane ≤ length self.old.state.works }
        requires parts { AreParts loaded.now self.old }
        ensures { IfOk result (λ may. TakesIf may loaded.now self.old self.new (Entry.Fall lane flight cause)) }
    {
        if !self.may_fall(loaded, lane, flight, cause) {
            return Ok(false);
        }
        self.end_first(lane, flight, Course::Fallen)?;
        Ok(true)
    }

    /// Takes an End entry, in constant time.
    pub(crate) fn end_entry(&mut self, loaded: &Loaded, lane: u32) -> bool
        requires above { 0 < lane }
        requires within { lane ≤ length self.old.state.works }
        requires parts { AreParts loaded.now self.old }
        ensures { TakesIf result loaded.now self.old self.new (Entry.End lane) }
    {
        if !work_at(&self.works, lane).is_free() {
            return false;
        }
        works::end(&mut self.works, lane);
        true
    }
}
