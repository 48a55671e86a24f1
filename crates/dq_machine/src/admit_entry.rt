ghost use Rattle.std.specs.Prelude.{◌≡◌, ◌<◌, ◌≤◌, ◌+◌, ◌-◌, ◌^◌, All, IfOk, MatchOption, OnOk, false, length, slice_set, true};
ghost use Rattle.dq_base.specs.Scripts.{step_of, zones_of};
ghost use Rattle.dq_journal.specs.declared.entry.Entry.{Entry};
ghost use Rattle.dq_machine.specs.Admitting as specified;
ghost use Rattle.dq_machine.specs.Admitting.{admission_of, flights_admitted};
ghost use Rattle.dq_machine.specs.Machine.{work_admitted};
ghost use Rattle.dq_machine.specs.Parts.{AreParts, TakesIf};
ghost use Rattle.dq_machine.specs.State.{work_of};

use crate::admission::Admission;
use crate::admitting::admit;
use crate::flights::{admit_flights, numbers_of};
use crate::meeting::are_met;
use crate::parts::Parts;
use crate::preparing::remotes;
use crate::shelved::Shelves;
use crate::steps::step_at;
use crate::works;
use crate::works::work_at;
use dq_base::{List, Memory, Queries, Script, Step};
use dq_extract::Loaded;
use dq_journal::Meets;
use std::alloc::Global;
use std::mem;

// The zones of a step, or none exactly where it isn't a batch.
fn zones_at(script: &Script, lane: u32, step: u32) -> Option<&Queries>
    ensures kind { MatchOption result (specified.is_batch (step_of script.now.lanes lane step) ≡ false) (λ zones. specified.is_batch (step_of script.now.lanes lane step) ≡ true) }
    ensures zones { MatchOption result (specified.is_batch (step_of script.now.lanes lane step) ≡ false) (λ zones. zones_of (step_of script.now.lanes lane step) ≡ zones.now) }
{
    match step_at(&script.lanes, lane, step) {
        None => None,
        Some(Step::Publish { .. }) => None,
        Some(Step::Batch(zones)) => Some(zones),
    }
}

impl Parts {
    // What a batch of these zones meets. The shelves are taken away.
    fn meet(
        &mut self,
        alloc: Global,
        loaded: &Loaded,
        lane: u32,
        step: u32,
        zones: &Queries,
    ) -> Result<Admission, Memory>
        requires kind { specified.is_batch (step_of loaded.now.script.lanes lane step) ≡ true }
        requires zones { zones_of (step_of loaded.now.script.lanes lane step) ≡ zones.now }
        requires parts { AreParts loaded.now self.old }
        ensures admission { IfOk result (λ a. a ≡ admission_of loaded.now self.old.state lane step) }
        ensures rest { self.new ≡ record self.old { state = record self.old.state { shelves = self.new.state.shelves } } }
    {
        let queries = remotes(alloc, &loaded.script().schemas, zones)?;
        let none = Shelves {
            clever: List::new(alloc),
            literal: List::new(alloc),
        };
        let shelves = mem::replace(&mut self.shelves, none);
        let admission = admit(
            alloc,
            &self.versions,
            &self.flown,
            self.started,
            shelves,
            &queries,
        )?;
        Ok(admission)
    }

    // A batch of the lane is admitted so.
    fn admit_as(
        &mut self,
        alloc: Global,
        lane: u32,
        step: u32,
        admission: Admission,
    ) -> Result<(), Memory>
        requires above { 0 < lane }
        requires within { lane ≤ length self.old.state.works }
        requires numbers { self.old.state.flights.started + 1 + length admission.groups < 2 ^ 64 }
        requires joiners { All (λ f. f.joiners + length admission.joins < 2 ^ 64) self.old.state.flights.flown }
        ensures next { OnOk result (self.new.state ≡ record self.old.state {
          works = slice_set self.old.state.works (lane - 1) (work_admitted self.old.state (work_of self.old.state lane) step admission);
          shelves = admission.shelves;
          flights = flights_admitted self.old.state.versions self.old.state.flights lane admission;
        }) }
        ensures stands { OnOk result (self.new.stands ≡ self.old.stands) }
    {
        let Admission {
            shelves,
            met: _,
            groups,
            joins,
        } = admission;
        self.shelves = shelves;
        let own = numbers_of(alloc, self.started + 1, &groups)?;
        self.started = admit_flights(
            &mut self.flown,
            &self.versions,
            lane,
            self.started,
            &joins,
            &groups,
        )?;
        works::admit(&mut self.works, lane, step, own, joins);
        Ok(())
    }

    /// Takes an Admit entry. The cost is that of preparing the batch, a look-up for each remote query, and linear in the flights for each
    /// join. `false` and an `Err` may leave it done in part.
    pub(crate) fn admit_entry(
        &mut self,
        alloc: Global,
        loaded: &Loaded,
        lane: u32,
        step: u32,
        met: &Meets,
    ) -> Result<bool, Memory>
        requires above { 0 < lane }
        requires within { lane ≤ length self.old.state.works }
        requires parts { AreParts loaded.now self.old }
        ensures { IfOk result (λ may. TakesIf may loaded.now self.old self.new (Entry.Admit lane step met.now)) }
    {
        if !work_at(&self.works, lane).may_begin(step) {
            return Ok(false);
        }
        let Some(zones) = zones_at(loaded.script(), lane, step) else {
            return Ok(false);
        };
        let admission = self.meet(alloc, loaded, lane, step, zones)?;
        if !are_met(admission.met.as_slice(), met.as_slice()) {
            return Ok(false);
        }
        self.admit_as(alloc, lane, step, admission)?;
        Ok(true)
    }
}
