ghost use Rattle.std.specs.Prelude.{◌≡◌, ◌<◌, ◌≤◌, IfOk, OnOk, length, true};
ghost use Rattle.dq_base.specs.Scripts.{step_of};
ghost use Rattle.dq_journal.specs.declared.entry.Entry.{Entry};
ghost use Rattle.dq_machine.specs.Machine.{may_publish, next_by};
ghost use Rattle.dq_machine.specs.Parts.{AreParts, TakesIf};
ghost use Rattle.dq_machine.specs.Refreshing.{AreStanding};
ghost use Rattle.dq_machine.specs.State.{work_of};

use crate::parts::Parts;
use crate::publishing::{clear_shelves, publish_step};
use crate::steps::is_publish;
use crate::works::{begin, work_at};
use dq_base::Memory;
use dq_extract::Loaded;
use std::alloc::Global;

impl Parts {
    // Whether the lane may publish in that step.
    fn may_publish(&self, loaded: &Loaded, lane: u32, step: u32) -> bool
        requires above { 0 < lane }
        requires within { lane ≤ length self.now.state.works }
        ensures { result ≡ may_publish loaded.now (work_of self.now.state lane) lane step }
    {
        work_at(&self.works, lane).may_begin(step) && is_publish(loaded.script(), lane, step)
    }

    // Publishes in that step.
    fn publish(
        &mut self,
        alloc: Global,
        loaded: &Loaded,
        lane: u32,
        step: u32,
    ) -> Result<(), Memory>
        requires above { 0 < lane }
        requires within { lane ≤ length self.old.state.works }
        requires may { may_publish loaded.now (work_of self.old.state lane) lane step ≡ true }
        requires parts { AreParts loaded.now self.old }
        ensures next { OnOk result (self.new.state ≡ next_by loaded.now self.old.state (work_of self.old.state lane) (Entry.Publish lane step)) }
        ensures standing { OnOk result (AreStanding loaded.now.script.schemas self.new.state.versions self.new.stands) }
    {
        // Reading the script brings to the proof what was loaded.
        let _script = loaded.script();
        publish_step(
            alloc,
            loaded,
            &mut self.versions,
            &mut self.stands,
            lane,
            step,
        )?;
        clear_shelves(alloc, &mut self.shelves, loaded.script(), lane, step)?;
        begin(&mut self.works, lane, step);
        Ok(())
    }

    /// Takes a Publish entry. The cost is linear in the segments that stand of its source, and in what stands on the shelves.
    /// `false` and an `Err` may leave it done in part.
    pub(crate) fn publish_entry(
        &mut self,
        alloc: Global,
        loaded: &Loaded,
        lane: u32,
        step: u32,
    ) -> Result<bool, Memory>
        requires above { 0 < lane }
        requires within { lane ≤ length self.old.state.works }
        requires parts { AreParts loaded.now self.old }
        ensures { IfOk result (λ may. TakesIf may loaded.now self.old self.new (Entry.Publish lane step)) }
    {
        if !self.may_publish(loaded, lane, step) {
            return Ok(false);
        }
        self.publish(alloc, loaded, lane, step)?;
        Ok(true)
    }
}
