ghost use Rattle.std.specs.Prelude.{◌≡◌, true};
ghost use Rattle.dq_lane.specs.Closing.{CanCloseIn, HasClosed};

use dq_batch::Batch;
use dq_journal::StepResult;
use dq_link::Link;
use std::alloc::Global;
use std::mem::replace;

/// Puts the answers of a batch that is over in place of its refusal.
pub(crate) fn close<L: Link>(alloc: Global, slot: &mut StepResult, batch: Batch<L>)
    requires over { batch.over ≡ true }
    requires refused { CanCloseIn batch slot.old }
    ensures { HasClosed batch slot.old slot.new }
{
    let place = batch.place();
    match replace(slot, StepResult::Unpublished) {
        StepResult::Unadmitted(outcomes) => {
            let mut outcomes = outcomes;
            batch.close(alloc, &mut outcomes);
            *slot = StepResult::Admitted(place, outcomes);
        }
        other => *slot = other,
    }
}
