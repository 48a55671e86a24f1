ghost use Rattle.std.specs.Option.{option_copied};
ghost use Rattle.std.specs.Prelude.{◌≡◌};
ghost use Rattle.dq_base.specs.Scripts.{step_of};
ghost use Rattle.dq_machine.specs.Publishing as publishing;
ghost use Rattle.dq_machine.specs.Admitting as admitting;

use dq_base::{LaneSteps, Script, Step};

/// The step of a lane, or none exactly where there is no such lane or the lane has no such step. Both are numbered from 1.
/// In constant time.
pub fn step_at(lanes: &LaneSteps, lane: u32, step: u32) -> Option<&Step>
    ensures { option_copied result ≡ step_of lanes.now lane step }
{
    lanes.numbered(lane)?.numbered(step)
}

/// Whether there is such a step, and it publishes an extract.
pub(crate) fn is_publish(script: &Script, lane: u32, step: u32) -> bool
    ensures { result ≡ publishing.is_publish (step_of script.now.lanes lane step) }
{
    match step_at(&script.lanes, lane, step) {
        None => false,
        Some(Step::Publish { .. }) => true,
        Some(Step::Batch(_)) => false,
    }
}

/// Whether there is such a step, and it is a batch.
pub(crate) fn is_batch(script: &Script, lane: u32, step: u32) -> bool
    ensures { result ≡ admitting.is_batch (step_of script.now.lanes lane step) }
{
    match step_at(&script.lanes, lane, step) {
        None => false,
        Some(Step::Publish { .. }) => false,
        Some(Step::Batch(_)) => true,
    }
}
