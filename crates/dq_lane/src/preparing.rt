ghost use Rattle.std.specs.Prelude.{◌≡◌};
ghost use Rattle.dq_lane.specs.Progress.{IsPreparedFor};

use crate::progress::Progress;
use dq_base::{Memory, Step};
use dq_batch::Preparation;
use dq_extract::Loaded;
use dq_link::Link;
use dq_machine::step_at;
use std::alloc::Global;

/// The preparation of a lane's step of that number, if it is a batch and there is memory for it.
pub(crate) fn next_progress<L: Link>(
    alloc: Global,
    loaded: &Loaded,
    lane: u32,
    step: u32,
) -> Progress<L>
    ensures { IsPreparedFor loaded.now lane step result }
{
    let script = loaded.script();
    let Some(Step::Batch(zones)) = step_at(&script.lanes, lane, step) else {
        return Progress::Ready;
    };
    match Preparation::new(alloc, &script.schemas, zones) {
        Ok(preparation) => Progress::Prepared(preparation),
        Err(Memory) => Progress::Ready,
    }
}
