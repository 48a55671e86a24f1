ghost use Rattle.std.specs.Prelude.{IfOk};
ghost use Rattle.dq_lane.specs.Refusals.{AreRefusals, IsRefusal};

use dq_base::{List, Memory, Schemas, Step};
use dq_journal::{LaneResults, StepResult};
use dq_zones::refused_zones;
use std::alloc::Global;

/// The result of a refused step.
fn refused_step(alloc: Global, schemas: &Schemas, step: &Step) -> Result<StepResult, Memory>
    ensures { IfOk result (λ refusal. IsRefusal schemas.now step.now refusal) }
{
    match step {
        Step::Publish { .. } => Ok(StepResult::Unpublished),
        Step::Batch(zones) => {
            let outcomes = refused_zones(alloc, schemas, zones.as_slice())?;
            Ok(StepResult::Unadmitted(outcomes))
        }
    }
}

/// The results of steps that are all refused, in order.
pub(crate) fn refused_steps(
    alloc: Global,
    schemas: &Schemas,
    steps: &[Step],
) -> Result<LaneResults, Memory>
    ensures { IfOk result (λ results. AreRefusals schemas.now steps.now results) }
{
    let mut results = List::with_capacity(alloc, steps.len() as u64)?;
    for step in steps {
        results.push(refused_step(alloc, schemas, step)?)?;
    }
    Ok(results)
}
