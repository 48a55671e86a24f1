ghost use Rattle.std.specs.Prelude.{◌≡◌, Option, IfOk};
ghost use Rattle.dq_script.specs.Reasons.{found_in, unless, stray_publish, stray_steps, stray_source, stray_turn, stray_fault, stray_session, found_at, stray_extract, stray_lane};

use crate::draft::Plan;
use crate::faults::Fault;
use crate::finds::{Strays, found_in};
use crate::misfit::path_from;
use crate::sessions::Filtered;
use dq_base::{Memory, Step, Steps, Text};
use std::alloc::Global;

// This path, unless the test holds.
fn unless(alloc: Global, test: bool, path: &[u8]) -> Result<Option<Text>, Memory>
    ensures { IfOk result (λ found. found ≡ unless test path.now) }
{
    if test {
        return Ok(None);
    }
    Ok(Some(Text::copy_of(alloc, path)?))
}

// Finds a publication of none but so many extracts.
#[derive(Drop)]
struct StrayPublish {
    extracts: u64,
}

impl Strays for StrayPublish {
    type Item = Step;

    ghost stray = { λ s. stray_publish s.extracts };

    fn stray(&self, alloc: Global, step: &Step) -> Result<Option<Text>, Memory> {
        match step {
            Step::Publish { source, .. } => {
                unless(alloc, (*source as u64) < self.extracts, b"/publish")
            }
            Step::Batch(_) => Ok(None),
        }
    }
}

// Finds one among a lane's steps.
#[derive(Drop)]
struct StraySteps {
    extracts: u64,
}

impl Strays for StraySteps {
    type Item = Steps;

    ghost stray = { λ s. stray_steps s.extracts };

    fn stray(&self, alloc: Global, steps: &Steps) -> Result<Option<Text>, Memory> {
        let publish = StrayPublish {
            extracts: self.extracts,
        };
        found_in(&publish, alloc, steps.as_slice())
    }
}

// Finds a session of none of so many extracts.
#[derive(Drop)]
struct StraySource {
    extracts: u64,
}

impl Strays for StraySource {
    type Item = Filtered;

    ghost stray = { λ s. stray_source s.extracts };

    fn stray(&self, alloc: Global, session: &Filtered) -> Result<Option<Text>, Memory> {
        unless(alloc, (session.source as u64) < self.extracts, b"/source")
    }
}

// Finds a turn of none of so many lanes.
#[derive(Drop)]
struct StrayTurn {
    lanes: u64,
}

impl Strays for StrayTurn {
    type Item = u64;

    ghost stray = { λ s. stray_turn s.lanes };

    fn stray(&self, alloc: Global, turn: &u64) -> Result<Option<Text>, Memory> {
        unless(alloc, *turn <= self.lanes, b"")
    }
}

// Finds a fault of none of so many lanes.
#[derive(Drop)]
struct StrayFault {
    lanes: u64,
}

impl Strays for StrayFault {
    type Item = Fault;

    ghost stray = { λ s. stray_fault s.lanes };

    fn stray(&self, alloc: Global, fault: &Fault) -> Result<Option<Text>, Memory> {
        unless(alloc, fault.lane <= self.lanes, b"/lane")
    }
}

// Finds a session of none of so many lanes.
#[derive(Drop)]
struct StraySession {
    lanes: u64,
}

impl Strays for StraySession {
    type Item = Filtered;

    ghost stray = { λ s. stray_session s.lanes };

    fn stray(&self, alloc: Global, session: &Filtered) -> Result<Option<Text>, Memory> {
        unless(alloc, session.lane <= self.lanes, b"/lane")
    }
}

// The path of what is found in the member of this name.
fn found_at<S: Strays>(
    finder: &S,
    alloc: Global,
    name: &[u8],
    items: &[S::Item],
) -> Result<Option<Text>, Memory>
    ensures { IfOk result (λ path. path ≡ found_at name.now (found_in (S.stray finder.now) 0 items.now)) }
{
    match found_in(finder, alloc, items)? {
        Some(rest) => Ok(Some(path_from(alloc, name, rest.bytes())?)),
        None => Ok(None),
    }
}

// The path of the first publication of no extract, and then of the first session.
pub fn stray_extract(alloc: Global, extracts: u64, plan: &Plan) -> Result<Option<Text>, Memory>
    ensures { IfOk result (λ path. path ≡ stray_extract extracts plan.now) }
{
    let steps = StraySteps { extracts };
    if let Some(path) = found_at(&steps, alloc, b"lanes", plan.lanes.lanes.as_slice())? {
        return Ok(Some(path));
    }
    let source = StraySource { extracts };
    found_at(&source, alloc, b"sessions", plan.sessions.as_slice())
}

// The path of the first lane's number above that of lanes.
pub fn stray_lane(alloc: Global, lanes: u64, plan: &Plan) -> Result<Option<Text>, Memory>
    ensures { IfOk result (λ path. path ≡ stray_lane lanes plan.now) }
{
    let turn = StrayTurn { lanes };
    if let Some(path) = found_at(&turn, alloc, b"schedule", plan.schedule.as_slice())? {
        return Ok(Some(path));
    }
    let fault = StrayFault { lanes };
    if let Some(path) = found_at(&fault, alloc, b"faults", plan.faults.as_slice())? {
        return Ok(Some(path));
    }
    let session = StraySession { lanes };
    found_at(&session, alloc, b"sessions", plan.sessions.as_slice())
}
