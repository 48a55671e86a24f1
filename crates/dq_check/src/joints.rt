ghost use Rattle.std.specs.Prelude.{◌≡◌, IfOk, false};
ghost use Rattle.dq_journal.specs.Shown.{joint_at, joint_of};
ghost use Rattle.dq_shown.specs.Showing.{LeadFrom};
ghost use Rattle.dq_check.specs.Grounds.{joined_count, joints_over};

use crate::due::Joining;
use dq_base::{Blend, Duplicate, Memory, Query, Script};
use dq_shown::{Starts, blend_at, measures_of};
use std::alloc::Global;

// How a blend joins two outcomes.
fn joining_of(alloc: Global, script: &Script, blend: &Blend) -> Result<Joining, Memory>
    ensures { IfOk result (λ joint. joint ≡ joint_of script.now.lanes blend.now) }
{
    let Ok(measures) = u32::try_from(measures_of(script, blend)) else {
        return Err(Memory);
    };
    let links = blend.links.duplicate(alloc)?;
    Ok(Joining::new(links, measures))
}

// The blend that begins at a zone of a lane's step, if there is one.
fn joint_at(
    alloc: Global,
    script: &Script,
    starts: &Starts,
    start: (u64, u64, u64),
) -> Result<Option<Joining>, Memory>
    requires { LeadFrom 0 script.now.blends starts.now.entries }
    ensures { IfOk result (λ joint. joint ≡ joint_at script.now start.0 start.1 start.2) }
{
    let Some(blend) = blend_at(&script.blends, starts, start) else {
        return Ok(None);
    };
    let joint = joining_of(alloc, script, blend)?;
    Ok(Some(joint))
}

/// The blends that begin at the zones of a lane's step, one for each. Each is a look-up.
pub(crate) fn joints_of(
    alloc: Global,
    script: &Script,
    starts: &Starts,
    lane: u64,
    step: u64,
    zones: &[Query],
) -> Result<Vec<Option<Joining>>, Memory>
    requires { LeadFrom 0 script.now.blends starts.now.entries }
    ensures { IfOk result (λ joints. joints.items ≡ joints_over (joint_at script.now lane step) 1 zones.now) }
{
    let mut joints = Vec::new(alloc);
    for place in 0..zones.len() {
        let start = (lane, step, place as u64 + 1);
        joints.push(joint_at(alloc, script, starts, start)?)?;
    }
    Ok(joints)
}

/// How many outcomes are shown of zones at which these blends begin.
pub(crate) fn joined_count(joints: &[Option<Joining>]) -> u64
    ensures { result ≡ joined_count false joints.now }
{
    let mut count = 0;
    let mut begun = false;
    for joint in joints {
        if begun {
            begun = false;
            count += 1;
        } else if joint.is_some() {
            begun = true;
        } else {
            count += 1;
        }
    }
    if begun {
        count += 1;
    }
    count
}
