ghost use Rattle.std.specs.Option.{option_copied};
ghost use Rattle.std.specs.Prelude.{◌≡◌, ◌+◌, ◌++◌, [], IfOk, OnOk, false, length};
ghost use Rattle.dq_check.specs.Dues.{HaveLeaders, IsFirstUnexplained, due_count, joint_in};
ghost use Rattle.dq_check.specs.Forcing as forcing;
ghost use Rattle.dq_check.specs.Forcing.{forced_in};

use crate::alone::alone_forces;
use crate::behind::blended_forces;
use crate::conflicts::are_clear;
use crate::due::{Due, Joining};
use crate::forcing::{Forced, Group, is_refused};
use dq_base::{List, Memory};
use dq_journal::ZoneResult;
use std::alloc::Global;

/// What an outcome forces, by the blend that begins at its zone, the zone and the next one.
fn group_forces(
    alloc: Global,
    joint: Option<&Joining>,
    first: &Due,
    second: Option<&Due>,
    shown: &ZoneResult,
) -> Result<Group, Memory>
    ensures { IfOk result (λ group. group ≡ forcing.group_forces (option_copied joint.entry) (Some first.now) (option_copied second.entry) shown.now) }
{
    let Some(joint) = joint else {
        return Ok(alone_forces(first, shown));
    };
    let Some(second) = second else {
        return Ok(alone_forces(first, shown));
    };
    blended_forces(alloc, joint, first, second, shown)
}

/// The blend that begins at the zone at a place, from 0, if there is one.
fn joint_at(joints: &[Option<Joining>], place: u64) -> Option<&Joining>
    ensures { option_copied result ≡ joint_in joints.now (place + 1) }
{
    match joints.get(place as usize) {
        Some(Some(joint)) => Some(joint),
        Some(None) => None,
        None => None,
    }
}

/// What the outcome shown behind so many zones forces.
fn forces_at(
    alloc: Global,
    joints: &[Option<Joining>],
    dues: &[Due],
    place: u64,
    shown: &ZoneResult,
) -> Result<Group, Memory>
    ensures { IfOk result (λ group. group ≡ forcing.forces_at (joint_in joints.now) dues.now place shown.now) }
{
    let place_here = place as usize;
    let Some(first) = dues.get(place_here) else {
        return Ok(Group::Refused);
    };
    let second = dues.get(place_here + 1);
    group_forces(alloc, joint_at(joints, place), first, second, shown)
}

/// Puts what a group is forced to be at the end.
fn push_forced(forced: &mut List<Forced>, group: Group) -> Result<(), Memory>
    ensures { OnOk result (forced.new ≡ forced.old ++ forced_in group) }
{
    match group {
        Group::Refused => Ok(()),
        Group::Alone(one) => forced.push(one),
        Group::Both(one, two) => {
            forced.push(one)?;
            forced.push(two)
        }
    }
}

/// The place of the first outcome that is found wrong, from 0.
fn first_wrong(
    alloc: Global,
    dues: &[Due],
    joints: &[Option<Joining>],
    shown: &[ZoneResult],
) -> Result<Option<u64>, Memory>
    ensures { IfOk result (λ wrong. wrong ≡ forcing.first_wrong (joint_in joints.now) dues.now [] 0 shown.now) }
{
    let mut forced = List::new(alloc);
    for (place, outcome) in shown.iter().enumerate() {
        let group = forces_at(alloc, joints, dues, forced.len(), outcome)?;
        if is_refused(group) {
            return Ok(Some(place as u64));
        }
        push_forced(&mut forced, group)?;
        if !are_clear(dues, forced.as_slice()) {
            return Ok(Some(place as u64));
        }
    }
    Ok(None)
}

/// The place of the first outcome, from 0, that may not be shown of the zones of a step; none where all may. Each zone's blend
/// is the one that begins there. It costs the tables that are due and shown, the blends, and the square of the zones.
pub(crate) fn first_unexplained(
    alloc: Global,
    dues: &[Due],
    joints: &[Option<Joining>],
    shown: &[ZoneResult],
) -> Result<Option<u64>, Memory>
    requires leaders { HaveLeaders dues.now dues.now }
    requires count { due_count (joint_in joints.now) 1 false dues.now ≡ length shown.now }
    ensures { IfOk result (IsFirstUnexplained dues.now (joint_in joints.now) shown.now) }
{
    let wrong = first_wrong(alloc, dues, joints, shown)?;
    Ok(wrong)
}
