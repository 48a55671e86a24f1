ghost use Rattle.std.specs.Arc.{arc_value};
ghost use Rattle.std.specs.Prelude.{◌≡◌, length, true, IfOk, Some};
ghost use Rattle.dq_base.specs.Scripts.{is_lane, numbered};
ghost use Rattle.dq_rehearse.specs.Lanes.{all_new};
ghost use Rattle.dq_lane.specs.View.{new_lane};

use dq_base::{Fails, Memory};
use dq_extract::Loaded;
use dq_lane::Lane;
use dq_link::Office;
use std::alloc::Global;
use std::sync::Arc;

// What is wanted to fail in a lane of the script.
#[tactic(auto, using(crate::proofs::New::planned))]
fn lane_fails(loaded: &Loaded, number: u32) -> &Fails
    requires { is_lane (length loaded.now.script.lanes) number ≡ true }
    ensures { numbered loaded.now.script.fails number ≡ Some result.now }
{
    let Some(fails) = loaded.script().fails.numbered(number) else {
        unreachable!();
    };
    fails
}

// The lane of the script of that number, with its dialer.
#[tactic(auto, using(crate::proofs::New::plan_of))]
fn begin<O: Office>(
    alloc: Global,
    loaded: &Arc<Loaded>,
    office: &mut O,
    number: u32,
) -> Result<Lane<O::L, O::D>, Memory>
    requires { is_lane (length (arc_value loaded.now).script.lanes) number ≡ true }
    ensures { IfOk result (λ lane. lane ≡ new_lane (arc_value loaded.now) number) }
{
    let fails = lane_fails(loaded, number);
    let dialer = office.dialer(alloc, number, fails)?;
    Lane::new(alloc, number, Arc::try_clone(loaded)?, dialer)
}

/// The lanes of the script in order, none of which began, each with its dialer of the office, which gets what the script wants to
/// fail in the lane. `Memory` comes where there is none for the lanes or their dialers. It costs the checks of all the script's zones.
#[tactic(auto, using(crate::proofs::New::new_more))]
pub fn new_lanes<O: Office>(
    alloc: Global,
    loaded: &Arc<Loaded>,
    office: &mut O,
) -> Result<Vec<Lane<O::L, O::D>>, Memory>
    ensures { IfOk result (λ lanes. lanes.items ≡ all_new (arc_value loaded.now)) }
{
    let count = loaded.script().lanes.len() as u32;
    let mut lanes = Vec::new(alloc);
    for before in 0..count {
        let lane = begin(alloc, loaded, office, before + 1)?;
        lanes.push(lane)?;
    }
    Ok(lanes)
}
