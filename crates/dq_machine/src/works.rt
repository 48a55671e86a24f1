ghost use Rattle.std.specs.Prelude.{◌≡◌, ◌-◌, ◌<◌, ◌≤◌, true, OnOk, length, slice_index_or, slice_set};
ghost use Rattle.dq_machine.specs.Machine.{work_ended};
ghost use Rattle.dq_machine.specs.State.{New, no_work};
ghost use Rattle.dq_machine.specs.Taking.{work_taken};
ghost use Rattle.dq_machine.specs.Views.{phase_of};

use crate::joined::Joined;
use crate::links::Phase;
use crate::work::Work;
use dq_base::{List, Memory, Numbers64};
use std::alloc::Global;

/// One for each lane. Lanes are numbered from 1.
pub(crate) type Works = List<Work>;

/// The work of a lane.
pub(crate) fn work_at(works: &Works, lane: u32) -> &Work
    requires above { 0 < lane }
    requires within { lane ≤ length works.now }
    ensures { result.now ≡ slice_index_or works.now (lane - 1) no_work }
{
    &works.as_slice()[(lane - 1) as usize]
}

/// The step is the lane's last one.
pub(crate) fn begin(works: &mut Works, lane: u32, step: u32)
    requires above { 0 < lane }
    requires within { lane ≤ length works.old }
    ensures { works.new ≡ slice_set works.old (lane - 1) (record (slice_index_or works.old (lane - 1) no_work) { last = step }) }
{
    works.item_mut(u64::from(lane - 1)).begin(step);
}

/// The lane has ended.
pub(crate) fn end(works: &mut Works, lane: u32)
    requires above { 0 < lane }
    requires within { lane ≤ length works.old }
    ensures { works.new ≡ slice_set works.old (lane - 1) (record (slice_index_or works.old (lane - 1) no_work) { ended = true }) }
{
    works.item_mut(u64::from(lane - 1)).end();
}

/// A batch of the lane was admitted, with these own flights and joins.
pub(crate) fn admit(works: &mut Works, lane: u32, step: u32, own: Numbers64, joins: List<Joined>)
    requires above { 0 < lane }
    requires within { lane ≤ length works.old }
    ensures { works.new ≡ slice_set works.old (lane - 1) (record (slice_index_or works.old (lane - 1) no_work) { last = step; own = own; joins = joins; phase = New 0 }) }
{
    works.item_mut(u64::from(lane - 1)).admit(step, own, joins);
}

/// The lane's first own flight is so far now.
pub(crate) fn set_phase(works: &mut Works, lane: u32, phase: Phase)
    requires above { 0 < lane }
    requires within { lane ≤ length works.old }
    ensures { works.new ≡ slice_set works.old (lane - 1) (record (slice_index_or works.old (lane - 1) no_work) { phase = phase_of phase }) }
{
    works.item_mut(u64::from(lane - 1)).set_phase(phase);
}

/// The lane's first own flight is so far now. Answers how far it was.
pub(crate) fn replace_phase(works: &mut Works, lane: u32, phase: Phase) -> Phase
    requires above { 0 < lane }
    requires within { lane ≤ length works.old }
    ensures phase { phase_of result ≡ (slice_index_or works.old (lane - 1) no_work).phase }
    ensures works { works.new ≡ slice_set works.old (lane - 1) (record (slice_index_or works.old (lane - 1) no_work) { phase = phase_of phase }) }
{
    works.item_mut(u64::from(lane - 1)).replace_phase(phase)
}

/// The lane's first own flight has ended.
pub(crate) fn end_flight(works: &mut Works, lane: u32)
    requires above { 0 < lane }
    requires within { lane ≤ length works.old }
    ensures { works.new ≡ slice_set works.old (lane - 1) (work_ended (slice_index_or works.old (lane - 1) no_work)) }
{
    works.item_mut(u64::from(lane - 1)).end_flight();
}

/// The lane's first join is taken, and in its place a flight started, if one was.
pub(crate) fn take_join(
    works: &mut Works,
    alloc: Global,
    lane: u32,
    next: Option<u64>,
) -> Result<(), Memory>
    requires above { 0 < lane }
    requires within { lane ≤ length works.old }
    ensures { OnOk result (works.new ≡ slice_set works.old (lane - 1) (work_taken (slice_index_or works.old (lane - 1) no_work) next)) }
{
    works.item_mut(u64::from(lane - 1)).take_join(alloc, next)
}
