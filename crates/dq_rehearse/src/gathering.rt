ghost use Rattle.std.specs.Prelude.{◌≡◌, map, All, IfOk};
ghost use Rattle.dq_machine.specs.Right.{IsRight};
ghost use Rattle.dq_rehearse.specs.Dialled.{AreDialled, ArePlans};
ghost use Rattle.dq_rehearse.specs.Follows.{places_told};
ghost use Rattle.dq_rehearse.specs.Lanes.{AreOn, IsDone, places_in};

use dq_base::{List, Memory};
use dq_desk::Desk;
use dq_journal::LaneResultsList;
use dq_lane::Lane;
use dq_link::{Dialer, Link};
use std::alloc::Global;

/// What is left of lanes: the results of each one's steps, and its dialer, in the order of the lanes.
#[derive(Drop)]
pub struct Gathered<D: Dialer> {
    pub results: LaneResultsList,
    pub dialers: List<D>,
}

/// The results and dialers of lanes that are done, in order. The results are right for the desk's journal, and each dialer counts the
/// dials that failed in its lane and has the plan of that. They are moved, not copied: the cost is linear in the number of lanes.
/// `Memory` comes where there is none for the two lists.
pub fn gather<L: Link, D: Dialer<L = L>>(
    alloc: Global,
    desk: &Desk<L>,
    lanes: Vec<Lane<L, D>>,
) -> Result<Gathered<D>, Memory>
    requires on { AreOn desk.now.loaded desk.now.journal lanes.items }
    requires done { All IsDone lanes.items }
    ensures right { IfOk result (λ gathered. IsRight desk.now.loaded desk.now.journal gathered.results) }
    ensures places { IfOk result (λ gathered. places_told gathered.results ≡ map places_in lanes.items) }
    ensures dials { IfOk result (λ gathered. AreDialled desk.now.loaded desk.now.journal 1 (map (λ d. D.faults d) gathered.dialers)) }
    ensures plans { IfOk result (λ gathered. ArePlans desk.now.loaded 1 (map (λ d. D.plan d) gathered.dialers)) }
{
    // A desk's journal is legal: only this read tells it to the proof.
    let _journal = desk.journal();
    let count = lanes.len() as u64;
    let mut results = List::with_capacity(alloc, count)?;
    let mut dialers = List::with_capacity(alloc, count)?;
    for lane in lanes {
        let (rs, dialer) = lane.into_results();
        results.push(rs)?;
        dialers.push(dialer)?;
    }
    Ok(Gathered { results, dialers })
}
