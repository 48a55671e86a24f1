ghost use Rattle.std.specs.Arc.{arc_value};
ghost use Rattle.std.specs.Prelude.{◌≡◌, map, true, IfOk};
ghost use Rattle.dq_machine.specs.Machine.{after, legal};
ghost use Rattle.dq_machine.specs.Right.{IsRight};
ghost use Rattle.dq_rehearse.specs.Dialled.{AreDialled, ArePlans};
ghost use Rattle.dq_rehearse.specs.Follows.{Follows};
ghost use Rattle.dq_desk.specs.Links.{AreLinks, AreWrecks, losses};

use crate::beginning::new_lanes;
use crate::gathering::{Gathered, gather};
use crate::playing::{Played, play};
use dq_base::{List, Memory};
use dq_desk::{Desk, Parts, PooledList, WreckList};
use dq_extract::Loaded;
use dq_journal::{Journal, LaneResultsList};
use dq_link::{Dialer, Link, Office};
use std::alloc::Global;
use std::sync::Arc;

/// A whole run.
#[derive(Drop)]
pub struct Whole<L: Link, D: Dialer<L = L>> {
    pub journal: Journal,
    /// Those of each lane's steps.
    pub results: LaneResultsList,
    /// The links that were given back, the last one first.
    pub idle: PooledList<L>,
    /// The links that were lost, in order.
    pub wrecks: WreckList<L>,
    /// One for each lane.
    pub dialers: List<D>,
}

/// Plays what was loaded, by the script's schedule, with dialers of the office. The journal is legal and follows the schedule, and the
/// results are right for it; the idle links and the wrecks are the journal's, and each lane's dialer counts the dials that failed in
/// it. `Memory` comes where there is none for the desk, the lanes, their dialers or the lists of what is left of them; where it is
/// wanting later, steps are refused or zones are `Memory`. It costs the checks of all zones, and then the work and the steps of all
/// lanes.
pub fn play_script<O: Office>(
    alloc: Global,
    loaded: &Arc<Loaded>,
    office: &mut O,
) -> Result<Whole<O::L, O::D>, Memory>
    ensures legal { IfOk result (λ whole. legal (arc_value loaded.now) whole.journal.entries ≡ true) }
    ensures right { IfOk result (λ whole. IsRight (arc_value loaded.now) whole.journal.entries whole.results) }
    ensures follows { IfOk result (λ whole. Follows (arc_value loaded.now) whole.journal.entries whole.results) }
    ensures idle { IfOk result (λ whole. AreLinks (record { runs = O.L.runs; calls = O.L.calls; mounts = O.L.mounts; planned = O.L.planned }) (arc_value loaded.now)
        (after (arc_value loaded.now) whole.journal.entries).versions (after (arc_value loaded.now) whole.journal.entries).links.idle whole.idle) }
    ensures wrecks { IfOk result (λ whole. AreWrecks (record { runs = O.L.runs; calls = O.L.calls; mounts = O.L.mounts; planned = O.L.planned })
        (arc_value loaded.now).script.fails (losses whole.journal.entries) whole.wrecks) }
    ensures dials { IfOk result (λ whole. AreDialled (arc_value loaded.now) whole.journal.entries 1 (map (λ d. O.D.faults d) whole.dialers)) }
    ensures plans { IfOk result (λ whole. ArePlans (arc_value loaded.now) 1 (map (λ d. O.D.plan d) whole.dialers)) }
{
    let desk = Desk::new(alloc, Arc::try_clone(loaded)?)?;
    let lanes = new_lanes(alloc, loaded, office)?;
    let Played { desk, lanes } = play(alloc, desk, lanes, &loaded.script().schedule);
    let Gathered { results, dialers } = gather(alloc, &desk, lanes)?;
    let Parts {
        journal,
        idle,
        wrecks,
    } = desk.into_parts();
    Ok(Whole {
        journal,
        results,
        idle,
        wrecks,
        dialers,
    })
}
