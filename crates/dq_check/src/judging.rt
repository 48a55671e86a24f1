ghost use Rattle.std.specs.Arc.{arc_value};
ghost use Rattle.std.specs.Prelude.{◌≡◌, IfOk, true};
ghost use Rattle.dq_machine.specs.Order.{keeps_order, lanes_keep};
ghost use Rattle.dq_check.specs.Grounds.{AreGrounds, JudgesLanes};
ghost use Rattle.dq_check.specs.Reports.{Judged};
ghost use Rattle.dq_check.specs.Verdicts.{IsVerdict};
ghost use Rattle.dq_check.specs.Walks.{IsLegalWalk};

use crate::grounds::{Grounds, make_grounds};
use crate::order;
use crate::steps::wrong_in_lane;
use crate::verdict::Verdict;
use crate::walking::{History, Walked, walk};
use dq_base::{Memory, Steps};
use dq_extract::Loaded;
use dq_journal::{Entry, LaneResults, LaneResultsList};
use dq_parse::{ParseFault, Parsed, parse};
use std::alloc::Global;
use std::sync::Arc;

// The first lane of whose steps a zone is wrong, by its number from 1, that step and that zone.
fn wrong_zone(
    alloc: Global,
    loaded: &Loaded,
    journal: &[Entry],
    grounds: &Grounds,
    lanes: &[Steps],
    told: &[LaneResults],
) -> Result<Option<(u32, u32, u32)>, Memory>
    requires grounds { AreGrounds loaded.now journal.now grounds.now }
    requires lanes { lanes.now ≡ loaded.now.script.lanes }
    requires told { lanes_keep journal.now 1 lanes.now told.now ≡ true }
    ensures { IfOk result (JudgesLanes loaded.now journal.now lanes.now told.now) }
{
    for (place, steps) in lanes.iter().enumerate() {
        let lane = place as u64 + 1;
        let told = told[place].as_slice();
        if let Some((step, zone)) = wrong_in_lane(
            alloc,
            loaded,
            journal,
            grounds,
            lane,
            steps.as_slice(),
            told,
        )? {
            let Ok(lane) = u32::try_from(lane) else {
                return Err(Memory);
            };
            return Ok(Some((lane, step, zone)));
        }
    }
    Ok(None)
}

// The verdict on a report whose journal is legal and keeps the order of the lanes' steps.
fn judge_zones(
    alloc: Global,
    loaded: &Loaded,
    journal: &[Entry],
    shown: &LaneResultsList,
    history: History,
) -> Result<Verdict, Memory>
    requires order { keeps_order loaded.now journal.now shown.now ≡ true }
    requires walk { IsLegalWalk loaded.now journal.now history }
    ensures { IfOk result (IsVerdict loaded.now journal.now shown.now) }
{
    let grounds = make_grounds(alloc, loaded, journal, history)?;
    let lanes = loaded.script().lanes.as_slice();
    match wrong_zone(alloc, loaded, journal, &grounds, lanes, shown.as_slice())? {
        None => Ok(Verdict::Lawful),
        Some((lane, step, zone)) => Ok(Verdict::Wrong(lane, step, zone)),
    }
}

// The verdict on a report on this journal and what is shown.
fn judge_parsed(
    alloc: Global,
    loaded: &Arc<Loaded>,
    journal: &[Entry],
    shown: &LaneResultsList,
) -> Result<Verdict, Memory>
    ensures { IfOk result (IsVerdict (arc_value loaded.now) journal.now shown.now) }
{
    if !order::keeps_order(alloc, loaded, journal, shown)? {
        return Ok(Verdict::Disorder);
    }
    match walk(alloc, loaded, journal)? {
        Walked::Illegal(place) => Ok(Verdict::Illegal(place)),
        Walked::Legal(history) => judge_zones(alloc, loaded, journal, shown, history),
    }
}

/// Judges the bytes of a report on what was loaded, whichever run wrote it: the first verdict that holds.
///
/// The cost is linear in the bytes; each entry of the journal costs what is open, is read a few times for each lane, and a landing and
/// each zone cost their answers.
pub fn judge(alloc: Global, loaded: &Arc<Loaded>, report: &[u8]) -> Result<Verdict, Memory>
    ensures { IfOk result (Judged (arc_value loaded.now) report.now) }
{
    match parse(alloc, report) {
        Ok(Parsed { journal, results }) => {
            judge_parsed(alloc, loaded, journal.as_slice(), &results)
        }
        Err(ParseFault::NotReport) => Ok(Verdict::NotReport),
        Err(ParseFault::Memory) => Err(Memory),
    }
}
