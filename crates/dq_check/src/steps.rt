ghost use Rattle.std.specs.Prelude.{◌≡◌, IfOk, Some, length, map, true, unwrap_or, []};
ghost use Rattle.dq_base.specs.Numbered.{numbered};
ghost use Rattle.dq_base.specs.Scripts.{step_of};
ghost use Rattle.dq_base.specs.declared.script.Step.TheVariants as step_kind;
ghost use Rattle.dq_journal.specs.Shown.{joint_at};
ghost use Rattle.dq_journal.specs.Standing.{stand};
ghost use Rattle.dq_machine.specs.Order.{admits, tell_places, tells_place};
ghost use Rattle.dq_machine.specs.Owning.{met_in, origins};
ghost use Rattle.dq_shown.specs.Showing.{LeadFrom};
ghost use Rattle.dq_check.specs.Dues.{HaveLeaders, dues_of};
ghost use Rattle.dq_check.specs.Grounds.{AreGrounds, IsWrongAmong, JudgesStep, JudgesSteps, joints_over};
ghost use Rattle.dq_check.specs.Takes.{AreTakes};

use crate::due::{Due, Joining};
use crate::grounds::Grounds;
use crate::joints::{joined_count, joints_of};
use crate::order::entry_at;
use crate::origins::origins_met;
use crate::owing::{all_owed, all_refused};
use crate::takes::Takes;
use crate::walking::History;
use crate::zones::first_unexplained;
use dq_base::{Memory, Queries, Query, Script, Step};
use dq_extract::Loaded;
use dq_journal::{Entry, Met, StepResult, ZoneResult, ZoneResults};
use dq_shown::Starts;
use std::alloc::Global;

// The number, from 1, of the first outcome that may not be shown of zones to which this is due; 0 where another number is shown.
fn wrong_among(
    alloc: Global,
    joints: &[Option<Joining>],
    dues: &[Due],
    shown: &[ZoneResult],
) -> Result<Option<u32>, Memory>
    requires leaders { HaveLeaders dues.now dues.now }
    requires count { length dues.now ≡ length joints.now }
    ensures { IfOk result (IsWrongAmong joints.now dues.now shown.now) }
{
    if shown.len() as u64 != joined_count(joints) {
        return Ok(Some(0));
    }
    let Some(place) = first_unexplained(alloc, dues, joints, shown)? else {
        return Ok(None);
    };
    let Ok(number) = u32::try_from(place + 1) else {
        return Err(Memory);
    };
    Ok(Some(number))
}

// The same of the zones of a lane's step.
fn wrong_of_zones(
    alloc: Global,
    script: &Script,
    starts: &Starts,
    lane: u64,
    step: u64,
    zones: &[Query],
    dues: &[Due],
    shown: &[ZoneResult],
) -> Result<Option<u32>, Memory>
    requires starts { LeadFrom 0 script.now.blends starts.now.entries }
    requires leaders { HaveLeaders dues.now dues.now }
    requires count { length dues.now ≡ length zones.now }
    ensures { IfOk result (IsWrongAmong (joints_over (joint_at script.now lane step) 1 zones.now) dues.now shown.now) }
{
    let joints = joints_of(alloc, script, starts, lane, step, zones)?;
    wrong_among(alloc, joints.as_slice(), dues, shown)
}

// What the remote queries met of the batch whose entry stands at a place from 1.
fn met_at(journal: &[Entry], place: u64) -> &[Met]
    ensures { result.now ≡ met_in (numbered journal.now place) }
{
    match entry_at(journal, place) {
        Some(Entry::Admit { met, .. }) => met.as_slice(),
        _ => &[],
    }
}

// The stamps of the zones of the batch whose entry stands at a place from 1.
fn stamps_told(history: &History, place: u64) -> &[u64]
    ensures { result.now ≡ unwrap_or (numbered history.now.stamps place) [] }
{
    if place == 0 {
        return &[];
    }
    match history.stamps.get(place - 1) {
        Some(stamps) => stamps.as_slice(),
        None => &[],
    }
}

// What is due to the zones of a lane's batch whose entry stands at a place from 1.
fn admitted_dues(
    alloc: Global,
    loaded: &Loaded,
    journal: &[Entry],
    grounds: &Grounds,
    takes: &Takes,
    lane: u64,
    number: u64,
    place: u64,
    zones: &Queries,
) -> Result<Vec<Due>, Memory>
    requires grounds { AreGrounds loaded.now journal.now grounds.now }
    requires takes { AreTakes lane journal.now takes.now }
    requires entry { admits lane number (numbered journal.now place) ≡ true }
    requires zones { step_of loaded.now.script.lanes lane number ≡ Some (step_kind.Batch zones.now) }
    ensures { IfOk result (λ dues. dues.items ≡ dues_of loaded.now.script.schemas (stand loaded.now journal.now place) journal.now zones.now (origins loaded.now.script.schemas journal.now lane place zones.now)) }
{
    let schemas = &loaded.script().schemas;
    let origins = origins_met(
        alloc,
        schemas,
        zones,
        met_at(journal, place),
        takes.behind(place),
    )?;
    let dues = all_owed(
        alloc,
        schemas,
        grounds.machine(),
        grounds.losses(),
        origins.as_slice(),
        stamps_told(grounds.history(), place),
        zones.as_slice(),
    )?;
    Ok(dues)
}

// The first zone of a lane's admitted batch that is wrong, by its number from 1; 0 where another number is shown.
fn wrong_admitted(
    alloc: Global,
    loaded: &Loaded,
    journal: &[Entry],
    grounds: &Grounds,
    takes: &Takes,
    lane: u64,
    number: u64,
    place: u64,
    zones: &Queries,
    shown: &ZoneResults,
) -> Result<Option<u32>, Memory>
    requires grounds { AreGrounds loaded.now journal.now grounds.now }
    requires takes { AreTakes lane journal.now takes.now }
    requires entry { admits lane number (numbered journal.now place) ≡ true }
    requires zones { step_of loaded.now.script.lanes lane number ≡ Some (step_kind.Batch zones.now) }
    ensures { IfOk result (JudgesStep loaded.now journal.now lane number (step_kind.Batch zones.now) (StepResult.Admitted place shown.now)) }
{
    let dues = admitted_dues(
        alloc, loaded, journal, grounds, takes, lane, number, place, zones,
    )?;
    let wrong = wrong_of_zones(
        alloc,
        loaded.script(),
        &grounds.starts,
        lane,
        number,
        zones.as_slice(),
        dues.as_slice(),
        shown.as_slice(),
    )?;
    Ok(wrong)
}

// The same of a batch that was refused for memory.
fn wrong_unadmitted(
    alloc: Global,
    loaded: &Loaded,
    journal: &[Entry],
    grounds: &Grounds,
    lane: u64,
    number: u64,
    zones: &Queries,
    shown: &ZoneResults,
) -> Result<Option<u32>, Memory>
    requires grounds { AreGrounds loaded.now journal.now grounds.now }
    ensures { IfOk result (JudgesStep loaded.now journal.now lane number (step_kind.Batch zones.now) (StepResult.Unadmitted shown.now)) }
{
    let script = loaded.script();
    let dues = all_refused(alloc, &script.schemas, zones.as_slice())?;
    let wrong = wrong_of_zones(
        alloc,
        script,
        &grounds.starts,
        lane,
        number,
        zones.as_slice(),
        dues.as_slice(),
        shown.as_slice(),
    )?;
    Ok(wrong)
}

// The same of a batch by what is told of it.
fn wrong_in_batch(
    alloc: Global,
    loaded: &Loaded,
    journal: &[Entry],
    grounds: &Grounds,
    takes: &Takes,
    lane: u64,
    number: u64,
    zones: &Queries,
    told: &StepResult,
) -> Result<Option<u32>, Memory>
    requires grounds { AreGrounds loaded.now journal.now grounds.now }
    requires takes { AreTakes lane journal.now takes.now }
    requires told { tells_place journal.now lane number (step_kind.Batch zones.now) told.now ≡ true }
    requires zones { step_of loaded.now.script.lanes lane number ≡ Some (step_kind.Batch zones.now) }
    ensures { IfOk result (JudgesStep loaded.now journal.now lane number (step_kind.Batch zones.now) told.now) }
{
    match told {
        StepResult::Published(_) => Ok(None),
        StepResult::Unpublished => Ok(None),
        StepResult::Admitted(place, shown) => wrong_admitted(
            alloc, loaded, journal, grounds, takes, lane, number, *place, zones, shown,
        ),
        StepResult::Unadmitted(shown) => {
            wrong_unadmitted(alloc, loaded, journal, grounds, lane, number, zones, shown)
        }
    }
}

// The first zone of a lane's step that is wrong. Nothing is shown of a refresh.
fn wrong_in_step(
    alloc: Global,
    loaded: &Loaded,
    journal: &[Entry],
    grounds: &Grounds,
    takes: &Takes,
    lane: u64,
    number: u64,
    step: &Step,
    told: &StepResult,
) -> Result<Option<u32>, Memory>
    requires grounds { AreGrounds loaded.now journal.now grounds.now }
    requires takes { AreTakes lane journal.now takes.now }
    requires told { tells_place journal.now lane number step.now told.now ≡ true }
    requires named { step_of loaded.now.script.lanes lane number ≡ Some step.now }
    ensures { IfOk result (JudgesStep loaded.now journal.now lane number step.now told.now) }
{
    match step {
        Step::Publish { .. } => Ok(None),
        Step::Batch(zones) => {
            wrong_in_batch(
                alloc, loaded, journal, grounds, takes, lane, number, zones, told,
            )
        }
    }
}

/// The first step of a lane of which a zone is wrong, by its number from 1, and that zone. The cost is that of the zones' answers, and
/// of reading the journal once.
pub(crate) fn wrong_in_lane(
    alloc: Global,
    loaded: &Loaded,
    journal: &[Entry],
    grounds: &Grounds,
    lane: u64,
    steps: &[Step],
    told: &[StepResult],
) -> Result<Option<(u32, u32)>, Memory>
    requires grounds { AreGrounds loaded.now journal.now grounds.now }
    requires told { tell_places journal.now lane 1 steps.now told.now ≡ true }
    requires named { numbered loaded.now.script.lanes lane ≡ Some steps.now }
    ensures { IfOk result (JudgesSteps loaded.now journal.now lane steps.now told.now) }
{
    let takes = Takes::new(alloc, journal, lane)?;
    for (place, step) in steps.iter().enumerate() {
        let number = place as u64 + 1;
        let told = &told[place];
        if let Some(zone) = wrong_in_step(
            alloc, loaded, journal, grounds, &takes, lane, number, step, told,
        )? {
            let Ok(number) = u32::try_from(number) else {
                return Err(Memory);
            };
            return Ok(Some((number, zone)));
        }
    }
    Ok(None)
}
