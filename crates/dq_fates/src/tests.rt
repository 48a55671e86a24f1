// Each law once, behind the end of one of two lanes.
ghost use Rattle.std.specs.Prelude.{◌≡◌, [], ◌∷◌, IfOk};
ghost use Rattle.dq_base.specs.Scripts.{IsScript};

use crate::{
    dials_are_few, ended_flights_are_over, flights_end_as_told, given_flights_lost_few,
    idle_lanes_lose_no_dials, later_rows_stand, over_flights_stay, own_flights_have_not_fallen,
    stamps_lead_to_rows,
};
use dq_base::{Bound, Fails, FailsList, LaneSteps, List, Memory, Script, Steps};
use dq_extract::{Loaded, SegmentList};
use dq_journal::Entry;
use std::alloc::Global;
use std::test::Fail;

fn no_fails(alloc: Global) -> Fails
    ensures { result ≡ record { dials = []; links = [] } }
{
    Fails {
        dials: List::new(alloc),
        links: List::new(alloc),
    }
}

// Two lanes without steps.
fn lanes(alloc: Global) -> Result<LaneSteps, Memory>
    ensures { IfOk result (λ lanes. lanes ≡ [] ∷ [] ∷ []) }
{
    let mut lanes: LaneSteps = List::new(alloc);
    let first: Steps = List::new(alloc);
    lanes.push(first)?;
    let second: Steps = List::new(alloc);
    lanes.push(second)?;
    Ok(lanes)
}

fn fails(alloc: Global) -> Result<FailsList, Memory>
    ensures { IfOk result (λ fails. fails ≡ record { dials = []; links = [] } ∷ record { dials = []; links = [] } ∷ []) }
{
    let mut fails: FailsList = List::new(alloc);
    fails.push(no_fails(alloc))?;
    fails.push(no_fails(alloc))?;
    Ok(fails)
}

fn script(alloc: Global) -> Result<Script, Memory>
    ensures script { IfOk result IsScript }
    ensures lanes { IfOk result (λ script. script.lanes ≡ [] ∷ [] ∷ []) }
    ensures schemas { IfOk result (λ script. script.schemas ≡ []) }
{
    let lanes = lanes(alloc)?;
    let fails = fails(alloc)?;
    Ok(Script {
        names: List::new(alloc),
        schemas: List::new(alloc),
        literal: Bound::Entries(1),
        clever: Bound::Cells(1),
        lanes,
        schedule: List::new(alloc),
        fails,
        sessions: List::new(alloc),
        blends: List::new(alloc),
    })
}

fn loaded(alloc: Global) -> Result<Loaded, Memory>
    ensures { IfOk result (λ loaded. loaded.script.lanes ≡ [] ∷ [] ∷ []) }
{
    let script = script(alloc)?;
    Loaded::new(alloc, script, SegmentList::new(alloc))
}

#[test]
fn one_lane_is_left(rt: HostRuntime) -> Result<(), Fail> {
    let loaded = loaded(rt.alloc())?;
    let journal = [Entry::End { lane: 2 }];
    own_flights_have_not_fallen(&loaded, &journal, 1);
    given_flights_lost_few(&loaded, &journal, 1);
    let before: [Entry; 0] = [];
    flights_end_as_told(&loaded, &before, &Entry::End { lane: 2 });
    ended_flights_are_over(&loaded, &before, &Entry::End { lane: 2 });
    let more = [Entry::End { lane: 1 }];
    over_flights_stay(&loaded, &journal, &more, 0);
    stamps_lead_to_rows(&loaded, &journal, 1, 0);
    later_rows_stand(&loaded, &journal, &more, 2, 0);
    dials_are_few(&journal, 1);
    idle_lanes_lose_no_dials(&journal, &more, 2);
    Ok(())
}
