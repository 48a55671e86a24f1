// Each law once, behind the end of one of two lanes.
ghost use Rattle.std.specs.Prelude.{◌≡◌, [], ◌∷◌, IfOk};
ghost use Rattle.dq_base.specs.Scripts.{IsScript};

use crate::{
    calls_are_few, counts_are_few, fates_are_settled, flights_are_few, flights_are_numbered,
    flights_lose_few, idle_lanes_stay, joined_flights_stay, journals_are_short, keys_are_valid,
    left_flights_are_over, links_are_few, links_differ, losses_are_few, other_lanes_stay,
    owed_room_lasts, own_flights_run, published_rows_stay, running_flights_are_own,
    some_lane_goes_on, stamps_are_published,
};
use dq_base::{Bound, Fails, FailsList, LaneSteps, List, Memory, Script, Steps};
use dq_extract::{Loaded, SegmentList};
use dq_journal::Entry;
use std::alloc::Global;
use std::test::Fail;

fn no_fails(alloc: Global) -> Fails
    ensures { result ≡ record { dials = []; links = [] } }
{
    Fails {
        dials: List::new(alloc),
        links: List::new(alloc),
    }
}

// Two lanes without steps.
fn lanes(alloc: Global) -> Result<LaneSteps, Memory>
    ensures { IfOk result (λ lanes. lanes ≡ [] ∷ [] ∷ []) }
{
    let mut lanes: LaneSteps = List::new(alloc);
    let first: Steps = List::new(alloc);
    lanes.push(first)?;
    let second: Steps = List::new(alloc);
    lanes.push(second)?;
    Ok(lanes)
}

fn fails(alloc: Global) -> Result<FailsList, Memory>
    ensures { IfOk result (λ fails. fails ≡ record { dials = []; links = [] } ∷ record { dials = []; links = [] } ∷ []) }
{
    let mut fails: FailsList = List::new(alloc);
    fails.push(no_fails(alloc))?;
    fails.push(no_fails(alloc))?;
    Ok(fails)
}

fn script(alloc: Global) -> Result<Script, Memory>
    ensures script { IfOk result IsScript }
    ensures lanes { IfOk result (λ script. script.lanes ≡ [] ∷ [] ∷ []) }
    ensures schemas { IfOk result (λ script. script.schemas ≡ []) }
{
    let lanes = lanes(alloc)?;
    let fails = fails(alloc)?;
    Ok(Script {
        names: List::new(alloc),
        schemas: List::new(alloc),
        literal: Bound::Entries(1),
        clever: Bound::Cells(1),
        lanes,
        schedule: List::new(alloc),
        fails,
        sessions: List::new(alloc),
        blends: List::new(alloc),
    })
}

fn loaded(alloc: Global) -> Result<Loaded, Memory>
    ensures { IfOk result (λ loaded. loaded.script.lanes ≡ [] ∷ [] ∷ []) }
{
    let script = script(alloc)?;
    Loaded::new(alloc, script, SegmentList::new(alloc))
}

#[test]
fn one_lane_is_left(rt: HostRuntime) -> Result<(), Fail> {
    let loaded = loaded(rt.alloc())?;
    let journal = [Entry::End { lane: 2 }];
    some_lane_goes_on(&loaded, &journal, 1);
    running_flights_are_own(&loaded, &journal);
    joined_flights_stay(&loaded, &journal);
    links_are_few(&loaded, &journal);
    links_differ(&loaded, &journal, 1);
    counts_are_few(&loaded, &journal);
    calls_are_few(&loaded, &journal);
    journals_are_short(&loaded, &journal);
    let before: [Entry; 0] = [];
    owed_room_lasts(&loaded, &before, &Entry::End { lane: 2 });
    flights_are_numbered(&loaded, &journal);
    flights_are_few(&loaded, &journal);
    losses_are_few(&loaded, &journal, 1);
    flights_lose_few(&loaded, &journal, 1);
    stamps_are_published(&loaded, &journal);
    published_rows_stay(&loaded, &journal, &journal, 0);
    keys_are_valid(&loaded, &journal);
    own_flights_run(&loaded, &journal);
    other_lanes_stay(&loaded, &before, &Entry::End { lane: 2 }, 1);
    idle_lanes_stay(&loaded, &before, &journal, 1);
    let more = [Entry::End { lane: 1 }];
    left_flights_are_over(&loaded, &journal, &more, 0);
    fates_are_settled(&loaded, &journal, &more, 0);
    Ok(())
}
