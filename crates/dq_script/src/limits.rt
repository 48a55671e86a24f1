ghost use Rattle.std.specs.Prelude.{◌≡◌, ◌+◌, ◌≤◌, None, min, sum_by, length, option_map};
ghost use Rattle.dq_base.specs.Scripts.{zones_in, zones_count};
ghost use Rattle.dq_script.specs.Reasons.{above, first_in, columns_above, steps_above, zones_above, faults_above, most_capacity, items_above, over, over_lanes, over_rest, over_limit};

use crate::draft::{Draft, Plan};
use crate::faults::Fault;
use crate::finds::{Finds, first_in};
use crate::form::Form;
use crate::items::filter_items;
use crate::sessions::Filtered;
use dq_base::{
    LaneSteps, Limit, MOST_ALL_ZONES, MOST_BOUND_CELLS, MOST_COLUMNS, MOST_ENTRIES, MOST_EXTRACTS,
    MOST_FAULTS, MOST_LANES, MOST_SESSION_ITEMS, MOST_STEPS, MOST_TURNS, MOST_ZONES, Schema, Step,
    Steps,
};

// A number, where it is above the most.
fn above(most: u64, number: u64) -> Option<u64>
    ensures { result ≡ above most number }
{
    if number <= most { None } else { Some(number) }
}

// Finds too many columns.
struct ColumnsAbove;

impl Finds for ColumnsAbove {
    type Item = Schema;

    ghost found = { λ s. columns_above };

    fn find(&self, schema: &Schema) -> Option<u64> {
        above(MOST_COLUMNS, schema.names().len())
    }
}

// Finds too many steps.
struct StepsAbove;

impl Finds for StepsAbove {
    type Item = Steps;

    ghost found = { λ s. steps_above };

    fn find(&self, steps: &Steps) -> Option<u64> {
        above(MOST_STEPS, steps.len())
    }
}

// Finds too many zones of a step.
struct ZonesAbove;

impl Finds for ZonesAbove {
    type Item = Step;

    ghost found = { λ s. zones_above };

    fn find(&self, step: &Step) -> Option<u64> {
        match step {
            Step::Publish { .. } => None,
            Step::Batch(zones) => above(MOST_ZONES, zones.len()),
        }
    }
}

// Finds too many zones of a lane's steps.
struct LaneZonesAbove;

impl Finds for LaneZonesAbove {
    type Item = Steps;

    ghost found = { λ s. first_in zones_above };

    fn find(&self, steps: &Steps) -> Option<u64> {
        first_in(&ZonesAbove, steps.as_slice())
    }
}

// Finds too many numbers of a fault.
struct FaultsAbove;

impl Finds for FaultsAbove {
    type Item = Fault;

    ghost found = { λ s. faults_above };

    fn find(&self, fault: &Fault) -> Option<u64> {
        if let Some(dials) = above(MOST_FAULTS, fault.dials.len()) {
            return Some(dials);
        }
        above(MOST_FAULTS, fault.links.len())
    }
}

// Finds too many items of a session.
struct ItemsAbove;

impl Finds for ItemsAbove {
    type Item = Filtered;

    ghost found = { λ s. items_above };

    fn find(&self, session: &Filtered) -> Option<u64> {
        above(MOST_SESSION_ITEMS, filter_items(session.filters.as_slice()))
    }
}

// The number of zones with those of a step, counted up to one above the most that lanes within their limits have.
fn add_zones(count: u64, step: &Step) -> u64
    requires { count ≤ 16777217 }
    ensures { result ≡ min (count + zones_in step.now) 16777217 }
{
    match step {
        Step::Publish { .. } => count,
        Step::Batch(zones) => {
            if zones.len() >= 16777217 - count {
                16777217
            } else {
                count + zones.len()
            }
        }
    }
}

// The number of zones with those of a lane.
fn add_steps(count: u64, steps: &[Step]) -> u64
    requires { count ≤ 16777217 }
    ensures { result ≡ min (count + sum_by zones_in steps.now) 16777217 }
{
    let mut total = count;
    for step in steps {
        total = add_zones(total, step);
    }
    total
}

// The number of zones of all lanes.
fn count_zones(lanes: &[Steps]) -> u64
    ensures { result ≡ min (zones_count lanes.now) 16777217 }
{
    let mut total = 0;
    for steps in lanes {
        total = add_steps(total, steps.as_slice());
    }
    total
}

// Too many zones of lanes whose other limits aren't passed.
fn all_zones_above(lanes: &[Steps]) -> Option<u64>
    requires lanes { above 64 (length lanes.now) ≡ None }
    requires steps { first_in steps_above lanes.now ≡ None }
    requires zones { first_in (first_in zones_above) lanes.now ≡ None }
    ensures { result ≡ above 65536 (zones_count lanes.now) }
{
    above(MOST_ALL_ZONES, count_zones(lanes))
}

// The first limit on lanes that is passed.
fn over_lanes(lanes: &LaneSteps) -> Option<(Limit, u64)>
    ensures { option_map (λ p. over p.0 p.1) result ≡ over_lanes lanes.now }
{
    if let Some(number) = above(MOST_LANES, lanes.len()) {
        return Some((Limit::Lanes, number));
    }
    if let Some(number) = first_in(&StepsAbove, lanes.as_slice()) {
        return Some((Limit::Steps, number));
    }
    if let Some(number) = first_in(&LaneZonesAbove, lanes.as_slice()) {
        return Some((Limit::Zones, number));
    }
    if let Some(number) = all_zones_above(lanes.as_slice()) {
        return Some((Limit::AllZones, number));
    }
    None
}

// How much a cache may hold.
fn most_capacity(form: Form) -> u64
    ensures { result ≡ most_capacity form }
{
    match form {
        Form::First => MOST_ENTRIES,
        Form::Second => MOST_BOUND_CELLS,
    }
}

// The first limit on what stands beside the lanes that is passed.
fn over_rest(form: Form, plan: &Plan) -> Option<(Limit, u64)>
    ensures { option_map (λ p. over p.0 p.1) result ≡ over_rest form plan.now }
{
    if let Some(number) = above(MOST_TURNS, plan.schedule.len()) {
        return Some((Limit::Turns, number));
    }
    if let Some(number) = first_in(&FaultsAbove, plan.faults.as_slice()) {
        return Some((Limit::Faults, number));
    }
    if let Some(number) = above(most_capacity(form), plan.literal) {
        return Some((Limit::Capacity, number));
    }
    if let Some(number) = above(most_capacity(form), plan.clever) {
        return Some((Limit::Capacity, number));
    }
    if let Some(number) = first_in(&ItemsAbove, plan.sessions.as_slice()) {
        return Some((Limit::SessionItems, number));
    }
    None
}

// The first limit that is passed, and the number that passes it.
pub fn over_limit(draft: &Draft) -> Option<(Limit, u64)>
    ensures { option_map (λ p. over p.0 p.1) result ≡ over_limit draft.now }
{
    if let Some(number) = above(MOST_EXTRACTS, draft.extracts.names.as_slice().len() as u64) {
        return Some((Limit::Extracts, number));
    }
    if let Some(number) = first_in(&ColumnsAbove, draft.extracts.schemas.as_slice()) {
        return Some((Limit::Columns, number));
    }
    if let Some(over) = over_lanes(&draft.plan.lanes.lanes) {
        return Some(over);
    }
    over_rest(draft.form, &draft.plan)
}
