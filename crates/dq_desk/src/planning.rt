ghost use Rattle.std.specs.Arc.{arc_value};
ghost use Rattle.std.specs.List.{AllByRecursion, cons_option};
ghost use Rattle.std.specs.Prelude.{◌≡◌, ◌<◌, [], ◌∷◌, ◌++◌, IfOk, OnOk, Some, length, map, slice_get};
ghost use Rattle.dq_desk.specs.Plans as specified;
ghost use Rattle.dq_desk.specs.Plans.{AllStand, StandsAs, joins_by, stamp_of};
ghost use Rattle.dq_text.specs.Sizes.{IsSizedQuery};
ghost use Rattle.dq_text.specs.Statements.{body};

use crate::stood::{Stood, Stoods};
use crate::waiting::Join;
use dq_base::{Canon, Canons, List, Memory, Text, Texts};
use dq_cache::{Clever, Literal};
use dq_flight::Flights;
use dq_journal::Met;
use dq_machine::Stand;
use dq_text::is_sized_key;
use std::alloc::Global;
use std::sync::Arc;

/// What each query of an admission will meet; none is a miss. The flight of an answer in a cache is left open, as 0.
pub(crate) type Plan = List<Option<Met>>;

/// The stamp of a source, or 0 where there is no such source.
pub(crate) fn stamp_at(stamps: &[u64], source: u32) -> u64
    ensures { result ≡ stamp_of stamps.now source }
{
    match stamps.get(source as usize) {
        Some(stamp) => *stamp,
        None => 0,
    }
}

/// The text at a place.
pub(crate) fn text_at(texts: &Texts, place: usize) -> &Text
    requires { place < length texts.now }
    ensures { slice_get texts.now place ≡ Some result.now }
{
    &texts.as_slice()[place]
}

/// Reading each key brings to the proof that its types keep it small.
pub(crate) fn read_keys(keys: &Canons)
    ensures { AllByRecursion IsSizedQuery keys.now }
{
    for key in keys.as_slice() {
        is_sized_key(key);
    }
}

/// What a query will meet.
fn look(
    clever: &Clever,
    literal: &Literal,
    flights: &Flights,
    stamp: u64,
    q: &Canon,
    text: &Text,
) -> Option<Met>
    ensures { result ≡ specified.planned clever.now.entries literal.now.entries flights.now.flights stamp q.now text.now }
{
    if clever.has(stamp, q) {
        return Some(Met::Hit(0));
    }
    if literal.has(stamp, text) {
        return Some(Met::Literal(0));
    }
    match flights.find(stamp, q) {
        Some(number) => Some(Met::Join(number)),
        None => None,
    }
}

/// What each query will meet. Nothing changes: no entry goes to the front.
pub(crate) fn plan(
    alloc: Global,
    clever: &Clever,
    literal: &Literal,
    flights: &Flights,
    stamps: &[u64],
    queries: &Canons,
    texts: &Texts,
) -> Result<Plan, Memory>
    requires { texts.now ≡ map body queries.now }
    ensures { IfOk result (λ plan. plan ≡ map (λ q. specified.planned clever.now.entries literal.now.entries flights.now.flights (stamp_of stamps.now q.source) q (body q)) queries.now) }
{
    let mut plan = List::new(alloc);
    for (place, q) in queries.as_slice().iter().enumerate() {
        let stamp = stamp_at(stamps, q.query().source);
        plan.push(look(clever, literal, flights, stamp, q, text_at(texts, place)))?;
    }
    Ok(plan)
}

/// What a query will meet by the plan; none where there is no such place.
fn planned_at(plan: &Plan, place: u64) -> Option<Option<Met>>
    ensures { result ≡ slice_get plan.now place }
{
    plan.get(place).copied()
}

/// Puts a query's join at the end if it joins a flight.
fn add_join(
    stamps: &[u64],
    met: Option<Option<Met>>,
    q: &Arc<Canon>,
    joins: &mut Vec<Join>,
) -> Result<(), Memory>
    ensures { OnOk result (joins.new.items ≡ joins.old.items ++ joins_by (stamp_of stamps.now) (cons_option met []) (arc_value q.now ∷ [])) }
{
    match met {
        Some(Some(Met::Join(flight))) => {
            let stamp = stamp_at(stamps, q.query().source);
            let query = Arc::try_clone(q)?;
            joins.push(Join {
                flight,
                query,
                stamp,
            })?;
            Ok(())
        }
        Some(Some(Met::Hit(_))) => Ok(()),
        Some(Some(Met::Literal(_))) => Ok(()),
        Some(Some(Met::Group(_))) => Ok(()),
        Some(None) => Ok(()),
        None => Ok(()),
    }
}

/// The joins of a plan, in zone order.
pub(crate) fn plan_joins(
    alloc: Global,
    stamps: &[u64],
    plan: &Plan,
    queries: &Canons,
) -> Result<Vec<Join>, Memory>
    ensures { IfOk result (λ joins. joins.items ≡ joins_by (stamp_of stamps.now) plan.now queries.now) }
{
    let mut joins = Vec::new(alloc);
    for (place, q) in queries.as_slice().iter().enumerate() {
        add_join(stamps, planned_at(plan, place as u64), q, &mut joins)?;
    }
    Ok(joins)
}

/// What stands of a source.
pub(crate) fn stood_at(stamps: &[u64], stands: &[Stand], source: u32) -> Result<Stood, Memory>
    requires { source < length stands.now }
    ensures { IfOk result (λ stood. StandsAs stamps.now stands.now source stood) }
{
    let extract = Arc::try_clone(stands[source as usize].extract())?;
    Ok(Stood::new(stamp_at(stamps, source), extract))
}

/// What stands of each query's source.
pub(crate) fn stand_all(
    alloc: Global,
    stamps: &[u64],
    stands: &[Stand],
    queries: &Canons,
) -> Result<Stoods, Memory>
    requires { AllByRecursion (λ q. q.source < length stands.now) queries.now }
    ensures { IfOk result (λ stood. AllStand stamps.now stands.now queries.now stood) }
{
    let mut stood = List::new(alloc);
    for q in queries.as_slice() {
        stood.push(stood_at(stamps, stands, q.query().source)?)?;
    }
    Ok(stood)
}
