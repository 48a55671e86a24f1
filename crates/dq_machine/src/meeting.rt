ghost use Rattle.std.specs.Arc.{arc_value};
ghost use Rattle.std.specs.Cmp.Lexicographic.{pointwise};
ghost use Rattle.std.specs.List.{cons_option, list_any};
ghost use Rattle.std.specs.Prelude.{◌≡◌, ◌+◌, ◌<◌, [], ◌∷◌, ◌++◌, ◌^◌, IfOk, OnOk, length, nat_eq, slice_get};
ghost use Rattle.dq_machine.specs.Admitting as specified;
ghost use Rattle.dq_machine.specs.Admitting.{joins_of, meets_of, number_in};

use crate::joined::Joined;
use crate::versions::Versions;
use dq_base::{Canon, Canons, List, Memory, Numbers64};
use dq_fuse::{Group, Groups};
use dq_journal::{Meets, Met};
use std::alloc::Global;
use std::sync::Arc;

/// What the query at a place met; none where there is no such place.
fn met_at(found: &List<Option<Met>>, place: u64) -> Option<Option<Met>>
    ensures { result ≡ slice_get found.now place }
{
    found.get(place).copied()
}

/// Puts a query at the end if it met nothing.
fn add_miss(met: Option<Option<Met>>, q: &Arc<Canon>, misses: &mut Canons) -> Result<(), Memory>
    ensures { OnOk result (misses.new ≡ misses.old ++ specified.missed (cons_option met []) (arc_value q.now ∷ [])) }
{
    if let Some(None) = met {
        misses.push(Arc::try_clone(q)?)?;
    }
    Ok(())
}

/// The queries that met nothing, in their order.
pub fn missed(alloc: Global, found: &List<Option<Met>>, queries: &Canons) -> Result<Canons, Memory>
    ensures { IfOk result (λ misses. misses ≡ specified.missed found.now queries.now) }
{
    let mut misses = Canons::new(alloc);
    for (place, q) in queries.as_slice().iter().enumerate() {
        add_miss(met_at(found, place as u64), q, &mut misses)?;
    }
    Ok(misses)
}

/// Whether a group has the miss at a place, which counts from 0.
fn has_member(group: &Group, place: u64) -> bool
    ensures { result ≡ list_any (nat_eq place) group.now.members }
{
    group
        .members()
        .as_slice()
        .iter()
        .any(|member| place == u64::from(*member))
}

/// The number of the group that has the miss at a place, where the first group has this number.
fn group_number(first: u64, groups: &Groups, place: u64) -> u64
    requires { first + length groups.now < 2 ^ 64 }
    ensures { result ≡ number_in first groups.now place }
{
    let mut number = first;
    for group in groups.as_slice() {
        if has_member(group, place) {
            return number;
        }
        number += 1;
    }
    number
}

/// The numbers of the misses' groups, in their order.
pub fn miss_numbers(
    alloc: Global,
    first: u64,
    groups: &Groups,
    misses: &Canons,
) -> Result<Numbers64, Memory>
    requires { first + length groups.now < 2 ^ 64 }
    ensures { IfOk result (λ numbers. numbers ≡ specified.miss_numbers first groups.now misses.now) }
{
    let mut numbers = List::new(alloc);
    for place in 0..misses.len() {
        numbers.push(group_number(first, groups, place))?;
    }
    Ok(numbers)
}

/// What each query met, where each miss has its group's number.
pub fn meets(alloc: Global, found: &[Option<Met>], numbers: &[u64]) -> Result<Meets, Memory>
    ensures { IfOk result (λ meets. meets ≡ meets_of found.now numbers.now) }
{
    let mut meets = List::new(alloc);
    let mut rest = numbers;
    for met in found {
        if let Some(met) = met {
            meets.push(*met)?;
            continue;
        }
        if let Some((number, others)) = rest.split_first() {
            meets.push(Met::Group(*number))?;
            rest = others;
        }
    }
    Ok(meets)
}

/// Puts a query's join at the end if it joined a flight.
fn add_join(
    versions: &Versions,
    met: Option<Option<Met>>,
    q: &Arc<Canon>,
    joins: &mut List<Joined>,
) -> Result<(), Memory>
    ensures { OnOk result (joins.new ≡ joins.old ++ joins_of versions.now (cons_option met []) (arc_value q.now ∷ [])) }
{
    match met {
        Some(Some(Met::Join(flight))) => {
            let stamp = versions.stamp(q.query().source);
            let query = Arc::try_clone(q)?;
            joins.push(Joined {
                flight,
                query,
                stamp,
            })?;
            Ok(())
        }
        Some(Some(Met::Hit(_))) => Ok(()),
        Some(Some(Met::Literal(_))) => Ok(()),
        Some(Some(Met::Group(_))) => Ok(()),
        Some(None) => Ok(()),
        None => Ok(()),
    }
}

/// The joins, in zone order.
pub(crate) fn joins(
    alloc: Global,
    versions: &Versions,
    found: &List<Option<Met>>,
    queries: &Canons,
) -> Result<List<Joined>, Memory>
    ensures { IfOk result (λ joins. joins ≡ joins_of versions.now found.now queries.now) }
{
    let mut joins = List::new(alloc);
    for (place, q) in queries.as_slice().iter().enumerate() {
        add_join(versions, met_at(found, place as u64), q, &mut joins)?;
    }
    Ok(joins)
}

/// Whether two queries met the same.
fn is_met(a: Met, b: Met) -> bool
    ensures { result ≡ specified.met_eq a b }
{
    match (a, b) {
        (Met::Hit(x), Met::Hit(y)) => x == y,
        (Met::Literal(x), Met::Literal(y)) => x == y,
        (Met::Join(x), Met::Join(y)) => x == y,
        (Met::Group(x), Met::Group(y)) => x == y,
        _ => false,
    }
}

/// Whether two lists say the same of each query. It costs a comparison for each.
pub(crate) fn are_met(a: &[Met], b: &[Met]) -> bool
    ensures { result ≡ pointwise specified.met_eq a.now b.now }
{
    match (a.split_first(), b.split_first()) {
        (None, None) => true,
        (Some((x, xs)), Some((y, ys))) => is_met(*x, *y) && are_met(xs, ys),
        _ => false,
    }
}
