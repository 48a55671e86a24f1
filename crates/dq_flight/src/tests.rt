ghost use Rattle.std.specs.Prelude.{◌≡◌, []};

use crate::{Flights, Look};
use dq_base::{Canon, Dim, Dims, List, Measure, Memory, Predicates, Query, Table};
use std::alloc::Global;
use std::process::Abort;
use std::sync::Arc;
use std::test::Fail;

fn no_filters(alloc: Global) -> Predicates
    ensures { result ≡ [] }
{
    List::new(alloc)
}

fn dims(alloc: Global, columns: &[u32]) -> Result<Dims, Memory> {
    let mut dims = List::new(alloc);
    for column in columns {
        dims.push(Dim::plain(*column))?;
    }
    Ok(dims)
}

/// How many rows there are by these columns.
fn rows_by(alloc: Global, columns: &[u32]) -> Result<Arc<Canon>, Memory> {
    let mut measures = List::new(alloc);
    measures.push(Measure::Rows)?;
    let canon = Canon::new(Query {
        source: 0,
        filters: no_filters(alloc),
        dims: dims(alloc, columns)?,
        measures,
        order: List::new(alloc),
        top: None,
    });
    Ok(Arc::new(alloc, canon)?)
}

/// Starts a flight of lane 1, if it may be started.
fn start(flights: &mut Flights, number: u64, stamp: u64, key: Arc<Canon>) -> bool {
    let may = flights.may_start(number);
    if may {
        flights.start(number, 1, stamp, key);
    }
    may
}

fn join(flights: &mut Flights, number: u64) -> bool {
    match flights.standing(number) {
        Some((true, joiners)) if joiners < 9 => flights.join(number),
        _ => return false,
    }
    true
}

fn land(flights: &mut Flights, number: u64, table: Arc<Table>) -> bool {
    match flights.standing(number) {
        Some((true, _)) => flights.land(number, table),
        _ => return false,
    }
    true
}

fn fall(flights: &mut Flights, number: u64) -> bool {
    match flights.standing(number) {
        Some((true, _)) => flights.fall(number),
        _ => return false,
    }
    true
}

/// What a joiner is told: the rows of the table, how many fell, or that it waits.
#[derive(Debug, Drop, PartialEq, Eq)]
enum Told {
    NotAwaited,
    Waits,
    Rows(u64),
    Unshared,
    Fell,
}

fn what_was_told(look: &Look) -> Told {
    match look {
        Look::Running => Told::Waits,
        Look::Landed(Some((_, table))) => Told::Rows(table.len()),
        Look::Landed(None) => Told::Unshared,
        Look::Fallen => Told::Fell,
    }
}

fn take(flights: &mut Flights, number: u64) -> Told {
    match flights.standing(number) {
        Some((_, joiners)) if 0 < joiners => what_was_told(&flights.take(number)),
        _ => Told::NotAwaited,
    }
}

/// Flights 2 and 5 of stamp 1, the first by region and year, the second by region; and flight 7 of stamp 3, by region.
fn three(alloc: Global) -> Result<Flights, Memory> {
    let mut flights = Flights::new(alloc);
    flights.reserve(3)?;
    let _ = start(&mut flights, 2, 1, rows_by(alloc, &[0, 1])?);
    let _ = start(&mut flights, 5, 1, rows_by(alloc, &[0])?);
    let _ = start(&mut flights, 7, 3, rows_by(alloc, &[0])?);
    Ok(flights)
}

#[test]
fn the_lowest_running_flight_is_found(rt: HostRuntime) -> Result<(), Fail> {
    let alloc = rt.alloc();
    let by_region = rows_by(alloc, &[0])?;
    let by_year = rows_by(alloc, &[1])?;
    let all = rows_by(alloc, &[])?;
    let mut flights = three(alloc)?;
    assert_eq!(rt; flights.find(1, &by_region), Some(2));
    assert_eq!(rt; flights.find(3, &all), Some(7));
    assert_eq!(rt; flights.find(3, &by_year), None);
    assert_eq!(rt; flights.find(2, &all), None);
    assert!(rt; join(&mut flights, 2));
    assert!(rt; fall(&mut flights, 2));
    assert_eq!(rt; flights.find(1, &all), Some(5));
    assert_eq!(rt; flights.find(1, &by_year), None);
    Ok(())
}

#[test]
fn a_flight_stays_while_somebody_waits(rt: HostRuntime) -> Result<(), Fail> {
    let alloc = rt.alloc();
    let mut flights = three(alloc)?;
    assert!(rt; join(&mut flights, 5));
    assert!(rt; join(&mut flights, 5));
    assert_eq!(rt; take(&mut flights, 5), Told::Waits);
    assert_eq!(rt; flights.standing(5), Some((true, 2)));
    let table = Arc::new(alloc, Table::new(alloc))?;
    assert!(rt; land(&mut flights, 5, table));
    assert_eq!(rt; take(&mut flights, 5), Told::Rows(0));
    assert_eq!(rt; flights.standing(5), Some((false, 1)));
    assert_eq!(rt; take(&mut flights, 5), Told::Rows(0));
    assert_eq!(rt; take(&mut flights, 5), Told::NotAwaited);
    assert_eq!(rt; flights.standing(5), None);
    Ok(())
}

#[test]
fn a_joiner_is_told_of_a_fall(rt: HostRuntime) -> Result<(), Fail> {
    let mut flights = three(rt.alloc())?;
    assert!(rt; fall(&mut flights, 2));
    assert_eq!(rt; flights.standing(2), None);
    assert!(rt; join(&mut flights, 7));
    assert!(rt; fall(&mut flights, 7));
    assert_eq!(rt; take(&mut flights, 7), Told::Fell);
    assert_eq!(rt; flights.standing(7), None);
    assert_eq!(rt; flights.standing(5), Some((true, 0)));
    Ok(())
}
