ghost use Rattle.std.specs.List.{enumerate_from};
ghost use Rattle.std.specs.Prelude.{◌≡◌, [], ◌∷◌, ◌++◌, drop, map, slice_get, unwrap_or, IfOk, OnOk, None};
ghost use Rattle.dq_machine.specs.Owning as specified;
ghost use Rattle.dq_machine.specs.Owning.{first_started, no_origin, origin_of, origins_met, over_zones, own_flights, spread, valid_origins, valid_places};

use dq_base::{Memory, Queries, Query, Role, Schemas};
use dq_graph::split;
use dq_journal::Met;
use dq_machine::canons;
use dq_query::check;
use std::alloc::Global;
use std::marker::Model;

/// Whose answer a valid zone has: the flight that is its own, if it has one, and for a local zone the place, from 0, of the zone
/// from which it is computed.
#[derive(Debug, Drop)]
pub(crate) struct Origin {
    pub(crate) own: Option<u64>,
    pub(crate) leader: Option<u64>,
}

impl Model for Origin {
    ghost use Rattle.dq_machine.specs.Owning.{Origin as OriginOf};

    ghost Value = { OriginOf };

    ghost view = { λ o. record { own = o.own; leader = o.leader } };
}

impl Origin {
    /// That of a zone that has neither.
    pub(crate) fn none() -> Origin
        ensures { result ≡ no_origin }
    {
        Origin {
            own: None,
            leader: None,
        }
    }

    /// The same again.
    pub(crate) fn copy(&self) -> Origin
        ensures { result ≡ self.now }
    {
        Origin {
            own: self.own,
            leader: self.leader,
        }
    }
}

// The first of these, or none where there is none.
fn first_of(starts: &[Option<u64>]) -> Option<u64>
    ensures { result ≡ first_started starts.now }
{
    match starts.first() {
        Some(first) => *first,
        None => None,
    }
}

// All of these but the first.
fn rest_of(starts: &[Option<u64>]) -> &[Option<u64>]
    ensures { result.now ≡ drop 1 starts.now }
{
    match starts.split_first() {
        Some((_, rest)) => rest,
        None => starts,
    }
}

// The own flights of remote queries, by what they met: that of their group, or what the Take of their join starts.
fn own_flights(
    alloc: Global,
    met: &[Met],
    takes: &[Option<u64>],
) -> Result<Vec<Option<u64>>, Memory>
    ensures { IfOk result (λ owns. owns.items ≡ own_flights met.now takes.now) }
{
    let mut owns = Vec::new(alloc);
    let mut left = takes;
    for one in met {
        match one {
            Met::Hit(_) => owns.push(None)?,
            Met::Literal(_) => owns.push(None)?,
            Met::Group(flight) => owns.push(Some(*flight))?,
            Met::Join(_) => {
                owns.push(first_of(left))?;
                left = rest_of(left);
            }
        }
    }
    Ok(owns)
}

// One for each role: that of the remote query, and none for a local one.
fn spread(alloc: Global, roles: &[Role], owns: &[Option<u64>]) -> Result<Vec<Option<u64>>, Memory>
    ensures { IfOk result (λ flights. flights.items ≡ spread roles.now owns.now) }
{
    let mut flights = Vec::new(alloc);
    let mut left = owns;
    for role in roles {
        match role {
            Role::Remote => {
                flights.push(first_of(left))?;
                left = rest_of(left);
            }
            Role::Local(_) => flights.push(None)?,
        }
    }
    Ok(flights)
}

// The flight at a place, if there is one.
fn flight_at(flights: &[Option<u64>], place: usize) -> Option<u64>
    ensures { result ≡ unwrap_or (slice_get flights.now place) None }
{
    match flights.get(place) {
        Some(flight) => *flight,
        None => None,
    }
}

// Whose answer the valid zone at a place among the valid ones has.
fn origin_of(flights: &[Option<u64>], places: &[u64], place: usize, role: &Role) -> Origin
    ensures { result ≡ origin_of flights.now places.now place role.now }
{
    match role {
        Role::Remote => Origin {
            own: flight_at(flights, place),
            leader: None,
        },
        Role::Local(source) => Origin {
            own: flight_at(flights, *source as usize),
            leader: places.get(*source as usize).copied(),
        },
    }
}

// Whose answers the valid zones have, in order.
fn valid_origins(
    alloc: Global,
    roles: &[Role],
    owns: &[Option<u64>],
    places: &[u64],
) -> Result<Vec<Origin>, Memory>
    ensures { IfOk result (λ origins. origins.items ≡ valid_origins roles.now owns.now places.now) }
{
    let flights = spread(alloc, roles, owns)?;
    let mut origins = Vec::new(alloc);
    for (place, role) in roles.iter().enumerate() {
        origins.push(origin_of(flights.as_slice(), places, place, role))?;
    }
    Ok(origins)
}

// The places of the valid zones, from 0.
fn valid_places(alloc: Global, schemas: &Schemas, zones: &[Query]) -> Result<Vec<u64>, Memory>
    ensures { IfOk result (λ places. places.items ≡ valid_places schemas.now 0 zones.now) }
{
    let mut places = Vec::new(alloc);
    for (place, zone) in zones.iter().enumerate() {
        if check(schemas, zone).is_ok() {
            places.push(place as u64)?;
        }
    }
    Ok(places)
}

// One for each zone, where those of the valid ones are given in order.
fn over_zones(
    alloc: Global,
    schemas: &Schemas,
    zones: &[Query],
    valid: &[Origin],
) -> Result<Vec<Origin>, Memory>
    ensures { IfOk result (λ origins. origins.items ≡ over_zones schemas.now zones.now valid.now) }
{
    let mut origins = Vec::new(alloc);
    let mut left = valid;
    for zone in zones {
        match left.split_first() {
            Some((first, rest)) => {
                if check(schemas, zone).is_ok() {
                    origins.push(first.copy())?;
                    left = rest;
                } else {
                    origins.push(Origin::none())?;
                }
            }
            None => origins.push(Origin::none())?,
        }
    }
    Ok(origins)
}

/// Whose answers the zones of a batch have whose remote queries met this, where the lane's Takes behind its entry start these
/// flights. Each pair of valid zones is compared.
pub(crate) fn origins_met(
    alloc: Global,
    schemas: &Schemas,
    zones: &Queries,
    met: &[Met],
    takes: &[Option<u64>],
) -> Result<Vec<Origin>, Memory>
    ensures { IfOk result (λ origins. origins.items ≡ origins_met schemas.now zones.now met.now takes.now) }
{
    let roles = split(alloc, &canons(alloc, schemas, zones)?)?;
    let owns = own_flights(alloc, met, takes)?;
    let places = valid_places(alloc, schemas, zones.as_slice())?;
    let valid = valid_origins(alloc, roles.as_slice(), owns.as_slice(), places.as_slice())?;
    over_zones(alloc, schemas, zones.as_slice(), valid.as_slice())
}
