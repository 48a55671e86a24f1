ghost use Rattle.std.specs.Prelude.{◌≡◌, IfOk, []};

use crate::{Prepared, Roles, sources_are_remote, split};
use dq_base::{
    Canon, Canons, Dim, Dims, List, Measure, Memory, Numbers, Predicates, Query, Role, Texts,
};
use std::alloc::Global;
use std::process::Abort;
use std::sync::Arc;
use std::test::Fail;

const REGION: u32 = 0;

const YEAR: u32 = 1;

const AMOUNT: u32 = 2;

/// Dimensions, each with its column and width, and measures.
type Asked<'a> = (&'a [(u32, u32)], &'a [Measure]);

fn no_filters(alloc: Global) -> Predicates
    ensures { result ≡ [] }
{
    List::new(alloc)
}

fn dims(alloc: Global, items: &[(u32, u32)]) -> Result<Dims, Memory> {
    let mut dims = List::new(alloc);
    for (column, width) in items {
        if let Some(dim) = Dim::new(*column, *width) {
            dims.push(dim)?;
        }
    }
    Ok(dims)
}

fn canon_of(alloc: Global, asked: &Asked<'_>) -> Result<Canon, Memory> {
    Ok(Canon::new(Query {
        source: 0,
        filters: no_filters(alloc),
        dims: dims(alloc, asked.0)?,
        measures: List::from_vec(asked.1.to_vec(alloc)?),
        order: List::new(alloc),
        top: None,
    }))
}

fn batch_of(alloc: Global, batch: &[Asked<'_>]) -> Result<Canons, Memory> {
    let mut canons = Canons::new(alloc);
    for asked in batch {
        canons.push(Arc::new(alloc, canon_of(alloc, asked)?)?)?;
    }
    Ok(canons)
}

fn roles_of(alloc: Global, batch: &[Asked<'_>]) -> Result<Roles, Memory> {
    split(alloc, &batch_of(alloc, batch)?)
}

const REMOTE: Role = Role::Remote;

#[test]
fn counted_values_come_from_a_finer_query(rt: HostRuntime) -> Result<(), Fail> {
    let by_region: &[(u32, u32)] = &[(REGION, 1)];
    let roles = roles_of(
        rt.alloc(),
        &[
            (by_region, &[Measure::Distinct(YEAR)]),
            (&[(REGION, 1), (YEAR, 1)], &[Measure::Rows]),
            (by_region, &[Measure::Distinct(AMOUNT)]),
            (&[], &[Measure::Distinct(YEAR), Measure::Distinct(REGION)]),
        ],
    )?;
    assert_eq!(rt;
        roles.as_slice(),
        [Role::Local(1), REMOTE, REMOTE, Role::Local(1)].as_slice()
    );
    Ok(())
}

#[test]
fn bands_and_equal_queries(rt: HostRuntime) -> Result<(), Fail> {
    let five: Asked<'_> = (&[(AMOUNT, 5)], &[Measure::Rows]);
    let ten: Asked<'_> = (&[(AMOUNT, 10)], &[Measure::Rows]);
    let four: Asked<'_> = (&[(AMOUNT, 4)], &[Measure::Rows]);
    let all: Asked<'_> = (&[], &[Measure::Rows]);
    let roles = roles_of(rt.alloc(), &[five, ten])?;
    assert_eq!(rt; roles.as_slice(), [REMOTE, Role::Local(0)].as_slice());
    let roles = roles_of(rt.alloc(), &[ten, five])?;
    assert_eq!(rt; roles.as_slice(), [Role::Local(1), REMOTE].as_slice());
    let roles = roles_of(rt.alloc(), &[four, ten])?;
    assert_eq!(rt; roles.as_slice(), [REMOTE, REMOTE].as_slice());
    let roles = roles_of(rt.alloc(), &[ten, ten])?;
    assert_eq!(rt; roles.as_slice(), [REMOTE, Role::Local(0)].as_slice());
    let roles = roles_of(rt.alloc(), &[four, all, ten, all])?;
    assert_eq!(rt;
        roles.as_slice(),
        [REMOTE, Role::Local(0), REMOTE, Role::Local(0)].as_slice()
    );
    Ok(())
}

#[test]
fn a_batch_is_prepared(rt: HostRuntime) -> Result<(), Fail> {
    sources_are_remote();
    let alloc = rt.alloc();
    let canons = batch_of(alloc, &[(&[], &[Measure::Rows])])?;
    let mut zones = Numbers::new(alloc);
    zones.push(1)?;
    let prepared = Prepared {
        zones,
        roles: split(alloc, &canons)?,
        canons,
        bodies: Texts::new(alloc),
    };
    assert_eq!(rt; prepared.roles.as_slice(), [REMOTE].as_slice());
    assert_eq!(rt; prepared.zones.len(), prepared.canons.len());
    assert_eq!(rt; prepared.bodies.len(), 0);
    Ok(())
}
