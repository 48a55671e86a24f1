ghost use Rattle.std.specs.Prelude.{◌≡◌, IfOk, map};
ghost use Rattle.dq_base.specs.Canonical.{canonical_predicate, predicate_cmp};
ghost use Rattle.dq_base.specs.Orders.{value_cmp};
ghost use Rattle.dq_base.specs.Sets.{set_of};

use dq_base::{
    Canon, Canons, Dim, Dims, List, Measure, Memory, OrderKey, OrderKeys, Predicate, Predicates,
    Query, Test, Value, Values, put,
};
use dq_fuse::{Groups, fuse, keys_are_valid, keys_cover_members};
use std::alloc::Global;
use std::process::Abort;
use std::sync::Arc;
use std::test::Fail;

const REGION: u32 = 0;

const YEAR: u32 = 1;

const AMOUNT: u32 = 2;

/// A query of source 0. A dimension has a column and a width; so many years may be listed; the order is by the first column.
#[derive(Clone, Copy)]
struct Asked<'a> {
    years: i64,
    dims: &'a [(u32, u32)],
    measures: &'a [Measure],
    top: Option<u32>,
}

/// A group that is wanted: the members, the key's dimensions and measures, its top, and how many order keys it has.
#[derive(Clone, Copy)]
struct Wanted<'a> {
    members: &'a [u32],
    dims: &'a [(u32, u32)],
    measures: &'a [Measure],
    top: Option<u32>,
    order: u64,
}

/// The years from 2010 on, so many of them.
fn years(alloc: Global, count: i64) -> Result<Values, Memory>
    ensures { IfOk result (λ list. set_of value_cmp list ≡ list) }
{
    let mut list = List::new(alloc);
    for year in 0..count.min(100) {
        put(&mut list, Value::Int(2010 + year))?;
    }
    Ok(list)
}

fn filters(alloc: Global, count: i64) -> Result<Predicates, Memory>
    ensures { IfOk result (λ filters. set_of predicate_cmp (map canonical_predicate filters) ≡ filters) }
{
    let mut filters = List::new(alloc);
    if count != 0 {
        let test = Test::Among(years(alloc, count)?);
        filters.push(Predicate { column: YEAR, test })?;
    }
    Ok(filters)
}

fn dims(alloc: Global, items: &[(u32, u32)]) -> Result<Dims, Memory> {
    let mut dims = List::new(alloc);
    for (column, width) in items {
        if let Some(dim) = Dim::new(*column, *width) {
            dims.push(dim)?;
        }
    }
    Ok(dims)
}

fn first_column(alloc: Global) -> Result<OrderKeys, Memory> {
    let mut order = List::new(alloc);
    order.push(OrderKey {
        place: 1,
        down: true,
    })?;
    Ok(order)
}

fn canon_of(alloc: Global, asked: &Asked<'_>) -> Result<Canon, Memory> {
    Ok(Canon::new(Query {
        source: 0,
        filters: filters(alloc, asked.years)?,
        dims: dims(alloc, asked.dims)?,
        measures: List::from_vec(asked.measures.to_vec(alloc)?),
        order: first_column(alloc)?,
        top: asked.top,
    }))
}

fn fused(alloc: Global, asked: &[Asked<'_>]) -> Result<Groups, Memory> {
    let mut misses = Canons::new(alloc);
    for one in asked {
        misses.push(Arc::new(alloc, canon_of(alloc, one)?)?)?;
    }
    fuse(alloc, &misses)
}

fn is_as_wanted(key: &Query, wanted: &Wanted<'_>) -> bool {
    let dims = key.dims.as_slice().iter();
    key.measures.as_slice() == wanted.measures
        && key.top == wanted.top
        && key.order.len() == wanted.order
        && dims
            .map(|d| (d.column(), d.width()))
            .eq(wanted.dims.iter().copied())
}

fn check(
    rt: &impl Abort,
    alloc: Global,
    asked: &[Asked<'_>],
    wanted: &[Wanted<'_>],
) -> Result<(), Memory> {
    let groups = fused(alloc, asked)?;
    assert_eq!(rt; groups.as_slice().len(), wanted.len());
    for (group, want) in groups.as_slice().iter().zip(wanted) {
        assert_eq!(rt; group.members().as_slice(), want.members);
        assert!(rt; is_as_wanted(group.key().query(), want));
    }
    Ok(())
}

const SUM: &[Measure] = &[Measure::Sum(AMOUNT)];

const MOST: &[Measure] = &[Measure::Max(AMOUNT)];

const BY_REGION: &[(u32, u32)] = &[(REGION, 1)];

/// By region, the sum of the amounts, of any year.
const SUMS: Asked<'static> = Asked {
    years: 0,
    dims: BY_REGION,
    measures: SUM,
    top: None,
};

fn alone<'a>(members: &'a [u32], asked: &Asked<'a>) -> Wanted<'a> {
    Wanted {
        members,
        dims: asked.dims,
        measures: asked.measures,
        top: asked.top,
        order: 1,
    }
}

#[test]
fn a_sum_and_a_maximum_by_region_are_one_group(rt: HostRuntime) -> Result<(), Fail> {
    let most = Asked {
        measures: MOST,
        top: Some(2),
        ..SUMS
    };
    let both = Wanted {
        members: &[0, 1],
        dims: BY_REGION,
        measures: &[Measure::Sum(AMOUNT), Measure::Max(AMOUNT)],
        top: None,
        order: 0,
    };
    check(&rt, rt.alloc(), &[SUMS, most], &[both])?;
    Ok(())
}

#[test]
fn dimensions_are_a_set(rt: HostRuntime) -> Result<(), Fail> {
    let one = Asked {
        years: 2,
        dims: &[(REGION, 1), (AMOUNT, 5)],
        measures: &[Measure::Rows, Measure::Avg(YEAR)],
        top: None,
    };
    let other = Asked {
        dims: &[(AMOUNT, 5), (REGION, 1), (AMOUNT, 5)],
        measures: &[Measure::Min(YEAR), Measure::Rows],
        ..one
    };
    let both = Wanted {
        members: &[0, 2],
        dims: one.dims,
        measures: &[Measure::Rows, Measure::Avg(YEAR), Measure::Min(YEAR)],
        top: None,
        order: 0,
    };
    check(
        &rt,
        rt.alloc(),
        &[one, SUMS, other],
        &[both, alone(&[1], &SUMS)],
    )?;
    Ok(())
}

#[test]
fn other_widths_and_other_lists_are_apart(rt: HostRuntime) -> Result<(), Fail> {
    let five = Asked {
        dims: &[(AMOUNT, 5)],
        top: Some(3),
        ..SUMS
    };
    let ten = Asked {
        dims: &[(AMOUNT, 10)],
        ..five
    };
    check(
        &rt,
        rt.alloc(),
        &[five, ten],
        &[alone(&[0], &five), alone(&[1], &ten)],
    )?;
    let some = Asked { years: 16, ..SUMS };
    let more = Asked { years: 17, ..SUMS };
    check(
        &rt,
        rt.alloc(),
        &[some, more],
        &[alone(&[0], &some), alone(&[1], &more)],
    )?;
    Ok(())
}

#[test]
fn parts_of_a_group(rt: HostRuntime) -> Result<(), Fail> {
    keys_cover_members();
    keys_are_valid();
    let groups = fused(rt.alloc(), &[SUMS])?;
    assert_eq!(rt; groups.as_slice().len(), 1);
    for group in groups.as_slice() {
        assert!(rt; group.key().query().top.is_none());
        assert_eq!(rt; group.members().as_slice(), [0].as_slice());
    }
    Ok(())
}
