ghost use Rattle.std.specs.Prelude.{◌≡◌, IfOk, map};
ghost use Rattle.dq_base.specs.Canonical.{canonical_predicate, predicate_cmp};
ghost use Rattle.dq_base.specs.Sets.{set_of};

use dq_base::{
    Canon, Dim, Dims, List, Measure, Memory, Predicate, Predicates, Query, Test, Value, Values,
};
use dq_cover::{
    covering_is_reflexive, covering_is_transitive, covers, fused_key_covers, local_has_remote,
    same, within, within_is_reflexive, within_is_transitive,
};
use std::alloc::Global;
use std::process::Abort;
use std::test::Fail;

const REGION: u32 = 0;

const YEAR: u32 = 1;

const AMOUNT: u32 = 2;

/// A query, without its source and order. A dimension has a column and a width. The amounts may be bounded by 1 and 9.
#[derive(Clone, Copy)]
struct Asked<'a> {
    dims: &'a [(u32, u32)],
    measures: &'a [Measure],
    few: Option<u32>,
    top: Option<u32>,
}

/// By region and year, with rows and the sum of the amounts.
const HELD: Asked<'static> = Asked {
    dims: &[(REGION, 1), (YEAR, 1)],
    measures: &[Measure::Rows, Measure::Sum(AMOUNT)],
    few: None,
    top: None,
};

/// By region, with the sum of the amounts.
const BY_REGION: Asked<'static> = Asked {
    dims: &[(REGION, 1)],
    measures: &[Measure::Sum(AMOUNT)],
    few: None,
    top: None,
};

fn filters(alloc: Global, few: Option<u32>) -> Result<Predicates, Memory>
    ensures { IfOk result (λ filters. set_of predicate_cmp (map canonical_predicate filters) ≡ filters) }
{
    let mut filters = List::new(alloc);
    if let Some(column) = few {
        let test = Test::Between(Some(1), Some(9));
        filters.push(Predicate { column, test })?;
    }
    Ok(filters)
}

fn dims(alloc: Global, items: &[(u32, u32)]) -> Result<Dims, Memory> {
    let mut dims = List::new(alloc);
    for (column, width) in items {
        if let Some(dim) = Dim::new(*column, *width) {
            dims.push(dim)?;
        }
    }
    Ok(dims)
}

fn canon_of(alloc: Global, asked: &Asked<'_>) -> Result<Canon, Memory> {
    Ok(Canon::new(Query {
        source: 0,
        filters: filters(alloc, asked.few)?,
        dims: dims(alloc, asked.dims)?,
        measures: List::from_vec(asked.measures.to_vec(alloc)?),
        order: List::new(alloc),
        top: asked.top,
    }))
}

/// Whether the first covers the second, and whether they are the same.
fn told(alloc: Global, held: &Asked<'_>, asked_for: &Asked<'_>) -> Result<(bool, bool), Memory> {
    let p = canon_of(alloc, held)?;
    let q = canon_of(alloc, asked_for)?;
    Ok((covers(&p, &q), same(&p, &q)))
}

fn check(
    rt: &impl Abort,
    alloc: Global,
    cases: &[(Asked<'_>, Asked<'_>, bool, bool)],
) -> Result<(), Memory> {
    for (case, (held, asked_for, covered, equal)) in cases.iter().enumerate() {
        let answer = told(alloc, held, asked_for)?;
        assert_eq!(rt; answer, (*covered, *equal), "case {case}");
    }
    Ok(())
}

fn showing<'a>(measures: &'a [Measure]) -> Asked<'a> {
    Asked {
        measures,
        ..BY_REGION
    }
}

fn banded<'a>(dims: &'a [(u32, u32)]) -> Asked<'a> {
    Asked {
        dims,
        measures: &[Measure::Rows],
        few: None,
        top: None,
    }
}

#[test]
fn what_an_answer_by_region_and_year_covers(rt: HostRuntime) -> Result<(), Fail> {
    let rows = showing(&[Measure::Rows]);
    let few = Some(AMOUNT);
    let first = Some(1);
    let cases = [
        (HELD, BY_REGION, true, false),
        (HELD, showing(&[Measure::Avg(AMOUNT)]), false, false),
        (HELD, showing(&[Measure::Count(YEAR)]), true, false),
        (HELD, showing(&[Measure::Distinct(REGION)]), true, false),
        (HELD, Asked { few, ..rows }, false, false),
        (Asked { top: first, ..HELD }, HELD, false, false),
    ];
    check(&rt, rt.alloc(), &cases)?;
    Ok(())
}

#[test]
fn what_bands_cover(rt: HostRuntime) -> Result<(), Fail> {
    let five = banded(&[(AMOUNT, 5)]);
    let ten = banded(&[(AMOUNT, 10)]);
    let counted = Asked {
        measures: &[Measure::Distinct(AMOUNT)],
        ..ten
    };
    let few = Some(AMOUNT);
    let cases = [
        (five, ten, true, false),
        (banded(&[(AMOUNT, 4)]), ten, false, false),
        (ten, five, false, false),
        (banded(&[(AMOUNT, 1)]), ten, true, false),
        (banded(&[(AMOUNT, 1)]), Asked { few, ..ten }, true, false),
        (five, Asked { few, ..ten }, false, false),
        (five, counted, false, false),
    ];
    check(&rt, rt.alloc(), &cases)?;
    Ok(())
}

#[test]
fn what_tops_filters_and_later_columns_cover(rt: HostRuntime) -> Result<(), Fail> {
    let top = Asked {
        top: Some(1),
        ..HELD
    };
    let few = Some(YEAR);
    let late = Asked {
        dims: &[(70, 1)],
        measures: &[Measure::Max(80), Measure::Avg(81)],
        few: None,
        top: None,
    };
    let cases = [
        (HELD, HELD, true, true),
        (top, top, true, true),
        (HELD, top, true, false),
        (HELD, Asked { few, ..BY_REGION }, true, false),
        (Asked { few, ..HELD }, BY_REGION, false, false),
        (late, late, true, true),
        (
            late,
            Asked {
                measures: &[Measure::Count(81), Measure::Distinct(70)],
                ..late
            },
            true,
            false,
        ),
        (
            late,
            Asked {
                measures: &[Measure::Max(79)],
                ..late
            },
            false,
            false,
        ),
    ];
    check(&rt, rt.alloc(), &cases)?;
    Ok(())
}

fn numbers(rt: &impl Abort, alloc: Global, items: &[i64]) -> Values {
    let mut list = List::new(alloc);
    for item in items {
        assert!(rt; list.push(Value::Int(*item)).is_ok());
    }
    list
}

#[derive(Clone, Copy)]
enum Kind<'a> {
    Among(&'a [i64]),
    Except(&'a [i64]),
    Between(Option<i64>, Option<i64>),
}

use Kind::{Among, Between, Except};

fn test_of(rt: &impl Abort, alloc: Global, kind: Kind<'_>) -> Test {
    match kind {
        Among(items) => Test::Among(numbers(rt, alloc, items)),
        Except(items) => Test::Except(numbers(rt, alloc, items)),
        Between(low, high) => Test::Between(low, high),
    }
}

#[test]
fn which_tests_are_within_which(rt: HostRuntime) {
    let alloc = rt.alloc();
    for (case, (a, b, want)) in [
        (Among(&[2, 3]), Among(&[1, 2, 3]), true),
        (Among(&[2, 4]), Among(&[1, 2, 3]), false),
        (Among(&[2, 3]), Among(&[3, 1, 2]), true),
        (Among(&[2, 3]), Except(&[1, 4]), true),
        (Among(&[2, 4]), Except(&[1, 4]), false),
        (Among(&[4, 2]), Except(&[4, 1]), false),
        (Among(&[2, 4]), Between(Some(2), Some(4)), true),
        (Among(&[2, 4]), Between(Some(2), Some(3)), false),
        (Except(&[]), Among(&[1]), false),
        (Except(&[1, 2]), Except(&[1]), true),
        (Except(&[1]), Except(&[1, 2]), false),
        (Except(&[1]), Between(None, None), false),
        (Between(Some(1), Some(1)), Among(&[1]), false),
        (Between(Some(2), Some(3)), Except(&[1, 4]), true),
        (Between(Some(2), None), Except(&[1, 4]), false),
        (Between(Some(2), Some(3)), Between(Some(1), None), true),
        (Between(Some(2), Some(3)), Between(Some(1), Some(2)), false),
        (Between(None, Some(3)), Between(Some(1), None), false),
    ]
    .into_iter()
    .enumerate()
    {
        let (inner, outer) = (test_of(&rt, alloc, a), test_of(&rt, alloc, b));
        assert!(rt; within(&inner, &outer) == want, "case {case}");
    }
    covering_is_reflexive();
    covering_is_transitive();
    within_is_reflexive();
    within_is_transitive();
    local_has_remote();
    fused_key_covers();
}
