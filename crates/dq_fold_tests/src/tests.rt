ghost use Rattle.std.specs.Prelude.{◌≡◌, ◌+◌, ◌≤◌, ◌^◌, IfOk, IfSome, length, map};
ghost use Rattle.dq_base.specs.Canonical.{canonical_predicate, canonical_test, predicate_cmp};
ghost use Rattle.dq_base.specs.Orders.{value_cmp};
ghost use Rattle.dq_base.specs.Sets.{set_of};
ghost use Rattle.dq_fold.specs.Folding.{folded};

use dq_base::{
    Canon, Cell, Cells, Dim, Dims, List, Measure, Memory, OrderKey, OrderKeys, Predicate,
    Predicates, Query, Table, Test, Text, Value, Values, put,
};
use dq_fold::{Fold, answer_of, passes};
use std::alloc::Global;
use std::process::Abort;
use std::test::Fail;

/// The value of a region; an empty one is null.
fn region_of(alloc: Global, region: &str) -> Result<Value, Memory> {
    if region.is_empty() {
        return Ok(Value::Null);
    }
    Ok(Value::Word(Text::copy_of(alloc, region.as_bytes())?))
}

fn row(alloc: Global, region: &str, year: i64, amount: Option<i64>) -> Result<Values, Memory> {
    let region = region_of(alloc, region)?;
    let amount = match amount {
        Some(n) => Value::Int(n),
        None => Value::Null,
    };
    Ok(List::from_vec(vec![in alloc; region, Value::Int(year), amount]?))
}

fn sales(alloc: Global) -> Result<List<Values>, Memory> {
    Ok(List::from_vec(vec![in alloc;
        row(alloc, "East", 2020, Some(10))?,
        row(alloc, "East", 2021, Some(5))?,
        row(alloc, "West", 2020, Some(7))?,
        row(alloc, "West", 2021, None)?,
        row(alloc, "", 2021, Some(4))?,
    ]?))
}

/// Two rows with the largest amount.
fn large(alloc: Global) -> Result<List<Values>, Memory> {
    Ok(List::from_vec(vec![in alloc;
        row(alloc, "", 0, Some(i64::MAX))?,
        row(alloc, "", 0, Some(i64::MAX))?,
    ]?))
}

/// Which rows are kept: all, those until a year, or those of some regions or of all but some.
#[derive(Clone, Copy)]
enum Keeps<'a> {
    All,
    Until(i64),
    Among(&'a [&'a str]),
    Except(&'a [&'a str]),
}

use Keeps::{All, Among, Except, Until};

/// A query, without its source, and the answer that is wanted. A dimension has a column and a width.
#[derive(Clone, Copy)]
struct Case<'a> {
    keeps: Keeps<'a>,
    dims: &'a [(u32, u32)],
    measures: &'a [Measure],
    down: Option<u32>,
    top: Option<u32>,
    want: &'a str,
}

/// The regions ascending.
fn listed(alloc: Global, regions: &[&str]) -> Result<Values, Memory>
    ensures { IfOk result (λ list. set_of value_cmp list ≡ list) }
{
    let mut list = List::new(alloc);
    for region in regions {
        put(&mut list, region_of(alloc, region)?)?;
    }
    Ok(list)
}

fn predicate(alloc: Global, keeps: Keeps<'_>) -> Result<Option<Predicate>, Memory>
    ensures { IfOk result (λ some. IfSome some (λ p. canonical_test p.test ≡ p.test)) }
{
    match keeps {
        All => Ok(None),
        Until(year) => {
            let test = Test::Between(None, Some(year));
            Ok(Some(Predicate { column: 1, test }))
        }
        Among(regions) => {
            let test = Test::Among(listed(alloc, regions)?);
            Ok(Some(Predicate { column: 0, test }))
        }
        Except(regions) => {
            let test = Test::Except(listed(alloc, regions)?);
            Ok(Some(Predicate { column: 0, test }))
        }
    }
}

fn filters(alloc: Global, keeps: Keeps<'_>) -> Result<Predicates, Memory>
    ensures { IfOk result (λ filters. set_of predicate_cmp (map canonical_predicate filters) ≡ filters) }
{
    let mut filters = List::new(alloc);
    if let Some(predicate) = predicate(alloc, keeps)? {
        filters.push(predicate)?;
    }
    Ok(filters)
}

fn order(alloc: Global, down: Option<u32>) -> Result<OrderKeys, Memory> {
    let mut order = List::new(alloc);
    if let Some(place) = down {
        order.push(OrderKey { place, down: true })?;
    }
    Ok(order)
}

fn dims(alloc: Global, items: &[(u32, u32)]) -> Result<Dims, Memory> {
    let mut dims = List::new(alloc);
    for (column, width) in items {
        if let Some(dim) = Dim::new(*column, *width) {
            dims.push(dim)?;
        }
    }
    Ok(dims)
}

fn asked(alloc: Global, case: &Case<'_>) -> Result<Canon, Memory> {
    Ok(Canon::new(Query {
        source: 0,
        filters: filters(alloc, case.keeps)?,
        dims: dims(alloc, case.dims)?,
        measures: List::from_vec(case.measures.to_vec(alloc)?),
        order: order(alloc, case.down)?,
        top: case.top,
    }))
}

fn spell_cell(alloc: Global, line: &mut Text, cell: &Cell) -> Result<(), Memory> {
    match cell {
        Cell::Null => line.append(b"-"),
        Cell::Whole(number) => {
            let digits = format!(in alloc; "{number}")?;
            line.append(digits.as_bytes())
        }
        Cell::Word(text) => line.append(text.bytes()),
        Cell::Ratio(ratio) => {
            let quotient = format!(in alloc; "{}/{}", ratio.sum(), ratio.count())?;
            line.append(quotient.as_bytes())
        }
    }
}

fn spell_row(alloc: Global, line: &mut Text, row: &Cells) -> Result<(), Memory> {
    for cell in row.as_slice() {
        spell_cell(alloc, line, cell)?;
        line.append(b"|")?;
    }
    line.append(b";")
}

fn spelled(alloc: Global, table: &Table) -> Result<Text, Memory> {
    let mut line = Text::new(alloc);
    for row in table.as_slice() {
        spell_row(alloc, &mut line, row)?;
    }
    Ok(line)
}

fn told(alloc: Global, rows: &[Values], case: &Case<'_>) -> Result<Text, Memory>
    requires { length rows.now ≤ 2 ^ 23 }
{
    let key = asked(alloc, case)?;
    spelled(alloc, &answer_of(alloc, &key, rows)?)
}

fn fold_over<'a>(alloc: Global, key: &'a Canon, rows: &[Values]) -> Result<Fold<'a>, Memory>
    requires { length rows.now ≤ 2 ^ 23 }
    ensures { IfOk result (λ fold. fold ≡ folded key.now rows.now) }
{
    let mut fold = Fold::new(alloc, key)?;
    for row in rows {
        fold.add(row.as_slice())?;
    }
    Ok(fold)
}

fn told_merged(
    alloc: Global,
    rows: &[Values],
    more: &[Values],
    case: &Case<'_>,
) -> Result<Text, Memory>
    requires { length rows.now + length more.now ≤ 2 ^ 23 }
{
    let key = asked(alloc, case)?;
    let mut fold = fold_over(alloc, &key, rows)?;
    let other = fold_over(alloc, &key, more)?;
    fold.merge(other)?;
    spelled(alloc, &fold.finish()?)
}

/// Checks the answers over the sales.
fn check_sales(rt: &impl Abort, alloc: Global, cases: &[Case<'_>]) -> Result<(), Memory> {
    let rows = sales(alloc)?;
    let rows = rows.as_slice();
    assert!(rt; rows.len() == 5);
    for case in cases {
        let line = told(alloc, rows, case)?;
        assert_eq!(rt; line.bytes(), case.want.as_bytes(), "{}", case.want);
    }
    Ok(())
}

const BY_REGION: Case<'static> = Case {
    keeps: All,
    dims: &[(0, 1)],
    measures: &[Measure::Sum(2), Measure::Rows],
    down: None,
    top: None,
    want: "-|4|1|;East|15|2|;West|7|2|;",
};

#[test]
fn groups_over_sales(rt: HostRuntime) -> Result<(), Fail> {
    let distinct = [
        Measure::Distinct(1),
        Measure::Distinct(2),
        Measure::Count(2),
    ];
    let cases = [
        BY_REGION,
        Case {
            measures: &distinct,
            want: "-|1|1|1|;East|2|2|2|;West|2|1|1|;",
            ..BY_REGION
        },
        Case {
            dims: &[(0, 1), (1, 1)],
            measures: &[Measure::Avg(2)],
            want: "-|2021|4/1|;East|2020|10/1|;East|2021|5/1|;West|2020|7/1|;West|2021|-|;",
            ..BY_REGION
        },
        Case {
            measures: &[Measure::Rows],
            down: Some(2),
            top: Some(1),
            want: "East|2|;",
            ..BY_REGION
        },
        Case {
            measures: &[Measure::Max(1)],
            down: Some(2),
            top: Some(1),
            want: "-|2021|;",
            ..BY_REGION
        },
        Case {
            dims: &[],
            measures: &[Measure::Min(2), Measure::Min(0), Measure::Max(0)],
            want: "4|East|West|;",
            ..BY_REGION
        },
    ];
    check_sales(&rt, rt.alloc(), &cases)?;
    Ok(())
}

#[test]
fn filters_over_sales(rt: HostRuntime) -> Result<(), Fail> {
    let cases = [
        Case {
            keeps: Until(2020),
            measures: &[Measure::Rows, Measure::Min(2)],
            want: "East|1|10|;West|1|7|;",
            ..BY_REGION
        },
        Case {
            keeps: Until(1999),
            dims: &[],
            measures: &[Measure::Rows, Measure::Sum(2), Measure::Min(2)],
            want: "0|-|-|;",
            ..BY_REGION
        },
        Case {
            keeps: Among(&["North", "West", "East", "South"]),
            want: "East|15|2|;West|7|2|;",
            ..BY_REGION
        },
        Case {
            keeps: Except(&["West", "North", ""]),
            measures: &[Measure::Rows],
            want: "East|2|;",
            ..BY_REGION
        },
    ];
    check_sales(&rt, rt.alloc(), &cases)?;
    Ok(())
}

#[test]
fn bands_over_sales(rt: HostRuntime) -> Result<(), Fail> {
    let by_fives = Case {
        dims: &[(2, 5)],
        measures: &[Measure::Rows],
        want: "-|1|;0|1|;1|2|;2|1|;",
        ..BY_REGION
    };
    let by_tens = Case {
        dims: &[(2, 10)],
        want: "-|1|;0|3|;1|1|;",
        ..by_fives
    };
    check_sales(&rt, rt.alloc(), &[by_fives, by_tens])?;
    Ok(())
}

/// Checks an answer over a few rows.
fn check_few(
    rt: &impl Abort,
    alloc: Global,
    rows: &[Values],
    case: &Case<'_>,
) -> Result<(), Memory> {
    assert!(rt; rows.len() <= 2);
    let line = told(alloc, rows, case)?;
    assert_eq!(rt; line.bytes(), case.want.as_bytes(), "{}", case.want);
    Ok(())
}

#[test]
fn answers_at_the_ends(rt: HostRuntime) -> Result<(), Fail> {
    let alloc = rt.alloc();
    let none = Case {
        dims: &[],
        want: "-|0|;",
        ..BY_REGION
    };
    check_few(&rt, alloc, &[], &none)?;
    let by_tens = Case {
        dims: &[(2, 10)],
        measures: &[Measure::Rows],
        want: "-1|1|;",
        ..BY_REGION
    };
    let below = vec![in alloc; row(alloc, "", 0, Some(-1))?]?;
    check_few(&rt, alloc, &below, &by_tens)?;
    let sums = Case {
        dims: &[],
        measures: &[Measure::Sum(2), Measure::Avg(2)],
        want: "18446744073709551614|18446744073709551614/2|;",
        ..BY_REGION
    };
    check_few(&rt, alloc, large(alloc)?.as_slice(), &sums)?;
    Ok(())
}

#[test]
fn merges_two_folds(rt: HostRuntime) -> Result<(), Fail> {
    let alloc = rt.alloc();
    let rows = sales(alloc)?;
    let rows = rows.as_slice();
    assert!(rt; rows.len() == 5);
    let line = told_merged(alloc, &rows[..2], &rows[2..], &BY_REGION)?;
    assert_eq!(rt; line.bytes(), BY_REGION.want.as_bytes());
    Ok(())
}

#[test]
fn rows_pass_each_predicate(rt: HostRuntime) -> Result<(), Fail> {
    let alloc = rt.alloc();
    let east = row(alloc, "East", 2020, None)?;
    for (keeps, want) in [
        (All, true),
        (Until(2020), true),
        (Until(2019), false),
        (Among(&["West"]), false),
        (Except(&["West"]), true),
    ] {
        let filters = filters(alloc, keeps)?;
        assert_eq!(rt; passes(&filters, east.as_slice()), want);
    }
    Ok(())
}
