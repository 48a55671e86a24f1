ghost use Rattle.std.specs.Prelude.{◌≡◌, IfOk, map};
ghost use Rattle.dq_base.specs.Canonical.{canonical_predicate, predicate_cmp};
ghost use Rattle.dq_base.specs.Sets.{set_of};

use dq_base::{
    Canon, Cell, Cells, Dim, Dims, List, Measure, Memory, OrderKey, OrderKeys, Predicate,
    Predicates, Query, Ratio, Table, Test, Text, Value,
};
use dq_cover::covers;
use dq_rollup::{derive, sums_stay_within};
use std::alloc::Global;
use std::process::Abort;
use std::test::Fail;

const REGION: u32 = 0;

const YEAR: u32 = 1;

const AMOUNT: u32 = 2;

/// A query, without its source. A dimension has a column and a width; a year is the only one whose rows are kept.
#[derive(Clone, Copy)]
struct Asked<'a> {
    year: Option<i64>,
    dims: &'a [(u32, u32)],
    measures: &'a [Measure],
    down: Option<u32>,
    top: Option<u32>,
}

/// What a cell of a held table is.
#[derive(Clone, Copy)]
enum Held<'a> {
    N,
    I(i128),
    W(&'a str),
    R(i128, u64),
}

use Held::{I, N, R, W};

/// A query, its answer, a query that it covers, and the answer that is wanted.
#[derive(Clone, Copy)]
struct Case<'a> {
    held: Asked<'a>,
    rows: &'a [&'a [Held<'a>]],
    asked: Asked<'a>,
    want: &'a str,
}

fn one_year(alloc: Global, year: i64) -> Result<Predicates, Memory>
    ensures { IfOk result (λ filters. set_of predicate_cmp (map canonical_predicate filters) ≡ filters) }
{
    let test = Test::Among(List::from_vec(vec![in alloc; Value::Int(year)]?));
    let mut filters = List::new(alloc);
    filters.push(Predicate { column: YEAR, test })?;
    Ok(filters)
}

fn filters(alloc: Global, year: Option<i64>) -> Result<Predicates, Memory>
    ensures { IfOk result (λ filters. set_of predicate_cmp (map canonical_predicate filters) ≡ filters) }
{
    match year {
        Some(year) => one_year(alloc, year),
        None => Ok(List::new(alloc)),
    }
}

fn dims(alloc: Global, items: &[(u32, u32)]) -> Result<Dims, Memory> {
    let mut dims = List::new(alloc);
    for (column, width) in items {
        if let Some(dim) = Dim::new(*column, *width) {
            dims.push(dim)?;
        }
    }
    Ok(dims)
}

fn order(alloc: Global, down: Option<u32>) -> Result<OrderKeys, Memory> {
    let mut order = List::new(alloc);
    if let Some(place) = down {
        order.push(OrderKey { place, down: true })?;
    }
    Ok(order)
}

fn canon_of(alloc: Global, asked: &Asked<'_>) -> Result<Canon, Memory> {
    Ok(Canon::new(Query {
        source: 0,
        filters: filters(alloc, asked.year)?,
        dims: dims(alloc, asked.dims)?,
        measures: List::from_vec(asked.measures.to_vec(alloc)?),
        order: order(alloc, asked.down)?,
        top: asked.top,
    }))
}

fn cell(alloc: Global, held: Held<'_>) -> Result<Cell, Memory> {
    match held {
        N => Ok(Cell::Null),
        I(number) => Ok(Cell::Whole(number)),
        W(word) => Ok(Cell::Word(Text::copy_of(alloc, word.as_bytes())?)),
        R(sum, count) => match Ratio::new(sum, count) {
            Some(ratio) => Ok(Cell::Ratio(ratio)),
            None => Ok(Cell::Null),
        },
    }
}

fn row_of(alloc: Global, cells: &[Held<'_>]) -> Result<Cells, Memory> {
    let mut row = List::new(alloc);
    for held in cells {
        row.push(cell(alloc, *held)?)?;
    }
    Ok(row)
}

fn table_of(alloc: Global, rows: &[&[Held<'_>]]) -> Result<Table, Memory> {
    let mut table = List::new(alloc);
    for cells in rows {
        table.push(row_of(alloc, cells)?)?;
    }
    Ok(table)
}

fn spell_cell(alloc: Global, line: &mut Text, cell: &Cell) -> Result<(), Memory> {
    match cell {
        Cell::Null => line.append(b"-"),
        Cell::Whole(number) => {
            let digits = format!(in alloc; "{number}")?;
            line.append(digits.as_bytes())
        }
        Cell::Word(text) => line.append(text.bytes()),
        Cell::Ratio(ratio) => {
            let quotient = format!(in alloc; "{}/{}", ratio.sum(), ratio.count())?;
            line.append(quotient.as_bytes())
        }
    }
}

fn spell_row(alloc: Global, line: &mut Text, row: &Cells) -> Result<(), Memory> {
    for cell in row.as_slice() {
        spell_cell(alloc, line, cell)?;
        line.append(b"|")?;
    }
    line.append(b";")
}

fn spelled(alloc: Global, table: &Table) -> Result<Text, Memory> {
    let mut line = Text::new(alloc);
    for row in table.as_slice() {
        spell_row(alloc, &mut line, row)?;
    }
    Ok(line)
}

/// The derived answer; none where the one query doesn't cover the other.
fn told(alloc: Global, case: &Case<'_>) -> Result<Option<Text>, Memory> {
    let p = canon_of(alloc, &case.held)?;
    let q = canon_of(alloc, &case.asked)?;
    let held = table_of(alloc, case.rows)?;
    if !covers(&p, &q) {
        return Ok(None);
    }
    let table = derive(alloc, &p, &q, &held)?;
    Ok(Some(spelled(alloc, &table)?))
}

fn check(rt: &impl Abort, alloc: Global, cases: &[Case<'_>]) -> Result<(), Memory> {
    for case in cases {
        let line = told(alloc, case)?.expect(rt, case.want);
        assert_eq!(rt; line.bytes(), case.want.as_bytes(), "{}", case.want);
    }
    Ok(())
}

const BOTH: Asked<'static> = Asked {
    year: None,
    dims: &[(REGION, 1), (YEAR, 1)],
    measures: &[Measure::Rows, Measure::Sum(AMOUNT)],
    down: None,
    top: None,
};

const BY_REGION: Asked<'static> = Asked {
    dims: &[(REGION, 1)],
    ..BOTH
};

const ALL: Asked<'static> = Asked { dims: &[], ..BOTH };

/// Rows and the sum of the amounts, by region and year.
const SALES: &[&[Held<'static>]] = &[
    &[N, I(2021), I(1), I(4)],
    &[W("East"), I(2020), I(1), I(10)],
    &[W("East"), I(2021), I(1), I(5)],
    &[W("West"), I(2020), I(1), I(7)],
    &[W("West"), I(2021), I(1), N],
];

const SALE: Case<'static> = Case {
    held: BOTH,
    rows: SALES,
    asked: ALL,
    want: "5|26|;",
};

#[test]
fn rows_and_sums(rt: HostRuntime) -> Result<(), Fail> {
    let cases = [
        SALE,
        Case {
            asked: Asked {
                year: Some(1999),
                ..ALL
            },
            want: "0|-|;",
            ..SALE
        },
        Case {
            asked: Asked {
                year: Some(2021),
                ..BY_REGION
            },
            want: "-|1|4|;East|1|5|;West|1|-|;",
            ..SALE
        },
        Case {
            asked: Asked {
                year: Some(1999),
                ..BY_REGION
            },
            want: "",
            ..SALE
        },
        Case {
            asked: Asked {
                down: Some(3),
                top: Some(2),
                ..BY_REGION
            },
            want: "East|2|15|;West|2|7|;",
            ..SALE
        },
        Case {
            asked: Asked {
                dims: &[(YEAR, 1)],
                measures: &[Measure::Sum(AMOUNT), Measure::Sum(YEAR), Measure::Rows],
                ..BOTH
            },
            want: "2020|17|4040|2|;2021|9|6063|3|;",
            ..SALE
        },
    ];
    check(&rt, rt.alloc(), &cases)?;
    sums_stay_within();
    Ok(())
}

const AVERAGE: Asked<'static> = Asked {
    measures: &[Measure::Avg(AMOUNT)],
    ..BOTH
};

/// The averages of the amounts, by region and year.
const AVERAGES: &[&[Held<'static>]] = &[
    &[N, I(2021), R(4, 1)],
    &[W("East"), I(2020), R(10, 1)],
    &[W("East"), I(2021), R(5, 1)],
    &[W("West"), I(2020), R(7, 1)],
    &[W("West"), I(2021), N],
];

#[test]
fn averages(rt: HostRuntime) -> Result<(), Fail> {
    let case = Case {
        held: AVERAGE,
        rows: AVERAGES,
        asked: Asked {
            measures: &[Measure::Avg(AMOUNT)],
            ..ALL
        },
        want: "26/4|;",
    };
    let cases = [
        case,
        Case {
            asked: Asked {
                measures: &[
                    Measure::Avg(AMOUNT),
                    Measure::Count(AMOUNT),
                    Measure::Sum(AMOUNT),
                ],
                ..BY_REGION
            },
            want: "-|4/1|1|4|;East|15/2|2|15|;West|7/1|1|7|;",
            ..case
        },
        Case {
            rows: SALES,
            held: BOTH,
            asked: Asked {
                measures: &[Measure::Avg(YEAR)],
                ..ALL
            },
            want: "10103/5|;",
        },
    ];
    check(&rt, rt.alloc(), &cases)?;
    Ok(())
}

const COUNTED: Asked<'static> = Asked {
    measures: &[Measure::Rows],
    ..BOTH
};

/// A number for each region and year.
const NUMBERS: &[&[Held<'static>]] = &[
    &[N, I(2021), I(1)],
    &[W("East"), I(2020), I(1)],
    &[W("East"), I(2021), I(1)],
    &[W("West"), I(2020), I(1)],
    &[W("West"), I(2021), I(1)],
];

#[test]
fn different_values(rt: HostRuntime) -> Result<(), Fail> {
    let case = Case {
        held: COUNTED,
        rows: NUMBERS,
        asked: Asked {
            measures: &[Measure::Distinct(YEAR)],
            ..BY_REGION
        },
        want: "-|1|;East|2|;West|2|;",
    };
    let cases = [
        case,
        Case {
            asked: Asked {
                measures: &[Measure::Distinct(YEAR), Measure::Distinct(REGION)],
                ..ALL
            },
            want: "2|2|;",
            ..case
        },
        Case {
            asked: Asked {
                measures: &[
                    Measure::Count(REGION),
                    Measure::Min(YEAR),
                    Measure::Max(REGION),
                ],
                ..ALL
            },
            want: "4|2020|West|;",
            ..case
        },
        Case {
            held: Asked {
                measures: &[Measure::Distinct(AMOUNT)],
                ..BOTH
            },
            asked: Asked {
                dims: &[(YEAR, 1), (REGION, 1)],
                measures: &[Measure::Distinct(AMOUNT)],
                ..BOTH
            },
            want: "2020|East|1|;2020|West|1|;2021|-|1|;2021|East|1|;2021|West|1|;",
            ..case
        },
    ];
    check(&rt, rt.alloc(), &cases)?;
    Ok(())
}

#[test]
fn bands_bounds_and_tops(rt: HostRuntime) -> Result<(), Fail> {
    let five = Asked {
        dims: &[(AMOUNT, 5)],
        measures: &[Measure::Rows],
        ..BOTH
    };
    let bounds = Asked {
        measures: &[Measure::Min(AMOUNT), Measure::Max(AMOUNT)],
        ..BY_REGION
    };
    let first = Asked {
        top: Some(1),
        ..BY_REGION
    };
    let cases = [
        Case {
            held: five,
            rows: &[&[N, I(1)], &[I(0), I(1)], &[I(1), I(2)], &[I(2), I(1)]],
            asked: Asked {
                dims: &[(AMOUNT, 10)],
                ..five
            },
            want: "-|1|;0|3|;1|1|;",
        },
        Case {
            held: five,
            rows: &[&[I(-3), I(1)], &[I(-1), I(1)]],
            asked: Asked {
                dims: &[(AMOUNT, 10)],
                ..five
            },
            want: "-2|1|;-1|1|;",
        },
        Case {
            held: bounds,
            rows: &[
                &[N, N, N],
                &[W("East"), I(5), I(10)],
                &[W("West"), I(7), I(7)],
            ],
            asked: Asked {
                dims: &[],
                ..bounds
            },
            want: "5|10|;",
        },
        Case {
            held: first,
            rows: &[&[W("East"), I(2), I(15)]],
            asked: first,
            want: "East|2|15|;",
        },
    ];
    check(&rt, rt.alloc(), &cases)?;
    Ok(())
}
