// Both evaluations answer alike, over rows in one segment, in two and in none, and as was worked out by hand.
ghost use Rattle.std.specs.Arc.{arc_value};
ghost use Rattle.std.specs.Prelude.{◌≡◌, ◌<◌, ◌≤◌, length, map};
ghost use Rattle.dq_base.specs.Canonical.{canonical_predicate, predicate_cmp};
ghost use Rattle.dq_base.specs.Sets.{set_of};
ghost use Rattle.dq_base.specs.Versions.{cells_of};

use crate::evaluate;
use crate::plain::evaluate_plainly;
use dq_base::{
    Canon, Cell, Cells, Dim, Dims, Duplicate, List, Measure, OrderKey, OrderKeys, Predicate, Predicates,
    Query, Schema, Sort, Sorts, Table, Test, Text, Texts,
};
use dq_extract::{Extract, Segment, load};
use std::alloc::Global;
use std::process::Abort;
use std::sync::Arc;

const SALES: &[u8] =
    b"region,year,amount\nEast,2020,10\nEast,2021,5\nWest,2020,7\nWest,2021,\n,2021,4\n";

const FIRST_SALES: &[u8] = b"region,year,amount\nEast,2020,10\nEast,2021,5\nWest,2020,7\n";

const LAST_SALES: &[u8] = b"region,year,amount\nWest,2021,\n,2021,4\n";

fn word(rt: &impl Abort, alloc: Global, bytes: &[u8]) -> Text {
    Text::copy_of(alloc, bytes).ok().expect(rt, "memory")
}

fn three_names(rt: &impl Abort, alloc: Global) -> Texts
    ensures { length result ≡ 3 }
{
    let mut names = Texts::new(alloc);
    assert!(rt; names.push(word(rt, alloc, b"region")).is_ok());
    assert!(rt; names.push(word(rt, alloc, b"year")).is_ok());
    assert!(rt; names.push(word(rt, alloc, b"amount")).is_ok());
    assert_eq!(rt; names.len(), 3);
    names
}

fn three_sorts(rt: &impl Abort, alloc: Global) -> Sorts
    ensures { length result ≡ 3 }
{
    let mut sorts = Sorts::new(alloc);
    assert!(rt; sorts.push(Sort::Word).is_ok());
    assert!(rt; sorts.push(Sort::Whole).is_ok());
    assert!(rt; sorts.push(Sort::Whole).is_ok());
    assert_eq!(rt; sorts.len(), 3);
    sorts
}

// A text column and two whole ones.
fn three_columns(rt: &impl Abort, alloc: Global) -> Schema
    ensures { 0 < length result.names }
{
    Schema::new(alloc, three_names(rt, alloc), three_sorts(rt, alloc))
        .ok()
        .expect(rt, "memory")
}

// The shared segment of a file of five rows at most.
fn shared(rt: &impl Abort, alloc: Global, schema: &Schema, file: &[u8]) -> Arc<Segment>
    requires { 0 < length schema.now.names }
    ensures heading { (arc_value result).heading ≡ schema.now }
    ensures cells { cells_of (arc_value result) ≤ 15 }
    ensures rows { length (arc_value result).rows ≤ 5 }
{
    let segment = load(alloc, schema, 15, file).ok().expect(rt, "loaded");
    assert!(rt; segment.count() <= 5);
    Arc::new(alloc, segment).ok().expect(rt, "memory")
}

fn empty_under(rt: &impl Abort, alloc: Global, schema: &Schema) -> Extract
    ensures { result.heading ≡ schema.now }
{
    let copy = schema.duplicate(alloc).ok();
    Extract::empty(alloc, copy.expect(rt, "memory"))
}

// The extract of a file's rows.
fn published(rt: &impl Abort, alloc: Global, schema: &Schema, file: &[u8]) -> Extract
    requires { 0 < length schema.now.names }
    ensures heading { result.heading ≡ schema.now }
    ensures cells { cells_of result ≤ 15 }
    ensures rows { length result.rows ≤ 5 }
{
    let owner = shared(rt, alloc, schema, file);
    let empty = empty_under(rt, alloc, schema);
    empty.replaced(alloc, &owner).ok().expect(rt, "memory")
}

// The extract with a file's rows behind its own.
fn longer(
    rt: &impl Abort,
    alloc: Global,
    schema: &Schema,
    extract: &Extract,
    file: &[u8],
) -> Extract
    requires columns { 0 < length schema.now.names }
    requires heading { extract.now.heading ≡ schema.now }
    requires cells { cells_of extract.now ≤ 15 }
    requires rows { length extract.now.rows ≤ 5 }
{
    let owner = shared(rt, alloc, schema, file);
    extract.appended(alloc, &owner).ok().expect(rt, "memory")
}

fn sales_in_one(rt: &impl Abort, alloc: Global) -> Extract {
    let schema = three_columns(rt, alloc);
    published(rt, alloc, &schema, SALES)
}

fn sales_in_two(rt: &impl Abort, alloc: Global) -> Extract {
    let schema = three_columns(rt, alloc);
    let first = published(rt, alloc, &schema, FIRST_SALES);
    longer(rt, alloc, &schema, &first, LAST_SALES)
}

fn no_sales(rt: &impl Abort, alloc: Global) -> Extract {
    let schema = three_columns(rt, alloc);
    empty_under(rt, alloc, &schema)
}

// Up to a year, if one is given.
fn filters(rt: &impl Abort, alloc: Global, until: Option<i64>) -> Predicates
    ensures { set_of predicate_cmp (map canonical_predicate result) ≡ result }
{
    let mut filters = Predicates::new(alloc);
    if let Some(year) = until {
        let years = Predicate {
            column: 1,
            test: Test::Between(None, Some(year)),
        };
        filters.push(years).ok().expect(rt, "memory");
    }
    filters
}

// Downwards by a column of the answer, if one is given.
fn order(rt: &impl Abort, alloc: Global, down: Option<u32>) -> OrderKeys {
    let mut order = OrderKeys::new(alloc);
    if let Some(place) = down {
        assert!(rt; order.push(OrderKey { place, down: true }).is_ok());
    }
    order
}

// A query, without its source.
#[derive(Clone, Copy)]
struct Asked<'a> {
    until: Option<i64>,
    dims: &'a [(u32, u32)],
    measures: &'a [Measure],
    down: Option<u32>,
    top: Option<u32>,
}

// The dimensions of these columns and widths.
fn dims(rt: &impl Abort, alloc: Global, items: &[(u32, u32)]) -> Dims {
    let mut dims = Dims::new(alloc);
    for (column, width) in items {
        let dim = Dim::new(*column, *width).expect(rt, "a width");
        assert!(rt; dims.push(dim).is_ok());
    }
    dims
}

fn query(rt: &impl Abort, alloc: Global, asked: &Asked<'_>) -> Canon {
    Canon::new(Query {
        source: 0,
        filters: filters(rt, alloc, asked.until),
        dims: dims(rt, alloc, asked.dims),
        measures: List::from_vec(asked.measures.to_vec(alloc).ok().expect(rt, "memory")),
        order: order(rt, alloc, asked.down),
        top: asked.top,
    })
}

fn spell_cell(rt: &impl Abort, alloc: Global, line: &mut Text, cell: &Cell) {
    let spelled = match cell {
        Cell::Null => line.append(b"-"),
        Cell::Whole(number) => {
            let digits = format!(in alloc; "{number}").ok().expect(rt, "memory");
            line.append(digits.as_bytes())
        }
        Cell::Word(text) => line.append(text.bytes()),
        Cell::Ratio(ratio) => {
            let quotient = format!(in alloc; "{}/{}", ratio.sum(), ratio.count());
            line.append(quotient.ok().expect(rt, "memory").as_bytes())
        }
    };
    assert!(rt; spelled.is_ok());
}

fn spell_row(rt: &impl Abort, alloc: Global, line: &mut Text, row: &Cells) {
    for cell in row.as_slice() {
        spell_cell(rt, alloc, line, cell);
        assert!(rt; line.append(b"|").is_ok());
    }
    assert!(rt; line.append(b";").is_ok());
}

fn spell_table(rt: &impl Abort, alloc: Global, table: &Table) -> Text {
    let mut line = Text::new(alloc);
    for row in table.as_slice() {
        spell_row(rt, alloc, &mut line, row);
    }
    line
}

fn spell_quick(rt: &impl Abort, alloc: Global, extract: &Extract, key: &Canon) -> Text {
    let table = evaluate(alloc, extract, key).ok().expect(rt, "memory");
    spell_table(rt, alloc, &table)
}

fn spell_plain(rt: &impl Abort, alloc: Global, extract: &Extract, key: &Canon) -> Text {
    let table = evaluate_plainly(alloc, extract, key)
        .ok()
        .expect(rt, "memory");
    spell_table(rt, alloc, &table)
}

/// Both evaluations give this answer over an extract.
fn check_over(rt: &impl Abort, alloc: Global, extract: &Extract, key: &Canon, want: &str) {
    let quick = spell_quick(rt, alloc, extract, key);
    assert_eq!(rt; quick.bytes(), want.as_bytes(), "{want}");
    let plain = spell_plain(rt, alloc, extract, key);
    assert_eq!(rt; plain.bytes(), want.as_bytes(), "{want}");
}

/// Both evaluations give this answer over the sales, in one segment and in two.
fn check_sales(rt: &impl Abort, alloc: Global, asked: &Asked<'_>, want: &str) {
    let key = query(rt, alloc, asked);
    check_over(rt, alloc, &sales_in_one(rt, alloc), &key, want);
    check_over(rt, alloc, &sales_in_two(rt, alloc), &key, want);
}

/// Both evaluations give this answer over no rows.
fn check_empty(rt: &impl Abort, alloc: Global, asked: &Asked<'_>, want: &str) {
    let key = query(rt, alloc, asked);
    check_over(rt, alloc, &no_sales(rt, alloc), &key, want);
}

#[test]
fn groups_are_told(rt: HostRuntime) {
    let alloc = rt.alloc();
    let by_region = Asked {
        until: None,
        dims: &[(0, 1)],
        measures: &[Measure::Sum(2), Measure::Rows],
        down: None,
        top: None,
    };
    check_sales(&rt, alloc, &by_region, "-|4|1|;East|15|2|;West|7|2|;");
    check_empty(&rt, alloc, &by_region, "");
}

#[test]
fn totals_are_told(rt: HostRuntime) {
    let alloc = rt.alloc();
    let totals = Asked {
        until: None,
        dims: &[],
        measures: &[
            Measure::Count(2),
            Measure::Distinct(1),
            Measure::Min(2),
            Measure::Max(2),
            Measure::Avg(2),
        ],
        down: None,
        top: None,
    };
    check_sales(&rt, alloc, &totals, "4|2|4|10|26/4|;");
    check_empty(&rt, alloc, &totals, "0|0|-|-|-|;");
}

#[test]
fn bands_are_told(rt: HostRuntime) {
    let alloc = rt.alloc();
    let by_fives = Asked {
        until: None,
        dims: &[(2, 5)],
        measures: &[Measure::Rows],
        down: None,
        top: None,
    };
    check_sales(&rt, alloc, &by_fives, "-|1|;0|1|;1|2|;2|1|;");
}

// Both evaluations answer alike over an extract, ordered in each way and with and without a top.
fn check_alike(rt: &impl Abort, alloc: Global, extract: &Extract, asked: &Asked<'_>) {
    for (down, top) in [
        (None, None),
        (Some(1), None),
        (Some(2), Some(2)),
        (None, Some(0)),
    ] {
        let asked = Asked {
            down,
            top,
            ..*asked
        };
        let key = query(rt, alloc, &asked);
        let quick = spell_quick(rt, alloc, extract, &key);
        let plain = spell_plain(rt, alloc, extract, &key);
        assert_eq!(rt; quick.bytes(), plain.bytes());
    }
}

#[test]
fn evaluations_are_alike(rt: HostRuntime) {
    let alloc = rt.alloc();
    let extract = sales_in_two(&rt, alloc);
    for until in [None, Some(2020), Some(1999)] {
        for dims in [
            [].as_slice(),
            [(2, 3)].as_slice(),
            [(1, 1000), (0, 1)].as_slice(),
        ] {
            let asked = Asked {
                until,
                dims,
                measures: &[
                    Measure::Rows,
                    Measure::Sum(2),
                    Measure::Avg(2),
                    Measure::Min(0),
                    Measure::Max(2),
                    Measure::Distinct(1),
                ],
                down: None,
                top: None,
            };
            check_alike(&rt, alloc, &extract, &asked);
        }
    }
}

#[test]
fn first_rows_are_told(rt: HostRuntime) {
    let alloc = rt.alloc();
    let largest = Asked {
        until: None,
        dims: &[(0, 1)],
        measures: &[Measure::Rows],
        down: Some(2),
        top: Some(2),
    };
    check_sales(&rt, alloc, &largest, "East|2|;West|2|;");
}

#[test]
fn kept_rows_are_told(rt: HostRuntime) {
    let alloc = rt.alloc();
    let early = Asked {
        until: Some(2020),
        dims: &[(0, 1)],
        measures: &[Measure::Rows, Measure::Min(2)],
        down: None,
        top: None,
    };
    check_sales(&rt, alloc, &early, "East|1|10|;West|1|7|;");
}
