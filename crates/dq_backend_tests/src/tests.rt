// Pooled links over the back ends in the process: their statements, counts and tables, as they were worked out by hand.
ghost use Rattle.std.specs.Arc.{arc_value};
ghost use Rattle.std.specs.Prelude.{◌≡◌, ◌≤◌, ◌∷◌, [], ℕ, None, length};
ghost use Rattle.dq_base.specs.Validity.{first_reason};
ghost use Rattle.dq_text.specs.Statements.{spelling};
ghost use Rattle.dq_link.specs.Meanings.{HasMeaning};
ghost use Rattle.dq_link.specs.Mounts.{Same, StandsFor};

use dq_backend::*;
use dq_base::{
    Canon, Cell, Cells, Dim, Dims, Duplicate, Fails, List, Measure, Measures, Numbers64, Predicate,
    Predicates, Query, Schema, Schemas, Sort, Sorts, Table, Test, Text, Texts, Value, Values,
};
use dq_extract::{Extract, load};
use dq_link::{Dialer, Link, LinkFault, Office, Pooled, Ran, Readied};
use dq_query::{canonical, check};
use dq_text::{Statement, print};
use std::alloc::Global;
use std::process::Abort;
use std::sync::Arc;

const SALES: &[u8] =
    b"region,year,amount\nEast,2020,10\nEast,2021,5\nWest,2020,7\nWest,2021,\n,2021,4\n";

fn word(rt: &impl Abort, alloc: Global, bytes: &[u8]) -> Text {
    Text::copy_of(alloc, bytes).ok().expect(rt, "memory")
}

fn three_names(rt: &impl Abort, alloc: Global) -> Texts
    ensures { length result ≡ 3 }
{
    let mut names = Texts::new(alloc);
    assert!(rt; names.push(word(rt, alloc, b"region")).is_ok());
    assert!(rt; names.push(word(rt, alloc, b"year")).is_ok());
    assert!(rt; names.push(word(rt, alloc, b"amount")).is_ok());
    assert_eq!(rt; names.len(), 3);
    names
}

fn three_sorts(rt: &impl Abort, alloc: Global) -> Sorts
    ensures { length result ≡ 3 }
{
    let mut sorts = Sorts::new(alloc);
    assert!(rt; sorts.push(Sort::Word).is_ok());
    assert!(rt; sorts.push(Sort::Whole).is_ok());
    assert!(rt; sorts.push(Sort::Whole).is_ok());
    assert_eq!(rt; sorts.len(), 3);
    sorts
}

// The sales, by region, year and amount.
fn sales(rt: &impl Abort, alloc: Global) -> Arc<Extract> {
    let schema = Schema::new(alloc, three_names(rt, alloc), three_sorts(rt, alloc));
    let schema = schema.ok().expect(rt, "memory");
    let segment = load(alloc, &schema, 15, SALES).ok().expect(rt, "loaded");
    let owner = Arc::new(alloc, segment).ok().expect(rt, "memory");
    let extract = Extract::empty(alloc, schema).replaced(alloc, &owner);
    Arc::new(alloc, extract.ok().expect(rt, "memory"))
        .ok()
        .expect(rt, "memory")
}

// The years from one to another.
fn years(rt: &impl Abort, alloc: Global, first: i64, last: i64) -> Values {
    let mut years = Values::new(alloc);
    for year in first..=last {
        assert!(rt; years.push(Value::Int(year)).is_ok());
    }
    years
}

// The rows of some years are kept.
fn in_years(rt: &impl Abort, alloc: Global, first: i64, last: i64) -> Predicates {
    let mut filters = Predicates::new(alloc);
    let predicate = Predicate {
        column: 1,
        test: Test::Among(years(rt, alloc, first, last)),
    };
    assert!(rt; filters.push(predicate).is_ok());
    filters
}

fn one_measure(rt: &impl Abort, alloc: Global, measure: Measure) -> Measures {
    let mut measures = Measures::new(alloc);
    assert!(rt; measures.push(measure).is_ok());
    measures
}

// How many rows there are of some years.
fn rows_in(rt: &impl Abort, alloc: Global, first: i64, last: i64) -> Query {
    Query {
        source: 0,
        filters: in_years(rt, alloc, first, last),
        dims: List::new(alloc),
        measures: one_measure(rt, alloc, Measure::Rows),
        order: List::new(alloc),
        top: None,
    }
}

// A measure by region of some years.
fn by_region(rt: &impl Abort, alloc: Global, measure: Measure, first: i64, last: i64) -> Query {
    let mut dims = Dims::new(alloc);
    assert!(rt; dims.push(Dim::plain(0)).is_ok());
    Query {
        source: 0,
        filters: in_years(rt, alloc, first, last),
        dims,
        measures: one_measure(rt, alloc, measure),
        order: List::new(alloc),
        top: None,
    }
}

fn schemas_of(rt: &impl Abort, alloc: Global, extract: &Arc<Extract>) -> Schemas
    ensures { result ≡ (arc_value extract.now).heading ∷ [] }
{
    let mut schemas = Schemas::new(alloc);
    let schema = extract.schema().duplicate(alloc).ok().expect(rt, "memory");
    match schemas.push(schema) {
        Ok(()) => schemas,
        Err(_) => rt.abort(),
    }
}

// The key of a query that is valid for the extract.
fn key_for(rt: &impl Abort, alloc: Global, extract: &Arc<Extract>, query: &Query) -> Canon
    ensures valid { first_reason (arc_value extract.now).heading.sorts result ≡ None }
    ensures source { result.source ≡ 0 }
{
    let key = canonical(alloc, query).ok().expect(rt, "memory");
    let schemas = schemas_of(rt, alloc, extract);
    assert_eq!(rt; key.query().source, 0);
    match check(&schemas, key.query()) {
        Ok(()) => key,
        Err(_) => rt.abort(),
    }
}

fn spell_cell(rt: &impl Abort, alloc: Global, line: &mut Text, cell: &Cell) {
    let spelled = match cell {
        Cell::Null => line.append(b"-"),
        Cell::Whole(number) => {
            let digits = format!(in alloc; "{number}").ok().expect(rt, "memory");
            line.append(digits.as_bytes())
        }
        Cell::Word(text) => line.append(text.bytes()),
        Cell::Ratio(_) => line.append(b"/"),
    };
    assert!(rt; spelled.is_ok());
}

fn spell_row(rt: &impl Abort, alloc: Global, line: &mut Text, row: &Cells) {
    for cell in row.as_slice() {
        spell_cell(rt, alloc, line, cell);
        assert!(rt; line.append(b"|").is_ok());
    }
    assert!(rt; line.append(b";").is_ok());
}

fn spell_table(rt: &impl Abort, alloc: Global, table: &Table) -> Text {
    let mut line = Text::new(alloc);
    for row in table.as_slice() {
        spell_row(rt, alloc, &mut line, row);
    }
    line
}

// What an answered statement shows: its text, how often the link ran and was called by then, and the table.
#[derive(Drop)]
struct Want<'a> {
    text: &'a str,
    runs: u64,
    calls: u64,
    table: &'a str,
}

// The link is ready for a query: its statement has the text, and the link was called so often.
fn readied<L: Link>(
    rt: &impl Abort,
    alloc: Global,
    pooled: Pooled<L>,
    extract: &Arc<Extract>,
    key: &Canon,
    calls: u64,
) -> (Pooled<L>, Statement)
    requires valid { first_reason (arc_value extract.now).heading.sorts key.now ≡ None }
    requires source { key.now.source ≡ 0 }
    requires stands { StandsFor (L.mounts pooled.link) 0 (record { stamp = 1; version = arc_value extract.now }) }
    ensures stands { StandsFor (L.mounts result.0.link) 0 (record { stamp = 1; version = arc_value extract.now }) }
    ensures meaning { HasMeaning (L.mounts result.0.link) (L.tables result.0.link) (spelling result.1) }
{
    assert!(rt; pooled.calls() < 1000);
    match pooled.ready(alloc, 1, extract, key) {
        Readied::Ready(pooled, statement) => {
            assert_eq!(rt; pooled.calls(), calls);
            (pooled, statement)
        }
        Readied::Memory(_) => rt.abort(),
        Readied::Failed(_) => rt.abort(),
    }
}

fn check_text(rt: &impl Abort, alloc: Global, statement: &Statement, text: &str) {
    let printed = print(alloc, statement).ok().expect(rt, "memory");
    assert_eq!(rt; printed.bytes(), text.as_bytes(), "{text}");
}

// A ready link runs its statement, whose table is as wanted.
fn ran<L: Link>(
    rt: &impl Abort,
    alloc: Global,
    pooled: Pooled<L>,
    statement: &Statement,
    want: &Want,
) -> Pooled<L>
    requires { HasMeaning (L.mounts pooled.link) (L.tables pooled.link) (spelling statement.now) }
    ensures { Same (L.mounts pooled.link) (L.mounts result.link) }
{
    assert!(rt; pooled.calls() < 1000);
    match pooled.run(alloc, statement) {
        Ran::Done(pooled, table) => {
            assert_eq!(rt; pooled.runs(), want.runs);
            assert_eq!(rt; pooled.calls(), want.calls);
            let spelled = spell_table(rt, alloc, &table);
            assert_eq!(rt; spelled.bytes(), want.table.as_bytes());
            pooled
        }
        Ran::Memory(_) => rt.abort(),
        Ran::Failed(_) => rt.abort(),
    }
}

// A link answers a query as wanted.
fn answered<L: Link>(
    rt: &impl Abort,
    alloc: Global,
    pooled: Pooled<L>,
    extract: &Arc<Extract>,
    query: &Query,
    want: &Want,
) -> Pooled<L>
    requires { StandsFor (L.mounts pooled.link) 0 (record { stamp = 1; version = arc_value extract.now }) }
    ensures { StandsFor (L.mounts result.link) 0 (record { stamp = 1; version = arc_value extract.now }) }
{
    assert!(rt; 0 < want.calls);
    let key = key_for(rt, alloc, extract, query);
    let (pooled, statement) = readied(rt, alloc, pooled, extract, &key, want.calls - 1);
    check_text(rt, alloc, &statement, want.text);
    ran(rt, alloc, pooled, &statement, want)
}

// A link that was just given, under its number.
fn dialled<D: Dialer>(rt: &impl Abort, alloc: Global, dialer: &mut D, number: u64) -> Pooled<D::L>
    ensures { (s : ℕ) → D.L.mounts result.link s ≡ None }
{
    match dialer.dial(alloc) {
        Ok(link) => Pooled::new(alloc, number, link),
        Err(_) => rt.abort(),
    }
}

fn plan(rt: &impl Abort, alloc: Global, dials: &[u64], links: &[u64]) -> Fails {
    Fails {
        dials: Numbers64::from_vec(dials.to_vec(alloc).ok().expect(rt, "memory")),
        links: Numbers64::from_vec(links.to_vec(alloc).ok().expect(rt, "memory")),
    }
}

// The first link of the first lane.
fn first_link<O: Office>(
    rt: &impl Abort,
    alloc: Global,
    office: &mut O,
    fails: &Fails,
) -> Pooled<O::L>
    ensures { (s : ℕ) → O.L.mounts result.link s ≡ None }
{
    let dialer = office.dialer(alloc, 1, fails);
    let mut dialer = dialer.ok().expect(rt, "memory");
    dialled(rt, alloc, &mut dialer, 1)
}

// Sixteen values are spelled; seventeen stand in a table.
fn check_lists<L: Link>(rt: &impl Abort, alloc: Global, pooled: Pooled<L>)
    requires { (s : ℕ) → L.mounts pooled.link s ≡ None }
{
    let extract = sales(rt, alloc);
    let short = Want {
        text: "from 0@1 where c1 among (2010,2011,2012,2013,2014,2015,2016,2017,2018,2019,2020,2021,2022,2023,2024,2025) show rows",
        runs: 1,
        calls: 2,
        table: "5|;",
    };
    let query = rows_in(rt, alloc, 2010, 2025);
    let pooled = answered(rt, alloc, pooled, &extract, &query, &short);
    let long = Want {
        text: "from 0@1 where c1 among #1 show rows",
        runs: 2,
        calls: 4,
        table: "5|;",
    };
    let query = rows_in(rt, alloc, 2010, 2026);
    let _pooled = answered(rt, alloc, pooled, &extract, &query, &long);
}

// The third query finds the first one's table.
fn check_found<L: Link>(rt: &impl Abort, alloc: Global, pooled: Pooled<L>)
    requires { (s : ℕ) → L.mounts pooled.link s ≡ None }
{
    let extract = sales(rt, alloc);
    let sums = Want {
        text: "from 0@1 where c1 among #1 by c0 show sum c2",
        runs: 1,
        calls: 3,
        table: "-|4|;East|15|;West|7|;",
    };
    let query = by_region(rt, alloc, Measure::Sum(2), 2010, 2026);
    let pooled = answered(rt, alloc, pooled, &extract, &query, &sums);
    let others = Want {
        text: "from 0@1 where c1 among #2 by c0 show sum c2",
        runs: 2,
        calls: 5,
        table: "-|4|;East|15|;West|7|;",
    };
    let query = by_region(rt, alloc, Measure::Sum(2), 2011, 2027);
    let pooled = answered(rt, alloc, pooled, &extract, &query, &others);
    let maxima = Want {
        text: "from 0@1 where c1 among #1 by c0 show max c2",
        runs: 3,
        calls: 6,
        table: "-|4|;East|10|;West|7|;",
    };
    let query = by_region(rt, alloc, Measure::Max(2), 2010, 2026);
    let _pooled = answered(rt, alloc, pooled, &extract, &query, &maxima);
}

// A link with so many tables less one gets one more.
fn filled<L: Link>(
    rt: &impl Abort,
    alloc: Global,
    pooled: Pooled<L>,
    extract: &Arc<Extract>,
    table: u32,
) -> Pooled<L>
    requires few { table ≤ 16 }
    requires stands { StandsFor (L.mounts pooled.link) 0 (record { stamp = 1; version = arc_value extract.now }) }
    ensures { StandsFor (L.mounts result.link) 0 (record { stamp = 1; version = arc_value extract.now }) }
{
    let first = i64::from(table);
    let query = rows_in(rt, alloc, first, first + 16);
    let key = key_for(rt, alloc, extract, &query);
    let (pooled, _) = readied(rt, alloc, pooled, extract, &key, u64::from(table) + 1);
    pooled
}

// With the version and sixteen tables the first table gives way to the seventeenth.
fn check_full<L: Link>(rt: &impl Abort, alloc: Global, pooled: Pooled<L>)
    requires { (s : ℕ) → L.mounts pooled.link s ≡ None }
{
    let extract = sales(rt, alloc);
    let mut pooled = pooled;
    for table in 1..=16 {
        pooled = filled(rt, alloc, pooled, &extract, table);
    }
    let want = Want {
        text: "from 0@1 where c1 among #17 show rows",
        runs: 1,
        calls: 20,
        table: "5|;",
    };
    let query = rows_in(rt, alloc, 2010, 2026);
    let _pooled = answered(rt, alloc, pooled, &extract, &query, &want);
}

// A link runs a statement in its second call, and fails.
fn check_wreck<L: Link>(rt: &impl Abort, alloc: Global, pooled: Pooled<L>)
    requires { (s : ℕ) → L.mounts pooled.link s ≡ None }
{
    let extract = sales(rt, alloc);
    let key = key_for(rt, alloc, &extract, &rows_in(rt, alloc, 2010, 2025));
    let (pooled, statement) = readied(rt, alloc, pooled, &extract, &key, 1);
    assert!(rt; pooled.calls() < 1000);
    match pooled.run(alloc, &statement) {
        Ran::Failed(wreck) => {
            assert_eq!(rt; wreck.runs(), 1);
            assert_eq!(rt; wreck.calls(), 2);
            assert_eq!(rt; wreck.faults(), 1);
        }
        Ran::Memory(_) => rt.abort(),
        Ran::Done(_, _) => rt.abort(),
    }
}

// A run finds no memory in the link's second call.
fn run_short<L: Link>(
    rt: &impl Abort,
    alloc: Global,
    pooled: Pooled<L>,
    statement: &Statement,
) -> Pooled<L>
    requires { HasMeaning (L.mounts pooled.link) (L.tables pooled.link) (spelling statement.now) }
    ensures { Same (L.mounts pooled.link) (L.mounts result.link) }
{
    assert!(rt; pooled.calls() < 1000);
    match pooled.run(alloc, statement) {
        Ran::Memory(pooled) => {
            assert_eq!(rt; pooled.runs(), 1);
            assert_eq!(rt; pooled.calls(), 2);
            pooled
        }
        Ran::Failed(_) => rt.abort(),
        Ran::Done(_, _) => rt.abort(),
    }
}

// A link whose second call finds no memory answers in the third.
fn check_short<L: Link>(rt: &impl Abort, alloc: Global, pooled: Pooled<L>)
    requires { (s : ℕ) → L.mounts pooled.link s ≡ None }
{
    let extract = sales(rt, alloc);
    let query = by_region(rt, alloc, Measure::Rows, 2020, 2020);
    let key = key_for(rt, alloc, &extract, &query);
    let (pooled, statement) = readied(rt, alloc, pooled, &extract, &key, 1);
    let pooled = run_short(rt, alloc, pooled, &statement);
    let want = Want {
        text: "from 0@1 where c1 among (2020) by c0 show rows",
        runs: 2,
        calls: 3,
        table: "East|1|;West|1|;",
    };
    let _pooled = answered(rt, alloc, pooled, &extract, &query, &want);
}

#[test]
fn long_lists_stand_in_tables(rt: HostRuntime) {
    let alloc = rt.alloc();
    let nothing = plan(&rt, alloc, &[], &[]);
    let mut office = InOffice::new();
    check_lists(&rt, alloc, first_link(&rt, alloc, &mut office, &nothing));
    check_found(&rt, alloc, first_link(&rt, alloc, &mut office, &nothing));
    check_full(&rt, alloc, first_link(&rt, alloc, &mut office, &nothing));
}

#[test]
fn sure_links_never_fail(rt: HostRuntime) {
    let alloc = rt.alloc();
    let much = plan(&rt, alloc, &[1, 2], &[1, 2, 3]);
    check_lists(
        &rt,
        alloc,
        first_link(&rt, alloc, &mut SureOffice::new(), &much),
    );
}

#[test]
fn planned_calls_fail(rt: HostRuntime) {
    let alloc = rt.alloc();
    let fails = plan(&rt, alloc, &[2], &[2]);
    let dialer = InOffice::new().dialer(alloc, 1, &fails);
    let mut dialer = dialer.ok().expect(&rt, "memory");
    check_wreck(&rt, alloc, dialled(&rt, alloc, &mut dialer, 1));
    assert_eq!(rt; dialer.dial(alloc).err(), Some(LinkFault::Failed));
    check_lists(&rt, alloc, dialled(&rt, alloc, &mut dialer, 3));
}

#[test]
fn a_short_call_finds_no_memory(rt: HostRuntime) {
    let alloc = rt.alloc();
    let nothing = plan(&rt, alloc, &[], &[]);
    check_short(
        &rt,
        alloc,
        first_link(&rt, alloc, &mut ShortOffice::new(2), &nothing),
    );
    check_lists(
        &rt,
        alloc,
        first_link(&rt, alloc, &mut ShortOffice::new(9), &nothing),
    );
}
