// Which rows a filter leaves, and which zones a session's filters reach.
ghost use Rattle.std.specs.Arc.{arc_value};
ghost use Rattle.std.specs.Prelude.{◌≡◌, ◌<◌, length};

use dq_base::{
    Bound, Duplicate, How, LaneSteps, List, Memory, Predicate, Predicates, Queries, Query, Schema,
    Script, Session, Sessions, Sort, Step, Steps, Test, Text, Value, Values, put_number,
    put_signed,
};
use dq_extract::{Extract, load};
use dq_shield::{Rows, filters_hide_the_rest, hidden_rows_change_nothing, shield, visible};
use std::alloc::Global;
use std::process::Abort;
use std::sync::Arc;
use std::test::Fail;

const SALES: &[u8] =
    b"region,year,amount\nEast,2020,10\nEast,2021,5\nWest,2020,7\nWest,2021,\n,2021,4\n";

// A list of these items.
fn list<T: Copy + Drop>(alloc: Global, items: &[T]) -> Result<List<T>, Memory> {
    let mut list = List::new(alloc);
    for item in items {
        list.push(*item)?;
    }
    Ok(list)
}

// A list of one item.
fn single<T: Drop>(alloc: Global, item: T) -> Result<List<T>, Memory> {
    let mut list = List::new(alloc);
    list.push(item)?;
    Ok(list)
}

fn word(alloc: Global, bytes: &[u8]) -> Result<Value, Memory> {
    Ok(Value::Word(Text::copy_of(alloc, bytes)?))
}

// A text column and two whole ones.
fn three_columns(rt: &impl Abort, alloc: Global) -> Result<Schema, Memory> {
    let mut names = List::new(alloc);
    names.push(Text::copy_of(alloc, b"region")?)?;
    names.push(Text::copy_of(alloc, b"year")?)?;
    names.push(Text::copy_of(alloc, b"amount")?)?;
    let sorts = list(alloc, &[Sort::Word, Sort::Whole, Sort::Whole])?;
    assert_eq!(rt; names.len(), sorts.len());
    Schema::new(alloc, names, sorts)
}

// The extract of a file's rows.
fn published(rt: &impl Abort, alloc: Global, file: &[u8]) -> Result<Extract, Memory> {
    let schema = three_columns(rt, alloc)?;
    assert!(rt; schema.names().len() > 0);
    let Ok(segment) = load(alloc, &schema, 15, file) else {
        return Err(Memory);
    };
    let owner = Arc::new(alloc, segment)?;
    let empty = Extract::empty(alloc, schema);
    empty.replaced(alloc, &owner)
}

fn put_value(text: &mut Text, value: &Value) -> Result<(), Memory> {
    match value {
        Value::Null => text.append(b"null"),
        Value::Int(n) => put_signed(text, i128::from(*n)),
        Value::Word(word) => text.append(word.bytes()),
    }
}

fn put_values(text: &mut Text, row: &[Value]) -> Result<(), Memory> {
    for value in row {
        put_value(text, value)?;
        text.push(b' ')?;
    }
    text.push(b';')
}

// Rows with a space behind each value and a `;` behind each row.
fn spelled(alloc: Global, rows: &Rows) -> Result<Text, Memory> {
    let mut text = Text::new(alloc);
    for row in rows.as_slice() {
        put_values(&mut text, row.as_slice())?;
    }
    Ok(text)
}

fn among(alloc: Global, column: u32, value: Value) -> Result<Predicate, Memory> {
    let test = Test::Among(single(alloc, value)?);
    Ok(Predicate { column, test })
}

fn of_east(alloc: Global) -> Result<Predicates, Memory> {
    single(alloc, among(alloc, 0, word(alloc, b"East")?)?)
}

// Those of the east, but for a year.
fn of_late_east(alloc: Global) -> Result<Predicates, Memory> {
    let mut filters = of_east(alloc)?;
    let test = Test::Except(single(alloc, Value::Int(2020))?);
    filters.push(Predicate { column: 1, test })?;
    Ok(filters)
}

fn of_small_amount(alloc: Global) -> Result<Predicates, Memory> {
    let test = Test::Between(Some(4), Some(7));
    single(alloc, Predicate { column: 2, test })
}

// How the rows that filters leave are spelled.
fn seen(alloc: Global, sales: &Extract, filters: &Predicates) -> Result<Text, Memory> {
    spelled(alloc, &visible(alloc, sales, filters)?)
}

fn check(
    rt: &impl Abort,
    alloc: Global,
    sales: &Extract,
    filters: &Predicates,
    want: &[u8],
) -> Result<(), Memory> {
    assert_eq!(rt; seen(alloc, sales, filters)?.bytes(), want);
    Ok(())
}

#[test]
fn filters_leave_rows(rt: HostRuntime) -> Result<(), Fail> {
    let alloc = rt.alloc();
    let sales = published(&rt, alloc, SALES)?;
    let east = b"East 2020 10 ;East 2021 5 ;";
    check(&rt, alloc, &sales, &of_east(alloc)?, east)?;
    let late = b"East 2021 5 ;";
    check(&rt, alloc, &sales, &of_late_east(alloc)?, late)?;
    let small = b"East 2021 5 ;West 2020 7 ;null 2021 4 ;";
    check(&rt, alloc, &sales, &of_small_amount(alloc)?, small)?;
    filters_hide_the_rest();
    hidden_rows_change_nothing();
    Ok(())
}

// A zone of a source, with one filter of its own.
fn zone(alloc: Global, source: u32) -> Result<Query, Memory> {
    Ok(Query {
        source,
        filters: single(alloc, among(alloc, 1, Value::Int(2020))?)?,
        dims: List::new(alloc),
        measures: List::new(alloc),
        order: List::new(alloc),
        top: None,
    })
}

// A publication, and a batch of a zone of each of two sources.
fn steps(alloc: Global) -> Result<Steps, Memory> {
    let mut steps = Steps::new(alloc);
    steps.push(Step::Publish {
        source: 0,
        how: How::Replace,
        file: Text::new(alloc),
    })?;
    let mut zones = Queries::new(alloc);
    zones.push(zone(alloc, 0)?)?;
    zones.push(zone(alloc, 1)?)?;
    steps.push(Step::Batch(zones))?;
    Ok(steps)
}

// The second lane's session over source 1, and the first lane's over a source that it doesn't ask of.
fn sessions(alloc: Global) -> Result<Sessions, Memory> {
    let mut sessions = Sessions::new(alloc);
    for (lane, source) in [(2, 1), (1, 3)] {
        let filters = single(alloc, among(alloc, 0, Value::Null)?)?;
        sessions.push(Session {
            lane,
            source,
            filters,
        })?;
    }
    Ok(sessions)
}

fn two_lanes(alloc: Global) -> Result<Script, Memory> {
    let mut lanes = LaneSteps::new(alloc);
    lanes.push(steps(alloc)?)?;
    lanes.push(steps(alloc)?)?;
    Ok(Script {
        names: List::new(alloc),
        schemas: List::new(alloc),
        literal: Bound::Entries(1),
        clever: Bound::Entries(1),
        lanes,
        schedule: List::new(alloc),
        fails: List::new(alloc),
        sessions: sessions(alloc)?,
        blends: List::new(alloc),
    })
}

// The columns of a zone's filters, in order.
fn put_columns(text: &mut Text, zone: &Query) -> Result<(), Memory> {
    for filter in zone.filters.as_slice() {
        put_number(text, u64::from(filter.column))?;
    }
    text.push(b' ')
}

fn put_step(text: &mut Text, step: &Step) -> Result<(), Memory> {
    match step {
        Step::Publish { .. } => text.append(b"publish "),
        Step::Batch(zones) => {
            for zone in zones.as_slice() {
                put_columns(text, zone)?;
            }
            Ok(())
        }
    }
}

// The columns that the zones of lanes are filtered by, with a `;` behind each lane.
fn columns(alloc: Global, lanes: &LaneSteps) -> Result<Text, Memory> {
    let mut text = Text::new(alloc);
    for steps in lanes.as_slice() {
        for step in steps.as_slice() {
            put_step(&mut text, step)?;
        }
        text.push(b';')?;
    }
    Ok(text)
}

#[test]
fn sessions_reach_their_zones(rt: HostRuntime) -> Result<(), Fail> {
    let alloc = rt.alloc();
    let script = shield(alloc, two_lanes(alloc)?)?;
    assert_eq!(rt;
        columns(alloc, &script.lanes)?.bytes(),
        b"publish 1 1 ;publish 1 10 ;".as_slice()
    );
    assert_eq!(rt; script.sessions.len(), 2);
    Ok(())
}
