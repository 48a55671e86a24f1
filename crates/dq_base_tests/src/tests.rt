// Orders, bounds and lists, each once.
use dq_base::{
    Canon, Canons, Cell, Dim, Duplicate, List, Measure, Memory, Query, Ratio, Schema, Sort, Text,
    Value, bands_round_down, compare_cells, compare_values, put,
};
use std::alloc::Global;
use std::cmp::Ordering;
use std::process::Abort;
use std::sync::Arc;
use std::test::Fail;

fn word(rt: &impl Abort, alloc: Global, bytes: &[u8]) -> Text {
    Text::copy_of(alloc, bytes).ok().expect(rt, "memory")
}

fn check_values(rt: &impl Abort, a: &Value, b: &Value, want: Ordering) {
    assert_eq!(rt; compare_values(a, b), want);
}

#[test]
fn values_are_ordered(rt: HostRuntime) {
    let alloc = rt.alloc();
    let east = Value::Word(word(&rt, alloc, b"East"));
    let eastern = Value::Word(word(&rt, alloc, b"Eastern"));
    check_values(&rt, &Value::Null, &Value::Null, Ordering::Equal);
    check_values(&rt, &Value::Null, &Value::Int(i64::MIN), Ordering::Less);
    check_values(&rt, &Value::Int(-2), &Value::Int(1), Ordering::Less);
    check_values(&rt, &Value::Int(9), &east, Ordering::Less);
    check_values(&rt, &eastern, &east, Ordering::Greater);
}

fn ratio(rt: &impl Abort, sum: i128, count: u64) -> Cell {
    Cell::Ratio(Ratio::new(sum, count).expect(rt, "within bounds"))
}

#[test]
fn cells_are_ordered(rt: HostRuntime) {
    let alloc = rt.alloc();
    let east = Cell::Word(word(&rt, alloc, b"East"));
    let half = ratio(&rt, 2, 4);
    assert_eq!(rt;
        compare_cells(&Cell::Null, &Cell::Whole(-1)),
        Ordering::Less
    );
    assert_eq!(rt; compare_cells(&east, &Cell::Whole(7)), Ordering::Greater);
    assert_eq!(rt; compare_cells(&east, &half), Ordering::Less);
    assert_eq!(rt; compare_cells(&half, &ratio(&rt, 1, 2)), Ordering::Equal);
    assert_eq!(rt; compare_cells(&ratio(&rt, -1, 3), &half), Ordering::Less);
}

#[test]
fn ratios_have_bounds(rt: HostRuntime) {
    let most = 1i128 << 86;
    let table = [
        (0, 1, true),
        (most, 8388608, true),
        (-most, 1, true),
        (most + 1, 1, false),
        (0, 0, false),
        (0, 8388609, false),
    ];
    for (sum, count, there) in table {
        assert_eq!(rt; Ratio::new(sum, count).is_some(), there, "{sum}/{count}");
    }
}

#[test]
fn lists_grow(rt: HostRuntime) -> Result<(), Fail> {
    let alloc = rt.alloc();
    let mut list: List<u32> = List::with_capacity(alloc, 2)?;
    list.push(7)?;
    list.push(9)?;
    list.insert(1, 8)?;
    assert_eq!(rt; list.numbered(3).copied(), Some(9));
    assert_eq!(rt; list.numbered(0).copied(), None);
    put(&mut list, 8)?;
    put(&mut list, 6)?;
    assert_eq!(rt; list.as_slice(), [6, 7, 8, 9].as_slice());
    list.truncate(3);
    assert_eq!(rt; list.len(), 3);
    assert_eq!(rt; list.get(2).copied(), Some(8));
    assert_eq!(rt; list.get(3).copied(), None);
    let mut text = Text::new(alloc);
    text.append(b"ab")?;
    assert_eq!(rt; text.bytes(), b"ab".as_slice());
    Ok(())
}

fn query(alloc: Global) -> Result<Query, Memory> {
    let mut dims = List::new(alloc);
    dims.push(Dim::plain(5))?;
    let mut measures = List::new(alloc);
    measures.push(Measure::Rows)?;
    Ok(Query {
        source: 3,
        filters: List::new(alloc),
        dims,
        measures,
        order: List::new(alloc),
        top: Some(1),
    })
}

#[test]
fn copies_are_whole(rt: HostRuntime) -> Result<(), Fail> {
    let alloc = rt.alloc();
    let copy = query(alloc)?.duplicate(alloc)?;
    assert_eq!(rt; copy.source, 3);
    assert_eq!(rt; copy.measures.as_slice(), [Measure::Rows].as_slice());
    assert_eq!(rt; copy.top, Some(1));
    assert_eq!(rt;
        copy.dims.get(0).map(|d| (d.column(), d.width())),
        Some((5, 1))
    );
    let schema = Schema::new(alloc, List::new(alloc), List::new(alloc))?.duplicate(alloc)?;
    assert_eq!(rt; schema.names().len(), 0);
    assert_eq!(rt; schema.sorts().as_slice(), [Sort::Whole; 0].as_slice());
    Ok(())
}

#[test]
fn bands_are_numbered(rt: HostRuntime) {
    for (number, width, band) in [
        (-1, 10, -1),
        (-10, 10, -1),
        (-11, 10, -2),
        (0, 10, 0),
        (9, 10, 0),
        (10, 10, 1),
        (7, 1, 7),
        (i64::MIN, 1, i64::MIN),
        (i64::MIN, 2, i64::MIN / 2),
        (i64::MAX, u32::MAX, 2147483648),
    ] {
        let dim = Dim::new(0, width).expect(&rt, "a width");
        assert_eq!(rt; dim.band(number), band, "{number} in bands of {width}");
    }
    assert!(rt; Dim::new(0, 0).is_none());
    bands_round_down();
}

// A query without filters is in canonical form.
fn canon(alloc: Global) -> Canon {
    Canon::new(Query {
        source: 3,
        filters: List::new(alloc),
        dims: List::new(alloc),
        measures: List::new(alloc),
        order: List::new(alloc),
        top: None,
    })
}

#[test]
fn canons_are_shared(rt: HostRuntime) -> Result<(), Fail> {
    let alloc = rt.alloc();
    let mut canons = Canons::new(alloc);
    assert_eq!(rt; canons.len(), 0);
    canons.push(Arc::new(alloc, canon(alloc))?)?;
    assert_eq!(rt; canons.as_slice().len(), 1);
    let canon = canons.get(0).expect(&rt, "the first");
    assert_eq!(rt; canon.query().source, 3);
    assert_eq!(rt; canon.duplicate(alloc)?.query().source, 3);
    assert!(rt; canons.get(1).is_none());
    Ok(())
}
