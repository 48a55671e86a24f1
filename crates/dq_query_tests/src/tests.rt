use dq_base::{
    Dim, Dims, Invalid, List, Measure, OrderKey, Predicate, Predicates, Query, Schema, Schemas,
    Sort, Sorts, Test, Text, Texts, Value, Values,
};
use dq_query::*;
use std::alloc::Global;
use std::process::Abort;

fn text(rt: &impl Abort, alloc: Global, bytes: &[u8]) -> Text {
    Text::copy_of(alloc, bytes).ok().expect(rt, "memory")
}

fn list<T: Copy + Drop>(rt: &impl Abort, alloc: Global, items: &[T]) -> List<T> {
    let mut list = List::new(alloc);
    for item in items {
        assert!(rt; list.push(*item).is_ok());
    }
    list
}

fn words(rt: &impl Abort, alloc: Global, texts: &[&[u8]]) -> Values {
    let mut list = List::new(alloc);
    for bytes in texts {
        assert!(rt; list.push(Value::Word(text(rt, alloc, bytes))).is_ok());
    }
    list
}

fn push_test(rt: &impl Abort, filters: &mut Predicates, column: u32, test: Test) {
    assert!(rt; filters.push(Predicate { column, test }).is_ok());
}

/// One extract: region is text, year and amount are whole numbers.
fn sales(rt: &impl Abort, alloc: Global) -> Schemas {
    let mut names = Texts::new(alloc);
    let mut sorts = Sorts::new(alloc);
    for (name, sort) in [
        (b"region".as_slice(), Sort::Word),
        (b"year".as_slice(), Sort::Whole),
        (b"amount".as_slice(), Sort::Whole),
    ] {
        assert!(rt; names.push(text(rt, alloc, name)).is_ok());
        assert!(rt; sorts.push(sort).is_ok());
    }
    assert_eq!(rt; names.len(), sorts.len());
    let mut schemas = Schemas::new(alloc);
    let schema = Schema::new(alloc, names, sorts).ok().expect(rt, "memory");
    assert!(rt; schemas.push(schema).is_ok());
    schemas
}

/// The dimensions of these columns and widths.
fn dims_of(rt: &impl Abort, alloc: Global, items: &[(u32, u32)]) -> Dims {
    let mut dims = Dims::new(alloc);
    for (column, width) in items {
        let dim = Dim::new(*column, *width).expect(rt, "a width");
        assert!(rt; dims.push(dim).is_ok());
    }
    dims
}

/// A query of these dimensions, measures and order places, with so many predicates that any region meets.
fn query(
    rt: &impl Abort,
    alloc: Global,
    dims: &[(u32, u32)],
    measures: &[Measure],
    places: &[u32],
    predicates: u32,
) -> Query {
    let mut order = List::new(alloc);
    for place in places {
        let key = OrderKey {
            place: *place,
            down: false,
        };
        assert!(rt; order.push(key).is_ok());
    }
    let mut filters = Predicates::new(alloc);
    for _ in 0..predicates {
        push_test(rt, &mut filters, 0, Test::Except(List::new(alloc)));
    }
    Query {
        source: 0,
        filters,
        dims: dims_of(rt, alloc, dims),
        measures: list(rt, alloc, measures),
        order,
        top: None,
    }
}

#[test]
fn each_reason_is_found(rt: HostRuntime) {
    let alloc = rt.alloc();
    let schemas = sales(&rt, alloc);
    let rows = [Measure::Rows];
    for (dims, measures, places, predicates, want) in [
        (
            [(0, 1)].as_slice(),
            rows.as_slice(),
            [1, 2].as_slice(),
            16,
            Ok(()),
        ),
        ([(1, 5), (2, 1), (1, 10)].as_slice(), &rows, &[], 0, Ok(())),
        ([(3, 1)].as_slice(), &rows, &[], 0, Err(Invalid::Column)),
        (
            [(1, 5), (1, 5)].as_slice(),
            &rows,
            &[],
            0,
            Err(Invalid::RepeatedDim),
        ),
        (
            [(2, 1), (1, 1), (0, 1), (2, 1)].as_slice(),
            &rows,
            &[],
            0,
            Err(Invalid::RepeatedDim),
        ),
        ([(0, 5)].as_slice(), &rows, &[], 0, Err(Invalid::WrongSort)),
        (
            [].as_slice(),
            [Measure::Sum(0)].as_slice(),
            &[],
            0,
            Err(Invalid::WrongSort),
        ),
        (
            [].as_slice(),
            [].as_slice(),
            &[],
            0,
            Err(Invalid::NothingShown),
        ),
        (
            [(0, 1)].as_slice(),
            &rows,
            [3].as_slice(),
            0,
            Err(Invalid::OrderKey),
        ),
        (
            [(0, 1)].as_slice(),
            &rows,
            [0].as_slice(),
            0,
            Err(Invalid::OrderKey),
        ),
        ([(0, 1)].as_slice(), &rows, &[], 17, Err(Invalid::TooLong)),
    ] {
        let q = query(&rt, alloc, dims, measures, places, predicates);
        assert_eq!(rt;
            check(&schemas, &q),
            want,
            "dimensions {dims:?}, places {places:?}"
        );
    }
}

#[test]
fn source_and_listed_values_are_looked_at(rt: HostRuntime) {
    let alloc = rt.alloc();
    let schemas = sales(&rt, alloc);
    let mut q = query(&rt, alloc, &[(0, 1)], &[Measure::Rows], &[], 0);
    q.source = 1;
    assert_eq!(rt; check(&schemas, &q), Err(Invalid::Source));
    q.source = 0;
    push_test(
        &rt,
        &mut q.filters,
        1,
        Test::Among(words(&rt, alloc, &[b"x"])),
    );
    assert_eq!(rt; check(&schemas, &q), Err(Invalid::WrongSort));
}

#[test]
fn dimensions_are_counted(rt: HostRuntime) {
    let alloc = rt.alloc();
    let schemas = sales(&rt, alloc);
    for (count, want) in [(64, Ok(())), (65, Err(Invalid::TooLong))] {
        let mut q = query(&rt, alloc, &[], &[], &[], 0);
        for width in 1..=count {
            let dim = Dim::new(1, width).expect(&rt, "a width");
            assert!(rt; q.dims.push(dim).is_ok());
        }
        assert_eq!(rt; check(&schemas, &q), want, "{count} dimensions");
    }
}

#[test]
fn canonical_form_is_ascending(rt: HostRuntime) {
    let alloc = rt.alloc();
    let mut q = query(&rt, alloc, &[(0, 1)], &[Measure::Rows], &[], 0);
    let mut want = Predicates::new(alloc);
    let inverted = Test::Between(Some(2021), Some(2020));
    let regions = Test::Among(words(&rt, alloc, &[b"West", b"East", b"West"]));
    let sorted = Test::Among(words(&rt, alloc, &[b"East", b"West"]));
    push_test(&rt, &mut q.filters, 1, inverted);
    push_test(&rt, &mut q.filters, 0, regions);
    push_test(&rt, &mut want, 0, sorted);
    push_test(&rt, &mut want, 1, Test::Among(List::new(alloc)));
    let canon = canonical(alloc, &q).ok().expect(&rt, "memory");
    assert!(rt; canon.query().filters == want);
    canonical_has_same_answer();
}
