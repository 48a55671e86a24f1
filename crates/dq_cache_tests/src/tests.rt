ghost use Rattle.std.specs.Prelude.{◌≡◌, []};

use dq_base::{
    Bound, Canon, Dim, Dims, Kept, List, Measure, Memory, Numbers64, Predicates, Query, Table, Text,
};
use dq_cache::{Clever, Found, Literal};
use std::alloc::Global;
use std::process::Abort;
use std::sync::Arc;
use std::test::Fail;

const REGION: u32 = 0;

const YEAR: u32 = 1;

const AMOUNT: u32 = 2;

/// A query, and how many rows its answer has.
#[derive(Clone, Copy)]
struct Asked<'a> {
    source: u32,
    columns: &'a [u32],
    measures: &'a [Measure],
    top: Option<u32>,
    rows: u64,
}

fn no_filters(alloc: Global) -> Predicates
    ensures { result ≡ [] }
{
    List::new(alloc)
}

fn dims(alloc: Global, columns: &[u32]) -> Result<Dims, Memory> {
    let mut dims = List::new(alloc);
    for column in columns {
        dims.push(Dim::plain(*column))?;
    }
    Ok(dims)
}

fn key_of(alloc: Global, asked: &Asked<'_>) -> Result<Arc<Canon>, Memory> {
    let canon = Canon::new(Query {
        source: asked.source,
        filters: no_filters(alloc),
        dims: dims(alloc, asked.columns)?,
        measures: List::from_vec(asked.measures.to_vec(alloc)?),
        order: List::new(alloc),
        top: asked.top,
    });
    Ok(Arc::new(alloc, canon)?)
}

fn table_of(alloc: Global, rows: u64) -> Result<Arc<Table>, Memory> {
    let mut table = Table::new(alloc);
    for _ in 0..rows {
        table.push(List::new(alloc))?;
    }
    Ok(Arc::new(alloc, table)?)
}

/// The sum of the amounts by region: three rows, six cells.
fn by_region<'a>() -> Asked<'a> {
    Asked {
        source: 0,
        columns: &[REGION],
        measures: &[Measure::Sum(AMOUNT)],
        top: None,
        rows: 3,
    }
}

/// How many rows by year: two rows, four cells.
fn by_year<'a>() -> Asked<'a> {
    Asked {
        source: 0,
        columns: &[YEAR],
        measures: &[Measure::Rows],
        top: None,
        rows: 2,
    }
}

/// One cell of a source.
fn one_cell<'a>(source: u32, measures: &'a [Measure]) -> Asked<'a> {
    Asked {
        source,
        columns: &[],
        measures,
        top: None,
        rows: 1,
    }
}

fn flight_of(found: Option<Found>) -> Option<u64> {
    match found {
        Some(found) => Some(found.flight),
        None => None,
    }
}

fn keep(
    alloc: Global,
    cache: &mut Clever,
    flight: u64,
    stamp: u64,
    asked: &Asked<'_>,
) -> Result<Kept, Memory> {
    let key = key_of(alloc, asked)?;
    let table = table_of(alloc, asked.rows)?;
    Ok(cache.keep(flight, stamp, stamp, key, table))
}

fn find(
    alloc: Global,
    cache: &mut Clever,
    stamp: u64,
    asked: &Asked<'_>,
) -> Result<Option<u64>, Memory> {
    let key = key_of(alloc, asked)?;
    Ok(flight_of(cache.find(stamp, &key)))
}

/// Asks for each in turn; what isn't found is landed by the next flight and kept. The flights that were found, 0 for none.
fn meet(alloc: Global, bound: Bound, batches: &[Asked<'_>]) -> Result<Numbers64, Memory> {
    let mut cache = Clever::new(alloc, bound)?;
    let mut met = Numbers64::new(alloc);
    let mut flight = 0;
    for asked in batches {
        let found = find(alloc, &mut cache, 1, asked)?;
        if found.is_none() {
            flight = u64::saturating_add(flight, 1);
            let _ = keep(alloc, &mut cache, flight, 1, asked)?;
        }
        met.push(found.unwrap_or(0))?;
    }
    Ok(met)
}

#[test]
fn a_full_cache_drops_its_last(rt: HostRuntime) -> Result<(), Fail> {
    let alloc = rt.alloc();
    let batches = [by_region(), by_year(), by_region(), by_year()];
    let cases: &[(Bound, [u64; 4])] = &[
        (Bound::Entries(1), [0, 0, 0, 0]),
        (Bound::Entries(2), [0, 0, 1, 2]),
        (Bound::Cells(6), [0, 0, 0, 0]),
        (Bound::Cells(9), [0, 0, 0, 0]),
        (Bound::Cells(10), [0, 0, 1, 2]),
        (Bound::Cells(5), [0, 0, 0, 2]),
    ];
    for (bound, wanted) in cases {
        let met = meet(alloc, *bound, batches.as_slice())?;
        assert_eq!(rt; met.as_slice(), wanted.as_slice());
    }
    Ok(())
}

#[test]
fn one_flight_answers_two_measures(rt: HostRuntime) -> Result<(), Fail> {
    let alloc = rt.alloc();
    let fused = Asked {
        measures: &[Measure::Sum(AMOUNT), Measure::Max(AMOUNT)],
        ..by_region()
    };
    let greatest = Asked {
        measures: &[Measure::Max(AMOUNT)],
        ..by_region()
    };
    let met = meet(
        alloc,
        Bound::Entries(64),
        &[fused, by_region(), greatest, by_year()],
    )?;
    assert_eq!(rt; met.as_slice(), [0, 1, 1, 0].as_slice());
    Ok(())
}

#[test]
fn shelves_follow_the_entries(rt: HostRuntime) -> Result<(), Fail> {
    let alloc = rt.alloc();
    let rows = one_cell(0, &[Measure::Rows]);
    let most = one_cell(0, &[Measure::Max(AMOUNT)]);
    let mut cache = Clever::new(alloc, Bound::Entries(3))?;
    let _ = keep(alloc, &mut cache, 1, 1, &rows)?;
    let _ = keep(alloc, &mut cache, 2, 2, &one_cell(1, &[Measure::Rows]))?;
    let _ = keep(alloc, &mut cache, 3, 1, &most)?;
    assert_eq!(rt;
        cache.shelf(0, 1).map(|f| f.as_slice()),
        Some([3, 1].as_slice())
    );
    assert_eq!(rt; find(alloc, &mut cache, 1, &rows)?, Some(1));
    assert_eq!(rt;
        cache.shelf(0, 1).map(|f| f.as_slice()),
        Some([1, 3].as_slice())
    );
    let _ = keep(
        alloc,
        &mut cache,
        4,
        2,
        &one_cell(1, &[Measure::Sum(AMOUNT)]),
    )?;
    assert_eq!(rt;
        cache.shelf(1, 2).map(|f| f.as_slice()),
        Some([4].as_slice())
    );
    let _ = keep(alloc, &mut cache, 5, 1, &most)?;
    assert_eq!(rt;
        cache.shelf(0, 1).map(|f| f.as_slice()),
        Some([5, 1].as_slice())
    );
    cache.drop_source(0);
    assert!(rt; cache.shelf(0, 1).is_none());
    assert!(rt; cache.shelf(1, 2).is_some());
    Ok(())
}

#[test]
fn not_all_is_kept(rt: HostRuntime) -> Result<(), Fail> {
    let alloc = rt.alloc();
    let mut cache = Clever::new(alloc, Bound::Entries(64))?;
    let topped = Asked {
        top: Some(2),
        ..by_region()
    };
    assert_eq!(rt; keep(alloc, &mut cache, 1, 1, &topped)?, Kept::Topped);
    assert_eq!(rt; find(alloc, &mut cache, 1, &topped)?, None);
    assert_eq!(rt; keep(alloc, &mut cache, 2, 1, &by_region())?, Kept::Kept);
    assert_eq!(rt; find(alloc, &mut cache, 1, &topped)?, Some(2));
    assert!(rt; cache.has(1, &*key_of(alloc, &topped)?));
    assert!(rt; !cache.has(2, &*key_of(alloc, &topped)?));
    let key = key_of(alloc, &by_year())?;
    assert_eq!(rt; cache.keep(3, 1, 2, key, table_of(alloc, 2)?), Kept::Stale);
    Ok(())
}

#[test]
fn a_table_may_have_so_many_cells(rt: HostRuntime) -> Result<(), Fail> {
    let alloc = rt.alloc();
    let mut cache = Clever::new(alloc, Bound::Entries(64))?;
    for (rows, wanted) in [(65536, Kept::Kept), (65537, Kept::TooLarge)] {
        let asked = Asked {
            rows,
            ..one_cell(0, &[Measure::Rows])
        };
        assert_eq!(rt; keep(alloc, &mut cache, 1, 1, &asked)?, wanted);
    }
    Ok(())
}

fn keep_body(
    alloc: Global,
    cache: &mut Literal,
    flight: u64,
    stamp: u64,
    asked: &Asked<'_>,
    body: &[u8],
) -> Result<Kept, Memory> {
    let key = key_of(alloc, asked)?;
    let table = table_of(alloc, asked.rows)?;
    Ok(cache.keep(
        flight,
        stamp,
        stamp,
        key,
        Text::copy_of(alloc, body)?,
        table,
    ))
}

fn find_body(
    alloc: Global,
    cache: &mut Literal,
    stamp: u64,
    body: &[u8],
) -> Result<Option<u64>, Memory> {
    let text = Text::copy_of(alloc, body)?;
    Ok(flight_of(cache.find(stamp, &text)))
}

#[test]
fn bodies_are_found_by_stamp(rt: HostRuntime) -> Result<(), Fail> {
    let alloc = rt.alloc();
    let mut cache = Literal::new(alloc, Bound::Entries(2))?;
    let topped = Asked {
        top: Some(2),
        ..by_region()
    };
    let other = one_cell(1, &[Measure::Rows]);
    assert_eq!(rt;
        keep_body(alloc, &mut cache, 1, 1, &topped, b"a")?,
        Kept::Kept
    );
    assert_eq!(rt;
        keep_body(alloc, &mut cache, 2, 2, &other, b"a")?,
        Kept::Kept
    );
    assert_eq!(rt; find_body(alloc, &mut cache, 1, b"a")?, Some(1));
    assert_eq!(rt; find_body(alloc, &mut cache, 3, b"a")?, None);
    assert_eq!(rt;
        keep_body(alloc, &mut cache, 3, 1, &by_year(), b"b")?,
        Kept::Kept
    );
    assert_eq!(rt; find_body(alloc, &mut cache, 2, b"a")?, None);
    assert_eq!(rt;
        keep_body(alloc, &mut cache, 4, 1, &topped, b"a")?,
        Kept::Kept
    );
    assert_eq!(rt; find_body(alloc, &mut cache, 1, b"a")?, Some(4));
    assert!(rt; cache.has(1, &Text::copy_of(alloc, b"b")?));
    cache.drop_source(0);
    assert!(rt; !cache.has(1, &Text::copy_of(alloc, b"b")?));
    Ok(())
}
