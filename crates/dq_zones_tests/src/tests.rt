ghost use Rattle.std.specs.Arc.{arc_value};
ghost use Rattle.std.specs.Prelude.{◌≡◌, ◌≤◌, [], ◌∷◌, length, true, Some, IfOk};
ghost use Rattle.dq_base.specs.Limits.{most_zones};
ghost use Rattle.dq_base.specs.declared.canon.Role.TheVariants as role_of;
ghost use Rattle.dq_zones.specs.Answering.{IsFetchFor};

use dq_base::{
    Canon, Canons, Cell, Cells, Dim, Dims, List, Measure, Memory, Numbers, Queries, Query, Role,
    Schema, Schemas, Sort, Sorts, Table, Text, Texts, put_signed,
};
use dq_cover::covers;
use dq_graph::{Prepared, Roles};
use dq_journal::{ZoneResult, ZoneResults};
use dq_query::canonical;
use dq_zones::{Fetch, Fetches, answer_zones, batches_fit, prepare, refused_zones};
use std::alloc::Global;
use std::process::Abort;
use std::sync::Arc;
use std::test::Fail;

const REGION: u32 = 0;

const YEAR: u32 = 1;

fn names(alloc: Global) -> Result<Texts, Memory> {
    let mut names = Texts::new(alloc);
    names.push(Text::copy_of(alloc, b"region")?)?;
    names.push(Text::copy_of(alloc, b"year")?)?;
    Ok(names)
}

/// One extract: region is text, and year a whole number.
fn schemas(rt: &impl Abort, alloc: Global) -> Result<Schemas, Memory> {
    let names = names(alloc)?;
    let sorts = Sorts::from_vec(vec![in alloc; Sort::Word, Sort::Whole]?);
    assert_eq!(rt; names.len(), sorts.len());
    let mut schemas = Schemas::new(alloc);
    schemas.push(Schema::new(alloc, names, sorts)?)?;
    Ok(schemas)
}

fn query(
    alloc: Global,
    source: u32,
    columns: &[u32],
    measures: &[Measure],
) -> Result<Query, Memory> {
    let mut dims = Dims::new(alloc);
    for column in columns {
        dims.push(Dim::plain(*column))?;
    }
    Ok(Query {
        source,
        filters: List::new(alloc),
        dims,
        measures: List::from_vec(measures.to_vec(alloc)?),
        order: List::new(alloc),
        top: None,
    })
}

fn by_both(alloc: Global) -> Result<Query, Memory> {
    query(alloc, 0, &[REGION, YEAR], &[Measure::Rows])
}

fn by_region(alloc: Global) -> Result<Query, Memory> {
    query(alloc, 0, &[REGION], &[Measure::Rows])
}

/// Rows by region and year, rows of an extract that isn't there, and rows by region.
fn zones(alloc: Global) -> Result<Queries, Memory> {
    let mut zones = Queries::new(alloc);
    zones.push(by_both(alloc)?)?;
    zones.push(query(alloc, 7, &[], &[Measure::Rows])?)?;
    zones.push(by_region(alloc)?)?;
    Ok(zones)
}

fn row(alloc: Global, region: &str, year: i128, rows: i128) -> Result<Cells, Memory> {
    let mut row = Cells::new(alloc);
    row.push(Cell::Word(Text::copy_of(alloc, region.as_bytes())?))?;
    row.push(Cell::Whole(year))?;
    row.push(Cell::Whole(year))?;
    row.push(Cell::Whole(rows))?;
    Ok(row)
}

fn table(alloc: Global) -> Result<Table, Memory> {
    let mut table = Table::new(alloc);
    table.push(row(alloc, "East", 2020, 3)?)?;
    table.push(row(alloc, "East", 2021, 4)?)?;
    table.push(row(alloc, "West", 2020, 5)?)?;
    Ok(table)
}

fn canon(alloc: Global, asked: &Query) -> Result<Arc<Canon>, Memory> {
    Ok(Arc::new(alloc, canonical(alloc, asked)?)?)
}

/// The last year, and rows, by region and year.
fn brought(alloc: Global) -> Result<Fetch, Memory> {
    let measures = &[Measure::Max(YEAR), Measure::Rows];
    let key = canon(alloc, &query(alloc, 0, &[REGION, YEAR], measures)?)?;
    Ok(Fetch::Brought(key, Arc::new(alloc, table(alloc)?)?))
}

fn spell_cell(text: &mut Text, cell: &Cell) -> Result<(), Memory> {
    match cell {
        Cell::Null => text.append(b"-"),
        Cell::Whole(number) => put_signed(text, *number),
        Cell::Word(word) => text.append(word.bytes()),
        Cell::Ratio(_) => text.append(b"ratio"),
    }
}

fn spell_row(text: &mut Text, row: &Cells) -> Result<(), Memory> {
    for cell in row.as_slice() {
        spell_cell(text, cell)?;
        text.append(b" ")?;
    }
    text.append(b"; ")
}

fn spell_table(text: &mut Text, table: &Table) -> Result<(), Memory> {
    for row in table.as_slice() {
        spell_row(text, row)?;
    }
    Ok(())
}

fn spell_outcome(text: &mut Text, outcome: &ZoneResult) -> Result<(), Memory> {
    match outcome {
        ZoneResult::Rows(table) => spell_table(text, table),
        ZoneResult::Invalid(_) => text.append(b"invalid "),
        ZoneResult::BackEnd => text.append(b"back end "),
        ZoneResult::Memory => text.append(b"memory "),
    }
}

fn spelled(alloc: Global, outcomes: &ZoneResults) -> Result<Text, Memory> {
    let mut text = Text::new(alloc);
    for outcome in outcomes.as_slice() {
        spell_outcome(&mut text, outcome)?;
        text.append(b"| ")?;
    }
    Ok(text)
}

/// Three zones: the first and the third are valid, and the third is computed from the first.
fn pair(alloc: Global, a: Arc<Canon>, b: Arc<Canon>) -> Result<Prepared, Memory>
    ensures zones { IfOk result (λ p. p.zones ≡ 1 ∷ 3 ∷ []) }
    ensures canons { IfOk result (λ p. p.canons ≡ arc_value a ∷ arc_value b ∷ []) }
    ensures roles { IfOk result (λ p. p.roles ≡ role_of.Remote ∷ role_of.Local 0 ∷ []) }
{
    let mut zones = Numbers::new(alloc);
    zones.push(1)?;
    zones.push(3)?;
    let mut canons = Canons::new(alloc);
    canons.push(a)?;
    canons.push(b)?;
    let mut roles = Roles::new(alloc);
    roles.push(Role::Remote)?;
    roles.push(Role::Local(0))?;
    Ok(Prepared {
        zones,
        canons,
        roles,
        bodies: Texts::new(alloc),
    })
}

/// Whether what was brought may be fetched for a query.
fn is_for(fetch: &Fetch, q: &Canon) -> bool
    ensures { result ≡ true → IsFetchFor q.now (Some fetch.now) }
{
    match fetch {
        Fetch::Waiting(_) => true,
        Fetch::Flying(_) => true,
        Fetch::Brought(key, _) => covers(key, q),
        Fetch::BackEnd => true,
        Fetch::Memory => true,
    }
}

/// Answers the three zones where one query covers the other, and what was brought covers both; else says that they aren't answered.
fn answer_pair(
    alloc: Global,
    a: Arc<Canon>,
    b: Arc<Canon>,
    fetch: Fetch,
    outcomes: &mut ZoneResults,
) -> Result<bool, Memory> {
    if outcomes.len() != 3 {
        return Ok(false);
    }
    if !covers(&a, &b) {
        return Ok(false);
    }
    if !is_for(&fetch, &a) {
        return Ok(false);
    }
    let prepared = pair(alloc, a, b)?;
    let mut fetches = Fetches::new(alloc);
    fetches.push(fetch)?;
    answer_zones(alloc, &prepared, &fetches, outcomes);
    Ok(true)
}

/// The outcomes of the three zones before anything was brought.
fn refused(rt: &impl Abort, alloc: Global) -> Result<ZoneResults, Memory> {
    let schemas = schemas(rt, alloc)?;
    let zones = zones(alloc)?;
    refused_zones(alloc, &schemas, zones.as_slice())
}

/// The outcomes of the three zones where this was brought.
fn answered(rt: &impl Abort, alloc: Global, fetch: Fetch) -> Result<Text, Memory> {
    let a = canon(alloc, &by_both(alloc)?)?;
    let b = canon(alloc, &by_region(alloc)?)?;
    let mut outcomes = refused(rt, alloc)?;
    let is_answered = answer_pair(alloc, a, b, fetch, &mut outcomes)?;
    assert!(rt; is_answered);
    spelled(alloc, &outcomes)
}

#[test]
fn a_batch_is_prepared(rt: HostRuntime) -> Result<(), Fail> {
    batches_fit();
    let alloc = rt.alloc();
    let zones = zones(alloc)?;
    assert!(&rt; zones.len() <= 64);
    let prepared = prepare(alloc, &schemas(&rt, alloc)?, &zones)?;
    assert_eq!(rt; prepared.zones.as_slice(), [1, 3].as_slice());
    assert_eq!(rt;
        prepared.roles.as_slice(),
        [Role::Remote, Role::Local(0)].as_slice()
    );
    assert_eq!(rt; prepared.canons.len(), 2);
    assert_eq!(rt; prepared.bodies.len(), 1);
    Ok(())
}

#[test]
fn zones_are_answered(rt: HostRuntime) -> Result<(), Fail> {
    let alloc = rt.alloc();
    let text = answered(&rt, alloc, brought(alloc)?)?;
    let want: &[u8] = b"East 2020 3 ; East 2021 4 ; West 2020 5 ; | invalid | East 7 ; West 5 ; | ";
    assert_eq!(rt; text.bytes(), want);
    Ok(())
}

#[test]
fn zones_are_refused(rt: HostRuntime) -> Result<(), Fail> {
    let alloc = rt.alloc();
    let text = answered(&rt, alloc, Fetch::BackEnd)?;
    assert_eq!(rt;
        text.bytes(),
        b"back end | invalid | back end | ".as_slice()
    );
    let text = answered(&rt, alloc, Fetch::Memory)?;
    assert_eq!(rt; text.bytes(), b"memory | invalid | memory | ".as_slice());
    Ok(())
}
