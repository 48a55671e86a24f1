// The script of the tests: four lanes that ask of one extract, and its two files.
ghost use Rattle.std.specs.Arc.{arc_value};
ghost use Rattle.std.specs.Prelude.{◌≡◌, ◌≤◌, [], ◌∷◌, ◌++◌, None, Some, true, length};
ghost use Rattle.dq_base.specs.Dims.{plain};
ghost use Rattle.dq_base.specs.Scripts.{IsScript, heading_fits};
ghost use Rattle.dq_base.specs.Versions.{IsVersion, cells_of};
ghost use Rattle.dq_base.specs.declared.script.Step.{Step as StepOf};
ghost use Rattle.dq_machine_tests.specs.Samples as samples;

use dq_base::{
    Bound, Dim, Dims, Fails, How, LaneSteps, List, Measure, Query, Schema, Script, Sort, Step,
    Steps, Text,
};
use dq_extract::{Loaded, Segment, SegmentList, load};
use std::alloc::Global;
use std::process::Abort;
use std::sync::Arc;

const SALES: &[u8] =
    b"region,year,amount\nEast,2020,10\nEast,2021,5\nWest,2020,7\nWest,2021,\n,2021,4\n";

const REGION: u32 = 0;

const YEAR: u32 = 1;

const AMOUNT: u32 = 2;

fn word(rt: &impl Abort, alloc: Global, bytes: &[u8]) -> Text {
    Text::copy_of(alloc, bytes).ok().expect(rt, "memory")
}

fn list_of<T: Drop, const N: usize>(rt: &impl Abort, alloc: Global, items: [T; N]) -> List<T>
    ensures { result ≡ items }
{
    List::from_vec(Vec::from_array(alloc, items).ok().expect(rt, "memory"))
}

fn schema(rt: &impl Abort, alloc: Global) -> Schema
    ensures { heading_fits result ≡ true }
{
    let names = [
        word(rt, alloc, b"region"),
        word(rt, alloc, b"year"),
        word(rt, alloc, b"amount"),
    ];
    let sorts = [Sort::Word, Sort::Whole, Sort::Whole];
    let schema = Schema::new(alloc, list_of(rt, alloc, names), list_of(rt, alloc, sorts));
    schema.ok().expect(rt, "memory")
}

fn asked(rt: &impl Abort, alloc: Global, dims: Dims, measure: Measure, top: Option<u32>) -> Query
    ensures { result ≡ samples.asked dims measure top }
{
    Query {
        source: 0,
        filters: List::new(alloc),
        dims,
        measures: list_of(rt, alloc, [measure]),
        order: List::new(alloc),
        top,
    }
}

fn column(rt: &impl Abort, alloc: Global, column: u32) -> Dims
    ensures { result ≡ plain column ∷ [] }
{
    list_of(rt, alloc, [Dim::plain(column)])
}

fn by_region(rt: &impl Abort, alloc: Global) -> Query
    ensures { result ≡ samples.by_region }
{
    asked(rt, alloc, column(rt, alloc, REGION), Measure::Rows, None)
}

fn by_year(rt: &impl Abort, alloc: Global) -> Query
    ensures { result ≡ samples.by_year }
{
    asked(rt, alloc, column(rt, alloc, YEAR), Measure::Rows, None)
}

fn by_both(rt: &impl Abort, alloc: Global) -> Query
    ensures { result ≡ samples.by_both }
{
    let dims = list_of(rt, alloc, [Dim::plain(REGION), Dim::plain(YEAR)]);
    asked(rt, alloc, dims, Measure::Rows, None)
}

fn sum_by_region(rt: &impl Abort, alloc: Global) -> Query
    ensures { result ≡ samples.sum_by_region }
{
    asked(
        rt,
        alloc,
        column(rt, alloc, REGION),
        Measure::Sum(AMOUNT),
        None,
    )
}

fn top_regions(rt: &impl Abort, alloc: Global) -> Query
    ensures { result ≡ samples.top_regions }
{
    asked(rt, alloc, column(rt, alloc, REGION), Measure::Rows, Some(3))
}

fn refresh(alloc: Global, how: How) -> Step
    ensures { result ≡ StepOf.Publish 0 how [] }
{
    let file = List::new(alloc);
    Step::Publish {
        source: 0,
        how,
        file,
    }
}

fn ask(rt: &impl Abort, alloc: Global, zone: Query) -> Step
    ensures { result ≡ StepOf.Batch (zone ∷ []) }
{
    Step::Batch(list_of(rt, alloc, [zone]))
}

fn refreshing(rt: &impl Abort, alloc: Global) -> Steps
    ensures { result ≡ samples.refreshing }
{
    let steps = [
        refresh(alloc, How::Replace),
        ask(rt, alloc, by_both(rt, alloc)),
        refresh(alloc, How::Append),
        ask(rt, alloc, by_year(rt, alloc)),
    ];
    list_of(rt, alloc, steps)
}

fn three_zones(rt: &impl Abort, alloc: Global) -> Step
    ensures { result ≡ StepOf.Batch (samples.by_region ∷ samples.by_year ∷ samples.sum_by_region ∷ []) }
{
    let zones = [
        by_region(rt, alloc),
        by_year(rt, alloc),
        sum_by_region(rt, alloc),
    ];
    Step::Batch(list_of(rt, alloc, zones))
}

fn lanes(rt: &impl Abort, alloc: Global) -> LaneSteps
    ensures { result ≡ samples.asked_lanes }
{
    let years = [ask(rt, alloc, by_year(rt, alloc))];
    let tops = [
        ask(rt, alloc, top_regions(rt, alloc)),
        ask(rt, alloc, top_regions(rt, alloc)),
    ];
    let three = [three_zones(rt, alloc)];
    let lanes = [
        refreshing(rt, alloc),
        list_of(rt, alloc, years),
        list_of(rt, alloc, tops),
        list_of(rt, alloc, three),
    ];
    list_of(rt, alloc, lanes)
}

fn no_fails(alloc: Global) -> Fails
    ensures { result ≡ record { dials = []; links = [] } }
{
    Fails {
        dials: List::new(alloc),
        links: List::new(alloc),
    }
}

fn script(rt: &impl Abort, alloc: Global) -> Script
    ensures script { IsScript result }
    ensures lanes { result.lanes ≡ samples.asked_lanes }
    ensures schemas { length result.schemas ≡ 1 }
{
    let fails = [
        no_fails(alloc),
        no_fails(alloc),
        no_fails(alloc),
        no_fails(alloc),
    ];
    Script {
        names: list_of(rt, alloc, [word(rt, alloc, b"sales")]),
        schemas: list_of(rt, alloc, [schema(rt, alloc)]),
        literal: Bound::Entries(8),
        clever: Bound::Cells(100),
        lanes: lanes(rt, alloc),
        schedule: List::new(alloc),
        fails: list_of(rt, alloc, fails),
        sessions: List::new(alloc),
        blends: List::new(alloc),
    }
}

// The segment of the file, which has five rows.
fn segment(rt: &impl Abort, alloc: Global, schema: &Schema) -> Arc<Segment>
    ensures heading { (arc_value result).heading ≡ schema.now }
    ensures cells { cells_of (arc_value result) ≤ 15 }
    ensures version { IsVersion (arc_value result) }
{
    assert!(rt; schema.names().len() > 0);
    let segment = load(alloc, schema, 15, SALES).ok().expect(rt, "loaded");
    Arc::new(alloc, segment).ok().expect(rt, "memory")
}

fn put(rt: &impl Abort, segments: &mut SegmentList, segment: Arc<Segment>)
    ensures { segments.new ≡ segments.old ++ arc_value segment ∷ [] }
{
    assert!(rt; segments.push(segment).is_ok());
}

/// The script with its file, which the first lane puts there twice.
pub(crate) fn loaded(rt: &impl Abort, alloc: Global) -> Loaded
    ensures { result.script.lanes ≡ samples.asked_lanes }
{
    let script = script(rt, alloc);
    let sales = script.schemas.get(0).expect(rt, "a schema");
    let mut segments = SegmentList::new(alloc);
    put(rt, &mut segments, segment(rt, alloc, sales));
    put(rt, &mut segments, segment(rt, alloc, sales));
    Loaded::new(alloc, script, segments)
        .ok()
        .expect(rt, "memory")
}
