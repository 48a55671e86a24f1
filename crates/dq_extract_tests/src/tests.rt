// What a file's rows are, against files written by hand, and each public call once.
ghost use Rattle.std.specs.Arc.{arc_value};
ghost use Rattle.std.specs.Prelude.{◌≡◌, ◌+◌, ◌<◌, ◌≤◌, length};
ghost use Rattle.dq_base.specs.Limits.{cell_room};
ghost use Rattle.dq_base.specs.Versions.{cells_of};

use dq_base::{Duplicate, List, MOST_CELLS, Schema, Sort, Sorts, Text, Texts, Value, Values};
use dq_extract::{Extract, LoadFault, Segment, SegmentList, load};
use std::alloc::Global;
use std::process::Abort;
use std::sync::Arc;

fn word(rt: &impl Abort, alloc: Global, bytes: &[u8]) -> Text {
    Text::copy_of(alloc, bytes).ok().expect(rt, "memory")
}

fn three_names(rt: &impl Abort, alloc: Global) -> Texts
    ensures { length result ≡ 3 }
{
    let mut names: Texts = List::new(alloc);
    names
        .push(word(rt, alloc, b"region"))
        .ok()
        .expect(rt, "memory");
    names
        .push(word(rt, alloc, b"year"))
        .ok()
        .expect(rt, "memory");
    names
        .push(word(rt, alloc, b"amount"))
        .ok()
        .expect(rt, "memory");
    assert_eq!(rt; names.len(), 3);
    names
}

fn three_sorts(rt: &impl Abort, alloc: Global) -> Sorts
    ensures { length result ≡ 3 }
{
    let mut sorts: Sorts = List::new(alloc);
    sorts.push(Sort::Word).ok().expect(rt, "memory");
    sorts.push(Sort::Whole).ok().expect(rt, "memory");
    sorts.push(Sort::Whole).ok().expect(rt, "memory");
    assert_eq!(rt; sorts.len(), 3);
    sorts
}

// A text column and two whole ones.
fn three_columns(rt: &impl Abort, alloc: Global) -> Schema
    ensures { 0 < length result.names }
{
    Schema::new(alloc, three_names(rt, alloc), three_sorts(rt, alloc))
        .ok()
        .expect(rt, "memory")
}

fn spell_value(rt: &impl Abort, alloc: Global, line: &mut Text, value: &Value) {
    let spelled = match value {
        Value::Null => line.append(b"-"),
        Value::Int(number) => {
            let digits = format!(in alloc; "{number}").ok().expect(rt, "memory");
            line.append(digits.as_bytes())
        }
        Value::Word(text) => line.append(text.bytes()),
    };
    assert!(rt; spelled.is_ok());
}

fn spell_row(rt: &impl Abort, alloc: Global, line: &mut Text, row: &Values) {
    for value in row.as_slice() {
        spell_value(rt, alloc, line, value);
        assert!(rt; line.append(b"|").is_ok());
    }
    assert!(rt; line.append(b";").is_ok());
}

fn spell_rows(rt: &impl Abort, alloc: Global, rows: &[Values]) -> Text {
    let mut line = Text::new(alloc);
    for row in rows {
        spell_row(rt, alloc, &mut line, row);
    }
    line
}

// The segment of a file, with room for so many cells.
fn load_file(rt: &impl Abort, alloc: Global, room: u64, file: &[u8]) -> Segment
    requires { room ≤ cell_room }
    ensures { cells_of result ≤ room }
{
    let schema = three_columns(rt, alloc);
    load(alloc, &schema, room, file).ok().expect(rt, "loaded")
}

fn spell_file(rt: &impl Abort, alloc: Global, file: &[u8]) -> Text {
    let segment = load_file(rt, alloc, MOST_CELLS, file);
    spell_rows(rt, alloc, segment.rows())
}

/// A file has these rows.
fn check_rows(rt: &impl Abort, alloc: Global, file: &str, want: &str) {
    let line = spell_file(rt, alloc, file.as_bytes());
    assert_eq!(rt; line.bytes(), want.as_bytes(), "{file}");
}

/// A file's first fault is this, with room for so many cells.
fn check_fault(rt: &impl Abort, alloc: Global, room: u64, file: &[u8], want: LoadFault) {
    assert!(rt; room <= MOST_CELLS);
    let schema = three_columns(rt, alloc);
    let fault = load(alloc, &schema, room, file).err();
    assert_eq!(rt; fault.expect(rt, "no fault"), want);
}

/// A fault is shown so.
fn check_shown(rt: &impl Abort, alloc: Global, fault: LoadFault, want: &str) {
    let shown = format!(in alloc; "{fault}").ok().expect(rt, "memory");
    assert_eq!(rt; shown.as_str(), want);
}

const FIVE: &str = "East|2020|10|;East|2021|5|;West|2020|7|;West|2021|-|;-|2021|4|;";

#[test]
fn rows_are_read(rt: HostRuntime) {
    let alloc = rt.alloc();
    check_rows(
        &rt,
        alloc,
        "region,year,amount\nEast,2020,10\nEast,2021,5\nWest,2020,7\nWest,2021,\n,2021,4\n",
        FIVE,
    );
    check_rows(
        &rt,
        alloc,
        "\u{FEFF}region,year,amount\nEast,2020,10\nEast,2021,5\nWest,2020,7\nWest,2021,\n,2021,4\n",
        FIVE,
    );
    check_rows(
        &rt,
        alloc,
        "region,year,amount\n\"a,b\",1,-2\n\"say \"\"hi\"\"\",003,\"7\"\n\"two\nlines\",,8\n",
        "a,b|1|-2|;say \"hi\"|3|7|;two\nlines|-|8|;",
    );
}

#[test]
fn line_ends_are_read(rt: HostRuntime) {
    let alloc = rt.alloc();
    check_rows(
        &rt,
        alloc,
        "region,year,amount\r\nEast,2020,10\r\nEast,2021,5\r\nWest,2020,7\r\nWest,2021,\r\n,2021,4\r\n",
        FIVE,
    );
    check_rows(
        &rt,
        alloc,
        "region,year,amount\nEast,2020,10\n\nEast,2021,5\nWest,2020,7\n\n\nWest,2021,\n,2021,4\n",
        FIVE,
    );
    check_rows(
        &rt,
        alloc,
        "region,year,amount\nEast,2020,10\nEast,2021,5\nWest,2020,7\nWest,2021,\n,2021,4",
        FIVE,
    );
}

#[test]
fn faults_are_told(rt: HostRuntime) {
    let alloc = rt.alloc();
    let faults: [(u64, &[u8], LoadFault); 12] = [
        (MOST_CELLS, b"", LoadFault::Header),
        (
            MOST_CELLS,
            b"region,year,sum\nEast,2020,10\n",
            LoadFault::Header,
        ),
        (MOST_CELLS, b"region,year\nEast,2020\n", LoadFault::Header),
        (
            2,
            b"region,year,amount\nEast,2020,10\n",
            LoadFault::TooManyCells,
        ),
        (
            5,
            b"region,year,amount\nEast,2020,10\nWest,2020,x\n",
            LoadFault::TooManyCells,
        ),
        (2, b"region,year,amount\nEast,2020\n", LoadFault::Width(1)),
        (
            MOST_CELLS,
            b"region,year,amount\nEast,2020,10\nWest,2021,7\nEast,2020\n",
            LoadFault::Width(3),
        ),
        (
            MOST_CELLS,
            b"region,year,amount\nEast,9223372036854775808,1\n",
            LoadFault::Number(1, 2),
        ),
        (
            MOST_CELLS,
            b"region,year,amount\nEast,2020,10\nWest,2020,12x\nWest\n",
            LoadFault::Number(2, 3),
        ),
        (
            MOST_CELLS,
            b"region,year,amount\nEast,+5,12x\n",
            LoadFault::Number(1, 2),
        ),
        (
            MOST_CELLS,
            b"region,year,amount\n\xFF,-,5\n",
            LoadFault::NotText(1, 1),
        ),
        (
            MOST_CELLS,
            b"region,year,amount\nEast,2020,10\n\xFF,2020,5\n",
            LoadFault::NotText(2, 1),
        ),
    ];
    for (room, file, want) in faults {
        check_fault(&rt, alloc, room, file, want);
    }
}

#[test]
fn faults_are_shown(rt: HostRuntime) {
    let alloc = rt.alloc();
    check_shown(&rt, alloc, LoadFault::Header, "header");
    check_shown(&rt, alloc, LoadFault::Width(3), "width 3");
    check_shown(&rt, alloc, LoadFault::Number(2, 3), "number 2 3");
    check_shown(&rt, alloc, LoadFault::NotText(4, 1), "not text 4 1");
    check_shown(&rt, alloc, LoadFault::TooManyCells, "too many cells");
    check_shown(&rt, alloc, LoadFault::Memory, "out of memory");
}

fn spell_copy(rt: &impl Abort, alloc: Global, segment: &Segment, place: u64) -> Text
    requires { place < length segment.now.rows }
{
    let row = segment.row(alloc, place).ok().expect(rt, "memory");
    let mut line = Text::new(alloc);
    spell_row(rt, alloc, &mut line, &row);
    line
}

/// The copy of a row at a place is this.
fn check_copy(rt: &impl Abort, alloc: Global, segment: &Segment, place: u64, want: &str) {
    assert!(rt; place < segment.count());
    let line = spell_copy(rt, alloc, segment, place);
    assert_eq!(rt; line.bytes(), want.as_bytes());
}

#[test]
fn rows_are_copied(rt: HostRuntime) {
    let alloc = rt.alloc();
    let file = b"region,year,amount\nEast,2020,10\nWest,2021,5\n";
    let segment = load_file(&rt, alloc, 6, file);
    assert_eq!(rt; segment.count(), 2);
    check_copy(&rt, alloc, &segment, 0, "East|2020|10|;");
    check_copy(&rt, alloc, &segment, 1, "West|2021|5|;");
}

// The shared segment of one row.
fn one_row(rt: &impl Abort, alloc: Global) -> Arc<Segment>
    ensures cells { cells_of (arc_value result) ≤ 3 }
    ensures rows { length (arc_value result).rows ≡ 1 }
{
    let segment = load_file(rt, alloc, 3, b"region,year,amount\nEast,2020,10\n");
    assert_eq!(rt; segment.count(), 1);
    Arc::new(alloc, segment).ok().expect(rt, "memory")
}

/// An extract has so many segments.
fn check_segments(rt: &impl Abort, extract: &Extract, want: u64) {
    let segments: &SegmentList = extract.segments();
    assert_eq!(rt; segments.len(), want);
    assert!(rt; segments.get(want).is_none());
    assert_eq!(rt; extract.schema().names().len(), 3);
}

fn empty_under(rt: &impl Abort, alloc: Global, segment: &Segment) -> Extract
    ensures { result.heading ≡ segment.now.heading }
{
    let schema = segment.schema().duplicate(alloc).ok();
    Extract::empty(alloc, schema.expect(rt, "memory"))
}

fn replaced_by(rt: &impl Abort, alloc: Global, owner: &Arc<Segment>) -> Extract
    ensures heading { result.heading ≡ (arc_value owner.now).heading }
    ensures rows { result.rows ≡ (arc_value owner.now).rows }
{
    let empty = empty_under(rt, alloc, owner);
    check_segments(rt, &empty, 0);
    empty.replaced(alloc, owner).ok().expect(rt, "memory")
}

fn check_appended(rt: &impl Abort, alloc: Global, extract: &Extract, owner: &Arc<Segment>)
    requires heading { (arc_value owner.now).heading ≡ extract.now.heading }
    requires cells { cells_of extract.now + cells_of (arc_value owner.now) ≤ cell_room }
{
    let appended = extract.appended(alloc, owner).ok().expect(rt, "memory");
    check_segments(rt, &appended, 2);
}

#[test]
fn extracts_share_segments(rt: HostRuntime) {
    let alloc = rt.alloc();
    let owner = one_row(&rt, alloc);
    let replaced = replaced_by(&rt, alloc, &owner);
    check_segments(&rt, &replaced, 1);
    check_appended(&rt, alloc, &replaced, &owner);
}
