ghost use Rattle.std.specs.Cmp.Lexicographic.{pointwise};
ghost use Rattle.std.specs.Prelude.{◌≡◌, ◌<◌, ◌≤◌, ◌*◌, IfOk, bytes_eq, length};
ghost use Rattle.csv.specs.Records.{fields_of};
ghost use Rattle.dq_base.specs.Limits.{cell_room};
ghost use Rattle.dq_base.specs.Versions.{cells_of};
ghost use Rattle.dq_extract.specs.Rows.{Answers, AnswersLoad, rows_after, rows_from, values_from};

use crate::cells::read_cell;
use crate::fault::LoadFault;
use crate::records::Records;
use crate::segment::Segment;
use csv::ByteRecord;
use dq_base::{Duplicate, List, Schema, Sort, Text, Values};
use std::alloc::Global;

// Whether the names are a record's fields.
fn are_names(names: &[Text], row: &ByteRecord) -> bool
    ensures { result ≡ pointwise bytes_eq names.now (fields_of row.now) }
{
    if row.len() != names.len() {
        return false;
    }
    for (place, name) in names.iter().enumerate() {
        let Some(field) = row.get(place) else {
            unreachable!();
        };
        if name.bytes() != field {
            return false;
        }
    }
    true
}

// The values of the fields of the row of that number.
fn read_row(
    alloc: Global,
    sorts: &[Sort],
    number: u64,
    row: &ByteRecord,
) -> Result<Values, LoadFault>
    requires { length (fields_of row.now) ≡ length sorts.now }
    ensures { Answers (values_from number 1 sorts.now (fields_of row.now)) result }
{
    let mut values = List::with_capacity(alloc, sorts.len() as u64)?;
    for (place, sort) in sorts.iter().enumerate() {
        let Some(field) = row.get(place) else {
            unreachable!();
        };
        let value = match read_cell(alloc, *sort, number, place as u64 + 1, field) {
            Ok(value) => value,
            Err(fault) => return Err(fault),
        };
        values.push(value)?;
    }
    Ok(values)
}

// The rows of what a reader has left.
fn read_rows(
    alloc: Global,
    schema: &Schema,
    room: u64,
    mut records: Records<'_>,
) -> Result<List<Values>, LoadFault>
    requires columns { 0 < length schema.now.names }
    requires room { room ≤ cell_room }
    ensures rows { Answers (rows_from schema.now room 1 records.entry.left) result }
    ensures cells { IfOk result (λ rows. length rows * length schema.now.names ≤ room) }
{
    let columns = schema.names().len();
    let mut rows = List::new(alloc);
    let mut cells: u64 = 0;
    loop {
        if !records.next()? {
            return Ok(rows);
        }
        let row = records.current();
        let number = rows.len() + 1;
        if row.len() as u64 != columns {
            return Err(LoadFault::Width(number));
        }
        if room - cells < columns {
            return Err(LoadFault::TooManyCells);
        }
        let values = match read_row(alloc, schema.sorts().as_slice(), number, row) {
            Ok(values) => values,
            Err(fault) => return Err(fault),
        };
        rows.push(values)?;
        cells += columns;
    }
}

// The rows behind a header.
fn read_file(
    alloc: Global,
    schema: &Schema,
    room: u64,
    mut records: Records<'_>,
) -> Result<List<Values>, LoadFault>
    requires columns { 0 < length schema.now.names }
    requires room { room ≤ cell_room }
    ensures rows { Answers (rows_after schema.now room records.entry.left) result }
    ensures cells { IfOk result (λ rows. length rows * length schema.now.names ≤ room) }
{
    if !records.next()? {
        return Err(LoadFault::Header);
    }
    if !are_names(schema.names().as_slice(), records.current()) {
        return Err(LoadFault::Header);
    }
    read_rows(alloc, schema, room, records)
}

/// The rows of a file of comma-separated values under a schema, with room for so many cells.
///
/// A leading byte order mark is skipped. The first record is the header, which has the schema's names; each record behind
/// it is a row with one field for each column. An empty field is null, a field of a whole column is a dash or none and
/// decimal digits within 64 bits, and a field of a text column is UTF-8.
///
/// The first fault is told, in the order of the rows: `Header`, then in each row `Width`, `TooManyCells` (with this row the
/// cells are more than `room`), and by column `Number` or `NotText`. `Memory` can come at any file. The cost is linear in the
/// bytes.
pub fn load(alloc: Global, schema: &Schema, room: u64, bytes: &[u8]) -> Result<Segment, LoadFault>
    requires columns { 0 < length schema.now.names }
    requires room { room ≤ cell_room }
    ensures answer { AnswersLoad schema.now room bytes.now result }
    ensures cells { IfOk result (λ segment. cells_of segment ≤ room) }
{
    // Reading the names brings to the proof that there are as many sorts.
    let _names = schema.names();
    let rows = read_file(alloc, schema, room, Records::new(alloc, bytes))?;
    let kept = schema.duplicate(alloc)?;
    Ok(Segment::new(kept, rows))
}
