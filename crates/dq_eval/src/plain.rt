use dq_base::{
    Canon, Cell, Cells, Dim, Duplicate, List, Measure, Memory, OrderKey, Query, Ratio, Table, Text,
    Value, Values, compare_cells, compare_keys, put,
};
use dq_extract::Extract;
use dq_fold::passes;
use std::alloc::Global;
use std::cmp::Ordering;

/// Copies those rows that a query keeps to the end of a list.
fn copy_kept(
    alloc: Global,
    q: &Query,
    rows: &[Values],
    copies: &mut List<Values>,
) -> Result<(), Memory> {
    for row in rows {
        if passes(&q.filters, row.as_slice()) {
            copies.push(row.duplicate(alloc)?)?;
        }
    }
    Ok(())
}

/// The rows of an extract that a query keeps.
fn kept_rows(alloc: Global, extract: &Extract, q: &Query) -> Result<List<Values>, Memory> {
    let segments = extract.segments();
    let mut rows = List::new(alloc);
    for place in 0..segments.len() {
        if let Some(segment) = segments.get(place) {
            copy_kept(alloc, q, segment.rows(), &mut rows)?;
        }
    }
    Ok(rows)
}

/// A dimension's value in a row.
fn value_in(alloc: Global, row: &Values, dim: &Dim) -> Result<Value, Memory> {
    match row.get(u64::from(dim.column())) {
        Some(Value::Int(n)) => Ok(Value::Int(dim.band(*n))),
        Some(v) => v.duplicate(alloc),
        None => Ok(Value::Null),
    }
}

/// A row's values in the dimensions.
fn key_from(alloc: Global, dims: &[Dim], row: &Values) -> Result<Values, Memory> {
    let mut key = List::new(alloc);
    for dim in dims {
        key.push(value_in(alloc, row, dim)?)?;
    }
    Ok(key)
}

/// The groups' keys, ascending: without dimensions the empty one, also over no rows.
fn keys_over(alloc: Global, dims: &[Dim], rows: &[Values]) -> Result<List<Values>, Memory> {
    let mut keys = List::new(alloc);
    if dims.is_empty() {
        keys.push(List::new(alloc))?;
    }
    for row in rows {
        put(&mut keys, key_from(alloc, dims, row)?)?;
    }
    Ok(keys)
}

/// The rows that have a key.
fn rows_under(
    alloc: Global,
    dims: &[Dim],
    key: &Values,
    rows: &[Values],
) -> Result<List<Values>, Memory> {
    let mut group = List::new(alloc);
    for row in rows {
        let other = key_from(alloc, dims, row)?;
        if compare_keys(key, &other).is_eq() {
            group.push(row.duplicate(alloc)?)?;
        }
    }
    Ok(group)
}

/// The values of a column that aren't null.
fn present_values(alloc: Global, column: u32, rows: &[Values]) -> Result<Values, Memory> {
    let mut values = List::new(alloc);
    for row in rows {
        match row.get(u64::from(column)) {
            None | Some(Value::Null) => {}
            Some(v) => values.push(v.duplicate(alloc)?)?,
        }
    }
    Ok(values)
}

/// The different values, ascending.
fn different(alloc: Global, values: Values) -> Result<Values, Memory> {
    let mut set = List::new(alloc);
    for v in values.as_slice() {
        put(&mut set, v.duplicate(alloc)?)?;
    }
    Ok(set)
}

/// The sum of a few small numbers, null over nothing.
fn sum_from(values: &Values) -> Cell {
    let mut sum: i128 = 0;
    for v in values.as_slice() {
        if let Value::Int(n) = v {
            sum = sum.wrapping_add(i128::from(*n));
        }
    }
    if values.len() == 0 {
        Cell::Null
    } else {
        Cell::Whole(sum)
    }
}

/// The sum over the count, null over nothing.
fn average_from(values: &Values) -> Cell {
    match sum_from(values) {
        Cell::Whole(sum) => match Ratio::new(sum, values.len()) {
            Some(ratio) => Cell::Ratio(ratio),
            None => Cell::Null,
        },
        _ => Cell::Null,
    }
}

fn count_from(count: u64) -> Cell {
    Cell::Whole(i128::from(count))
}

/// The cell of a value, null for none.
fn cell_from(alloc: Global, v: Option<&Value>) -> Result<Cell, Memory> {
    match v {
        None | Some(Value::Null) => Ok(Cell::Null),
        Some(Value::Int(n)) => Ok(Cell::Whole(i128::from(*n))),
        Some(Value::Word(text)) => Ok(Cell::Word(Text::copy_of(alloc, text.bytes())?)),
    }
}

/// A measure over rows. The least value is the first of the different ones, and the greatest the last.
fn measure_over(alloc: Global, m: Measure, rows: &[Values]) -> Result<Cell, Memory> {
    match m {
        Measure::Rows => Ok(count_from(rows.len() as u64)),
        Measure::Count(c) => Ok(count_from(present_values(alloc, c, rows)?.len())),
        Measure::Sum(c) => Ok(sum_from(&present_values(alloc, c, rows)?)),
        Measure::Min(c) => {
            let set = different(alloc, present_values(alloc, c, rows)?)?;
            cell_from(alloc, set.as_slice().first())
        }
        Measure::Max(c) => {
            let set = different(alloc, present_values(alloc, c, rows)?)?;
            cell_from(alloc, set.as_slice().last())
        }
        Measure::Distinct(c) => {
            let set = different(alloc, present_values(alloc, c, rows)?)?;
            Ok(count_from(set.len()))
        }
        Measure::Avg(c) => Ok(average_from(&present_values(alloc, c, rows)?)),
    }
}

/// The cells of a key.
fn key_cells(alloc: Global, key: &Values) -> Result<Cells, Memory> {
    let mut cells = List::new(alloc);
    for v in key.as_slice() {
        cells.push(cell_from(alloc, Some(v))?)?;
    }
    Ok(cells)
}

/// The answer's row of a key, over the rows that the query keeps.
fn group_row(alloc: Global, q: &Query, rows: &[Values], key: &Values) -> Result<Cells, Memory> {
    let group = rows_under(alloc, q.dims.as_slice(), key, rows)?;
    let mut cells = key_cells(alloc, key)?;
    for m in q.measures.as_slice() {
        cells.push(measure_over(alloc, *m, group.as_slice())?)?;
    }
    Ok(cells)
}

/// How two rows compare by the order keys in turn.
fn compare_by(order: &[OrderKey], a: &Cells, b: &Cells) -> Ordering {
    for key in order {
        let at = u64::from(key.place.saturating_sub(1));
        let turn = match (a.get(at), b.get(at)) {
            (Some(x), Some(y)) => compare_cells(x, y),
            _ => Ordering::Equal,
        };
        if turn.is_ne() {
            return if key.down { turn.reverse() } else { turn };
        }
    }
    Ordering::Equal
}

/// The answer of a valid query over an extract's rows, straight from the definition: each group goes through all the rows, and
/// each measure through all of its group's. Rows that tie stay in the order of their keys.
pub fn evaluate_plainly(alloc: Global, extract: &Extract, key: &Canon) -> Result<Table, Memory> {
    let q = key.query();
    let rows = kept_rows(alloc, extract, q)?;
    let keys = keys_over(alloc, q.dims.as_slice(), rows.as_slice())?;
    let mut table = Vec::new(alloc);
    for group in keys.as_slice() {
        table.push(group_row(alloc, q, rows.as_slice(), group)?)?;
    }
    table.sort_by(|a, b| compare_by(q.order.as_slice(), a, b))?;
    let mut table = List::from_vec(table);
    if let Some(count) = q.top {
        table.truncate(u64::from(count));
    }
    Ok(table)
}
