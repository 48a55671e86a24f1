ghost use Rattle.std.specs.List.{flat_map};
ghost use Rattle.std.specs.Prelude.{◌≡◌, ◌++◌, OnOk, codes};
ghost use Rattle.dq_text.specs.Statements as form;

use crate::printing_filters::put_column;
use dq_base::{Dim, Measure, Memory, OrderKey, Text, put_labelled, put_number};

fn put_width(text: &mut Text, width: u32) -> Result<(), Memory>
    ensures { OnOk result (text.new ≡ text.old ++ form.width_text width) }
{
    if width <= 1 {
        return Ok(());
    }
    put_labelled(text, b"/", u64::from(width))
}

fn put_dim(text: &mut Text, dim: &Dim) -> Result<(), Memory>
    ensures { OnOk result (text.new ≡ text.old ++ form.dim_text dim.now) }
{
    put_column(text, dim.column())?;
    put_width(text, dim.width())
}

fn put_further_dim(text: &mut Text, dim: &Dim) -> Result<(), Memory>
    ensures { OnOk result (text.new ≡ text.old ++ form.after_comma form.dim_text dim.now) }
{
    text.push(b',')?;
    put_dim(text, dim)
}

fn put_further_dims(text: &mut Text, dims: &[Dim]) -> Result<(), Memory>
    ensures { OnOk result (text.new ≡ text.old ++ flat_map (form.after_comma form.dim_text) dims.now) }
{
    for dim in dims {
        put_further_dim(text, dim)?;
    }
    Ok(())
}

/// Puts the dimensions behind the text.
pub(crate) fn put_dims(text: &mut Text, dims: &[Dim]) -> Result<(), Memory>
    ensures { OnOk result (text.new ≡ text.old ++ form.clause (codes " by ") form.dim_text dims.now) }
{
    match dims.split_first() {
        None => Ok(()),
        Some((first, others)) => {
            text.append(b" by ")?;
            put_dim(text, first)?;
            put_further_dims(text, others)
        }
    }
}

fn put_measure_of(text: &mut Text, word: &[u8], column: u32) -> Result<(), Memory>
    ensures { OnOk result (text.new ≡ text.old ++ (word.now ++ form.column_text column)) }
{
    text.append(word)?;
    put_column(text, column)
}

fn put_measure(text: &mut Text, measure: Measure) -> Result<(), Memory>
    ensures { OnOk result (text.new ≡ text.old ++ form.measure_text measure) }
{
    match measure {
        Measure::Rows => text.append(b"rows"),
        Measure::Count(column) => put_measure_of(text, b"count ", column),
        Measure::Sum(column) => put_measure_of(text, b"sum ", column),
        Measure::Min(column) => put_measure_of(text, b"min ", column),
        Measure::Max(column) => put_measure_of(text, b"max ", column),
        Measure::Distinct(column) => put_measure_of(text, b"countd ", column),
        Measure::Avg(column) => put_measure_of(text, b"avg ", column),
    }
}

fn put_further_measure(text: &mut Text, measure: Measure) -> Result<(), Memory>
    ensures { OnOk result (text.new ≡ text.old ++ form.after_comma form.measure_text measure) }
{
    text.push(b',')?;
    put_measure(text, measure)
}

fn put_further_measures(text: &mut Text, measures: &[Measure]) -> Result<(), Memory>
    ensures { OnOk result (text.new ≡ text.old ++ flat_map (form.after_comma form.measure_text) measures.now) }
{
    for measure in measures {
        put_further_measure(text, *measure)?;
    }
    Ok(())
}

/// Puts the measures behind the text.
pub(crate) fn put_measures(text: &mut Text, measures: &[Measure]) -> Result<(), Memory>
    ensures { OnOk result (text.new ≡ text.old ++ form.clause (codes " show ") form.measure_text measures.now) }
{
    match measures.split_first() {
        None => Ok(()),
        Some((first, others)) => {
            text.append(b" show ")?;
            put_measure(text, *first)?;
            put_further_measures(text, others)
        }
    }
}

fn put_way(text: &mut Text, down: bool) -> Result<(), Memory>
    ensures { OnOk result (text.new ≡ text.old ++ form.way_text down) }
{
    if down {
        text.push(b'-')
    } else {
        text.push(b'+')
    }
}

fn put_key(text: &mut Text, key: OrderKey) -> Result<(), Memory>
    ensures { OnOk result (text.new ≡ text.old ++ form.key_text key) }
{
    put_number(text, u64::from(key.place))?;
    put_way(text, key.down)
}

fn put_further_key(text: &mut Text, key: OrderKey) -> Result<(), Memory>
    ensures { OnOk result (text.new ≡ text.old ++ form.after_comma form.key_text key) }
{
    text.push(b',')?;
    put_key(text, key)
}

fn put_further_keys(text: &mut Text, keys: &[OrderKey]) -> Result<(), Memory>
    ensures { OnOk result (text.new ≡ text.old ++ flat_map (form.after_comma form.key_text) keys.now) }
{
    for key in keys {
        put_further_key(text, *key)?;
    }
    Ok(())
}

/// Puts the order keys behind the text.
pub(crate) fn put_order(text: &mut Text, keys: &[OrderKey]) -> Result<(), Memory>
    ensures { OnOk result (text.new ≡ text.old ++ form.clause (codes " order ") form.key_text keys.now) }
{
    match keys.split_first() {
        None => Ok(()),
        Some((first, others)) => {
            text.append(b" order ")?;
            put_key(text, *first)?;
            put_further_keys(text, others)
        }
    }
}

/// Puts the number of rows that are kept behind the text.
pub(crate) fn put_top(text: &mut Text, top: Option<u32>) -> Result<(), Memory>
    ensures { OnOk result (text.new ≡ text.old ++ form.top_text top) }
{
    match top {
        None => Ok(()),
        Some(rows) => put_labelled(text, b" top ", u64::from(rows)),
    }
}
