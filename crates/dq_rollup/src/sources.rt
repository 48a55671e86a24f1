ghost use Rattle.std.specs.List.{list_all, list_any};
ghost use Rattle.std.specs.Prelude.{◌≡◌, ◌&&◌, ◌||◌, ◌⊎◌, IfOk, MatchOption, Some, false, slice_get, true};
ghost use Rattle.dq_base.specs.Covering as cover;
ghost use Rattle.dq_base.specs.Covering.{Different, Filled, Total, measure_eq, needs};
ghost use Rattle.dq_base.specs.declared.query.Measure.TheVariants.{Rows};
ghost use Rattle.dq_base.specs.declared.query.Query.{Query as QueryOf};
ghost use Rattle.dq_rollup.specs.Pairs.{Paired};
ghost use Rattle.dq_rollup.specs.Sources.{IsCounts, IsDistinct, IsKey, IsKeyed, IsRows, IsShown, IsSource, IsSums};

use crate::checks::plain_place;
use crate::source::{Part, Source};
use dq_base::{List, Measure, Memory, Query};
use std::alloc::Global;

fn same_measure(a: Measure, b: Measure) -> bool
    ensures { result ≡ measure_eq a b }
{
    match (a, b) {
        (Measure::Rows, Measure::Rows) => true,
        (Measure::Count(x), Measure::Count(y)) => x == y,
        (Measure::Sum(x), Measure::Sum(y)) => x == y,
        (Measure::Min(x), Measure::Min(y)) => x == y,
        (Measure::Max(x), Measure::Max(y)) => x == y,
        (Measure::Distinct(x), Measure::Distinct(y)) => x == y,
        (Measure::Avg(x), Measure::Avg(y)) => x == y,
        _ => false,
    }
}

/// The place of a measure's like, from 0.
fn measure_place(measures: &[Measure], m: Measure) -> Option<u64>
    ensures { MatchOption result (list_any (measure_eq m) measures.now ≡ false) (λ place. slice_get measures.now place ≡ Some m) }
{
    for (place, n) in measures.iter().enumerate() {
        if same_measure(m, *n) {
            return Some(place as u64);
        }
    }
    None
}

/// The place of the column of an answer that shows a measure, from 0.
fn shown_at(p: &Query, m: Measure) -> Result<Option<u64>, Memory>
    ensures { IfOk result (λ found. MatchOption found (cover.shows p.now m ≡ false) (λ place. IsShown p.now m place)) }
{
    match measure_place(p.measures.as_slice(), m) {
        Some(place) => match p.dims.len().checked_add(place) {
            Some(place) => Ok(Some(place)),
            None => Err(Memory),
        },
        None => Ok(None),
    }
}

/// The key's cell of a column and that of the rows. Only where the answer has both is it told.
fn keyed_by(p: &Query, c: u32) -> Result<Part, Memory>
    ensures { IfOk result (λ part. (cover.groups_by p.now c && cover.shows p.now Rows) ≡ true → IsKeyed p.now c part) }
{
    match (
        plain_place(p.dims.as_slice(), c),
        shown_at(p, Measure::Rows)?,
    ) {
        (Some(key), Some(rows)) => Ok(Part::Keyed(key, rows)),
        _ => Ok(Part::Shown(0)),
    }
}

/// From which cells of p's rows the values of a column are counted.
fn counts_of(p: &Query, c: u32) -> Result<Part, Memory>
    ensures { IfOk result (λ part. (q : QueryOf) → cover.gives p.now q (Filled c) ≡ true → IsCounts p.now c part) }
{
    if let Some(place) = shown_at(p, Measure::Count(c))? {
        return Ok(Part::Shown(place));
    }
    if let Some(place) = shown_at(p, Measure::Avg(c))? {
        return Ok(Part::Shown(place));
    }
    keyed_by(p, c)
}

/// From which cells of p's rows the values of a column are added up.
fn sums_of(p: &Query, c: u32) -> Result<Part, Memory>
    ensures { IfOk result (λ part. (q : QueryOf) → cover.gives p.now q (Total c) ≡ true → IsSums p.now c part) }
{
    if let Some(place) = shown_at(p, Measure::Sum(c))? {
        return Ok(Part::Shown(place));
    }
    if let Some(place) = shown_at(p, Measure::Avg(c))? {
        return Ok(Part::Shown(place));
    }
    keyed_by(p, c)
}

/// The place of the cell that shows a measure of a column, or else of the column's own.
fn bound_at(p: &Query, m: Measure, c: u32) -> Result<u64, Memory>
    ensures { IfOk result (λ place. (cover.shows p.now m || cover.groups_by p.now c) ≡ true → IsShown p.now m place ⊎ IsKey p.now c place) }
{
    if let Some(place) = shown_at(p, m)? {
        return Ok(place);
    }
    match plain_place(p.dims.as_slice(), c) {
        Some(place) => Ok(place),
        None => Ok(0),
    }
}

/// The column's own cell, or else the one that has the number of its different values.
fn different_of(p: &Query, c: u32) -> Result<Source, Memory>
    ensures { IfOk result (λ source. (q : QueryOf) → cover.gives p.now q (Different c) ≡ true → IsDistinct p.now q c source) }
{
    if let Some(place) = plain_place(p.dims.as_slice(), c) {
        return Ok(Source::Different(place));
    }
    match shown_at(p, Measure::Distinct(c))? {
        Some(place) => Ok(Source::Count(Part::Shown(place))),
        None => Ok(Source::Different(0)),
    }
}

/// The cell that has the number of rows.
fn rows_of(p: &Query) -> Result<Source, Memory>
    ensures { IfOk result (λ source. cover.shows p.now Rows ≡ true → IsRows p.now source) }
{
    match shown_at(p, Measure::Rows)? {
        Some(place) => Ok(Source::Count(Part::Shown(place))),
        None => Ok(Source::Different(0)),
    }
}

/// From which cells of p's rows a measure is derived.
fn source_of(p: &Query, m: Measure) -> Result<Source, Memory>
    ensures { IfOk result (λ source. (q : QueryOf) → list_all (cover.gives p.now q) (needs m) ≡ true → IsSource p.now q m source) }
{
    match m {
        Measure::Rows => rows_of(p),
        Measure::Count(c) => Ok(Source::Count(counts_of(p, c)?)),
        Measure::Sum(c) => Ok(Source::Sum(sums_of(p, c)?)),
        Measure::Min(c) => Ok(Source::Least(bound_at(p, Measure::Min(c), c)?)),
        Measure::Max(c) => Ok(Source::Greatest(bound_at(p, Measure::Max(c), c)?)),
        Measure::Distinct(c) => different_of(p, c),
        Measure::Avg(c) => Ok(Source::Average(sums_of(p, c)?, counts_of(p, c)?)),
    }
}

/// The sources of q's measures, in order. The cost is the product of the numbers of p's measures and q's.
pub fn sources_of(alloc: Global, p: &Query, q: &Query) -> Result<List<Source>, Memory>
    requires { list_all (λ m. list_all (cover.gives p.now q.now) (needs m)) q.now.measures ≡ true }
    ensures { IfOk result (λ sources. Paired (IsSource p.now q.now) q.now.measures sources) }
{
    let mut sources = List::with_capacity(alloc, q.measures.len())?;
    for m in q.measures.as_slice() {
        sources.push(source_of(p, *m)?)?;
    }
    Ok(sources)
}
