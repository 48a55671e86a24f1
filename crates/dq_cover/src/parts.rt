ghost use Rattle.std.specs.List.{list_any};
ghost use Rattle.std.specs.Prelude.{◌≡◌, ◌&&◌, nat_eq, slice_set, true};
ghost use Rattle.dq_base.specs.Covering as cover;
ghost use Rattle.dq_base.specs.Covering.{measure_eq};
ghost use Rattle.dq_base.specs.Dims.{is_plain};
ghost use Rattle.dq_cover.specs.Parts.{AreColumns, AreMarks, AreParts, place_of};

use crate::sameness::same_measure;
use dq_base::{Dim, Measure, Query};

/// How many columns have their parts in the table: as many as an extract may have.
const COLUMNS: usize = 64;

/// A place for the rows, and six for each column.
const PLACES: usize = 385;

/// Which measures on the first columns a query shows, each at its place, and which of these columns have a plain dimension.
#[derive(Drop)]
pub struct Parts {
    shown: [bool; PLACES],
    grouped: [bool; COLUMNS],
}

/// The place of a measure's mark.
fn place(m: Measure) -> u64
    ensures { result ≡ place_of m }
{
    match m {
        Measure::Rows => 0,
        Measure::Count(c) => 6 * u64::from(c) + 1,
        Measure::Sum(c) => 6 * u64::from(c) + 2,
        Measure::Min(c) => 6 * u64::from(c) + 3,
        Measure::Max(c) => 6 * u64::from(c) + 4,
        Measure::Distinct(c) => 6 * u64::from(c) + 5,
        Measure::Avg(c) => 6 * u64::from(c) + 6,
    }
}

fn set_mark(marks: &mut [bool], place: u64)
    ensures { marks.new ≡ slice_set marks.old place true }
{
    let place = place as usize;
    if place < marks.len() {
        marks[place] = true;
    }
}

fn shown_by(measures: &[Measure]) -> [bool; PLACES]
    ensures { AreMarks result measures.now }
{
    let mut marks = [false; PLACES];
    for m in measures {
        set_mark(&mut marks, place(*m));
    }
    marks
}

fn grouped_by(q: &Query) -> [bool; COLUMNS]
    ensures { AreColumns result q.now }
{
    let mut marks = [false; COLUMNS];
    for d in q.dims.as_slice() {
        if d.width() == 1 {
            set_mark(&mut marks, u64::from(d.column()));
        }
    }
    marks
}

/// The parts of a query, in one walk over its measures and one over its dimensions.
pub fn parts_of(q: &Query) -> Parts
    ensures { AreParts result q.now }
{
    Parts {
        shown: shown_by(q.measures.as_slice()),
        grouped: grouped_by(q),
    }
}

fn is_shown(measures: &[Measure], m: Measure) -> bool
    ensures { result ≡ list_any (measure_eq m) measures.now }
{
    measures.iter().any(|n| same_measure(m, *n))
}

fn has_plain(dims: &[Dim], c: u32) -> bool
    ensures { result ≡ list_any (λ d. nat_eq c d.column && is_plain d) dims.now }
{
    dims.iter().any(|d| c == d.column() && d.width() == 1)
}

impl Parts {
    /// Whether the query shows a measure. Only one on a later column than the table has is searched for.
    pub fn shows(&self, q: &Query, m: Measure) -> bool
        requires { AreParts self.now q.now }
        ensures { result ≡ cover.shows q.now m }
    {
        match self.shown.get(place(m) as usize) {
            Some(mark) => *mark,
            None => is_shown(q.measures.as_slice(), m),
        }
    }

    /// Whether a plain dimension of the query is on a column. Only a later column than the table has is searched for.
    pub fn groups_by(&self, q: &Query, c: u32) -> bool
        requires { AreParts self.now q.now }
        ensures { result ≡ cover.groups_by q.now c }
    {
        match self.grouped.get(c as usize) {
            Some(mark) => *mark,
            None => has_plain(q.dims.as_slice(), c),
        }
    }
}
