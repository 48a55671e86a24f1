use crate::dim::Dims;
use crate::list::List;
use crate::predicate::Predicates;

/// What is computed over the rows of a group. Columns are numbered from 0.
#[derive(Clone, Copy, Debug, PartialEq, Eq)]
pub enum Measure {
    Rows,
    Count(u32),
    Sum(u32),
    Min(u32),
    Max(u32),
    Distinct(u32),
    Avg(u32),
}

/// Measures in the order in which they are shown.
pub type Measures = List<Measure>;

/// Order by a column of the answer, which is numbered from 1.
#[derive(Clone, Copy, Debug, PartialEq, Eq)]
pub struct OrderKey {
    pub place: u32,
    pub down: bool,
}

/// Order keys, the first of which counts most.
pub type OrderKeys = List<OrderKey>;

/// What a zone asks: an aggregate query of one extract.
///
/// Sources and columns are numbered from 0. The answer's columns are the dimensions and then the measures.
#[derive(Debug, Drop)]
pub struct Query {
    pub source: u32,
    pub filters: Predicates,
    pub dims: Dims,
    pub measures: Measures,
    pub order: OrderKeys,
    pub top: Option<u32>,
}

/// The queries of a batch, in the order of its zones.
pub type Queries = List<Query>;
