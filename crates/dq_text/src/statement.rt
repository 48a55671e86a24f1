use dq_base::{Dims, List, Measures, OrderKeys, Values};

/// A list in a test: its values, or the number of the table that holds them.
#[derive(Debug, Drop)]
pub enum Listed {
    Spelled(Values),
    Named(u64),
}

/// What a statement's predicate asks of a value, as `Test` with lists that may stand in tables.
#[derive(Debug, Drop)]
pub enum SaidTest {
    Among(Listed),
    Except(Listed),
    Between(Option<i64>, Option<i64>),
}

/// A test of a row's value in a column, which is numbered from 0.
#[derive(Debug, Drop)]
pub struct SaidPredicate {
    pub column: u32,
    pub test: SaidTest,
}

/// Predicates, all of which a row has to meet.
pub type SaidPredicates = List<SaidPredicate>;

/// What is sent to a link: a query of the version of a source that has that stamp.
#[derive(Debug, Drop)]
pub struct Statement {
    pub source: u32,
    pub stamp: u64,
    pub filters: SaidPredicates,
    pub dims: Dims,
    pub measures: Measures,
    pub order: OrderKeys,
    pub top: Option<u32>,
}
