use dq_base::{Canon, List, Table};
use std::sync::Arc;

/// How far the answer of a remote query is.
#[derive(Drop)]
pub enum Fetch {
    /// It waits for this flight, which another lane, or an earlier batch, brings.
    Waiting(u64),
    /// This flight of its lane brings it.
    Flying(u64),
    /// The answer of a query that covers it, and that query.
    Brought(Arc<Canon>, Arc<Table>),
    /// The back end failed twice.
    BackEnd,
    /// Memory was wanting.
    Memory,
}

/// One for each remote query of a batch, in zone order.
pub type Fetches = List<Fetch>;
