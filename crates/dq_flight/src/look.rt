use dq_base::{Canon, Table};
use std::sync::Arc;

/// What a joiner is told of a flight.
#[derive(Drop)]
pub enum Look {
    /// It is under way: the joiner waits.
    Running,
    /// It landed, with a share of its key and table. A missing share is want of memory.
    Landed(Option<(Arc<Canon>, Arc<Table>)>),
    /// It fell.
    Fallen,
}
