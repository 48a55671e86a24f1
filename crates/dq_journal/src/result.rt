use dq_base::{Invalid, List, Table};
use std::sync::Arc;

/// What became of a zone.
#[derive(Drop)]
pub enum ZoneResult {
    /// Its answer.
    Rows(Arc<Table>),
    /// Its query isn't valid.
    Invalid(Invalid),
    /// The back end failed twice.
    BackEnd,
    /// Memory was wanting.
    Memory,
}

/// The results of a batch's zones, in zone order.
pub type ZoneResults = List<ZoneResult>;

/// What became of a step, with the place of its entry in the journal, from 1.
#[derive(Drop)]
pub enum StepResult {
    /// A refresh was published.
    Published(u64),
    /// A refresh was refused for memory.
    Unpublished,
    /// A batch was admitted.
    Admitted(u64, ZoneResults),
    /// A batch was refused for memory: its valid zones are `Memory`, the others `Invalid`.
    Unadmitted(ZoneResults),
}

/// The results of a lane's steps, in order.
pub type LaneResults = List<StepResult>;

/// The results of the lanes, in order.
pub type LaneResultsList = List<LaneResults>;
