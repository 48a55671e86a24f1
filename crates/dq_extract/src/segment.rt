ghost use Rattle.std.specs.Prelude.{◌≡◌, ◌<◌, Some, IfOk, length, slice_get};
ghost use Rattle.dq_base.specs.Versions.{IsVersion};
ghost use Rattle.dq_extract.specs.Segments.{IsSegment};

use dq_base::{Duplicate, List, Memory, Schema, Values};
use std::alloc::Global;
use std::marker::Model;

/// The rows of one file under its schema, which never change. Contracts see the heading and the rows.
#[derive(Debug, Drop)]
pub struct Segment {
    schema: Schema,
    rows: List<Values>,
}

impl Model for Segment {
    ghost use Rattle.dq_base.specs.Versions.{Version};

    ghost Value = { Version };

    ghost use Rattle.dq_extract.specs.Segments.{IsSegment};

    ghost view = { λ s. record { heading = s.schema; rows = s.rows } };

    ghost invariant = { λ s. IsSegment (record { heading = s.schema; rows = s.rows }) };
}

impl Segment {
    /// A segment of these rows, which fit the schema.
    pub(crate) fn new(schema: Schema, rows: List<Values>) -> Segment
        requires { IsSegment (record { heading = schema; rows = rows }) }
        ensures { result ≡ record { heading = schema; rows = rows } }
    {
        Segment { schema, rows }
    }

    /// What the columns are called and hold.
    pub fn schema(&self) -> &Schema
        ensures { result.now ≡ self.now.heading }
    {
        &self.schema
    }

    /// The rows, in the file's order.
    pub fn rows(&self) -> &[Values]
        ensures { result.now ≡ self.now.rows }
    {
        self.rows.as_slice()
    }

    /// How many rows there are.
    pub fn count(&self) -> u64
        ensures count { result ≡ length self.now.rows }
        ensures version { IsVersion self.now }
        ensures columns { 0 < length self.now.heading.names }
    {
        self.rows.len()
    }

    /// A copy of the row at a place. Places count from 0.
    pub fn row(&self, alloc: Global, place: u64) -> Result<Values, Memory>
        requires { place < length self.now.rows }
        ensures { IfOk result (λ row. slice_get self.now.rows place ≡ Some row) }
    {
        let Some(row) = self.rows.get(place) else {
            unreachable!();
        };
        row.duplicate(alloc)
    }
}
