ghost use Rattle.std.specs.Arc.{arc_value};
ghost use Rattle.std.specs.Prelude.{◌≡◌, ◌+◌, ◌≤◌, [], ◌++◌, IfOk};
ghost use Rattle.dq_base.specs.Limits.{cell_room};
ghost use Rattle.dq_base.specs.Versions.{IsVersion, cells_of};
ghost use Rattle.dq_extract.specs.Segments.{AreUnder, rows_in};

use crate::segment::Segment;
use crate::segments::SegmentList;
use dq_base::{Duplicate, Memory, Schema};
use std::alloc::Global;
use std::marker::Model;
use std::sync::Arc;

/// A version of an extract: its schema, and the rows of its segments one behind the other. Contracts see the heading and
/// the rows.
#[derive(Drop)]
pub struct Extract {
    schema: Schema,
    segments: SegmentList,
}

impl Model for Extract {
    ghost use Rattle.dq_base.specs.Versions.{Version};

    ghost Value = { Version };

    ghost use Rattle.dq_extract.specs.Segments.{IsExtract, rows_in};

    ghost view = { λ e. record { heading = e.schema; rows = rows_in e.segments } };

    ghost invariant = { λ e. IsExtract e.schema e.segments };
}

impl Extract {
    /// The extract without rows. It takes no memory.
    pub fn empty(alloc: Global, schema: Schema) -> Extract
        ensures { result ≡ record { heading = schema; rows = [] } }
    {
        // Reading the names brings to the proof that there are as many sorts.
        let _names = schema.names();
        Extract {
            schema,
            segments: SegmentList::new(alloc),
        }
    }

    /// What the columns are called and hold.
    pub fn schema(&self) -> &Schema
        ensures schema { result.now ≡ self.now.heading }
        ensures version { IsVersion self.now }
    {
        &self.schema
    }

    /// The segments, in the order in which they were put in.
    pub fn segments(&self) -> &SegmentList
        ensures rows { rows_in result.now ≡ self.now.rows }
        ensures under { AreUnder self.now.heading result.now }
    {
        &self.segments
    }

    /// The version with this segment's rows alone. They are shared, not copied. How rows are split into segments means nothing:
    /// a version is its heading and its rows.
    pub fn replaced(&self, alloc: Global, segment: &Arc<Segment>) -> Result<Extract, Memory>
        requires { (arc_value segment.now).heading ≡ self.now.heading }
        ensures heading { IfOk result (λ extract. extract.heading ≡ self.now.heading) }
        ensures rows { IfOk result (λ extract. extract.rows ≡ (arc_value segment.now).rows) }
    {
        // Counting brings to the proof what a segment is.
        let _count = segment.count();
        let schema = self.schema.duplicate(alloc)?;
        let mut segments = SegmentList::new(alloc);
        segments.push(Arc::try_clone(segment)?)?;
        Ok(Extract { schema, segments })
    }

    /// The version with this segment's rows behind the standing ones. Rows are shared, not copied: behind `n` segments it
    /// costs `n / 512` and 512 owners.
    pub fn appended(&self, alloc: Global, segment: &Arc<Segment>) -> Result<Extract, Memory>
        requires heading { (arc_value segment.now).heading ≡ self.now.heading }
        requires cells { cells_of self.now + cells_of (arc_value segment.now) ≤ cell_room }
        ensures heading { IfOk result (λ extract. extract.heading ≡ self.now.heading) }
        ensures rows { IfOk result (λ extract. extract.rows ≡ self.now.rows ++ (arc_value segment.now).rows) }
    {
        // Counting brings to the proof what a segment is.
        let _count = segment.count();
        let schema = self.schema.duplicate(alloc)?;
        let mut segments = self.segments.duplicate(alloc)?;
        segments.push(Arc::try_clone(segment)?)?;
        Ok(Extract { schema, segments })
    }
}
