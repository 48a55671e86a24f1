ghost use Rattle.std.specs.Prelude.{◌≡◌, ◌≤◌, ◌++◌, ◌∷◌, [], ℕ, List as ListOf, IfOk, Some, slice_get};
ghost use Rattle.dq_base.specs.Headings.{Heading};
ghost use Rattle.dq_base.specs.Limits.{all_room, cell_room};
ghost use Rattle.dq_base.specs.Versions.{cells_of};
ghost use Rattle.dq_top.specs.Progress.{IsProgress, IsWithin, with_version};

use dq_base::{ALL_BYTES, MOST_CELLS, Memory};
use dq_extract::{Segment, SegmentList};
use std::alloc::Global;
use std::sync::Arc;

/// The segments that are loaded so far, and how many bytes and cells are left for those to come.
#[derive(Drop)]
pub struct Progress {
    pub left: u64,
    pub cells: u64,
    pub segments: SegmentList,
}

/// Nothing is loaded yet.
pub fn begun(alloc: Global) -> Progress
    ensures begun { result ≡ record { left = all_room; cells = cell_room; segments = [] } }
    ensures progress { (schemas : ListOf Heading) → IsProgress schemas [] result }
    ensures within { IsWithin result }
{
    Progress {
        left: ALL_BYTES,
        cells: MOST_CELLS,
        segments: SegmentList::new(alloc),
    }
}

/// One more segment, of a file of so many bytes.
pub fn with_segment(
    alloc: Global,
    progress: Progress,
    bytes: u64,
    segment: Segment,
) -> Result<Progress, Memory>
    requires bytes { bytes ≤ progress.left }
    requires cells { cells_of segment ≤ progress.cells }
    requires within { IsWithin progress }
    ensures next { IfOk result (λ next. next ≡ with_version progress bytes segment) }
    ensures within { IfOk result IsWithin }
    ensures progress { (schemas : ListOf Heading) (sources : ListOf ℕ) (source : ℕ)
        → slice_get schemas source ≡ Some segment.heading → IsProgress schemas sources progress
        → IfOk result (IsProgress schemas (sources ++ source ∷ [])) }
{
    let Progress {
        left,
        cells: room,
        mut segments,
    } = progress;
    let cells = segment.count() * segment.schema().names().len();
    segments.push(Arc::new(alloc, segment)?)?;
    Ok(Progress {
        left: left - bytes,
        cells: room - cells,
        segments,
    })
}
