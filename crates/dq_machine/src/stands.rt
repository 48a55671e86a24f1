ghost use Rattle.std.specs.Arc.{arc_value};
ghost use Rattle.std.specs.Prelude.{◌≡◌, ◌+◌, ◌≤◌, IfOk, map};
ghost use Rattle.dq_base.specs.Limits.{cell_room};
ghost use Rattle.dq_base.specs.Scripts.{step_of};
ghost use Rattle.dq_base.specs.Versions.{cells_of};
ghost use Rattle.dq_extract.specs.Loads.{segment_of};
ghost use Rattle.dq_journal.specs.Standing.{published};
ghost use Rattle.dq_machine.specs.Refreshing.{CanRefresh, IsRefresh, no_stand};

use crate::steps::step_at;
use dq_base::{Duplicate, How, Memory, Schemas, Step};
use dq_extract::{Extract, Loaded, Segment};
use std::alloc::Global;
use std::marker::Model;
use std::sync::Arc;

/// What stands of an extract. Contracts see the version.
#[derive(Drop)]
pub struct Stand {
    extract: Arc<Extract>,
}

impl Model for Stand {
    ghost use Rattle.std.specs.Arc.{arc_value};
    ghost use Rattle.dq_base.specs.Versions.{Version};

    ghost Value = { Version };

    ghost view = { λ s. arc_value s.extract };
}

impl Stand {
    /// That version.
    pub fn new(extract: Arc<Extract>) -> Stand
        ensures { result ≡ arc_value extract }
    {
        Stand { extract }
    }

    /// The version.
    pub fn extract(&self) -> &Arc<Extract>
        ensures { arc_value result.now ≡ self.now }
    {
        &self.extract
    }
}

/// An extract, by its number, as a publication leaves it.
#[derive(Drop)]
pub struct Refresh {
    pub source: u32,
    pub extract: Arc<Extract>,
}

// The segment's rows in place of the standing ones, or behind them.
fn refreshed(
    alloc: Global,
    standing: &Extract,
    how: How,
    segment: &Arc<Segment>,
) -> Result<Extract, Memory>
    requires heading { (arc_value segment.now).heading ≡ standing.now.heading }
    requires cells { cells_of standing.now + cells_of (arc_value segment.now) ≤ cell_room }
    ensures heading { IfOk result (λ extract. extract.heading ≡ standing.now.heading) }
    ensures rows { IfOk result (λ extract. extract.rows ≡ published how standing.now.rows (arc_value segment.now).rows) }
{
    match how {
        How::Replace => standing.replaced(alloc, segment),
        How::Append => standing.appended(alloc, segment),
    }
}

/// What stands of each extract before anything was published, by the extracts' numbers. The cost is linear in their columns.
pub fn no_stands(alloc: Global, schemas: &Schemas) -> Result<Vec<Stand>, Memory>
    ensures { IfOk result (λ stands. stands.items ≡ map no_stand schemas.now) }
{
    let mut stands = Vec::new(alloc);
    for schema in schemas.as_slice() {
        let extract = Extract::empty(alloc, schema.duplicate(alloc)?);
        stands.push(Stand::new(Arc::new(alloc, extract)?))?;
    }
    Ok(stands)
}

/// The extract as a publish step leaves it, and its number. Rows are shared, not copied: the cost is linear in the number of
/// segments that stand of the source.
pub fn refresh_by_step(
    alloc: Global,
    loaded: &Loaded,
    stands: &[Stand],
    lane: u32,
    step: u32,
) -> Result<Refresh, Memory>
    requires { CanRefresh stands.now (step_of loaded.now.script.lanes lane step) (segment_of loaded.now lane step) }
    ensures { IfOk result (λ fresh. IsRefresh stands.now (step_of loaded.now.script.lanes lane step) (segment_of loaded.now lane step) fresh.source (arc_value fresh.extract)) }
{
    let Some(Step::Publish { source, how, .. }) = step_at(&loaded.script().lanes, lane, step) else {
        unreachable!();
    };
    let Some(segment) = loaded.segment(lane, step) else {
        unreachable!();
    };
    let standing = &stands[*source as usize];
    let extract = refreshed(alloc, standing.extract(), *how, segment)?;
    Ok(Refresh {
        source: *source,
        extract: Arc::new(alloc, extract)?,
    })
}
