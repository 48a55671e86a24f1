ghost use Rattle.std.specs.Arc.{arc_value};
ghost use Rattle.std.specs.List.{flat_map};
ghost use Rattle.std.specs.Prelude.{◌≡◌, ◌+◌, ◌<◌, ◌^◌, IfOk, length, option_map};
ghost use Rattle.dq_base.specs.Scripts.{source_in, sources_of, step_of};
ghost use Rattle.dq_extract.specs.Loads.{FitsStep, IsLoaded, before_step, places_from, places_in, segment_of};

use crate::segment::Segment;
use crate::segments::SegmentList;
use dq_base::{List, Memory, Numbers64, Script, Step, Steps};
use std::alloc::Global;
use std::marker::Model;
use std::sync::Arc;

/// A script, and a segment for each of its publish steps in order of lanes and steps. Contracts see both.
#[derive(Drop)]
pub struct Loaded {
    script: Script,
    segments: SegmentList,
    // For each lane, the place of each step's segment.
    places: List<Numbers64>,
}

impl Model for Loaded {
    ghost use Rattle.dq_extract.specs.Loads.{LoadedFiles, IsIndexed};

    ghost Value = { LoadedFiles };

    ghost view = { λ l. record { script = l.script; segments = l.segments } };

    ghost invariant = { λ l. IsIndexed (record { script = l.script; segments = l.segments }) l.places };
}

// One for a publish step, and none for a batch.
fn sources_in(step: &Step) -> u64
    ensures { result ≡ length (source_in step.now) }
{
    match step {
        Step::Publish { .. } => 1,
        Step::Batch(_) => 0,
    }
}

// For each of these steps, how many publish steps stand before it, where so many stand before the first. The count goes on
// behind the last.
fn places_of(alloc: Global, steps: &[Step], count: &mut u64) -> Result<Numbers64, Memory>
    requires { count.old + length (flat_map source_in steps.now) < 2 ^ 64 }
    ensures places { IfOk result (λ places. places ≡ places_from count.old steps.now) }
    ensures count { IfOk result (λ _. count.new ≡ count.old + length (flat_map source_in steps.now)) }
{
    let mut places = List::with_capacity(alloc, steps.len() as u64)?;
    for step in steps {
        places.push(*count)?;
        *count += sources_in(step);
    }
    Ok(places)
}

// For each of these lanes its steps' places.
fn index_of(alloc: Global, lanes: &[Steps]) -> Result<List<Numbers64>, Memory>
    requires { length (sources_of lanes.now) < 2 ^ 64 }
    ensures { IfOk result (λ index. index ≡ places_in lanes.now) }
{
    let mut index = List::with_capacity(alloc, lanes.len() as u64)?;
    let mut count = 0u64;
    for steps in lanes {
        let places = places_of(alloc, steps.as_slice(), &mut count)?;
        index.push(places)?;
    }
    Ok(index)
}

impl Loaded {
    /// A script within the limits, with the segments of its publish steps. The cost is linear in the steps.
    pub fn new(alloc: Global, script: Script, segments: SegmentList) -> Result<Loaded, Memory>
        requires { IsLoaded (record { script = script; segments = segments }) }
        ensures { IfOk result (λ loaded. loaded ≡ record { script = script; segments = segments }) }
    {
        // Counting brings to the proof that the segments can be counted.
        let _count = segments.len();
        let places = index_of(alloc, script.lanes.as_slice())?;
        Ok(Loaded {
            script,
            segments,
            places,
        })
    }

    /// The script.
    pub fn script(&self) -> &Script
        ensures script { result.now ≡ self.now.script }
        ensures loaded { IsLoaded self.now }
    {
        &self.script
    }

    /// The segments of the publish steps, in order of lanes and steps.
    pub fn segments(&self) -> &SegmentList
        ensures segments { result.now ≡ self.now.segments }
        ensures loaded { IsLoaded self.now }
    {
        &self.segments
    }

    // The place of a step's segment, if there is such a step.
    fn place(&self, lane: u32, step: u32) -> Option<u64>
        ensures { result ≡ option_map (λ _. before_step self.now.script.lanes lane step) (step_of self.now.script.lanes lane step) }
    {
        let places = self.places.numbered(lane)?;
        places.numbered(step).copied()
    }

    /// The segment of a publish step, or none exactly where there is no such step or it is a batch. Lanes and steps are
    /// numbered from 1. The cost is constant.
    pub fn segment(&self, lane: u32, step: u32) -> Option<&Arc<Segment>>
        ensures segment { option_map (λ owner. arc_value owner.now) result ≡ segment_of self.now lane step }
        ensures step { FitsStep self.now.script.schemas (step_of self.now.script.lanes lane step) (segment_of self.now lane step) }
    {
        match self.script.lanes.numbered(lane)?.numbered(step)? {
            Step::Batch(_) => None,
            Step::Publish { .. } => self.segments.get(self.place(lane, step)?),
        }
    }
}
