ghost use Rattle.std.specs.Prelude.{◌≡◌, IfOk};
ghost use Rattle.serde_json.specs.View.{view};
ghost use Rattle.dq_script.specs.Readings.{Answers, given};
ghost use Rattle.dq_script.specs.Steps.{how_of, publish_of, batch_in, has_publish, step_of, with_step, next_step, lane_of, with_lane, next_lane, lanes_of};

use crate::arrays::{Takes, take_array};
use crate::batch::{Pairs, ReadsBatch};
use crate::form::Form;
use crate::known::{Known, ReadsSource};
use crate::misfit::{Misfit, here};
use crate::objects::{has, is_object, refuse_strangers};
use crate::parts::{ReadsString, is_string};
use crate::reads::{Reads, read_wanted};
use dq_base::{How, LaneSteps, List, Memory, Step, Steps};
use serde_json::Value;
use std::alloc::Global;

// A step, and which zones of it are pairs.
#[derive(Drop)]
pub struct Taken {
    pub step: Step,
    pub pairs: Pairs,
}

// The steps of a lane, and the pairs of each.
#[derive(Drop)]
pub struct Lane {
    pub steps: Steps,
    pub pairs: List<Pairs>,
}

// The lanes, and the pairs of each step of each.
#[derive(Drop)]
pub struct Lanes {
    pub lanes: LaneSteps,
    pub pairs: List<List<Pairs>>,
}

// How a file is taken, by its word.
fn how_of(value: &Value) -> Option<How>
    ensures { result ≡ how_of (view value.now) }
{
    if is_string(value, b"replace") {
        return Some(How::Replace);
    }
    if is_string(value, b"append") {
        return Some(How::Append);
    }
    None
}

// Reads how a file is taken.
#[derive(Drop)]
struct ReadsHow;

impl Reads for ReadsHow {
    type Out = How;

    ghost reading = { λ s d. given (how_of d) };

    fn read(&self, alloc: Global, value: &Value) -> Result<How, Misfit> {
        match how_of(value) {
            Some(how) => Ok(how),
            None => Err(here(alloc)),
        }
    }
}

// A publication.
fn read_publish(alloc: Global, known: Known, value: &Value) -> Result<Taken, Misfit>
    ensures { Answers (publish_of known.entry.extracts.now (view value.now)) result }
{
    if !is_object(value) {
        return Err(here(alloc));
    }
    let source = read_wanted(&ReadsSource { known }, alloc, value, "publish")?;
    let how = read_wanted(&ReadsHow, alloc, value, "how")?;
    let file = read_wanted(&ReadsString, alloc, value, "file")?;
    refuse_strangers(alloc, value, &["publish", "how", "file"])?;
    Ok(Taken {
        step: Step::Publish { source, how, file },
        pairs: Pairs::new(alloc),
    })
}

// A batch of zones.
fn read_batch(alloc: Global, form: Form, known: Known, value: &Value) -> Result<Taken, Misfit>
    ensures { Answers (batch_in form known.entry.extracts.now (view value.now)) result }
{
    if !is_object(value) {
        return Err(here(alloc));
    }
    let batch = read_wanted(&ReadsBatch { form, known }, alloc, value, "batch")?;
    refuse_strangers(alloc, value, &["batch"])?;
    Ok(Taken {
        step: Step::Batch(batch.zones),
        pairs: batch.pairs,
    })
}

// Whether an object has a member of a publication.
fn has_publish(value: &Value) -> bool
    ensures { result ≡ has_publish (view value.now) }
{
    has(value, "publish") || (has(value, "how") || has(value, "file"))
}

// A step: a batch alone, or a publication.
fn read_step(alloc: Global, form: Form, known: Known, value: &Value) -> Result<Taken, Misfit>
    ensures { Answers (step_of form known.entry.extracts.now (view value.now)) result }
{
    if has(value, "batch") {
        if has_publish(value) {
            return Err(here(alloc));
        }
        return read_batch(alloc, form, known, value);
    }
    if !has(value, "publish") {
        return Err(here(alloc));
    }
    read_publish(alloc, known, value)
}

// These steps, and one more at the end.
fn with_step(lane: Lane, taken: Taken) -> Result<Lane, Memory>
    ensures { IfOk result (λ more. more ≡ with_step lane taken) }
{
    let Lane {
        mut steps,
        mut pairs,
    } = lane;
    steps.push(taken.step)?;
    pairs.push(taken.pairs)?;
    Ok(Lane { steps, pairs })
}

// Takes the steps of a lane in order.
#[derive(Drop)]
struct TakesSteps<'a> {
    form: Form,
    known: Known<'a>,
}

impl<'a> Takes for TakesSteps<'a> {
    type State = Lane;

    ghost next = { λ s. next_step s.form s.known.extracts.now };

    fn take(&self, alloc: Global, lane: Lane, value: &Value) -> Result<Lane, Misfit> {
        let taken = read_step(alloc, self.form, self.known, value)?;
        let more = with_step(lane, taken)?;
        Ok(more)
    }
}

// The steps of a lane.
fn read_lane(alloc: Global, form: Form, known: Known, value: &Value) -> Result<Lane, Misfit>
    ensures { Answers (lane_of form known.entry.extracts.now (view value.now)) result }
{
    let none = Lane {
        steps: Steps::new(alloc),
        pairs: List::new(alloc),
    };
    take_array(&TakesSteps { form, known }, alloc, none, value)
}

// These lanes, and one more at the end.
fn with_lane(all: Lanes, lane: Lane) -> Result<Lanes, Memory>
    ensures { IfOk result (λ more. more ≡ with_lane all lane) }
{
    let Lanes {
        mut lanes,
        mut pairs,
    } = all;
    lanes.push(lane.steps)?;
    pairs.push(lane.pairs)?;
    Ok(Lanes { lanes, pairs })
}

// Takes lanes in order.
#[derive(Drop)]
struct TakesLanes<'a> {
    form: Form,
    known: Known<'a>,
}

impl<'a> Takes for TakesLanes<'a> {
    type State = Lanes;

    ghost next = { λ s. next_lane s.form s.known.extracts.now };

    fn take(&self, alloc: Global, all: Lanes, value: &Value) -> Result<Lanes, Misfit> {
        let lane = read_lane(alloc, self.form, self.known, value)?;
        let more = with_lane(all, lane)?;
        Ok(more)
    }
}

// Reads the steps of each lane.
#[derive(Drop)]
pub struct ReadsLanes<'a> {
    pub form: Form,
    pub known: Known<'a>,
}

impl<'a> Reads for ReadsLanes<'a> {
    type Out = Lanes;

    ghost reading = { λ s. lanes_of s.form s.known.extracts.now };

    fn read(&self, alloc: Global, value: &Value) -> Result<Lanes, Misfit> {
        let lanes = TakesLanes {
            form: self.form,
            known: self.known,
        };
        let none = Lanes {
            lanes: LaneSteps::new(alloc),
            pairs: List::new(alloc),
        };
        take_array(&lanes, alloc, none, value)
    }
}
