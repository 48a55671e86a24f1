ghost use Rattle.std.specs.Prelude.{◌≡◌, IfOk};
ghost use Rattle.serde_json.specs.View.{view};
ghost use Rattle.dq_script.specs.Readings.{Answers};
ghost use Rattle.dq_script.specs.Faults.{whole_from, new_lane, fault_of, with_fault, next_fault, faults_of};

use crate::arrays::{ArrayOf, Takes, take_array};
use crate::misfit::{Misfit, here};
use crate::objects::{is_object, refuse_strangers};
use crate::parts::{MOST_WHOLE, number_of};
use crate::places::Places;
use crate::reads::{Reads, read_optional, read_wanted};
use dq_base::{List, Memory, Numbers64};
use serde_json::Value;
use std::alloc::Global;

// What a script wants to fail in a lane: the numbers of its dials, and for each link the number of its call.
#[derive(Drop)]
pub struct Fault {
    pub lane: u64,
    pub dials: Numbers64,
    pub links: Numbers64,
}

// The faults that were read so far, and the lane of each.
#[derive(Drop)]
pub struct Faults {
    pub lanes: Places<u64>,
    pub faults: List<Fault>,
}

// Reads a whole number from this one on.
#[derive(Drop)]
pub struct ReadsWhole {
    pub low: u64,
}

impl Reads for ReadsWhole {
    type Out = u64;

    ghost reading = { λ s. whole_from s.low };

    fn read(&self, alloc: Global, value: &Value) -> Result<u64, Misfit> {
        match number_of(value, self.low, MOST_WHOLE) {
            Some(number) => Ok(number),
            None => Err(here(alloc)),
        }
    }
}

// Reads the lane of a fault, which none of these is.
#[derive(Drop)]
struct ReadsNewLane<'a> {
    lanes: &'a Places<u64>,
}

impl<'a> Reads for ReadsNewLane<'a> {
    type Out = u64;

    ghost reading = { λ s. new_lane s.lanes.now };

    fn read(&self, alloc: Global, value: &Value) -> Result<u64, Misfit> {
        let Some(lane) = number_of(value, 1, MOST_WHOLE) else {
            return Err(here(alloc));
        };
        if !self.lanes.is_new(&lane) {
            return Err(here(alloc));
        }
        Ok(lane)
    }
}

// A fault, of a lane that no earlier one has.
fn read_fault(alloc: Global, lanes: &Places<u64>, value: &Value) -> Result<Fault, Misfit>
    ensures { Answers (fault_of lanes.now (view value.now)) result }
{
    if !is_object(value) {
        return Err(here(alloc));
    }
    let each_dial = ArrayOf {
        item: ReadsWhole { low: 1 },
    };
    let each_link = ArrayOf {
        item: ReadsWhole { low: 0 },
    };
    let lane = read_wanted(&ReadsNewLane { lanes }, alloc, value, "lane")?;
    let dials = read_optional(&each_dial, alloc, value, "dials", Numbers64::new(alloc))?;
    let links = read_optional(&each_link, alloc, value, "links", Numbers64::new(alloc))?;
    refuse_strangers(alloc, value, &["lane", "dials", "links"])?;
    Ok(Fault { lane, dials, links })
}

// These faults, and one more at the end.
fn with_fault(all: Faults, fault: Fault) -> Result<Faults, Memory>
    ensures { IfOk result (λ more. more ≡ with_fault all fault) }
{
    let Faults { lanes, mut faults } = all;
    let lanes = lanes.with(fault.lane, fault.lane)?;
    faults.push(fault)?;
    Ok(Faults { lanes, faults })
}

// Takes faults in order.
#[derive(Drop)]
struct TakesFaults;

impl Takes for TakesFaults {
    type State = Faults;

    ghost next = { λ s. next_fault };

    fn take(&self, alloc: Global, all: Faults, value: &Value) -> Result<Faults, Misfit> {
        let fault = read_fault(alloc, &all.lanes, value)?;
        let more = with_fault(all, fault)?;
        Ok(more)
    }
}

// Reads an array of faults.
#[derive(Drop)]
pub struct ReadsFaults;

impl Reads for ReadsFaults {
    type Out = List<Fault>;

    ghost reading = { λ s. faults_of };

    fn read(&self, alloc: Global, value: &Value) -> Result<List<Fault>, Misfit> {
        let none = Faults {
            lanes: Places::new(alloc),
            faults: List::new(alloc),
        };
        let all = take_array(&TakesFaults, alloc, none, value)?;
        Ok(all.faults)
    }
}
