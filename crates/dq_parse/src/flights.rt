ghost use Rattle.dq_base.specs.Rests.{Anything, Stops};
ghost use Rattle.dq_parse.specs.Reading.{Any, AreCounts, AreLaneFlight, AreLaneStep, AreLost, AreOfFlight, caches_text, counts_of_text, lane_flight_text, lane_step_text, lost_of_text, link_text, size_text};
ghost use Rattle.dq_reading.specs.Reading.{Reads};
ghost use Rattle.dq_report.specs.Report.{taken_text};
ghost use Rattle.dq_report.specs.Told.{FitsNext};

use crate::words::{read_kept, read_labelled, read_labelled_u32, read_ran};
use dq_base::Kept;
use dq_reading::{Left, TextFault};

/// Reads a lane and its step.
pub(crate) fn read_lane_step(left: &mut Left) -> Result<(u32, u32), TextFault>
    ensures { Reads AreLaneStep Stops lane_step_text left.old left.new result }
{
    let lane = read_labelled_u32(left, b" lane ")?;
    let step = read_labelled_u32(left, b" step ")?;
    Ok((lane, step))
}

/// Reads a lane and a flight.
pub(crate) fn read_lane_flight(left: &mut Left) -> Result<(u32, u64), TextFault>
    ensures { Reads AreLaneFlight Stops lane_flight_text left.old left.new result }
{
    let lane = read_labelled_u32(left, b" lane ")?;
    let flight = read_labelled(left, b" flight ")?;
    Ok((lane, flight))
}

/// Reads a lane, a flight, and its link behind its word.
pub(crate) fn read_link(left: &mut Left) -> Result<(u32, u64, u64), TextFault>
    ensures { Reads AreOfFlight Stops link_text left.old left.new result }
{
    let (lane, flight) = read_lane_flight(left)?;
    let link = read_labelled(left, b" link ")?;
    Ok((lane, flight, link))
}

/// Reads a lane, a flight, and the number of its answer's cells.
pub(crate) fn read_size(left: &mut Left) -> Result<(u32, u64, u64), TextFault>
    ensures { Reads AreOfFlight Stops size_text left.old left.new result }
{
    let (lane, flight) = read_lane_flight(left)?;
    let cells = read_labelled(left, b" cells ")?;
    Ok((lane, flight, cells))
}

/// Reads whether a statement was run, and a link's counts.
pub(crate) fn read_counts(left: &mut Left) -> Result<(bool, u64, u64), TextFault>
    ensures { Reads AreCounts Stops counts_of_text left.old left.new result }
{
    let ran = read_ran(left)?;
    let runs = read_labelled(left, b" runs ")?;
    let calls = read_labelled(left, b" calls ")?;
    Ok((ran, runs, calls))
}

/// Reads whether a lost link was dialled, and what it did then.
pub(crate) fn read_lost(left: &mut Left) -> Result<(bool, bool, u64, u64), TextFault>
    ensures { Reads AreLost Stops lost_of_text left.old left.new result }
{
    if left.skip(b" undialled") {
        return Ok((false, false, 0, 0));
    }
    if !left.skip(b" dialled") {
        return Err(TextFault::NotInGrammar);
    }
    let (ran, runs, calls) = read_counts(left)?;
    Ok((true, ran, runs, calls))
}

/// Reads what both caches did with an answer.
pub(crate) fn read_caches(left: &mut Left) -> Result<(Kept, Kept), TextFault>
    ensures { Reads Any Anything caches_text left.old left.new result }
{
    if !left.skip(b" clever ") {
        return Err(TextFault::NotInGrammar);
    }
    let clever = read_kept(left)?;
    if !left.skip(b" literal ") {
        return Err(TextFault::NotInGrammar);
    }
    let literal = read_kept(left)?;
    Ok((clever, literal))
}

/// Reads whether what a joiner took had landed: the next flight where it had fallen.
pub(crate) fn read_next(left: &mut Left) -> Result<Option<u64>, TextFault>
    ensures { Reads FitsNext Stops taken_text left.old left.new result }
{
    if left.skip(b" landed") {
        return Ok(None);
    }
    let next = read_labelled(left, b" fallen ")?;
    Ok(Some(next))
}
