ghost use Rattle.std.specs.List.{AllByRecursion, flat_map};
ghost use Rattle.std.specs.Prelude.{[], ◌∷◌, ◌++◌, codes};
ghost use Rattle.dq_base.specs.Rests.{Anything, Stops};
ghost use Rattle.dq_parse.specs.Reading.{Any, EndsLine, IsJournal, IsShown, Takes, ended_text, journal_text, met_list, place_text};
ghost use Rattle.dq_reading.specs.Reading.{Reads};
ghost use Rattle.dq_report.specs.Report.{entry_text, line_text, met_text};
ghost use Rattle.dq_report.specs.Told.{FitsMet};

use crate::flights::{
    read_caches, read_counts, read_lane_flight, read_lane_step, read_link, read_lost, read_next,
    read_size,
};
use crate::words::{read_cause, read_fresh, read_labelled_u32, read_marked};
use dq_base::List;
use dq_journal::{Entry, Journal, Meets, Met};
use dq_reading::{Left, TextFault, read_u64};
use std::alloc::Global;

// Reads what a remote query met, behind its space.
fn read_met(left: &mut Left) -> Result<Met, TextFault>
    ensures { Reads FitsMet Stops met_text (32 ∷ [] ++ left.old) left.new result }
{
    if left.skip(b"hit ") {
        let flight = read_u64(left)?;
        return Ok(Met::Hit(flight));
    }
    if left.skip(b"literal ") {
        let flight = read_u64(left)?;
        return Ok(Met::Literal(flight));
    }
    if left.skip(b"join ") {
        let flight = read_u64(left)?;
        return Ok(Met::Join(flight));
    }
    if left.skip(b"group ") {
        let flight = read_u64(left)?;
        return Ok(Met::Group(flight));
    }
    Err(TextFault::NotInGrammar)
}

// Reads what the remote queries of a batch met, behind its word.
fn read_meets(alloc: Global, left: &mut Left) -> Result<Meets, TextFault>
    ensures { Reads (AllByRecursion FitsMet) EndsLine (flat_map met_text) left.old left.new result }
{
    let mut meets = List::new(alloc);
    while left.skip(b" ") {
        let met = read_met(left)?;
        meets.push(met)?;
    }
    Ok(meets)
}

// Reads a word, and what the remote queries of a batch met.
fn read_worded_meets(alloc: Global, left: &mut Left) -> Result<Meets, TextFault>
    ensures { Reads (AllByRecursion FitsMet) EndsLine met_list left.old left.new result }
{
    if !left.skip(b" met") {
        return Err(TextFault::NotInGrammar);
    }
    read_meets(alloc, left)
}

// Reads a publication, behind its word.
fn read_publish(left: &mut Left) -> Result<Entry, TextFault>
    ensures { Reads IsShown EndsLine entry_text (codes "publish" ++ left.old) left.new result }
{
    let (lane, step) = read_lane_step(left)?;
    Ok(Entry::Publish { lane, step })
}

// Reads an admission, behind its word.
fn read_admit(alloc: Global, left: &mut Left) -> Result<Entry, TextFault>
    ensures { Reads IsShown EndsLine entry_text (codes "admit" ++ left.old) left.new result }
{
    let (lane, step) = read_lane_step(left)?;
    let met = read_worded_meets(alloc, left)?;
    Ok(Entry::Admit { lane, step, met })
}

// Reads the lease of a link, behind its word.
fn read_lease(left: &mut Left) -> Result<Entry, TextFault>
    ensures { Reads IsShown EndsLine entry_text (codes "lease" ++ left.old) left.new result }
{
    let (lane, flight, link) = read_link(left)?;
    let fresh = read_fresh(left)?;
    Ok(Entry::Lease {
        lane,
        flight,
        link,
        fresh,
    })
}

// Reads the return of a link, behind its word.
fn read_give(left: &mut Left) -> Result<Entry, TextFault>
    ensures { Reads IsShown EndsLine entry_text (codes "give" ++ left.old) left.new result }
{
    let (lane, flight, link) = read_link(left)?;
    let (ran, runs, calls) = read_counts(left)?;
    Ok(Entry::Give {
        lane,
        flight,
        link,
        ran,
        runs,
        calls,
    })
}

// Reads the loss of a link, behind its word.
fn read_lose(left: &mut Left) -> Result<Entry, TextFault>
    ensures { Reads IsShown EndsLine entry_text (codes "lose" ++ left.old) left.new result }
{
    let (lane, flight, link) = read_link(left)?;
    let (dialled, ran, runs, calls) = read_lost(left)?;
    Ok(Entry::Lose {
        lane,
        flight,
        link,
        dialled,
        ran,
        runs,
        calls,
    })
}

// Reads the landing of a flight, behind its word.
fn read_land(left: &mut Left) -> Result<Entry, TextFault>
    ensures { Reads IsShown EndsLine entry_text (codes "land" ++ left.old) left.new result }
{
    let (lane, flight, cells) = read_size(left)?;
    let (clever, literal) = read_caches(left)?;
    Ok(Entry::Land {
        lane,
        flight,
        cells,
        clever,
        literal,
    })
}

// Reads the fall of a flight, behind its word.
fn read_fall(left: &mut Left) -> Result<Entry, TextFault>
    ensures { Reads IsShown EndsLine entry_text (codes "fall" ++ left.old) left.new result }
{
    let (lane, flight) = read_lane_flight(left)?;
    let cause = read_cause(left)?;
    Ok(Entry::Fall {
        lane,
        flight,
        cause,
    })
}

// Reads what a joiner took, behind its word.
fn read_take(left: &mut Left) -> Result<Entry, TextFault>
    ensures { Reads IsShown EndsLine entry_text (codes "take" ++ left.old) left.new result }
{
    let (lane, flight) = read_lane_flight(left)?;
    let next = read_next(left)?;
    Ok(Entry::Take { lane, flight, next })
}

// Reads the end of a lane, behind its word.
fn read_end(left: &mut Left) -> Result<Entry, TextFault>
    ensures { Reads IsShown EndsLine entry_text (codes "end" ++ left.old) left.new result }
{
    let lane = read_labelled_u32(left, b" lane ")?;
    Ok(Entry::End { lane })
}

// Reads an entry.
fn read_entry(alloc: Global, left: &mut Left) -> Result<Entry, TextFault>
    ensures { Reads IsShown EndsLine entry_text left.old left.new result }
{
    if left.skip(b"publish") {
        return read_publish(left);
    }
    if left.skip(b"admit") {
        return read_admit(alloc, left);
    }
    if left.skip(b"lease") {
        return read_lease(left);
    }
    if left.skip(b"give") {
        return read_give(left);
    }
    if left.skip(b"lose") {
        return read_lose(left);
    }
    if left.skip(b"land") {
        return read_land(left);
    }
    if left.skip(b"fall") {
        return read_fall(left);
    }
    if left.skip(b"take") {
        return read_take(left);
    }
    if left.skip(b"end") {
        return read_end(left);
    }
    Err(TextFault::NotInGrammar)
}

// Reads the place before an entry.
fn read_place(left: &mut Left, place: u64) -> Result<(), TextFault>
    ensures { Reads Any Anything (place_text place) left.old left.new result }
{
    read_marked(left, b"", place)?;
    if !left.skip(b" ") {
        return Err(TextFault::NotInGrammar);
    }
    Ok(())
}

// Reads an entry, with the line's end.
fn read_ended_entry(alloc: Global, left: &mut Left) -> Result<Entry, TextFault>
    ensures { Reads IsShown Anything ended_text left.old left.new result }
{
    let entry = read_entry(alloc, left)?;
    if !left.skip(b"\n") {
        return Err(TextFault::NotInGrammar);
    }
    Ok(entry)
}

// Reads the line of the entry at a place.
fn read_entry_line(alloc: Global, left: &mut Left, place: u64) -> Result<Entry, TextFault>
    ensures { Reads IsShown Anything (line_text place) left.old left.new result }
{
    read_place(left, place)?;
    read_ended_entry(alloc, left)
}

/// Reads so many entries, from place 1 on.
pub(crate) fn read_journal(alloc: Global, left: &mut Left, count: u64) -> Result<Journal, TextFault>
    ensures { Takes (IsJournal count) Anything journal_text left.old left.new result }
{
    let mut journal = Journal::new(alloc);
    for before in 0..count {
        let entry = read_entry_line(alloc, left, before + 1)?;
        journal.reserve(1)?;
        journal.push(entry);
    }
    Ok(journal)
}
