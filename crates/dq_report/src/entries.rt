ghost use Rattle.std.specs.List.{flat_map};
ghost use Rattle.std.specs.Prelude.{◌≡◌, ◌++◌, OnOk};
ghost use Rattle.dq_report.specs.Report as form;

use crate::texts::put_end;
use dq_base::{Kept, Memory, Text, put_labelled, put_number};
use dq_journal::{Cause, Entry, Met};

fn put_met(text: &mut Text, met: Met) -> Result<(), Memory>
    ensures { OnOk result (text.new ≡ text.old ++ form.met_text met) }
{
    match met {
        Met::Hit(flight) => put_labelled(text, b" hit ", flight),
        Met::Literal(flight) => put_labelled(text, b" literal ", flight),
        Met::Join(flight) => put_labelled(text, b" join ", flight),
        Met::Group(flight) => put_labelled(text, b" group ", flight),
    }
}

fn put_meets(text: &mut Text, meets: &[Met]) -> Result<(), Memory>
    ensures { OnOk result (text.new ≡ text.old ++ flat_map form.met_text meets.now) }
{
    for met in meets {
        put_met(text, *met)?;
    }
    Ok(())
}

fn put_kept(text: &mut Text, kept: Kept) -> Result<(), Memory>
    ensures { OnOk result (text.new ≡ text.old ++ form.kept_word kept) }
{
    match kept {
        Kept::Kept => text.append(b"kept"),
        Kept::Topped => text.append(b"topped"),
        Kept::TooLarge => text.append(b"large"),
        Kept::Stale => text.append(b"stale"),
        Kept::Memory => text.append(b"memory"),
    }
}

fn put_cause(text: &mut Text, cause: Cause) -> Result<(), Memory>
    ensures { OnOk result (text.new ≡ text.old ++ form.cause_text cause) }
{
    match cause {
        Cause::BackEnd => text.append(b" backend"),
        Cause::Memory => text.append(b" memory"),
    }
}

fn put_ran(text: &mut Text, ran: bool) -> Result<(), Memory>
    ensures { OnOk result (text.new ≡ text.old ++ form.ran_word ran) }
{
    if ran {
        text.append(b" ran")
    } else {
        text.append(b" unran")
    }
}

fn put_fresh(text: &mut Text, fresh: bool) -> Result<(), Memory>
    ensures { OnOk result (text.new ≡ text.old ++ form.fresh_word fresh) }
{
    if fresh {
        text.append(b" fresh")
    } else {
        text.append(b" idle")
    }
}

fn put_step_of_lane(text: &mut Text, lane: u32, step: u32) -> Result<(), Memory>
    ensures { OnOk result (text.new ≡ text.old ++ form.step_of_lane lane step) }
{
    put_labelled(text, b" lane ", u64::from(lane))?;
    put_labelled(text, b" step ", u64::from(step))
}

fn put_flight_of_lane(text: &mut Text, lane: u32, flight: u64) -> Result<(), Memory>
    ensures { OnOk result (text.new ≡ text.old ++ form.flight_of_lane lane flight) }
{
    put_labelled(text, b" lane ", u64::from(lane))?;
    put_labelled(text, b" flight ", flight)
}

fn put_counts(text: &mut Text, ran: bool, runs: u64, calls: u64) -> Result<(), Memory>
    ensures { OnOk result (text.new ≡ text.old ++ form.counts_text ran runs calls) }
{
    put_ran(text, ran)?;
    put_labelled(text, b" runs ", runs)?;
    put_labelled(text, b" calls ", calls)
}

fn put_lost(text: &mut Text, dialled: bool, ran: bool, runs: u64, calls: u64) -> Result<(), Memory>
    ensures { OnOk result (text.new ≡ text.old ++ form.lost_text dialled ran runs calls) }
{
    if dialled {
        text.append(b" dialled")?;
        put_counts(text, ran, runs, calls)
    } else {
        text.append(b" undialled")
    }
}

fn put_taken(text: &mut Text, next: Option<u64>) -> Result<(), Memory>
    ensures { OnOk result (text.new ≡ text.old ++ form.taken_text next) }
{
    match next {
        None => text.append(b" landed"),
        Some(flight) => put_labelled(text, b" fallen ", flight),
    }
}

fn put_admit(text: &mut Text, lane: u32, step: u32, meets: &[Met]) -> Result<(), Memory>
    ensures { OnOk result (text.new ≡ text.old ++ form.admit_text lane step meets.now) }
{
    text.append(b"admit")?;
    put_step_of_lane(text, lane, step)?;
    text.append(b" met")?;
    put_meets(text, meets)
}

fn put_linked(text: &mut Text, word: &[u8], lane: u32, flight: u64, link: u64) -> Result<(), Memory>
    ensures { OnOk result (text.new ≡ text.old ++ form.linked_text word.now lane flight link) }
{
    text.append(word)?;
    put_flight_of_lane(text, lane, flight)?;
    put_labelled(text, b" link ", link)
}

fn put_land(
    text: &mut Text,
    lane: u32,
    flight: u64,
    cells: u64,
    clever: Kept,
    literal: Kept,
) -> Result<(), Memory>
    ensures { OnOk result (text.new ≡ text.old ++ form.land_text lane flight cells clever literal) }
{
    text.append(b"land")?;
    put_flight_of_lane(text, lane, flight)?;
    put_labelled(text, b" cells ", cells)?;
    text.append(b" clever ")?;
    put_kept(text, clever)?;
    text.append(b" literal ")?;
    put_kept(text, literal)
}

/// Puts an entry behind the text.
pub fn put_entry(text: &mut Text, entry: &Entry) -> Result<(), Memory>
    ensures { OnOk result (text.new ≡ text.old ++ form.entry_text entry.now) }
{
    match entry {
        Entry::Publish { lane, step } => {
            text.append(b"publish")?;
            put_step_of_lane(text, *lane, *step)
        }
        Entry::Admit { lane, step, met } => put_admit(text, *lane, *step, met.as_slice()),
        Entry::Lease {
            lane,
            flight,
            link,
            fresh,
        } => {
            put_linked(text, b"lease", *lane, *flight, *link)?;
            put_fresh(text, *fresh)
        }
        Entry::Give {
            lane,
            flight,
            link,
            ran,
            runs,
            calls,
        } => {
            put_linked(text, b"give", *lane, *flight, *link)?;
            put_counts(text, *ran, *runs, *calls)
        }
        Entry::Lose {
            lane,
            flight,
            link,
            dialled,
            ran,
            runs,
            calls,
        } => {
            put_linked(text, b"lose", *lane, *flight, *link)?;
            put_lost(text, *dialled, *ran, *runs, *calls)
        }
        Entry::Land {
            lane,
            flight,
            cells,
            clever,
            literal,
        } => put_land(text, *lane, *flight, *cells, *clever, *literal),
        Entry::Fall {
            lane,
            flight,
            cause,
        } => {
            text.append(b"fall")?;
            put_flight_of_lane(text, *lane, *flight)?;
            put_cause(text, *cause)
        }
        Entry::Take { lane, flight, next } => {
            text.append(b"take")?;
            put_flight_of_lane(text, *lane, *flight)?;
            put_taken(text, *next)
        }
        Entry::End { lane } => put_labelled(text, b"end lane ", u64::from(*lane)),
    }
}

fn put_line(text: &mut Text, place: u64, entry: &Entry) -> Result<(), Memory>
    ensures { OnOk result (text.new ≡ text.old ++ form.line_text place entry.now) }
{
    put_number(text, place)?;
    text.push(b' ')?;
    put_entry(text, entry)?;
    put_end(text)
}

/// Puts a line for each entry behind the text. The cost is that of the entries.
pub fn put_entries(text: &mut Text, entries: &[Entry]) -> Result<(), Memory>
    ensures { OnOk result (text.new ≡ text.old ++ form.entries_text 1 entries.now) }
{
    let mut place: u64 = 1;
    for entry in entries {
        put_line(text, place, entry)?;
        place += 1;
    }
    Ok(())
}
