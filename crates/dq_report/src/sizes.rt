ghost use Rattle.std.specs.List.{AllByRecursion};
ghost use Rattle.dq_base.specs.Sizes.{IsByte};
ghost use Rattle.dq_report.specs.Told.{FitsMet, FitsNext, FitsEntry, FitsCell, FitsList, FitsTable, FitsZone, FitsResult, IsWellFormed};

use dq_base::{Cell, Cells, Table};
use dq_journal::{
    Entry, Journal, LaneResults, LaneResultsList, Met, StepResult, ZoneResult, ZoneResults,
};

fn fit_met(met: Met)
    ensures { FitsMet met }
{
    match met {
        Met::Hit(_flight) => {}
        Met::Literal(_flight) => {}
        Met::Join(_flight) => {}
        Met::Group(_flight) => {}
    }
}

fn fit_meets(meets: &[Met])
    ensures { AllByRecursion FitsMet meets.now }
{
    for met in meets {
        fit_met(*met);
    }
}

fn fit_next(next: Option<u64>)
    ensures { FitsNext next }
{
    match next {
        None => {}
        Some(_flight) => {}
    }
}

fn fit_entry(entry: &Entry)
    ensures { FitsEntry entry.now }
{
    match entry {
        Entry::Publish { lane, step } => {
            let _read = (*lane, *step);
        }
        Entry::Admit { lane, step, met } => {
            let _read = (*lane, *step);
            fit_meets(met.as_slice());
        }
        Entry::Lease {
            lane,
            flight,
            link,
            ..
        } => {
            let _read = (*lane, *flight, *link);
        }
        Entry::Give {
            lane,
            flight,
            link,
            runs,
            calls,
            ..
        } => {
            let _read = (*lane, *flight, *link, *runs, *calls);
        }
        Entry::Lose {
            lane,
            flight,
            link,
            runs,
            calls,
            ..
        } => {
            let _read = (*lane, *flight, *link, *runs, *calls);
        }
        Entry::Land {
            lane,
            flight,
            cells,
            ..
        } => {
            let _read = (*lane, *flight, *cells);
        }
        Entry::Fall { lane, flight, .. } => {
            let _read = (*lane, *flight);
        }
        Entry::Take { lane, flight, next } => {
            let _read = (*lane, *flight);
            fit_next(*next);
        }
        Entry::End { lane } => {
            let _read = *lane;
        }
    }
}

fn fit_entries(entries: &[Entry])
    ensures { AllByRecursion FitsEntry entries.now }
{
    for entry in entries {
        fit_entry(entry);
    }
}

fn fit_bytes(bytes: &[u8])
    ensures { AllByRecursion IsByte bytes.now }
{
    for byte in bytes {
        let _read = *byte;
    }
}

fn fit_cell(cell: &Cell)
    ensures { FitsCell cell.now }
{
    match cell {
        Cell::Null => {}
        Cell::Whole(n) => {
            let _read = *n;
        }
        Cell::Word(text) => fit_bytes(text.as_slice()),
        Cell::Ratio(ratio) => {
            let _read = (ratio.sum(), ratio.count());
        }
    }
}

fn fit_cells(cells: &[Cell])
    ensures { AllByRecursion FitsCell cells.now }
{
    for cell in cells {
        fit_cell(cell);
    }
}

fn fit_row(row: &Cells)
    ensures { AllByRecursion FitsCell row.now }
{
    fit_cells(row.as_slice());
}

fn fit_rows(rows: &[Cells])
    ensures { AllByRecursion (AllByRecursion FitsCell) rows.now }
{
    for row in rows {
        fit_row(row);
    }
}

fn fit_table(table: &Table)
    ensures { FitsTable table.now }
{
    let _count = table.len();
    fit_rows(table.as_slice());
}

fn fit_zone(outcome: &ZoneResult)
    ensures { FitsZone outcome.now }
{
    match outcome {
        ZoneResult::Rows(table) => fit_table(table),
        ZoneResult::Invalid(_) => {}
        ZoneResult::BackEnd => {}
        ZoneResult::Memory => {}
    }
}

fn fit_outcomes(outcomes: &[ZoneResult])
    ensures { AllByRecursion FitsZone outcomes.now }
{
    for outcome in outcomes {
        fit_zone(outcome);
    }
}

fn fit_batch(zones: &ZoneResults)
    ensures { FitsList FitsZone zones.now }
{
    let _count = zones.len();
    fit_outcomes(zones.as_slice());
}

fn fit_step(done: &StepResult)
    ensures { FitsResult done.now }
{
    match done {
        StepResult::Published(place) => {
            let _read = *place;
        }
        StepResult::Unpublished => {}
        StepResult::Admitted(place, zones) => {
            let _read = *place;
            fit_batch(zones);
        }
        StepResult::Unadmitted(zones) => fit_batch(zones),
    }
}

fn fit_steps(steps: &[StepResult])
    ensures { AllByRecursion FitsResult steps.now }
{
    for done in steps {
        fit_step(done);
    }
}

fn fit_lane(results: &LaneResults)
    ensures { FitsList FitsResult results.now }
{
    let _count = results.len();
    fit_steps(results.as_slice());
}

fn fit_lanes(lanes: &[LaneResults])
    ensures { AllByRecursion (FitsList FitsResult) lanes.now }
{
    for results in lanes {
        fit_lane(results);
    }
}

/// Any journal and any results are well-formed, as their types keep it: the condition of `report_tells_all`. It takes the time of
/// reading them once and changes nothing. No program needs to call it: the clause is the fact.
pub fn are_well_formed(journal: &Journal, results: &LaneResultsList)
    ensures { IsWellFormed journal.now.entries results.now }
{
    let _entries = journal.len();
    let _lanes = results.len();
    fit_entries(journal.as_slice());
    fit_lanes(results.as_slice());
}
