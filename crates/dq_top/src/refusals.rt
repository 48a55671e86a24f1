ghost use Rattle.std.specs.List.{list_any};
ghost use Rattle.std.specs.Prelude.{◌≡◌, ◌||◌};
ghost use Rattle.dq_top.specs.Outcomes as outcome;

use dq_base::Kept;
use dq_journal::{Entry, Journal, LaneResults, LaneResultsList, StepResult, ZoneResult};

fn is_refused(zone: &ZoneResult) -> bool
    ensures { result ≡ outcome.is_refused zone.now }
{
    match zone {
        ZoneResult::Rows(_) => false,
        ZoneResult::Invalid(_) => true,
        ZoneResult::BackEnd => true,
        ZoneResult::Memory => false,
    }
}

fn is_wanting(zone: &ZoneResult) -> bool
    ensures { result ≡ outcome.is_wanting zone.now }
{
    match zone {
        ZoneResult::Rows(_) => false,
        ZoneResult::Invalid(_) => false,
        ZoneResult::BackEnd => false,
        ZoneResult::Memory => true,
    }
}

fn zones_refused(zones: &[ZoneResult]) -> bool
    ensures { result ≡ list_any outcome.is_refused zones.now }
{
    zones.iter().any(|zone| is_refused(zone))
}

fn zones_wanting(zones: &[ZoneResult]) -> bool
    ensures { result ≡ list_any outcome.is_wanting zones.now }
{
    zones.iter().any(|zone| is_wanting(zone))
}

fn step_refused(step: &StepResult) -> bool
    ensures { result ≡ outcome.step_refused step.now }
{
    match step {
        StepResult::Published(_) => false,
        StepResult::Unpublished => false,
        StepResult::Admitted(_, zones) => zones_refused(zones.as_slice()),
        StepResult::Unadmitted(zones) => zones_refused(zones.as_slice()),
    }
}

fn step_wanting(step: &StepResult) -> bool
    ensures { result ≡ outcome.step_wanting step.now }
{
    match step {
        StepResult::Published(_) => false,
        StepResult::Unpublished => true,
        StepResult::Admitted(_, zones) => zones_wanting(zones.as_slice()),
        StepResult::Unadmitted(_) => true,
    }
}

fn lane_refused(steps: &LaneResults) -> bool
    ensures { result ≡ list_any outcome.step_refused steps.now }
{
    steps.as_slice().iter().any(|step| step_refused(step))
}

fn lane_wanting(steps: &LaneResults) -> bool
    ensures { result ≡ list_any outcome.step_wanting steps.now }
{
    steps.as_slice().iter().any(|step| step_wanting(step))
}

/// Whether some zone was refused for its query or for the back end.
pub fn any_refused(results: &LaneResultsList) -> bool
    ensures { result ≡ outcome.any_refused results.now }
{
    results.as_slice().iter().any(|lane| lane_refused(lane))
}

/// Whether some zone, refresh or batch was refused for memory.
fn any_wanting(results: &LaneResultsList) -> bool
    ensures { result ≡ outcome.any_wanting results.now }
{
    results.as_slice().iter().any(|lane| lane_wanting(lane))
}

fn is_unkept(kept: Kept) -> bool
    ensures { result ≡ outcome.is_unkept kept }
{
    match kept {
        Kept::Kept => false,
        Kept::Topped => false,
        Kept::TooLarge => false,
        Kept::Stale => false,
        Kept::Memory => true,
    }
}

fn entry_unkept(entry: &Entry) -> bool
    ensures { result ≡ outcome.entry_unkept entry.now }
{
    match entry {
        Entry::Land {
            clever,
            literal,
            ..
        } => is_unkept(*clever) || is_unkept(*literal),
        _ => false,
    }
}

/// Whether some keep was refused for memory.
fn any_unkept(journal: &Journal) -> bool
    ensures { result ≡ outcome.any_unkept journal.now.entries }
{
    journal.as_slice().iter().any(|entry| entry_unkept(entry))
}

/// Whether memory was wanting: some zone, refresh or batch was refused for it, or some keep.
pub fn wants_memory(results: &LaneResultsList, journal: &Journal) -> bool
    ensures { result ≡ (outcome.any_wanting results.now || outcome.any_unkept journal.now.entries) }
{
    any_wanting(results) || any_unkept(journal)
}
