ghost use Rattle.std.specs.Prelude.{◌≡◌, [], None, Some};
ghost use Rattle.dq_top.specs.Outcomes.{status_of, told_of_write};

use crate::fault::Fault;
use crate::refusals::any_refused;
use dq_base::List;
use dq_desk::{PooledList, WreckList};
use dq_extract::Loaded;
use dq_journal::{Journal, LaneResultsList};
use dq_link::{Dialer, Link};
use dq_report::WriteFault;
use std::alloc::Global;
use std::sync::Arc;

/// How a run ended.
///
/// The status is 0 where the report was written and nothing is refused, 1 where some zone is refused for its query or for the
/// back end, and else that of what is told. What was loaded is there exactly where the run began; then the results are
/// right for it and for the journal, one item for each lane, and `shown` has the blends of them that the report tells. The
/// links that were given back, the last one first, and those that were lost, in order, agree with the journal.
#[derive(Drop)]
pub struct Outcome<L: Link, D: Dialer<L = L>> {
    pub status: u8,
    pub told: Option<Fault>,
    pub loaded: Option<Arc<Loaded>>,
    pub journal: Journal,
    pub results: LaneResultsList,
    pub shown: LaneResultsList,
    pub idle: PooledList<L>,
    pub wrecks: WreckList<L>,
    /// One for each lane.
    pub dialers: List<D>,
}

/// The outcome of a run that didn't begin.
pub fn refused<L: Link, D: Dialer<L = L>>(alloc: Global, fault: Fault) -> Outcome<L, D>
    ensures told { result.told ≡ Some fault }
    ensures loaded { result.loaded ≡ None }
    ensures journal { result.journal.entries ≡ [] }
    ensures results { result.results ≡ [] }
    ensures shown { result.shown ≡ [] }
    ensures idle { result.idle ≡ [] }
    ensures wrecks { result.wrecks ≡ [] }
    ensures dialers { result.dialers ≡ [] }
    ensures status { result.status ≡ status_of (Some fault) [] }
{
    Outcome {
        status: fault.status(),
        told: Some(fault),
        loaded: None,
        journal: Journal::new(alloc),
        results: List::new(alloc),
        shown: List::new(alloc),
        idle: List::new(alloc),
        wrecks: List::new(alloc),
        dialers: List::new(alloc),
    }
}

/// The status of what is told and of the results.
pub fn status(told: &Option<Fault>, results: &LaneResultsList) -> u8
    ensures { result ≡ status_of told.now results.now }
{
    match told {
        Some(fault) => fault.status(),
        None => { if any_refused(results) { 1 } else { 0 } }
    }
}

/// What is told of a write, where something was refused for memory or nothing was.
pub fn told_of(wanting: bool, wrote: Result<(), WriteFault>) -> Option<Fault>
    ensures { result ≡ told_of_write wanting wrote }
{
    match wrote {
        Ok(()) => { if wanting { Some(Fault::Memory) } else { None } }
        Err(WriteFault::Failed) => Some(Fault::Write),
        Err(WriteFault::Memory) => Some(Fault::Memory),
    }
}
