ghost use Rattle.std.specs.Prelude.{◌≡◌, IfOk};
ghost use Rattle.dq_check.specs.Grounds.{AreGrounds};
ghost use Rattle.dq_check.specs.Walks.{IsLegalWalk};

use crate::losses::Losses;
use crate::walking::History;
use dq_base::Memory;
use dq_extract::Loaded;
use dq_journal::Entry;
use dq_machine::Machine;
use dq_shown::{Starts, starts_of};
use std::alloc::Global;

/// What a verdict on zones stands on: where a legal journal leads, what became of its flights, and where the script's blends begin.
#[derive(Drop)]
pub(crate) struct Grounds {
    pub(crate) history: History,
    pub(crate) losses: Losses,
    pub(crate) starts: Starts,
}

impl Grounds {
    /// The machine behind the last entry.
    pub(crate) fn machine(&self) -> &Machine
        ensures { result.now ≡ self.now.history.machine }
    {
        &self.history.machine
    }

    /// Where the journal leads.
    pub(crate) fn history(&self) -> &History
        ensures { result.now ≡ self.now.history }
    {
        &self.history
    }

    /// What became of its flights.
    pub(crate) fn losses(&self) -> &Losses
        ensures { result.now ≡ self.now.losses }
    {
        &self.losses
    }
}

/// Those of a legal journal. The cost is its length and the number of blends, each times its logarithm.
pub(crate) fn make_grounds(
    alloc: Global,
    loaded: &Loaded,
    journal: &[Entry],
    history: History,
) -> Result<Grounds, Memory>
    requires { IsLegalWalk loaded.now journal.now history }
    ensures { IfOk result (AreGrounds loaded.now journal.now) }
{
    let losses = Losses::new(alloc, journal)?;
    let starts = starts_of(alloc, &loaded.script().blends)?;
    Ok(Grounds {
        history,
        losses,
        starts,
    })
}
