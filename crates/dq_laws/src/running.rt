ghost use Rattle.std.specs.Prelude.{◌≡◌, true};
ghost use Rattle.dq_laws.specs.Flying.{AreRunning};
ghost use Rattle.dq_machine.specs.Machine.{after, legal};

use dq_extract::Loaded;
use dq_journal::Entry;

/// Each flight that a lane still has to bring is among the flights, runs, and has that lane. The body is empty: the clause is the
/// law.
pub fn own_flights_run(loaded: &Loaded, journal: &[Entry])
    requires legal { legal loaded.now journal.now ≡ true }
    ensures { AreRunning (after loaded.now journal.now) }
{}
