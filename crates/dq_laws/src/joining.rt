ghost use Rattle.std.specs.Prelude.{◌≡◌, true};
ghost use Rattle.dq_laws.specs.Joins.{HasFlights};
ghost use Rattle.dq_machine.specs.Machine.{after, legal};

use dq_extract::Loaded;
use dq_journal::Entry;

/// The flight for which a lane waits, or whose answer it may take, stays until the lane takes it. So a lane without own flights that
/// doesn't wait has an answer to take, has to start a flight in place of a fallen one, or has nothing left. The body is empty: the
/// clause is the law.
pub fn joined_flights_stay(loaded: &Loaded, journal: &[Entry])
    requires legal { legal loaded.now journal.now ≡ true }
    ensures { HasFlights (after loaded.now journal.now) }
{}
