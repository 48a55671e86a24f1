ghost use Rattle.std.specs.Prelude.{◌≡◌, ◌≤◌, true};
ghost use Rattle.dq_laws.specs.Numbers.{AreNumbered, most_flights};
ghost use Rattle.dq_machine.specs.Machine.{after, legal};

use dq_extract::Loaded;
use dq_journal::Entry;

/// The flights stand in the order of their numbers, which go from 1 up to as many as were started, and no two have the same. The
/// body is empty: the clause is the law.
pub fn flights_are_numbered(loaded: &Loaded, journal: &[Entry])
    requires legal { legal loaded.now journal.now ≡ true }
    ensures { AreNumbered (after loaded.now journal.now).flights }
{}

/// No more flights are started than all steps of all lanes may have zones: 16,777,216. The clause is the law; the body only brings
/// to the proof that the script is within its limits.
pub fn flights_are_few(loaded: &Loaded, journal: &[Entry])
    requires legal { legal loaded.now journal.now ≡ true }
    ensures { (after loaded.now journal.now).flights.started ≤ most_flights }
{
    let _script = loaded.script();
}
