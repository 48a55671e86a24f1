ghost use Rattle.std.specs.Prelude.{◌≡◌, true};
ghost use Rattle.dq_laws.specs.Owning.{AreOwn};
ghost use Rattle.dq_machine.specs.Machine.{after, legal};

use dq_extract::Loaded;
use dq_journal::Entry;

/// Each flight that runs is one of those that its lane, which is one of the script, still has to bring. The body is empty: the
/// clause is the law.
pub fn running_flights_are_own(loaded: &Loaded, journal: &[Entry])
    requires legal { legal loaded.now journal.now ≡ true }
    ensures { AreOwn loaded.now (after loaded.now journal.now) }
{}
