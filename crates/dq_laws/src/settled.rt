ghost use Rattle.std.specs.List.{list_any};
ghost use Rattle.std.specs.Prelude.{◌≡◌, ◌++◌, Some, false, true};
ghost use Rattle.dq_laws.specs.Settled.{IsOver, brings};
ghost use Rattle.dq_machine.specs.Machine.{after, legal};
ghost use Rattle.dq_machine.specs.Owning.{falls_wanting, fate, losses_of};

use dq_extract::Loaded;
use dq_journal::Entry;

/// A flight that was started and that no lane still has to bring is named by no later Lease, Give, Lose, Land or Fall. The body is
/// empty: the clause is the law.
pub fn left_flights_are_over(loaded: &Loaded, journal: &[Entry], more: &[Entry], flight: u64)
    requires legal { legal loaded.now (journal.now ++ more.now) ≡ true }
    requires over { IsOver (after loaded.now journal.now) flight }
    ensures { list_any (brings flight) more.now ≡ false }
{}

/// What became of such a flight stays, whatever comes later: the links that were lost for it, and whether it fell as memory was
/// wanting. The body is empty: the clauses are the law.
pub fn fates_are_settled(loaded: &Loaded, journal: &[Entry], more: &[Entry], flight: u64)
    requires legal { legal loaded.now (journal.now ++ more.now) ≡ true }
    requires over { IsOver (after loaded.now journal.now) flight }
    ensures losses { losses_of (journal.now ++ more.now) flight ≡ losses_of journal.now flight }
    ensures falls { list_any (falls_wanting flight) (journal.now ++ more.now) ≡ list_any (falls_wanting flight) journal.now }
    ensures fate { fate (journal.now ++ more.now) (Some flight) ≡ fate journal.now (Some flight) }
{}
