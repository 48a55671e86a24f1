ghost use Rattle.std.specs.Prelude.{◌≡◌, ◌++◌, [], ◌∷◌, Some, true};
ghost use Rattle.dq_fates.specs.Ends.{EndsAsTold, EndsOver};
ghost use Rattle.dq_laws.specs.Settled.{IsOver};
ghost use Rattle.dq_machine.specs.Machine.{after, legal};
ghost use Rattle.dq_machine.specs.Owning.{fate};

use dq_extract::Loaded;
use dq_journal::Entry;

/// What becomes of a flight is what the entry that ends it tells: one that lands is answered, and one that falls has failed, or
/// memory was wanting for it. The body is empty: the clause is the law.
pub fn flights_end_as_told(loaded: &Loaded, journal: &[Entry], entry: &Entry)
    requires legal { legal loaded.now (journal.now ++ entry.now ∷ []) ≡ true }
    ensures { EndsAsTold (journal.now ++ entry.now ∷ []) entry.now }
{}

/// A flight that has just landed or fallen was started, and no lane still has to bring it. The body is empty: the clause is the law.
pub fn ended_flights_are_over(loaded: &Loaded, journal: &[Entry], entry: &Entry)
    requires legal { legal loaded.now (journal.now ++ entry.now ∷ []) ≡ true }
    ensures { EndsOver (after loaded.now (journal.now ++ entry.now ∷ [])) entry.now }
{}

/// That stays, whatever comes later, and so does what became of the flight. The body is empty: the clauses are the law.
pub fn over_flights_stay(loaded: &Loaded, journal: &[Entry], more: &[Entry], flight: u64)
    requires legal { legal loaded.now (journal.now ++ more.now) ≡ true }
    requires over { IsOver (after loaded.now journal.now) flight }
    ensures over { IsOver (after loaded.now (journal.now ++ more.now)) flight }
    ensures fate { fate (journal.now ++ more.now) (Some flight) ≡ fate journal.now (Some flight) }
{}
