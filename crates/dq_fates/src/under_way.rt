ghost use Rattle.std.specs.List.{list_any};
ghost use Rattle.std.specs.Prelude.{◌≡◌, All, false, true};
ghost use Rattle.dq_fates.specs.Ends.{GaveFew};
ghost use Rattle.dq_machine.specs.Machine.{after, legal};
ghost use Rattle.dq_machine.specs.Owning.{falls_wanting};
ghost use Rattle.dq_machine.specs.State.{work_of};

use dq_extract::Loaded;
use dq_journal::Entry;

/// No flight that a lane still has to bring has fallen as memory was wanting. The body is empty: the clause is the law.
pub fn own_flights_have_not_fallen(loaded: &Loaded, journal: &[Entry], lane: u32)
    requires legal { legal loaded.now journal.now ≡ true }
    ensures { All (λ n. list_any (falls_wanting n) journal.now ≡ false) (work_of (after loaded.now journal.now) lane).own }
{}

/// A lane that gave its link back still has the flight for which it had it, and that flight lost one link before at most. The body
/// is empty: the clause is the law.
pub fn given_flights_lost_few(loaded: &Loaded, journal: &[Entry], lane: u32)
    requires legal { legal loaded.now journal.now ≡ true }
    ensures { GaveFew journal.now (work_of (after loaded.now journal.now) lane).phase (work_of (after loaded.now journal.now) lane).own }
{}
