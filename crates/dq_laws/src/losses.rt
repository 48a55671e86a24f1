ghost use Rattle.std.specs.Prelude.{◌≡◌, ◌≤◌, true};
ghost use Rattle.dq_machine.specs.Losses.{LostFew};
ghost use Rattle.dq_machine.specs.Machine.{after, legal};
ghost use Rattle.dq_machine.specs.Owning.{losses_of};
ghost use Rattle.dq_machine.specs.State.{work_of};

use dq_extract::Loaded;
use dq_journal::Entry;

/// A flight that a lane brings has lost two links at most, and one at most where it has another. The body is empty: the clause is
/// the law.
pub fn losses_are_few(loaded: &Loaded, journal: &[Entry], lane: u32)
    requires legal { legal loaded.now journal.now ≡ true }
    ensures { LostFew (work_of (after loaded.now journal.now) lane).phase }
{}

/// No flight loses more than two links: a journal has two losses of it at most. The body is empty: the clause is the law.
pub fn flights_lose_few(loaded: &Loaded, journal: &[Entry], flight: u64)
    requires legal { legal loaded.now journal.now ≡ true }
    ensures { losses_of journal.now flight ≤ 2 }
{}
