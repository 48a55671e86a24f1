ghost use Rattle.std.specs.Prelude.{◌≡◌, ◌++◌, ◌≤◌, length, true};
ghost use Rattle.dq_laws.specs.Stamps.{AreStamped};
ghost use Rattle.dq_machine.specs.Machine.{after, legal};
ghost use Rattle.dq_machine.specs.Publishing.{rows_at};

use dq_extract::Loaded;
use dq_journal::Entry;

/// The stamp of a flight, of a join and of an answer in a cache is at most the number of publications so far. The body is empty: the
/// clause is the law.
pub fn stamps_are_published(loaded: &Loaded, journal: &[Entry])
    requires legal { legal loaded.now journal.now ≡ true }
    ensures { AreStamped (after loaded.now journal.now) }
{}

/// Entries that come later leave the rows of each stamp that there was as they were. This holds of every journal. The body is empty:
/// the clause is the law.
pub fn published_rows_stay(loaded: &Loaded, journal: &[Entry], more: &[Entry], stamp: u64)
    requires { stamp ≤ length (after loaded.now journal.now).versions }
    ensures { rows_at (after loaded.now (journal.now ++ more.now)).versions stamp ≡ rows_at (after loaded.now journal.now).versions stamp }
{}
