ghost use Rattle.std.specs.Prelude.{◌≡◌, length, true};
ghost use Rattle.dq_laws.specs.Counts.{AreCounted};
ghost use Rattle.dq_machine.specs.Machine.{after, legal};

use dq_extract::Loaded;
use dq_journal::Entry;

/// A journal's length bounds what it counts: publications and links are at most as many as its entries, and so are the runs of each
/// link that is idle or that a lane has, which was called at most 34 times an entry. Links are numbered from 1. The body is empty:
/// the clause is the law.
pub fn counts_are_few(loaded: &Loaded, journal: &[Entry])
    requires legal { legal loaded.now journal.now ≡ true }
    ensures { AreCounted (length journal.now) (after loaded.now journal.now) }
{}
