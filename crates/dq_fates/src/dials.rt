ghost use Rattle.std.specs.Prelude.{◌≡◌, ◌≤◌, ◌++◌, [], length};
ghost use Rattle.dq_fates.specs.Dials.{lost_dials};
ghost use Rattle.dq_journal.specs.Steps.{entries_of};

use dq_journal::Entry;

/// No more dials fail than there are entries. The body is empty: the clause is the law.
pub fn dials_are_few(journal: &[Entry], lane: u32)
    ensures { lost_dials lane journal.now ≤ length journal.now }
{}

/// Entries of other lanes are no failed dials of this one. The body is empty: the clause is the law.
pub fn idle_lanes_lose_no_dials(journal: &[Entry], more: &[Entry], lane: u32)
    requires idle { entries_of lane more.now ≡ [] }
    ensures { lost_dials lane (journal.now ++ more.now) ≡ lost_dials lane journal.now }
{}
