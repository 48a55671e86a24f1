ghost use Rattle.std.specs.Prelude.{◌≡◌, ◌≤◌, ◌+◌, ◌-◌, ◌++◌, length, take};
ghost use Rattle.dq_journal.specs.Standing.{stand};
ghost use Rattle.dq_machine.specs.Machine.{after};
ghost use Rattle.dq_machine.specs.Publishing.{rows_at, stamp_in};

use dq_extract::Loaded;
use dq_journal::Entry;

/// The stamp that a source has before a place of a journal leads to the rows that stand there, also once the whole journal has come.
/// This holds of every journal. The body is empty: the clause is the law.
pub fn stamps_lead_to_rows(loaded: &Loaded, journal: &[Entry], place: u64, source: u32)
    ensures { rows_at (after loaded.now journal.now).versions (stamp_in (after loaded.now (take (place - 1) journal.now)).versions source)
        ≡ stand loaded.now journal.now place source }
{}

/// Entries that come later leave the rows that stand at a place of the journal, or behind it, as they were. This holds of every
/// journal. The body is empty: the clause is the law.
pub fn later_rows_stand(loaded: &Loaded, journal: &[Entry], more: &[Entry], place: u64, source: u32)
    requires { place ≤ length journal.now + 1 }
    ensures { stand loaded.now (journal.now ++ more.now) place source ≡ stand loaded.now journal.now place source }
{}
