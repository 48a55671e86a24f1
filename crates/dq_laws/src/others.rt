ghost use Rattle.std.specs.Prelude.{◌≡◌, ◌≢◌, ◌<◌, ◌++◌, [], ◌∷◌, true};
ghost use Rattle.dq_journal.specs.Journals.{lane_of};
ghost use Rattle.dq_journal.specs.Steps.{entries_of};
ghost use Rattle.dq_laws.specs.Flying.{OwnStay};
ghost use Rattle.dq_machine.specs.Machine.{after, legal};
ghost use Rattle.dq_machine.specs.State.{work_of};

use dq_extract::Loaded;
use dq_journal::Entry;

/// An entry of another lane leaves a lane's work as it was, and each flight that the lane has to bring but for the number of those
/// that wait for it. The body is empty: the clauses are the law.
pub fn other_lanes_stay(loaded: &Loaded, journal: &[Entry], entry: &Entry, lane: u32)
    requires legal { legal loaded.now (journal.now ++ entry.now ∷ []) ≡ true }
    requires lane { 0 < lane }
    requires other { lane_of entry.now ≢ lane }
    ensures work { work_of (after loaded.now (journal.now ++ entry.now ∷ [])) lane ≡ work_of (after loaded.now journal.now) lane }
    ensures flights { OwnStay (after loaded.now journal.now) (after loaded.now (journal.now ++ entry.now ∷ [])) lane }
{}

/// So do all entries that come later, as long as none of them is the lane's. The body is empty: the clauses are the law.
pub fn idle_lanes_stay(loaded: &Loaded, journal: &[Entry], more: &[Entry], lane: u32)
    requires legal { legal loaded.now (journal.now ++ more.now) ≡ true }
    requires lane { 0 < lane }
    requires idle { entries_of lane more.now ≡ [] }
    ensures work { work_of (after loaded.now (journal.now ++ more.now)) lane ≡ work_of (after loaded.now journal.now) lane }
    ensures flights { OwnStay (after loaded.now journal.now) (after loaded.now (journal.now ++ more.now)) lane }
{}
