ghost use Rattle.std.specs.Prelude.{◌≡◌, [], ◌∷◌, ◌++◌, true};
ghost use Rattle.dq_laws.specs.Room.{OwesAfter, owed};
ghost use Rattle.dq_machine.specs.Machine.{after, legal};

use dq_extract::Loaded;
use dq_journal::Entry;

/// What was started needs at most as many entries as `owed` tells: each entry but a publication or an admission is one of them, a
/// publication leaves them as they were, and an admission adds six at most for each remote query of its batch. So a journal with
/// that much room takes every entry until the next publication or admission. The body is empty: the clause is the law.
pub fn owed_room_lasts(loaded: &Loaded, journal: &[Entry], entry: &Entry)
    requires legal { legal loaded.now (journal.now ++ entry.now ∷ []) ≡ true }
    ensures { OwesAfter entry.now (owed (after loaded.now journal.now)) (owed (after loaded.now (journal.now ++ entry.now ∷ []))) }
{}
