ghost use Rattle.std.specs.Prelude.{◌≡◌, ◌≤◌, length, true};
ghost use Rattle.dq_laws.specs.Counts.{AreCounted};
ghost use Rattle.dq_laws.specs.Lengths.{entries_for, most_entries_of_journal};
ghost use Rattle.dq_machine.specs.Machine.{after, legal};

use dq_extract::Loaded;
use dq_journal::Entry;

/// A legal journal has no more entries than a step each, six for each zone of the batches and an end for each lane: 655,424 at most,
/// whatever the script. The clauses are the law; the body only brings to the proof that the script is within its limits.
pub fn journals_are_short(loaded: &Loaded, journal: &[Entry])
    requires legal { legal loaded.now journal.now ≡ true }
    ensures script { length journal.now ≤ entries_for loaded.now.script.lanes }
    ensures few { length journal.now ≤ most_entries_of_journal }
{
    let _script = loaded.script();
}

/// Publications, links, and the runs and calls of each link are few, whatever the journal: 655,424 at most, and of calls 34 times as
/// many, 22,284,416. The clause is the law; the body only brings to the proof that the script is within its limits.
pub fn calls_are_few(loaded: &Loaded, journal: &[Entry])
    requires legal { legal loaded.now journal.now ≡ true }
    ensures { AreCounted most_entries_of_journal (after loaded.now journal.now) }
{
    let _script = loaded.script();
}
