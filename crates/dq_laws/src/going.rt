ghost use Rattle.std.specs.Prelude.{◌≡◌, length, false, true};
ghost use Rattle.dq_base.specs.Scripts.{is_lane};
ghost use Rattle.dq_laws.specs.Going.{SomeGoesOn};
ghost use Rattle.dq_machine.specs.Machine.{after, legal};
ghost use Rattle.dq_machine.specs.State.{work_of};

use dq_extract::Loaded;
use dq_journal::Entry;

/// As long as some lane of the script hasn't ended, there is one that hasn't and that doesn't wait: no legal journal leads where
/// each lane waits for another one's flight. The body is empty: the clause is the law.
pub fn some_lane_goes_on(loaded: &Loaded, journal: &[Entry], lane: u32)
    requires legal { legal loaded.now journal.now ≡ true }
    requires lane { is_lane (length loaded.now.script.lanes) lane ≡ true }
    requires unended { (work_of (after loaded.now journal.now) lane).ended ≡ false }
    ensures { SomeGoesOn loaded.now (after loaded.now journal.now) }
{}
