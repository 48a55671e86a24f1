ghost use Rattle.std.specs.Prelude.{◌≡◌, ◌≤◌, Option, List, ℕ, IfSome};
ghost use Rattle.dq_outside.specs.Reads.{Files, AnswersAsTold, NamesLastFault, CountsFaults, OwesBytes};

use dq_base::{Bytes, Text};
use std::alloc::Global;

/// Why a folder didn't give a file.
#[derive(Clone, Copy, Debug, PartialEq, Eq)]
pub enum FolderFault {
    /// The file isn't there, or couldn't be read.
    Failed,
    /// It is longer than the room that was given.
    TooLong,
    /// Memory was wanting.
    Memory,
}

/// A folder whose files are read whole, by name.
pub trait Folder {
    /// What it holds by name, where it tells that.
    ghost files: { Self → Option Files };

    /// The name that was asked for at its last fault, if there was one and it tells that.
    ghost last_fault: { Self → Option (List ℕ) };

    /// How often it has failed. The count stands still at the last value of u64.
    ghost faults: { Self → ℕ };

    /// How many bytes it has taken. The count stands still at the last value of u64.
    ghost taken: { Self → ℕ };

    /// The bytes of the file of that name, which may be at most `room`, in the time of reading `room` and one bytes.
    ///
    /// A name that isn't held is `Failed`, a file longer than `room` is `TooLong`. No answer changes what is held.
    fn read(&mut self, alloc: Global, name: &Text, room: u64) -> Result<Bytes, FolderFault>
        ensures kept { files self.new ≡ files self.old }
        ensures told { IfSome (files self.old) (λ held. AnswersAsTold (held name.now) room result) }
        ensures cause { CountsFaults (faults self.old) (faults self.new) result }
        ensures last { NamesLastFault name.now (last_fault self.old) (last_fault self.new) result }
        ensures taken { taken self.old ≤ taken self.new }
        ensures bytes { OwesBytes room (taken self.old) (taken self.new) result };
}
