ghost use Rattle.std.specs.Prelude.{◌≡◌, ◌≤◌, Some, None, option_map};
ghost use Rattle.dq_outside.specs.Fails.{ReadFailsWhere, is_listed, next_call, read_fails};
ghost use Rattle.dq_outside.specs.Files.{file_named, sure_file};
ghost use Rattle.dq_outside.specs.InMemory.{failing_reads, given_files, held_files, reads_made};
ghost use Rattle.dq_outside.specs.Reads.{AnswersAsTold, CountsEachByte, CountsEachFault, CountsFaults, NamesLastFault, OwesBytes, TellsLastFault};

use crate::files::{NamedFiles, find_file};
use crate::folder::{Folder, FolderFault};
use dq_base::{Bytes, Numbers64, Text};
use std::alloc::Global;
use std::snapshot::Snapshot;

/// Files in memory, and the numbers of the calls of `read` that fail, from 1.
///
/// A read fails in those calls and where the name isn't held, and nowhere else. A file that is longer than the room is
/// `TooLong` in those calls too.
#[derive(Drop)]
pub struct MemFolder {
    files: NamedFiles,
    fails: Numbers64,
    calls: u64,
    faults: u64,
    taken: u64,
    last_fault: Option<Snapshot<Text>>,
}

impl MemFolder {
    /// A folder that holds these files, and fails in these calls, numbered from 1. Of a name the first file counts.
    pub fn new(files: NamedFiles, fails: Numbers64) -> MemFolder
        ensures files { ⟦<MemFolder as Folder>⟧.files result ≡ Some (file_named files) }
        ensures given { given_files result ≡ files }
        ensures fails { failing_reads result ≡ fails }
        ensures calls { reads_made result ≡ 0 }
        ensures faults { ⟦<MemFolder as Folder>⟧.faults result ≡ 0 }
        ensures taken { ⟦<MemFolder as Folder>⟧.taken result ≡ 0 }
        ensures last { ⟦<MemFolder as Folder>⟧.last_fault result ≡ None }
    {
        MemFolder {
            files,
            fails,
            calls: 0,
            faults: 0,
            taken: 0,
            last_fault: None,
        }
    }
}

/// Whether a call is among those that fail.
pub(crate) fn listed(fails: &Numbers64, call: u64) -> bool
    ensures { result ≡ is_listed fails.now call }
{
    fails.as_slice().iter().any(|n| call == *n)
}

impl Folder for MemFolder {
    ghost files = { λ s. Some (file_named s.files) };

    ghost last_fault = { λ s. option_map (λ n. n.value) s.last_fault };

    ghost faults = { λ s. s.faults };

    ghost taken = { λ s. s.taken };

    fn read(&mut self, alloc: Global, name: &Text, room: u64) -> Result<Bytes, FolderFault>
        ensures kept { ⟦<MemFolder as Folder>⟧.files self.new ≡ ⟦<MemFolder as Folder>⟧.files self.old }
        ensures told { AnswersAsTold (file_named (given_files self.old) name.now) room result }
        ensures cause { CountsFaults (⟦<MemFolder as Folder>⟧.faults self.old) (⟦<MemFolder as Folder>⟧.faults self.new) result }
        ensures last { NamesLastFault name.now (⟦<MemFolder as Folder>⟧.last_fault self.old) (⟦<MemFolder as Folder>⟧.last_fault self.new) result }
        ensures taken { ⟦<MemFolder as Folder>⟧.taken self.old ≤ ⟦<MemFolder as Folder>⟧.taken self.new }
        ensures bytes { OwesBytes room (⟦<MemFolder as Folder>⟧.taken self.old) (⟦<MemFolder as Folder>⟧.taken self.new) result }

        // It fails in the listed calls and where the name isn't held, and nowhere else.
        ensures alone { ReadFailsWhere (read_fails (is_listed (failing_reads self.old) (reads_made self.new)) (file_named (given_files self.old) name.now)) result }
        ensures counted { reads_made self.new ≡ next_call (reads_made self.old) }
        ensures same_files { given_files self.new ≡ given_files self.old }
        ensures same_fails { failing_reads self.new ≡ failing_reads self.old }

        // Its counts and the last fault's name are exact.
        ensures named { TellsLastFault name.now (⟦<MemFolder as Folder>⟧.last_fault self.old) (⟦<MemFolder as Folder>⟧.last_fault self.new) result }
        ensures faults { CountsEachFault (⟦<MemFolder as Folder>⟧.faults self.old) (⟦<MemFolder as Folder>⟧.faults self.new) result }
        ensures exactly { CountsEachByte room (⟦<MemFolder as Folder>⟧.taken self.old) (⟦<MemFolder as Folder>⟧.taken self.new) result }
    {
        self.calls = self.calls.saturating_add(1);
        let fails = listed(&self.fails, self.calls);
        if let Some(bytes) = find_file(&self.files, name.bytes()) {
            let count = bytes.len() as u64;
            if room < count {
                self.taken = self.taken.saturating_add(room + 1);
                return Err(FolderFault::TooLong);
            }
            if !fails {
                let Ok(copy) = Text::copy_of(alloc, bytes) else {
                    return Err(FolderFault::Memory);
                };
                self.taken = self.taken.saturating_add(count);
                return Ok(copy);
            }
        }
        self.faults = self.faults.saturating_add(1);
        self.last_fault = Some(Snapshot::of(name));
        Err(FolderFault::Failed)
    }
}

/// Files in memory that never fail: under each name that wasn't given it holds an empty file.
#[derive(Drop)]
pub struct SureFolder {
    files: NamedFiles,
    taken: u64,
}

impl SureFolder {
    /// A folder that holds these files, and under every other name an empty one. Of a name the first file counts.
    pub fn new(files: NamedFiles) -> SureFolder
        ensures files { ⟦<SureFolder as Folder>⟧.files result ≡ Some (sure_file files) }
        ensures held { held_files result ≡ files }
        ensures faults { ⟦<SureFolder as Folder>⟧.faults result ≡ 0 }
        ensures taken { ⟦<SureFolder as Folder>⟧.taken result ≡ 0 }
    {
        SureFolder { files, taken: 0 }
    }
}

impl Folder for SureFolder {
    ghost use Rattle.std.specs.Prelude.{◌≡◌, ◌≢◌, ◌≤◌, Some, None, Err};
    ghost use Rattle.dq_outside.specs.Files.{sure_file};
    ghost use Rattle.dq_outside.specs.InMemory.{held_files};
    ghost use Rattle.dq_outside.specs.Reads.{AnswersAsTold, CountsEachByte, CountsFaults, NamesLastFault, OwesBytes};
    ghost use Rattle.dq_outside.specs.declared.folder.FolderFault.TheVariants as fault;

    ghost files = { λ s. Some (sure_file s.files) };

    ghost last_fault = { λ s. None };

    ghost faults = { λ s. 0 };

    ghost taken = { λ s. s.taken };

    fn read(&mut self, alloc: Global, name: &Text, room: u64) -> Result<Bytes, FolderFault>
        ensures kept { ⟦<SureFolder as Folder>⟧.files self.new ≡ ⟦<SureFolder as Folder>⟧.files self.old }
        ensures told { AnswersAsTold (sure_file (held_files self.old) name.now) room result }
        ensures cause { CountsFaults (⟦<SureFolder as Folder>⟧.faults self.old) (⟦<SureFolder as Folder>⟧.faults self.new) result }
        ensures last { NamesLastFault name.now (⟦<SureFolder as Folder>⟧.last_fault self.old) (⟦<SureFolder as Folder>⟧.last_fault self.new) result }
        ensures taken { ⟦<SureFolder as Folder>⟧.taken self.old ≤ ⟦<SureFolder as Folder>⟧.taken self.new }
        ensures bytes { OwesBytes room (⟦<SureFolder as Folder>⟧.taken self.old) (⟦<SureFolder as Folder>⟧.taken self.new) result }

        // It never fails, and its count of bytes taken is exact.
        ensures sure { result ≢ Err fault.Failed }
        ensures same_files { held_files self.new ≡ held_files self.old }
        ensures exactly { CountsEachByte room (⟦<SureFolder as Folder>⟧.taken self.old) (⟦<SureFolder as Folder>⟧.taken self.new) result }
    {
        let bytes = find_file(&self.files, name.bytes()).unwrap_or(&[]);
        let length = bytes.len() as u64;
        if room < length {
            self.taken = self.taken.saturating_add(room + 1);
            return Err(FolderFault::TooLong);
        }
        let Ok(copy) = Text::copy_of(alloc, bytes) else {
            return Err(FolderFault::Memory);
        };
        self.taken = self.taken.saturating_add(length);
        Ok(copy)
    }
}
