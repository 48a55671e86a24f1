ghost use Rattle.std.specs.Prelude.{◌≡◌, None, option_map};

use crate::folder::{Folder, FolderFault};
use crate::sink::{Sink, SinkFault};
use dq_base::{Bytes, Text};
use std::alloc::Global;
use std::io::{ErrorKind, Read};
use std::rt::Files;
use std::snapshot::Snapshot;
use std::{fs, io};

/// The files of the folder in which the program runs. A name is a path from there, in UTF-8.
///
/// It tells nothing of what it holds. A file that isn't there, a folder, a file that may not be read and a name that isn't
/// UTF-8 are `Failed`.
#[derive(Drop)]
pub struct DiskFolder<'a, R: Files> {
    rt: &'a R,
    faults: u64,
    taken: u64,
    last_fault: Option<Snapshot<Text>>,
}

impl<'a, R: Files> DiskFolder<'a, R> {
    /// The folder in which the program runs, of which nothing was read.
    pub fn new(rt: &'a R) -> Self
        ensures faults { ⟦<DiskFolder<'a, R> as Folder>⟧.faults result ≡ 0 }
        ensures taken { ⟦<DiskFolder<'a, R> as Folder>⟧.taken result ≡ 0 }
        ensures last { ⟦<DiskFolder<'a, R> as Folder>⟧.last_fault result ≡ None }
    {
        DiskFolder {
            rt,
            faults: 0,
            taken: 0,
            last_fault: None,
        }
    }
}

// The first bytes of a file, at most so many. No clause can say what a file gives.
fn first_bytes<R: Files>(rt: &R, alloc: Global, name: &[u8], most: u64) -> io::Result<Vec<u8>> {
    let Ok(path) = str::from_utf8(name) else {
        return Err(io::Error::from(ErrorKind::InvalidInput));
    };
    let file = fs::open(rt, path)?;
    let mut bytes = Vec::new(alloc);
    file.take(most).read_to_end(&mut bytes)?;
    Ok(bytes)
}

impl<R: Files> Folder for DiskFolder<'_, R> {
    ghost files = { λ s. None };

    ghost last_fault = { λ s. option_map (λ n. n.value) s.last_fault };

    ghost faults = { λ s. s.faults };

    ghost taken = { λ s. s.taken };

    fn read(&mut self, alloc: Global, name: &Text, room: u64) -> Result<Bytes, FolderFault> {
        match first_bytes(self.rt, alloc, name.bytes(), room.saturating_add(1)) {
            Ok(bytes) => {
                let count = bytes.len() as u64;
                self.taken = self.taken.saturating_add(count);
                if room < count {
                    Err(FolderFault::TooLong)
                } else {
                    Ok(Text::from_vec(bytes))
                }
            }
            Err(e) => {
                if e.kind() == ErrorKind::OutOfMemory {
                    return Err(FolderFault::Memory);
                }
                self.faults = self.faults.saturating_add(1);
                self.last_fault = Some(Snapshot::of(name));
                Err(FolderFault::Failed)
            }
        }
    }
}

/// Standard output, to which pieces go as large as they come. It tells nothing of what was written.
///
/// An error is `Failed`, and so is a write that took nothing of a piece that isn't empty.
#[derive(Drop)]
pub struct OutSink<'a, P: Print> {
    rt: &'a P,
    faults: u64,
}

impl<'a, P: Print> OutSink<'a, P> {
    /// Standard output, to which nothing was written.
    pub fn new(rt: &'a P) -> Self
        ensures { ⟦<OutSink<'a, P> as Sink>⟧.faults result ≡ 0 }
    {
        OutSink { rt, faults: 0 }
    }
}

impl<P: Print> Sink for OutSink<'_, P> {
    ghost written = { λ s. None };

    ghost faults = { λ s. s.faults };

    fn write(&mut self, piece: &[u8]) -> Result<usize, SinkFault> {
        if let Ok(count) = self.rt.write_some(piece) {
            if 0 < count || piece.is_empty() {
                return Ok(count);
            }
        }
        self.faults = self.faults.saturating_add(1);
        Err(SinkFault::Failed)
    }
}
