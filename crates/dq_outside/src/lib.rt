//! What the program meets of the outside: a folder whose files are read, a sink to which text is written, and a gate before
//! each statement that is run.
//!
//! The rest of the program is written over the traits `Folder` and `Sink`, whose clauses say what an honest outside does
//! and how a fault shows: each answer that blames the outside comes with a count that rose in that call, so no code can
//! blame it for a fault that it didn't have. `DiskFolder` and `OutSink` are the real ones and tell nothing of what they
//! hold. Those in memory tell everything: `MemFolder` and `MemSink` fail in the calls that they are told to, `SureFolder`
//! and `SureSink` never do. `PassGate` holds no lane.
//!
//! The layer above may rely on this: what a folder holds never changes, an answer is no longer than its room, counts never
//! fall, and `write_all` writes the whole text or a prefix of it. One call: `write_all(&mut sink, b"text\n")`.
#![tactic(auto)]

mod disk;
mod files;
mod folder;
mod gate;
mod memory_folder;
mod memory_sink;
mod sink;

pub use disk::{DiskFolder, OutSink};
pub use files::{NamedFile, NamedFiles};
pub use folder::{Folder, FolderFault};
pub use gate::{Gate, PassGate};
pub use memory_folder::{MemFolder, SureFolder};
pub use memory_sink::{MemSink, SureSink};
pub use sink::{Sink, SinkFault, write_all};
