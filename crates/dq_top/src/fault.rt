use dq_base::{Limit, Text};
use dq_extract::LoadFault;
use dq_script::ScriptFault;

/// What is told of a run that isn't whole.
#[derive(Debug, Drop)]
pub enum Fault {
    /// The words aren't those of the command.
    Usage,
    /// The file of that name couldn't be read.
    Read(Text),
    /// The file of that name is no script.
    Script(Text, ScriptFault),
    /// The file of that name has no rows of its extract.
    File(Text, LoadFault),
    /// The report couldn't be written whole.
    Write,
    /// Memory was wanting.
    Memory,
    /// A limit is passed, by that value.
    Limit(Limit, u64),
}
