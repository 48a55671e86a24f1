ghost use Rattle.std.specs.Fmt.{decimal};
ghost use Rattle.std.specs.Prelude.{◌≡◌, ◌++◌, IfOk, codes};
ghost use Rattle.dq_top.specs.Telling.{fault_line, fault_status, file_line, file_status, limit_line, limit_name, script_line, script_status};

use crate::fault::Fault;
use dq_base::{Limit, MOST_CELLS, Memory, Text, put_labelled, put_number};
use dq_extract::LoadFault;
use dq_script::ScriptFault;
use std::alloc::Global;

/// What a limit is called.
fn limit_name(limit: Limit) -> &'static [u8]
    ensures { result.now ≡ limit_name limit }
{
    match limit {
        Limit::ScriptBytes => b"script bytes",
        Limit::Extracts => b"extracts",
        Limit::Columns => b"columns",
        Limit::Lanes => b"lanes",
        Limit::Steps => b"steps",
        Limit::Zones => b"zones",
        Limit::AllZones => b"all zones",
        Limit::Turns => b"turns",
        Limit::Faults => b"faults",
        Limit::Capacity => b"capacity",
        Limit::SessionItems => b"session items",
        Limit::FileBytes => b"file bytes",
        Limit::AllBytes => b"all bytes",
        Limit::Cells => b"cells",
        Limit::ReportBytes => b"report bytes",
    }
}

/// The line of a limit that is passed.
fn tell_limit(alloc: Global, limit: Limit, value: u64) -> Result<Text, Memory>
    ensures { IfOk result (λ line. line ≡ limit_line limit value) }
{
    let mut line = Text::copy_of(alloc, b"dashboards: limit ")?;
    line.append(limit_name(limit))?;
    line.append(b" ")?;
    put_number(&mut line, value)?;
    Ok(line)
}

/// The line of a file, with what is the matter with it.
fn tell_file(alloc: Global, name: &Text, what: &[u8]) -> Result<Text, Memory>
    ensures { IfOk result (λ line. line ≡ codes "dashboards: " ++ name.now ++ what.now) }
{
    let mut line = Text::copy_of(alloc, b"dashboards: ")?;
    line.append(name.bytes())?;
    line.append(what)?;
    Ok(line)
}

/// The line of a file, with what is the matter at a path of it.
fn tell_path(alloc: Global, name: &Text, what: &[u8], path: &Text) -> Result<Text, Memory>
    ensures { IfOk result (λ line. line ≡ codes "dashboards: " ++ name.now ++ what.now ++ path.now) }
{
    let mut line = tell_file(alloc, name, what)?;
    line.append(path.bytes())?;
    Ok(line)
}

/// The line of a file, with what is the matter in a row of it.
fn tell_row(alloc: Global, name: &Text, what: &[u8], row: u64) -> Result<Text, Memory>
    ensures { IfOk result (λ line. line ≡ codes "dashboards: " ++ name.now ++ what.now ++ decimal row) }
{
    let mut line = tell_file(alloc, name, what)?;
    put_number(&mut line, row)?;
    Ok(line)
}

/// The line of a file, with what is the matter in a column of a row of it.
fn tell_cell(alloc: Global, name: &Text, what: &[u8], row: u64, column: u64) -> Result<Text, Memory>
    ensures { IfOk result (λ line. line ≡ codes "dashboards: " ++ name.now ++ what.now ++ decimal row ++ (codes " " ++ decimal column)) }
{
    let mut line = tell_row(alloc, name, what, row)?;
    put_labelled(&mut line, b" ", column)?;
    Ok(line)
}

/// The line of want of memory.
fn tell_memory(alloc: Global) -> Result<Text, Memory>
    ensures { IfOk result (λ line. line ≡ codes "dashboards: out of memory") }
{
    Text::copy_of(alloc, b"dashboards: out of memory")
}

/// The line of a file that is no script.
fn tell_script(alloc: Global, name: &Text, fault: &ScriptFault) -> Result<Text, Memory>
    ensures { IfOk result (λ line. line ≡ script_line name.now fault.now) }
{
    match fault {
        ScriptFault::NotJson => tell_file(alloc, name, b": not json"),
        ScriptFault::Shape(path) => tell_path(alloc, name, b": shape ", path),
        ScriptFault::Limit(limit, value) => tell_limit(alloc, *limit, *value),
        ScriptFault::UnknownExtract(path) => tell_path(alloc, name, b": unknown extract ", path),
        ScriptFault::UnknownLane(path) => tell_path(alloc, name, b": unknown lane ", path),
        ScriptFault::Memory => tell_memory(alloc),
    }
}

/// The line of a file that has no rows of its extract.
fn tell_rows(alloc: Global, name: &Text, fault: LoadFault) -> Result<Text, Memory>
    ensures { IfOk result (λ line. line ≡ file_line name.now fault) }
{
    match fault {
        LoadFault::Header => tell_file(alloc, name, b": header"),
        LoadFault::Width(row) => tell_row(alloc, name, b": width ", row),
        LoadFault::Number(row, column) => tell_cell(alloc, name, b": number ", row, column),
        LoadFault::NotText(row, column) => tell_cell(alloc, name, b": not text ", row, column),
        LoadFault::TooManyCells => tell_limit(alloc, Limit::Cells, MOST_CELLS),
        LoadFault::Memory => tell_memory(alloc),
    }
}

/// The line that tells a fault, without a line end. A file's name stands in it as its bytes are. A limit that is passed and
/// want of memory are told alike, wherever they stand.
pub fn tell(alloc: Global, fault: &Fault) -> Result<Text, Memory>
    ensures { IfOk result (λ line. line ≡ fault_line fault.now) }
{
    match fault {
        Fault::Usage => Text::copy_of(alloc, b"dashboards: usage"),
        Fault::Read(name) => {
            let mut line = Text::copy_of(alloc, b"dashboards: cannot read ")?;
            line.append(name.bytes())?;
            Ok(line)
        }
        Fault::Script(name, script) => tell_script(alloc, name, script),
        Fault::File(name, load) => tell_rows(alloc, name, *load),
        Fault::Write => Text::copy_of(alloc, b"dashboards: cannot write"),
        Fault::Memory => tell_memory(alloc),
        Fault::Limit(limit, value) => tell_limit(alloc, *limit, *value),
    }
}

fn script_status(fault: &ScriptFault) -> u8
    ensures { result ≡ script_status fault.now }
{
    match fault {
        ScriptFault::Limit(_, _) => 7,
        ScriptFault::Memory => 6,
        _ => 4,
    }
}

fn file_status(fault: LoadFault) -> u8
    ensures { result ≡ file_status fault }
{
    match fault {
        LoadFault::TooManyCells => 7,
        LoadFault::Memory => 6,
        _ => 4,
    }
}

impl Fault {
    /// The status with which a program ends that tells this.
    pub fn status(&self) -> u8
        ensures { result ≡ fault_status self.now }
    {
        match self {
            Fault::Usage => 2,
            Fault::Read(_) => 3,
            Fault::Script(_, script) => script_status(script),
            Fault::File(_, load) => file_status(*load),
            Fault::Write => 5,
            Fault::Memory => 6,
            Fault::Limit(_, _) => 7,
        }
    }
}
