ghost use Rattle.std.specs.Prelude.{◌≡◌, ◌++◌, IfOk, OnOk, OnErr, IfErr};
ghost use Rattle.dq_base.specs.Causes.{Rose};
ghost use Rattle.dq_outside.specs.Writes.{appended, WritesPrefix};
ghost use Rattle.dq_report.specs.Report.{counted_line, head_text, report_text};
ghost use Rattle.dq_report.specs.Faults.{CountsFaults, FaultOf};

use crate::entries::put_entries;
use crate::results::put_lanes;
use crate::texts::put_end;
use dq_base::{Memory, Text, put_labelled};
use dq_journal::{Journal, LaneResultsList};
use dq_outside::{Sink, SinkFault, write_all};
use std::alloc::Global;
use thiserror::Error;

/// Why a report wasn't written whole. Of what a prefix was written, where the sink tells it.
#[derive(Debug, Drop, Error)]
pub enum WriteFault {
    /// The sink failed.
    #[error("cannot write")]
    Failed,
    /// Memory was wanting.
    #[error("out of memory")]
    Memory,
}

fn fault_of(fault: SinkFault) -> WriteFault
    ensures { FaultOf fault result }
{
    match fault {
        SinkFault::Failed => WriteFault::Failed,
        SinkFault::Memory => WriteFault::Memory,
    }
}

fn put_counted_line(text: &mut Text, words: &[u8], number: u64) -> Result<(), Memory>
    ensures { OnOk result (text.new ≡ text.old ++ counted_line words.now number) }
{
    put_labelled(text, words, number)?;
    put_end(text)
}

fn put_head(text: &mut Text, lanes: u64, entries: u64) -> Result<(), Memory>
    ensures { OnOk result (text.new ≡ text.old ++ head_text lanes entries) }
{
    text.append(b"report 1\n")?;
    put_counted_line(text, b"lanes ", lanes)?;
    put_counted_line(text, b"entries ", entries)?;
    Ok(())
}

/// The report's text.
fn text_of(alloc: Global, journal: &Journal, results: &LaneResultsList) -> Result<Text, Memory>
    ensures { IfOk result (λ text. text ≡ report_text journal.now.entries results.now) }
{
    let mut text = Text::new(alloc);
    put_head(&mut text, results.len(), journal.len())?;
    put_entries(&mut text, journal.as_slice())?;
    put_lanes(&mut text, results.as_slice())?;
    Ok(text)
}

/// Writes the report on a journal and the lanes' results.
///
/// The text is made whole and then written in pieces as large as the sink takes them, so a want of memory writes nothing.
/// After `Failed` a prefix of the text was written. The cost is that of the text.
pub fn write<S: Sink>(
    alloc: Global,
    journal: &Journal,
    results: &LaneResultsList,
    sink: &mut S,
) -> Result<(), WriteFault>
    ensures ok { OnOk result (S.written sink.new ≡ appended (S.written sink.old) (report_text journal.now.entries results.now)) }
    ensures err { OnErr result (WritesPrefix (S.written sink.old) (S.written sink.new) (report_text journal.now.entries results.now)) }
    ensures cause { CountsFaults (S.faults sink.old) (S.faults sink.new) result }
{
    let text = match text_of(alloc, journal, results) {
        Ok(text) => text,
        Err(Memory) => return Err(WriteFault::Memory),
    };
    match write_all(sink, text.bytes()) {
        Ok(()) => Ok(()),
        Err(fault) => Err(fault_of(fault)),
    }
}
