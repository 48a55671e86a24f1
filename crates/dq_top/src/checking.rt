ghost use Rattle.std.specs.Arc.{arc_value};
ghost use Rattle.std.specs.Prelude.{◌≡◌, ◌↔◌, ◌≤◌, ◌++◌, IfErr, IfOk, IfSome, OnOk, Some, None};
ghost use Rattle.dq_base.specs.Causes.{Rose};
ghost use Rattle.dq_check.specs.Reports.{Judged};
ghost use Rattle.dq_outside.specs.Reads.{Files};
ghost use Rattle.dq_top.specs.Checking.{AnswersCheck, AnswersInputs, LoadsTo, InputsOf, IsCheckServed, IsChecked, IsOfFiles, Names, WritesVerdict, check_names, check_reads, checked_status, inputs_of, entry_text, report_in, step_text, verdict_line, zone_text};
ghost use Rattle.dq_top.specs.Loading.{Loads};
ghost use Rattle.dq_top.specs.Outcomes.{AnswersLoad, IsOfLoading, IsOfPlay, IsUntouched, ReadCause, TakenCause, loaded_files};

use crate::fault::Fault;
use crate::loading::{load_script, unread};
use crate::words::find_names;
use dq_base::{Bytes, Limit, Memory, REPORT_BYTES, Text, Texts, put_labelled};
use dq_check::{Verdict, judge};
use dq_extract::Loaded;
use dq_outside::{Folder, FolderFault, Sink, SinkFault, write_all};
use std::alloc::Global;
use std::marker::Model;
use std::sync::Arc;

/// How the judging of a report ended.
///
/// The status is 0 where the verdict was written and the report is lawful, 1 where another verdict was written, and else that of
/// what is told. What was loaded and the verdict are there where the verdict was written, or its writing failed.
#[derive(Drop)]
pub struct Checked {
    pub status: u8,
    pub told: Option<Fault>,
    pub loaded: Option<Arc<Loaded>>,
    pub verdict: Option<Verdict>,
}

/// A report that wasn't judged.
fn unjudged(fault: Fault) -> Checked
    ensures told { result.told ≡ Some fault }
    ensures loaded { result.loaded ≡ None }
    ensures verdict { result.verdict ≡ None }
    ensures status { result.status ≡ checked_status (Some fault) None }
{
    Checked {
        status: fault.status(),
        told: Some(fault),
        loaded: None,
        verdict: None,
    }
}

/// The bytes of the report of that name.
fn read_report<F: Folder>(alloc: Global, name: &Text, folder: &mut F) -> Result<Bytes, Fault>
    ensures told { IfSome (F.files folder.old) (λ files. AnswersLoad (report_in name.now (files name.now)) (λ n. n ≡ name.now) result) }
    ensures later { F.faults folder.old ≤ F.faults folder.new }
    ensures cause { IfErr result (λ f. ReadCause (F.faults folder.old) (F.faults folder.new) (F.last_fault folder.new) (Some f)) }
    ensures kind { IfErr result IsOfLoading }
    ensures limit { IfErr result (λ f. TakenCause (F.taken folder.old) (F.taken folder.new) (Some f)) }
{
    match folder.read(alloc, name, REPORT_BYTES) {
        Ok(bytes) => Ok(bytes),
        Err(FolderFault::Failed) => Err(unread(alloc, name)),
        Err(FolderFault::TooLong) => Err(Fault::Limit(Limit::ReportBytes, REPORT_BYTES)),
        Err(FolderFault::Memory) => Err(Fault::Memory),
    }
}

/// What was loaded, and the bytes of a report on it.
#[derive(Drop)]
struct Inputs {
    loaded: Loaded,
    report: Bytes,
}

impl Model for Inputs {
    ghost use Rattle.dq_top.specs.Checking.{InputsOf};

    ghost Value = { InputsOf };

    ghost view = { λ i. record { loaded = i.loaded; report = i.report } };
}

/// Loads a script that may want faults, and its files, and then reads the report.
fn read_inputs<F: Folder>(
    alloc: Global,
    script: &Text,
    report: &Text,
    folder: &mut F,
) -> Result<Inputs, Fault>
    ensures told { IfSome (F.files folder.old) (λ files. AnswersInputs files (record { script = script.now; report = report.now }) result) }
    ensures later { F.faults folder.old ≤ F.faults folder.new }
    ensures cause { IfErr result (λ f. ReadCause (F.faults folder.old) (F.faults folder.new) (F.last_fault folder.new) (Some f)) }
    ensures kind { IfErr result IsOfLoading }
    ensures limit { IfErr result (λ f. TakenCause (F.taken folder.old) (F.taken folder.new) (Some f)) }
{
    let loaded = match load_script(alloc, script, folder) {
        Ok(loaded) => loaded,
        Err(fault) => return Err(fault),
    };
    match read_report(alloc, report, folder) {
        Ok(report) => Ok(Inputs { loaded, report }),
        Err(fault) => Err(fault),
    }
}

/// Puts the numbers of a lane and a step at the end.
fn put_step(line: &mut Text, lane: u32, step: u32) -> Result<(), Memory>
    ensures { OnOk result (line.new ≡ line.old ++ step_text lane step) }
{
    put_labelled(line, b"unlawful zone ", u64::from(lane))?;
    put_labelled(line, b" ", u64::from(step))?;
    Ok(())
}

/// Puts the number of a zone and the end of the line at the end.
fn put_zone(line: &mut Text, zone: u32) -> Result<(), Memory>
    ensures { OnOk result (line.new ≡ line.old ++ zone_text zone) }
{
    put_labelled(line, b" ", u64::from(zone))?;
    line.append(b"\n")
}

/// Puts the line of an entry at the end.
fn put_entry(line: &mut Text, place: u64) -> Result<(), Memory>
    ensures { OnOk result (line.new ≡ line.old ++ entry_text place) }
{
    put_labelled(line, b"unlawful entry ", place)?;
    line.append(b"\n")
}

/// The line that tells a verdict.
fn line_of(alloc: Global, verdict: Verdict) -> Result<Text, Memory>
    ensures { IfOk result (λ line. line ≡ verdict_line verdict) }
{
    let mut line = Text::new(alloc);
    match verdict {
        Verdict::Lawful => line.append(b"lawful\n")?,
        Verdict::NotReport => line.append(b"unlawful report\n")?,
        Verdict::Disorder => line.append(b"unlawful order\n")?,
        Verdict::Illegal(place) => put_entry(&mut line, place)?,
        Verdict::Wrong(lane, step, zone) => {
            put_step(&mut line, lane, step)?;
            put_zone(&mut line, zone)?;
        }
    }
    Ok(line)
}

/// The status of a verdict that was written.
fn status_of(verdict: Verdict) -> u8
    ensures { result ≡ checked_status None (Some verdict) }
{
    match verdict {
        Verdict::Lawful => 0,
        _ => 1,
    }
}

/// Writes a verdict.
fn tell_verdict<S: Sink>(
    alloc: Global,
    loaded: Arc<Loaded>,
    verdict: Verdict,
    sink: &mut S,
) -> Checked
    ensures status { result.status ≡ checked_status result.told result.verdict }
    ensures whole { IsChecked result.told (loaded_files result.loaded) result.verdict }
    ensures loaded { IfSome result.loaded (λ owner. arc_value owner ≡ arc_value loaded) }
    ensures verdict { IfSome result.verdict (λ v. v ≡ verdict) }
    ensures writes { WritesVerdict (λ v. v ≡ verdict) (S.written sink.old) (S.written sink.new) result.told result.verdict }
    ensures later { S.faults sink.old ≤ S.faults sink.new }
    ensures cause { result.told ≡ Some Fault.Write → Rose (S.faults sink.old) (S.faults sink.new) }
    ensures kind { IsOfPlay result.told }
{
    let Ok(line) = line_of(alloc, verdict) else {
        return unjudged(Fault::Memory);
    };
    match write_all(sink, line.bytes()) {
        Ok(()) => Checked {
            status: status_of(verdict),
            told: None,
            loaded: Some(loaded),
            verdict: Some(verdict),
        },
        Err(SinkFault::Failed) => Checked {
            status: Fault::Write.status(),
            told: Some(Fault::Write),
            loaded: Some(loaded),
            verdict: Some(verdict),
        },
        Err(SinkFault::Memory) => unjudged(Fault::Memory),
    }
}

/// Judges a report on what was loaded, and writes the verdict.
fn judge_loaded<S: Sink>(alloc: Global, inputs: Inputs, sink: &mut S) -> Checked
    ensures status { result.status ≡ checked_status result.told result.verdict }
    ensures whole { IsChecked result.told (loaded_files result.loaded) result.verdict }
    ensures loaded { IfSome result.loaded (λ owner. arc_value owner ≡ inputs.loaded) }
    ensures verdict { IfSome result.verdict (Judged inputs.loaded inputs.report) }
    ensures writes { WritesVerdict (Judged inputs.loaded inputs.report) (S.written sink.old) (S.written sink.new) result.told result.verdict }
    ensures later { S.faults sink.old ≤ S.faults sink.new }
    ensures cause { result.told ≡ Some Fault.Write → Rose (S.faults sink.old) (S.faults sink.new) }
    ensures kind { IsOfPlay result.told }
{
    let Inputs { loaded, report } = inputs;
    let Ok(owner) = Arc::new(alloc, loaded) else {
        return unjudged(Fault::Memory);
    };
    let Ok(verdict) = judge(alloc, &owner, report.bytes()) else {
        return unjudged(Fault::Memory);
    };
    tell_verdict(alloc, owner, verdict, sink)
}

/// Judges a report on the script that the words name, whichever run wrote it, and writes the verdict as one line to a sink.
///
/// The words are `check`, the script's name and the report's. It always returns. A report may have 256 MiB. The cost is linear in
/// the bytes that are read, that of the entries, each of which costs what is open, and that of the answers.
pub fn check<F: Folder, S: Sink>(
    alloc: Global,
    words: &Texts,
    folder: &mut F,
    sink: &mut S,
) -> Checked
    // The status is that of what is told, or of the verdict.
    ensures status { result.status ≡ checked_status result.told result.verdict }
    ensures whole { IsChecked result.told (loaded_files result.loaded) result.verdict }

    // What was loaded is what the files load to, and the verdict is that on it and on the report's bytes.
    ensures loaded { IfSome result.loaded (λ owner. IfSome (F.files folder.old) (λ files. IfSome (check_names words.now) (λ names. LoadsTo (inputs_of files names) (arc_value owner)))) }
    ensures judged { IfSome result.verdict (IsOfFiles (F.files folder.old) (check_names words.now)) }
    ensures writes { WritesVerdict (IsOfFiles (F.files folder.old) (check_names words.now)) (S.written sink.old) (S.written sink.new) result.told result.verdict }

    // When each answer comes.
    ensures usage { (result.told ≡ Some Fault.Usage) ↔ (check_names words.now ≡ None) }
    ensures files { IfSome (F.files folder.old) (λ files. IfSome (check_names words.now) (λ names. AnswersCheck files names result.told)) }
    ensures read { ReadCause (F.faults folder.old) (F.faults folder.new) (F.last_fault folder.new) result.told }
    ensures write { result.told ≡ Some Fault.Write → Rose (S.faults sink.old) (S.faults sink.new) }
    ensures limit { TakenCause (F.taken folder.old) (F.taken folder.new) result.told }
    ensures untouched { IsUntouched result.told folder.old folder.new sink.old sink.new }

    // Where the files load and no count rises, the verdict is told but for want of memory.
    ensures complete { (names : Names) (files : Files) (inputs : InputsOf)
        → check_names words.now ≡ Some names → F.files folder.old ≡ Some files → inputs_of files names ≡ Loads inputs
        → ¬ Rose (F.faults folder.old) (F.faults folder.new) → ¬ Rose (S.faults sink.old) (S.faults sink.new)
        → IsCheckServed inputs result.status }
{
    let Some((script, report)) = find_names(words.as_slice()) else {
        return unjudged(Fault::Usage);
    };
    match read_inputs(alloc, script, report, folder) {
        Ok(inputs) => judge_loaded(alloc, inputs, sink),
        Err(fault) => unjudged(fault),
    }
}
