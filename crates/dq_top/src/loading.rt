ghost use Rattle.std.specs.Prelude.{◌≡◌, ◌-◌, ◌<◌, ◌≤◌, ◌++◌, ◌∷◌, [], ℕ, List as ListOf, true, All, IfErr, IfOk, IfSome, Some, length, slice_get, sum_by};
ghost use Rattle.std.specs.List.{flat_map, list_all};
ghost use Rattle.dq_base.specs.Causes.{RoseBy};
ghost use Rattle.dq_base.specs.Headings.{Heading};
ghost use Rattle.dq_base.specs.Limits.{all_room, cell_room};
ghost use Rattle.dq_base.specs.Scripts.{IsScript, heading_fits, lane_fits, source_in, sources_of, step_fits};
ghost use Rattle.dq_base.specs.Versions.{IsVersion, cells_of};
ghost use Rattle.dq_extract.specs.Loads.{AreOf};
ghost use Rattle.dq_script.specs.Scripts.{script_of};
ghost use Rattle.dq_top.specs.Loading.{IsAmong, bytes_fault, files_of, files_read, loaded_of, names_read, publication_in, publications, script_in, script_or_fault, versions_in};
ghost use Rattle.dq_top.specs.Outcomes.{AnswersLoad, IsFault, IsOfLoading, ReadCause, TakenCause, TellsRows, TellsScript};
ghost use Rattle.dq_top.specs.Progress.{AnswersProgress, IsProgress, IsWithin, TakenBy, behind_one};

use crate::fault::Fault;
use crate::progress::{Progress, begun, with_segment};
use dq_base::{
    ALL_BYTES, FILE_BYTES, Limit, MOST_CELLS, Memory, SCRIPT_BYTES, Schema, Schemas, Script, Step,
    Steps, Text,
};
use dq_extract::{LoadFault, Loaded, SegmentList, load};
use dq_outside::{Folder, FolderFault};
use dq_script::{ScriptFault, read};
use dq_shield::shield;
use std::alloc::Global;

/// The fault of a file that couldn't be read.
pub fn unread(alloc: Global, name: &Text) -> Fault
    ensures { IsFault (Fault.Read name.now) result }
{
    match Text::copy_of(alloc, name.bytes()) {
        Ok(copy) => Fault::Read(copy),
        Err(Memory) => Fault::Memory,
    }
}

/// The fault of a file with that fault of a script.
fn of_script(alloc: Global, name: &Text, fault: ScriptFault) -> Fault
    ensures { IsFault (Fault.Script name.now fault) result }
{
    match Text::copy_of(alloc, name.bytes()) {
        Ok(copy) => Fault::Script(copy, fault),
        Err(Memory) => Fault::Memory,
    }
}

/// The fault of a file that is no script.
fn script_fault(alloc: Global, name: &Text, fault: ScriptFault) -> Fault
    ensures { TellsScript name.now fault result }
{
    match fault {
        ScriptFault::NotJson => of_script(alloc, name, ScriptFault::NotJson),
        ScriptFault::Shape(path) => of_script(alloc, name, ScriptFault::Shape(path)),
        ScriptFault::Limit(limit, value) => Fault::Limit(limit, value),
        ScriptFault::UnknownExtract(path) => {
            of_script(alloc, name, ScriptFault::UnknownExtract(path))
        }
        ScriptFault::UnknownLane(path) => of_script(alloc, name, ScriptFault::UnknownLane(path)),
        ScriptFault::Memory => Fault::Memory,
    }
}

/// The fault of a file with that fault of its rows.
fn of_rows(alloc: Global, name: &Text, fault: LoadFault) -> Fault
    ensures { IsFault (Fault.File name.now fault) result }
{
    match Text::copy_of(alloc, name.bytes()) {
        Ok(copy) => Fault::File(copy, fault),
        Err(Memory) => Fault::Memory,
    }
}

/// The fault of a file that has no rows of its extract.
fn rows_fault(alloc: Global, name: &Text, fault: LoadFault) -> Fault
    ensures { TellsRows name.now fault result }
{
    match fault {
        LoadFault::Header => of_rows(alloc, name, LoadFault::Header),
        LoadFault::Width(row) => of_rows(alloc, name, LoadFault::Width(row)),
        LoadFault::Number(row, column) => of_rows(alloc, name, LoadFault::Number(row, column)),
        LoadFault::NotText(row, column) => of_rows(alloc, name, LoadFault::NotText(row, column)),
        LoadFault::TooManyCells => Fault::Limit(Limit::Cells, MOST_CELLS),
        LoadFault::Memory => Fault::Memory,
    }
}

/// The limit that a file passes for which so many bytes are left.
fn bytes_fault(left: u64) -> Fault
    ensures { result ≡ bytes_fault left }
{
    if left < FILE_BYTES {
        Fault::Limit(Limit::AllBytes, ALL_BYTES)
    } else {
        Fault::Limit(Limit::FileBytes, FILE_BYTES)
    }
}

/// The script that a file's bytes mean.
fn script_or_fault(alloc: Global, name: &Text, bytes: &[u8]) -> Result<Script, Fault>
    ensures told { AnswersLoad (script_or_fault name.now (script_of bytes.now)) (λ n. ⊥) result }
    ensures limit { IfErr result (λ f. (before now : ℕ) → TakenCause before now (Some f)) }
    ensures kind { IfErr result IsOfLoading }
    ensures fits { IfOk result IsScript }
{
    match read(alloc, bytes) {
        Ok(script) => Ok(script),
        Err(fault) => Err(script_fault(alloc, name, fault)),
    }
}

/// Reads the script of that name.
pub fn read_script<F: Folder>(alloc: Global, name: &Text, folder: &mut F) -> Result<Script, Fault>
    ensures kept { F.files folder.new ≡ F.files folder.old }
    ensures told { IfSome (F.files folder.old) (λ files. AnswersLoad (script_in name.now (files name.now)) (λ n. n ≡ name.now) result) }
    ensures later { F.faults folder.old ≤ F.faults folder.new }
    ensures cause { IfErr result (λ f. ReadCause (F.faults folder.old) (F.faults folder.new) (F.last_fault folder.new) (Some f)) }
    ensures kind { IfErr result IsOfLoading }
    ensures grown { F.taken folder.old ≤ F.taken folder.new }
    ensures limit { IfErr result (λ f. TakenCause (F.taken folder.old) (F.taken folder.new) (Some f)) }
    ensures fits { IfOk result IsScript }
{
    let bytes = match folder.read(alloc, name, SCRIPT_BYTES) {
        Ok(bytes) => bytes,
        Err(FolderFault::Failed) => return Err(unread(alloc, name)),
        Err(FolderFault::TooLong) => return Err(Fault::Limit(Limit::ScriptBytes, SCRIPT_BYTES)),
        Err(FolderFault::Memory) => return Err(Fault::Memory),
    };
    script_or_fault(alloc, name, bytes.bytes())
}

/// The schema of a source.
fn schema_at(schemas: &Schemas, source: u32) -> &Schema
    requires fits { list_all heading_fits schemas.now ≡ true }
    requires place { source < length schemas.now }
    ensures schema { slice_get schemas.now source ≡ Some result.now }
    ensures columns { 0 < length result.now.names }
{
    let Some(schema) = schemas.get(u64::from(source)) else {
        unreachable!();
    };
    schema
}

/// Loads the file of that name behind those that are loaded.
fn load_file<F: Folder>(
    alloc: Global,
    schema: &Schema,
    name: &Text,
    progress: Progress,
    folder: &mut F,
) -> Result<Progress, Fault>
    requires columns { 0 < length schema.now.names }
    requires within { IsWithin progress }
    ensures kept { F.files folder.new ≡ F.files folder.old }
    ensures told { IfSome (F.files folder.old) (λ files. AnswersLoad (behind_one files progress (record { heading = schema.now; file = name.now })) (λ n. n ≡ name.now) result) }
    ensures grown { F.taken folder.old ≤ F.taken folder.new }
    ensures later { F.faults folder.old ≤ F.faults folder.new }
    ensures cause { IfErr result (λ f. ReadCause (F.faults folder.old) (F.faults folder.new) (F.last_fault folder.new) (Some f)) }
    ensures kind { IfErr result IsOfLoading }
    ensures within { IfOk result IsWithin }
    ensures taken { (start : ℕ) → RoseBy (all_room - progress.left) start (F.taken folder.old) → TakenBy start (F.taken folder.new) result }
    ensures progress { (schemas : ListOf Heading) (sources : ListOf ℕ) (source : ℕ)
        → slice_get schemas source ≡ Some schema.now → IsProgress schemas sources progress
        → IfOk result (IsProgress schemas (sources ++ source ∷ [])) }
{
    let left = progress.left;
    let bytes = match folder.read(alloc, name, left.min(FILE_BYTES)) {
        Ok(bytes) => bytes,
        Err(FolderFault::Failed) => return Err(unread(alloc, name)),
        Err(FolderFault::TooLong) => return Err(bytes_fault(left)),
        Err(FolderFault::Memory) => return Err(Fault::Memory),
    };
    let segment = match load(alloc, schema, progress.cells, bytes.bytes()) {
        Ok(segment) => segment,
        Err(fault) => return Err(rows_fault(alloc, name, fault)),
    };
    match with_segment(alloc, progress, bytes.len(), segment) {
        Ok(next) => Ok(next),
        Err(Memory) => Err(Fault::Memory),
    }
}

/// Loads the file of a step, where it publishes.
fn load_step<F: Folder>(
    alloc: Global,
    schemas: &Schemas,
    step: &Step,
    progress: Progress,
    folder: &mut F,
) -> Result<Progress, Fault>
    requires columns { list_all heading_fits schemas.now ≡ true }
    requires fits { step_fits (length schemas.now) step.now ≡ true }
    requires within { IsWithin progress }
    ensures kept { F.files folder.new ≡ F.files folder.old }
    ensures told { IfSome (F.files folder.old) (λ files. AnswersProgress files progress (publication_in schemas.now step.now) result) }
    ensures grown { F.taken folder.old ≤ F.taken folder.new }
    ensures later { F.faults folder.old ≤ F.faults folder.new }
    ensures cause { IfErr result (λ f. ReadCause (F.faults folder.old) (F.faults folder.new) (F.last_fault folder.new) (Some f)) }
    ensures kind { IfErr result IsOfLoading }
    ensures within { IfOk result IsWithin }
    ensures taken { (start : ℕ) → RoseBy (all_room - progress.left) start (F.taken folder.old) → TakenBy start (F.taken folder.new) result }
    ensures progress { (sources : ListOf ℕ) → IsProgress schemas.now sources progress → IfOk result (IsProgress schemas.now (sources ++ source_in step.now)) }
{
    match step {
        Step::Publish { source, file, .. } => {
            load_file(alloc, schema_at(schemas, *source), file, progress, folder)
        }
        Step::Batch(_) => Ok(progress),
    }
}

/// Loads the files of a lane's publish steps, in order.
fn load_lane<F: Folder>(
    alloc: Global,
    schemas: &Schemas,
    steps: &[Step],
    progress: Progress,
    folder: &mut F,
) -> Result<Progress, Fault>
    requires columns { list_all heading_fits schemas.now ≡ true }
    requires fits { list_all (step_fits (length schemas.now)) steps.now ≡ true }
    requires within { IsWithin progress }
    ensures kept { F.files folder.new ≡ F.files folder.old }
    ensures told { IfSome (F.files folder.old) (λ files. AnswersProgress files progress (flat_map (publication_in schemas.now) steps.now) result) }
    ensures grown { F.taken folder.old ≤ F.taken folder.new }
    ensures later { F.faults folder.old ≤ F.faults folder.new }
    ensures cause { IfErr result (λ f. ReadCause (F.faults folder.old) (F.faults folder.new) (F.last_fault folder.new) (Some f)) }
    ensures kind { IfErr result IsOfLoading }
    ensures within { IfOk result IsWithin }
    ensures taken { (start : ℕ) → RoseBy (all_room - progress.left) start (F.taken folder.old) → TakenBy start (F.taken folder.new) result }
    ensures progress { (sources : ListOf ℕ) → IsProgress schemas.now sources progress → IfOk result (IsProgress schemas.now (sources ++ flat_map source_in steps.now)) }
{
    let mut so_far = progress;
    for step in steps {
        so_far = match load_step(alloc, schemas, step, so_far, folder) {
            Ok(next) => next,
            Err(fault) => return Err(fault),
        };
    }
    Ok(so_far)
}

/// Loads the files of the publish steps of all lanes, in order of lanes and steps.
fn load_lanes<F: Folder>(
    alloc: Global,
    schemas: &Schemas,
    lanes: &[Steps],
    folder: &mut F,
) -> Result<Progress, Fault>
    requires columns { list_all heading_fits schemas.now ≡ true }
    requires fits { list_all (lane_fits (length schemas.now)) lanes.now ≡ true }
    ensures told { IfSome (F.files folder.old) (λ files. AnswersProgress files (record { left = all_room; cells = cell_room; segments = [] }) (flat_map (λ steps. flat_map (publication_in schemas.now) steps) lanes.now) result) }
    ensures kept { F.files folder.new ≡ F.files folder.old }
    ensures grown { F.taken folder.old ≤ F.taken folder.new }
    ensures later { F.faults folder.old ≤ F.faults folder.new }
    ensures cause { IfErr result (λ f. ReadCause (F.faults folder.old) (F.faults folder.new) (F.last_fault folder.new) (Some f)) }
    ensures kind { IfErr result IsOfLoading }
    ensures taken { (start : ℕ) → start ≤ F.taken folder.old → TakenBy start (F.taken folder.new) result }
    ensures progress { IfOk result (IsProgress schemas.now (sources_of lanes.now)) }
{
    let mut so_far = begun(alloc);
    for steps in lanes {
        so_far = match load_lane(alloc, schemas, steps.as_slice(), so_far, folder) {
            Ok(next) => next,
            Err(fault) => return Err(fault),
        };
    }
    Ok(so_far)
}

/// Loads the files of a script's publish steps, in order of lanes and steps, and ends at the first fault. A file that two
/// steps name is read twice. The cost is linear in the bytes that are read, and in the steps.
fn load_segments<F: Folder>(
    alloc: Global,
    script: &Script,
    folder: &mut F,
) -> Result<SegmentList, Fault>
    requires { IsScript script.now }
    ensures told { IfSome (F.files folder.old) (λ files. AnswersLoad (versions_in files all_room cell_room (publications script.now)) (λ n. IsAmong n (files_read files all_room cell_room (publications script.now))) result) }
    ensures kept { F.files folder.new ≡ F.files folder.old }
    ensures grown { F.taken folder.old ≤ F.taken folder.new }
    ensures later { F.faults folder.old ≤ F.faults folder.new }
    ensures cause { IfErr result (λ f. ReadCause (F.faults folder.old) (F.faults folder.new) (F.last_fault folder.new) (Some f)) }
    ensures kind { IfErr result IsOfLoading }
    ensures limit { (start : ℕ) → start ≤ F.taken folder.old → IfErr result (λ f. TakenCause start (F.taken folder.new) (Some f)) }
    ensures fit { IfOk result (λ segments. AreOf script.now.schemas (sources_of script.now.lanes) segments) }
    ensures cells { IfOk result (λ segments. sum_by cells_of segments ≤ cell_room) }
    ensures versions { IfOk result (λ segments. All IsVersion segments) }
{
    match load_lanes(alloc, &script.schemas, script.lanes.as_slice(), folder) {
        Ok(progress) => Ok(progress.segments),
        Err(fault) => Err(fault),
    }
}

/// Loads the files of a script that is shielded already.
fn load_files<F: Folder>(alloc: Global, script: Script, folder: &mut F) -> Result<Loaded, Fault>
    requires { IsScript script }
    ensures told { IfSome (F.files folder.old) (λ files. AnswersLoad (files_of files script) (λ n. IsAmong n (files_read files all_room cell_room (publications script))) result) }
    ensures kept { F.files folder.new ≡ F.files folder.old }
    ensures grown { F.taken folder.old ≤ F.taken folder.new }
    ensures later { F.faults folder.old ≤ F.faults folder.new }
    ensures cause { IfErr result (λ f. ReadCause (F.faults folder.old) (F.faults folder.new) (F.last_fault folder.new) (Some f)) }
    ensures kind { IfErr result IsOfLoading }
    ensures limit { (start : ℕ) → start ≤ F.taken folder.old → IfErr result (λ f. TakenCause start (F.taken folder.new) (Some f)) }
{
    let segments = match load_segments(alloc, &script, folder) {
        Ok(segments) => segments,
        Err(fault) => return Err(fault),
    };
    match Loaded::new(alloc, script, segments) {
        Ok(loaded) => Ok(loaded),
        Err(Memory) => Err(Fault::Memory),
    }
}

/// Loads the script of that name and its files. Each zone then asks of what its lane's session leaves of its source.
pub fn load_script<F: Folder>(alloc: Global, name: &Text, folder: &mut F) -> Result<Loaded, Fault>
    ensures kept { F.files folder.new ≡ F.files folder.old }
    ensures told { IfSome (F.files folder.old) (λ files. AnswersLoad (loaded_of files name.now) (λ n. IsAmong n (names_read files name.now)) result) }
    ensures later { F.faults folder.old ≤ F.faults folder.new }
    ensures cause { IfErr result (λ f. ReadCause (F.faults folder.old) (F.faults folder.new) (F.last_fault folder.new) (Some f)) }
    ensures kind { IfErr result IsOfLoading }
    ensures grown { F.taken folder.old ≤ F.taken folder.new }
    ensures limit { IfErr result (λ f. TakenCause (F.taken folder.old) (F.taken folder.new) (Some f)) }
{
    let script = match read_script(alloc, name, folder) {
        Ok(script) => script,
        Err(fault) => return Err(fault),
    };
    match shield(alloc, script) {
        Ok(script) => load_files(alloc, script, folder),
        Err(Memory) => Err(Fault::Memory),
    }
}
