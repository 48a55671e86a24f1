ghost use Rattle.std.specs.Arc.{arc_value};
ghost use Rattle.std.specs.Prelude.{◌≡◌, ◌↔◌, ◌≤◌, [], ℕ, List as ListOf, map, true, false, All, IfSome, Some, None};
ghost use Rattle.dq_extract.specs.Loads.{LoadedFiles};
ghost use Rattle.dq_base.specs.Causes.{Rose};
ghost use Rattle.dq_outside.specs.Reads.{Files};
ghost use Rattle.dq_rehearse.specs.Follows.{Follows};
ghost use Rattle.dq_report.specs.Report.{report_text};
ghost use Rattle.dq_top.specs.Loading.{Loads, loaded_of};
ghost use Rattle.dq_top.specs.Outcomes.{AnswersFiles, AreIdle, AreLost, AreRight, HaveDialled, HavePlans, IsOfPlay, IsServed, IsWhole, IsUntouched, ReadCause, TakenCause, Writes, any_invalid, any_unkept, any_wanting, loaded_files, status_of};
ghost use Rattle.dq_top.specs.Words.{script_name};

use crate::fault::Fault;
use crate::loading::load_script;
use crate::outcome::{Outcome, refused, status, told_of};
use crate::refusals::wants_memory;
use crate::words::find_script;
use dq_base::{Memory, Texts};
use dq_extract::Loaded;
use dq_link::Office;
use dq_outside::{Folder, Sink};
use dq_rehearse::{Whole, play_script};
use dq_report::write;
use dq_shown::show;
use std::alloc::Global;
use std::sync::Arc;

/// Plays what was loaded, and writes the report.
fn play_loaded<S: Sink, O: Office>(
    alloc: Global,
    loaded: Loaded,
    sink: &mut S,
    office: &mut O,
) -> Outcome<O::L, O::D>
    ensures status { result.status ≡ status_of result.told result.shown }
    ensures told { IsOfPlay result.told }
    ensures whole { IsWhole result.told (loaded_files result.loaded) }
    ensures loaded { IfSome result.loaded (λ owner. arc_value owner ≡ loaded) }
    ensures right { AreRight (loaded_files result.loaded) result.journal.entries result.results result.shown }
    ensures follows { IfSome result.loaded (λ owner. Follows (arc_value owner) result.journal.entries result.results) }
    ensures idle { AreIdle (record { runs = O.L.runs; calls = O.L.calls; mounts = O.L.mounts; planned = O.L.planned }) (loaded_files result.loaded) result.journal.entries result.idle }
    ensures wrecks { AreLost (record { runs = O.L.runs; calls = O.L.calls; mounts = O.L.mounts; planned = O.L.planned }) (loaded_files result.loaded) result.journal.entries result.wrecks }
    ensures dials { HaveDialled (loaded_files result.loaded) result.journal.entries (map (λ d. O.D.faults d) result.dialers) }
    ensures plans { HavePlans (loaded_files result.loaded) (map (λ d. O.D.plan d) result.dialers) }
    ensures writes { Writes (S.written sink.old) (S.written sink.new) (report_text result.journal.entries result.shown) (loaded_files result.loaded) result.told }
    ensures later { S.faults sink.old ≤ S.faults sink.new }
    ensures cause { result.told ≡ Some Fault.Write → Rose (S.faults sink.old) (S.faults sink.new) }
    ensures served { result.told ≡ None → any_wanting result.shown ≡ false }
    ensures kept { result.told ≡ None → any_unkept result.journal.entries ≡ false }
{
    let Ok(owner) = Arc::new(alloc, loaded) else {
        return refused(alloc, Fault::Memory);
    };
    let Ok(whole) = play_script(alloc, &owner, office) else {
        return refused(alloc, Fault::Memory);
    };
    let Whole {
        journal,
        results,
        idle,
        wrecks,
        dialers,
    } = whole;
    let Ok(shown) = show(alloc, &owner, &results) else {
        return refused(alloc, Fault::Memory);
    };
    let wanting = wants_memory(&shown, &journal);
    let told = told_of(wanting, write(alloc, &journal, &shown, sink));
    Outcome {
        status: status(&told, &shown),
        told,
        loaded: Some(owner),
        journal,
        results,
        shown,
        idle,
        wrecks,
        dialers,
    }
}

/// Plays the script that the words name, over the files of a folder and with links of an office, and writes the report to a sink.
///
/// The words are `rehearse` and the script's name. It always returns. The cost is linear in the bytes that are read and that
/// are written; beside it are the checks of all zones, the back end's statements, the derivations of rows from their answers, and for
/// each entry a logarithm of what it looks up.
pub fn rehearse<F: Folder, S: Sink, O: Office>(
    alloc: Global,
    words: &Texts,
    folder: &mut F,
    sink: &mut S,
    office: &mut O,
) -> Outcome<O::L, O::D>
    // The status is that of what is told, or of what was refused; nothing was refused for memory where nothing is told.
    ensures status { result.status ≡ status_of result.told result.shown }
    ensures served { result.told ≡ None → any_wanting result.shown ≡ false }
    ensures kept { result.told ≡ None → any_unkept result.journal.entries ≡ false }

    // Where the run began, the journal is legal and follows the script's schedule, the results are right for what was loaded
    // and for the journal, and the blends are shown of them; else there are none.
    ensures whole { IsWhole result.told (loaded_files result.loaded) }
    ensures right { AreRight (loaded_files result.loaded) result.journal.entries result.results result.shown }
    ensures follows { IfSome result.loaded (λ owner. Follows (arc_value owner) result.journal.entries result.results) }

    // The links and the dialers agree with the journal.
    ensures idle { AreIdle (record { runs = O.L.runs; calls = O.L.calls; mounts = O.L.mounts; planned = O.L.planned }) (loaded_files result.loaded) result.journal.entries result.idle }
    ensures wrecks { AreLost (record { runs = O.L.runs; calls = O.L.calls; mounts = O.L.mounts; planned = O.L.planned }) (loaded_files result.loaded) result.journal.entries result.wrecks }
    ensures dials { HaveDialled (loaded_files result.loaded) result.journal.entries (map (λ d. O.D.faults d) result.dialers) }
    ensures plans { HavePlans (loaded_files result.loaded) (map (λ d. O.D.plan d) result.dialers) }

    // What was loaded is what the files load to, and what was written is the report, or a prefix of it.
    ensures loaded { IfSome result.loaded (λ owner. IfSome (F.files folder.old) (λ files. IfSome (script_name words.now) (λ name. loaded_of files name ≡ Loads (arc_value owner)))) }
    ensures writes { Writes (S.written sink.old) (S.written sink.new) (report_text result.journal.entries result.shown) (loaded_files result.loaded) result.told }

    // When each answer comes.
    ensures usage { (result.told ≡ Some Fault.Usage) ↔ (script_name words.now ≡ None) }
    ensures files { IfSome (F.files folder.old) (λ files. IfSome (script_name words.now) (λ name. AnswersFiles files name result.told)) }
    ensures read { ReadCause (F.faults folder.old) (F.faults folder.new) (F.last_fault folder.new) result.told }
    ensures write { result.told ≡ Some Fault.Write → Rose (S.faults sink.old) (S.faults sink.new) }
    ensures limit { TakenCause (F.taken folder.old) (F.taken folder.new) result.told }
    ensures untouched { IsUntouched result.told folder.old folder.new sink.old sink.new }

    // Where the files load and no count rises, of the folder, the sink, a link or a dialer, all is answered but for want of memory: 1
    // exactly where some zone isn't valid.
    ensures complete { (name : ListOf ℕ) (files : Files) (l : LoadedFiles)
        → script_name words.now ≡ Some name → F.files folder.old ≡ Some files → loaded_of files name ≡ Loads l
        → ¬ Rose (F.faults folder.old) (F.faults folder.new) → ¬ Rose (S.faults sink.old) (S.faults sink.new)
        → result.wrecks ≡ [] → All (λ d. O.D.faults d ≡ 0) result.dialers
        → IsServed (any_invalid l.script) result.status }
{
    let Some(name) = find_script(words.as_slice()) else {
        return refused(alloc, Fault::Usage);
    };
    match load_script(alloc, name, folder) {
        Ok(loaded) => play_loaded(alloc, loaded, sink, office),
        Err(fault) => refused(alloc, fault),
    }
}
