ghost use Rattle.std.specs.Arc.{arc_value};
ghost use Rattle.std.specs.Prelude.{◌≡◌, [], ◌∷◌, ◌++◌, true, IfOk, OnOk};
ghost use Rattle.dq_base.specs.Scripts.{step_of};
ghost use Rattle.dq_extract.specs.Loads.{IsLoaded, segment_of};
ghost use Rattle.dq_machine.specs.Publishing as specified;
ghost use Rattle.dq_machine.specs.Publishing.{is_publish, versions_published};
ghost use Rattle.dq_machine.specs.Refreshing.{AreStanding, CanRefresh};

use crate::shelf::copy_of;
use crate::shelved::{Shelved, Shelves};
use crate::stands::{Refresh, Stand, refresh_by_step};
use crate::steps::step_at;
use crate::versions::Versions;
use dq_base::{List, Memory, Script, Step};
use dq_extract::Loaded;
use std::alloc::Global;
use std::sync::Arc;

// Puts an answer at the end, if it is of another source.
fn keep_other(kept: &mut List<Shelved>, entry: &Shelved, source: u32) -> Result<(), Memory>
    ensures { OnOk result (kept.new ≡ kept.old ++ specified.without_source source (entry.now ∷ [])) }
{
    if entry.key.query().source == source {
        return Ok(());
    }
    kept.push(copy_of(entry)?)
}

// The answers of other sources.
fn without_source(
    alloc: Global,
    shelf: &List<Shelved>,
    source: u32,
) -> Result<List<Shelved>, Memory>
    ensures { IfOk result (λ kept. kept ≡ specified.without_source source shelf.now) }
{
    let mut kept = List::new(alloc);
    for entry in shelf.as_slice() {
        keep_other(&mut kept, entry, source)?;
    }
    Ok(kept)
}

/// What a publish step leaves on the shelves. The cost is linear in what stands there. An `Err` may leave one of them as it was.
pub(crate) fn clear_shelves(
    alloc: Global,
    shelves: &mut Shelves,
    script: &Script,
    lane: u32,
    step: u32,
) -> Result<(), Memory>
    ensures { OnOk result (shelves.new ≡ specified.shelves_after shelves.old (step_of script.now.lanes lane step)) }
{
    let Some(Step::Publish { source, .. }) = step_at(&script.lanes, lane, step) else {
        return Ok(());
    };
    shelves.clever = without_source(alloc, &shelves.clever, *source)?;
    shelves.literal = without_source(alloc, &shelves.literal, *source)?;
    Ok(())
}

/// A publish step is done: its rows come in place of those that stand of its source, or behind them. Rows are shared, not copied: the
/// cost is linear in the number of segments that stand of the source. An `Err` may leave the publication done in part.
pub(crate) fn publish_step(
    alloc: Global,
    loaded: &Loaded,
    versions: &mut Versions,
    stands: &mut Vec<Stand>,
    lane: u32,
    step: u32,
) -> Result<(), Memory>
    requires standing { AreStanding loaded.now.script.schemas versions.old stands.old.items }
    requires kind { is_publish (step_of loaded.now.script.lanes lane step) ≡ true }
    requires refresh { CanRefresh stands.old.items (step_of loaded.now.script.lanes lane step) (segment_of loaded.now lane step) }
    ensures versions { OnOk result (versions.new ≡ versions_published loaded.now versions.old lane step) }
    ensures standing { OnOk result (AreStanding loaded.now.script.schemas versions.new stands.new.items) }
{
    // Reading the script brings to the proof what was loaded.
    let _script = loaded.script();
    let Refresh { source, extract } = refresh_by_step(
        alloc,
        loaded,
        stands.as_slice(),
        lane,
        step,
    )?;
    let shared = Arc::try_clone(&extract)?;
    versions.push(source, shared)?;
    stands[source as usize] = Stand::new(extract);
    Ok(())
}
