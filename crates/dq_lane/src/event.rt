ghost use Rattle.std.specs.Prelude.{◌≡◌, true};
ghost use Rattle.dq_base.specs.Scripts.{step_of, zones_of};
ghost use Rattle.dq_batch.specs.Prepared.{IsPreparation};
ghost use Rattle.dq_machine.specs.Machine.{after, allowed};
ghost use Rattle.dq_journal.specs.declared.entry.Entry.{Entry};
ghost use Rattle.dq_lane.specs.Events.{CanBegin, IsEvent};
ghost use Rattle.dq_lane.specs.Progress.{IsPreparedFor};
ghost use Rattle.dq_desk.specs.Admissions.{may_admit_now};

use crate::progress::Progress;
use dq_base::{Memory, Step};
use dq_batch::{Batch, Preparation};
use dq_desk::Desk;
use dq_extract::Loaded;
use dq_link::Link;
use dq_machine::step_at;
use std::alloc::Global;

/// What a turn of a lane without a batch under way brought about.
#[derive(Drop)]
pub(crate) enum Event<L: Link> {
    /// Its next step was refused for memory.
    Refused,
    /// It published, at this place of the journal.
    Published(u64),
    /// Its batch was admitted.
    Admitted(Batch<L>),
    /// It ended behind its last step.
    Ended,
}

/// A publish step.
fn publish<L: Link>(alloc: Global, desk: &mut Desk<L>, lane: u32, step: u32) -> Event<L>
    requires { allowed desk.old.loaded (after desk.old.loaded desk.old.journal) (Entry.Publish lane step) ≡ true }
    ensures event { IsEvent desk.old.loaded lane step desk.old.journal desk.new.journal result }
    ensures loaded { desk.new.loaded ≡ desk.old.loaded }
{
    match desk.publish(alloc, lane, step) {
        Ok(place) => Event::Published(place),
        Err(Memory) => Event::Refused,
    }
}

/// A prepared batch.
fn admit<L: Link>(
    alloc: Global,
    desk: &mut Desk<L>,
    loaded: &Loaded,
    lane: u32,
    step: u32,
    preparation: Preparation,
) -> Event<L>
    requires same { desk.old.loaded ≡ loaded.now }
    requires may { may_admit_now loaded.now (after loaded.now desk.old.journal) lane step ≡ true }
    requires prepared { IsPreparation loaded.now.script.schemas (zones_of (step_of loaded.now.script.lanes lane step)) preparation }
    ensures event { IsEvent desk.old.loaded lane step desk.old.journal desk.new.journal result }
    ensures loaded { desk.new.loaded ≡ desk.old.loaded }
{
    match Batch::admit(alloc, lane, step, loaded, desk, preparation) {
        Some(batch) => Event::Admitted(batch),
        None => Event::Refused,
    }
}

/// The event of a lane's step of that number, of which this is prepared: the publication of a publish step, the admission of a
/// prepared batch, or the end where there is no such step. A batch that isn't prepared is refused.
pub(crate) fn next_event<L: Link>(
    alloc: Global,
    desk: &mut Desk<L>,
    loaded: &Loaded,
    lane: u32,
    step: u32,
    progress: Progress<L>,
) -> Event<L>
    requires same { desk.old.loaded ≡ loaded.now }
    requires can { CanBegin loaded.now lane step (after loaded.now desk.old.journal) }
    requires prepared { IsPreparedFor loaded.now lane step progress }
    ensures event { IsEvent desk.old.loaded lane step desk.old.journal desk.new.journal result }
    ensures loaded { desk.new.loaded ≡ desk.old.loaded }
{
    if let Progress::Prepared(preparation) = progress {
        return admit(alloc, desk, loaded, lane, step, preparation);
    }
    match step_at(&loaded.script().lanes, lane, step) {
        Some(Step::Publish { .. }) => publish(alloc, desk, lane, step),
        Some(Step::Batch(_)) => Event::Refused,
        None => {
            desk.end(lane);
            Event::Ended
        }
    }
}
