ghost use Rattle.std.specs.Prelude.{◌≡◌, ◌++◌, ℕ, List as ListOf, false, true};
ghost use Rattle.dq_base.specs.Scripts.{step_of, zones_of};
ghost use Rattle.dq_batch.specs.Prepared.{IsPreparation};
ghost use Rattle.dq_batch.specs.Turns.{AdmitsAs, IsTurned};
ghost use Rattle.dq_bring.specs.Dials.{IsPlanOf, UndialledBy};
ghost use Rattle.dq_fates.specs.GoingOn.{GoesOn};
ghost use Rattle.dq_journal.specs.Steps.{AreRefused};
ghost use Rattle.dq_journal.specs.Standing.{stand};
ghost use Rattle.dq_journal.specs.declared.entry.Entry.{Entry as EntryOf};
ghost use Rattle.dq_machine.specs.Machine.{after, legal};
ghost use Rattle.dq_machine.specs.Owning.{origins};
ghost use Rattle.dq_machine.specs.Right.{AreOutcomes};
ghost use Rattle.dq_machine.specs.State.{is_free, work_of};
ghost use Rattle.dq_desk.specs.Admissions.{may_admit_now};

use crate::beginning::begin_all;
use crate::open::{Current, Open, Turned, next_group};
use crate::preparation::Preparation;
use dq_desk::{Admitted, Desk};
use dq_extract::Loaded;
use dq_journal::{Journal, ZoneResults};
use dq_laws::keys_are_valid;
use dq_link::{Dialer, Link};
use dq_outside::Gate;
use dq_zones::answer_zones;
use std::alloc::Global;
use std::marker::Model;
use std::snapshot::Snapshot;

/// A batch of a lane that was admitted. Contracts see the place of its entry, whether there is work before the lane's next turn, whether
/// it is over, and the journal of its last event.
#[derive(Drop)]
pub struct Batch<L: Link> {
    open: Open<L>,
    loaded: Snapshot<Loaded>,
    seen: Snapshot<Journal>,
}

impl<L: Link> Model for Batch<L> {
    ghost use Rattle.dq_batch.specs.Open.{IsBatch};
    ghost use Rattle.dq_batch.specs.Views.{BatchOf, batch_view};

    ghost Value = { BatchOf };

    ghost view = { λ b. batch_view b.loaded.value b.seen.value.entries b.open };

    ghost invariant = { λ b. IsBatch b.loaded.value b.seen.value.entries b.open };
}

impl<L: Link> Batch<L> {
    /// The admission of a prepared batch; none is want of memory, and leaves the desk as it was. The cost is that of the desk's call.
    pub fn admit(
        alloc: Global,
        lane: u32,
        step: u32,
        loaded: &Loaded,
        desk: &mut Desk<L>,
        preparation: Preparation,
    ) -> Option<Batch<L>>
        requires same { desk.old.loaded ≡ loaded.now }
        requires may { may_admit_now loaded.now (after loaded.now desk.old.journal) lane step ≡ true }
        requires prepared { IsPreparation loaded.now.script.schemas (zones_of (step_of loaded.now.script.lanes lane step)) preparation }
        ensures loaded { desk.new.loaded ≡ desk.old.loaded }
        ensures admitted { AdmitsAs loaded.now lane step desk.old.journal desk.new.journal result }
    {
        let Preparation {
            prepared,
            queries,
            fetches,
        } = preparation;
        let Ok(admitted) = desk.admit(alloc, lane, step, &prepared) else {
            return None;
        };
        let Admitted {
            place,
            met,
            held,
            stood,
            started,
        } = admitted;
        let mut fetches = fetches;
        begin_all(&met, held, &mut fetches);
        let journal = desk.journal();
        keys_are_valid(loaded, journal.as_slice());
        let current = next_group(lane, loaded, desk, &started, 0);
        Some(Batch {
            open: Open {
                lane,
                step,
                place,
                prepared,
                queries,
                stood,
                started,
                over: 0,
                fetches,
                current,
            },
            loaded: Snapshot::of(loaded),
            seen: Snapshot::of(journal),
        })
    }

    /// The place of its entry in the journal, from 1, in constant time.
    pub fn place(&self) -> u64
        ensures { result ≡ self.now.place }
    {
        self.open.place
    }

    /// Nothing is left to be brought or taken: the lane is free again. The cost is linear in the batch's remote zones.
    pub fn is_over(&self) -> bool
        ensures over { result ≡ self.now.over }
        ensures legal { legal self.now.loaded self.now.seen ≡ true }
        ensures free { is_free (work_of (after self.now.loaded self.now.seen) self.now.lane) ≡ self.now.over }
        ensures last { (work_of (after self.now.loaded self.now.seen) self.now.lane).last ≡ self.now.step }
        ensures unended { (work_of (after self.now.loaded self.now.seen) self.now.lane).ended ≡ false }
    {
        self.open.is_over()
    }

    /// What needs no turn: the statement of the flight that the lane brings. The cost is that of the dial and of the link's calls.
    pub fn work<G: Gate, D: Dialer<L = L>>(&mut self, alloc: Global, gate: &G, dialer: &mut D)
        requires plan { IsPlanOf self.old.loaded self.old.lane (D.plan dialer.old) }
        ensures worked { self.new ≡ record self.old { pending = false; untold = self.new.untold } }
        ensures dials { UndialledBy self.old.untold self.new.untold (D.faults dialer.old) (D.faults dialer.new) }
        ensures plan { D.plan dialer.new ≡ D.plan dialer.old }
    {
        self.open
            .work(alloc, &self.loaded, &self.seen, gate, dialer);
    }

    /// A turn: the next event of the flight that the lane brings, or a look at the flight for which its first zone waits. Where that is
    /// running, nothing happens. It takes no memory but for what a landing offers to the caches; the cost is that of the desk's call, and
    /// linear in the batch's remote zones.
    pub fn step(&mut self, loaded: &Loaded, desk: &mut Desk<L>) -> Turned
        requires worked { self.old.pending ≡ false }
        requires more { self.old.over ≡ false }
        requires loaded { loaded.now ≡ self.old.loaded }
        requires same { desk.old.loaded ≡ self.old.loaded }
        requires goes_on { GoesOn self.old.lane self.old.seen desk.old.journal }
        ensures loaded { desk.new.loaded ≡ desk.old.loaded }
        ensures turned { IsTurned self.old self.new desk.old.journal desk.new.journal result }
    {
        // A desk's journal is legal: only this read tells it to the proof.
        desk.journal();
        let turned = self.open.turn(loaded, desk);
        self.seen = Snapshot::of(desk.journal());
        turned
    }

    /// Answers the zones of a batch that is over, in place of outcomes as of a refused one: remote zones from what was brought, local ones
    /// from these. The cost is that of the derivations. Where memory is wanting for one, the zone is `Memory`.
    pub fn close(self, alloc: Global, outcomes: &mut ZoneResults)
        requires over { self.over ≡ true }
        requires refused { AreRefused self.loaded.script.schemas (zones_of (step_of self.loaded.script.lanes self.lane self.step)) outcomes.old }
        ensures right { (more : ListOf EntryOf) → legal self.loaded (self.seen ++ more) ≡ true → AreOutcomes self.loaded.script.schemas
            (stand self.loaded (self.seen ++ more) self.place) (self.seen ++ more)
            (origins self.loaded.script.schemas (self.seen ++ more) self.lane self.place (zones_of (step_of self.loaded.script.lanes self.lane self.step)))
            (zones_of (step_of self.loaded.script.lanes self.lane self.step)) outcomes.new }
    {
        answer_zones(alloc, &self.open.prepared, &self.open.fetches, outcomes);
    }
}
