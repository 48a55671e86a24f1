ghost use Rattle.std.specs.Prelude.{◌≡◌, ◌+◌, [], ◌∷◌, ◌++◌, length, true, IfOk, OnErr, OnOk};
ghost use Rattle.dq_base.specs.Scripts.{step_of, zones_of};
ghost use Rattle.dq_journal.specs.declared.entry.Entry.{Entry};
ghost use Rattle.dq_machine.specs.Admitting.{admission_of};
ghost use Rattle.dq_machine.specs.Machine.{after};
ghost use Rattle.dq_desk.specs.Admissions.{AreHeld, AreStarted, AreStood, IsPrepared, may_admit_now, remotes_at};

use crate::desk::Desk;
use crate::handing::hand_out_all;
use crate::planning::read_keys;
use crate::readying::{Ready, make_ready, take_room};
use crate::starting::{join_all, start_all};
use crate::stood::{Starteds, Stoods};
use crate::waiting::Waiting;
use dq_base::{List, Memory};
use dq_cache::Found;
use dq_graph::Prepared;
use dq_journal::{Entry, Meets};
use dq_laws::keys_are_valid;
use dq_link::Link;
use dq_machine::remote_among;
use std::alloc::Global;

/// What the remote queries of a batch are handed out of the caches, in zone order.
pub type Helds = List<Option<Found>>;

/// An admission.
#[derive(Drop)]
pub struct Admitted {
    /// The place of its entry in the journal, from 1.
    pub place: u64,
    /// What each remote query met, in zone order.
    pub met: Meets,
    /// For each of them the answer out of a cache, where it met one.
    pub held: Helds,
    /// For each of them what stands of its source.
    pub stood: Stoods,
    /// The flights that were started.
    pub started: Starteds,
}

impl<L: Link> Desk<L> {
    /// A batch, of which this is the preparation. Each remote query, in zone order, meets an answer in the intelligent cache that
    /// covers it, or else one in the literal cache to the same query, or else a running flight that covers it and that it joins; those
    /// that miss are put into groups, and each group starts a flight. All memory is taken before anything changes: an `Err` leaves the
    /// desk as it was. The cost is that of the look-ups, which are made twice, first to see what memory is needed: for each query a
    /// comparison with the keys of its source and stamp in the intelligent cache, with the texts in the literal cache, and with the
    /// running flights.
    pub fn admit(
        &mut self,
        alloc: Global,
        lane: u32,
        step: u32,
        prepared: &Prepared,
    ) -> Result<Admitted, Memory>
        requires may { may_admit_now self.old.loaded (after self.old.loaded self.old.journal) lane step ≡ true }
        requires prepared { IsPrepared self.old.loaded.script.schemas (zones_of (step_of self.old.loaded.script.lanes lane step)) prepared.now }
        ensures entry { OnOk result (self.new.journal ≡ self.old.journal ++ Entry.Admit lane step (admission_of self.old.loaded (after self.old.loaded self.old.journal) lane step).met ∷ []) }
        ensures place { IfOk result (λ admitted. admitted.place ≡ length self.new.journal) }
        ensures met { IfOk result (λ admitted. admitted.met ≡ (admission_of self.old.loaded (after self.old.loaded self.old.journal) lane step).met) }
        ensures held { IfOk result (λ admitted. AreHeld self.old.loaded.script.schemas (after self.old.loaded self.old.journal).versions (remotes_at self.old.loaded lane step) admitted.met admitted.held) }
        ensures stood { IfOk result (λ admitted. AreStood self.old.loaded.script.schemas (after self.old.loaded self.old.journal).versions (remotes_at self.old.loaded lane step) admitted.stood) }
        ensures started { IfOk result (λ admitted. AreStarted self.old.loaded.script.schemas (after self.old.loaded self.old.journal).versions ((after self.old.loaded self.old.journal).flights.started + 1) (admission_of self.old.loaded (after self.old.loaded self.old.journal) lane step).groups admitted.started) }
        ensures refused { OnErr result (self.new.journal ≡ self.old.journal) }
        ensures loaded { self.new.loaded ≡ self.old.loaded }
    {
        let queries = remote_among(alloc, &prepared.roles, &prepared.canons)?;
        read_keys(&queries);
        keys_are_valid(&self.loaded, self.journal.as_slice());
        let ready = make_ready(
            alloc,
            &self.clever,
            &self.literal,
            &self.flights,
            self.stamps.as_slice(),
            self.stands.as_slice(),
            self.started,
            &queries,
            &prepared.bodies,
        )?;
        let owed = take_room(
            &mut self.journal,
            &mut self.flights,
            &mut self.wrecks,
            self.owed,
            queries.len(),
        )?;
        let Ready {
            otherwise,
            joins,
            stood,
            started,
            keys,
            mut met,
            mut again,
            mut held,
        } = ready;
        hand_out_all(
            &mut self.clever,
            &mut self.literal,
            self.stamps.as_slice(),
            &queries,
            &prepared.bodies,
            &otherwise,
            &mut met,
            &mut again,
            &mut held,
        );
        join_all(&mut self.flights, joins.as_slice());
        let count = keys.len() as u64;
        start_all(
            &mut self.flights,
            self.stamps.as_slice(),
            lane,
            self.started + 1,
            keys,
        );
        self.started += count;
        self.owed = owed;
        self.joins[lane as usize - 1] = Waiting::of(joins);
        let place = self.journal.len() + 1;
        self.journal.push(Entry::Admit {
            lane,
            step,
            met: met.into_list(),
        });
        Ok(Admitted {
            place,
            met: again.into_list(),
            held: held.into_list(),
            stood,
            started,
        })
    }
}
