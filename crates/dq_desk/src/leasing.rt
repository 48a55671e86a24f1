ghost use Rattle.std.specs.Prelude.{◌≡◌, [], ◌∷◌, ◌++◌, true, false};
ghost use Rattle.dq_journal.specs.declared.entry.Entry.{Entry};
ghost use Rattle.dq_machine.specs.Machine.{after, allowed};
ghost use Rattle.dq_machine.specs.State.{flight_at, work_of};
ghost use Rattle.dq_desk.specs.Events.{may_lease_now};
ghost use Rattle.dq_desk.specs.Links.{IsLost, IsMirror, LeasedAs, lease_entry, lose_entry};
ghost use Rattle.dq_trial.specs.Links.{AreNamed, IsPlanned, RanAs};

use crate::desk::Desk;
use dq_journal::Entry;
use dq_link::{Link, Lost, Pooled, Wreck};

/// A lease.
#[derive(Drop)]
pub enum Leased<L: Link> {
    /// The link that was given back last.
    Idle(Pooled<L>),
    /// No link is idle: one is to be dialled, and this is its number.
    Dial(u64),
}

impl<L: Link> Desk<L> {
    /// A link for the first of the lane's own flights: the one that was given back last. Where none is idle a fresh one is to be
    /// dialled; links are numbered from 1, also where the dial then fails. In constant time, and it takes no memory.
    pub fn lease(&mut self, lane: u32, flight: u64) -> Leased<L>
        requires { may_lease_now (after self.old.loaded self.old.journal) lane flight ≡ true }
        ensures leased { LeasedAs (record { runs = L.runs; calls = L.calls; mounts = L.mounts; planned = L.planned }) self.old.loaded (after self.old.loaded self.old.journal) result }
        ensures entry { self.new.journal ≡ self.old.journal ++ lease_entry (after self.old.loaded self.old.journal).links lane flight ∷ [] }
        ensures loaded { self.new.loaded ≡ self.old.loaded }
    {
        let _room = self.journal.len();
        let Some(link) = self.idle.pop() else {
            let number = self.fresh + 1;
            self.fresh = number;
            self.owed -= 1;
            self.journal.push(Entry::Lease {
                lane,
                flight,
                link: number,
                fresh: true,
            });
            return Leased::Dial(number);
        };
        self.owed -= 1;
        self.journal.push(Entry::Lease {
            lane,
            flight,
            link: link.number(),
            fresh: false,
        });
        Leased::Idle(link)
    }

    /// The leased link comes back: it ran the flight's statement, or memory was wanting before that. It is the first to be leased
    /// again. In constant time, and it takes no memory.
    pub fn give(&mut self, lane: u32, flight: u64, link: Pooled<L>, ran: bool)
        requires may { allowed self.old.loaded (after self.old.loaded self.old.journal) (Entry.Give lane flight link.number ran (L.runs link.link) (L.calls link.link)) ≡ true }
        requires named { AreNamed self.old.loaded.script.schemas (after self.old.loaded self.old.journal).versions (L.mounts link.link) }
        requires mirror { IsMirror ran link.mirror (work_of (after self.old.loaded self.old.journal) lane).phase (flight_at (after self.old.loaded self.old.journal) flight) }
        requires text { RanAs ran link.mirror link.last (flight_at (after self.old.loaded self.old.journal) flight) }
        requires planned { IsPlanned self.old.loaded.script.fails (L.planned link.link) }
        ensures entry { self.new.journal ≡ self.old.journal ++ Entry.Give lane flight link.number ran (L.runs link.link) (L.calls link.link) ∷ [] }
        ensures loaded { self.new.loaded ≡ self.old.loaded }
    {
        self.owed -= 1;
        self.journal.push(Entry::Give {
            lane,
            flight,
            link: link.number(),
            ran,
            runs: link.runs(),
            calls: link.calls(),
        });
        self.idle.push(link);
    }

    /// The leased link had a fault, or its dial failed. A lost link is kept with the wrecks. In constant time, and it takes no
    /// memory.
    pub fn lose(&mut self, lane: u32, flight: u64, link: u64, lost: Lost<L>)
        requires may { allowed self.old.loaded (after self.old.loaded self.old.journal) (lose_entry (record { runs = L.runs; calls = L.calls; mounts = L.mounts; planned = L.planned }) lane flight link lost) ≡ true }
        requires lost { IsLost (record { runs = L.runs; calls = L.calls; mounts = L.mounts; planned = L.planned }) self.old.loaded.script.fails link lost }
        ensures entry { self.new.journal ≡ self.old.journal ++ lose_entry (record { runs = L.runs; calls = L.calls; mounts = L.mounts; planned = L.planned }) lane flight link lost ∷ [] }
        ensures loaded { self.new.loaded ≡ self.old.loaded }
    {
        match lost {
            Lost::Link(wreck, ran) => self.lose_link(lane, flight, link, wreck, ran),
            Lost::Dial => self.lose_dial(lane, flight, link),
        }
    }

    fn lose_link(&mut self, lane: u32, flight: u64, link: u64, wreck: Wreck<L>, ran: bool)
        requires may { allowed self.old.loaded (after self.old.loaded self.old.journal) (Entry.Lose lane flight link true ran (L.runs wreck.link) (L.calls wreck.link)) ≡ true }
        requires number { wreck.number ≡ link }
        requires planned { IsPlanned self.old.loaded.script.fails (L.planned wreck.link) }
        ensures entry { self.new.journal ≡ self.old.journal ++ Entry.Lose lane flight link true ran (L.runs wreck.link) (L.calls wreck.link) ∷ [] }
        ensures loaded { self.new.loaded ≡ self.old.loaded }
    {
        self.owed -= 1;
        self.journal.push(Entry::Lose {
            lane,
            flight,
            link,
            dialled: true,
            ran,
            runs: wreck.runs(),
            calls: wreck.calls(),
        });
        self.wrecks.push(wreck);
    }

    fn lose_dial(&mut self, lane: u32, flight: u64, link: u64)
        requires { allowed self.old.loaded (after self.old.loaded self.old.journal) (Entry.Lose lane flight link false false 0 0) ≡ true }
        ensures entry { self.new.journal ≡ self.old.journal ++ Entry.Lose lane flight link false false 0 0 ∷ [] }
        ensures loaded { self.new.loaded ≡ self.old.loaded }
    {
        self.owed -= 1;
        self.journal.push(Entry::Lose {
            lane,
            flight,
            link,
            dialled: false,
            ran: false,
            runs: 0,
            calls: 0,
        });
    }
}
