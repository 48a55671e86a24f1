ghost use Rattle.std.specs.Arc.{arc_value};
ghost use Rattle.std.specs.Prelude.{◌≡◌, [], ◌∷◌, ◌++◌, length, replicate, true, IfOk};
ghost use Rattle.dq_journal.specs.declared.entry.Entry.{Entry};
ghost use Rattle.dq_machine.specs.Machine.{after, allowed, legal};
ghost use Rattle.dq_desk.specs.Links.{AreLinks, AreWrecks, losses};

use crate::roomy::Roomy;
use crate::stack::Stack;
use crate::waiting::Waiting;
use dq_base::{List, Memory};
use dq_cache::{Clever, Literal};
use dq_extract::Loaded;
use dq_flight::Flights;
use dq_journal::{Entry, Journal};
use dq_link::{Link, Pooled, Wreck};
use dq_machine::{Stand, no_stands};
use std::alloc::Global;
use std::marker::Model;
use std::sync::Arc;

/// Links that nobody uses.
pub type PooledList<L> = List<Pooled<L>>;

/// Links that were lost.
pub type WreckList<L> = List<Wreck<L>>;

/// What the lanes of a run share: what was loaded, what stands of each extract, both caches, the results under way, the links that
/// nobody uses, those that were lost, and the journal, which is legal. Contracts see what was loaded and the journal's entries.
#[derive(Drop)]
pub struct Desk<L: Link> {
    pub(crate) loaded: Arc<Loaded>,
    pub(crate) journal: Journal,
    // At least the entries that what is under way may still need.
    pub(crate) owed: u64,
    pub(crate) published: u64,
    // For each source its stamp.
    pub(crate) stamps: Vec<u64>,
    pub(crate) stands: Vec<Stand>,
    // For each lane the flights for which its zones wait.
    pub(crate) joins: Vec<Waiting>,
    pub(crate) clever: Clever,
    pub(crate) literal: Literal,
    pub(crate) flights: Flights,
    pub(crate) started: u64,
    pub(crate) idle: Stack<Pooled<L>>,
    // How many links were leased fresh.
    pub(crate) fresh: u64,
    pub(crate) wrecks: Roomy<Wreck<L>>,
}

impl<L: Link> Model for Desk<L> {
    ghost use Rattle.std.specs.Arc.{arc_value};
    ghost use Rattle.dq_desk.specs.Kept.{DeskOf, IsDesk};

    ghost Value = { DeskOf };

    ghost view = { λ d. record { loaded = arc_value d.loaded; journal = d.journal.entries } };

    ghost invariant = { λ d. IsDesk (record { runs = L.runs; calls = L.calls; mounts = L.mounts; planned = L.planned }) (arc_value d.loaded) d.journal.entries (record {
      spare = d.journal.spare;
      owed = d.owed;
      published = d.published;
      stamps = d.stamps.items;
      stands = d.stands.items;
      joins = d.joins.items;
      clever = d.clever;
      literal = d.literal;
      flights = d.flights;
      started = d.started;
      idle = d.idle;
      fresh = d.fresh;
      wrecks = d.wrecks;
    }) };
}

/// What is left of a desk.
#[derive(Drop)]
pub struct Parts<L: Link> {
    pub journal: Journal,
    /// The one that was given back last first.
    pub idle: PooledList<L>,
    /// In the order in which they were lost.
    pub wrecks: WreckList<L>,
}

/// The stamp of each source before anything was published.
fn no_stamps(alloc: Global, count: u64) -> Result<Vec<u64>, Memory>
    ensures { IfOk result (λ stamps. stamps.items ≡ replicate count 0) }
{
    let mut stamps = Vec::with_capacity(alloc, count as usize)?;
    for source in 0..count {
        let _ = source;
        stamps.push(0)?;
    }
    Ok(stamps)
}

/// Nothing to wait for, for each lane.
fn no_waits(alloc: Global, count: u64) -> Result<Vec<Waiting>, Memory>
    ensures { IfOk result (λ joins. joins.items ≡ replicate count []) }
{
    let mut joins = Vec::with_capacity(alloc, count as usize)?;
    for lane in 0..count {
        let _ = lane;
        joins.push(Waiting::new(alloc))?;
    }
    Ok(joins)
}

impl<L: Link> Desk<L> {
    /// A desk on which nothing has happened. The room for the end of each lane, and for a link of each, is taken. The cost is linear
    /// in the lanes and the extracts' columns.
    pub fn new(alloc: Global, loaded: Arc<Loaded>) -> Result<Desk<L>, Memory>
        ensures loaded { IfOk result (λ desk. desk.loaded ≡ arc_value loaded) }
        ensures journal { IfOk result (λ desk. desk.journal ≡ []) }
    {
        let owed = loaded.script().lanes.len();
        let mut journal = Journal::new(alloc);
        journal.reserve(owed)?;
        let mut flights = Flights::new(alloc);
        flights.reserve(owed)?;
        let mut wrecks = Roomy::new(alloc);
        wrecks.reserve(owed)?;
        let mut idle = Stack::new(alloc);
        idle.reserve(owed)?;
        let stamps = no_stamps(alloc, loaded.script().schemas.len())?;
        let stands = no_stands(alloc, &loaded.script().schemas)?;
        let joins = no_waits(alloc, owed)?;
        let clever = Clever::new(alloc, loaded.script().clever)?;
        let literal = Literal::new(alloc, loaded.script().literal)?;
        Ok(Desk {
            loaded,
            journal,
            owed,
            published: 0,
            stamps,
            stands,
            joins,
            clever,
            literal,
            flights,
            started: 0,
            idle,
            fresh: 0,
            wrecks,
        })
    }

    /// The journal, in constant time.
    pub fn journal(&self) -> &Journal
        ensures journal { result.now.entries ≡ self.now.journal }
        ensures legal { legal self.now.loaded self.now.journal ≡ true }
    {
        &self.journal
    }

    /// The end of a lane, in constant time. It takes no memory, as the room for it was taken at the start.
    pub fn end(&mut self, lane: u32)
        requires { allowed self.old.loaded (after self.old.loaded self.old.journal) (Entry.End lane) ≡ true }
        ensures entry { self.new.journal ≡ self.old.journal ++ Entry.End lane ∷ [] }
        ensures loaded { self.new.loaded ≡ self.old.loaded }
    {
        self.owed -= 1;
        self.journal.push(Entry::End { lane });
    }

    /// The journal and the links, in time linear in the idle links. It takes no memory.
    pub fn into_parts(self) -> Parts<L>
        ensures journal { result.journal.entries ≡ self.journal }
        ensures legal { legal self.loaded self.journal ≡ true }
        ensures idle { AreLinks (record { runs = L.runs; calls = L.calls; mounts = L.mounts; planned = L.planned }) self.loaded (after self.loaded self.journal).versions (after self.loaded self.journal).links.idle result.idle }
        ensures wrecks { AreWrecks (record { runs = L.runs; calls = L.calls; mounts = L.mounts; planned = L.planned }) self.loaded.script.fails (losses self.journal) result.wrecks }
    {
        let Desk {
            loaded: _,
            journal,
            owed: _,
            published: _,
            stamps: _,
            stands: _,
            joins: _,
            clever: _,
            literal: _,
            flights: _,
            started: _,
            idle,
            fresh: _,
            wrecks,
        } = self;
        Parts {
            journal,
            idle: idle.into_list(),
            wrecks: wrecks.into_list(),
        }
    }
}
