ghost use Rattle.std.specs.Prelude.{◌≡◌, ◌<◌, None};
ghost use Rattle.dq_link.specs.Calls.{IsFresh};
ghost use Rattle.dq_link.specs.Mirrors.{no_mirror};
ghost use Rattle.dq_link.specs.Views.{IsPooled};

use crate::link::Link;
use crate::mirrored::Mirrored;
use dq_base::Bytes;
use std::alloc::Global;
use std::marker::Model;
use std::snapshot::Snapshot;

/// A link that had no fault, kept for further use, and what stands on it.
#[derive(Drop)]
pub struct Pooled<L: Link> {
    pub(crate) number: u64,
    pub(crate) runs: u64,
    pub(crate) mirrored: Mirrored<L>,
    pub(crate) last: Option<Snapshot<Bytes>>,
}

impl<L: Link> Model for Pooled<L> {
    ghost use Rattle.std.specs.Prelude.{◌≡◌, option_map};
    ghost use Rattle.dq_link.specs.Views.{IsPooled, PooledLink};

    ghost Value = { PooledLink L };

    ghost view = { λ p. record { number = p.number; link = p.mirrored.link; mirror = p.mirrored.mirror; last = option_map (λ t. t.value) p.last } };

    ghost invariant = { λ p. (p.runs ≡ L.runs p.mirrored.link) × IsPooled (L.mounts p.mirrored.link) (L.tables p.mirrored.link) (L.faults p.mirrored.link) (L.runs p.mirrored.link) (L.calls p.mirrored.link) p.mirrored.mirror };
}

impl<L: Link> Pooled<L> {
    /// A link as a dialer gives it, under a number. It takes no memory, and the same time always.
    pub fn new(alloc: Global, number: u64, link: L) -> Pooled<L>
        requires { IsFresh (L.mounts link) (L.tables link) (L.faults link) (L.runs link) (L.calls link) }
        ensures { result ≡ record { number = number; link = link; mirror = no_mirror; last = None } }
    {
        Pooled {
            number,
            runs: 0,
            mirrored: Mirrored::new(alloc, link),
            last: None,
        }
    }

    /// Its number.
    pub fn number(&self) -> u64
        ensures { result ≡ self.now.number }
    {
        self.number
    }

    /// How many statements it was given to run.
    pub fn runs(&self) -> u64
        ensures runs { result ≡ L.runs self.now.link }
        ensures pooled { IsPooled (L.mounts self.now.link) (L.tables self.now.link) (L.faults self.now.link) (L.runs self.now.link) (L.calls self.now.link) self.now.mirror }
    {
        self.runs
    }

    /// How often it was called.
    pub fn calls(&self) -> u64
        ensures { result ≡ L.calls self.now.link }
    {
        self.mirrored.calls()
    }
}

/// A link that had a fault.
#[derive(Drop)]
pub struct Wreck<L: Link> {
    pub(crate) number: u64,
    pub(crate) runs: u64,
    pub(crate) calls: u64,
    pub(crate) link: L,
}

impl<L: Link> Model for Wreck<L> {
    ghost use Rattle.std.specs.Prelude.{◌≡◌, ◌<◌};
    ghost use Rattle.dq_link.specs.Views.{LostLink};

    ghost Value = { LostLink L };

    ghost view = { λ w. record { number = w.number; link = w.link } };

    ghost invariant = { λ w. (0 < L.faults w.link) × (w.runs ≡ L.runs w.link) × (w.calls ≡ L.calls w.link) };
}

impl<L: Link> Wreck<L> {
    /// Its number.
    pub fn number(&self) -> u64
        ensures { result ≡ self.now.number }
    {
        self.number
    }

    /// How many statements it was given to run.
    pub fn runs(&self) -> u64
        ensures { result ≡ L.runs self.now.link }
    {
        self.runs
    }

    /// How often it was called.
    pub fn calls(&self) -> u64
        ensures { result ≡ L.calls self.now.link }
    {
        self.calls
    }

    /// How often it failed: once at least.
    pub fn faults(&self) -> u64
        ensures faults { result ≡ L.faults self.now.link }
        ensures some { 0 < result }
    {
        self.link.faults()
    }
}

/// What is lost in a lease: a link, and whether it was given a statement to run in that lease, or a dial.
#[derive(Drop)]
pub enum Lost<L: Link> {
    Link(Wreck<L>, bool),
    Dial,
}
