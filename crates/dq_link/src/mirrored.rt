ghost use Rattle.std.specs.Arc.{arc_value};
ghost use Rattle.std.specs.List.{find};
ghost use Rattle.std.specs.Prelude.{◌≡◌, ◌+◌, nat_le, length, Some, IfOk, IsSome, option_map};
ghost use Rattle.dq_link.specs.Calls.{CountsFaults, HasRoom, IsFresh};
ghost use Rattle.dq_link.specs.Meanings.{HasMeaning, Means};
ghost use Rattle.dq_link.specs.Mirrors.{alike, dropping, is_held, is_stamp, lists_in, no_mirror, putting, remounting, spare_table};
ghost use Rattle.dq_link.specs.Mounts.{KeepsAs, SetsAs};
ghost use Rattle.dq_link.specs.Pairs.{lookup};
ghost use Rattle.dq_link.specs.Steps.{Advances, CanAdvance};

use crate::fault::LinkFault;
use crate::link::Link;
use crate::needs::is_needed;
use dq_base::{Duplicate, Predicate, Table, Values};
use dq_extract::Extract;
use std::alloc::Global;
use std::marker::Model;
use std::sync::Arc;

/// How many tables stand at most.
const MOST_TABLES: usize = 16;

/// A link with what is kept of it: the stamps that are mounted, the tables in the order of their puts, and how often it was
/// called.
#[derive(Drop)]
pub(crate) struct Mirrored<L: Link> {
    link: L,
    calls: u64,
    mounts: Vec<(u32, u64)>,
    tables: Vec<(u64, Values)>,
    next: u64,
}

impl<L: Link> Model for Mirrored<L> {
    ghost use Rattle.std.specs.Prelude.{◌≡◌, ◌+◌, ◌≤◌};
    ghost use Rattle.dq_link.specs.Views.{MirroredLink};

    ghost Value = { MirroredLink L };

    ghost view = { λ m. record { link = m.link; mirror = record { mounts = m.mounts.items; tables = m.tables.items; next = m.next } } };

    ghost invariant = { λ m. (m.calls ≡ L.calls m.link) × (m.next ≤ m.calls + 1) };
}

impl<L: Link> Mirrored<L> {
    /// A link on which nothing is mounted or put.
    pub(crate) fn new(alloc: Global, link: L) -> Mirrored<L>
        requires { IsFresh (L.mounts link) (L.tables link) (L.faults link) (L.runs link) (L.calls link) }
        ensures { (result.link ≡ link) × (result.mirror ≡ no_mirror) }
    {
        Mirrored {
            link,
            calls: 0,
            mounts: Vec::new(alloc),
            tables: Vec::new(alloc),
            next: 1,
        }
    }

    /// How often the link was called.
    pub(crate) fn calls(&self) -> u64
        ensures { result ≡ L.calls self.now.link }
    {
        self.calls
    }

    fn stamp_of(&self, source: u32) -> Option<u64>
        ensures { result ≡ lookup self.now.mirror.mounts source }
    {
        let mounted = self.mounts.iter().find(|mount| mount.0 == source);
        match mounted {
            None => None,
            Some(mount) => Some(mount.1),
        }
    }

    /// Whether the version of that stamp is mounted for its source.
    pub(crate) fn has_mounted(&self, source: u32, stamp: u64) -> bool
        ensures { result ≡ is_stamp (lookup self.now.mirror.mounts source) stamp }
    {
        match self.stamp_of(source) {
            None => false,
            Some(mounted) => mounted == stamp,
        }
    }

    /// Whether a table holds the list.
    pub(crate) fn holds(&self, list: &Values) -> bool
        ensures { result ≡ is_held self.now.mirror.tables list.now }
    {
        self.tables.iter().any(|table| table.1.cmp(list).is_eq())
    }

    /// The table put longest ago of those whose list isn't needed.
    pub(crate) fn spare(&self, filters: &[Predicate]) -> Option<u64>
        ensures { result ≡ spare_table (lists_in filters.now) self.now.mirror.tables }
    {
        let spare = self
            .tables
            .iter()
            .find(|table| !is_needed(filters, &table.1));
        match spare {
            None => None,
            Some(table) => Some(table.0),
        }
    }

    /// The first table that holds the list.
    pub(crate) fn find_table(&self, list: &Values) -> Option<u64>
        ensures { result ≡ option_map (λ t. t.0) (find (λ t. alike t.1 list.now) self.now.mirror.tables) }
    {
        let found = self.tables.iter().find(|table| table.1.cmp(list).is_eq());
        match found {
            None => None,
            Some(table) => Some(table.0),
        }
    }

    /// Whether no further table may stand.
    pub(crate) fn is_full(&self) -> bool
        ensures { result ≡ nat_le 16 (length self.now.mirror.tables) }
    {
        self.tables.len() >= MOST_TABLES
    }

    /// The link alone.
    pub(crate) fn into_link(self) -> L
        ensures { result ≡ self.link }
    {
        let Mirrored {
            link,
            calls: _,
            mounts: _,
            tables: _,
            next: _,
        } = self;
        link
    }

    /// Runs a statement's text.
    pub(crate) fn run(&mut self, alloc: Global, text: &[u8]) -> Result<Table, LinkFault>
        requires room { HasRoom (L.runs self.old.link) (L.calls self.old.link) }
        requires meaning { HasMeaning (L.mounts self.old.link) (L.tables self.old.link) text.now }
        ensures answer { IfOk result (λ table. Means (L.mounts self.old.link) (L.tables self.old.link) text.now table) }
        ensures mirror { self.new.mirror ≡ self.old.mirror }
        ensures mounts { KeepsAs (L.mounts self.old.link) (L.mounts self.new.link) result }
        ensures tables { KeepsAs (L.tables self.old.link) (L.tables self.new.link) result }
        ensures cause { CountsFaults (L.faults self.old.link) (L.faults self.new.link) result }
        ensures calls { L.calls self.new.link ≡ L.calls self.old.link + 1 }
        ensures runs { L.runs self.new.link ≡ L.runs self.old.link + 1 }
        ensures planned { L.planned self.new.link ≡ L.planned self.old.link }
    {
        self.calls += 1;
        self.link.run(alloc, text)
    }

    /// Mounts a version.
    pub(crate) fn mount(
        &mut self,
        alloc: Global,
        source: u32,
        stamp: u64,
        extract: &Arc<Extract>,
    ) -> Result<(), LinkFault>
        requires { CanAdvance L.mounts L.tables L.faults L.runs L.calls L.planned (remounting source stamp) self.old }
        ensures moves { Advances L.mounts L.tables L.faults L.runs L.calls L.planned (remounting source stamp) self.old self.new result }
        ensures mounts { SetsAs source (Some (record { stamp = stamp; version = arc_value extract.now })) (L.mounts self.old.link) (L.mounts self.new.link) result }
    {
        let Ok(shared) = Arc::try_clone(extract) else {
            return Err(LinkFault::Memory);
        };
        self.mounts.reserve(1)?;
        self.calls += 1;
        self.link.mount(alloc, source, stamp, shared)?;
        self.mounts.retain(|mount| mount.0 != source);
        self.mounts.push_reserved((source, stamp));
        Ok(())
    }

    /// Puts a list into a new table.
    pub(crate) fn put(&mut self, alloc: Global, list: &Values) -> Result<(), LinkFault>
        requires { CanAdvance L.mounts L.tables L.faults L.runs L.calls L.planned (putting list.now) self.old }
        ensures moves { Advances L.mounts L.tables L.faults L.runs L.calls L.planned (putting list.now) self.old self.new result }
        ensures mounts { KeepsAs (L.mounts self.old.link) (L.mounts self.new.link) result }
    {
        let copy = list.duplicate(alloc)?;
        let Ok(shared) = Arc::new(alloc, list.duplicate(alloc)?) else {
            return Err(LinkFault::Memory);
        };
        self.tables.reserve(1)?;
        self.calls += 1;
        self.link.put_table(alloc, self.next, shared)?;
        self.tables.push_reserved((self.next, copy));
        self.next += 1;
        Ok(())
    }

    /// Takes a table out.
    pub(crate) fn drop_table(&mut self, alloc: Global, number: u64) -> Result<(), LinkFault>
        requires can { CanAdvance L.mounts L.tables L.faults L.runs L.calls L.planned (dropping (Some number)) self.old }
        requires there { IsSome (lookup self.old.mirror.tables number) }
        ensures moves { Advances L.mounts L.tables L.faults L.runs L.calls L.planned (dropping (Some number)) self.old self.new result }
        ensures mounts { KeepsAs (L.mounts self.old.link) (L.mounts self.new.link) result }
    {
        self.calls += 1;
        self.link.drop_table(alloc, number)?;
        self.tables.retain(|table| table.0 != number);
        Ok(())
    }
}
