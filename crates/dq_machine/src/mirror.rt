ghost use Rattle.std.specs.Prelude.{◌≡◌, ◌+◌, ◌<◌, ◌^◌, [], ◌∷◌, ◌++◌, length, nat_le, OnOk};
ghost use Rattle.dq_link.specs.Mirrors.{dropping, is_held, is_stamp, lists_in, no_mirror, putting, remounting, spare_table};
ghost use Rattle.dq_link.specs.Pairs.{lookup, with_pair, without};

use crate::needs::is_needed;
use dq_base::{Duplicate, Memory, Predicate, Values};
use std::alloc::Global;
use std::marker::Model;

/// How many tables stand at most.
const MOST_TABLES: usize = 16;

/// What stands on a link: the stamps that are mounted, and the tables in the order of their puts.
#[derive(Drop)]
pub(crate) struct Mirror {
    mounts: Vec<(u32, u64)>,
    tables: Vec<(u128, Values)>,
    next: u128,
}

impl Model for Mirror {
    ghost use Rattle.dq_link.specs.Mirrors.{Mirror as MirrorOf};

    ghost Value = { MirrorOf };

    ghost view = { λ m. record { mounts = m.mounts.items; tables = m.tables.items; next = m.next } };
}

// No version of the source is mounted.
fn unmount(mounts: &mut Vec<(u32, u64)>, source: u32)
    ensures { mounts.new.items ≡ without mounts.old.items source }
{
    mounts.retain(|mount| mount.0 != source);
}

// The table of that number is gone.
fn remove_table(tables: &mut Vec<(u128, Values)>, number: u128)
    ensures { tables.new.items ≡ without tables.old.items number }
{
    tables.retain(|table| table.0 != number);
}

impl Mirror {
    /// That of a link on which nothing is mounted or put. It takes no memory.
    pub(crate) fn new(alloc: Global) -> Mirror
        ensures { result ≡ no_mirror }
    {
        Mirror {
            mounts: Vec::new(alloc),
            tables: Vec::new(alloc),
            next: 1,
        }
    }

    // The version of that stamp is mounted for its source.
    fn mount(&mut self, source: u32, stamp: u64) -> Result<(), Memory>
        ensures { OnOk result (self.new ≡ record self.old { mounts = with_pair self.old.mounts source stamp }) }
    {
        unmount(&mut self.mounts, source);
        self.mounts.push((source, stamp))?;
        Ok(())
    }

    // A list stands in a new table.
    fn put(&mut self, alloc: Global, list: &Values) -> Result<(), Memory>
        requires { self.old.next < 2 ^ 127 }
        ensures { OnOk result (self.new ≡ record self.old { tables = self.old.tables ++ (self.old.next, list.now) ∷ []; next = self.old.next + 1 }) }
    {
        let copy = list.duplicate(alloc)?;
        self.tables.push((self.next, copy))?;
        self.next += 1;
        Ok(())
    }

    // The table of that number stands no more.
    fn drop_table(&mut self, number: u128)
        ensures { self.new ≡ record self.old { tables = without self.old.tables number } }
    {
        remove_table(&mut self.tables, number);
    }
}

/// A mirror, and how many mounts, drops and puts it took.
#[derive(Drop)]
pub(crate) struct Readying {
    pub(crate) mirror: Mirror,
    pub(crate) count: u128,
}

impl Model for Readying {
    ghost use Rattle.dq_link.specs.Mirrors.{Readying as ReadyingOf};

    ghost Value = { ReadyingOf };

    ghost view = { λ r. record { mirror = r.mirror; count = r.count } };
}

impl Readying {
    // The stamp that is mounted for a source.
    fn stamp_of(&self, source: u32) -> Option<u64>
        ensures { result ≡ lookup self.now.mirror.mounts source }
    {
        let mounted = self.mirror.mounts.iter().find(|mount| mount.0 == source);
        match mounted {
            None => None,
            Some(mount) => Some(mount.1),
        }
    }

    /// Whether the version of that stamp is mounted for its source.
    pub(crate) fn has_mounted(&self, source: u32, stamp: u64) -> bool
        ensures { result ≡ is_stamp (lookup self.now.mirror.mounts source) stamp }
    {
        match self.stamp_of(source) {
            None => false,
            Some(mounted) => mounted == stamp,
        }
    }

    /// Whether a table holds the list.
    pub(crate) fn holds(&self, list: &Values) -> bool
        ensures { result ≡ is_held self.now.mirror.tables list.now }
    {
        self.mirror
            .tables
            .iter()
            .any(|table| table.1.cmp(list).is_eq())
    }

    /// The table put longest ago of those whose list isn't needed.
    pub(crate) fn spare(&self, filters: &[Predicate]) -> Option<u128>
        ensures { result ≡ spare_table (lists_in filters.now) self.now.mirror.tables }
    {
        let spare = self
            .mirror
            .tables
            .iter()
            .find(|table| !is_needed(filters, &table.1));
        match spare {
            None => None,
            Some(table) => Some(table.0),
        }
    }

    /// Whether no further table may stand.
    pub(crate) fn is_full(&self) -> bool
        ensures { result ≡ nat_le 16 (length self.now.mirror.tables) }
    {
        self.mirror.tables.len() >= MOST_TABLES
    }

    /// Mounts a version.
    pub(crate) fn mount(&mut self, source: u32, stamp: u64) -> Result<(), Memory>
        requires { self.old.count < 2 ^ 127 }
        ensures { OnOk result (self.new ≡ remounting source stamp self.old) }
    {
        self.mirror.mount(source, stamp)?;
        self.count += 1;
        Ok(())
    }

    /// Puts a list into a new table.
    pub(crate) fn put(&mut self, alloc: Global, list: &Values) -> Result<(), Memory>
        requires count { self.old.count < 2 ^ 127 }
        requires next { self.old.mirror.next < 2 ^ 127 }
        ensures { OnOk result (self.new ≡ putting list.now self.old) }
    {
        self.mirror.put(alloc, list)?;
        self.count += 1;
        Ok(())
    }

    /// Takes a table out.
    pub(crate) fn drop_table(&mut self, number: u128)
        requires { self.old.count < 2 ^ 127 }
        ensures { self.new ≡ dropping (Some number) self.old }
    {
        self.mirror.drop_table(number);
        self.count += 1;
    }
}
