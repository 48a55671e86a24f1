ghost use Rattle.std.specs.Prelude.{◌≡◌, ◌+◌, ◌<◌, ◌^◌, ◌≤◌, Some, nat_eq};
ghost use Rattle.dq_link.specs.Calls.{CountsFaults, HasRoom};
ghost use Rattle.dq_link.specs.Pairs.{lookup};
ghost use Rattle.dq_backend.specs.Standing.{PlannedLink, faults_by, nothing_standing};

use crate::store::Store;
use dq_base::{Memory, Table, Values};
use dq_extract::Extract;
use dq_link::{Link, LinkFault};
use std::alloc::Global;
use std::marker::Model;
use std::sync::Arc;

/// A link to what it holds in memory itself. It fails in the call that is planned, and in no other: its count of faults is 1
/// where that call is from 1 to its calls, and else 0. A call that fails changes nothing but the counts.
///
/// A mount or a table costs the number of those that stand. A run costs its text, and the evaluation of its query.
#[derive(Drop)]
pub struct InLink {
    store: Store,
    planned: u64,
    faults: u64,
}

impl Model for InLink {
    ghost use Rattle.std.specs.Prelude.{◌≡◌};
    ghost use Rattle.dq_backend.specs.Standing.{PlannedLink, faults_by};

    ghost Value = { PlannedLink };

    ghost view = { λ l. record { standing = l.store; planned = l.planned } };

    ghost invariant = { λ l. l.faults ≡ faults_by l.planned l.store.calls };
}

impl InLink {
    /// A link that wasn't called, and the number of its call that fails, from 1, or 0 for none. It takes no memory.
    pub(crate) fn new(alloc: Global, planned: u64) -> InLink
        ensures { result ≡ record { standing = nothing_standing; planned = planned } }
    {
        InLink {
            store: Store::new(alloc),
            planned,
            faults: 0,
        }
    }

    /// Counts a call, and whether it fails: it is the planned one.
    fn call_fails(&mut self) -> bool
        requires { self.old.standing.calls < 2 ^ 40 }
        ensures counted { self.new ≡ record self.old { standing = record self.old.standing { calls = self.old.standing.calls + 1 } } }
        ensures fails { result ≡ nat_eq (self.old.standing.calls + 1) self.old.planned }
    {
        self.store.count_call();
        if self.store.calls() == self.planned {
            self.faults += 1;
            return true;
        }
        false
    }
}

impl Link for InLink {
    ghost mounts = { λ l. lookup l.standing.mounts };

    ghost tables = { λ l. lookup l.standing.tables };

    ghost faults = { λ l. faults_by l.planned l.standing.calls };

    ghost runs = { λ l. l.standing.runs };

    ghost calls = { λ l. l.standing.calls };

    ghost planned = { λ l. Some l.planned };

    fn mount(
        &mut self,
        _: Global,
        source: u32,
        stamp: u64,
        extract: Arc<Extract>,
    ) -> Result<(), LinkFault> {
        if self.call_fails() {
            return Err(LinkFault::Failed);
        }
        let Ok(()) = self.store.mount(source, stamp, extract) else {
            return Err(LinkFault::Memory);
        };
        Ok(())
    }

    fn put_table(&mut self, _: Global, name: u64, list: Arc<Values>) -> Result<(), LinkFault> {
        if self.call_fails() {
            return Err(LinkFault::Failed);
        }
        let Ok(()) = self.store.put_table(name, list) else {
            return Err(LinkFault::Memory);
        };
        Ok(())
    }

    fn drop_table(&mut self, _: Global, name: u64) -> Result<(), LinkFault> {
        if self.call_fails() {
            return Err(LinkFault::Failed);
        }
        self.store.drop_table(name);
        Ok(())
    }

    fn run(&mut self, alloc: Global, text: &[u8]) -> Result<Table, LinkFault> {
        self.store.count_run();
        if self.call_fails() {
            return Err(LinkFault::Failed);
        }
        match self.store.answer(alloc, text) {
            Ok(table) => Ok(table),
            Err(Memory) => Err(LinkFault::Memory),
        }
    }

    fn faults(&self) -> u64
        ensures { result ≡ faults_by self.now.planned self.now.standing.calls }
    {
        self.faults
    }
}
