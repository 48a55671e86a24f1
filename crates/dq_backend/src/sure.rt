ghost use Rattle.std.specs.Prelude.{◌≡◌, ◌+◌, ◌<◌, ◌^◌, None};
ghost use Rattle.dq_link.specs.Pairs.{lookup};
ghost use Rattle.dq_backend.specs.Standing.{nothing_standing};

use crate::store::Store;
use dq_base::{Fails, Memory, Table, Values};
use dq_extract::Extract;
use dq_link::{Dialer, Link, LinkFault, Office};
use std::alloc::Global;
use std::marker::Model;
use std::sync::Arc;

/// A link to what it holds in memory itself, which never fails. Its calls cost what those of `InLink` do.
#[derive(Drop)]
pub struct SureLink {
    store: Store,
}

impl Model for SureLink {
    ghost use Rattle.dq_backend.specs.Standing.{Standing};

    ghost Value = { Standing };

    ghost view = { λ l. l.store };
}

impl SureLink {
    /// A link that wasn't called. It takes no memory.
    pub(crate) fn new(alloc: Global) -> SureLink
        ensures { result ≡ nothing_standing }
    {
        SureLink {
            store: Store::new(alloc),
        }
    }

    /// How often it was called.
    pub(crate) fn calls(&self) -> u64
        ensures { result ≡ self.now.calls }
    {
        self.store.calls()
    }

    /// Counts a call that isn't made.
    pub(crate) fn count_call(&mut self)
        requires { self.old.calls < 2 ^ 40 }
        ensures { self.new ≡ record self.old { calls = self.old.calls + 1 } }
    {
        self.store.count_call();
    }

    /// Counts a call of `run` that isn't made, among those of `run` alone.
    pub(crate) fn count_run(&mut self)
        requires { self.old.runs < 2 ^ 40 }
        ensures { self.new ≡ record self.old { runs = self.old.runs + 1 } }
    {
        self.store.count_run();
    }
}

impl Link for SureLink {
    ghost mounts = { λ l. lookup l.mounts };

    ghost tables = { λ l. lookup l.tables };

    ghost faults = { λ l. 0 };

    ghost runs = { λ l. l.runs };

    ghost calls = { λ l. l.calls };

    ghost planned = { λ l. None };

    fn mount(
        &mut self,
        _: Global,
        source: u32,
        stamp: u64,
        extract: Arc<Extract>,
    ) -> Result<(), LinkFault> {
        self.store.count_call();
        let Ok(()) = self.store.mount(source, stamp, extract) else {
            return Err(LinkFault::Memory);
        };
        Ok(())
    }

    fn put_table(&mut self, _: Global, name: u64, list: Arc<Values>) -> Result<(), LinkFault> {
        self.store.count_call();
        let Ok(()) = self.store.put_table(name, list) else {
            return Err(LinkFault::Memory);
        };
        Ok(())
    }

    fn drop_table(&mut self, _: Global, name: u64) -> Result<(), LinkFault> {
        self.store.count_call();
        self.store.drop_table(name);
        Ok(())
    }

    fn run(&mut self, alloc: Global, text: &[u8]) -> Result<Table, LinkFault> {
        self.store.count_run();
        self.store.count_call();
        match self.store.answer(alloc, text) {
            Ok(table) => Ok(table),
            Err(Memory) => Err(LinkFault::Memory),
        }
    }

    fn faults(&self) -> u64 {
        0
    }
}

/// A dialer that never fails and tells no plan. It takes no memory. A link that can't be counted any more is `Memory`.
#[derive(Drop)]
pub struct SureDialer {
    given: u64,
}

impl Dialer for SureDialer {
    type L = SureLink;

    ghost faults = { λ d. 0 };

    ghost given = { λ d. d.given };

    ghost plan = { λ d. None };

    fn dial(&mut self, alloc: Global) -> Result<SureLink, LinkFault> {
        if self.given == u64::MAX {
            return Err(LinkFault::Memory);
        }
        self.given += 1;
        Ok(SureLink::new(alloc))
    }
}

/// A back end in memory that never fails, whatever is wanted to. Its dialers take no memory.
#[derive(Drop)]
pub struct SureOffice;

impl SureOffice {
    /// The back end. It takes no memory, and the same time always.
    pub fn new() -> SureOffice {
        SureOffice
    }
}

impl Office for SureOffice {
    type L = SureLink;

    type D = SureDialer;

    fn dialer(&mut self, _alloc: Global, _lane: u32, _fails: &Fails) -> Result<SureDialer, Memory> {
        Ok(SureDialer { given: 0 })
    }
}
