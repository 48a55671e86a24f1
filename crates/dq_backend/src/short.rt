ghost use Rattle.std.specs.Arc.{arc_value};
ghost use Rattle.std.specs.Prelude.{◌≡◌, ◌+◌, ◌<◌, ◌^◌, true, None, Some, IfOk, IsSome};
ghost use Rattle.dq_link.specs.Calls.{CountsDials, CountsFaults, CountsGiven, HasRoom};
ghost use Rattle.dq_link.specs.Meanings.{HasMeaning, Means};
ghost use Rattle.dq_link.specs.Mounts.{KeepsAs, SetsAs};
ghost use Rattle.dq_link.specs.Pairs.{lookup};
ghost use Rattle.dq_backend.specs.Standing.{ShortDialled, is_short, nothing_standing};

use crate::sure::SureLink;
use dq_base::{Fails, Memory, Table, Values};
use dq_extract::Extract;
use dq_link::{Dialer, Link, LinkFault, Office};
use std::alloc::Global;
use std::marker::Model;
use std::sync::Arc;

/// A sure link of whose calls one, by its number, finds no memory: that call raises the counts and does nothing else. It never fails,
/// and its other calls cost what those of `SureLink` do.
#[derive(Drop)]
pub struct ShortLink {
    link: SureLink,
    at: u64,
}

impl Model for ShortLink {
    ghost use Rattle.dq_backend.specs.Standing.{ShortStanding};

    ghost Value = { ShortStanding };

    ghost view = { λ l. record { standing = l.link; at = l.at } };
}

impl ShortLink {
    /// Whether the next call is the one that finds no memory.
    fn is_short(&self) -> bool
        requires { self.now.standing.calls < 2 ^ 40 }
        ensures { result ≡ is_short self.now }
    {
        self.link.calls() + 1 == self.at
    }
}

impl Link for ShortLink {
    ghost mounts = { λ l. lookup l.standing.mounts };

    ghost tables = { λ l. lookup l.standing.tables };

    ghost faults = { λ l. 0 };

    ghost runs = { λ l. l.standing.runs };

    ghost calls = { λ l. l.standing.calls };

    ghost planned = { λ l. None };

    fn mount(
        &mut self,
        alloc: Global,
        source: u32,
        stamp: u64,
        extract: Arc<Extract>,
    ) -> Result<(), LinkFault>
        requires { HasRoom self.old.standing.runs self.old.standing.calls }
        ensures mounts { SetsAs source (Some (record { stamp = stamp; version = arc_value extract })) (lookup self.old.standing.mounts) (lookup self.new.standing.mounts) result }
        ensures tables { KeepsAs (lookup self.old.standing.tables) (lookup self.new.standing.tables) result }
        ensures cause { CountsFaults 0 0 result }
        ensures calls { self.new.standing.calls ≡ self.old.standing.calls + 1 }
        ensures runs { self.new.standing.runs ≡ self.old.standing.runs }
        ensures short { is_short self.old ≡ true → result ≡ Err LinkFault.Memory }
        ensures at { self.new.at ≡ self.old.at }
    {
        if self.is_short() {
            self.link.count_call();
            return Err(LinkFault::Memory);
        }
        self.link.mount(alloc, source, stamp, extract)
    }

    fn put_table(&mut self, alloc: Global, name: u64, list: Arc<Values>) -> Result<(), LinkFault>
        requires room { HasRoom self.old.standing.runs self.old.standing.calls }
        requires new { lookup self.old.standing.tables name ≡ None }
        ensures mounts { KeepsAs (lookup self.old.standing.mounts) (lookup self.new.standing.mounts) result }
        ensures tables { SetsAs name (Some (arc_value list)) (lookup self.old.standing.tables) (lookup self.new.standing.tables) result }
        ensures cause { CountsFaults 0 0 result }
        ensures calls { self.new.standing.calls ≡ self.old.standing.calls + 1 }
        ensures runs { self.new.standing.runs ≡ self.old.standing.runs }
        ensures short { is_short self.old ≡ true → result ≡ Err LinkFault.Memory }
        ensures at { self.new.at ≡ self.old.at }
    {
        if self.is_short() {
            self.link.count_call();
            return Err(LinkFault::Memory);
        }
        self.link.put_table(alloc, name, list)
    }

    fn drop_table(&mut self, alloc: Global, name: u64) -> Result<(), LinkFault>
        requires room { HasRoom self.old.standing.runs self.old.standing.calls }
        requires there { IsSome (lookup self.old.standing.tables name) }
        ensures mounts { KeepsAs (lookup self.old.standing.mounts) (lookup self.new.standing.mounts) result }
        ensures tables { SetsAs name None (lookup self.old.standing.tables) (lookup self.new.standing.tables) result }
        ensures cause { CountsFaults 0 0 result }
        ensures calls { self.new.standing.calls ≡ self.old.standing.calls + 1 }
        ensures runs { self.new.standing.runs ≡ self.old.standing.runs }
        ensures short { is_short self.old ≡ true → result ≡ Err LinkFault.Memory }
        ensures at { self.new.at ≡ self.old.at }
    {
        if self.is_short() {
            self.link.count_call();
            return Err(LinkFault::Memory);
        }
        self.link.drop_table(alloc, name)
    }

    fn run(&mut self, alloc: Global, text: &[u8]) -> Result<Table, LinkFault>
        requires room { HasRoom self.old.standing.runs self.old.standing.calls }
        requires meaning { HasMeaning (lookup self.old.standing.mounts) (lookup self.old.standing.tables) text.now }
        ensures answer { IfOk result (λ table. Means (lookup self.old.standing.mounts) (lookup self.old.standing.tables) text.now table) }
        ensures mounts { KeepsAs (lookup self.old.standing.mounts) (lookup self.new.standing.mounts) result }
        ensures tables { KeepsAs (lookup self.old.standing.tables) (lookup self.new.standing.tables) result }
        ensures cause { CountsFaults 0 0 result }
        ensures calls { self.new.standing.calls ≡ self.old.standing.calls + 1 }
        ensures runs { self.new.standing.runs ≡ self.old.standing.runs + 1 }
        ensures short { is_short self.old ≡ true → result ≡ Err LinkFault.Memory }
        ensures at { self.new.at ≡ self.old.at }
    {
        if self.is_short() {
            self.link.count_run();
            self.link.count_call();
            return Err(LinkFault::Memory);
        }
        self.link.run(alloc, text)
    }

    fn faults(&self) -> u64 {
        0
    }
}

/// A dialer that never fails and tells no plan. Of each link that it gives the call of one number finds no memory. It takes no memory
/// itself. A link that can't be counted any more is `Memory`.
#[derive(Drop)]
pub struct ShortDialer {
    at: u64,
    given: u64,
}

impl Model for ShortDialer {
    ghost use Rattle.dq_backend.specs.Standing.{ShortDialled};

    ghost Value = { ShortDialled };

    ghost view = { λ d. record { at = d.at; given = d.given } };
}

impl Dialer for ShortDialer {
    type L = ShortLink;

    ghost faults = { λ d. 0 };

    ghost given = { λ d. d.given };

    ghost plan = { λ d. None };

    fn dial(&mut self, alloc: Global) -> Result<ShortLink, LinkFault>
        ensures link { IfOk result (λ link. link ≡ record { standing = nothing_standing; at = self.old.at }) }
        ensures cause { CountsDials 0 0 result }
        ensures given { CountsGiven self.old.given self.new.given result }
        ensures at { self.new.at ≡ self.old.at }
    {
        if self.given == u64::MAX {
            return Err(LinkFault::Memory);
        }
        self.given += 1;
        Ok(ShortLink {
            link: SureLink::new(alloc),
            at: self.at,
        })
    }
}

/// A sure back end, but for one call of each link, which finds no memory. It shows what want of memory leaves.
///
/// Contracts see the call's number, which counts from 1; at 0 no call is short. Its dialers take no memory.
#[derive(Drop)]
pub struct ShortOffice {
    at: u64,
}

impl Model for ShortOffice {
    ghost use Rattle.std.specs.Prelude.{ℕ};

    ghost Value = { ℕ };

    ghost view = { λ o. o.at };
}

impl ShortOffice {
    /// A back end each of whose links finds no memory in the call of that number. It takes no memory, and the same time always.
    pub fn new(at: u64) -> ShortOffice
        ensures { result ≡ at }
    {
        ShortOffice { at }
    }
}

impl Office for ShortOffice {
    type L = ShortLink;

    type D = ShortDialer;

    fn dialer(&mut self, _alloc: Global, _lane: u32, _fails: &Fails) -> Result<ShortDialer, Memory>
        ensures dialer { IfOk result (λ dialer. dialer ≡ record { at = self.old; given = 0 }) }
        ensures same { self.new ≡ self.old }
    {
        Ok(ShortDialer {
            at: self.at,
            given: 0,
        })
    }
}
