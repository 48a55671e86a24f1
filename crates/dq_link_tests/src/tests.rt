// Links that are made ready and run on a back end that only mounts. What is asked of tables, and what a run gives, is tested with a back
// end that evaluates, in the crate above.
ghost use Rattle.std.specs.Arc.{arc_value};
ghost use Rattle.std.specs.Prelude.{◌≡◌, ◌≤◌, ◌∷◌, [], None, IfSome};
ghost use Rattle.dq_base.specs.declared.query.Measure.TheVariants.{Rows};

use dq_base::{Canon, List, Measure, Query, Schema, Table, Values};
use dq_extract::Extract;
use dq_link::*;
use dq_text::print;
use std::alloc::Global;
use std::marker::Model;
use std::process::Abort;
use std::sync::Arc;

#[derive(Drop)]
struct Kept {
    stamp: u64,
    extract: Arc<Extract>,
}

impl Model for Kept {
    ghost use Rattle.std.specs.Arc.{arc_value};
    ghost use Rattle.dq_link.specs.Mounts.{Mounted};

    ghost Value = { Mounted };

    ghost view = { λ k. record { stamp = k.stamp; version = arc_value k.extract } };
}

#[derive(Drop)]
struct Held {
    number: u64,
    list: Arc<Values>,
}

impl Model for Held {
    ghost use Rattle.std.specs.Arc.{arc_value};
    ghost use Rattle.std.specs.Prelude.{List as ListOf, ℕ};
    ghost use Rattle.dq_base.specs.declared.value.Value.{Value as OneValue};

    ghost Value = { ℕ × ListOf OneValue };

    ghost view = { λ h. (h.number, arc_value h.list) };
}

/// A link that mounts the first source's versions and holds one table, and finds no memory for anything else; or whose calls all
/// fail.
#[derive(Drop)]
struct Mounting {
    mounted: Option<Kept>,
    held: Option<Held>,
    fails: bool,
    faults: u64,
    runs: u64,
    calls: u64,
}

impl Link for Mounting {
    ghost use Rattle.std.specs.Option.{option_and_then};
    ghost use Rattle.std.specs.Prelude.{None, Some, nat_eq, if◌then◌else◌};

    ghost mounts = { λ s n. if nat_eq n 0 then s.mounted else None };

    ghost tables = { λ s n. option_and_then (λ h. if nat_eq n h.0 then Some h.1 else None) s.held };

    ghost faults = { λ s. s.faults };

    ghost runs = { λ s. s.runs };

    ghost calls = { λ s. s.calls };

    ghost planned = { λ s. None };

    fn mount(
        &mut self,
        _alloc: Global,
        source: u32,
        stamp: u64,
        extract: Arc<Extract>,
    ) -> Result<(), LinkFault> {
        self.calls += 1;
        if self.fails {
            self.faults = self.faults.saturating_add(1);
            return Err(LinkFault::Failed);
        }
        if source != 0 {
            return Err(LinkFault::Memory);
        }
        self.mounted = Some(Kept { stamp, extract });
        Ok(())
    }

    fn put_table(
        &mut self,
        _alloc: Global,
        number: u64,
        list: Arc<Values>,
    ) -> Result<(), LinkFault> {
        self.calls += 1;
        if self.fails {
            self.faults = self.faults.saturating_add(1);
            return Err(LinkFault::Failed);
        }
        if self.held.is_some() {
            return Err(LinkFault::Memory);
        }
        self.held = Some(Held { number, list });
        Ok(())
    }

    fn drop_table(&mut self, _alloc: Global, _name: u64) -> Result<(), LinkFault> {
        self.calls += 1;
        if !self.fails {
            return Err(LinkFault::Memory);
        }
        self.faults = self.faults.saturating_add(1);
        Err(LinkFault::Failed)
    }

    fn run(&mut self, _alloc: Global, _text: &[u8]) -> Result<Table, LinkFault> {
        self.calls += 1;
        self.runs += 1;
        if !self.fails {
            return Err(LinkFault::Memory);
        }
        self.faults = self.faults.saturating_add(1);
        Err(LinkFault::Failed)
    }

    fn faults(&self) -> u64 {
        self.faults
    }
}

// A link that wasn't called, under the number 3.
fn third(alloc: Global, fails: bool) -> Pooled<Mounting>
    ensures calls { result.link.calls ≡ 0 }
    ensures mounted { result.link.mounted ≡ None }
{
    let link = Mounting {
        mounted: None,
        held: None,
        fails,
        faults: 0,
        runs: 0,
        calls: 0,
    };
    Pooled::new(alloc, 3, link)
}

// An extract without columns.
fn bare(rt: &impl Abort, alloc: Global) -> Arc<Extract>
    ensures { (arc_value result).heading.sorts ≡ [] }
{
    let schema = Schema::new(alloc, List::new(alloc), List::new(alloc));
    let extract = Extract::empty(alloc, schema.ok().expect(rt, "memory"));
    Arc::new(alloc, extract).ok().expect(rt, "memory")
}

// How many rows there are.
fn count(rt: &impl Abort, alloc: Global) -> Canon
    ensures { result ≡ record { source = 0; filters = []; dims = []; measures = Rows ∷ []; order = []; top = None } }
{
    let measures = vec![in alloc; Measure::Rows];
    Canon::new(Query {
        source: 0,
        filters: List::new(alloc),
        dims: List::new(alloc),
        measures: List::from_vec(measures.ok().expect(rt, "memory")),
        order: List::new(alloc),
        top: None,
    })
}

// The link is made ready in one call altogether, and the statement has the text.
fn made_ready(
    rt: &impl Abort,
    alloc: Global,
    pooled: Pooled<Mounting>,
    extract: &Arc<Extract>,
) -> Pooled<Mounting>
    requires bare { (arc_value extract.now).heading.sorts ≡ [] }
    requires stands { IfSome pooled.link.mounted (λ m. m ≡ record { stamp = 1; version = arc_value extract.now }) }
    requires room { pooled.link.calls ≤ 1 }
    ensures stands { IfSome result.link.mounted (λ m. m ≡ record { stamp = 1; version = arc_value extract.now }) }
    ensures room { result.link.calls ≤ 1 }
{
    match pooled.ready(alloc, 1, extract, &count(rt, alloc)) {
        Readied::Ready(pooled, statement) => {
            let text = print(alloc, &statement).ok().expect(rt, "memory");
            assert_eq!(rt; text.bytes(), b"from 0@1 show rows".as_slice());
            assert_eq!(rt; pooled.calls(), 1);
            pooled
        }
        Readied::Memory(_) => rt.abort(),
        Readied::Failed(_) => rt.abort(),
    }
}

#[test]
fn a_version_is_mounted_once(rt: HostRuntime) {
    let alloc = rt.alloc();
    let extract = bare(&rt, alloc);
    let pooled = third(alloc, false);
    assert_eq!(rt; pooled.number(), 3);
    let pooled = made_ready(&rt, alloc, pooled, &extract);
    let pooled = made_ready(&rt, alloc, pooled, &extract);
    assert_eq!(rt; pooled.runs(), 0);
    assert_eq!(rt; pooled.number(), 3);
}

#[test]
fn a_fault_makes_a_wreck(rt: HostRuntime) {
    let alloc = rt.alloc();
    let extract = bare(&rt, alloc);
    match third(alloc, true).ready(alloc, 1, &extract, &count(&rt, alloc)) {
        Readied::Failed(wreck) => {
            assert_eq!(rt; wreck.number(), 3);
            assert_eq!(rt; wreck.calls(), 1);
            assert_eq!(rt; wreck.runs(), 0);
            assert_eq!(rt; wreck.faults(), 1);
        }
        Readied::Memory(_) => rt.abort(),
        Readied::Ready(_, _) => rt.abort(),
    }
}
