ghost use Rattle.std.specs.Prelude.{◌≡◌, [], OnErr, OnOk, length};
ghost use Rattle.dq_base.specs.Orders.{value_cmp};
ghost use Rattle.dq_base.specs.Sets.{with};
ghost use Rattle.dq_fold.specs.Tallies.{all_seen};

use dq_base::{Duplicate, Memory, Value};
use std::alloc::Global;
use std::collections::BTreeSet;
use std::marker::Model;

/// Different values. Contracts see them as the ascending list.
#[derive(Drop)]
pub struct Seen {
    set: BTreeSet<Value>,
}

impl Model for Seen {
    ghost use Rattle.std.specs.Prelude.{List};
    ghost use Rattle.dq_base.specs.declared.value.Value.{Value as OneValue};

    ghost Value = { List OneValue };

    ghost view = { λ s. s.set.keys };
}

impl Seen {
    /// No values. It takes no memory.
    pub fn new(alloc: Global) -> Seen
        ensures { result ≡ [] }
    {
        Seen {
            set: BTreeSet::new(alloc),
        }
    }

    /// How many values there are.
    pub fn len(&self) -> u64
        ensures { result ≡ length self.now }
    {
        self.set.len() as u64
    }

    /// Puts a value in, unless it is there. Only a new value takes memory. An `Err` changes nothing.
    pub fn add(&mut self, alloc: Global, v: &Value) -> Result<(), Memory>
        ensures ok { OnOk result (self.new ≡ with value_cmp v.now self.old) }
        ensures err { OnErr result (self.new ≡ self.old) }
    {
        let _ordered = self.set.len();
        if self.set.contains(v) {
            return Ok(());
        }
        let copy = v.duplicate(alloc)?;
        self.set.insert(copy)?;
        Ok(())
    }

    /// Puts each of other values in. Only the new ones take memory.
    pub fn merge(&mut self, alloc: Global, other: &Seen) -> Result<(), Memory>
        ensures { OnOk result (self.new ≡ all_seen self.old other.now) }
    {
        for v in &other.set {
            self.add(alloc, v)?;
        }
        Ok(())
    }
}
