ghost use Rattle.std.specs.Prelude.{◌≡◌, IfOk};

use crate::list::{List, Text};
use crate::memory::Memory;
use crate::predicate::{Predicate, Test};
use crate::query::{Measure, OrderKey, Query};
use crate::schema::Sort;
use crate::value::Value;
use std::alloc::Global;

/// What can be copied into memory of its own.
pub trait Duplicate: Drop {
    /// An equal value. The cost is that of reading the value once.
    fn duplicate(&self, alloc: Global) -> Result<Self, Memory>
        ensures { IfOk result (λ copy. copy ≡ self.now) };
}

impl Duplicate for u32 {
    fn duplicate(&self, _alloc: Global) -> Result<u32, Memory> {
        Ok(*self)
    }
}

impl Duplicate for Measure {
    fn duplicate(&self, _alloc: Global) -> Result<Measure, Memory> {
        Ok(*self)
    }
}

impl Duplicate for OrderKey {
    fn duplicate(&self, _alloc: Global) -> Result<OrderKey, Memory> {
        Ok(*self)
    }
}

impl<T: Duplicate> Duplicate for List<T> {
    fn duplicate(&self, alloc: Global) -> Result<List<T>, Memory> {
        let mut copy = List::with_capacity(alloc, self.len())?;
        for item in self.as_slice() {
            copy.push(item.duplicate(alloc)?)?;
        }
        Ok(copy)
    }
}

impl Duplicate for Value {
    fn duplicate(&self, alloc: Global) -> Result<Value, Memory> {
        match self {
            Value::Null => Ok(Value::Null),
            Value::Int(n) => Ok(Value::Int(*n)),
            Value::Word(text) => Ok(Value::Word(Text::copy_of(alloc, text.bytes())?)),
        }
    }
}

impl Duplicate for Test {
    fn duplicate(&self, alloc: Global) -> Result<Test, Memory> {
        match self {
            Test::Among(list) => Ok(Test::Among(list.duplicate(alloc)?)),
            Test::Except(list) => Ok(Test::Except(list.duplicate(alloc)?)),
            Test::Between(low, high) => Ok(Test::Between(*low, *high)),
        }
    }
}

impl Duplicate for Predicate {
    fn duplicate(&self, alloc: Global) -> Result<Predicate, Memory> {
        Ok(Predicate {
            column: self.column,
            test: self.test.duplicate(alloc)?,
        })
    }
}

impl Duplicate for Query {
    fn duplicate(&self, alloc: Global) -> Result<Query, Memory> {
        Ok(Query {
            source: self.source,
            filters: self.filters.duplicate(alloc)?,
            dims: self.dims.duplicate(alloc)?,
            measures: self.measures.duplicate(alloc)?,
            order: self.order.duplicate(alloc)?,
            top: self.top,
        })
    }
}

impl Duplicate for Sort {
    fn duplicate(&self, _alloc: Global) -> Result<Sort, Memory> {
        Ok(*self)
    }
}
