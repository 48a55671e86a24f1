ghost use Rattle.std.specs.Arc.{arc_value};
ghost use Rattle.std.specs.Prelude.{◌≡◌, [], ◌∷◌, ◌++◌, IfOk, OnErr, OnOk, length, map, option_map, slice_get};
ghost use Rattle.dq_base.specs.Canonical.{IsCanonical};

use crate::duplicate::Duplicate;
use crate::list::List;
use crate::memory::Memory;
use crate::query::Query;
use std::alloc::Global;
use std::marker::Model;
use std::sync::Arc;

/// A query in canonical form.
#[derive(Debug, Drop)]
pub struct Canon {
    query: Query,
}

impl Model for Canon {
    ghost use Rattle.dq_base.specs.declared.query.Query.{Query};

    ghost Value = { Query };

    ghost use Rattle.dq_base.specs.Canonical.{IsCanonical};

    ghost view = { λ c. c.query };

    ghost invariant = { λ c. IsCanonical c.query };
}

impl Canon {
    /// A query that is in canonical form.
    pub fn new(query: Query) -> Canon
        requires { IsCanonical query }
        ensures { result ≡ query }
    {
        Canon { query }
    }

    /// The query.
    pub fn query(&self) -> &Query
        ensures same { result.now ≡ self.now }
        ensures canonical { IsCanonical self.now }
    {
        &self.query
    }

    /// The same query again.
    pub fn duplicate(&self, alloc: Global) -> Result<Canon, Memory>
        ensures { IfOk result (λ c. c ≡ self.now) }
    {
        let query = self.query.duplicate(alloc)?;
        Ok(Canon { query })
    }
}

/// Shared canonical queries in order, as those of a batch's valid zones. Contracts see the queries; places count from 0.
#[derive(Drop)]
pub struct Canons {
    owners: List<Arc<Canon>>,
}

impl Model for Canons {
    ghost use Rattle.std.specs.Arc.{arc_value};
    ghost use Rattle.std.specs.Prelude.{List as ListOf, map};
    ghost use Rattle.dq_base.specs.declared.query.Query.{Query};

    ghost Value = { ListOf Query };

    ghost view = { λ c. map arc_value c.owners };
}

impl Canons {
    /// The empty list. It takes no memory.
    pub fn new(alloc: Global) -> Canons
        ensures { result ≡ [] }
    {
        Canons {
            owners: List::new(alloc),
        }
    }

    /// How many queries there are.
    pub fn len(&self) -> u64
        ensures { result ≡ length self.now }
    {
        self.owners.len()
    }

    /// The query at a place, or none exactly where the place isn't below the length.
    pub fn get(&self, place: u64) -> Option<&Arc<Canon>>
        ensures { option_map (λ owner. arc_value owner.now) result ≡ slice_get self.now place }
    {
        self.owners.get(place)
    }

    /// The owners of the queries.
    pub fn as_slice(&self) -> &[Arc<Canon>]
        ensures { map arc_value result.now ≡ self.now }
    {
        self.owners.as_slice()
    }

    /// Puts a query at the end, in constant time but for growth. An `Err` changes nothing.
    pub fn push(&mut self, owner: Arc<Canon>) -> Result<(), Memory>
        ensures ok { OnOk result (self.new ≡ self.old ++ arc_value owner ∷ []) }
        ensures err { OnErr result (self.new ≡ self.old) }
    {
        self.owners.push(owner)
    }
}

/// How a query of a batch is answered: by a statement, or from the answer of the query at a place, which counts from 0.
#[derive(Clone, Copy, Debug, PartialEq, Eq)]
pub enum Role {
    Remote,
    Local(u32),
}
