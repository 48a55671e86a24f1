ghost use Rattle.std.specs.Prelude.{◌≡◌, IfOk, length};

use crate::duplicate::Duplicate;
use crate::list::{List, Texts};
use crate::memory::Memory;
use std::alloc::Global;
use std::marker::Model;
use std::sync::Arc;

/// What a column holds beside nulls: whole numbers, or texts.
#[derive(Clone, Copy, Debug, PartialEq, Eq)]
pub enum Sort {
    Whole,
    Word,
}

/// The sorts of columns, in order.
pub type Sorts = List<Sort>;

/// What the columns are called and what they hold: as many sorts as names. Copies share both.
#[derive(Debug, Drop)]
pub struct Schema {
    columns: Arc<Columns>,
}

#[derive(Debug, Drop)]
struct Columns {
    names: Texts,
    sorts: Sorts,
}

impl Model for Schema {
    ghost use Rattle.std.specs.Arc.{arc_value};
    ghost use Rattle.std.specs.Prelude.{◌≡◌, length};
    ghost use Rattle.dq_base.specs.Headings.{Heading};

    ghost Value = { Heading };

    ghost view = { λ s. record { names = (arc_value s.columns).names; sorts = (arc_value s.columns).sorts } };

    ghost invariant = { λ s. length (arc_value s.columns).names ≡ length (arc_value s.columns).sorts };
}

impl Schema {
    /// A schema of these columns.
    pub fn new(alloc: Global, names: Texts, sorts: Sorts) -> Result<Schema, Memory>
        requires { length names ≡ length sorts }
        ensures { IfOk result (λ schema. schema ≡ record { names = names; sorts = sorts }) }
    {
        let columns = Arc::new(alloc, Columns { names, sorts })?;
        Ok(Schema { columns })
    }

    /// The columns' names, in order.
    pub fn names(&self) -> &Texts
        ensures names { result.now ≡ self.now.names }
        ensures paired { length self.now.names ≡ length self.now.sorts }
    {
        &self.columns.names
    }

    /// What the columns hold, in order.
    pub fn sorts(&self) -> &Sorts
        ensures sorts { result.now ≡ self.now.sorts }
        ensures paired { length self.now.names ≡ length self.now.sorts }
    {
        &self.columns.sorts
    }
}

impl Duplicate for Schema {
    /// An equal schema, which shares the columns: it costs the same for any number of them.
    fn duplicate(&self, _alloc: Global) -> Result<Schema, Memory> {
        let columns = Arc::try_clone(&self.columns)?;
        Ok(Schema { columns })
    }
}

/// The schemas of extracts, by the extracts' numbers.
pub type Schemas = List<Schema>;
