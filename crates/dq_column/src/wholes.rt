ghost use Rattle.std.specs.Prelude.{◌≡◌, ◌++◌, ◌∷◌, [], OnErr, OnOk, length, map, option_map, slice_get};
ghost use Rattle.dq_base.specs.Answers.{is_present, number_of};
ghost use Rattle.dq_column.specs.Stored.{whole_of};

use dq_base::{List, Memory, Value};
use std::alloc::Global;
use std::marker::Model;

/// The numbers of a column.
pub type Wholes = List<i64>;

/// Which rows something holds of.
pub type Marks = List<bool>;

/// A column of whole numbers and nulls. Contracts see its values, one for each row; places count from 0.
#[derive(Drop)]
pub struct WholeColumn {
    numbers: Wholes,
    marks: Marks,
}

impl Model for WholeColumn {
    ghost use Rattle.std.specs.Prelude.{List};
    ghost use Rattle.dq_base.specs.declared.value.Value.{Value as OneValue};
    ghost use Rattle.dq_column.specs.Stored.{IsWholes, values_of};

    ghost Value = { List OneValue };

    ghost view = { λ c. values_of c.marks c.numbers };

    ghost invariant = { λ c. IsWholes c.marks c.numbers };
}

impl WholeColumn {
    /// The column without rows. It takes no memory.
    pub fn new(alloc: Global) -> WholeColumn
        ensures { result ≡ [] }
    {
        WholeColumn {
            numbers: List::new(alloc),
            marks: List::new(alloc),
        }
    }

    /// How many rows there are.
    pub fn len(&self) -> u64
        ensures { result ≡ length self.now }
    {
        self.marks.len()
    }

    /// Puts a row at the end, in constant time but for growth. An `Err` changes nothing.
    pub fn push(&mut self, number: Option<i64>) -> Result<(), Memory>
        ensures ok { OnOk result (self.new ≡ self.old ++ whole_of number ∷ []) }
        ensures err { OnErr result (self.new ≡ self.old) }
    {
        let mark = number.is_some();
        let n = number.unwrap_or(0);
        self.numbers.push(n)?;
        if self.marks.push(mark).is_err() {
            self.numbers.truncate(self.marks.len());
            return Err(Memory);
        }
        Ok(())
    }

    /// The value of the row at a place, or none exactly where the place isn't below the length.
    #[tactic(auto, using(crate::proofs::Marked::value_got, crate::proofs::Marked::none_got))]
    pub fn value(&self, place: u64) -> Option<Value>
        ensures { result ≡ slice_get self.now place }
    {
        let mark = self.marks.get(place)?;
        let number = self.numbers.get(place)?;
        if *mark {
            Some(Value::Int(*number))
        } else {
            Some(Value::Null)
        }
    }

    /// The number of each row, 0 for null.
    pub fn numbers(&self) -> &Wholes
        ensures { result.now ≡ map number_of self.now }
    {
        &self.numbers
    }

    /// Which rows have a number.
    pub fn marks(&self) -> &Marks
        ensures { result.now ≡ map is_present self.now }
    {
        &self.marks
    }
}
