ghost use Rattle.std.specs.Prelude.{◌≡◌, ◌+◌, ◌^◌, ◌<◌, ◌≤◌, [], IfOk, OnOk};
ghost use Rattle.std.specs.Option.{option_copied};
ghost use Rattle.dq_base.specs.Answers.{cell_of, number_of};
ghost use Rattle.dq_fold.specs.Sums.{summed};
ghost use Rattle.dq_fold.specs.Tallies.{added, best_cell, best_in, count_in, counted, lowered, lowers, merged, raised, raises, seen, tally_cell, tally_of, with_seen, with_sum};

use crate::keeps::filled_at;
use crate::seen::Seen;
use crate::total::Total;
use dq_base::{Cell, Duplicate, Measure, Memory, Text, Value, compare_values};
use std::alloc::Global;

/// What is kept of a group's rows for one measure. Columns are numbered from 0.
#[derive(Drop)]
pub enum Tally {
    Rows(u64),
    Count(u32, u64),
    Sum(u32, Total),
    Least(u32, Option<Value>),
    Greatest(u32, Option<Value>),
    Distinct(u32, Seen),
    Average(u32, Total),
}

impl Tally {
    /// What is kept of no rows. It takes no memory.
    pub fn new(alloc: Global, m: Measure) -> Tally
        ensures { result ≡ tally_of [] m }
    {
        match m {
            Measure::Rows => Tally::Rows(0),
            Measure::Count(c) => Tally::Count(c, 0),
            Measure::Sum(c) => Tally::Sum(c, Total::new()),
            Measure::Min(c) => Tally::Least(c, None),
            Measure::Max(c) => Tally::Greatest(c, None),
            Measure::Distinct(c) => Tally::Distinct(c, Seen::new(alloc)),
            Measure::Avg(c) => Tally::Average(c, Total::new()),
        }
    }

    /// Adds a row. Only a new bound or a new different value takes memory.
    pub fn add(&mut self, alloc: Global, row: &[Value]) -> Result<(), Memory>
        requires { count_in self.old < 2 ^ 23 }
        ensures { OnOk result (self.new ≡ added row.now self.old) }
    {
        match self {
            Tally::Rows(n) => {
                *n += 1;
                Ok(())
            }
            Tally::Count(c, n) => {
                count(n, filled_at(row, *c));
                Ok(())
            }
            Tally::Sum(c, total) => {
                sum(total, filled_at(row, *c));
                Ok(())
            }
            Tally::Least(c, best) => lower(alloc, best, filled_at(row, *c)),
            Tally::Greatest(c, best) => raise(alloc, best, filled_at(row, *c)),
            Tally::Distinct(c, values) => see(alloc, values, filled_at(row, *c)),
            Tally::Average(c, total) => {
                sum(total, filled_at(row, *c));
                Ok(())
            }
        }
    }

    /// Adds the rows of another tally for the same measure. Only a new bound or a new different value takes memory.
    pub fn merge(&mut self, alloc: Global, other: &Tally) -> Result<(), Memory>
        requires { count_in self.old + count_in other.now ≤ 2 ^ 23 }
        ensures { OnOk result (self.new ≡ merged self.old other.now) }
    {
        match self {
            Tally::Rows(n) => {
                *n += other.count();
                Ok(())
            }
            Tally::Count(_, n) => {
                *n += other.count();
                Ok(())
            }
            Tally::Sum(_, total) => {
                merge_sum(total, other);
                Ok(())
            }
            Tally::Least(_, best) => lower(alloc, best, other.best()),
            Tally::Greatest(_, best) => raise(alloc, best, other.best()),
            Tally::Distinct(_, values) => merge_seen(alloc, values, other),
            Tally::Average(_, total) => {
                merge_sum(total, other);
                Ok(())
            }
        }
    }

    /// How many rows or values are counted.
    fn count(&self) -> u64
        ensures { result ≡ count_in self.now }
    {
        match self {
            Tally::Rows(n) => *n,
            Tally::Count(_, n) => *n,
            Tally::Sum(_, total) => total.count(),
            Tally::Least(_, _) => 0,
            Tally::Greatest(_, _) => 0,
            Tally::Distinct(_, _) => 0,
            Tally::Average(_, total) => total.count(),
        }
    }

    /// The bound, if there is one.
    fn best(&self) -> Option<&Value>
        ensures { option_copied result ≡ best_in self.now }
    {
        match self {
            Tally::Rows(_) => None,
            Tally::Count(_, _) => None,
            Tally::Sum(_, _) => None,
            Tally::Least(_, best) => best.as_ref(),
            Tally::Greatest(_, best) => best.as_ref(),
            Tally::Distinct(_, _) => None,
            Tally::Average(_, _) => None,
        }
    }

    /// The measure over the rows that were added.
    pub fn cell(&self, alloc: Global) -> Result<Cell, Memory>
        requires { count_in self.now ≤ 2 ^ 23 }
        ensures { IfOk result (λ cell. cell ≡ tally_cell self.now) }
    {
        match self {
            Tally::Rows(n) => Ok(Cell::Whole(i128::from(*n))),
            Tally::Count(_, n) => Ok(Cell::Whole(i128::from(*n))),
            Tally::Sum(_, total) => Ok(total.sum()),
            Tally::Least(_, best) => cell_of_best(alloc, best),
            Tally::Greatest(_, best) => cell_of_best(alloc, best),
            Tally::Distinct(_, values) => Ok(Cell::Whole(i128::from(values.len()))),
            Tally::Average(_, total) => Ok(total.average()),
        }
    }
}

/// Counts a value, if there is one.
fn count(n: &mut u64, v: Option<&Value>)
    requires { n.old < 2 ^ 23 }
    ensures { n.new ≡ counted (option_copied v.entry) n.old }
{
    match v {
        None => {}
        Some(_) => *n += 1,
    }
}

/// Adds a value's number to a sum, if there is a value.
fn sum(total: &mut Total, v: Option<&Value>)
    requires { total.old.count < 2 ^ 23 }
    ensures { total.new ≡ summed (option_copied v.entry) total.old }
{
    match v {
        None => {}
        Some(v) => total.add(number(v)),
    }
}

/// Puts a value in place of the least so far, if it is below that.
fn lower(alloc: Global, best: &mut Option<Value>, v: Option<&Value>) -> Result<(), Memory>
    ensures { OnOk result (best.new ≡ lowered (option_copied v.entry) best.old) }
{
    let Some(v) = v else {
        return Ok(());
    };
    if is_lower(v, best) {
        *best = Some(v.duplicate(alloc)?);
    }
    Ok(())
}

/// Puts a value in place of the greatest so far, if it is above that.
fn raise(alloc: Global, best: &mut Option<Value>, v: Option<&Value>) -> Result<(), Memory>
    ensures { OnOk result (best.new ≡ raised (option_copied v.entry) best.old) }
{
    let Some(v) = v else {
        return Ok(());
    };
    if is_higher(v, best) {
        *best = Some(v.duplicate(alloc)?);
    }
    Ok(())
}

/// Puts a value among the different values, if there is one.
fn see(alloc: Global, values: &mut Seen, v: Option<&Value>) -> Result<(), Memory>
    ensures { OnOk result (values.new ≡ seen (option_copied v.entry) values.old) }
{
    match v {
        None => Ok(()),
        Some(v) => values.add(alloc, v),
    }
}

/// Adds the sum that a tally keeps, if it keeps one.
fn merge_sum(total: &mut Total, other: &Tally)
    requires { total.old.count + count_in other.now ≤ 2 ^ 23 }
    ensures { total.new ≡ with_sum total.old other.now }
{
    match other {
        Tally::Rows(_) => {}
        Tally::Count(_, _) => {}
        Tally::Sum(_, more) => total.merge(more),
        Tally::Least(_, _) => {}
        Tally::Greatest(_, _) => {}
        Tally::Distinct(_, _) => {}
        Tally::Average(_, more) => total.merge(more),
    }
}

/// Puts the different values that a tally keeps in, if it keeps some.
fn merge_seen(alloc: Global, values: &mut Seen, other: &Tally) -> Result<(), Memory>
    ensures { OnOk result (values.new ≡ with_seen values.old other.now) }
{
    match other {
        Tally::Rows(_) => Ok(()),
        Tally::Count(_, _) => Ok(()),
        Tally::Sum(_, _) => Ok(()),
        Tally::Least(_, _) => Ok(()),
        Tally::Greatest(_, _) => Ok(()),
        Tally::Distinct(_, more) => values.merge(alloc, more),
        Tally::Average(_, _) => Ok(()),
    }
}

/// A value's number, or 0 where it has none.
fn number(v: &Value) -> i64
    ensures { result ≡ number_of v.now }
{
    match v {
        Value::Null => 0,
        Value::Int(n) => *n,
        Value::Word(_) => 0,
    }
}

/// Whether a value is below the least so far.
fn is_lower(v: &Value, best: &Option<Value>) -> bool
    ensures { result ≡ lowers v.now best.now }
{
    match best {
        None => true,
        Some(b) => compare_values(v, b).is_lt(),
    }
}

/// Whether a value is above the greatest so far.
fn is_higher(v: &Value, best: &Option<Value>) -> bool
    ensures { result ≡ raises v.now best.now }
{
    match best {
        None => true,
        Some(b) => compare_values(v, b).is_gt(),
    }
}

/// The cell of a value.
pub fn cell_from(alloc: Global, v: &Value) -> Result<Cell, Memory>
    ensures { IfOk result (λ cell. cell ≡ cell_of v.now) }
{
    match v {
        Value::Null => Ok(Cell::Null),
        Value::Int(n) => Ok(Cell::Whole(i128::from(*n))),
        Value::Word(text) => Ok(Cell::Word(Text::copy_of(alloc, text.bytes())?)),
    }
}

/// The cell of a value, or null.
fn cell_of_best(alloc: Global, best: &Option<Value>) -> Result<Cell, Memory>
    ensures { IfOk result (λ cell. cell ≡ best_cell best.now) }
{
    match best {
        None => Ok(Cell::Null),
        Some(v) => cell_from(alloc, v),
    }
}
