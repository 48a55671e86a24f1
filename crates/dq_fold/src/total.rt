ghost use Rattle.std.specs.Prelude.{◌≡◌, ◌+◌, ◌-◌, ◌^◌, ◌<◌, ◌≤◌, ◌+ℤ◌, pos};
ghost use Rattle.dq_fold.specs.Sums.{Sums, average_cell, merged_sums, sum_cell};

use dq_base::{Cell, Ratio};
use std::marker::Model;

/// A sum of whole numbers, and how many there were.
#[derive(Debug, Drop)]
pub struct Total {
    sum: i128,
    count: u64,
}

impl Model for Total {
    ghost use Rattle.dq_fold.specs.Sums.{Sums, IsSum};

    ghost Value = { Sums };

    ghost view = { λ t. record { sum = t.sum; count = t.count } };

    ghost invariant = { λ t. IsSum t.sum t.count };
}

impl Total {
    /// The sum of nothing.
    pub fn new() -> Total
        ensures { result ≡ record { sum = pos 0; count = 0 } }
    {
        Total { sum: 0, count: 0 }
    }

    /// Adds a number.
    pub fn add(&mut self, n: i64)
        requires { self.old.count < 2 ^ 23 }
        ensures { self.new ≡ record { sum = self.old.sum +ℤ n; count = self.old.count + 1 } }
    {
        self.sum += i128::from(n);
        self.count += 1;
    }

    /// Adds the numbers of another sum.
    pub fn merge(&mut self, other: &Total)
        requires { self.old.count + other.now.count ≤ 2 ^ 23 }
        ensures { self.new ≡ merged_sums self.old other.now }
    {
        self.sum += other.sum;
        self.count += other.count;
    }

    /// How many numbers were added.
    pub fn count(&self) -> u64
        ensures { result ≡ self.now.count }
    {
        self.count
    }

    /// The sum, or null over nothing.
    pub fn sum(&self) -> Cell
        ensures { result ≡ sum_cell self.now }
    {
        if self.count == 0 {
            return Cell::Null;
        }
        Cell::Whole(self.sum)
    }

    /// The sum over the count, not reduced, or null over nothing.
    pub fn average(&self) -> Cell
        requires { self.now.count ≤ 2 ^ 23 }
        ensures { result ≡ average_cell self.now }
    {
        if self.count == 0 {
            return Cell::Null;
        }
        match Ratio::new(self.sum, self.count) {
            Some(ratio) => Cell::Ratio(ratio),
            None => unreachable!(),
        }
    }
}
