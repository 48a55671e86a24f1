ghost use Rattle.std.specs.Prelude.{◌≡◌, ◌-◌, ◌↔◌, IsSome, IfSome};
ghost use Rattle.dq_base.specs.Orders.{ratio_cmp};
ghost use Rattle.dq_base.specs.Ratios.{Fraction, IsRatio, count_of};

use std::cmp::Ordering;
use std::marker::Model;

/// The largest size of a sum: what 2^23 numbers of 64 bits add up to.
const LARGEST_SUM: u128 = 1 << 86;

/// The largest count: the most rows of an extract.
const LARGEST_COUNT: u64 = 1 << 23;

/// A sum over a count, as they were found: 6/4 is not 3/2.
#[derive(Debug, Drop)]
pub struct Ratio {
    sum: i128,
    count: u64,
}

impl Model for Ratio {
    ghost use Rattle.std.specs.Prelude.{◌-◌};
    ghost use Rattle.dq_base.specs.Ratios.{Fraction, IsRatio};

    ghost Value = { Fraction };

    ghost view = { λ r. record { sum = r.sum; others = r.count - 1 } };

    ghost invariant = { λ r. IsRatio r.sum r.count };
}

impl Ratio {
    /// The ratio; none exactly where the sum is above 2^86 in size, or the count isn't from 1 to 2^23. It takes no memory.
    pub fn new(sum: i128, count: u64) -> Option<Ratio>
        ensures value { IfSome result (λ r. r ≡ record { sum = sum; others = count - 1 }) }
        ensures within { IsSome result ↔ IsRatio sum count }
    {
        if sum.unsigned_abs() > LARGEST_SUM || count < 1 || count > LARGEST_COUNT {
            None
        } else {
            Some(Ratio { sum, count })
        }
    }

    /// The sum.
    pub fn sum(&self) -> i128
        ensures { result ≡ self.now.sum }
    {
        self.sum
    }

    /// How many were added, at least 1.
    pub fn count(&self) -> u64
        ensures { result ≡ count_of self.now }
    {
        self.count
    }

    /// The order by cross multiplication.
    pub fn compare(&self, other: &Ratio) -> Ordering
        ensures { result ≡ ratio_cmp self.now other.now }
    {
        let left = self.sum * i128::from(other.count);
        let right = other.sum * i128::from(self.count);
        left.cmp(&right)
    }

    /// The same ratio again. It takes no memory.
    pub fn again(&self) -> Ratio
        ensures { result ≡ self.now }
    {
        Ratio {
            sum: self.sum,
            count: self.count,
        }
    }
}
