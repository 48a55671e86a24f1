ghost use Rattle.std.specs.Prelude.{◌≡◌, ◌-◌, ◌<◌, ◌↔◌, ℕ, ℤ, IsSome, IfSome};
ghost use Rattle.dq_base.specs.Dims.{IsRoundedDown, band_of, plain, width_of};

use crate::duplicate::Duplicate;
use crate::list::List;
use crate::memory::Memory;
use std::alloc::Global;
use std::marker::Model;

/// What an answer groups by: the values of a column, which is numbered from 0, or where the width is above 1 the bands of
/// that width into which its whole numbers fall.
#[derive(Debug, Drop)]
pub struct Dim {
    column: u32,
    width: u32,
}

impl Model for Dim {
    ghost use Rattle.std.specs.Prelude.{◌-◌, ◌<◌};
    ghost use Rattle.dq_base.specs.Dims.{Dimension};

    ghost Value = { Dimension };

    ghost view = { λ d. record { column = d.column; beyond = d.width - 1 } };

    ghost invariant = { λ d. 0 < d.width };
}

impl Dim {
    /// The dimension; none exactly where the width is 0. It takes no memory.
    pub fn new(column: u32, width: u32) -> Option<Dim>
        ensures value { IfSome result (λ d. d ≡ record { column = column; beyond = width - 1 }) }
        ensures wide { IsSome result ↔ (0 < width) }
    {
        if width == 0 {
            None
        } else {
            Some(Dim { column, width })
        }
    }

    /// The dimension of a column's values themselves, whose width is 1.
    pub fn plain(column: u32) -> Dim
        ensures { result ≡ plain column }
    {
        Dim { column, width: 1 }
    }

    /// The column's number, from 0.
    pub fn column(&self) -> u32
        ensures { result ≡ self.now.column }
    {
        self.column
    }

    /// The width of its bands, at least 1.
    pub fn width(&self) -> u32
        ensures { result ≡ width_of self.now }
    {
        self.width
    }

    /// The same dimension again. It takes no memory.
    pub fn again(&self) -> Dim
        ensures { result ≡ self.now }
    {
        Dim {
            column: self.column,
            width: self.width,
        }
    }

    /// The number of the band into which a whole number falls.
    pub fn band(&self, number: i64) -> i64
        ensures { result ≡ band_of (width_of self.now) number }
    {
        number.div_euclid(i64::from(self.width))
    }
}

impl Duplicate for Dim {
    fn duplicate(&self, _alloc: Global) -> Result<Dim, Memory> {
        Ok(self.again())
    }
}

/// Dimensions in the order in which they are shown.
pub type Dims = List<Dim>;

/// A band's number is the greatest that, times the width, isn't above the number. The body is empty: the clause is the fact.
pub fn bands_round_down()
    ensures { (width : ℕ) (number : ℤ) → 0 < width → IsRoundedDown width number (band_of width number) }
{}
