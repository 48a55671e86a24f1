ghost use Rattle.std.specs.Cmp.Lexicographic.{pointwise};
ghost use Rattle.std.specs.Ordering.{int_cmp, is_eq};
ghost use Rattle.std.specs.Prelude.{◌≡◌, ◌&&◌, nat_eq};
ghost use Rattle.dq_base.specs.Blends.{cell_eq};
ghost use Rattle.dq_base.specs.Ratios.{Fraction};
ghost use Rattle.dq_check.specs.Forcing as forcing;

use dq_base::{Cell, Cells, Ratio, Table};

/// Whether the ratios have the same sum and the same count.
fn ratios_equal(a: &Ratio, b: &Ratio) -> bool
    ensures { result ≡ (is_eq (int_cmp a.now.sum b.now.sum) && nat_eq a.now.others b.now.others) }
{
    a.sum() == b.sum() && a.count() == b.count()
}

/// Whether the cells are equal: 1/2 is not 2/4.
fn cells_equal(a: &Cell, b: &Cell) -> bool
    ensures { result ≡ cell_eq a.now b.now }
{
    match (a, b) {
        (Cell::Null, Cell::Null) => true,
        (Cell::Whole(x), Cell::Whole(y)) => x.cmp(y).is_eq(),
        (Cell::Word(x), Cell::Word(y)) => x.bytes().cmp(y.bytes()).is_eq(),
        (Cell::Ratio(x), Cell::Ratio(y)) => ratios_equal(x, y),
        _ => false,
    }
}

/// Whether the rows have the same cells, one by one.
fn rows_equal(a: &[Cell], b: &[Cell]) -> bool
    ensures { result ≡ forcing.rows_eq a.now b.now }
{
    if a.len() != b.len() {
        return false;
    }
    for (place, cell) in a.iter().enumerate() {
        if !cells_equal(cell, &b[place]) {
            return false;
        }
    }
    true
}

/// Whether the tables have the same rows, one by one. It costs their cells.
pub(crate) fn tables_equal(a: &[Cells], b: &[Cells]) -> bool
    ensures { result ≡ forcing.tables_eq a.now b.now }
{
    if a.len() != b.len() {
        return false;
    }
    for (place, row) in a.iter().enumerate() {
        if !rows_equal(row.as_slice(), b[place].as_slice()) {
            return false;
        }
    }
    true
}
