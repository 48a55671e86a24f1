use crate::list::{List, Text};
use crate::orders::compare_values;
use std::cmp::Ordering;

/// A value of a row: nothing, a whole number, or a text.
#[derive(Debug, Drop)]
pub enum Value {
    Null,
    Int(i64),
    Word(Text),
}

/// A row, or a list in a test.
pub type Values = List<Value>;

impl PartialEq for Value {
    ghost use Rattle.std.specs.Cmp.{partial_equiv_from_equiv, eq_by_cmp_equiv};
    ghost use Rattle.std.specs.Ordering.{eq_by_cmp};
    ghost use Rattle.dq_base.specs.Orders.{value_cmp};
    ghost use Rattle.dq_base.specs.ValueOrder.{value_cmp_total};

    ghost eq = { eq_by_cmp value_cmp };

    ghost laws = { partial_equiv_from_equiv (eq_by_cmp_equiv value_cmp_total) };

    fn eq(&self, other: &Value) -> bool {
        compare_values(self, other).is_eq()
    }
}

impl Eq for Value {
    ghost use Rattle.std.specs.Cmp.{eq_by_cmp_equiv};
    ghost use Rattle.dq_base.specs.ValueOrder.{value_cmp_total};

    ghost laws = { eq_by_cmp_equiv value_cmp_total };
}

impl PartialOrd for Value {
    ghost use Rattle.std.specs.Cmp.{partial_order_from_total};
    ghost use Rattle.std.specs.Ordering.{as_partial_cmp};
    ghost use Rattle.dq_base.specs.Orders.{value_cmp};
    ghost use Rattle.dq_base.specs.ValueOrder.{value_cmp_total};

    ghost partial_cmp = { as_partial_cmp value_cmp };

    ghost laws = { partial_order_from_total value_cmp_total };

    fn partial_cmp(&self, other: &Value) -> Option<Ordering> {
        Some(compare_values(self, other))
    }
}

impl Ord for Value {
    ghost use Rattle.std.specs.Prelude.{refl};
    ghost use Rattle.dq_base.specs.Orders.{value_cmp};
    ghost use Rattle.dq_base.specs.ValueOrder.{value_cmp_total};

    ghost cmp = { value_cmp };

    ghost total = { value_cmp_total };

    ghost matches_partial_cmp = { λ x y. refl };

    ghost matches_eq = { λ x y. refl };

    fn cmp(&self, other: &Value) -> Ordering {
        compare_values(self, other)
    }
}
