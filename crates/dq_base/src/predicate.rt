use crate::list::List;
use crate::orders::compare_predicates;
use crate::value::Values;
use std::cmp::Ordering;

/// What a predicate asks of a value. `Between` has bounds from low to high, each of which may be missing.
#[derive(Debug, Drop)]
pub enum Test {
    Among(Values),
    Except(Values),
    Between(Option<i64>, Option<i64>),
}

/// A test of a row's value in a column, which is numbered from 0.
#[derive(Debug, Drop)]
pub struct Predicate {
    pub column: u32,
    pub test: Test,
}

/// Predicates, all of which a row has to meet.
pub type Predicates = List<Predicate>;

impl PartialEq for Predicate {
    ghost use Rattle.std.specs.Cmp.{partial_equiv_from_equiv, eq_by_cmp_equiv};
    ghost use Rattle.std.specs.Ordering.{eq_by_cmp};
    ghost use Rattle.dq_base.specs.Canonical.{predicate_cmp};
    ghost use Rattle.dq_base.specs.PredicateOrder.{predicate_cmp_total};

    ghost eq = { eq_by_cmp predicate_cmp };

    ghost laws = { partial_equiv_from_equiv (eq_by_cmp_equiv predicate_cmp_total) };

    fn eq(&self, other: &Predicate) -> bool {
        compare_predicates(self, other).is_eq()
    }
}

impl Eq for Predicate {
    ghost use Rattle.std.specs.Cmp.{eq_by_cmp_equiv};
    ghost use Rattle.dq_base.specs.PredicateOrder.{predicate_cmp_total};

    ghost laws = { eq_by_cmp_equiv predicate_cmp_total };
}

impl PartialOrd for Predicate {
    ghost use Rattle.std.specs.Cmp.{partial_order_from_total};
    ghost use Rattle.std.specs.Ordering.{as_partial_cmp};
    ghost use Rattle.dq_base.specs.Canonical.{predicate_cmp};
    ghost use Rattle.dq_base.specs.PredicateOrder.{predicate_cmp_total};

    ghost partial_cmp = { as_partial_cmp predicate_cmp };

    ghost laws = { partial_order_from_total predicate_cmp_total };

    fn partial_cmp(&self, other: &Predicate) -> Option<Ordering> {
        Some(compare_predicates(self, other))
    }
}

impl Ord for Predicate {
    ghost use Rattle.std.specs.Prelude.{refl};
    ghost use Rattle.dq_base.specs.Canonical.{predicate_cmp};
    ghost use Rattle.dq_base.specs.PredicateOrder.{predicate_cmp_total};

    ghost cmp = { predicate_cmp };

    ghost total = { predicate_cmp_total };

    ghost matches_partial_cmp = { λ x y. refl };

    ghost matches_eq = { λ x y. refl };

    fn cmp(&self, other: &Predicate) -> Ordering {
        compare_predicates(self, other)
    }
}
