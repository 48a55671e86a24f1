ghost use Rattle.std.specs.List.{list_any};
ghost use Rattle.std.specs.Prelude.{◌≡◌};
ghost use Rattle.dq_link.specs.Mirrors.{alike, is_among, lists_in, long_list, long_lists};

use dq_base::{Predicate, Test, Values};

/// How many values a statement spells at most. A longer list stands in a table.
pub(crate) const SPELLED: u64 = 16;

// Whether a list that stands in a table has these values.
fn is_long_and_alike(needed: &Values, list: &Values) -> bool
    ensures { result ≡ list_any (λ l. alike l list.now) (long_list needed.now) }
{
    if needed.len() <= SPELLED {
        return false;
    }
    needed.cmp(list).is_eq()
}

// Whether a test needs a list.
fn test_needs(test: &Test, list: &Values) -> bool
    ensures { result ≡ list_any (λ l. alike l list.now) (long_lists test.now) }
{
    match test {
        Test::Among(needed) => is_long_and_alike(needed, list),
        Test::Except(needed) => is_long_and_alike(needed, list),
        Test::Between(_, _) => false,
    }
}

// Whether one of the filters does.
fn some_test_needs(filters: &[Predicate], list: &Values) -> bool
    ensures { result ≡ list_any (λ p. list_any (λ l. alike l list.now) (long_lists p.test)) filters.now }
{
    filters
        .iter()
        .any(|predicate| test_needs(&predicate.test, list))
}

/// Whether a list is among those of the filters that stand in tables.
pub(crate) fn is_needed(filters: &[Predicate], list: &Values) -> bool
    ensures { result ≡ is_among (lists_in filters.now) list.now }
{
    some_test_needs(filters, list)
}
