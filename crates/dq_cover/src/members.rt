ghost use Rattle.std.specs.List.Sorted.{IsSorted};
ghost use Rattle.std.specs.Prelude.{◌≡◌};
ghost use Rattle.dq_base.specs.Sets.{has};

/// Whether an item's like is in an ascending list, by halving.
pub fn is_member<T: Ord>(list: &[T], item: &T) -> bool
    requires { IsSorted T.cmp list.now }
    ensures { result ≡ has T.cmp list.now item.now }
{
    list.binary_search(item).is_ok()
}
