ghost use Rattle.std.specs.BTreeSet.{keys};
ghost use Rattle.std.specs.Prelude.{◌≡◌, IfOk, OnOk};
ghost use Rattle.dq_base.specs.Orders.{value_cmp};
ghost use Rattle.dq_base.specs.Sets.{set_of, with};

use dq_base::{Duplicate, List, Memory, Values};
use std::alloc::Global;
use std::collections::BTreeSet;

/// The values ascending and without repeats, in the time of sorting them.
pub fn value_set(alloc: Global, list: &Values) -> Result<Values, Memory>
    ensures { IfOk result (λ set. set ≡ set_of value_cmp list.now) }
{
    let mut set = BTreeSet::new(alloc);
    for v in list.as_slice() {
        insert_into(&mut set, v.duplicate(alloc)?)?;
    }
    list_of(alloc, set)
}

/// Puts an item into a set, if its like isn't there.
pub(crate) fn insert_into<T: Ord + Drop>(set: &mut BTreeSet<T>, item: T) -> Result<(), Memory>
    ensures { OnOk result (keys set.new ≡ with T.cmp item (keys set.old)) }
{
    set.insert(item)?;
    Ok(())
}

/// The items of a set, ascending.
pub(crate) fn list_of<T: Ord + Drop>(alloc: Global, set: BTreeSet<T>) -> Result<List<T>, Memory>
    ensures { IfOk result (λ list. list ≡ keys set) }
{
    let items = set.into_iter().collect(alloc)?;
    Ok(List::from_vec(items))
}
