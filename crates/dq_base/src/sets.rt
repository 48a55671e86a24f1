ghost use Rattle.std.specs.Prelude.{◌≡◌, ◌≤◌, IfOk, MatchResult, OnErr, OnOk, Some, length, option_map, slice_get};
ghost use Rattle.std.specs.declared.cmp.Ordering.TheVariants.{Equal};
ghost use Rattle.std.specs.List.{insert};
ghost use Rattle.dq_base.specs.Sets.{with};

use crate::list::List;
use crate::memory::Memory;
use std::cmp::Ordering;

/// The place of an item's like in an ascending list; else the place before which it belongs.
fn place_of<T: Ord>(items: &[T], item: &T) -> Result<usize, usize>
    ensures there { IfOk result (λ place. option_map (T.cmp item.now) (slice_get items.now place) ≡ Some Equal) }
    ensures place { MatchResult result (λ _. with T.cmp item.now items.now ≡ items.now)
        (λ place. (place ≤ length items.now) × (with T.cmp item.now items.now ≡ insert items.now place item.now)) }
{
    for (place, other) in items.iter().enumerate() {
        match item.cmp(other) {
            Ordering::Less => return Err(place),
            Ordering::Equal => return Ok(place),
            Ordering::Greater => {}
        }
    }
    Err(items.len())
}

/// Puts an item in its place, if its like isn't there.
pub fn put<T: Ord + Drop>(items: &mut List<T>, item: T) -> Result<(), Memory>
    ensures ok { OnOk result (items.new ≡ with T.cmp item items.old) }
    ensures err { OnErr result (items.new ≡ items.old) }
{
    match place_of(items.as_slice(), &item) {
        Ok(_) => Ok(()),
        Err(place) => items.insert(place as u64, item),
    }
}
