ghost use Rattle.std.specs.Arc.{arc_value};
ghost use Rattle.std.specs.List.{enumerate_from};
ghost use Rattle.std.specs.Prelude.{◌≡◌, IfOk, OnOk};
ghost use Rattle.dq_base.specs.Batches.{groups};
ghost use Rattle.dq_fuse.specs.Gathered.{gathered, gathered_with, kinds_of};

use crate::gathering::Gathering;
use crate::group::Groups;
use crate::kind::Kind;
use dq_base::{Canon, Canons, Memory};
use indexmap::IndexSet;
use std::alloc::Global;
use std::sync::Arc;

/// Puts a query into the group of its kind, or into a new one at the end.
fn enter(
    alloc: Global,
    kinds: &mut IndexSet<Kind>,
    list: &mut Vec<Gathering>,
    place: u32,
    owner: &Arc<Canon>,
) -> Result<(), Memory>
    requires { kinds.old.keys ≡ kinds_of list.old.items }
    ensures list { OnOk result (list.new.items ≡ gathered_with list.old.items (place, arc_value owner.now)) }
    ensures kinds { OnOk result (kinds.new.keys ≡ kinds_of list.new.items) }
{
    let (index, new) = kinds.insert_full(Kind::of(alloc, owner)?)?;
    if new {
        list.push(Gathering::alone(alloc, place, owner)?)?;
        return Ok(());
    }
    list[index].join(place, owner)?;
    Ok(())
}

/// The groups without their keys.
fn gather(alloc: Global, misses: &Canons) -> Result<Vec<Gathering>, Memory>
    ensures { IfOk result (λ gs. gs.items ≡ gathered (enumerate_from 0 misses.now)) }
{
    let mut kinds = IndexSet::new(alloc);
    let mut list = Vec::new(alloc);
    for (place, owner) in misses.as_slice().iter().enumerate() {
        let Ok(place) = u32::try_from(place) else {
            return Err(Memory);
        };
        enter(alloc, &mut kinds, &mut list, place, owner)?;
    }
    Ok(list)
}

/// The groups of queries that one statement answers together, in first-seen order, with the members' places from 0.
///
/// A group of one shares its query's owner. The cost is that of reading the queries once, of sorting each one's dimensions
/// and of one look-up for each query and each of its measures. More than 2^32 queries are refused as want of memory.
pub fn fuse(alloc: Global, misses: &Canons) -> Result<Groups, Memory>
    ensures groups { IfOk result (λ list. list ≡ groups misses.now) }
{
    let mut list = Groups::new(alloc);
    for gathering in gather(alloc, misses)? {
        list.push(gathering.into_group(alloc)?)?;
    }
    Ok(list)
}
