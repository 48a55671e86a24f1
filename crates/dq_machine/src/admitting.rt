ghost use Rattle.std.specs.Prelude.{◌≡◌, ◌+◌, ◌<◌, ◌^◌, IfOk, length};
ghost use Rattle.dq_machine.specs.Admitting.{admission};

use crate::admission::Admission;
use crate::flown::Flown;
use crate::looking::look_all;
use crate::meeting::{joins, meets, miss_numbers, missed};
use crate::shelved::Shelves;
use crate::versions::Versions;
use dq_base::{Canons, List, Memory};
use dq_fuse::fuse;
use std::alloc::Global;

/// What these remote queries meet, and what that leaves. The flights of the missed ones' groups are numbered behind those
/// that were started, and there must be numbers left for as many as there are queries.
///
/// The cost is that of a look-up for each query, and of putting the misses into groups.
pub(crate) fn admit(
    alloc: Global,
    versions: &Versions,
    flown: &List<Flown>,
    started: u64,
    shelves: Shelves,
    queries: &Canons,
) -> Result<Admission, Memory>
    requires { started + 1 + length queries.now < 2 ^ 64 }
    ensures { IfOk result (λ a. a ≡ admission versions.now (record { flown = flown.now; started = started }) shelves queries.now) }
{
    let mut shelves = shelves;
    let found = look_all(alloc, versions, flown, &mut shelves, queries)?;
    let misses = missed(alloc, &found, queries)?;
    let groups = fuse(alloc, &misses)?;
    let numbers = miss_numbers(alloc, started + 1, &groups, &misses)?;
    let met = meets(alloc, found.as_slice(), numbers.as_slice())?;
    let joins = joins(alloc, versions, &found, queries)?;
    Ok(Admission {
        shelves,
        met,
        groups,
        joins,
    })
}
