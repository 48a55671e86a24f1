ghost use Rattle.std.specs.Prelude.{◌≡◌, option_and_then, slice_get};
ghost use Rattle.dq_check.specs.Forcing as forcing;

use crate::due::Due;
use crate::forcing::Forced;

/// Whether a zone isn't in conflict with that from which it is computed.
fn agrees(leader: Option<Forced>, forced: Forced) -> bool
    ensures { result ≡ forcing.agree_led leader forced }
{
    match leader {
        Some(Forced::Memory) => match forced {
            Forced::Free => true,
            Forced::Rows => false,
            Forced::Memory => true,
        },
        Some(Forced::Free) => true,
        Some(Forced::Rows) => true,
        None => true,
    }
}

/// What the zone is forced to be from which a zone is computed, if that is known.
fn leader_forced(all: &[Forced], due: &Due) -> Option<Forced>
    ensures { result ≡ option_and_then (slice_get all.now) due.now.leader }
{
    let place = due.leader()?;
    all.get(place as usize).copied()
}

/// Whether no zone is in conflict with that from which it is computed.
pub(crate) fn are_clear(dues: &[Due], forced: &[Forced]) -> bool
    ensures { result ≡ forcing.are_clear forced.now dues.now forced.now }
{
    for (place, due) in dues.iter().enumerate() {
        if place >= forced.len() {
            return true;
        }
        if !agrees(leader_forced(forced, due), forced[place]) {
            return false;
        }
    }
    true
}
