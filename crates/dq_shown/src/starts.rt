ghost use Rattle.std.specs.Prelude.{◌≡◌, IfOk, find};
ghost use Rattle.std.specs.Option.{option_copied};
ghost use Rattle.dq_journal.specs.Shown.{begins_at};
ghost use Rattle.dq_shown.specs.Showing.{LeadFrom, start_of};

use dq_base::{Blend, Blends, Memory};
use std::alloc::Global;
use std::collections::BTreeMap;

/// The places of a script's blends, by lane, step and zone at which they begin.
pub type Starts = BTreeMap<(u64, u64, u64), u64>;

/// Where a blend begins.
fn start_of(blend: &Blend) -> (u64, u64, u64)
    ensures { result ≡ start_of blend.now }
{
    (
        u64::from(blend.lane),
        u64::from(blend.step),
        u64::from(blend.zone),
    )
}

/// Where these blends begin, in the time of sorting them.
pub fn starts_of(alloc: Global, blends: &Blends) -> Result<Starts, Memory>
    ensures { IfOk result (λ starts. LeadFrom 0 blends.now starts.entries) }
{
    let blends = blends.as_slice();
    let mut starts = BTreeMap::new(alloc);
    let mut place = blends.len();
    while 0 < place {
        place -= 1;
        let blend = &blends[place];
        starts.insert(start_of(blend), place as u64)?;
    }
    Ok(starts)
}

/// The first of these blends that begins at a zone of a lane's step, in the time of a look-up.
pub fn blend_at<'a>(
    blends: &'a Blends,
    starts: &Starts,
    start: (u64, u64, u64),
) -> Option<&'a Blend>
    requires { LeadFrom 0 blends.now starts.now.entries }
    ensures { option_copied result ≡ find (begins_at start.0 start.1 start.2) blends.now }
{
    match starts.get(&start) {
        Some(place) => blends.get(*place),
        None => None,
    }
}
