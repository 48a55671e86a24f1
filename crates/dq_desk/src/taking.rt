ghost use Rattle.std.specs.Prelude.{◌≡◌, ◌-◌, ◌<◌, ◌≤◌, [], ◌∷◌, ◌++◌, drop, length, slice_index_or, slice_set, true};
ghost use Rattle.dq_machine.specs.Machine.{after};
ghost use Rattle.dq_machine.specs.State.{flight_at};
ghost use Rattle.dq_desk.specs.Events.{LooksAs, may_look_now, taken_entries};
ghost use Rattle.dq_desk.specs.Waits.{IsFirst};

use crate::desk::Desk;
use crate::waiting::{Join, Waiting};
use dq_base::{Canon, Table};
use dq_flight::Look;
use dq_journal::Entry;
use dq_link::Link;
use dq_text::is_sized_key;
use std::sync::Arc;

/// What a lane finds of the flight for which its first join waits.
#[derive(Drop)]
pub enum Taken {
    /// It is under way: the lane waits.
    Running,
    /// It landed, with a share of its key and table. A missing share is want of memory.
    Landed(Option<(Arc<Canon>, Arc<Table>)>),
    /// It fell: the flight of this number was started in its place.
    Fallen(u64),
}

/// Takes out the first join of a lane; none exactly where it has none.
fn take_first(joins: &mut Vec<Waiting>, lane: u32) -> Option<Join>
    requires above { 0 < lane }
    requires within { lane ≤ length joins.old.items }
    ensures first { IsFirst (slice_index_or joins.old.items (lane - 1) []) result }
    ensures left { joins.new.items ≡ slice_set joins.old.items (lane - 1) (drop 1 (slice_index_or joins.old.items (lane - 1) [])) }
{
    joins[lane as usize - 1].take_first()
}

impl<L: Link> Desk<L> {
    /// Looks at the flight of the lane's first join. A landed one gives its key and table. In place of a fallen one a flight of the lane
    /// is started for the zone's own query, at the version of its admission. Where it is running nothing happens. It takes no memory;
    /// the cost is linear in the flights and in the lane's joins.
    pub fn take(&mut self, lane: u32, flight: u64) -> Taken
        requires { may_look_now (after self.old.loaded self.old.journal) lane flight ≡ true }
        ensures looks { LooksAs (after self.old.loaded self.old.journal) (flight_at (after self.old.loaded self.old.journal) flight) result }
        ensures entry { self.new.journal ≡ self.old.journal ++ taken_entries lane flight result }
        ensures loaded { self.new.loaded ≡ self.old.loaded }
    {
        match self.flights.take(flight) {
            Look::Running => return Taken::Running,
            Look::Landed(share) => {
                let _join = take_first(&mut self.joins, lane);
                self.owed -= 1;
                self.journal.push(Entry::Take {
                    lane,
                    flight,
                    next: None,
                });
                return Taken::Landed(share);
            }
            Look::Fallen => {
                let Some(join) = take_first(&mut self.joins, lane) else {
                    unreachable!();
                };
                is_sized_key(&join.query);
                let number = self.started + 1;
                self.started = number;
                self.flights.start(number, lane, join.stamp, join.query);
                self.owed -= 1;
                self.journal.push(Entry::Take {
                    lane,
                    flight,
                    next: Some(number),
                });
                return Taken::Fallen(number);
            }
        }
    }
}
