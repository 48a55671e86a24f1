ghost use Rattle.std.specs.List.{list_all};
ghost use Rattle.std.specs.Prelude.{◌≡◌, ◌+◌, ◌<◌, ℕ, [], ◌∷◌, length, map, true, false, All};
ghost use Rattle.dq_base.specs.Scripts.{is_lane};
ghost use Rattle.dq_machine.specs.Machine.{legal};
ghost use Rattle.dq_rehearse.specs.Follows.{FollowsTurns, round_of};
ghost use Rattle.dq_rehearse.specs.Lanes.{AreOn, IsDone, IsOn, all_new, places_in};
ghost use Rattle.dq_rehearse.specs.Turns.{AreOver, ArePassing, HavePlayed, HavePlayedRounds, Turned, Turns, turns_left};

use dq_base::Numbers;
use dq_desk::Desk;
use dq_lane::{Lane, Stepped};
use dq_link::{Dialer, Link};
use dq_outside::PassGate;
use std::alloc::Global;

/// A desk and its lanes, which are done.
#[derive(Drop)]
pub struct Played<L: Link, D: Dialer<L = L>> {
    pub desk: Desk<L>,
    pub lanes: Vec<Lane<L, D>>,
}

// A turn of a lane: its work, and then its step. Answers whether it moved.
#[tactic(auto, using(crate::proofs::Moved::turn_moved, crate::proofs::Moved::turn_waits, crate::proofs::Moved::turn_done))]
fn advance<L: Link, D: Dialer<L = L>>(
    alloc: Global,
    desk: &mut Desk<L>,
    lane: &mut Lane<L, D>,
) -> bool
    requires { IsOn desk.old.loaded desk.old.journal lane.old.number lane.old }
    ensures loaded { desk.new.loaded ≡ desk.old.loaded }
    ensures turns { Turns desk.old.loaded lane.old.number lane.old lane.new desk.old.journal desk.new.journal result }
{
    lane.work(alloc, &PassGate);
    let stepped = lane.step(alloc, desk);
    // A desk's journal is legal: only this read tells it to the proof.
    let _journal = desk.journal();
    match stepped {
        Stepped::Moved => return true,
        Stepped::Waits(_) => return false,
        Stepped::Done => return false,
    }
}

// A turn of the lane at a place. Answers whether it moved.
fn turn<L: Link, D: Dialer<L = L>>(
    alloc: Global,
    desk: &mut Desk<L>,
    lanes: &mut Vec<Lane<L, D>>,
    place: usize,
) -> bool
    requires place { place < length lanes.old.items }
    requires on { AreOn desk.old.loaded desk.old.journal lanes.old.items }
    ensures loaded { desk.new.loaded ≡ desk.old.loaded }
    ensures played { HavePlayed desk.old.loaded ((place + 1) ∷ []) desk.old.journal lanes.old.items desk.new.journal lanes.new.items }
    ensures turned { Turned desk.old.loaded place lanes.old.items lanes.new.items desk.old.journal desk.new.journal result }
{
    advance(alloc, desk, &mut lanes[place])
}

// A turn of each lane, in order. Answers whether one moved.
fn round<L: Link, D: Dialer<L = L>>(
    alloc: Global,
    desk: &mut Desk<L>,
    lanes: &mut Vec<Lane<L, D>>,
) -> bool
    requires { AreOn desk.old.loaded desk.old.journal lanes.old.items }
    ensures loaded { desk.new.loaded ≡ desk.old.loaded }
    ensures played { HavePlayed desk.old.loaded (round_of desk.old.loaded) desk.old.journal lanes.old.items desk.new.journal lanes.new.items }
    ensures less { result ≡ true → turns_left desk.old.loaded desk.new.journal lanes.new.items < turns_left desk.old.loaded desk.old.journal lanes.old.items }
    ensures passing { result ≡ false → ArePassing desk.old.loaded desk.new.journal lanes.new.items (length lanes.new.items) }
{
    let mut moved = false;
    for place in 0..lanes.len() {
        if turn(alloc, desk, lanes, place) {
            moved = true;
        }
    }
    moved
}

// The schedule's turns, in order.
#[tactic(auto, using(crate::proofs::Plays::next_played))]
fn play_schedule<L: Link, D: Dialer<L = L>>(
    alloc: Global,
    desk: &mut Desk<L>,
    lanes: &mut Vec<Lane<L, D>>,
    schedule: &[u32],
)
    requires on { AreOn desk.old.loaded desk.old.journal lanes.old.items }
    requires schedule { list_all (is_lane (length desk.old.loaded.script.lanes)) schedule.now ≡ true }
    ensures loaded { desk.new.loaded ≡ desk.old.loaded }
    ensures played { HavePlayed desk.old.loaded schedule.now desk.old.journal lanes.old.items desk.new.journal lanes.new.items }
{
    for number in schedule {
        turn(alloc, desk, lanes, *number as usize - 1);
    }
}

// Rounds, until nothing moved in the last one.
#[tactic(auto, using(crate::proofs::Plays::no_rounds, crate::proofs::Plays::more_rounds))]
fn play_rounds<L: Link, D: Dialer<L = L>>(
    alloc: Global,
    desk: &mut Desk<L>,
    lanes: &mut Vec<Lane<L, D>>,
)
    requires { AreOn desk.old.loaded desk.old.journal lanes.old.items }
    ensures loaded { desk.new.loaded ≡ desk.old.loaded }
    ensures played { HavePlayedRounds desk.old.loaded desk.old.journal lanes.old.items desk.new.journal lanes.new.items }
    ensures passing { ArePassing desk.old.loaded desk.new.journal lanes.new.items (length lanes.new.items) }
{
    while round(alloc, desk, lanes) {}
}

// Rounds, until each lane is done: where nothing moves any more, some lane would still go on if one weren't.
#[tactic(auto, using(crate::proofs::Over::all_over))]
fn play_out<L: Link, D: Dialer<L = L>>(
    alloc: Global,
    desk: &mut Desk<L>,
    lanes: &mut Vec<Lane<L, D>>,
)
    requires { AreOn desk.old.loaded desk.old.journal lanes.old.items }
    ensures loaded { desk.new.loaded ≡ desk.old.loaded }
    ensures played { HavePlayedRounds desk.old.loaded desk.old.journal lanes.old.items desk.new.journal lanes.new.items }
    ensures over { AreOver desk.old.loaded desk.new.journal lanes.new.items (length lanes.new.items) }
{
    play_rounds(alloc, desk, lanes);
    // A desk's journal is legal: only this read tells it to the proof.
    let _journal = desk.journal();
}

/// Plays the lanes to their ends: first the schedule's turns, and then rounds from the first lane to the last until all are
/// done. The journal that comes about is legal. A turn of a lane is all its pending work and then its next step; a turn of a lane that
/// is done, or that waits for another lane's flight, passes. It always returns and is never refused: where memory is wanting, the
/// lanes' results say so. It costs the work and the steps of all lanes, and a constant more for each turn; there are at most as many
/// rounds as steps and entries of the journal, and one more.
#[tactic(auto, using(crate::proofs::New::on_at_start, crate::proofs::Plays::all_done, crate::proofs::Plays::all_followed))]
pub fn play<L: Link, D: Dialer<L = L>>(
    alloc: Global,
    desk: Desk<L>,
    lanes: Vec<Lane<L, D>>,
    schedule: &Numbers,
) -> Played<L, D>
    requires desk { desk.journal ≡ [] }
    requires lanes { lanes.items ≡ all_new desk.loaded }
    requires schedule { list_all (is_lane (length desk.loaded.script.lanes)) schedule.now ≡ true }
    ensures loaded { result.desk.loaded ≡ desk.loaded }
    ensures legal { legal desk.loaded result.desk.journal ≡ true }
    ensures on { AreOn desk.loaded result.desk.journal result.lanes.items }
    ensures done { All IsDone result.lanes.items }
    ensures follows { FollowsTurns desk.loaded schedule.now result.desk.journal (map places_in result.lanes.items) }
{
    let mut desk = desk;
    let mut lanes = lanes;
    play_schedule(alloc, &mut desk, &mut lanes, schedule.as_slice());
    play_out(alloc, &mut desk, &mut lanes);
    // A desk's journal is legal: only this read tells it to the proof.
    let _journal = desk.journal();
    Played { desk, lanes }
}
