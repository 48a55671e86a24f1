ghost use Rattle.std.specs.Prelude.{◌≡◌, ◌≤◌, ◌^◌, Some, None, length};
ghost use Rattle.dq_turn.specs.Made.{Begins, made, Grows};
ghost use Rattle.dq_turn.specs.Seen.{given, IsSeatOf, lane, seen, own, entered, IsSameLane, state_in, found_by};

use crate::seats::{Guard, LaneSeat, Mark, Turnstile};
use dq_journal::Chronicled;
use std::snapshot::Snapshot;
use std::sync::Wait;

fn mark_of<S: Chronicled>(state: &S) -> Mark<S>
    ensures { result.entered.value ≡ state.now }
{
    Mark {
        count: state.count(),
        entered: Snapshot::of(state),
    }
}

impl<S: Chronicled> Turnstile<S> {
    /// Waits for the seat's turn, and takes the state. Turns are in the order of the tickets, which seats draw as they
    /// enter. But for the waiting it takes a constant number of steps.
    pub fn enter<R: Wait>(&self, rt: &R, seat: &mut LaneSeat<S>) -> Guard<S>
        requires of { IsSeatOf self.now seat.old }
        requires outside { entered seat.old ≡ None }
        ensures loaded { S.loaded (state_in result) ≡ S.loaded (given self.now) }
        ensures seen { Begins (seen seat.old) (S.journal (state_in result)) }
        ensures own { made (lane seat.old) (S.journal (state_in result)) ≡ own seat.old }
        ensures own_seen { made (lane seat.old) (seen seat.old) ≡ own seat.old }
        ensures room { length (S.journal (state_in result)) ≤ 2 ^ 63 }
        ensures found { found_by result ≡ state_in result }
        ensures of { IsSeatOf self.now seat.new }
        ensures lane { IsSameLane seat.old seat.new }
        ensures entered { entered seat.new ≡ Some (state_in result) }
    {
        let ticket = self.draw(&mut seat.seat);
        self.watch(rt, &mut seat.seat, ticket);
        let state = self.out(&mut seat.seat);
        let mark = mark_of(&state);
        Guard { state, mark }
    }

    /// Puts the state back, and gives the turn to the next ticket. What was loaded is as it was at `enter`, and the journal
    /// has grown by one entry of the seat's lane at most. It doesn't wait, takes no memory, and takes a constant number of
    /// steps, but for waking the seats that wait.
    pub fn leave(&self, guard: Guard<S>, seat: &mut LaneSeat<S>)
        requires of { IsSeatOf self.now seat.old }
        requires guard { entered seat.old ≡ Some (found_by guard) }
        requires loaded { S.loaded (state_in guard) ≡ S.loaded (found_by guard) }
        requires grows { Grows (lane seat.old) (S.journal (found_by guard)) (S.journal (state_in guard)) }
        requires room { length (S.journal (state_in guard)) ≤ 2 ^ 63 }
        ensures of { IsSeatOf self.now seat.new }
        ensures lane { lane seat.new ≡ lane seat.old }
        ensures seen { seen seat.new ≡ S.journal (state_in guard) }
        ensures own { own seat.new ≡ made (lane seat.old) (S.journal (state_in guard)) }
        ensures outside { entered seat.new ≡ None }
    {
        let Guard { state, mark } = guard;
        let Mark { count, entered } = mark;
        let added = state.count() - count;
        let left = Snapshot::of(&state);
        self.home(&mut seat.seat, state);
        self.count(&mut seat.seat, &entered, &left, added);
        self.pass(&mut seat.seat, &left);
    }
}
