ghost use Rattle.std.specs.Borrow.{Lends, sem};
ghost use Rattle.std.specs.Prelude.{◌≡◌};
ghost use Rattle.dq_turn.specs.contracts.seats.Guard.{the_row};
ghost use Rattle.dq_turn.specs.Seen.{state_in, with_state};

use crate::seats::Guard;
use dq_journal::Chronicled;

impl<S: Chronicled> Guard<S> {
    /// Lends the state. What is written through it is the state that `leave` puts back. It takes no memory, and one step.
    pub fn state(&mut self) -> &mut S
        ensures* lends { sem 𝓛 (Lends (the_row S.row S.Chronicled) S.row self.entry result (with_state self.old)) }
        ensures value { result.now ≡ state_in self.old }
    {
        &mut self.state
    }
}
