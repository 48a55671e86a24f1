ghost use Rattle.std.specs.Prelude.{◌≡◌, ℕ, ◌<◌, [], ◌∷◌, Some, length, IfOk, IfErr};
ghost use Rattle.dq_turn.specs.Made.{Begins, made};
ghost use Rattle.dq_turn.specs.Seen.{given, IsKeeperOf, handed, keeper_seen, joined, AllStand};

use crate::seats::{Closed, Keeper, Turnstile, Unmade};
use atomic_table::{Refused, Table};
use dq_journal::Chronicled;
use std::alloc::Global;
use std::snapshot::Snapshot;

// The slot of a table, with the state in it.
fn slot_of<S>(alloc: Global, state: S) -> Result<Vec<Option<S>>, Unmade<S>>
    ensures ok { IfOk result (λ slots. slots.items ≡ Some state ∷ []) }
    ensures err { IfErr result (λ u. u.state ≡ state) }
{
    let Ok(mut slots) = Vec::with_capacity(alloc, 1) else {
        return Err(Unmade { state });
    };
    slots.push_reserved(Some(state));
    Ok(slots)
}

// Takes the state out of its slot again.
fn state_of<S>(mut slots: Vec<Option<S>>, like: &Snapshot<S>) -> Unmade<S>
    requires { slots.items ≡ Some like.now.value ∷ [] }
    ensures { result.state ≡ like.now.value }
{
    let Some(Some(state)) = slots.pop() else {
        unreachable!()
    };
    slots.destroy_empty();
    Unmade { state }
}

impl<S: Chronicled> Turnstile<S> {
    /// A turnstile for a state whose journal has no entries yet, and its keeper. At `Err` there was no memory, and the
    /// state comes back. It takes a constant number of steps.
    pub fn new(alloc: Global, state: S) -> Result<(Turnstile<S>, Keeper<S>), Unmade<S>>
        requires empty { S.journal state ≡ [] }
        ensures given { IfOk result (λ t. given t.0 ≡ state) }
        ensures keeper { IfOk result (λ t. IsKeeperOf t.0 t.1 × (handed t.1 ≡ 0) × (keeper_seen t.1 ≡ []) × (joined t.1 ≡ [])) }
        ensures err { IfErr result (λ u. u.state ≡ state) }
    {
        let about = Snapshot::of(&state);
        let slots = match slot_of(alloc, state) {
            Ok(slots) => slots,
            Err(unmade) => return Err(unmade),
        };
        match Table::new(alloc, &[0, 0, 0], slots, &about) {
            Ok((table, seat)) => Ok((Turnstile { table }, Keeper { seat })),
            Err(Refused { slots }) => Err(state_of(slots, &about)),
        }
    }

    /// Gives the state back, once every lane's seat was joined. At `Err` there was no memory, and nothing has changed.
    /// It takes a constant number of steps.
    pub fn close(self, keeper: Keeper<S>) -> Result<S, Closed<S>>
        requires of { IsKeeperOf self keeper }
        requires all { length (joined keeper) ≡ handed keeper }
        ensures loaded { IfOk result (λ s. S.loaded s ≡ S.loaded (given self)) }
        ensures seen { IfOk result (λ s. Begins (keeper_seen keeper) (S.journal s)) }
        ensures joined { IfOk result (λ s. AllStand (S.journal s) (joined keeper)) }
        ensures others { IfOk result (λ s. (lane : ℕ) → (0 < lane → handed keeper < lane) → made lane (S.journal s) ≡ []) }
        ensures err { IfErr result (λ c. (c.turnstile ≡ self) × (c.keeper ≡ keeper)) }
    {
        let Turnstile { table } = self;
        let Keeper { seat } = keeper;
        let mut closed = table.close_with(seat);
        let Some(state) = closed.take(0) else {
            unreachable!()
        };
        closed.free();
        Ok(state)
    }
}
