ghost use Rattle.std.specs.Prelude.{◌≡◌, ◌+◌, ◌-◌, ◌^◌, ◌<◌, [], ◌∷◌, ◌++◌, None, IfOk, OnOk, OnErr};
ghost use Rattle.dq_turn.specs.Made.{Begins};
ghost use Rattle.dq_turn.specs.Seen.{IsKeeperOf, handed, keeper_seen, joined, IsSeatOf, lane, seen, own, entered, left_of};

use crate::plays::{HandOut, Hear, TakeIn};
use crate::seats::{Keeper, LaneSeat, Turnstile};
use crate::steps::NEXT;
use dq_base::Memory;
use dq_journal::Chronicled;

impl<S: Chronicled> Turnstile<S> {
    /// Hands out the next lane. Lanes are numbered from 1. The lane's seat has seen what the keeper has seen. An `Err` is
    /// want of memory, and hands out nothing. It takes a constant number of steps.
    pub fn split(&self, keeper: &mut Keeper<S>) -> Result<LaneSeat<S>, Memory>
        requires of { IsKeeperOf self.now keeper.old }
        requires few { handed keeper.old < 2 ^ 32 - 1 }
        ensures of { IsKeeperOf self.now keeper.new × IfOk result (λ s. IsSeatOf self.now s) }
        ensures lane { IfOk result (λ s. lane s ≡ handed keeper.old + 1) }
        ensures seen { IfOk result (λ s. seen s ≡ keeper_seen keeper.old) }
        ensures own { IfOk result (λ s. (own s ≡ []) × (entered s ≡ None)) }
        ensures handed { OnOk result (handed keeper.new ≡ handed keeper.old + 1) }
        ensures err { OnErr result (handed keeper.new ≡ handed keeper.old) }
        ensures kept { (keeper_seen keeper.new ≡ keeper_seen keeper.old) × (joined keeper.new ≡ joined keeper.old) }
    {
        let seat = self.table.shared.split_seat::<HandOut>(&mut keeper.seat);
        Ok(LaneSeat { seat })
    }

    /// Takes a lane's seat in. The keeper has then seen what either had seen, and keeps which entries the lane made. It
    /// takes a constant number of steps.
    pub fn join(&self, keeper: &mut Keeper<S>, seat: LaneSeat<S>)
        requires keeper { IsKeeperOf self.now keeper.old }
        requires of { IsSeatOf self.now seat }
        requires outside { entered seat ≡ None }
        ensures of { IsKeeperOf self.now keeper.new }
        ensures handed { handed keeper.new ≡ handed keeper.old }
        ensures seen { Begins (keeper_seen keeper.old) (keeper_seen keeper.new) × Begins (seen seat) (keeper_seen keeper.new) }
        ensures joined { joined keeper.new ≡ joined keeper.old ++ left_of seat ∷ [] }
    {
        let LaneSeat { seat } = seat;
        let shared = &self.table.shared;
        shared.join_seat::<TakeIn>(&mut keeper.seat, seat);
        shared.load::<Hear>(&mut keeper.seat, NEXT);
    }
}
