ghost use Rattle.std.specs.Prelude.{◌≡◌, ◌+◌, ℕ, Option, IfOk, IfSome};
ghost use Rattle.dq_base.specs.declared.script.Fails.{Fails};
ghost use Rattle.dq_link.specs.Calls.{CountsDials, CountsGiven, IsFresh, planned_call};

use crate::fault::LinkFault;
use crate::link::Link;
use dq_base::{Fails, Memory};
use std::alloc::Global;

/// Where the links of a lane come from.
pub trait Dialer: Drop {
    type L: Link;

    /// How often it has failed. The count stands still at the last value of u64.
    ghost faults: { Self → ℕ };

    /// How many links it gave.
    ghost given: { Self → ℕ };

    /// What is planned to fail, where it tells that.
    ghost plan: { Self → Option Fails };

    /// A link without faults and calls, on which nothing is mounted or put.
    fn dial(&mut self, alloc: Global) -> Result<Self::L, LinkFault>
        ensures fresh { IfOk result (λ link. IsFresh (Self.L.mounts link) (Self.L.tables link) (Self.L.faults link) (Self.L.runs link) (Self.L.calls link)) }
        ensures planned { IfOk result (λ link. Self.L.planned link ≡ planned_call (plan self.old) (given self.old)) }
        ensures cause { CountsDials (faults self.old) (faults self.new) result }
        ensures given { CountsGiven (given self.old) (given self.new) result }
        ensures plan { plan self.new ≡ plan self.old };
}

/// Where the dialers of the lanes come from.
pub trait Office {
    type L: Link;

    type D: Dialer<L = Self::L>;

    /// The dialer of a lane, which has given no link and had no fault. `fails` is what is wanted to fail in that lane; a dialer
    /// that tells its plan has that plan.
    fn dialer(&mut self, alloc: Global, lane: u32, fails: &Fails) -> Result<Self::D, Memory>
        ensures faults { IfOk result (λ dialer. Self.D.faults dialer ≡ 0) }
        ensures given { IfOk result (λ dialer. Self.D.given dialer ≡ 0) }
        ensures plan { IfOk result (λ dialer. IfSome (Self.D.plan dialer) (λ plan. plan ≡ fails.now)) };
}
