ghost use Rattle.std.specs.Prelude.{◌≡◌, ◌+◌, ◌<◌, ◌^◌, ◌≤◌, Some, IfOk, slice_index_or};
ghost use Rattle.dq_base.specs.declared.script.Fails.{Fails as FailsOf};
ghost use Rattle.dq_backend.specs.Dialled.{is_item, items_up_to, new_dialer};

use crate::link::InLink;
use dq_base::{Fails, Memory, Numbers64};
use dq_link::{Dialer, LinkFault};
use std::alloc::Global;
use std::marker::Model;

/// A dialer whose links are in memory. It fails in the dials that are planned, and in no other: its count of faults is the
/// number of different planned dials from 1 to the number of its dials. Each link that it gives tells its planned call.
///
/// A dial costs the length of the list of planned dials, and takes no memory. One that can't be counted any more is `Memory`.
#[derive(Drop)]
pub struct InDialer {
    plan: Fails,
    dials: u64,
    faults: u64,
    given: u64,
}

impl Model for InDialer {
    ghost use Rattle.std.specs.Prelude.{◌≡◌, ◌≤◌};
    ghost use Rattle.dq_backend.specs.Dialled.{PlannedDialer, items_up_to};

    ghost Value = { PlannedDialer };

    ghost view = { λ d. record { plan = d.plan; dials = d.dials; given = d.given } };

    ghost invariant = { λ d. (d.faults ≡ items_up_to d.plan.dials d.dials) × (d.given ≤ d.dials) };
}

/// Whether a number is an item of the list.
fn has_item(list: &Numbers64, number: u64) -> bool
    ensures { result ≡ is_item list.now number }
{
    list.as_slice().iter().any(|item| number == *item)
}

/// The call that is planned to fail of the link given after so many others, 0 behind the list's end.
fn planned_after(links: &Numbers64, others: u64) -> u64
    ensures { result ≡ slice_index_or links.now others 0 }
{
    match links.get(others) {
        None => 0,
        Some(call) => *call,
    }
}

impl InDialer {
    /// A dialer that wasn't called, with a copy of what is planned.
    pub(crate) fn new(alloc: Global, fails: &Fails) -> Result<InDialer, Memory>
        ensures { IfOk result (λ dialer. dialer ≡ new_dialer fails.now) }
    {
        let plan = Fails {
            dials: Numbers64::from_vec(fails.dials.as_slice().to_vec(alloc)?),
            links: Numbers64::from_vec(fails.links.as_slice().to_vec(alloc)?),
        };
        Ok(InDialer {
            plan,
            dials: 0,
            faults: 0,
            given: 0,
        })
    }
}

impl Dialer for InDialer {
    type L = InLink;

    ghost faults = { λ d. items_up_to d.plan.dials d.dials };

    ghost given = { λ d. d.given };

    ghost plan = { λ d. Some d.plan };

    fn dial(&mut self, alloc: Global) -> Result<InLink, LinkFault> {
        if self.dials == u64::MAX {
            return Err(LinkFault::Memory);
        }
        self.dials += 1;
        if has_item(&self.plan.dials, self.dials) {
            self.faults += 1;
            return Err(LinkFault::Failed);
        }
        let link = InLink::new(alloc, planned_after(&self.plan.links, self.given));
        self.given += 1;
        Ok(link)
    }
}
