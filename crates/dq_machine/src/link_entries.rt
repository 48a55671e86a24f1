ghost use Rattle.std.specs.Option.{option_copied};
ghost use Rattle.std.specs.Prelude.{◌≡◌, ◌<◌, ◌≤◌, ◌-◌, ◌∷◌, ℕ, List, IfOk, IfSome, is_some, length, slice_set, true};
ghost use Rattle.dq_journal.specs.declared.entry.Entry.{Entry};
ghost use Rattle.dq_machine.specs.Leasing as specified;
ghost use Rattle.dq_machine.specs.Leasing.{leased, leased_from, links_given, links_leased, lost};
ghost use Rattle.dq_machine.specs.Losses.{LostFew};
ghost use Rattle.dq_machine.specs.Machine as machine;
ghost use Rattle.dq_machine.specs.Parts.{AreParts, TakesIf};
ghost use Rattle.dq_machine.specs.State.{LinkOf, Links as LinksOf, work_of};
ghost use Rattle.dq_machine.specs.Views.{phase_of};

use crate::flown::Flown;
use crate::leasing::{give, may_lease, may_lose};
use crate::links::{Link, Phase};
use crate::parts::Parts;
use crate::taking::flight_of;
use crate::works::{replace_phase, set_phase, work_at};
use dq_base::Memory;
use dq_extract::Loaded;
use std::alloc::Global;

// How many links a flight that may get one has lost.
fn losses_of(phase: &Phase) -> u64
    ensures { (link : ℕ) (idle : List LinkOf) → specified.may_lease (phase_of phase.now) ≡ true → leased (phase_of phase.now) link idle ≡ leased_from result link idle }
{
    match phase {
        Phase::New(losses) => *losses,
        Phase::Leased(..) => 0,
        Phase::Given(_) => 0,
    }
}

// How far a flight is that loses its link.
fn lost_phase(phase: &Phase) -> Phase
    requires { LostFew (phase_of phase.now) }
    ensures { phase_of result ≡ lost (phase_of phase.now) }
{
    match phase {
        Phase::New(losses) => Phase::New(*losses),
        Phase::Leased(losses, _, _) => Phase::New(*losses + 1),
        Phase::Given(ran) => Phase::Given(*ran),
    }
}

// The link as a flight that has come so far gives it back, or none where it can't.
fn give_phase(
    alloc: Global,
    phase: Phase,
    flight: Option<&Flown>,
    link: u64,
    ran: bool,
    runs: u64,
    calls: u64,
) -> Result<Option<Link>, Memory>
    ensures may { IfOk result (λ o. is_some o ≡ specified.may_give (phase_of phase) (option_copied flight.entry) link ran runs calls) }
    ensures given { IfOk result (λ o. IfSome o (λ k. (links : LinksOf) → links_given links (phase_of phase) (option_copied flight.entry) ran runs calls ≡ record links { idle = k ∷ links.idle })) }
{
    let Phase::Leased(_, _, held) = phase else {
        return Ok(None);
    };
    if held.number != link {
        return Ok(None);
    }
    let given = give(alloc, held, flight, ran, runs, calls)?;
    Ok(given)
}

// Whether a flight that has come so far may lose that link so.
fn lose_phase(
    alloc: Global,
    phase: Phase,
    flight: Option<&Flown>,
    link: u64,
    dialled: bool,
    ran: bool,
    runs: u64,
    calls: u64,
) -> Result<bool, Memory>
    ensures { IfOk result (λ may. may ≡ specified.may_lose (phase_of phase) (option_copied flight.entry) link dialled ran runs calls) }
{
    let Phase::Leased(_, fresh, held) = phase else {
        return Ok(false);
    };
    if held.number != link {
        return Ok(false);
    }
    let may = may_lose(alloc, held, fresh, flight, dialled, ran, runs, calls)?;
    Ok(may)
}

impl Parts {
    // Whether the lane's first flight may lease that link.
    fn may_lease(&self, loaded: &Loaded, lane: u32, flight: u64, link: u64, fresh: bool) -> bool
        requires above { 0 < lane }
        requires within { lane ≤ length self.now.state.works }
        ensures { result ≡ machine.may loaded.now self.now.state (work_of self.now.state lane) (Entry.Lease lane flight link fresh) }
    {
        let work = work_at(&self.works, lane);
        work.is_first(flight) && may_lease(work.phase()) && self.links.is_next(link, fresh)
    }

    // Leases it.
    fn lease(
        &mut self,
        alloc: Global,
        loaded: &Loaded,
        lane: u32,
        flight: u64,
        link: u64,
        fresh: bool,
    )
        requires above { 0 < lane }
        requires within { lane ≤ length self.old.state.works }
        requires may { machine.may loaded.now self.old.state (work_of self.old.state lane) (Entry.Lease lane flight link fresh) ≡ true }
        ensures next { self.new.state ≡ record self.old.state {
          works = slice_set self.old.state.works (lane - 1) (record (work_of self.old.state lane) { phase = leased (work_of self.old.state lane).phase link self.old.state.links.idle });
          links = links_leased self.old.state.links;
        } }
        ensures stands { self.new.stands ≡ self.old.stands }
    {
        let losses = losses_of(work_at(&self.works, lane).phase());
        let phase = self.links.lease(alloc, losses, link, fresh);
        set_phase(&mut self.works, lane, phase);
    }

    /// Takes a Lease entry. The cost is linear in the idle links.
    pub(crate) fn lease_entry(
        &mut self,
        alloc: Global,
        loaded: &Loaded,
        lane: u32,
        flight: u64,
        link: u64,
        fresh: bool,
    ) -> bool
        requires above { 0 < lane }
        requires within { lane ≤ length self.old.state.works }
        requires parts { AreParts loaded.now self.old }
        ensures { TakesIf result loaded.now self.old self.new (Entry.Lease lane flight link fresh) }
    {
        if !self.may_lease(loaded, lane, flight, link, fresh) {
            return false;
        }
        self.lease(alloc, loaded, lane, flight, link, fresh);
        true
    }

    /// Takes a Give entry. The cost is that of the link's tables and the flight's lists, and linear in the idle links and the flights.
    /// `false` and an `Err` may leave it done in part.
    pub(crate) fn give_entry(
        &mut self,
        alloc: Global,
        loaded: &Loaded,
        lane: u32,
        flight: u64,
        link: u64,
        ran: bool,
        runs: u64,
        calls: u64,
    ) -> Result<bool, Memory>
        requires above { 0 < lane }
        requires within { lane ≤ length self.old.state.works }
        requires parts { AreParts loaded.now self.old }
        ensures { IfOk result (λ may. TakesIf may loaded.now self.old self.new (Entry.Give lane flight link ran runs calls)) }
    {
        if !work_at(&self.works, lane).is_first(flight) {
            return Ok(false);
        }
        let phase = replace_phase(&mut self.works, lane, Phase::Given(ran));
        let flown = flight_of(&self.flown, flight);
        let Some(given) = give_phase(alloc, phase, flown, link, ran, runs, calls)? else {
            return Ok(false);
        };
        self.links.idle.insert(0, given)?;
        Ok(true)
    }

    /// Takes a Lose entry. The cost is that of the link's tables and the flight's lists, and linear in the flights. `false` and an `Err`
    /// may leave it done in part.
    pub(crate) fn lose_entry(
        &mut self,
        alloc: Global,
        loaded: &Loaded,
        lane: u32,
        flight: u64,
        link: u64,
        dialled: bool,
        ran: bool,
        runs: u64,
        calls: u64,
    ) -> Result<bool, Memory>
        requires above { 0 < lane }
        requires within { lane ≤ length self.old.state.works }
        requires parts { AreParts loaded.now self.old }
        ensures { IfOk result (λ may. TakesIf may loaded.now self.old self.new (Entry.Lose lane flight link dialled ran runs calls)) }
    {
        if !work_at(&self.works, lane).is_first(flight) {
            return Ok(false);
        }
        let lost = lost_phase(work_at(&self.works, lane).phase());
        let phase = replace_phase(&mut self.works, lane, lost);
        let flown = flight_of(&self.flown, flight);
        if !lose_phase(alloc, phase, flown, link, dialled, ran, runs, calls)? {
            return Ok(false);
        }
        Ok(true)
    }
}
