ghost use Rattle.std.specs.Option.{option_copied};
ghost use Rattle.std.specs.Prelude.{◌≡◌, ◌+◌, ◌<◌, ◌≤◌, ◌^◌, [], true, is_some, IfOk, IfSome};
ghost use Rattle.dq_machine.specs.Leasing as specified;
ghost use Rattle.dq_machine.specs.Leasing.{given_as, fresh_link, leased_from, link_given, links_leased, lost_as, mirror_given, ran_as, unran_as};
ghost use Rattle.dq_machine.specs.Views.{phase_of};

use crate::flown::Flown;
use crate::links::{Link, Links, Phase};
use crate::mirror::Mirror;
use crate::readying::make_ready;
use dq_base::Memory;
use std::alloc::Global;

/// How many mounts, drops and puts make a link ready at most.
const MOST_READYING: u128 = 33;

impl Links {
    /// None that is idle, and none that was leased. It takes no memory.
    pub(crate) fn new(alloc: Global) -> Links
        ensures { result ≡ record { idle = []; fresh = 0 } }
    {
        Links {
            idle: Vec::new(alloc),
            fresh: 0,
        }
    }

    /// Whether that link is leased next, fresh or not.
    pub(crate) fn is_next(&self, link: u64, fresh: bool) -> bool
        ensures { result ≡ specified.is_next self.now.idle self.now.fresh link fresh }
    {
        match self.idle.first() {
            None => fresh && self.fresh.checked_add(1) == Some(link),
            Some(top) => !fresh && link == top.number,
        }
    }

    /// Leases the next link, for a flight with so many losses. The cost is linear in the idle links.
    pub(crate) fn lease(&mut self, alloc: Global, losses: u64, link: u64, fresh: bool) -> Phase
        requires { specified.is_next self.old.idle self.old.fresh link fresh ≡ true }
        ensures phase { phase_of result ≡ leased_from losses link self.old.idle }
        ensures links { self.new ≡ links_leased self.old }
    {
        if self.idle.is_empty() {
            self.fresh += 1;
            return Phase::Leased(losses, true, dialled(alloc, link));
        }
        Phase::Leased(losses, false, self.idle.remove(0))
    }
}

// A link that is dialled now.
fn dialled(alloc: Global, number: u64) -> Link
    ensures { result ≡ fresh_link number }
{
    Link {
        number,
        runs: 0,
        calls: 0,
        mirror: Mirror::new(alloc),
        sure: true,
    }
}

/// Whether a flight has no link and wasn't lost twice.
pub(crate) fn may_lease(phase: &Phase) -> bool
    ensures { result ≡ specified.may_lease (phase_of phase.now) }
{
    match phase {
        Phase::New(losses) => *losses <= 1,
        Phase::Leased(..) => false,
        Phase::Given(_) => false,
    }
}

// How many calls make a link ready at least and at most, and what stands on it then.
#[derive(Drop)]
struct Reached {
    low: u128,
    high: u128,
    mirror: Mirror,
}

// How far a link comes on the way to a flight's statement.
fn reach(alloc: Global, link: Link, flight: Option<&Flown>) -> Result<Reached, Memory>
    ensures reach { IfOk result (λ r. record { low = r.low; high = r.high } ≡ specified.reach link (option_copied flight.entry)) }
    ensures mirror { IfOk result (λ r. r.mirror ≡ mirror_given link (option_copied flight.entry)) }
    ensures next { IfOk result (λ r. r.mirror.next ≤ link.calls + 1 + r.low) }
    ensures low { IfOk result (λ r. r.low ≤ r.high) }
    ensures high { IfOk result (λ r. r.high < 2 ^ 66) }
{
    let Some(flown) = flight else {
        return Ok(Reached {
            low: 0,
            high: 0,
            mirror: if link.sure {
                link.mirror
            } else {
                Mirror::new(alloc)
            },
        });
    };
    if !link.sure {
        return Ok(Reached {
            low: 0,
            high: MOST_READYING,
            mirror: Mirror::new(alloc),
        });
    }
    let readying = make_ready(alloc, link.mirror, flown.stamp, flown.key.query())?;
    Ok(Reached {
        low: readying.count,
        high: readying.count,
        mirror: readying.mirror,
    })
}

impl Reached {
    // Whether a link that had these counts was made ready and ran the statement.
    fn ran(&self, ran: u64, called: u64, runs: u64, calls: u64) -> bool
        requires high { self.now.high < 2 ^ 66 }
        requires low { self.now.low ≤ self.now.high }
        ensures { result ≡ ran_as ran called (record { low = self.now.low; high = self.now.high }) runs calls }
    {
        let called = u128::from(called);
        let calls = u128::from(calls);
        u128::from(runs) == u128::from(ran) + 1
            && called + self.low + 1 <= calls
            && calls <= called + self.high + 1
    }

    // Whether it ran no statement, after so many calls at least.
    fn unran(&self, least: u64, ran: u64, called: u64, runs: u64, calls: u64) -> bool
        requires { self.now.high < 2 ^ 66 }
        ensures { result ≡ unran_as least ran called (record { low = self.now.low; high = self.now.high }) runs calls }
    {
        let called = u128::from(called);
        let calls = u128::from(calls);
        runs == ran && called + u128::from(least) <= calls && calls <= called + self.high
    }
}

/// The link as it is given back with these counts after a flight's statement was run or not, or none where it can't be. The cost is
/// that of its tables and of the flight's lists.
pub(crate) fn give(
    alloc: Global,
    link: Link,
    flight: Option<&Flown>,
    ran: bool,
    runs: u64,
    calls: u64,
) -> Result<Option<Link>, Memory>
    ensures may { IfOk result (λ o. is_some o ≡ given_as ran link (specified.reach link (option_copied flight.entry)) runs calls) }
    ensures given { IfOk result (λ o. IfSome o (λ k. k ≡ link_given link (option_copied flight.entry) ran runs calls)) }
{
    let number = link.number;
    let had_run = link.runs;
    let called = link.calls;
    let sure = link.sure;
    let reached = reach(alloc, link, flight)?;
    if ran {
        if !reached.ran(had_run, called, runs, calls) {
            return Ok(None);
        }
        let mirror = reached.mirror;
        return Ok(Some(Link {
            number,
            runs,
            calls,
            mirror,
            sure,
        }));
    }
    if !reached.unran(0, had_run, called, runs, calls) {
        return Ok(None);
    }
    Ok(Some(Link {
        number,
        runs,
        calls,
        mirror: Mirror::new(alloc),
        sure: false,
    }))
}

// Whether a dialled link may be lost with these counts after a flight's statement was run or not.
fn may_lose_dialled(
    alloc: Global,
    link: Link,
    flight: Option<&Flown>,
    ran: bool,
    runs: u64,
    calls: u64,
) -> Result<bool, Memory>
    ensures { IfOk result (λ may. may ≡ lost_as ran link (specified.reach link (option_copied flight.entry)) runs calls) }
{
    let had_run = link.runs;
    let called = link.calls;
    let reached = reach(alloc, link, flight)?;
    if ran {
        return Ok(reached.ran(had_run, called, runs, calls));
    }
    Ok(reached.unran(1, had_run, called, runs, calls))
}

/// Whether a link, which was leased fresh or not, may be lost so, dialled or not. The cost is that of its tables and of the
/// flight's lists.
pub(crate) fn may_lose(
    alloc: Global,
    link: Link,
    fresh: bool,
    flight: Option<&Flown>,
    dialled: bool,
    ran: bool,
    runs: u64,
    calls: u64,
) -> Result<bool, Memory>
    ensures { IfOk result (λ may. may ≡ specified.may_lose_as dialled fresh link (option_copied flight.entry) ran runs calls) }
{
    if dialled {
        return may_lose_dialled(alloc, link, flight, ran, runs, calls);
    }
    Ok(fresh && !ran && runs == 0 && calls == 0)
}
