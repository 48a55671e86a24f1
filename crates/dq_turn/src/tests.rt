// Turns at a small state, by one thread and by two.
ghost use Rattle.std.specs.Prelude.{◌≡◌, ℕ, ◌≤◌, ◌^◌, [], ◌∷◌, ◌++◌, map, length, None, OnOk, OnErr, IfOk};
ghost use Rattle.std.specs.Thread.{IsSync};
ghost use Rattle.dq_journal.specs.declared.entry.Entry.TheVariants.{End};
ghost use Rattle.dq_turn.specs.Seen.{IsKeeperOf, handed, joined, IsSeatOf, lane, entered};

use crate::{Keeper, LaneSeat, Turnstile};
use dq_base::Memory;
use dq_journal::Chronicled;
use std::alloc::Global;
use std::sync::Wait;
use std::test::Fail;
use std::thread::{Threads, join};

// A title, which was loaded, and a journal, as the list of its entries' lanes.
#[derive(Drop)]
struct Diary {
    title: u32,
    lanes: Vec<u32>,
}

impl Chronicled for Diary {
    ghost Loaded = { ℕ };

    ghost loaded = { λ d. d.title };

    ghost journal = { λ d. map (λ lane. End lane) d.lanes.items };

    fn count(&self) -> u64 {
        self.lanes.len() as u64
    }
}

impl Diary {
    fn new(alloc: Global, title: u32) -> Diary
        ensures { result.lanes.items ≡ [] }
    {
        Diary {
            title,
            lanes: Vec::new(alloc),
        }
    }

    // How many entries there are, and the lane of the last one.
    fn found(&self) -> (usize, Option<u32>) {
        (self.lanes.len(), self.lanes.last().copied())
    }

    fn add(&mut self, lane: u32) -> Result<(), Memory>
        ensures title { self.new.title ≡ self.old.title }
        ensures ok { OnOk result ((self.new.lanes.items ≡ self.old.lanes.items ++ lane ∷ []) × (length self.new.lanes.items ≤ 2 ^ 32)) }
        ensures err { OnErr result (self.new.lanes.items ≡ self.old.lanes.items) }
    {
        if self.lanes.len() >= 1 << 32 {
            return Err(Memory);
        }
        self.lanes.push(lane)?;
        Ok(())
    }
}

// Enters, adds an entry where it is to, and leaves. Gives what was found.
fn visit<R: Wait>(
    rt: &R,
    turnstile: &Turnstile<Diary>,
    seat: &mut LaneSeat<Diary>,
    number: u32,
    adds: bool,
) -> Result<(usize, Option<u32>), Memory>
    requires { IsSeatOf turnstile.now seat.old × (entered seat.old ≡ None) × (lane seat.old ≡ number) }
    ensures { IsSeatOf turnstile.now seat.new × (entered seat.new ≡ None) × (lane seat.new ≡ number) }
{
    let mut guard = turnstile.enter(rt, seat);
    let found = guard.state().found();
    let added = if adds {
        guard.state().add(number)
    } else {
        Ok(())
    };
    turnstile.leave(guard, seat);
    added?;
    Ok(found)
}

#[test]
fn two_seats_find_what_was_added(rt: HostRuntime) -> Result<(), Fail> {
    let Ok((turnstile, mut keeper)) = Turnstile::new(rt.alloc(), Diary::new(rt.alloc(), 7)) else {
        panic!(rt; "no memory")
    };
    let mut first = turnstile.split(&mut keeper)?;
    let mut second = turnstile.split(&mut keeper)?;
    assert_eq!(rt; visit(&rt, &turnstile, &mut first, 1, true)?, (0, None));
    assert_eq!(rt; visit(&rt, &turnstile, &mut second, 2, true)?, (1, Some(1)));
    assert_eq!(rt; visit(&rt, &turnstile, &mut first, 1, false)?, (2, Some(2)));
    turnstile.join(&mut keeper, first);
    turnstile.join(&mut keeper, second);
    let Ok(diary) = turnstile.close(keeper) else {
        panic!(rt; "no memory")
    };
    assert_eq!(rt; diary.lanes.as_slice(), [1u32, 2].as_slice());
    assert_eq!(rt; diary.title, 7);
    Ok(())
}

// Visits a number of times, adding an entry each time. The seat comes back, with whether memory sufficed.
fn visit_often<R: Wait>(
    rt: &R,
    turnstile: &Turnstile<Diary>,
    mut seat: LaneSeat<Diary>,
    number: u32,
) -> (LaneSeat<Diary>, bool)
    requires { IsSeatOf turnstile.now seat × (entered seat ≡ None) × (lane seat ≡ number) }
    ensures { IsSeatOf turnstile.now result.0 × (entered result.0 ≡ None) }
{
    let mut enough = true;
    for _ in 0..100 {
        enough &= visit(rt, turnstile, &mut seat, number, true).is_ok();
    }
    (seat, enough)
}

// What two threads leave behind that visit at one time: how many entries of each there are, and of both.
fn visited<R: Threads + Wait + Sync>(rt: &R, alloc: Global) -> Option<(usize, usize, usize)>
    requires { IsSync R.row }
{
    let (turnstile, mut keeper) = Turnstile::new(alloc, Diary::new(alloc, 7)).ok()?;
    let first = turnstile.split(&mut keeper).ok()?;
    let second = turnstile.split(&mut keeper).ok()?;
    let (one, two) = join(
        rt,
        || -> (LaneSeat<Diary>, bool)
            requires { IsSync R.row × IsSeatOf turnstile first × (entered first ≡ None) × (lane first ≡ 1) }
            ensures { IsSeatOf turnstile result.0 × (entered result.0 ≡ None) }
        { visit_often(rt, &turnstile, first, 1) },
        || -> (LaneSeat<Diary>, bool)
            requires { IsSync R.row × IsSeatOf turnstile second × (entered second ≡ None) × (lane second ≡ 2) }
            ensures { IsSeatOf turnstile result.0 × (entered result.0 ≡ None) }
        { visit_often(rt, &turnstile, second, 2) },
    );
    turnstile.join(&mut keeper, one.0);
    turnstile.join(&mut keeper, two.0);
    let diary = turnstile.close(keeper).ok()?;
    if !one.1 || !two.1 {
        return None;
    }
    let of = |lane: u32| diary.lanes.iter().filter(|l| **l == lane).count();
    Some((of(1), of(2), diary.lanes.len()))
}

#[test]
fn two_threads_add_all_their_entries(rt: HostRuntime) -> Result<(), Fail> {
    assert_eq!(rt; visited(&rt, rt.alloc()), Some((100, 100, 200)));
    Ok(())
}
