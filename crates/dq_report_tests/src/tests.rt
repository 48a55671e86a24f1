// Every form of line, against the format's table.
ghost use Rattle.dq_journal.specs.Journals.{IsEntry};

use dq_base::{Cell, Cells, Invalid, Kept, List, Memory, Numbers64, Ratio, Table, Text};
use dq_journal::{
    Cause, Entry, Journal, LaneResults, Meets, Met, StepResult, ZoneResult, ZoneResults,
};
use dq_outside::{MemSink, SureSink};
use dq_report::{WriteFault, are_well_formed, report_tells_all, write};
use std::alloc::Global;
use std::process::Abort;
use std::sync::Arc;
use std::test::Fail;

/// A report of one entry has this line.
fn check_line(rt: &impl Abort, alloc: Global, entry: Entry, line: &str)
    requires { IsEntry entry }
{
    let mut journal = Journal::new(alloc);
    journal.reserve(1).ok().expect(rt, "memory");
    journal.push(entry);
    let mut sink = SureSink::new(alloc);
    assert!(rt; write(alloc, &journal, &List::new(alloc), &mut sink).is_ok());
    let want = format!(in alloc; "report 1\nlanes 0\nentries 1\n1 {line}\n")
        .ok()
        .expect(rt, "memory");
    assert_eq!(rt; sink.bytes(), want.as_bytes(), "{line}");
}

fn meets(rt: &impl Abort, alloc: Global) -> Meets {
    let mut meets = List::new(alloc);
    for met in [Met::Hit(1), Met::Literal(2), Met::Join(3), Met::Group(4)] {
        assert!(rt; meets.push(met).is_ok());
    }
    meets
}

fn lease(link: u64, fresh: bool) -> Entry
    ensures { IsEntry result }
{
    Entry::Lease {
        lane: 2,
        flight: 4,
        link,
        fresh,
    }
}

fn give(ran: bool) -> Entry
    ensures { IsEntry result }
{
    Entry::Give {
        lane: 2,
        flight: 4,
        link: 1,
        ran,
        runs: 1,
        calls: 2,
    }
}

fn land(clever: Kept, literal: Kept) -> Entry
    ensures { IsEntry result }
{
    Entry::Land {
        lane: 2,
        flight: 4,
        cells: 9,
        clever,
        literal,
    }
}

fn fall(cause: Cause) -> Entry
    ensures { IsEntry result }
{
    Entry::Fall {
        lane: 2,
        flight: 4,
        cause,
    }
}

fn take(next: Option<u64>) -> Entry
    ensures { IsEntry result }
{
    Entry::Take {
        lane: 1,
        flight: 4,
        next,
    }
}

#[test]
fn steps_and_links_are_told(rt: HostRuntime) {
    let alloc = rt.alloc();
    let admit = Entry::Admit {
        lane: 1,
        step: 2,
        met: meets(&rt, alloc),
    };
    check_line(
        &rt,
        alloc,
        Entry::Publish { lane: 1, step: 1 },
        "publish lane 1 step 1",
    );
    check_line(
        &rt,
        alloc,
        admit,
        "admit lane 1 step 2 met hit 1 literal 2 join 3 group 4",
    );
    check_line(
        &rt,
        alloc,
        lease(1, true),
        "lease lane 2 flight 4 link 1 fresh",
    );
    check_line(
        &rt,
        alloc,
        lease(7, false),
        "lease lane 2 flight 4 link 7 idle",
    );
    check_line(
        &rt,
        alloc,
        give(true),
        "give lane 2 flight 4 link 1 ran runs 1 calls 2",
    );
    check_line(
        &rt,
        alloc,
        give(false),
        "give lane 2 flight 4 link 1 unran runs 1 calls 2",
    );
}

#[test]
fn flights_are_told(rt: HostRuntime) {
    let alloc = rt.alloc();
    let dialled = Entry::Lose {
        lane: 2,
        flight: 4,
        link: 1,
        dialled: true,
        ran: true,
        runs: 1,
        calls: 2,
    };
    let undialled = Entry::Lose {
        lane: 2,
        flight: 4,
        link: 1,
        dialled: false,
        ran: false,
        runs: 0,
        calls: 0,
    };
    check_line(
        &rt,
        alloc,
        dialled,
        "lose lane 2 flight 4 link 1 dialled ran runs 1 calls 2",
    );
    check_line(
        &rt,
        alloc,
        undialled,
        "lose lane 2 flight 4 link 1 undialled",
    );
    check_line(
        &rt,
        alloc,
        land(Kept::Kept, Kept::Topped),
        "land lane 2 flight 4 cells 9 clever kept literal topped",
    );
    check_line(
        &rt,
        alloc,
        land(Kept::TooLarge, Kept::Stale),
        "land lane 2 flight 4 cells 9 clever large literal stale",
    );
    check_line(
        &rt,
        alloc,
        land(Kept::Memory, Kept::Kept),
        "land lane 2 flight 4 cells 9 clever memory literal kept",
    );
    check_line(
        &rt,
        alloc,
        fall(Cause::BackEnd),
        "fall lane 2 flight 4 backend",
    );
    check_line(
        &rt,
        alloc,
        fall(Cause::Memory),
        "fall lane 2 flight 4 memory",
    );
    check_line(&rt, alloc, take(None), "take lane 1 flight 4 landed");
    check_line(&rt, alloc, take(Some(5)), "take lane 1 flight 4 fallen 5");
    check_line(
        &rt,
        alloc,
        Entry::End { lane: 4294967295 },
        "end lane 4294967295",
    );
}

const RESULTS: &[u8] = b"report 1
lanes 2
entries 0
lane 1 steps 3
step 1 published 1
step 2 refused memory
step 3 admitted 2 zones 3
zone 1 rows 2
null -7 \"a\\22\\5c\\0a\\7f\xc3\xa9 ~\" -4/2
0
zone 2 invalid column
zone 3 backend
lane 2 steps 1
step 1 refused memory zones 1
zone 1 memory
";

fn table(rt: &impl Abort, alloc: Global) -> Result<Table, Memory> {
    let mut first: Cells = List::new(alloc);
    first.push(Cell::Null)?;
    first.push(Cell::Whole(-7))?;
    first.push(Cell::Word(Text::copy_of(alloc, b"a\"\\\n\x7f\xc3\xa9 ~")?))?;
    first.push(Cell::Ratio(Ratio::new(-4, 2).expect(rt, "within bounds")))?;
    let mut second: Cells = List::new(alloc);
    second.push(Cell::Whole(0))?;
    let mut table = List::new(alloc);
    table.push(first)?;
    table.push(second)?;
    Ok(table)
}

fn first_lane(rt: &impl Abort, alloc: Global) -> Result<LaneResults, Memory> {
    let mut zones: ZoneResults = List::new(alloc);
    zones.push(ZoneResult::Rows(Arc::new(alloc, table(rt, alloc)?)?))?;
    zones.push(ZoneResult::Invalid(Invalid::Column))?;
    zones.push(ZoneResult::BackEnd)?;
    let mut lane = List::new(alloc);
    lane.push(StepResult::Published(1))?;
    lane.push(StepResult::Unpublished)?;
    lane.push(StepResult::Admitted(2, zones))?;
    Ok(lane)
}

fn second_lane(alloc: Global) -> Result<LaneResults, Memory> {
    let mut zones: ZoneResults = List::new(alloc);
    zones.push(ZoneResult::Memory)?;
    let mut lane = List::new(alloc);
    lane.push(StepResult::Unadmitted(zones))?;
    Ok(lane)
}

#[test]
fn results_are_told(rt: HostRuntime) -> Result<(), Fail> {
    let alloc = rt.alloc();
    let mut results = List::new(alloc);
    results.push(first_lane(&rt, alloc)?)?;
    results.push(second_lane(alloc)?)?;
    let mut sink = MemSink::new(alloc, Numbers64::new(alloc));
    let wrote = write(alloc, &Journal::new(alloc), &results, &mut sink);
    assert!(rt; wrote.is_ok());
    assert_eq!(rt; sink.bytes(), RESULTS);
    Ok(())
}

#[test]
fn law_and_its_condition_return(rt: HostRuntime) -> Result<(), Fail> {
    let alloc = rt.alloc();
    let mut journal = Journal::new(alloc);
    journal.reserve(2)?;
    journal.push(give(true));
    journal.push(take(Some(5)));
    let mut results = List::new(alloc);
    results.push(first_lane(&rt, alloc)?)?;
    results.push(second_lane(alloc)?)?;
    are_well_formed(&journal, &results);
    report_tells_all();
    assert_eq!(rt; journal.len(), 2);
    assert_eq!(rt; results.len(), 2);
    Ok(())
}

#[test]
fn failed_write_leaves_a_prefix(rt: HostRuntime) -> Result<(), Fail> {
    let alloc = rt.alloc();
    let mut results = List::new(alloc);
    results.push(first_lane(&rt, alloc)?)?;
    let mut fails = Numbers64::new(alloc);
    fails.push(3)?;
    let mut sink = MemSink::short(alloc, fails, 10);
    let wrote = write(alloc, &Journal::new(alloc), &results, &mut sink);
    assert!(rt; matches!(wrote, Err(WriteFault::Failed)));
    assert_eq!(rt; sink.bytes(), b"report 1\nlanes 1\nent".as_slice());
    Ok(())
}
