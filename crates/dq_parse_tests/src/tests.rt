// Reports of every form of line, and bytes that are none.
use dq_base::{Cell, Invalid};
use dq_journal::{Entry, StepResult, ZoneResult};
use dq_parse::{ParseFault, Parsed, parse};
use std::alloc::Global;
use std::process::Abort;

const SALES: &str =
    "report 1\nlanes 1\nentries 6\n1 publish lane 1 step 1\n2 admit lane 1 step 2 met group 1\n3 lease lane 1 flight 1 link 1 fresh\n4 give lane 1 flight 1 link 1 ran runs 1 calls 2\n5 land lane 1 flight 1 cells 9 clever kept literal kept\n6 end lane 1\nlane 1 steps 2\nstep 1 published 1\nstep 2 admitted 2 zones 1\nzone 1 rows 3\nnull 4 1\n\"East\" 15 2\n\"West\" 7 2\n";

const LOSSES: &str =
    "report 1\nlanes 2\nentries 7\n1 admit lane 2 step 1 met hit 1 literal 2 join 3 group 4\n2 lose lane 1 flight 1 link 2 undialled\n3 lose lane 1 flight 1 link 3 dialled unran runs 0 calls 4\n4 lease lane 1 flight 2 link 4 idle\n5 fall lane 1 flight 1 backend\n6 take lane 2 flight 1 fallen 2\n7 take lane 2 flight 1 landed\nlane 1 steps 1\nstep 1 refused memory\nlane 2 steps 2\nstep 1 refused memory zones 2\nzone 1 memory\nzone 2 invalid column\nstep 2 admitted 1 zones 3\nzone 1 backend\nzone 2 rows 2\n\n26/4 -3 null\nzone 3 rows 0\n";

/// A report of so many entries and lanes.
fn check_report(rt: &impl Abort, alloc: Global, text: &str, entries: u64, lanes: u64) {
    let parsed = parse(alloc, text.as_bytes()).ok().expect(rt, "a report");
    assert_eq!(rt; parsed.journal.len(), entries, "{text}");
    assert_eq!(rt; parsed.results.len(), lanes, "{text}");
}

#[test]
fn reports_are_parsed(rt: HostRuntime) {
    let alloc = rt.alloc();
    let table = [
        (SALES, 6, 1),
        (LOSSES, 7, 2),
        ("report 1\nlanes 0\nentries 0\n", 0, 0),
        ("report 1\nlanes 1\nentries 0\nlane 1 steps 0\n", 0, 1),
    ];
    for (text, entries, lanes) in table {
        check_report(&rt, alloc, text, entries, lanes);
    }
}

/// Whether the second zone of the second lane's first step is told as invalid.
fn is_invalid(parsed: &Parsed) -> bool {
    match parsed.results.get(1).and_then(|lane| lane.get(0)) {
        Some(StepResult::Unadmitted(zones)) => {
            matches!(zones.get(1), Some(ZoneResult::Invalid(Invalid::Column)))
        }
        _ => false,
    }
}

/// The second cell of the second row of a zone's answer.
fn cell_of(zone: &ZoneResult) -> Option<i128> {
    match zone {
        ZoneResult::Rows(table) => match table.get(1)?.get(1)? {
            Cell::Whole(number) => Some(*number),
            _ => None,
        },
        _ => None,
    }
}

/// That cell of the second zone of the second lane's second step.
fn second_cell(parsed: &Parsed) -> Option<i128> {
    match parsed.results.get(1)?.get(1)? {
        StepResult::Admitted(1, zones) => cell_of(zones.get(1)?),
        _ => None,
    }
}

#[test]
fn parts_stand_in_their_places(rt: HostRuntime) {
    let alloc = rt.alloc();
    let parsed = parse(alloc, LOSSES.as_bytes()).ok().expect(&rt, "a report");
    assert!(&rt;
        matches!(
            parsed.journal.get(2),
            Some(Entry::Lose {
                lane: 1,
                flight: 1,
                link: 3,
                dialled: true,
                ran: false,
                runs: 0,
                calls: 4
            })
        )
    );
    assert!(&rt; is_invalid(&parsed));
    assert_eq!(&rt; second_cell(&parsed), Some(-3));
}

#[test]
fn other_bytes_are_refused(rt: HostRuntime) {
    let alloc = rt.alloc();
    let table = [
        "",
        "report 1\nlanes 1\nentries 6\n1 publish lane 1 step 1\n2 admit lane 1 step 2 met group 1\n3 lease lane 1 flight 1 link 1 fresh\n4 give lane 1 flight 1 link 1 ran runs 1 calls 2\n5 land lane 1 flight 1 cells 9 clever kept literal kept\n6 end lane 1\nlane 1 steps 2\nstep 1 published 1\nstep 2 admitted 2 zones 1\nzone 1 rows 3\nnull 4 1\n\"East\" 15 2\n",
        "report 2\nlanes 0\nentries 0\n",
        "report 1\nlanes 0\nentries 0",
        "report 1\nlanes 0\nentries 0\n\n",
        "report 1\nlanes 00\nentries 0\n",
        "report 1\nlanes 18446744073709551616\nentries 0\n",
        "report 1\nlanes 0\nentries 1\n",
        "report 1\nlanes 0\nentries 1\n2 end lane 1\n",
        "report 1\nlanes 0\nentries 1\n1 end lane 01\n",
        "report 1\nlanes 0\nentries 1\n1 end lane 4294967296\n",
        "report 1\nlanes 0\nentries 1\n1 publish lane 1  step 1\n",
        "report 1\nlanes 0\nentries 1\n1 lose lane 1 flight 1 link 1 undialled ran\n",
        "report 1\nlanes 0\nentries 1\n1 admit lane 1 step 1 met \n",
        "report 1\nlanes 1\nentries 0\nlane 2 steps 0\n",
        "report 1\nlanes 1\nentries 0\nlane 1 steps 1\nstep 1 admitted 1 zones 1\nzone 2 memory\n",
        "report 1\nlanes 1\nentries 0\nlane 1 steps 1\nstep 1 admitted 1 zones 1\nzone 1 rows 1\n-0\n",
        "report 1\nlanes 1\nentries 0\nlane 1 steps 1\nstep 1 admitted 1 zones 1\nzone 1 rows 1\n1/0\n",
        "report 1\nlanes 1\nentries 0\nlane 1 steps 1\nstep 1 admitted 1 zones 1\nzone 1 rows 1\n1/8388609\n",
        "report 1\nlanes 1\nentries 0\nlane 1 steps 1\nstep 1 admitted 1 zones 1\nzone 1 rows 1\n\"East\n",
        "report 1\nlanes 1\nentries 0\nlane 1 steps 1\nstep 1 admitted 1 zones 1\nzone 1 rows 1\n1 \n",
    ];
    for text in table {
        assert_eq!(&rt;
            parse(alloc, text.as_bytes()).err(),
            Some(ParseFault::NotReport),
            "{text}"
        );
    }
}
