// Which entries the machine takes, one after another.
use crate::samples::loaded;
use dq_journal::Entry;
use dq_machine::Machine;
use dq_parse::parse;
use std::alloc::Global;
use std::process::Abort;
use std::sync::Arc;

// What stands in a report, what stands in its place, and how many entries may come then.
type Change = (&'static str, &'static str, u64);

// An answer by year lands behind one by both columns, and three zones find them.
const FOUND: &str =
    "report 1\nlanes 0\nentries 10\n1 publish lane 1 step 1\n2 admit lane 2 step 1 met group 1\n3 admit lane 1 step 2 met group 2\n4 lease lane 1 flight 2 link 1 fresh\n5 give lane 1 flight 2 link 1 ran runs 1 calls 2\n6 land lane 1 flight 2 cells 15 clever kept literal kept\n7 lease lane 2 flight 1 link 1 idle\n8 give lane 2 flight 1 link 1 ran runs 2 calls 3\n9 land lane 2 flight 1 cells 4 clever kept literal kept\n10 admit lane 4 step 1 met hit 2 hit 2 group 3\n";

// An answer of few rows is kept by its text alone.
const TOPPED: &str =
    "report 1\nlanes 0\nentries 6\n1 publish lane 1 step 1\n2 admit lane 3 step 1 met group 1\n3 lease lane 3 flight 1 link 1 fresh\n4 give lane 3 flight 1 link 1 ran runs 1 calls 2\n5 land lane 3 flight 1 cells 6 clever topped literal kept\n6 admit lane 3 step 2 met literal 1\n";

// A flight is under way while its extract is refreshed.
const REFRESHED: &str =
    "report 1\nlanes 0\nentries 8\n1 publish lane 1 step 1\n2 admit lane 2 step 1 met group 1\n3 publish lane 1 step 3\n4 admit lane 4 step 1 met group 2 group 3 group 2\n5 lease lane 2 flight 1 link 1 fresh\n6 give lane 2 flight 1 link 1 ran runs 1 calls 2\n7 land lane 2 flight 1 cells 4 clever stale literal stale\n8 admit lane 1 step 4 met join 3\n";

// Two flights are under way, and three zones come.
const RUNNING: &str =
    "report 1\nlanes 0\nentries 4\n1 publish lane 1 step 1\n2 admit lane 2 step 1 met group 1\n3 admit lane 1 step 2 met group 2\n4 admit lane 4 step 1 met join 2 join 1 group 3\n";

// A flight for which somebody waits has landed, and no cache kept its answer.
const LANDED: &str =
    "report 1\nlanes 0\nentries 7\n1 publish lane 1 step 1\n2 admit lane 1 step 2 met group 1\n3 admit lane 2 step 1 met join 1\n4 lease lane 1 flight 1 link 1 fresh\n5 give lane 1 flight 1 link 1 ran runs 1 calls 2\n6 land lane 1 flight 1 cells 15 clever memory literal memory\n7 admit lane 4 step 1 met group 2 group 3 group 2\n";

// A flight for which somebody waits has fallen.
const FALLEN: &str =
    "report 1\nlanes 0\nentries 9\n1 publish lane 1 step 1\n2 admit lane 1 step 2 met group 1\n3 admit lane 2 step 1 met join 1\n4 lease lane 1 flight 1 link 1 fresh\n5 lose lane 1 flight 1 link 1 undialled\n6 lease lane 1 flight 1 link 2 fresh\n7 lose lane 1 flight 1 link 2 undialled\n8 fall lane 1 flight 1 backend\n9 admit lane 4 step 1 met group 2 group 3 group 2\n";

// Three zones miss, and two of them are in one group.
const MISSED: &str =
    "report 1\nlanes 0\nentries 2\n1 publish lane 1 step 1\n2 admit lane 4 step 1 met group 1 group 2 group 1\n";

/// How many entries of a journal may come, up to the first that may not.
fn taken(rt: &impl Abort, alloc: Global, journal: &[Entry]) -> u64 {
    let loaded = Arc::new(alloc, loaded(rt, alloc)).ok().expect(rt, "memory");
    let mut machine = Machine::new(alloc, loaded).ok().expect(rt, "memory");
    for (place, entry) in journal.iter().enumerate() {
        match machine.take(alloc, entry).ok().expect(rt, "memory") {
            Some(after) => machine = after,
            None => return place as u64,
        }
    }
    journal.len() as u64
}

fn check(rt: &impl Abort, alloc: Global, report: &str, count: u64) {
    let parsed = parse(alloc, report.as_bytes()).ok().expect(rt, "a report");
    assert_eq!(rt;
        taken(rt, alloc, parsed.journal.as_slice()),
        count,
        "{report}"
    );
}

fn check_changes(rt: &impl Abort, alloc: Global, report: &str, changes: &[Change]) {
    for (old, new, count) in changes {
        let changed = report.replace(alloc, old, new).ok().expect(rt, "memory");
        check(rt, alloc, changed.as_str(), *count);
    }
}

#[test]
fn the_clever_shelf_goes_first_and_its_hit_to_the_front(rt: HostRuntime) {
    let found = [
        ("hit 2 hit 2", "hit 2 hit 2", 10),
        ("hit 2 hit 2", "hit 2 hit 1", 9),
        ("hit 2 hit 2", "hit 2 literal 1", 9),
        ("hit 2 hit 2", "literal 2 hit 2", 9),
    ];
    check_changes(&rt, rt.alloc(), FOUND, &found);
    let topped = [
        ("met literal 1", "met literal 1", 6),
        ("met literal 1", "met hit 1", 5),
        ("met literal 1", "met group 2", 5),
        ("clever topped", "clever kept", 4),
    ];
    check_changes(&rt, rt.alloc(), TOPPED, &topped);
}

#[test]
fn another_stamp_is_no_hit(rt: HostRuntime) {
    let changes = [
        ("join 3", "join 3", 8),
        ("join 3", "hit 1", 7),
        ("clever stale", "clever kept", 6),
        ("literal stale", "literal kept", 6),
        ("group 2 group 3 group 2", "group 2 join 1 group 2", 3),
    ];
    check_changes(&rt, rt.alloc(), REFRESHED, &changes);
}

#[test]
fn a_running_flight_is_joined(rt: HostRuntime) {
    let running = [
        ("join 2 join 1", "join 2 join 1", 4),
        ("join 2 join 1", "join 2 join 2", 3),
        ("join 2 join 1 group 3", "group 3 group 4 group 3", 3),
    ];
    check_changes(&rt, rt.alloc(), RUNNING, &running);
    let landed = [
        ("group 2 group 3", "group 2 group 3", 7),
        ("group 2 group 3 group 2", "join 1 join 1 group 2", 6),
    ];
    check_changes(&rt, rt.alloc(), LANDED, &landed);
    let fallen = [
        ("group 2 group 3", "group 2 group 3", 9),
        ("group 2 group 3 group 2", "join 1 join 1 group 2", 8),
    ];
    check_changes(&rt, rt.alloc(), FALLEN, &fallen);
}

#[test]
fn misses_of_a_group_have_one_number(rt: HostRuntime) {
    let changes = [
        ("group 1 group 2 group 1", "group 1 group 2 group 1", 2),
        ("group 1 group 2 group 1", "group 1 group 2 group 3", 1),
        ("group 1 group 2 group 1", "group 2 group 1 group 2", 1),
        ("group 1 group 2 group 1", "group 1 group 1 group 1", 1),
    ];
    check_changes(&rt, rt.alloc(), MISSED, &changes);
}
