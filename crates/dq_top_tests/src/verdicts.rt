// What runs of statements, lists, blends and faults write, and what is said of their reports. The reports are from outside.
use crate::checks::{Change, check_changes};
use crate::plays::{Left, Play, check_play, check_run, replaced, whole_script};
use crate::tests::copies;
use dq_backend::{InOffice, SureOffice};
use std::alloc::Global;
use std::process::Abort;

// Two lanes of one extract: the second joins the flight of the first.
const SHARED: Play = Play {
    script: r#"{"form":1,<extracts>,"lanes":[[<sales>,{"batch":[<both>]}],[{"batch":[<regions>]}]],"schedule":[1,1,2,2,2]}"#,
    left: Left {
        status: 0,
        idle: "1 1 2,",
        wrecks: "",
    },
    report: r#"report 1
lanes 2
entries 9
1 publish lane 1 step 1
2 admit lane 1 step 2 met group 1
3 admit lane 2 step 1 met join 1
4 lease lane 1 flight 1 link 1 fresh
5 give lane 1 flight 1 link 1 ran runs 1 calls 2
6 land lane 1 flight 1 cells 15 clever kept literal kept
7 take lane 2 flight 1 landed
8 end lane 1
9 end lane 2
lane 1 steps 2
step 1 published 1
step 2 admitted 2 zones 1
zone 1 rows 5
null 2021 1
"East" 2020 1
"East" 2021 1
"West" 2020 1
"West" 2021 1
lane 2 steps 1
step 1 admitted 3 zones 1
zone 1 rows 3
null 1
"East" 2
"West" 2
"#,
};

// The script of two lanes, in the first of which a dial and two links are to fail.
const FAULTY: &str =
    r#"{"form":1,<extracts>,"lanes":[[<sales>,{"batch":[<both>]}],[{"batch":[<regions>]}]],"schedule":[1,1,2,2,2],"faults":[{"lane":1,"dials":[2],"links":[2,2]}]}"#;

// A flight loses two links and falls; the lane that joined it takes it as fallen and runs its own.
const FALLEN: Play = Play {
    script: r#"{"form":1,<extracts>,"lanes":[[<sales>,{"batch":[<both>]}],[{"batch":[<regions>]}]],"schedule":[1,1,2],"faults":[{"lane":1,"links":[2,2]}]}"#,
    left: Left {
        status: 1,
        idle: "3 1 2,",
        wrecks: "1 1 2,2 1 2,",
    },
    report: r#"report 1
lanes 2
entries 14
1 publish lane 1 step 1
2 admit lane 1 step 2 met group 1
3 admit lane 2 step 1 met join 1
4 lease lane 1 flight 1 link 1 fresh
5 lose lane 1 flight 1 link 1 dialled ran runs 1 calls 2
6 lease lane 1 flight 1 link 2 fresh
7 lose lane 1 flight 1 link 2 dialled ran runs 1 calls 2
8 fall lane 1 flight 1 backend
9 take lane 2 flight 1 fallen 2
10 end lane 1
11 lease lane 2 flight 2 link 3 fresh
12 give lane 2 flight 2 link 3 ran runs 1 calls 2
13 land lane 2 flight 2 cells 6 clever kept literal kept
14 end lane 2
lane 1 steps 2
step 1 published 1
step 2 admitted 2 zones 1
zone 1 backend
lane 2 steps 1
step 1 admitted 3 zones 1
zone 1 rows 3
null 1
"East" 2
"West" 2
"#,
};

// Two answers are shown as one.
const BLENDED: Play = Play {
    script: r#"{"form":2,<extracts>,"lanes":[[<sales>,{"batch":[{"blend":[<sums>,{"source":"sales","filters":[{"column":"year","among":[2020]}],"by":["region"],"show":[["rows"]]}]}]}]]}"#,
    left: Left {
        status: 0,
        idle: "1 2 3,",
        wrecks: "",
    },
    report: r#"report 1
lanes 1
entries 9
1 publish lane 1 step 1
2 admit lane 1 step 2 met group 1 group 2
3 lease lane 1 flight 1 link 1 fresh
4 give lane 1 flight 1 link 1 ran runs 1 calls 2
5 land lane 1 flight 1 cells 6 clever kept literal kept
6 lease lane 1 flight 2 link 1 idle
7 give lane 1 flight 2 link 1 ran runs 2 calls 3
8 land lane 1 flight 2 cells 4 clever kept literal kept
9 end lane 1
lane 1 steps 2
step 1 published 1
step 2 admitted 2 zones 1
zone 1 rows 3
null 4 null
"East" 15 1
"West" 7 1
"#,
};

// Two answers are shown as one, and the first one's flight falls.
const HALF_FALLEN: Play = Play {
    script: r#"{"form":2,<extracts>,"lanes":[[<sales>,{"batch":[{"blend":[<sums>,{"source":"sales","filters":[{"column":"year","among":[2020]}],"by":["region"],"show":[["rows"]]}]}]}]],"faults":[{"lane":1,"links":[2,2]}]}"#,
    left: Left {
        status: 1,
        idle: "3 1 2,",
        wrecks: "1 1 2,2 1 2,",
    },
    report: r#"report 1
lanes 1
entries 11
1 publish lane 1 step 1
2 admit lane 1 step 2 met group 1 group 2
3 lease lane 1 flight 1 link 1 fresh
4 lose lane 1 flight 1 link 1 dialled ran runs 1 calls 2
5 lease lane 1 flight 1 link 2 fresh
6 lose lane 1 flight 1 link 2 dialled ran runs 1 calls 2
7 fall lane 1 flight 1 backend
8 lease lane 1 flight 2 link 3 fresh
9 give lane 1 flight 2 link 3 ran runs 1 calls 2
10 land lane 1 flight 2 cells 4 clever kept literal kept
11 end lane 1
lane 1 steps 2
step 1 published 1
step 2 admitted 2 zones 1
zone 1 backend
"#,
};

// Seventeen batches put their lists into tables of one link, one of whose calls is to fail.
const LISTS: &str =
    r#"{"form":1,<extracts>,"lanes":[[<sales><batches>]],"faults":[{"lane":1,"links":[<call>]}]}"#;

const LISTED: &str =
    r#",{"batch":[{"source":"sales","filters":[{"column":"year","among":[<list #>]}],"show":[["rows"]]}]}"#;

// The last batch drops a table and puts its own.
const DROPPED: &str = "67 lease lane 1 flight 17 link 1 idle
68 give lane 1 flight 17 link 1 ran runs 17 calls 36
69 land lane 1 flight 17 cells 1 clever kept literal kept
70 end lane 1
";

// The last batch loses the link when it drops a table.
const LOST: &str = "67 lease lane 1 flight 17 link 1 idle
68 lose lane 1 flight 17 link 1 dialled unran runs 16 calls 34
69 lease lane 1 flight 17 link 2 fresh
70 give lane 1 flight 17 link 2 ran runs 1 calls 3
71 land lane 1 flight 17 cells 1 clever kept literal kept
72 end lane 1
";

/// The script of the lists, with the link's call that is to fail.
fn lists_script(rt: &impl Abort, alloc: Global, call: &str) -> String {
    let batches = copies(rt, alloc, LISTED, 17);
    let script = replaced(rt, alloc, LISTS, "<batches>", batches.as_str());
    replaced(rt, alloc, script.as_str(), "<call>", call)
}

/// The entries of the batches but for the last one.
fn lists_entries(rt: &impl Abort, alloc: Global) -> String {
    let mut all = String::new(alloc);
    for batch in 0u32..16 {
        let word = if batch == 0 { "fresh" } else { "idle" };
        let (flight, step, calls) = (batch + 1, batch + 2, 2 * batch + 3);
        let asked = format!(in alloc;
            "{} admit lane 1 step {step} met group {flight}\n{} lease lane 1 flight {flight} link 1 {word}\n",
            4 * batch + 2,
            4 * batch + 3
        )
        .ok()
        .expect(rt, "memory");
        let landed = format!(in alloc;
            "{} give lane 1 flight {flight} link 1 ran runs {flight} calls {calls}\n{} land lane 1 flight {flight} cells 1 clever kept literal kept\n",
            4 * batch + 4,
            4 * batch + 5
        )
        .ok()
        .expect(rt, "memory");
        assert!(rt; all.push_str(asked.as_str()).is_ok());
        assert!(rt; all.push_str(landed.as_str()).is_ok());
    }
    all
}

/// What became of the batches' steps. The first list to have 2020 is the fourth, and the fifth has 2021 too.
fn lists_steps(rt: &impl Abort, alloc: Global) -> String {
    let mut all = String::new(alloc);
    for batch in 0u32..17 {
        let rows = match batch {
            0 | 1 | 2 => 0,
            3 => 2,
            _ => 5,
        };
        let step = format!(in alloc;
            "step {} admitted {} zones 1\nzone 1 rows 1\n{rows}\n",
            batch + 2,
            4 * batch + 2
        )
        .ok()
        .expect(rt, "memory");
        assert!(rt; all.push_str(step.as_str()).is_ok());
    }
    all
}

/// The report of the lists: how many entries there are, and the last ones, behind the last admission.
fn lists_report(rt: &impl Abort, alloc: Global, count: &str, last: &str) -> String {
    let entries = lists_entries(rt, alloc);
    let steps = lists_steps(rt, alloc);
    format!(in alloc;
        "report 1\nlanes 1\nentries {count}\n1 publish lane 1 step 1\n{}66 admit lane 1 step 18 met group 17\n{last}lane 1 steps 18\nstep 1 published 1\n{}",
        entries.as_str(),
        steps.as_str()
    )
    .ok()
    .expect(rt, "memory")
}

/// A run writes this report, and what is said of it with each of these changes.
fn check_judged_run(
    rt: &impl Abort,
    alloc: Global,
    script: &str,
    left: &Left,
    report: &str,
    changes: &[Change],
) {
    check_run(rt, alloc, &mut InOffice::new(), script, left, report);
    let whole = whole_script(rt, alloc, script);
    check_changes(rt, alloc, (whole.as_str(), report), changes);
}

/// So does a run of a script that stands among the tests.
fn check_judged(rt: &impl Abort, alloc: Global, play: &Play, changes: &[Change]) {
    check_judged_run(rt, alloc, play.script, &play.left, play.report, changes);
}

#[test]
fn a_join_is_judged(rt: HostRuntime) {
    let changes: [Change; 3] = [
        ("met join 1", "met hit 1", 1, "unlawful entry 3\n"),
        (
            "flight 1 landed",
            "flight 1 fallen 2",
            1,
            "unlawful entry 7\n",
        ),
        ("cells 15", "cells 14", 1, "unlawful entry 6\n"),
    ];
    let alloc = rt.alloc();
    let play = SHARED;
    check_judged(&rt, alloc, &play, &changes);
    let sure = Play {
        script: FAULTY,
        left: play.left,
        report: play.report,
    };
    check_play(&rt, alloc, &mut SureOffice::new(), &sure);
}

#[test]
fn a_fallen_flight_is_judged(rt: HostRuntime) {
    let changes: [Change; 3] = [
        ("fallen 2", "landed", 1, "unlawful entry 9\n"),
        (
            "flight 1 backend",
            "flight 1 memory",
            1,
            "unlawful entry 8\n",
        ),
        (
            "flight 2 link 3",
            "flight 2 link 2",
            1,
            "unlawful entry 11\n",
        ),
    ];
    check_judged(&rt, rt.alloc(), &FALLEN, &changes);
}

#[test]
fn lists_on_a_link_are_judged(rt: HostRuntime) {
    let alloc = rt.alloc();
    let changes: [Change; 2] = [
        (
            "runs 16 calls 34",
            "runs 16 calls 33",
            1,
            "unlawful entry 68\n",
        ),
        (
            "flight 17 link 2 fresh",
            "flight 17 link 1 idle",
            1,
            "unlawful entry 69\n",
        ),
    ];
    let script = lists_script(&rt, alloc, "34");
    let report = lists_report(&rt, alloc, "72", LOST);
    let left = Left {
        status: 0,
        idle: "2 1 3,",
        wrecks: "1 16 34,",
    };
    check_judged_run(
        &rt,
        alloc,
        script.as_str(),
        &left,
        report.as_str(),
        &changes,
    );
}

#[test]
fn the_oldest_table_is_dropped(rt: HostRuntime) {
    let alloc = rt.alloc();
    let script = lists_script(&rt, alloc, "0");
    let report = lists_report(&rt, alloc, "70", DROPPED);
    let left = Left {
        status: 0,
        idle: "1 17 36,",
        wrecks: "",
    };
    check_run(
        &rt,
        alloc,
        &mut InOffice::new(),
        script.as_str(),
        &left,
        report.as_str(),
    );
}

#[test]
fn a_blend_is_judged(rt: HostRuntime) {
    let changes: [Change; 2] = [
        ("\"West\" 7 1", "\"West\" 7 2", 1, "unlawful zone 1 2 1\n"),
        ("group 1 group 2", "group 1", 1, "unlawful entry 2\n"),
    ];
    check_judged(&rt, rt.alloc(), &BLENDED, &changes);
}

#[test]
fn a_half_fallen_blend_is_judged(rt: HostRuntime) {
    let changes: [Change; 1] = [(
        "zone 1 backend",
        "zone 1 memory",
        1,
        "unlawful zone 1 2 1\n",
    )];
    check_judged(&rt, rt.alloc(), &HALF_FALLEN, &changes);
}
