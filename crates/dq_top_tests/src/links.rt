// Links that fail, and links that find no memory, from outside.
use crate::plays::{Left, Play, check_play, check_run, replaced, whole_script};
use crate::tests::{all_files, report_of, words};
use dq_backend::{InOffice, ShortOffice};
use dq_link::{Dialer, LinkFault, Office};
use dq_outside::{SureFolder, SureSink};
use dq_top::{Outcome, rehearse};
use std::alloc::Global;
use std::process::Abort;

/// A run of a lane that publishes and asks once: its zone, what is to fail in the lane, what is left, the number of entries, the
/// lines between the admission and the end, and what becomes of the zone.
#[derive(Clone, Copy)]
struct Asked {
    zone: &'static str,
    faults: &'static str,
    left: Left,
    entries: &'static str,
    lines: &'static str,
    outcome: &'static str,
}

// The script of such a run.
const ASKING: &str =
    r#"{"form":1,<extracts>,"lanes":[[<sales>,{"batch":[<zone>]}]],"faults":[{"lane":1<faults>}]}"#;

// Dials and calls that fail.
const FAILS: [Asked; 10] = [
    // The link fails in its second call, and the flight runs again on another.
    Asked {
        zone: "<regions>",
        faults: r#","links":[2]"#,
        left: Left {
            status: 0,
            idle: "2 1 2,",
            wrecks: "1 1 2,",
        },
        entries: "8",
        lines: "3 lease lane 1 flight 1 link 1 fresh
4 lose lane 1 flight 1 link 1 dialled ran runs 1 calls 2
5 lease lane 1 flight 1 link 2 fresh
6 give lane 1 flight 1 link 2 ran runs 1 calls 2
7 land lane 1 flight 1 cells 6 clever kept literal kept
",
        outcome: r#"rows 3
null 1
"East" 2
"West" 2
"#,
    },
    // Both dials fail.
    Asked {
        zone: "<regions>",
        faults: r#","dials":[1,2]"#,
        left: Left {
            status: 1,
            idle: "",
            wrecks: "",
        },
        entries: "8",
        lines: "3 lease lane 1 flight 1 link 1 fresh
4 lose lane 1 flight 1 link 1 undialled
5 lease lane 1 flight 1 link 2 fresh
6 lose lane 1 flight 1 link 2 undialled
7 fall lane 1 flight 1 backend
",
        outcome: "backend\n",
    },
    // One dial fails.
    Asked {
        zone: "<regions>",
        faults: r#","dials":[1]"#,
        left: Left {
            status: 0,
            idle: "2 1 2,",
            wrecks: "",
        },
        entries: "8",
        lines: "3 lease lane 1 flight 1 link 1 fresh
4 lose lane 1 flight 1 link 1 undialled
5 lease lane 1 flight 1 link 2 fresh
6 give lane 1 flight 1 link 2 ran runs 1 calls 2
7 land lane 1 flight 1 cells 6 clever kept literal kept
",
        outcome: r#"rows 3
null 1
"East" 2
"West" 2
"#,
    },
    // The mount, the table and the run fail in turn; the fourth call comes to nothing.
    Asked {
        zone: "<listed>",
        faults: r#","links":[1]"#,
        left: Left {
            status: 0,
            idle: "2 1 3,",
            wrecks: "1 0 1,",
        },
        entries: "8",
        lines: "3 lease lane 1 flight 1 link 1 fresh
4 lose lane 1 flight 1 link 1 dialled unran runs 0 calls 1
5 lease lane 1 flight 1 link 2 fresh
6 give lane 1 flight 1 link 2 ran runs 1 calls 3
7 land lane 1 flight 1 cells 1 clever kept literal kept
",
        outcome: "rows 1
5
",
    },
    Asked {
        zone: "<listed>",
        faults: r#","links":[2]"#,
        left: Left {
            status: 0,
            idle: "2 1 3,",
            wrecks: "1 0 2,",
        },
        entries: "8",
        lines: "3 lease lane 1 flight 1 link 1 fresh
4 lose lane 1 flight 1 link 1 dialled unran runs 0 calls 2
5 lease lane 1 flight 1 link 2 fresh
6 give lane 1 flight 1 link 2 ran runs 1 calls 3
7 land lane 1 flight 1 cells 1 clever kept literal kept
",
        outcome: "rows 1
5
",
    },
    Asked {
        zone: "<listed>",
        faults: r#","links":[3]"#,
        left: Left {
            status: 0,
            idle: "2 1 3,",
            wrecks: "1 1 3,",
        },
        entries: "8",
        lines: "3 lease lane 1 flight 1 link 1 fresh
4 lose lane 1 flight 1 link 1 dialled ran runs 1 calls 3
5 lease lane 1 flight 1 link 2 fresh
6 give lane 1 flight 1 link 2 ran runs 1 calls 3
7 land lane 1 flight 1 cells 1 clever kept literal kept
",
        outcome: "rows 1
5
",
    },
    Asked {
        zone: "<listed>",
        faults: r#","links":[4]"#,
        left: Left {
            status: 0,
            idle: "1 1 3,",
            wrecks: "",
        },
        entries: "6",
        lines: "3 lease lane 1 flight 1 link 1 fresh
4 give lane 1 flight 1 link 1 ran runs 1 calls 3
5 land lane 1 flight 1 cells 1 clever kept literal kept
",
        outcome: "rows 1
5
",
    },
    // Two links fail, or a link and a dial.
    Asked {
        zone: "<listed>",
        faults: r#","links":[1,3]"#,
        left: Left {
            status: 1,
            idle: "",
            wrecks: "1 0 1,2 1 3,",
        },
        entries: "8",
        lines: "3 lease lane 1 flight 1 link 1 fresh
4 lose lane 1 flight 1 link 1 dialled unran runs 0 calls 1
5 lease lane 1 flight 1 link 2 fresh
6 lose lane 1 flight 1 link 2 dialled ran runs 1 calls 3
7 fall lane 1 flight 1 backend
",
        outcome: "backend\n",
    },
    Asked {
        zone: "<listed>",
        faults: r#","dials":[1],"links":[2]"#,
        left: Left {
            status: 1,
            idle: "",
            wrecks: "2 0 2,",
        },
        entries: "8",
        lines: "3 lease lane 1 flight 1 link 1 fresh
4 lose lane 1 flight 1 link 1 undialled
5 lease lane 1 flight 1 link 2 fresh
6 lose lane 1 flight 1 link 2 dialled unran runs 0 calls 2
7 fall lane 1 flight 1 backend
",
        outcome: "backend\n",
    },
    Asked {
        zone: "<listed>",
        faults: r#","dials":[2],"links":[1]"#,
        left: Left {
            status: 1,
            idle: "",
            wrecks: "1 0 1,",
        },
        entries: "8",
        lines: "3 lease lane 1 flight 1 link 1 fresh
4 lose lane 1 flight 1 link 1 dialled unran runs 0 calls 1
5 lease lane 1 flight 1 link 2 fresh
6 lose lane 1 flight 1 link 2 undialled
7 fall lane 1 flight 1 backend
",
        outcome: "backend\n",
    },
];

// The call of each link that finds no memory, and what that comes to.
const SHORT: [(u64, Asked); 3] = [
    // The mount finds no memory.
    (
        1,
        Asked {
            zone: "<regions>",
            faults: "",
            left: Left {
                status: 6,
                idle: "1 0 1,",
                wrecks: "",
            },
            entries: "6",
            lines: "3 lease lane 1 flight 1 link 1 fresh
4 give lane 1 flight 1 link 1 unran runs 0 calls 1
5 fall lane 1 flight 1 memory
",
            outcome: "memory\n",
        },
    ),
    // The run finds no memory.
    (
        2,
        Asked {
            zone: "<regions>",
            faults: "",
            left: Left {
                status: 6,
                idle: "1 1 2,",
                wrecks: "",
            },
            entries: "6",
            lines: "3 lease lane 1 flight 1 link 1 fresh
4 give lane 1 flight 1 link 1 ran runs 1 calls 2
5 fall lane 1 flight 1 memory
",
            outcome: "memory\n",
        },
    ),
    // The link is called twice alone.
    (
        3,
        Asked {
            zone: "<regions>",
            faults: "",
            left: Left {
                status: 0,
                idle: "1 1 2,",
                wrecks: "",
            },
            entries: "6",
            lines: "3 lease lane 1 flight 1 link 1 fresh
4 give lane 1 flight 1 link 1 ran runs 1 calls 2
5 land lane 1 flight 1 cells 6 clever kept literal kept
",
            outcome: r#"rows 3
null 1
"East" 2
"West" 2
"#,
        },
    ),
];

// A lane joins a flight that finds no memory, and runs its own on the link that was given back.
const SHORT_JOINED: Play = Play {
    script: r#"{"form":1,<extracts>,"lanes":[[<sales>,{"batch":[<both>]}],[{"batch":[<regions>]}]],"schedule":[1,1,2]}"#,
    left: Left {
        status: 6,
        idle: "1 1 3,",
        wrecks: "",
    },
    report: r#"report 1
lanes 2
entries 12
1 publish lane 1 step 1
2 admit lane 1 step 2 met group 1
3 admit lane 2 step 1 met join 1
4 lease lane 1 flight 1 link 1 fresh
5 give lane 1 flight 1 link 1 unran runs 0 calls 1
6 fall lane 1 flight 1 memory
7 take lane 2 flight 1 fallen 2
8 end lane 1
9 lease lane 2 flight 2 link 1 idle
10 give lane 2 flight 2 link 1 ran runs 1 calls 3
11 land lane 2 flight 2 cells 6 clever kept literal kept
12 end lane 2
lane 1 steps 2
step 1 published 1
step 2 admitted 2 zones 1
zone 1 memory
lane 2 steps 1
step 1 admitted 3 zones 1
zone 1 rows 3
null 1
"East" 2
"West" 2
"#,
};

fn check_asked<O: Office>(rt: &impl Abort, alloc: Global, office: &mut O, asked: &Asked) {
    let script = replaced(rt, alloc, ASKING, "<zone>", asked.zone);
    let script = replaced(rt, alloc, script.as_str(), "<faults>", asked.faults);
    let rest = format!(in alloc; "1\nzone 1 {}", asked.outcome)
        .ok()
        .expect(rt, "memory");
    let report = report_of(
        rt,
        alloc,
        asked.entries,
        " group 1",
        asked.lines,
        rest.as_str(),
    );
    check_run(
        rt,
        alloc,
        office,
        script.as_str(),
        &asked.left,
        report.as_str(),
    );
}

#[test]
fn lost_links_are_told(rt: HostRuntime) {
    for asked in FAILS {
        check_asked(&rt, rt.alloc(), &mut InOffice::new(), &asked);
    }
}

#[test]
fn want_of_memory_is_told(rt: HostRuntime) {
    let alloc = rt.alloc();
    for (at, asked) in SHORT {
        check_asked(&rt, alloc, &mut ShortOffice::new(at), &asked);
    }
    check_play(&rt, alloc, &mut ShortOffice::new(1), &SHORT_JOINED);
}

// Of three dials that are to fail a flight makes two; the third is still to come.
#[test]
fn a_flight_dials_twice(rt: HostRuntime) {
    let alloc = rt.alloc();
    let script = replaced(&rt, alloc, ASKING, "<zone>", "<regions>");
    let script = replaced(
        &rt,
        alloc,
        script.as_str(),
        "<faults>",
        r#","dials":[1,2,3]"#,
    );
    let script = whole_script(&rt, alloc, script.as_str());
    let mut folder = SureFolder::new(all_files(&rt, alloc, script.as_str()));
    let mut sink = SureSink::new(alloc);
    let given = words(&rt, alloc, &["rehearse", "row.json"]);
    let outcome = rehearse(alloc, &given, &mut folder, &mut sink, &mut InOffice::new());
    let Outcome {
        status,
        dialers,
        ..
    } = outcome;
    assert_eq!(rt; status, 1);
    assert!(rt; dialers.len() == 1);
    let mut dialers = dialers;
    let dialer = dialers.item_mut(0);
    assert_eq!(rt; dialer.dial(alloc).err(), Some(LinkFault::Failed));
    assert!(rt; dialer.dial(alloc).is_ok());
}
