// Whole runs, from outside: in what order lanes move, what is asked of the back end, and over which version it is answered.
use crate::plays::{Left, check_parts, played};
use dq_backend::InOffice;
use std::alloc::Global;
use std::process::Abort;

/// A run of a script, what it leaves, and texts that stand in its report, one behind the other.
#[derive(Clone, Copy)]
struct Run {
    script: &'static str,
    left: Left,
    parts: &'static [&'static str],
}

// What is asked at one version, and lands or is taken when another one stands.
const VERSIONS: [Run; 3] = [
    // The flight lands when another lane has replaced its extract; the next batch asks anew.
    Run {
        script: r#"{"form":1,<extracts>,"lanes":[[<sales>,{"batch":[<regions>]},{"batch":[<regions>]}],[<next>]],"schedule":[1,1,2,1,1,1,1,1,1,1]}"#,
        left: Left {
            status: 0,
            idle: "1 2 4,",
            wrecks: "",
        },
        parts: &[
            "entries 12
1 publish lane 1 step 1
2 admit lane 1 step 2 met group 1
3 publish lane 2 step 1
4 lease lane 1 flight 1 link 1 fresh
5 give lane 1 flight 1 link 1 ran runs 1 calls 2
6 land lane 1 flight 1 cells 6 clever stale literal stale
7 admit lane 1 step 3 met group 2
8 lease lane 1 flight 2 link 1 idle
9 give lane 1 flight 2 link 1 ran runs 2 calls 4
10 land lane 1 flight 2 cells 2 clever kept literal kept
11 end lane 1
12 end lane 2
",
            r#"zone 1 rows 3
null 1
"East" 2
"West" 2
step 3 admitted 7 zones 1
zone 1 rows 1
"North" 1
lane 2 steps 1
"#,
        ],
    },
    // A lane takes the answer of the flight that it joined before the extract was replaced.
    Run {
        script: r#"{"form":1,<extracts>,"lanes":[[<sales>,{"batch":[<both>]}],[{"batch":[<regions>]}],[<next>,{"batch":[<regions>]}]],"schedule":[1,1,2,3,3]}"#,
        left: Left {
            status: 0,
            idle: "2 1 2,1 1 2,",
            wrecks: "",
        },
        parts: &[
            "entries 15\n",
            "3 admit lane 2 step 1 met join 1
4 publish lane 3 step 1
5 admit lane 3 step 2 met group 2
",
            "10 land lane 1 flight 1 cells 15 clever stale literal stale
11 take lane 2 flight 1 landed
",
            r#"lane 2 steps 1
step 1 admitted 3 zones 1
zone 1 rows 3
null 1
"East" 2
"West" 2
"#,
            r#"zone 1 rows 1
"North" 1
"#,
        ],
    },
    // A batch asks of an extract that was replaced and appended to, of none, and of one that another lane replaced.
    Run {
        script: r#"{"form":1,"extracts":[{"name":"sales","columns":[["region","text"],["year","whole"],["amount","whole"]]},{"name":"trade","columns":[["region","text"],["year","whole"],["amount","whole"]]}],"lanes":[[<sales>,<more>,{"batch":[<rows>,{"source":"costs","show":[["rows"]]},{"source":"trade","show":[["rows"]]}]}],[{"publish":"trade","how":"replace","file":"sales.csv"}]],"schedule":[1,2,1]}"#,
        left: Left {
            status: 1,
            idle: "1 2 4,",
            wrecks: "",
        },
        parts: &[
            "entries 12
1 publish lane 1 step 1
2 publish lane 2 step 1
3 publish lane 1 step 2
4 admit lane 1 step 3 met group 1 group 2
5 end lane 2
",
            "step 3 admitted 4 zones 3
zone 1 rows 1
6
zone 2 invalid source
zone 3 rows 1
5
",
        ],
    },
];

// Lanes in the order of a schedule, and in rounds behind it.
const TURNS: [Run; 3] = [
    // The lane that has ended passes its second turn; the other one appends, and asks of no extract and of nothing.
    Run {
        script: r#"{"form":1,<extracts>,"lanes":[[<sales>,<more>,{"batch":[{"source":"costs","show":[["rows"]]},<regions>]},{"batch":[]}],[]],"schedule":[2,2,1,1,1]}"#,
        left: Left {
            status: 1,
            idle: "1 1 2,",
            wrecks: "",
        },
        parts: &[
            "entries 9
1 end lane 2
2 publish lane 1 step 1
3 publish lane 1 step 2
4 admit lane 1 step 3 met group 1
",
            "8 admit lane 1 step 4 met
9 end lane 1
",
            r#"zone 1 invalid source
zone 2 rows 3
null 1
"East" 3
"West" 2
step 4 admitted 8 zones 0
lane 2 steps 0
"#,
        ],
    },
    // A lane without steps, one that asks of nothing, and one that asks before anything is published.
    Run {
        script: r#"{"form":1,<extracts>,"lanes":[[],[{"batch":[]},<sales>,{"batch":[<regions>]}],[{"batch":[<regions>]}]]}"#,
        left: Left {
            status: 0,
            idle: "1 2 4,",
            wrecks: "",
        },
        parts: &[
            "entries 13
1 end lane 1
2 admit lane 2 step 1 met
3 admit lane 3 step 1 met group 1
4 publish lane 2 step 2
5 lease lane 3 flight 1 link 1 fresh
6 admit lane 2 step 3 met group 2
",
            "9 land lane 3 flight 1 cells 0 clever stale literal stale\n",
            "lane 1 steps 0
lane 2 steps 3
step 1 admitted 2 zones 0
",
            r#""West" 2
lane 3 steps 1
step 1 admitted 3 zones 1
zone 1 rows 0
"#,
        ],
    },
    // Three lanes publish in turn, and a zone isn't valid.
    Run {
        script: r#"{"form":1,<extracts>,"lanes":[[<sales>,{"batch":[<regions>]}],[<next>,<more>,{"batch":[<regions>]}],[{"batch":[<colours>]},<sales>]],"schedule":[3,2,2,1,2]}"#,
        left: Left {
            status: 1,
            idle: "1 1 2,",
            wrecks: "",
        },
        parts: &[
            "entries 14
1 admit lane 3 step 1 met
2 publish lane 2 step 1
3 publish lane 2 step 2
4 publish lane 1 step 1
5 admit lane 2 step 3 met group 1
6 admit lane 1 step 2 met join 1
7 lease lane 2 flight 1 link 1 fresh
8 publish lane 3 step 2
9 give lane 2 flight 1 link 1 ran runs 1 calls 2
10 end lane 3
11 land lane 2 flight 1 cells 6 clever stale literal stale
12 take lane 1 flight 1 landed
13 end lane 2
14 end lane 1
",
            r#"zone 1 rows 3
null 1
"East" 2
"West" 2
"#,
            "zone 1 invalid column
step 2 published 8
",
        ],
    },
];

// What becomes of the zones of a batch.
const ZONES: [Run; 3] = [
    // A batch of a zone, one that isn't valid and one that is computed from the first, and a batch of none.
    Run {
        script: r#"{"form":1,<extracts>,"lanes":[[<sales>,{"batch":[<regions>,<colours>,<rows>]},{"batch":[]}]]}"#,
        left: Left {
            status: 1,
            idle: "1 1 2,",
            wrecks: "",
        },
        parts: &[
            "entries 7\n",
            "2 admit lane 1 step 2 met group 1\n",
            "6 admit lane 1 step 3 met
7 end lane 1
",
            r#"zone 1 rows 3
null 1
"East" 2
"West" 2
zone 2 invalid column
zone 3 rows 1
5
step 3 admitted 6 zones 0
"#,
        ],
    },
    // A session that sees the rows of one region is answered from what another one asked.
    Run {
        script: r#"{"form":2,<extracts>,"lanes":[[<sales>,{"batch":[<regions>]}],[{"batch":[<regions>]}]],"schedule":[1,1,1,1,1],"sessions":[{"lane":2,"source":"sales","filters":[{"column":"region","among":["East"]}]}]}"#,
        left: Left {
            status: 0,
            idle: "1 1 2,",
            wrecks: "",
        },
        parts: &[
            "entries 8\n",
            "6 end lane 1
7 admit lane 2 step 1 met hit 1
8 end lane 2
",
            r#"zone 1 rows 3
null 1
"East" 2
"West" 2
"#,
            r#"zone 1 rows 1
"East" 2
"#,
        ],
    },
    // Two answers are shown as one between others, on no dimension; then one isn't valid.
    Run {
        script: r#"{"form":2,<extracts>,"lanes":[[<sales>,{"batch":[<rows>,{"blend":[<sums>,{"source":"sales","filters":[{"column":"year","among":[2020]}],"show":[["rows"]]}]},{"source":"sales","show":[["count","amount"]]}]},{"batch":[{"blend":[{"source":"sales","by":["region"]},{"source":"sales","filters":[{"column":"colour","among":[]}],"by":["region"]}]}]}]]}"#,
        left: Left {
            status: 1,
            idle: "1 3 4,",
            wrecks: "",
        },
        parts: &[
            "entries 13\n",
            "2 admit lane 1 step 2 met group 1 group 2 group 3 group 1\n",
            "12 admit lane 1 step 3 met hit 2\n",
            r#"step 2 admitted 2 zones 3
zone 1 rows 1
5
zone 2 rows 3
null 4 2
"East" 15 2
"West" 7 2
zone 3 rows 1
4
step 3 admitted 12 zones 1
zone 1 invalid column
"#,
        ],
    },
];

// Batches that are asked again.
const CACHES: [Run; 6] = [
    // An answer with a top stands under its text alone, and is computed from one without.
    Run {
        script: r#"{"form":1,<extracts>,"lanes":[[<sales>,{"batch":[<first>]},{"batch":[<first>]},{"batch":[<ranked>]},{"batch":[<first>]}]]}"#,
        left: Left {
            status: 0,
            idle: "1 2 3,",
            wrecks: "",
        },
        parts: &[
            "entries 12\n",
            "2 admit lane 1 step 2 met group 1\n",
            "5 land lane 1 flight 1 cells 2 clever topped literal kept
6 admit lane 1 step 3 met literal 1
7 admit lane 1 step 4 met group 2
",
            "11 admit lane 1 step 5 met hit 2
12 end lane 1
",
            r#"zone 1 rows 1
"East" 2
step 3 admitted 6 zones 1
"#,
            r#"zone 1 rows 3
"East" 2
"West" 2
null 1
"#,
            r#"zone 1 rows 1
"East" 2
"#,
        ],
    },
    // Two zones are one statement, and both are hits the second time.
    Run {
        script: r#"{"form":1,<extracts>,"lanes":[[<sales>,{"batch":[<sums>,<maxima>]},{"batch":[<sums>,<maxima>]}]]}"#,
        left: Left {
            status: 0,
            idle: "1 1 2,",
            wrecks: "",
        },
        parts: &[
            "entries 7\n",
            "2 admit lane 1 step 2 met group 1 group 1\n",
            "6 admit lane 1 step 3 met hit 1 hit 1
7 end lane 1
",
            r#"step 2 admitted 2 zones 2
zone 1 rows 3
null 4
"East" 15
"West" 7
zone 2 rows 3
"#,
            r#"step 3 admitted 6 zones 2
zone 1 rows 3
null 4
"East" 15
"West" 7
"#,
        ],
    },
    // Caches of one answer: each drops the other.
    Run {
        script: r#"{"form":1,<extracts>,"lanes":[[<sales>,{"batch":[<regions>]},{"batch":[<years>]},{"batch":[<regions>]},{"batch":[<years>]}]],"clever":1,"literal":1}"#,
        left: Left {
            status: 0,
            idle: "1 4 5,",
            wrecks: "",
        },
        parts: &[
            "entries 18\n",
            "2 admit lane 1 step 2 met group 1\n",
            "6 admit lane 1 step 3 met group 2\n",
            "10 admit lane 1 step 4 met group 3\n",
            "14 admit lane 1 step 5 met group 4\n",
            "18 end lane 1\n",
            "step 5 admitted 14 zones 1
zone 1 rows 2
2020 2
2021 3
",
        ],
    },
    // Caches of two answers and of one.
    Run {
        script: r#"{"form":1,<extracts>,"lanes":[[<sales>,{"batch":[<regions>]},{"batch":[<years>]},{"batch":[<regions>]},{"batch":[<years>]}]],"clever":2,"literal":1}"#,
        left: Left {
            status: 0,
            idle: "1 2 3,",
            wrecks: "",
        },
        parts: &[
            "entries 12\n",
            "6 admit lane 1 step 3 met group 2\n",
            "10 admit lane 1 step 4 met hit 1
11 admit lane 1 step 5 met hit 2
12 end lane 1
",
            r#"step 4 admitted 10 zones 1
zone 1 rows 3
null 1
"East" 2
"West" 2
"#,
            "step 5 admitted 11 zones 1
zone 1 rows 2
2020 2
2021 3
",
        ],
    },
    // Caches of five cells keep no answer of six.
    Run {
        script: r#"{"form":2,<extracts>,"lanes":[[<sales>,{"batch":[<regions>]},{"batch":[<years>]},{"batch":[<regions>]},{"batch":[<years>]}]],"clever":5,"literal":5}"#,
        left: Left {
            status: 0,
            idle: "1 3 4,",
            wrecks: "",
        },
        parts: &[
            "entries 15\n",
            "5 land lane 1 flight 1 cells 6 clever large literal large
6 admit lane 1 step 3 met group 2
",
            "9 land lane 1 flight 2 cells 4 clever kept literal kept
10 admit lane 1 step 4 met group 3
",
            "13 land lane 1 flight 3 cells 6 clever large literal large
14 admit lane 1 step 5 met hit 2
15 end lane 1
",
        ],
    },
    // A total over no rows is computed from an answer over groups.
    Run {
        script: r#"{"form":1,<extracts>,"lanes":[[<sales>,{"batch":[{"source":"sales","filters":[{"column":"year","between":[null,2021]}],"by":["region","year"],"show":[["rows"],["sum","amount"]]}]},{"batch":[{"source":"sales","filters":[{"column":"year","among":[1999]}],"show":[["rows"],["sum","amount"]]}]}]]}"#,
        left: Left {
            status: 0,
            idle: "1 1 2,",
            wrecks: "",
        },
        parts: &[
            "entries 7\n",
            "5 land lane 1 flight 1 cells 20 clever kept literal kept
6 admit lane 1 step 3 met hit 1
7 end lane 1
",
            "step 3 admitted 6 zones 1
zone 1 rows 1
0 null
",
        ],
    },
];

// Answers in flight, and lists of sixteen and of seventeen years, of which the long ones stand in tables.
const FLIGHTS: [Run; 3] = [
    // Two lanes join one flight.
    Run {
        script: r#"{"form":1,<extracts>,"lanes":[[<sales>,{"batch":[<both>]}],[{"batch":[<regions>]}],[{"batch":[<rows>]}]],"schedule":[1,1,2,3]}"#,
        left: Left {
            status: 0,
            idle: "1 1 2,",
            wrecks: "",
        },
        parts: &[
            "entries 12
1 publish lane 1 step 1
2 admit lane 1 step 2 met group 1
3 admit lane 2 step 1 met join 1
4 admit lane 3 step 1 met join 1
5 lease lane 1 flight 1 link 1 fresh
6 give lane 1 flight 1 link 1 ran runs 1 calls 2
7 land lane 1 flight 1 cells 15 clever kept literal kept
8 take lane 2 flight 1 landed
9 take lane 3 flight 1 landed
10 end lane 1
11 end lane 2
12 end lane 3
",
            r#"lane 2 steps 1
step 1 admitted 3 zones 1
zone 1 rows 3
null 1
"East" 2
"West" 2
lane 3 steps 1
"#,
            "zone 1 rows 1
5
",
        ],
    },
    // Two zones that differ in their lists.
    Run {
        script: r#"{"form":1,<extracts>,"lanes":[[<sales>,{"batch":[{"source":"sales","filters":[{"column":"year","among":[2010,2011,2012,2013,2014,2015,2016,2017,2018,2019,2020,2021,2022,2023,2024,2025]}],"show":[["rows"]]},<listed>]}]]}"#,
        left: Left {
            status: 0,
            idle: "1 2 4,",
            wrecks: "",
        },
        parts: &[
            "entries 9\n",
            "2 admit lane 1 step 2 met group 1 group 2
3 lease lane 1 flight 1 link 1 fresh
4 give lane 1 flight 1 link 1 ran runs 1 calls 2
",
            "7 give lane 1 flight 2 link 1 ran runs 2 calls 4\n",
            "zone 1 rows 1
5
",
            "zone 2 rows 1
5
",
        ],
    },
    // The third batch finds the table of the first.
    Run {
        script: r#"{"form":1,<extracts>,"lanes":[[<sales>,{"batch":[{"source":"sales","filters":[{"column":"year","among":[<list 10>]}],"by":["region"],"show":[["sum","amount"]]}]},{"batch":[{"source":"sales","filters":[{"column":"year","among":[<list 11>]}],"by":["region"],"show":[["sum","amount"]]}]},{"batch":[{"source":"sales","filters":[{"column":"year","among":[<list 10>]}],"by":["region"],"show":[["max","amount"]]}]}]]}"#,
        left: Left {
            status: 0,
            idle: "1 3 6,",
            wrecks: "",
        },
        parts: &[
            "entries 14\n",
            "4 give lane 1 flight 1 link 1 ran runs 1 calls 3\n",
            "8 give lane 1 flight 2 link 1 ran runs 2 calls 5\n",
            "12 give lane 1 flight 3 link 1 ran runs 3 calls 6\n",
            r#"step 3 admitted 6 zones 1
zone 1 rows 3
null 4
"East" 15
"West" 7
"#,
            r#"step 4 admitted 10 zones 1
zone 1 rows 3
null 4
"East" 10
"West" 7
"#,
        ],
    },
];

/// Runs leave this, and have these texts in their reports.
fn check_runs(rt: &impl Abort, alloc: Global, runs: &[Run]) {
    for run in runs {
        let report = played(rt, alloc, &mut InOffice::new(), run.script, &run.left);
        check_parts(rt, report.as_str(), run.parts);
    }
}

#[test]
fn a_zone_is_answered_over_the_version_at_its_admission(rt: HostRuntime) {
    check_runs(&rt, rt.alloc(), &VERSIONS);
}

#[test]
fn lanes_take_turns(rt: HostRuntime) {
    check_runs(&rt, rt.alloc(), &TURNS);
}

#[test]
fn zones_are_answered_or_refused(rt: HostRuntime) {
    check_runs(&rt, rt.alloc(), &ZONES);
}

#[test]
fn answers_are_kept(rt: HostRuntime) {
    check_runs(&rt, rt.alloc(), &CACHES);
}

#[test]
fn flights_are_joined_and_lists_are_found(rt: HostRuntime) {
    check_runs(&rt, rt.alloc(), &FLIGHTS);
}
