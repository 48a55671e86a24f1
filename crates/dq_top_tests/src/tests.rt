// What runs write and tell, from the format's texts.
use crate::checks::REPORT;
use crate::plays::replaced;
use dq_backend::InOffice;
use dq_base::{Limit, List, Numbers64, Text, Texts};
use dq_extract::LoadFault;
use dq_link::{Dialer, Link};
use dq_outside::{Folder, MemFolder, MemSink, NamedFile, NamedFiles, SureFolder, SureSink};
use dq_script::ScriptFault;
use dq_top::{Fault, Outcome, rehearse, tell};
use std::alloc::Global;
use std::process::Abort;

pub(crate) const SCRIPT: &str =
    r#"{"form":1,"extracts":[{"name":"sales","columns":[["region","text"],["year","whole"],["amount","whole"]]}],"lanes":[[{"publish":"sales","how":"replace","file":"sales.csv"},{"batch":[{"source":"sales","by":["region"],"show":[["sum","amount"],["rows"]]}]}]]}"#;

// The script's zones.
const ZONES: &str = r#"{"source":"sales","by":["region"],"show":[["sum","amount"],["rows"]]}"#;

const SALES: &str = "region,year,amount
East,2020,10
East,2021,5
West,2020,7
West,2021,
,2021,4
";

const MARKED_SALES: &str = "\u{feff}region,year,amount
East,2020,10
East,2021,5
West,2020,7
West,2021,
,2021,4
";

const NO_SALES: &str = "region,year,amount
";

const LARGE_SALES: &str = "region,year,amount
East,2020,9223372036854775807
East,2021,9223372036854775807
";

// What a batch meets, and how its flights land one after the other on one link: the cells and what both caches did.
type Flown = (&'static str, [&'static str; 2]);

const NOTHING: Flown = ("", ["", ""]);

const NINE_CELLS: Flown = (" group 1", ["9 clever kept literal kept", ""]);

// What the report says of the script's zones over the sales.
const ANSWERED: &str = r#"1
zone 1 rows 3
null 4 1
"East" 15 2
"West" 7 2
"#;

// The zones, the file, the status, what their flights come to, and the report from the number of zones on.
const RUNS: [(&str, &str, u8, Flown, &str); 13] = [
    (ZONES, SALES, 0, NINE_CELLS, ANSWERED),
    (ZONES, MARKED_SALES, 0, NINE_CELLS, ANSWERED),
    (
        ZONES,
        NO_SALES,
        0,
        (" group 1", ["0 clever kept literal kept", ""]),
        "1\nzone 1 rows 0\n",
    ),
    ("", SALES, 0, NOTHING, "0\n"),
    (
        r#"{"source":"sales","by":["region"],"top":3,"show":[["sum","amount"],["rows"]]}"#,
        SALES,
        0,
        (" group 1", ["9 clever topped literal kept", ""]),
        ANSWERED,
    ),
    (
        r#"{"source":"sales","show":[["rows"],["sum","amount"]]}"#,
        NO_SALES,
        0,
        (" group 1", ["2 clever kept literal kept", ""]),
        r#"1
zone 1 rows 1
0 null
"#,
    ),
    (
        r#"{"source":"sales","by":["region"],"show":[["countd","year"]]},{"source":"sales","by":["region","year"],"show":[["rows"]]},{"source":"sales","by":["region"],"show":[["countd","amount"]]},{"source":"sales","show":[["countd","year"],["countd","region"]]}"#,
        SALES,
        0,
        (
            " group 1 group 2",
            ["15 clever kept literal kept", "6 clever kept literal kept"],
        ),
        r#"4
zone 1 rows 3
null 1
"East" 2
"West" 2
zone 2 rows 5
null 2021 1
"East" 2020 1
"East" 2021 1
"West" 2020 1
"West" 2021 1
zone 3 rows 3
null 1
"East" 2
"West" 1
zone 4 rows 1
2 2
"#,
    ),
    (
        r#"{"source":"sales","by":["region","year"],"show":[["avg","amount"]]},{"source":"sales","show":[["avg","amount"]]},{"source":"sales","by":["region"],"show":[["max","amount"]]}"#,
        SALES,
        0,
        (
            " group 1 group 2",
            ["15 clever kept literal kept", "6 clever kept literal kept"],
        ),
        r#"3
zone 1 rows 5
null 2021 4/1
"East" 2020 10/1
"East" 2021 5/1
"West" 2020 7/1
"West" 2021 null
zone 2 rows 1
26/4
zone 3 rows 3
null 4
"East" 10
"West" 7
"#,
    ),
    (
        r#"{"source":"sales","by":["region"],"show":[["rows"]],"order":[[2,"down"]],"top":1},{"source":"sales","by":["region"],"show":[["max","year"]],"order":[[2,"down"]],"top":1}"#,
        SALES,
        0,
        (" group 1 group 1", ["9 clever kept literal kept", ""]),
        r#"2
zone 1 rows 1
"East" 2
zone 2 rows 1
null 2021
"#,
    ),
    (
        r#"{"source":"sales","show":[["sum","amount"],["avg","amount"]]}"#,
        LARGE_SALES,
        0,
        (" group 1", ["2 clever kept literal kept", ""]),
        r#"1
zone 1 rows 1
18446744073709551614 18446744073709551614/2
"#,
    ),
    (
        r#"{"source":"costs","show":[["rows"]]},{"source":"sales","by":["colour"]},{"source":"sales","by":["region","region"]},{"source":"sales","show":[["sum","region"]]},{"source":"sales","filters":[{"column":"year","among":["x"]}],"show":[["rows"]]},{"source":"sales"},{"source":"sales","by":["region"],"show":[["rows"]],"order":[[3,"up"]]}"#,
        SALES,
        1,
        NOTHING,
        r#"7
zone 1 invalid source
zone 2 invalid column
zone 3 invalid repeated
zone 4 invalid sort
zone 5 invalid sort
zone 6 invalid shown
zone 7 invalid order
"#,
    ),
    (
        r#"{"source":"sales","filters":[{"column":"year","between":[2021,2020]},{"column":"region","among":["West","East","West"]}],"show":[["rows"]]},{"source":"sales","filters":[{"column":"region","among":["West","East","West"]}],"by":["region"],"show":[["rows"]]}"#,
        SALES,
        0,
        (
            " group 1 group 2",
            ["1 clever kept literal kept", "4 clever kept literal kept"],
        ),
        r#"2
zone 1 rows 1
0
zone 2 rows 2
"East" 2
"West" 2
"#,
    ),
    (
        r#"{"source":"sales","by":[["band","amount",5]],"show":[["rows"]]},{"source":"sales","by":[["band","amount",10]],"show":[["rows"]]},{"source":"sales","by":[["band","region",2]]},{"source":"sales","by":["year",["band","year",1]]}"#,
        SALES,
        1,
        (" group 1", ["8 clever kept literal kept", ""]),
        "4
zone 1 rows 4
null 1
0 1
1 2
2 1
zone 2 rows 3
null 1
0 3
1 1
zone 3 invalid sort
zone 4 invalid repeated
",
    ),
];

// Files that scripts publish beside the sales.
const NEXT_SALES: &str = "region,year,amount
North,2022,1
";

const MORE_SALES: &str = "region,year,amount
East,2022,3
";

// What stands in the script, and what in its place; it is then answered as the script.
const SAME: [(&str, &str); 9] = [
    ("]}]]}", r#"]}]],"schedule":[]}"#),
    ("]}]]}", r#"]}]],"schedule":[1]}"#),
    ("]}]]}", r#"]}]],"literal":1,"clever":4096}"#),
    ("]}]]}", r#"]}]],"faults":[{"lane":1,"dials":[]}]}"#),
    ("]}]]}", r#"]}]],"faults":[{"lane":1,"links":[0]}]}"#),
    (r#""form":1"#, r#""form":2"#),
    (
        r#""extracts":["#,
        r#""extracts":[{"name":"costs","columns":[["cost","whole"]]},"#,
    ),
    (r#""replace""#, r#""append""#),
    (r#""by""#, r#""order":[],"filters":[],"by""#),
];

// What stands in the script, what in its place, and the status and the line with which that is refused.
const REFUSED: [(&str, &str, u8, &str); 12] = [
    ("]}]]}", "]}", 4, "dashboards: row.json: not json"),
    (
        "]}]]}",
        r#"]}]],"rows":[]}"#,
        4,
        "dashboards: row.json: shape /rows",
    ),
    (
        r#""form":1"#,
        r#""form":3"#,
        4,
        "dashboards: row.json: shape /form",
    ),
    (
        r#"[["sum","amount"],["rows"]]"#,
        "[[]]",
        4,
        "dashboards: row.json: shape /lanes/0/1/batch/0/show/0",
    ),
    (
        r#""by":["region"]"#,
        r#""by":"region""#,
        4,
        "dashboards: row.json: shape /lanes/0/1/batch/0/by",
    ),
    (
        r#""by":["region"]"#,
        r#""by":["region",["band","year",0]]"#,
        4,
        "dashboards: row.json: shape /lanes/0/1/batch/0/by/1/2",
    ),
    (
        r#""by""#,
        r#""top":-1,"by""#,
        4,
        "dashboards: row.json: shape /lanes/0/1/batch/0/top",
    ),
    (
        r#""publish":"sales""#,
        r#""publish":"costs""#,
        4,
        "dashboards: row.json: unknown extract /lanes/0/0/publish",
    ),
    (
        "]}]]}",
        r#"]}]],"schedule":[2]}"#,
        4,
        "dashboards: row.json: unknown lane /schedule/0",
    ),
    (
        "]}]]}",
        r#"]}]],"faults":[{"lane":2}]}"#,
        4,
        "dashboards: row.json: unknown lane /faults/0/lane",
    ),
    (
        "]}]]}",
        r#"]}]],"literal":4097}"#,
        7,
        "dashboards: limit capacity 4097",
    ),
    (
        r#""form":1"#,
        r#""form":2,"clever":4194305"#,
        7,
        "dashboards: limit capacity 4194305",
    ),
];

// Files without rows, and what is told of them.
const WRONG_FILES: [(&str, &str); 6] = [
    ("", "dashboards: sales.csv: header"),
    ("region,year\nEast,2020\n", "dashboards: sales.csv: header"),
    (
        "region,amount,year\nEast,2020,10\n",
        "dashboards: sales.csv: header",
    ),
    (
        "region,year,amount\nEast,2020,10\nEast,2021,5\nEast,2020\nWest,2021,\n,2021,4\n",
        "dashboards: sales.csv: width 3",
    ),
    (
        "region,year,amount\nEast,2020,10\nEast,2021,12x\n",
        "dashboards: sales.csv: number 2 3",
    ),
    (
        "region,year,amount\nEast,9223372036854775808,1\n",
        "dashboards: sales.csv: number 1 2",
    ),
];

// A zone, a filter that keeps all, and what the report says of zone 64.
const ZONE: &str = r#"{"source":"sales","show":[["rows"]]},"#;

const FILTERED: &str = r#""filters":["#;

const FILTER: &str = r#"{"column":"year","except":[]},"#;

const LAST_FILTER: &str = r#"{"column":"year","except":[]}],"by""#;

const LAST_ANSWER: &str = r#"zone 64 rows 3
null 4 1
"East" 15 2
"West" 7 2
"#;

fn text(rt: &impl Abort, alloc: Global, bytes: &[u8]) -> Text {
    Text::copy_of(alloc, bytes).ok().expect(rt, "memory")
}

pub(crate) fn words(rt: &impl Abort, alloc: Global, given: &[&str]) -> Texts {
    let mut words = List::new(alloc);
    for word in given {
        assert!(rt; words.push(text(rt, alloc, word.as_bytes())).is_ok());
    }
    words
}

fn numbers(rt: &impl Abort, alloc: Global, given: &[u64]) -> Numbers64 {
    Numbers64::from_vec(given.to_vec(alloc).ok().expect(rt, "memory"))
}

pub(crate) fn add(
    rt: &impl Abort,
    alloc: Global,
    files: &mut NamedFiles,
    name: &[u8],
    bytes: &[u8],
) {
    let file = NamedFile {
        name: text(rt, alloc, name),
        bytes: text(rt, alloc, bytes),
    };
    assert!(rt; files.push(file).is_ok());
}

/// A script `row.json` and a file `sales.csv`.
fn both(rt: &impl Abort, alloc: Global, script: &str, sales: &str) -> NamedFiles {
    let mut files = NamedFiles::new(alloc);
    add(rt, alloc, &mut files, b"row.json", script.as_bytes());
    add(rt, alloc, &mut files, b"sales.csv", sales.as_bytes());
    files
}

/// A script, its file, and the files that other scripts publish.
pub(crate) fn all_files(rt: &impl Abort, alloc: Global, script: &str) -> NamedFiles {
    let mut files = both(rt, alloc, script, SALES);
    add(rt, alloc, &mut files, b"next.csv", NEXT_SALES.as_bytes());
    add(rt, alloc, &mut files, b"more.csv", MORE_SALES.as_bytes());
    files
}

/// The script with this in place of that.
fn changed(rt: &impl Abort, alloc: Global, old: &str, new: &str) -> String {
    SCRIPT.replace(alloc, old, new).ok().expect(rt, "memory")
}

/// So many copies of a text, each with its number for the mark.
pub(crate) fn copies(rt: &impl Abort, alloc: Global, text: &str, count: u32) -> String {
    let mut all = String::new(alloc);
    for place in 0..count {
        let number = format!(in alloc; "{}", place + 1).ok().expect(rt, "memory");
        let copy = text
            .replace(alloc, "#", number.as_str())
            .ok()
            .expect(rt, "memory");
        assert!(rt; all.push_str(copy.as_str()).is_ok());
    }
    all
}

/// The script with so many copies of a zone before its zones.
fn with_zones(rt: &impl Abort, alloc: Global, count: u32) -> String {
    let zones = copies(rt, alloc, ZONE, count);
    let more = format!(in alloc; "{}{ZONES}", zones.as_str())
        .ok()
        .expect(rt, "memory");
    changed(rt, alloc, ZONES, more.as_str())
}

/// The script with so many filters before a last one.
fn with_filters(rt: &impl Abort, alloc: Global, count: u32) -> String {
    let filters = copies(rt, alloc, FILTER, count);
    let more = format!(in alloc; "{FILTERED}{}{LAST_FILTER}", filters.as_str())
        .ok()
        .expect(rt, "memory");
    changed(rt, alloc, "\"by\"", more.as_str())
}

/// A fault has this status, and is told by this line.
pub(crate) fn check_told(rt: &impl Abort, alloc: Global, fault: &Fault, status: u8, line: &str) {
    assert_eq!(rt; fault.status(), status, "{line}");
    let told = tell(alloc, fault).ok().expect(rt, "memory");
    assert_eq!(rt; told.bytes(), line.as_bytes(), "{line}");
}

/// The run didn't begin, with this status and line.
fn check_refused<L: Link, D: Dialer<L = L>>(
    rt: &impl Abort,
    alloc: Global,
    outcome: &Outcome<L, D>,
    status: u8,
    line: &str,
) {
    let fault = outcome.told.as_ref().expect(rt, "a fault");
    check_told(rt, alloc, fault, status, line);
    assert_eq!(rt; outcome.status, status, "{line}");
    assert!(rt; outcome.loaded.is_none(), "{line}");
    let made = [
        outcome.journal.len(),
        outcome.results.len(),
        outcome.shown.len(),
        outcome.idle.len(),
        outcome.wrecks.len(),
        outcome.dialers.len(),
    ];
    assert_eq!(rt; made, [0; 6], "{line}");
}

/// The lines of one flight and of two that land, by their cells.
const ONE_LANDS: &str = "\
3 lease lane 1 flight 1 link 1 fresh
4 give lane 1 flight 1 link 1 ran runs 1 calls 2
5 land lane 1 flight 1 cells <cells>
";

const TWO_LAND: &str = "\
3 lease lane 1 flight 1 link 1 fresh
4 give lane 1 flight 1 link 1 ran runs 1 calls 2
5 land lane 1 flight 1 cells <cells>
6 lease lane 1 flight 2 link 1 idle
7 give lane 1 flight 2 link 1 ran runs 2 calls 3
8 land lane 1 flight 2 cells <more>
";

/// The number of entries of a batch whose flights land, and the lines of its flights.
fn flights(rt: &impl Abort, alloc: Global, landed: [&str; 2]) -> (&'static str, String) {
    let [first, second] = landed;
    if first.is_empty() {
        return ("3", String::new(alloc));
    }
    if second.is_empty() {
        return ("6", replaced(rt, alloc, ONE_LANDS, "<cells>", first));
    }
    let lines = replaced(rt, alloc, TWO_LAND, "<cells>", first);
    ("9", replaced(rt, alloc, lines.as_str(), "<more>", second))
}

/// The report of a lane that publishes and asks once: how many entries there are, what the batch met, the lines between the
/// admission and the end, and the text from the number of zones on.
pub(crate) fn report_of(
    rt: &impl Abort,
    alloc: Global,
    entries: &str,
    met: &str,
    lines: &str,
    rest: &str,
) -> String {
    format!(in alloc;
        "report 1\nlanes 1\nentries {entries}\n1 publish lane 1 step 1\n2 admit lane 1 step 2 met{met}\n{lines}{entries} end lane 1\nlane 1 steps 2\nstep 1 published 1\nstep 2 admitted 2 zones {rest}"
    ).ok()
        .expect(rt, "memory")
}

/// What a script comes to over a file: its status, what its batch met and how its flights land, and the text from the number of
/// zones on.
#[derive(Clone, Copy)]
struct Want<'a> {
    status: u8,
    flown: Flown,
    rest: &'a str,
}

/// The report of a script of one batch is written so.
fn check_report(rt: &impl Abort, alloc: Global, script: &str, sales: &str, want: &Want<'_>) {
    let mut folder = SureFolder::new(both(rt, alloc, script, sales));
    let mut sink = SureSink::new(alloc);
    let given = words(rt, alloc, &["rehearse", "row.json"]);
    let outcome = rehearse(alloc, &given, &mut folder, &mut sink, &mut InOffice::new());
    let (met, landed) = want.flown;
    let (entries, lines) = flights(rt, alloc, landed);
    let report = report_of(rt, alloc, entries, met, lines.as_str(), want.rest);
    assert_eq!(rt; sink.bytes(), report.as_bytes(), "{script}");
    assert_eq!(rt; outcome.status, want.status, "{script}");
    assert!(rt; outcome.told.is_none(), "{script}");
    assert!(rt; outcome.loaded.is_some(), "{script}");
    assert_eq!(rt; outcome.results.len(), 1, "{script}");
    assert_eq!(rt; outcome.shown.len(), 1, "{script}");
    assert_eq!(rt; outcome.wrecks.len(), 0, "{script}");
    assert_eq!(rt; outcome.dialers.len(), 1, "{script}");
}

/// The script is refused, with this status and line.
fn check_script(rt: &impl Abort, alloc: Global, script: &str, status: u8, line: &str) {
    let mut folder = SureFolder::new(both(rt, alloc, script, SALES));
    check_files(rt, alloc, &mut folder, status, line);
}

/// These words are refused, and nothing is written.
fn check_usage(rt: &impl Abort, alloc: Global, given: &[&str]) {
    let mut folder = SureFolder::new(both(rt, alloc, SCRIPT, SALES));
    let mut sink = SureSink::new(alloc);
    let given = words(rt, alloc, given);
    let outcome = rehearse(alloc, &given, &mut folder, &mut sink, &mut InOffice::new());
    check_refused(rt, alloc, &outcome, 2, "dashboards: usage");
    assert!(rt; sink.bytes().is_empty());
}

/// Over this folder the script `row.json` is refused, and nothing is written.
fn check_files<F: Folder>(rt: &impl Abort, alloc: Global, folder: &mut F, status: u8, line: &str) {
    let mut sink = SureSink::new(alloc);
    let given = words(rt, alloc, &["rehearse", "row.json"]);
    let outcome = rehearse(alloc, &given, folder, &mut sink, &mut InOffice::new());
    check_refused(rt, alloc, &outcome, status, line);
    assert!(rt; sink.bytes().is_empty(), "{line}");
}

/// The sink can't be written, and holds these bytes in the end.
fn check_unwritten(rt: &impl Abort, alloc: Global, sink: &mut MemSink, want: &[u8]) {
    let mut folder = SureFolder::new(both(rt, alloc, SCRIPT, SALES));
    let given = words(rt, alloc, &["rehearse", "row.json"]);
    let outcome = rehearse(alloc, &given, &mut folder, sink, &mut InOffice::new());
    let fault = outcome.told.as_ref().expect(rt, "a fault");
    check_told(rt, alloc, fault, 5, "dashboards: cannot write");
    assert_eq!(rt; outcome.status, 5);
    assert_eq!(rt; sink.bytes(), want);
}

#[test]
fn runs_are_reported(rt: HostRuntime) {
    let alloc = rt.alloc();
    for (zones, sales, status, flown, rest) in RUNS {
        let script = changed(&rt, alloc, ZONES, zones);
        let want = Want {
            status,
            flown,
            rest,
        };
        check_report(&rt, alloc, script.as_str(), sales, &want);
    }
}

#[test]
fn zones_and_filters_are_counted(rt: HostRuntime) {
    let alloc = rt.alloc();
    let answers = copies(&rt, alloc, "zone # rows 1\n5\n", 63);
    let rest = format!(in alloc; "64\n{}{LAST_ANSWER}", answers.as_str())
        .ok()
        .expect(&rt, "memory");
    let most = with_zones(&rt, alloc, 63);
    let all = Want {
        status: 0,
        flown: NINE_CELLS,
        rest: rest.as_str(),
    };
    check_report(&rt, alloc, most.as_str(), SALES, &all);
    let more = with_zones(&rt, alloc, 64);
    check_script(&rt, alloc, more.as_str(), 7, "dashboards: limit zones 65");
    let long = with_filters(&rt, alloc, 15);
    let answered = Want {
        status: 0,
        flown: NINE_CELLS,
        rest: ANSWERED,
    };
    check_report(&rt, alloc, long.as_str(), SALES, &answered);
    let longer = with_filters(&rt, alloc, 16);
    let refused = Want {
        status: 1,
        flown: NOTHING,
        rest: "1\nzone 1 invalid long\n",
    };
    check_report(&rt, alloc, longer.as_str(), SALES, &refused);
}

#[test]
fn report_is_written(rt: HostRuntime) {
    let alloc = rt.alloc();
    let mut folder = MemFolder::new(both(&rt, alloc, SCRIPT, SALES), Numbers64::new(alloc));
    let mut sink = MemSink::short(alloc, Numbers64::new(alloc), 1);
    let given = words(&rt, alloc, &["rehearse", "row.json"]);
    let outcome = rehearse(alloc, &given, &mut folder, &mut sink, &mut InOffice::new());
    assert_eq!(rt; sink.bytes(), REPORT.as_bytes());
    assert_eq!(rt; outcome.status, 0);
    assert!(rt; outcome.told.is_none());
    assert!(rt; outcome.loaded.is_some());
    assert_eq!(rt; outcome.journal.len(), 6);
    assert_eq!(rt; outcome.results.len(), 1);
}

#[test]
fn words_are_refused(rt: HostRuntime) {
    let alloc = rt.alloc();
    check_usage(&rt, alloc, &[]);
    check_usage(&rt, alloc, &["run", "row.json"]);
    check_usage(&rt, alloc, &["rehearse"]);
    check_usage(&rt, alloc, &["rehearse", "-x"]);
    check_usage(&rt, alloc, &["rehearse", "a", "b"]);
}

#[test]
fn files_are_unread(rt: HostRuntime) {
    let alloc = rt.alloc();
    let script_unread = "dashboards: cannot read row.json";
    let sales_unread = "dashboards: cannot read sales.csv";
    let mut empty = MemFolder::new(NamedFiles::new(alloc), Numbers64::new(alloc));
    check_files(&rt, alloc, &mut empty, 3, script_unread);
    for (call, unread) in [(1, script_unread), (2, sales_unread)] {
        let fails = numbers(&rt, alloc, &[call]);
        let mut failing = MemFolder::new(both(&rt, alloc, SCRIPT, SALES), fails);
        check_files(&rt, alloc, &mut failing, 3, unread);
    }
    let mut script = NamedFiles::new(alloc);
    add(&rt, alloc, &mut script, b"row.json", SCRIPT.as_bytes());
    let mut alone = MemFolder::new(script, Numbers64::new(alloc));
    check_files(&rt, alloc, &mut alone, 3, sales_unread);
    let two = changed(
        &rt,
        alloc,
        "]}]]}",
        r#"]},{"publish":"sales","how":"replace","file":"next.csv"}]]}"#,
    );
    let files = both(&rt, alloc, two.as_str(), SALES);
    let mut without = MemFolder::new(files, Numbers64::new(alloc));
    check_files(
        &rt,
        alloc,
        &mut without,
        3,
        "dashboards: cannot read next.csv",
    );
}

#[test]
fn scripts_are_refused(rt: HostRuntime) {
    let alloc = rt.alloc();
    let answered = Want {
        status: 0,
        flown: NINE_CELLS,
        rest: ANSWERED,
    };
    for (old, new) in SAME {
        let script = changed(&rt, alloc, old, new);
        check_report(&rt, alloc, script.as_str(), SALES, &answered);
    }
    for (old, new, status, line) in REFUSED {
        let script = changed(&rt, alloc, old, new);
        check_script(&rt, alloc, script.as_str(), status, line);
    }
    check_script(
        &rt,
        alloc,
        &SCRIPT[..100],
        4,
        "dashboards: row.json: not json",
    );
}

#[test]
fn files_are_refused(rt: HostRuntime) {
    let alloc = rt.alloc();
    for (sales, line) in WRONG_FILES {
        let mut folder = SureFolder::new(both(&rt, alloc, SCRIPT, sales));
        check_files(&rt, alloc, &mut folder, 4, line);
    }
    let long = Text::from_vec(vec![in alloc; 32; 16777217].ok().expect(&rt, "memory"));
    let mut files = NamedFiles::new(alloc);
    add(&rt, alloc, &mut files, b"row.json", long.bytes());
    let mut folder = SureFolder::new(files);
    check_files(
        &rt,
        alloc,
        &mut folder,
        7,
        "dashboards: limit script bytes 16777216",
    );
}

#[test]
fn report_is_unwritten(rt: HostRuntime) {
    let alloc = rt.alloc();
    let mut closed = MemSink::new(alloc, numbers(&rt, alloc, &[1]));
    check_unwritten(&rt, alloc, &mut closed, b"");
    let mut short = MemSink::short(alloc, numbers(&rt, alloc, &[3]), 10);
    check_unwritten(&rt, alloc, &mut short, b"report 1\nlanes 1\nent");
    let mut shortest = MemSink::short(alloc, numbers(&rt, alloc, &[2]), 1);
    check_unwritten(&rt, alloc, &mut shortest, b"r");
}

// Faults that a run tells otherwise, with their statuses and lines.
#[test]
fn faults_are_told(rt: HostRuntime) {
    let alloc = rt.alloc();
    let name = || text(&rt, alloc, b"f");
    for (fault, status, line) in [
        (Fault::Memory, 6, "dashboards: out of memory"),
        (
            Fault::Script(name(), ScriptFault::Memory),
            6,
            "dashboards: out of memory",
        ),
        (
            Fault::File(name(), LoadFault::TooManyCells),
            7,
            "dashboards: limit cells 8388608",
        ),
        (
            Fault::File(name(), LoadFault::NotText(3, 1)),
            4,
            "dashboards: f: not text 3 1",
        ),
        (
            Fault::Script(name(), ScriptFault::Limit(Limit::SessionItems, 257)),
            7,
            "dashboards: limit session items 257",
        ),
        (
            Fault::Limit(Limit::ReportBytes, 268435456),
            7,
            "dashboards: limit report bytes 268435456",
        ),
    ] {
        check_told(&rt, alloc, &fault, status, line);
    }
}
