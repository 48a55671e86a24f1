// What judging a report writes and tells, from the format's texts.
use crate::tests::{SCRIPT, add, all_files, words};
use dq_base::Numbers64;
use dq_check::Verdict;
use dq_outside::{MemFolder, MemSink, NamedFiles};
use dq_top::{check, tell};
use std::alloc::Global;
use std::process::Abort;

// The report of the script, which is lawful.
pub(crate) const REPORT: &str = r#"report 1
lanes 1
entries 6
1 publish lane 1 step 1
2 admit lane 1 step 2 met group 1
3 lease lane 1 flight 1 link 1 fresh
4 give lane 1 flight 1 link 1 ran runs 1 calls 2
5 land lane 1 flight 1 cells 9 clever kept literal kept
6 end lane 1
lane 1 steps 2
step 1 published 1
step 2 admitted 2 zones 1
zone 1 rows 3
null 4 1
"East" 15 2
"West" 7 2
"#;

// What stands in a report, what stands in its place, the status, and the verdict's line. Nothing is changed where the first is empty.
pub(crate) type Change = (&'static str, &'static str, u8, &'static str);

const VERDICTS: [Change; 18] = [
    ("East", "East", 0, "lawful\n"),
    ("East\" 15 2", "East\" 15 3", 1, "unlawful zone 1 2 1\n"),
    ("fresh", "idle", 1, "unlawful entry 3\n"),
    ("cells 9", "cells 8", 1, "unlawful entry 5\n"),
    ("\"West\" 7 2\n", "", 1, "unlawful report\n"),
    (
        "1 publish lane 1 step 1\n2 admit lane 1 step 2 met group 1\n",
        "1 admit lane 1 step 2 met group 1\n2 publish lane 1 step 1\n",
        1,
        "unlawful order\n",
    ),
    ("met group 1", "met", 1, "unlawful entry 2\n"),
    ("met group 1", "met hit 1", 1, "unlawful entry 2\n"),
    ("met group 1", "met group 2", 1, "unlawful entry 2\n"),
    ("calls 2", "calls 3", 1, "unlawful entry 4\n"),
    ("clever kept", "clever topped", 1, "unlawful entry 5\n"),
    ("clever kept", "clever memory", 0, "lawful\n"),
    (
        "zone 1 rows 3\nnull 4 1\n\"East\" 15 2\n\"West\" 7 2\n",
        "zone 1 memory\n",
        0,
        "lawful\n",
    ),
    (
        "zone 1 rows 3\nnull 4 1\n\"East\" 15 2\n\"West\" 7 2\n",
        "zone 1 backend\n",
        1,
        "unlawful zone 1 2 1\n",
    ),
    (
        "zones 1\nzone 1 rows 3\nnull 4 1\n\"East\" 15 2\n\"West\" 7 2\n",
        "zones 0\n",
        1,
        "unlawful zone 1 2 0\n",
    ),
    ("admitted 2", "admitted 1", 1, "unlawful order\n"),
    ("report 1\n", "report 01\n", 1, "unlawful report\n"),
    ("", "", 0, "lawful\n"),
];

/// These files and this report.
fn with_report(rt: &impl Abort, alloc: Global, files: NamedFiles, report: &str) -> NamedFiles {
    let mut files = files;
    add(rt, alloc, &mut files, b"report", report.as_bytes());
    files
}

fn no_faults(alloc: Global) -> Numbers64 {
    Numbers64::new(alloc)
}

/// The verdict on a report over a script's files is this line, and the status this one.
pub(crate) fn check_report_of(
    rt: &impl Abort,
    alloc: Global,
    files: NamedFiles,
    report: &str,
    status: u8,
    line: &str,
) {
    let files = with_report(rt, alloc, files, report);
    let mut folder = MemFolder::new(files, no_faults(alloc));
    let mut sink = MemSink::new(alloc, no_faults(alloc));
    let given = words(rt, alloc, &["check", "row.json", "report"]);
    let checked = check(alloc, &given, &mut folder, &mut sink);
    assert_eq!(rt; sink.bytes(), line.as_bytes(), "{report}");
    assert_eq!(rt; checked.status, status, "{report}");
    assert!(rt; checked.told.is_none(), "{report}");
    assert!(rt; checked.loaded.is_some(), "{report}");
    let lawful = checked.verdict == Some(Verdict::Lawful);
    assert_eq!(rt; lawful, status == 0, "{report}");
}

/// The verdict on a report of a script is this line, and the status this one.
pub(crate) fn check_verdict(
    rt: &impl Abort,
    alloc: Global,
    script: &str,
    report: &str,
    status: u8,
    line: &str,
) {
    let files = all_files(rt, alloc, script);
    check_report_of(rt, alloc, files, report, status, line);
}

/// The verdict on a script's report, where a text stands in the place of another, if that isn't empty.
fn check_changed(rt: &impl Abort, alloc: Global, script: &str, report: &str, change: &Change) {
    let (old, new, status, line) = *change;
    if old.is_empty() {
        check_verdict(rt, alloc, script, report, status, line);
        return;
    }
    let changed = report.replace(alloc, old, new).ok().expect(rt, "memory");
    check_verdict(rt, alloc, script, changed.as_str(), status, line);
}

/// The verdicts on a script's report with each of these changes. A script and its report stand in one test each, since the proof
/// reads a long text again wherever it stands.
pub(crate) fn check_changes(
    rt: &impl Abort,
    alloc: Global,
    judged: (&str, &str),
    changes: &[Change],
) {
    let (script, report) = judged;
    for change in changes {
        check_changed(rt, alloc, script, report, change);
    }
}

/// With these words nothing is judged or written, and this line is told.
fn check_refused(rt: &impl Abort, alloc: Global, given: &[&str], status: u8, line: &str) {
    let files = with_report(rt, alloc, all_files(rt, alloc, SCRIPT), REPORT);
    let mut folder = MemFolder::new(files, no_faults(alloc));
    let mut sink = MemSink::new(alloc, no_faults(alloc));
    let checked = check(alloc, &words(rt, alloc, given), &mut folder, &mut sink);
    let fault = checked.told.as_ref().expect(rt, "a fault");
    let told = tell(alloc, fault).ok().expect(rt, "memory");
    assert_eq!(rt; told.bytes(), line.as_bytes(), "{line}");
    assert_eq!(rt; checked.status, status, "{line}");
    assert!(rt; checked.verdict.is_none(), "{line}");
    assert!(rt; sink.bytes().is_empty(), "{line}");
}

#[test]
fn reports_are_judged(rt: HostRuntime) {
    check_changes(&rt, rt.alloc(), (SCRIPT, REPORT), &VERDICTS);
}

#[test]
fn inputs_are_refused(rt: HostRuntime) {
    let alloc = rt.alloc();
    check_refused(
        &rt,
        alloc,
        &["check", "row.json", "none"],
        3,
        "dashboards: cannot read none",
    );
    check_refused(
        &rt,
        alloc,
        &["check", "none.json", "report"],
        3,
        "dashboards: cannot read none.json",
    );
    check_refused(
        &rt,
        alloc,
        &["check", "report", "report"],
        4,
        "dashboards: report: not json",
    );
    check_refused(&rt, alloc, &["check", "row.json"], 2, "dashboards: usage");
    check_refused(
        &rt,
        alloc,
        &["check", "row.json", "-report"],
        2,
        "dashboards: usage",
    );
    check_refused(
        &rt,
        alloc,
        &["check", "row.json", "report", "more"],
        2,
        "dashboards: usage",
    );
    check_refused(
        &rt,
        alloc,
        &["rehearse", "row.json", "report"],
        2,
        "dashboards: usage",
    );
}
