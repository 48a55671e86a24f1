// Runs of scripts: what they write, and what they leave of links and dialers.
use crate::checks::check_verdict;
use crate::tests::{all_files, check_told, words};
use dq_link::{Dialer, Link, Office, Pooled, Wreck};
use dq_outside::{SureFolder, SureSink};
use dq_top::{Fault, Outcome, rehearse};
use std::alloc::Global;
use std::process::Abort;

/// What a run leaves: its status, and the links that were given back and those that were lost, each as its number, runs and calls.
#[derive(Clone, Copy)]
pub(crate) struct Left {
    pub(crate) status: u8,
    pub(crate) idle: &'static str,
    pub(crate) wrecks: &'static str,
}

/// A run of a script, in which marks stand for longer texts, what it leaves, and its report.
#[derive(Clone, Copy)]
pub(crate) struct Play {
    pub(crate) script: &'static str,
    pub(crate) left: Left,
    pub(crate) report: &'static str,
}

// What the marks stand for.
const SHORT: [(&str, &str); 14] = [
    (
        "<extracts>",
        r#""extracts":[{"name":"sales","columns":[["region","text"],["year","whole"],["amount","whole"]]}]"#,
    ),
    (
        "<sales>",
        r#"{"publish":"sales","how":"replace","file":"sales.csv"}"#,
    ),
    (
        "<next>",
        r#"{"publish":"sales","how":"replace","file":"next.csv"}"#,
    ),
    (
        "<more>",
        r#"{"publish":"sales","how":"append","file":"more.csv"}"#,
    ),
    (
        "<regions>",
        r#"{"source":"sales","by":["region"],"show":[["rows"]]}"#,
    ),
    (
        "<years>",
        r#"{"source":"sales","by":["year"],"show":[["rows"]]}"#,
    ),
    (
        "<both>",
        r#"{"source":"sales","by":["region","year"],"show":[["rows"]]}"#,
    ),
    ("<rows>", r#"{"source":"sales","show":[["rows"]]}"#),
    (
        "<sums>",
        r#"{"source":"sales","by":["region"],"show":[["sum","amount"]]}"#,
    ),
    (
        "<maxima>",
        r#"{"source":"sales","by":["region"],"show":[["max","amount"]]}"#,
    ),
    (
        "<colours>",
        r#"{"source":"sales","by":["colour"],"show":[["rows"]]}"#,
    ),
    (
        "<first>",
        r#"{"source":"sales","by":["region"],"show":[["rows"]],"order":[[2,"down"]],"top":1}"#,
    ),
    (
        "<ranked>",
        r#"{"source":"sales","by":["region"],"show":[["rows"]],"order":[[2,"down"]]}"#,
    ),
    (
        "<listed>",
        r#"{"source":"sales","filters":[{"column":"year","among":[<list 10>]}],"show":[["rows"]]}"#,
    ),
];

/// Seventeen years, of which the first is so many behind 2000.
fn years(rt: &impl Abort, alloc: Global, first: u16) -> String {
    let mut all = String::new(alloc);
    for place in 0..17 {
        let mark = if place == 0 { "" } else { "," };
        let year = format!(in alloc; "{mark}{}", 2000 + u32::from(first) + place)
            .ok()
            .expect(rt, "memory");
        assert!(rt; all.push_str(year.as_str()).is_ok());
    }
    all
}

/// A text with what a mark stands for.
pub(crate) fn replaced(
    rt: &impl Abort,
    alloc: Global,
    text: &str,
    mark: &str,
    meant: &str,
) -> String {
    text.replace(alloc, mark, meant).ok().expect(rt, "memory")
}

/// A script with the lists that its marks stand for.
fn with_lists(rt: &impl Abort, alloc: Global, script: &str) -> String {
    let mut whole = String::from_str(alloc, script).ok().expect(rt, "memory");
    for first in 1..18 {
        let mark = format!(in alloc; "<list {first}>")
            .ok()
            .expect(rt, "memory");
        let list = years(rt, alloc, first);
        whole = replaced(rt, alloc, whole.as_str(), mark.as_str(), list.as_str());
    }
    whole
}

/// A script with what its marks stand for.
pub(crate) fn whole_script(rt: &impl Abort, alloc: Global, script: &str) -> String {
    let mut whole = String::from_str(alloc, script).ok().expect(rt, "memory");
    for (mark, meant) in SHORT {
        whole = replaced(rt, alloc, whole.as_str(), mark, meant);
    }
    with_lists(rt, alloc, whole.as_str())
}

/// Links that were given back, the last one first.
fn spell_idle<L: Link>(rt: &impl Abort, alloc: Global, idle: &[Pooled<L>]) -> String {
    let mut line = String::new(alloc);
    for link in idle {
        let link = format!(in alloc; "{} {} {},", link.number(), link.runs(), link.calls())
            .ok()
            .expect(rt, "memory");
        assert!(rt; line.push_str(link.as_str()).is_ok());
    }
    line
}

/// Links that were lost, in order. Each failed once.
fn spell_wrecks<L: Link>(rt: &impl Abort, alloc: Global, wrecks: &[Wreck<L>]) -> String {
    let mut line = String::new(alloc);
    for wreck in wrecks {
        assert_eq!(rt; wreck.faults(), 1);
        let link = format!(in alloc; "{} {} {},", wreck.number(), wreck.runs(), wreck.calls())
            .ok()
            .expect(rt, "memory");
        assert!(rt; line.push_str(link.as_str()).is_ok());
    }
    line
}

/// Want of memory is told where the status is 6, and else nothing.
fn check_memory(rt: &impl Abort, alloc: Global, status: u8, told: &Option<Fault>) {
    assert_eq!(rt; told.is_some(), status == 6);
    if let Some(fault) = told {
        check_told(rt, alloc, fault, 6, "dashboards: out of memory");
    }
}

/// The run ended so: there is a result and a dialer for each lane, and these links are left.
pub(crate) fn check_left<L: Link, D: Dialer<L = L>>(
    rt: &impl Abort,
    alloc: Global,
    outcome: &Outcome<L, D>,
    left: &Left,
) {
    assert_eq!(rt; outcome.status, left.status);
    check_memory(rt, alloc, outcome.status, &outcome.told);
    assert!(rt; outcome.loaded.is_some());
    assert_eq!(rt; outcome.shown.len(), outcome.results.len());
    assert_eq!(rt; outcome.dialers.len(), outcome.results.len());
    let idle = spell_idle(rt, alloc, outcome.idle.as_slice());
    assert_eq!(rt; idle.as_str(), left.idle);
    let wrecks = spell_wrecks(rt, alloc, outcome.wrecks.as_slice());
    assert_eq!(rt; wrecks.as_str(), left.wrecks);
}

pub(crate) fn text_of(rt: &impl Abort, alloc: Global, bytes: &[u8]) -> String {
    match str::from_utf8(bytes) {
        Ok(text) => String::from_str(alloc, text).ok().expect(rt, "memory"),
        Err(_) => panic!(rt; "the report is no text"),
    }
}

/// The report of a run with links of an office, which leaves this. The report is lawful.
pub(crate) fn played<O: Office>(
    rt: &impl Abort,
    alloc: Global,
    office: &mut O,
    script: &str,
    left: &Left,
) -> String {
    let script = whole_script(rt, alloc, script);
    let mut folder = SureFolder::new(all_files(rt, alloc, script.as_str()));
    let mut sink = SureSink::new(alloc);
    let given = words(rt, alloc, &["rehearse", "row.json"]);
    let outcome = rehearse(alloc, &given, &mut folder, &mut sink, office);
    let report = text_of(rt, alloc, sink.bytes());
    check_verdict(rt, alloc, script.as_str(), report.as_str(), 0, "lawful\n");
    check_left(rt, alloc, &outcome, left);
    report
}

/// A run with links of an office leaves this, and writes this report.
pub(crate) fn check_run<O: Office>(
    rt: &impl Abort,
    alloc: Global,
    office: &mut O,
    script: &str,
    left: &Left,
    report: &str,
) {
    let written = played(rt, alloc, office, script, left);
    assert_eq!(rt; written.as_str(), report);
}

/// So does a run of a script that stands among the tests.
pub(crate) fn check_play<O: Office>(rt: &impl Abort, alloc: Global, office: &mut O, play: &Play) {
    check_run(rt, alloc, office, play.script, &play.left, play.report);
}

/// These texts stand in a report, one behind the other.
pub(crate) fn check_parts(rt: &impl Abort, report: &str, parts: &[&str]) {
    let mut rest = report;
    for part in parts {
        let Some((_, behind)) = rest.split_once(*part) else {
            panic!(rt; "{report} has no {part}");
        };
        rest = behind;
    }
}
