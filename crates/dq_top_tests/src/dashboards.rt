// Ten dashboards of four lanes over three extracts, of which two are appended to, from outside.
use crate::checks::check_report_of;
use crate::plays::{Left, check_left, check_parts, replaced, text_of};
use crate::tests::{add, words};
use dq_backend::InOffice;
use dq_journal::Entry;
use dq_outside::{NamedFiles, SureFolder, SureSink};
use dq_top::rehearse;
use std::alloc::Global;
use std::process::Abort;

// The script, with the year for each dashboard.
const SCRIPT: &str =
    r#"{"form":1,"extracts":[{"name":"sales","columns":[["region","text"],["year","whole"],["amount","whole"]]},{"name":"stock","columns":[["shop","text"],["item","text"],["units","whole"]]},{"name":"visits","columns":[["day","whole"],["page","text"],["hits","whole"]]}],"lanes":[[{"publish":"sales","how":"replace","file":"sales.csv"},{"publish":"stock","how":"replace","file":"stock.csv"},{"publish":"visits","how":"replace","file":"visits.csv"},<2018>,{"publish":"sales","how":"append","file":"sales2.csv"},<2019>],[<2018>,<2019>,<2020>],[<2020>,<2021>,<2022>],[{"publish":"visits","how":"append","file":"visits2.csv"},<2022>,<2018>]],"schedule":[1,1,1]}"#;

// The dashboard of a year.
const DASHBOARD: &str =
    r#"{"batch":[{<year>,"show":[["rows"],["sum","amount"]]},{<year>,"by":["region"],"show":[["sum","amount"]]},{<year>,"by":["region"],"show":[["avg","amount"]]},{"source":"sales","by":["region","year"],"show":[["rows"],["sum","amount"]]},{<year>,"by":["region"],"show":[["sum","amount"]],"order":[[2,"down"]],"top":2},{"source":"stock","by":["shop"],"show":[["sum","units"]]},{"source":"stock","by":["item"],"show":[["countd","shop"],["max","units"]]},{"source":"visits","filters":[{"column":"day","between":[0,9]}],"by":["day"],"show":[["sum","hits"]]}]}"#;

const LEFT: Left = Left {
    status: 0,
    idle: "2 9 14,1 4 6,",
    wrecks: "",
};

// What stands in the report, one behind the other.
const PARTS: [&str; 13] = [
    "report 1
lanes 4
entries 73
1 publish lane 1 step 1
2 publish lane 1 step 2
3 publish lane 1 step 3
4 admit lane 1 step 4 met group 1 group 2 group 3 group 4 group 5
5 admit lane 2 step 1 met join 1 join 2 join 3 join 4 join 5
6 admit lane 3 step 1 met group 6 join 2 join 3 join 4 join 5
7 publish lane 4 step 1
",
    "48 admit lane 2 step 2 met group 9 group 10 hit 3 hit 4 hit 8
49 admit lane 3 step 2 met group 11 join 10 hit 3 hit 4 hit 8
50 admit lane 1 step 6 met join 9 join 10 hit 3 hit 4 hit 8
",
    r#"step 4 admitted 4 zones 8
zone 1 rows 1
20 950
zone 2 rows 4
"East" 200
"North" 250
"South" 275
"West" 225
"#,
    r#"zone 5 rows 2
"South" 275
"North" 250
"#,
    "step 6 admitted 50 zones 8\n",
    "step 1 admitted 5 zones 8\n",
    "step 2 admitted 48 zones 8\n",
    "step 3 admitted 63 zones 8\n",
    "step 1 admitted 6 zones 8\n",
    "step 2 admitted 49 zones 8\n",
    "step 3 admitted 64 zones 8\n",
    "step 2 admitted 10 zones 8\n",
    "step 3 admitted 41 zones 8\n",
];

/// The script's text.
fn script(rt: &impl Abort, alloc: Global) -> String {
    let mut whole = String::from_str(alloc, SCRIPT).ok().expect(rt, "memory");
    for year in 2018u32..2023 {
        let filter = format!(in alloc;
            r#""source":"sales","filters":[{{"column":"year","among":[{year}]}}]"#
        ).ok()
            .expect(rt, "memory");
        let dashboard = replaced(rt, alloc, DASHBOARD, "<year>", filter.as_str());
        let mark = format!(in alloc; "<{year}>").ok().expect(rt, "memory");
        whole = replaced(rt, alloc, whole.as_str(), mark.as_str(), dashboard.as_str());
    }
    whole
}

fn put(rt: &impl Abort, file: &mut String, line: &str) {
    assert!(rt; file.push_str(line).is_ok());
}

fn region(row: u32) -> &'static str {
    match row % 4 {
        0 => "East",
        1 => "West",
        2 => "North",
        _ => "South",
    }
}

/// The rows of sales from one number to below another.
fn sales(rt: &impl Abort, alloc: Global, from: u32, until: u32) -> String {
    let mut file = String::new(alloc);
    put(rt, &mut file, "region,year,amount\n");
    for row in from..until {
        let line = format!(in alloc; "{},{},{row}\n", region(row), 2018 + row % 5)
            .ok()
            .expect(rt, "memory");
        put(rt, &mut file, line.as_str());
    }
    file
}

fn stock(rt: &impl Abort, alloc: Global) -> String {
    let mut file = String::new(alloc);
    put(rt, &mut file, "shop,item,units\n");
    for row in 0u32..60 {
        let line = format!(in alloc; "S{},I{},{}\n", row % 6, row % 10, row % 7)
            .ok()
            .expect(rt, "memory");
        put(rt, &mut file, line.as_str());
    }
    file
}

/// The rows of visits from one number to below another.
fn visits(rt: &impl Abort, alloc: Global, from: u32, until: u32) -> String {
    let mut file = String::new(alloc);
    put(rt, &mut file, "day,page,hits\n");
    for row in from..until {
        let line = format!(in alloc; "{},P{},1\n", row % 20, row % 8)
            .ok()
            .expect(rt, "memory");
        put(rt, &mut file, line.as_str());
    }
    file
}

fn files(rt: &impl Abort, alloc: Global) -> NamedFiles {
    let mut files = NamedFiles::new(alloc);
    for (name, text) in [
        (b"row.json".as_slice(), script(rt, alloc)),
        (b"sales.csv".as_slice(), sales(rt, alloc, 0, 100)),
        (b"sales2.csv".as_slice(), sales(rt, alloc, 100, 120)),
        (b"stock.csv".as_slice(), stock(rt, alloc)),
        (b"visits.csv".as_slice(), visits(rt, alloc, 0, 80)),
        (b"visits2.csv".as_slice(), visits(rt, alloc, 80, 100)),
    ] {
        add(rt, alloc, &mut files, name, text.as_bytes());
    }
    files
}

fn is_give(entry: &Entry, of: u32) -> bool {
    match entry {
        Entry::Give { lane, .. } => *lane == of,
        _ => false,
    }
}

/// How many statements a lane ran.
fn statements(entries: &[Entry], lane: u32) -> usize {
    entries.iter().filter(|entry| is_give(*entry, lane)).count()
}

#[test]
fn ten_dashboards_are_answered(rt: HostRuntime) {
    let alloc = rt.alloc();
    let mut folder = SureFolder::new(files(&rt, alloc));
    let mut sink = SureSink::new(alloc);
    let given = words(&rt, alloc, &["rehearse", "row.json"]);
    let outcome = rehearse(alloc, &given, &mut folder, &mut sink, &mut InOffice::new());
    check_left(&rt, alloc, &outcome, &LEFT);
    let entries = outcome.journal.as_slice();
    for (lane, count) in [(1, 5), (2, 3), (3, 3), (4, 2)] {
        assert_eq!(rt; statements(entries, lane), count, "lane {lane}");
    }
    let report = text_of(&rt, alloc, sink.bytes());
    assert_eq!(rt; report.as_bytes().len(), 11545);
    check_parts(&rt, report.as_str(), &PARTS);
    check_report_of(
        &rt,
        alloc,
        files(&rt, alloc),
        report.as_str(),
        0,
        "lawful\n",
    );
}
