// Texts of statements, against the table of the grammar.
use dq_base::{Canon, Dim, List, Measure, OrderKey, Query};
use dq_text::{TextFault, body, parse, print};
use std::alloc::Global;
use std::process::Abort;

/// A statement's text is read, and printed as it was.
fn check_text(rt: &impl Abort, alloc: Global, text: &str) {
    let statement = parse(alloc, text.as_bytes()).ok().expect(rt, "a statement");
    let printed = print(alloc, &statement).ok().expect(rt, "memory");
    assert_eq!(rt; printed.bytes(), text.as_bytes(), "{text}");
}

#[test]
fn texts_are_read_and_printed(rt: HostRuntime) {
    let alloc = rt.alloc();
    let table = [
        "from 0@1 by c0 show rows order 2- top 1",
        "from 0@1 where c1 among #1 show rows",
        "from 0@0",
        "from 0@1 by c2/5 show rows",
        "from 0@1 by c0,c2/2,c1/4294967295 show rows",
        "from 4294967295@18446744073709551615 top 0",
        "from 7@30 where c0 among (null,-9223372036854775808,\"a\\22b\") where c1 except () where c2 between *..-1 by c1,c0 show rows,count c2,sum c2,min c0,max c1,countd c0,avg c2 order 1+,2-,9+ top 4294967295",
        "from 0@1 where c3 except #18446744073709551615 where c3 between 9223372036854775807..*",
    ];
    for text in table {
        check_text(&rt, alloc, text);
    }
}

#[test]
fn other_texts_are_refused(rt: HostRuntime) {
    let alloc = rt.alloc();
    let table = [
        "",
        "from 0",
        "from 0@1 show sums c2",
        "from 0@1 top 007",
        "from 0@1 show",
        "from 0@1 by ",
        "from 0@1 by c0,",
        "from 0@1 by c0/",
        "from 0@1 by c0/0",
        "from 0@1 by c0/1",
        "from 0@1 by c0/05",
        "from 0@1 by c0/4294967296",
        "from 0@1 by c0/5/5",
        "from 0@1 show sum c0/5",
        "from 00@1",
        "from 4294967296@1",
        "from 0@18446744073709551616",
        "from +1@1",
        "from 0@1 ",
        "from 0@1  show rows",
        "from 0@1 show rows by c0",
        "from 0@1 order 1",
        "from 0@1 where c0 among",
        "from 0@1 where c0 among (1",
        "from 0@1 where c0 among (1,)",
        "from 0@1 where c0 among (-0)",
        "from 0@1 where c0 among (9223372036854775808)",
        "from 0@1 where c0 among (\"a\\2Cb\")",
        "from 0@1 where c0 among (\"\\61\")",
        "from 0@1 where c0 among (\"a)",
        "from 0@1 where c0 between 1..",
        "from 0@1 where c0 between 1.2",
        "FROM 0@1",
    ];
    for text in table {
        assert_eq!(rt;
            parse(alloc, text.as_bytes()).err(),
            Some(TextFault::NotInGrammar),
            "{text}"
        );
    }
}

#[test]
fn a_width_is_read(rt: HostRuntime) {
    let alloc = rt.alloc();
    let statement = parse(alloc, b"from 0@1 by c2/5 show rows".as_slice())
        .ok()
        .expect(&rt, "a statement");
    let dim = statement.dims.get(0).expect(&rt, "a dimension");
    assert_eq!(rt; dim.column(), 2);
    assert_eq!(rt; dim.width(), 5);
}

/// The region with the most rows.
fn most(rt: &impl Abort, alloc: Global) -> Canon {
    let mut dims = List::new(alloc);
    assert!(rt; dims.push(Dim::plain(0)).is_ok());
    let mut measures = List::new(alloc);
    assert!(rt; measures.push(Measure::Rows).is_ok());
    let mut order = List::new(alloc);
    assert!(rt;
        order
            .push(OrderKey {
                place: 2,
                down: true
            })
            .is_ok()
    );
    Canon::new(Query {
        source: 0,
        filters: List::new(alloc),
        dims,
        measures,
        order,
        top: Some(1),
    })
}

#[test]
fn a_body_has_no_stamp(rt: HostRuntime) {
    let alloc = rt.alloc();
    let text = body(alloc, &most(&rt, alloc)).ok().expect(&rt, "memory");
    assert_eq!(rt;
        text.bytes(),
        b"from 0 by c0 show rows order 2- top 1".as_slice()
    );
}
