use dq_base::{
    Bound, How, Limit, Measure, Memory, OrderKey, Predicate, Query, Script, Step, Test, Text,
};
use dq_script::{ScriptFault, read};
use std::alloc::{AllocError, Global};
use std::test::Fail;

// What is told of a script: the fault in words, with its path or its limit and number.
fn told_of(alloc: Global, answer: &Result<Script, ScriptFault>) -> Result<String, AllocError> {
    match answer {
        Ok(_) => format!(in alloc; "read"),
        Err(ScriptFault::Limit(limit, value)) => format!(in alloc; "limit {limit:?} {value}"),
        Err(fault) => format!(in alloc; "{fault}"),
    }
}

// The path that is told, where one is.
fn path_of(answer: &Result<Script, ScriptFault>) -> Option<&Text> {
    match answer {
        Err(ScriptFault::Shape(path)) => Some(path),
        Err(ScriptFault::UnknownExtract(path)) => Some(path),
        Err(ScriptFault::UnknownLane(path)) => Some(path),
        _ => None,
    }
}

// Whether this is what is told of these bytes: words, and behind a blank the path.
fn tells(alloc: Global, bytes: &[u8], told: &str) -> Result<bool, Memory> {
    let answer = read(alloc, bytes);
    let words = told_of(alloc, &answer)?;
    let mut line = Text::copy_of(alloc, words.as_bytes())?;
    if let Some(path) = path_of(&answer) {
        line.push(b' ')?;
        line.append(path.bytes())?;
    }
    Ok(line.bytes() == told.as_bytes())
}

const FIRST: &str =
    r#"{"form":1,"extracts":[{"name":"a","columns":[["t","text"],["n","whole"]]},{"name":"b","columns":[["u","whole"]]}],"literal":7,"clever":4096,"lanes":[[{"publish":"b","how":"append","file":"b.csv"},{"batch":[{"source":"a","filters":[{"column":"t","among":[null,"x",-3]},{"column":"n","except":[]},{"column":"n","between":[null,9]},{"column":"z","between":[-5,null]}],"by":[["band","n",5],"t",["band","z",1]],"show":[["rows"],["count","t"],["sum","n"],["min","n"],["max","t"],["countd","t"],["avg","n"]],"order":[[0,"up"],[4294967295,"down"]],"top":0},{"source":"c","filters":[{"column":"t","among":[]}],"by":["n"],"show":[["sum","n"]]}]}],[]],"schedule":[2,1,1],"faults":[{"lane":2,"links":[0,3],"dials":[1]}]}"#;

const SECOND: &str =
    r#"{"form":2,"extracts":[{"name":"a","columns":[["t","text"],["n","whole"]]}],"clever":9,"lanes":[[],[{"batch":[{"source":"a"},{"blend":[{"source":"a","by":["t",["band","n",5],"t","n"]},{"source":"a","by":[["band","n",5],"t"]}]}]},{"batch":[{"blend":[{"source":"a"},{"source":"a"}]},{"blend":[{"source":"b","by":["x"]},{"source":"a","by":["x"]}]}]}]],"sessions":[{"lane":2,"source":"a","filters":[{"column":"n","between":[1,null]}]},{"lane":1,"source":"a","filters":[{"column":"n","between":[1,null]}]}]}"#;

// Scripts as a whole, and what is told of each.
const WHOLE: [(&str, &str); 29] = [
    (r#""#, "not json"),
    (r#"{"#, "not json"),
    (r#"1"#, "shape "),
    (r#"[]"#, "shape "),
    (r#"{}"#, "shape /form"),
    (r#"{"form":3}"#, "shape /form"),
    (r#"{"form":1.0}"#, "shape /form"),
    (r#"{"form":"1"}"#, "shape /form"),
    (r#"{"form":0}"#, "shape /form"),
    (r#"{"form":1}"#, "shape /extracts"),
    (r#"{"form":1,"extracts":[]}"#, "shape /lanes"),
    (
        r#"{"form":1,"extracts":[{"name":"a"}],"lanes":[]}"#,
        "shape /extracts/0/columns",
    ),
    (
        r#"{"form":1,"extracts":[],"lanes":[],"zzz":0}"#,
        "shape /zzz",
    ),
    (
        r#"{"form":1,"extracts":[],"lanes":[],"zz":0,"a/b~c":0}"#,
        "shape /a~1b~0c",
    ),
    (
        r#"{"form":1,"extracts":[],"lanes":[],"schedule":[0]}"#,
        "shape /schedule/0",
    ),
    (
        r#"{"form":1,"extracts":[],"lanes":[],"schedule":null}"#,
        "shape /schedule",
    ),
    (
        r#"{"form":1,"extracts":[],"lanes":[],"schedule":[1]}"#,
        "unknown lane /schedule/0",
    ),
    (
        r#"{"form":1,"extracts":[],"lanes":[],"clever":4097}"#,
        "limit Capacity 4097",
    ),
    (
        r#"{"form":1,"extracts":[],"lanes":[],"clever":4097,"literal":4098}"#,
        "limit Capacity 4098",
    ),
    (
        r#"{"form":1,"extracts":[],"lanes":[],"literal":0}"#,
        "shape /literal",
    ),
    (
        r#"{"form":1,"extracts":[],"lanes":[],"literal":4096}"#,
        "read",
    ),
    (
        r#"{"form":2,"extracts":[],"lanes":[],"literal":0}"#,
        "shape /literal",
    ),
    (
        r#"{"form":2,"extracts":[],"lanes":[],"literal":4194304}"#,
        "read",
    ),
    (
        r#"{"form":2,"extracts":[],"lanes":[],"clever":4194305}"#,
        "limit Capacity 4194305",
    ),
    (
        r#"{"form":1,"extracts":[],"lanes":[[{"publish":"x","how":"append","file":"f"}]]}"#,
        "unknown extract /lanes/0/0/publish",
    ),
    (r#"{"form":1,"extracts":[],"lanes":[]}"#, "read"),
    (r#"{"form":2,"extracts":[],"lanes":[]}"#, "read"),
    (
        r#"{"form":1,"form":2,"extracts":[],"lanes":[],"sessions":[]}"#,
        "read",
    ),
    (
        r#"{"form":1,"extracts":[],"lanes":[],"sessions":[]}"#,
        "shape /sessions",
    ),
];

// Extracts and faults, and what is told of each.
const PARTS: [(&str, &str); 17] = [
    (
        r#"{"form":1,"extracts":[1],"lanes":[]}"#,
        "shape /extracts/0",
    ),
    (
        r#"{"form":1,"extracts":[{"name":"","columns":[]}],"lanes":[]}"#,
        "shape /extracts/0/name",
    ),
    (
        r#"{"form":1,"extracts":[{"name":"a","columns":[]}],"lanes":[]}"#,
        "shape /extracts/0/columns",
    ),
    (
        r#"{"form":1,"extracts":[{"name":"a","columns":[["c"]]}],"lanes":[]}"#,
        "shape /extracts/0/columns/0",
    ),
    (
        r#"{"form":1,"extracts":[{"name":"a","columns":[["","text"]]}],"lanes":[]}"#,
        "shape /extracts/0/columns/0/0",
    ),
    (
        r#"{"form":1,"extracts":[{"name":"a","columns":[["c","number"]]}],"lanes":[]}"#,
        "shape /extracts/0/columns/0/1",
    ),
    (
        r#"{"form":1,"extracts":[{"name":"a","columns":[["c","text"],["d","text"],["c","text"]]}],"lanes":[]}"#,
        "shape /extracts/0/columns/2/0",
    ),
    (
        r#"{"form":1,"extracts":[{"name":"a","columns":[["c","text"],["n","whole"]]},{"name":"a","columns":[["c","text"],["n","whole"]]}],"lanes":[]}"#,
        "shape /extracts/1/name",
    ),
    (
        r#"{"form":1,"extracts":[{"name":"a","columns":[["c","text"]],"b":1}],"lanes":[]}"#,
        "shape /extracts/0/b",
    ),
    (
        r#"{"form":1,"extracts":[],"lanes":[[],[]],"faults":[{}]}"#,
        "shape /faults/0/lane",
    ),
    (
        r#"{"form":1,"extracts":[],"lanes":[[],[]],"faults":[{"lane":0}]}"#,
        "shape /faults/0/lane",
    ),
    (
        r#"{"form":1,"extracts":[],"lanes":[[],[]],"faults":[{"lane":2},{"lane":1},{"lane":2}]}"#,
        "shape /faults/2/lane",
    ),
    (
        r#"{"form":1,"extracts":[],"lanes":[[],[]],"faults":[{"lane":1,"dials":[1,0]}]}"#,
        "shape /faults/0/dials/1",
    ),
    (
        r#"{"form":1,"extracts":[],"lanes":[[],[]],"faults":[{"lane":1,"links":[0,-1]}]}"#,
        "shape /faults/0/links/1",
    ),
    (
        r#"{"form":1,"extracts":[],"lanes":[[],[]],"faults":[{"lane":1,"dial":1}]}"#,
        "shape /faults/0/dial",
    ),
    (
        r#"{"form":1,"extracts":[],"lanes":[[],[]],"faults":[{"lane":2},{"lane":3}]}"#,
        "unknown lane /faults/1/lane",
    ),
    (
        r#"{"form":1,"extracts":[],"lanes":[[],[]],"faults":[{"lane":2},{"lane":1}]}"#,
        "read",
    ),
];

// Steps, and what is told of each.
const STEPS: [(&str, &str); 11] = [
    (
        r#"{"form":1,"extracts":[{"name":"a","columns":[["c","text"],["n","whole"]]}],"lanes":[[],[1]]}"#,
        "shape /lanes/1/0",
    ),
    (
        r#"{"form":1,"extracts":[{"name":"a","columns":[["c","text"],["n","whole"]]}],"lanes":[[],[{"how":"append"}]]}"#,
        "shape /lanes/1/0",
    ),
    (
        r#"{"form":1,"extracts":[{"name":"a","columns":[["c","text"],["n","whole"]]}],"lanes":[[],[{"batch":1,"file":1}]]}"#,
        "shape /lanes/1/0",
    ),
    (
        r#"{"form":1,"extracts":[{"name":"a","columns":[["c","text"],["n","whole"]]}],"lanes":[[],[{"publish":1}]]}"#,
        "shape /lanes/1/0/publish",
    ),
    (
        r#"{"form":1,"extracts":[{"name":"a","columns":[["c","text"],["n","whole"]]}],"lanes":[[],[{"publish":"x"}]]}"#,
        "shape /lanes/1/0/how",
    ),
    (
        r#"{"form":1,"extracts":[{"name":"a","columns":[["c","text"],["n","whole"]]}],"lanes":[[],[{"publish":"x","how":"merge"}]]}"#,
        "shape /lanes/1/0/how",
    ),
    (
        r#"{"form":1,"extracts":[{"name":"a","columns":[["c","text"],["n","whole"]]}],"lanes":[[],[{"publish":"x","how":"append"}]]}"#,
        "shape /lanes/1/0/file",
    ),
    (
        r#"{"form":1,"extracts":[{"name":"a","columns":[["c","text"],["n","whole"]]}],"lanes":[[],[{"publish":"x","how":"append","file":""}]]}"#,
        "shape /lanes/1/0/file",
    ),
    (
        r#"{"form":1,"extracts":[{"name":"a","columns":[["c","text"],["n","whole"]]}],"lanes":[[],[{"publish":"x","how":"append","file":"f","by":1}]]}"#,
        "shape /lanes/1/0/by",
    ),
    (
        r#"{"form":1,"extracts":[{"name":"a","columns":[["c","text"],["n","whole"]]}],"lanes":[[],[{"batch":[],"by":1}]]}"#,
        "shape /lanes/1/0/by",
    ),
    (
        r#"{"form":1,"extracts":[{"name":"a","columns":[["c","text"],["n","whole"]]}],"lanes":[[],[{"batch":{}}]]}"#,
        "shape /lanes/1/0/batch",
    ),
];

// Zones, and what is told of each.
const ZONES: [(&str, &str); 32] = [
    (
        r#"{"form":1,"extracts":[{"name":"a","columns":[["c","text"],["n","whole"]]}],"lanes":[[],[{"batch":[[]]}]]}"#,
        "shape /lanes/1/0/batch/0",
    ),
    (
        r#"{"form":1,"extracts":[{"name":"a","columns":[["c","text"],["n","whole"]]}],"lanes":[[],[{"batch":[{}]}]]}"#,
        "shape /lanes/1/0/batch/0/source",
    ),
    (
        r#"{"form":1,"extracts":[{"name":"a","columns":[["c","text"],["n","whole"]]}],"lanes":[[],[{"batch":[{"source":1}]}]]}"#,
        "shape /lanes/1/0/batch/0/source",
    ),
    (
        r#"{"form":1,"extracts":[{"name":"a","columns":[["c","text"],["n","whole"]]}],"lanes":[[],[{"batch":[{"source":"b"}]}]]}"#,
        "read",
    ),
    (
        r#"{"form":1,"extracts":[{"name":"a","columns":[["c","text"],["n","whole"]]}],"lanes":[[],[{"batch":[{"source":"a","top":-1,"zap":1}]}]]}"#,
        "shape /lanes/1/0/batch/0/top",
    ),
    (
        r#"{"form":1,"extracts":[{"name":"a","columns":[["c","text"],["n","whole"]]}],"lanes":[[],[{"batch":[{"source":"a","top":4294967296}]}]]}"#,
        "shape /lanes/1/0/batch/0/top",
    ),
    (
        r#"{"form":1,"extracts":[{"name":"a","columns":[["c","text"],["n","whole"]]}],"lanes":[[],[{"batch":[{"source":"a","zap":1}]}]]}"#,
        "shape /lanes/1/0/batch/0/zap",
    ),
    (
        r#"{"form":1,"extracts":[{"name":"a","columns":[["c","text"],["n","whole"]]}],"lanes":[[],[{"batch":[{"source":"a","order":[[0,"up"],[4294967296,"up"]]}]}]]}"#,
        "shape /lanes/1/0/batch/0/order/1/0",
    ),
    (
        r#"{"form":1,"extracts":[{"name":"a","columns":[["c","text"],["n","whole"]]}],"lanes":[[],[{"batch":[{"source":"a","order":[[0,"left"]]}]}]]}"#,
        "shape /lanes/1/0/batch/0/order/0/1",
    ),
    (
        r#"{"form":1,"extracts":[{"name":"a","columns":[["c","text"],["n","whole"]]}],"lanes":[[],[{"batch":[{"source":"a","order":[[0]]}]}]]}"#,
        "shape /lanes/1/0/batch/0/order/0",
    ),
    (
        r#"{"form":1,"extracts":[{"name":"a","columns":[["c","text"],["n","whole"]]}],"lanes":[[],[{"batch":[{"source":"a","filters":[{"column":1}]}]}]]}"#,
        "shape /lanes/1/0/batch/0/filters/0",
    ),
    (
        r#"{"form":1,"extracts":[{"name":"a","columns":[["c","text"],["n","whole"]]}],"lanes":[[],[{"batch":[{"source":"a","filters":[{"among":[],"except":[]}]}]}]]}"#,
        "shape /lanes/1/0/batch/0/filters/0",
    ),
    (
        r#"{"form":1,"extracts":[{"name":"a","columns":[["c","text"],["n","whole"]]}],"lanes":[[],[{"batch":[{"source":"a","filters":[{"among":[]}]}]}]]}"#,
        "shape /lanes/1/0/batch/0/filters/0/column",
    ),
    (
        r#"{"form":1,"extracts":[{"name":"a","columns":[["c","text"],["n","whole"]]}],"lanes":[[],[{"batch":[{"source":"a","filters":[{"column":"c","among":[null,"x",1.5]}]}]}]]}"#,
        "shape /lanes/1/0/batch/0/filters/0/among/2",
    ),
    (
        r#"{"form":1,"extracts":[{"name":"a","columns":[["c","text"],["n","whole"]]}],"lanes":[[],[{"batch":[{"source":"a","filters":[{"column":"c","among":[9223372036854775808]}]}]}]]}"#,
        "shape /lanes/1/0/batch/0/filters/0/among/0",
    ),
    (
        r#"{"form":1,"extracts":[{"name":"a","columns":[["c","text"],["n","whole"]]}],"lanes":[[],[{"batch":[{"source":"a","filters":[{"column":"c","among":[9223372036854775807,-9223372036854775808]}]}]}]]}"#,
        "read",
    ),
    (
        r#"{"form":1,"extracts":[{"name":"a","columns":[["c","text"],["n","whole"]]}],"lanes":[[],[{"batch":[{"source":"a","filters":[{"column":"c","except":1}]}]}]]}"#,
        "shape /lanes/1/0/batch/0/filters/0/except",
    ),
    (
        r#"{"form":1,"extracts":[{"name":"a","columns":[["c","text"],["n","whole"]]}],"lanes":[[],[{"batch":[{"source":"a","filters":[{"column":"c","between":[1]}]}]}]]}"#,
        "shape /lanes/1/0/batch/0/filters/0/between",
    ),
    (
        r#"{"form":1,"extracts":[{"name":"a","columns":[["c","text"],["n","whole"]]}],"lanes":[[],[{"batch":[{"source":"a","filters":[{"column":"c","between":[null,"1"]}]}]}]]}"#,
        "shape /lanes/1/0/batch/0/filters/0/between/1",
    ),
    (
        r#"{"form":1,"extracts":[{"name":"a","columns":[["c","text"],["n","whole"]]}],"lanes":[[],[{"batch":[{"source":"a","filters":[{"column":"c","between":[1,2],"a":1}]}]}]]}"#,
        "shape /lanes/1/0/batch/0/filters/0/a",
    ),
    (
        r#"{"form":1,"extracts":[{"name":"a","columns":[["c","text"],["n","whole"]]}],"lanes":[[],[{"batch":[{"source":"a","show":[[]]}]}]]}"#,
        "shape /lanes/1/0/batch/0/show/0",
    ),
    (
        r#"{"form":1,"extracts":[{"name":"a","columns":[["c","text"],["n","whole"]]}],"lanes":[[],[{"batch":[{"source":"a","show":[["mean","c","d"]]}]}]]}"#,
        "shape /lanes/1/0/batch/0/show/0/0",
    ),
    (
        r#"{"form":1,"extracts":[{"name":"a","columns":[["c","text"],["n","whole"]]}],"lanes":[[],[{"batch":[{"source":"a","show":[["rows","c"]]}]}]]}"#,
        "shape /lanes/1/0/batch/0/show/0",
    ),
    (
        r#"{"form":1,"extracts":[{"name":"a","columns":[["c","text"],["n","whole"]]}],"lanes":[[],[{"batch":[{"source":"a","show":[["sum"]]}]}]]}"#,
        "shape /lanes/1/0/batch/0/show/0",
    ),
    (
        r#"{"form":1,"extracts":[{"name":"a","columns":[["c","text"],["n","whole"]]}],"lanes":[[],[{"batch":[{"source":"a","show":[["rows"],["sum",1]]}]}]]}"#,
        "shape /lanes/1/0/batch/0/show/1/1",
    ),
    (
        r#"{"form":1,"extracts":[{"name":"a","columns":[["c","text"],["n","whole"]]}],"lanes":[[],[{"batch":[{"source":"a","by":[1]}]}]]}"#,
        "shape /lanes/1/0/batch/0/by/0",
    ),
    (
        r#"{"form":1,"extracts":[{"name":"a","columns":[["c","text"],["n","whole"]]}],"lanes":[[],[{"batch":[{"source":"a","by":["c",["band","n"]]}]}]]}"#,
        "shape /lanes/1/0/batch/0/by/1",
    ),
    (
        r#"{"form":1,"extracts":[{"name":"a","columns":[["c","text"],["n","whole"]]}],"lanes":[[],[{"batch":[{"source":"a","by":[["bend","n",2]]}]}]]}"#,
        "shape /lanes/1/0/batch/0/by/0/0",
    ),
    (
        r#"{"form":1,"extracts":[{"name":"a","columns":[["c","text"],["n","whole"]]}],"lanes":[[],[{"batch":[{"source":"a","by":[["band",1,2]]}]}]]}"#,
        "shape /lanes/1/0/batch/0/by/0/1",
    ),
    (
        r#"{"form":1,"extracts":[{"name":"a","columns":[["c","text"],["n","whole"]]}],"lanes":[[],[{"batch":[{"source":"a","by":[["band","n",0]]}]}]]}"#,
        "shape /lanes/1/0/batch/0/by/0/2",
    ),
    (
        r#"{"form":1,"extracts":[{"name":"a","columns":[["c","text"],["n","whole"]]}],"lanes":[[],[{"batch":[{"source":"a","by":[["band","n",4294967296]]}]}]]}"#,
        "shape /lanes/1/0/batch/0/by/0/2",
    ),
    (
        r#"{"form":1,"extracts":[{"name":"a","columns":[["c","text"],["n","whole"]]}],"lanes":[[],[{"batch":[{"source":"a","by":[["band","n",4294967295]]}]}]]}"#,
        "read",
    ),
];

// Blends, and what is told of each.
const PAIRS: [(&str, &str); 12] = [
    (
        r#"{"form":1,"extracts":[{"name":"a","columns":[["c","text"],["n","whole"]]}],"lanes":[[],[{"batch":[{"blend":[{"source":"a"},{"source":"a"}]}]}]]}"#,
        "shape /lanes/1/0/batch/0/source",
    ),
    (
        r#"{"form":2,"extracts":[{"name":"a","columns":[["c","text"],["n","whole"]]}],"lanes":[[],[{"batch":[{"blend":[{"source":"a"},{"source":"a"}]}]}]]}"#,
        "read",
    ),
    (
        r#"{"form":2,"extracts":[{"name":"a","columns":[["c","text"],["n","whole"]]}],"lanes":[[],[{"batch":[{"blend":[{"source":"a"}]}]}]]}"#,
        "shape /lanes/1/0/batch/0/blend",
    ),
    (
        r#"{"form":2,"extracts":[{"name":"a","columns":[["c","text"],["n","whole"]]}],"lanes":[[],[{"batch":[{"blend":{}}]}]]}"#,
        "shape /lanes/1/0/batch/0/blend",
    ),
    (
        r#"{"form":2,"extracts":[{"name":"a","columns":[["c","text"],["n","whole"]]}],"lanes":[[],[{"batch":[{"blend":[{"blend":[]},1]}]}]]}"#,
        "shape /lanes/1/0/batch/0/blend/0/source",
    ),
    (
        r#"{"form":2,"extracts":[{"name":"a","columns":[["c","text"],["n","whole"]]}],"lanes":[[],[{"batch":[{"blend":[{"source":"a"},{"source":"a","blend":[]}]}]}]]}"#,
        "shape /lanes/1/0/batch/0/blend/1/blend",
    ),
    (
        r#"{"form":2,"extracts":[{"name":"a","columns":[["c","text"],["n","whole"]]}],"lanes":[[],[{"batch":[{"blend":[{"source":"a"},{"source":"a","by":["c",["band","n",5]]}]}]}]]}"#,
        "shape /lanes/1/0/batch/0/blend/1/by/0",
    ),
    (
        r#"{"form":2,"extracts":[{"name":"a","columns":[["c","text"],["n","whole"]]}],"lanes":[[],[{"batch":[{"blend":[{"source":"a","by":["c",["band","n",5]]},{"source":"a"}]}]}]]}"#,
        "read",
    ),
    (
        r#"{"form":2,"extracts":[{"name":"a","columns":[["c","text"],["n","whole"]]}],"lanes":[[],[{"batch":[{"blend":[{"source":"a","by":["c",["band","n",5]]},{"source":"a","by":["c",["band","n",5]]}]}]}]]}"#,
        "read",
    ),
    (
        r#"{"form":2,"extracts":[{"name":"a","columns":[["c","text"],["n","whole"]]}],"lanes":[[],[{"batch":[{"blend":[{"source":"a","by":["c",["band","n",5]]},{"source":"a","by":[["band","n",4]]}]}]}]]}"#,
        "shape /lanes/1/0/batch/0/blend/1/by/0",
    ),
    (
        r#"{"form":2,"extracts":[{"name":"a","columns":[["c","text"],["n","whole"]]}],"lanes":[[],[{"batch":[{"blend":[{"source":"a","by":["x"]},{"source":"a","by":["x","y"]}]}]}]]}"#,
        "shape /lanes/1/0/batch/0/blend/1/by/1",
    ),
    (
        r#"{"form":2,"extracts":[{"name":"a","columns":[["c","text"],["n","whole"]]}],"lanes":[[],[{"batch":[{"blend":[{"source":"a"},{"source":"a"}],"source":1,"by":1}]}]]}"#,
        "shape /lanes/1/0/batch/0/by",
    ),
];

// Sessions, and what is told of each.
const SESSIONS: [(&str, &str); 10] = [
    (
        r#"{"form":2,"extracts":[{"name":"a","columns":[["c","text"],["n","whole"]]}],"lanes":[[],[]],"sessions":[{"lane":1,"source":"a","filters":[]}]}"#,
        "read",
    ),
    (
        r#"{"form":2,"extracts":[{"name":"a","columns":[["c","text"],["n","whole"]]}],"lanes":[[],[]],"sessions":[{}]}"#,
        "shape /sessions/0/lane",
    ),
    (
        r#"{"form":2,"extracts":[{"name":"a","columns":[["c","text"],["n","whole"]]}],"lanes":[[],[]],"sessions":[{"lane":1}]}"#,
        "shape /sessions/0/source",
    ),
    (
        r#"{"form":2,"extracts":[{"name":"a","columns":[["c","text"],["n","whole"]]}],"lanes":[[],[]],"sessions":[{"lane":1,"source":"a"}]}"#,
        "shape /sessions/0/filters",
    ),
    (
        r#"{"form":2,"extracts":[{"name":"a","columns":[["c","text"],["n","whole"]]}],"lanes":[[],[]],"sessions":[{"lane":1,"source":"a","filters":[]},{"lane":1,"source":"a","filters":[]}]}"#,
        "shape /sessions/1/source",
    ),
    (
        r#"{"form":2,"extracts":[{"name":"a","columns":[["c","text"],["n","whole"]]}],"lanes":[[],[]],"sessions":[{"lane":1,"source":"a","filters":[]},{"lane":2,"source":"a","filters":[]}]}"#,
        "read",
    ),
    (
        r#"{"form":2,"extracts":[{"name":"a","columns":[["c","text"],["n","whole"]]}],"lanes":[[],[]],"sessions":[{"lane":1,"source":"a","filters":[],"a":1}]}"#,
        "shape /sessions/0/a",
    ),
    (
        r#"{"form":2,"extracts":[{"name":"a","columns":[["c","text"],["n","whole"]]}],"lanes":[[],[]],"sessions":[{"lane":1,"source":"x","filters":[]}]}"#,
        "unknown extract /sessions/0/source",
    ),
    (
        r#"{"form":2,"extracts":[{"name":"a","columns":[["c","text"],["n","whole"]]}],"lanes":[[],[]],"sessions":[{"lane":1,"source":"a","filters":[]},{"lane":3,"source":"a","filters":[]}]}"#,
        "unknown lane /sessions/1/lane",
    ),
    (
        r#"{"form":2,"extracts":[{"name":"a","columns":[["c","text"],["n","whole"]]}],"lanes":[[],[]],"sessions":[{"lane":1,"source":"a","filters":[{"column":"c","among":[1,true]}]}]}"#,
        "shape /sessions/0/filters/0/among/1",
    ),
];

// What stands around a repeated text, how often it is repeated, and what is told of the whole.
const COUNTS: [(&str, &str, &str, u32, &str); 20] = [
    (
        r#"{"form":1,"extracts":["#,
        r#"{"name":"e#","columns":[["c","text"]]},"#,
        r#"{"name":"e","columns":[["c","text"]]}],"lanes":[]}"#,
        63,
        "read",
    ),
    (
        r#"{"form":1,"extracts":["#,
        r#"{"name":"e#","columns":[["c","text"]]},"#,
        r#"{"name":"e","columns":[["c","text"]]}],"lanes":[]}"#,
        64,
        "limit Extracts 65",
    ),
    (
        r#"{"form":1,"extracts":[{"name":"e","columns":["#,
        r#"["c#","text"],"#,
        r#"["c","text"]]}],"lanes":[]}"#,
        63,
        "read",
    ),
    (
        r#"{"form":1,"extracts":[{"name":"e","columns":["#,
        r#"["c#","text"],"#,
        r#"["c","text"]]}],"lanes":[]}"#,
        64,
        "limit Columns 65",
    ),
    (
        r#"{"form":1,"extracts":[],"lanes":["#,
        "[],",
        "[]]}",
        63,
        "read",
    ),
    (
        r#"{"form":1,"extracts":[],"lanes":["#,
        "[],",
        "[]]}",
        64,
        "limit Lanes 65",
    ),
    (
        r#"{"form":1,"extracts":[],"lanes":[["#,
        r#"{"batch":[]},"#,
        r#"{"batch":[]}]]}"#,
        4095,
        "read",
    ),
    (
        r#"{"form":1,"extracts":[],"lanes":[["#,
        r#"{"batch":[]},"#,
        r#"{"batch":[]}]]}"#,
        4096,
        "limit Steps 4097",
    ),
    (
        r#"{"form":1,"extracts":[],"lanes":[[{"batch":["#,
        r#"{"source":"z"},"#,
        r#"{"source":"z"}]}]]}"#,
        63,
        "read",
    ),
    (
        r#"{"form":1,"extracts":[],"lanes":[[{"batch":["#,
        r#"{"source":"z"},"#,
        r#"{"source":"z"}]}]]}"#,
        64,
        "limit Zones 65",
    ),
    (
        r#"{"form":2,"extracts":[],"lanes":[[{"batch":["#,
        r#"{"blend":[{"source":"z"},{"source":"z"}]},"#,
        r#"{"source":"z"},{"source":"z"}]}]]}"#,
        31,
        "read",
    ),
    (
        r#"{"form":2,"extracts":[],"lanes":[[{"batch":["#,
        r#"{"blend":[{"source":"z"},{"source":"z"}]},"#,
        r#"{"source":"z"}]}]]}"#,
        32,
        "limit Zones 65",
    ),
    (
        r#"{"form":1,"extracts":[],"lanes":[[]],"faults":[{"lane":1,"dials":["#,
        "1,",
        "1]}]}",
        4095,
        "read",
    ),
    (
        r#"{"form":1,"extracts":[],"lanes":[[]],"faults":[{"lane":1,"dials":["#,
        "1,",
        "1]}]}",
        4096,
        "limit Faults 4097",
    ),
    (
        r#"{"form":1,"extracts":[],"lanes":[[]],"faults":[{"lane":1,"links":["#,
        "0,",
        "0]}]}",
        4096,
        "limit Faults 4097",
    ),
    (
        r#"{"form":2,"extracts":[{"name":"a","columns":[["n","whole"]]}],"lanes":[[]],"sessions":[{"lane":1,"source":"a","filters":[{"column":"n","among":["#,
        "1,",
        "1]}]}]}",
        255,
        "read",
    ),
    (
        r#"{"form":2,"extracts":[{"name":"a","columns":[["n","whole"]]}],"lanes":[[]],"sessions":[{"lane":1,"source":"a","filters":[{"column":"n","among":["#,
        "1,",
        "1]}]}]}",
        256,
        "limit SessionItems 257",
    ),
    (
        r#"{"form":2,"extracts":[{"name":"a","columns":[["n","whole"]]}],"lanes":[[]],"sessions":[{"lane":1,"source":"a","filters":[{"column":"n","among":["#,
        r#""0123456789abcdef0123456789abcdef0","#,
        r#""","0123456789abcdef0123456789abcdef"]}]}]}"#,
        127,
        "read",
    ),
    (
        r#"{"form":2,"extracts":[{"name":"a","columns":[["n","whole"]]}],"lanes":[[]],"sessions":[{"lane":1,"source":"a","filters":[{"column":"n","among":["#,
        r#""0123456789abcdef0123456789abcdef0","#,
        r#""","0123456789abcdef0123456789abcdef",null]}]}]}"#,
        127,
        "limit SessionItems 257",
    ),
    (
        r#"{"form":2,"extracts":[{"name":"a","columns":[["n","whole"]]}],"lanes":[[]],"sessions":[{"lane":1,"source":"a","filters":["#,
        r#"{"column":"n","except":[]},"#,
        r#"{"column":"n","between":[null,1]}]}]}"#,
        256,
        "limit SessionItems 257",
    ),
];

// So many copies of a text, each with its number for the mark.
fn copies(alloc: Global, text: &str, count: u32) -> Result<String, AllocError> {
    let mut all = String::new(alloc);
    for place in 0..count {
        let number = format!(in alloc; "{place}")?;
        let copy = text.replace(alloc, "#", number.as_str())?;
        all.push_str(copy.as_str())?;
    }
    Ok(all)
}

#[test]
fn tells_faults_of_whole_scripts(rt: HostRuntime) -> Result<(), Fail> {
    let alloc = rt.alloc();
    for (script, told) in WHOLE {
        assert!(rt; tells(alloc, script.as_bytes(), told)?, "{script}");
    }
    Ok(())
}

#[test]
fn tells_faults_of_extracts_and_faults(rt: HostRuntime) -> Result<(), Fail> {
    let alloc = rt.alloc();
    for (script, told) in PARTS {
        assert!(rt; tells(alloc, script.as_bytes(), told)?, "{script}");
    }
    Ok(())
}

#[test]
fn tells_faults_of_steps(rt: HostRuntime) -> Result<(), Fail> {
    let alloc = rt.alloc();
    for (script, told) in STEPS {
        assert!(rt; tells(alloc, script.as_bytes(), told)?, "{script}");
    }
    Ok(())
}

#[test]
fn tells_faults_of_zones(rt: HostRuntime) -> Result<(), Fail> {
    let alloc = rt.alloc();
    for (script, told) in ZONES {
        assert!(rt; tells(alloc, script.as_bytes(), told)?, "{script}");
    }
    Ok(())
}

#[test]
fn tells_faults_of_blends(rt: HostRuntime) -> Result<(), Fail> {
    let alloc = rt.alloc();
    for (script, told) in PAIRS {
        assert!(rt; tells(alloc, script.as_bytes(), told)?, "{script}");
    }
    Ok(())
}

#[test]
fn tells_faults_of_sessions(rt: HostRuntime) -> Result<(), Fail> {
    let alloc = rt.alloc();
    for (script, told) in SESSIONS {
        assert!(rt; tells(alloc, script.as_bytes(), told)?, "{script}");
    }
    Ok(())
}

#[test]
fn refuses_what_is_no_json(rt: HostRuntime) -> Result<(), Fail> {
    let alloc = rt.alloc();
    assert!(rt; tells(alloc, &[b'['; 200], "not json")?);
    assert!(rt; tells(alloc, &[b'"', 255, b'"'], "not json")?);
    Ok(())
}

#[test]
fn tests_each_limit(rt: HostRuntime) -> Result<(), Fail> {
    let alloc = rt.alloc();
    for (start, text, end, count, told) in COUNTS {
        let more = copies(alloc, text, count)?;
        let script = format!(in alloc; "{start}{}{end}", more.as_str())?;
        assert!(rt; tells(alloc, script.as_bytes(), told)?, "{count} of {text}");
    }
    Ok(())
}

// Whether the first step appends a file to the second extract.
fn appends(script: &Script) -> bool {
    let Some(steps) = script.lanes.get(0) else {
        return false;
    };
    match steps.get(0) {
        Some(Step::Publish { source, how, file }) => {
            *source == 1 && *how == How::Append && file.bytes() == b"b.csv".as_slice()
        }
        _ => false,
    }
}

// A zone of the second step.
fn zone(script: &Script, place: u64) -> Option<&Query> {
    match script.lanes.get(0)?.get(1)? {
        Step::Publish { .. } => None,
        Step::Batch(zones) => zones.get(place),
    }
}

fn is_dim(query: &Query, place: u64, column: u32, width: u32) -> bool {
    match query.dims.get(place) {
        Some(dim) => dim.column() == column && dim.width() == width,
        None => false,
    }
}

fn is_among(filter: &Predicate) -> bool {
    match &filter.test {
        Test::Among(values) => values.len() == 3 && filter.column == 0,
        _ => false,
    }
}

fn is_except(filter: &Predicate) -> bool {
    match &filter.test {
        Test::Except(values) => values.len() == 0 && filter.column == 1,
        _ => false,
    }
}

fn is_between(filter: &Predicate, column: u32, low: Option<i64>, high: Option<i64>) -> bool {
    match &filter.test {
        Test::Between(from, to) => *from == low && *to == high && filter.column == column,
        _ => false,
    }
}

fn has_lists(query: &Query) -> bool {
    let (Some(among), Some(except)) = (query.filters.get(0), query.filters.get(1)) else {
        return false;
    };
    is_among(among) && is_except(except)
}

fn has_ranges(query: &Query) -> bool {
    let (Some(up_to), Some(from)) = (query.filters.get(2), query.filters.get(3)) else {
        return false;
    };
    is_between(up_to, 1, None, Some(9)) && is_between(from, 2, Some(-5), None)
}

fn has_measures(query: &Query) -> bool {
    query.measures.as_slice()
        == [
            Measure::Rows,
            Measure::Count(0),
            Measure::Sum(1),
            Measure::Min(1),
            Measure::Max(0),
            Measure::Distinct(0),
            Measure::Avg(1),
        ]
        .as_slice()
}

fn has_order(query: &Query) -> bool {
    let first = OrderKey {
        place: 0,
        down: false,
    };
    let last = OrderKey {
        place: 4294967295,
        down: true,
    };
    query.order.as_slice() == [first, last].as_slice() && query.top == Some(0)
}

// Whether a zone's source is unknown, and its columns are 0.
fn is_unknown(query: &Query) -> bool {
    query.source == 2
        && is_dim(query, 0, 0, 1)
        && query.measures.as_slice() == [Measure::Sum(0)].as_slice()
        && query.top.is_none()
}

fn fails(script: &Script, lane: u64, dials: &[u64], links: &[u64]) -> bool {
    match script.fails.get(lane) {
        Some(fails) => fails.dials.as_slice() == dials && fails.links.as_slice() == links,
        None => false,
    }
}

fn is_first_read(script: &Script) -> bool {
    match zone(script, 0) {
        Some(query) => {
            has_lists(query) && has_ranges(query) && has_measures(query) && has_order(query)
        }
        None => false,
    }
}

fn is_grouped(script: &Script) -> bool {
    match zone(script, 0) {
        Some(query) => {
            is_dim(query, 0, 1, 5) && is_dim(query, 1, 0, 1) && is_dim(query, 2, 2, 1)
        }
        None => false,
    }
}

fn is_second_read(script: &Script) -> bool {
    match zone(script, 1) {
        Some(query) => is_unknown(query),
        None => false,
    }
}

fn has_sizes(script: &Script) -> bool {
    script.literal == Bound::Entries(7)
        && script.clever == Bound::Entries(4096)
        && script.names.len() == 2
        && script.lanes.len() == 2
        && script.blends.len() == 0
        && script.sessions.len() == 0
}

#[test]
fn reads_the_first_form(rt: HostRuntime) -> Result<(), Fail> {
    let alloc = rt.alloc();
    let script = read(alloc, FIRST.as_bytes())?;
    assert!(rt; is_first_read(&script));
    assert!(rt; is_grouped(&script));
    assert!(rt; is_second_read(&script));
    assert!(rt; appends(&script));
    assert!(rt; has_sizes(&script));
    assert!(rt; script.schedule.as_slice() == [2, 1, 1].as_slice());
    assert!(rt; fails(&script, 0, &[], &[]));
    assert!(rt; fails(&script, 1, &[1], &[0, 3]));
    Ok(())
}

// Whether a blend stands in the script so.
fn is_blend(script: &Script, place: u64, step: u32, zone: u32, links: &[u32]) -> bool {
    match script.blends.get(place) {
        Some(blend) => {
            blend.lane == 2
                && blend.step == step
                && blend.zone == zone
                && blend.links.as_slice() == links
        }
        None => false,
    }
}

// Whether a session stands in the script so, with the filter on the second column.
fn is_session(script: &Script, place: u64, lane: u32) -> bool {
    let Some(session) = script.sessions.get(place) else {
        return false;
    };
    match session.filters.get(0) {
        Some(filter) => {
            session.lane == lane && session.source == 0 && is_between(filter, 1, Some(1), None)
        }
        None => false,
    }
}

#[test]
fn reads_the_second_form(rt: HostRuntime) -> Result<(), Fail> {
    let alloc = rt.alloc();
    let script = read(alloc, SECOND.as_bytes())?;
    assert!(rt; script.literal == Bound::Cells(1048576));
    assert!(rt; script.clever == Bound::Cells(9));
    assert!(rt; is_blend(&script, 0, 1, 2, &[2, 1]));
    assert!(rt; is_blend(&script, 1, 2, 1, &[]));
    assert!(rt; is_blend(&script, 2, 2, 3, &[1]));
    assert!(rt; script.blends.len() == 3);
    assert!(rt; is_session(&script, 0, 2));
    assert!(rt; is_session(&script, 1, 1));
    Ok(())
}

// What a fault says of itself.
fn said(alloc: Global, fault: ScriptFault) -> Result<String, AllocError> {
    format!(in alloc; "{fault}")
}

#[test]
fn says_each_fault_in_words(rt: HostRuntime) -> Result<(), Fail> {
    let alloc = rt.alloc();
    let shape = ScriptFault::Shape(Text::new(alloc));
    let extract = ScriptFault::UnknownExtract(Text::new(alloc));
    let lane = ScriptFault::UnknownLane(Text::new(alloc));
    let limit = ScriptFault::Limit(Limit::Zones, 65);
    assert_eq!(rt; said(alloc, ScriptFault::NotJson)?.as_str(), "not json");
    assert_eq!(rt; said(alloc, shape)?.as_str(), "shape");
    assert_eq!(rt; said(alloc, limit)?.as_str(), "limit");
    assert_eq!(rt; said(alloc, extract)?.as_str(), "unknown extract");
    assert_eq!(rt; said(alloc, lane)?.as_str(), "unknown lane");
    assert_eq!(rt; said(alloc, ScriptFault::Memory)?.as_str(), "out of memory");
    Ok(())
}
