//! Rows of lines and what they ask for, or their faults.
use crate::tests::compare::same;
use span_script::{Stage, Stop, is_setup, json_value, operation};
use std::alloc::{AllocError, Global};
use std::process::Abort;

/// What a line asks for where there are four workers, or the reason of its fault, as text.
pub(crate) fn read(alloc: Global, line: &[u8], stage: Stage) -> Result<String, AllocError> {
    let value = match json_value(alloc, line) {
        Ok(value) => value,
        Err(stop) => return told(alloc, stop),
    };
    match operation(alloc, &value, 4, stage) {
        Ok(operation) => format!(in alloc; "{operation:?}"),
        Err(stop) => told(alloc, stop),
    }
}

/// Why a line has no answer, as text.
pub(crate) fn told(alloc: Global, stop: Stop) -> Result<String, AllocError> {
    match stop {
        Stop::Memory => Err(AllocError),
        Stop::Refused(reason) => reason.to_string(alloc),
    }
}

/// A line, and what it asks for or the reason of its fault.
type Row = (&'static str, &'static str);

/// Whether a line asks for this at a stage.
fn asks(rt: &impl Abort, alloc: Global, stage: Stage, line: &str, wanted: &str) {
    let asked = read(alloc, line.as_bytes(), stage).expect(rt, "memory");
    same(rt, asked.as_str(), wanted, line);
}

/// Reads each line at each stage and compares what it asks for.
fn compare(rt: &impl Abort, alloc: Global, stages: &[Stage], rows: &[Row]) {
    for stage in stages {
        for (line, wanted) in rows {
            asks(rt, alloc, *stage, line, wanted);
        }
    }
}

/// Lines that name a layer.
const LAYERS: [Row; 4] = [
    (
        "{\"op\":\"layer\"}",
        "Layer(NewLayer { style: Style { form: Compact, spans: FmtSpan(15) }, \
         rule: Rule { pairs: [(\"\", Trace)] } })",
    ),
    (
        "{\"op\":\"layer\",\"form\":\"compact\",\"spans\":0,\"rule\":[],\"w\":null}",
        "Layer(NewLayer { style: Style { form: Compact, spans: FmtSpan(0) }, rule: Rule { pairs: [] } })",
    ),
    (
        "{\"op\":\"layer\",\"form\":\"json\",\"spans\":15,\"rule\":[[\"a\",\"WARN\"],[\"\",\"ERROR\"],\
         [\"a::b\",\"INFO\"],[\"a\",\"DEBUG\"]],\"w\":4}",
        "Layer(NewLayer { style: Style { form: Json, spans: FmtSpan(15) }, \
         rule: Rule { pairs: [(\"a\", Warn), (\"\", Error), (\"a::b\", Info), (\"a\", Debug)] } })",
    ),
    (
        "{\"op\":\"limits\",\"spans\":16,\"op\":\"layer\",\"spans\":7,\"spans\":4,\"form\":7,\"form\":\"json\"}",
        "Layer(NewLayer { style: Style { form: Json, spans: FmtSpan(4) }, \
         rule: Rule { pairs: [(\"\", Trace)] } })",
    ),
];

/// Lines that write fields to a span.
const RECORDS: [Row; 3] = [
    (
        "{\"op\":\"record\",\"span\":\"a\"}",
        "Record { span: Label(\"a\"), fields: [], worker: 0 }",
    ),
    (
        "{\"op\":\"record\",\"span\":1,\"fields\":[[\"k\",\"v\"],[\"\",\"\"],[\"k\",\"w\"]],\"w\":3}",
        "Record { span: Id(Id { number: 1 }), fields: [Field { key: \"k\", value: \"v\" }, \
         Field { key: \"\", value: \"\" }, Field { key: \"k\", value: \"w\" }], worker: 3 }",
    ),
    (
        "{\"op\":\"record\",\"span\":null,\"span\":\"\",\"fields\":[],\"w\":9,\"w\":1}",
        "Record { span: Label(\"\"), fields: [], worker: 1 }",
    ),
];

/// Lines that tell an event.
const EVENTS: [Row; 3] = [
    (
        "{\"op\":\"event\",\"message\":\"\"}",
        "Event(NewEvent { meta: Meta { name: \"event\", target: \"app\", level: Info }, \
         message: \"\", fields: [], worker: 0 })",
    ),
    (
        "{\"op\":\"event\",\"w\":2,\"fields\":[[\"k\",\"v\"]],\"level\":\"TRACE\",\
         \"target\":\"a::b\",\"message\":\"x\\ny\",\"name\":7}",
        "Event(NewEvent { meta: Meta { name: \"event\", target: \"a::b\", level: Trace }, \
         message: \"x\\ny\", fields: [Field { key: \"k\", value: \"v\" }], worker: 2 })",
    ),
    (
        "{\"op\":\"event\",\"message\":\"m\",\"level\":\"info\",\"level\":\"ERROR\",\"target\":\"\"}",
        "Event(NewEvent { meta: Meta { name: \"event\", target: \"\", level: Error }, \
         message: \"m\", fields: [], worker: 0 })",
    ),
];

/// Lines at fault in the setup.
const LATE_IN_SETUP: [Row; 5] = [
    ("{\"op\":\"limits\"}", "late line"),
    ("{\"op\":\"limits\",\"slots\":null}", "late line"),
    ("{\"op\":\"layers\"}", "no such op"),
    ("{\"op\":\"layer\",\"form\":7}", "bad key form"),
    ("{\"op\":\"close\",\"span\":1,\"w\":4}", "bad key w"),
];

/// Lines at fault when the script runs.
const LATE_WHEN_RUNNING: [Row; 6] = [
    ("{\"op\":\"limits\"}", "late line"),
    ("{\"op\":\"layer\"}", "late line"),
    ("{\"op\":\"layer\",\"form\":7}", "late line"),
    ("{\"op\":\"layer\",\"op\":\"layers\"}", "no such op"),
    ("[{\"op\":\"layer\"}]", "not an object"),
    ("{\"op\":\"layer\"", "not JSON"),
];

/// The stages at which lines are read, and the lines; those of the last two tables are at fault there.
static READ: [(&[Stage], &[Row]); 5] = [
    (&[Stage::AtStart, Stage::InSetup], &LAYERS),
    (&[Stage::AtStart, Stage::Running], &RECORDS),
    (&[Stage::AtStart, Stage::Running], &EVENTS),
    (&[Stage::InSetup], &LATE_IN_SETUP),
    (&[Stage::Running], &LATE_WHEN_RUNNING),
];

#[test]
fn reads_lines_and_tells_late_ones(rt: HostRuntime) {
    for (stages, rows) in &READ {
        compare(&rt, rt.alloc(), stages, rows);
    }
}

/// The key at fault and the keys of a line, of each row.
const LAYER_KEYS: &str = r#"
    form="form":null
    form="form":"JSON"
    form="form":""
    form="form":0
    spans="spans":null
    spans="spans":16
    spans="spans":-0
    spans="spans":1.0
    spans="spans":"1"
    spans="spans":256
    spans="spans":18446744073709551616
    rule="rule":null
    rule="rule":{}
    rule="rule":[null]
    rule="rule":["a","WARN"]
    rule="rule":[["a"]]
    rule="rule":[["a","WARN","WARN"]]
    rule="rule":[["a","warn"]]
    rule="rule":[["a",null]]
    rule="rule":[[1,"WARN"]]
    rule="rule":[["","WARN"],[]]
    form="rule":7,"spans":7,"form":7
    spans="rule":7,"spans":16
    rule="spans":16,"spans":15,"rule":[],"rule":7
"#;

const RECORD_KEYS: &str = r#"
    span="name":"a"
    span="span":null
    span="span":0
    span="span":72057594037927937
    span="span":[1]
    fields="span":"a","fields":null
    fields="span":"a","fields":"k"
    fields="span":"a","fields":["k","v"]
    fields="span":"a","fields":[["k",1]]
    fields="span":"a","fields":[["k","v","w"]]
    w="span":"a","w":null
    w="span":"a","w":4
    w="span":"a","w":"0"
    span="w":4,"fields":7
    fields="span":"a","w":4,"fields":7
"#;

const EVENT_KEYS: &str = r#"
    message="name":"a"
    message="message":null
    message="message":1
    target="message":"m","target":null
    target="message":"m","target":[]
    level="message":"m","level":null
    level="message":"m","level":"info"
    level="message":"m","level":2
    fields="message":"m","fields":null
    fields="message":"m","fields":[[]]
    w="message":"m","w":null
    w="message":"m","w":1e0
    w="message":"m","w":4
    message="w":4,"fields":7,"level":7,"target":7
    target="message":"m","w":4,"fields":7,"level":7,"target":7
    level="message":"m","w":4,"fields":7,"level":7
    fields="message":"m","w":4,"fields":7
"#;

#[test]
fn tells_bad_keys(rt: HostRuntime) {
    for (op, rows) in [
        ("layer", LAYER_KEYS),
        ("record", RECORD_KEYS),
        ("event", EVENT_KEYS),
    ] {
        compare_keys(&rt, rt.alloc(), op, rows);
    }
}

/// Reads a line of this op with the keys of each row and compares which key is at fault.
fn compare_keys(rt: &impl Abort, alloc: Global, op: &str, rows: &str) {
    for row in rows.split_whitespace() {
        let (key, keys) = row.split_once('=').expect(rt, "a row");
        has_bad_key(rt, alloc, op, keys, key);
    }
}

fn has_bad_key(rt: &impl Abort, alloc: Global, op: &str, keys: &str, key: &str) {
    let line = format!(in alloc; "{{\"op\":\"{op}\",{keys}}}").expect(rt, "memory");
    let wanted = format!(in alloc; "bad key {key}").expect(rt, "memory");
    asks(rt, alloc, Stage::AtStart, line.as_str(), wanted.as_str());
}

/// A line, and whether it belongs to the setup.
static SETUP_LINES: [(&str, bool); 10] = [
    ("{\"op\":\"limits\",\"slots\":null}", true),
    ("{\"op\":\"layer\",\"form\":null}", true),
    ("{\"op\":\"new\",\"op\":\"layer\"}", true),
    ("{\"op\":\"layer\",\"op\":\"new\"}", false),
    ("{\"op\":\"event\"}", false),
    ("{\"op\":\"find\"}", false),
    ("{\"op\":\"Layer\"}", false),
    ("{\"op\":[\"layer\"]}", false),
    ("{}", false),
    ("\"layer\"", false),
];

#[test]
fn knows_the_lines_of_the_setup(rt: HostRuntime) {
    for (line, wanted) in &SETUP_LINES {
        is_of_setup(&rt, rt.alloc(), line, *wanted);
    }
}

fn is_of_setup(rt: &impl Abort, alloc: Global, line: &str, wanted: bool) {
    let value = json_value(alloc, line.as_bytes()).ok().expect(rt, "JSON");
    same(rt, is_setup(&value), wanted, line);
}
