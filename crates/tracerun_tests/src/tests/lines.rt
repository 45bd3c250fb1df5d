//! Lines over their own text: what they ask for, beside what the same lines ask for with copies of their texts.
use crate::tests::compare::same;
use crate::tests::script::{read, told};
use span_json::Scratch;
use span_script::{
    Stage, is_setup, is_setup_line, json_line, json_value, op_in, op_in_line, operation_in_line,
};
use std::alloc::{AllocError, Global};
use std::process::Abort;

/// The same as `read`, over the line's own text.
fn read_over_text(
    alloc: Global,
    line: &[u8],
    scratch: &mut Scratch,
    stage: Stage,
) -> Result<String, AllocError> {
    let value = match json_line(alloc, line, scratch) {
        Ok(value) => value,
        Err(stop) => return told(alloc, stop),
    };
    match operation_in_line(alloc, &value, 4, stage) {
        Ok(operation) => format!(in alloc; "{operation:?}"),
        Err(stop) => told(alloc, stop),
    }
}

/// A line's op and whether it belongs to the setup, or the reason of its fault, as text.
fn op(alloc: Global, line: &[u8]) -> Result<String, AllocError> {
    match json_value(alloc, line) {
        Ok(value) => {
            let op = op_in(&value);
            let sets_up = is_setup(&value);
            format!(in alloc; "{op:?} {sets_up}")
        }
        Err(stop) => told(alloc, stop),
    }
}

/// The same over the line's own text.
fn op_over_text(alloc: Global, line: &[u8], scratch: &mut Scratch) -> Result<String, AllocError> {
    match json_line(alloc, line, scratch) {
        Ok(value) => {
            let op = op_in_line(&value);
            let sets_up = is_setup_line(&value);
            format!(in alloc; "{op:?} {sets_up}")
        }
        Err(stop) => told(alloc, stop),
    }
}

/// Whether a line asks for the same at a stage.
fn asks_the_same(
    rt: &impl Abort,
    alloc: Global,
    line: &[u8],
    scratch: &mut Scratch,
    stage: Stage,
    number: usize,
) {
    let asked = read_over_text(alloc, line, scratch, stage).expect(rt, "memory");
    let wanted = read(alloc, line, stage).expect(rt, "memory");
    same(rt, asked.as_str(), wanted.as_str(), number);
}

/// Whether a line's op is the same.
pub(crate) fn has_the_same_op(
    rt: &impl Abort,
    alloc: Global,
    line: &[u8],
    scratch: &mut Scratch,
    number: usize,
) {
    let given = op_over_text(alloc, line, scratch).expect(rt, "memory");
    let wanted = op(alloc, line).expect(rt, "memory");
    same(rt, given.as_str(), wanted.as_str(), number);
}

/// Whether a line is the same over its own text, whatever the scratch was used for before; `number` tells the line.
pub(crate) fn is_the_same(
    rt: &impl Abort,
    alloc: Global,
    line: &[u8],
    scratch: &mut Scratch,
    number: usize,
) {
    has_the_same_op(rt, alloc, line, scratch, number);
    for stage in [Stage::AtStart, Stage::InSetup, Stage::Running] {
        asks_the_same(rt, alloc, line, scratch, stage, number);
    }
}

/// Lines of all ops, keys and types, and lines that are no JSON.
static LINES: [&str; 121] = [
    "{\"op\":\"limits\"}",
    "{\"op\":\"limits\",\"slots\":1,\"last_generation\":0,\"max_count\":4294967295,\"workers\":4,\"ring\":7}",
    "{\"op\":\"limits\",\"slots\":4294967296}",
    "{\"op\":\"limits\",\"slots\":-1}",
    "{\"op\":\"limits\",\"workers\":1.0}",
    "{\"op\":\"limits\",\"max_count\":\"1\"}",
    "{\"op\":\"limits\",\"last_generation\":18446744073709551616}",
    "{\"op\":\"layer\"}",
    "{\"op\":\"layer\",\"form\":\"json\",\"spans\":5,\"rule\":[[\"a::b\",\"WARN\"],[\"\",\"ERROR\"]]}",
    "{\"op\":\"layer\",\"form\":\"Json\"}",
    "{\"op\":\"layer\",\"form\":null}",
    "{\"op\":\"layer\",\"spans\":16}",
    "{\"op\":\"layer\",\"spans\":15.0}",
    "{\"op\":\"layer\",\"rule\":[]}",
    "{\"op\":\"layer\",\"rule\":[[\"a\",\"warn\"]]}",
    "{\"op\":\"layer\",\"rule\":[[\"a\",\"WARN\",\"b\"]]}",
    "{\"op\":\"layer\",\"rule\":[[\"a\"]]}",
    "{\"op\":\"layer\",\"rule\":[\"a\",\"WARN\"]}",
    "{\"op\":\"layer\",\"rule\":{\"a\":\"WARN\"}}",
    "{\"op\":\"new\",\"name\":\"a\"}",
    "{\"op\":\"new\",\"name\":\"a\",\"target\":\"t\",\"level\":\"TRACE\",\"parent\":\"p\",\"fields\":[[\"k\",\"v\"]],\"label\":\"l\",\"w\":3}",
    "{\"op\":\"new\",\"name\":\"a\",\"parent\":null}",
    "{\"op\":\"new\",\"name\":\"a\",\"parent\":72057594037927936}",
    "{\"op\":\"new\",\"name\":\"a\",\"parent\":72057594037927937}",
    "{\"op\":\"new\",\"name\":\"a\",\"parent\":0}",
    "{\"op\":\"new\",\"name\":\"a\",\"parent\":[1]}",
    "{\"op\":\"new\",\"name\":\"\",\"label\":\"\",\"target\":\"\"}",
    "{\"op\":\"new\",\"name\":null}",
    "{\"op\":\"new\"}",
    "{\"op\":\"new\",\"name\":\"a\",\"target\":1}",
    "{\"op\":\"new\",\"name\":\"a\",\"level\":\"info\"}",
    "{\"op\":\"new\",\"name\":\"a\",\"label\":7}",
    "{\"op\":\"new\",\"name\":\"a\",\"fields\":[]}",
    "{\"op\":\"new\",\"name\":\"a\",\"fields\":[[\"k\",\"v\"],[\"k\",\"w\"],[\"\",\"\"]]}",
    "{\"op\":\"new\",\"name\":\"a\",\"fields\":[[\"k\",\"v\"],[\"k\"]]}",
    "{\"op\":\"new\",\"name\":\"a\",\"fields\":[[\"k\",1]]}",
    "{\"op\":\"new\",\"name\":\"a\",\"fields\":[[1,\"v\"]]}",
    "{\"op\":\"new\",\"name\":\"a\",\"fields\":[[\"k\",\"v\",[]]]}",
    "{\"op\":\"new\",\"name\":\"a\",\"fields\":\"k\"}",
    "{\"op\":\"new\",\"name\":\"a\",\"w\":4}",
    "{\"op\":\"new\",\"name\":\"a\",\"w\":-0}",
    "{\"op\":\"new\",\"name\":\"a\",\"w\":1e0}",
    "{\"op\":\"new\",\"name\":\"a\",\"w\":01}",
    "{\"op\":\"new\",\"name\":\"a\",\"w\":+1}",
    "{\"op\":\"new\",\"name\":\"a\",\"old\":1e400}",
    "{\"op\":\"new\",\"name\":\"a\",\"old\":-1e400,\"name\":\"b\"}",
    "{\"op\":\"new\",\"name\":\"\\u0061\\n\\\"\\\\\\/\\t\\u20ac\\ud83d\\ude00\",\"label\":\"é€\"}",
    "{\"op\":\"new\",\"name\":\"\\ud83d\"}",
    "{\"op\":\"new\",\"n\\u0061me\":\"a\",\"\\u0077\":2}",
    "{\"op\":\"new\",\"name\":\"a\",\"name\":\"b\",\"name\":1}",
    "{\"op\":\"layer\",\"name\":\"a\",\"op\":\"new\",\"w\":9,\"w\":1}",
    "{\"op\":\"clone\",\"span\":\"a\"}",
    "{\"op\":\"close\",\"span\":1,\"w\":2}",
    "{\"op\":\"enter\",\"span\":\"\"}",
    "{\"op\":\"exit\",\"span\":16777217}",
    "{\"op\":\"exit\",\"span\":1.5}",
    "{\"op\":\"exit\",\"span\":null,\"w\":9}",
    "{\"op\":\"clone\"}",
    "{\"op\":\"record\",\"span\":\"a\",\"fields\":[[\"k\",\"\\u0000\\u001f\"]]}",
    "{\"op\":\"record\",\"span\":\"a\",\"fields\":null}",
    "{\"op\":\"record\",\"fields\":[[\"k\",\"v\"]]}",
    "{\"op\":\"event\",\"message\":\"\"}",
    "{\"op\":\"event\",\"message\":\"m\",\"target\":\"t\",\"level\":\"ERROR\",\"fields\":[[\"k\",\"v\"]],\"w\":1}",
    "{\"op\":\"event\",\"message\":[\"m\"]}",
    "{\"op\":\"event\",\"level\":\"x\",\"message\":\"m\",\"w\":7}",
    "{\"op\":\"find\",\"span\":\"a\"}",
    "{\"op\":\"find\",\"span\":9}",
    "{\"op\":\"find\",\"old\":65537}",
    "{\"op\":\"find\",\"old\":4294967296}",
    "{\"op\":\"find\",\"old\":4294967297}",
    "{\"op\":\"find\",\"old\":null}",
    "{\"op\":\"find\",\"span\":1,\"old\":1}",
    "{\"op\":\"find\",\"span\":null,\"old\":1}",
    "{\"op\":\"find\"}",
    "{\"op\":\"jump\"}",
    "{\"op\":\"\"}",
    "{\"op\":[\"new\"]}",
    "{\"OP\":\"new\"}",
    "{\"op\":\"new\",\"name\":\"a\"} x",
    "{\"op\":\"new\",\"name\":\"a\"}{}",
    "{\"op\":\"new\",\"name\":\"a\",}",
    "{\"op\":\"new\" \"name\":\"a\"}",
    "{\"op\":\"new\",\"name\":\"a",
    "{'op':'new'}",
    " \t{ \"op\" : \"find\" , \"span\" : \"a\" } ",
    "{}",
    "[]",
    "[{\"op\":\"new\",\"name\":\"a\"}]",
    "\"new\"",
    "null",
    "true",
    "1e400",
    "-1",
    "18446744073709551615",
    "{\"op\":\"find\",\"span\":\"a\",\"x\":[[],{},[[{\"y\":[null,true,false,-1.5e-7]}]]]}",
    "{\"op\":\"find\",\"span\":\"a\",\"x\":[1e400]}",
    "{\"op\":\"find\",\"span\":\"a\",\"x\":{\"y\":{\"z\":-1e309}}}",
    "\t{\"op\" : \"clone\" ,\r\"span\":\t1 , \"w\" : 2\r}\r",
    "{\"op\":\"clone\",\"span\":1\u{c}}",
    "{\"op\":\"clone\",\"span\":1\u{b}}",
    "{\"op\":\"clone\",\"span\":1\u{a0}}",
    "{\"op\":\"new\",\"name\":\"a\",\"fields\":[[\"k\",\"v\"],]}",
    "{\"op\":\"new\",\"name\":\"a\",\"fields\":[,[\"k\",\"v\"]]}",
    "{\"op\":\"new\",\"name\":\"a\",\"fields\":[[\"k\" \"v\"]]}",
    "{\"op\":\"new\",\"name\":\"a\",\"x\":[\"k\":1]}",
    "{\"op\":\"new\",\"name\":\"a\",\"x\":{\"k\",1}}",
    "{\"op\":\"new\",\"name\":\"a\",\"x\":{\"k\":1:2}}",
    "{\"op\":\"new\",\"name\":\"a\",\"x\":{1:2}}",
    "{\"op\":\"new\",\"name\":\"a\",\"parent\":nullx}",
    "{\"op\":\"new\",\"name\":\"a\",\"parent\":nul}",
    "{\"op\":\"new\",\"name\":\"a\",\"parent\":null , \"x\":[null]}",
    "{\"op\":\"find\",\"span\":1,\"x\":[-,1]}",
    "{\"op\":\"find\",\"span\":1,\"x\":[1.,.5]}",
    "{\"op\":\"find\",\"span\":1,\"x\":[1-2]}",
    "{\"op\":\"find\",\"span\":1,\"x\":[1.5e+3,-0,-7,0.25]}",
    "{\"op\":\"find\",\"span\":00}",
    "{\"op\":\"find\",\"span\":1é}",
    "{\"op\":\"find\",\"span\":18446744073709551615}",
    "{\"op\":\"find\",\"span\":18446744073709551616}",
    "{\"op\":\"find\",\"span\":\"a\"",
    "{\"op\":\"find\",\"span\":\"a\"}}",
];

#[test]
fn a_line_asks_for_the_same_over_its_own_text(rt: HostRuntime) {
    let mut scratch = Scratch::new(rt.alloc());
    for (number, line) in LINES.iter().enumerate() {
        is_the_same(&rt, rt.alloc(), line.as_bytes(), &mut scratch, number);
    }
}

/// A line, and what it asks for or the reason of its fault.
type Row = (&'static str, &'static str);

/// Lines of 9 members. The reader has room for 8 at first.
static OF_NINE: [Row; 6] = [
    (
        "{\"op\":\"new\",\"name\":\"n\",\"target\":\"t\",\"level\":\"WARN\",\"w\":2,\
         \"a\":0,\"b\":[[]],\"c\":{\"name\":\"x\"},\"d\":null}",
        "New(NewSpan { meta: Meta { name: \"n\", target: \"t\", level: Warn }, fields: [], \
         parent: Current, label: \"n\", worker: 2 })",
    ),
    (
        "{\"a\":0,\"b\":[[\"k\",\"v\"]],\"c\":{\"op\":\"find\"},\"d\":null,\"e\":true,\
         \"w\":3,\"fields\":[[\"k\",\"v\"]],\"span\":\"s\",\"op\":\"record\"}",
        "Record { span: Label(\"s\"), fields: [Field { key: \"k\", value: \"v\" }], worker: 3 }",
    ),
    (
        "{\"op\":\"close\",\"span\":\"s\",\"w\":1,\"a\":0,\"b\":0,\"c\":0,\"d\":0,\"e\":0,\"span\":7}",
        "OnSpan { call: Close, span: Id(Id { number: 7 }), worker: 1 }",
    ),
    (
        "{\"op\":\"event\",\"message\":\"m\",\"a\":0,\"b\":0,\"c\":0,\"d\":0,\"e\":0,\"f\":0,\"w\":4}",
        "bad key w",
    ),
    (
        "{\"op\":\"event\",\"message\":\"m\",\"a\":0,\"b\":0,\"c\":0,\"d\":0,\"e\":0,\"f\":0,\"message\":1}",
        "bad key message",
    ),
    (
        "{\"op\":\"find\",\"span\":1,\"a\":0,\"b\":0,\"c\":0,\"d\":0,\"e\":0,\"f\":0,\"g\":}",
        "not JSON",
    ),
];

/// Lines of 20 members.
static OF_TWENTY: [Row; 6] = [
    (
        "{\"op\":\"event\",\"message\":\"m\",\"target\":\"t\",\"level\":\"DEBUG\",\"fields\":[[\"k\",\"v\"]],\"w\":3,\
         \"a\":0,\"b\":0,\"c\":0,\"d\":0,\"e\":0,\"f\":0,\"g\":0,\"h\":0,\"i\":0,\"j\":0,\"k\":0,\"l\":0,\"m\":0,\
         \"n\":{\"a\":0,\"b\":0,\"c\":0,\"d\":0,\"e\":0,\"f\":0,\"g\":0,\"h\":0,\"w\":4}}",
        "Event(NewEvent { meta: Meta { name: \"event\", target: \"t\", level: Debug }, \
         message: \"m\", fields: [Field { key: \"k\", value: \"v\" }], worker: 3 })",
    ),
    (
        "{\"a\":0,\"b\":0,\"c\":0,\"d\":0,\"e\":0,\"f\":0,\"g\":0,\"h\":0,\"i\":0,\"j\":0,\"k\":0,\"l\":0,\"m\":0,\"n\":0,\
         \"o\":0,\"w\":1,\"label\":\"l\",\"parent\":null,\"name\":\"n\",\"op\":\"new\"}",
        "New(NewSpan { meta: Meta { name: \"n\", target: \"app\", level: Info }, fields: [], \
         parent: Root, label: \"l\", worker: 1 })",
    ),
    (
        "{\"op\":\"limits\",\"spans\":3,\"a\":0,\"b\":0,\"c\":0,\"d\":0,\"e\":0,\"f\":0,\"g\":0,\"h\":0,\"i\":0,\"j\":0,\
         \"k\":0,\"l\":0,\"m\":0,\"n\":0,\"o\":0,\"form\":\"json\",\"spans\":4,\"op\":\"layer\"}",
        "Layer(NewLayer { style: Style { form: Json, spans: FmtSpan(4) }, \
         rule: Rule { pairs: [(\"\", Trace)] } })",
    ),
    (
        "{\"op\":\"new\",\"a\":0,\"b\":0,\"c\":0,\"d\":0,\"e\":0,\"f\":0,\"g\":0,\"h\":0,\"i\":0,\"j\":0,\"k\":0,\"l\":0,\
         \"m\":0,\"n\":0,\"o\":0,\"p\":0,\"q\":0,\"r\":0,\"s\":{\"name\":\"n\"}}",
        "bad key name",
    ),
    (
        "{\"op\":\"limits\",\"slots\":1,\"a\":0,\"b\":0,\"c\":0,\"d\":0,\"e\":0,\"f\":0,\"g\":0,\"h\":0,\"i\":0,\"j\":0,\
         \"k\":0,\"l\":0,\"m\":0,\"n\":0,\"o\":0,\"p\":0,\"q\":0,\"workers\":\"4\"}",
        "bad key workers",
    ),
    (
        "{\"op\":\"find\",\"span\":\"s\",\"a\":0,\"b\":0,\"c\":0,\"d\":0,\"e\":0,\"f\":0,\"g\":0,\"h\":0,\"i\":0,\"j\":0,\
         \"k\":0,\"l\":0,\"m\":0,\"n\":0,\"o\":0,\"p\":0,\"q\":0,\"op\":\"jump\"}",
        "no such op",
    ),
];

/// Whether a line asks for what its row says, however it is read.
fn asks(rt: &impl Abort, alloc: Global, row: &Row, scratch: &mut Scratch, number: usize) {
    let (line, wanted) = *row;
    let asked = read_over_text(alloc, line.as_bytes(), scratch, Stage::AtStart);
    same(rt, asked.expect(rt, "memory").as_str(), wanted, line);
    is_the_same(rt, alloc, line.as_bytes(), scratch, number);
}

#[test]
fn a_line_of_many_members_asks_for_what_its_row_says(rt: HostRuntime) {
    let mut scratch = Scratch::new(rt.alloc());
    for rows in [OF_NINE.as_slice(), OF_TWENTY.as_slice()] {
        for (number, row) in rows.iter().enumerate() {
            asks(&rt, rt.alloc(), row, &mut scratch, number);
        }
    }
}

/// A line that ends with this byte in a text, where it is no UTF-8.
fn line_with(alloc: Global, byte: u8) -> Result<Vec<u8>, AllocError> {
    let mut line = Vec::new(alloc);
    line.extend_from_slice(b"{\"op\":\"find\",\"span\":\"")?;
    line.push(byte)?;
    line.extend_from_slice(b"\"}")?;
    Ok(line)
}

#[test]
fn a_line_of_no_utf8_is_the_same_over_its_own_text(rt: HostRuntime) {
    let mut scratch = Scratch::new(rt.alloc());
    for byte in [b'a', 0x1f, 0x7f, 0x80, 0xc3, 0xff] {
        let line = line_with(rt.alloc(), byte).expect(&rt, "memory");
        is_the_same(
            &rt,
            rt.alloc(),
            line.as_slice(),
            &mut scratch,
            byte as usize,
        );
    }
}

/// A line with so many lists in one another under a key that is not looked at.
fn line_of_lists(alloc: Global, depth: usize) -> Result<String, AllocError> {
    let (open, shut) = ("[".repeat(alloc, depth)?, "]".repeat(alloc, depth)?);
    format!(in alloc; "{{\"op\":\"find\",\"span\":\"a\",\"x\":{open}{shut}}}")
}

#[test]
fn a_deep_line_is_the_same_over_its_own_text(rt: HostRuntime) {
    let mut scratch = Scratch::new(rt.alloc());
    for depth in [1usize, 125, 126, 127, 128, 1000] {
        let line = line_of_lists(rt.alloc(), depth).expect(&rt, "memory");
        is_the_same(&rt, rt.alloc(), line.as_bytes(), &mut scratch, depth);
    }
}
