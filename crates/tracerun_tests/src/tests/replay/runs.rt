//! Whole runs of scripts.
use crate::tests::compare::same;
use crate::tests::replay::fixtures::{Ran, run};
use std::alloc::Global;
use std::io;
use std::io::{ErrorKind, Read, Write};
use std::process::Abort;

/// A reader that gives at most seven bytes a call, and fails after so many calls.
#[derive(Drop)]
struct FailingReader<'a> {
    rest: &'a [u8],
    good_calls: u64,
}

impl Read for FailingReader<'_> {
    fn read(&mut self, buf: &mut [u8]) -> io::Result<usize> {
        if self.good_calls == 0 {
            return Err(io::Error::from(ErrorKind::Interrupted));
        }
        self.good_calls -= 1;
        let most = buf.len().min(7);
        self.rest.read(&mut buf[..most])
    }
}

/// A writer that takes at most three bytes a call, fails after so many calls, and may fail at the flush.
#[derive(Drop)]
struct FailingWriter<'a> {
    taken: &'a mut Vec<u8>,
    good_calls: u64,
    takes_none: bool,
    can_flush: bool,
}

impl Write for FailingWriter<'_> {
    fn write(&mut self, buf: &[u8]) -> io::Result<usize> {
        if self.good_calls == 0 {
            return if self.takes_none {
                Ok(0)
            } else {
                Err(io::Error::from(ErrorKind::Other))
            };
        }
        self.good_calls -= 1;
        let most = buf.len().min(3);
        self.taken.write(&buf[..most])
    }

    fn flush(&mut self) -> io::Result<()> {
        if self.can_flush {
            Ok(())
        } else {
            Err(io::Error::from(ErrorKind::Other))
        }
    }
}

/// A script, how many layers it may have, and what it writes.
type Row = (&'static str, usize, &'static str);

/// A run of the script writes this text and ends so.
fn runs_so(rt: &impl Abort, alloc: Global, row: &Row, end: &str) {
    let (script, layers, text) = *row;
    let mut taken = Vec::new(alloc);
    let ran = run(rt, alloc, script.as_bytes(), &mut taken, layers);
    has_written(rt, taken.as_slice(), &ran, (text, end), script);
}

/// These bytes are the text, and the run ended so; `of` tells the case.
fn has_written(rt: &impl Abort, taken: &[u8], ran: &Ran, want: (&str, &str), of: &str) {
    let (text, end) = want;
    same(rt, (taken, ran.end.as_str()), (text.as_bytes(), end), of);
}

const TWO_SPANS: &str = r#"{"op":"new","name":"a"}
{"op":"new","name":"b","parent":"a"}
{"op":"close","span":"a"}
{"op":"close","span":"b"}
"#;

const TWO_SPANS_TEXT: &str = "= 1\n= 2\n= open\n= closed\nleft 0\n";

const SECOND_ENTRY: &str = r#"{"op":"new","name":"a"}
{"op":"new","name":"b"}
{"op":"enter","span":"a"}
{"op":"enter","span":"b"}
{"op":"enter","span":"a"}
{"op":"new","name":"c"}
{"op":"find","span":"c"}"#;

const SECOND_ENTRY_TEXT: &str =
    "= 1\n= 2\n= entered\n= entered\n= again\n= 3\n= c parent 2 handles 1 entries 0 count 1\n\
     = open\n= open\n= open\n= closed\n= open\n= closed\nleft 0\n";

const ONE_LAYER: &str =
    "{\"op\":\"layer\"}\n{\"op\":\"new\",\"name\":\"a\"}\n{\"op\":\"close\",\"span\":\"a\"}\n";

const ONE_LAYER_TEXT: &str = "= layer 0\nL0 new 1 w0 a\n= 1\nL0 close 1 w0 a\n= closed\nleft 0\n";

const BOTH_FORMS: &str = r#"{"op":"layer","form":"json"}
{"op":"layer"}
{"op":"new","name":"a","fields":[["k","1"]]}
{"op":"record","span":"a","fields":[["k","2"]]}
{"op":"event","level":"WARN","message":"x\ny"}
{"op":"close","span":"a"}
"#;

const BOTH_FORMS_TEXT: &str = r#"= layer 0
= layer 1
L0 {"fields":[["k","1"]],"id":1,"kind":"new","path":"a","worker":0}
L1 new 1 w0 a k=1
= 1
L0 {"fields":[["k","2"]],"id":1,"kind":"record","path":"a","worker":0}
L1 record 1 w0 a k=2
= recorded
L0 {"fields":[],"id":0,"kind":"event","level":"WARN","message":"x\ny","path":"-","worker":0}
L1 event 0 w0 - WARN x\ny
= told
L0 {"fields":[["k","1"],["k","2"]],"id":1,"kind":"close","path":"a","worker":0}
L1 close 1 w0 a k=1 k=2
= closed
left 0
"#;

static SPANS: [Row; 5] = [
    ("", 0, "left 0\n"),
    (TWO_SPANS, 0, TWO_SPANS_TEXT),
    (
        "{\"op\":\"new\",\"name\":\"a\"}\n{\"op\":\"clone\",\"span\":\"a\"}\n \t\r\n\
         {\"op\":\"close\",\"span\":\"a\"}\n{\"op\":\"close\",\"span\":\"a\"}",
        0,
        "= 1\n= cloned\n= open\n= closed\nleft 0\n",
    ),
    (SECOND_ENTRY, 0, SECOND_ENTRY_TEXT),
    (
        "{\"op\":\"new\",\"name\":\"b\"}\n{\"op\":\"new\",\"name\":\"a\"}\n{\"op\":\"enter\",\"span\":\"b\",\"w\":1}",
        0,
        "= 1\n= 2\n= entered\n= open\n= closed\n= closed\nleft 0\n",
    ),
];

#[test]
fn answers_spans(rt: HostRuntime) {
    for row in &SPANS {
        runs_so(&rt, rt.alloc(), row, "0");
    }
}

static LAYERS: [Row; 6] = [
    (ONE_LAYER, 1, ONE_LAYER_TEXT),
    (ONE_LAYER, 64, ONE_LAYER_TEXT),
    (BOTH_FORMS, 2, BOTH_FORMS_TEXT),
    ("{\"op\":\"layer\"}", 0, "! too many layers\nleft 0\n"),
    (
        "{\"op\":\"layer\"}\n{\"op\":\"layer\"}\n{\"op\":\"new\",\"name\":\"a\"}",
        1,
        "= layer 0\n! too many layers\nL0 new 1 w0 a\n= 1\nL0 close 1 w0 a\n= closed\nleft 0\n",
    ),
    (
        "{\"op\":\"layer\"}\n{\"op\":\"layer\"}\n{\"op\":\"new\",\"name\":\"a\"}",
        2,
        "= layer 0\n= layer 1\nL0 new 1 w0 a\nL1 new 1 w0 a\n= 1\nL0 close 1 w0 a\nL1 close 1 w0 a\n= closed\nleft 0\n",
    ),
];

#[test]
fn answers_layers(rt: HostRuntime) {
    for row in &LAYERS {
        runs_so(&rt, rt.alloc(), row, "0");
    }
}

/// Scripts at fault in their second line, and the fault.
static FAULTS: [(&str, &str); 4] = [
    (
        "{\"op\":\"new\",\"name\":\"a\"}\n{\"op\":\"limits\",\"slots\":-1}",
        "line 2: late line",
    ),
    (
        "{\"op\":\"new\",\"name\":\"a\"}\n{\"op\":\"layer\"}",
        "line 2: late line",
    ),
    (
        "{\"op\":\"new\",\"name\":\"a\"}\n{\"op\":\"new\",\"name\":\"a b\",\"label\":\"a\"}",
        "line 2: label taken",
    ),
    (
        "{\"op\":\"new\",\"name\":\"a\"}\n{\"op\":\"new\",\"name\":\"b\",\"label\":\"a\",\"parent\":\"x\"}",
        "line 2: no such label",
    ),
];

#[test]
fn writes_what_comes_before_a_fault(rt: HostRuntime) {
    for (script, end) in &FAULTS {
        runs_so(&rt, rt.alloc(), &(script, 1, "= 1\n"), end);
    }
}

/// How a run ended, how many calls of its reader came before the last, how many failed, and how much was written.
type Stop<'a> = (&'a str, Option<u64>, u64, usize);

fn stopped_at<'a>(ran: &'a Ran, taken: &[u8]) -> Stop<'a> {
    let before = ran.reads.checked_sub(1);
    (ran.end.as_str(), before, ran.failed_reads, taken.len())
}

/// Whether a run whose reader fails after so many calls writes nothing and ends at the failed call.
fn stops_reading(rt: &impl Abort, alloc: Global, script: &str, good_calls: u64) -> bool {
    let rest = script.as_bytes();
    let mut taken = Vec::new(alloc);
    let reader = FailingReader { rest, good_calls };
    let ran = run(rt, alloc, reader, &mut taken, 1);
    stopped_at(&ran, taken.as_slice()) == ("device: read failed", Some(good_calls), 1, 0)
}

/// A reader may fail at each of the calls that this script takes.
fn stops_at_each_call(rt: &impl Abort, alloc: Global, script: &str, calls: u64) {
    for good_calls in 0..calls {
        let stopped = stops_reading(rt, alloc, script, good_calls);
        same(rt, stopped, true, good_calls);
    }
    same(rt, stops_reading(rt, alloc, script, calls), false, calls);
}

#[test]
fn a_reader_that_fails_ends_the_run(rt: HostRuntime) {
    // By sevens the scripts take 17 and 10 calls, and one more finds the end.
    stops_at_each_call(&rt, rt.alloc(), TWO_SPANS, 18);
    stops_at_each_call(&rt, rt.alloc(), ONE_LAYER, 11);
}

/// A script, what it writes, and how many calls of a writer that takes three bytes at most this takes.
type Written = (&'static str, &'static str, u64);

/// A run whose writer fails after so many calls ends with that fault and a front of the text.
fn stops_writing(
    rt: &impl Abort,
    alloc: Global,
    written: &Written,
    good_calls: u64,
    takes_none: bool,
) {
    let (script, text, _) = *written;
    let mut taken = Vec::new(alloc);
    let writer = FailingWriter {
        taken: &mut taken,
        good_calls,
        takes_none,
        can_flush: true,
    };
    let ran = run(rt, alloc, script.as_bytes(), writer, 1);
    let end = ran.end.as_str();
    same(
        rt,
        (end, takes_none),
        ("device: write failed", takes_none),
        good_calls,
    );
    is_front(
        rt,
        taken.as_slice(),
        text.as_bytes(),
        takes_none,
        good_calls,
    );
}

fn is_front(rt: &impl Abort, taken: &[u8], text: &[u8], takes_none: bool, good_calls: u64) {
    let front = (
        takes_none,
        text.starts_with(taken),
        taken.len() < text.len(),
    );
    same(rt, front, (takes_none, true, true), good_calls);
}

/// A writer that doesn't fail for so many calls takes the whole text, and the run ends so.
fn writes_all(rt: &impl Abort, alloc: Global, written: &Written, can_flush: bool, end: &str) {
    let (script, text, good_calls) = *written;
    let mut taken = Vec::new(alloc);
    let writer = FailingWriter {
        taken: &mut taken,
        good_calls,
        takes_none: false,
        can_flush,
    };
    let ran = run(rt, alloc, script.as_bytes(), writer, 1);
    has_written(rt, taken.as_slice(), &ran, (text, end), script);
}

/// A writer may fail at each of the calls that the text takes.
fn stops_at_each_write(rt: &impl Abort, alloc: Global, written: &Written) {
    let (_, _, calls) = *written;
    for good_calls in 0..calls {
        stops_writing(rt, alloc, written, good_calls, false);
        stops_writing(rt, alloc, written, good_calls, true);
    }
}

/// By threes the lines' texts take 2, 2, 3, 3 and 3 calls, and 4, 6, 9 and 3.
static WRITTEN: [Written; 2] = [
    (TWO_SPANS, TWO_SPANS_TEXT, 13),
    (ONE_LAYER, ONE_LAYER_TEXT, 22),
];

#[test]
fn a_writer_that_fails_ends_the_run(rt: HostRuntime) {
    for written in &WRITTEN {
        stops_at_each_write(&rt, rt.alloc(), written);
        writes_all(&rt, rt.alloc(), written, true, "0");
    }
}

#[test]
fn a_flush_that_fails_ends_the_run(rt: HostRuntime) {
    let failed = "device: write failed";
    for (script, text, _) in &WRITTEN {
        // As many calls as the longer text takes.
        writes_all(&rt, rt.alloc(), &(script, text, 22), false, failed);
    }
}

/// A run with no layers over this reader ends with a fault of this status.
fn ends_with<R: Read + Drop>(rt: &impl Abort, alloc: Global, reader: R, status: u8) {
    let mut taken = Vec::new(alloc);
    let ran = run(rt, alloc, reader, &mut taken, 0);
    same(rt, ran.status, Some(status), status);
}

#[test]
fn faults_have_their_status(rt: HostRuntime) {
    let failing = FailingReader {
        rest: [].as_slice(),
        good_calls: 0,
    };
    ends_with(&rt, rt.alloc(), "[1]".as_bytes(), 1);
    ends_with(&rt, rt.alloc(), failing, 3);
}
