//! Texts of notes, in both forms.

use crate::tests::compare::same;
use crate::tests::layers::fixtures::fields;
use span_id::Level;
use span_layers::{Form, Kind, Note, text, text_onto};
use std::alloc::Global;
use std::process::Abort;
use std::sync::ArcStr;

/// What a note tells, and its text in either form. Without a level it tells no message.
#[derive(Clone, Copy)]
struct Case<'a> {
    kind: Kind,
    id: u64,
    path: &'a str,
    fields: &'a [(&'a str, &'a str)],
    level: Option<Level>,
    message: &'a str,
    compact: &'a str,
    json: &'a str,
}

fn note(rt: &impl Abort, alloc: Global, case: &Case<'_>) -> Note {
    let message = ArcStr::from_str(alloc, case.message).expect(rt, "memory");
    Note {
        layer: 0,
        kind: case.kind,
        worker: 0,
        id: case.id,
        path: ArcStr::from_str(alloc, case.path).expect(rt, "memory"),
        fields: fields(rt, alloc, case.fields),
        event: case.level.map(|level| (level, message)),
    }
}

// Whether the note is written so in either form.
fn is_written(rt: &impl Abort, alloc: Global, case: &Case<'_>) {
    let note = note(rt, alloc, case);
    for (form, want) in [(Form::Compact, case.compact), (Form::Json, case.json)] {
        let text = text(alloc, form, &note).expect(rt, "memory");
        same(rt, text.as_slice(), want.as_bytes(), want);
        let most = text.len().saturating_mul(2).saturating_add(67);
        let is_tight = text.capacity() <= most;
        same(rt, is_tight, true, want);
        is_appended(rt, alloc, form, &note, want);
    }
}

// Whether the note is written so behind what a buffer holds.
fn is_appended(rt: &impl Abort, alloc: Global, form: Form, note: &Note, want: &str) {
    let mut out = Vec::from_slice(alloc, b"held ").expect(rt, "memory");
    text_onto(form, note, &mut out).expect(rt, "memory");
    same(rt, out.as_slice().starts_with(b"held "), true, want);
    same(rt, out.as_slice().get(5..), Some(want.as_bytes()), want);
}

static CASES: [Case<'static>; 11] = [
    // New spans and records.
    Case {
        kind: Kind::OnNew,
        id: 1,
        path: "a",
        fields: &[("k", "1")],
        level: None,
        message: "",
        compact: "new 1 w0 a k=1",
        json: r#"{"fields":[["k","1"]],"id":1,"kind":"new","path":"a","worker":0}"#,
    },
    Case {
        kind: Kind::OnRecord,
        id: 1,
        path: "a",
        fields: &[("k", "2")],
        level: None,
        message: "",
        compact: "record 1 w0 a k=2",
        json: r#"{"fields":[["k","2"]],"id":1,"kind":"record","path":"a","worker":0}"#,
    },
    // Events and closes.
    Case {
        kind: Kind::OnEvent,
        id: 0,
        path: "-",
        fields: &[],
        level: Some(Level::Warn),
        message: "x\ny",
        compact: r"event 0 w0 - WARN x\ny",
        json: r#"{"fields":[],"id":0,"kind":"event","level":"WARN","message":"x\ny","path":"-","worker":0}"#,
    },
    Case {
        kind: Kind::OnClose,
        id: 1,
        path: "a",
        fields: &[("k", "1"), ("k", "2")],
        level: None,
        message: "",
        compact: "close 1 w0 a k=1 k=2",
        json: r#"{"fields":[["k","1"],["k","2"]],"id":1,"kind":"close","path":"a","worker":0}"#,
    },
    // Entries and exits.
    Case {
        kind: Kind::OnEnter,
        id: 72057594037927936,
        path: "a:b:c",
        fields: &[],
        level: None,
        message: "",
        compact: "enter 72057594037927936 w0 a:b:c",
        json: r#"{"fields":[],"id":72057594037927936,"kind":"enter","path":"a:b:c","worker":0}"#,
    },
    Case {
        kind: Kind::OnExit,
        id: 18446744073709551615,
        path: "a",
        fields: &[],
        level: Some(Level::Error),
        message: "not shown",
        compact: "exit 18446744073709551615 w0 a",
        json: r#"{"fields":[],"id":18446744073709551615,"kind":"exit","path":"a","worker":0}"#,
    },
    // An event inside a span.
    Case {
        kind: Kind::OnEvent,
        id: 2,
        path: "a:q",
        fields: &[("k", "v")],
        level: Some(Level::Info),
        message: "hi",
        compact: "event 2 w0 a:q INFO hi k=v",
        json: r#"{"fields":[["k","v"]],"id":2,"kind":"event","level":"INFO","message":"hi","path":"a:q","worker":0}"#,
    },
    // Events outside.
    Case {
        kind: Kind::OnEvent,
        id: 0,
        path: "-",
        fields: &[("k", "")],
        level: Some(Level::Debug),
        message: "",
        compact: "event 0 w0 - DEBUG  k=",
        json: r#"{"fields":[["k",""]],"id":0,"kind":"event","level":"DEBUG","message":"","path":"-","worker":0}"#,
    },
    Case {
        kind: Kind::OnEvent,
        id: 0,
        path: "-",
        fields: &[],
        level: None,
        message: "",
        compact: "event 0 w0 -",
        json: r#"{"fields":[],"id":0,"kind":"event","path":"-","worker":0}"#,
    },
    // Escapes in messages.
    Case {
        kind: Kind::OnEvent,
        id: 1,
        path: "a",
        fields: &[("k", "\n \\"), ("crlf", "\r\n")],
        level: Some(Level::Trace),
        message: "back\\slash \"quoted\"\tand\r",
        compact: "event 1 w0 a TRACE back\\\\slash \"quoted\"\tand\\r k=\\n \\\\ crlf=\\r\\n",
        json: r#"{"fields":[["k","\n \\"],["crlf","\r\n"]],"id":1,"kind":"event","level":"TRACE","message":"back\\slash \"quoted\"\tand\r","path":"a","worker":0}"#,
    },
    // Escapes in values.
    Case {
        kind: Kind::OnRecord,
        id: 1,
        path: "a",
        fields: &[
            ("control", "\u{8}\u{c}\u{0}\u{1f}\u{7f}/"),
            ("text", "\u{e9}\u{65e5}\u{1f980}"),
        ],
        level: None,
        message: "",
        compact: "record 1 w0 a control=\u{8}\u{c}\u{0}\u{1f}\u{7f}/ text=\u{e9}\u{65e5}\u{1f980}",
        json: "{\"fields\":[[\"control\",\"\\b\\f\\u0000\\u001f\u{7f}/\"],[\"text\",\"\u{e9}\u{65e5}\u{1f980}\"]],\"id\":1,\"kind\":\"record\",\"path\":\"a\",\"worker\":0}",
    },
];

#[test]
fn each_kind_in_both_forms(rt: HostRuntime) {
    for case in &CASES {
        is_written(&rt, rt.alloc(), case);
    }
}
