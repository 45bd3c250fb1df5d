//! How much longer than its text a buffer is: a few bytes, wherever an escape stands, and a short text with many
//! escapes doesn't make it grow.

use crate::tests::compare::same;
use crate::tests::layers::fixtures::fields;
use span_id::{Fields, Level};
use span_layers::{Form, Kind, Note, text};
use std::alloc::Global;
use std::process::Abort;
use std::sync::ArcStr;

// How many bytes longer it is in the compact form, and in the JSON form of the events below.
const COMPACT_SPARE: usize = 15;

const JSON_SPARE: usize = 36;

// How many more a long message has in JSON, and from how many bytes on it is long.
const LONG_SPARE: usize = 48;

const LONG: usize = 64;

// How many bytes longer than a note's text its buffer is.
fn spare(rt: &impl Abort, alloc: Global, form: Form, note: &Note) -> usize {
    let text = text(alloc, form, note).expect(rt, "memory");
    text.capacity().saturating_sub(text.len())
}

// An event with this message and no fields.
fn event(rt: &impl Abort, alloc: Global, message: &str) -> Note {
    Note {
        layer: 0,
        kind: Kind::OnEvent,
        worker: 0,
        id: 0,
        path: ArcStr::from_str(alloc, "-").expect(rt, "memory"),
        fields: Fields::none(),
        event: Some((
            Level::Info,
            ArcStr::from_str(alloc, message).expect(rt, "memory"),
        )),
    }
}

// A message that has this byte behind so many letters and before so many.
fn message(rt: &impl Abort, alloc: Global, before: usize, byte: &str, behind: usize) -> String {
    let mut message = "x".repeat(alloc, before).expect(rt, "memory");
    message.push_str(byte).expect(rt, "memory");
    let rest = "x".repeat(alloc, behind).expect(rt, "memory");
    message.push_str(rest.as_str()).expect(rt, "memory");
    message
}

// By how many bytes a byte's escape is longer than the byte: in the compact form, and in JSON.
static BYTES: [(&str, usize, usize); 8] = [
    ("x", 0, 0),
    ("\n", 1, 1),
    ("\r", 1, 1),
    ("\\", 1, 1),
    ("\"", 0, 1),
    ("\t", 0, 1),
    ("\u{1}", 0, 5),
    ("\u{b}", 0, 5),
];

// A message of this length that has this byte behind so many letters leaves as much room as it is to.
fn leaves_room(
    rt: &impl Abort,
    alloc: Global,
    (before, length): (usize, usize),
    (byte, compact, json): (&str, usize, usize),
) {
    let rest = length.saturating_sub(before).saturating_sub(1);
    let message = message(rt, alloc, before, byte, rest);
    let note = event(rt, alloc, message.as_str());
    // In the compact form the escapes of each whole 32 bytes are counted.
    let is_counted = before < length / 32 * 32;
    let uncounted = if is_counted { 0 } else { compact };
    let got = spare(rt, alloc, Form::Compact, &note);
    same(rt, got.saturating_add(uncounted), COMPACT_SPARE, byte);
    let more = if length < LONG { 0 } else { LONG_SPARE };
    let got = spare(rt, alloc, Form::Json, &note);
    same(rt, got.saturating_add(json), JSON_SPARE + more, byte);
}

#[test]
fn an_escape_at_each_place(rt: HostRuntime) {
    for length in [1usize, 4, 9, 17, 33, 70] {
        for before in 0..length {
            for byte in &BYTES {
                leaves_room(&rt, rt.alloc(), (before, length), *byte);
            }
        }
    }
}

// A form, a part of a message and how often it stands there, and how many bytes longer the text's buffer is.
type Repeated = (Form, &'static str, usize, usize);

static REPEATED: [Repeated; 13] = [
    // In the compact form the escapes of each whole 32 bytes have room, and 15 others.
    (Form::Compact, "\n", 32, 15),
    (Form::Compact, "\n", 64, 15),
    (Form::Compact, "\r", 96, 15),
    (Form::Compact, "\\", 96, 15),
    (Form::Compact, "\n", 33, 14),
    (Form::Compact, "\\", 33, 14),
    (Form::Compact, "\r", 47, 0),
    (Form::Compact, "\n", 111, 0),
    // The buffer of JSON has 120 bytes, one for the path, and those of the message, and doesn't grow.
    (Form::Json, "", 1, 36),
    (Form::Json, "a\"b\"", 10, 16),
    (
        Form::Json,
        r#"got {"id":7,"name":"x","kind":"user","t":"a","ok":true}"#,
        1,
        20,
    ),
    (Form::Json, "\u{1}", 5, 11),
    (Form::Json, r"C:\Users\me\AppData\Local\Temp\x", 1, 30),
];

fn is_repeated(rt: &impl Abort, alloc: Global, case: &Repeated) {
    let (form, part, times, want) = *case;
    let message = part.repeat(alloc, times).expect(rt, "memory");
    let note = event(rt, alloc, message.as_str());
    same(rt, spare(rt, alloc, form, &note), want, message.len());
}

#[test]
fn many_escapes(rt: HostRuntime) {
    for case in &REPEATED {
        is_repeated(&rt, rt.alloc(), case);
    }
}

// Eight fields take 16 bytes each, and each has two quotes that are escaped.
#[test]
fn quoted_fields_in_json(rt: HostRuntime) {
    let alloc = rt.alloc();
    let mut note = event(&rt, alloc, "done");
    note.fields = fields(&rt, alloc, &[("k", "\"value\""); 8]);
    same(&rt, spare(&rt, alloc, Form::Json, &note), 21, "an event");
    note.kind = Kind::OnNew;
    same(&rt, spare(&rt, alloc, Form::Json, &note), 51, "a span");
}
