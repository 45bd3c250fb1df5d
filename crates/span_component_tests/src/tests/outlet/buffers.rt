//! What an outlet and a reader keep for lines to come, and how much room they leave: as much as their pages say.
ghost use Rattle.std.specs.Prelude.{◌≡◌, ◌+◌, ◌-◌, ◌^◌, ◌<◌, ◌≤◌, [], length};

use crate::tests::compare::{holds, same};
use crate::tests::outlet::batches::{FORMS, batch_of, formatting, pair, send};
use span_id::{Fields, Level};
use span_layers::{
    ByForm, ByRule, FmtSpan, Form, Formatting, Hooks, Kind, Layer, Layers, Note, Rule, Say, Style,
    text,
};
use span_outlet::{Latest, Line, LineReader, Outlet};
use std::alloc::{AllocError, Global};
use std::process::Abort;
use std::sync::ArcStr;

// The longest text whose buffer is kept, and the most room that is left behind a text that isn't.
const MOST: usize = 4096;

const LEFT: usize = 67;

/// The most notes for which a list that is kept has room.
pub(crate) const NOTES: usize = 16;

// Makes the texts that `text` makes, with room for exactly so many bytes behind each, where the buffer is.
#[derive(Drop)]
struct Exact {
    alloc: Global,
    room: usize,
    allows_copies: bool,
}

impl Say for Exact {
    fn say(&self, form: Form, note: &Note) -> Result<Vec<u8>, AllocError> {
        let mut out = Vec::new(self.alloc);
        match self.say_onto(form, note, &mut out) {
            Ok(()) => Ok(out),
            Err(error) => Err(error),
        }
    }

    fn say_onto(&self, form: Form, note: &Note, out: &mut Vec<u8>) -> Result<(), AllocError> {
        let made = text(self.alloc, form, note)?;
        out.reserve_exact(made.len().saturating_add(self.room))?;
        out.extend_from_slice(made.as_slice())
    }

    fn allows_copies(&self) -> bool {
        self.allows_copies
    }
}

// An outlet to which nothing was sent, whose texts have so much room behind them, unless they are copied.
fn with_room(rt: &impl Abort, alloc: Global, room: usize, allows_copies: bool) -> Latest<Exact>
    ensures { result.sent ≡ [] }
{
    let forms = formatting(rt, alloc, &FORMS).forms;
    let formatters = Exact {
        alloc,
        room,
        allows_copies,
    };
    Latest::with_formatters(alloc, forms, formatters)
}

// How many of these lines have a text whose buffer has so many bytes.
fn with_capacity(lines: &[Line], bytes: usize) -> usize {
    lines
        .iter()
        .filter(|line| line.text.capacity() == bytes)
        .count()
}

/// An event's text in JSON, without its message.
pub(crate) const JSON: &str =
    r#"{"fields":[],"id":0,"kind":"event","level":"INFO","message":"","path":"-","worker":0}"#;

// An event in JSON, whose text has so many bytes.
fn event(rt: &impl Abort, alloc: Global, bytes: usize) -> Note {
    let message = "x".repeat(alloc, bytes.saturating_sub(JSON.len()));
    let message = message.expect(rt, "memory");
    Note {
        layer: 0,
        kind: Kind::OnEvent,
        worker: 0,
        id: 0,
        path: ArcStr::from_str(alloc, "-").expect(rt, "memory"),
        fields: Fields::none(),
        event: Some((
            Level::Info,
            ArcStr::from_string(message).expect(rt, "memory"),
        )),
    }
}

// Sends a batch whose notes have texts of so many bytes.
fn send_texts<O: Outlet>(rt: &impl Abort, alloc: Global, outlet: &mut O, texts: &[usize])
    requires { length (O.sent outlet.old) < 2 ^ 64 - 1 }
    ensures { length (O.sent outlet.new) ≤ length (O.sent outlet.old) + 1 }
{
    let mut notes = Vec::new(alloc);
    for bytes in texts {
        notes.push(event(rt, alloc, *bytes)).expect(rt, "memory");
    }
    let sent = send(rt, outlet, batch_of(rt, notes));
    holds(rt, sent, "room for a batch");
}

// The lengths of the texts of a batch and of the next one, how much room each has behind it, and so many buffers of so
// many bytes that the texts of the next one have then.
type Case = (&'static [usize], &'static [usize], usize, usize, usize);

const SHORT: &[usize] = &[90];

static CASES: [Case; 18] = [
    // More room than a plain text leaves is given back.
    (&[], SHORT, 0, 1, 90),
    (&[], SHORT, LEFT, 1, 90 + LEFT),
    (&[], SHORT, LEFT + 1, 1, 90),
    (&[], &[10_000], LEFT, 1, 10_000 + LEFT),
    (&[], &[10_000], LEFT + 1, 1, 10_000),
    // A buffer of 4096 bytes is kept with all its room, a larger one isn't.
    (&[MOST - 1], SHORT, 0, 1, MOST - 1),
    (&[MOST], SHORT, 0, 1, MOST),
    (&[MOST + 1], SHORT, 0, 1, 90),
    (&[MOST - LEFT], SHORT, LEFT, 1, MOST),
    (&[MOST - LEFT + 1], SHORT, LEFT, 1, 90 + LEFT),
    // A text that is written where an earlier one was leaves all its room where the buffer will be kept, and else little.
    (SHORT, &[MOST - 500], 500, 1, MOST),
    (SHORT, &[MOST - 499], 500, 1, MOST - 499),
    (SHORT, &[MOST], LEFT, 1, MOST + LEFT),
    (SHORT, &[MOST], LEFT + 1, 1, MOST),
    // Of more texts 64 buffers are kept.
    (&[1000; 63], &[90; 63], 0, 63, 1000),
    (&[1000; 64], &[90; 64], 0, 64, 1000),
    (&[1000; 65], &[90; 65], 0, 64, 1000),
    (&[1000; 65], &[90; 65], 0, 1, 90),
];

// Of two texts that are the same the second one is copied: into a kept buffer, or into one of its own length.
static COPIES: [Case; 4] = [
    (&[], &[90, 90], LEFT, 1, 90 + LEFT),
    (&[], &[90, 90], LEFT, 1, 90),
    (&[1000, 1000], &[90, 90], 0, 2, 1000),
    (&[], &[90, 91], LEFT, 1, 91 + LEFT),
];

fn are_kept(rt: &impl Abort, alloc: Global, case: &Case, allows_copies: bool) {
    let (first, second, room, buffers, bytes) = *case;
    let mut latest = with_room(rt, alloc, room, allows_copies);
    send_texts(rt, alloc, &mut latest, first);
    send_texts(rt, alloc, &mut latest, second);
    let found = (with_capacity(latest.lines(), bytes), latest.missed());
    same(rt, found, (buffers, 0), bytes);
}

#[test]
fn buffers_are_used_again(rt: HostRuntime) {
    for case in &CASES {
        are_kept(&rt, rt.alloc(), case, false);
    }
    for case in &COPIES {
        are_kept(&rt, rt.alloc(), case, true);
    }
}

/// The formatting of a layer that has no closures and writes JSON.
pub(crate) fn plain_formatting(rt: &impl Abort, alloc: Global) -> Formatting<ByForm> {
    let mut layers = Layers::<ByRule, ByForm>::new(alloc);
    let style = Style {
        form: Form::Json,
        spans: FmtSpan::FULL,
    };
    let layer = Layer {
        style,
        rule: Rule::everything(alloc).expect(rt, "memory"),
        hooks: Hooks::by_rule_and_form(),
    };
    holds(rt, layers.add(layer).is_ok(), "a layer");
    layers.split().1
}

/// How much room the text of the line has that is read. The line is given back, or not.
pub(crate) fn read<V: Say>(
    rt: &impl Abort,
    reader: &mut LineReader<V>,
    is_given_back: bool,
) -> usize {
    holds(rt, reader.fill(), "a line waits");
    let line = reader.next().expect(rt, "a line");
    let room = line.text.capacity();
    if is_given_back {
        reader.take_back(line);
    }
    room
}

// Whether the second of two lines that are read, the first one of so many bytes, has the room of the first.
fn has_its_room(rt: &impl Abort, alloc: Global, bytes: usize, is_given_back: bool, want: bool) {
    let (mut ring, tap) = pair(rt, alloc, 1);
    let mut reader = LineReader::new(alloc, tap, plain_formatting(rt, alloc));
    send_texts(rt, alloc, &mut ring, &[bytes]);
    let first = read(rt, &mut reader, is_given_back);
    send_texts(rt, alloc, &mut ring, SHORT);
    let second = read(rt, &mut reader, false);
    same(rt, first == second, want, bytes);
}

#[test]
fn a_line_given_back_is_written_anew(rt: HostRuntime) {
    has_its_room(&rt, rt.alloc(), 1000, true, true);
    has_its_room(&rt, rt.alloc(), 1000, false, false);
    has_its_room(&rt, rt.alloc(), MOST + 1, true, false);
}

/// Sends a batch of one note, whose text has so many bytes, in a list with room for so many.
pub(crate) fn send_in_a_list<O: Outlet>(
    rt: &impl Abort,
    alloc: Global,
    outlet: &mut O,
    room: usize,
    bytes: usize,
)
    requires { length (O.sent outlet.old) < 2 ^ 64 - 1 }
    ensures { length (O.sent outlet.new) ≤ length (O.sent outlet.old) + 1 }
{
    let mut notes = Vec::with_capacity(alloc, room).expect(rt, "memory");
    notes.push(event(rt, alloc, bytes)).expect(rt, "memory");
    let sent = send(rt, outlet, batch_of(rt, notes));
    holds(rt, sent, "room for a batch");
}

/// For how many notes the list that an outlet gives out has room. It is empty.
pub(crate) fn given<O: Outlet>(rt: &impl Abort, outlet: &mut O) -> Option<usize>
    ensures { O.sent outlet.new ≡ O.sent outlet.old }
{
    let list = outlet.spare_notes()?;
    holds(rt, list.is_empty(), "an empty list");
    Some(list.capacity())
}

// The list of the notes is given out once, where it has room for so many, and else not at all.
fn gives_its_list(rt: &impl Abort, alloc: Global, room: usize, want: Option<usize>) {
    let mut latest = with_room(rt, alloc, 0, false);
    send_in_a_list(rt, alloc, &mut latest, room, 90);
    let lists = [given(rt, &mut latest), given(rt, &mut latest)];
    same(rt, lists, [want, None], room);
}

#[test]
fn a_list_of_sixteen_notes_is_used_again(rt: HostRuntime) {
    let alloc = rt.alloc();
    gives_its_list(&rt, alloc, 1, Some(1));
    gives_its_list(&rt, alloc, NOTES, Some(NOTES));
    gives_its_list(&rt, alloc, NOTES + 1, None);
}
