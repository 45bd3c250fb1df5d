//! What a line reader gives out.
ghost use Rattle.std.specs.Prelude.{◌≡◌, []};

use crate::lines::push_line;
use crate::tests::compare::{crosses_threads, same};
use crate::tests::outlet::batches::{FORMS, THREE_LINES, formatting, pair, sends};
use span_layers::{Form, Kind, Say};
use span_outlet::{LineReader, Ring};
use std::alloc::Global;
use std::process::Abort;

// A ring of so many places, and a reader of it that writes in these forms.
fn opened(rt: &impl Abort, alloc: Global, places: u32, forms: &[Form]) -> (Ring, LineReader)
    ensures new { result.0.sent ≡ [] }
    ensures pair { result.0.name ≡ result.1.name }
{
    let (ring, tap) = pair(rt, alloc, places);
    let reader = LineReader::new(alloc, tap, formatting(rt, alloc, forms));
    (ring, reader)
}

// The reader gives out these lines, of which there are less than nine.
fn reads<V: Say>(rt: &impl Abort, alloc: Global, reader: &mut LineReader<V>, want: &str) {
    let mut all = String::new(alloc);
    for _ in 0..9 {
        if !reader.fill() {
            break;
        }
        let line = reader.next().expect(rt, "the line that waits is lost");
        push_line(&mut all, &line).expect(rt, "memory");
    }
    same(rt, all.as_str(), want, "what is read");
}

// The place of the line that waits, and the kind and the layer of its note.
fn waiting<V>(reader: &LineReader<V>) -> (Option<u32>, Option<(Kind, u32)>) {
    let place = reader.peek().map(|line| line.place);
    (
        place,
        reader.peek_note().map(|note| (note.kind, note.layer)),
    )
}

// The batch and the place of the line that is given out.
fn given<V>(reader: &mut LineReader<V>) -> Option<(u64, u32)> {
    reader.next().map(|line| (line.batch, line.place))
}

// What is done with a ring and its reader, and what is wanted of it.
#[derive(Clone, Copy)]
enum Act<'a> {
    // A call is sent whose layers are told; whether there is room for its batch.
    Send(Kind, &'a [u32], bool),
    // Whether a line waits once the reader is filled.
    Fill(bool),
    // The lines that are read.
    Read(&'a str),
    // The place of the line that waits, and the kind and the layer of its note.
    Wait(Option<u32>, Option<(Kind, u32)>),
    // The batch and the place of the line that is given out.
    Give(Option<(u64, u32)>),
    // So many lines that wait are given up.
    Skip(usize),
    // How many batches were taken, and how many notes missed.
    Count(u64, u64),
}

fn looks<V: Say>(rt: &impl Abort, alloc: Global, reader: &mut LineReader<V>, act: &Act<'_>) {
    match act {
        Act::Fill(want) => same(rt, reader.fill(), *want, "whether a line waits"),
        Act::Read(want) => reads(rt, alloc, reader, want),
        Act::Wait(place, note) => same(rt, waiting(reader), (*place, *note), "the line that waits"),
        Act::Give(want) => same(rt, given(reader), *want, "the line that is given out"),
        Act::Skip(lines) => same(rt, reader.skip(), *lines, "lines given up"),
        Act::Count(taken, missed) => {
            let found = (reader.taken(), reader.missed());
            same(rt, found, (*taken, *missed), "taken and missed");
        }
        Act::Send(..) => {}
    }
}

// The acts are done in their order.
fn plays<V: Say>(
    rt: &impl Abort,
    alloc: Global,
    ring: &mut Ring,
    reader: &mut LineReader<V>,
    acts: &[Act<'_>],
)
    requires { ring.old.sent ≡ [] }
{
    for act in acts {
        match act {
            Act::Send(kind, layers, want) => sends(rt, alloc, ring, (*kind, layers), *want),
            _ => looks(rt, alloc, reader, act),
        }
    }
}

fn plays_new(rt: &impl Abort, alloc: Global, play: &Play) {
    let (places, forms, acts) = *play;
    let (mut ring, reader) = opened(rt, alloc, places, forms);
    let mut reader: LineReader = crosses_threads(reader);
    plays(rt, alloc, &mut ring, &mut reader, acts);
}

// The places of a ring, the forms in which a reader of it writes, and what is done in this order.
type Play = (u32, &'static [Form], &'static [Act<'static>]);

static PLAYS: [Play; 4] = [
    // Lines of three batches.
    (
        8,
        &FORMS,
        &[
            Act::Fill(false),
            Act::Count(0, 0),
            Act::Send(Kind::OnEnter, &[0, 1], true),
            Act::Send(Kind::OnEnter, &[], true),
            Act::Send(Kind::OnExit, &[1, 0], true),
            Act::Read(THREE_LINES),
            Act::Wait(None, None),
            Act::Give(None),
            Act::Count(3, 0),
        ],
    ),
    // Lines and their notes are looked at and given out, however often the reader is filled, and others given up.
    (
        8,
        &[Form::Compact, Form::Compact],
        &[
            Act::Skip(0),
            Act::Send(Kind::OnEnter, &[1, 0, 1], true),
            Act::Send(Kind::OnClose, &[0], true),
            Act::Send(Kind::OnExit, &[0, 1], true),
            Act::Fill(true),
            Act::Fill(true),
            Act::Wait(Some(0), Some((Kind::OnEnter, 1))),
            Act::Give(Some((0, 0))),
            Act::Fill(true),
            Act::Wait(Some(1), Some((Kind::OnEnter, 0))),
            Act::Count(1, 0),
            Act::Skip(2),
            Act::Wait(None, None),
            Act::Count(1, 0),
            Act::Fill(true),
            Act::Wait(Some(0), Some((Kind::OnClose, 0))),
            Act::Skip(1),
            Act::Skip(0),
            Act::Read("2 0 0 exit 1 w0 a\n2 1 1 exit 1 w0 a\n"),
            Act::Count(3, 0),
        ],
    ),
    // Batches' texts are refused memory.
    (
        8,
        &[Form::Compact],
        &[
            Act::Send(Kind::OnNew, &[0], true),
            Act::Send(Kind::OnNew, &[0, 0], true),
            Act::Send(Kind::OnClose, &[0, 7], true),
            Act::Fill(true),
            Act::Count(3, 4),
            Act::Read("2 0 0 close 1 w0 a\n"),
            Act::Count(3, 4),
        ],
    ),
    // A place is used again.
    (
        1,
        &[Form::Compact],
        &[
            Act::Send(Kind::OnEnter, &[0], true),
            Act::Send(Kind::OnExit, &[0], false),
            Act::Read("0 0 0 enter 1 w0 a\n"),
            Act::Send(Kind::OnExit, &[0], true),
            Act::Read("1 0 0 exit 1 w0 a\n"),
            Act::Count(2, 0),
        ],
    ),
];

#[test]
fn rings_and_their_readers(rt: HostRuntime) {
    for play in &PLAYS {
        plays_new(&rt, rt.alloc(), play);
    }
}

// Whether a line waits once the reader was filled beside the ring.
fn fills_beside(rt: &impl Abort, reader: &mut LineReader, ring: &mut Ring, want: bool)
    requires pair { ring.old.name ≡ reader.old.name }
    ensures sent { ring.new.sent ≡ ring.old.sent }
    ensures name { ring.new.name ≡ ring.old.name }
    ensures reader { reader.new.name ≡ reader.old.name }
{
    let filled = reader.fill_beside(ring);
    same(rt, filled, want, "a line waits");
}

// How many batches the reader is behind.
fn is_behind(rt: &impl Abort, reader: &mut LineReader, ring: &mut Ring, want: usize)
    requires pair { ring.old.name ≡ reader.old.name }
    ensures sent { ring.new.sent ≡ ring.old.sent }
    ensures name { ring.new.name ≡ ring.old.name }
    ensures reader { reader.new.name ≡ reader.old.name }
{
    let behind = reader.behind(ring);
    same(rt, behind, want, "batches behind");
}

// The line of this batch is given out.
fn gives(rt: &impl Abort, reader: &mut LineReader, batch: u64)
    ensures reader { reader.new.name ≡ reader.old.name }
{
    let line = reader.next().map(|line| line.batch);
    same(rt, line, Some(batch), "the line's batch");
}

#[test]
fn both_ends_in_one_thread(rt: HostRuntime) {
    let alloc = rt.alloc();
    let (mut ring, mut reader) = opened(&rt, alloc, 2, &[Form::Compact]);
    fills_beside(&rt, &mut reader, &mut ring, false);
    sends(&rt, alloc, &mut ring, (Kind::OnNew, &[0]), true);
    sends(&rt, alloc, &mut ring, (Kind::OnExit, &[0]), true);
    is_behind(&rt, &mut reader, &mut ring, 2);
    fills_beside(&rt, &mut reader, &mut ring, true);
    is_behind(&rt, &mut reader, &mut ring, 0);
    gives(&rt, &mut reader, 1);
    fills_beside(&rt, &mut reader, &mut ring, false);
    let counts = (reader.looks(), reader.taken(), reader.missed());
    same(&rt, counts, (3, 2, 1), "looks, taken and missed");
}
