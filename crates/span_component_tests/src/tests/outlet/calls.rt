//! A closure that writes is called once for each note of its layer, in the order of the notes, wherever batches go.
ghost use Rattle.std.specs.Prelude.{◌≡◌, []};

use crate::tests::compare::{holds, same};
use crate::tests::layers::calls::{Digits, no_calls, noting_layers};
use crate::tests::outlet::batches::{pair, sends};
use crate::watch::{Refused, Watch};
use span_layers::{Form, Formatting, Kind};
use span_outlet::{Drain, Kept, Latest, LineReader, Outlet, Ring, Tap};
use std::alloc::Global;
use std::process::Abort;

// The form of each layer, and the digits of its closures.
static FOUR: [(Form, Digits); 4] = [
    (Form::Compact, (9, 1)),
    (Form::Json, (9, 2)),
    (Form::Json, (9, 3)),
    (Form::Compact, (9, 4)),
];

// Formatting of four layers, whose closures write down their digits. Texts of new spans are refused memory.
fn formatting_of_four(rt: &impl Abort, alloc: Global, calls: &Watch) -> Formatting {
    noting_layers(rt, alloc, calls, &FOUR).1
}

// A call, the layers that are told, and the digits that are written down while the notes are.
type Case = (Kind, &'static [u32], u64);

static CASES: [Case; 7] = [
    (Kind::OnEnter, &[0, 1, 2], 123),
    // `Latest` has three buffers to spare, and then four.
    (Kind::OnExit, &[3, 1, 0, 2], 4213),
    (Kind::OnEnter, &[], 0),
    (Kind::OnRecord, &[2, 2, 0], 331),
    // One layer isn't there.
    (Kind::OnClose, &[1, 7, 3], 24),
    // A text that is refused memory isn't asked for again.
    (Kind::OnNew, &[1, 0], 21),
    (Kind::OnExit, &[0, 1, 2, 3, 0], 12341),
];

// How many notes of them are missed.
const MISSED: u64 = 3;

// Sends the batches of all cases. An outlet that writes has each batch written down as it is sent, and any other none.
fn sends_all<O: Outlet>(rt: &impl Abort, alloc: Global, calls: &Watch, outlet: &mut O, writes: bool)
    requires { O.sent outlet.old ≡ [] }
    ensures { O.name outlet.new ≡ O.name outlet.old }
{
    for (kind, layers, digits) in &CASES {
        sends(rt, alloc, outlet, (*kind, layers), true);
        let want = if writes { *digits } else { 0 };
        same(rt, calls.taken(), want, *digits);
    }
}

#[test]
fn an_outlet_that_keeps_batches_asks_once(rt: HostRuntime) {
    let alloc = rt.alloc();
    let calls = no_calls(&rt, alloc, Refused::At(Kind::OnNew));
    let mut kept = Kept::new(alloc, formatting_of_four(&rt, alloc, &calls));
    sends_all(&rt, alloc, &calls, &mut kept, true);
    same(&rt, kept.missed(), MISSED, "missed notes");
}

// From the second batch on there are buffers of texts that are gone.
#[test]
fn an_outlet_that_has_the_last_lines_asks_once(rt: HostRuntime) {
    let alloc = rt.alloc();
    let calls = no_calls(&rt, alloc, Refused::At(Kind::OnNew));
    let mut latest = Latest::new(alloc, formatting_of_four(&rt, alloc, &calls));
    sends_all(&rt, alloc, &calls, &mut latest, true);
    let counts = (latest.sent(), latest.missed());
    same(&rt, counts, (7, MISSED), "batches and missed notes");
}

// A ring of the batches of all cases, and its other end.
fn sent(rt: &impl Abort, alloc: Global, calls: &Watch) -> (Ring, Tap)
    ensures { result.0.name ≡ result.1 }
{
    let (mut ring, tap) = pair(rt, alloc, 8);
    sends_all(rt, alloc, calls, &mut ring, false);
    (ring, tap)
}

// A step of the drain for each case but the last two, and their batches at once.
fn takes_all(rt: &impl Abort, calls: &Watch, ring: &mut Ring, drain: &mut Drain)
    requires { ring.old.name ≡ drain.old.name }
{
    for (_, _, digits) in &CASES[..5] {
        holds(rt, drain.step().is_some(), "a batch");
        same(rt, calls.taken(), *digits, *digits);
    }
    drain.last(ring);
    same(rt, calls.taken(), 2_112_341, "the last batches");
    same(rt, drain.missed(), MISSED, "missed notes");
}

#[test]
fn a_drain_asks_once(rt: HostRuntime) {
    let alloc = rt.alloc();
    let calls = no_calls(&rt, alloc, Refused::At(Kind::OnNew));
    let (mut ring, tap) = sent(&rt, alloc, &calls);
    let mut drain = Drain::new(alloc, tap, formatting_of_four(&rt, alloc, &calls));
    takes_all(&rt, &calls, &mut ring, &mut drain);
    same(&rt, drain.into_lines().len(), 17, "lines");
}

// The digits that are written down while the reader is filled, and how many lines wait then. It takes batches until
// one has a line.
static FILLED: [(u64, usize); 5] = [(123, 3), (4213, 4), (331, 3), (24, 2), (2_112_341, 5)];

fn reads_all(rt: &impl Abort, calls: &Watch, reader: &mut LineReader) {
    for (digits, lines) in &FILLED {
        holds(rt, reader.fill(), "a line waits");
        same(rt, calls.taken(), *digits, *digits);
        gives(rt, reader, *lines);
        same(rt, calls.taken(), 0, *digits);
    }
    holds(rt, !reader.fill(), "no line waits");
    same(rt, reader.missed(), MISSED, "missed notes");
}

#[test]
fn a_reader_asks_once(rt: HostRuntime) {
    let alloc = rt.alloc();
    let calls = no_calls(&rt, alloc, Refused::At(Kind::OnNew));
    let (_ring, tap) = sent(&rt, alloc, &calls);
    let mut reader = LineReader::new(alloc, tap, formatting_of_four(&rt, alloc, &calls));
    reads_all(&rt, &calls, &mut reader);
}

// So many lines wait, and all are given out.
fn gives(rt: &impl Abort, reader: &mut LineReader, lines: usize) {
    for _ in 0..lines {
        holds(rt, reader.fill(), "a line waits");
        holds(rt, reader.next().is_some(), "a line");
    }
    holds(rt, reader.peek().is_none(), "no line waits");
}
