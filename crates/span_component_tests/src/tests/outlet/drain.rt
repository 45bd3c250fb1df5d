//! What a drain writes, when a ring has room, and that both ends cross threads.
ghost use Rattle.std.specs.Prelude.{◌≡◌, []};

use crate::tests::compare::{crosses_threads, same};
use crate::tests::outlet::batches::{FORMS, THREE_LINES, are_lines, are_lines_of, opened, sends};
use span_layers::{Form, Kind};
use span_outlet::{Drain, Ring, Step};
use std::alloc::Global;
use std::process::Abort;

// What is done with a ring and its drain, and what is wanted of it.
#[derive(Clone, Copy)]
enum Act<'a> {
    // A call is sent whose layers are told; whether there is room for its batch.
    Send(Kind, &'a [u32], bool),
    // A step of the drain tells and misses so many notes.
    Step(Option<Step>),
    // How often the ring was full, how many batches were taken, and how many notes missed.
    Count(u64, u64, u64),
    // All lines.
    Lines(&'a str),
    // The lines of one layer.
    LinesOf(u32, &'a str),
}

fn looks(rt: &impl Abort, alloc: Global, ring: &Ring, drain: &mut Drain, act: &Act<'_>) {
    match act {
        Act::Step(want) => same(rt, drain.step(), *want, "a step"),
        Act::Count(full, taken, missed) => {
            let found = (ring.times_full(), drain.taken(), drain.missed());
            same(rt, found, (*full, *taken, *missed), "counts");
        }
        Act::Lines(want) => are_lines(rt, alloc, drain, want),
        Act::LinesOf(layer, want) => are_lines_of(rt, alloc, drain, *layer, want),
        Act::Send(..) => {}
    }
}

// The acts are done in their order.
fn plays(rt: &impl Abort, alloc: Global, ring: &mut Ring, drain: &mut Drain, acts: &[Act<'_>])
    requires { ring.old.sent ≡ [] }
{
    for act in acts {
        match act {
            Act::Send(kind, layers, want) => sends(rt, alloc, ring, (*kind, layers), *want),
            _ => looks(rt, alloc, ring, drain, act),
        }
    }
}

// The acts are done with a new ring of so many places and a drain of it that writes in these forms.
fn plays_new(rt: &impl Abort, alloc: Global, play: &Play) {
    let (places, forms, acts) = *play;
    let (ring, drain) = opened(rt, alloc, places, forms);
    let (mut ring, mut drain) = (crosses_threads(ring), crosses_threads(drain));
    plays(rt, alloc, &mut ring, &mut drain, acts);
}

const JSON: &str = r#"0 0 0 {"fields":[],"id":1,"kind":"enter","path":"a","worker":0}
2 1 0 {"fields":[],"id":1,"kind":"exit","path":"a","worker":0}
"#;

const COMPACT: &str = "0 1 1 enter 1 w0 a\n2 0 1 exit 1 w0 a\n";

const NONE_TOLD: Option<Step> = Some(Step { told: 0, missed: 0 });

const ONE_TOLD: Option<Step> = Some(Step { told: 1, missed: 0 });

const TWO_TOLD: Option<Step> = Some(Step { told: 2, missed: 0 });

const ONE_MISSED: Option<Step> = Some(Step { told: 0, missed: 1 });

const TWO_OF_THREE_MISSED: Option<Step> = Some(Step { told: 1, missed: 2 });

// The places of a ring, the forms in which a drain of it writes, and what is done in this order.
type Play = (u32, &'static [Form], &'static [Act<'static>]);

static PLAYS: [Play; 4] = [
    // Nothing is there; three batches are sent, taken one by one, and then there is none.
    (
        8,
        &FORMS,
        &[
            Act::Step(None),
            Act::Send(Kind::OnEnter, &[0, 1], true),
            Act::Send(Kind::OnEnter, &[], true),
            Act::Send(Kind::OnExit, &[1, 0], true),
            Act::Count(0, 0, 0),
            Act::Step(TWO_TOLD),
            Act::Step(NONE_TOLD),
            Act::Step(TWO_TOLD),
            Act::Step(None),
            Act::Count(0, 3, 0),
            Act::Lines(THREE_LINES),
            Act::LinesOf(0, JSON),
            Act::LinesOf(1, COMPACT),
            Act::LinesOf(2, ""),
        ],
    ),
    // Two of three layers have no form, and then a note's text is refused memory.
    (
        8,
        &[Form::Compact],
        &[
            Act::Send(Kind::OnEnter, &[1, 0, 7], true),
            Act::Step(TWO_OF_THREE_MISSED),
            Act::Send(Kind::OnNew, &[0], true),
            Act::Send(Kind::OnClose, &[0], true),
            Act::Step(ONE_MISSED),
            Act::Step(ONE_TOLD),
            Act::Lines("0 1 0 enter 1 w0 a\n2 0 0 close 1 w0 a\n"),
            Act::Count(0, 3, 3),
        ],
    ),
    // A ring of one place.
    (
        1,
        &[Form::Compact],
        &[
            Act::Send(Kind::OnEnter, &[0], true),
            Act::Send(Kind::OnExit, &[0], false),
            Act::Send(Kind::OnExit, &[0], false),
            Act::Step(ONE_TOLD),
            Act::Send(Kind::OnExit, &[0], true),
            Act::Count(2, 1, 0),
        ],
    ),
    // A ring of two places.
    (
        2,
        &[Form::Compact],
        &[
            Act::Send(Kind::OnEnter, &[0], true),
            Act::Send(Kind::OnExit, &[0], true),
            Act::Send(Kind::OnExit, &[0], false),
            Act::Count(1, 0, 0),
        ],
    ),
];

#[test]
fn rings_and_their_drains(rt: HostRuntime) {
    for play in &PLAYS {
        plays_new(&rt, rt.alloc(), play);
    }
}
