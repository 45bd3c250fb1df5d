//! A ring of one place that is full: calls are refused, and made again after a step of the drain.
use crate::tests::registry::acts::Act;
use crate::tests::registry::endings::{Ending, ends};
use crate::tests::registry::layers::{EVERYTHING, Plan};
use span_id::{Level, Limits};
use span_layers::{FmtSpan, Form};

// An event without fields.
const EVENT: Act = Act::Event(Level::Info, "m", &[]);

// A layer that admits no call of these tests.
const ELSEWHERE: Plan = (Form::Compact, FmtSpan::FULL, &[("elsewhere", Level::Trace)]);

// A layer that admits nothing.
const NOTHING: Plan = (Form::Compact, FmtSpan::FULL, &[]);

const FULL_RING: Ending = Ending {
    plans: &[],
    acts: &[
        (0, Act::New("a")),
        (0, Act::Clone(1)),
        (0, Act::Close(1)),
        (0, Act::Step),
        (0, Act::Step),
        (0, Act::Close(1)),
    ],
    answers: "= 1\n! backlog\n! backlog\n= told 0 missed 0\n= no batch\n= closed\n",
    numbers: "left 0 handles 0 entries 0 calls 2 made 1 closed 1 missed 0",
    lines: "",
};

const EVERY_ANSWER: &str = "\
= 1
= told 1 missed 0
= entered
! backlog
! backlog
! backlog
! backlog
! backlog
! backlog
! backlog
! unknown
! bad name
Ok(Some(Found { name: \"a\", parent: None, handles: 1, entries: 1, count: 2 }))
= told 1 missed 0
= open
= told 1 missed 0
= closed
";

// Once the ring is full, each call that has nothing else against it is refused for it.
const EVERY_CALL: &[(u32, Act)] = &[
    (0, Act::New("a")),
    (0, Act::Step),
    (0, Act::Enter(1)),
    (0, Act::New("b")),
    (0, Act::Clone(1)),
    (0, Act::Enter(1)),
    (0, Act::Exit(1)),
    (0, Act::Record(1, &[("k", "v")])),
    (0, EVENT),
    (0, Act::Close(1)),
    (0, Act::Exit(2)),
    (0, Act::New("a b")),
    (0, Act::Find(1)),
    (0, Act::Step),
    (0, Act::Exit(1)),
    (0, Act::Step),
    (0, Act::Close(1)),
];

const EVERY_CALL_TOLD: Ending = Ending {
    plans: &[EVERYTHING],
    acts: EVERY_CALL,
    answers: EVERY_ANSWER,
    numbers: "left 0 handles 0 entries 0 calls 4 made 1 closed 1 missed 0",
    lines: "0 0 0 new 1 w0 a\n1 0 0 enter 1 w0 a\n2 0 0 exit 1 w0 a\n3 0 0 close 1 w0 a\n",
};

const EVERY_ANSWER_WITHOUT_NOTES: &str = "\
= 1
= told 0 missed 0
= entered
! backlog
! backlog
! backlog
! backlog
! backlog
! backlog
! backlog
! unknown
! bad name
Ok(Some(Found { name: \"a\", parent: None, handles: 1, entries: 1, count: 2 }))
= told 0 missed 0
= open
= told 0 missed 0
= closed
";

const EVERY_CALL_TOLD_TO_NONE: Ending = Ending {
    plans: &[],
    acts: EVERY_CALL,
    answers: EVERY_ANSWER_WITHOUT_NOTES,
    numbers: "left 0 handles 0 entries 0 calls 4 made 1 closed 1 missed 0",
    lines: "",
};

const NOT_WANTED_HERE: Ending = Ending {
    plans: &[ELSEWHERE],
    acts: &[(0, EVENT), (0, Act::New("a")), (0, EVENT)],
    answers: "= told\n= not wanted\n! backlog\n",
    numbers: "left 0 handles 0 entries 0 calls 1 made 0 closed 0 missed 0",
    lines: "",
};

const NEVER_WANTED: Ending = Ending {
    plans: &[NOTHING],
    ..NOT_WANTED_HERE
};

static ENDINGS: [Ending<'static>; 5] = [
    // A handle comes back from a full ring.
    FULL_RING,
    // Every call meets a full ring.
    EVERY_CALL_TOLD,
    // Every call meets a full ring without a layer.
    EVERY_CALL_TOLD_TO_NONE,
    // A span that is not wanted needs no place.
    NOT_WANTED_HERE,
    // An empty rule admits no span.
    NEVER_WANTED,
];

#[test]
fn calls_meet_a_full_ring(rt: HostRuntime) {
    let limits = Limits {
        workers: 1,
        ring: 1,
        ..Limits::default()
    };
    for ending in &ENDINGS {
        ends(&rt, rt.alloc(), limits, ending);
    }
}
