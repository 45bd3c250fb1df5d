//! What the notes of a call share, by how many owners it has.
use crate::tests::acts::Act;
use crate::tests::compare::holds;
use crate::tests::play::{Play, SMALL, played};
use span_component_tests::plans::{EVERYTHING, Plan, Wanted};
use span_id::Level;
use span_layers::{Form, Note};
use span_outlet::{Batch, Call};
use std::sync::ArcStr;

// How many notes share the text of the first one's path.
fn path_owners(notes: &[Note]) -> usize {
    match notes.first() {
        Some(note) => ArcStr::strong_count(&note.path),
        None => 0,
    }
}

// How many owners the message of an event has.
fn message_owners(call: &Call) -> usize {
    match call {
        Call::Event { message, .. } => ArcStr::strong_count(message),
        _ => 0,
    }
}

// Whether so many notes share the first one's path, and so many owners an event's message; the list of notes has no
// room to grow.
fn is_shared(batch: &Batch, paths: usize, messages: usize) -> bool {
    (path_owners(batch.notes.as_slice()) == paths)
        & (message_owners(&batch.call) == messages)
        & (batch.notes.len() == batch.notes.capacity())
}

/// Whether there are so many batches, and each is shared so.
pub(crate) fn are_shared(batches: &[Batch], owners: &[(usize, usize)]) -> bool {
    let mut right = batches.len() == owners.len();
    for (batch, (paths, messages)) in batches.iter().zip(owners) {
        right = right & is_shared(batch, *paths, *messages);
    }
    right
}

// New spans of another target, under the current one.
const B: Act<'static> = Act::NewWith("b", "lib", Level::Info, &[]);

const B_WITH_FIELDS: Act<'static> = Act::NewWith("b", "lib", Level::Info, &[("k", "2")]);

const X: Act<'static> = Act::NewWith("x", "lib", Level::Info, &[]);

const EVENT: Act<'static> = Act::Event("app", Level::Info, "hi", &[("k", "3")]);

const APP: Plan<'static> = (Form::Compact, Wanted::All, "app", Level::Trace);

const LIB: Plan<'static> = (Form::Compact, Wanted::All, "lib", Level::Trace);

// Of four layers the third doesn't admit `b`, so it sees another path below. The others share one, the last of them
// too. The event's message belongs to its call and to four notes.
// (a constant, since another one names it)
const OWNERS: [(usize, usize); 10] = [
    (4, 0),
    (4, 0),
    (4, 0),
    (3, 0),
    (4, 5),
    (3, 0),
    (4, 0),
    (0, 0),
    (0, 0),
    (3, 0),
];

const SHARED: Play<'static> = Play {
    limits: SMALL,
    plans: &[EVERYTHING, EVERYTHING, APP, EVERYTHING],
    acts: &[
        (0, Act::New("a")),
        (0, Act::Record(1, &[("k", "1")])),
        (0, Act::Enter(1)),
        (0, B_WITH_FIELDS),
        (0, EVENT),
        (0, Act::Child("c", 2)),
        (0, Act::Exit(1)),
        (0, Act::Close(1)),
        (0, Act::Close(2)),
        (0, Act::Close(3)),
        (0, Act::Owners(&OWNERS)),
    ],
    expected: "= yes\n",
};

// Of three layers the second doesn't admit `b`, and the first and the third share the path of `c` below it. The last
// call closes `c`: both layers share one path for its exit and its close.
const CLOSING_OWNERS: [(usize, usize); 8] = [
    (3, 0),
    (3, 0),
    (2, 0),
    (2, 0),
    (2, 0),
    (2, 0),
    (0, 0),
    (4, 0),
];

const SHARED_AT_AN_EXIT: Play<'static> = Play {
    limits: SMALL,
    plans: &[EVERYTHING, APP, EVERYTHING],
    acts: &[
        (0, Act::New("a")),
        (0, Act::Enter(1)),
        (0, B),
        (0, Act::Enter(2)),
        (0, Act::New("c")),
        (0, Act::Enter(3)),
        (0, Act::Close(3)),
        (0, Act::Exit(3)),
        (0, Act::Owners(&CLOSING_OWNERS)),
    ],
    expected: "= yes\n",
};

static PLAYS: [Play<'static>; 2] = [SHARED, SHARED_AT_AN_EXIT];

// The batches are looked at last, while the core has them; only this answer is compared.
#[test]
fn notes_share_with_the_call_and_an_exit_with_its_closes(rt: HostRuntime) {
    for of in &PLAYS {
        let played = played(&rt, rt.alloc(), of);
        let shares = played.text.ends_with(of.expected.as_bytes());
        holds(&rt, shares, "the owners of paths and messages");
    }
}

// A name may be a dash.
pub(crate) const DASH: Play<'static> = Play {
    limits: SMALL,
    plans: &[EVERYTHING, LIB],
    acts: &[
        (0, Act::New("-")),
        (0, Act::Enter(1)),
        (0, X),
        (0, Act::Exit(1)),
        (0, Act::Close(1)),
        (0, Act::Close(2)),
    ],
    expected: "L0 new 1 w0 -\n= 1\nL0 enter 1 w0 -\n= entered\nL0 new 2 w0 -:x\nL1 new 2 w0 x\n\
        = 2\nL0 exit 1 w0 -\n= open\n= open\nL0 close 2 w0 -:x\nL1 close 2 w0 x\nL0 close 1 w0 -\n\
        = closed\n",
};
