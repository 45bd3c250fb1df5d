//! What keeps the spans of a chain and of a fan open, and which workers are inside.
use crate::tests::acts::Act;
use crate::tests::answers::{push, push_refusal};
use crate::tests::compare::id;
use crate::tests::play::{Play, plays};
use span_core::Core;
use span_forest::Held;
use span_id::{Fault, Limits};
use span_outlet::Outlet;
use std::alloc::Global;
use std::fmt::Display;
use std::process::Abort;

// The spans with their handles and their entries, or the refusal, on a line.
fn push_held(rt: &impl Abort, alloc: Global, text: &mut Vec<u8>, held: &Result<Vec<Held>, Fault>) {
    match held {
        Ok(spans) => push_holders(rt, alloc, text, spans.as_slice()),
        Err(fault) => push_refusal(rt, alloc, text, *fault),
    }
}

fn push_holders(rt: &impl Abort, alloc: Global, text: &mut Vec<u8>, spans: &[Held]) {
    push(rt, text, b"=");
    for span in spans {
        let (id, handles, entries) = (span.id, span.handles, span.entries);
        let holders = format!(in alloc; " {id}:{handles}/{entries}").expect(rt, "memory");
        push(rt, text, holders.as_bytes());
    }
    push(rt, text, b"\n");
}

// Ids, or the numbers of workers, on a line.
fn push_list<T: Display>(rt: &impl Abort, alloc: Global, text: &mut Vec<u8>, list: &[T]) {
    push(rt, text, b"=");
    for one in list {
        let number = format!(in alloc; " {one}").expect(rt, "memory");
        push(rt, text, number.as_bytes());
    }
    push(rt, text, b"\n");
}

/// The answer to a look that lists spans or workers, and whether the act is one.
pub(crate) fn push_asked<O: Outlet>(
    rt: &impl Abort,
    alloc: Global,
    text: &mut Vec<u8>,
    core: &Core<O>,
    act: &Act,
) -> bool {
    match act {
        Act::Open => {
            let ids = core.open_spans().expect(rt, "memory");
            push_list(rt, alloc, text, ids.as_slice());
        }
        Act::AllHeld => push_held(rt, alloc, text, &core.held_spans()),
        Act::HeldBelow(number) => push_held(rt, alloc, text, &core.holders_of(id(rt, *number))),
        Act::Inside(number) => {
            let workers = core.workers_inside(id(rt, *number)).expect(rt, "memory");
            push_list(rt, alloc, text, workers.as_slice());
        }
        _ => return false,
    }
    true
}

const LIMITS: Limits = Limits {
    slots: 16,
    last_generation: 0,
    max_count: 9,
    workers: 3,
    ring: 1,
};

// Two workers are inside the middle of a chain, one of them twice: its entry counts once, and it takes two exits to
// leave.
const CHAIN_ANSWERS: &str = "\
=
=
= 1
= 2
= 3
= entered
= entered
= again
= open
= open
= 1 2 3
= 2:0/2 3:1/0
= 2:0/2 3:1/0
= 3:1/0
! unknown
= 1 2
=
= closed
= 2:0/2
= open
= 1 2
= open
= 1
= closed
! unknown
=
";

const CHAIN: Play<'static> = Play {
    limits: LIMITS,
    plans: &[],
    acts: &[
        (0, Act::Open),
        (0, Act::AllHeld),
        (0, Act::Child("a", 0)),
        (0, Act::Child("b", 1)),
        (0, Act::Child("c", 2)),
        (1, Act::Enter(2)),
        (2, Act::Enter(2)),
        (1, Act::Enter(2)),
        (0, Act::Close(1)),
        (0, Act::Close(2)),
        (0, Act::Open),
        (0, Act::AllHeld),
        (0, Act::HeldBelow(1)),
        (0, Act::HeldBelow(3)),
        (0, Act::HeldBelow(4)),
        (0, Act::Inside(2)),
        (0, Act::Inside(1)),
        (0, Act::Close(3)),
        (0, Act::HeldBelow(1)),
        (1, Act::Exit(2)),
        (0, Act::Inside(2)),
        (2, Act::Exit(2)),
        (0, Act::Inside(2)),
        (1, Act::Exit(2)),
        (0, Act::HeldBelow(1)),
        (0, Act::Open),
    ],
    expected: CHAIN_ANSWERS,
};

// A root that has given its handle back, and is kept open by its three children.
const FAN_ANSWERS: &str = "\
= 1
= 2
= 3
= 4
= open
= cloned
= entered
= 2:1/0 3:2/0 4:1/1
= 2:1/0
= 2
= open
= 2:1/0 3:2/0 4:0/1
= open
= closed
= closed
= 4:0/1
= 1 4
= closed
=
";

const FAN: Play<'static> = Play {
    limits: LIMITS,
    plans: &[],
    acts: &[
        (0, Act::Child("a", 0)),
        (0, Act::Child("b", 1)),
        (0, Act::Child("c", 1)),
        (0, Act::Child("d", 1)),
        (0, Act::Close(1)),
        (0, Act::Clone(3)),
        (2, Act::Enter(4)),
        (0, Act::HeldBelow(1)),
        (0, Act::HeldBelow(2)),
        (0, Act::Inside(4)),
        (0, Act::Close(4)),
        (0, Act::AllHeld),
        (0, Act::Close(3)),
        (0, Act::Close(3)),
        (0, Act::Close(2)),
        (0, Act::HeldBelow(1)),
        (0, Act::Open),
        (2, Act::Exit(4)),
        (0, Act::Open),
    ],
    expected: FAN_ANSWERS,
};

#[test]
fn what_keeps_a_chain_and_a_fan_open(rt: HostRuntime) {
    plays(&rt, rt.alloc(), &CHAIN);
    plays(&rt, rt.alloc(), &FAN);
}
