//! A core whose outlet is a ring: a full ring refuses, and a drain tells.
use crate::tests::acts::{Act, perform, with_each};
use crate::tests::answers::{Answer, push, push_answer};
use crate::tests::hooks::{add_plan, layers};
use crate::tests::play::{Play, SMALL, Transcript, ends};
use crate::tests::{strangers, told_again};
use span_component_tests::lines::shown;
use span_component_tests::plans::EVERYTHING;
use span_component_tests::watch::Refused;
use span_core::Core;
use span_id::Limits;
use span_layers::{Kind, Layers};
use span_outlet::{Drain, Ring};
use std::alloc::Global;
use std::process::Abort;

// The drain takes so many batches, where they are there.
fn drain_on(drain: &mut Drain, steps: u32) -> Answer {
    for _ in 0..steps {
        drain.step();
    }
    Answer::Drained([drain.taken(), drain.missed(), drain.all().len() as u64])
}

fn answer(
    rt: &impl Abort,
    alloc: Global,
    core: &mut Core<Ring>,
    drain: &mut Drain,
    (worker, act): &(u32, Act),
) -> Answer {
    match act {
        Act::Step => Answer::Stepped(drain.step()),
        Act::Drain(steps) => drain_on(drain, *steps),
        Act::Each(ids, calls) => {
            Answer::Accepted(with_each(rt, alloc, core, *worker, (ids, *calls)))
        }
        _ => perform(rt, alloc, core, *worker, act),
    }
}

// Makes these calls, each by the worker beside it, and writes the answers.
fn play(
    rt: &impl Abort,
    alloc: Global,
    core: &mut Core<Ring>,
    drain: &mut Drain,
    text: &mut Vec<u8>,
    acts: &[(u32, Act)],
) {
    for act in acts {
        let answer = answer(rt, alloc, core, drain, act);
        push_answer(rt, alloc, text, &answer);
    }
}

/// A core over a ring, and the ring's drain.
pub(crate) fn ringed(
    rt: &impl Abort,
    alloc: Global,
    limits: &Limits,
    layers: Layers,
) -> (Core<Ring>, Drain) {
    let checked = limits.check().expect(rt, "limits");
    let (filters, formatting) = layers.split();
    let (ring, tap) = Ring::pair(alloc, &checked).expect(rt, "memory");
    let core = Core::new(alloc, &checked, filters, ring);
    (
        core.expect(rt, "memory"),
        Drain::new(alloc, tap, formatting),
    )
}

/// What a new core over a ring answers to these calls, and then the lines of its drain.
pub(crate) fn played_on_ring(
    rt: &impl Abort,
    alloc: Global,
    limits: &Limits,
    layers: Layers,
    acts: &[(u32, Act)],
) -> Transcript {
    let (mut core, mut drain) = ringed(rt, alloc, limits, layers);
    let mut text = Vec::new(alloc);
    play(rt, alloc, &mut core, &mut drain, &mut text, acts);
    let lines = shown(alloc, drain.all()).expect(rt, "memory");
    push(rt, &mut text, lines.as_bytes());
    Transcript {
        text,
        open: core.len(),
        missed: drain.missed(),
    }
}

const FULL: &[(u32, Act<'static>)] = &[
    (0, Act::Child("a", 0)),
    (0, Act::Clone(1)),
    (0, Act::Close(1)),
    (0, Act::Find(1)),
    (0, Act::Step),
    (0, Act::Step),
    (0, Act::Close(1)),
    (0, Act::Count),
];

const FULL_ANSWERS: &str =
    "= 1\n! backlog\n! backlog\n= found 1 0 1 0\n= step 0 0\n= no batch\n= closed\n= counts 0 0 0 0 2 1 1\n";

// The plays, and how many spans are open in the end.
static PLAYS: [(Play<'static>, u32); 4] = [
    // Of a ring of one place, which the new span takes, the next two calls are refused, until the drain takes a batch.
    (
        Play {
            limits: SMALL,
            plans: &[],
            acts: FULL,
            expected: FULL_ANSWERS,
        },
        0,
    ),
    (told_again::KEPT_ON_A_RING, 2),
    (told_again::TOLD_AGAIN_ON_A_RING, 0),
    (strangers::PLAY, 1),
];

#[test]
fn calls_on_a_ring_are_answered_and_told(rt: HostRuntime) {
    for (of, open) in &PLAYS {
        let layers = layers(&rt, rt.alloc(), of.plans);
        let played = played_on_ring(&rt, rt.alloc(), &of.limits, layers, of.acts);
        ends(&rt, &played, of.expected, (*open, 0));
    }
}

// A layer that lets everything in, and is refused memory for the text of a new span.
fn new_refused(rt: &impl Abort, alloc: Global) -> Layers {
    let mut layers = Layers::new(alloc);
    let at_new = Refused::At(Kind::OnNew);
    add_plan(rt, alloc, &mut layers, &EVERYTHING, at_new);
    layers
}

static STEPS: [(u32, Act<'static>); 6] = [
    (0, Act::Child("a", 0)),
    (0, Act::Close(1)),
    (0, Act::Step),
    (0, Act::Step),
    (0, Act::Step),
    (0, Act::Drain(0)),
];

const STEPS_ANSWERS: &str =
    "= 1\n= closed\n= step 0 1\n= step 1 0\n= no batch\n= drained 2 1 1\n1 0 0 close 1 w0 a\n";

const EIGHT_PLACES: Limits = Limits { ring: 8, ..SMALL };

// The text of the new span is refused memory, and that of its close isn't.
#[test]
fn a_text_that_is_refused_memory_in_the_drain(rt: HostRuntime) {
    let alloc = rt.alloc();
    let layers = new_refused(&rt, alloc);
    let played = played_on_ring(&rt, alloc, &EIGHT_PLACES, layers, &STEPS);
    ends(&rt, &played, STEPS_ANSWERS, (0, 1));
}
