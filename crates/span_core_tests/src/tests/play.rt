//! Calls on a core that keeps its lines, played from first to last.
ghost use Rattle.std.specs.Prelude.{◌≡◌, []};

use crate::tests::acts::{Act, perform, with_each};
use crate::tests::answers::{Answer, push_answer, push_lines};
use crate::tests::compare::same;
use crate::tests::holding::push_asked;
use crate::tests::hooks::layers;
use crate::tests::sharing::are_shared;
use span_component_tests::plans::Plan;
use span_core::Core;
use span_id::Limits;
use span_layers::{Filters, Say};
use span_outlet::Kept;
use std::alloc::Global;
use std::process::Abort;

/// The limits of a core with few spans and one worker.
pub(crate) const SMALL: Limits = Limits {
    slots: 8,
    last_generation: 1,
    max_count: 8,
    workers: 1,
    ring: 1,
};

/// The same with three workers.
pub(crate) const THREE_WORKERS: Limits = Limits {
    workers: 3,
    ..SMALL
};

/// The limits and the layers of a new core, the calls on it, each made by the worker beside it, and what is answered:
/// for each call first the lines of its notes, then `= ` and its answer, or `! ` and its refusal.
#[derive(Clone, Copy)]
pub(crate) struct Play<'a> {
    pub(crate) limits: Limits,
    pub(crate) plans: &'a [Plan<'a>],
    pub(crate) acts: &'a [(u32, Act<'a>)],
    pub(crate) expected: &'a str,
}

/// What was answered, and how many spans were open and how many notes missed in the end.
#[derive(Drop)]
pub(crate) struct Transcript {
    pub(crate) text: Vec<u8>,
    pub(crate) open: u32,
    pub(crate) missed: u64,
}

fn answer<V: Say>(
    rt: &impl Abort,
    alloc: Global,
    core: &mut Core<Kept<V>>,
    (worker, act): &(u32, Act),
) -> Answer {
    match act {
        Act::Each(ids, calls) => {
            Answer::Accepted(with_each(rt, alloc, core, *worker, (ids, *calls)))
        }
        Act::Owners(owners) => Answer::Is(are_shared(core.outlet().batches(), owners)),
        _ => perform(rt, alloc, core, *worker, act),
    }
}

/// Makes these calls: for each call first the lines of its notes, then its answer.
pub(crate) fn perform_all<V: Say>(
    rt: &impl Abort,
    alloc: Global,
    core: &mut Core<Kept<V>>,
    text: &mut Vec<u8>,
    acts: &[(u32, Act)],
) {
    for (worker, act) in acts {
        if push_asked(rt, alloc, text, core, act) {
            continue;
        }
        let first = core.outlet().all().len();
        let answer = answer(rt, alloc, core, &(*worker, *act));
        push_told(rt, alloc, text, (core, first), &answer);
    }
}

/// Writes the lines of a core from this one on, and an answer.
pub(crate) fn push_told<V: Say>(
    rt: &impl Abort,
    alloc: Global,
    text: &mut Vec<u8>,
    (core, first): (&Core<Kept<V>>, usize),
    answer: &Answer,
) {
    push_lines(rt, alloc, text, core.outlet().all(), first);
    push_answer(rt, alloc, text, answer);
}

/// A new core that keeps its lines.
pub(crate) fn keeping<V: Say>(
    rt: &impl Abort,
    alloc: Global,
    limits: &Limits,
    filters: Filters,
    outlet: Kept<V>,
) -> Core<Kept<V>>
    requires { outlet.sent ≡ [] }
{
    let checked = limits.check().expect(rt, "limits");
    let core = Core::new(alloc, &checked, filters, outlet);
    core.expect(rt, "memory")
}

/// What a new core with these layers answers to the calls.
pub(crate) fn played(rt: &impl Abort, alloc: Global, of: &Play) -> Transcript {
    let (filters, formatting) = layers(rt, alloc, of.plans).split();
    played_on(rt, alloc, filters, Kept::new(alloc, formatting), of)
}

/// The same with these filters and this outlet.
pub(crate) fn played_on<V: Say>(
    rt: &impl Abort,
    alloc: Global,
    filters: Filters,
    outlet: Kept<V>,
    of: &Play,
) -> Transcript
    requires { outlet.sent ≡ [] }
{
    let mut core = keeping(rt, alloc, &of.limits, filters, outlet);
    let mut text = Vec::new(alloc);
    perform_all(rt, alloc, &mut core, &mut text, of.acts);
    written(core, text)
}

/// What a core wrote, and what it has in the end.
pub(crate) fn written<V: Say>(core: Core<Kept<V>>, text: Vec<u8>) -> Transcript {
    let open = core.len();
    let kept = core.into_outlet();
    let missed = kept.missed();
    Transcript { text, open, missed }
}

/// This is the text, and in the end so many spans are open and so many notes were missed.
pub(crate) fn ends(rt: &impl Abort, played: &Transcript, expected: &str, ended: (u32, u64)) {
    let text = str::from_utf8(played.text.as_slice()).ok();
    same(rt, text, Some(expected), "the calls");
    let stands = (played.open, played.missed);
    same(rt, stands, ended, "open spans and missed notes");
}

/// A new core answers so; in the end no span is open, and no note was missed.
pub(crate) fn plays(rt: &impl Abort, alloc: Global, of: &Play) {
    let played = played(rt, alloc, of);
    ends(rt, &played, of.expected, (0, 0));
}
