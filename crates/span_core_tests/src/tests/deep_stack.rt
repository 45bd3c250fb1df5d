//! Workers that are inside many spans, in the same order and in others, and layers that admit few of them: events told
//! far above the spans that these admit, and by two workers by turns. What is known of the one's stack isn't believed
//! of the other's.
use crate::tests::acts::{Act, Calls, Ids};
use crate::tests::play::{Play, ends, played};
use span_component_tests::plans::{Plan, Wanted};
use span_id::{Level, Limits};
use span_layers::Form;

const LIMITS: Limits = Limits {
    slots: 400,
    last_generation: 0,
    max_count: 400,
    workers: 1,
    ring: 1,
};

const ROOT: Act<'static> = Act::NewWith("root", "root", Level::Info, &[]);

const MID: Act<'static> = Act::NewWith("mid", "mid", Level::Info, &[]);

const SEEK_ROOT: Act<'static> = Act::Event("root", Level::Info, "seek", &[]);

const SEEK_MID: Act<'static> = Act::Event("mid", Level::Info, "seek", &[]);

// The first layer admits most spans, the second and the third one each; of an event only the layer of its target is
// told.
const PLANS: [Plan<'static>; 3] = [
    (Form::Compact, Wanted::None, "app", Level::Info),
    (Form::Compact, Wanted::None, "root", Level::Info),
    (Form::Compact, Wanted::None, "mid", Level::Info),
];

// The span 129 stands above 128 entries, and once the span 6 is left above 127. When it is left too, and all above 99,
// it is entered again above 98 entries.
const ACTS: &[(u32, Act<'static>)] = &[
    (0, ROOT),
    (0, Act::Enter(1)),
    (0, Act::Each(Ids::Up(2, 128), Calls::GoDown)),
    (0, MID),
    (0, Act::Enter(129)),
    (0, Act::Each(Ids::Up(130, 300), Calls::GoDown)),
    (0, SEEK_ROOT),
    (0, SEEK_MID),
    (0, SEEK_ROOT),
    (0, SEEK_MID),
    (0, Act::Exit(300)),
    (0, SEEK_ROOT),
    (0, SEEK_MID),
    (0, Act::Enter(129)),
    (0, SEEK_MID),
    (0, Act::Exit(129)),
    (0, Act::Exit(6)),
    (0, SEEK_MID),
    (0, SEEK_ROOT),
    (0, Act::Each(Ids::Down(299, 100), Calls::Exit)),
    (0, SEEK_MID),
    (0, Act::Enter(129)),
    (0, SEEK_MID),
];

const ANSWERS: &str = "\
= 1
= entered
= accepted 254
= 129
= entered
= accepted 342
L1 event 1 w0 root INFO seek
= told
L2 event 129 w0 mid INFO seek
= told
L1 event 1 w0 root INFO seek
= told
L2 event 129 w0 mid INFO seek
= told
= open
L1 event 1 w0 root INFO seek
= told
L2 event 129 w0 mid INFO seek
= told
= again
L2 event 129 w0 mid INFO seek
= told
= open
= open
L2 event 129 w0 mid INFO seek
= told
L1 event 1 w0 root INFO seek
= told
= accepted 200
L2 event 0 w0 - INFO seek
= told
= entered
L2 event 129 w0 mid INFO seek
= told
";

const TWO_WORKERS: Limits = Limits {
    workers: 2,
    ..LIMITS
};

// In the stack of the worker 0 the span 1 is the lowest, and the span 129 stands above 128 entries; in that of the
// worker 1 the span 129 is the lowest, and the span 1 stands above 99 entries. Each worker tells events alone for a
// while, and then both by turns, also after the other one left a span.
const ACTS_BY_TURNS: &[(u32, Act<'static>)] = &[
    (0, ROOT),
    (0, Act::Enter(1)),
    (0, Act::Each(Ids::Up(2, 128), Calls::GoDown)),
    (0, MID),
    (0, Act::Enter(129)),
    (0, Act::Each(Ids::Up(130, 300), Calls::GoDown)),
    (1, Act::Each(Ids::Up(129, 129), Calls::Enter)),
    (1, Act::Each(Ids::Up(2, 99), Calls::Enter)),
    (1, Act::Each(Ids::Up(1, 1), Calls::Enter)),
    (1, Act::Each(Ids::Up(100, 128), Calls::Enter)),
    (1, Act::Each(Ids::Up(130, 300), Calls::Enter)),
    (0, SEEK_MID),
    (0, SEEK_ROOT),
    (0, SEEK_ROOT),
    (1, SEEK_MID),
    (1, SEEK_ROOT),
    (0, SEEK_MID),
    (1, SEEK_MID),
    (1, SEEK_ROOT),
    (1, SEEK_MID),
    (1, SEEK_MID),
    (0, Act::Exit(300)),
    (0, Act::Exit(129)),
    (1, SEEK_MID),
    (0, SEEK_MID),
    (0, SEEK_ROOT),
    (0, SEEK_MID),
    (0, SEEK_ROOT),
    (1, Act::Exit(1)),
    (0, SEEK_ROOT),
    (1, SEEK_ROOT),
    (1, SEEK_MID),
    (1, SEEK_ROOT),
];

const ANSWERS_BY_TURNS: &str = "\
= 1
= entered
= accepted 254
= 129
= entered
= accepted 342
= accepted 1
= accepted 98
= accepted 1
= accepted 29
= accepted 171
L2 event 129 w0 mid INFO seek
= told
L1 event 1 w0 root INFO seek
= told
L1 event 1 w0 root INFO seek
= told
L2 event 129 w1 mid INFO seek
= told
L1 event 1 w1 root INFO seek
= told
L2 event 129 w0 mid INFO seek
= told
L2 event 129 w1 mid INFO seek
= told
L1 event 1 w1 root INFO seek
= told
L2 event 129 w1 mid INFO seek
= told
L2 event 129 w1 mid INFO seek
= told
= open
= open
L2 event 129 w1 mid INFO seek
= told
L2 event 0 w0 - INFO seek
= told
L1 event 1 w0 root INFO seek
= told
L2 event 0 w0 - INFO seek
= told
L1 event 1 w0 root INFO seek
= told
= open
L1 event 1 w0 root INFO seek
= told
L1 event 0 w1 - INFO seek
= told
L2 event 129 w1 mid INFO seek
= told
L1 event 0 w1 - INFO seek
= told
";

static PLAYS: [Play<'static>; 2] = [
    // A layer sees through a deep stack.
    Play {
        limits: LIMITS,
        plans: &PLANS,
        acts: ACTS,
        expected: ANSWERS,
    },
    // Each worker sees through its own stack.
    Play {
        limits: TWO_WORKERS,
        plans: &PLANS,
        acts: ACTS_BY_TURNS,
        expected: ANSWERS_BY_TURNS,
    },
];

#[test]
fn layers_see_through_deep_stacks(rt: HostRuntime) {
    for of in &PLAYS {
        let played = played(&rt, rt.alloc(), of);
        ends(&rt, &played, of.expected, (300, 0));
    }
}
