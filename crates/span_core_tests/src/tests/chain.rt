//! A long chain of spans.
use crate::tests::acts::{Act, Calls, Ids};
use crate::tests::play::Play;
use span_component_tests::plans::{Plan, Wanted};
use span_id::{Level, Limits};
use span_layers::Form;

const LENGTH: u64 = 65536;

const LIMITS: Limits = Limits {
    slots: 65536,
    last_generation: 0,
    max_count: 2,
    workers: 1,
    ring: 1,
};

// The layer wants neither new spans nor closes: each note of a new span would name all spans above it.
const PLAN: Plan<'static> = (Form::Compact, Wanted::EnterAndExit, "", Level::Trace);

pub(crate) const PLAY: Play<'static> = Play {
    limits: LIMITS,
    plans: &[PLAN],
    acts: &[
        (0, Act::Child("p", 0)),
        (0, Act::Each(Ids::Up(1, LENGTH - 1), Calls::Grow)),
        (0, Act::Count),
        (0, Act::Close(LENGTH)),
    ],
    expected: "= 1\n= accepted 131070\n= counts 65536 1 1 0 131071 65536 0\n= closed\n",
};
