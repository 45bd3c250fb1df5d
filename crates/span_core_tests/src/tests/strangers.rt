//! Strangers' ids: ids of every kind that no span has, in every call that takes an id.
use crate::tests::acts::{Act, Calls, Ids};
use crate::tests::play::Play;
use span_component_tests::plans::EVERYTHING;
use span_component_tests::values::STRANGERS;
use span_id::Limits;

const LIMITS: Limits = Limits {
    slots: 4,
    last_generation: 1,
    max_count: 9,
    workers: 1,
    ring: 16,
};

// The open span: the second of slot 1.
const OPEN: u64 = 16777218;

// Slot 0 is retired, slot 1 has its second span, which is open, slot 2 is free again, slot 3 was never used.
const ACTS: [(u32, Act<'static>); 18] = [
    (0, Act::Child("a", 0)),
    (0, Act::Close(1)),
    (0, Act::Child("a", 0)),
    (0, Act::Close(16777217)),
    (0, Act::Child("a", 0)),
    (0, Act::Close(2)),
    (0, Act::Child("a", 0)),
    (0, Act::Enter(OPEN)),
    (0, Act::Clone(OPEN)),
    (0, Act::Child("a", 0)),
    (0, Act::Close(3)),
    (0, Act::Count),
    (0, Act::Find(OPEN)),
    (0, Act::Each(Ids::These(&STRANGERS), Calls::OfIds)),
    (0, Act::Count),
    (0, Act::Find(OPEN)),
    (0, Act::Drain(LIMITS.ring)),
    (0, Act::Step),
];

// One span is open, with two handles and an entry; eleven calls were accepted, and none of those on strangers' ids.
const ANSWERS: &str = "\
= 1
= closed
= 16777217
= closed
= 2
= closed
= 16777218
= entered
= cloned
= 3
= closed
= counts 1 3 2 1 11 5 4
= found 2 1 3 0
= accepted 0
= counts 1 3 2 1 11 5 4
= found 2 1 3 0
= drained 11 0 10
= no batch
0 0 0 new 1 w0 a
1 0 0 close 1 w0 a
2 0 0 new 16777217 w0 a
3 0 0 close 16777217 w0 a
4 0 0 new 2 w0 a
5 0 0 close 2 w0 a
6 0 0 new 16777218 w0 a
7 0 0 enter 16777218 w0 a
9 0 0 new 3 w0 a
10 0 0 close 3 w0 a
";

pub(crate) const PLAY: Play<'static> = Play {
    limits: LIMITS,
    plans: &[EVERYTHING],
    acts: &ACTS,
    expected: ANSWERS,
};
