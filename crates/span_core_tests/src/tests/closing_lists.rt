//! The closing lists that calls show, and the counts after them.
use crate::tests::acts::Act;
use crate::tests::play::Play;
use span_id::Limits;

const LIMITS: Limits = Limits {
    slots: 2,
    last_generation: 0,
    max_count: 3,
    workers: 2,
    ring: 1,
};

// A root and its child, which is entered. A worker that is inside the child enters it again, and another worker comes in
// and leaves it: only the other worker's entry is one more, the fourth of the counts. A worker that isn't inside the child
// doesn't leave it, and no list is shown; nor is one of an id that isn't there. Then the last handle of the child goes,
// which closes nothing, and its entry, which closes it and its parent.
const ANSWERS: &str = "\
= counts 0 0 0 0 0 0 0
= 1
= 2
= entered
= open
= counts 2 2 1 1 4 2 0
= again
= counts 2 2 1 1 5 2 0
= entered
= counts 2 3 1 2 6 2 0
= open
= counts 2 3 1 2 7 2 0
= open
= counts 2 2 1 1 8 2 0
! not entered
! unknown
= open 0 0 0
= counts 2 1 0 1 9 2 0
= closed 2 2 1
= counts 0 0 0 0 10 2 2
";

// Generation 7 of the child's slot.
const STRANGER: u64 = 117440514;

pub(crate) const PLAY: Play<'static> = Play {
    limits: LIMITS,
    plans: &[],
    acts: &[
        (0, Act::Count),
        (0, Act::Child("a", 0)),
        (0, Act::Child("b", 1)),
        (0, Act::Enter(2)),
        (0, Act::Close(1)),
        (0, Act::Count),
        (0, Act::Enter(2)),
        (0, Act::Count),
        (1, Act::Enter(2)),
        (0, Act::Count),
        (0, Act::Exit(2)),
        (0, Act::Count),
        (1, Act::Exit(2)),
        (0, Act::Count),
        (1, Act::ExitShown(2)),
        (1, Act::CloseShown(STRANGER)),
        (0, Act::CloseShown(2)),
        (0, Act::Count),
        (0, Act::ExitShown(2)),
        (0, Act::Count),
    ],
    expected: ANSWERS,
};
