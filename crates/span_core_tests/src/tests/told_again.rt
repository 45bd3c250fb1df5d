//! Paths that are told again at a span whose layers see different ones.
use crate::tests::acts::Act;
use crate::tests::play::{Play, SMALL};
use span_component_tests::plans::{EVERYTHING, Plan, Wanted};
use span_id::{Level, Limits};
use span_layers::Form;

const LIMITS: Limits = Limits { ring: 16, ..SMALL };

const ALL: Plan<'static> = (Form::Compact, Wanted::New, "", Level::Trace);

const APP: Plan<'static> = (Form::Compact, Wanted::New, "app", Level::Trace);

// The first and the fifth layer see other paths, and so do the second and the sixth.
const SIX: [Plan<'static>; 6] = [ALL, APP, ALL, APP, APP, ALL];

// A span that not all layers admit.
const Q: Act<'static> = Act::NewWith("q", "lib", Level::Info, &[]);

const HI: Act<'static> = Act::Event("app", Level::Info, "hi", &[]);

const ON_A_RING: [(u32, Act<'static>); 7] = [
    (0, Q),
    (0, Act::Enter(1)),
    (0, Act::New("b")),
    (0, Act::Enter(2)),
    (0, HI),
    (0, HI),
    (0, Act::Drain(6)),
];

const ON_A_RING_ANSWERS: &str =
    "= 1\n= entered\n= 2\n= entered\n= told\n= told\n= drained 6 0 21\n0 0 0 new 1 w0 q\n\
        0 1 2 new 1 w0 q\n0 2 5 new 1 w0 q\n2 0 0 new 2 w0 q:b\n2 1 1 new 2 w0 b\n\
        2 2 2 new 2 w0 q:b\n2 3 3 new 2 w0 b\n2 4 4 new 2 w0 b\n2 5 5 new 2 w0 q:b\n\
        4 0 0 event 2 w0 q:b INFO hi\n4 1 1 event 2 w0 b INFO hi\n4 2 2 event 2 w0 q:b INFO hi\n\
        4 3 3 event 2 w0 b INFO hi\n4 4 4 event 2 w0 b INFO hi\n4 5 5 event 2 w0 q:b INFO hi\n\
        5 0 0 event 2 w0 q:b INFO hi\n5 1 1 event 2 w0 b INFO hi\n5 2 2 event 2 w0 q:b INFO hi\n\
        5 3 3 event 2 w0 b INFO hi\n5 4 4 event 2 w0 b INFO hi\n5 5 5 event 2 w0 q:b INFO hi\n";

// On a ring later calls share the texts.
pub(crate) const KEPT_ON_A_RING: Play<'static> = Play {
    limits: LIMITS,
    plans: &SIX,
    acts: &ON_A_RING,
    expected: ON_A_RING_ANSWERS,
};

// Each layer sees another path than the one four before it.
const SEVEN: [Plan<'static>; 7] = [
    EVERYTHING,
    (Form::Compact, Wanted::All, "app", Level::Trace),
    (Form::Compact, Wanted::EnterAndExit, "lib", Level::Trace),
    (Form::Compact, Wanted::NewAndClose, "", Level::Trace),
    (Form::Compact, Wanted::EnterAndExit, "app", Level::Trace),
    (Form::Compact, Wanted::ExitAndClose, "", Level::Trace),
    APP,
];

const R: Act<'static> = Act::NewWith("r", "lib", Level::Info, &[]);

const C: Act<'static> = Act::NewWith("c", "lib", Level::Info, &[]);

const E: Act<'static> = Act::NewWith("e", "lib", Level::Info, &[]);

const THREE_SLOTS: Limits = Limits {
    slots: 3,
    last_generation: 2,
    max_count: 8,
    workers: 1,
    ring: 32,
};

// The spans `e` and `d` get the slot that `c` had.
const FROM_THE_FIRST_NOTE_ON: [(u32, Act<'static>); 23] = [
    (0, R),
    (0, Act::Enter(1)),
    (0, Act::New("p")),
    (0, Act::Enter(2)),
    (0, C),
    (0, Act::Enter(3)),
    (0, HI),
    (0, Act::Exit(3)),
    (0, Act::Close(3)),
    (0, E),
    (0, Act::Enter(16777219)),
    (0, Act::Exit(16777219)),
    (0, Act::Close(16777219)),
    (0, Act::New("d")),
    (0, Act::Enter(33554435)),
    (0, HI),
    (0, Act::Exit(33554435)),
    (0, Act::Close(33554435)),
    (0, Act::Exit(2)),
    (0, Act::Close(2)),
    (0, Act::Exit(1)),
    (0, Act::Close(1)),
    (0, Act::Drain(22)),
];

const FROM_THE_FIRST_NOTE_ON_LINES: &str = "\
= 1
= entered
= 2
= entered
= 3
= entered
= told
= open
= closed
= 16777219
= entered
= open
= closed
= 33554435
= entered
= told
= open
= closed
= open
= closed
= open
= closed
= drained 22 0 72
0 0 0 new 1 w0 r
0 1 3 new 1 w0 r
1 0 0 enter 1 w0 r
1 1 2 enter 1 w0 r
2 0 0 new 2 w0 r:p
2 1 1 new 2 w0 p
2 2 3 new 2 w0 r:p
2 3 6 new 2 w0 p
3 0 0 enter 2 w0 r:p
3 1 1 enter 2 w0 p
3 2 4 enter 2 w0 p
4 0 0 new 3 w0 r:p:c
4 1 3 new 3 w0 r:p:c
5 0 0 enter 3 w0 r:p:c
5 1 2 enter 3 w0 r:c
6 0 0 event 3 w0 r:p:c INFO hi
6 1 1 event 2 w0 p INFO hi
6 2 3 event 3 w0 r:p:c INFO hi
6 3 4 event 2 w0 p INFO hi
6 4 5 event 3 w0 r:p:c INFO hi
6 5 6 event 2 w0 p INFO hi
7 0 0 exit 3 w0 r:p:c
7 1 2 exit 3 w0 r:c
7 2 5 exit 3 w0 r:p:c
8 0 0 close 3 w0 r:p:c
8 1 3 close 3 w0 r:p:c
8 2 5 close 3 w0 r:p:c
9 0 0 new 16777219 w0 r:p:e
9 1 3 new 16777219 w0 r:p:e
10 0 0 enter 16777219 w0 r:p:e
10 1 2 enter 16777219 w0 r:e
11 0 0 exit 16777219 w0 r:p:e
11 1 2 exit 16777219 w0 r:e
11 2 5 exit 16777219 w0 r:p:e
12 0 0 close 16777219 w0 r:p:e
12 1 3 close 16777219 w0 r:p:e
12 2 5 close 16777219 w0 r:p:e
13 0 0 new 33554435 w0 r:p:d
13 1 1 new 33554435 w0 p:d
13 2 3 new 33554435 w0 r:p:d
13 3 6 new 33554435 w0 p:d
14 0 0 enter 33554435 w0 r:p:d
14 1 1 enter 33554435 w0 p:d
14 2 4 enter 33554435 w0 p:d
15 0 0 event 33554435 w0 r:p:d INFO hi
15 1 1 event 33554435 w0 p:d INFO hi
15 2 3 event 33554435 w0 r:p:d INFO hi
15 3 4 event 33554435 w0 p:d INFO hi
15 4 5 event 33554435 w0 r:p:d INFO hi
15 5 6 event 33554435 w0 p:d INFO hi
16 0 0 exit 33554435 w0 r:p:d
16 1 1 exit 33554435 w0 p:d
16 2 4 exit 33554435 w0 p:d
16 3 5 exit 33554435 w0 r:p:d
17 0 0 close 33554435 w0 r:p:d
17 1 1 close 33554435 w0 p:d
17 2 3 close 33554435 w0 r:p:d
17 3 5 close 33554435 w0 r:p:d
18 0 0 exit 2 w0 r:p
18 1 1 exit 2 w0 p
18 2 4 exit 2 w0 p
18 3 5 exit 2 w0 r:p
19 0 0 close 2 w0 r:p
19 1 1 close 2 w0 p
19 2 3 close 2 w0 r:p
19 3 5 close 2 w0 r:p
20 0 0 exit 1 w0 r
20 1 2 exit 1 w0 r
20 2 5 exit 1 w0 r
21 0 0 close 1 w0 r
21 1 3 close 1 w0 r
21 2 5 close 1 w0 r
";

// What a new span's notes told is told again to the same layers and to others, and not at the spans that get its slot.
pub(crate) const TOLD_AGAIN_ON_A_RING: Play<'static> = Play {
    limits: THREE_SLOTS,
    plans: &SEVEN,
    acts: &FROM_THE_FIRST_NOTE_ON,
    expected: FROM_THE_FIRST_NOTE_ON_LINES,
};
