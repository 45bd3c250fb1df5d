//! Scripts of calls, with what is answered and which lines are told.
use crate::tests::acts::Act;
use crate::tests::play::{Play, THREE_WORKERS, plays};
use crate::tests::{chain, closing_lists, sharing, workers};
use span_component_tests::plans::{EVERYTHING, Plan, Wanted};
use span_id::{Level, Limits};
use span_layers::Form;

const NO_KIND: Plan<'static> = (Form::Compact, Wanted::None, "", Level::Trace);

const FEW: Limits = Limits {
    slots: 1,
    max_count: 1,
    ..THREE_WORKERS
};

// (More in one table would be too much for one proof.)
static SPANS_AND_EVENTS: [Play<'static>; 6] = [
    // A span is made and closed.
    Play {
        limits: THREE_WORKERS,
        plans: &[EVERYTHING],
        acts: &[(0, Act::New("a")), (0, Act::Close(1))],
        expected: "L0 new 1 w0 a\n= 1\nL0 close 1 w0 a\n= closed\n",
    },
    // Closes come child first.
    Play {
        limits: THREE_WORKERS,
        plans: &[EVERYTHING],
        acts: &[
            (0, Act::New("a")),
            (0, Act::Child("b", 1)),
            (0, Act::Close(1)),
            (0, Act::Close(2)),
        ],
        expected: "L0 new 1 w0 a\n= 1\nL0 new 2 w0 a:b\n= 2\n= open\nL0 close 2 w0 a:b\nL0 close 1 w0 a\n= closed\n",
    },
    // A layer wants closes alone.
    Play {
        limits: THREE_WORKERS,
        plans: &[(Form::Compact, Wanted::Close, "", Level::Trace)],
        acts: &[
            (0, Act::New("a")),
            (0, Act::Child("b", 1)),
            (0, Act::Child("c", 2)),
            (0, Act::Close(1)),
            (0, Act::Close(2)),
            (0, Act::Close(3)),
        ],
        expected: "= 1\n= 2\n= 3\n= open\n= open\nL0 close 3 w0 a:b:c\nL0 close 2 w0 a:b\nL0 close 1 w0 a\n= closed\n",
    },
    // A span is entered twice and left twice.
    Play {
        limits: THREE_WORKERS,
        plans: &[EVERYTHING],
        acts: &[
            (0, Act::New("a")),
            (0, Act::Enter(1)),
            (0, Act::Enter(1)),
            (0, Act::Close(1)),
            (0, Act::Exit(1)),
            (0, Act::Exit(1)),
        ],
        expected: "L0 new 1 w0 a\n= 1\nL0 enter 1 w0 a\n= entered\nL0 enter 1 w0 a\n= again\n\
            = open\nL0 exit 1 w0 a\n= open\nL0 exit 1 w0 a\nL0 close 1 w0 a\n= closed\n",
    },
    // Each layer has its own path. A span of another target below the first one, and an event and a span below it.
    Play {
        limits: THREE_WORKERS,
        plans: &[
            (Form::Compact, Wanted::New, "", Level::Trace),
            (Form::Compact, Wanted::New, "app", Level::Info),
        ],
        acts: &[
            (0, Act::New("a")),
            (0, Act::Enter(1)),
            (0, Act::NewWith("q", "lib", Level::Info, &[])),
            (0, Act::Enter(2)),
            (0, Act::New("c")),
            (0, Act::Event("app", Level::Info, "hi", &[("k", "v")])),
            (0, Act::Exit(2)),
            (0, Act::Exit(1)),
            (0, Act::Close(1)),
            (0, Act::Close(3)),
            (0, Act::Close(2)),
        ],
        expected: "L0 new 1 w0 a\nL1 new 1 w0 a\n= 1\n= entered\nL0 new 2 w0 a:q\n= 2\n= entered\n\
            L0 new 3 w0 a:q:c\nL1 new 3 w0 a:c\n= 3\nL0 event 2 w0 a:q INFO hi k=v\n\
            L1 event 1 w0 a INFO hi k=v\n= told\n= open\n= open\n= open\n= closed\n= closed\n",
    },
    // An event is told under its parent. Under `q`, which the second layer refused, it sees an event in no span. The
    // event under a span whose count is at its greatest is told and holds nothing, and under a closed one none is told.
    Play {
        limits: Limits {
            max_count: 3,
            ..THREE_WORKERS
        },
        plans: &[
            (Form::Compact, Wanted::None, "", Level::Trace),
            (Form::Compact, Wanted::None, "app", Level::Info),
        ],
        acts: &[
            (0, Act::New("a")),
            (0, Act::Clone(1)),
            (0, Act::Enter(1)),
            (0, Act::EventIn(1, "full")),
            (0, Act::Find(1)),
            (0, Act::Exit(1)),
            (0, Act::Child("b", 0)),
            (0, Act::Enter(2)),
            (0, Act::NewWith("q", "lib", Level::Info, &[])),
            (0, Act::Exit(2)),
            (0, Act::Enter(1)),
            (0, Act::EventIn(3, "refused")),
            (0, Act::EventIn(2, "beside")),
            (1, Act::EventIn(2, "elsewhere")),
            (0, Act::EventIn(0, "nowhere")),
            (0, Act::Exit(1)),
            (0, Act::Close(1)),
            (0, Act::Close(1)),
            (0, Act::EventIn(1, "closed")),
            (0, Act::Close(2)),
            (0, Act::Close(3)),
        ],
        expected: "= 1\n= cloned\n= entered\nL0 event 1 w0 a INFO full\n\
            L1 event 1 w0 a INFO full\n= told\n= found 2 1 3 0\n= open\n= 2\n= entered\n= 3\n\
            = open\n= entered\nL0 event 3 w0 b:q INFO refused\nL1 event 0 w0 - INFO refused\n\
            = told\nL0 event 2 w0 b INFO beside\nL1 event 2 w0 b INFO beside\n= told\n\
            L0 event 2 w1 b INFO elsewhere\nL1 event 2 w1 b INFO elsewhere\n= told\n\
            L0 event 0 w0 - INFO nowhere\nL1 event 0 w0 - INFO nowhere\n= told\n= open\n= open\n\
            = closed\n! unknown\n= open\n= closed\n",
    },
];

static WANTED_AND_REFUSED: [Play<'static>; 5] = [
    // Unwanted spans are not made.
    Play {
        limits: THREE_WORKERS,
        plans: &[(Form::Compact, Wanted::All, "app", Level::Warn)],
        acts: &[
            (0, Act::New("a")),
            (0, Act::NewWith("b", "app", Level::Error, &[])),
            (0, Act::Close(1)),
        ],
        expected: "= not wanted\nL0 new 1 w0 b\n= 1\nL0 close 1 w0 b\n= closed\n",
    },
    // Notes name the worker that calls.
    Play {
        limits: THREE_WORKERS,
        plans: &[(Form::Compact, Wanted::ExitAndClose, "", Level::Trace)],
        acts: &[
            (0, Act::New("b")),
            (0, Act::New("a")),
            (1, Act::Enter(1)),
            (1, Act::Exit(1)),
            (0, Act::Close(2)),
            (0, Act::Close(1)),
        ],
        expected: "= 1\n= 2\n= entered\nL0 exit 1 w1 b\n= open\nL0 close 2 w0 a\n= closed\nL0 close 1 w0 b\n= closed\n",
    },
    // Names have at most 64 bytes.
    Play {
        limits: THREE_WORKERS,
        plans: &[NO_KIND; 64],
        acts: &[
            (
                0,
                Act::New("xxxxxxxxxxxxxxxxxxxxxxxxxxxxxxxxxxxxxxxxxxxxxxxxxxxxxxxxxxxxxxxx"),
            ),
            (
                0,
                Act::New("xxxxxxxxxxxxxxxxxxxxxxxxxxxxxxxxxxxxxxxxxxxxxxxxxxxxxxxxxxxxxxxxx"),
            ),
            (0, Act::New("")),
            (0, Act::New("a b")),
            (0, Act::Close(1)),
        ],
        expected: "= 1\n! bad name\n! bad name\n! bad name\n= closed\n",
    },
    // Fields in both forms.
    Play {
        limits: THREE_WORKERS,
        plans: &[(Form::Json, Wanted::All, "", Level::Trace), EVERYTHING],
        acts: &[
            (0, Act::NewWith("a", "app", Level::Info, &[("k", "1")])),
            (0, Act::Record(1, &[("k", "2")])),
            (0, Act::Event("app", Level::Warn, "x\ny", &[])),
            (0, Act::Close(1)),
        ],
        expected: "L0 {\"fields\":[[\"k\",\"1\"]],\"id\":1,\"kind\":\"new\",\"path\":\"a\",\"worker\":0}\n\
            L1 new 1 w0 a k=1\n= 1\n\
            L0 {\"fields\":[[\"k\",\"2\"]],\"id\":1,\"kind\":\"record\",\"path\":\"a\",\"worker\":0}\n\
            L1 record 1 w0 a k=2\n= recorded\n\
            L0 {\"fields\":[],\"id\":0,\"kind\":\"event\",\"level\":\"WARN\",\"message\":\"x\\ny\",\"path\":\"-\",\"worker\":0}\n\
            L1 event 0 w0 - WARN x\\ny\n= told\n\
            L0 {\"fields\":[[\"k\",\"1\"],[\"k\",\"2\"]],\"id\":1,\"kind\":\"close\",\"path\":\"a\",\"worker\":0}\n\
            L1 close 1 w0 a k=1 k=2\n= closed\n",
    },
    // Refusals come in their order.
    Play {
        limits: FEW,
        plans: &[],
        acts: &[
            (0, Act::New("a")),
            (0, Act::Child("a b", 1)),
            (0, Act::Child("b", 2)),
            (0, Act::Child("b", 1)),
            (0, Act::New("b")),
            (0, Act::Exit(2)),
            (0, Act::Exit(1)),
            (0, Act::Close(1)),
        ],
        expected: "= 1\n! bad name\n! unknown\n! count full\n! full\n! unknown\n! not entered\n= closed\n",
    },
];

static LONGER: [Play<'static>; 4] = [
    closing_lists::PLAY,
    workers::PLAY,
    chain::PLAY,
    sharing::DASH,
];

#[test]
fn plays_are_answered_and_told(rt: HostRuntime) {
    for of in &SPANS_AND_EVENTS {
        plays(&rt, rt.alloc(), of);
    }
    for of in &WANTED_AND_REFUSED {
        plays(&rt, rt.alloc(), of);
    }
    for of in &LONGER {
        plays(&rt, rt.alloc(), of);
    }
}
