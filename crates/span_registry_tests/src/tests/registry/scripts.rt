//! Scripts of calls on a registry, through its handles.
use crate::tests::registry::acts::Act;
use crate::tests::registry::endings::{Ending, ends};
use crate::tests::registry::layers::{ALL, APP, EVERYTHING};
use span_id::{Level, Limits};
use span_layers::{FmtSpan, Form};

// What holds spans.
static HELD: [Ending<'static>; 4] = [
    // Closes come child first.
    Ending {
        plans: &[EVERYTHING],
        acts: &[
            (0, Act::New("a")),
            (0, Act::Child("b", 1)),
            (0, Act::Close(1)),
            (0, Act::Close(2)),
        ],
        answers: "= 1\n= 2\n= open\n= closed\n",
        numbers: "left 0 handles 0 entries 0 calls 4 made 2 closed 2 missed 0",
        lines: "\
0 0 0 new 1 w0 a
1 0 0 new 2 w0 a:b
3 0 0 close 2 w0 a:b
3 1 0 close 1 w0 a
",
    },
    // A span is entered twice and left twice.
    Ending {
        plans: &[EVERYTHING],
        acts: &[
            (0, Act::New("a")),
            (0, Act::Enter(1)),
            (0, Act::Enter(1)),
            (0, Act::Close(1)),
            (0, Act::Exit(1)),
            (0, Act::Exit(1)),
        ],
        answers: "= 1\n= entered\n= again\n= open\n= open\n= closed\n",
        numbers: "left 0 handles 0 entries 0 calls 6 made 1 closed 1 missed 0",
        lines: "\
0 0 0 new 1 w0 a
1 0 0 enter 1 w0 a
2 0 0 enter 1 w0 a
4 0 0 exit 1 w0 a
5 0 0 exit 1 w0 a
5 1 0 close 1 w0 a
",
    },
    // A second entry is not current. The second entry of the first span is no current span, so the new span goes under
    // the other.
    Ending {
        plans: &[],
        acts: &[
            (0, Act::New("a")),
            (0, Act::New("b")),
            (0, Act::Enter(1)),
            (0, Act::Enter(2)),
            (0, Act::Enter(1)),
            (0, Act::New("c")),
            (0, Act::Find(3)),
            (0, Act::Exit(1)),
            (0, Act::Exit(2)),
            (0, Act::Exit(1)),
            (0, Act::Close(1)),
            (0, Act::Close(2)),
            (0, Act::Close(3)),
        ],
        answers: "\
= 1
= 2
= entered
= entered
= again
= 3
Ok(Some(Found { name: \"c\", parent: Some(Id { number: 2 }), handles: 1, entries: 0, count: 1 }))
= open
= open
= open
= closed
= open
= closed
",
        numbers: "left 0 handles 0 entries 0 calls 12 made 3 closed 3 missed 0",
        lines: "",
    },
    // What holds a span is listed. A span is open as long as something is listed for it, here its child, which one
    // worker has entered twice.
    Ending {
        plans: &[],
        acts: &[
            (0, Act::Ask(1)),
            (0, Act::New("a")),
            (0, Act::Child("b", 1)),
            (0, Act::Child("c", 0)),
            (0, Act::Clone(2)),
            (1, Act::Enter(2)),
            (0, Act::Enter(2)),
            (0, Act::Enter(2)),
            (0, Act::Close(1)),
            (0, Act::Ask(1)),
            (0, Act::Ask(2)),
            (1, Act::Ask(3)),
            (0, Act::Close(2)),
            (0, Act::Close(2)),
            (0, Act::Exit(2)),
            (1, Act::Exit(2)),
            (0, Act::Ask(1)),
            (0, Act::Exit(2)),
            (1, Act::Ask(1)),
            (0, Act::Close(3)),
            (1, Act::Ask(3)),
        ],
        answers: "\
Ok([])
Ok([])
Err(Unknown)
Ok([])
Ok([])
= 1
= 2
= 3
= cloned
= entered
= entered
= again
= open
Ok([Id { number: 1 }, Id { number: 2 }, Id { number: 3 }])
Ok([Held { id: Id { number: 2 }, handles: 2, entries: 2 }, Held { id: Id { number: 3 }, handles: 1, entries: 0 }])
Ok([Held { id: Id { number: 2 }, handles: 2, entries: 2 }])
Ok([])
Ok([SpanDetails { id: Id { number: 1 }, meta: Meta { name: \"a\", target: \"app\", level: Info }, \
    parent: None, handles: 0, workers: [], children: 1 }, SpanDetails { id: Id { number: 2 }, \
    meta: Meta { name: \"b\", target: \"app\", level: Info }, parent: Some(Id { number: 1 }), \
    handles: 2, workers: [0, 1], children: 0 }, SpanDetails { id: Id { number: 3 }, \
    meta: Meta { name: \"c\", target: \"app\", level: Info }, parent: None, handles: 1, \
    workers: [], children: 0 }])
Ok([Id { number: 1 }, Id { number: 2 }, Id { number: 3 }])
Ok([Held { id: Id { number: 2 }, handles: 2, entries: 2 }, Held { id: Id { number: 3 }, handles: 1, entries: 0 }])
Ok([Held { id: Id { number: 2 }, handles: 2, entries: 2 }])
Ok([0, 1])
Ok([SpanDetails { id: Id { number: 1 }, meta: Meta { name: \"a\", target: \"app\", level: Info }, \
    parent: None, handles: 0, workers: [], children: 1 }, SpanDetails { id: Id { number: 2 }, \
    meta: Meta { name: \"b\", target: \"app\", level: Info }, parent: Some(Id { number: 1 }), \
    handles: 2, workers: [0, 1], children: 0 }, SpanDetails { id: Id { number: 3 }, \
    meta: Meta { name: \"c\", target: \"app\", level: Info }, parent: None, handles: 1, \
    workers: [], children: 0 }])
Ok([Id { number: 1 }, Id { number: 2 }, Id { number: 3 }])
Ok([Held { id: Id { number: 2 }, handles: 2, entries: 2 }, Held { id: Id { number: 3 }, handles: 1, entries: 0 }])
Ok([Held { id: Id { number: 3 }, handles: 1, entries: 0 }])
Ok([])
Ok([SpanDetails { id: Id { number: 1 }, meta: Meta { name: \"a\", target: \"app\", level: Info }, \
    parent: None, handles: 0, workers: [], children: 1 }, SpanDetails { id: Id { number: 2 }, \
    meta: Meta { name: \"b\", target: \"app\", level: Info }, parent: Some(Id { number: 1 }), \
    handles: 2, workers: [0, 1], children: 0 }, SpanDetails { id: Id { number: 3 }, \
    meta: Meta { name: \"c\", target: \"app\", level: Info }, parent: None, handles: 1, \
    workers: [], children: 0 }])
= open
= open
= open
= open
Ok([Id { number: 1 }, Id { number: 2 }, Id { number: 3 }])
Ok([Held { id: Id { number: 2 }, handles: 0, entries: 1 }, Held { id: Id { number: 3 }, handles: 1, entries: 0 }])
Ok([Held { id: Id { number: 2 }, handles: 0, entries: 1 }])
Ok([])
Ok([SpanDetails { id: Id { number: 1 }, meta: Meta { name: \"a\", target: \"app\", level: Info }, \
    parent: None, handles: 0, workers: [], children: 1 }, SpanDetails { id: Id { number: 2 }, \
    meta: Meta { name: \"b\", target: \"app\", level: Info }, parent: Some(Id { number: 1 }), \
    handles: 0, workers: [0], children: 0 }, SpanDetails { id: Id { number: 3 }, \
    meta: Meta { name: \"c\", target: \"app\", level: Info }, parent: None, handles: 1, \
    workers: [], children: 0 }])
= closed
Ok([Id { number: 3 }])
Ok([Held { id: Id { number: 3 }, handles: 1, entries: 0 }])
Err(Unknown)
Ok([])
Ok([SpanDetails { id: Id { number: 3 }, meta: Meta { name: \"c\", target: \"app\", level: Info }, \
    parent: None, handles: 1, workers: [], children: 0 }])
= closed
Ok([])
Ok([])
Err(Unknown)
Ok([])
Ok([])
",
        numbers: "left 0 handles 0 entries 0 calls 14 made 3 closed 3 missed 0",
        lines: "",
    },
];

// What layers are told.
static TOLD: [Ending<'static>; 5] = [
    // Each layer has its own path.
    Ending {
        plans: &[
            (Form::Compact, FmtSpan::NEW, ALL),
            (Form::Compact, FmtSpan::NEW, APP),
        ],
        acts: &[
            (0, Act::New("a")),
            (0, Act::Enter(1)),
            (0, Act::Make("q", "lib", &[])),
            (0, Act::Enter(2)),
            (0, Act::New("c")),
            (0, Act::Event(Level::Info, "hi", &[("k", "v")])),
            (1, Act::EventIn(3, "of c")),
            (0, Act::EventIn(2, "of q")),
            (0, Act::EventIn(0, "of none")),
            (0, Act::EventIn(4, "of none that is there")),
            (0, Act::Exit(2)),
            (0, Act::Exit(1)),
            (0, Act::Close(1)),
            (0, Act::Close(3)),
            (0, Act::Close(2)),
        ],
        answers: "\
= 1
= entered
= 2
= entered
= 3
= told
= told
= told
= told
! unknown
= open
= open
= open
= closed
= closed
",
        numbers: "left 0 handles 0 entries 0 calls 14 made 3 closed 3 missed 0",
        lines: "\
0 0 0 new 1 w0 a
0 1 1 new 1 w0 a
2 0 0 new 2 w0 a:q
4 0 0 new 3 w0 a:q:c
4 1 1 new 3 w0 a:c
5 0 0 event 2 w0 a:q INFO hi k=v
5 1 1 event 1 w0 a INFO hi k=v
6 0 0 event 3 w1 a:q:c INFO of c
6 1 1 event 3 w1 a:c INFO of c
7 0 0 event 2 w0 a:q INFO of q
7 1 1 event 0 w0 - INFO of q
8 0 0 event 0 w0 - INFO of none
8 1 1 event 0 w0 - INFO of none
",
    },
    // Fields in both forms.
    Ending {
        plans: &[(Form::Json, FmtSpan::FULL, ALL), EVERYTHING],
        acts: &[
            (0, Act::Make("a", "app", &[("k", "1")])),
            (0, Act::Record(1, &[("k", "2")])),
            (0, Act::Event(Level::Warn, "x\ny", &[])),
            (0, Act::Close(1)),
        ],
        answers: "= 1\n= recorded\n= told\n= closed\n",
        numbers: "left 0 handles 0 entries 0 calls 4 made 1 closed 1 missed 0",
        lines: "\
0 0 0 {\"fields\":[[\"k\",\"1\"]],\"id\":1,\"kind\":\"new\",\"path\":\"a\",\"worker\":0}
0 1 1 new 1 w0 a k=1
1 0 0 {\"fields\":[[\"k\",\"2\"]],\"id\":1,\"kind\":\"record\",\"path\":\"a\",\"worker\":0}
1 1 1 record 1 w0 a k=2
2 0 0 {\"fields\":[],\"id\":0,\"kind\":\"event\",\"level\":\"WARN\",\"message\":\"x\\ny\",\"path\":\"-\",\"worker\":0}
2 1 1 event 0 w0 - WARN x\\ny
3 0 0 {\"fields\":[[\"k\",\"1\"],[\"k\",\"2\"]],\"id\":1,\"kind\":\"close\",\"path\":\"a\",\"worker\":0}
3 1 1 close 1 w0 a k=1 k=2
",
    },
    // Each call is made by its worker.
    Ending {
        plans: &[EVERYTHING],
        acts: &[
            (0, Act::New("a")),
            (1, Act::New("b")),
            (1, Act::Clone(2)),
            (1, Act::Record(2, &[("k", "v")])),
            (1, Act::Event(Level::Info, "m", &[])),
            (1, Act::Close(2)),
            (1, Act::Close(2)),
            (0, Act::Close(1)),
        ],
        answers: "= 1\n= 2\n= cloned\n= recorded\n= told\n= open\n= closed\n= closed\n",
        numbers: "left 0 handles 0 entries 0 calls 8 made 2 closed 2 missed 0",
        lines: "\
0 0 0 new 1 w0 a
1 0 0 new 2 w1 b
3 0 0 record 2 w1 b k=v
4 0 0 event 0 w1 - INFO m
6 0 0 close 2 w1 b k=v
7 0 0 close 1 w0 a
",
    },
    // Notes name the worker that enters.
    Ending {
        plans: &[EVERYTHING],
        acts: &[
            (0, Act::New("b")),
            (0, Act::New("a")),
            (1, Act::Enter(1)),
            (1, Act::Exit(1)),
            (0, Act::Close(2)),
            (0, Act::Close(1)),
        ],
        answers: "= 1\n= 2\n= entered\n= open\n= closed\n= closed\n",
        numbers: "left 0 handles 0 entries 0 calls 6 made 2 closed 2 missed 0",
        lines: "\
0 0 0 new 1 w0 b
1 0 0 new 2 w0 a
2 0 0 enter 1 w1 b
3 0 0 exit 1 w1 b
4 0 0 close 2 w0 a
5 0 0 close 1 w0 b
",
    },
    // Another worker closes a whole chain.
    Ending {
        plans: &[(Form::Compact, FmtSpan::CLOSE, ALL)],
        acts: &[
            (0, Act::New("a")),
            (0, Act::Child("b", 1)),
            (1, Act::Child("c", 2)),
            (1, Act::Close(1)),
            (0, Act::Close(2)),
            (1, Act::Close(3)),
        ],
        answers: "= 1\n= 2\n= 3\n= open\n= open\n= closed\n",
        numbers: "left 0 handles 0 entries 0 calls 6 made 3 closed 3 missed 0",
        lines: "\
5 0 0 close 3 w1 a:b:c
5 1 0 close 2 w1 a:b
5 2 0 close 1 w1 a
",
    },
];

#[test]
fn a_registry_answers_what_is_held_and_told(rt: HostRuntime) {
    for script in HELD.iter().chain(&TOLD) {
        ends(&rt, rt.alloc(), Limits::default(), script);
    }
}
