//! Calls on registries, and how these end: with handles given up, entries left or nothing.
use crate::tests::registry::acts::{Act, numbered};
use crate::tests::registry::ended_on_a_ring::run_to_end;
use crate::tests::registry::layers::{EVERYTHING, Plan};
use crate::tests::registry::same::same;
use span_id::{Level, Limits};
use span_registry::Report;
use std::alloc::{AllocError, Global};
use std::process::Abort;
use std::sync::Wait;

/// Calls on a registry with these layers and how it ends: what it answers, its report's numbers and its lines.
#[derive(Clone, Copy)]
pub(crate) struct Ending<'a> {
    pub(crate) plans: &'a [Plan<'a>],
    pub(crate) acts: &'a [(u32, Act<'a>)],
    pub(crate) answers: &'a str,
    pub(crate) numbers: &'a str,
    pub(crate) lines: &'a str,
}

// The numbers of a report, in words.
fn numbers(alloc: Global, report: &Report) -> Result<String, AllocError> {
    let Report {
        left,
        handles,
        entries,
        calls,
        made,
        closed,
        lines: _,
        missed,
    } = report;
    format!(in alloc;
        "left {left} handles {handles} entries {entries} calls {calls} made {made} closed {closed} missed {missed}"
    )
}

// The report has these numbers and these lines.
fn is_report(rt: &impl Abort, alloc: Global, report: &Report, ending: &Ending) {
    let counts = numbers(alloc, report).expect(rt, "memory");
    same(rt, counts.as_str(), ending.numbers);
    let lines = numbered(rt, alloc, report.lines.as_slice());
    same(rt, lines.as_str(), ending.lines);
}

/// A registry of these limits ends so.
pub(crate) fn ends<R: Wait + Abort>(rt: &R, alloc: Global, limits: Limits, ending: &Ending) {
    let mut answers = String::new(alloc);
    let report = run_to_end(rt, alloc, limits, ending.plans, ending.acts, &mut answers);
    same(rt, answers.as_str(), ending.answers);
    is_report(rt, alloc, &report, ending);
}

const EVERY_ANSWER: &str = "\
= 1
= cloned
= entered
= recorded
= told
Ok(Some(Found { name: \"a\", parent: None, handles: 2, entries: 1, count: 3 }))
= open
= open
= closed
Ok(None)
";

const EVERY_LINE: &str = "\
0 0 0 new 1 w0 a
2 0 0 enter 1 w0 a
3 0 0 record 1 w0 a k=v
4 0 0 event 1 w0 a INFO m
6 0 0 exit 1 w0 a
7 0 0 close 1 w0 a k=v
";

const ONE_WORKER: Limits = Limits {
    slots: 1024,
    last_generation: u32::MAX,
    max_count: u32::MAX,
    workers: 1,
    ring: 1024,
};

const TWO_WORKERS: Limits = Limits {
    workers: 2,
    ..ONE_WORKER
};

static ENDINGS: [(Limits, Ending<'static>); 7] = [
    // Every call once.
    (
        ONE_WORKER,
        Ending {
            plans: &[EVERYTHING],
            acts: &[
                (0, Act::New("a")),
                (0, Act::Clone(1)),
                (0, Act::Enter(1)),
                (0, Act::Record(1, &[("k", "v")])),
                (0, Act::Event(Level::Info, "m", &[])),
                (0, Act::Find(1)),
                (0, Act::Close(1)),
                (0, Act::Exit(1)),
                (0, Act::Close(1)),
                (0, Act::Find(1)),
            ],
            answers: EVERY_ANSWER,
            numbers: "left 0 handles 0 entries 0 calls 8 made 1 closed 1 missed 0",
            lines: EVERY_LINE,
        },
    ),
    // A handle given up leaves its span open.
    (
        ONE_WORKER,
        Ending {
            plans: &[EVERYTHING],
            acts: &[(0, Act::New("a"))],
            answers: "= 1\n",
            numbers: "left 1 handles 1 entries 0 calls 1 made 1 closed 0 missed 0",
            lines: "0 0 0 new 1 w0 a\n",
        },
    ),
    // A handle of a child given up leaves both open.
    (
        ONE_WORKER,
        Ending {
            plans: &[],
            acts: &[
                (0, Act::New("a")),
                (0, Act::Child("b", 1)),
                (0, Act::Close(1)),
            ],
            answers: "= 1\n= 2\n= open\n",
            numbers: "left 2 handles 1 entries 0 calls 3 made 2 closed 0 missed 0",
            lines: "",
        },
    ),
    // Another worker closes.
    (
        TWO_WORKERS,
        Ending {
            plans: &[EVERYTHING],
            acts: &[(0, Act::New("a")), (1, Act::Close(1))],
            answers: "= 1\n= closed\n",
            numbers: "left 0 handles 0 entries 0 calls 2 made 1 closed 1 missed 0",
            lines: "0 0 0 new 1 w0 a\n1 0 0 close 1 w1 a\n",
        },
    ),
    // An entry left keeps its span open.
    (
        ONE_WORKER,
        Ending {
            plans: &[EVERYTHING],
            acts: &[(0, Act::New("a")), (0, Act::Enter(1)), (0, Act::Close(1))],
            answers: "= 1\n= entered\n= open\n",
            numbers: "left 1 handles 0 entries 1 calls 3 made 1 closed 0 missed 0",
            lines: "0 0 0 new 1 w0 a\n1 0 0 enter 1 w0 a\n",
        },
    ),
    // Refusals come in their order.
    (
        Limits {
            slots: 1,
            max_count: 1,
            ..ONE_WORKER
        },
        Ending {
            plans: &[],
            acts: &[
                (0, Act::New("a")),
                (0, Act::Child("a b", 1)),
                (0, Act::Child("b", 2)),
                (0, Act::Child("b", 1)),
                (0, Act::Child("b", 0)),
                (0, Act::Exit(2)),
                (0, Act::Exit(1)),
                (0, Act::Close(1)),
            ],
            answers: "= 1\n! bad name\n! unknown\n! count full\n! full\n! unknown\n! not entered\n= closed\n",
            numbers: "left 0 handles 0 entries 0 calls 2 made 1 closed 1 missed 0",
            lines: "",
        },
    ),
    // An old id of a slot is unknown.
    (
        Limits {
            slots: 1,
            ..ONE_WORKER
        },
        Ending {
            plans: &[],
            acts: &[
                (0, Act::New("a")),
                (0, Act::Close(1)),
                (0, Act::New("b")),
                (0, Act::Exit(1)),
                (0, Act::Exit(16777217)),
                (0, Act::Child("c", 1)),
                (0, Act::Clone(16777217)),
                (0, Act::Close(16777217)),
                (0, Act::Close(16777217)),
            ],
            answers: "= 1\n= closed\n= 16777217\n! unknown\n! not entered\n! unknown\n= cloned\n= open\n= closed\n",
            numbers: "left 0 handles 0 entries 0 calls 6 made 2 closed 2 missed 0",
            lines: "",
        },
    ),
];

#[test]
fn a_registry_ends(rt: HostRuntime) {
    for (limits, ending) in &ENDINGS {
        ends(&rt, rt.alloc(), *limits, ending);
    }
}
