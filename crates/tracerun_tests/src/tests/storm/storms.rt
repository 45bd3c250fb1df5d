//! Whole storms.
ghost use Rattle.std.specs.Prelude.{◌<◌, ◌≤◌};

use crate::tests::compare::{equal, is_text};
use crate::tests::storm::layer::{REFUSED_FROM, storm_of_all};
use crate::tests::storm::meeting::{HoldsAt, HoldsOnce, HoldsWorkers, InOrder, Meeting};
use span_layers::Layers;
use span_registry::{Line, Report};
use span_run::Counted;
use span_storm::{Gate, Open, StormFault, show, storm};
use std::alloc::{AllocError, Global};
use std::process::Abort;
use std::sync::atomic::{AtomicU64, Ordering};
use std::sync::{Arc, Wait};
use std::thread;
use std::thread::Threads;

const TWO_BY_THREE: &str =
    "workers 2\nrounds 3\nmade 12\nclosed 12\ncalls 54\nlines 42\nrefused 0\nleft 0\n";

// The text of a storm that ended: its numbers.
fn numbers(rt: &impl Abort, alloc: Global, workers: u32, rounds: u32, report: &Report) -> Vec<u8> {
    let mut output = Counted::new(Vec::new(alloc));
    show(workers, rounds, report, &mut output).expect(rt, "eight lines");
    output.into_inner()
}

// A storm ended so: this is the text of its numbers, or of the fault.
fn ends(
    rt: &impl Abort,
    alloc: Global,
    workers: u32,
    rounds: u32,
    ended: &Result<Report, StormFault>,
    expected: &str,
) {
    match ended {
        Ok(report) => {
            let text = numbers(rt, alloc, workers, rounds, report);
            is_text(rt, text.as_slice(), expected);
        }
        Err(fault) => {
            let text = fault.to_string(alloc).expect(rt, "memory");
            equal(rt, text.as_str(), expected);
        }
    }
}

// A storm of two workers and three rounds that passes only where all three parties run at the same time.
fn met<R: Threads + Wait + Sync>(rt: &R, alloc: Global) -> Result<Report, StormFault> {
    let Ok(said) = Arc::new(alloc, AtomicU64::new(0)) else {
        return Err(StormFault::Memory);
    };
    let Ok(seen) = said.clone() else {
        return Err(StormFault::Memory);
    };
    let gate = Meeting::new(seen);
    storm_of_all(rt, alloc, 2, 3, said, &gate)
}

#[test]
fn workers_and_drain_run_at_the_same_time(rt: HostRuntime) {
    let ended = met(&rt, rt.alloc());
    ends(&rt, rt.alloc(), 2, 3, &ended, TWO_BY_THREE);
}

#[test]
fn two_storms_run_at_once(rt: HostRuntime) {
    let (one, other) = thread::join(
        &rt,
        || -> Result<Report, StormFault> { met(&rt, rt.alloc()) },
        || -> Result<Report, StormFault> { met(&rt, rt.alloc()) },
    );
    ends(&rt, rt.alloc(), 2, 3, &one, TWO_BY_THREE);
    ends(&rt, rt.alloc(), 2, 3, &other, TWO_BY_THREE);
}

#[test]
fn a_storm_needs_no_layer(rt: HostRuntime) {
    let alloc = rt.alloc();
    let layers: Layers = Layers::new(alloc);
    let ended = storm(&rt, alloc, 3, 2, layers, &Open);
    let expected =
        "workers 3\nrounds 2\nmade 12\nclosed 12\ncalls 54\nlines 0\nrefused 0\nleft 0\n";
    ends(&rt, alloc, 3, 2, &ended, expected);
}

// A number that is shared.
fn shared(rt: &impl Abort, alloc: Global, number: u64) -> Arc<AtomicU64> {
    Arc::new(alloc, AtomicU64::new(number)).expect(rt, "memory")
}

#[test]
fn texts_that_are_refused_memory_are_counted(rt: HostRuntime) {
    let alloc = rt.alloc();
    let said = shared(&rt, alloc, REFUSED_FROM);
    let ended = storm_of_all(&rt, alloc, 2, 3, said, &Open);
    let expected =
        "workers 2\nrounds 3\nmade 12\nclosed 12\ncalls 54\nlines 0\nrefused 42\nleft 0\n";
    ends(&rt, alloc, 2, 3, &ended, expected);
}

// A storm of two workers and so many rounds ends so with this gate.
fn ends_with_gate<G: Gate + Sync, R: Threads + Wait + Abort + Sync>(
    rt: &R,
    alloc: Global,
    rounds: u32,
    gate: &G,
    expected: &str,
)
    requires { (0 < rounds) × (rounds ≤ 400) }
{
    let said = shared(rt, alloc, 0);
    let ended = storm_of_all(rt, alloc, 2, rounds, said, gate);
    ends(rt, alloc, 2, rounds, &ended, expected);
}

const ONE_ROUND: &str =
    "workers 2\nrounds 1\nmade 4\nclosed 4\ncalls 18\nlines 14\nrefused 0\nleft 0\n";

// From which party on and from which of its calls on the parties are held in one round, and how the storm ends.
const HELD: [(u32, u64, &str); 7] = [
    (0, 1, "worker 0 was held"),
    (0, 9, "worker 0 was held"),
    (1, 1, "worker 1 was held"),
    (1, 4, "worker 1 was held"),
    (2, 1, "worker 2 was held"),
    (2, 2, ONE_ROUND),
    (0, 10, ONE_ROUND),
];

#[test]
fn the_lowest_party_that_is_held_is_told(rt: HostRuntime) {
    for (first, call, end) in &HELD {
        let gate = HoldsAt {
            first: *first,
            call: *call,
        };
        ends_with_gate(&rt, rt.alloc(), 1, &gate, end);
    }
}

// Which party is held at which of its calls alone in three rounds, and how the storm ends.
const HELD_ONCE: [(u32, u64, &str); 5] = [
    (1, 5, "worker 1 was held"),
    (0, 27, "worker 0 was held"),
    (2, 1, "worker 2 was held"),
    (2, 2, TWO_BY_THREE),
    (1, 28, TWO_BY_THREE),
];

#[test]
fn one_party_is_held_at_one_call_alone(rt: HostRuntime) {
    for (party, call, end) in &HELD_ONCE {
        let gate = HoldsOnce {
            party: *party,
            call: *call,
        };
        ends_with_gate(&rt, rt.alloc(), 3, &gate, end);
    }
}

#[test]
fn all_parties_are_held_at_once(rt: HostRuntime) {
    let gate = HoldsAt { first: 0, call: 1 };
    ends_with_gate(&rt, rt.alloc(), 3, &gate, "worker 0 was held");
}

#[test]
fn each_call_is_asked_for_once(rt: HostRuntime) {
    let gate = InOrder::new();
    ends_with_gate(&rt, rt.alloc(), 3, &gate, TWO_BY_THREE);
    equal(&rt, gate.last(), (27, 27, 1));
}

#[test]
fn calls_are_counted_over_all_rounds(rt: HostRuntime) {
    let gate = HoldsAt { first: 0, call: 10 };
    ends_with_gate(&rt, rt.alloc(), 2, &gate, "worker 0 was held");
}

#[test]
fn workers_that_are_held_at_once_make_no_call(rt: HostRuntime) {
    let alloc = rt.alloc();
    let said = shared(&rt, alloc, 0);
    let seen = said.clone().expect(&rt, "memory");
    let ended = storm_of_all(&rt, alloc, 2, 1, said, &HoldsWorkers { workers: 2 });
    ends(&rt, alloc, 2, 1, &ended, "worker 0 was held");
    equal(&rt, seen.load(Ordering::SeqCst), 0);
}

// The lines of two rounds of one worker: the number of the batch, the place, the layer and the text.
const TWO_ROUNDS: &str = "\
0 0 0 new 1 w0 job
2 0 0 enter 1 w0 job
3 0 0 event 1 w0 job INFO tick
4 0 0 new 2 w0 job:step
5 0 0 close 2 w0 job:step
6 0 0 exit 1 w0 job
8 0 0 close 1 w0 job
9 0 0 new 16777217 w0 job
11 0 0 enter 16777217 w0 job
12 0 0 event 16777217 w0 job INFO tick
13 0 0 new 16777218 w0 job:step
14 0 0 close 16777218 w0 job:step
15 0 0 exit 16777217 w0 job
17 0 0 close 16777217 w0 job
";

// The number of the batch, the place, the layer and the text of each line.
fn numbered(alloc: Global, lines: &[Line]) -> Result<String, AllocError> {
    let mut all = String::new(alloc);
    for line in lines {
        add_line(&mut all, line)?;
    }
    Ok(all)
}

// The numbers and the text of a line, as the next line.
fn add_line(all: &mut String, line: &Line) -> Result<(), AllocError> {
    let (batch, place, layer) = (line.batch, line.place, line.layer);
    let text = str::from_utf8(line.text.as_slice()).unwrap_or("no text");
    write!(all, "{batch} {place} {layer} {text}\n")
}

#[test]
fn the_calls_of_two_rounds(rt: HostRuntime) {
    let alloc = rt.alloc();
    let said = shared(&rt, alloc, 0);
    let ended = storm_of_all(&rt, alloc, 1, 2, said, &Open);
    has_lines(&rt, alloc, &ended, TWO_ROUNDS);
}

// A storm ended with these lines.
fn has_lines(rt: &impl Abort, alloc: Global, ended: &Result<Report, StormFault>, expected: &str) {
    let report = ended.as_ref().expect(rt, "a report");
    let text = numbered(alloc, report.lines.as_slice()).expect(rt, "memory");
    equal(rt, text.as_str(), expected);
}
