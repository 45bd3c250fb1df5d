//! Handles that one thread makes, a second enters and a third closes.
use crate::tests::registry::ended_by_reading::run_to_last_line;
use crate::tests::registry::jobs::{Task, Visit};
use crate::tests::registry::layers::{APP, EVERYTHING, Plan};
use crate::tests::registry::same::same;
use crate::tests::registry::threads::Turn;
use span_id::Limits;
use span_layers::{FmtSpan, Form};
use span_registry::Counts;

// Each worker makes so many jobs; the next one enters them, the next but one closes them, and then the second leaves
// them.
static TURNS: [Turn; 6] = [
    Turn::All(Task::Make(200)),
    Turn::HandOn,
    Turn::All(Task::Visit(Visit::Enter)),
    Turn::HandOn,
    Turn::All(Task::Visit(Visit::Close)),
    Turn::All(Task::Visit(Visit::Leave)),
];

// One layer of everything, one of spans that close, and one of those that are entered and left.
static PLANS: [Plan<'static>; 3] = [
    EVERYTHING,
    (Form::Compact, FmtSpan::CLOSE, APP),
    (Form::Json, FmtSpan::ACTIVE, APP),
];

// All calls of four workers, a job of whom has eight to be made and two each to be entered, closed and left.
const ALL: Counts = Counts {
    left: 0,
    handles: 0,
    entries: 0,
    calls: 11_200,
    made: 1600,
    closed: 1600,
};

#[test]
fn four_threads_hand_their_handles_on(rt: HostRuntime) {
    let limits = Limits {
        ring: 16_384,
        ..Limits::default()
    };
    let (counts, tally) = run_to_last_line(&rt, rt.alloc(), limits, &PLANS, &TURNS);
    same(&rt, counts, ALL);
    // Of each job and its step, and of four events.
    same(&rt, tally, [800 * 12, 800 * 6, 800 * 8]);
}
