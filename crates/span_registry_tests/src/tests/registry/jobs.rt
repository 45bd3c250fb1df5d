//! What a worker does in a thread of its own: it makes jobs, and enters, closes and leaves their spans.
use crate::tests::registry::acts::{Act, Answer, NEWEST};
use crate::tests::registry::layers::PlainRegistry;
use crate::tests::registry::on_registry::call;
use span_id::{Fault, Id, Level};
use span_registry::{DroppableHandle, Outlet, Setup, Worker};
use std::alloc::Global;
use std::mem;
use std::process::Abort;
use std::sync::Wait;
use std::sync::ledger::Ledger;

/// What is done with a job that is there.
#[derive(Clone, Copy)]
pub(crate) enum Visit {
    Enter,
    Close,
    Leave,
}

/// What all workers do at a time. Of each visit an event tells.
#[derive(Clone, Copy)]
pub(crate) enum Task {
    /// Make so many jobs, and keep a handle of each.
    Make(u32),
    /// Enter the spans of all handles, close all handles, or leave all spans.
    Visit(Visit),
}

/// A worker, the handles that it has, and the spans that it is inside.
#[derive(Drop)]
pub(crate) struct Station<H: Ledger, C: Ledger, S: Setup> {
    pub(crate) worker: Worker<H, C, S>,
    pub(crate) held: Vec<DroppableHandle<H, C, S>>,
    pub(crate) inside: Vec<Id>,
}

// The calls on a new job of this id, with a step inside it. It is entered by its first handle while it has a second one,
// which is then given back.
fn calls_on(job: Id) -> [Act<'static>; 7] {
    [
        Act::Clone(job.get()),
        Act::Enter(job.get()),
        Act::Event(Level::Info, "tick", &[]),
        Act::New("step"),
        Act::Close(NEWEST),
        Act::Exit(job.get()),
        Act::Close(NEWEST),
    ]
}

const TOCK: Act = Act::Event(Level::Info, "tock", &[]);

// A call has to be accepted, and a new span wanted.
fn is_accepted(answer: Answer) -> Result<(), Fault> {
    match answer {
        Answer::Refused(fault) => Err(fault),
        Answer::NotWanted | Answer::Counted(..) | Answer::Stepped(_) | Answer::NoCall => {
            Err(Fault::BadName)
        }
        _ => Ok(()),
    }
}

// All calls, which have to be accepted.
fn make_calls<H: Ledger, C: Ledger, S: Setup, O: Outlet, R: Wait + Abort>(
    rt: &R,
    alloc: Global,
    registry: &PlainRegistry<H, C, S, O>,
    worker: &mut Worker<H, C, S>,
    held: &mut Vec<DroppableHandle<H, C, S>>,
    acts: &[Act],
) {
    for act in acts {
        let answer = call(rt, alloc, registry, worker, held, act);
        is_accepted(answer).expect(rt, "a call is refused");
    }
}

// Jobs, of each of which one handle is left.
fn make_jobs<H: Ledger, C: Ledger, S: Setup, O: Outlet, R: Wait + Abort>(
    rt: &R,
    alloc: Global,
    registry: &PlainRegistry<H, C, S, O>,
    worker: &mut Worker<H, C, S>,
    held: &mut Vec<DroppableHandle<H, C, S>>,
    rounds: u32,
) {
    for _ in 0..rounds {
        make_calls(rt, alloc, registry, worker, held, &[Act::Child("job", 0)]);
        let job = held.last().expect(rt, "a job").handle.id();
        make_calls(rt, alloc, registry, worker, held, &calls_on(job));
    }
}

// The ids of the handles, in their order.
fn ids_of<H: Ledger, C: Ledger, S: Setup>(
    rt: &impl Abort,
    alloc: Global,
    held: &[DroppableHandle<H, C, S>],
) -> Vec<Id> {
    let mut ids = Vec::new(alloc);
    for one in held {
        ids.push(one.handle.id()).expect(rt, "memory");
    }
    ids
}

// The call of a visit.
fn call_of(visit: Visit, job: Id) -> Act<'static> {
    match visit {
        Visit::Enter => Act::Enter(job.get()),
        Visit::Close => Act::Close(job.get()),
        Visit::Leave => Act::Exit(job.get()),
    }
}

fn visit_jobs<H: Ledger, C: Ledger, S: Setup, O: Outlet, R: Wait + Abort>(
    rt: &R,
    alloc: Global,
    registry: &PlainRegistry<H, C, S, O>,
    worker: &mut Worker<H, C, S>,
    held: &mut Vec<DroppableHandle<H, C, S>>,
    jobs: &[Id],
    visit: Visit,
) {
    for job in jobs {
        let acts = [call_of(visit, *job), TOCK];
        make_calls(rt, alloc, registry, worker, held, &acts);
    }
}

// The jobs that are visited: those of which the worker has handles, and where it leaves, those that it is inside.
fn jobs_of<H: Ledger, C: Ledger, S: Setup>(
    rt: &impl Abort,
    alloc: Global,
    held: &[DroppableHandle<H, C, S>],
    inside: &mut Vec<Id>,
    visit: Visit,
) -> Vec<Id> {
    match visit {
        Visit::Enter => {
            *inside = ids_of(rt, alloc, held);
            ids_of(rt, alloc, held)
        }
        Visit::Close => ids_of(rt, alloc, held),
        Visit::Leave => mem::replace(inside, Vec::new(alloc)),
    }
}

fn perform<H: Ledger, C: Ledger, S: Setup, O: Outlet, R: Wait + Abort>(
    rt: &R,
    alloc: Global,
    registry: &PlainRegistry<H, C, S, O>,
    station: &mut Station<H, C, S>,
    task: Task,
) {
    let Station {
        worker,
        held,
        inside,
    } = station;
    match task {
        Task::Make(rounds) => make_jobs(rt, alloc, registry, worker, held, rounds),
        Task::Visit(visit) => {
            let jobs = jobs_of(rt, alloc, held.as_slice(), inside, visit);
            visit_jobs(rt, alloc, registry, worker, held, jobs.as_slice(), visit);
        }
    }
}

/// What one thread does.
pub(crate) fn work<H: Ledger, C: Ledger, S: Setup, O: Outlet, R: Wait + Abort>(
    rt: &R,
    alloc: Global,
    registry: &PlainRegistry<H, C, S, O>,
    station: Station<H, C, S>,
    task: Task,
) -> Station<H, C, S> {
    let mut station = station;
    perform(rt, alloc, registry, &mut station, task);
    station
}
