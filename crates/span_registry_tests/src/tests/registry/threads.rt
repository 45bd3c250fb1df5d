//! Workers that take turns, each in a thread of its own.
use crate::tests::registry::jobs::{Station, Task, work};
use crate::tests::registry::layers::PlainRegistry;
use crate::tests::registry::parts::{Part, gather};
use span_registry::{DroppableHandle, Outlet, Setup, Worker};
use std::alloc::Global;
use std::process::Abort;
use std::sync::Wait;
use std::sync::ledger::Ledger;
use std::thread::{JoinHandle, Scope, Threads};
use std::{mem, thread};

/// What is done at a time.
#[derive(Clone, Copy)]
pub(crate) enum Turn {
    /// All workers do this at once, each in a thread of its own.
    All(Task),
    /// Each worker's handles go to the next one, and those of the last to the first.
    HandOn,
}

type Running<H, C, S> = JoinHandle<Station<H, C, S>>;

// Starts the thread of a station, which is moved into it with its handles, and comes back when it is joined.
fn start<
    's,
    E: 's,
    H: Ledger + Send + Sync + 's,
    C: Ledger + Send + Sync + 's,
    S: Setup + Send + Sync + 's,
    O: Outlet + Send + 's,
    R: Wait + Abort + Sync,
>(
    rt: &'s R,
    scope: &Scope<'s, E>,
    alloc: Global,
    registry: &'s PlainRegistry<H, C, S, O>,
    station: Station<H, C, S>,
    task: Task,
) -> Running<H, C, S> {
    let started = scope.spawn(move || work(rt, alloc, registry, station, task));
    started.ok().expect(rt, "a thread")
}

// Starts a thread for each station.
fn start_all<
    's,
    E: 's,
    H: Ledger + Send + Sync + 's,
    C: Ledger + Send + Sync + 's,
    S: Setup + Send + Sync + 's,
    O: Outlet + Send + 's,
    R: Wait + Abort + Sync,
>(
    rt: &'s R,
    scope: &Scope<'s, E>,
    alloc: Global,
    registry: &'s PlainRegistry<H, C, S, O>,
    stations: Vec<Station<H, C, S>>,
    task: Task,
) -> Vec<Running<H, C, S>> {
    let mut running = Vec::new(alloc);
    for station in stations {
        let started = start(rt, scope, alloc, registry, station, task);
        running.push(started).expect(rt, "memory");
    }
    running
}

fn join_all<H: Ledger, C: Ledger, S: Setup, R: Threads + Abort>(
    rt: &R,
    alloc: Global,
    running: Vec<Running<H, C, S>>,
) -> Vec<Station<H, C, S>> {
    let mut stations = Vec::new(alloc);
    for handle in running {
        stations.push(handle.join(rt)).expect(rt, "memory");
    }
    stations
}

// All threads at once.
fn in_threads<
    H: Ledger + Send + Sync,
    C: Ledger + Send + Sync,
    S: Setup + Send + Sync,
    O: Outlet + Send,
    R: Threads + Wait + Abort + Sync,
>(
    rt: &R,
    alloc: Global,
    registry: &PlainRegistry<H, C, S, O>,
    stations: Vec<Station<H, C, S>>,
    task: Task,
) -> Vec<Station<H, C, S>> {
    thread::scope(
        thread::scope_env(),
        rt,
        move |scope| -> Vec<Station<H, C, S>> {
            let running = start_all(rt, scope, alloc, registry, stations, task);
            join_all(rt, alloc, running)
        },
    )
}

// Each station's handles go to the next one, and those of the last to the first.
fn hand_on<H: Ledger, C: Ledger, S: Setup>(alloc: Global, stations: &mut [Station<H, C, S>]) {
    let mut carried = Vec::new(alloc);
    for station in &mut *stations {
        mem::swap(&mut station.held, &mut carried);
    }
    if let Some(first) = stations.first_mut() {
        mem::swap(&mut first.held, &mut carried);
    }
}

fn take_each_turn<
    H: Ledger + Send + Sync,
    C: Ledger + Send + Sync,
    S: Setup + Send + Sync,
    O: Outlet + Send,
    R: Threads + Wait + Abort + Sync,
>(
    rt: &R,
    alloc: Global,
    registry: &PlainRegistry<H, C, S, O>,
    stations: Vec<Station<H, C, S>>,
    turns: &[Turn],
) -> Vec<Station<H, C, S>> {
    let mut stations = stations;
    for turn in turns {
        match turn {
            Turn::All(task) => stations = in_threads(rt, alloc, registry, stations, *task),
            Turn::HandOn => hand_on(alloc, &mut stations),
        }
    }
    stations
}

// The workers, with no handle.
fn stations_of<H: Ledger, C: Ledger, S: Setup>(
    rt: &impl Abort,
    alloc: Global,
    workers: Vec<Worker<H, C, S>>,
) -> Vec<Station<H, C, S>> {
    let mut stations = Vec::new(alloc);
    for worker in workers {
        let station = Station {
            worker,
            held: Vec::new(alloc),
            inside: Vec::new(alloc),
        };
        stations.push(station).expect(rt, "memory");
    }
    stations
}

// The parts of the workers, who have no handle left.
fn leave<H: Ledger, C: Ledger, S: Setup>(
    rt: &impl Abort,
    alloc: Global,
    stations: Vec<Station<H, C, S>>,
) -> Option<Part<H, C, S>> {
    let mut workers = Vec::new(alloc);
    for station in stations {
        workers.push(station.worker).expect(rt, "memory");
    }
    let none: Vec<DroppableHandle<H, C, S>> = Vec::new(alloc);
    gather(rt, workers, none)
}

/// The workers take these turns, and close all handles in them. The answer is what they leave.
pub(crate) fn take_turns<
    H: Ledger + Send + Sync,
    C: Ledger + Send + Sync,
    S: Setup + Send + Sync,
    O: Outlet + Send,
    R: Threads + Wait + Abort + Sync,
>(
    rt: &R,
    alloc: Global,
    registry: &PlainRegistry<H, C, S, O>,
    workers: Vec<Worker<H, C, S>>,
    turns: &[Turn],
) -> Option<Part<H, C, S>> {
    let stations: Vec<Station<H, C, S>> = stations_of(rt, alloc, workers);
    let stations = take_each_turn(rt, alloc, registry, stations, turns);
    leave(rt, alloc, stations)
}
