//! All threads of a run, and what comes back of them.
ghost use Rattle.std.specs.Prelude.{◌≡◌, ◌<◌, IfOk, vec_len};
ghost use Rattle.call_loops.specs.Back.{ComesBack, HasAll};
ghost use Rattle.call_loops.specs.ReadOut.{HasReadOn};

use crate::call_costs::slow_reader::make_rounds;
use crate::order::Plan;
use crate::reading::{Reading, start_reading};
use crate::soak::caller::work;
use crate::soak::returned::Returned;
use crate::texts::Texts;
use span_id::Fault;
use span_layers::Say;
use span_registry::{LineReader, Registry, Ring, Setup, Worker};
use std::snapshot::Snapshot;
use std::sync::Wait;
use std::sync::atomic::{AtomicBool, Ordering};
use std::sync::ledger::Ledger;
use std::thread;
use std::thread::{Promise, PromisedHandle, Scope, Threads};
use std::time::Clock;

/// The share that comes back of a worker has all its parts, and what it says of its calls is what the plan says.
#[derive(Drop)]
struct Back<H: Ledger, C: Ledger, S: Setup> {
    plan: Plan,
    worker: Snapshot<Worker<H, C, S>>,
}

impl<H: Ledger, C: Ledger, S: Setup> Promise<Result<Returned<H, C, S>, Fault>> for Back<H, C, S> {
    ghost use Rattle.std.specs.Prelude.{IfOk};
    ghost use Rattle.call_loops.specs.Back.{ComesBack};

    ghost kept_by = { λ back result. IfOk result (λ returned. ComesBack back.plan back.worker.value returned.share) };
}

/// Runs each worker in a thread of its own, and the reader in one beside them.
pub fn in_threads<
    H: Ledger + Send + Sync,
    C: Ledger + Send + Sync,
    S: Setup + Send + Sync,
    V: Say + Drop + Send,
    R: Threads + Wait + Clock + Sync,
>(
    rt: &R,
    registry: &Registry<H, C, S, Ring>,
    texts: &Texts,
    plan: Plan,
    workers: Vec<Worker<H, C, S>>,
    reader: LineReader<V>,
) -> Result<(Returned<H, C, S>, Reading<V>), Fault>
    requires some { 0 < vec_len workers }
    ensures whole { IfOk result (λ back. HasAll plan workers.items back.0.share) }
    ensures reader { IfOk result (λ back. HasReadOn reader back.1.reader back.1.lines) }
{
    let all_back = AtomicBool::new(false);
    let flag = &all_back;
    thread::scope(
        thread::scope_env(),
        rt,
        move |scope| -> Result<(Returned<H, C, S>, Reading<V>), Fault>
            requires some { 0 < vec_len workers }
            ensures whole { IfOk result (λ back. HasAll plan workers.items back.0.share) }
            ensures reader { IfOk result (λ back. HasReadOn reader back.1.reader back.1.lines) }
        {
            let reading = start_reading(rt, scope, reader, plan.pace(), flag)?;
            let whole = run_workers(rt, scope, registry, texts, plan, workers);
            flag.store(true, Ordering::SeqCst);
            let read = reading.join(rt);
            Ok((whole?, read))
        },
    )
}

// Runs the last worker beside the others, and puts together what comes back.
fn run_workers<
    's,
    E: 's,
    H: Ledger + Send + Sync + 's,
    C: Ledger + Send + Sync + 's,
    S: Setup + Send + Sync + 's,
    R: Threads + Wait + Sync,
>(
    rt: &'s R,
    scope: &Scope<'s, E>,
    registry: &'s Registry<H, C, S, Ring>,
    texts: &'s Texts,
    plan: Plan,
    workers: Vec<Worker<H, C, S>>,
) -> Result<Returned<H, C, S>, Fault>
    requires some { 0 < vec_len workers }
    ensures { IfOk result (λ whole. HasAll plan workers.items whole.share) }
{
    let mut others = workers;
    let Some(last) = others.pop() else {
        unreachable!()
    };
    let running = start(rt, scope, registry, texts, plan, last)?;
    if others.is_empty() {
        return running.join(rt);
    }
    let whole = run_workers(rt, scope, registry, texts, plan, others);
    let returned = running.join(rt);
    whole?.join(returned?)
}

// Starts the thread of a worker.
fn start<
    's,
    E: 's,
    H: Ledger + Send + Sync + 's,
    C: Ledger + Send + Sync + 's,
    S: Setup + Send + Sync + 's,
    R: Wait + Sync,
>(
    rt: &'s R,
    scope: &Scope<'s, E>,
    registry: &'s Registry<H, C, S, Ring>,
    texts: &'s Texts,
    plan: Plan,
    worker: Worker<H, C, S>,
) -> Result<PromisedHandle<Result<Returned<H, C, S>, Fault>, Back<H, C, S>>, Fault>
    ensures plan { IfOk result (λ running. running.promise.plan ≡ plan) }
    ensures worker { IfOk result (λ running. running.promise.worker.value ≡ worker) }
{
    let promise = Back {
        plan,
        worker: Snapshot::of(&worker),
    };
    match scope.spawn_with(
        promise,
        move || -> Result<Returned<H, C, S>, Fault>
            ensures { IfOk result (λ returned. ComesBack plan worker returned.share) }
        { follow(rt, registry, texts, plan, worker) },
    ) {
        Ok(running) => Ok(running),
        Err(_) => Err(Fault::Memory),
    }
}

// What a worker does.
fn follow<H: Ledger, C: Ledger, S: Setup, R: Wait>(
    rt: &R,
    registry: &Registry<H, C, S, Ring>,
    texts: &Texts,
    plan: Plan,
    worker: Worker<H, C, S>,
) -> Result<Returned<H, C, S>, Fault>
    ensures { IfOk result (λ returned. ComesBack plan worker returned.share) }
{
    match plan {
        Plan::Random { rounds, seed } => work(rt, registry, texts, worker, rounds, seed),
        Plan::Rounds(rounds) => make_rounds(rt, registry, texts, worker, rounds),
    }
}
