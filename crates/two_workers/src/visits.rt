//! What the threads do with the registry.
ghost use Rattle.std.specs.Prelude.{◌≡◌, ◌+◌, ◌≤◌, ◌∷◌, [], None, IfOk, vec_len};
ghost use Rattle.span_registry.specs.Blanks.{blanks_of};
ghost use Rattle.two_workers.specs.Visit.{IsBack};

use span_id::{Fault, Meta};
use span_layers::{Admitters, ByForm, ByRule, Filters, Formatters};
use span_registry::{
    Blanks, Handle, Kept, Outlet, ParentOf, RefusedClose, Registry, Report, Setup, Share, Worker,
};
use std::alloc::Global;
use std::snapshot::Snapshot;
use std::sync::Wait;
use std::sync::ledger::Ledger;
use std::thread;
use std::thread::{Promise, PromisedHandle, Scope, Threads};

/// A registry that keeps its lines, and whose layers have no closures.
type SpanRegistry<H, C, S> = Registry<H, C, S, Kept<Formatters<ByForm>>, Admitters<ByRule>>;

/// What comes back of a visit.
#[derive(Drop)]
struct Back<H: Ledger, C: Ledger, S: Setup> {
    worker: Snapshot<Worker<H, C, S>>,
}

impl<H: Ledger, C: Ledger, S: Setup> Promise<Worker<H, C, S>> for Back<H, C, S> {
    ghost use Rattle.two_workers.specs.Visit.{IsBack};

    ghost kept_by = { λ back worker. IsBack back.worker.value worker };
}

/// Makes a registry, has two threads visit the span of a request, and ends the registry. It is generic in the names of
/// the ledgers and of the registry's setup, so that its caller picks them.
pub fn visits<
    H: Ledger + Send + Sync,
    C: Ledger + Send + Sync,
    S: Setup + Send + Sync,
    R: Threads + Wait + Sync,
>(
    rt: &R,
    alloc: Global,
    request: &Meta,
    filters: Filters<ByRule>,
    outlet: Kept<Formatters<ByForm>>,
    blanks: Blanks,
) -> Result<Report, Fault>
    requires sent { outlet.sent ≡ [] }
    requires setup { (filters.rules ≡ S.rules) × (outlet.forms ≡ S.forms) × (None ≡ S.ring) }
    requires workers { S.limits.workers ≡ 3 }
    requires blanks { blanks ≡ blanks_of S.limits H.name H.parts C.name C.parts S.table S.history }
{
    let (registry, workers) = SpanRegistry::<H, C, S>::new(alloc, filters, outlet, blanks)?;
    let (own, first, second) = three(workers);
    let whole = both(rt, &registry, request, own, first, second)?;
    Ok(registry.finish_kept(whole))
}

// The workers of a registry that has three.
fn three<H: Ledger, C: Ledger, S: Setup>(
    workers: Vec<Worker<H, C, S>>,
) -> (Worker<H, C, S>, Worker<H, C, S>, Worker<H, C, S>)
    requires { vec_len workers ≡ 3 }
    ensures { workers.items ≡ result.0 ∷ result.1 ∷ result.2 ∷ [] }
{
    let mut workers = workers;
    let Some(second) = workers.pop() else {
        unreachable!()
    };
    let Some(first) = workers.pop() else {
        unreachable!()
    };
    let Some(own) = workers.pop() else {
        unreachable!()
    };
    (own, first, second)
}

// Makes the span, and has each thread visit it with a handle of its own. What comes back is the whole share.
fn both<
    H: Ledger + Send + Sync,
    C: Ledger + Send + Sync,
    S: Setup + Send + Sync,
    R: Threads + Wait + Sync,
>(
    rt: &R,
    registry: &SpanRegistry<H, C, S>,
    request: &Meta,
    own: Worker<H, C, S>,
    first: Worker<H, C, S>,
    second: Worker<H, C, S>,
) -> Result<Share<H, C, S>, Fault>
    requires new { (own.accepted ≡ 0) × (first.accepted ≡ 0) × (second.accepted ≡ 0) }
    ensures handles { IfOk result (λ whole. whole.handle_parts ≡ own.spare + first.spare + second.spare) }
    ensures calls { IfOk result (λ whole. whole.call_parts ≡ 3) }
{
    let mut own = own;
    let Some(mut one) = registry.new_span(rt, &mut own, request, &[], ParentOf::Root)? else {
        return Err(Fault::BadName);
    };
    let mut other = match registry.clone_span(rt, &mut own, &mut one) {
        Ok(other) => other,
        Err(fault) => {
            drop(one.into_share());
            return Err(fault);
        }
    };
    match in_threads(rt, registry, request, first, &mut one, second, &mut other) {
        Ok((first, second)) => {
            let one = give_back(rt, registry, first, one);
            let other = give_back(rt, registry, second, other);
            Ok(own.leave().join(one).join(other))
        }
        Err(fault) => {
            drop(one.into_share());
            drop(other.into_share());
            Err(fault)
        }
    }
}

// Two visits, each in a thread of its own.
fn in_threads<
    H: Ledger + Send + Sync,
    C: Ledger + Send + Sync,
    S: Setup + Send + Sync,
    R: Threads + Wait + Sync,
>(
    rt: &R,
    registry: &SpanRegistry<H, C, S>,
    request: &Meta,
    first: Worker<H, C, S>,
    one: &mut Handle<H, C, S>,
    second: Worker<H, C, S>,
    other: &mut Handle<H, C, S>,
) -> Result<(Worker<H, C, S>, Worker<H, C, S>), Fault>
    ensures first { IfOk result (λ back. IsBack first back.0) }
    ensures second { IfOk result (λ back. IsBack second back.1) }
{
    thread::scope(
        thread::scope_env(),
        rt,
        move |scope| -> Result<(Worker<H, C, S>, Worker<H, C, S>), Fault>
            ensures first { IfOk result (λ back. IsBack first back.0) }
            ensures second { IfOk result (λ back. IsBack second back.1) }
        {
            let first = start(rt, scope, registry, request, first, one)?;
            let second = start(rt, scope, registry, request, second, other)?;
            let first = first.join(rt);
            let second = second.join(rt);
            Ok((first, second))
        },
    )
}

// Starts the thread of a visit, which lends the handle.
fn start<
    's,
    E: 's,
    H: Ledger + Send + Sync + 's,
    C: Ledger + Send + Sync + 's,
    S: Setup + Send + Sync + 's,
    R: Wait + Sync,
>(
    rt: &'s R,
    scope: &Scope<'s, E>,
    registry: &'s SpanRegistry<H, C, S>,
    request: &'s Meta,
    worker: Worker<H, C, S>,
    handle: &'s mut Handle<H, C, S>,
) -> Result<PromisedHandle<Worker<H, C, S>, Back<H, C, S>>, Fault>
    ensures { IfOk result (λ running. running.promise.worker.value ≡ worker) }
{
    let promise = Back {
        worker: Snapshot::of(&worker),
    };
    match scope.spawn_with(
        promise,
        move || -> Worker<H, C, S>
            ensures { IsBack worker result }
        { visit(rt, registry, request, worker, handle) },
    ) {
        Ok(running) => Ok(running),
        Err(_) => Err(Fault::Memory),
    }
}

// What a thread does: it enters the span, tells an event and leaves the span. A refused call changes nothing.
fn visit<H: Ledger, C: Ledger, S: Setup, R: Wait>(
    rt: &R,
    registry: &SpanRegistry<H, C, S>,
    request: &Meta,
    worker: Worker<H, C, S>,
    handle: &mut Handle<H, C, S>,
) -> Worker<H, C, S>
    ensures { IsBack worker result }
{
    let mut worker = worker;
    let _first = registry.enter(rt, &mut worker, handle);
    let _told = registry.event(rt, &mut worker, request, "hello", &[]);
    let _closed = registry.exit(rt, &mut worker, handle.id());
    worker
}

// Gives a handle back. Where the call is refused, the handle is given up.
fn give_back<H: Ledger, C: Ledger, S: Setup, R: Wait>(
    rt: &R,
    registry: &SpanRegistry<H, C, S>,
    worker: Worker<H, C, S>,
    handle: Handle<H, C, S>,
) -> Share<H, C, S>
    requires { worker.accepted ≤ 3 }
    ensures accepted { result.accepted ≤ 4 }
    ensures units { result.units ≤ 1 }
    ensures parts { (result.handle_parts ≡ worker.spare + 1) × (result.call_parts ≡ 1) }
{
    let mut worker = worker;
    match registry.try_close(rt, &mut worker, handle) {
        Ok(_) => worker.leave(),
        Err(RefusedClose { handle, fault: _ }) => worker.leave().join(handle.into_share()),
    }
}
