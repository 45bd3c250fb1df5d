//! The registry: a lock round the core, the seats and the books.
ghost use Rattle.std.specs.Prelude.{◌≡◌, ◌+◌, ◌-◌, ◌^◌, ◌<◌, ◌≤◌, ℕ, [], vec_len, sum_by, slice_index_or, IfOk, IfErr, OnOk};
ghost use Rattle.span_registry.specs.Blanks.{blanks_of};
ghost use Rattle.span_registry.specs.Worker.{IsNew};

mod beside;
mod calls;
mod finish;
mod questions;

use crate::blanks::Blanks;
use crate::locked::Locked;
use crate::setup::Setup;
use crate::worker::Worker;
use span_history::{Keeper, Place};
use span_id::Fault;
use span_layers::{Admitters, Filters};
use span_outlet::Outlet;
use std::alloc::Global;
use std::sync::ledger::Ledger;
use std::sync::{Mutex, ledger};

/// The parts of a registry's ledger of handles: at most so many handles can be out at a time.
pub const HANDLE_PARTS: u64 = u64::MAX;

/// The parts of the ledger of handles that each worker but the last gets at first.
const WORKER_PARTS: u64 = 1 << 47;

/// A registry of spans that threads share: one lock round the spans, the workers' stacks and the outlet.
///
/// Its type names what it was made with: the ledger of its handles `H`, the ledger of its accepted calls `C`, its
/// [`Setup`] `S`, and its outlet `O`. So a handle or a worker of another registry isn't taken.
///
/// Each call but `new` and those that end it (`finish_kept`, `finish`, `finish_reading`) takes the lock, so it may wait
/// for other threads. While it has the lock it runs the function of its name in [`under_lock`](crate::under_lock), whose
/// contract says in full what it does. The clauses here are those that can be said without the locked value.
#[derive(Drop)]
pub struct Registry<H: Ledger, C: Ledger, S: Setup, O: Outlet, A = Admitters> {
    locked: Mutex<Locked<H, C, S, O, A>>,
}

impl<H: Ledger, C: Ledger, S: Setup, O: Outlet + Drop, F: Drop> Registry<H, C, S, O, Admitters<F>> {
    /// An empty registry, and its workers, numbered from 0, as many as the limits say. No call was accepted of them,
    /// and each may make 2^47 handles at least. Their shares together are the whole one: of the ledger of calls each
    /// has one part.
    ///
    /// The names `H`, `C` and `S` are picked by the caller of a function that is generic in them, from the very
    /// arguments that are handed in here.
    ///
    /// The only error is `Memory`; the filters, the outlet and the blanks are dropped then.
    pub fn new(
        alloc: Global,
        filters: Filters<F>,
        outlet: O,
        blanks: Blanks,
    ) -> Result<(Registry<H, C, S, O, Admitters<F>>, Vec<Worker<H, C, S>>), Fault>
        requires sent { O.sent outlet ≡ [] }
        requires setup { (filters.rules ≡ S.rules) × (O.forms outlet ≡ S.forms) × (O.name outlet ≡ S.ring) }
        requires blanks { blanks ≡ blanks_of S.limits H.name H.parts C.name C.parts S.table S.history }
        ensures count { IfOk result (λ made. (vec_len made.1 ≡ S.limits.workers) × (vec_len made.1 ≡ C.parts)) }
        ensures each { IfOk result (λ made. (i : ℕ) (d : _) → i < S.limits.workers →
            IsNew i (slice_index_or made.1.items i d)) }
        ensures whole { IfOk result (λ made. sum_by (λ worker. worker.spare) made.1.items ≡ H.parts) }
        ensures memory { IfErr result (λ fault. fault ≡ Fault.Memory) }
    {
        let Blanks {
            limits,
            handles,
            calls,
            table,
            history,
        } = blanks;
        let (handle_book, handle_parts) = handles.open::<H>();
        let (call_book, call_parts) = calls.open::<C>();
        let mut keeper = history.named::<S>();
        let number = limits.limits().workers;
        let workers = new_workers(alloc, number, handle_parts, call_parts, &mut keeper)?;
        let locked = Locked::new(
            alloc,
            &limits,
            filters,
            outlet,
            handle_book,
            call_book,
            table,
            keeper,
        )?;
        let registry = Registry {
            locked: Mutex::new(locked),
        };
        Ok((registry, workers))
    }
}

// The workers, who have all parts of both ledgers between them: of the ledger of calls one each.
fn new_workers<H: Ledger, C: Ledger, S: Setup>(
    alloc: Global,
    workers: u32,
    handles: ledger::Share<H>,
    calls: ledger::Share<C>,
    keeper: &mut Keeper<S>,
) -> Result<Vec<Worker<H, C, S>>, Fault>
    requires workers { (0 < workers) × (workers ≤ 65536) }
    requires handles { (handles.parts ≡ HANDLE_PARTS) × (handles.amount ≡ 0) }
    requires calls { (calls.parts ≡ workers) × (calls.amount ≡ 0) × (C.parts ≡ workers) }
    requires keeper { keeper.old ≡ record { history = []; next = 0 } }
    ensures history { OnOk result (keeper.new.history ≡ []) }
    ensures count { IfOk result (λ all. vec_len all ≡ workers) }
    ensures each { IfOk result (λ all. (i : ℕ) (d : _) → i < workers → IsNew i (slice_index_or all.items i d)) }
    ensures whole { IfOk result (λ all. sum_by (λ worker. worker.spare) all.items ≡ HANDLE_PARTS) }
    ensures memory { IfErr result (λ fault. fault ≡ Fault.Memory) }
{
    let mut handles = handles;
    let mut calls = calls;
    let mut all = Vec::with_capacity(alloc, workers as usize)?;
    for number in 0..workers - 1 {
        let worker = split_worker(alloc, number, &mut handles, &mut calls, keeper)?;
        all.push_reserved(worker);
    }
    let rest = HANDLE_PARTS - WORKER_PARTS * (u64::from(workers) - 1);
    let place = Place::new(alloc)?;
    all.push_reserved(Worker::new(workers - 1, rest, handles, calls, keeper.enroll(), place));
    Ok(all)
}

// The worker of this number, with its parts of the two ledgers.
fn split_worker<H: Ledger, C: Ledger, S: Setup>(
    alloc: Global,
    number: u32,
    handles: &mut ledger::Share<H>,
    calls: &mut ledger::Share<C>,
    keeper: &mut Keeper<S>,
) -> Result<Worker<H, C, S>, Fault>
    requires number { (number < C.parts) × (C.parts ≤ 65536) }
    requires handles { (WORKER_PARTS < handles.old.parts) × (handles.old.amount ≡ 0) }
    requires calls { (1 < calls.old.parts) × (calls.old.amount ≡ 0) }
    requires keeper { keeper.old ≡ record { history = []; next = number } }
    ensures keeper { OnOk result (keeper.new ≡ record { history = []; next = number + 1 }) }
    ensures worker { IfOk result (λ worker.
        worker ≡ record { number = number; accepted = 0; spare = WORKER_PARTS; seen = [] }) }
    ensures handles { OnOk result ((handles.new.parts + WORKER_PARTS ≡ handles.old.parts) × (handles.new.amount ≡ 0)) }
    ensures calls { OnOk result ((calls.new.parts + 1 ≡ calls.old.parts) × (calls.new.amount ≡ 0)) }
    ensures memory { IfErr result (λ fault. fault ≡ Fault.Memory) }
{
    let place = Place::new(alloc)?;
    let some_handles = handles.split_off(WORKER_PARTS, 0);
    let one_call = calls.split_off(1, 0);
    Ok(Worker::new(
        number,
        WORKER_PARTS,
        some_handles,
        one_call,
        keeper.enroll(),
        place,
    ))
}
