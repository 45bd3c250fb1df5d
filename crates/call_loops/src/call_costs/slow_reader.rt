//! A worker that makes calls beside a slow reader, through a ring of few places: what it sees, and that nothing is lost.
ghost use Rattle.std.specs.Prelude.{◌≡◌, ◌+◌, ◌*◌, ◌-◌, ◌<◌, IfOk, OnOk};
ghost use Rattle.span_registry.specs.Worker.{after_call};
ghost use Rattle.call_loops.specs.Back.{HasParts};

use crate::ended::{Ended, Tally};
use crate::order::Plan;
use crate::soak::returned::Returned;
use crate::soak::soaked::beside_a_reader;
use crate::texts::Texts;
use span_id::{Fault, Limits};
use span_layers::Layers;
use span_registry::{DroppableHandle, ParentOf, RefusedClose, Registry, Ring, Setup, Worker};
use std::alloc::Global;
use std::sync::Wait;
use std::sync::ledger::Ledger;
use std::thread;
use std::thread::Threads;
use std::time::Clock;

/// Makes rounds of three calls through a ring of so many places, beside a reader in a thread of its own. A call that is
/// refused for want of a place is made again until it is accepted.
pub fn beside_a_slow_reader<R: Threads + Wait + Clock + Sync>(
    rt: &R,
    alloc: Global,
    places: u32,
    rounds: u32,
    layers: Layers,
) -> Result<Ended, Fault>
    ensures calls { IfOk result (λ ended. ended.counts.calls ≡ 3 * rounds) }
    ensures handles { IfOk result (λ ended. ended.counts.handles ≡ 0) }
{
    let limits = Limits {
        workers: 1,
        ring: places,
        ..Limits::default()
    };
    beside_a_reader(rt, alloc, limits, Plan::Rounds(rounds), layers)
}

/// What the worker does: it makes its rounds, and leaves.
pub fn make_rounds<H: Ledger, C: Ledger, S: Setup, R: Wait>(
    rt: &R,
    registry: &Registry<H, C, S, Ring>,
    texts: &Texts,
    worker: Worker<H, C, S>,
    rounds: u32,
) -> Result<Returned<H, C, S>, Fault>
    ensures parts { IfOk result (λ returned. HasParts worker.spare returned.share) }
    ensures accepted { IfOk result (λ returned. returned.share.accepted ≡ worker.accepted + 3 * rounds) }
{
    let mut worker = worker;
    let mut backlogs = 0;
    for _ in 0..rounds {
        round(rt, registry, texts, &mut worker, &mut backlogs)?;
    }
    Ok(Returned {
        share: worker.leave(),
        tally: Tally { notes: 0, backlogs },
    })
}

// A root is made, an event is told, and the root's handle is given back.
fn round<H: Ledger, C: Ledger, S: Setup, R: Wait>(
    rt: &R,
    registry: &Registry<H, C, S, Ring>,
    texts: &Texts,
    worker: &mut Worker<H, C, S>,
    backlogs: &mut u64,
) -> Result<(), Fault>
    ensures accepted { OnOk result (worker.new.accepted ≡ worker.old.accepted + 3) }
    ensures spare { OnOk result (worker.new.spare ≡ worker.old.spare) }
{
    let held = open(rt, registry, texts, worker, backlogs)?;
    tell(rt, registry, texts, worker, backlogs)?;
    close(rt, registry, worker, held, backlogs)
}

// Waits a little, after a call was refused for want of a place.
fn wait(backlogs: &mut u64) {
    *backlogs = backlogs.saturating_add(1);
    thread::yield_now();
}

// Makes a root.
fn open<H: Ledger, C: Ledger, S: Setup, R: Wait>(
    rt: &R,
    registry: &Registry<H, C, S, Ring>,
    texts: &Texts,
    worker: &mut Worker<H, C, S>,
    backlogs: &mut u64,
) -> Result<DroppableHandle<H, C, S>, Fault>
    ensures worker { OnOk result (worker.new ≡ after_call worker.old (worker.old.spare - 1) worker.new.seen) }
    ensures part { OnOk result (0 < worker.old.spare) }
{
    for _ in rt.forever() {
        match registry.new_span(rt, worker, &texts.meta, &[], ParentOf::Root) {
            Ok(Some(handle)) => return Ok(DroppableHandle { handle }),
            Ok(None) => return Err(Fault::Unknown),
            Err(Fault::Backlog) => wait(backlogs),
            Err(fault) => return Err(fault),
        }
    }
    unreachable!()
}

// Tells an event.
fn tell<H: Ledger, C: Ledger, S: Setup, R: Wait>(
    rt: &R,
    registry: &Registry<H, C, S, Ring>,
    texts: &Texts,
    worker: &mut Worker<H, C, S>,
    backlogs: &mut u64,
) -> Result<(), Fault>
    ensures { OnOk result (worker.new ≡ after_call worker.old worker.old.spare worker.new.seen) }
{
    for _ in rt.forever() {
        match registry.event(rt, worker, &texts.meta, "a message", &[]) {
            Err(Fault::Backlog) => wait(backlogs),
            told => return told,
        }
    }
    unreachable!()
}

// Gives the handle back. A refused call gives it back to be tried again.
fn close<H: Ledger, C: Ledger, S: Setup, R: Wait>(
    rt: &R,
    registry: &Registry<H, C, S, Ring>,
    worker: &mut Worker<H, C, S>,
    held: DroppableHandle<H, C, S>,
    backlogs: &mut u64,
) -> Result<(), Fault>
    ensures { OnOk result (worker.new ≡ after_call worker.old (worker.old.spare + 1) worker.new.seen) }
{
    let mut held = held;
    for _ in rt.forever() {
        match registry.try_close(rt, worker, held.into_handle()) {
            Ok(_closed) => return Ok(()),
            Err(RefusedClose { handle, fault }) => {
                held = DroppableHandle { handle };
                let Fault::Backlog = fault else {
                    return Err(fault);
                };
                wait(backlogs);
            }
        }
    }
    unreachable!()
}
