//! A whole storm, from the making of its registry to its report.
ghost use Rattle.std.specs.Prelude.{◌≡◌, ◌*◌, ◌<◌, ◌≤◌, [], Some, true, IfOk, IfErr};
ghost use Rattle.span_layers.specs.Layers.{filters_in, forms_in};
ghost use Rattle.span_registry.specs.Blanks.{blanks_of};
ghost use Rattle.span_storm.specs.Storm.{IsStormEnd, IsStormFault, storm_limits, wants_jobs};
ghost use Rattle.span_storm.specs.inside.Back.{HasNumbers};

use crate::called::{AdmitAs, SayAs};
use crate::fault::StormFault;
use crate::gate::Gate;
use crate::metas::Metas;
use crate::threads::in_threads;
use span_id::{Checked, Limits};
use span_layers::{Admit, Admitters, Filters, Layers, Say};
use span_registry::{Blanks, Drain, Registry, Report, Ring, Setup};
use std::alloc::Global;
use std::marker::Brand;
use std::sync::Wait;
use std::sync::ledger::Ledger;
use std::thread::Threads;

/// Has so many workers, 1 to 16, make so many rounds of nine calls, 1 to 400, on one registry with these layers, each
/// in a thread of its own, while a drain in another writes the lines. Answers how the registry ended.
///
/// `M` and `V` follow from what the layers call, and no caller names them. Layers to which none was added need their
/// type: `let layers: Layers = Layers::new(alloc);`.
///
/// In a round a worker makes a root span `job`, clones it, enters it, tells the event `tick`, makes a span `step`
/// inside, closes that, leaves `job`, and closes both its handles: so in the end nothing is open. All are of target
/// `app` and level INFO, without fields; one of the layers has to admit that, if there are any. The limits are the
/// default ones, with these workers and a ring of 65536. Before each of its calls worker `i` asks `gate.before(i, k)`,
/// where `k` counts its calls from 1, and the drain asks `gate.before(workers, 1)` before its first step.
///
/// `Refused` where a call of a worker was refused, for want of memory too; `Held` where the gate answered false;
/// `Memory` where a thread can't be made, or memory was refused outside the workers' calls. All threads end first; of
/// more faults than one that of the lowest party is answered. It may wait, for the lock and for the gate.
pub fn storm<
    A: AdmitAs<M>,
    F: SayAs<V>,
    M: Admit + Send,
    V: Say + Drop + Send,
    G: Gate + Sync,
    R: Threads + Wait + Sync,
>(
    rt: &R,
    alloc: Global,
    workers: u32,
    rounds: u32,
    layers: Layers<A, F>,
    gate: &G,
) -> Result<Report, StormFault>
    requires workers { (0 < workers) × (workers ≤ 16) }
    requires rounds { (0 < rounds) × (rounds ≤ 400) }
    requires wanted { wants_jobs (filters_in layers) ≡ true }
    ensures calls { IfOk result (λ report. report.calls ≡ 9 * (workers * rounds)) }
    ensures handles { IfOk result (λ report. report.handles ≡ 0) }
    ensures entries { IfOk result (λ report. report.entries ≡ 0) }
    ensures left { IfOk result (λ report. report.left ≡ 0) }
    ensures balance { IfOk result (λ report. report.made ≡ report.closed) }
    ensures ended { IfOk result (λ report.
        IsStormEnd (storm_limits workers) rounds (filters_in layers) (forms_in layers) report) }
    ensures faults { IfErr result (IsStormFault (storm_limits workers) rounds (filters_in layers) (G.holds gate.now)) }
{
    let limits = Limits {
        workers,
        ring: 65536,
        ..Limits::default()
    };
    let Ok(checked) = limits.check() else {
        unreachable!()
    };
    match Metas::new(alloc) {
        Ok(metas) => with_metas(rt, alloc, &checked, rounds, layers, gate, &metas),
        Err(_) => Err(StormFault::Memory),
    }
}

// Makes what a registry is made of, and picks its names.
fn with_metas<
    A: AdmitAs<M>,
    F: SayAs<V>,
    M: Admit + Send,
    V: Say + Drop + Send,
    G: Gate + Sync,
    R: Threads + Wait + Sync,
>(
    rt: &R,
    alloc: Global,
    checked: &Checked,
    rounds: u32,
    layers: Layers<A, F>,
    gate: &G,
    metas: &Metas,
) -> Result<Report, StormFault>
    requires workers { checked.now.workers ≤ 16 }
    requires rounds { rounds ≤ 400 }
    requires wanted { wants_jobs (filters_in layers) ≡ true }
    ensures numbers { IfOk result (λ report. HasNumbers checked.now.workers rounds report) }
    ensures ended { IfOk result (λ report.
        IsStormEnd checked.now rounds (filters_in layers) (forms_in layers) report) }
    ensures faults { IfErr result (IsStormFault checked.now rounds (filters_in layers) (G.holds gate.now)) }
{
    let Ok(blanks) = Blanks::new(alloc, checked) else {
        return Err(StormFault::Memory);
    };
    let Ok((ring, tap)) = Ring::pair(alloc, checked) else {
        return Err(StormFault::Memory);
    };
    let (filters, formatting) = layers.split();
    run::<Brand, Brand, Brand, _, _, _, _, _>(
        rt,
        alloc,
        rounds,
        gate,
        metas,
        filters,
        ring,
        F::drain(Drain::new(alloc, tap, formatting)),
        blanks,
    )
}

// Makes the registry, lets its workers run, and ends it. It is generic in the registry's names, so that its caller
// picks them.
fn run<
    H: Ledger + Send + Sync,
    C: Ledger + Send + Sync,
    S: Setup + Send + Sync,
    A: AdmitAs<M>,
    M: Admit + Send,
    V: Say + Drop + Send,
    G: Gate + Sync,
    R: Threads + Wait + Sync,
>(
    rt: &R,
    alloc: Global,
    rounds: u32,
    gate: &G,
    metas: &Metas,
    filters: Filters<A>,
    ring: Ring,
    drain: Drain<V>,
    blanks: Blanks,
) -> Result<Report, StormFault>
    requires workers { S.limits.workers ≤ 16 }
    requires rounds { rounds ≤ 400 }
    requires setup { (filters.rules ≡ S.rules) × ([] ≡ S.forms) × (Some ring.name ≡ S.ring) }
    requires wanted { wants_jobs S.rules ≡ true }
    requires ring { (ring.sent ≡ []) × (Some drain.name ≡ S.ring) }
    requires places { drain.name.places ≡ S.limits.ring }
    requires blanks { blanks ≡ blanks_of S.limits H.name H.parts C.name C.parts S.table S.history }
    ensures numbers { IfOk result (λ report. HasNumbers S.limits.workers rounds report) }
    ensures ended { IfOk result (λ report. IsStormEnd S.limits rounds S.rules drain.forms report) }
    ensures faults { IfErr result (IsStormFault S.limits rounds S.rules (G.holds gate.now)) }
{
    let made = Registry::<H, C, S, Ring, Admitters<A>>::new(alloc, filters, ring, blanks);
    let Ok((registry, workers)) = made else {
        return Err(StormFault::Memory);
    };
    let registry = A::registry(registry);
    let (whole, drain) = in_threads(rt, alloc, &registry, gate, metas, workers, rounds, drain)?;
    Ok(registry.finish(whole, drain))
}
