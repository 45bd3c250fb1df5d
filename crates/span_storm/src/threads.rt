//! All threads of a storm, and what comes back of them.
ghost use Rattle.std.specs.Prelude.{◌≡◌, ◌+◌, ◌*◌, ◌^◌, ◌<◌, ◌≤◌, [], true, IfOk, IfErr, All, map, length, vec_len, sum_by};
ghost use Rattle.span_storm.specs.Storm.{IsOneOf, wants_jobs};
ghost use Rattle.span_storm.specs.inside.Back.{AreBothBack, AreReady, both_shares, Fit, Gathers, GathersSeen, HasAll};
ghost use Rattle.span_storm.specs.inside.Back.{IsStormStop, IsWorkersStop, share_and_drain};

use crate::draining::start_drain;
use crate::fault::StormFault;
use crate::gate::Gate;
use crate::metas::Metas;
use crate::party::{Party, start};
use span_layers::{Admit, Say};
use span_registry::{Drain, Registry, Ring, Setup, Share, Worker};
use std::alloc::Global;
use std::sync::Wait;
use std::sync::atomic::{AtomicBool, Ordering};
use std::sync::ledger::Ledger;
use std::thread;
use std::thread::{Scope, Threads};

/// Runs each worker in a thread of its own, and the drain in one beside them. The whole share and the drain come back,
/// or the fault of the lowest party that has one; the drain is the party after the workers.
pub(crate) fn in_threads<
    H: Ledger + Send + Sync,
    C: Ledger + Send + Sync,
    S: Setup + Send + Sync,
    V: Say + Drop + Send,
    G: Gate + Sync,
    A: Admit + Send,
    R: Threads + Wait + Sync,
>(
    rt: &R,
    alloc: Global,
    registry: &Registry<H, C, S, Ring, A>,
    gate: &G,
    metas: &Metas,
    workers: Vec<Worker<H, C, S>>,
    rounds: u32,
    drain: Drain<V>,
) -> Result<(Share<H, C, S>, Drain<V>), StormFault>
    requires { AreReady S.rules (vec_len workers) workers.items rounds }
    ensures back { IfOk result (λ back. AreBothBack workers.items rounds drain back.0 back.1) }
    ensures stopped { IfErr result (IsStormStop S.limits S.rules (G.holds gate.now) (vec_len workers) rounds) }
{
    let all_back = AtomicBool::new(false);
    let flag = &all_back;
    thread::scope(
        thread::scope_env(),
        rt,
        move |scope| -> Result<(Share<H, C, S>, Drain<V>), StormFault>
            requires { AreReady S.rules (vec_len workers) workers.items rounds }
            ensures back { IfOk result (λ back. AreBothBack workers.items rounds drain back.0 back.1) }
            ensures stopped { IfErr result (IsStormStop S.limits S.rules (G.holds gate.entry.now) (vec_len workers) rounds) }
        {
            let draining = start_drain(rt, scope, gate, workers.len() as u32, drain, flag);
            let whole = run_workers(rt, scope, alloc, registry, gate, metas, workers, rounds);
            flag.store(true, Ordering::SeqCst);
            let drain = draining.join(rt);
            both_back(whole, drain)
        },
    )
}

// The whole share and the drain, or the workers' fault, or that of the drain where they have none.
fn both_back<H: Ledger, C: Ledger, S: Setup, V: Drop>(
    whole: Result<Share<H, C, S>, StormFault>,
    drain: Result<Drain<V>, StormFault>,
) -> Result<(Share<H, C, S>, Drain<V>), StormFault>
    ensures { result ≡ share_and_drain whole drain }
{
    let whole = whole?;
    let drain = drain?;
    Ok((whole, drain))
}

// Starts the workers and joins them.
fn run_workers<
    's,
    E: 's,
    H: Ledger + Send + Sync + 's,
    C: Ledger + Send + Sync + 's,
    S: Setup + Send + Sync + 's,
    G: Gate + Sync + 's,
    A: Admit + Send + 's,
    R: Threads + Wait + Sync,
>(
    rt: &'s R,
    scope: &Scope<'s, E>,
    alloc: Global,
    registry: &'s Registry<H, C, S, Ring, A>,
    gate: &'s G,
    metas: &'s Metas,
    workers: Vec<Worker<H, C, S>>,
    rounds: u32,
) -> Result<Share<H, C, S>, StormFault>
    requires { AreReady S.rules (vec_len workers) workers.items rounds }
    ensures back { IfOk result (λ whole. HasAll workers.items rounds whole) }
    ensures stopped { IfErr result
        (IsWorkersStop S.limits S.rules (G.holds gate.now) (IsOneOf (vec_len workers) rounds)) }
{
    let parties = start_all(rt, scope, alloc, registry, gate, metas, workers, rounds)?;
    join_all(rt, gate, parties, rounds)
}

// Starts a thread for each worker. The memory for all of them is there before the first is started.
fn start_all<
    's,
    E: 's,
    H: Ledger + Send + Sync + 's,
    C: Ledger + Send + Sync + 's,
    S: Setup + Send + Sync + 's,
    G: Gate + Sync + 's,
    A: Admit + Send + 's,
    R: Wait + Sync,
>(
    rt: &'s R,
    scope: &Scope<'s, E>,
    alloc: Global,
    registry: &'s Registry<H, C, S, Ring, A>,
    gate: &'s G,
    metas: &'s Metas,
    workers: Vec<Worker<H, C, S>>,
    rounds: u32,
) -> Result<Vec<Party<H, C, S, G>>, StormFault>
    requires wanted { wants_jobs S.rules ≡ true }
    requires new { All (λ worker. worker.accepted ≡ 0) workers.items }
    requires spare { All (λ worker. 3 ≤ worker.spare) workers.items }
    ensures memory { IfErr result (λ stopped. stopped ≡ StormFault.Memory) }
    ensures same { IfOk result (λ parties. map (λ party. party.worker) parties.items ≡ workers.items) }
    ensures rounds { IfOk result (λ parties. All (λ party. party.rounds ≡ rounds) parties.items) }
    ensures gates { IfOk result (λ parties. All (λ party. party.gate ≡ gate.now) parties.items) }
{
    let Ok(mut parties) = Vec::with_capacity(alloc, workers.len()) else {
        return Err(StormFault::Memory);
    };
    for worker in workers {
        parties.push_reserved(start(rt, scope, registry, gate, metas, worker, rounds));
    }
    Ok(parties)
}

// Joins the threads in the order of their workers, all of them, and puts what comes back together.
fn join_all<H: Ledger, C: Ledger, S: Setup, G: Gate, R: Threads>(
    rt: &R,
    gate: &G,
    parties: Vec<Party<H, C, S, G>>,
    rounds: u32,
) -> Result<Share<H, C, S>, StormFault>
    requires some { (0 < vec_len parties) × (vec_len parties ≤ 16) }
    requires rounds { rounds ≤ 400 }
    requires each { All (λ party. (party.rounds ≡ rounds) × (party.worker.accepted ≡ 0)) parties.items }
    requires numbers { All (λ party. party.worker.number < length parties.items) parties.items }
    requires gates { All (λ party. party.gate ≡ gate.now) parties.items }
    ensures back { Gathers result (length parties.items) 0 (9 * rounds)
        (sum_by (λ party. party.worker.spare) parties.items) 0 }
    ensures seen { GathersSeen result (9 * rounds) [] (map (λ party. party.worker.number) parties.items) }
    ensures stopped { IfErr result
        (IsWorkersStop S.limits S.rules (G.holds gate.now) (IsOneOf (length parties.items) rounds)) }
{
    let mut parties = parties.into_iter();
    let Some(first) = parties.next() else {
        unreachable!()
    };
    let mut whole = first.join(rt);
    for party in parties {
        whole = both(whole, party.join(rt));
    }
    whole
}

// What came back of two: both shares together, or the fault of the first that has one.
fn both<H: Ledger, C: Ledger, S: Setup>(
    one: Result<Share<H, C, S>, StormFault>,
    other: Result<Share<H, C, S>, StormFault>,
) -> Result<Share<H, C, S>, StormFault>
    requires { Fit one other }
    ensures { result ≡ both_shares one other }
{
    let one = one?;
    let other = other?;
    Ok(one.join(other))
}
