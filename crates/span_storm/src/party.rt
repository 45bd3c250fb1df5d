//! The workers' threads.
ghost use Rattle.std.specs.Prelude.{◌≡◌, ◌≤◌, true, IfOk, IfErr, IfSome};
ghost use Rattle.span_storm.specs.Storm.{wants_jobs};
ghost use Rattle.span_storm.specs.inside.Back.{ComesBack, IsCallOf, IsWorkersStop, PartyView};

use crate::fault::StormFault;
use crate::gate::Gate;
use crate::metas::Metas;
use crate::round::work;
use span_layers::Admit;
use span_registry::{Registry, Ring, Setup, Share, Worker};
use std::marker::Model;
use std::snapshot::Snapshot;
use std::sync::Wait;
use std::sync::ledger::Ledger;
use std::thread::{Promise, PromisedHandle, Scope, Threads};

/// What comes back of a worker that makes all its rounds, and as what it stops otherwise.
#[derive(Drop)]
pub(crate) struct Back<H: Ledger, C: Ledger, S: Setup, G> {
    worker: Snapshot<Worker<H, C, S>>,
    gate: Snapshot<G>,
    rounds: u32,
}

impl<H: Ledger, C: Ledger, S: Setup, G: Gate> Promise<Result<Share<H, C, S>, StormFault>>
    for Back<H, C, S, G> {
    ghost use Rattle.std.specs.Prelude.{◌≡◌, IfOk, IfErr};
    ghost use Rattle.span_storm.specs.inside.Back.{ComesBack, IsCallOf, IsWorkersStop};

    ghost kept_by = { λ back result. IfOk result (λ share. ComesBack back.worker.value back.rounds share)
        × IfErr result (IsWorkersStop S.limits S.rules (G.holds back.gate.value)
        (IsCallOf back.worker.value.number back.rounds)) };
}

/// A worker in its thread, if one could be made.
#[derive(Drop)]
pub(crate) struct Party<H: Ledger, C: Ledger, S: Setup, G: Gate> {
    worker: Snapshot<Worker<H, C, S>>,
    gate: Snapshot<G>,
    rounds: u32,
    running: Option<PromisedHandle<Result<Share<H, C, S>, StormFault>, Back<H, C, S, G>>>,
}

impl<H: Ledger, C: Ledger, S: Setup, G: Gate> Model for Party<H, C, S, G> {
    ghost use Rattle.std.specs.Prelude.{◌≡◌, IfSome};
    ghost use Rattle.span_storm.specs.inside.Back.{PartyView};

    ghost Value = { PartyView G };

    ghost view = { λ party. record { worker = party.worker.value; gate = party.gate.value; rounds = party.rounds } };

    ghost invariant = { λ party. IfSome party.running (λ handle.
        (handle.promise.worker.value ≡ party.worker.value) × (handle.promise.gate.value ≡ party.gate.value)
        × (handle.promise.rounds ≡ party.rounds)) };
}

impl<H: Ledger, C: Ledger, S: Setup, G: Gate> Party<H, C, S, G> {
    /// What comes back of the worker, once its thread has ended.
    pub(crate) fn join<R: Threads>(self, rt: &R) -> Result<Share<H, C, S>, StormFault>
        ensures back { IfOk result (λ share. ComesBack self.worker self.rounds share) }
        ensures stopped { IfErr result
            (IsWorkersStop S.limits S.rules (G.holds self.gate) (IsCallOf self.worker.number self.rounds)) }
    {
        let Party {
            worker: _,
            gate: _,
            rounds: _,
            running,
        } = self;
        match running {
            Some(handle) => handle.join(rt),
            None => Err(StormFault::Memory),
        }
    }
}

/// Starts the thread of a worker. Where there can be none, that is the worker's fault `Memory`.
pub(crate) fn start<
    's,
    E: 's,
    H: Ledger + Send + Sync + 's,
    C: Ledger + Send + Sync + 's,
    S: Setup + Send + Sync + 's,
    G: Gate + Sync + 's,
    A: Admit + Send + 's,
    R: Wait + Sync,
>(
    rt: &'s R,
    scope: &Scope<'s, E>,
    registry: &'s Registry<H, C, S, Ring, A>,
    gate: &'s G,
    metas: &'s Metas,
    worker: Worker<H, C, S>,
    rounds: u32,
) -> Party<H, C, S, G>
    requires wanted { wants_jobs S.rules ≡ true }
    requires new { worker.accepted ≡ 0 }
    requires spare { 3 ≤ worker.spare }
    ensures worker { result.worker ≡ worker }
    ensures gate { result.gate ≡ gate.now }
    ensures rounds { result.rounds ≡ rounds }
{
    let went = Snapshot::of(&worker);
    let promise = Back {
        worker: Snapshot::of(&worker),
        gate: Snapshot::of(gate),
        rounds,
    };
    let started = scope.spawn_with(
        promise,
        move || -> Result<Share<H, C, S>, StormFault>
            requires wanted { wants_jobs S.rules ≡ true }
            requires new { worker.accepted ≡ 0 }
            requires spare { 3 ≤ worker.spare }
            ensures back { IfOk result (λ share. ComesBack worker rounds share) }
            ensures stopped { IfErr result
                (IsWorkersStop S.limits S.rules (G.holds gate.entry.now) (IsCallOf worker.number rounds)) }
        { work(rt, registry, gate, metas, worker, rounds) },
    );
    Party {
        worker: went,
        gate: Snapshot::of(gate),
        rounds,
        running: started.ok(),
    }
}
