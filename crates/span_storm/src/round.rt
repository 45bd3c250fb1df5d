//! What one worker does.
ghost use Rattle.std.specs.Prelude.{◌≡◌, ◌+◌, ◌*◌, ◌-◌, ◌%◌, ◌^◌, ◌<◌, ◌≤◌, true, codes, length, IfOk, IfErr, OnOk, OnErr};
ghost use Rattle.span_id.specs.Meta.{plain_meta};
ghost use Rattle.span_registry.specs.Worker.{after_call};
ghost use Rattle.span_core.specs.Step.{is_wanted_meta};
ghost use Rattle.span_core.specs.World.{World};
ghost use Rattle.span_core.specs.Parent.{parent_found};
ghost use Rattle.span_storm.specs.Storm.{IsPlaceOfClose, IsSpanOfRound, app_meta, wants_jobs};
ghost use Rattle.span_history.specs.Own.{own};
ghost use Rattle.span_storm.specs.inside.Back.{ComesBack, HasRounds, IsAt, IsCallOf, IsWorkersStop, MayMake};

use crate::fault::StormFault;
use crate::gate::Gate;
use crate::metas::Metas;
use span_id::Meta;
use span_layers::Admit;
use span_registry::{
    DroppableHandle, Handle, ParentOf, RefusedClose, Registry, Ring, Setup, Share, Worker,
};
use std::sync::Wait;
use std::sync::ledger::Ledger;

/// Makes so many rounds of calls, and leaves. A worker that is refused or held gives up its handles and stops.
pub(crate) fn work<H: Ledger, C: Ledger, S: Setup, G: Gate, A: Admit, R: Wait>(
    rt: &R,
    registry: &Registry<H, C, S, Ring, A>,
    gate: &G,
    metas: &Metas,
    worker: Worker<H, C, S>,
    rounds: u32,
) -> Result<Share<H, C, S>, StormFault>
    requires wanted { wants_jobs S.rules ≡ true }
    requires new { worker.accepted ≡ 0 }
    requires spare { 3 ≤ worker.spare }
    ensures back { IfOk result (λ share. ComesBack worker rounds share) }
    ensures stopped { IfErr result
        (IsWorkersStop S.limits S.rules (G.holds gate.now) (IsCallOf worker.number rounds)) }
{
    let mut worker = worker;
    let _none = worker.accepted();
    make_rounds(rt, registry, gate, metas, &mut worker, rounds)?;
    let _own = worker.accepted();
    Ok(worker.leave())
}

// Makes so many rounds.
fn make_rounds<H: Ledger, C: Ledger, S: Setup, G: Gate, A: Admit, R: Wait>(
    rt: &R,
    registry: &Registry<H, C, S, Ring, A>,
    gate: &G,
    metas: &Metas,
    worker: &mut Worker<H, C, S>,
    rounds: u32,
) -> Result<(), StormFault>
    requires wanted { wants_jobs S.rules ≡ true }
    requires spare { 3 ≤ worker.old.spare }
    requires place { worker.old.accepted % 9 ≡ 0 }
    requires rounds { MayMake (9 * rounds) worker.old }
    ensures number { worker.new.number ≡ worker.old.number }
    ensures accepted { OnOk result (worker.new.accepted ≡ worker.old.accepted + 9 * rounds) }
    ensures spare { OnOk result (worker.new.spare ≡ worker.old.spare) }
    ensures rounds { OnOk result (HasRounds worker.new) }
    ensures fewer { OnErr result (worker.new.accepted < worker.old.accepted + 9 * rounds) }
    ensures stopped { IfErr result (IsWorkersStop S.limits S.rules (G.holds gate.now) (IsAt worker.new)) }
{
    for _ in 0..rounds {
        round(rt, registry, gate, metas, worker)?;
    }
    Ok(())
}

// Nine calls: a job, and what is made with it.
fn round<H: Ledger, C: Ledger, S: Setup, G: Gate, A: Admit, R: Wait>(
    rt: &R,
    registry: &Registry<H, C, S, Ring, A>,
    gate: &G,
    metas: &Metas,
    worker: &mut Worker<H, C, S>,
) -> Result<(), StormFault>
    requires wanted { wants_jobs S.rules ≡ true }
    requires spare { 3 ≤ worker.old.spare }
    requires place { worker.old.accepted % 9 ≡ 0 }
    requires rounds { MayMake 9 worker.old }
    ensures number { worker.new.number ≡ worker.old.number }
    ensures accepted { OnOk result (worker.new.accepted ≡ worker.old.accepted + 9) }
    ensures spare { OnOk result (worker.new.spare ≡ worker.old.spare) }
    ensures rounds { OnOk result (HasRounds worker.new) }
    ensures fewer { OnErr result (worker.new.accepted < worker.old.accepted + 9) }
    ensures stopped { IfErr result (IsWorkersStop S.limits S.rules (G.holds gate.now) (IsAt worker.new)) }
{
    let job = open(rt, registry, gate, worker, &metas.job, ParentOf::Root)?;
    with_job(rt, registry, gate, metas, worker, job)
}

// Eight calls: what is made with a job, which is closed at the end.
fn with_job<H: Ledger, C: Ledger, S: Setup, G: Gate, A: Admit, R: Wait>(
    rt: &R,
    registry: &Registry<H, C, S, Ring, A>,
    gate: &G,
    metas: &Metas,
    worker: &mut Worker<H, C, S>,
    job: DroppableHandle<H, C, S>,
) -> Result<(), StormFault>
    requires wanted { wants_jobs S.rules ≡ true }
    requires spare { 2 ≤ worker.old.spare }
    requires place { worker.old.accepted % 9 ≡ 1 }
    requires rounds { MayMake 8 worker.old }
    ensures number { worker.new.number ≡ worker.old.number }
    ensures accepted { OnOk result (worker.new.accepted ≡ worker.old.accepted + 8) }
    ensures spare { OnOk result (worker.new.spare ≡ worker.old.spare + 1) }
    ensures rounds { OnOk result (HasRounds worker.new) }
    ensures fewer { OnErr result (worker.new.accepted < worker.old.accepted + 8) }
    ensures stopped { IfErr result (IsWorkersStop S.limits S.rules (G.holds gate.now) (IsAt worker.new)) }
{
    let mut job = job;
    with_clone(rt, registry, gate, metas, worker, &mut job.handle)?;
    close(rt, registry, gate, worker, job)
}

// Seven calls: the job has two handles while the worker is inside it.
fn with_clone<H: Ledger, C: Ledger, S: Setup, G: Gate, A: Admit, R: Wait>(
    rt: &R,
    registry: &Registry<H, C, S, Ring, A>,
    gate: &G,
    metas: &Metas,
    worker: &mut Worker<H, C, S>,
    job: &mut Handle<H, C, S>,
) -> Result<(), StormFault>
    requires wanted { wants_jobs S.rules ≡ true }
    requires spare { 2 ≤ worker.old.spare }
    requires place { worker.old.accepted % 9 ≡ 1 }
    requires rounds { MayMake 7 worker.old }
    ensures number { worker.new.number ≡ worker.old.number }
    ensures accepted { OnOk result (worker.new.accepted ≡ worker.old.accepted + 7) }
    ensures spare { OnOk result (worker.new.spare ≡ worker.old.spare) }
    ensures rounds { OnOk result (HasRounds worker.new) }
    ensures fewer { OnErr result (worker.new.accepted < worker.old.accepted + 7) }
    ensures stopped { IfErr result (IsWorkersStop S.limits S.rules (G.holds gate.now) (IsAt worker.new)) }
{
    let other = clone_handle(rt, registry, gate, worker, job)?;
    inside(rt, registry, gate, metas, worker, job)?;
    close(rt, registry, gate, worker, other)
}

// Five calls: the worker enters the job, tells the event, makes a step and closes it, and leaves the job.
fn inside<H: Ledger, C: Ledger, S: Setup, G: Gate, A: Admit, R: Wait>(
    rt: &R,
    registry: &Registry<H, C, S, Ring, A>,
    gate: &G,
    metas: &Metas,
    worker: &mut Worker<H, C, S>,
    job: &mut Handle<H, C, S>,
) -> Result<(), StormFault>
    requires wanted { wants_jobs S.rules ≡ true }
    requires spare { 1 ≤ worker.old.spare }
    requires place { worker.old.accepted % 9 ≡ 2 }
    requires rounds { MayMake 5 worker.old }
    ensures number { worker.new.number ≡ worker.old.number }
    ensures accepted { OnOk result (worker.new.accepted ≡ worker.old.accepted + 5) }
    ensures spare { OnOk result (worker.new.spare ≡ worker.old.spare) }
    ensures rounds { OnOk result (HasRounds worker.new) }
    ensures fewer { OnErr result (worker.new.accepted < worker.old.accepted + 5) }
    ensures stopped { IfErr result (IsWorkersStop S.limits S.rules (G.holds gate.now) (IsAt worker.new)) }
{
    enter(rt, registry, gate, worker, job)?;
    tell(rt, registry, gate, worker, &metas.event)?;
    let step = open(rt, registry, gate, worker, &metas.step, ParentOf::Current)?;
    close(rt, registry, gate, worker, step)?;
    exit(rt, registry, gate, worker, job)
}

// Asks whether the worker may make its next call: all calls before it were accepted.
fn ask<H: Ledger, C: Ledger, S: Setup, G: Gate>(
    gate: &G,
    worker: &Worker<H, C, S>,
) -> Result<(), StormFault>
    requires { worker.now.accepted + 1 < 2 ^ 64 }
    ensures own { length (own worker.now.number worker.now.seen) ≡ worker.now.accepted }
    ensures stopped { IfErr result (IsWorkersStop S.limits S.rules (G.holds gate.now) (IsAt worker.now)) }
{
    let party = worker.number();
    if gate.before(party, worker.accepted() + 1) {
        Ok(())
    } else {
        Err(StormFault::Held(party))
    }
}

// Makes a span, which is wanted.
fn open<H: Ledger, C: Ledger, S: Setup, G: Gate, A: Admit, R: Wait>(
    rt: &R,
    registry: &Registry<H, C, S, Ring, A>,
    gate: &G,
    worker: &mut Worker<H, C, S>,
    meta: &Meta,
    parent: ParentOf,
) -> Result<DroppableHandle<H, C, S>, StormFault>
    requires wanted { is_wanted_meta S.rules (plain_meta meta.now) ≡ true }
    requires span { (world : World)
        → IsSpanOfRound (worker.old.accepted % 9) (plain_meta meta.now) (parent_found world worker.old.number parent) }
    requires spare { 0 < worker.old.spare }
    requires rounds { MayMake 1 worker.old }
    ensures worker { OnOk result (worker.new ≡ after_call worker.old (worker.old.spare - 1) worker.new.seen) }
    ensures rounds { OnOk result (HasRounds worker.new) }
    ensures unchanged { OnErr result (worker.new ≡ record worker.old { seen = worker.new.seen }) }
    ensures stopped { IfErr result (IsWorkersStop S.limits S.rules (G.holds gate.now) (IsAt worker.new)) }
{
    ask(gate, worker)?;
    let Some(handle) = registry.new_span(rt, worker, meta, &[], parent)? else {
        unreachable!()
    };
    Ok(DroppableHandle { handle })
}

// Makes one more handle of a span.
fn clone_handle<H: Ledger, C: Ledger, S: Setup, G: Gate, A: Admit, R: Wait>(
    rt: &R,
    registry: &Registry<H, C, S, Ring, A>,
    gate: &G,
    worker: &mut Worker<H, C, S>,
    handle: &mut Handle<H, C, S>,
) -> Result<DroppableHandle<H, C, S>, StormFault>
    requires spare { 0 < worker.old.spare }
    requires place { worker.old.accepted % 9 ≡ 1 }
    requires rounds { MayMake 1 worker.old }
    ensures worker { OnOk result (worker.new ≡ after_call worker.old (worker.old.spare - 1) worker.new.seen) }
    ensures rounds { OnOk result (HasRounds worker.new) }
    ensures unchanged { OnErr result (worker.new ≡ record worker.old { seen = worker.new.seen }) }
    ensures stopped { IfErr result (IsWorkersStop S.limits S.rules (G.holds gate.now) (IsAt worker.new)) }
{
    ask(gate, worker)?;
    let handle = registry.clone_span(rt, worker, handle)?;
    Ok(DroppableHandle { handle })
}

// Enters the span of a handle.
fn enter<H: Ledger, C: Ledger, S: Setup, G: Gate, A: Admit, R: Wait>(
    rt: &R,
    registry: &Registry<H, C, S, Ring, A>,
    gate: &G,
    worker: &mut Worker<H, C, S>,
    handle: &mut Handle<H, C, S>,
) -> Result<(), StormFault>
    requires place { worker.old.accepted % 9 ≡ 2 }
    requires rounds { MayMake 1 worker.old }
    ensures worker { OnOk result (worker.new ≡ after_call worker.old worker.old.spare worker.new.seen) }
    ensures rounds { OnOk result (HasRounds worker.new) }
    ensures unchanged { OnErr result (worker.new ≡ record worker.old { seen = worker.new.seen }) }
    ensures stopped { IfErr result (IsWorkersStop S.limits S.rules (G.holds gate.now) (IsAt worker.new)) }
{
    ask(gate, worker)?;
    registry.enter(rt, worker, handle)?;
    Ok(())
}

// Tells the event of a round.
fn tell<H: Ledger, C: Ledger, S: Setup, G: Gate, A: Admit, R: Wait>(
    rt: &R,
    registry: &Registry<H, C, S, Ring, A>,
    gate: &G,
    worker: &mut Worker<H, C, S>,
    meta: &Meta,
) -> Result<(), StormFault>
    requires meta { plain_meta meta.now ≡ app_meta (codes "event") }
    requires place { worker.old.accepted % 9 ≡ 3 }
    requires rounds { MayMake 1 worker.old }
    ensures worker { OnOk result (worker.new ≡ after_call worker.old worker.old.spare worker.new.seen) }
    ensures rounds { OnOk result (HasRounds worker.new) }
    ensures unchanged { OnErr result (worker.new ≡ record worker.old { seen = worker.new.seen }) }
    ensures stopped { IfErr result (IsWorkersStop S.limits S.rules (G.holds gate.now) (IsAt worker.new)) }
{
    ask(gate, worker)?;
    registry.event(rt, worker, meta, "tick", &[])?;
    Ok(())
}

// Leaves the span of a handle.
fn exit<H: Ledger, C: Ledger, S: Setup, G: Gate, A: Admit, R: Wait>(
    rt: &R,
    registry: &Registry<H, C, S, Ring, A>,
    gate: &G,
    worker: &mut Worker<H, C, S>,
    handle: &Handle<H, C, S>,
) -> Result<(), StormFault>
    requires place { worker.old.accepted % 9 ≡ 6 }
    requires rounds { MayMake 1 worker.old }
    ensures worker { OnOk result (worker.new ≡ after_call worker.old worker.old.spare worker.new.seen) }
    ensures rounds { OnOk result (HasRounds worker.new) }
    ensures unchanged { OnErr result (worker.new ≡ record worker.old { seen = worker.new.seen }) }
    ensures stopped { IfErr result (IsWorkersStop S.limits S.rules (G.holds gate.now) (IsAt worker.new)) }
{
    ask(gate, worker)?;
    registry.exit(rt, worker, handle.id())?;
    Ok(())
}

// Gives a handle back.
fn close<H: Ledger, C: Ledger, S: Setup, G: Gate, A: Admit, R: Wait>(
    rt: &R,
    registry: &Registry<H, C, S, Ring, A>,
    gate: &G,
    worker: &mut Worker<H, C, S>,
    held: DroppableHandle<H, C, S>,
) -> Result<(), StormFault>
    requires place { IsPlaceOfClose (worker.old.accepted % 9) }
    requires rounds { MayMake 1 worker.old }
    ensures worker { OnOk result (worker.new ≡ after_call worker.old (worker.old.spare + 1) worker.new.seen) }
    ensures rounds { OnOk result (HasRounds worker.new) }
    ensures unchanged { OnErr result (worker.new ≡ record worker.old { seen = worker.new.seen }) }
    ensures stopped { IfErr result (IsWorkersStop S.limits S.rules (G.holds gate.now) (IsAt worker.new)) }
{
    ask(gate, worker)?;
    match registry.try_close(rt, worker, held.into_handle()) {
        Ok(_closed) => Ok(()),
        Err(RefusedClose { handle, fault }) => {
            drop(handle.into_share());
            Err(StormFault::Refused(fault))
        }
    }
}
