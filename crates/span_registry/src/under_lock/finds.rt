//! What is asked of the open spans.
ghost use Rattle.std.specs.Prelude.{◌≡◌, ◌+◌, ◌<◌, None, MatchOption, IfOk, IfErr, OnErr, IfSome, IfNone, IsSomeAnd};
ghost use Rattle.span_forest.specs.Spans.{find, IsOpen};
ghost use Rattle.span_forest.specs.Count.{children, reference_count};
ghost use Rattle.span_core.specs.World.{workers_inside};
ghost use mathlib.Core.List.{IsPrefix};
ghost use Rattle.span_registry.specs.Worker.{HasNoMore};
ghost use Rattle.span_registry.specs.Found.{IsFound};
ghost use Rattle.span_registry.specs.Happened.{Happened};

use crate::books::see;
use crate::found::Found;
use crate::locked::Locked;
use crate::setup::Setup;
use crate::worker::Worker;
use span_id::{Fault, Id};
use span_outlet::Outlet;
use std::alloc::Global;
use std::sync::ledger::Ledger;

/// The name, the parent and the numbers of the span of an id, if it is open. Its count is its handles, the workers that
/// are inside it and its open children; it is positive, and its parent is open. It is no call of the history. The only
/// error is `Memory`, for the copy of an open span's name.
pub fn find<H: Ledger, C: Ledger, S: Setup, O: Outlet, A>(
    alloc: Global,
    locked: &mut Locked<H, C, S, O, A>,
    worker: &mut Worker<H, C, S>,
    id: Id,
) -> Result<Option<Found>, Fault>
    ensures seen { IsPrefix worker.old.seen worker.new.seen }
    ensures own { HasNoMore worker.old worker.new }
    ensures happened { IfOk result (λ answer. Happened S.limits S.rules worker.old worker.new (λ old new.
        (new ≡ old) × IfNone answer (find old.world.spans id ≡ None)
        × IfSome answer (λ found. IsSomeAnd (find old.world.spans id) (λ node.
        IsFound node (reference_count old.world.spans id) found)))) }
    ensures was_refused { OnErr result (Happened S.limits S.rules worker.old worker.new (λ old new.
        (new ≡ old) × IsOpen old.world.spans id)) }
    ensures worker { worker.new ≡ record worker.old { seen = worker.new.seen } }
    ensures same { locked.new ≡ locked.old }
    ensures absent { IfOk result (λ answer. IfNone answer (find locked.old.world.spans id ≡ None)) }
    ensures found { IfOk result (λ answer. IfSome answer (λ found.
        IsSomeAnd (find locked.old.world.spans id) (λ node.
        IsFound node (reference_count locked.old.world.spans id) found))) }
    ensures counted { IfOk result (λ answer. IfSome answer (λ found.
        (found.count ≡ found.handles + workers_inside locked.old.world.stacks id + children locked.old.world.spans id)
        × (0 < found.count)
        × MatchOption found.parent (Unit {0}) (λ parent. IsOpen locked.old.world.spans parent))) }
    ensures memory { IfErr result (λ fault. (fault ≡ Fault.Memory) × IsOpen locked.old.world.spans id) }
{
    look(locked, worker);
    let Some(span) = locked.core.find(id) else {
        return Ok(None);
    };
    let found = Found::of(alloc, span)?;
    Ok(Some(found))
}

// The worker sees the history so far.
pub(super) fn look<H: Ledger, C: Ledger, S: Setup, O: Outlet, A>(
    locked: &mut Locked<H, C, S, O, A>,
    worker: &mut Worker<H, C, S>,
)
    ensures same { locked.new ≡ locked.old }
    ensures seen { IsPrefix worker.old.seen worker.new.seen }
    ensures own { HasNoMore worker.old worker.new }
    ensures happened { Happened S.limits S.rules worker.old worker.new (λ old new. (old ≡ locked.old) × (new ≡ old)) }
    ensures worker { worker.new ≡ record worker.old { seen = worker.new.seen } }
{
    let Locked {
        core,
        root: _,
        keeper,
        handles: _,
        calls: _,
        setup: _,
    } = locked;
    see(keeper, core, worker);
}
