//! The calls that make one more handle of a span or give one back.
ghost use Rattle.std.specs.Prelude.{◌≡◌, ◌≢◌, ◌+◌, ◌-◌, ◌<◌, ◌↔◌, None, IsTrue, IfOk, IfErr, OnOk, OnErr, MatchResult};
ghost use Rattle.span_id.specs.declared.fault.Fault.TheVariants.{Unknown, CountFull};
ghost use Rattle.span_forest.specs.Spans.{find};
ghost use Rattle.span_outlet.specs.Request.{clone_span, cloned, try_close, released};
ghost use Rattle.span_core.specs.Core.{IsAccepted, IsRefused};
ghost use mathlib.Core.List.{IsPrefix};
ghost use Rattle.span_core.specs.GivenBack.{ClosesWhatNothingHolds};
ghost use Rattle.span_registry.specs.Worker.{after_call, HasOneMore, HasNoMore};
ghost use Rattle.span_registry.specs.Happened.{Happened, closed_by_close};

use crate::books::{count_call, make_handle, see, take_back};
use crate::locked::Locked;
use crate::refused_close::RefusedClose;
use crate::setup::Setup;
use crate::with_seats;
use crate::worker::Worker;
use span_core::laws::accepted_releases_close_what_nothing_holds;
use span_id::Fault;
use span_outlet::Outlet;
use std::sync::ledger::Ledger;

/// One more handle of the span of a handle: one step, one unit more in the book, on a part of the worker's.
///
/// Refused in this order: `CountFull` where the worker has no part of the ledger of handles left; then as
/// `Core::clone_span`, but never with `Unknown`. A refused call changes nothing but what its worker has seen and how often
/// the outlet lacked a place. The handle that was lent keeps its id.
pub fn clone_span<H: Ledger, C: Ledger, S: Setup, O: Outlet, A>(
    locked: &mut Locked<H, C, S, O, A>,
    worker: &mut Worker<H, C, S>,
    handle: &mut crate::Handle<H, C, S>,
) -> Result<crate::Handle<H, C, S>, Fault>
    ensures seen { IsPrefix worker.old.seen worker.new.seen }
    ensures own { MatchResult result (λ _. HasOneMore worker.old worker.new) (λ _. HasNoMore worker.old worker.new) }
    ensures happened { OnOk result (Happened S.limits S.rules worker.old worker.new (λ old new.
        IsAccepted old (clone_span worker.old.number handle.old.id) cloned new)) }
    ensures was_refused { IfErr result (λ fault. 0 < worker.old.spare → Happened S.limits S.rules worker.old worker.new (λ old new.
        IsRefused old (clone_span worker.old.number handle.old.id) fault new)) }
    ensures step { OnOk result (IsAccepted locked.old (clone_span worker.old.number handle.old.id) cloned locked.new) }
    ensures id { IfOk result (λ clone. clone.id ≡ handle.old.id) }
    ensures worker { OnOk result (worker.new ≡ after_call worker.old (worker.old.spare - 1) locked.new.sent) }
    ensures part { OnOk result (0 < worker.old.spare) }
    ensures no_part { IfErr result (λ fault. worker.old.spare ≡ 0 →
        (fault ≡ CountFull) × (locked.new ≡ locked.old) × (handle.new ≡ handle.old)) }
    ensures refused { IfErr result (λ fault. 0 < worker.old.spare →
        IsRefused locked.old (clone_span worker.old.number handle.old.id) fault locked.new) }
    ensures never_unknown { IfErr result (λ fault. fault ≢ Unknown) }
    ensures unchanged { OnErr result (worker.new ≡ record worker.old { seen = worker.new.seen }) }
    ensures keeps_id { handle.new.id ≡ handle.old.id }
{
    if worker.spare == 0 {
        return Err(Fault::CountFull);
    }
    let id = handle.id;
    let Locked {
        core,
        root,
        keeper,
        handles,
        calls,
        setup: _,
    } = locked;
    let seat = match with_seats::handles::clone_span(core, root, worker.number, handle) {
        Ok(seat) => seat,
        Err(fault) => {
            see(keeper, core, worker);
            return Err(fault);
        }
    };
    count_call(calls, keeper, core, worker);
    Ok(make_handle(handles, worker, id, seat))
}

/// A handle given back: one step, one unit less in the book, and its part comes to the worker. It answers whether the
/// span closed.
///
/// Refused as `Core::try_close`, but never with `Unknown`. A refused call changes nothing but what its worker has seen and
/// how often the outlet lacked a place, and a handle of the same id comes back.
pub fn try_close<H: Ledger, C: Ledger, S: Setup, O: Outlet, A>(
    locked: &mut Locked<H, C, S, O, A>,
    worker: &mut Worker<H, C, S>,
    handle: crate::Handle<H, C, S>,
) -> Result<bool, RefusedClose<H, C, S>>
    ensures seen { IsPrefix worker.old.seen worker.new.seen }
    ensures own { MatchResult result (λ _. HasOneMore worker.old worker.new) (λ _. HasNoMore worker.old worker.new) }
    ensures happened { OnOk result (Happened S.limits S.rules worker.old worker.new (λ old new.
        IsAccepted old (try_close worker.old.number handle.id) (released (closed_by_close old.world handle.id)) new)) }
    ensures was_refused { IfErr result (λ refused. Happened S.limits S.rules worker.old worker.new (λ old new.
        IsRefused old (try_close worker.old.number handle.id) refused.fault new)) }
    ensures step { OnOk result (IsAccepted locked.old (try_close worker.old.number handle.id)
        (released (closed_by_close locked.old.world handle.id)) locked.new) }
    ensures gone { IfOk result (λ closed. IsTrue closed ↔ (find locked.new.world.spans handle.id ≡ None)) }
    ensures released { OnOk result (ClosesWhatNothingHolds locked.old (try_close worker.old.number handle.id) locked.new) }
    ensures was_released { IfOk result (λ closed. Happened S.limits S.rules worker.old worker.new (λ old new.
        ClosesWhatNothingHolds old (try_close worker.old.number handle.id) new
        × (IsTrue closed ↔ (find new.world.spans handle.id ≡ None)))) }
    ensures worker { OnOk result (worker.new ≡ after_call worker.old (worker.old.spare + 1) locked.new.sent) }
    ensures refused { IfErr result (λ refused.
        IsRefused locked.old (try_close worker.old.number handle.id) refused.fault locked.new) }
    ensures never_unknown { IfErr result (λ refused. refused.fault ≢ Unknown) }
    ensures back { IfErr result (λ refused. refused.handle.id ≡ handle.id) }
    ensures unchanged { OnErr result (worker.new ≡ record worker.old { seen = worker.new.seen }) }
{
    let crate::Handle {
        id,
        seat,
        unit,
        no_calls,
    } = handle;
    let Some(seat) = seat else { unreachable!() };
    let Locked {
        core,
        root,
        keeper,
        handles,
        calls,
        setup: _,
    } = locked;
    accepted_releases_close_what_nothing_holds(core);
    let closed = match with_seats::handles::try_close(core, root, worker.number, id, seat) {
        Ok(closed) => closed,
        Err((seat, fault)) => {
            see(keeper, core, worker);
            let handle = crate::Handle {
                id,
                seat: Some(seat),
                unit,
                no_calls,
            };
            return Err(RefusedClose { handle, fault });
        }
    };
    count_call(calls, keeper, core, worker);
    take_back(handles, worker, unit);
    Ok(closed)
}
