//! What a call moves in the two books, at the keeper and at its worker.
ghost use Rattle.std.specs.Prelude.{◌≡◌, ◌+◌, ◌-◌, ◌^◌, ◌<◌, ◌≤◌};
ghost use mathlib.Core.List.{IsPrefix};
ghost use Rattle.span_core.specs.History.{IsLegal};
ghost use Rattle.span_history.specs.Own.{IsFront};
ghost use Rattle.span_registry.specs.Worker.{WorkerView, after_call, front_of, HasOneMore, HasNoMore};
ghost use Rattle.span_registry.specs.Report.{IsWithin};
ghost use Rattle.span_registry.specs.inside.Called.{IsAsLong, IsOneLonger};

use crate::handle::Handle;
use crate::laws::what_was_sent_is_legal;
use crate::setup::Setup;
use crate::worker::Worker;
use span_core::Core;
use span_core::laws::{counts_and_calls_have_bounds, each_slot_has_one_open_span};
use span_history::Keeper;
use span_id::Id;
use span_outlet::Outlet;
use span_seats::HandleSeat;
use std::sync::ledger;
use std::sync::ledger::{Book, Ledger};

// The worker sees the history of all that the core sent, which the keeper knew.
pub(crate) fn see<H: Ledger, C: Ledger, S: Setup, O: Outlet, A>(
    keeper: &mut Keeper<S>,
    core: &Core<O, A>,
    worker: &mut Worker<H, C, S>,
)
    requires { IsAsLong S.limits S.rules keeper.old.history core.now }
    ensures history { keeper.new.history ≡ core.now.sent }
    ensures seen { IsFront (front_of worker.old) keeper.old.history }
    ensures more { IsPrefix worker.old.seen worker.new.seen }
    ensures own { HasNoMore worker.old worker.new }
    ensures worker { worker.new ≡ record worker.old { seen = core.now.sent } }
    ensures legal { IsLegal S.rules S.limits.workers core.now.sent core.now.world }
    ensures within { IsWithin S.limits core.now }
{
    what_was_sent_is_legal(core);
    show_limits::<S, O, A>(core);
    keeper.next(core.outlet(), &mut worker.front);
}

// Shows that a core with the limits of a registry keeps them.
fn show_limits<S: Setup, O: Outlet, A>(core: &Core<O, A>)
    requires { core.now.limits ≡ S.limits }
    ensures { IsWithin S.limits core.now }
{
    counts_and_calls_have_bounds(core);
    each_slot_has_one_open_span(core);
}

// One more accepted call of the worker, which it sees with the history so far.
pub(crate) fn count_call<H: Ledger, C: Ledger, S: Setup, O: Outlet, A>(
    calls: &mut Book<C>,
    keeper: &mut Keeper<S>,
    core: &Core<O, A>,
    worker: &mut Worker<H, C, S>,
)
    requires room { calls.old.total + 1 < 2 ^ 64 }
    requires longer { IsOneLonger S.limits S.rules worker.old.number keeper.old.history core.now }
    ensures total { calls.new.total ≡ calls.old.total + 1 }
    ensures history { keeper.new.history ≡ core.now.sent }
    ensures seen { IsFront (front_of worker.old) keeper.old.history }
    ensures more { IsPrefix worker.old.seen worker.new.seen }
    ensures own { HasOneMore worker.old worker.new }
    ensures worker { worker.new ≡ after_call worker.old worker.old.spare core.now.sent }
    ensures legal { IsLegal S.rules S.limits.workers core.now.sent core.now.world }
    ensures within { IsWithin S.limits core.now }
{
    what_was_sent_is_legal(core);
    show_limits::<S, O, A>(core);
    keeper.next(core.outlet(), &mut worker.front);
    calls.audit(&mut worker.calls);
    calls.add(&mut worker.calls, 1);
    worker.accepted += 1;
}

// A handle with this seat: one unit more in the book, on a part of the worker's.
pub(crate) fn make_handle<H: Ledger, C: Ledger, S: Setup>(
    handles: &mut Book<H>,
    worker: &mut Worker<H, C, S>,
    id: Id,
    seat: HandleSeat<S>,
) -> Handle<H, C, S>
    requires spare { 0 < worker.old.spare }
    requires seat { seat.id ≡ id }
    ensures id { result.id ≡ id }
    ensures total { handles.new.total ≡ handles.old.total + 1 }
    ensures worker { worker.new ≡ record worker.old { spare = worker.old.spare - 1 } }
{
    let mut unit = worker.handles.split_off(1, 0);
    worker.spare -= 1;
    handles.add(&mut unit, 1);
    let no_calls = worker.calls.empty();
    Handle {
        id,
        seat: Some(seat),
        unit,
        no_calls,
    }
}

// A handle's unit leaves the book, and its part goes to the worker.
pub(crate) fn take_back<H: Ledger, C: Ledger, S: Setup>(
    handles: &mut Book<H>,
    worker: &mut Worker<H, C, S>,
    unit: ledger::Share<H>,
)
    requires unit { (unit.parts ≡ 1) × (unit.amount ≡ 1) }
    requires parts { H.parts < 2 ^ 64 }
    ensures total { handles.new.total + 1 ≡ handles.old.total }
    ensures worker { worker.new ≡ record worker.old { spare = worker.old.spare + 1 } }
{
    let mut unit = unit;
    handles.sub(&mut unit, 1);
    worker.handles.merge(unit);
    worker.spare += 1;
}
