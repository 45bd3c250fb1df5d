//! The calls that change a worker's stack.
ghost use Rattle.std.specs.Prelude.{◌≡◌, ◌≢◌, ◌↔◌, None, IsTrue, IfOk, IfErr, OnOk, OnErr, MatchResult};
ghost use Rattle.span_id.specs.declared.fault.Fault.TheVariants.{Unknown};
ghost use Rattle.span_forest.specs.Spans.{find};
ghost use Rattle.span_outlet.specs.Request.{enter, entered, exit, exited};
ghost use Rattle.span_stack.specs.Stack.{without_last};
ghost use Rattle.span_core.specs.World.{stack_of};
ghost use Rattle.span_core.specs.Step.{closed_by_exit};
ghost use Rattle.span_core.specs.Core.{IsAccepted, IsRefused};
ghost use mathlib.Core.List.{IsPrefix};
ghost use Rattle.span_core.specs.GivenBack.{ClosesWhatNothingHolds};
ghost use Rattle.span_registry.specs.Worker.{after_call, HasOneMore, HasNoMore};
ghost use Rattle.span_registry.specs.Happened.{Happened};

use crate::books::{count_call, see};
use crate::handle::Handle;
use crate::locked::Locked;
use crate::setup::Setup;
use crate::with_seats;
use crate::worker::Worker;
use span_core::laws::accepted_releases_close_what_nothing_holds;
use span_id::{Fault, Id};
use span_outlet::Outlet;
use std::sync::ledger::Ledger;

/// A worker enters the span of a handle: one step. It answers whether the entry is no duplicate.
///
/// Refused as `Core::enter`, but never with `Unknown`. A refused call changes nothing but what its worker has seen and how
/// often the outlet lacked a place. The handle keeps its id.
pub fn enter<H: Ledger, C: Ledger, S: Setup, O: Outlet, A>(
    locked: &mut Locked<H, C, S, O, A>,
    worker: &mut Worker<H, C, S>,
    handle: &mut Handle<H, C, S>,
) -> Result<bool, Fault>
    ensures seen { IsPrefix worker.old.seen worker.new.seen }
    ensures own { MatchResult result (λ _. HasOneMore worker.old worker.new) (λ _. HasNoMore worker.old worker.new) }
    ensures happened { IfOk result (λ first. Happened S.limits S.rules worker.old worker.new (λ old new.
        IsAccepted old (enter worker.old.number handle.old.id) (entered first) new)) }
    ensures was_refused { IfErr result (λ fault. Happened S.limits S.rules worker.old worker.new (λ old new.
        IsRefused old (enter worker.old.number handle.old.id) fault new)) }
    ensures step { IfOk result (λ first.
        IsAccepted locked.old (enter worker.old.number handle.old.id) (entered first) locked.new) }
    ensures worker { OnOk result (worker.new ≡ after_call worker.old worker.old.spare locked.new.sent) }
    ensures refused { IfErr result (λ fault.
        IsRefused locked.old (enter worker.old.number handle.old.id) fault locked.new) }
    ensures never_unknown { IfErr result (λ fault. fault ≢ Unknown) }
    ensures unchanged { OnErr result (worker.new ≡ record worker.old { seen = worker.new.seen }) }
    ensures keeps_id { handle.new.id ≡ handle.old.id }
{
    let Locked {
        core,
        root,
        keeper,
        handles: _,
        calls,
        setup: _,
    } = locked;
    let first = match with_seats::entries::enter(core, root, worker.number, handle) {
        Ok(first) => first,
        Err(fault) => {
            see(keeper, core, worker);
            return Err(fault);
        }
    };
    count_call(calls, keeper, core, worker);
    Ok(first)
}

/// A worker leaves a span: one step. It answers whether the span closed.
///
/// Refused as `Core::exit`. A refused call changes nothing but what its worker has seen and how often the outlet lacked a
/// place.
#[tactic(auto, using(crate::proofs::Exited::stack_left))]
pub fn exit<H: Ledger, C: Ledger, S: Setup, O: Outlet, A>(
    locked: &mut Locked<H, C, S, O, A>,
    worker: &mut Worker<H, C, S>,
    id: Id,
) -> Result<bool, Fault>
    ensures seen { IsPrefix worker.old.seen worker.new.seen }
    ensures own { MatchResult result (λ _. HasOneMore worker.old worker.new) (λ _. HasNoMore worker.old worker.new) }
    ensures happened { OnOk result (Happened S.limits S.rules worker.old worker.new (λ old new.
        IsAccepted old (exit worker.old.number id) (exited (closed_by_exit old.world worker.old.number id)) new)) }
    ensures was_refused { IfErr result (λ fault. Happened S.limits S.rules worker.old worker.new (λ old new.
        IsRefused old (exit worker.old.number id) fault new)) }
    ensures step { OnOk result (IsAccepted locked.old (exit worker.old.number id)
        (exited (closed_by_exit locked.old.world worker.old.number id)) locked.new) }
    ensures gone { IfOk result (λ closed. IsTrue closed ↔ (find locked.new.world.spans id ≡ None)) }
    ensures released { OnOk result (ClosesWhatNothingHolds locked.old (exit worker.old.number id) locked.new) }
    ensures was_released { IfOk result (λ closed. Happened S.limits S.rules worker.old worker.new (λ old new.
        ClosesWhatNothingHolds old (exit worker.old.number id) new × (IsTrue closed ↔ (find new.world.spans id ≡ None))
        × (stack_of new.world worker.old.number ≡ without_last (stack_of old.world worker.old.number) id))) }
    ensures left { OnOk result (stack_of locked.new.world worker.old.number
        ≡ without_last (stack_of locked.old.world worker.old.number) id) }
    ensures worker { OnOk result (worker.new ≡ after_call worker.old worker.old.spare locked.new.sent) }
    ensures refused { IfErr result (λ fault. IsRefused locked.old (exit worker.old.number id) fault locked.new) }
    ensures unchanged { OnErr result (worker.new ≡ record worker.old { seen = worker.new.seen }) }
{
    let Locked {
        core,
        root,
        keeper,
        handles: _,
        calls,
        setup: _,
    } = locked;
    accepted_releases_close_what_nothing_holds(core);
    let closed = match with_seats::entries::exit(core, root, worker.number, id) {
        Ok(closed) => closed,
        Err(fault) => {
            see(keeper, core, worker);
            return Err(fault);
        }
    };
    count_call(calls, keeper, core, worker);
    Ok(closed)
}
