//! The calls that change a worker's stack.
ghost use Rattle.std.specs.Prelude.{◌≡◌, ◌↔◌, ◌<◌, None, IsTrue, IfOk, IfErr, OnOk, MatchResult};
ghost use Rattle.span_forest.specs.Spans.{find};
ghost use Rattle.span_outlet.specs.Request.{enter, entered, exit, exited};
ghost use Rattle.span_core.specs.Step.{closed_by_exit};
ghost use Rattle.span_core.specs.Core.{IsRefused};
ghost use Rattle.span_registry.specs.inside.Seated.{AreSeated};
ghost use Rattle.span_registry.specs.inside.Called.{MayBeCounted, IsRefusedWhereHeld};

use crate::handle::{Handle, take_seat};
use crate::laws::what_was_sent_is_legal;
use crate::setup::Setup;
use span_core::Core;
use span_core::laws::{each_slot_has_one_open_span, the_named_span_closes_first};
use span_id::{Fault, Id};
use span_outlet::Outlet;
use span_seats::{RootSeat, TableName};
use std::sync::ledger::Ledger;

// A worker enters the span of a handle.
pub(crate) fn enter<H: Ledger, C: Ledger, S: Setup, O: Outlet, A>(
    core: &mut Core<O, A>,
    root: &mut RootSeat<S>,
    worker: u32,
    handle: &mut Handle<H, C, S>,
) -> Result<bool, Fault>
    requires worker { worker < core.old.limits.workers }
    requires seated { AreSeated root.old core.old }
    ensures seated { AreSeated root.new core.new }
    ensures keeps_id { handle.new.id ≡ handle.old.id }
    ensures done { MatchResult result
        (λ first. MayBeCounted core.old (enter worker handle.old.id) (entered first) core.new)
        (λ fault. IsRefusedWhereHeld core.old (enter worker handle.old.id) fault core.new) }
{
    root.join(take_seat(&mut handle.seat));
    what_was_sent_is_legal(core);
    let done = core.enter(worker, handle.id);
    what_was_sent_is_legal(core);
    handle.seat = Some(root.split());
    done
}

// A worker leaves a span, which may close it and spans above it.
pub(crate) fn exit<T: TableName, O: Outlet, A>(
    core: &mut Core<O, A>,
    root: &mut RootSeat<T>,
    worker: u32,
    id: Id,
) -> Result<bool, Fault>
    requires worker { worker < core.old.limits.workers }
    requires seated { AreSeated root.old core.old }
    ensures seated { AreSeated root.new core.new }
    ensures accepted { OnOk result (MayBeCounted core.old (exit worker id)
        (exited (closed_by_exit core.old.world worker id)) core.new) }
    ensures gone { IfOk result (λ closed. IsTrue closed ↔ (find core.new.world.spans id ≡ None)) }
    ensures refused { IfErr result (λ fault. IsRefused core.old (exit worker id) fault core.new) }
{
    what_was_sent_is_legal(core);
    each_slot_has_one_open_span(core);
    the_named_span_closes_first(core);
    let closed = core.exit_with(worker, id, root, RootSeat::mark_closed)?;
    what_was_sent_is_legal(core);
    Ok(closed)
}
