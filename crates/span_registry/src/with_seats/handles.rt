//! The calls on a handle.
ghost use Rattle.std.specs.Prelude.{◌≡◌, ◌≢◌, ◌↔◌, ℕ, ◌<◌, None, IsTrue, MatchResult};
ghost use Rattle.span_id.specs.Id.{slot_of};
ghost use Rattle.span_id.specs.Meta.{plain_fields};
ghost use Rattle.span_forest.specs.declared.span.Holder.TheVariants.{Handle};
ghost use Rattle.span_forest.specs.Holders.{IsHeld};
ghost use Rattle.span_forest.specs.Spans.{find, IsOpen};
ghost use Rattle.span_forest.specs.Release.{closing_list};
ghost use Rattle.span_outlet.specs.Request.{clone_span, cloned, record_fields, recorded, try_close, released};
ghost use Rattle.span_registry.specs.inside.Seated.{AreSeated};
ghost use Rattle.span_registry.specs.inside.Called.{MayBeCounted, IsRefusedWhereHeld};

use crate::handle::take_seat;
use crate::laws::what_was_sent_is_legal;
use crate::setup::Setup;
use span_core::Core;
use span_core::laws::{each_slot_has_one_open_span, the_named_span_closes_first};
use span_id::{Fault, Field, Id};
use span_outlet::Outlet;
use span_seats::laws::two_handles_have_two_numbers;
use span_seats::{HandleSeat, RootSeat, TableName};
use std::sync::ledger::Ledger;

// One more handle: its seat.
pub(crate) fn clone_span<H: Ledger, C: Ledger, S: Setup, O: Outlet, A>(
    core: &mut Core<O, A>,
    root: &mut RootSeat<S>,
    worker: u32,
    handle: &mut crate::Handle<H, C, S>,
) -> Result<HandleSeat<S>, Fault>
    requires worker { worker < core.old.limits.workers }
    requires seated { AreSeated root.old core.old }
    ensures seated { AreSeated root.new core.new }
    ensures keeps_id { handle.new.id ≡ handle.old.id }
    ensures done { MatchResult result
        (λ seat. MayBeCounted core.old (clone_span worker handle.old.id) cloned core.new
        × (seat.id ≡ handle.old.id))
        (λ fault. IsRefusedWhereHeld core.old (clone_span worker handle.old.id) fault core.new) }
{
    root.join(take_seat(&mut handle.seat));
    what_was_sent_is_legal(core);
    let made = core.clone_span(worker, handle.id);
    what_was_sent_is_legal(core);
    handle.seat = Some(root.split());
    made?;
    Ok(root.split())
}

// Fields appended.
pub(crate) fn record<H: Ledger, C: Ledger, S: Setup, O: Outlet, A>(
    core: &mut Core<O, A>,
    root: &mut RootSeat<S>,
    worker: u32,
    handle: &mut crate::Handle<H, C, S>,
    fields: &[Field],
) -> Result<(), Fault>
    requires worker { worker < core.old.limits.workers }
    requires seated { AreSeated root.old core.old }
    ensures seated { AreSeated root.new core.new }
    ensures keeps_id { handle.new.id ≡ handle.old.id }
    ensures done { MatchResult result
        (λ _. MayBeCounted core.old (record_fields worker handle.old.id (plain_fields fields.now)) recorded core.new)
        (λ fault. IsRefusedWhereHeld core.old (record_fields worker handle.old.id (plain_fields fields.now))
        fault core.new) }
{
    root.join(take_seat(&mut handle.seat));
    what_was_sent_is_legal(core);
    let done = core.record(worker, handle.id, fields);
    what_was_sent_is_legal(core);
    handle.seat = Some(root.split());
    done
}

// A handle given back: where the call is refused its seat comes back.
pub(crate) fn try_close<T: TableName, O: Outlet, A>(
    core: &mut Core<O, A>,
    root: &mut RootSeat<T>,
    worker: u32,
    id: Id,
    seat: HandleSeat<T>,
) -> Result<bool, (HandleSeat<T>, Fault)>
    requires worker { worker < core.old.limits.workers }
    requires seated { AreSeated root.old core.old }
    requires shown { seat.id ≡ id }
    ensures seated { AreSeated root.new core.new }
    ensures done { MatchResult result
        (λ closed. MayBeCounted core.old (try_close worker id)
        (released (closing_list core.old.world.spans id Handle)) core.new
        × (IsTrue closed ↔ (find core.new.world.spans id ≡ None)))
        (λ e. IsRefusedWhereHeld core.old (try_close worker id) e.1 core.new × (e.0.id ≡ id)) }
{
    root.join(seat);
    what_was_sent_is_legal(core);
    each_slot_has_one_open_span(core);
    the_named_span_closes_first(core);
    match core.try_close_with(worker, id, root, RootSeat::mark_closed) {
        Ok(closed) => {
            what_was_sent_is_legal(core);
            Ok(closed)
        }
        Err(fault) => Err((root.split(), fault)),
    }
}

// Shows that the span of a handle is open: nothing changes but the number of the handle's seat.
pub(crate) fn show<H: Ledger, C: Ledger, S: Setup, O: Outlet, A>(
    core: &Core<O, A>,
    root: &mut RootSeat<S>,
    handle: &mut crate::Handle<H, C, S>,
)
    requires seated { AreSeated root.old core.now }
    ensures seated { AreSeated root.new core.now }
    ensures keeps_id { handle.new.id ≡ handle.old.id }
    ensures held { IsHeld core.now.world.spans handle.old.id Handle }
    ensures slot { (other : ℕ) → IsOpen core.now.world.spans other →
        slot_of other ≡ slot_of handle.old.id → other ≡ handle.old.id }
{
    root.join(take_seat(&mut handle.seat));
    each_slot_has_one_open_span(core);
    handle.seat = Some(root.split());
}

// Shows that two handles' seats have two numbers: each seat comes back, and nothing else changes.
pub(crate) fn show_two<T: TableName, O: Outlet, A>(
    core: &Core<O, A>,
    root: &mut RootSeat<T>,
    first: HandleSeat<T>,
    second: HandleSeat<T>,
) -> (HandleSeat<T>, HandleSeat<T>)
    requires seated { AreSeated root.old core.now }
    ensures seated { AreSeated root.new core.now }
    ensures ids { (result.0.id ≡ first.id) × (result.1.id ≡ second.id) }
    ensures numbers { first.number ≢ second.number }
{
    two_handles_have_two_numbers(root, first, second)
}
