//! New spans, and events, which take no handle.
ghost use Rattle.std.specs.Prelude.{◌≡◌, ◌≢◌, ℕ, ◌<◌, Some, IfOk, IfErr, IfSome, IfNone, OnOk};
ghost use Rattle.span_id.specs.Meta.{plain_meta, plain_fields};
ghost use Rattle.span_id.specs.Id.{slot_of};
ghost use Rattle.span_forest.specs.Spans.{IsOpen};
ghost use Rattle.span_outlet.specs.Request.{new_span, made, event, told};
ghost use Rattle.span_core.specs.Parent.{parent_found};
ghost use Rattle.span_core.specs.NextId.{next_id_after};
ghost use Rattle.span_core.specs.Core.{IsRefused, IsNotWanted};
ghost use Rattle.span_registry.specs.inside.Seated.{AreSeated};
ghost use Rattle.span_registry.specs.inside.Called.{MayBeCounted};

use crate::laws::what_was_sent_is_legal;
use span_core::Core;
use span_core::laws::each_slot_has_one_open_span;
use span_id::{Fault, Field, Id, Meta};
use span_layers::Admit;
use span_outlet::{Outlet, ParentOf};
use span_seats::{HandleSeat, RootSeat, TableName};

// A new span: its id, and the seat of its one handle.
pub(crate) fn new_span<T: TableName, O: Outlet, A: Admit>(
    core: &mut Core<O, A>,
    root: &mut RootSeat<T>,
    worker: u32,
    meta: &Meta,
    fields: &[Field],
    parent: ParentOf,
) -> Result<Option<(Id, HandleSeat<T>)>, Fault>
    requires worker { worker < core.old.limits.workers }
    requires seated { AreSeated root.old core.old }
    ensures seated { AreSeated root.new core.new }
    ensures given { IfOk result (λ new. IfSome new (λ n. n.1.id ≡ n.0)) }
    ensures made { IfOk result (λ new. IfSome new (λ n. MayBeCounted core.old
        (new_span worker (plain_meta meta.now) (plain_fields fields.now) (parent_found core.old.world worker parent))
        (made n.0) core.new)) }
    ensures next { IfOk result (λ new. IfSome new (λ n.
        next_id_after core.old.limits.slots core.old.limits.last_generation core.old.sent ≡ Some n.0)) }
    ensures slot { IfOk result (λ new. IfSome new (λ n.
        (id : ℕ) → IsOpen core.old.world.spans id → slot_of id ≢ slot_of n.0)) }
    ensures not_wanted { IfOk result (λ new. IfNone new (IsNotWanted core.old
        (new_span worker (plain_meta meta.now) (plain_fields fields.now) (parent_found core.old.world worker parent))
        core.new)) }
    ensures refused { IfErr result (λ fault. IsRefused core.old
        (new_span worker (plain_meta meta.now) (plain_fields fields.now) (parent_found core.old.world worker parent))
        fault core.new) }
{
    what_was_sent_is_legal(core);
    each_slot_has_one_open_span(core);
    let Some(id) = core.new_span(worker, meta, fields, parent)? else {
        return Ok(None);
    };
    what_was_sent_is_legal(core);
    each_slot_has_one_open_span(core);
    root.mark_open(id);
    let seat = root.split();
    Ok(Some((id, seat)))
}

// An event.
pub(crate) fn event<T: TableName, O: Outlet, A: Admit>(
    core: &mut Core<O, A>,
    root: &RootSeat<T>,
    worker: u32,
    meta: &Meta,
    message: &str,
    fields: &[Field],
    parent: ParentOf,
) -> Result<(), Fault>
    requires worker { worker < core.old.limits.workers }
    requires seated { AreSeated root.now core.old }
    ensures seated { AreSeated root.now core.new }
    ensures accepted { OnOk result (MayBeCounted core.old
        (event worker (plain_meta meta.now) message.now (plain_fields fields.now) parent) told core.new) }
    ensures refused { IfErr result (λ fault. IsRefused core.old
        (event worker (plain_meta meta.now) message.now (plain_fields fields.now) parent) fault core.new) }
{
    what_was_sent_is_legal(core);
    let done = core.event_in(worker, meta, message, fields, parent);
    what_was_sent_is_legal(core);
    done
}
