//! Who calls, of which span, and under which one.
ghost use Rattle.std.specs.Prelude.{◌≡◌, ◌≤◌, ◌↔◌, false, nat_lt, IsSome, IfSome, IfNone};
ghost use Rattle.span_core.specs.Step.{is_open, has_handle};
ghost use Rattle.span_ffi.specs.Data.{said_parent};
ghost use Rattle.span_ffi.specs.inside.Parents.{AreAlike};

use crate::registry::RingCore;
use span_core::laws::each_slot_has_one_open_span;
use span_id::Id;
use span_outlet::ParentOf;

/// Whether there is a worker of this number.
pub(crate) fn has_worker(core: &RingCore, worker: u32) -> bool
    ensures { result ≡ nat_lt worker core.now.limits.workers }
{
    worker < core.limits().workers
}

/// The id of a number, where it is one. A number that is none names no open span.
pub(crate) fn id_of(core: &RingCore, number: u64) -> Option<Id>
    ensures id { IfSome result (λ id. id ≡ number) }
    ensures closed { IfNone result (is_open core.now.world.spans number ≡ false) }
    ensures no_handle { IfNone result (has_handle core.now.world.spans number ≡ false) }
{
    each_slot_has_one_open_span(core);
    Id::from_u64(number)
}

// An id whose span isn't open: two ids of one slot are never open together.
fn closed_id(core: &RingCore) -> Id
    ensures { is_open core.now.world.spans result ≡ false }
{
    each_slot_has_one_open_span(core);
    let first = Id::pack(0, 0);
    if core.find(first).is_none() {
        return first;
    }
    Id::pack(0, 1)
}

/// The parent that is meant. In the place of a number that is no id comes an id that isn't open: it is refused alike.
pub(crate) fn read_parent(core: &RingCore, kind: u32, parent: u64) -> Option<ParentOf>
    ensures exact { IsSome result ↔ (kind ≤ 2) }
    ensures parent { IfSome result (λ meant. AreAlike core.now.world.spans meant (said_parent kind parent)) }
{
    match kind {
        0 => Some(ParentOf::Root),
        1 => Some(ParentOf::Current),
        2 => match id_of(core, parent) {
            Some(id) => Some(ParentOf::Of(id)),
            None => Some(ParentOf::Of(closed_id(core))),
        },
        _ => None,
    }
}
