ghost use Rattle.std.specs.Prelude.{◌≡◌, ◌<◌, ◌+◌, ◌↔◌, Some, None, IsTrue, IsSomeAnd, IfOk, IfErr, OnOk};
ghost use Rattle.span_slots.specs.Table.{find};
ghost use Rattle.span_store.specs.inside.Reading.{no_more_at, no_child_at, HasRoom, HasRoomAbove};
ghost use Rattle.span_store.specs.inside.Invariant.{AreBounded};

use crate::entry::Entry;
use span_id::{Fault, Id};
use span_slots::Slots;

// Whether a span may have one more handle or child: it is open, and its count may rise.
pub(crate) fn may_be_held(slots: &Slots<Entry>, max_count: u32, id: Id) -> Result<(), Fault>
    requires { AreBounded slots.now.entries max_count }
    ensures accepted { OnOk result (HasRoom max_count (find slots.now.entries id)) }
    ensures refused { IfErr result (λ fault. no_more_at max_count (find slots.now.entries id) ≡ Some fault) }
{
    let Some(entry) = slots.get(id) else {
        return Err(Fault::Unknown);
    };
    let count = entry.handles + entry.children;
    if count == 0 {
        return Err(Fault::Unknown);
    }
    if count >= max_count {
        return Err(Fault::CountFull);
    }
    Ok(())
}

// The parent of a new span, if the span may be made under it; a root may always be made.
pub(crate) fn checked_parent(
    slots: &Slots<Entry>,
    max_count: u32,
    parent: Option<Id>,
) -> Result<Option<Id>, Fault>
    requires { AreBounded slots.now.entries max_count }
    ensures same { IfOk result (λ checked. checked ≡ parent) }
    ensures accepted { OnOk result (HasRoomAbove max_count slots.now.entries parent) }
    ensures refused { IfErr result (λ fault. no_child_at max_count slots.now.entries parent ≡ Some fault) }
{
    let Some(above) = parent else {
        return Ok(None);
    };
    may_be_held(slots, max_count, above)?;
    Ok(Some(above))
}

// Whether the span has a handle.
pub(crate) fn is_held(slots: &Slots<Entry>, id: Id) -> bool
    ensures { IsTrue result ↔ IsSomeAnd (find slots.now.entries id) (λ entry. 0 < entry.handles) }
{
    match slots.get(id) {
        None => false,
        Some(entry) => entry.handles > 0,
    }
}

// Whether the span is closing.
pub(crate) fn is_closing(slots: &Slots<Entry>, id: Id) -> bool
    ensures { IsTrue result
        ↔ IsSomeAnd (find slots.now.entries id) (λ entry. entry.handles + entry.children ≡ 0) }
{
    match slots.get(id) {
        None => false,
        Some(entry) => entry.handles == 0 && entry.children == 0,
    }
}
