ghost use Rattle.std.specs.Prelude.{◌≡◌, ℕ, ◌+◌, ◌-◌, ◌<◌, ◌≤◌, ◌↔◌, Some, IsSomeAnd, IsTrue};
ghost use Rattle.span_slots.specs.Table.{find, with_value};
ghost use Rattle.span_forest.specs.declared.span.Span.{Span};
ghost use Rattle.span_forest.specs.Node.{node_of};
ghost use Rattle.span_forest.specs.Spans.{nodes_of, IsOpen};
ghost use Rattle.span_forest.specs.Holders.{IsHeld, held_by};
ghost use Rattle.span_forest.specs.inside.Invariant.{handles_in, span_less, span_more, counts_more};

use crate::span::{Holder, Span};
use span_id::Id;
use span_slots::Slots;

// Whether the span is open.
pub(crate) fn is_open(slots: &Slots<Span>, id: Id) -> bool
    ensures { IsTrue result ↔ IsOpen (nodes_of slots.now.entries) id }
{
    slots.get(id).is_some()
}

// Whether the span is open and has a holder of this kind.
pub(crate) fn is_held(slots: &Slots<Span>, id: Id, holder: Holder) -> bool
    ensures { IsTrue result ↔ IsHeld (nodes_of slots.now.entries) id holder }
{
    match slots.get(id) {
        None => false,
        Some(span) => match holder {
            Holder::Handle => span.handles > 0,
            Holder::Entry => span.entries > 0,
        },
    }
}

// The count of a span that is open.
pub(crate) fn count_of(slots: &Slots<Span>, id: Id) -> u32
    ensures { (span : Span) → find slots.now.entries id ≡ Some span → result ≡ span.count }
{
    match slots.get(id) {
        None => 0,
        Some(span) => span.count,
    }
}

// How many handles a holder is: one, or none.
pub(crate) fn handles_in(holder: Holder) -> u64
    ensures { result ≡ handles_in holder }
{
    match holder {
        Holder::Handle => 1,
        Holder::Entry => 0,
    }
}

// Writes one more holder of a span down.
pub(crate) fn raise_holder(slots: &mut Slots<Span>, id: Id, holder: Holder)
    requires { IsSomeAnd (find slots.old.entries id)
        (λ span. (held_by holder (node_of span) ≤ span.count) × (span.count < 4294967295)) }
    ensures { (span : Span) → find slots.old.entries id ≡ Some span → slots.new ≡ record slots.old {
      entries = with_value slots.old.entries id (span_more holder span);
    } }
{
    if let Some(span) = slots.get_mut(id) {
        match holder {
            Holder::Handle => span.handles += 1,
            Holder::Entry => span.entries += 1,
        }
        span.count += 1;
    }
}

// Takes one holder from a span.
pub(crate) fn drop_holder(slots: &mut Slots<Span>, id: Id, holder: Holder)
    requires { IsSomeAnd (find slots.old.entries id)
        (λ span. (0 < held_by holder (node_of span)) × (0 < span.count)) }
    ensures { (span : Span) → find slots.old.entries id ≡ Some span → slots.new ≡ record slots.old {
      entries = with_value slots.old.entries id (span_less holder span);
    } }
{
    if let Some(span) = slots.get_mut(id) {
        match holder {
            Holder::Handle => span.handles -= 1,
            Holder::Entry => span.entries -= 1,
        }
        span.count -= 1;
    }
}

// Counts one more child at its parent.
pub(crate) fn raise(slots: &mut Slots<Span>, id: Id)
    requires { IsSomeAnd (find slots.old.entries id) (λ span. span.count < 4294967295) }
    ensures { (span : Span) → find slots.old.entries id ≡ Some span → slots.new ≡ record slots.old {
      entries = with_value slots.old.entries id (counts_more span);
    } }
{
    if let Some(parent) = slots.get_mut(id) {
        parent.count += 1;
    }
}

// Counts one child less at its parent.
pub(crate) fn lower(slots: &mut Slots<Span>, id: Id)
    requires { IsSomeAnd (find slots.old.entries id) (λ span. 0 < span.count) }
    ensures { (span : Span) → find slots.old.entries id ≡ Some span → slots.new ≡ record slots.old {
      entries = with_value slots.old.entries id (record span { count = span.count - 1 });
    } }
{
    if let Some(parent) = slots.get_mut(id) {
        parent.count -= 1;
    }
}
