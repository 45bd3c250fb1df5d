ghost use Rattle.std.specs.Prelude.{◌≡◌, ℕ, ◌<◌, ◌≤◌, ◌↔◌, ◌⊎◌, Some, IsSome, IsSomeAnd, MatchOption, IfOk, IfErr, OnOk, drop, length};
ghost use Rattle.span_slots.specs.Table.{find, next_id, issue, IsIssued, with_entry};
ghost use Rattle.span_id.specs.Id.{slot_of, IsId};
ghost use Rattle.span_forest.specs.Node.{node_of};
ghost use Rattle.span_forest.specs.Spans.{nodes_of};
ghost use Rattle.span_forest.specs.Count.{reference_count};
ghost use Rattle.span_forest.specs.inside.Invariant.{AreCounted, IsSettled};
ghost use Rattle.span_forest.specs.Add.{CanHaveChild};
ghost use Rattle.span_forest.specs.inside.Adding.{WhyNoChild, IsNew, HasRoomAbove};

use crate::holders::raise;
use crate::span::Span;
use span_id::{Fault, Id};
use span_slots::Slots;
use span_slots::laws::{insert_issues_its_id_alone, next_id_was_never_issued};

// The parent of a new span, if the span may be made under it: it is open, and its count may rise.
pub(crate) fn checked_parent(
    slots: &Slots<Span>,
    max_count: u32,
    parent: Option<Id>,
) -> Result<Option<Id>, Fault>
    requires counted { AreCounted slots.now.entries }
    requires bounded { (id : ℕ) → reference_count (nodes_of slots.now.entries) id ≤ max_count }
    ensures same { IfOk result (λ checked. checked ≡ parent) }
    ensures above { OnOk result (HasRoomAbove slots.now.entries max_count parent) }
    ensures parent { OnOk result (CanHaveChild (nodes_of slots.now.entries) max_count parent) }
    ensures refused { IfErr result (λ fault. WhyNoChild (nodes_of slots.now.entries) max_count parent fault) }
{
    let Some(above) = parent else {
        return Ok(None);
    };
    let Some(span) = slots.get(above) else {
        return Err(Fault::Unknown);
    };
    if span.count >= max_count {
        return Err(Fault::CountFull);
    }
    Ok(Some(above))
}

// Stores a new span, and counts it at its parent.
pub(crate) fn place(slots: &mut Slots<Span>, span: Span) -> Id
    requires settled { IsSettled slots.old.entries }
    requires free { IsSome (next_id slots.old) }
    requires new { IsNew span }
    requires above { HasRoomAbove slots.old.entries 4294967295 span.parent }
    ensures id { next_id slots.old ≡ Some result }
    ensures settled { IsSettled slots.new.entries }
    ensures nodes { nodes_of slots.new.entries ≡ with_entry (nodes_of slots.old.entries) result (node_of span) }
    ensures vacant { find slots.old.entries result ≡ None }
    ensures never_issued { IsIssued slots.old result → ⊥ }
    ensures issued { (other : ℕ) → IsId other →
        (IsIssued slots.new other ↔ (IsIssued slots.old other ⊎ (result ≡ other))) }
    ensures few { length slots.new.entries ≤ 4294967295 }
    ensures table { slots.new ≡ record slots.old {
      entries = slots.new.entries;
      given = issue slots.old.given (slot_of result);
      freed = drop 1 slots.old.freed;
    } }
{
    let parent = span.parent;
    next_id_was_never_issued(slots);
    insert_issues_its_id_alone(slots);
    let Ok(id) = slots.insert(span) else {
        unreachable!()
    };
    if let Some(parent) = parent {
        raise(slots, parent);
    }
    // How many spans are open fits 32 bits, so the number of all holders fits 64.
    let _open = slots.len();
    id
}
