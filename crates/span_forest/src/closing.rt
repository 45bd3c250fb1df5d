ghost use Rattle.std.specs.Prelude.{◌≡◌, ◌≢◌, ◌≤◌, [], Some, IfOk, IsSomeAnd};
ghost use Rattle.span_slots.specs.Table.{find, freed_with, without_entry};
ghost use Rattle.span_id.specs.Id.{slot_of};
ghost use Rattle.span_forest.specs.Spans.{IsOpen, nodes_of, parent_of};
ghost use Rattle.span_forest.specs.Count.{children, reference_count};
ghost use Rattle.span_forest.specs.Forest.{IsForest};
ghost use Rattle.span_forest.specs.Holders.{IsHeld};
ghost use Rattle.span_forest.specs.Release.{without_holder, freed_after};
ghost use Rattle.span_forest.specs.inside.Invariant.{AreCounted, IsSettled};
ghost use Rattle.span_forest.specs.inside.Chain.{without_all, Chain};

use crate::holders::{drop_holder, lower};
use crate::span::{Holder, Span};
use span_id::{Fields, Id};
use span_slots::Slots;
use std::alloc::AllocError;

// The count of a span that one holder or child alone holds open.
const LAST: u32 = 1;

// The spans that close, child first, where a span gives back one holder, in a list that was empty. Its count and its
// parent are known, so only the spans above it are looked up.
#[inline(always)]
pub(crate) fn chain(
    slots: &Slots<Span>,
    empty: Vec<Id>,
    id: Id,
    holder: Holder,
    count: u32,
    parent: Option<Id>,
) -> Result<Vec<Id>, AllocError>
    requires empty { empty.items ≡ [] }
    requires settled { IsSettled slots.now.entries }
    requires held { IsHeld (nodes_of slots.now.entries) id holder }
    requires count { count ≡ reference_count (nodes_of slots.now.entries) id }
    requires parent { parent ≡ parent_of (nodes_of slots.now.entries) id }
    ensures { IfOk result (λ ids. Chain (without_holder (nodes_of slots.now.entries) id holder) (Some id) ids.items) }
{
    if count > LAST {
        return Ok(empty);
    }
    chain_up(slots, empty, id, holder, parent)
}

// The same where nothing else holds the span: it closes, and perhaps spans above it do.
#[inline(never)]
fn chain_up(
    slots: &Slots<Span>,
    empty: Vec<Id>,
    id: Id,
    holder: Holder,
    parent: Option<Id>,
) -> Result<Vec<Id>, AllocError>
    requires empty { empty.items ≡ [] }
    requires settled { IsSettled slots.now.entries }
    requires held { IsHeld (nodes_of slots.now.entries) id holder }
    requires last { reference_count (nodes_of slots.now.entries) id ≤ 1 }
    requires parent { parent ≡ parent_of (nodes_of slots.now.entries) id }
    ensures { IfOk result (λ ids. Chain (without_holder (nodes_of slots.now.entries) id holder) (Some id) ids.items) }
{
    let mut closed = empty;
    closed.push(id)?;
    let mut next = parent;
    'up: while let Some(at) = next {
        let Some(span) = slots.get(at) else {
            unreachable!()
        };
        if span.count > LAST {
            break;
        }
        closed.push(at)?;
        next = span.parent;
    }
    Ok(closed)
}

// Takes one holder from a span, and closes what nothing holds any longer. The fields of the span itself come out where it
// closes.
pub(crate) fn let_go(slots: &mut Slots<Span>, id: Id, holder: Holder, closed: &[Id]) -> Fields
    requires settled { IsSettled slots.old.entries }
    requires held { IsHeld (nodes_of slots.old.entries) id holder }
    requires chain { Chain (without_holder (nodes_of slots.old.entries) id holder) (Some id) closed.now }
    ensures settled { IsSettled slots.new.entries }
    ensures nodes { nodes_of slots.new.entries
        ≡ without_all (without_holder (nodes_of slots.old.entries) id holder) closed.now }
    ensures table { slots.new ≡ record slots.old {
      entries = slots.new.entries;
      freed = freed_after slots.old.last_generation slots.old.given slots.old.freed closed.now;
    } }
    ensures open { closed.now ≡ [] → result ≡ [] }
    ensures fields { closed.now ≢ [] → IsSomeAnd (find (nodes_of slots.old.entries) id) (λ node. result ≡ node.fields) }
{
    let Some((_, above)) = closed.split_first() else {
        drop_holder(slots, id, holder);
        return Fields::none();
    };
    // The holder goes with the span, so it isn't taken out first.
    let fields = close_one(slots, id);
    for gone in above {
        close_one(slots, *gone);
    }
    fields
}

// Closes a span that has no child, and takes it from its parent's count. Its fields come out.
fn close_one(slots: &mut Slots<Span>, id: Id) -> Fields
    requires forest { IsForest (nodes_of slots.old.entries) }
    requires counted { AreCounted slots.old.entries }
    requires open { IsOpen (nodes_of slots.old.entries) id }
    requires leaf { children (nodes_of slots.old.entries) id ≡ 0 }
    ensures nodes { nodes_of slots.new.entries ≡ without_entry (nodes_of slots.old.entries) id }
    ensures counted { AreCounted slots.new.entries }
    ensures table { slots.new ≡ record slots.old {
      entries = slots.new.entries;
      freed = freed_with slots.old.last_generation slots.old.given slots.old.freed id;
    } }
    ensures fields { IsSomeAnd (find (nodes_of slots.old.entries) id) (λ node. result ≡ node.fields) }
{
    let Some(span) = slots.remove(id) else {
        unreachable!()
    };
    let Some(parent) = span.parent else {
        return span.fields;
    };
    lower(slots, parent);
    span.fields
}
