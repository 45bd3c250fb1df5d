ghost use Rattle.std.specs.Prelude.{◌≡◌, ℕ, ◌<◌, ◌++◌, Some, None, IsTrue, length, IfOk, IfErr, OnOk};
ghost use Rattle.span_id.specs.Id.{slot_of};
ghost use Rattle.span_slots.specs.Table.{find};
ghost use Rattle.span_forest.specs.Spans.{IsOpen, nodes_of};
ghost use Rattle.span_forest.specs.Forest.{IsForest};
ghost use Rattle.span_forest.specs.Holding.{held_spans, what_holds};
ghost use Rattle.span_forest.specs.inside.Marks.{is_below, known_of, is_known, AreMarks, held_one};

use crate::span::Span;
use span_id::{Fault, Id};
use span_slots::Slots;
use span_slots::laws::each_slot_has_one_id;
use std::alloc::{AllocError, Global};

/// The handles and entries of a span.
#[derive(Clone, Copy, Debug, PartialEq, Eq)]
pub struct Held {
    /// The span.
    pub id: Id,
    /// How many handles it has.
    pub handles: u32,
    /// How many entries of workers' stacks it has.
    pub entries: u32,
}

// The spans at `id` or below it that have handles or entries, by ascending slot.
pub(crate) fn holders_below(slots: &Slots<Span>, alloc: Global, id: Id) -> Result<Vec<Held>, Fault>
    requires forest { IsForest (nodes_of slots.now.entries) }
    requires open { IsOpen (nodes_of slots.now.entries) id }
    ensures list { IfOk result (λ list. list.items ≡ what_holds (nodes_of slots.now.entries) id) }
    ensures memory { IfErr result (λ fault. fault ≡ Fault.Memory) }
{
    each_slot_has_one_id(slots);
    let ids = slots.ids()?;
    let mut marks: Vec<Option<bool>> = vec![in alloc; None; slots.used() as usize]?;
    let mut found = Vec::new(alloc);
    for at in &ids {
        if find_out(slots, &mut marks, id, *at) {
            push_held(&mut found, slots, *at)?;
        }
    }
    Ok(found)
}

// The spans that have handles or entries, by ascending slot.
pub(crate) fn all_held(slots: &Slots<Span>, alloc: Global) -> Result<Vec<Held>, Fault>
    requires { IsForest (nodes_of slots.now.entries) }
    ensures list { IfOk result (λ list. list.items ≡ held_spans (nodes_of slots.now.entries)) }
    ensures memory { IfErr result (λ fault. fault ≡ Fault.Memory) }
{
    let ids = slots.ids()?;
    let mut found = Vec::new(alloc);
    for at in &ids {
        push_held(&mut found, slots, *at)?;
    }
    Ok(found)
}

// Whether a span is `id` or below it. It is written down for each span that was looked at, so that no later call looks
// at them again.
fn find_out(slots: &Slots<Span>, marks: &mut [Option<bool>], id: Id, at: Id) -> bool
    requires forest { IsForest (nodes_of slots.now.entries) }
    requires open { IsOpen (nodes_of slots.now.entries) at }
    requires marks { AreMarks (nodes_of slots.now.entries) id None marks.old }
    ensures below { result ≡ is_below (nodes_of slots.now.entries) id at }
    ensures marks { AreMarks (nodes_of slots.now.entries) id None marks.new }
    ensures written { known_of marks.new id at ≡ Some result }
    ensures kept { (x : ℕ) → IsTrue (is_known marks.old id x) → IsTrue (is_known marks.new id x) }
    ensures len { length marks.new ≡ length marks.old }
{
    let below = look_up(slots, marks, id, at);
    write_down(slots, marks, id, at, below);
    below
}

// What is known of a span: whether it is `id` or below it.
fn known(marks: &[Option<bool>], id: Id, at: Id) -> Option<bool>
    requires { slot_of at < length marks.now }
    ensures { result ≡ known_of marks.now id at }
{
    if at == id {
        return Some(true);
    }
    marks[at.slot() as usize]
}

// Whether a span is `id` or below it, as the first span on its walk tells of which something is known.
fn look_up(slots: &Slots<Span>, marks: &[Option<bool>], id: Id, at: Id) -> bool
    requires forest { IsForest (nodes_of slots.now.entries) }
    requires open { IsOpen (nodes_of slots.now.entries) at }
    requires marks { AreMarks (nodes_of slots.now.entries) id None marks.now }
    ensures { result ≡ is_below (nodes_of slots.now.entries) id at }
{
    let mut next = Some(at);
    'up: while let Some(x) = next {
        if let Some(below) = known(marks, id, x) {
            return below;
        }
        let Some(span) = slots.get(x) else {
            unreachable!()
        };
        next = span.parent;
    }
    false
}

// Writes it down for each span on a walk, up to the first of which something is known.
fn write_down(slots: &Slots<Span>, marks: &mut [Option<bool>], id: Id, at: Id, below: bool)
    requires forest { IsForest (nodes_of slots.now.entries) }
    requires open { IsOpen (nodes_of slots.now.entries) at }
    requires marks { AreMarks (nodes_of slots.now.entries) id None marks.old }
    requires below { below ≡ is_below (nodes_of slots.now.entries) id at }
    ensures marks { AreMarks (nodes_of slots.now.entries) id None marks.new }
    ensures written { known_of marks.new id at ≡ Some below }
    ensures kept { (x : ℕ) → IsTrue (is_known marks.old id x) → IsTrue (is_known marks.new id x) }
    ensures len { length marks.new ≡ length marks.old }
{
    each_slot_has_one_id(slots);
    let mut next = Some(at);
    'up: while let Some(x) = next {
        if known(marks, id, x).is_some() {
            break;
        }
        marks[x.slot() as usize] = Some(below);
        let Some(span) = slots.get(x) else {
            unreachable!()
        };
        next = span.parent;
    }
}

// Appends the handles and entries of a span, if it has some.
fn push_held(found: &mut Vec<Held>, slots: &Slots<Span>, at: Id) -> Result<(), AllocError>
    ensures { OnOk result (found.new.items
        ≡ found.old.items ++ held_one at (find (nodes_of slots.now.entries) at)) }
{
    let Some(span) = slots.get(at) else {
        return Ok(());
    };
    if span.handles > 0 || span.entries > 0 {
        found.push(Held {
            id: at,
            handles: span.handles,
            entries: span.entries,
        })?;
    }
    Ok(())
}
