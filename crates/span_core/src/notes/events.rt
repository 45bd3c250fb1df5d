//! An event's call and its notes, in the span where each layer sees it.
ghost use Rattle.std.specs.Prelude.{◌≡◌, ◌<◌, [], map, length, IfOk, IfErr, IfSome, IfNone, Some, ◌≤◌, take, slice_index_or};
ghost use Rattle.std.specs.List.{find as first_that};
ghost use Rattle.span_id.specs.Bits.{has_bit};
ghost use Rattle.span_layers.specs.Note.{plain_note};
ghost use Rattle.span_outlet.specs.Request.{request_of};
ghost use Rattle.span_stack.specs.Stack.{distinct_from_top, ids_of_each};
ghost use Rattle.span_core.specs.Happening.{bits_in, contextual_span as seen_in, notes_of};
ghost use Rattle.span_forest.specs.Spans.{Spans};
ghost use Rattle.span_core.specs.Parent.{spans_around};
ghost use Rattle.span_core.specs.inside.Given.{IsKept};
ghost use Rattle.span_core.specs.inside.Lent.{event_request, event_seen};
ghost use Rattle.span_core.specs.inside.Remembering.{Remembers};
ghost use Rattle.span_core.specs.inside.Summary.{Summarises, IsSummary};
ghost use Rattle.span_core.specs.inside.Telling.{ids_around, AreSummarised};

use crate::given::{GivenEvent, KeptEvent};
use crate::notes::layers::is_told_to_none;
use crate::notes::{Happening, Subject, told_to_some};
use crate::recent::Recent;
use crate::summary::{BLOCK, NEAR, Summary};
use span_forest::Forest;
use span_id::{Bits, Fault, Id};
use span_layers::{Kind, Note, Rules};
use span_outlet::{Call, ParentOf};
use span_stack::SpanStack;

/// An event: which worker tells it, the layers that admit it, and what the caller gave.
#[derive(Clone, Copy)]
pub(crate) struct Event<'a> {
    pub(crate) worker: u32,
    pub(crate) bits: Bits,
    pub(crate) given: &'a GivenEvent<'a>,
}

/// Where layers look for the span of an event.
#[derive(Clone, Copy)]
pub(crate) enum Around<'a> {
    /// In the stack of the worker that tells it, which these blocks summarise.
    Stack {
        stack: &'a SpanStack,
        blocks: &'a [Bits],
    },
    /// At the parent that it names alone.
    Parent(Id),
    /// Nowhere.
    Nothing,
}

/// The notes of an event, and the message and the fields that they share, where some layer is told.
#[derive(Drop)]
pub(crate) struct ToldEvent {
    pub(crate) notes: Vec<Note>,
    pub(crate) kept: Option<KeptEvent>,
}

// Tells an event: where no layer is told of it, nothing is copied.
pub(crate) fn event_told(
    recent: &mut Recent,
    rules: &Rules,
    forest: &Forest,
    stacks: &[SpanStack],
    summary: &mut Summary,
    event: &Event<'_>,
) -> Result<ToldEvent, Fault>
    requires worker { event.now.worker < length stacks.now }
    requires remembers { Remembers forest.now recent.old.paths }
    requires summary { IsSummary forest.now.spans (ids_of_each stacks.now) summary.old }
    ensures notes { IfOk result (λ told. map plain_note told.notes.items
        ≡ notes_of rules.now event.now.worker
        (event_seen forest.now.spans (slice_index_or (ids_of_each stacks.now) event.now.worker []) event.now)) }
    ensures kept { IfOk result (λ told. IfSome told.kept (IsKept event.now.given.now)) }
    ensures remembers { Remembers forest.now recent.new.paths }
    ensures summary { IsSummary forest.now.spans (ids_of_each stacks.now) summary.new }
    ensures memory { IfErr result (λ fault. fault ≡ Fault.Memory) }
{
    if is_told_to_none(rules, event.bits, Kind::OnEvent) {
        return Ok(ToldEvent {
            notes: Vec::new(recent.alloc),
            kept: None,
        });
    }
    let kept = event.given.keep(recent)?;
    summary.extend(forest, stacks, event.worker, &mut recent.in_vain);
    let notes = event_notes(recent, rules, forest, stacks, summary, event, &kept)?;
    Ok(ToldEvent {
        notes,
        kept: Some(kept),
    })
}

// The notes of an event: one for each layer that admits it.
fn event_notes(
    recent: &mut Recent,
    rules: &Rules,
    forest: &Forest,
    stacks: &[SpanStack],
    summary: &Summary,
    event: &Event<'_>,
    kept: &KeptEvent,
) -> Result<Vec<Note>, Fault>
    requires worker { event.now.worker < length stacks.now }
    requires kept { IsKept event.now.given.now kept.now }
    requires remembers { Remembers forest.now recent.old.paths }
    requires summary { IsSummary forest.now.spans (ids_of_each stacks.now) summary.now }
    ensures notes { IfOk result (λ notes. map plain_note notes.items
        ≡ notes_of rules.now event.now.worker
        (event_seen forest.now.spans (slice_index_or (ids_of_each stacks.now) event.now.worker []) event.now)) }
    ensures remembers { Remembers forest.now recent.new.paths }
    ensures memory { IfErr result (λ fault. fault ≡ Fault.Memory) }
{
    let what = Happening {
        worker: event.worker,
        kind: Kind::OnEvent,
        bits: event.bits,
        fields: &kept.fields,
        subject: Subject::Event {
            around: looked_around(stacks, summary, event),
            level: event.given.meta.read().level,
            message: &kept.message,
        },
    };
    told_to_some(recent, rules, forest, &what)
}

// Where layers look for the span of an event.
fn looked_around<'a>(stacks: &'a [SpanStack], summary: &'a Summary, event: &Event<'_>) -> Around<'a>
    requires worker { event.now.worker < length stacks.now }
    ensures ids { ids_around result
        ≡ spans_around (slice_index_or (ids_of_each stacks.now) event.now.worker []) event.now.given.now.parent }
    ensures summarised { (spans : Spans) → IsSummary spans (ids_of_each stacks.now) summary.now →
        AreSummarised spans result }
{
    match event.given.parent {
        ParentOf::Current => Around::Stack {
            stack: &stacks[event.worker as usize],
            blocks: summary.of(event.worker),
        },
        ParentOf::Of(id) => Around::Parent(id),
        ParentOf::Root => Around::Nothing,
    }
}

// The call that tells an event: it shares the message and the fields with the notes, if these share any.
pub(crate) fn event_call(
    recent: &mut Recent,
    event: &Event<'_>,
    kept: Option<KeptEvent>,
) -> Result<Call, Fault>
    requires kept { IfSome kept (IsKept event.now.given.now) }
    ensures call { IfOk result (λ call. request_of call ≡ event_request event.now) }
    ensures paths { recent.new.paths ≡ recent.old.paths }
    ensures memory { IfErr result (λ fault. fault ≡ Fault.Memory) }
{
    let meta = event.given.meta.keep(&mut recent.metas)?;
    let kept = match kept {
        Some(kept) => kept,
        None => event.given.keep(recent)?,
    };
    let KeptEvent { message, fields } = kept;
    Ok(Call::Event {
        worker: event.worker,
        meta,
        message,
        fields,
        parent: event.given.parent,
    })
}

// Where a layer sees an event.
pub(crate) fn span_seen(
    forest: &Forest,
    around: &Around<'_>,
    layer: u32,
    in_vain: &mut u64,
) -> Option<Id>
    requires { AreSummarised forest.now.spans around.now }
    ensures { result ≡ seen_in forest.now.spans (ids_around around.now) layer }
{
    match around {
        Around::Stack { stack, blocks } => contextual_span(forest, stack, blocks, layer, in_vain),
        Around::Parent(id) => {
            if admits(forest, *id, layer) {
                Some(*id)
            } else {
                None
            }
        }
        Around::Nothing => None,
    }
}

// Where a layer sees an event in a stack: the topmost entry, duplicates skipped, that the layer admits. Blocks in which it admits
// none are skipped. The entries above the blocks at which it looked in vain are added to a count.
fn contextual_span(
    forest: &Forest,
    stack: &SpanStack,
    blocks: &[Bits],
    layer: u32,
    in_vain: &mut u64,
) -> Option<Id>
    requires { Summarises forest.now.spans stack.now.ids blocks.now }
    ensures { result ≡ first_that (λ id. has_bit (bits_in forest.now.spans id) layer)
        (distinct_from_top stack.now.ids) }
{
    let entries = stack.len();
    let summarised = blocks.len() * BLOCK;
    let near = summarised.max(entries.saturating_sub(NEAR));
    if let Some(id) = topmost(forest, stack, near, entries, layer) {
        return Some(id);
    }
    *in_vain = in_vain.saturating_add((entries - near) as u64);
    if let Some(id) = topmost(forest, stack, summarised, near, layer) {
        return Some(id);
    }
    *in_vain = in_vain.saturating_add((near - summarised) as u64);
    for nth in (0..blocks.len()).rev() {
        if !blocks[nth].has(layer) {
            let from = nth * BLOCK;
            if let Some(id) = topmost(forest, stack, from, from + BLOCK, layer) {
                return Some(id);
            }
        }
    }
    None
}

// The topmost entry from one place to below another, duplicates skipped, that a layer admits. Where it admits none of
// them, it sees what it sees below the first place.
fn topmost(forest: &Forest, stack: &SpanStack, from: usize, to: usize, layer: u32) -> Option<Id>
    requires order { from ≤ to }
    requires within { to ≤ length stack.now.ids }
    ensures some { IfSome result (λ id. Some id ≡ seen_in forest.now.spans (take to stack.now.ids) layer) }
    ensures none { IfNone result (seen_in forest.now.spans (take to stack.now.ids) layer
        ≡ seen_in forest.now.spans (take from stack.now.ids) layer) }
{
    stack
        .walk_between(from, to)
        .find(|id| admits(forest, *id, layer))
}

// Whether a layer admits a span that is open.
fn admits(forest: &Forest, id: Id, layer: u32) -> bool
    ensures { result ≡ has_bit (bits_in forest.now.spans id) layer }
{
    match forest.find(id) {
        Some(span) => span.bits.has(layer),
        None => false,
    }
}
