//! What a worker that leaves a span or a handle that is given back closes: each growth comes before the first change,
//! while the span that was found is still at hand.
ghost use Rattle.std.specs.Prelude.{◌≡◌, ◌∷◌, [], false, map, IfOk, IfErr, Some};
ghost use Rattle.span_layers.specs.declared.note.Kind.TheVariants.{OnExit};
ghost use Rattle.span_layers.specs.Note.{plain_note};
ghost use Rattle.span_forest.specs.declared.span.Holder.TheVariants.{Handle, Entry};
ghost use Rattle.span_forest.specs.Node.{node_of};
ghost use Rattle.span_forest.specs.Spans.{find};
ghost use Rattle.span_forest.specs.Count.{reference_count};
ghost use Rattle.span_forest.specs.Holders.{IsHeld};
ghost use Rattle.span_forest.specs.Release.{closing_list};
ghost use Rattle.span_core.specs.Happening.{at_span, close_of, notes_of_all};
ghost use Rattle.span_core.specs.inside.ClosingPaths.{IsChain};
ghost use Rattle.span_core.specs.inside.Leaving.{closed_on_exit, forest_exited, forest_released};
ghost use Rattle.span_core.specs.declared.known_paths.KnownPaths.{KnownPaths};
ghost use Rattle.span_core.specs.inside.Remembering.{Remembers};

use crate::notes::closing::{close_notes, closing_lists_are_chains};
use crate::notes::{FoundSpan, exit_notes};
use crate::recent::Recent;
use span_forest::laws::{open_spans_are_counted, walks_end};
use span_forest::{Forest, Holder};
use span_id::{Fault, Id};
use span_layers::{Note, Rules};
use std::alloc::Global;

/// The spans that a call closes, child first, and the call's notes.
#[derive(Drop)]
pub(crate) struct Closes {
    pub(crate) ids: Vec<Id>,
    pub(crate) notes: Vec<Note>,
}

// What closes where a worker leaves a span, which stays in its stack or not.
pub(crate) fn closes_on_exit<'a>(
    recent: &mut Recent,
    rules: &Rules,
    forest: &'a Forest,
    exit: &FoundSpan<'a>,
    stays: bool,
) -> Result<Closes, Fault>
    requires found { find forest.now.spans exit.now.id ≡ Some (node_of exit.now.span.now) }
    requires count { exit.now.span.now.count ≡ reference_count forest.now.spans exit.now.id }
    requires held { stays ≡ false → IsHeld forest.now.spans exit.now.id Entry }
    requires remembers { Remembers forest.now recent.old.paths }
    ensures ids { IfOk result (λ closes. closes.ids.items ≡ closed_on_exit forest.now.spans exit.now.id stays) }
    ensures notes { IfOk result (λ closes. map plain_note closes.notes.items
        ≡ notes_of_all rules.now exit.now.worker (at_span forest.now.spans OnExit exit.now.id []
        ∷ map (close_of forest.now.spans) closes.ids.items)) }
    ensures remembers { Remembers forest.now recent.new.paths }
    ensures memory { IfErr result (λ fault. fault ≡ Fault.Memory) }
{
    let ids = closing_on_exit(recent.alloc, forest, exit, stays)?;
    let notes = exit_notes(recent, rules, forest, exit, ids.as_slice())?;
    Ok(Closes { ids, notes })
}

// A worker leaves a span, which stays in its stack or not; these are the spans that close.
pub(crate) fn leave(recent: &mut Recent, forest: &mut Forest, stays: bool, id: Id, closing: &[Id])
    requires held { stays ≡ false → IsHeld forest.old.spans id Entry }
    requires list { closing.now ≡ closed_on_exit forest.old.spans id stays }
    requires remembers { Remembers forest.old recent.old.paths }
    ensures forest { forest.new ≡ forest_exited forest.old id stays }
    ensures remembers { Remembers forest.new recent.new.paths }
{
    release_on_exit(forest, stays, id, closing);
    recent.paths.forget(closing);
}

// What closes where a handle is given back.
pub(crate) fn closes_on_release<'a>(
    recent: &mut Recent,
    rules: &Rules,
    forest: &'a Forest,
    release: &FoundSpan<'a>,
) -> Result<Closes, Fault>
    requires found { find forest.now.spans release.now.id ≡ Some (node_of release.now.span.now) }
    requires count { release.now.span.now.count ≡ reference_count forest.now.spans release.now.id }
    requires held { IsHeld forest.now.spans release.now.id Handle }
    requires remembers { Remembers forest.now recent.old.paths }
    ensures ids { IfOk result (λ closes. closes.ids.items ≡ closing_list forest.now.spans release.now.id Handle) }
    ensures notes { IfOk result (λ closes. map plain_note closes.notes.items
        ≡ notes_of_all rules.now release.now.worker (map (close_of forest.now.spans) closes.ids.items)) }
    ensures remembers { Remembers forest.now recent.new.paths }
    ensures memory { IfErr result (λ fault. fault ≡ Fault.Memory) }
{
    let empty = recent.empty_ids();
    let ids = closing_of(empty, forest, release, Holder::Handle)?;
    let notes = close_notes(recent, rules, forest, release, ids.as_slice())?;
    Ok(Closes { ids, notes })
}

// A handle is given back; these are the spans that close.
pub(crate) fn give_back(recent: &mut Recent, forest: &mut Forest, id: Id, closing: &[Id])
    requires held { IsHeld forest.old.spans id Handle }
    requires list { closing.now ≡ closing_list forest.old.spans id Handle }
    requires remembers { Remembers forest.old recent.old.paths }
    ensures forest { forest.new ≡ forest_released forest.old id Handle }
    ensures remembers { Remembers forest.new recent.new.paths }
{
    walks_end(forest);
    let fields = forest.release_for_fields(id, Holder::Handle, closing);
    walks_end(forest);
    open_spans_are_counted(forest);
    recent.paths.forget(closing);
    recent.keep_fields(fields);
}

// The spans that close where a worker leaves a span: none where the span stays in its stack.
fn closing_on_exit(
    alloc: Global,
    forest: &Forest,
    exit: &FoundSpan<'_>,
    stays: bool,
) -> Result<Vec<Id>, Fault>
    requires found { find forest.now.spans exit.now.id ≡ Some (node_of exit.now.span.now) }
    requires count { exit.now.span.now.count ≡ reference_count forest.now.spans exit.now.id }
    requires held { stays ≡ false → IsHeld forest.now.spans exit.now.id Entry }
    ensures list { IfOk result (λ ids. ids.items ≡ closed_on_exit forest.now.spans exit.now.id stays) }
    ensures chain { IfOk result (λ ids. IsChain forest.now.spans ids.items) }
    ensures memory { IfErr result (λ fault. fault ≡ Fault.Memory) }
{
    if stays {
        return Ok(Vec::new(alloc));
    }
    closing_of(Vec::new(alloc), forest, exit, Holder::Entry)
}

// Gives the entry back, unless the span stays in the worker's stack; these are the spans that close. A span that stays
// open keeps its path, so what is remembered stays true.
fn release_on_exit(forest: &mut Forest, stays: bool, id: Id, closing: &[Id])
    requires held { stays ≡ false → IsHeld forest.old.spans id Entry }
    requires list { closing.now ≡ closed_on_exit forest.old.spans id stays }
    ensures forest { forest.new ≡ forest_exited forest.old id stays }
    ensures remembers { (known : KnownPaths) → Remembers forest.old known → Remembers forest.new known }
{
    if !stays {
        walks_end(forest);
        forest.release_closing(id, Holder::Entry, closing);
        walks_end(forest);
        open_spans_are_counted(forest);
    }
}

// The spans that close where a holder that is there is given back, child first, in a list that was empty.
#[inline]
fn closing_of(
    empty: Vec<Id>,
    forest: &Forest,
    found: &FoundSpan<'_>,
    holder: Holder,
) -> Result<Vec<Id>, Fault>
    requires empty { empty.items ≡ [] }
    requires found { find forest.now.spans found.now.id ≡ Some (node_of found.now.span.now) }
    requires count { found.now.span.now.count ≡ reference_count forest.now.spans found.now.id }
    requires held { IsHeld forest.now.spans found.now.id holder }
    ensures list { IfOk result (λ ids. ids.items ≡ closing_list forest.now.spans found.now.id holder) }
    ensures chain { IfOk result (λ ids. IsChain forest.now.spans ids.items) }
    ensures memory { IfErr result (λ fault. fault ≡ Fault.Memory) }
{
    closing_lists_are_chains(forest);
    forest.closing_above_in(empty, found.id, holder, found.span.count, found.span.parent)
}
