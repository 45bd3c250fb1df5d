//! The notes of spans that close, one after the other up a walk.
ghost use Rattle.std.specs.Prelude.{◌≡◌, ◌<◌, ◌++◌, ◌∷◌, [], ℕ, List, map, flat_map, length, replicate, slice_get, slice_set, IfOk, OnOk, IfErr, IfSome, IsSomeAnd, Some, None};
ghost use Rattle.std.specs.Arc.{arc_str_bytes};
ghost use Rattle.span_layers.specs.Note.{plain_note};
ghost use Rattle.span_forest.specs.declared.span.Holder.{Holder};
ghost use Rattle.span_forest.specs.Node.{node_of};
ghost use Rattle.span_forest.specs.Spans.{IsOpen, find, parent_of};
ghost use Rattle.span_forest.specs.Path.{path, path_text};
ghost use Rattle.span_forest.specs.Holders.{IsHeld};
ghost use Rattle.span_forest.specs.Release.{closing_list};
ghost use Rattle.span_core.specs.Happening.{close_of, note_of, notes_of};
ghost use Rattle.span_core.specs.inside.ClosingPaths.{IsChain, TellsBelow, IsBelow, place_in, AreBelow};
ghost use Rattle.span_core.specs.inside.Telling.{Knows};
ghost use Rattle.span_core.specs.inside.Remembering.{Remembers};

use crate::notes::layers::{is_wanted, told_layers};
use crate::notes::paths::{SharedPaths, same_text, seen_text};
use crate::notes::{FoundSpan, push_notes};
use crate::recent::{Recent, empty_list};
use span_forest::laws::{
    closing_list_begins_the_walk, held_ids_are_open, open_spans_are_counted, walks_end,
};
use span_forest::{Forest, Span};
use span_id::{Bits, Fault, Id};
use span_layers::{Kind, Note, Rules};
use std::alloc::Global;
use std::sync::ArcStr;

/// Where a note stands that tells a path, and how many bytes the path's last name has.
#[derive(Clone, Copy)]
pub(crate) struct Place {
    at: usize,
    name: usize,
}

/// A note that tells a path and one name more, which has so many bytes.
#[derive(Clone, Copy)]
struct Below<'a> {
    note: &'a Note,
    name: usize,
}

// What a release closes is a chain: each further span is the parent of the one before.
pub(crate) fn closing_lists_are_chains(forest: &Forest)
    ensures { (id : ℕ) (holder : Holder) → IsHeld forest.now.spans id holder →
        IsChain forest.now.spans (closing_list forest.now.spans id holder) }
{
    walks_end(forest);
    open_spans_are_counted(forest);
    held_ids_are_open(forest);
    closing_list_begins_the_walk(forest);
}

// The notes of a chain of spans that close, of which the first one was found.
pub(crate) fn close_notes<'a>(
    recent: &mut Recent,
    rules: &Rules,
    forest: &'a Forest,
    first: &FoundSpan<'a>,
    closed: &[Id],
) -> Result<Vec<Note>, Fault>
    requires chain { IsChain forest.now.spans closed.now }
    requires found { find forest.now.spans first.now.id ≡ Some (node_of first.now.span.now) }
    requires remembers { Remembers forest.now recent.old.paths }
    ensures notes { IfOk result (λ notes. map plain_note notes.items
        ≡ flat_map (notes_of rules.now first.now.worker) (map (close_of forest.now.spans) closed.now)) }
    ensures remembers { Remembers forest.now recent.new.paths }
    ensures memory { IfErr result (λ fault. fault ≡ Fault.Memory) }
{
    let count = closes_count(rules, forest, closed, first.span.bits);
    let mut notes = empty_list(recent.alloc, &mut recent.spare, count);
    let mut paths = SharedPaths::none(recent.alloc);
    push_closes(
        recent, &mut notes, &mut paths, rules, forest, first, closed, count,
    )?;
    Ok(notes)
}

// Appends the notes of a chain of spans that close, one span after the other. A layer's path is had by a walk once,
// at the first span that the layer is told of, and at each further one from the note before. There are so many notes.
pub(crate) fn push_closes<'a>(
    recent: &mut Recent,
    notes: &mut Vec<Note>,
    paths: &mut SharedPaths,
    rules: &Rules,
    forest: &'a Forest,
    first: &FoundSpan<'a>,
    closed: &[Id],
    count: usize,
) -> Result<(), Fault>
    requires chain { IsChain forest.now.spans closed.now }
    requires found { find forest.now.spans first.now.id ≡ Some (node_of first.now.span.now) }
    requires known { Knows path_text forest.now.spans paths.old }
    requires remembers { Remembers forest.now recent.old.paths }
    ensures notes { OnOk result (map plain_note notes.new.items ≡ map plain_note notes.old.items
        ++ flat_map (notes_of rules.now first.now.worker) (map (close_of forest.now.spans) closed.now)) }
    ensures remembers { Remembers forest.now recent.new.paths }
    ensures memory { IfErr result (λ fault. fault ≡ Fault.Memory) }
{
    if closed.is_empty() {
        return Ok(());
    }
    if !is_wanted(rules, Kind::OnClose) {
        return Ok(());
    }
    if let [id] = closed {
        return push_close_alone(recent, notes, paths, rules, forest, first, *id);
    }
    notes.reserve_exact(count)?;
    let mut places = no_places(recent.alloc, rules.len())?;
    for id in closed {
        let what = FoundSpan {
            worker: first.worker,
            id: *id,
            span: span_at(forest, first, *id),
        };
        push_close(recent, notes, &mut places, paths, rules, forest, &what)?;
    }
    Ok(())
}

// A span that closes with the first one: it is looked up, unless it is that one.
fn span_at<'a>(forest: &'a Forest, first: &FoundSpan<'a>, id: Id) -> &'a Span
    requires found { find forest.now.spans first.now.id ≡ Some (node_of first.now.span.now) }
    requires open { IsOpen forest.now.spans id }
    ensures { find forest.now.spans id ≡ Some (node_of result.now) }
{
    if id == first.id {
        return first.span;
    }
    let Some(span) = forest.find(id) else {
        unreachable!()
    };
    span
}

// Appends the notes of a span that closes alone, as most do: no place is written down, since no span follows.
fn push_close_alone<'a>(
    recent: &mut Recent,
    notes: &mut Vec<Note>,
    paths: &mut SharedPaths,
    rules: &Rules,
    forest: &'a Forest,
    first: &FoundSpan<'a>,
    id: Id,
) -> Result<(), Fault>
    requires found { find forest.now.spans first.now.id ≡ Some (node_of first.now.span.now) }
    requires open { IsOpen forest.now.spans id }
    requires known { Knows path_text forest.now.spans paths.old }
    requires remembers { Remembers forest.now recent.old.paths }
    ensures notes { OnOk result (map plain_note notes.new.items ≡ map plain_note notes.old.items
        ++ notes_of rules.now first.now.worker (close_of forest.now.spans id)) }
    ensures remembers { Remembers forest.now recent.new.paths }
    ensures memory { IfErr result (λ fault. fault ≡ Fault.Memory) }
{
    let span = span_at(forest, first, id);
    let worker = first.worker;
    let found = FoundSpan { worker, id, span };
    let kind = Kind::OnClose;
    push_notes(
        recent,
        notes,
        paths,
        rules,
        forest,
        &found,
        kind,
        &span.fields,
    )
}

// How many notes the layers are told of spans that close. These layers admit the first one, which isn't looked up.
pub(crate) fn closes_count(rules: &Rules, forest: &Forest, closed: &[Id], first: Bits) -> usize {
    if !is_wanted(rules, Kind::OnClose) {
        return 0;
    }
    let Some((_, above)) = closed.split_first() else {
        return 0;
    };
    let mut count = told_layers(rules, first, Kind::OnClose).len();
    for id in above {
        if let Some(span) = forest.find(*id) {
            count = count.saturating_add(told_layers(rules, span.bits, Kind::OnClose).len());
        }
    }
    count
}

// No place yet, for each layer.
fn no_places(alloc: Global, layers: usize) -> Result<Vec<Option<Place>>, Fault>
    ensures places { IfOk result (λ places. places.items ≡ replicate layers None) }
    ensures memory { IfErr result (λ fault. fault ≡ Fault.Memory) }
{
    let mut places = Vec::with_capacity(alloc, layers)?;
    for _ in 0..layers {
        places.push_reserved(None);
    }
    Ok(places)
}

// Appends the notes of a span that closes, with all its fields, and writes down where they stand. The next span has
// other paths, so those of this one are forgotten.
fn push_close(
    recent: &mut Recent,
    notes: &mut Vec<Note>,
    places: &mut Vec<Option<Place>>,
    paths: &mut SharedPaths,
    rules: &Rules,
    forest: &Forest,
    what: &FoundSpan<'_>,
) -> Result<(), Fault>
    requires length { length places.old.items ≡ length rules.now }
    requires found { find forest.now.spans what.now.id ≡ Some (node_of what.now.span.now) }
    requires below { AreBelow rules.now forest.now.spans (map plain_note notes.old.items)
        (λ layer. Some what.now.id) places.old.items }
    requires known { Knows path_text forest.now.spans paths.old }
    requires remembers { Remembers forest.now recent.old.paths }
    ensures length { OnOk result (length places.new.items ≡ length rules.now) }
    ensures notes { OnOk result (map plain_note notes.new.items ≡ map plain_note notes.old.items
        ++ notes_of rules.now what.now.worker (close_of forest.now.spans what.now.id)) }
    ensures below { OnOk result (AreBelow rules.now forest.now.spans (map plain_note notes.new.items)
        (λ layer. parent_of forest.now.spans what.now.id) places.new.items) }
    ensures known { OnOk result (Knows path_text forest.now.spans paths.new) }
    ensures remembers { Remembers forest.now recent.new.paths }
    ensures memory { IfErr result (λ fault. fault ≡ Fault.Memory) }
{
    walks_end(forest);
    for layer in told_layers(rules, what.span.bits, Kind::OnClose) {
        push_close_note(recent, notes, places, paths, forest, what, layer)?;
    }
    paths.clear();
    Ok(())
}

// Appends the note of one layer, and writes down where it stands.
fn push_close_note(
    recent: &mut Recent,
    notes: &mut Vec<Note>,
    places: &mut Vec<Option<Place>>,
    paths: &mut SharedPaths,
    forest: &Forest,
    what: &FoundSpan<'_>,
    layer: u32,
) -> Result<(), Fault>
    requires there { layer < length places.old.items }
    requires found { find forest.now.spans what.now.id ≡ Some (node_of what.now.span.now) }
    requires below { IsBelow forest.now.spans (map plain_note notes.old.items) layer
        (Some what.now.id) (place_in places.old.items layer) }
    requires known { Knows path_text forest.now.spans paths.old }
    requires remembers { Remembers forest.now recent.old.paths }
    ensures notes { OnOk result (map plain_note notes.new.items ≡ map plain_note notes.old.items
        ++ note_of what.now.worker (close_of forest.now.spans what.now.id) layer ∷ []) }
    ensures places { OnOk result (places.new.items
        ≡ slice_set places.old.items layer (Some (record {
          at = length notes.old.items;
          name = length what.now.span.now.meta.name;
        }))) }
    ensures known { OnOk result (Knows path_text forest.now.spans paths.new) }
    ensures remembers { Remembers forest.now recent.new.paths }
    ensures memory { IfErr result (λ fault. fault ≡ Fault.Memory) }
{
    let place = Place {
        at: notes.len(),
        name: what.span.meta.as_meta().name.len(),
    };
    let before = note_at(notes.as_slice(), places[layer as usize]);
    let note = close_note(recent, forest, before, what, paths, layer)?;
    notes.push(note)?;
    places[layer as usize] = Some(place);
    Ok(())
}

// The note of a place, if there is one.
fn note_at(notes: &[Note], place: Option<Place>) -> Option<Below<'_>>
    ensures { IfSome result (λ below. IsSomeAnd place (λ place.
        (slice_get (map plain_note notes.now) place.at ≡ Some (plain_note below.note.now))
        × (place.name ≡ below.name))) }
{
    let place = place?;
    let note = notes.get(place.at)?;
    Some(Below {
        note,
        name: place.name,
    })
}

// The note that a layer is told of a span that closes, where the note before tells one name more than the path.
fn close_note(
    recent: &mut Recent,
    forest: &Forest,
    before: Option<Below<'_>>,
    what: &FoundSpan<'_>,
    paths: &mut SharedPaths,
    layer: u32,
) -> Result<Note, Fault>
    requires found { find forest.now.spans what.now.id ≡ Some (node_of what.now.span.now) }
    requires below { IfSome before (λ below.
        TellsBelow (path layer forest.now.spans what.now.id) below.name (plain_note below.note.now)) }
    requires known { Knows path_text forest.now.spans paths.old }
    requires remembers { Remembers forest.now recent.old.paths }
    ensures note { IfOk result (λ note. plain_note note
        ≡ note_of what.now.worker (close_of forest.now.spans what.now.id) layer) }
    ensures known { OnOk result (Knows path_text forest.now.spans paths.new) }
    ensures remembers { Remembers forest.now recent.new.paths }
    ensures memory { IfErr result (λ fault. fault ≡ Fault.Memory) }
{
    let path = close_path(recent, forest, before, what, paths, layer)?;
    let fields = what.span.fields.share()?;
    Ok(Note {
        layer,
        kind: Kind::OnClose,
        worker: what.worker,
        id: what.id.get(),
        path,
        fields,
        event: None,
    })
}

// A layer's path at a span that was found: from the note before, if there is one, else by a walk.
fn close_path(
    recent: &mut Recent,
    forest: &Forest,
    before: Option<Below<'_>>,
    what: &FoundSpan<'_>,
    paths: &mut SharedPaths,
    layer: u32,
) -> Result<ArcStr, Fault>
    requires found { find forest.now.spans what.now.id ≡ Some (node_of what.now.span.now) }
    requires below { IfSome before (λ below.
        TellsBelow (path layer forest.now.spans what.now.id) below.name (plain_note below.note.now)) }
    requires known { Knows path_text forest.now.spans paths.old }
    requires remembers { Remembers forest.now recent.old.paths }
    ensures path { IfOk result (λ text. arc_str_bytes text ≡ path_text (path layer forest.now.spans what.now.id)) }
    ensures known { OnOk result (Knows path_text forest.now.spans paths.new) }
    ensures remembers { Remembers forest.now recent.new.paths }
    ensures memory { IfErr result (λ fault. fault ≡ Fault.Memory) }
{
    if let Some(below) = before {
        if let Some(text) = path_above(below.note, below.name) {
            return same_text(recent.alloc, paths, text);
        }
    }
    seen_text(
        recent,
        forest,
        paths,
        layer,
        &Some(what.id),
        Some(what.span),
    )
}

// The path of a note without its last name, which has so many bytes.
fn path_above(note: &Note, name: usize) -> Option<&str>
    ensures path { IfSome result (λ text. (path : List (List ℕ)) →
        TellsBelow path name (plain_note note.now) → text.now ≡ path_text path) }
{
    let text = note.path.as_str();
    let above = text.len().checked_sub(name)?;
    if above == 0 {
        return Some("-");
    }
    let (above, _) = text.split_at_checked(above - 1)?;
    Some(above)
}
