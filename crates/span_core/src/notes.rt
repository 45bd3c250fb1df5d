//! The notes that the layers are told of what happens.
ghost use Rattle.std.specs.Prelude.{◌≡◌, ◌<◌, ◌++◌, ◌∷◌, [], map, IfOk, OnOk, IfErr, Some};
ghost use Rattle.std.specs.Arc.{arc_str_bytes};
ghost use Rattle.span_layers.specs.declared.note.Kind.TheVariants.{OnRecord, OnExit};
ghost use Rattle.span_layers.specs.Note.{plain_note, plain_event};
ghost use Rattle.span_forest.specs.Node.{node_of};
ghost use Rattle.span_forest.specs.Spans.{find};
ghost use Rattle.span_forest.specs.Path.{path_text};
ghost use Rattle.span_outlet.specs.Request.{record_fields, request_of};
ghost use Rattle.span_core.specs.Happening.{at_span, close_of, notes_of, notes_of_all, path_at};
ghost use Rattle.span_core.specs.inside.ClosingPaths.{IsChain};
ghost use Rattle.span_core.specs.inside.Telling.{id_told, place_told, event_said, text_told, told_to, IsSummarised, IsThere, IsReadable, notes_told, Knows};
ghost use Rattle.span_core.specs.inside.Remembering.{Remembers};

pub(crate) mod closing;
pub(crate) mod events;
pub(crate) mod layers;
pub(crate) mod new_spans;
pub(crate) mod paths;

use crate::recent::{Recent, empty_list};
use closing::{closes_count, push_closes};
use events::{Around, span_seen};
use layers::{is_told_to_none, told_layers};
use paths::{SharedPaths, new_text, seen_text};
use span_forest::{Forest, Span};
use span_id::{Bits, Fault, Fields, Id, Level};
use span_layers::{Kind, Note, Rules};
use span_outlet::Call;
use std::sync::ArcStr;

/// A span as a call found it: which worker calls, the span's id, and the span. So nothing of it is looked up anew for
/// what the layers are told of it; the change alone looks once more.
#[derive(Clone, Copy)]
pub(crate) struct FoundSpan<'a> {
    pub(crate) worker: u32,
    pub(crate) id: Id,
    pub(crate) span: &'a Span,
}

/// What a call puts out: the call, and the notes for the layers.
#[derive(Drop)]
pub(crate) struct Announced {
    pub(crate) call: Call,
    pub(crate) notes: Vec<Note>,
}

/// What the layers may be told of: which worker caused it, its kind, the layers that admit it, the fields, and its subject.
#[derive(Clone, Copy)]
pub(crate) struct Happening<'a> {
    worker: u32,
    kind: Kind,
    bits: Bits,
    fields: &'a Fields,
    subject: Subject<'a>,
}

/// What a happening is about: a span, a span to be made, or an event.
#[derive(Clone, Copy)]
pub(crate) enum Subject<'a> {
    /// A span that is open, as the call found it.
    Span {
        id: Id,
        span: &'a Span,
    },
    /// A span that is to be made.
    NewSpan {
        id: Id,
        parent: Option<Id>,
        name: &'a str,
    },
    /// An event.
    Event {
        around: Around<'a>,
        level: Level,
        message: &'a ArcStr,
    },
}

// Where a layer's path is read. At how many entries it looked in vain for it is added to a count.
fn place_of(forest: &Forest, subject: &Subject<'_>, layer: u32, in_vain: &mut u64) -> Option<Id>
    requires { IsSummarised forest.now.spans subject.now }
    ensures { result ≡ place_told forest.now.spans subject.now layer }
{
    match subject {
        Subject::Span { id, .. } => Some(*id),
        Subject::NewSpan { parent, .. } => *parent,
        Subject::Event { around, .. } => span_seen(forest, around, layer, in_vain),
    }
}

// The id that a layer is told, which reads its path at this place.
fn id_of(subject: &Subject<'_>, place: &Option<Id>) -> u64
    ensures { result ≡ id_told subject.now place.now }
{
    match (subject, place) {
        (Subject::NewSpan { id, .. }, _) => id.get(),
        (_, Some(id)) => id.get(),
        (_, None) => 0,
    }
}

// The path of a layer at a place, as it is told of a subject.
fn path_of(
    recent: &mut Recent,
    forest: &Forest,
    subject: &Subject<'_>,
    paths: &mut SharedPaths,
    layer: u32,
    place: &Option<Id>,
) -> Result<ArcStr, Fault>
    requires open { IsReadable forest.now.spans subject.now place.now }
    requires known { Knows (text_told subject.now) forest.now.spans paths.old }
    requires remembers { Remembers forest.now recent.old.paths }
    ensures text { IfOk result (λ text. arc_str_bytes text
        ≡ text_told subject.now (path_at layer forest.now.spans place.now)) }
    ensures known { OnOk result (Knows (text_told subject.now) forest.now.spans paths.new) }
    ensures remembers { Remembers forest.now recent.new.paths }
    ensures memory { IfErr result (λ fault. fault ≡ Fault.Memory) }
{
    match subject {
        Subject::NewSpan { name, .. } => new_text(recent, forest, paths, layer, place, name),
        Subject::Span { span, .. } => seen_text(recent, forest, paths, layer, place, Some(*span)),
        Subject::Event { .. } => seen_text(recent, forest, paths, layer, place, None),
    }
}

// What an event says: its level and its message.
fn event_said(subject: &Subject<'_>) -> Result<Option<(Level, ArcStr)>, Fault>
    ensures said { IfOk result (λ event. plain_event arc_str_bytes event ≡ event_said subject.now) }
    ensures memory { IfErr result (λ fault. fault ≡ Fault.Memory) }
{
    match subject {
        Subject::Event { level, message, .. } => {
            let text = (**message).clone()?;
            Ok(Some((*level, text)))
        }
        _ => Ok(None),
    }
}

// The note that a layer is told. It shares a path that was told, where the layer sees the same.
fn note(
    recent: &mut Recent,
    forest: &Forest,
    what: &Happening<'_>,
    paths: &mut SharedPaths,
    layer: u32,
) -> Result<Note, Fault>
    requires known { Knows (text_told what.now.subject) forest.now.spans paths.old }
    requires remembers { Remembers forest.now recent.old.paths }
    requires summarised { IsSummarised forest.now.spans what.now.subject }
    requires there { IsThere forest.now.spans what.now.subject }
    ensures note { IfOk result (λ note. plain_note note ≡ told_to forest.now.spans what.now layer) }
    ensures known { OnOk result (Knows (text_told what.now.subject) forest.now.spans paths.new) }
    ensures remembers { Remembers forest.now recent.new.paths }
    ensures memory { IfErr result (λ fault. fault ≡ Fault.Memory) }
{
    let place = place_of(forest, &what.subject, layer, &mut recent.in_vain);
    let path = path_of(recent, forest, &what.subject, paths, layer, &place)?;
    let fields = what.fields.share()?;
    let event = event_said(&what.subject)?;
    Ok(Note {
        layer,
        kind: what.kind,
        worker: what.worker,
        id: id_of(&what.subject, &place),
        path,
        fields,
        event,
    })
}

// Appends the notes of the layers: one for each that admits what happened and wants the kind.
fn push_told(
    recent: &mut Recent,
    notes: &mut Vec<Note>,
    paths: &mut SharedPaths,
    rules: &Rules,
    forest: &Forest,
    what: &Happening<'_>,
) -> Result<(), Fault>
    requires known { Knows (text_told what.now.subject) forest.now.spans paths.old }
    requires remembers { Remembers forest.now recent.old.paths }
    requires summarised { IsSummarised forest.now.spans what.now.subject }
    requires there { IsThere forest.now.spans what.now.subject }
    ensures notes { OnOk result (map plain_note notes.new.items ≡ map plain_note notes.old.items
        ++ notes_told rules.now forest.now.spans what.now) }
    ensures known { OnOk result (Knows (text_told what.now.subject) forest.now.spans paths.new) }
    ensures remembers { Remembers forest.now recent.new.paths }
    ensures memory { IfErr result (λ fault. fault ≡ Fault.Memory) }
{
    let layers = told_layers(rules, what.bits, what.kind);
    notes.reserve_exact(layers.len())?;
    for layer in layers {
        let note = note(recent, forest, what, paths, layer)?;
        notes.push(note)?;
    }
    Ok(())
}

// The notes of the layers alone.
#[inline(always)]
fn told(
    recent: &mut Recent,
    rules: &Rules,
    forest: &Forest,
    what: &Happening<'_>,
) -> Result<Vec<Note>, Fault>
    requires remembers { Remembers forest.now recent.old.paths }
    requires summarised { IsSummarised forest.now.spans what.now.subject }
    requires there { IsThere forest.now.spans what.now.subject }
    ensures notes { IfOk result (λ notes. map plain_note notes.items
        ≡ notes_told rules.now forest.now.spans what.now) }
    ensures remembers { Remembers forest.now recent.new.paths }
    ensures memory { IfErr result (λ fault. fault ≡ Fault.Memory) }
{
    if is_told_to_none(rules, what.bits, what.kind) {
        return Ok(Vec::new(recent.alloc));
    }
    told_to_some(recent, rules, forest, what)
}

// These notes, where some layer is told.
#[inline(never)]
fn told_to_some(
    recent: &mut Recent,
    rules: &Rules,
    forest: &Forest,
    what: &Happening<'_>,
) -> Result<Vec<Note>, Fault>
    requires remembers { Remembers forest.now recent.old.paths }
    requires summarised { IsSummarised forest.now.spans what.now.subject }
    requires there { IsThere forest.now.spans what.now.subject }
    ensures notes { IfOk result (λ notes. map plain_note notes.items
        ≡ notes_told rules.now forest.now.spans what.now) }
    ensures remembers { Remembers forest.now recent.new.paths }
    ensures memory { IfErr result (λ fault. fault ≡ Fault.Memory) }
{
    let mut paths = SharedPaths::none(recent.alloc);
    listed(recent, &mut paths, rules, forest, what)
}

// The same, and the paths that they tell are left in `paths`.
fn listed(
    recent: &mut Recent,
    paths: &mut SharedPaths,
    rules: &Rules,
    forest: &Forest,
    what: &Happening<'_>,
) -> Result<Vec<Note>, Fault>
    requires known { Knows (text_told what.now.subject) forest.now.spans paths.old }
    requires remembers { Remembers forest.now recent.old.paths }
    requires summarised { IsSummarised forest.now.spans what.now.subject }
    requires there { IsThere forest.now.spans what.now.subject }
    ensures notes { IfOk result (λ notes. map plain_note notes.items
        ≡ notes_told rules.now forest.now.spans what.now) }
    ensures known { OnOk result (Knows (text_told what.now.subject) forest.now.spans paths.new) }
    ensures remembers { Remembers forest.now recent.new.paths }
    ensures memory { IfErr result (λ fault. fault ≡ Fault.Memory) }
{
    let layers = told_layers(rules, what.bits, what.kind);
    let mut notes = empty_list(recent.alloc, &mut recent.spare, layers.len());
    push_told(recent, &mut notes, paths, rules, forest, what)?;
    Ok(notes)
}

// The notes of what happens to a span: one for each layer that admits the span and wants the kind.
#[inline(always)]
pub(crate) fn span_notes(
    recent: &mut Recent,
    rules: &Rules,
    forest: &Forest,
    found: &FoundSpan<'_>,
    kind: Kind,
    fields: &Fields,
) -> Result<Vec<Note>, Fault>
    requires found { find forest.now.spans found.now.id ≡ Some (node_of found.now.span.now) }
    requires remembers { Remembers forest.now recent.old.paths }
    ensures notes { IfOk result (λ notes. map plain_note notes.items ≡ notes_of rules.now found.now.worker
        (at_span forest.now.spans kind found.now.id fields.now)) }
    ensures remembers { Remembers forest.now recent.new.paths }
    ensures memory { IfErr result (λ fault. fault ≡ Fault.Memory) }
{
    let what = Happening {
        worker: found.worker,
        kind,
        bits: found.span.bits,
        fields,
        subject: Subject::Span {
            id: found.id,
            span: found.span,
        },
    };
    told(recent, rules, forest, &what)
}

// Appends these notes.
pub(crate) fn push_notes(
    recent: &mut Recent,
    notes: &mut Vec<Note>,
    paths: &mut SharedPaths,
    rules: &Rules,
    forest: &Forest,
    found: &FoundSpan<'_>,
    kind: Kind,
    fields: &Fields,
) -> Result<(), Fault>
    requires found { find forest.now.spans found.now.id ≡ Some (node_of found.now.span.now) }
    requires known { Knows path_text forest.now.spans paths.old }
    requires remembers { Remembers forest.now recent.old.paths }
    ensures notes { OnOk result (map plain_note notes.new.items ≡ map plain_note notes.old.items
        ++ notes_of rules.now found.now.worker (at_span forest.now.spans kind found.now.id fields.now)) }
    ensures known { OnOk result (Knows path_text forest.now.spans paths.new) }
    ensures remembers { Remembers forest.now recent.new.paths }
    ensures memory { IfErr result (λ fault. fault ≡ Fault.Memory) }
{
    let what = Happening {
        worker: found.worker,
        kind,
        bits: found.span.bits,
        fields,
        subject: Subject::Span {
            id: found.id,
            span: found.span,
        },
    };
    push_told(recent, notes, paths, rules, forest, &what)
}

// The call that appends fields to those of a span, and its notes: they share the fields.
pub(crate) fn record_told(
    recent: &mut Recent,
    rules: &Rules,
    forest: &Forest,
    found: &FoundSpan<'_>,
    fields: &Fields,
) -> Result<Announced, Fault>
    requires found { find forest.now.spans found.now.id ≡ Some (node_of found.now.span.now) }
    requires remembers { Remembers forest.now recent.old.paths }
    ensures call { IfOk result (λ announced. request_of announced.call
        ≡ record_fields found.now.worker found.now.id fields.now) }
    ensures notes { IfOk result (λ announced. map plain_note announced.notes.items ≡ notes_of rules.now found.now.worker
        (at_span forest.now.spans OnRecord found.now.id fields.now)) }
    ensures remembers { Remembers forest.now recent.new.paths }
    ensures memory { IfErr result (λ fault. fault ≡ Fault.Memory) }
{
    let notes = span_notes(recent, rules, forest, found, Kind::OnRecord, fields)?;
    let fields = fields.share()?;
    Ok(Announced {
        call: Call::RecordFields {
            worker: found.worker,
            id: found.id,
            fields,
        },
        notes,
    })
}

// The notes of an exit: those of the exit itself, then those of the spans that it closes. They share their paths.
pub(crate) fn exit_notes<'a>(
    recent: &mut Recent,
    rules: &Rules,
    forest: &'a Forest,
    exit: &FoundSpan<'a>,
    closing: &[Id],
) -> Result<Vec<Note>, Fault>
    requires chain { IsChain forest.now.spans closing.now }
    requires found { find forest.now.spans exit.now.id ≡ Some (node_of exit.now.span.now) }
    requires remembers { Remembers forest.now recent.old.paths }
    ensures notes { IfOk result (λ notes. map plain_note notes.items
        ≡ notes_of_all rules.now exit.now.worker
        (at_span forest.now.spans OnExit exit.now.id [] ∷ map (close_of forest.now.spans) closing.now)) }
    ensures remembers { Remembers forest.now recent.new.paths }
    ensures memory { IfErr result (λ fault. fault ≡ Fault.Memory) }
{
    let kind = Kind::OnExit;
    let none = Fields::none();
    if closing.is_empty() {
        return span_notes(recent, rules, forest, exit, kind, &none);
    }
    let exits = told_layers(rules, exit.span.bits, kind).len();
    let closes = closes_count(rules, forest, closing, exit.span.bits);
    let most = exits.saturating_add(closes);
    let mut notes = empty_list(recent.alloc, &mut recent.spare, most);
    let mut paths = SharedPaths::none(recent.alloc);
    push_notes(
        recent, &mut notes, &mut paths, rules, forest, exit, kind, &none,
    )?;
    push_closes(
        recent, &mut notes, &mut paths, rules, forest, exit, closing, closes,
    )?;
    Ok(notes)
}
