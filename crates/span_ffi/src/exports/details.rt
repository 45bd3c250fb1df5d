//! What was said of a span, in the form in which a new one's data come.
ghost use Rattle.std.specs.Prelude.{◌≡◌, true, Some, length, string_bytes};
ghost use Rattle.span_id.specs.Level.{verbosity};
ghost use Rattle.span_forest.specs.Node.{node_of};
ghost use Rattle.span_border.specs.Status.{meant};
ghost use Rattle.span_border.specs.Ends.{OnHeld, Keeps};
ghost use Rattle.span_border.specs.Buffers.{KeepsNumbers};
ghost use Rattle.span_ffi.specs.Registry.{AsksCore};
ghost use Rattle.span_ffi.specs.Details.{are_short, AnswersSaid, AnswersWhatWasSaid};

use crate::data::{SpanField, SpanMeta};
use crate::exports::callers::id_of;
use crate::exports::packing::{len_of, texts_len, write_lengths, write_texts};
use crate::registry::RingCore;
use crate::registry_handle::SpanRegistry;
use span_border::{Holds, Status};
use span_forest::Span;
use span_id::{Fault, Meta};
use std::alloc::Global;

fn meta_lengths(meta: &Meta) -> SpanMeta
    requires { are_short (string_bytes meta.now.name, string_bytes meta.now.target) ≡ true }
    ensures level { result.level ≡ verbosity meta.now.level }
    ensures name { result.name_len ≡ length (string_bytes meta.now.name) }
    ensures target { result.target_len ≡ length (string_bytes meta.now.target) }
{
    SpanMeta {
        level: u32::from(meta.level.verbosity()),
        name_len: len_of(&meta.name),
        target_len: len_of(&meta.target),
    }
}

fn tell_span(
    span: &Span,
    meta: &mut SpanMeta,
    fields: &mut [SpanField],
    count: &mut usize,
    into: &mut [u8],
    len: &mut usize,
) -> Status
    ensures said { AnswersSaid (node_of span.now) meta.new (record { old = fields.old; new = fields.new; len = count.new })
        (record { old = into.old; new = into.new; len = len.new }) result }
    ensures meta { Keeps (Some result) meta.old meta.new }
    ensures fields { Keeps (Some result) fields.old fields.new }
    ensures count { KeepsNumbers (Some result) count.old count.new }
    ensures into { Keeps (Some result) into.old into.new }
    ensures len { KeepsNumbers (Some result) len.old len.new }
{
    let span_meta = span.meta.as_meta();
    let name = span_meta.name.as_str();
    let target = span_meta.target.as_str();
    let list = span.fields.as_slice();
    let Some(texts) = texts_len(name, target, list) else {
        return Status::Refused(Fault::CountFull);
    };
    *count = list.len();
    *len = texts;
    if list.len() > fields.len() || texts > into.len() {
        return Status::ShortBuffer;
    }
    *meta = meta_lengths(span_meta);
    write_lengths(list, fields);
    write_texts(name, target, list, into);
    Status::Done
}

fn details(
    core: &RingCore,
    id: u64,
    meta: &mut SpanMeta,
    fields: &mut [SpanField],
    count: &mut usize,
    into: &mut [u8],
    len: &mut usize,
) -> Status
    ensures said { AnswersWhatWasSaid id meta.new (record { old = fields.old; new = fields.new; len = count.new })
        (record { old = into.old; new = into.new; len = len.new }) core.now result core.now }
    ensures meta { Keeps (Some result) meta.old meta.new }
    ensures fields { Keeps (Some result) fields.old fields.new }
    ensures count { KeepsNumbers (Some result) count.old count.new }
    ensures into { Keeps (Some result) into.old into.new }
    ensures len { KeepsNumbers (Some result) len.old len.new }
{
    let Some(id) = id_of(core, id) else {
        return Status::Refused(Fault::Unknown);
    };
    match core.find(id) {
        Some(span) => tell_span(span, meta, fields, count, into, len),
        None => Status::Refused(Fault::Unknown),
    }
}

/// Tells what was said of an open span, in the form in which `span_registry_new_span` takes it: its level and how long
/// its name and its target are; how long the key and the value of each field are; and the texts, one after another. The
/// fields that were recorded stand behind those that it was made with. Where a buffer is too short it only tells how
/// many fields and bytes they are. `Unknown` where the span isn't open, `CountFull` where a length is too great for its
/// number; the rest of the buffers stays.
#[unsafe(no_mangle)]
pub extern "C" fn span_registry_details(
    alloc: Global,
    registry: &mut SpanRegistry,
    id: u64,
    meta: &mut SpanMeta,
    fields: &mut [SpanField],
    count: &mut usize,
    into: &mut [u8],
    len: &mut usize,
) -> u32
    ensures said { OnHeld registry.old.held (AsksCore (AnswersWhatWasSaid id meta.new
        (record { old = fields.old; new = fields.new; len = count.new })
        (record { old = into.old; new = into.new; len = len.new }))) (meant result) registry.new.held }
    ensures meta { Keeps (meant result) meta.old meta.new }
    ensures fields { Keeps (meant result) fields.old fields.new }
    ensures count { KeepsNumbers (meant result) count.old count.new }
    ensures into { Keeps (meant result) into.old into.new }
    ensures len { KeepsNumbers (meant result) len.old len.new }
{
    let Some(held) = registry.take(alloc) else {
        return Status::EmptyHandle.number();
    };
    let status = details(&held.core, id, meta, fields, count, into, len);
    registry.put(held);
    status.number()
}
