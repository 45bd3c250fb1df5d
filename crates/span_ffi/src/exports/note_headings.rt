//! The end from which lines are read, where the heading of a note is wanted.
ghost use Rattle.std.specs.Prelude.{◌≡◌, ◌≢◌, ◌<◌, ◌≤◌, true, Some, None, IfSome, length, slice_get};
ghost use Rattle.std.specs.Option.{option_map};
ghost use Rattle.span_layers.specs.Note.{plain_note};
ghost use Rattle.span_border.specs.Status.{meant};
ghost use Rattle.span_border.specs.Ends.{OnHeld, Keeps};
ghost use Rattle.span_border.specs.Buffers.{KeepsNumbers};
ghost use Rattle.span_ffi.specs.Details.{texts_fit_in_c};
ghost use Rattle.span_ffi.specs.NoteHeadings.{span_origin, event_origin, origin_of, heading_numbers, heading_texts, AnswersOrigin, AnswersHeading, AnswersNextHeading, TellsHeading};
ghost use Rattle.span_ffi.specs.inside.Origins.{plain_origin};

use crate::data::SpanHeading;
use crate::drain_handle::SpanDrain;
use crate::exports::packing::{len_of, texts_len, write_texts};
use crate::heading_reader::HeadingReader;
use crate::headings::{About, Heading};
use crate::reader::{Lines, Reader};
use span_border::{Holds, Status, id_number};
use span_id::{Fault, SharedMeta};
use span_layers::{Kind, Note};
use std::alloc::Global;

// Where a span was made or an event told.
#[derive(Clone, Copy)]
struct Origin<'h> {
    parent: u64,
    callsite: Option<u32>,
    meta: &'h SharedMeta,
    kinds: &'h [u8],
}

// That of the span which the heading's call made.
fn span_origin(heading: &Heading) -> Option<Origin<'_>>
    ensures { option_map plain_origin result ≡ span_origin heading.now heading.now.about }
{
    match &heading.about {
        About::Span { parent, meta, .. } => Some(Origin {
            parent: id_number(*parent),
            callsite: heading.callsite,
            meta,
            kinds: heading.kinds.as_slice(),
        }),
        _ => None,
    }
}

// That of the event which the heading's call told, in the span of this id.
fn event_origin(id: u64, heading: &Heading) -> Option<Origin<'_>>
    ensures { option_map plain_origin result ≡ event_origin id heading.now heading.now.about }
{
    match &heading.about {
        About::Event(meta) => Some(Origin {
            parent: id,
            callsite: heading.callsite,
            meta,
            kinds: heading.kinds.as_slice(),
        }),
        _ => None,
    }
}

// The origin of what a note is about, where this is the heading of its batch.
fn origin_of<'h>(
    headings: &'h HeadingReader,
    note: &Note,
    heading: &'h Heading,
) -> Option<Origin<'h>>
    ensures { option_map plain_origin result
        ≡ origin_of (plain_note note.now).kind (plain_note note.now).id heading.now headings.now.received }
{
    if note.kind == Kind::OnEvent {
        return event_origin(note.id, heading);
    }
    let origin = span_origin(headings.of_span(note.id)?)?;
    if note.kind != Kind::OnRecord {
        return Some(origin);
    }
    Some(Origin {
        parent: origin.parent,
        callsite: origin.callsite,
        meta: origin.meta,
        kinds: heading.kinds.as_slice(),
    })
}

fn heading_numbers(stamp: u64, origin: &Origin<'_>) -> SpanHeading
    requires { texts_fit_in_c (heading_texts (plain_origin origin.now)) ≡ true }
    ensures { result ≡ heading_numbers stamp (plain_origin origin.now) }
{
    let meta = origin.meta.as_meta();
    SpanHeading {
        stamp,
        parent: origin.parent,
        has_callsite: u32::from(origin.callsite.is_some()),
        callsite: origin.callsite.unwrap_or(0),
        level: u32::from(meta.level.verbosity()),
        name_len: len_of(meta.name.as_str()),
        target_len: len_of(meta.target.as_str()),
    }
}

fn tell_origin(
    stamp: u64,
    origin: &Origin<'_>,
    told: &mut SpanHeading,
    kinds: &mut [u8],
    count: &mut usize,
    into: &mut [u8],
    len: &mut usize,
) -> Status
    ensures origin { AnswersOrigin stamp (plain_origin origin.now) told.new
        (record { old = kinds.old; new = kinds.new; len = count.new })
        (record { old = into.old; new = into.new; len = len.new }) result }
    ensures told { KeepsNumbers (Some result) told.old told.new }
    ensures kinds { Keeps (Some result) kinds.old kinds.new }
    ensures count { KeepsNumbers (Some result) count.old count.new }
    ensures into { Keeps (Some result) into.old into.new }
    ensures len { KeepsNumbers (Some result) len.old len.new }
{
    let meta = origin.meta.as_meta();
    let (name, target) = (meta.name.as_str(), meta.target.as_str());
    let Some(texts) = texts_len(name, target, &[]) else {
        return Status::Refused(Fault::CountFull);
    };
    *told = heading_numbers(stamp, origin);
    *count = origin.kinds.len();
    *len = texts;
    if origin.kinds.len() > kinds.len() || texts > into.len() {
        return Status::ShortBuffer;
    }
    kinds[..origin.kinds.len()].copy_from_slice(origin.kinds);
    write_texts(name, target, &[], into);
    Status::Done
}

// Tells the heading of a note of this batch, up to which all came out.
fn tell_heading(
    headings: &HeadingReader,
    batch: u64,
    note: &Note,
    told: &mut SpanHeading,
    kinds: &mut [u8],
    count: &mut usize,
    into: &mut [u8],
    len: &mut usize,
) -> Status
    requires { IfSome (slice_get headings.now.standing 0) (λ later. batch < later.batch) }
    ensures heading { AnswersHeading batch (plain_note note.now) headings.now told.new
        (record { old = kinds.old; new = kinds.new; len = count.new })
        (record { old = into.old; new = into.new; len = len.new }) result }
    ensures told { KeepsNumbers (Some result) told.old told.new }
    ensures kinds { Keeps (Some result) kinds.old kinds.new }
    ensures count { KeepsNumbers (Some result) count.old count.new }
    ensures into { Keeps (Some result) into.old into.new }
    ensures len { KeepsNumbers (Some result) len.old len.new }
{
    let Some(heading) = headings.of_batch(batch) else {
        return if headings.has_more() {
            Status::Refused(Fault::Unknown)
        } else {
            Status::NoLine
        };
    };
    match origin_of(headings, note, heading) {
        Some(origin) => tell_origin(heading.stamp, &origin, told, kinds, count, into, len),
        None => Status::Refused(Fault::Unknown),
    }
}

// Tells the heading of the note of the first of the lines that wait already. The headings of the batches that were taken
// came out.
fn tell_first_heading(
    lines: &Lines,
    headings: &HeadingReader,
    told: &mut SpanHeading,
    kinds: &mut [u8],
    count: &mut usize,
    into: &mut [u8],
    len: &mut usize,
) -> Status
    requires { IfSome (slice_get headings.now.standing 0) (λ later. length lines.now.taken ≤ later.batch) }
    ensures heading { AnswersNextHeading lines.now headings.now told.new
        (record { old = kinds.old; new = kinds.new; len = count.new })
        (record { old = into.old; new = into.new; len = len.new }) result }
    ensures status { result ≢ Status.BadData }
    ensures told { KeepsNumbers (Some result) told.old told.new }
    ensures kinds { Keeps (Some result) kinds.old kinds.new }
    ensures count { KeepsNumbers (Some result) count.old count.new }
    ensures into { Keeps (Some result) into.old into.new }
    ensures len { KeepsNumbers (Some result) len.old len.new }
{
    let Some(line) = lines.peek() else {
        return Status::NoLine;
    };
    let Some(note) = lines.peek_note() else {
        return Status::NoLine;
    };
    tell_heading(headings, line.batch, note, told, kinds, count, into, len)
}

fn tell_next_heading(
    reader: &mut Reader,
    told: &mut SpanHeading,
    kinds: &mut [u8],
    count: &mut usize,
    into: &mut [u8],
    len: &mut usize,
) -> Status
    ensures heading { TellsHeading told.new (record { old = kinds.old; new = kinds.new; len = count.new })
        (record { old = into.old; new = into.new; len = len.new }) reader.old result reader.new }
    ensures told { KeepsNumbers (Some result) told.old told.new }
    ensures kinds { Keeps (Some result) kinds.old kinds.new }
    ensures count { KeepsNumbers (Some result) count.old count.new }
    ensures into { Keeps (Some result) into.old into.new }
    ensures len { KeepsNumbers (Some result) len.old len.new }
{
    let Reader { lines, headings } = reader;
    let Some(headings) = headings else {
        return Status::BadData;
    };
    lines.fill();
    if headings.take_before(lines.taken()).is_err() {
        return Status::Refused(Fault::Memory);
    }
    tell_first_heading(lines, headings, told, kinds, count, into, len)
}

/// Tells the heading of the next note, which stays the next one: its numbers, of which kind each value is, and its
/// texts, one after another: the name and the target. Where no line waits, it takes batches as `span_drain_note` does.
/// Where a buffer is too short it only tells the numbers, and how many kinds and bytes there are. `NoLine` where there
/// is no line, or the heading isn't there yet; `Unknown` where it was lost, `BadData` where no headings are kept,
/// `Memory` where there is none to keep those that came before it, and `CountFull` where a length is too great for its
/// number.
#[unsafe(no_mangle)]
pub extern "C" fn span_drain_heading(
    alloc: Global,
    drain: &mut SpanDrain,
    told: &mut SpanHeading,
    kinds: &mut [u8],
    count: &mut usize,
    into: &mut [u8],
    len: &mut usize,
) -> u32
    ensures heading { OnHeld drain.old.held (TellsHeading told.new
        (record { old = kinds.old; new = kinds.new; len = count.new })
        (record { old = into.old; new = into.new; len = len.new })) (meant result) drain.new.held }
    ensures told { KeepsNumbers (meant result) told.old told.new }
    ensures kinds { Keeps (meant result) kinds.old kinds.new }
    ensures count { KeepsNumbers (meant result) count.old count.new }
    ensures into { Keeps (meant result) into.old into.new }
    ensures len { KeepsNumbers (meant result) len.old len.new }
{
    let Some(mut held) = drain.take(alloc) else {
        return Status::EmptyHandle.number();
    };
    let status = tell_next_heading(&mut held, told, kinds, count, into, len);
    drain.put(held);
    status.number()
}
