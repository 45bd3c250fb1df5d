//! The end from which lines are read, where the note of a line is wanted in its place.
ghost use Rattle.std.specs.Prelude.{◌≡◌, true, Some};
ghost use Rattle.span_layers.specs.Note.{plain_note};
ghost use Rattle.span_border.specs.Status.{meant};
ghost use Rattle.span_border.specs.Ends.{OnHeld, Keeps};
ghost use Rattle.span_border.specs.Buffers.{KeepsNumbers};
ghost use Rattle.span_ffi.specs.Details.{are_short};
ghost use Rattle.span_ffi.specs.Drain.{OnLines};
ghost use Rattle.span_ffi.specs.Notes.{kind_number, level_number, message_in, note_numbers, AnswersNote, GivesNote};
ghost use Rattle.span_ffi.specs.inside.Giving.{GivesFirstNote};

use crate::data::{SpanField, SpanNote};
use crate::drain_handle::SpanDrain;
use crate::exports::packing::{len_of, texts_len, write_lengths, write_texts};
use crate::reader::Lines;
use span_border::{Holds, Status};
use span_id::Fault;
use span_layers::{Kind, Note};
use std::alloc::Global;

fn kind_number(kind: Kind) -> u32
    ensures { result ≡ kind_number kind }
{
    match kind {
        Kind::OnNew => 0,
        Kind::OnRecord => 1,
        Kind::OnEvent => 2,
        Kind::OnEnter => 3,
        Kind::OnExit => 4,
        Kind::OnClose => 5,
    }
}

fn level_number(note: &Note) -> u32
    ensures { result ≡ level_number (plain_note note.now).event }
{
    match &note.event {
        Some((level, _)) => u32::from(level.verbosity()),
        None => 0,
    }
}

fn message_in(note: &Note) -> &str
    ensures { result.now ≡ message_in (plain_note note.now).event }
{
    match &note.event {
        Some((_, message)) => message.as_str(),
        None => "",
    }
}

fn note_numbers(batch: u64, note: &Note) -> SpanNote
    requires { are_short ((plain_note note.now).path, message_in (plain_note note.now).event) ≡ true }
    ensures { result ≡ note_numbers batch (plain_note note.now) }
{
    SpanNote {
        batch,
        id: note.id,
        layer: note.layer,
        kind: kind_number(note.kind),
        worker: note.worker,
        level: level_number(note),
        path_len: len_of(note.path.as_str()),
        message_len: len_of(message_in(note)),
    }
}

fn tell_note(
    batch: u64,
    note: &Note,
    told: &mut SpanNote,
    fields: &mut [SpanField],
    count: &mut usize,
    into: &mut [u8],
    len: &mut usize,
) -> Status
    ensures note { AnswersNote batch (plain_note note.now) told.new
        (record { old = fields.old; new = fields.new; len = count.new })
        (record { old = into.old; new = into.new; len = len.new }) result }
    ensures told { KeepsNumbers (Some result) told.old told.new }
    ensures fields { Keeps (Some result) fields.old fields.new }
    ensures count { KeepsNumbers (Some result) count.old count.new }
    ensures into { Keeps (Some result) into.old into.new }
    ensures len { KeepsNumbers (Some result) len.old len.new }
{
    let path = note.path.as_str();
    let message = message_in(note);
    let list = note.fields.as_slice();
    let Some(texts) = texts_len(path, message, list) else {
        return Status::Refused(Fault::CountFull);
    };
    *told = note_numbers(batch, note);
    *count = list.len();
    *len = texts;
    if list.len() > fields.len() || texts > into.len() {
        return Status::ShortBuffer;
    }
    write_lengths(list, fields);
    write_texts(path, message, list, into);
    Status::Done
}

// Gives out the note of the first of the lines that wait already.
fn give_first_note(
    lines: &mut Lines,
    told: &mut SpanNote,
    fields: &mut [SpanField],
    count: &mut usize,
    into: &mut [u8],
    len: &mut usize,
) -> Status
    ensures note { GivesFirstNote told.new (record { old = fields.old; new = fields.new; len = count.new })
        (record { old = into.old; new = into.new; len = len.new }) lines.old result lines.new }
    ensures told { KeepsNumbers (Some result) told.old told.new }
    ensures fields { Keeps (Some result) fields.old fields.new }
    ensures count { KeepsNumbers (Some result) count.old count.new }
    ensures into { Keeps (Some result) into.old into.new }
    ensures len { KeepsNumbers (Some result) len.old len.new }
{
    let Some(line) = lines.peek() else {
        return Status::NoLine;
    };
    let Some(note) = lines.peek_note() else {
        return Status::NoLine;
    };
    let status = tell_note(line.batch, note, told, fields, count, into, len);
    if status == Status::Done {
        if let Some(line) = lines.next() {
            lines.take_back(line);
        }
    }
    status
}

#[tactic(auto, using(crate::proofs::Given::filled_gives_note))]
fn give_note(
    lines: &mut Lines,
    told: &mut SpanNote,
    fields: &mut [SpanField],
    count: &mut usize,
    into: &mut [u8],
    len: &mut usize,
) -> Status
    ensures note { GivesNote told.new (record { old = fields.old; new = fields.new; len = count.new })
        (record { old = into.old; new = into.new; len = len.new }) lines.old result lines.new }
    ensures told { KeepsNumbers (Some result) told.old told.new }
    ensures fields { Keeps (Some result) fields.old fields.new }
    ensures count { KeepsNumbers (Some result) count.old count.new }
    ensures into { Keeps (Some result) into.old into.new }
    ensures len { KeepsNumbers (Some result) len.old len.new }
{
    lines.fill();
    give_first_note(lines, told, fields, count, into, len)
}

/// Gives the next line out, as `span_drain_line` does, but tells its note in its place: the numbers of the note; how
/// long the key and the value of each field are; and its texts, one after another: the path, an event's message, and
/// each key and value. Where a buffer is too short it only tells the numbers, and how many fields and bytes there are. The
/// line stays the next one then, and where a length is too great for its number, which is `CountFull`.
#[unsafe(no_mangle)]
pub extern "C" fn span_drain_note(
    alloc: Global,
    drain: &mut SpanDrain,
    told: &mut SpanNote,
    fields: &mut [SpanField],
    count: &mut usize,
    into: &mut [u8],
    len: &mut usize,
) -> u32
    ensures note { OnHeld drain.old.held (OnLines (GivesNote told.new
        (record { old = fields.old; new = fields.new; len = count.new })
        (record { old = into.old; new = into.new; len = len.new }))) (meant result) drain.new.held }
    ensures told { KeepsNumbers (meant result) told.old told.new }
    ensures fields { Keeps (meant result) fields.old fields.new }
    ensures count { KeepsNumbers (meant result) count.old count.new }
    ensures into { Keeps (meant result) into.old into.new }
    ensures len { KeepsNumbers (meant result) len.old len.new }
{
    let Some(mut held) = drain.take(alloc) else {
        return Status::EmptyHandle.number();
    };
    let status = give_note(&mut held.lines, told, fields, count, into, len);
    held.take_headings();
    drain.put(held);
    status.number()
}
