//! The telling of notes, one after another.
ghost use Rattle.std.specs.Prelude.{true, ◌≡◌, ◌+◌, ◌-◌, ◌^◌, ◌<◌, ◌≤◌, ◌∷◌, [], Some, IfOk, IfSome, IfNone, OnErr, map, length, min, vec_capacity};
ghost use Rattle.span_layers.specs.Note.{plain_note};
ghost use Rattle.span_layers.specs.Text.{text_of};
ghost use Rattle.span_outlet.specs.Lines.{line_of, plain_line};
ghost use Rattle.span_outlet.specs.Kept.{LacksMemory, WhyMissed, GainsLines};
ghost use Rattle.span_outlet.specs.inside.Ends.{name_of_consumer};
ghost use Rattle.span_outlet.specs.inside.SameText.{EndsWithTextOf, IsTextOf};
ghost use Rattle.span_outlet.specs.inside.Taking.{TakesFirst, numbered_notes};
ghost use Rattle.rtrb.specs.Ring.{received, known_items};

use crate::line::Line;
use crate::memory::{Place, keep};
use crate::posted::Posted;
use crate::ring::Consuming;
use crate::same_text::known_text;
use span_layers::{Form, Forms, Note, Say};
use std::alloc::AllocError;

// The most buffers that are kept for texts to come: as many as there may be layers, each of which may be told of a call.
const MOST_SPARE: usize = 64;

// A buffer with more room than this is freed with its text.
const MOST_ROOM: usize = 4096;

// A list gives back the room that it has for more lines than this.
const MOST_LINES: usize = 64;

// A text keeps room for as many bytes more: what a JSON text with nothing to escape and no long message or value leaves
// at most. To give them back takes some 400 instructions, a third of what the text itself takes.
const MOST_LEFT: usize = 67;

/// The lines so far, and how many notes were missed.
#[derive(Drop)]
pub(crate) struct NoteLines {
    pub(crate) forms: Forms,
    pub(crate) lines: Vec<Line>,
    // Buffers of texts that are gone, for texts to come. What they still hold is of no account.
    pub(crate) spare: Vec<Vec<u8>>,
    // Stays at its greatest value.
    pub(crate) missed: u64,
    // The range of a `u64`, known where it isn't read.
    ghost in_range: { missed ≤ 2 ^ 64 - 1 },
}

/// Lets go of the lines. The buffers of their texts are kept for texts to come, as long as they are few and small, and
/// the list keeps the room that it has for a few lines.
pub(crate) fn recycle(lines: &mut Vec<Line>, spare: &mut Vec<Vec<u8>>)
    ensures empty { lines.new.items ≡ [] }
    ensures room { min 64 (vec_capacity lines.old) ≤ vec_capacity lines.new }
    ensures no_more { vec_capacity lines.new ≤ vec_capacity lines.old }
{
    while let Some(line) = lines.pop() {
        keep_buffer(spare, line);
    }
    lines.shrink_to(MOST_LINES);
}

/// Keeps the buffer of a line's text, unless it is too large, or there are enough, or memory is refused.
pub(crate) fn keep_buffer(spare: &mut Vec<Vec<u8>>, line: Line) {
    let Line {
        batch: _,
        place: _,
        layer: _,
        text,
    } = line;
    if text.capacity() <= MOST_ROOM && spare.len() < MOST_SPARE {
        let _ = spare.push(text);
    }
}

// The text of a note in a form, in a spare buffer if there is one. The only error is that memory was refused.
fn text_of_note<V: Say>(
    spare: &mut Vec<Vec<u8>>,
    formatters: &V,
    form: Form,
    at: Place,
    note: &Note,
) -> Result<Vec<u8>, AllocError>
    ensures text { IfOk result (λ text. text.items ≡ text_of form (plain_note note.now)) }
    ensures refused { OnErr result (LacksMemory at.batch at.place) }
{
    match spare.pop() {
        Some(mut text) => {
            text.clear();
            at.say_onto(formatters, form, note, &mut text)?;
            if text.capacity() > MOST_ROOM {
                // It won't be kept for another text.
                give_room_back(&mut text);
            }
            Ok(text)
        }
        None => {
            let mut text = at.say(formatters, form, note)?;
            give_room_back(&mut text);
            Ok(text)
        }
    }
}

// The text of a note in a form: a copy of a text that is known to be the same, if there is one. The only error is that
// memory was refused.
fn copied_or_made<V: Say>(
    spare: &mut Vec<Vec<u8>>,
    formatters: &V,
    form: Form,
    at: Place,
    note: &Note,
    known: Option<&[u8]>,
) -> Result<Vec<u8>, AllocError>
    requires { IfSome known (λ text. text.now ≡ text_of form (plain_note note.now)) }
    ensures text { IfOk result (λ text. text.items ≡ text_of form (plain_note note.now)) }
    ensures refused { OnErr result (LacksMemory at.batch at.place) }
{
    match known {
        Some(text) => copy_of_text(spare, at, text),
        None => text_of_note(spare, formatters, form, at, note),
    }
}

// A copy of a text, in a spare buffer if there is one. The only error is that memory was refused.
fn copy_of_text(spare: &mut Vec<Vec<u8>>, at: Place, text: &[u8]) -> Result<Vec<u8>, AllocError>
    ensures text { IfOk result (λ copy. copy.items ≡ text.now) }
    ensures refused { OnErr result (LacksMemory at.batch at.place) }
{
    let mut copy = match spare.pop() {
        Some(buffer) => buffer,
        None => Vec::new(*spare.allocator()),
    };
    copy.clear();
    at.append(text, &mut copy)?;
    if copy.capacity() > MOST_ROOM {
        // It won't be kept for another text.
        give_room_back(&mut copy);
    }
    Ok(copy)
}

// Gives back the room that a text leaves, if it is worth it.
fn give_room_back(text: &mut Vec<u8>)
    ensures { text.new.items ≡ text.old.items }
{
    if text.capacity() - text.len() > MOST_LEFT {
        text.shrink_to_fit();
    }
}

// The line of a note, whose text may be known. There is none only where its layer has no form, its place is out of range,
// or memory for its text was refused.
fn line_of_note<V: Say>(
    forms: &Forms,
    spare: &mut Vec<Vec<u8>>,
    formatters: &V,
    batch: u64,
    place: usize,
    note: &Note,
    known: Option<&[u8]>,
) -> Option<Line>
    requires known { IfSome known (λ text. IsTextOf forms.now note.now text.now) }
    ensures line { IfSome result (λ line. line_of forms.now batch (place, plain_note note.now) ≡ Some (plain_line line)) }
    ensures none { IfNone result (WhyMissed forms.now
        (record { batch = batch; place = place; note = plain_note note.now })) }
{
    let form = forms.get(note.layer)?;
    let place = u32::try_from(place).ok()?;
    let at = Place { batch, place };
    let text = copied_or_made(spare, formatters, form, at, note, known).ok()?;
    Some(Line {
        batch,
        place,
        layer: note.layer,
        text,
    })
}

impl NoteLines {
    // Counts a note that is missed.
    fn miss(&mut self)
        ensures forms { self.new.forms ≡ self.old.forms }
        ensures lines { self.new.lines ≡ self.old.lines }
        ensures missed { self.new.missed ≡ min (2 ^ 64 - 1) (self.old.missed + 1) }
    {
        self.missed = self.missed.saturating_add(1);
    }

    // Tells a note: its line is appended, or it is missed and counted. Answers whether the line was appended. `before` is
    // the note of the last line, if its text may be copied.
    fn tell<V: Say>(
        &mut self,
        formatters: &V,
        batch: u64,
        place: usize,
        note: &Note,
        before: Option<&Note>,
    ) -> bool
        requires before { IfSome before (λ before. EndsWithTextOf self.old.forms self.old.lines.items before.now) }
        ensures forms { self.new.forms ≡ self.old.forms }
        ensures told { GainsLines self.old.forms
            ((record { batch = batch; place = place; note = plain_note note.now }) ∷ [])
            (map plain_line self.old.lines.items) self.old.missed
            (map plain_line self.new.lines.items) self.new.missed }
        ensures last { result ≡ true → EndsWithTextOf self.new.forms self.new.lines.items note.now }
    {
        let known = known_text(&self.forms, self.lines.as_slice(), before, note);
        let Some(line) = line_of_note(
            &self.forms,
            &mut self.spare,
            formatters,
            batch,
            place,
            note,
            known,
        ) else {
            self.miss();
            return false;
        };
        if keep(&mut self.lines, line).is_err() {
            self.miss();
            return false;
        }
        true
    }

    // Tells the notes of the batch of this number, in order.
    pub(crate) fn tell_all<V: Say>(&mut self, formatters: &V, number: u64, notes: &[Note])
        ensures forms { self.new.forms ≡ self.old.forms }
        ensures told { GainsLines self.old.forms (numbered_notes number (map plain_note notes.now))
            (map plain_line self.old.lines.items) self.old.missed
            (map plain_line self.new.lines.items) self.new.missed }
        ensures more { length self.old.lines.items ≤ length self.new.lines.items }
        ensures most { length self.new.lines.items
            ≤ length self.old.lines.items + length notes.now }
    {
        let may_copy = formatters.allows_copies();
        let mut before = None;
        for (place, note) in notes.iter().enumerate() {
            let is_told = self.tell(formatters, number, place, note, before);
            before = (is_told && may_copy).then_some(note);
        }
    }

    // Takes the batch that is known to stand first in the ring, and tells its notes, which it hands on.
    pub(crate) fn take_first<V: Say>(
        &mut self,
        formatters: &V,
        consumer: &mut Consuming,
        taken: &mut u64,
    ) -> Vec<Note>
        requires standing { 0 < length (known_items consumer.old) }
        requires number { taken.old ≡ length (received consumer.old) }
        ensures first { TakesFirst self.old.forms taken.old (received consumer.old) (known_items consumer.old)
            (received consumer.new) (known_items consumer.new)
            self.old.lines.items self.old.missed self.new.lines.items self.new.missed result.items }
        ensures forms { self.new.forms ≡ self.old.forms }
        ensures number { taken.new ≡ length (received consumer.new) }
        ensures name { name_of_consumer consumer.new ≡ name_of_consumer consumer.old }
    {
        let batch = consumer.pop_known();
        self.tell_all(formatters, *taken, batch.notes.as_slice());
        *taken += 1;
        let Posted { said: _, notes } = batch;
        notes
    }
}
