//! What takes the batches out of a ring and gives out the lines of their notes, one after another.
ghost use Rattle.std.specs.Prelude.{◌≡◌, ◌<◌, ◌+◌, ◌∷◌, [], ◌++◌, ◌↔◌, false, Some, IfSome, IsSomeAnd, IfNone, IsTrue, map, take, length, slice_get};
ghost use Rattle.rtrb.specs.Ring.{received, known_items, ConsumerLooked};
ghost use Rattle.span_outlet.specs.Lines.{plain_line, lines_of};
ghost use Rattle.span_outlet.specs.Outlet.{one_more};
ghost use Rattle.span_layers.specs.Note.{plain_note};
ghost use Rattle.span_outlet.specs.LineReader.{AreLeft, AreOfLast, HasGiven, IsNoteOf, TakesBatches, looks_of_fill};
ghost use Rattle.span_outlet.specs.inside.Ends.{name_of_consumer};
ghost use Rattle.span_outlet.specs.Posted.{plain_posted};
ghost use Rattle.span_outlet.specs.inside.Reading.{reader_view, HaveNotes};

use crate::given_out::GivenOut;
use crate::line::Line;
use crate::note_lines::{NoteLines, keep_buffer};
use crate::returning::{Returning, give_back};
use crate::ring::{Consuming, Ring, Tap};
use span_known::KnownValue;
use span_layers::{Formatters, Formatting, Note, Say};
use std::alloc::Global;
use std::marker::Model;
use std::mem;

/// Takes the batches out of a ring, and gives out the lines of their notes, each once and in order.
///
/// It keeps no line that it gave out, which contracts alone know, and takes a batch only where no line waits. So it
/// keeps at most the lines and the notes of one batch, and buffers of lines that it skipped or took back; notes that were
/// told go back to the ring, if their list is small. It takes no lock, so it may run beside the core, in a thread of its
/// own. Notes are missed as by a `Drain`. `V` makes the texts.
#[derive(Drop)]
pub struct LineReader<V = Formatters> {
    consumer: Consuming,
    // Lists of notes that were told go back through it.
    back: Returning,
    // How often it looked into the ring for batches. Stays at its greatest value.
    looks: u64,
    taken: u64,
    // The lines that wait, the last one first: so the first one can be popped.
    note_lines: NoteLines,
    // The notes of the last batch that was taken: of each line that waits the note stands here at its place.
    notes: Vec<Note>,
    // The lines that it gave out. It has no bytes.
    given: KnownValue<GivenOut>,
    formatters: V,
}

impl<V> Model for LineReader<V> {
    ghost use Rattle.std.specs.Prelude.{◌≡◌, length};
    ghost use mathlib.Core.List.{reverse};
    ghost use Rattle.rtrb.specs.Ring.{received};
    ghost use Rattle.span_outlet.specs.LineReader.{AreLeft, AreOfLast, LineReaderView};
    ghost use Rattle.span_outlet.specs.inside.Ends.{name_of_consumer};
    ghost use Rattle.span_outlet.specs.inside.GivenOut.{lines_given};
    ghost use Rattle.span_outlet.specs.inside.Reading.{reader_view, HaveNotes};

    ghost Value = { LineReaderView };

    ghost view = { λ reader.
        reader_view (name_of_consumer reader.consumer) reader.looks reader.note_lines.forms (received reader.consumer)
        (lines_given reader.given.value) (reverse reader.note_lines.lines.items) reader.note_lines.missed };

    ghost invariant = { λ reader.
        AreLeft (reader_view (name_of_consumer reader.consumer) reader.looks reader.note_lines.forms (received reader.consumer)
        (lines_given reader.given.value) (reverse reader.note_lines.lines.items) reader.note_lines.missed)
        × AreOfLast (reader_view (name_of_consumer reader.consumer) reader.looks reader.note_lines.forms (received reader.consumer)
        (lines_given reader.given.value) (reverse reader.note_lines.lines.items) reader.note_lines.missed)
        × (reader.taken ≡ length (received reader.consumer))
        × HaveNotes reader.note_lines.forms (received reader.consumer) reader.notes.items (reverse reader.note_lines.lines.items) };
}

// Looks into the ring for batches, and counts the look. How many are known to stand there then.
fn look(consumer: &mut Consuming, looks: &mut u64) -> usize
    ensures looked { ConsumerLooked consumer.old consumer.new }
    ensures counted { looks.new ≡ one_more looks.old }
    ensures value { result ≡ length (known_items consumer.new) }
{
    *looks = looks.saturating_add(1);
    consumer.slots()
}

// Takes the batches that are known to stand in the ring, one by one, and tells their notes, until there is a line. The
// notes of the last one are kept, and those before them are given back.
fn take_until_line<V: Say>(
    consumer: &mut Consuming,
    back: &mut Returning,
    taken: &mut u64,
    note_lines: &mut NoteLines,
    notes: &mut Vec<Note>,
    formatters: &V,
    standing: usize,
)
    requires standing { standing ≡ length (known_items consumer.old) }
    requires number { taken.old ≡ length (received consumer.old) }
    requires nothing { note_lines.old.lines.items ≡ [] }
    ensures number { taken.new ≡ length (received consumer.new) }
    ensures name { name_of_consumer consumer.new ≡ name_of_consumer consumer.old }
    ensures forms { note_lines.new.forms ≡ note_lines.old.forms }
    ensures batches { TakesBatches
        (reader_view (name_of_consumer consumer.old) 0 note_lines.old.forms (received consumer.old) [] [] note_lines.old.missed)
        (reader_view (name_of_consumer consumer.new) 0 note_lines.new.forms (received consumer.new) [] note_lines.new.lines.items
        note_lines.new.missed) }
    ensures last { AreOfLast
        (reader_view (name_of_consumer consumer.new) 0 note_lines.new.forms (received consumer.new) [] note_lines.new.lines.items
        note_lines.new.missed) }
    ensures notes { HaveNotes note_lines.new.forms (received consumer.new) notes.new.items note_lines.new.lines.items }
    ensures fifo { map plain_posted (received consumer.new ++ known_items consumer.new)
        ≡ map plain_posted (received consumer.old ++ known_items consumer.old) }
    ensures none_left { note_lines.new.lines.items ≡ [] → known_items consumer.new ≡ [] }
{
    for _ in 0..standing {
        let told = mem::replace(notes, note_lines.take_first(formatters, consumer, taken));
        give_back(back, told);
        if !note_lines.lines.is_empty() {
            return;
        }
    }
}

impl<F: Drop> LineReader<Formatters<F>> {
    /// A reader that took nothing, and which writes in this formatting. It takes no memory.
    pub fn new(alloc: Global, tap: Tap, formatting: Formatting<F>) -> LineReader<Formatters<F>>
        ensures { result ≡ record {
          name = tap;
          looks = 0;
          forms = formatting.forms;
          taken = [];
          given = [];
          waiting = [];
          missed = 0;
        } }
    {
        let Tap { consumer, back } = tap;
        let Formatting { forms, formatters } = formatting;
        LineReader {
            consumer,
            back,
            looks: 0,
            taken: 0,
            note_lines: NoteLines {
                forms,
                lines: Vec::new(alloc),
                spare: Vec::new(alloc),
                missed: 0,
            },
            notes: Vec::new(alloc),
            given: GivenOut::nothing(),
            formatters,
        }
    }
}

impl<V: Say> LineReader<V> {
    /// Takes batches until a line waits, and tells their notes, in order. True where a line waits now.
    ///
    /// Where one waited already, nothing changes. It takes no more batches than stand in the ring when it is called,
    /// and false means that none of them had a line.
    pub fn fill(&mut self) -> bool
        ensures answer { IsTrue result ↔ (0 < length self.new.waiting) }
        ensures none { result ≡ false → self.new.waiting ≡ [] }
        ensures waited { 0 < length self.old.waiting → self.new ≡ self.old }
        ensures looked { self.new.looks ≡ looks_of_fill self.old.waiting self.old.looks }
        ensures taken { TakesBatches self.old self.new }
        ensures given { self.new.given ≡ self.old.given }
        ensures name { self.new.name ≡ self.old.name }
        ensures forms { self.new.forms ≡ self.old.forms }
    {
        let LineReader {
            consumer,
            back,
            looks,
            taken,
            note_lines,
            notes,
            given: _,
            formatters,
        } = self;
        if !note_lines.lines.is_empty() {
            return true;
        }
        let standing = look(consumer, looks);
        take_until_line(
            consumer,
            back,
            taken,
            note_lines,
            notes,
            &*formatters,
            standing,
        );
        note_lines.lines.reverse();
        !note_lines.lines.is_empty()
    }

    /// The same where both ends of the ring are in one thread, so that the look at the ring is up to date: false means
    /// that everything that was sent is taken, and that all its lines were given out, but for the notes that were missed.
    pub fn fill_beside(&mut self, ring: &mut Ring) -> bool
        requires pair { ring.old.name ≡ self.old.name }
        ensures answer { IsTrue result ↔ (0 < length self.new.waiting) }
        ensures none { result ≡ false → self.new.waiting ≡ [] }
        ensures waited { 0 < length self.old.waiting → self.new ≡ self.old }
        ensures looked { self.new.looks ≡ looks_of_fill self.old.waiting self.old.looks }
        ensures taken { TakesBatches self.old self.new }
        ensures given { self.new.given ≡ self.old.given }
        ensures sent { self.new.waiting ≡ [] → self.new.taken ≡ ring.old.sent }
        ensures read { self.new.waiting ≡ [] → HasGiven ring.old.sent self.new }
        ensures whole { self.new.waiting ≡ [] → self.new.missed ≡ 0
            → self.new.given ≡ lines_of self.new.forms ring.old.sent }
        ensures name { self.new.name ≡ self.old.name }
        ensures forms { self.new.forms ≡ self.old.forms }
        ensures ring { ring.new ≡ record ring.old { free = ring.new.free } }
    {
        let LineReader {
            consumer,
            back,
            looks,
            taken,
            note_lines,
            notes,
            given: _,
            formatters,
        } = self;
        if !note_lines.lines.is_empty() {
            return true;
        }
        *looks = looks.saturating_add(1);
        let standing = ring.look_beside(consumer);
        take_until_line(
            consumer,
            back,
            taken,
            note_lines,
            notes,
            &*formatters,
            standing,
        );
        note_lines.lines.reverse();
        !note_lines.lines.is_empty()
    }
}

impl<V> LineReader<V> {
    /// The first line that waits. None where no line waits.
    pub fn peek(&self) -> Option<&Line>
        ensures some { IfSome result (λ line. slice_get self.now.waiting 0 ≡ Some (plain_line line.now)) }
        ensures none { IfNone result (self.now.waiting ≡ []) }
        ensures left { AreLeft self.now }
        ensures level { AreOfLast self.now }
    {
        self.note_lines.lines.last()
    }

    /// The note whose line is the first one that waits. None where no line waits.
    pub fn peek_note(&self) -> Option<&Note>
        ensures some { IfSome result (λ note.
            IsSomeAnd (slice_get self.now.waiting 0) (λ line. IsNoteOf self.now line (plain_note note.now))) }
        ensures none { IfNone result (self.now.waiting ≡ []) }
    {
        let line = self.peek()?;
        Some(&self.notes[line.place as usize])
    }

    /// Gives the first line that waits out. None where no line waits.
    ///
    /// What was given out so far and what still waits are, in this order, the lines of what was taken.
    pub fn next(&mut self) -> Option<Line>
        ensures some { IfSome result (λ line. self.old.waiting ≡ plain_line line ∷ self.new.waiting) }
        ensures none { IfNone result (self.old.waiting ≡ []) }
        ensures same { IfNone result (self.new ≡ self.old) }
        ensures given { IfSome result (λ line. self.new.given ≡ self.old.given ++ plain_line line ∷ []) }
        ensures rest { self.new ≡ record self.old { given = self.new.given; waiting = self.new.waiting } }
        ensures left { AreLeft self.new }
    {
        let LineReader {
            note_lines,
            given,
            ..
        } = self;
        let line = note_lines.lines.pop()?;
        GivenOut::add(given, &line);
        Some(line)
    }

    /// Takes a line back that was given out, whosever it is: a line to come that no closure writes is written in its
    /// buffer, and then has more room than its text needs, up to 4,096 bytes. A larger buffer is freed, and one that
    /// comes after 64 others.
    pub fn take_back(&mut self, line: Line)
        ensures { self.new ≡ self.old }
    {
        keep_buffer(&mut self.note_lines.spare, line);
    }

    /// Gives all lines that wait out at once, and takes them back. How many they were: they are of the last batch taken.
    pub fn skip(&mut self) -> usize
        ensures value { result ≡ length self.old.waiting }
        ensures given { self.new ≡ record self.old { given = self.old.given ++ self.old.waiting; waiting = [] } }
        ensures left { AreLeft self.new }
        ensures level { AreOfLast self.old }
    {
        let waited = self.note_lines.lines.len();
        while let Some(line) = self.next() {
            self.take_back(line);
        }
        waited
    }

    /// How many batches still stand in the ring, in a thread that has both of its ends: those that were taken are the
    /// first of all that were sent, and these are the others. Nothing is taken.
    pub fn behind(&mut self, ring: &mut Ring) -> usize
        requires pair { ring.old.name ≡ self.old.name }
        ensures order { self.old.taken ≡ take (length self.old.taken) ring.old.sent }
        ensures value { length self.old.taken + result ≡ length ring.old.sent }
        ensures same { self.new ≡ self.old }
        ensures ring { ring.new ≡ record ring.old { free = ring.new.free } }
    {
        ring.look_beside(&mut self.consumer)
    }

    /// How often it looked into the ring for batches to take. It stays at its greatest value.
    pub fn looks(&self) -> u64
        ensures { result ≡ self.now.looks }
    {
        self.looks
    }

    /// How many batches were taken.
    pub fn taken(&self) -> u64
        ensures { result ≡ length self.now.taken }
    {
        self.taken
    }

    /// How many notes were missed. It stays at its greatest value.
    pub fn missed(&self) -> u64
        ensures { result ≡ self.now.missed }
    {
        self.note_lines.missed
    }
}
