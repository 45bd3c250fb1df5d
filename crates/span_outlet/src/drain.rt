//! What takes the batches out of a ring and writes the lines of their notes.
ghost use Rattle.std.specs.Prelude.{◌≡◌, ◌^◌, ◌<◌, ◌≤◌, [], List, IfSome, IfNone, map, length, All};
ghost use mathlib.Core.List.{IsPrefix};
ghost use Rattle.std.specs.Iterator.{YieldsFirstRef};
ghost use Rattle.std.specs.Iterator.Runs.{YieldsRefsInOrder};
ghost use Rattle.span_outlet.specs.Lines.{lines_of, lines_of_layer, plain_line};
ghost use Rattle.span_outlet.specs.Kept.{AreKept, AreTold, HasNoLine, NumberedNote, numbered};
ghost use Rattle.span_outlet.specs.Drain.{TakesBatch};

use crate::layer_lines::LayerLines;
use crate::line::Line;
use crate::note_lines::NoteLines;
use crate::ring::{Consuming, Ring, Tap};
use span_layers::{Formatters, Formatting, Say};
use std::alloc::Global;
use std::marker::Model;

/// What a step did with the notes of the batch that it took.
#[derive(Clone, Copy, Debug, PartialEq, Eq)]
pub struct Step {
    /// How many were told: each has a line.
    pub told: usize,
    /// How many were missed: no line has the place of such a note.
    pub missed: usize,
}

/// Takes the batches out of a ring, and writes the lines of their notes.
///
/// It takes no lock, so it may run beside the core, in a thread of its own. A note is missed where its layer has no
/// form, where its text or the place of its line was refused memory, or where more than 2^32 - 1 notes stand before it
/// in its batch. `V` makes the texts.
#[derive(Drop)]
pub struct Drain<V = Formatters> {
    consumer: Consuming,
    taken: u64,
    note_lines: NoteLines,
    formatters: V,
}

impl<V> Model for Drain<V> {
    ghost use Rattle.std.specs.Prelude.{◌≡◌, map, length};
    ghost use Rattle.rtrb.specs.Ring.{received};
    ghost use Rattle.span_outlet.specs.Lines.{plain_line};
    ghost use Rattle.span_outlet.specs.Kept.{AreKept, numbered};
    ghost use Rattle.span_outlet.specs.Drain.{DrainView};
    ghost use Rattle.span_outlet.specs.inside.Ends.{name_of_consumer};
    ghost use Rattle.span_outlet.specs.Posted.{plain_posted};

    ghost Value = { DrainView };

    ghost view = { λ drain. record {
      name = name_of_consumer drain.consumer;
      forms = drain.note_lines.forms;
      taken = map plain_posted (received drain.consumer);
      lines = map plain_line drain.note_lines.lines.items;
      missed = drain.note_lines.missed;
    } };

    ghost invariant = { λ drain.
        AreKept drain.note_lines.forms (numbered (map plain_posted (received drain.consumer)))
        (map plain_line drain.note_lines.lines.items) drain.note_lines.missed
        × (drain.taken ≡ length (received drain.consumer)) };
}

impl<F: Drop> Drain<Formatters<F>> {
    /// A drain that took nothing, and which writes in this formatting. It takes no memory.
    pub fn new(alloc: Global, tap: Tap, formatting: Formatting<F>) -> Drain<Formatters<F>>
        ensures { result ≡ record { name = tap; forms = formatting.forms; taken = []; lines = []; missed = 0 } }
    {
        let Tap { consumer, back: _ } = tap;
        let Formatting { forms, formatters } = formatting;
        Drain {
            consumer,
            taken: 0,
            note_lines: NoteLines {
                forms,
                lines: Vec::new(alloc),
                spare: Vec::new(alloc),
                missed: 0,
            },
            formatters,
        }
    }
}

impl<V: Say> Drain<V> {
    /// Takes the next batch of the ring and tells its notes, in order. None where the ring shows no batch.
    pub fn step(&mut self) -> Option<Step>
        ensures taken { IfSome result (λ step. TakesBatch self.old self.new step) }
        ensures none { IfNone result (self.new ≡ self.old) }
        ensures name { self.new.name ≡ self.old.name }
        ensures forms { self.new.forms ≡ self.old.forms }
    {
        let Drain {
            consumer,
            taken,
            note_lines,
            formatters,
        } = self;
        let Ok(batch) = consumer.pop() else {
            return None;
        };
        let lines = note_lines.lines.len();
        note_lines.tell_all(&*formatters, *taken, batch.notes.as_slice());
        *taken += 1;
        let more = note_lines.lines.len() - lines;
        Some(Step {
            told: more,
            missed: batch.notes.len() - more,
        })
    }

    /// Takes what still stands in the ring, and tells its notes. It needs both ends of the ring in one thread, and
    /// cannot fail: then everything that was sent is taken, in the order of sending.
    pub fn last(&mut self, ring: &mut Ring)
        requires pair { ring.old.name ≡ self.old.name }
        ensures taken { self.new.taken ≡ ring.old.sent }
        ensures before { IsPrefix self.old.taken self.new.taken }
        ensures first { IsPrefix self.old.lines self.new.lines }
        ensures kept { AreKept self.old.forms (numbered ring.old.sent) self.new.lines self.new.missed }
        ensures name { self.new.name ≡ self.old.name }
        ensures forms { self.new.forms ≡ self.old.forms }
        ensures ring { ring.new ≡ record ring.old { free = ring.new.free } }
    {
        let Drain {
            consumer,
            taken,
            note_lines,
            formatters,
        } = self;
        let standing = ring.look_beside(consumer);
        for _ in 0..standing {
            note_lines.take_first(&*formatters, consumer, taken);
        }
    }
}

impl<V> Drain<V> {
    /// Shows that what was taken is the beginning of what was sent. Nothing changes but how many places the ring knows to
    /// be free. It needs both ends of the ring in one thread.
    pub fn show(&mut self, ring: &mut Ring)
        requires pair { ring.old.name ≡ self.old.name }
        ensures taken { IsPrefix self.old.taken ring.old.sent }
        ensures same { self.new ≡ self.old }
        ensures free { ring.old.free ≤ ring.new.free }
        ensures ring { ring.new ≡ record ring.old { free = ring.new.free } }
    {
        ring.look_beside(&mut self.consumer);
    }

    /// The lines of the notes that were taken, in order, but for the notes that were missed. No line has the batch and
    /// the place of a note that was missed; where none was missed, these are the lines of what was taken.
    pub fn all(&self) -> &[Line]
        ensures lines { map plain_line result.now ≡ self.now.lines }
        ensures kept { AreKept self.now.forms (numbered self.now.taken) (map plain_line result.now) self.now.missed }
        ensures apart { (missed : List NumberedNote)
            → AreTold self.now.forms (numbered self.now.taken) (map plain_line result.now) missed
            → All (HasNoLine (map plain_line result.now)) missed }
        ensures whole { self.now.missed ≡ 0 → map plain_line result.now ≡ lines_of self.now.forms self.now.taken }
    {
        self.note_lines.lines.as_slice()
    }

    /// The lines of one layer, in order.
    pub fn lines(&self, layer: u32) -> LayerLines<'_>
        ensures lines { map plain_line result ≡ lines_of_layer layer self.now.lines }
        ensures fits { length result < 2 ^ 64 }
        ensures runs { YieldsRefsInOrder (YieldsFirstRef {A = Line} (λ rest. rest)) (λ rest. rest) }
    {
        LayerLines {
            lines: self.note_lines.lines.as_slice().iter(),
            layer,
        }
    }

    /// How many batches were taken.
    pub fn taken(&self) -> u64
        ensures { result ≡ length self.now.taken }
    {
        self.taken
    }

    /// How many notes were missed. It stays at its greatest value.
    pub fn missed(&self) -> u64
        ensures { result ≡ self.now.missed }
    {
        self.note_lines.missed
    }
}

impl<V: Drop> Drain<V> {
    /// The lines alone; they are moved. They are those of `all`.
    pub fn into_lines(self) -> Vec<Line>
        ensures lines { map plain_line result.items ≡ self.lines }
        ensures kept { AreKept self.forms (numbered self.taken) (map plain_line result.items) self.missed }
        ensures apart { (missed : List NumberedNote)
            → AreTold self.forms (numbered self.taken) (map plain_line result.items) missed
            → All (HasNoLine (map plain_line result.items)) missed }
        ensures whole { self.missed ≡ 0 → map plain_line result.items ≡ lines_of self.forms self.taken }
    {
        let Drain {
            consumer: _,
            taken: _,
            note_lines,
            formatters: _,
        } = self;
        let NoteLines {
            forms: _,
            lines,
            spare: _,
            missed: _,
        } = note_lines;
        lines
    }
}
