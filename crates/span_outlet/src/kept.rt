//! The outlet that keeps the batches and writes their notes at once.
ghost use Rattle.std.specs.Prelude.{◌≡◌, ◌-◌, ◌^◌, ◌<◌, ◌++◌, ◌∷◌, [], List, true, false, None, IfOk, OnErr, map, length, All};
ghost use Rattle.span_outlet.specs.Batch.{plain_batch};
ghost use Rattle.span_outlet.specs.Lines.{lines_of, plain_line};
ghost use Rattle.span_outlet.specs.Kept.{AreKept, AreTold, GainsLines, HasNoLine, NumberedNote, numbered, numbered_in};

use crate::batch::Batch;
use crate::line::Line;
use crate::note_lines::NoteLines;
use crate::outlet::Outlet;
use span_layers::{Formatters, Formatting, Say};
use std::alloc::{AllocError, Global};
use std::marker::Model;

/// An outlet that keeps the batches, and at once the lines of their notes.
///
/// It always has room for one more batch or lacks memory. A note is missed where its layer has no form, where its text
/// or the place of its line was refused memory, or where more than 2^32 - 1 notes stand before it in its batch. No line
/// has the place of a missed note, and `missed` counts them. `V` makes the texts.
#[derive(Drop)]
pub struct Kept<V = Formatters> {
    batches: Vec<Batch>,
    note_lines: NoteLines,
    ready: bool,
    formatters: V,
}

impl<V> Model for Kept<V> {
    ghost use Rattle.std.specs.Prelude.{◌≡◌, ◌<◌, true, map, vec_len, vec_capacity};
    ghost use Rattle.span_outlet.specs.Batch.{plain_batch};
    ghost use Rattle.span_outlet.specs.Lines.{LinesView, plain_line};
    ghost use Rattle.span_outlet.specs.Kept.{AreKept, numbered};

    ghost Value = { LinesView };

    ghost view = { λ k. record {
      forms = k.note_lines.forms;
      sent = map plain_batch k.batches.items;
      lines = map plain_line k.note_lines.lines.items;
      missed = k.note_lines.missed;
      ready = k.ready;
    } };

    ghost invariant = { λ k.
        AreKept k.note_lines.forms (numbered (map plain_batch k.batches.items)) (map plain_line k.note_lines.lines.items)
        k.note_lines.missed
        × (k.ready ≡ true → vec_len k.batches < vec_capacity k.batches) };
}

impl<F: Drop> Kept<Formatters<F>> {
    /// An outlet to which nothing was sent, and which writes in this formatting. It takes no memory.
    pub fn new(alloc: Global, formatting: Formatting<F>) -> Kept<Formatters<F>>
        ensures { result ≡ record { forms = formatting.forms; sent = []; lines = []; missed = 0; ready = false } }
    {
        let Formatting { forms, formatters } = formatting;
        Kept {
            batches: Vec::new(alloc),
            note_lines: NoteLines {
                forms,
                lines: Vec::new(alloc),
                spare: Vec::new(alloc),
                missed: 0,
            },
            ready: false,
            formatters,
        }
    }
}

impl<V> Kept<V> {
    /// The batches sent so far.
    pub fn batches(&self) -> &[Batch]
        ensures { map plain_batch result.now ≡ self.now.sent }
    {
        self.batches.as_slice()
    }

    /// The lines of the notes sent so far, in order, but for the notes that were missed. No line has the batch and the
    /// place of a note that was missed; where none was missed, these are the lines of the history.
    pub fn all(&self) -> &[Line]
        ensures lines { map plain_line result.now ≡ self.now.lines }
        ensures kept { AreKept self.now.forms (numbered self.now.sent) (map plain_line result.now) self.now.missed }
        ensures apart { (missed : List NumberedNote)
            → AreTold self.now.forms (numbered self.now.sent) (map plain_line result.now) missed
            → All (HasNoLine (map plain_line result.now)) missed }
        ensures whole { self.now.missed ≡ 0 → map plain_line result.now ≡ lines_of self.now.forms self.now.sent }
    {
        self.note_lines.lines.as_slice()
    }

    /// How many notes were missed. It stays at its greatest value.
    pub fn missed(&self) -> u64
        ensures { result ≡ self.now.missed }
    {
        self.note_lines.missed
    }
}

impl<V: Drop> Kept<V> {
    /// The lines alone; they are moved. They are those of `all`.
    pub fn into_lines(self) -> Vec<Line>
        ensures lines { map plain_line result.items ≡ self.lines }
        ensures kept { AreKept self.forms (numbered self.sent) (map plain_line result.items) self.missed }
        ensures apart { (missed : List NumberedNote)
            → AreTold self.forms (numbered self.sent) (map plain_line result.items) missed
            → All (HasNoLine (map plain_line result.items)) missed }
        ensures whole { self.missed ≡ 0 → map plain_line result.items ≡ lines_of self.forms self.sent }
    {
        let Kept {
            batches: _,
            note_lines,
            ready: _,
            formatters: _,
        } = self;
        let NoteLines {
            forms: _,
            lines,
            spare: _,
            missed: _,
        } = note_lines;
        lines
    }
}

impl<V: Say> Outlet for Kept<V> {
    ghost sent = { λ k. k.sent };

    ghost ready = { λ k. k.ready };

    ghost times_full = { λ k. 0 };

    ghost forms = { λ k. k.forms };

    ghost name = { λ k. None };

    /// There is always a place for one more batch, unless memory is refused. No line comes or goes.
    fn room(&mut self) -> Result<bool, AllocError>
        ensures same { self.new ≡ record self.old { ready = self.new.ready } }
        ensures ready { IfOk result (λ yes. (yes ≡ true) × (self.new.ready ≡ true)) }
        ensures not_ready { OnErr result (self.new.ready ≡ false) }
    {
        self.ready = false;
        self.batches.try_reserve(1)?;
        self.ready = true;
        Ok(true)
    }

    /// The lines gain those of the notes of the batch, at the end and in order, but for the notes that are missed,
    /// which are counted.
    fn put(&mut self, batch: Batch)
        requires ready { self.old.ready ≡ true }
        requires countable { length self.old.sent < 2 ^ 64 - 1 }
        ensures sent { self.new.sent ≡ self.old.sent ++ plain_batch batch ∷ [] }
        ensures forms { self.new.forms ≡ self.old.forms }
        ensures ready { self.new.ready ≡ false }
        ensures told { GainsLines self.old.forms (numbered_in (length self.old.sent) (plain_batch batch))
            self.old.lines self.old.missed self.new.lines self.new.missed }
    {
        let Kept {
            batches,
            note_lines,
            ready,
            formatters,
        } = self;
        note_lines.tell_all(&*formatters, batches.len() as u64, batch.notes.as_slice());
        *ready = false;
        batches.push_reserved(batch);
    }
}
