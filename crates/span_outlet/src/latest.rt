//! The outlet that writes the notes of a batch at once, and keeps its lines until the next one.
ghost use Rattle.std.specs.Prelude.{◌≡◌, ◌-◌, ◌^◌, ◌<◌, ◌++◌, ◌∷◌, [], true, None, Ok, IsOk, false, IfSome, map, length};
ghost use Rattle.span_outlet.specs.Batch.{plain_batch};
ghost use Rattle.span_outlet.specs.KnownEvent.{batch_of_known};
ghost use Rattle.span_outlet.specs.KnownRelease.{batch_of_known_release};
ghost use Rattle.span_outlet.specs.KnownSpan.{batch_of_known_span};
ghost use Rattle.span_outlet.specs.Lines.{plain_line};
ghost use Rattle.span_outlet.specs.Kept.{GainsLines, numbered_in};
ghost use Rattle.span_outlet.specs.Latest.{last_lines};
ghost use Rattle.span_outlet.specs.Posted.{plain_posted};

use crate::batch::Batch;
use crate::known_event::KnownEvent;
use crate::known_release::KnownRelease;
use crate::known_span::KnownSpan;
use crate::line::Line;
use crate::note_lines::{NoteLines, recycle};
use crate::outlet::Outlet;
use crate::past::Past;
use crate::posted::Posted;
use span_layers::{Formatters, Formatting, Forms, Note, Say};
use std::alloc::{AllocError, Global};
use std::marker::Model;

// A list with room for more notes than this is freed.
const MOST_NOTES: usize = 16;

/// An outlet that keeps no batch, and of the last one the lines of its notes.
///
/// It always has room for one more batch. A note is missed as in a `Kept`, and `missed` counts those that were missed
/// so far. `V` makes the texts, in buffers that are used again.
#[derive(Drop)]
pub struct Latest<V = Formatters> {
    past: Past,
    // How many batches were sent.
    count: u64,
    note_lines: NoteLines,
    // The list of the notes that were told last, for notes to come.
    list: Option<Vec<Note>>,
    ready: bool,
    formatters: V,
}

impl<V> Model for Latest<V> {
    ghost use Rattle.std.specs.Prelude.{◌≡◌, map, length};
    ghost use Rattle.span_outlet.specs.Past.{batches_of};
    ghost use Rattle.span_outlet.specs.Lines.{LinesView, plain_line};
    ghost use Rattle.span_outlet.specs.Latest.{last_lines};

    ghost Value = { LinesView };

    ghost view = { λ k. record {
      forms = k.note_lines.forms;
      sent = batches_of k.past;
      lines = map plain_line k.note_lines.lines.items;
      missed = k.note_lines.missed;
      ready = k.ready;
    } };

    ghost invariant = { λ k. (k.count ≡ length (batches_of k.past))
        × (k.note_lines.missed ≡ 0 → map plain_line k.note_lines.lines.items ≡ last_lines k.note_lines.forms (batches_of k.past)) };
}

impl<F: Drop> Latest<Formatters<F>> {
    /// An outlet to which nothing was sent, and which writes in this formatting. It takes no memory.
    pub fn new(alloc: Global, formatting: Formatting<F>) -> Latest<Formatters<F>>
        ensures { result ≡ record { forms = formatting.forms; sent = []; lines = []; missed = 0; ready = false } }
    {
        let Formatting { forms, formatters } = formatting;
        Latest::with_formatters(alloc, forms, formatters)
    }
}

impl<V: Drop> Latest<V> {
    /// An outlet as `new` makes it, in which `formatters` makes the texts, whatever it is.
    pub fn with_formatters(alloc: Global, forms: Forms, formatters: V) -> Latest<V>
        ensures { result ≡ record { forms = forms; sent = []; lines = []; missed = 0; ready = false } }
    {
        Latest {
            past: Past::Nothing,
            count: 0,
            note_lines: NoteLines {
                forms,
                lines: Vec::new(alloc),
                spare: Vec::new(alloc),
                missed: 0,
            },
            list: None,
            ready: false,
            formatters,
        }
    }
}

impl<V> Latest<V> {
    /// The lines of the notes of the last batch, in order, but for the notes that were missed.
    pub fn lines(&self) -> &[Line]
        ensures lines { map plain_line result.now ≡ self.now.lines }
        ensures whole { self.now.missed ≡ 0 → map plain_line result.now ≡ last_lines self.now.forms self.now.sent }
    {
        self.note_lines.lines.as_slice()
    }

    /// How many batches were sent.
    pub fn sent(&self) -> u64
        ensures { result ≡ length self.now.sent }
    {
        self.count
    }

    /// How many notes were missed so far. It stays at its greatest value.
    pub fn missed(&self) -> u64
        ensures { result ≡ self.now.missed }
    {
        self.note_lines.missed
    }
}

impl<V: Say> Outlet for Latest<V> {
    ghost sent = { λ k. k.sent };

    ghost ready = { λ k. k.ready };

    ghost times_full = { λ k. 0 };

    ghost forms = { λ k. k.forms };

    ghost name = { λ k. None };

    /// There is always a place for one more batch, and it takes no memory.
    fn room(&mut self) -> Result<bool, AllocError>
        ensures same { self.new ≡ record self.old { ready = true } }
        ensures ready { result ≡ Ok true }
    {
        self.ready = true;
        Ok(true)
    }

    /// The lines are those of the notes of the batch, in order, but for the notes that are missed, which are counted.
    fn put(&mut self, batch: Batch)
        requires ready { self.old.ready ≡ true }
        requires countable { length self.old.sent < 2 ^ 64 - 1 }
        ensures sent { self.new.sent ≡ self.old.sent ++ plain_batch batch ∷ [] }
        ensures forms { self.new.forms ≡ self.old.forms }
        ensures ready { self.new.ready ≡ false }
        ensures told { GainsLines self.old.forms (numbered_in (length self.old.sent) (plain_batch batch))
            [] self.old.missed self.new.lines self.new.missed }
    {
        self.tell(Posted::of_batch(batch));
    }

    /// The lines are those of these notes, in order, but for the notes that are missed, which are counted.
    fn put_event(&mut self, event: KnownEvent, notes: Vec<Note>) -> Result<(), Vec<Note>>
        requires ready { self.old.ready ≡ true }
        requires countable { length self.old.sent < 2 ^ 64 - 1 }
        ensures taken { IsOk result }
        ensures sent { self.new.sent ≡ self.old.sent ++ batch_of_known event notes.items ∷ [] }
        ensures forms { self.new.forms ≡ self.old.forms }
        ensures ready { self.new.ready ≡ false }
        ensures told { GainsLines self.old.forms
            (numbered_in (length self.old.sent) (batch_of_known event notes.items))
            [] self.old.missed self.new.lines self.new.missed }
    {
        self.tell(Posted::of_event(event, notes));
        Ok(())
    }

    /// The lines are those of these notes, as in `put_event`.
    fn put_span(&mut self, span: KnownSpan, notes: Vec<Note>) -> Result<(), Vec<Note>>
        requires ready { self.old.ready ≡ true }
        requires countable { length self.old.sent < 2 ^ 64 - 1 }
        ensures taken { IsOk result }
        ensures sent { self.new.sent ≡ self.old.sent ++ batch_of_known_span span notes.items ∷ [] }
        ensures forms { self.new.forms ≡ self.old.forms }
        ensures ready { self.new.ready ≡ false }
        ensures told { GainsLines self.old.forms
            (numbered_in (length self.old.sent) (batch_of_known_span span notes.items))
            [] self.old.missed self.new.lines self.new.missed }
    {
        self.tell(Posted::of_span(span, notes));
        Ok(())
    }

    /// The lines are those of these notes, as in `put_event`.
    fn put_release(&mut self, release: KnownRelease, notes: Vec<Note>) -> Result<(), Vec<Note>>
        requires ready { self.old.ready ≡ true }
        requires countable { length self.old.sent < 2 ^ 64 - 1 }
        ensures taken { IsOk result }
        ensures sent { self.new.sent ≡ self.old.sent ++ batch_of_known_release release notes.items ∷ [] }
        ensures forms { self.new.forms ≡ self.old.forms }
        ensures ready { self.new.ready ≡ false }
        ensures told { GainsLines self.old.forms
            (numbered_in (length self.old.sent) (batch_of_known_release release notes.items))
            [] self.old.missed self.new.lines self.new.missed }
    {
        self.tell(Posted::of_release(release, notes));
        Ok(())
    }

    /// The list of the notes that were told last, unless it was given out.
    fn spare_notes(&mut self) -> Option<Vec<Note>>
        ensures empty { IfSome result (λ list. list.items ≡ []) }
        ensures same { self.new ≡ self.old }
    {
        let mut list = self.list.take()?;
        list.clear();
        Some(list)
    }

    /// None is kept.
    fn keeps_batches(&self) -> bool {
        false
    }
}

impl<V: Say> Latest<V> {
    // One batch more is known, and its notes are told in place of those of the batch before.
    fn tell(&mut self, batch: Posted)
        requires countable { length self.old.sent < 2 ^ 64 - 1 }
        ensures sent { self.new.sent ≡ self.old.sent ++ plain_posted batch ∷ [] }
        ensures forms { self.new.forms ≡ self.old.forms }
        ensures ready { self.new.ready ≡ false }
        ensures told { GainsLines self.old.forms (numbered_in (length self.old.sent) (plain_posted batch))
            [] self.old.missed self.new.lines self.new.missed }
    {
        let Latest {
            past,
            count,
            note_lines,
            list,
            ready,
            formatters,
        } = self;
        recycle(&mut note_lines.lines, &mut note_lines.spare);
        note_lines.tell_all(&*formatters, *count, batch.notes.as_slice());
        *ready = false;
        *count += 1;
        past.add(&batch);
        let Posted { said: _, notes } = batch;
        keep_list(list, notes);
    }
}

// Keeps the list of notes that were told, without them, if it has some room and not too much.
fn keep_list(kept: &mut Option<Vec<Note>>, notes: Vec<Note>) {
    let room = notes.capacity();
    if room == 0 || room > MOST_NOTES {
        return;
    }
    let mut list = notes;
    list.clear();
    *kept = Some(list);
}
