//! The requests for the memory of a line. They alone may say that it was refused, so each only asks and hands the answer
//! on.
ghost use Rattle.std.specs.Prelude.{◌≡◌, ◌≤◌, ◌++◌, ◌∷◌, [], IfOk, OnOk, OnErr, length, vec_capacity};
ghost use Rattle.span_layers.specs.Note.{plain_note};
ghost use Rattle.span_layers.specs.Text.{text_of};
ghost use Rattle.span_outlet.specs.Kept.{LacksMemory};

use crate::line::Line;
use span_layers::{Form, Note, Say};
use std::alloc::AllocError;

/// Where a note stands in the history.
#[derive(Clone, Copy)]
pub(crate) struct Place {
    /// The number of its batch, from 0.
    pub(crate) batch: u64,
    /// Its place in the batch, from 0.
    pub(crate) place: u32,
}

impl Place {
    /// What `Say::say` answers of the note that stands here.
    pub(crate) fn say<V: Say>(
        self,
        formatters: &V,
        form: Form,
        note: &Note,
    ) -> Result<Vec<u8>, AllocError>
        ensures text { IfOk result (λ text. text.items ≡ text_of form (plain_note note.now)) }
        ensures refused { OnErr result (LacksMemory self.batch self.place) }
    {
        formatters.say(form, note)
    }

    /// What `Say::say_onto` answers of the note that stands here.
    pub(crate) fn say_onto<V: Say>(
        self,
        formatters: &V,
        form: Form,
        note: &Note,
        out: &mut Vec<u8>,
    ) -> Result<(), AllocError>
        ensures text { OnOk result (out.new.items ≡ out.old.items ++ text_of form (plain_note note.now)) }
        ensures refused { OnErr result (LacksMemory self.batch self.place) }
    {
        formatters.say_onto(form, note, out)
    }

    /// Appends a text that is known to be that of the note which stands here.
    pub(crate) fn append(self, text: &[u8], out: &mut Vec<u8>) -> Result<(), AllocError>
        ensures text { OnOk result (out.new.items ≡ out.old.items ++ text.now) }
        ensures refused { OnErr result (LacksMemory self.batch self.place) }
    {
        out.extend_from_slice(text)
    }
}

/// Puts a line behind the others. Only where the list is full can that be refused, and then the line is dropped.
pub(crate) fn keep(lines: &mut Vec<Line>, line: Line) -> Result<(), AllocError>
    ensures kept { OnOk result (lines.new.items ≡ lines.old.items ++ line ∷ []) }
    ensures unchanged { OnErr result (lines.new.items ≡ lines.old.items) }
    ensures full { OnErr result (vec_capacity lines.old ≤ length lines.old.items) }
    ensures refused { OnErr result (LacksMemory line.batch line.place) }
{
    lines.push(line)?;
    Ok(())
}
