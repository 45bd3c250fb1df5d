//! The JSON form of a note: its object, written member by member.

ghost use Rattle.std.specs.Prelude.{◌≡◌, ◌++◌, IfOk, OnOk, OnErr};
ghost use Rattle.json.specs.Tree.{json_tokens};
ghost use Rattle.serde_json.specs.Written.{compact_text, outline};
ghost use Rattle.span_layers.specs.Note.{plain_note};
ghost use Rattle.span_layers.specs.Text.{json_value};
ghost use Rattle.span_layers.specs.inside.Tokens.{Appends, start_tokens, end_tokens};

mod members;
mod pairs;

use crate::json_form::members::{write_event, write_number, write_text};
use crate::json_form::pairs::write_fields;
use crate::note::Note;
use crate::room::json_room;
use json::Writer;
use std::alloc::{AllocError, Global};
use std::mem;

/// The JSON text of a note. It is written into one buffer, with no value in between.
pub(crate) fn json_text(alloc: Global, note: &Note) -> Result<Vec<u8>, AllocError>
    ensures { IfOk result (λ text. text.items ≡ compact_text (json_value (plain_note note.now))) }
{
    let buffer = Vec::with_capacity(alloc, json_room(note))?;
    let mut out = Writer::new(buffer);
    write_note(&mut out, note)?;
    Ok(out.into_inner())
}

/// Appends the JSON text of a note to a buffer, which stays as it was where memory is refused.
pub(crate) fn json_onto(note: &Note, out: &mut Vec<u8>) -> Result<(), AllocError>
    ensures text { OnOk result (out.new.items ≡ out.old.items ++ compact_text (json_value (plain_note note.now))) }
    ensures unchanged { OnErr result (out.new.items ≡ out.old.items) }
{
    out.reserve(json_room(note))?;
    let alloc = *out.allocator();
    let held = out.len();
    let mut writer = Writer::new(mem::replace(out, Vec::new(alloc)));
    let done = write_note(&mut writer, note);
    *out = writer.into_inner();
    match done {
        Ok(()) => Ok(()),
        Err(error) => {
            out.truncate(held);
            Err(error)
        }
    }
}

// Writes the object of a note.
#[tactic(auto, using(crate::proofs::Tokens::note_tokens, std::proofs::Common::append_assoc))]
fn write_note(out: &mut Writer, note: &Note) -> Result<(), AllocError>
    ensures { Appends result out.old out.new (json_tokens (outline (json_value (plain_note note.now)))) }
{
    write_start(out, note)?;
    write_event(out, note)?;
    write_end(out, note)
}

// Writes the bracket and the members up to the kind.
#[tactic(auto, using(std::proofs::Common::append_assoc))]
fn write_start(out: &mut Writer, note: &Note) -> Result<(), AllocError>
    ensures { Appends result out.old out.new (start_tokens (plain_note note.now)) }
{
    out.begin_object()?;
    write_fields(out, note.fields.as_slice())?;
    write_number(out, "id", note.id)?;
    write_text(out, "kind", note.kind.name())
}

// Writes the members from the path on, and the bracket.
#[tactic(auto, using(std::proofs::Common::append_assoc))]
fn write_end(out: &mut Writer, note: &Note) -> Result<(), AllocError>
    ensures { Appends result out.old out.new (end_tokens (plain_note note.now)) }
{
    write_text(out, "path", note.path.as_str())?;
    write_number(out, "worker", u64::from(note.worker))?;
    out.end_object()
}
