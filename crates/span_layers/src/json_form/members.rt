//! The members of a note's object that have a text or a number.

ghost use Rattle.std.specs.Prelude.{codes, ◌++◌};
ghost use Rattle.std.specs.Arc.{arc_str_bytes};
ghost use Rattle.serde_json.specs.Data.{number, string, unsigned};
ghost use Rattle.span_layers.specs.Note.{shown, plain_event};
ghost use Rattle.span_layers.specs.inside.Tokens.{Appends, member_tokens, event_tokens};

use crate::note::{Kind, Note};
use json::Writer;
use std::alloc::AllocError;

/// Writes a name with a text.
pub(super) fn write_text(out: &mut Writer, name: &str, text: &str) -> Result<(), AllocError>
    ensures { Appends result out.old out.new (member_tokens name.now (string text.now)) }
{
    out.key(name)?;
    out.string(text)
}

/// Writes a name with a number.
pub(super) fn write_number(out: &mut Writer, name: &str, value: u64) -> Result<(), AllocError>
    ensures { Appends result out.old out.new (member_tokens name.now (number (unsigned value))) }
{
    out.key(name)?;
    out.u64(value)
}

/// Writes an event's level and message, and of other notes nothing.
pub(super) fn write_event(out: &mut Writer, note: &Note) -> Result<(), AllocError>
    ensures { Appends result out.old out.new (event_tokens (shown note.now.kind (plain_event arc_str_bytes note.now.event))) }
{
    match (note.kind, &note.event) {
        (Kind::OnEvent, Some((level, message))) => {
            write_message(out, level.name(), message.as_str())
        }
        _ => Ok(()),
    }
}

fn write_message(out: &mut Writer, level: &str, message: &str) -> Result<(), AllocError>
    ensures { Appends result out.old out.new
        (member_tokens (codes "level") (string level.now)
        ++ member_tokens (codes "message") (string message.now)) }
{
    write_text(out, "level", level)?;
    write_text(out, "message", message)
}
