//! Texts that needn't be made, since the note before tells another layer the same.
ghost use Rattle.std.specs.Prelude.{true, ◌≡◌, IfSome};
ghost use Rattle.std.specs.Arc.{arc_str_bytes};
ghost use Rattle.span_layers.specs.declared.form.Form.{Form};
ghost use Rattle.span_layers.specs.Note.{plain_event, plain_note};
ghost use Rattle.span_layers.specs.Text.{text_of};
ghost use Rattle.span_outlet.specs.inside.SameText.{EndsWithTextOf, IsTextOf};

use crate::line::Line;
use span_id::Level;
use span_layers::{Forms, Note};
use std::sync::ArcStr;

/// The text of a note, if the last line has it already: that is the line of the note before, if there is one here, and
/// both tell the same in the same form.
#[inline(always)]
pub(crate) fn known_text<'l>(
    forms: &Forms,
    lines: &'l [Line],
    before: Option<&Note>,
    note: &Note,
) -> Option<&'l [u8]>
    requires { IfSome before (λ before. EndsWithTextOf forms.now lines.now before.now) }
    ensures { IfSome result (λ text. IsTextOf forms.now note.now text.now) }
{
    let before = before?;
    if forms.get(before.layer) != forms.get(note.layer) || !tell_the_same(before, note) {
        return None;
    }
    let line = lines.last()?;
    Some(line.text.as_slice())
}

/// Whether two notes differ in their layers at most. What costs least is looked at first.
fn tell_the_same(one: &Note, other: &Note) -> bool
    ensures { result ≡ true → (form : Form) → text_of form (plain_note one.now) ≡ text_of form (plain_note other.now) }
{
    if one.id != other.id || one.kind != other.kind || one.worker != other.worker {
        return false;
    }
    if one.path.as_str() != other.path.as_str() || !say_the_same(&one.event, &other.event) {
        return false;
    }
    one.fields == other.fields
}

/// Whether two events say the same, or neither is one. (It is compared by parts: the proof knows what `==` says of texts,
/// and not what the derived one says of such a pair.)
fn say_the_same(one: &Option<(Level, ArcStr)>, other: &Option<(Level, ArcStr)>) -> bool
    ensures { result ≡ true → plain_event arc_str_bytes one.now ≡ plain_event arc_str_bytes other.now }
{
    match (one, other) {
        (None, None) => true,
        (Some((level, message)), Some((same_level, same_message))) => {
            *level == *same_level && message.as_str() == same_message.as_str()
        }
        _ => false,
    }
}
