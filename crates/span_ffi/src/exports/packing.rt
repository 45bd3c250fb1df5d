//! How texts and the fields of a span or a note go into the buffers of C.
ghost use Rattle.std.specs.Prelude.{◌≡◌, ◌<◌, ◌≤◌, ◌+◌, ◌^◌, ◌++◌, ◌∷◌, true, if◌then◌else◌, is_some, Some, None, IfSome, All, length, take, drop, map};
ghost use Rattle.std.specs.List.{list_all};
ghost use Rattle.std.specs.Str.{IsUtf8};
ghost use Rattle.span_id.specs.Meta.{plain_fields, key_value};
ghost use Rattle.span_ffi.specs.Details.{packed, are_short, texts_fit_in_c, field_lengths};
ghost use Rattle.span_ffi.specs.inside.Packing.{AreTexts, WritesAt};

use crate::data::SpanField;
use span_id::Field;

// How long two texts are. None: one is too long for its number.
fn pair_len(first: &str, second: &str) -> Option<usize>
    ensures { result ≡ (if are_short (first.now, second.now) then Some (length first.now + length second.now) else None) }
{
    if first.len() > u32::MAX as usize || second.len() > u32::MAX as usize {
        return None;
    }
    Some(first.len() + second.len())
}

/// How long two texts and those of fields are. None: one is too long for its number, or all together are.
pub(crate) fn texts_len(first: &str, second: &str, fields: &[Field]) -> Option<usize>
    ensures exact { is_some result ≡ texts_fit_in_c ((first.now, second.now) ∷ plain_fields fields.now) }
    ensures len { IfSome result (λ len. len ≡ length (packed ((first.now, second.now) ∷ plain_fields fields.now))) }
{
    let mut len = pair_len(first, second)?;
    for field in fields {
        let more = pair_len(&field.key, &field.value)?;
        len = len.checked_add(more)?;
    }
    Some(len)
}

// Writes a text at a place, and tells the place behind it.
fn write_text(text: &str, into: &mut [u8], at: usize) -> usize
    requires { at + length text.now ≤ length into.old }
    ensures written { WritesAt text.now at into.old into.new result }
    ensures utf8 { IsUtf8 text.now }
{
    let end = at + text.len();
    into[at..end].copy_from_slice(text.as_bytes());
    end
}

// Writes two texts.
fn write_pair(first: &str, second: &str, into: &mut [u8], at: usize) -> usize
    requires { at + length (first.now ++ second.now) ≤ length into.old }
    ensures written { WritesAt (first.now ++ second.now) at into.old into.new result }
    ensures utf8 { AreTexts (first.now, second.now) }
{
    let behind = write_text(first, into, at);
    write_text(second, into, behind)
}

// Writes the keys and values of fields.
fn write_fields(fields: &[Field], into: &mut [u8], at: usize) -> usize
    requires { at + length (packed (plain_fields fields.now)) ≤ length into.old }
    ensures written { WritesAt (packed (plain_fields fields.now)) at into.old into.new result }
    ensures utf8 { All AreTexts (plain_fields fields.now) }
{
    let mut end = at;
    for field in fields {
        end = write_pair(&field.key, &field.value, into, end);
    }
    end
}

/// Writes two texts and those of fields to the beginning of a buffer.
pub(crate) fn write_texts(first: &str, second: &str, fields: &[Field], into: &mut [u8])
    requires { length (packed ((first.now, second.now) ∷ plain_fields fields.now)) ≤ length into.old }
    ensures written { WritesAt (packed ((first.now, second.now) ∷ plain_fields fields.now)) 0 into.old into.new
        (length (packed ((first.now, second.now) ∷ plain_fields fields.now))) }
    ensures utf8 { All AreTexts ((first.now, second.now) ∷ plain_fields fields.now) }
{
    let behind = write_pair(first, second, into, 0);
    write_fields(fields, into, behind);
}

/// How long a text is.
pub(crate) fn len_of(text: &str) -> u32
    requires { length text.now < 2 ^ 32 }
    ensures { result ≡ length text.now }
{
    text.len() as u32
}

fn lengths_of(field: &Field) -> SpanField
    requires { are_short (key_value field.now) ≡ true }
    ensures { result ≡ field_lengths (key_value field.now) }
{
    SpanField {
        key_len: len_of(&field.key),
        value_len: len_of(&field.value),
    }
}

/// Writes the lengths of fields to the beginning of a buffer.
pub(crate) fn write_lengths(fields: &[Field], into: &mut [SpanField])
    requires short { list_all are_short (plain_fields fields.now) ≡ true }
    requires room { length fields.now ≤ length into.old }
    ensures lengths { take (length fields.now) into.new ≡ map field_lengths (plain_fields fields.now) }
    ensures behind { drop (length fields.now) into.new ≡ drop (length fields.now) into.old }
{
    for (place, field) in fields.iter().enumerate() {
        into[place] = lengths_of(field);
    }
}
