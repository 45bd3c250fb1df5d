//! The fields that a line gives.
ghost use Rattle.std.specs.Prelude.{◌≡◌, codes, [], IfOk, Result, map, MatchResult};
ghost use Rattle.std.specs.Option.{option_map};
ghost use Rattle.span_script.specs.Reason.{AnswersOrStops, or_fault};
ghost use Rattle.span_script.specs.Operation.{optional, field_list_in, field_in};
ghost use Rattle.span_id.specs.Meta.{key_value};

use crate::key::Key;
use crate::line_value::JsonValue;
use crate::pairs::pair;
use crate::reason::Reason;
use crate::stop::Stop;
use span_id::{Field, Fields};
use std::alloc::{AllocError, Global};

/// The fields that a line gives, none where it has no such key.
pub fn fields<'v, V: JsonValue<'v>>(alloc: Global, line: V) -> Result<Fields, Stop>
    ensures { AnswersOrStops (λ fields. fields) result (optional Key.Fields field_list_in [] (V.json line)) }
{
    let Some(value) = line.member(Key::Fields.text()) else {
        return Ok(Fields::none());
    };
    let list = all_fields(alloc, value)?;
    Fields::new(alloc, list).map_err(|_| Stop::Memory)
}

/// The fields that the items of a list are.
fn all_fields<'v, V: JsonValue<'v>>(alloc: Global, list: V) -> Result<Vec<Field>, Stop>
    ensures { AnswersOrStops (λ fields. map key_value fields.items) result
        (or_fault (field_list_in (V.json list)) (Reason.BadKey Key.Fields)) }
{
    let Some(count) = list.count() else {
        return Err(Stop::Refused(Reason::BadKey(Key::Fields)));
    };
    let mut fields = Vec::with_capacity(alloc, count)?;
    for place in 0..count {
        let Some((key, value)) = pair_of_texts(list.item(place)) else {
            return Err(Stop::Refused(Reason::BadKey(Key::Fields)));
        };
        fields.push(field(alloc, key, value)?)?;
    }
    Ok(fields)
}

/// A list of two texts.
fn pair_of_texts<'v, V: JsonValue<'v>>(value: V) -> Option<(&'v str, &'v str)>
    ensures { option_map (λ pair. (pair.0.now, pair.1.now)) result ≡ field_in (V.json value) }
{
    let (key, value) = pair(value)?;
    Some((key.text()?, value.text()?))
}

/// A field of these texts.
fn field(alloc: Global, key: &str, value: &str) -> Result<Field, AllocError>
    ensures { IfOk result (λ field. key_value field ≡ (key.now, value.now)) }
{
    Ok(Field {
        key: String::from_str(alloc, key)?,
        value: String::from_str(alloc, value)?,
    })
}
