//! Looking into a value.
ghost use Rattle.std.specs.Prelude.{◌≡◌, is_some, option_and_then};
ghost use Rattle.std.specs.Option.{option_map};
ghost use Rattle.serde_json.specs.Data.{no_members};
ghost use Rattle.serde_json.specs.Find.{get, get_member, as_null, as_number, as_u64, as_str, as_array, as_object};
ghost use Rattle.span_json.specs.Seen.{view, items_view, members_view};

use crate::value::{Number, Value};

/// The value of a key, where this is an object that has it.
pub fn member<'v, 't>(value: &'v Value<'t>, key: &str) -> Option<&'v Value<'t>>
    ensures { option_map (λ member. view member.now) result ≡ get key.now (view value.now) }
{
    match value {
        Value::Object(members) => last_of(members, key),
        _ => None,
    }
}

// The last value of a key.
fn last_of<'v, 't>(members: &'v Vec<(&'t str, Value<'t>)>, key: &str) -> Option<&'v Value<'t>>
    ensures { option_map (λ member. view member.now) result ≡ get_member key.now (members_view members.now.items no_members) }
{
    for place in (0..members.len()).rev() {
        let member = &members[place];
        if member.0 == key {
            return Some(&member.1);
        }
    }
    None
}

/// The text, where this is one.
pub fn as_str<'t>(value: &Value<'t>) -> Option<&'t str>
    ensures { option_map (λ text. text.now) result ≡ as_str (view value.now) }
{
    match value {
        Value::Text(text) => Some(*text),
        _ => None,
    }
}

/// The number, where this is one that is written in digits alone and below 2^64.
pub fn as_u64(value: &Value<'_>) -> Option<u64>
    ensures { result ≡ option_and_then as_u64 (as_number (view value.now)) }
{
    match value {
        Value::Number(Number::Whole(number)) => Some(*number),
        _ => None,
    }
}

/// The items, where this is a list.
pub fn as_array<'v, 't>(value: &'v Value<'t>) -> Option<&'v Vec<Value<'t>>>
    ensures { option_map (λ items. items_view items.now.items) result ≡ as_array (view value.now) }
{
    match value {
        Value::List(items) => Some(items),
        _ => None,
    }
}

pub fn is_null(value: &Value<'_>) -> bool
    ensures { result ≡ is_some (as_null (view value.now)) }
{
    matches!(value, Value::Null)
}

pub fn is_object(value: &Value<'_>) -> bool
    ensures { result ≡ is_some (as_object (view value.now)) }
{
    matches!(value, Value::Object(_))
}
