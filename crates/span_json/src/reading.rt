//! Reading a text: one without escapes as it comes, any other in one pass over its tokens.
ghost use Rattle.std.specs.Prelude.{◌≡◌, ◌≢◌, [], ◌≤◌, ◌∷◌, length, Some, None, Err, IfOk};
ghost use Rattle.std.specs.Str.{IsUtf8};
ghost use Rattle.json.specs.Reads.{token_of};
ghost use Rattle.serde_json.specs.Data.{no_members};
ghost use Rattle.serde_json.specs.Read.{read};
ghost use Rattle.span_json.specs.Seen.{view, items_view, members_view};
ghost use Rattle.span_json.specs.inside.Parts.{value_in, items_in, members_in};

use crate::numbers::read_number;
use crate::plain::{Stop, read_plain};
use crate::room::{MAX_DEPTH, room};
use crate::value::Value;
use json::{Reader, Scratch, Token};
use std::alloc::Global;

/// Why there is no value.
#[derive(Clone, Copy, Debug, PartialEq, Eq)]
pub enum Unread {
    /// The text is no JSON.
    NotJson,
    /// Memory was refused.
    Memory,
}

/// The value of a text.
pub fn read_value<'t>(
    alloc: Global,
    line: &'t [u8],
    scratch: &'t mut Scratch,
) -> Result<Value<'t>, Unread>
    ensures utf8 { IfOk result (λ value. IsUtf8 line.now) }
    ensures ok { IfOk result (λ value. read line.now ≡ Some (view value)) }
    ensures err { result ≡ Err Unread.NotJson → IsUtf8 line.now → read line.now ≡ None }
{
    let Ok(text) = simdutf8::compat::from_utf8(line) else {
        return Err(Unread::NotJson);
    };
    match read_plain(alloc, text) {
        Ok(value) => Ok(value),
        Err(Stop::Memory) => Err(Unread::Memory),
        Err(Stop::NotPlain) => read_text(alloc, text, scratch),
    }
}

fn read_text<'t>(
    alloc: Global,
    text: &'t str,
    scratch: &'t mut Scratch,
) -> Result<Value<'t>, Unread>
    ensures ok { IfOk result (λ value. read text.now ≡ Some (view value)) }
    ensures err { result ≡ Err Unread.NotJson → read text.now ≡ None }
{
    let mut reader = Reader::new(text, scratch).map_err(|_| Unread::Memory)?;
    let Some(token) = reader.next() else {
        return Err(Unread::NotJson);
    };
    let value = value_from(alloc, token, &mut reader, MAX_DEPTH)?;
    if reader.next().is_some() {
        return Err(Unread::NotJson);
    }
    Ok(value)
}

// The value that begins with this token, which was taken from the reader before. Reading ends with the value, or at
// the first token that is wrong there, be it only that its number is out of range.
#[cycle(reading)]
#[tactic(auto, using(crate::proofs::Begun::null_begun, crate::proofs::Begun::boolean_begun, crate::proofs::Begun::text_begun, crate::proofs::Begun::list_too_deep, crate::proofs::Begun::object_too_deep))]
#[inline(always)]
fn value_from<'t>(
    alloc: Global,
    token: Token<'t>,
    reader: &mut Reader<'t>,
    depth: usize,
) -> Result<Value<'t>, Unread>
    ensures ok { IfOk result (λ v. value_in depth (token_of token.entry ∷ reader.old) ≡ Some (view v, reader.new)) }
    ensures err { result ≡ Err Unread.NotJson → value_in depth (token_of token.entry ∷ reader.old) ≡ None }
    ensures no_longer { length reader.new ≤ length reader.old }
{
    match token {
        Token::Null => Ok(Value::Null),
        Token::Bool(b) => Ok(Value::Bool(b)),
        Token::String(text) => Ok(Value::Text(text)),
        Token::Number(text) => match read_number(text) {
            Some(number) => Ok(Value::Number(number)),
            None => Err(Unread::NotJson),
        },
        Token::BeginArray => {
            if depth == 0 {
                return Err(Unread::NotJson);
            }
            Ok(Value::List(list_items(alloc, reader, depth - 1)?))
        }
        Token::BeginObject => {
            if depth == 0 {
                return Err(Unread::NotJson);
            }
            Ok(Value::Object(object_members(alloc, reader, depth - 1)?))
        }
        Token::EndArray | Token::EndObject | Token::Key(_) | Token::Bad => Err(Unread::NotJson),
    }
}

// The items up to the list's end.
#[cycle(reading)]
#[inline(never)]
fn list_items<'t>(
    alloc: Global,
    reader: &mut Reader<'t>,
    depth: usize,
) -> Result<Vec<Value<'t>>, Unread>
    ensures ok { IfOk result (λ v. items_in depth (length reader.old) reader.old ≡ Some (items_view v.items, reader.new)) }
    ensures err { result ≡ Err Unread.NotJson → items_in depth (length reader.old) reader.old ≡ None }
    ensures no_longer { length reader.new ≤ length reader.old }
{
    let mut items = Vec::new(alloc);
    while let Some(token) = reader.next() {
        if let Token::EndArray = token {
            return Ok(items);
        }
        let item = value_from(alloc, token, reader, depth)?;
        if items.push(item).is_err() {
            return Err(Unread::Memory);
        }
    }
    Err(Unread::NotJson)
}

// The members up to the object's end.
#[cycle(reading)]
#[tactic(auto, using(crate::proofs::Turns::object_empty, crate::proofs::Turns::object_wrong))]
#[inline(never)]
fn object_members<'t>(
    alloc: Global,
    reader: &mut Reader<'t>,
    depth: usize,
) -> Result<Vec<(&'t str, Value<'t>)>, Unread>
    ensures ok { IfOk result
        (λ v. members_in depth (length reader.old) no_members reader.old ≡ Some (members_view v.items no_members, reader.new)) }
    ensures err { result ≡ Err Unread.NotJson → members_in depth (length reader.old) no_members reader.old ≡ None }
    ensures no_longer { length reader.new ≤ length reader.old }
{
    let Ok(mut members) = room(alloc, depth) else {
        return Err(Unread::Memory);
    };
    while let Some(token) = reader.next() {
        let key = match token {
            Token::Key(key) => key,
            Token::EndObject => return Ok(members),
            _ => return Err(Unread::NotJson),
        };
        let Some(first) = reader.next() else {
            return Err(Unread::NotJson);
        };
        let member = value_from(alloc, first, reader, depth)?;
        if members.push((key, member)).is_err() {
            return Err(Unread::Memory);
        }
    }
    Err(Unread::NotJson)
}
