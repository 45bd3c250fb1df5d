//! Reading a text without an index of its tokens, where it is plain: it has no escapes. So are most lines of scripts.
ghost use Rattle.std.specs.Prelude.{◌≡◌, false, IfOk, Some};
ghost use Rattle.json.specs.Lex.{begins_colon, between, lex};
ghost use Rattle.json.specs.Word.{head};
ghost use Rattle.serde_json.specs.Data.{no_members};
ghost use Rattle.serde_json.specs.Read.{read};
ghost use Rattle.span_json.specs.Seen.{view, items_view, members_view};
ghost use Rattle.span_json.specs.inside.Plain.{ReadsItems, ReadsMember, ReadsMembers, ReadsValue};

use crate::numbers::read_number;
use crate::plain_text::PlainText;
use crate::room::{MAX_DEPTH, room};
use crate::value::Value;
use memchr::memchr;
use std::alloc::Global;

/// Why a text wasn't read.
pub(crate) enum Stop {
    /// It has an escape, or is no JSON.
    NotPlain,
    /// Memory was refused.
    Memory,
}

// Up to so many bytes are read sooner than searched for an escape first.
const SHORT: usize = 64;

/// The value of a plain text.
pub(crate) fn read_plain<'t>(alloc: Global, text: &'t str) -> Result<Value<'t>, Stop>
    ensures { IfOk result (λ value. read text.now ≡ Some (view value)) }
{
    if text.len() > SHORT && memchr(b'\\', text.as_bytes()).is_some() {
        return Err(Stop::NotPlain);
    }
    let mut text = PlainText::new(text);
    let value = read_value(alloc, &mut text, MAX_DEPTH)?;
    text.skip_spaces();
    if text.is_empty() {
        Ok(value)
    } else {
        Err(Stop::NotPlain)
    }
}

#[cycle(plain)]
#[inline(always)]
fn read_value<'t>(alloc: Global, text: &mut PlainText<'t>, depth: usize) -> Result<Value<'t>, Stop>
    ensures { IfOk result (λ value. begins_colon (lex between text.new) ≡ false →
        ReadsValue depth (lex between text.old) (view value) (lex between text.new)) }
{
    text.skip_spaces();
    match text.peek() {
        b'"' => match text.text() {
            Some(text) => Ok(Value::Text(text)),
            None => Err(Stop::NotPlain),
        },
        b'0'..=b'9' | b'-' => {
            let Some(number) = text.number() else {
                return Err(Stop::NotPlain);
            };
            match read_number(number) {
                Some(number) => Ok(Value::Number(number)),
                None => Err(Stop::NotPlain),
            }
        }
        b'[' if depth > 0 => Ok(Value::List(read_items(alloc, text, depth - 1)?)),
        b'{' if depth > 0 => Ok(Value::Object(read_members(alloc, text, depth - 1)?)),
        b'n' if text.takes_literal(b"null") => Ok(Value::Null),
        b't' if text.takes_literal(b"true") => Ok(Value::Bool(true)),
        b'f' if text.takes_literal(b"false") => Ok(Value::Bool(false)),
        _ => Err(Stop::NotPlain),
    }
}

// The items of a list, which begins with the next byte.
#[cycle(plain)]
#[inline(never)]
fn read_items<'t>(
    alloc: Global,
    text: &mut PlainText<'t>,
    depth: usize,
) -> Result<Vec<Value<'t>>, Stop>
    requires { head text.old ≡ 91 }
    ensures { IfOk result (λ items. ReadsItems depth (lex between text.old) (items_view items.items) (lex between text.new)) }
{
    text.skip_mark();
    text.skip_spaces();
    let mut items = Vec::new(alloc);
    if text.takes(b']') {
        return Ok(items);
    }
    loop {
        let item = read_value(alloc, text, depth)?;
        if items.push(item).is_err() {
            return Err(Stop::Memory);
        }
        text.skip_spaces();
        if text.takes(b']') {
            return Ok(items);
        }
        if !text.takes(b',') {
            return Err(Stop::NotPlain);
        }
    }
}

// The members of an object, which begins with the next byte.
#[cycle(plain)]
#[inline(never)]
fn read_members<'t>(
    alloc: Global,
    text: &mut PlainText<'t>,
    depth: usize,
) -> Result<Vec<(&'t str, Value<'t>)>, Stop>
    requires { head text.old ≡ 123 }
    ensures { IfOk result (λ members.
        ReadsMembers depth (lex between text.old) (members_view members.items no_members) (lex between text.new)) }
{
    text.skip_mark();
    text.skip_spaces();
    let Ok(mut members) = room(alloc, depth) else {
        return Err(Stop::Memory);
    };
    if text.takes(b'}') {
        return Ok(members);
    }
    loop {
        let member = read_member(alloc, text, depth)?;
        if members.push(member).is_err() {
            return Err(Stop::Memory);
        }
        text.skip_spaces();
        if text.takes(b'}') {
            return Ok(members);
        }
        if !text.takes(b',') {
            return Err(Stop::NotPlain);
        }
    }
}

// A member of an object: its key and its value.
#[cycle(plain)]
#[inline(always)]
fn read_member<'t>(
    alloc: Global,
    text: &mut PlainText<'t>,
    depth: usize,
) -> Result<(&'t str, Value<'t>), Stop>
    ensures { IfOk result (λ member. begins_colon (lex between text.new) ≡ false →
        ReadsMember depth (lex between text.old) member (lex between text.new)) }
{
    text.skip_spaces();
    if text.peek() != b'"' {
        return Err(Stop::NotPlain);
    }
    let Some(key) = text.text() else {
        return Err(Stop::NotPlain);
    };
    text.skip_spaces();
    if !text.takes(b':') {
        return Err(Stop::NotPlain);
    }
    let value = read_value(alloc, text, depth)?;
    Ok((key, value))
}
