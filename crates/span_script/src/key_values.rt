//! The values of a line's keys.
ghost use Rattle.std.specs.Prelude.{◌≡◌, ◌<◌, Some, None, IfOk, Result, option_and_then};
ghost use Rattle.std.specs.Option.{option_map};
ghost use Rattle.serde_json.specs.Find.{as_str, get};
ghost use Rattle.span_id.specs.declared.level.Level.TheVariants.{Info};
ghost use Rattle.span_layers.specs.FmtSpan.{bits_of};
ghost use Rattle.span_layers.specs.declared.form.Form.TheVariants.{Compact};
ghost use Rattle.span_script.specs.Operation.{required, optional, limit_in, worker_in, level_in, level_named, form_in, kinds_in};
ghost use Rattle.span_script.specs.Operation.{span_key_in, parent_key_in, current};
ghost use Rattle.span_script.specs.Reason.{Answers};
ghost use Rattle.span_script.specs.Views.{key_seen, parent_seen};

use crate::key::Key;
use crate::line_value::JsonValue;
use crate::operations::{Parent, SpanKey};
use crate::reason::Reason;
use bitflags::Flags;
use span_id::{Id, Level};
use span_layers::{FmtSpan, Form};

/// A limit: any whole number below 2^32.
pub fn limit<'v, V: JsonValue<'v>>(line: V, key: Key, default: u32) -> Result<u32, Reason>
    ensures { Answers (λ n. n) result (optional key limit_in default (V.json line)) }
{
    let Some(value) = line.member(key.text()) else {
        return Ok(default);
    };
    match value.number() {
        Some(n) if n <= 4_294_967_295 => Ok(n as u32),
        _ => Err(Reason::BadKey(key)),
    }
}

/// The text of a key, where the line gives one.
pub fn text_at<'v, V: JsonValue<'v>>(line: V, key: &str) -> Option<&'v str>
    ensures { option_map (λ text. text.now) result ≡ option_and_then as_str (get key.now (V.json line)) }
{
    line.member(key)?.text()
}

/// A text that a line has to give.
pub fn required_text<'v, V: JsonValue<'v>>(line: V, key: Key) -> Result<&'v str, Reason>
    ensures { Answers (λ text. text.now) result (required key as_str (V.json line)) }
{
    match text_at(line, key.text()) {
        Some(text) => Ok(text),
        None => Err(Reason::BadKey(key)),
    }
}

/// A text, or what stands for it where the line gives none.
pub fn text<'v, V: JsonValue<'v>>(line: V, key: Key, default: &'v str) -> Result<&'v str, Reason>
    ensures { Answers (λ text. text.now) result (optional key as_str default.now (V.json line)) }
{
    let Some(value) = line.member(key.text()) else {
        return Ok(default);
    };
    match value.text() {
        Some(text) => Ok(text),
        None => Err(Reason::BadKey(key)),
    }
}

/// The level, `INFO` where the line gives none.
pub fn level<'v, V: JsonValue<'v>>(line: V) -> Result<Level, Reason>
    ensures { Answers (λ level. level) result (optional Key.Level level_in Info (V.json line)) }
{
    let Some(value) = line.member(Key::Level.text()) else {
        return Ok(Level::Info);
    };
    match level_in(value) {
        Some(level) => Ok(level),
        None => Err(Reason::BadKey(Key::Level)),
    }
}

/// A level by its name.
pub fn level_in<'v, V: JsonValue<'v>>(value: V) -> Option<Level>
    ensures { result ≡ level_in (V.json value) }
{
    level_named(value.text()?)
}

/// The level of this name.
fn level_named(name: &str) -> Option<Level>
    ensures { result ≡ level_named name.now }
{
    match name {
        "ERROR" => Some(Level::Error),
        "WARN" => Some(Level::Warn),
        "INFO" => Some(Level::Info),
        "DEBUG" => Some(Level::Debug),
        "TRACE" => Some(Level::Trace),
        _ => None,
    }
}

/// The form in which a layer writes, the compact one where the line gives none.
pub fn form<'v, V: JsonValue<'v>>(line: V) -> Result<Form, Reason>
    ensures { Answers (λ form. form) result (optional Key.Form form_in Compact (V.json line)) }
{
    let Some(value) = line.member(Key::Form.text()) else {
        return Ok(Form::Compact);
    };
    match value.text() {
        Some("compact") => Ok(Form::Compact),
        Some("json") => Ok(Form::Json),
        _ => Err(Reason::BadKey(Key::Form)),
    }
}

/// The kinds of notes on spans that a layer wants, all where the line gives none.
pub fn kinds<'v, V: JsonValue<'v>>(line: V) -> Result<FmtSpan, Reason>
    ensures { Answers bits_of result (optional Key.Spans kinds_in (bits_of FmtSpan.FULL) (V.json line)) }
{
    let Some(value) = line.member(Key::Spans.text()) else {
        return Ok(FmtSpan::FULL);
    };
    match value.number() {
        Some(bits) if bits <= u64::from(FmtSpan::FULL.bits()) => Ok(FmtSpan::from_bits_retain(
            bits as u8,
        )),
        _ => Err(Reason::BadKey(Key::Spans)),
    }
}

/// The parent of a new span, the worker's current span where the line gives none.
pub fn parent<'v, V: JsonValue<'v>>(line: V) -> Result<Parent<'v>, Reason>
    ensures { Answers parent_seen result (optional Key.Parent parent_key_in current (V.json line)) }
{
    let Some(value) = line.member(Key::Parent.text()) else {
        return Ok(Parent::Current);
    };
    if value.is_null() {
        return Ok(Parent::Root);
    }
    match span_key(value) {
        Some(key) => Ok(Parent::Named(key)),
        None => Err(Reason::BadKey(Key::Parent)),
    }
}

/// The worker that makes the call, below `workers`; 0 where the line gives none.
pub fn worker<'v, V: JsonValue<'v>>(line: V, workers: usize) -> Result<usize, Reason>
    ensures meant { Answers (λ n. n) result (optional Key.Worker (worker_in workers) 0 (V.json line)) }
    ensures worker { 0 < workers → IfOk result (λ n. n < workers) }
{
    let Some(value) = line.member(Key::Worker.text()) else {
        return Ok(0);
    };
    match value.number() {
        Some(n) if n < workers as u64 => Ok(n as usize),
        _ => Err(Reason::BadKey(Key::Worker)),
    }
}

/// The span that a line has to name.
pub fn span<'v, V: JsonValue<'v>>(line: V) -> Result<SpanKey<'v>, Reason>
    ensures { Answers key_seen result (required Key.Span span_key_in (V.json line)) }
{
    let Some(value) = line.member(Key::Span.text()) else {
        return Err(Reason::BadKey(Key::Span));
    };
    match span_key(value) {
        Some(key) => Ok(key),
        None => Err(Reason::BadKey(Key::Span)),
    }
}

/// A span by its label or its id.
fn span_key<'v, V: JsonValue<'v>>(value: V) -> Option<SpanKey<'v>>
    ensures { option_map key_seen result ≡ span_key_in (V.json value) }
{
    if let Some(label) = value.text() {
        return Some(SpanKey::Label(label));
    }
    let id = Id::from_u64(value.number()?)?;
    Some(SpanKey::Id(id))
}
