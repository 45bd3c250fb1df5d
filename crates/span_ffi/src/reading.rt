//! The reading of texts that stand one after another. None: the data say nothing, or memory is refused.
ghost use Rattle.std.specs.Prelude.{◌≡◌, ◌≤◌, ◌↔◌, ◌++◌, ◌∷◌, [], true, take, drop, string_bytes, if◌then◌else◌, IsSome, IfSome, OnSome};
ghost use Rattle.std.specs.Arc.{arc_str_bytes};
ghost use Rattle.span_id.specs.Meta.{plain_fields, key_value};
ghost use Rattle.span_ffi.specs.Data.{BeginsWithText, said_level, IsMeta, said_meta, behind_meta, AreFields, said_fields, behind_field};

use crate::data::{SpanField, SpanMeta};
use span_border::Status;
use span_id::{Fault, Field, Fields, Level, Meta, SharedMeta};
use std::alloc::Global;
use std::str;
use std::sync::ArcStr;

/// Why data were not read: they are bad, or else memory was refused.
pub(crate) fn unread(are_good: bool) -> Status
    ensures { result ≡ (if are_good then Status.Refused Fault.Memory else Status.BadData) }
{
    if are_good {
        Status::Refused(Fault::Memory)
    } else {
        Status::BadData
    }
}

/// The level of a number, where there is one.
pub(crate) fn read_level(number: u32) -> Option<Level>
    ensures exact { IsSome result ↔ (number ≤ 4) }
    ensures level { IfSome result (λ level. level ≡ said_level number) }
{
    match number {
        0 => Some(Level::Error),
        1 => Some(Level::Warn),
        2 => Some(Level::Info),
        3 => Some(Level::Debug),
        4 => Some(Level::Trace),
        _ => None,
    }
}

/// The first `len` bytes, where they are a text, and the bytes behind it.
pub(crate) fn split_text(bytes: &[u8], len: u32) -> Option<(&str, &[u8])>
    ensures exact { IsSome result ↔ BeginsWithText len bytes.now }
    ensures text { IfSome result (λ split. split.0.now ≡ take len bytes.now) }
    ensures behind { IfSome result (λ split. split.1.now ≡ drop len bytes.now) }
{
    let (front, behind) = bytes.split_at_checked(len as usize)?;
    let Ok(text) = str::from_utf8(front) else {
        return None;
    };
    Some((text, behind))
}

/// Two texts of these lengths, and the bytes behind them.
pub(crate) fn split_two(
    bytes: &[u8],
    first_len: u32,
    second_len: u32,
) -> Option<(&str, &str, &[u8])>
    ensures exact { IsSome result ↔ (BeginsWithText first_len bytes.now
        × BeginsWithText second_len (drop first_len bytes.now)) }
    ensures first { IfSome result (λ split. split.0.now ≡ take first_len bytes.now) }
    ensures second { IfSome result (λ split. split.1.now ≡ take second_len (drop first_len bytes.now)) }
    ensures behind { IfSome result (λ split. split.2.now ≡ drop second_len (drop first_len bytes.now)) }
{
    let (first, left) = split_text(bytes, first_len)?;
    let (second, behind) = split_text(left, second_len)?;
    Some((first, second, behind))
}

// A copy of a text. None: memory is refused.
fn copy_text(alloc: Global, text: &str) -> Option<String>
    ensures { IfSome result (λ copy. string_bytes copy ≡ text.now) }
{
    String::from_str(alloc, text).ok()
}

/// The text of the first `len` bytes, and the bytes behind it.
pub(crate) fn read_text(alloc: Global, bytes: &[u8], len: u32) -> Option<(String, &[u8])>
    ensures begins { OnSome result (BeginsWithText len bytes.now) }
    ensures text { IfSome result (λ read. string_bytes read.0 ≡ take len bytes.now) }
    ensures behind { IfSome result (λ read. read.1.now ≡ drop len bytes.now) }
{
    let (text, behind) = split_text(bytes, len)?;
    let text = copy_text(alloc, text)?;
    Some((text, behind))
}

// Copies of two texts. None: memory is refused.
fn copy_two(alloc: Global, first: &str, second: &str) -> Option<(String, String)>
    ensures first { IfSome result (λ copies. string_bytes copies.0 ≡ first.now) }
    ensures second { IfSome result (λ copies. string_bytes copies.1 ≡ second.now) }
{
    let first = copy_text(alloc, first)?;
    let second = copy_text(alloc, second)?;
    Some((first, second))
}

/// The message of the first `len` bytes, which is copied here and shared from then on, and the bytes behind it.
pub(crate) fn read_message(alloc: Global, bytes: &[u8], len: u32) -> Option<(ArcStr, &[u8])>
    ensures begins { OnSome result (BeginsWithText len bytes.now) }
    ensures text { IfSome result (λ read. arc_str_bytes read.0 ≡ take len bytes.now) }
    ensures behind { IfSome result (λ read. read.1.now ≡ drop len bytes.now) }
{
    let (text, behind) = split_text(bytes, len)?;
    let Ok(text) = ArcStr::from_str(alloc, text) else {
        return None;
    };
    Some((text, behind))
}

/// The meta, which is copied here and shared from then on, and the bytes behind its texts.
pub(crate) fn read_meta<'b>(
    alloc: Global,
    meta: &SpanMeta,
    bytes: &'b [u8],
) -> Option<(SharedMeta, &'b [u8])>
    ensures is { OnSome result (IsMeta meta.now bytes.now) }
    ensures meta { IfSome result (λ read. read.0 ≡ said_meta meta.now bytes.now) }
    ensures behind { IfSome result (λ read. read.1.now ≡ behind_meta meta.now bytes.now) }
{
    let level = read_level(meta.level)?;
    let (name, target, behind) = split_two(bytes, meta.name_len, meta.target_len)?;
    let meta = share_meta(alloc, level, name, target)?;
    Some((meta, behind))
}

// The meta of a level and two texts, which are copied. None: memory is refused.
fn share_meta(alloc: Global, level: Level, name: &str, target: &str) -> Option<SharedMeta>
    ensures { IfSome result (λ meta. meta ≡ record { name = name.now; target = target.now; level = level }) }
{
    let (name, target) = copy_two(alloc, name, target)?;
    let meta = Meta {
        name,
        target,
        level,
    };
    SharedMeta::new(alloc, meta).ok()
}

// A field, and the bytes behind its texts.
fn read_field<'b>(alloc: Global, field: &SpanField, bytes: &'b [u8]) -> Option<(Field, &'b [u8])>
    ensures key { OnSome result (BeginsWithText field.now.key_len bytes.now) }
    ensures value { OnSome result (BeginsWithText field.now.value_len (drop field.now.key_len bytes.now)) }
    ensures field { IfSome result (λ read. key_value read.0
        ≡ (take field.now.key_len bytes.now, take field.now.value_len (drop field.now.key_len bytes.now))) }
    ensures behind { IfSome result (λ read. read.1.now ≡ behind_field field.now bytes.now) }
{
    let (key, value, behind) = split_two(bytes, field.key_len, field.value_len)?;
    let (key, value) = copy_two(alloc, key, value)?;
    Some((Field { key, value }, behind))
}

/// The fields whose texts are all the bytes: they are copied here and shared from then on.
#[inline(always)]
pub(crate) fn read_fields(alloc: Global, fields: &[SpanField], bytes: &[u8]) -> Option<Fields>
    ensures are { OnSome result (AreFields fields.now bytes.now) }
    ensures fields { IfSome result (λ read. read ≡ said_fields fields.now bytes.now) }
{
    if fields.is_empty() && bytes.is_empty() {
        return Some(Fields::none());
    }
    if let [field] = fields {
        return read_one(alloc, field, bytes);
    }
    let list = read_list(alloc, fields, bytes)?;
    Fields::new(alloc, list).ok()
}

// The one field whose texts are all the bytes: it takes no list of its own, as those of several do.
#[inline(never)]
fn read_one(alloc: Global, field: &SpanField, bytes: &[u8]) -> Option<Fields>
    ensures are { OnSome result (AreFields (field.now ∷ []) bytes.now) }
    ensures fields { IfSome result (λ read. read ≡ said_fields (field.now ∷ []) bytes.now) }
{
    let (field, behind) = read_field(alloc, field, bytes)?;
    if !behind.is_empty() {
        return None;
    }
    Fields::one(alloc, field).ok()
}

// The fields whose texts are all the bytes.
#[inline(never)]
fn read_list(alloc: Global, fields: &[SpanField], bytes: &[u8]) -> Option<Vec<Field>>
    ensures are { OnSome result (AreFields fields.now bytes.now) }
    ensures fields { IfSome result (λ read. plain_fields read.items ≡ said_fields fields.now bytes.now) }
{
    let mut read = Vec::new(alloc);
    if !add_fields(alloc, fields, bytes, &mut read) {
        return None;
    }
    Some(read)
}

// Adds the fields whose texts are all the bytes. No: the data say nothing, or memory is refused.
fn add_fields(alloc: Global, fields: &[SpanField], bytes: &[u8], read: &mut Vec<Field>) -> bool
    ensures are { result ≡ true → AreFields fields.now bytes.now }
    ensures fields { result ≡ true → plain_fields read.new.items
        ≡ plain_fields read.old.items ++ said_fields fields.now bytes.now }
{
    let mut left = bytes;
    for item in fields {
        let Some(behind) = add_field(alloc, item, left, read) else {
            return false;
        };
        left = behind;
    }
    left.is_empty()
}

// Adds a field, and gives the bytes behind its texts.
fn add_field<'b>(
    alloc: Global,
    field: &SpanField,
    bytes: &'b [u8],
    read: &mut Vec<Field>,
) -> Option<&'b [u8]>
    ensures key { OnSome result (BeginsWithText field.now.key_len bytes.now) }
    ensures value { OnSome result (BeginsWithText field.now.value_len (drop field.now.key_len bytes.now)) }
    ensures field { OnSome result (plain_fields read.new.items ≡ plain_fields read.old.items
        ++ (take field.now.key_len bytes.now, take field.now.value_len (drop field.now.key_len bytes.now)) ∷ []) }
    ensures behind { IfSome result (λ behind. behind.now ≡ behind_field field.now bytes.now) }
{
    let (field, behind) = read_field(alloc, field, bytes)?;
    read.push(field).ok()?;
    Some(behind)
}
