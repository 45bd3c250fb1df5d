//! Whether data say something, found without memory.
ghost use Rattle.std.specs.Prelude.{◌≤◌, ◌≡◌, ◌↔◌, drop, IsTrue, IsSome, IfSome};
ghost use Rattle.span_layers.specs.FmtSpan.{bits_of};
ghost use Rattle.span_ffi.specs.Data.{BeginsWithText, IsMeta, behind_meta, AreFields, behind_field, IsEvent, IsEventAt};
ghost use Rattle.span_ffi.specs.Opening.{AreRules, behind_rules, AreLayers};

use crate::data::{SpanField, SpanLayer, SpanMeta, SpanRule};
use crate::reading::{split_text, split_two};
use bitflags::Flags;
use span_layers::FmtSpan;

// The bytes behind the name and the target, where they are there.
fn behind_meta<'b>(meta: &SpanMeta, bytes: &'b [u8]) -> Option<&'b [u8]>
    ensures exact { IsSome result ↔ IsMeta meta.now bytes.now }
    ensures behind { IfSome result (λ behind. behind.now ≡ behind_meta meta.now bytes.now) }
{
    if meta.level > 4 {
        return None;
    }
    let (_, _, behind) = split_two(bytes, meta.name_len, meta.target_len)?;
    Some(behind)
}

// The bytes behind a key and its value, where they are there.
fn behind_field<'b>(field: &SpanField, bytes: &'b [u8]) -> Option<&'b [u8]>
    ensures exact { IsSome result ↔ (BeginsWithText field.now.key_len bytes.now
        × BeginsWithText field.now.value_len (drop field.now.key_len bytes.now)) }
    ensures behind { IfSome result (λ behind. behind.now ≡ behind_field field.now bytes.now) }
{
    let (_, _, behind) = split_two(bytes, field.key_len, field.value_len)?;
    Some(behind)
}

/// Whether the bytes are the texts of these fields.
pub(crate) fn are_fields(fields: &[SpanField], bytes: &[u8]) -> bool
    ensures { IsTrue result ↔ AreFields fields.now bytes.now }
{
    let mut left = bytes;
    for field in fields {
        let Some(behind) = behind_field(field, left) else {
            return false;
        };
        left = behind;
    }
    left.is_empty()
}

/// Whether the bytes are the name and the target, and then the texts of these fields.
pub(crate) fn is_span(meta: &SpanMeta, fields: &[SpanField], bytes: &[u8]) -> bool
    ensures { IsTrue result ↔ (IsMeta meta.now bytes.now × AreFields fields.now (behind_meta meta.now bytes.now)) }
{
    match behind_meta(meta, bytes) {
        Some(left) => are_fields(fields, left),
        None => false,
    }
}

/// Whether the bytes are the name, the target, the message, and then the texts of these fields.
pub(crate) fn is_event(
    meta: &SpanMeta,
    message_len: u32,
    fields: &[SpanField],
    bytes: &[u8],
) -> bool
    ensures { IsTrue result ↔ IsEvent meta.now message_len fields.now bytes.now }
{
    let Some(left) = behind_meta(meta, bytes) else {
        return false;
    };
    is_told(message_len, fields, left)
}

/// Whether the bytes are the message, and then the texts of these fields.
pub(crate) fn is_told(message_len: u32, fields: &[SpanField], bytes: &[u8]) -> bool
    ensures { IsTrue result ↔ IsEventAt message_len fields.now bytes.now }
{
    match split_text(bytes, message_len) {
        Some((_, behind)) => are_fields(fields, behind),
        None => false,
    }
}

// The bytes behind the prefixes of the rules, where each rule has its level and its prefix.
fn behind_rules<'b>(rules: &[SpanRule], bytes: &'b [u8]) -> Option<&'b [u8]>
    ensures exact { IsSome result ↔ AreRules rules.now bytes.now }
    ensures behind { IfSome result (λ behind. behind.now ≡ behind_rules rules.now bytes.now) }
{
    let mut left = bytes;
    for rule in rules {
        if rule.level > 4 {
            return None;
        }
        let (_, behind) = split_text(left, rule.prefix_len)?;
        left = behind;
    }
    Some(left)
}

// The bytes behind the prefixes of a layer's own rules, where it has its form, its kinds and these.
fn behind_layer<'b>(layer: &SpanLayer, own: &[SpanRule], bytes: &'b [u8]) -> Option<&'b [u8]>
    ensures exact { IsSome result ↔
        ((layer.now.form ≤ 1) × (layer.now.kinds ≤ bits_of FmtSpan.FULL) × AreRules own.now bytes.now) }
    ensures behind { IfSome result (λ behind. behind.now ≡ behind_rules own.now bytes.now) }
{
    if layer.form > 1 || layer.kinds > u32::from(FmtSpan::FULL.bits()) {
        return None;
    }
    behind_rules(own, bytes)
}

/// Whether each layer has the next of the rules for its own, and no rule and no byte is left.
pub(crate) fn are_layers(layers: &[SpanLayer], rules: &[SpanRule], bytes: &[u8]) -> bool
    ensures { IsTrue result ↔ AreLayers layers.now rules.now bytes.now }
{
    let mut rules_left = rules;
    let mut left = bytes;
    for layer in layers {
        let Some((own, others)) = rules_left.split_at_checked(layer.rules as usize) else {
            return false;
        };
        let Some(behind) = behind_layer(layer, own, left) else {
            return false;
        };
        rules_left = others;
        left = behind;
    }
    rules_left.is_empty() && left.is_empty()
}
