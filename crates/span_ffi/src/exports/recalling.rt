//! The reading of metas and fields with the memory that a core has at hand. None: the data say nothing, or memory is
//! refused.
ghost use Rattle.std.specs.Prelude.{◌≡◌, ◌∷◌, [], IfSome, OnSome};
ghost use Rattle.span_ffi.specs.Data.{IsMeta, AreFields, said_meta, said_fields, behind_meta};

use crate::data::{SpanField, SpanMeta};
use crate::reading::{read_fields, read_level, split_two};
use crate::registry::RingCore;
use span_id::{Fields, SharedMeta};
use std::alloc::Global;

/// The meta, which is copied where none like it was lately, and the bytes behind its texts.
pub(crate) fn recall_meta<'b>(
    core: &mut RingCore,
    meta: &SpanMeta,
    bytes: &'b [u8],
) -> Option<(SharedMeta, &'b [u8])>
    ensures is { OnSome result (IsMeta meta.now bytes.now) }
    ensures meta { IfSome result (λ read. read.0 ≡ said_meta meta.now bytes.now) }
    ensures behind { IfSome result (λ read. read.1.now ≡ behind_meta meta.now bytes.now) }
    ensures same { core.new ≡ core.old }
{
    let level = read_level(meta.level)?;
    let (name, target, behind) = split_two(bytes, meta.name_len, meta.target_len)?;
    let meta = core.shared_meta(level, name, target).ok()?;
    Some((meta, behind))
}

/// The fields of a span, whose texts are all the bytes: one alone is written where the fields of a span stood that closed.
#[inline(always)]
pub(crate) fn read_span_fields(
    alloc: Global,
    core: &mut RingCore,
    fields: &[SpanField],
    bytes: &[u8],
) -> Option<Fields>
    ensures are { OnSome result (AreFields fields.now bytes.now) }
    ensures fields { IfSome result (λ read. read ≡ said_fields fields.now bytes.now) }
    ensures same { core.new ≡ core.old }
{
    if let [field] = fields {
        return write_one(core, field, bytes);
    }
    read_fields(alloc, fields, bytes)
}

// The one field whose texts are all the bytes.
#[inline(never)]
fn write_one(core: &mut RingCore, field: &SpanField, bytes: &[u8]) -> Option<Fields>
    ensures are { OnSome result (AreFields (field.now ∷ []) bytes.now) }
    ensures fields { IfSome result (λ read. read ≡ said_fields (field.now ∷ []) bytes.now) }
    ensures same { core.new ≡ core.old }
{
    let (key, value, behind) = split_two(bytes, field.key_len, field.value_len)?;
    if !behind.is_empty() {
        return None;
    }
    core.one_field(key, value).ok()
}
