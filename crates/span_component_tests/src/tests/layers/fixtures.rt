//! What the tests of layers have in common: fields and notes, and what is asked of the parts of layers.
use crate::tests::compare::same;
use crate::values::{list, meta};
use span_id::{Bits, Fields, Level};
use span_layers::{Filters, Formatting, Kind, Note};
use std::alloc::Global;
use std::process::Abort;
use std::sync::ArcStr;

/// The layers that admit.
pub(crate) fn admission(
    rt: &impl Abort,
    alloc: Global,
    filters: &Filters,
    target: &str,
    level: Level,
) -> Bits {
    let meta = meta(alloc, "a", target, level).expect(rt, "memory");
    filters.bits(&meta)
}

/// Fields of these keys and values.
pub(crate) fn fields(rt: &impl Abort, alloc: Global, pairs: &[(&str, &str)]) -> Fields {
    let list = list(alloc, pairs).expect(rt, "memory");
    Fields::copy_of(alloc, list.as_slice()).expect(rt, "memory")
}

/// Whether the fields have these keys and values.
pub(crate) fn are_fields(rt: &impl Abort, fields: &Fields, want: &[(&str, &str)]) {
    same(rt, fields.len(), want.len(), "how many fields");
    for (field, pair) in fields.as_slice().iter().zip(want) {
        let found = (field.key.as_str(), field.value.as_str());
        same(rt, found, *pair, "a field");
    }
}

/// A note to the layer of this number: `new 1 w3 a k=1`.
pub(crate) fn note(rt: &impl Abort, alloc: Global, layer: u32) -> Note {
    Note {
        layer,
        kind: Kind::OnNew,
        worker: 3,
        id: 1,
        path: ArcStr::from_str(alloc, "a").expect(rt, "memory"),
        fields: fields(rt, alloc, &[("k", "1")]),
        event: None,
    }
}

/// Whether the layer of this number writes its note so.
pub(crate) fn tells(
    rt: &impl Abort,
    alloc: Global,
    formatting: &Formatting,
    layer: u32,
    want: &str,
) {
    let note = note(rt, alloc, layer);
    assert!(rt; (note.layer as usize) < formatting.len());
    let text = formatting.say(&note).expect(rt, "memory");
    same(rt, text.as_slice(), want.as_bytes(), layer);
}
