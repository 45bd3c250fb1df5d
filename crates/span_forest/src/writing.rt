ghost use Rattle.std.specs.Prelude.{◌≡◌, ◌++◌, Some, IsSome, IfOk, IfErr, OnOk, OnErr, map, string_bytes};
ghost use Rattle.span_slots.specs.Table.{find};
ghost use Rattle.span_forest.specs.Node.{node_of, with_fields};
ghost use Rattle.span_forest.specs.Spans.{nodes_of, with_change, IsOpen, WhyNotFound};
ghost use Rattle.span_forest.specs.Path.{name_for, path};
ghost use Rattle.span_forest.specs.Forest.{IsForest};
ghost use Rattle.span_forest.specs.inside.Invariant.{IsSettled};

use crate::span::Span;
use span_id::{Fault, Fields, Id};
use span_slots::Slots;
use std::alloc::{AllocError, Global};

// Appends these fields to those of a span, if it is open; it shares their list where it has none. Where memory is refused
// the span stays as it was.
pub(crate) fn append_fields(
    slots: &mut Slots<Span>,
    alloc: Global,
    id: Id,
    fields: &Fields,
) -> Result<(), Fault>
    requires settled { IsSettled slots.old.entries }
    ensures found { OnOk result (IsOpen (nodes_of slots.old.entries) id) }
    ensures settled { IsSettled slots.new.entries }
    ensures written { OnOk result
        (nodes_of slots.new.entries ≡ with_change (with_fields fields.now)
        (nodes_of slots.old.entries) id) }
    ensures refused { IfErr result (λ fault. WhyNotFound (nodes_of slots.old.entries) id fault) }
    ensures unchanged { OnErr result (nodes_of slots.new.entries ≡ nodes_of slots.old.entries) }
    ensures table { slots.new ≡ record slots.old { entries = slots.new.entries } }
{
    match slots.get_mut(id) {
        None => Err(Fault::Unknown),
        Some(span) => span.fields.extend_shared(alloc, fields),
    }
}

// The names of a span and its ancestors that the layer admits, root first.
pub(crate) fn names_of(
    slots: &Slots<Span>,
    alloc: Global,
    layer: u32,
    id: Id,
) -> Result<Vec<String>, AllocError>
    requires forest { IsForest (nodes_of slots.now.entries) }
    requires open { IsOpen (nodes_of slots.now.entries) id }
    ensures names { IfOk result (λ names. map string_bytes names.items ≡ path layer (nodes_of slots.now.entries) id) }
{
    let mut names = Vec::new(alloc);
    let mut next = Some(id);
    'up: while let Some(at) = next {
        let Some(span) = slots.get(at) else {
            unreachable!()
        };
        push_name(&mut names, alloc, layer, span)?;
        next = span.parent;
    }
    names.reverse();
    Ok(names)
}

// Appends the name of a span, if the layer admits it.
fn push_name(
    names: &mut Vec<String>,
    alloc: Global,
    layer: u32,
    span: &Span,
) -> Result<(), AllocError>
    ensures { OnOk result (map string_bytes names.new.items
        ≡ map string_bytes names.old.items ++ name_for layer (Some (node_of span.now))) }
{
    if !span.bits.has(layer) {
        return Ok(());
    }
    let name = String::from_str(alloc, span.meta.as_meta().name.as_str())?;
    names.push(name)?;
    Ok(())
}
