ghost use Rattle.std.specs.Prelude.{◌≡◌, ◌++◌, ◌∷◌, [], ◌<◌, ◌↔◌, ℕ, Some, IsTrue, IfOk, OnOk, map, flat_map, string_bytes};
ghost use Rattle.span_id.specs.Bits.{has_bit};
ghost use Rattle.span_forest.specs.Node.{node_of};
ghost use Rattle.span_slots.specs.Table.{find};
ghost use Rattle.span_forest.specs.Spans.{nodes_of};
ghost use Rattle.span_forest.specs.Walk.{walk};
ghost use Rattle.span_forest.specs.Path.{name_for, names_for, path, path_text};
ghost use Rattle.span_forest.specs.Forest.{IsForest};

use crate::span::Span;
use span_id::{Bits, Id};
use span_slots::Slots;
use std::alloc::{AllocError, Global};

/// The text of a layer's path at a span.
#[derive(Debug, PartialEq, Eq, Hash, Drop)]
pub struct PathText {
    /// The names joined by `:`, root first; of no names `-`.
    pub text: String,
    /// Layers that see the same path at the span: the layer itself, and each that admits the same spans on the walk.
    pub same: Bits,
}

// What a layer sees on a walk.
#[derive(Drop)]
struct Seen<'a> {
    names: Vec<&'a str>,
    // The layers that admit the same spans.
    same: Bits,
}

// The text of the layer's path at a span that was found, in a buffer with no room for more.
pub(crate) fn path_text_of<'a>(
    slots: &'a Slots<Span>,
    alloc: Global,
    layer: u32,
    id: Id,
    span: &'a Span,
) -> Result<PathText, AllocError>
    requires forest { IsForest (nodes_of slots.now.entries) }
    requires found { find (nodes_of slots.now.entries) id ≡ Some (node_of span.now) }
    ensures text { IfOk result (λ seen. string_bytes seen.text
        ≡ path_text (path layer (nodes_of slots.now.entries) id)) }
    ensures same { IfOk result (λ seen. (other : ℕ) → IsTrue (has_bit seen.same.0 other) →
        path other (nodes_of slots.now.entries) id ≡ path layer (nodes_of slots.now.entries) id) }
    ensures own { IfOk result (λ seen. layer < 64 → IsTrue (has_bit seen.same.0 layer)) }
{
    let seen = path_seen(slots, alloc, layer, id, span)?;
    seen.told(alloc)
}

// The same of the path with one more name at its end.
pub(crate) fn path_text_below_of<'a>(
    slots: &'a Slots<Span>,
    alloc: Global,
    layer: u32,
    id: Id,
    span: &'a Span,
    name: &'a str,
) -> Result<PathText, AllocError>
    requires forest { IsForest (nodes_of slots.now.entries) }
    requires found { find (nodes_of slots.now.entries) id ≡ Some (node_of span.now) }
    ensures text { IfOk result (λ seen. string_bytes seen.text
        ≡ path_text (path layer (nodes_of slots.now.entries) id ++ name.now ∷ [])) }
    ensures same { IfOk result (λ seen. (other : ℕ) → IsTrue (has_bit seen.same.0 other) →
        path other (nodes_of slots.now.entries) id ≡ path layer (nodes_of slots.now.entries) id) }
    ensures own { IfOk result (λ seen. layer < 64 → IsTrue (has_bit seen.same.0 layer)) }
{
    let mut seen = path_seen(slots, alloc, layer, id, span)?;
    seen.names.push(name)?;
    seen.told(alloc)
}

// The layer's path at a span that was found.
fn path_seen<'a>(
    slots: &'a Slots<Span>,
    alloc: Global,
    layer: u32,
    id: Id,
    span: &'a Span,
) -> Result<Seen<'a>, AllocError>
    requires forest { IsForest (nodes_of slots.now.entries) }
    requires found { find (nodes_of slots.now.entries) id ≡ Some (node_of span.now) }
    ensures names { IfOk result (λ seen. map (λ name. name.now) seen.names.items
        ≡ path layer (nodes_of slots.now.entries) id) }
    ensures same { IfOk result (λ seen. (other : ℕ) → IsTrue (has_bit seen.same.0 other) →
        path other (nodes_of slots.now.entries) id ≡ path layer (nodes_of slots.now.entries) id) }
    ensures own { IfOk result (λ seen. layer < 64 → IsTrue (has_bit seen.same.0 layer)) }
{
    let mut seen = seen_on_walk(slots, alloc, layer, id, span)?;
    seen.names.reverse();
    Ok(seen)
}

// What the layer sees from a span that was found up to its root, the span's own name first. So that span is looked up no
// more.
fn seen_on_walk<'a>(
    slots: &'a Slots<Span>,
    alloc: Global,
    layer: u32,
    id: Id,
    span: &'a Span,
) -> Result<Seen<'a>, AllocError>
    requires forest { IsForest (nodes_of slots.now.entries) }
    requires found { find (nodes_of slots.now.entries) id ≡ Some (node_of span.now) }
    ensures names { IfOk result (λ seen. map (λ name. name.now) seen.names.items
        ≡ names_for layer (nodes_of slots.now.entries) (walk (nodes_of slots.now.entries) id)) }
    ensures same { IfOk result (λ seen. (other : ℕ) → IsTrue (has_bit seen.same.0 other) →
        names_for other (nodes_of slots.now.entries) (walk (nodes_of slots.now.entries) id)
        ≡ names_for layer (nodes_of slots.now.entries) (walk (nodes_of slots.now.entries) id)) }
    ensures own { IfOk result (λ seen. layer < 64 → IsTrue (has_bit seen.same.0 layer)) }
{
    let mut seen = Seen {
        names: Vec::new(alloc),
        same: Bits::all(),
    };
    seen.look(layer, span)?;
    let mut next = span.parent;
    'up: while let Some(at) = next {
        let Some(span) = slots.get(at) else {
            unreachable!()
        };
        seen.look(layer, span)?;
        next = span.parent;
    }
    Ok(seen)
}

impl<'a> Seen<'a> {
    // Takes the span's name, if the layer admits it. The layers that don't do as this one are no longer the same.
    fn look(&mut self, layer: u32, span: &'a Span) -> Result<(), AllocError>
        ensures name { OnOk result (map (λ name. name.now) self.new.names.items
            ≡ map (λ name. name.now) self.old.names.items ++ name_for layer (Some (node_of span.now))) }
        ensures same { OnOk result ((other : ℕ) → IsTrue (has_bit self.new.same.0 other)
            ↔ (IsTrue (has_bit self.old.same.0 other)
            × (has_bit span.now.bits.0 other ≡ has_bit span.now.bits.0 layer))) }
    {
        if span.bits.has(layer) {
            self.names.push(span.meta.as_meta().name.as_str())?;
            self.same = self.same.and(span.bits);
        } else {
            self.same = self.same.without(span.bits);
        }
        Ok(())
    }

    // The text of the names, as they stand.
    fn told(&self, alloc: Global) -> Result<PathText, AllocError>
        ensures text { IfOk result (λ seen. string_bytes seen.text
            ≡ path_text (map (λ name. name.now) self.now.names.items)) }
        ensures same { IfOk result (λ seen. seen.same ≡ self.now.same) }
    {
        let text = joined(alloc, self.names.as_slice())?;
        Ok(PathText {
            text,
            same: self.same,
        })
    }
}

// The names with `:` between them; of no names `-`.
fn joined(alloc: Global, names: &[&str]) -> Result<String, AllocError>
    ensures { IfOk result (λ text. string_bytes text ≡ path_text (map (λ name. name.now) names.now)) }
{
    let Some((first, others)) = names.split_first() else {
        return String::from_str(alloc, "-");
    };
    let mut text = String::with_capacity(alloc, joined_len(first, others))?;
    text.push_str(first)?;
    push_others(&mut text, others)?;
    Ok(text)
}

// Appends the names, each behind a `:`.
fn push_others(text: &mut String, others: &[&str]) -> Result<(), AllocError>
    ensures { OnOk result (string_bytes text.new
        ≡ string_bytes text.old ++ flat_map (λ name. 58 ∷ name) (map (λ name. name.now) others.now)) }
{
    for name in others {
        text.push_str(":")?;
        text.push_str(name)?;
    }
    Ok(())
}

// How long the joined names are.
fn joined_len(first: &str, others: &[&str]) -> usize {
    let mut len = first.len();
    for name in others {
        len = len.saturating_add(1).saturating_add(name.len());
    }
    len
}
