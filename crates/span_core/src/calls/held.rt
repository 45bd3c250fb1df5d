ghost use Rattle.std.specs.Prelude.{◌≡◌, true, false, IfSome, IfNone, OnSome, Some};
ghost use Rattle.span_forest.specs.declared.span.Holder.TheVariants.{Handle, Entry};
ghost use Rattle.span_forest.specs.Node.{node_of};
ghost use Rattle.span_forest.specs.Spans.{find};
ghost use Rattle.span_forest.specs.Count.{reference_count};
ghost use Rattle.span_forest.specs.Holders.{IsHeld, held_in};
ghost use Rattle.span_core.specs.Happening.{bits_in};
ghost use Rattle.span_core.specs.Step.{is_open, has_handle};

use span_forest::{Forest, Span};
use span_id::Id;

// The span of an id of which a handle is out.
pub(crate) fn held_span(forest: &Forest, id: Id) -> Option<&Span>
    ensures held { OnSome result (IsHeld forest.now.spans id Handle) }
    ensures found { IfSome result (λ span. find forest.now.spans id ≡ Some (node_of span.now)) }
    ensures count { IfSome result (λ span. span.now.count ≡ reference_count forest.now.spans id) }
    ensures entries { IfSome result (λ span. span.now.entries ≡ held_in Entry (find forest.now.spans id)) }
    ensures bits { IfSome result (λ span. span.now.bits.0 ≡ bits_in forest.now.spans id) }
    ensures known { OnSome result (has_handle forest.now.spans id ≡ true) }
    ensures unknown { IfNone result (has_handle forest.now.spans id ≡ false) }
{
    let span = forest.find(id)?;
    if span.handles == 0 {
        return None;
    }
    Some(span)
}

// The span of an id, if it is open.
pub(crate) fn open_span(forest: &Forest, id: Id) -> Option<&Span>
    ensures open { OnSome result (is_open forest.now.spans id ≡ true) }
    ensures found { IfSome result (λ span. find forest.now.spans id ≡ Some (node_of span.now)) }
    ensures count { IfSome result (λ span. span.now.count ≡ reference_count forest.now.spans id) }
    ensures not_open { IfNone result (is_open forest.now.spans id ≡ false) }
{
    forest.find(id)
}
