ghost use Rattle.std.specs.Prelude.{◌≡◌, ◌≢◌, ℕ, ◌<◌, IsSomeAnd, Some, None, IfSome, IfNone, IfOk, IfErr, OnOk, OnErr, IsTrue, ◌↔◌, ◌⊎◌, ◌++◌, ◌∷◌, length, [], map, string_bytes};
ghost use Rattle.span_id.specs.Id.{IsId};
ghost use Rattle.span_id.specs.Bits.{has_bit};
ghost use Rattle.span_slots.specs.Table.{IsIssued, find, all_ids};
ghost use Rattle.span_id.specs.Meta.{plain_fields};
ghost use Rattle.span_forest.specs.Node.{Node, node_of, new_node, with_fields};
ghost use Rattle.span_forest.specs.Spans.{parent_of, IsOpen, with_change, WhyNotFound};
ghost use Rattle.span_forest.specs.Count.{reference_count, total_held, total_handles};
ghost use Rattle.span_forest.specs.Path.{path, path_text};
ghost use Rattle.span_forest.specs.Forest.{next_span_id, table_of};
ghost use Rattle.span_forest.specs.Holders.{IsHeld};
ghost use Rattle.span_forest.specs.Keep.{with_holder, CanKeep, WhyNotKept};
ghost use Rattle.span_forest.specs.Release.{closing_list, spans_left, freed_after, WhyNotReleased};
ghost use Rattle.span_forest.specs.Holding.{held_spans, what_holds};
ghost use Rattle.span_forest.specs.Add.{CanHaveChild, with_span, WhyNotAdded};

pub mod laws;

use crate::adding::{checked_parent, place};
use crate::closing::{chain, let_go};
use crate::holders::{count_of, handles_in, is_held, is_open, raise_holder};
use crate::holding::{Held, all_held, holders_below};
use crate::path_text::{PathText, path_text_below_of, path_text_of};
use crate::span::{Holder, Span};
use crate::writing::{append_fields, names_of};
use span_id::{Bits, Checked, Fault, Field, Fields, Id, SharedMeta};
use span_slots::Slots;
use std::alloc::Global;
use std::marker::Model;

/// The open spans, each under its id, with what holds them.
///
/// No call costs more than its work: what releases or asks what closes goes along the spans that close, what tells a
/// path along the walk to the root, `write_fields` and `share_fields` over what they copy, and `new` and the
/// lists (`open_spans`, `held_spans`, `holders_of`) over the slots. All others cost the same however many spans are open.
/// What a forest promises beside its calls' contracts is said by the functions of [`laws`].
#[derive(Debug, Drop)]
pub struct Forest {
    slots: Slots<Span>,
    // How many holders all spans have, and how many of these are handles.
    total: u64,
    handles: u64,
    max_count: u32,
    alloc: Global,
}

impl Model for Forest {
    ghost use Rattle.span_forest.specs.Forest.{ForestView};

    ghost Value = { ForestView };

    ghost use Rattle.span_forest.specs.Spans.{nodes_of};
    ghost use Rattle.span_forest.specs.inside.Invariant.{IsConsistent};

    ghost view = { λ f. record {
      spans = nodes_of f.slots.entries;
      max_count = f.max_count;
      slots = f.slots.slots;
      last_generation = f.slots.last_generation;
      given = f.slots.given;
      freed = f.slots.freed;
    } };

    ghost invariant = { λ f. IsConsistent f.slots.entries f.max_count f.total f.handles };
}

impl Forest {
    /// A forest with no span, in which a table of `slots` slots is reserved whole. The only error is `Memory`.
    pub fn new(alloc: Global, checked: &Checked) -> Result<Self, Fault>
        ensures empty { IfOk result (λ forest. forest ≡ record {
          spans = [];
          max_count = checked.now.max_count;
          slots = checked.now.slots;
          last_generation = checked.now.last_generation;
          given = [];
          freed = [];
        }) }
        ensures memory { IfErr result (λ fault. fault ≡ Fault.Memory) }
    {
        let max_count = checked.limits().max_count;
        let slots = Slots::new(alloc, checked)?;
        Ok(Forest {
            slots,
            total: 0,
            handles: 0,
            max_count,
            alloc,
        })
    }

    /// The span of an id, if it is open. Ids of closed spans and ids that were never given find nothing.
    pub fn find(&self, id: Id) -> Option<&Span>
        ensures absent { IfNone result (find self.now.spans id ≡ None) }
        ensures found { IfSome result (λ span. find self.now.spans id ≡ Some (node_of span.now)) }
        ensures count { IfSome result (λ span. span.now.count ≡ reference_count self.now.spans id) }
    {
        // Looked at, the forest shows what it keeps: here that the count is the reference count.
        let _opened = &self.max_count;
        self.slots.get(id)
    }

    /// How many spans are open.
    pub fn len(&self) -> u32
        ensures { result ≡ length self.now.spans }
    {
        self.slots.len()
    }

    /// Whether no span is open.
    pub fn is_empty(&self) -> bool
        ensures { IsTrue result ↔ (self.now.spans ≡ []) }
    {
        self.slots.is_empty()
    }

    /// How many handles and entries all spans have.
    pub fn total(&self) -> u64
        ensures { result ≡ total_held self.now.spans }
    {
        self.total
    }

    /// How many handles all spans have, without the entries.
    pub fn handles(&self) -> u64
        ensures { result ≡ total_handles self.now.spans }
    {
        self.handles
    }

    /// The id that the next span gets: None where no slot is free.
    pub fn next_id(&self) -> Option<Id>
        ensures { result ≡ next_span_id self.now }
    {
        self.slots.next_id()
    }

    /// The ids of the open spans, by ascending slot. It looks at each slot that was ever used. The only error is `Memory`.
    pub fn open_spans(&self) -> Result<Vec<Id>, Fault>
        ensures ids { IfOk result (λ ids. ids.items ≡ all_ids self.now.spans) }
        ensures memory { IfErr result (λ fault. fault ≡ Fault.Memory) }
    {
        self.slots.ids()
    }

    /// What keeps all open spans open: the spans that have handles or entries of their own, with how many, by ascending
    /// slot. Where no span is open there are none. It looks at each slot that was ever used. The only error is `Memory`.
    pub fn held_spans(&self) -> Result<Vec<Held>, Fault>
        ensures list { IfOk result (λ list. list.items ≡ held_spans self.now.spans) }
        ensures memory { IfErr result (λ fault. fault ≡ Fault.Memory) }
    {
        all_held(&self.slots, self.alloc)
    }

    /// What keeps a span open: the spans at it or below it that have handles or entries of their own, with how many,
    /// by ascending slot. It looks at each slot that was ever used, and costs the same however deep the spans stand.
    ///
    /// Refused in this order: `Unknown` where the span isn't open, `Memory`.
    pub fn holders_of(&self, id: Id) -> Result<Vec<Held>, Fault>
        ensures found { OnOk result (IsOpen self.now.spans id) }
        ensures list { IfOk result (λ list. list.items ≡ what_holds self.now.spans id) }
        ensures refused { IfErr result (λ fault. WhyNotFound self.now.spans id fault) }
    {
        if !is_open(&self.slots, id) {
            return Err(Fault::Unknown);
        }
        holders_below(&self.slots, self.alloc, id)
    }

    /// Makes a span with this meta and these fields. It has one handle, and its parent's count rises. It takes no memory.
    ///
    /// Refused in this order: `Unknown` where the parent isn't open, `CountFull` where the parent's count
    /// stands at its greatest, `Full` where no slot is free.
    pub fn add(
        &mut self,
        meta: SharedMeta,
        fields: Fields,
        parent: Option<Id>,
        bits: Bits,
    ) -> Result<Id, Fault>
        ensures parent { OnOk result (CanHaveChild self.old.spans self.old.max_count parent) }
        ensures id { IfOk result (λ id. next_span_id self.old ≡ Some id) }
        ensures forest { IfOk result (λ id.
            self.new ≡ with_span self.old id (new_node meta fields parent bits.0)) }

        // The id was never issued before, and is the only one that this call issues.
        ensures never_issued { IfOk result (λ id. IsIssued (table_of self.old) id → ⊥) }
        ensures issued { IfOk result (λ id. (other : ℕ) → IsId other →
            (IsIssued (table_of self.new) other
            ↔ (IsIssued (table_of self.old) other ⊎ (id ≡ other)))) }

        ensures refused { IfErr result (λ fault. WhyNotAdded self.old parent fault) }
        ensures unchanged { OnErr result (self.new ≡ self.old) }
    {
        let parent = checked_parent(&self.slots, self.max_count, parent)?;
        if self.slots.next_id().is_none() {
            return Err(Fault::Full);
        }
        let span = Span {
            meta,
            fields,
            parent,
            bits,
            handles: 1,
            entries: 0,
            count: 1,
        };
        self.total += 1;
        self.handles += 1;
        Ok(place(&mut self.slots, span))
    }

    /// Writes one more holder of a span down. The span needs a handle already, whichever holder comes in.
    ///
    /// Refused in this order: `Unknown` where the span isn't open or has no handle, `CountFull` where its
    /// count stands at its greatest.
    pub fn keep(&mut self, id: Id, holder: Holder) -> Result<(), Fault>
        ensures accepted { OnOk result (CanKeep self.old.spans self.old.max_count id) }
        ensures forest { OnOk result
            (self.new ≡ record self.old { spans = with_holder self.old.spans id holder }) }
        ensures refused { IfErr result (λ fault. WhyNotKept self.old.spans self.old.max_count id fault) }
        ensures unchanged { OnErr result (self.new ≡ self.old) }
    {
        if !is_held(&self.slots, id, Holder::Handle) {
            return Err(Fault::Unknown);
        }
        if count_of(&self.slots, id) >= self.max_count {
            return Err(Fault::CountFull);
        }
        self.add_holder(id, holder);
        Ok(())
    }

    /// Does what `keep` does, for a caller that knows that the holder may come in.
    pub fn add_holder(&mut self, id: Id, holder: Holder)
        requires { CanKeep self.old.spans self.old.max_count id }
        ensures { self.new ≡ record self.old { spans = with_holder self.old.spans id holder } }
    {
        raise_holder(&mut self.slots, id, holder);
        self.total += 1;
        self.handles += handles_in(holder);
    }

    /// The spans that a release of this holder would close, child first. Nothing changes.
    ///
    /// Refused in this order: `Unknown` where the span isn't open or has no holder of this kind, `Memory`.
    pub fn closing(&self, id: Id, holder: Holder) -> Result<Vec<Id>, Fault>
        ensures list { IfOk result (λ ids. ids.items ≡ closing_list self.now.spans id holder) }
        ensures held { OnOk result (IsHeld self.now.spans id holder) }
        ensures refused { IfErr result (λ fault. WhyNotReleased self.now.spans id holder fault) }
    {
        if !is_held(&self.slots, id, holder) {
            return Err(Fault::Unknown);
        }
        self.closing_of_held(id, holder)
    }

    /// The same as `closing`, for a caller that knows that the holder is there. The only error is `Memory`.
    pub fn closing_of_held(&self, id: Id, holder: Holder) -> Result<Vec<Id>, Fault>
        requires { IsHeld self.now.spans id holder }
        ensures list { IfOk result (λ ids. ids.items ≡ closing_list self.now.spans id holder) }
        ensures memory { IfErr result (λ fault. fault ≡ Fault.Memory) }
    {
        let Some(span) = self.find(id) else {
            unreachable!()
        };
        self.closing_above(id, holder, span.count, span.parent)
    }

    /// The same as `closing`, for a caller that looked at the span: it knows that the holder is there, the span's count,
    /// and its parent. So only the spans above it are looked up. The only error is `Memory`.
    pub fn closing_above(
        &self,
        id: Id,
        holder: Holder,
        count: u32,
        parent: Option<Id>,
    ) -> Result<Vec<Id>, Fault>
        requires held { IsHeld self.now.spans id holder }
        requires count { count ≡ reference_count self.now.spans id }
        requires parent { parent ≡ parent_of self.now.spans id }
        ensures list { IfOk result (λ ids. ids.items ≡ closing_list self.now.spans id holder) }
        ensures memory { IfErr result (λ fault. fault ≡ Fault.Memory) }
    {
        self.closing_above_in(Vec::new(self.alloc), id, holder, count, parent)
    }

    /// The same as `closing_above`, in a list of the caller's that is empty: it takes no memory where that has enough room.
    pub fn closing_above_in(
        &self,
        empty: Vec<Id>,
        id: Id,
        holder: Holder,
        count: u32,
        parent: Option<Id>,
    ) -> Result<Vec<Id>, Fault>
        requires empty { empty.items ≡ [] }
        requires held { IsHeld self.now.spans id holder }
        requires count { count ≡ reference_count self.now.spans id }
        requires parent { parent ≡ parent_of self.now.spans id }
        ensures list { IfOk result (λ ids. ids.items ≡ closing_list self.now.spans id holder) }
        ensures memory { IfErr result (λ fault. fault ≡ Fault.Memory) }
    {
        let closed = chain(&self.slots, empty, id, holder, count, parent)?;
        Ok(closed)
    }

    /// Gives one holder of a span back, closes the spans that nothing holds any longer and answers their
    /// ids, child first. Their slots are freed in this order.
    ///
    /// Refused in this order: `Unknown` where the span isn't open or has no holder of this kind, `Memory`.
    pub fn release(&mut self, id: Id, holder: Holder) -> Result<Vec<Id>, Fault>
        ensures list { IfOk result (λ ids. ids.items ≡ closing_list self.old.spans id holder) }
        ensures forest { OnOk result (self.new ≡ record self.old {
          spans = spans_left self.old.spans id holder;
          freed = freed_after self.old.last_generation self.old.given self.old.freed
              (closing_list self.old.spans id holder);
        }) }
        ensures held { OnOk result (IsHeld self.old.spans id holder) }
        ensures refused { IfErr result (λ fault. WhyNotReleased self.old.spans id holder fault) }
        ensures unchanged { OnErr result (self.new ≡ self.old) }
    {
        let closed = self.closing(id, holder)?;
        self.release_closing(id, holder, closed.as_slice());
        Ok(closed)
    }

    /// Does what `release` does, for a caller that already has the list that `closing` gave for this holder.
    ///
    /// It takes no memory and is never refused.
    pub fn release_closing(&mut self, id: Id, holder: Holder, closing: &[Id])
        requires held { IsHeld self.old.spans id holder }
        requires list { closing.now ≡ closing_list self.old.spans id holder }
        ensures { self.new ≡ record self.old {
          spans = spans_left self.old.spans id holder;
          freed = freed_after self.old.last_generation self.old.given self.old.freed
              (closing_list self.old.spans id holder);
        } }
    {
        self.release_for_fields(id, holder, closing);
    }

    /// Does what `release_closing` does, and gives the fields of the span itself, where it closes; else none.
    pub fn release_for_fields(&mut self, id: Id, holder: Holder, closing: &[Id]) -> Fields
        requires held { IsHeld self.old.spans id holder }
        requires list { closing.now ≡ closing_list self.old.spans id holder }
        ensures forest { self.new ≡ record self.old {
          spans = spans_left self.old.spans id holder;
          freed = freed_after self.old.last_generation self.old.given self.old.freed
              (closing_list self.old.spans id holder);
        } }
        ensures open { closing.now ≡ [] → result ≡ [] }
        ensures fields { closing.now ≢ [] → IsSomeAnd (find self.old.spans id) (λ node. result ≡ node.fields) }
    {
        let fields = let_go(&mut self.slots, id, holder, closing);
        self.total -= 1;
        self.handles -= handles_in(holder);
        fields
    }

    /// Appends copies of the fields to those of a span, in their order. Where its list has another owner, that one
    /// keeps the list as it was.
    ///
    /// Refused in this order: `Unknown` where the span isn't open, `Memory`.
    pub fn write_fields(&mut self, id: Id, fields: &[Field]) -> Result<(), Fault>
        ensures found { OnOk result (IsOpen self.old.spans id) }
        ensures forest { OnOk result (self.new ≡ record self.old {
          spans = with_change (with_fields (plain_fields fields.now)) self.old.spans id;
        }) }
        ensures refused { IfErr result (λ fault. WhyNotFound self.old.spans id fault) }
        ensures unchanged { OnErr result (self.new ≡ self.old) }
    {
        if !is_open(&self.slots, id) {
            return Err(Fault::Unknown);
        }
        let fields = Fields::copy_of(self.alloc, fields)?;
        self.share_fields(id, &fields)
    }

    /// Does what `write_fields` does with fields that are shared: a span that has none yet shares their list, and
    /// nothing is copied; else they are copied to the end of the span's own.
    ///
    /// Refused in this order: `Unknown` where the span isn't open, `Memory`.
    pub fn share_fields(&mut self, id: Id, fields: &Fields) -> Result<(), Fault>
        ensures found { OnOk result (IsOpen self.old.spans id) }
        ensures forest { OnOk result (self.new ≡ record self.old {
          spans = with_change (with_fields fields.now) self.old.spans id;
        }) }
        ensures refused { IfErr result (λ fault. WhyNotFound self.old.spans id fault) }
        ensures unchanged { OnErr result (self.new ≡ self.old) }
    {
        append_fields(&mut self.slots, self.alloc, id, fields)
    }

    /// The names of a span and its ancestors, root first, without those that the layer doesn't admit.
    ///
    /// Refused in this order: `Unknown` where the span isn't open, `Memory`.
    pub fn path(&self, layer: u32, id: Id) -> Result<Vec<String>, Fault>
        ensures found { OnOk result (IsOpen self.now.spans id) }
        ensures names { IfOk result (λ names. map string_bytes names.items ≡ path layer self.now.spans id) }
        ensures refused { IfErr result (λ fault. WhyNotFound self.now.spans id fault) }
    {
        if !is_open(&self.slots, id) {
            return Err(Fault::Unknown);
        }
        Ok(names_of(&self.slots, self.alloc, layer, id)?)
    }

    /// The text of the path that `path` gives: the names joined by `:`, root first; of no names `-`.
    ///
    /// With it come the layers that admit the same spans on the walk, and so see the same path.
    /// Refused in this order: `Unknown` where the span isn't open, `Memory`.
    pub fn path_text(&self, layer: u32, id: Id) -> Result<PathText, Fault>
        ensures found { OnOk result (IsOpen self.now.spans id) }
        ensures text { IfOk result (λ seen. string_bytes seen.text ≡ path_text (path layer self.now.spans id)) }
        ensures same { IfOk result (λ seen. (other : ℕ) → IsTrue (has_bit seen.same.0 other) →
            path other self.now.spans id ≡ path layer self.now.spans id) }
        ensures own { IfOk result (λ seen. layer < 64 → IsTrue (has_bit seen.same.0 layer)) }
        ensures refused { IfErr result (λ fault. WhyNotFound self.now.spans id fault) }
    {
        let Some(span) = self.find(id) else {
            return Err(Fault::Unknown);
        };
        self.path_text_from(layer, id, span)
    }

    /// Does what `path_text` does, for a caller that found the span: the walk begins at it, and only the spans above it
    /// are looked up. The only error is `Memory`.
    pub fn path_text_from(&self, layer: u32, id: Id, span: &Span) -> Result<PathText, Fault>
        requires { find self.now.spans id ≡ Some (node_of span.now) }
        ensures text { IfOk result (λ seen. string_bytes seen.text ≡ path_text (path layer self.now.spans id)) }
        ensures same { IfOk result (λ seen. (other : ℕ) → IsTrue (has_bit seen.same.0 other) →
            path other self.now.spans id ≡ path layer self.now.spans id) }
        ensures own { IfOk result (λ seen. layer < 64 → IsTrue (has_bit seen.same.0 layer)) }
        ensures memory { IfErr result (λ fault. fault ≡ Fault.Memory) }
    {
        Ok(path_text_of(&self.slots, self.alloc, layer, id, span)?)
    }

    /// The text that `path_text` would give with one more name at the end of the path, as that of a new child.
    ///
    /// Refused in this order: `Unknown` where the span isn't open, `Memory`.
    pub fn path_text_below(&self, layer: u32, id: Id, name: &str) -> Result<PathText, Fault>
        ensures found { OnOk result (IsOpen self.now.spans id) }
        ensures text { IfOk result (λ seen. string_bytes seen.text
            ≡ path_text (path layer self.now.spans id ++ name.now ∷ [])) }
        ensures same { IfOk result (λ seen. (other : ℕ) → IsTrue (has_bit seen.same.0 other) →
            path other self.now.spans id ≡ path layer self.now.spans id) }
        ensures own { IfOk result (λ seen. layer < 64 → IsTrue (has_bit seen.same.0 layer)) }
        ensures refused { IfErr result (λ fault. WhyNotFound self.now.spans id fault) }
    {
        let Some(span) = self.find(id) else {
            return Err(Fault::Unknown);
        };
        Ok(path_text_below_of(&self.slots, self.alloc, layer, id, span, name)?)
    }
}
