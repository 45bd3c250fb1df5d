ghost use Rattle.std.specs.Prelude.{◌≡◌, ℕ, ◌↔◌, ◌⊎◌, Some, None, IfSome, IfNone, IfOk, IfErr, OnOk, OnErr, IsTrue, length, []};
ghost use Rattle.span_id.specs.Id.{IsId};
ghost use Rattle.span_slots.specs.Table.{find, id_from, next_id, IsIssued};
ghost use Rattle.span_store.specs.StoredSpan.{plain_entry};
ghost use Rattle.span_store.specs.StoredSpans.{IsClosing, children_there, all_handles};
ghost use Rattle.span_store.specs.Details.{all_details};
ghost use Rattle.span_store.specs.Calls.{Add, Keep, Release, Ended, refusal, store_after, told};

pub mod laws;

use crate::adding::place;
use crate::details::{SpanDetails, all_details};
use crate::entry::Entry;
use crate::reading::{checked_parent, is_closing, is_held, may_be_held};
use crate::writing::{add_child, add_handle, drop_child, drop_handle};
use span_id::{Bits, Checked, Fault, Id};
use span_slots::Slots;
use std::alloc::Global;
use std::marker::Model;

/// Spans under their ids, with what holds them.
///
/// No call but `new` and `span_details` takes memory, and each other call costs the same however many spans are there,
/// but for `id_from`.
/// What a store promises beside its calls' contracts is said by the functions of [`laws`].
#[derive(Debug, Drop)]
pub struct Store {
    slots: Slots<Entry>,
    // How many handles all spans have.
    handles: u64,
    max_count: u32,
}

impl Model for Store {
    ghost use Rattle.span_store.specs.Store.{StoreView};

    ghost Value = { StoreView };

    ghost use Rattle.span_store.specs.inside.Invariant.{span_table, IsConsistent};

    ghost view = { λ s. record { table = span_table s.slots; max_count = s.max_count } };

    ghost invariant = { λ s. IsConsistent s.slots s.max_count s.handles };
}

impl Store {
    /// A store with no span, in which a table of `slots` slots is reserved whole. The only error is `Memory`.
    pub fn new(alloc: Global, checked: &Checked) -> Result<Self, Fault>
        ensures empty { IfOk result (λ store. store ≡ record {
          table = record {
            slots = checked.now.slots;
            last_generation = checked.now.last_generation;
            entries = [];
            given = [];
            freed = [];
          };
          max_count = checked.now.max_count;
        }) }
        ensures memory { IfErr result (λ fault. fault ≡ Fault.Memory) }
    {
        let max_count = checked.limits().max_count;
        let slots = Slots::new(alloc, checked)?;
        Ok(Store {
            slots,
            handles: 0,
            max_count,
        })
    }

    /// The span of an id, if it is there: closing spans are, until their end was told.
    pub fn find(&self, id: Id) -> Option<&Entry>
        ensures absent { IfNone result (find self.now.table.entries id ≡ None) }
        ensures found { IfSome result (λ entry. find self.now.table.entries id ≡ Some (plain_entry entry.now)) }
        ensures children { IfSome result (λ entry. entry.now.children ≡ children_there self.now.table.entries id) }
    {
        // Looked at, the store shows what it keeps: here that the child counts are right.
        let _opened = &self.max_count;
        self.slots.get(id)
    }

    /// The lowest id that is there, by slots, from this slot on; closing spans are among them. Who goes on at the slot
    /// after the one that was told meets each span once, as before a store with open spans is let go.
    ///
    /// It looks at each slot that was ever used from there on, up to the one that it tells.
    pub fn id_from(&self, slot: u32) -> Option<Id>
        ensures { result ≡ id_from self.now.table.entries slot }
    {
        self.slots.id_from(slot)
    }

    /// All spans that are there by ascending slot, each with its parent, its word, what holds it, and whether it is
    /// closing. Who finds spans that were to be gone learns here which they are, and what keeps each.
    ///
    /// It looks at each slot that was ever used, and changes nothing. The only error is `Memory`.
    pub fn span_details(&self) -> Result<Vec<SpanDetails>, Fault>
        ensures list { IfOk result (λ list. list.items ≡ all_details self.now.table.entries) }
        ensures memory { IfErr result (λ fault. fault ≡ Fault.Memory) }
    {
        all_details(&self.slots)
    }

    /// How many spans are there, the closing ones among them.
    pub fn len(&self) -> u32
        ensures { result ≡ length self.now.table.entries }
    {
        self.slots.len()
    }

    /// Whether no span is there.
    pub fn is_empty(&self) -> bool
        ensures { IsTrue result ↔ (self.now.table.entries ≡ []) }
    {
        self.slots.is_empty()
    }

    /// How many handles all spans have.
    pub fn handles(&self) -> u64
        ensures { result ≡ all_handles self.now.table.entries }
    {
        self.handles
    }

    /// Makes a span with this word. It has one handle, and holds its parent.
    ///
    /// Refused in this order: `Unknown` where the parent isn't there or is closing, `CountFull` where the parent's
    /// count stands at its greatest, `Full` where no slot is free.
    pub fn add(&mut self, parent: Option<Id>, bits: Bits, word: u64) -> Result<Id, Fault>
        ensures accepted { OnOk result (refusal self.old (Add parent bits.0 word) ≡ None) }
        ensures refused { IfErr result (λ fault. refusal self.old (Add parent bits.0 word) ≡ Some fault) }
        ensures change { self.new ≡ store_after self.old (Add parent bits.0 word) }
        ensures id { IfOk result (λ id. next_id self.old.table ≡ Some id) }

        // The id was never issued before, and is the only one that this call issues.
        ensures never_issued { IfOk result (λ id. IsIssued self.old.table id → ⊥) }
        ensures issued { IfOk result (λ id. (other : ℕ) → IsId other →
            (IsIssued self.new.table other ↔ (IsIssued self.old.table other ⊎ (id ≡ other)))) }
    {
        let parent = checked_parent(&self.slots, self.max_count, parent)?;
        let entry = Entry {
            parent,
            bits,
            word,
            handles: 1,
            children: 0,
        };
        let id = place(&mut self.slots, entry)?;
        self.handles += 1;
        Ok(id)
    }

    /// One more handle of a span.
    ///
    /// Refused in this order: `Unknown` where the span isn't there or is closing, `CountFull` where its count stands at
    /// its greatest.
    pub fn keep(&mut self, id: Id) -> Result<(), Fault>
        ensures accepted { OnOk result (refusal self.old (Keep id) ≡ None) }
        ensures refused { IfErr result (λ fault. refusal self.old (Keep id) ≡ Some fault) }
        ensures change { self.new ≡ store_after self.old (Keep id) }
    {
        may_be_held(&self.slots, self.max_count, id)?;
        add_handle(&mut self.slots, id);
        self.handles += 1;
        Ok(())
    }

    /// Gives one handle of a span back, and answers whether the span is closing now: no handle of it is left, and no
    /// child of it is there. It is answered once, and `ended` is then to be called once.
    ///
    /// Refused with `Unknown` where the span has no handle.
    pub fn release(&mut self, id: Id) -> Result<bool, Fault>
        ensures accepted { OnOk result (refusal self.old (Release id) ≡ None) }
        ensures refused { IfErr result (λ fault. refusal self.old (Release id) ≡ Some fault) }
        ensures change { self.new ≡ store_after self.old (Release id) }
        ensures closing { IfOk result (λ closing. IsTrue closing ↔ IsClosing self.new.table.entries id) }
    {
        if !is_held(&self.slots, id) {
            return Err(Fault::Unknown);
        }
        let closing = drop_handle(&mut self.slots, id);
        self.handles -= 1;
        Ok(closing)
    }

    /// Ends a span that is closing: its slot is free, and its id finds nothing ever again. It gives back the hold of
    /// its parent, and answers the parent where that is closing now.
    ///
    /// Refused with `Unknown` where the span isn't closing.
    pub fn ended(&mut self, id: Id) -> Result<Option<Id>, Fault>
        ensures accepted { OnOk result (refusal self.old (Ended id) ≡ None) }
        ensures refused { IfErr result (λ fault. refusal self.old (Ended id) ≡ Some fault) }
        ensures change { self.new ≡ store_after self.old (Ended id) }
        ensures parent { IfOk result (λ parent. parent ≡ told self.old (Ended id)) }
    {
        if !is_closing(&self.slots, id) {
            return Err(Fault::Unknown);
        }
        let Some(entry) = self.slots.remove(id) else {
            unreachable!()
        };
        let Some(parent) = entry.parent else {
            return Ok(None);
        };
        if drop_child(&mut self.slots, parent) {
            return Ok(Some(parent));
        }
        Ok(None)
    }
}
