ghost use Rattle.std.specs.Prelude.{◌≡◌, ◌++◌, [], ◌∷◌, IsSome, IsSomeAnd, IfOk, IfErr, OnOk};
ghost use Rattle.span_slots.specs.Table.{find, AreApart};
ghost use Rattle.span_store.specs.Details.{details_there, all_details};
ghost use Rattle.span_store.specs.inside.Invariant.{spans_of, AreCounted};

use crate::entry::Entry;
use span_id::{Fault, Id};
use span_slots::Slots;
use std::alloc::AllocError;

/// A span that is there, as it stood when it was asked for.
#[derive(Clone, Copy, Debug, PartialEq, Eq)]
pub struct SpanDetails {
    /// Its id.
    pub id: Id,
    /// Its parent, which it holds; a root has none.
    pub parent: Option<Id>,
    /// The word that it was made with.
    pub word: u64,
    /// How many handles hold it.
    pub handles: u32,
    /// How many spans that are there have it for their parent: each holds it, the closing ones too.
    pub children: u32,
    /// Whether nothing holds it any longer, and its end wasn't told yet.
    pub closing: bool,
}

// What is told of each span that is there, by ascending slot.
pub(crate) fn all_details(slots: &Slots<Entry>) -> Result<Vec<SpanDetails>, Fault>
    requires apart { AreApart slots.now.entries }
    requires counted { AreCounted slots.now.entries }
    ensures list { IfOk result (λ list. list.items ≡ all_details (spans_of slots.now.entries)) }
    ensures memory { IfErr result (λ fault. fault ≡ Fault.Memory) }
{
    let ids = slots.ids()?;
    let mut list = Vec::with_capacity(*ids.allocator(), ids.len())?;
    for id in &ids {
        push_details(&mut list, slots, *id)?;
    }
    Ok(list)
}

// Appends what is told of a span that is there.
fn push_details(list: &mut Vec<SpanDetails>, slots: &Slots<Entry>, id: Id) -> Result<(), AllocError>
    requires there { IsSome (find slots.now.entries id) }
    requires counted { AreCounted slots.now.entries }
    ensures { OnOk result (IsSomeAnd (find (spans_of slots.now.entries) id) (λ span.
        list.new.items ≡ list.old.items ++ details_there (spans_of slots.now.entries) (id, span) ∷ [])) }
{
    let Some(entry) = slots.get(id) else {
        unreachable!()
    };
    list.push(SpanDetails {
        id,
        parent: entry.parent,
        word: entry.word,
        handles: entry.handles,
        children: entry.children,
        closing: entry.handles == 0 && entry.children == 0,
    })?;
    Ok(())
}
