//! What is told of each open span.
ghost use Rattle.std.specs.Prelude.{◌≡◌, map, IfOk, IfErr, IsSomeAnd};
ghost use Rattle.span_forest.specs.declared.span.Holder.TheVariants.{Entry};
ghost use Rattle.span_forest.specs.Spans.{find, IsOpen};
ghost use Rattle.span_forest.specs.Holders.{held_in};
ghost use Rattle.span_core.specs.World.{workers_with};
ghost use Rattle.span_core.specs.Details.{plain_details, details_of};

use crate::Core;
use crate::laws::{entries_are_the_workers_inside, open_spans_are_a_live_forest};
use span_id::{Fault, Id, SharedMeta};
use span_outlet::Outlet;

/// An open span, as it stood when it was asked for.
#[derive(Debug, Drop)]
pub struct SpanDetails {
    /// Its id.
    pub id: Id,
    /// Its name, target and level, which it shares.
    pub meta: SharedMeta,
    /// Its parent, which is open; a root has none.
    pub parent: Option<Id>,
    /// How many handles it has.
    pub handles: u32,
    /// The workers that are inside it, by their numbers. A worker that entered it more than once stands here once.
    pub workers: Vec<u32>,
    /// How many open children it has.
    pub children: u32,
}

impl<O: Outlet, A> Core<O, A> {
    /// All open spans by ascending slot, each with its name, target, level, parent, handles, the workers that are inside
    /// it and how many open children it has. It looks at each slot that was ever used, and for each span that has an
    /// entry through the stacks. The only error is `Memory`.
    pub fn span_details(&self) -> Result<Vec<SpanDetails>, Fault>
        ensures details { IfOk result (λ list. map plain_details list.items
            ≡ map (details_of self.now.world) self.now.world.spans) }
        ensures memory { IfErr result (λ fault. fault ≡ Fault.Memory) }
    {
        open_spans_are_a_live_forest(self);
        let ids = self.forest.open_spans()?;
        let mut list = Vec::with_capacity(self.recent.alloc, ids.len())?;
        for id in &ids {
            let details = self.details(*id)?;
            list.push(details)?;
        }
        Ok(list)
    }

    // What is told of an open span.
    fn details(&self, id: Id) -> Result<SpanDetails, Fault>
        requires { IsOpen self.now.world.spans id }
        ensures details { IfOk result (λ details. IsSomeAnd (find self.now.world.spans id) (λ node.
            plain_details details ≡ details_of self.now.world (id, node))) }
        ensures memory { IfErr result (λ fault. fault ≡ Fault.Memory) }
    {
        let Some(span) = self.find(id) else {
            unreachable!()
        };
        let workers = self.workers_of(id, span.entries)?;
        let meta = span.meta.share()?;
        Ok(SpanDetails {
            id,
            meta,
            parent: span.parent,
            handles: span.handles,
            workers,
            children: span.count - span.handles - span.entries,
        })
    }

    // The workers that are inside a span that has so many entries. Where it has none no stack is looked at.
    fn workers_of(&self, id: Id, entries: u32) -> Result<Vec<u32>, Fault>
        requires { entries ≡ held_in Entry (find self.now.world.spans id) }
        ensures workers { IfOk result (λ workers. workers.items ≡ workers_with self.now.world.stacks id) }
        ensures memory { IfErr result (λ fault. fault ≡ Fault.Memory) }
    {
        entries_are_the_workers_inside(self);
        if entries == 0 {
            return Ok(Vec::new(self.recent.alloc));
        }
        self.workers_inside(id)
    }
}
