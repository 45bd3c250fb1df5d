//! What is answered of an open span.
ghost use Rattle.std.specs.Prelude.{◌≡◌, IfOk, IfErr};
ghost use Rattle.span_forest.specs.Node.{node_of};
ghost use Rattle.span_registry.specs.Found.{IsFound};

use span_forest::Span;
use span_id::{Fault, Id, copy_text};
use std::alloc::Global;

/// An open span as it stood when it was looked for.
#[derive(Debug, Drop)]
pub struct Found {
    /// Its name.
    pub name: String,
    /// Its parent, if it has one.
    pub parent: Option<Id>,
    /// How many handles it has.
    pub handles: u32,
    /// How many workers are inside it.
    pub entries: u32,
    /// Its count: its handles, its entries and its open children.
    pub count: u32,
}

impl Found {
    // What is answered of a span. The only error is `Memory`, for the copy of the name.
    pub(crate) fn of(alloc: Global, span: &Span) -> Result<Found, Fault>
        ensures found { IfOk result (λ found. IsFound (node_of span.now) span.now.count found) }
        ensures memory { IfErr result (λ fault. fault ≡ Fault.Memory) }
    {
        let name = copy_text(alloc, span.meta.as_meta().name.as_str())?;
        Ok(Found {
            name,
            parent: span.parent,
            handles: span.handles,
            entries: span.entries,
            count: span.count,
        })
    }
}
