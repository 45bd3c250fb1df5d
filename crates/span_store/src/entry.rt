use span_id::{Bits, Id};

/// A span that is there: what it was made with, and what holds it.
#[derive(Clone, Copy, Debug)]
pub struct Entry {
    /// The parent, which is there as long as the span is; a root has none.
    pub parent: Option<Id>,
    /// The layers that admit the span.
    pub bits: Bits,
    /// The caller's own word.
    pub word: u64,
    /// How many handles hold the span.
    pub handles: u32,
    /// How many spans that are there have it for their parent.
    pub children: u32,
}
