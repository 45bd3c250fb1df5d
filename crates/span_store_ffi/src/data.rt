//! What C gets: structs of numbers.

/// A span that is there. The parent is 0 for a root.
#[repr(C)]
#[derive(Clone, Copy)]
pub struct SpanStoreFound {
    pub parent: u64,
    pub bits: u64,
    pub word: u64,
    pub handles: u32,
    pub children: u32,
}

/// How many handles all spans have, and how many spans are there.
#[repr(C)]
#[derive(Clone, Copy)]
pub struct SpanStoreCounts {
    pub handles: u64,
    pub spans: u32,
}

/// A span that is there, and what holds it. The parent is 0 for a root; closing is 1 where nothing holds it any longer,
/// else 0.
#[repr(C)]
#[derive(Clone, Copy)]
pub struct SpanStoreDetails {
    pub id: u64,
    pub parent: u64,
    pub word: u64,
    pub handles: u32,
    pub children: u32,
    pub closing: u32,
}
