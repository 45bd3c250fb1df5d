//! What C passes and gets: structs of numbers.

/// What bounds a registry: see `Limits` of `span_id`.
#[repr(C)]
#[derive(Clone, Copy)]
pub struct SpanLimits {
    pub slots: u32,
    pub last_generation: u32,
    pub max_count: u32,
    pub workers: u32,
    pub ring: u32,
}

/// A layer: its form (0 compact, 1 JSON), the kinds of notes that it wants (the bits of `FmtSpan`), and how many of the
/// rules are its own.
#[repr(C)]
#[derive(Clone, Copy)]
pub struct SpanLayer {
    pub form: u32,
    pub kinds: u32,
    pub rules: u32,
}

/// A rule: the length of its prefix, and the greatest level that it lets in.
#[repr(C)]
#[derive(Clone, Copy)]
pub struct SpanRule {
    pub prefix_len: u32,
    pub level: u32,
}

/// A span's or an event's level (0 ERROR to 4 TRACE), and the lengths of its name and its target.
#[repr(C)]
#[derive(Clone, Copy)]
pub struct SpanMeta {
    pub level: u32,
    pub name_len: u32,
    pub target_len: u32,
}

/// A field: the lengths of its key and its value.
#[repr(C)]
#[derive(Clone, Copy)]
pub struct SpanField {
    pub key_len: u32,
    pub value_len: u32,
}

/// An open span. The parent is 0 for a root.
#[repr(C)]
#[derive(Clone, Copy)]
pub struct SpanFound {
    pub parent: u64,
    pub handles: u32,
    pub entries: u32,
    pub count: u32,
    pub level: u32,
}

/// A span that has handles or entries of its own, with how many.
#[repr(C)]
#[derive(Clone, Copy)]
pub struct SpanHeld {
    pub id: u64,
    pub handles: u32,
    pub entries: u32,
}

/// How many spans were made and closed, how many calls were accepted, how many handles and entries all spans have, how
/// many spans are open, and how many workers there are.
#[repr(C)]
#[derive(Clone, Copy)]
pub struct SpanCounts {
    pub made: u64,
    pub closed: u64,
    pub calls: u64,
    pub held: u64,
    pub open: u32,
    pub workers: u32,
}

/// A note: the number of its batch, from 0; the span, or 0 where an event is told in none; the layer; the kind (0 new,
/// 1 record, 2 event, 3 enter, 4 exit, 5 close); the worker; an event's level; and how long the path and an event's
/// message are. Of other notes the level and the message's length are 0.
#[repr(C)]
#[derive(Clone, Copy)]
pub struct SpanNote {
    pub batch: u64,
    pub id: u64,
    pub layer: u32,
    pub kind: u32,
    pub worker: u32,
    pub level: u32,
    pub path_len: u32,
    pub message_len: u32,
}

/// What a note doesn't tell of its call: the stamp that was said of it; what the span or the event hangs under, or 0; 1
/// where that was made at a callsite, else 0, and which; its level; and how long its name and its target are.
#[repr(C)]
#[derive(Clone, Copy)]
pub struct SpanHeading {
    pub stamp: u64,
    pub parent: u64,
    pub has_callsite: u32,
    pub callsite: u32,
    pub level: u32,
    pub name_len: u32,
    pub target_len: u32,
}

/// How many bytes each of the other structs of numbers takes, but for notes and headings.
#[repr(C)]
#[derive(Clone, Copy)]
pub struct SpanSizes {
    pub limits: u32,
    pub layer: u32,
    pub rule: u32,
    pub meta: u32,
    pub field: u32,
    pub found: u32,
    pub held: u32,
    pub counts: u32,
}
