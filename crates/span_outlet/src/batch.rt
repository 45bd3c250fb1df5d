use span_id::{Fields, Id, SharedMeta};
use span_layers::Note;
use std::sync::ArcStr;

/// An accepted call, with its arguments. The worker is the one that called. The call shares its meta and fields with the
/// span that it makes, and its fields and message with its notes.
#[derive(Drop)]
pub enum Call {
    /// A span was made. The parent is the one that was found: a contextual parent by its id.
    NewSpan {
        worker: u32,
        meta: SharedMeta,
        fields: Fields,
        parent: Option<Id>,
    },
    /// One more handle of a span was given out.
    CloneSpan {
        worker: u32,
        id: Id,
    },
    /// The worker entered a span.
    Enter {
        worker: u32,
        id: Id,
    },
    /// The worker left a span.
    Exit {
        worker: u32,
        id: Id,
    },
    /// A handle of a span was given back.
    TryClose {
        worker: u32,
        id: Id,
    },
    /// Fields were appended to those of a span.
    RecordFields {
        worker: u32,
        id: Id,
        fields: Fields,
    },
    /// An event was told, under the parent that was asked for.
    Event {
        worker: u32,
        meta: SharedMeta,
        message: ArcStr,
        fields: Fields,
        parent: ParentOf,
    },
}

/// What an accepted call answers.
#[derive(Drop)]
pub enum Reply {
    /// The id of the new span.
    Made(Id),
    Cloned,
    /// Whether the entry is no duplicate.
    Entered(bool),
    /// The spans that closed, child first.
    Exited(Vec<Id>),
    /// The spans that closed, child first.
    Released(Vec<Id>),
    Recorded,
    Told,
}

/// What an accepted call puts out: the call, its reply, and the notes for the layers, in the order of telling.
#[derive(Drop)]
pub struct Batch {
    pub call: Call,
    pub reply: Reply,
    pub notes: Vec<Note>,
}

/// Which parent a new span or an event gets.
#[derive(Clone, Copy, Debug, PartialEq, Eq)]
pub enum ParentOf {
    /// None.
    Root,
    /// The worker's current span, if there is one.
    Current,
    /// The span of this id.
    Of(Id),
}
