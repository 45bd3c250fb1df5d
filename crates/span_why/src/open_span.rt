//! What is told of an open span.
use span_core::SpanDetails;

/// A worker that is inside a span.
#[derive(Clone, Copy, Debug, PartialEq, Eq)]
pub struct Inside {
    /// Its number.
    pub worker: u32,
    /// How often it stands in the worker's stack: so many exits it takes until the worker has left it. All of them
    /// together hold the span once.
    pub exits: usize,
}

/// An open span, with what is told of it.
#[derive(Drop)]
pub struct OpenSpan {
    /// Its id, its name, target and level, its parent and its handles.
    pub details: SpanDetails,
    /// The workers that are inside it.
    pub inside: Vec<Inside>,
    /// The number of the line that made it.
    pub line: u64,
}
