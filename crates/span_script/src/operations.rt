//! What a line of a script can ask for.

use span_id::{Fields, Id, Limits, SharedMeta};
use span_layers::{Rule, Style};
use std::sync::ArcStr;

/// How a line names a span.
#[derive(Clone, Copy, Debug)]
pub enum SpanKey<'v> {
    /// By the label that the last accepted `new` bound to it.
    Label(&'v str),
    Id(Id),
}

/// What a new span is to stand under.
#[derive(Clone, Copy, Debug)]
pub enum Parent<'v> {
    /// The worker's current span, where it has one.
    Current,
    /// No span.
    Root,
    Named(SpanKey<'v>),
}

/// A layer to be added.
#[derive(Debug, Drop)]
pub struct NewLayer {
    pub style: Style,
    pub rule: Rule,
}

/// A span to be made.
#[derive(Debug, Drop)]
pub struct NewSpan<'v> {
    pub meta: SharedMeta,
    pub fields: Fields,
    pub parent: Parent<'v>,
    /// What later lines call the span.
    pub label: &'v str,
    pub worker: usize,
}

/// An event to be told.
#[derive(Debug, Drop)]
pub struct NewEvent {
    pub meta: SharedMeta,
    pub message: ArcStr,
    pub fields: Fields,
    pub worker: usize,
}

/// A call on one span.
#[derive(Clone, Copy, Debug, PartialEq, Eq)]
pub enum SpanCall {
    Clone,
    Close,
    Enter,
    Exit,
}

/// What a line asks for.
#[derive(Debug, Drop)]
pub enum Operation<'v> {
    /// To run with these limits, which may be out of their ranges.
    Limits(Limits),
    Layer(NewLayer),
    New(NewSpan<'v>),
    /// A worker's call on a span.
    OnSpan {
        call: SpanCall,
        span: SpanKey<'v>,
        worker: usize,
    },
    /// To add fields to a span.
    Record {
        span: SpanKey<'v>,
        fields: Fields,
        worker: usize,
    },
    Event(NewEvent),
    Find(SpanKey<'v>),
}
