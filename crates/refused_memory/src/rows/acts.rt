//! Calls on spans, as data.
ghost use Rattle.std.specs.Prelude.{◌≡◌};

use crate::named::Named;
use crate::stop::Stop;
use crate::texts::{fields_of, meta_of};
use span_id::{Checked, Field, Level, Limits, Meta};
use span_outlet::ParentOf;
use std::alloc::Global;

/// A call; handles are named by the ids of their spans.
pub(crate) enum Act {
    New(Called, Place),
    Clone(Named),
    Enter(Named),
    Exit(Named),
    Close(Named),
    /// With the fields of `Given`.
    Record(Named),
    /// With `MESSAGE`; the same with the fields of `Given`, and under a span.
    Event,
    EventWithFields,
    EventIn(Named),
    Ask(Question),
}

/// What is asked of spans.
pub(crate) enum Question {
    Find(Named),
    OpenSpans,
    HeldSpans,
    HoldersOf(Named),
    WorkersInside(Named),
    SpanDetails,
}

/// The message of each event.
pub(crate) const MESSAGE: &str = "m";

/// What a span is called.
pub(crate) enum Called {
    A,
    B,
}

/// Where a span is made.
#[derive(Clone, Copy)]
pub(crate) enum Place {
    /// With no parent.
    Apart,
    /// Inside the current span.
    Inside,
}

impl Place {
    /// Which parent it gets.
    pub(crate) fn parent(self) -> ParentOf {
        match self {
            Place::Apart => ParentOf::Root,
            Place::Inside => ParentOf::Current,
        }
    }
}

/// What calls are given: what spans and events are called, and their fields; and the limits, with one worker.
#[derive(Drop)]
pub(crate) struct Given {
    pub(crate) checked: Checked,
    a: Meta,
    b: Meta,
    pub(crate) event: Meta,
    pub(crate) fields: Vec<Field>,
    ghost one_worker: { checked.workers ≡ 1 },
}

impl Given {
    /// The spans `a` and `b`, the event `event` and the field `k=v`; a ring has so many places.
    pub(crate) fn new(alloc: Global, ring: u32) -> Result<Given, Stop> {
        let limits = Limits {
            workers: 1,
            ring,
            ..Limits::default()
        };
        Given::with(alloc, limits.check()?)
    }

    fn with(alloc: Global, checked: Checked) -> Result<Given, Stop>
        requires { checked.workers ≡ 1 }
    {
        Ok(Given {
            checked,
            a: meta_of(alloc, "a", Level::Info)?,
            b: meta_of(alloc, "b", Level::Info)?,
            event: meta_of(alloc, "event", Level::Info)?,
            fields: fields_of(alloc, &[("k", "v")])?,
        })
    }

    /// What a span is made with.
    pub(crate) fn meta(&self, called: &Called) -> &Meta {
        match called {
            Called::A => &self.a,
            Called::B => &self.b,
        }
    }
    /// The fields of an event.
    pub(crate) fn fields_of(&self, act: &Act) -> &[Field] {
        match act {
            Act::EventWithFields => self.fields.as_slice(),
            _ => &[],
        }
    }
}
