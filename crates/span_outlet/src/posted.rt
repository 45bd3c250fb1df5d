//! What is left of a batch where nobody reads its call.
ghost use Rattle.std.specs.Prelude.{◌≡◌};
ghost use Rattle.span_outlet.specs.Batch.{plain_batch};
ghost use Rattle.span_outlet.specs.KnownEvent.{batch_of_known};
ghost use Rattle.span_outlet.specs.KnownRelease.{batch_of_known_release};
ghost use Rattle.span_outlet.specs.KnownSpan.{batch_of_known_span};
ghost use Rattle.span_outlet.specs.Posted.{plain_posted};

use crate::batch::{Batch, Call, Reply};
use crate::known_event::KnownEvent;
use crate::known_release::KnownRelease;
use crate::known_span::KnownSpan;
use span_known::KnownValue;
use span_layers::Note;

/// What was asked and answered, as clauses see it.
#[derive(Drop)]
pub(crate) enum Said {
    Call(KnownValue<Call>, KnownValue<Reply>),
    Event(KnownEvent),
    Span(KnownSpan),
    Release(KnownRelease),
}

/// A batch of which the notes alone are kept. Its call and its reply are known to clauses.
#[derive(Drop)]
pub(crate) struct Posted {
    pub(crate) said: KnownValue<Said>,
    pub(crate) notes: Vec<Note>,
}

impl Posted {
    // The batch without its call and its reply, which are dropped.
    #[inline(always)]
    pub(crate) fn of_batch(batch: Batch) -> Posted
        ensures { plain_posted result ≡ plain_batch batch }
    {
        let Batch { call, reply, notes } = batch;
        let said = Said::Call(KnownValue::of(&call), KnownValue::of(&reply));
        Posted {
            said: KnownValue::of(&said),
            notes,
        }
    }

    // The batch of an event.
    #[inline(always)]
    pub(crate) fn of_event(event: KnownEvent, notes: Vec<Note>) -> Posted
        ensures { plain_posted result ≡ batch_of_known event notes.items }
    {
        Posted {
            said: KnownValue::of(&Said::Event(event)),
            notes,
        }
    }

    // The batch of a new span.
    #[inline(always)]
    pub(crate) fn of_span(span: KnownSpan, notes: Vec<Note>) -> Posted
        ensures { plain_posted result ≡ batch_of_known_span span notes.items }
    {
        Posted {
            said: KnownValue::of(&Said::Span(span)),
            notes,
        }
    }

    // The batch of a handle given back.
    #[inline(always)]
    pub(crate) fn of_release(release: KnownRelease, notes: Vec<Note>) -> Posted
        ensures { plain_posted result ≡ batch_of_known_release release notes.items }
    {
        Posted {
            said: KnownValue::of(&Said::Release(release)),
            notes,
        }
    }
}
