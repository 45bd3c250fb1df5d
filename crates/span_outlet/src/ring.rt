//! The ring through which batches leave the thread of the core.
ghost use Rattle.std.specs.Prelude.{◌≡◌, ◌+◌, ◌-◌, ◌^◌, ◌<◌, ◌≤◌, ◌++◌, ◌∷◌, [], true, false, Some, IfOk, IfErr, IfSome, IsOk, IsOkAnd, map, length, if◌then◌else◌, IsTrue, ◌↔◌};
ghost use Rattle.rtrb.specs.Ring.{received, known_items, ConsumerLooked};
ghost use Rattle.span_outlet.specs.Batch.{plain_batch};
ghost use Rattle.span_outlet.specs.KnownEvent.{batch_of_known};
ghost use Rattle.span_outlet.specs.KnownRelease.{batch_of_known_release};
ghost use Rattle.span_outlet.specs.KnownSpan.{batch_of_known_span};
ghost use Rattle.span_outlet.specs.Outlet.{one_more};
ghost use Rattle.span_outlet.specs.inside.Ends.{name_of_consumer};
ghost use Rattle.span_outlet.specs.Posted.{plain_posted};

use crate::batch::Batch;
use crate::known_event::KnownEvent;
use crate::known_release::KnownRelease;
use crate::known_span::KnownSpan;
use crate::outlet::Outlet;
use crate::posted::Posted;
use crate::returning::{MOST_LISTS, Returned, Returning, take_returned};
use rtrb::{Consumer, Producer, Protocol, RingBuffer};
use span_id::{Checked, Fault};
use span_layers::Note;
use std::alloc::{AllocError, Global};
use std::marker::Model;

/// What both ends know of each batch: fewer than 2^64 - 1 went before it.
pub(crate) struct Few;

impl Protocol<Posted> for Few {
    ghost use Rattle.std.specs.Prelude.{◌<◌, ◌-◌, ◌^◌, length};

    ghost allows = { λ before batch. length before < 2 ^ 64 - 1 };
}

/// The end that gives the batches out.
pub(crate) type Consuming = Consumer<Posted, Global, Few>;

/// The end of a ring that puts batches in: the outlet of a core whose batches another thread takes.
///
/// Of a batch it keeps the notes, until they are taken: its call and its reply are known to clauses alone. It writes
/// no text, so it has no forms.
#[derive(Drop)]
pub struct Ring {
    producer: Producer<Posted, Global, Few>,
    // Lists of notes that were told and sent back.
    back: Returned,
    // Whether a list with memory was put in: before that none can be on its way back.
    lent: bool,
    ready: bool,
    // Stays at its greatest value.
    times_full: u64,
}

impl Model for Ring {
    ghost use Rattle.std.specs.Prelude.{◌≡◌, ◌-◌, ◌^◌, ◌≤◌, ◌<◌, true, map};
    ghost use Rattle.rtrb.specs.Ring.{sent, known_free};
    ghost use Rattle.span_outlet.specs.Ring.{RingView};
    ghost use Rattle.span_outlet.specs.inside.Ends.{name_of_producer};
    ghost use Rattle.span_outlet.specs.Posted.{plain_posted};

    ghost Value = { RingView };

    ghost view = { λ ring. record {
      name = name_of_producer ring.producer;
      sent = map plain_posted (sent ring.producer);
      free = known_free ring.producer;
      ready = ring.ready;
      times_full = ring.times_full;
    } };

    ghost invariant = { λ ring. ring.ready ≡ true → 0 < known_free ring.producer };
}

/// The end of a ring that gives batches out, as long as none was taken. A `Drain` takes them.
#[derive(Drop)]
pub struct Tap {
    pub(crate) consumer: Consuming,
    pub(crate) back: Returning,
}

impl Model for Tap {
    ghost use Rattle.std.specs.Prelude.{◌≡◌, []};
    ghost use Rattle.rtrb.specs.Ring.{received};
    ghost use Rattle.span_outlet.specs.Outlet.{RingName};
    ghost use Rattle.span_outlet.specs.inside.Ends.{name_of_consumer};

    ghost Value = { RingName };

    ghost view = { λ tap. name_of_consumer tap.consumer };

    ghost invariant = { λ tap. received tap.consumer ≡ [] };
}

impl Ring {
    /// Both ends of a new ring, with as many places as the limits say. The only error is `Memory`.
    pub fn pair(alloc: Global, limits: &Checked) -> Result<(Ring, Tap), Fault>
        ensures pair { IfOk result (λ ends. ends.0.name ≡ ends.1) }
        ensures new { IfOk result (λ ends. ends.0 ≡ record {
          name = ends.0.name;
          sent = [];
          free = limits.now.ring;
          ready = false;
          times_full = 0;
        }) }
        ensures places { IfOk result (λ ends. ends.1.places ≡ limits.now.ring) }
        ensures memory { IfErr result (λ fault. fault ≡ Fault.Memory) }
    {
        let places = limits.limits().ring as usize;
        let (producer, consumer) = RingBuffer::with_protocol::<Global, Few>(alloc, places)?;
        let (returning, returned) = RingBuffer::new(alloc, MOST_LISTS)?;
        let ring = Ring {
            producer,
            back: returned,
            lent: false,
            ready: false,
            times_full: 0,
        };
        let tap = Tap {
            consumer,
            back: returning,
        };
        Ok((ring, tap))
    }

    /// How often there was no place when `room` was asked. It stays at its greatest value.
    pub fn times_full(&self) -> u64
        ensures { result ≡ self.now.times_full }
    {
        self.times_full
    }

    // For a thread that has both ends: what was taken and what stands in the ring is all that was sent.
    pub(crate) fn look_beside(&mut self, consumer: &mut Consuming) -> usize
        requires pair { self.old.name ≡ name_of_consumer consumer.old }
        ensures ring { self.new ≡ record self.old { free = self.new.free } }
        ensures free { self.old.free ≤ self.new.free }
        ensures looked { ConsumerLooked consumer.old consumer.new }
        ensures value { result ≡ length (known_items consumer.new) }
        ensures fifo { map plain_posted (received consumer.new ++ known_items consumer.new) ≡ self.old.sent }
    {
        consumer.slots_beside(&mut self.producer)
    }

    // The batch takes one of the free places.
    #[inline(always)]
    fn post(&mut self, batch: Posted)
        requires ready { self.old.ready ≡ true }
        requires countable { length self.old.sent < 2 ^ 64 - 1 }
        ensures sent { self.new.sent ≡ self.old.sent ++ plain_posted batch ∷ [] }
        ensures free { self.new.free + 1 ≡ self.old.free }
        ensures ready { self.new.ready ≡ false }
        ensures name { self.new.name ≡ self.old.name }
        ensures times_full { self.new.times_full ≡ self.old.times_full }
    {
        self.ready = false;
        if batch.notes.capacity() > 0 {
            self.lent = true;
        }
        self.producer.push_reserved(batch);
    }
}

impl Outlet for Ring {
    ghost sent = { λ ring. ring.sent };

    ghost ready = { λ ring. ring.ready };

    ghost times_full = { λ ring. ring.times_full };

    ghost forms = { λ ring. [] };

    ghost name = { λ ring. Some ring.name };

    /// Whether the ring has a free place. It is no error that there is none, and it takes no memory.
    fn room(&mut self) -> Result<bool, AllocError>
        ensures asked { IsOkAnd result (λ yes. self.new ≡ record self.old {
          free = self.new.free;
          ready = yes;
          times_full = if yes then self.old.times_full else one_more self.old.times_full;
        }) }
        ensures free { self.old.free ≤ self.new.free }
        ensures answer { IsTrue self.new.ready ↔ (0 < self.new.free) }
    {
        self.ready = !self.producer.is_full();
        if !self.ready {
            self.times_full = self.times_full.saturating_add(1);
        }
        Ok(self.ready)
    }

    /// The notes of the batch take one of the free places. Its call and its reply are dropped.
    // Inlined, a call builds its batch where the ring keeps it.
    #[inline(always)]
    fn put(&mut self, batch: Batch)
        requires ready { self.old.ready ≡ true }
        requires countable { length self.old.sent < 2 ^ 64 - 1 }
        ensures sent { self.new.sent ≡ self.old.sent ++ plain_batch batch ∷ [] }
        ensures free { self.new.free + 1 ≡ self.old.free }
        ensures ready { self.new.ready ≡ false }
        ensures name { self.new.name ≡ self.old.name }
        ensures times_full { self.new.times_full ≡ self.old.times_full }
    {
        self.post(Posted::of_batch(batch));
    }

    /// The notes of the event take one of the free places.
    #[inline(always)]
    fn put_event(&mut self, event: KnownEvent, notes: Vec<Note>) -> Result<(), Vec<Note>>
        requires ready { self.old.ready ≡ true }
        requires countable { length self.old.sent < 2 ^ 64 - 1 }
        ensures taken { IsOk result }
        ensures sent { self.new.sent ≡ self.old.sent ++ batch_of_known event notes.items ∷ [] }
        ensures free { self.new.free + 1 ≡ self.old.free }
        ensures ready { self.new.ready ≡ false }
        ensures name { self.new.name ≡ self.old.name }
        ensures times_full { self.new.times_full ≡ self.old.times_full }
    {
        self.post(Posted::of_event(event, notes));
        Ok(())
    }

    /// The notes of the span take one of the free places.
    #[inline(always)]
    fn put_span(&mut self, span: KnownSpan, notes: Vec<Note>) -> Result<(), Vec<Note>>
        requires ready { self.old.ready ≡ true }
        requires countable { length self.old.sent < 2 ^ 64 - 1 }
        ensures taken { IsOk result }
        ensures sent { self.new.sent ≡ self.old.sent ++ batch_of_known_span span notes.items ∷ [] }
        ensures free { self.new.free + 1 ≡ self.old.free }
        ensures ready { self.new.ready ≡ false }
        ensures name { self.new.name ≡ self.old.name }
        ensures times_full { self.new.times_full ≡ self.old.times_full }
    {
        self.post(Posted::of_span(span, notes));
        Ok(())
    }

    /// The notes of the call take one of the free places.
    #[inline(always)]
    fn put_release(&mut self, release: KnownRelease, notes: Vec<Note>) -> Result<(), Vec<Note>>
        requires ready { self.old.ready ≡ true }
        requires countable { length self.old.sent < 2 ^ 64 - 1 }
        ensures taken { IsOk result }
        ensures sent { self.new.sent ≡ self.old.sent ++ batch_of_known_release release notes.items ∷ [] }
        ensures free { self.new.free + 1 ≡ self.old.free }
        ensures ready { self.new.ready ≡ false }
        ensures name { self.new.name ≡ self.old.name }
        ensures times_full { self.new.times_full ≡ self.old.times_full }
    {
        self.post(Posted::of_release(release, notes));
        Ok(())
    }

    /// A list whose notes were told, if a reader sent one back.
    // Inlined, a ring into which no list was put costs a branch.
    #[inline(always)]
    fn spare_notes(&mut self) -> Option<Vec<Note>>
        ensures empty { IfSome result (λ list. list.items ≡ []) }
        ensures same { self.new ≡ self.old }
    {
        if !self.lent {
            return None;
        }
        take_returned(&mut self.back)
    }

    /// None is kept as it was sent.
    fn keeps_batches(&self) -> bool {
        false
    }
}
