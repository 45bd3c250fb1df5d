//! What is kept of accepted calls beside the notes of their batches: the end of the reader, which gives it out.
ghost use Rattle.std.specs.Prelude.{◌≡◌, ℕ, ◌<◌, ◌≤◌, ◌↔◌, [], true, IsTrue, IfSome, IsSomeAnd, OnOk, OnErr, length, slice_get};
ghost use Rattle.span_id.specs.Id.{slot_of};
ghost use Rattle.span_ffi.specs.inside.HeadingsKept.{heading_at, HaveSame, AreKept, HasRoomFor, TakesFirst, newer};
ghost use Rattle.std.specs.Option.{option_map};
ghost use Rattle.rtrb.specs.Ring.{received, known_items, ConsumerLooked};
ghost use Rattle.span_outlet.specs.Outlet.{one_more};
ghost use Rattle.span_outlet.specs.inside.Ends.{name_of_consumer};
ghost use Rattle.span_ffi.specs.HeadingReader.{TakesHeadings, LeavesNone, EndsWithSpan, made_a_span, heading_of, makes_in, makes, last_in_slot, made_by};

use crate::headings::{About, Heading};
use rtrb::Consumer;
use span_id::SLOTS;
use std::alloc::{AllocError, Global};
use std::marker::Model;
use std::mem;

/// The end that the thread with the drain has. It keeps the heading that came out last, and by slot those of the spans
/// that were made last.
#[derive(Drop)]
pub struct HeadingReader {
    consumer: Consumer<Heading, Global>,
    // How often it looked into the ring. Stays at its greatest value.
    looks: u64,
    // Of what came out: the last one.
    last: Option<Heading>,
    // Of those before it: by slot the last one that made a span there.
    spans: Vec<Option<Heading>>,
}

impl Model for HeadingReader {
    ghost use Rattle.rtrb.specs.Ring.{received, known_items};
    ghost use Rattle.span_outlet.specs.inside.Ends.{name_of_consumer};
    ghost use Rattle.span_ffi.specs.HeadingReader.{HeadingReaderView};
    ghost use Rattle.span_ffi.specs.inside.HeadingsKept.{AreKept};

    ghost Value = { HeadingReaderView };

    ghost view = { λ reader. record {
      name = name_of_consumer reader.consumer;
      looks = reader.looks;
      received = received reader.consumer;
      standing = known_items reader.consumer;
    } };

    ghost invariant = { λ reader. AreKept (received reader.consumer) reader.last reader.spans.items };
}

impl HeadingReader {
    /// The other end of a ring out of which nothing came.
    pub(crate) fn new(alloc: Global, consumer: Consumer<Heading, Global>) -> HeadingReader
        requires { received consumer ≡ [] }
        ensures { result ≡ record {
          name = name_of_consumer consumer;
          looks = 0;
          received = [];
          standing = known_items consumer;
        } }
    {
        HeadingReader {
            consumer,
            looks: 0,
            last: None,
            spans: Vec::new(alloc),
        }
    }

    /// Takes out the headings that stand in the ring, of as many of the first batches, as long as there is memory for
    /// them.
    pub(crate) fn take_before(&mut self, batches: u64) -> Result<(), AllocError>
        ensures takes { TakesHeadings batches self.old self.new }
        ensures later { OnOk result (IfSome (slice_get self.new.standing 0) (λ later. batches ≤ later.batch)) }
        ensures left { LeavesNone batches self.new }
        ensures refused { OnErr result (IsSomeAnd (slice_get self.new.standing 0) (λ next. next.batch < batches)) }
    {
        let standing = look(&mut self.consumer, &mut self.looks);
        for _ in 0..standing {
            if self.consumer.peek_known().batch >= batches {
                return Ok(());
            }
            take_next(&mut self.consumer, &mut self.last, &mut self.spans)?;
        }
        Ok(())
    }

    /// The heading of a batch, where it came out last.
    pub(crate) fn of_batch(&self, batch: u64) -> Option<&Heading>
        ensures { option_map (λ heading. heading.now) result ≡ heading_of batch self.now.received }
    {
        let last = self.last.as_ref()?;
        if last.batch == batch {
            Some(last)
        } else {
            None
        }
    }

    /// The heading of the call that made a span, as long as no later one made a span in its slot. Any number is taken.
    pub(crate) fn of_span(&self, id: u64) -> Option<&Heading>
        ensures { option_map (λ heading. heading.now) result ≡ made_by id self.now.received }
    {
        let heading = self.last_in(slot_of(id))?;
        if makes(id, &heading.about) {
            Some(heading)
        } else {
            None
        }
    }

    // The heading of the last call that made a span in a slot.
    fn last_in(&self, slot: usize) -> Option<&Heading>
        ensures { option_map (λ heading. heading.now) result ≡ last_in_slot slot self.now.received }
    {
        match &self.last {
            Some(last) if makes_in(slot, &last.about) => Some(last),
            _ => kept_at(&self.spans, slot),
        }
    }

    /// Whether a heading is known to stand in the ring.
    pub(crate) fn has_more(&self) -> bool
        ensures { IsTrue result ↔ (0 < length self.now.standing) }
    {
        self.consumer.cached_slots() > 0
    }
}

// Looks into the ring, and counts the look. How many headings are known to stand there then.
fn look(consumer: &mut Consumer<Heading, Global>, looks: &mut u64) -> usize
    ensures looked { ConsumerLooked consumer.old consumer.new }
    ensures counted { looks.new ≡ one_more looks.old }
    ensures value { result ≡ length (known_items consumer.new) }
{
    *looks = looks.saturating_add(1);
    consumer.slots()
}

// Takes the next heading out. The last one before it goes to its slot: where memory for a place is refused, none comes
// out.
fn take_next(
    consumer: &mut Consumer<Heading, Global>,
    last: &mut Option<Heading>,
    spans: &mut Vec<Option<Heading>>,
) -> Result<(), AllocError>
    requires stands { 0 < length (known_items consumer.old) }
    requires kept { AreKept (received consumer.old) last.old spans.old.items }
    ensures kept { AreKept (received consumer.new) last.new spans.new.items }
    ensures name { name_of_consumer consumer.new ≡ name_of_consumer consumer.old }
    ensures taken { OnOk result (TakesFirst (received consumer.old) (known_items consumer.old)
        (received consumer.new) (known_items consumer.new)) }
    ensures same { OnErr result (consumer.new ≡ consumer.old) }
    ensures refused { OnErr result (EndsWithSpan (received consumer.old)) }
{
    make_room(spans, last)?;
    let next = consumer.pop_known();
    keep_before(spans, mem::replace(last, Some(next)));
    Ok(())
}

// The slot that an id has, or would have if it were one.
fn slot_of(id: u64) -> usize
    ensures { result ≡ slot_of id }
{
    (id.saturating_sub(1) % u64::from(SLOTS)) as usize
}

fn makes_in(slot: usize, about: &About) -> bool
    ensures { result ≡ makes_in slot about.now }
{
    match about {
        About::Span { id, .. } => id.slot() as usize == slot,
        _ => false,
    }
}

fn makes(made: u64, about: &About) -> bool
    ensures { result ≡ makes made about.now }
{
    match about {
        About::Span { id, .. } => id.get() == made,
        _ => false,
    }
}

// The heading at a slot. None also where there is no place for it.
fn kept_at(spans: &[Option<Heading>], slot: usize) -> Option<&Heading>
    ensures { option_map (λ heading. heading.now) result ≡ heading_at (slice_get spans.now slot) }
{
    spans.get(slot)?.as_ref()
}

// Room for the last heading at its slot, if it is about a new span.
fn make_room(spans: &mut Vec<Option<Heading>>, last: &Option<Heading>) -> Result<(), AllocError>
    ensures same { HaveSame spans.old.items spans.new.items }
    ensures room { OnOk result (HasRoomFor last.now spans.new.items) }
    ensures refused { OnErr result (IsSomeAnd last.now (λ heading. made_a_span heading.about ≡ true)) }
{
    let Some(last) = last else {
        return Ok(());
    };
    match &last.about {
        About::Span { id, .. } => make_room_at(spans, id.slot() as usize),
        _ => Ok(()),
    }
}

// A place for a slot. A push to a full list doubles it, so that many new slots are not copied over and over.
fn make_room_at(spans: &mut Vec<Option<Heading>>, slot: usize) -> Result<(), AllocError>
    ensures same { HaveSame spans.old.items spans.new.items }
    ensures room { OnOk result (slot < length spans.new.items) }
{
    while spans.len() <= slot {
        spans.push(None)?;
    }
    Ok(())
}

// Keeps a heading at its slot, if it is about a new span.
fn keep_before(spans: &mut Vec<Option<Heading>>, before: Option<Heading>)
    requires { HasRoomFor before spans.old.items }
    ensures { (slot : ℕ) → heading_at (slice_get spans.new.items slot)
        ≡ newer slot before (heading_at (slice_get spans.old.items slot)) }
{
    let Some(before) = before else {
        return;
    };
    if let About::Span { id, .. } = &before.about {
        let slot = id.slot() as usize;
        spans[slot] = Some(before);
    }
}
