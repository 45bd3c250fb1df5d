//! What is kept of accepted calls beside the notes of their batches: the end of the registry, which puts it in.
ghost use Rattle.std.specs.Prelude.{◌≡◌, [], IfOk};
ghost use Rattle.span_ffi.specs.Headings.{SendsHeading, SendsOrLoses};

use crate::heading_reader::HeadingReader;
use rtrb::{Producer, RingBuffer};
use span_id::{Id, SharedMeta};
use std::alloc::{AllocError, Global};
use std::marker::Model;
use std::mem;

/// What a call was about, as far as its notes don't tell it.
#[derive(Drop)]
pub enum About {
    /// The span that it made, with its parent.
    Span {
        id: Id,
        parent: Option<Id>,
        meta: SharedMeta,
    },
    /// An event.
    Event(SharedMeta),
    /// A span that was there before.
    Other,
}

/// What stands over the notes of a batch: its number; the stamp that was said last before its call; at which callsite that
/// was made, if at one; of which kinds the values of its fields are, in order; and what it was about.
#[derive(Drop)]
pub struct Heading {
    pub batch: u64,
    pub stamp: u64,
    pub callsite: Option<u32>,
    pub kinds: Vec<u8>,
    pub about: About,
}

/// The end that the thread with the registry has: it sends a heading for each accepted call.
#[derive(Drop)]
pub struct Headings {
    producer: Producer<Heading, Global>,
    // What was said for the calls that follow, and for the next one.
    stamp: u64,
    kinds: Vec<u8>,
    // Stays at its greatest value.
    lost: u64,
}

impl Model for Headings {
    ghost use Rattle.rtrb.specs.Ring.{sent, known_free};
    ghost use Rattle.span_outlet.specs.inside.Ends.{name_of_producer};
    ghost use Rattle.span_ffi.specs.Headings.{HeadingsView};

    ghost Value = { HeadingsView };

    ghost view = { λ headings. record {
      name = name_of_producer headings.producer;
      sent = sent headings.producer;
      free = known_free headings.producer;
      stamp = headings.stamp;
      kinds = headings.kinds.items;
      lost = headings.lost;
    } };
}

impl Headings {
    /// Both ends of a new ring with so many places.
    pub(crate) fn pair(
        alloc: Global,
        places: usize,
    ) -> Result<(Headings, HeadingReader), AllocError>
        ensures pair { IfOk result (λ ends. ends.0.name ≡ ends.1.name) }
        ensures places { IfOk result (λ ends. ends.1.name.places ≡ places) }
        ensures new { IfOk result (λ ends. ends.0 ≡ record {
          name = ends.0.name;
          sent = [];
          free = places;
          stamp = 0;
          kinds = [];
          lost = 0;
        }) }
        ensures other { IfOk result (λ ends. ends.1
            ≡ record { name = ends.1.name; looks = 0; received = []; standing = [] }) }
    {
        let (producer, consumer) = RingBuffer::new(alloc, places)?;
        let headings = Headings {
            producer,
            stamp: 0,
            kinds: Vec::new(alloc),
            lost: 0,
        };
        Ok((headings, HeadingReader::new(alloc, consumer)))
    }

    /// How many headings were lost. It stays at its greatest value.
    pub(crate) fn lost(&self) -> u64
        ensures { result ≡ self.now.lost }
    {
        self.lost
    }

    /// Says the stamp of the calls that follow, and of which kinds the values of the next one are.
    pub(crate) fn say(&mut self, stamp: u64, kinds: Vec<u8>)
        ensures { self.new ≡ record self.old { stamp = stamp; kinds = kinds.items } }
    {
        self.stamp = stamp;
        self.kinds = kinds;
    }

    /// Sends the heading of a batch. `about`: none where memory was refused to it.
    pub(crate) fn send(
        &mut self,
        alloc: Global,
        batch: u64,
        callsite: Option<u32>,
        about: Option<About>,
    )
        ensures { SendsHeading batch callsite about self.old self.new }
    {
        let stamp = self.stamp;
        let kinds = mem::replace(&mut self.kinds, Vec::new(alloc));
        let Some(about) = about else {
            self.lost = self.lost.saturating_add(1);
            return;
        };
        self.push(Heading {
            batch,
            stamp,
            callsite,
            kinds,
            about,
        });
    }

    // Where there is no place the ring hands it back, and it is dropped.
    fn push(&mut self, heading: Heading)
        ensures { SendsOrLoses heading self.old self.new }
    {
        match self.producer.push(heading) {
            Ok(()) => {}
            Err(_) => self.lost = self.lost.saturating_add(1),
        }
    }
}
