//! Which spans are there, and what holds each.
ghost use Rattle.std.specs.Prelude.{Some};
ghost use Rattle.span_border.specs.Status.{meant};
ghost use Rattle.span_border.specs.Ends.{OnHeld, Keeps};
ghost use Rattle.span_border.specs.Buffers.{KeepsNumbers};
ghost use Rattle.span_store_ffi.specs.Details.{details_as, AnswersDetails};

use crate::data::SpanStoreDetails;
use crate::handle::SpanStore;
use span_border::{Holds, InC, Status, id_number, write_in_c};
use span_store::{SpanDetails, Store};
use std::alloc::Global;

impl InC<SpanDetails> for SpanStoreDetails {
    ghost in_c = { details_as };

    fn to_c(one: &SpanDetails) -> SpanStoreDetails {
        SpanStoreDetails {
            id: one.id.get(),
            parent: id_number(one.parent),
            word: one.word,
            handles: one.handles,
            children: one.children,
            closing: u32::from(one.closing),
        }
    }
}

fn details(store: &Store, into: &mut [SpanStoreDetails], len: &mut usize) -> Status
    ensures details { AnswersDetails into.old into.new len.new store.now result store.now }
    ensures into { Keeps (Some result) into.old into.new }
    ensures len { KeepsNumbers (Some result) len.old len.new }
{
    match store.span_details() {
        Ok(details) => write_in_c(details.as_slice(), into, len),
        Err(fault) => Status::Refused(fault),
    }
}

/// Writes what is known of each span that is there to the beginning of a buffer, by ascending slot, and tells how many
/// they are. Where the buffer is too short for them, it only tells how many they are.
#[unsafe(no_mangle)]
pub extern "C" fn span_store_details(
    alloc: Global,
    store: &mut SpanStore,
    into: &mut [SpanStoreDetails],
    len: &mut usize,
) -> u32
    ensures details { OnHeld store.old.held (AnswersDetails into.old into.new len.new) (meant result) store.new.held }
    ensures into { Keeps (meant result) into.old into.new }
    ensures len { KeepsNumbers (meant result) len.old len.new }
{
    let Some(held) = store.take(alloc) else {
        return Status::EmptyHandle.number();
    };
    let status = details(&held, into, len);
    store.put(held);
    status.number()
}
