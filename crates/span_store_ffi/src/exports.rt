//! What C calls. Each function takes whatever numbers C passes, tests them, and answers the number of a status.
ghost use Rattle.std.specs.Prelude.{◌≡◌, Some, None, Option, is_some, if◌then◌else◌, IfSome, IfNone, IfOk, IfErr};
ghost use Rattle.span_slots.specs.Table.{find};
ghost use Rattle.span_store.specs.StoredSpans.{is_closing};
ghost use Rattle.span_border.specs.Status.{meant};
ghost use Rattle.span_border.specs.Ends.{OnHeld, Keeps};
ghost use Rattle.span_store_ffi.specs.Calls.{Adds, KeepsSpan, ReleasesSpan, EndsSpan, AnswersSpan, AnswersNext, AnswersCounts, OpensStore, parent_numbered, store_limits, empty_store, WhyNotOpened, store_abi_version};

mod details;

use crate::data::{SpanStoreCounts, SpanStoreFound};
use crate::handle::SpanStore;
use span_border::{Holds, Status, id_number};
use span_id::{Bits, Fault, Id, Limits};
use span_store::Store;
use span_store::laws::each_slot_has_one_id_there;
use std::alloc::Global;

// The id of a number, where it is one. A number that is none names no span.
fn id_of(store: &Store, number: u64) -> Option<Id>
    ensures id { IfSome result (λ id. id ≡ number) }
    ensures absent { IfNone result (find store.now.table.entries number ≡ None) }
{
    each_slot_has_one_id_there(store);
    Id::from_u64(number)
}

// A new store in a box.
fn open(
    alloc: Global,
    slots: u32,
    last_generation: u32,
    max_count: u32,
) -> Result<Box<Store>, Fault>
    ensures new { IfOk result (λ store. store.value ≡ empty_store (store_limits slots last_generation max_count)) }
    ensures why { IfErr result (λ fault. WhyNotOpened (store_limits slots last_generation max_count) fault) }
{
    let limits = Limits {
        slots,
        last_generation,
        max_count,
        workers: 1,
        ring: 1,
    };
    let checked = limits.check()?;
    let store = Store::new(alloc, &checked)?;
    Ok(Box::new(alloc, store)?)
}

/// The version of this interface. It rises where a program that was built for an earlier one would go wrong.
#[unsafe(no_mangle)]
pub extern "C" fn span_store_abi_version() -> u32
    ensures { result ≡ store_abi_version }
{
    2
}

/// Fills an empty handle with a new store.
#[unsafe(no_mangle)]
pub extern "C" fn span_store_new(
    alloc: Global,
    store: &mut SpanStore,
    slots: u32,
    last_generation: u32,
    max_count: u32,
) -> u32
    ensures { OpensStore (store_limits slots last_generation max_count) store.old.held (meant result) store.new.held }
{
    if !store.is_empty(alloc) {
        return Status::HandleInUse.number();
    }
    match open(alloc, slots, last_generation, max_count) {
        Ok(held) => {
            store.put(held);
            Status::Done.number()
        }
        Err(fault) => Status::Refused(fault).number(),
    }
}

/// Gives a store and its memory up: the handle is empty then.
#[unsafe(no_mangle)]
pub extern "C" fn span_store_free(alloc: Global, store: &mut SpanStore) -> u32
    ensures status { meant result ≡ Some (if is_some store.old.held then Status.Done else Status.EmptyHandle) }
    ensures empty { store.new.held ≡ None }
{
    store.free(alloc).number()
}

fn add(store: &mut Store, parent: u64, bits: u64, word: u64, id: &mut u64) -> Status
    ensures added { Adds parent bits word id.new store.old result store.new }
    ensures kept { Keeps (Some result) id.old id.new }
{
    let above = if parent == 0 {
        None
    } else {
        let Some(above) = id_of(store, parent) else {
            return Status::Refused(Fault::Unknown);
        };
        Some(above)
    };
    match store.add(above, Bits(bits), word) {
        Ok(new) => {
            *id = new.get();
            Status::Done
        }
        Err(fault) => Status::Refused(fault),
    }
}

/// Makes a span with one handle, under a parent that is open, or under none where that is 0. Its id is told.
#[unsafe(no_mangle)]
pub extern "C" fn span_store_add(
    alloc: Global,
    store: &mut SpanStore,
    parent: u64,
    bits: u64,
    word: u64,
    id: &mut u64,
) -> u32
    ensures added { OnHeld store.old.held (Adds parent bits word id.new) (meant result) store.new.held }
    ensures kept { Keeps (meant result) id.old id.new }
{
    let Some(mut held) = store.take(alloc) else {
        return Status::EmptyHandle.number();
    };
    let status = add(&mut held, parent, bits, word, id);
    store.put(held);
    status.number()
}

fn keep(store: &mut Store, id: u64) -> Status
    ensures { KeepsSpan id store.old result store.new }
{
    let Some(id) = id_of(store, id) else {
        return Status::Refused(Fault::Unknown);
    };
    match store.keep(id) {
        Ok(()) => Status::Done,
        Err(fault) => Status::Refused(fault),
    }
}

/// One more handle of a span that is open.
#[unsafe(no_mangle)]
pub extern "C" fn span_store_keep(alloc: Global, store: &mut SpanStore, id: u64) -> u32
    ensures { OnHeld store.old.held (KeepsSpan id) (meant result) store.new.held }
{
    let Some(mut held) = store.take(alloc) else {
        return Status::EmptyHandle.number();
    };
    let status = keep(&mut held, id);
    store.put(held);
    status.number()
}

fn release(store: &mut Store, id: u64, closing: &mut u32) -> Status
    ensures released { ReleasesSpan id closing.new store.old result store.new }
    ensures kept { Keeps (Some result) closing.old closing.new }
{
    let Some(id) = id_of(store, id) else {
        return Status::Refused(Fault::Unknown);
    };
    match store.release(id) {
        Ok(yes) => {
            *closing = u32::from(yes);
            Status::Done
        }
        Err(fault) => Status::Refused(fault),
    }
}

/// Gives a handle of a span back, and tells 1 where the span is closing now, else 0.
#[unsafe(no_mangle)]
pub extern "C" fn span_store_release(
    alloc: Global,
    store: &mut SpanStore,
    id: u64,
    closing: &mut u32,
) -> u32
    ensures released { OnHeld store.old.held (ReleasesSpan id closing.new) (meant result) store.new.held }
    ensures kept { Keeps (meant result) closing.old closing.new }
{
    let Some(mut held) = store.take(alloc) else {
        return Status::EmptyHandle.number();
    };
    let status = release(&mut held, id, closing);
    store.put(held);
    status.number()
}

fn ended(store: &mut Store, id: u64, parent: &mut u64) -> Status
    ensures ended { EndsSpan id parent.new store.old result store.new }
    ensures kept { Keeps (Some result) parent.old parent.new }
{
    let Some(id) = id_of(store, id) else {
        return Status::Refused(Fault::Unknown);
    };
    match store.ended(id) {
        Ok(above) => {
            *parent = id_number(above);
            Status::Done
        }
        Err(fault) => Status::Refused(fault),
    }
}

/// Ends a span that is closing, and tells its parent where that is closing now, else 0.
#[unsafe(no_mangle)]
pub extern "C" fn span_store_ended(
    alloc: Global,
    store: &mut SpanStore,
    id: u64,
    parent: &mut u64,
) -> u32
    ensures ended { OnHeld store.old.held (EndsSpan id parent.new) (meant result) store.new.held }
    ensures kept { Keeps (meant result) parent.old parent.new }
{
    let Some(mut held) = store.take(alloc) else {
        return Status::EmptyHandle.number();
    };
    let status = ended(&mut held, id, parent);
    store.put(held);
    status.number()
}

fn find(store: &Store, id: u64, found: &mut SpanStoreFound) -> Status
    ensures found { AnswersSpan id found.new store.now result store.now }
    ensures kept { Keeps (Some result) found.old found.new }
{
    let Some(id) = id_of(store, id) else {
        return Status::Refused(Fault::Unknown);
    };
    let Some(entry) = store.find(id) else {
        return Status::Refused(Fault::Unknown);
    };
    *found = SpanStoreFound {
        parent: id_number(entry.parent),
        bits: entry.bits.0,
        word: entry.word,
        handles: entry.handles,
        children: entry.children,
    };
    Status::Done
}

/// What is known of a span that is there: an open or a closing one.
#[unsafe(no_mangle)]
pub extern "C" fn span_store_find(
    alloc: Global,
    store: &mut SpanStore,
    id: u64,
    found: &mut SpanStoreFound,
) -> u32
    ensures found { OnHeld store.old.held (AnswersSpan id found.new) (meant result) store.new.held }
    ensures kept { Keeps (meant result) found.old found.new }
{
    let Some(held) = store.take(alloc) else {
        return Status::EmptyHandle.number();
    };
    let status = find(&held, id, found);
    store.put(held);
    status.number()
}

fn next(store: &Store, after: u64, id: &mut u64) -> Status
    ensures told { AnswersNext after id.new store.now result store.now }
    ensures kept { Keeps (Some result) id.old id.new }
{
    let slot = if after == 0 {
        0
    } else {
        let Some(last) = Id::from_u64(after) else {
            return Status::Refused(Fault::Unknown);
        };
        last.slot() + 1
    };
    *id = id_number(store.id_from(slot));
    Status::Done
}

/// The next span that is there, by slots, after one of this id, whether or not that is there; or the first one, where
/// that is 0. Its id is told, or 0 where none is left.
#[unsafe(no_mangle)]
pub extern "C" fn span_store_next(
    alloc: Global,
    store: &mut SpanStore,
    after: u64,
    id: &mut u64,
) -> u32
    ensures told { OnHeld store.old.held (AnswersNext after id.new) (meant result) store.new.held }
    ensures kept { Keeps (meant result) id.old id.new }
{
    let Some(held) = store.take(alloc) else {
        return Status::EmptyHandle.number();
    };
    let status = next(&held, after, id);
    store.put(held);
    status.number()
}

fn counts_of(store: &Store) -> SpanStoreCounts
    ensures { AnswersCounts result store.now Status.Done store.now }
{
    SpanStoreCounts {
        handles: store.handles(),
        spans: store.len(),
    }
}

/// How many handles and how many spans there are.
#[unsafe(no_mangle)]
pub extern "C" fn span_store_counts(
    alloc: Global,
    store: &mut SpanStore,
    counts: &mut SpanStoreCounts,
) -> u32
    ensures counts { OnHeld store.old.held (AnswersCounts counts.new) (meant result) store.new.held }
    ensures kept { Keeps (meant result) counts.old counts.new }
{
    let Some(held) = store.take(alloc) else {
        return Status::EmptyHandle.number();
    };
    *counts = counts_of(&held);
    store.put(held);
    Status::Done.number()
}
