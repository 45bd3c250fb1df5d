//! Which spans are open, and what keeps them open.
ghost use Rattle.std.specs.Prelude.{Some};
ghost use Rattle.span_border.specs.Status.{meant};
ghost use Rattle.span_ffi.specs.Registry.{AsksCore};
ghost use Rattle.span_border.specs.Ends.{OnHeld, Keeps};
ghost use Rattle.span_border.specs.Buffers.{KeepsNumbers};
ghost use Rattle.span_ffi.specs.Holding.{held_as, AnswersOpen, AnswersHolders, AnswersWorkers};

use crate::data::SpanHeld;
use crate::exports::callers::id_of;
use crate::registry::RingCore;
use crate::registry_handle::SpanRegistry;
use span_border::{Holds, InC, Status, write_all, write_ids, write_in_c};
use span_forest::Held;
use span_id::Fault;
use std::alloc::Global;

fn open_ids(core: &RingCore, into: &mut [u64], len: &mut usize) -> Status
    ensures ids { AnswersOpen into.old into.new len.new core.now result core.now }
    ensures into { Keeps (Some result) into.old into.new }
    ensures len { KeepsNumbers (Some result) len.old len.new }
{
    match core.open_spans() {
        Ok(ids) => write_ids(ids.as_slice(), into, len),
        Err(fault) => Status::Refused(fault),
    }
}

/// Writes the ids of the open spans to the beginning of a buffer, by ascending slot, and tells how many they are. Where
/// the buffer is too short for them, it only tells how many they are.
#[unsafe(no_mangle)]
pub extern "C" fn span_registry_open_ids(
    alloc: Global,
    registry: &mut SpanRegistry,
    into: &mut [u64],
    len: &mut usize,
) -> u32
    ensures ids { OnHeld registry.old.held (AsksCore (AnswersOpen into.old into.new len.new)) (meant result)
        registry.new.held }
    ensures into { Keeps (meant result) into.old into.new }
    ensures len { KeepsNumbers (meant result) len.old len.new }
{
    let Some(held) = registry.take(alloc) else {
        return Status::EmptyHandle.number();
    };
    let status = open_ids(&held.core, into, len);
    registry.put(held);
    status.number()
}

impl InC<Held> for SpanHeld {
    ghost in_c = { held_as };

    fn to_c(held: &Held) -> SpanHeld {
        SpanHeld {
            id: held.id.get(),
            handles: held.handles,
            entries: held.entries,
        }
    }
}

fn holders_of(core: &RingCore, id: u64, into: &mut [SpanHeld], len: &mut usize) -> Status
    ensures holders { AnswersHolders id into.old into.new len.new core.now result core.now }
    ensures into { Keeps (Some result) into.old into.new }
    ensures len { KeepsNumbers (Some result) len.old len.new }
{
    let Some(id) = id_of(core, id) else {
        return Status::Refused(Fault::Unknown);
    };
    match core.holders_of(id) {
        Ok(held) => write_in_c(held.as_slice(), into, len),
        Err(fault) => Status::Refused(fault),
    }
}

/// Writes what keeps a span open to the beginning of a buffer, and tells how many they are: the spans at it or below it
/// that have handles or entries of their own, with how many, by ascending slot. Where the buffer is too short for them,
/// it only tells how many they are.
#[unsafe(no_mangle)]
pub extern "C" fn span_registry_holders_of(
    alloc: Global,
    registry: &mut SpanRegistry,
    id: u64,
    into: &mut [SpanHeld],
    len: &mut usize,
) -> u32
    ensures holders { OnHeld registry.old.held (AsksCore (AnswersHolders id into.old into.new len.new)) (meant result)
        registry.new.held }
    ensures into { Keeps (meant result) into.old into.new }
    ensures len { KeepsNumbers (meant result) len.old len.new }
{
    let Some(held) = registry.take(alloc) else {
        return Status::EmptyHandle.number();
    };
    let status = holders_of(&held.core, id, into, len);
    registry.put(held);
    status.number()
}

fn workers_inside(core: &RingCore, id: u64, into: &mut [u32], len: &mut usize) -> Status
    ensures workers { AnswersWorkers id into.old into.new len.new core.now result core.now }
    ensures into { Keeps (Some result) into.old into.new }
    ensures len { KeepsNumbers (Some result) len.old len.new }
{
    let Some(id) = id_of(core, id) else {
        return Status::Refused(Fault::Unknown);
    };
    if core.find(id).is_none() {
        return Status::Refused(Fault::Unknown);
    }
    match core.workers_inside(id) {
        Ok(workers) => write_all(workers.as_slice(), into, len),
        Err(fault) => Status::Refused(fault),
    }
}

/// Writes the numbers of the workers that are inside a span to the beginning of a buffer, in ascending order, and tells
/// how many they are: as many as the span has entries. A worker that entered it more than once stands there once. Where
/// the buffer is too short for them, it only tells how many they are.
#[unsafe(no_mangle)]
pub extern "C" fn span_registry_workers_inside(
    alloc: Global,
    registry: &mut SpanRegistry,
    id: u64,
    into: &mut [u32],
    len: &mut usize,
) -> u32
    ensures workers { OnHeld registry.old.held (AsksCore (AnswersWorkers id into.old into.new len.new)) (meant result)
        registry.new.held }
    ensures into { Keeps (meant result) into.old into.new }
    ensures len { KeepsNumbers (meant result) len.old len.new }
{
    let Some(held) = registry.take(alloc) else {
        return Status::EmptyHandle.number();
    };
    let status = workers_inside(&held.core, id, into, len);
    registry.put(held);
    status.number()
}
