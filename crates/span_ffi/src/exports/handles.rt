//! The handles of spans.
ghost use Rattle.std.specs.Prelude.{Some};
ghost use Rattle.span_border.specs.Status.{meant};
ghost use Rattle.span_ffi.specs.Registry.{OnCore, HasPlainHeading};
ghost use Rattle.span_border.specs.Ends.{OnHeld, Keeps};
ghost use Rattle.span_ffi.specs.Calls.{Clones, Releases};

use crate::exports::callers::{has_worker, id_of};
use crate::registry::RingCore;
use crate::registry_handle::SpanRegistry;
use span_border::{Holds, Status};
use span_id::Fault;
use std::alloc::Global;

fn clone_span(core: &mut RingCore, worker: u32, id: u64) -> Status
    ensures { Clones worker id core.old result core.new }
{
    if !has_worker(core, worker) {
        return Status::NoSuchWorker;
    }
    let Some(id) = id_of(core, id) else {
        return Status::Refused(Fault::Unknown);
    };
    match core.clone_span(worker, id) {
        Ok(()) => Status::Done,
        Err(fault) => Status::Refused(fault),
    }
}

/// One more handle of a span that has one.
#[unsafe(no_mangle)]
pub extern "C" fn span_registry_clone_span(
    alloc: Global,
    registry: &mut SpanRegistry,
    worker: u32,
    id: u64,
) -> u32
    ensures cloned { OnHeld registry.old.held (OnCore (Clones worker id)) (meant result) registry.new.held }
    ensures heading { OnHeld registry.old.held HasPlainHeading (meant result) registry.new.held }
{
    let Some(mut held) = registry.take(alloc) else {
        return Status::EmptyHandle.number();
    };
    let calls = held.core.calls();
    let status = clone_span(&mut held.core, worker, id);
    held.keep_heading(alloc, status, calls);
    registry.put(held);
    status.number()
}

fn try_close(core: &mut RingCore, worker: u32, id: u64, closed: &mut u32) -> Status
    ensures released { Releases worker id closed.new core.old result core.new }
    ensures kept { Keeps (Some result) closed.old closed.new }
{
    if !has_worker(core, worker) {
        return Status::NoSuchWorker;
    }
    let Some(id) = id_of(core, id) else {
        return Status::Refused(Fault::Unknown);
    };
    match core.try_close(worker, id) {
        Ok(yes) => {
            *closed = u32::from(yes);
            Status::Done
        }
        Err(fault) => Status::Refused(fault),
    }
}

/// Gives a handle of a span back, and tells 1 where the span closed, else 0.
#[unsafe(no_mangle)]
pub extern "C" fn span_registry_try_close(
    alloc: Global,
    registry: &mut SpanRegistry,
    worker: u32,
    id: u64,
    closed: &mut u32,
) -> u32
    ensures released { OnHeld registry.old.held (OnCore (Releases worker id closed.new)) (meant result)
        registry.new.held }
    ensures kept { Keeps (meant result) closed.old closed.new }
    ensures heading { OnHeld registry.old.held HasPlainHeading (meant result) registry.new.held }
{
    let Some(mut held) = registry.take(alloc) else {
        return Status::EmptyHandle.number();
    };
    let calls = held.core.calls();
    let status = try_close(&mut held.core, worker, id, closed);
    held.keep_heading(alloc, status, calls);
    registry.put(held);
    status.number()
}
