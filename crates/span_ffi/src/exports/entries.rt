//! The calls that change a worker's stack.
ghost use Rattle.std.specs.Prelude.{Some};
ghost use Rattle.span_border.specs.Status.{meant};
ghost use Rattle.span_ffi.specs.Registry.{OnCore, HasPlainHeading};
ghost use Rattle.span_border.specs.Ends.{OnHeld, Keeps};
ghost use Rattle.span_ffi.specs.Calls.{Enters, Exits};

use crate::exports::callers::{has_worker, id_of};
use crate::registry::RingCore;
use crate::registry_handle::SpanRegistry;
use span_border::{Holds, Status};
use span_id::Fault;
use std::alloc::Global;

fn enter(core: &mut RingCore, worker: u32, id: u64, first: &mut u32) -> Status
    ensures entered { Enters worker id first.new core.old result core.new }
    ensures kept { Keeps (Some result) first.old first.new }
{
    if !has_worker(core, worker) {
        return Status::NoSuchWorker;
    }
    let Some(id) = id_of(core, id) else {
        return Status::Refused(Fault::Unknown);
    };
    match core.enter(worker, id) {
        Ok(yes) => {
            *first = u32::from(yes);
            Status::Done
        }
        Err(fault) => Status::Refused(fault),
    }
}

/// A worker enters a span that has a handle. It tells 1 where the entry is no duplicate, else 0.
#[unsafe(no_mangle)]
pub extern "C" fn span_registry_enter(
    alloc: Global,
    registry: &mut SpanRegistry,
    worker: u32,
    id: u64,
    first: &mut u32,
) -> u32
    ensures entered { OnHeld registry.old.held (OnCore (Enters worker id first.new)) (meant result) registry.new.held }
    ensures kept { Keeps (meant result) first.old first.new }
    ensures heading { OnHeld registry.old.held HasPlainHeading (meant result) registry.new.held }
{
    let Some(mut held) = registry.take(alloc) else {
        return Status::EmptyHandle.number();
    };
    let calls = held.core.calls();
    let status = enter(&mut held.core, worker, id, first);
    held.keep_heading(alloc, status, calls);
    registry.put(held);
    status.number()
}

fn exit(core: &mut RingCore, worker: u32, id: u64, closed: &mut u32) -> Status
    ensures exited { Exits worker id closed.new core.old result core.new }
    ensures kept { Keeps (Some result) closed.old closed.new }
{
    if !has_worker(core, worker) {
        return Status::NoSuchWorker;
    }
    let Some(id) = id_of(core, id) else {
        return Status::Refused(Fault::Unknown);
    };
    match core.exit(worker, id) {
        Ok(yes) => {
            *closed = u32::from(yes);
            Status::Done
        }
        Err(fault) => Status::Refused(fault),
    }
}

/// A worker leaves a span: its topmost entry of the span is taken out. It tells 1 where the span closed, else 0.
#[unsafe(no_mangle)]
pub extern "C" fn span_registry_exit(
    alloc: Global,
    registry: &mut SpanRegistry,
    worker: u32,
    id: u64,
    closed: &mut u32,
) -> u32
    ensures exited { OnHeld registry.old.held (OnCore (Exits worker id closed.new)) (meant result) registry.new.held }
    ensures kept { Keeps (meant result) closed.old closed.new }
    ensures heading { OnHeld registry.old.held HasPlainHeading (meant result) registry.new.held }
{
    let Some(mut held) = registry.take(alloc) else {
        return Status::EmptyHandle.number();
    };
    let calls = held.core.calls();
    let status = exit(&mut held.core, worker, id, closed);
    held.keep_heading(alloc, status, calls);
    registry.put(held);
    status.number()
}
