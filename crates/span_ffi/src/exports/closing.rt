//! The calls that give a holder of a span back and tell which spans closed.
ghost use Rattle.std.specs.Prelude.{◌≡◌, ◌<◌, ◌++◌, Some, IfErr, OnOk, OnErr, length, take, drop};
ghost use Rattle.span_forest.specs.declared.span.Holder.TheVariants.{Handle};
ghost use Rattle.span_forest.specs.Release.{closing_list};
ghost use Rattle.span_outlet.specs.Request.{exit, exited, try_close, released};
ghost use Rattle.span_core.specs.Step.{closed_by_exit};
ghost use Rattle.span_core.specs.Core.{IsAccepted, IsRefused};
ghost use Rattle.span_border.specs.Status.{meant};
ghost use Rattle.span_border.specs.Ends.{OnHeld, Keeps};
ghost use Rattle.span_ffi.specs.Registry.{OnCore, HasPlainHeading};
ghost use Rattle.span_ffi.specs.Closing.{WritesFirst, AnswersClosed, ExitsClosing, ReleasesClosing};

use crate::exports::callers::{has_worker, id_of};
use crate::registry::RingCore;
use crate::registry_handle::SpanRegistry;
use span_border::{Holds, Status, write_ids};
use span_core::laws::the_named_span_closes_first;
use span_id::{Fault, Id};
use std::alloc::Global;

/// A buffer of C for the ids of the spans that close, and how many they are.
#[derive(Drop)]
struct ClosedIds<'b> {
    into: &'b mut [u64],
    len: usize,
}

impl<'b> ClosedIds<'b> {
    // Writes the first of the ids, as many as there is room for, and keeps how many they are.
    fn write(&mut self, ids: &[Id])
        ensures same_buffer { self.new.into.ghost_name ≡ self.old.into.ghost_name }
        ensures first { WritesFirst ids.now self.old.into.now self.new.into.now self.new.len }
    {
        write_first(ids, self.into);
        self.len = ids.len();
    }
}

// The first of the ids, as many as there is room for.
fn first_of(ids: &[Id], room: usize) -> &[Id]
    ensures { result.now ≡ take room ids.now }
{
    if room < ids.len() { &ids[..room] } else { ids }
}

// Writes the first of the ids to the beginning of a buffer, as many as it has room for.
fn write_first(ids: &[Id], into: &mut [u64])
    ensures { into.new ≡ take (length into.old) ids.now ++ drop (length ids.now) into.old }
{
    let first = first_of(ids, into.len());
    let mut written = 0;
    write_ids(first, into, &mut written);
}

// A worker leaves a span, and the ids of the spans that close are written.
fn exit_into(
    core: &mut RingCore,
    worker: u32,
    id: Id,
    closed: &mut ClosedIds<'_>,
) -> Result<(), Fault>
    requires { worker < core.old.limits.workers }
    ensures same_buffer { closed.new.into.ghost_name ≡ closed.old.into.ghost_name }
    ensures accepted { OnOk result (IsAccepted core.old (exit worker id)
        (exited (closed_by_exit core.old.world worker id)) core.new) }
    ensures told { OnOk result (AnswersClosed id (closed_by_exit core.old.world worker id) closed.old.into.now
        closed.new.into.now closed.new.len core.new) }
    ensures refused { IfErr result (λ fault. IsRefused core.old (exit worker id) fault core.new) }
    ensures unwritten { OnErr result (closed.new.into.now ≡ closed.old.into.now) }
{
    the_named_span_closes_first(core);
    match core.exit_with(worker, id, closed, ClosedIds::write) {
        Ok(_) => Ok(()),
        Err(fault) => Err(fault),
    }
}

fn exit_closing(
    core: &mut RingCore,
    worker: u32,
    id: u64,
    into: &mut [u64],
    len: &mut usize,
) -> Status
    ensures exited { ExitsClosing worker id into.old into.new len.new core.old result core.new }
    ensures into { Keeps (Some result) into.old into.new }
    ensures len { Keeps (Some result) len.old len.new }
{
    if !has_worker(core, worker) {
        return Status::NoSuchWorker;
    }
    let Some(id) = id_of(core, id) else {
        return Status::Refused(Fault::Unknown);
    };
    let mut closed = ClosedIds { into, len: 0 };
    match exit_into(core, worker, id, &mut closed) {
        Ok(()) => {
            *len = closed.len;
            Status::Done
        }
        Err(fault) => Status::Refused(fault),
    }
}

/// A worker leaves a span, as `span_registry_exit` has it. The ids of the spans that closed, child first, are written
/// to the beginning of a buffer, as many as it has room for, and it tells how many they are: 0 where none closed.
#[unsafe(no_mangle)]
pub extern "C" fn span_registry_exit_closing(
    alloc: Global,
    registry: &mut SpanRegistry,
    worker: u32,
    id: u64,
    into: &mut [u64],
    len: &mut usize,
) -> u32
    ensures exited { OnHeld registry.old.held (OnCore (ExitsClosing worker id into.old into.new len.new))
        (meant result) registry.new.held }
    ensures into { Keeps (meant result) into.old into.new }
    ensures len { Keeps (meant result) len.old len.new }
    ensures heading { OnHeld registry.old.held HasPlainHeading (meant result) registry.new.held }
{
    let Some(mut held) = registry.take(alloc) else {
        return Status::EmptyHandle.number();
    };
    let calls = held.core.calls();
    let status = exit_closing(&mut held.core, worker, id, into, len);
    held.keep_heading(alloc, status, calls);
    registry.put(held);
    status.number()
}

// A handle of a span is given back, and the ids of the spans that close are written.
fn try_close_into(
    core: &mut RingCore,
    worker: u32,
    id: Id,
    closed: &mut ClosedIds<'_>,
) -> Result<(), Fault>
    requires { worker < core.old.limits.workers }
    ensures same_buffer { closed.new.into.ghost_name ≡ closed.old.into.ghost_name }
    ensures accepted { OnOk result (IsAccepted core.old (try_close worker id)
        (released (closing_list core.old.world.spans id Handle)) core.new) }
    ensures told { OnOk result (AnswersClosed id (closing_list core.old.world.spans id Handle) closed.old.into.now
        closed.new.into.now closed.new.len core.new) }
    ensures refused { IfErr result (λ fault. IsRefused core.old (try_close worker id) fault core.new) }
    ensures unwritten { OnErr result (closed.new.into.now ≡ closed.old.into.now) }
{
    the_named_span_closes_first(core);
    match core.try_close_with(worker, id, closed, ClosedIds::write) {
        Ok(_) => Ok(()),
        Err(fault) => Err(fault),
    }
}

fn try_close_closing(
    core: &mut RingCore,
    worker: u32,
    id: u64,
    into: &mut [u64],
    len: &mut usize,
) -> Status
    ensures released { ReleasesClosing worker id into.old into.new len.new core.old result core.new }
    ensures into { Keeps (Some result) into.old into.new }
    ensures len { Keeps (Some result) len.old len.new }
{
    if !has_worker(core, worker) {
        return Status::NoSuchWorker;
    }
    let Some(id) = id_of(core, id) else {
        return Status::Refused(Fault::Unknown);
    };
    let mut closed = ClosedIds { into, len: 0 };
    match try_close_into(core, worker, id, &mut closed) {
        Ok(()) => {
            *len = closed.len;
            Status::Done
        }
        Err(fault) => Status::Refused(fault),
    }
}

/// Gives a handle of a span back, and tells which spans closed, as `span_registry_exit_closing` does.
#[unsafe(no_mangle)]
pub extern "C" fn span_registry_try_close_closing(
    alloc: Global,
    registry: &mut SpanRegistry,
    worker: u32,
    id: u64,
    into: &mut [u64],
    len: &mut usize,
) -> u32
    ensures released { OnHeld registry.old.held (OnCore (ReleasesClosing worker id into.old into.new len.new))
        (meant result) registry.new.held }
    ensures into { Keeps (meant result) into.old into.new }
    ensures len { Keeps (meant result) len.old len.new }
    ensures heading { OnHeld registry.old.held HasPlainHeading (meant result) registry.new.held }
{
    let Some(mut held) = registry.take(alloc) else {
        return Status::EmptyHandle.number();
    };
    let calls = held.core.calls();
    let status = try_close_closing(&mut held.core, worker, id, into, len);
    held.keep_heading(alloc, status, calls);
    registry.put(held);
    status.number()
}
