//! That a span follows from another.
ghost use Rattle.std.specs.Prelude.{◌≡◌, [], ◌∷◌, IfOk};
ghost use Rattle.span_border.specs.Status.{meant};
ghost use Rattle.span_border.specs.Ends.{OnHeld};
ghost use Rattle.span_ffi.specs.Registry.{OnCore, HasPlainHeading};
ghost use Rattle.span_ffi.specs.Follows.{follows_field, FollowsFrom};

use crate::exports::callers::{has_worker, id_of};
use crate::registry::RingCore;
use crate::registry_handle::SpanRegistry;
use itoa::Buffer;
use span_border::{Holds, Status};
use span_id::{Fault, Field, Fields, copy_text};
use std::alloc::Global;

// The field that tells which span is followed. The only error is `Memory`.
fn follows_field(alloc: Global, followed: u64) -> Result<Fields, Fault>
    ensures { IfOk result (λ fields. fields ≡ follows_field followed ∷ []) }
{
    let mut digits = Buffer::new();
    let key = copy_text(alloc, "follows_from")?;
    let value = copy_text(alloc, digits.format(followed))?;
    Fields::one(alloc, Field { key, value })
}

fn follows_from(alloc: Global, core: &mut RingCore, worker: u32, id: u64, followed: u64) -> Status
    ensures { FollowsFrom worker id followed core.old result core.new }
{
    if !has_worker(core, worker) {
        return Status::NoSuchWorker;
    }
    let Ok(fields) = follows_field(alloc, followed) else {
        return Status::Refused(Fault::Memory);
    };
    let Some(id) = id_of(core, id) else {
        return Status::Refused(Fault::Unknown);
    };
    match core.record_shared(worker, id, &fields) {
        Ok(()) => Status::Done,
        Err(fault) => Status::Refused(fault),
    }
}

/// Tells that a span follows from another, which may have closed: a record of the one field `follows_from`, whose value
/// is the other's number. Any number is taken.
#[unsafe(no_mangle)]
pub extern "C" fn span_registry_follows_from(
    alloc: Global,
    registry: &mut SpanRegistry,
    worker: u32,
    id: u64,
    followed: u64,
) -> u32
    ensures told { OnHeld registry.old.held (OnCore (FollowsFrom worker id followed)) (meant result) registry.new.held }
    ensures heading { OnHeld registry.old.held HasPlainHeading (meant result) registry.new.held }
{
    let Some(mut held) = registry.take(alloc) else {
        return Status::EmptyHandle.number();
    };
    let calls = held.core.calls();
    let status = follows_from(alloc, &mut held.core, worker, id, followed);
    held.keep_heading(alloc, status, calls);
    registry.put(held);
    status.number()
}
