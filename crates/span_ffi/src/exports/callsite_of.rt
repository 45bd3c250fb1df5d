//! Which callsite an open span has.
ghost use Rattle.std.specs.Prelude.{Some};
ghost use Rattle.span_border.specs.Status.{meant};
ghost use Rattle.span_border.specs.Ends.{OnHeld, Keeps};
ghost use Rattle.span_ffi.specs.Registry.{AsksWithCallsites};
ghost use Rattle.span_ffi.specs.CallsiteOf.{AnswersCallsiteOf};

use crate::callsites::Callsites;
use crate::exports::callers::id_of;
use crate::registry::RingCore;
use crate::registry_handle::SpanRegistry;
use span_border::{Holds, Status};
use span_id::Fault;
use std::alloc::Global;

fn callsite_of(core: &RingCore, callsites: &Callsites, id: u64, callsite: &mut u32) -> Status
    ensures callsite { AnswersCallsiteOf id callsite.new callsites.now core.now result core.now }
    ensures kept { Keeps (Some result) callsite.old callsite.new }
{
    let Some(id) = id_of(core, id) else {
        return Status::Refused(Fault::Unknown);
    };
    let Some(span) = core.find(id) else {
        return Status::Refused(Fault::Unknown);
    };
    let Some(number) = callsites.first_like(span.meta.as_meta()) else {
        return Status::NoSuchCallsite;
    };
    *callsite = number;
    Status::Done
}

/// Which callsite an open span has: the number of the first one whose level, name and target are the span's. One that was
/// made at a callsite has one: equal callsites can't be told apart, and the first of them is told. `NoSuchCallsite` where
/// none has them: the span was made by its texts. It looks through the callsites, and takes no memory.
#[unsafe(no_mangle)]
pub extern "C" fn span_registry_callsite_of(
    alloc: Global,
    registry: &mut SpanRegistry,
    id: u64,
    callsite: &mut u32,
) -> u32
    ensures callsite { OnHeld registry.old.held (AsksWithCallsites (AnswersCallsiteOf id callsite.new)) (meant result)
        registry.new.held }
    ensures kept { Keeps (meant result) callsite.old callsite.new }
{
    let Some(held) = registry.take(alloc) else {
        return Status::EmptyHandle.number();
    };
    let status = callsite_of(&held.core, &held.callsites, id, callsite);
    registry.put(held);
    status.number()
}
