//! What a program says of its calls, and how many headings were lost.
ghost use Rattle.std.specs.Prelude.{◌↔◌, Some, IsTrue};
ghost use Rattle.span_border.specs.Status.{meant};
ghost use Rattle.span_border.specs.Ends.{OnHeld, Keeps};
ghost use Rattle.span_ffi.specs.Headings.{AreKinds};
ghost use Rattle.span_ffi.specs.Registry.{OnHeadings};
ghost use Rattle.span_ffi.specs.SayingHeadings.{SaysOfCalls, CountsLost};

use crate::headings::Headings;
use crate::registry_handle::SpanRegistry;
use span_border::{Holds, Status};
use span_id::Fault;
use std::alloc::Global;

// Whether these are kinds of values.
fn are_kinds(kinds: &[u8]) -> bool
    ensures { IsTrue result ↔ AreKinds kinds.now }
{
    kinds.iter().all(|kind| *kind <= 4)
}

fn say_of_calls(alloc: Global, headings: &mut Option<Headings>, stamp: u64, kinds: &[u8]) -> Status
    ensures { SaysOfCalls stamp kinds.now headings.old result headings.new }
{
    let Some(headings) = headings else {
        return Status::BadData;
    };
    if !are_kinds(kinds) {
        return Status::BadData;
    }
    let mut copy = Vec::new(alloc);
    if copy.extend_from_slice(kinds).is_err() {
        return Status::Refused(Fault::Memory);
    }
    headings.say(stamp, copy);
    Status::Done
}

/// Says the stamp of the calls that follow, and of which kinds the values of the next accepted one are, in the order of
/// its fields: 0 text, 1 integer, 2 float, 3 bool, 4 null.
#[unsafe(no_mangle)]
pub extern "C" fn span_registry_say_of_calls(
    alloc: Global,
    registry: &mut SpanRegistry,
    stamp: u64,
    kinds: &[u8],
) -> u32
    ensures { OnHeld registry.old.held (OnHeadings (SaysOfCalls stamp kinds.now)) (meant result) registry.new.held }
{
    let Some(mut held) = registry.take(alloc) else {
        return Status::EmptyHandle.number();
    };
    let status = say_of_calls(alloc, &mut held.headings, stamp, kinds);
    registry.put(held);
    status.number()
}

fn headings_lost(headings: &Option<Headings>, lost: &mut u64) -> Status
    ensures lost { CountsLost lost.new headings.now result headings.now }
    ensures kept { Keeps (Some result) lost.old lost.new }
{
    let Some(headings) = headings else {
        return Status::BadData;
    };
    *lost = headings.lost();
    Status::Done
}

/// How many headings were lost, as their ring had no place, or for want of memory. It stays at its greatest value.
#[unsafe(no_mangle)]
pub extern "C" fn span_registry_headings_lost(
    alloc: Global,
    registry: &mut SpanRegistry,
    lost: &mut u64,
) -> u32
    ensures lost { OnHeld registry.old.held (OnHeadings (CountsLost lost.new)) (meant result) registry.new.held }
    ensures kept { Keeps (meant result) lost.old lost.new }
{
    let Some(held) = registry.take(alloc) else {
        return Status::EmptyHandle.number();
    };
    let status = headings_lost(&held.headings, lost);
    registry.put(held);
    status.number()
}
