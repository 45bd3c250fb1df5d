//! New callsites: metas that are handed over once.
ghost use Rattle.std.specs.Prelude.{◌≡◌, true, length, Some, IfOk, IfErr, OnOk, OnSome, IfSome};
ghost use Rattle.span_id.specs.Name.{is_name};
ghost use Rattle.span_border.specs.Status.{meant};
ghost use Rattle.span_border.specs.Ends.{OnHeld, Keeps};
ghost use Rattle.span_ffi.specs.Registry.{OnCallsites};
ghost use Rattle.span_ffi.specs.Data.{IsCallsite, said_meta};
ghost use Rattle.span_ffi.specs.Callsites.{AddsCallsite};
ghost use Rattle.span_ffi.specs.inside.Adding.{WhyNoNumber, AddsMeta};

use crate::callsites::Callsites;
use crate::data::SpanMeta;
use crate::reading::{read_meta, unread};
use crate::registry_handle::SpanRegistry;
use crate::valid::is_span;
use span_border::{Holds, Status};
use span_id::{Fault, SharedMeta};
use std::alloc::Global;

// The number that a callsite of this meta gets, where it may have one.
fn number_for(callsites: &Callsites, meta: &SharedMeta) -> Result<u32, Fault>
    ensures number { IfOk result (λ number. number ≡ length callsites.now) }
    ensures name { OnOk result (is_name meta.now.name ≡ true) }
    ensures why { IfErr result (WhyNoNumber meta.now callsites.now) }
{
    if !meta.as_meta().fit() {
        return Err(Fault::BadName);
    }
    callsites.next_number().ok_or(Fault::CountFull)
}

// Keeps a meta that was read behind the others, and tells its number.
fn add_meta(callsites: &mut Callsites, meta: SharedMeta, number: &mut u32) -> Status
    ensures added { AddsMeta meta number.new callsites.old result callsites.new }
    ensures kept { Keeps (Some result) number.old number.new }
{
    match number_for(callsites, &meta) {
        Ok(next) => match callsites.add(meta) {
            Ok(()) => {
                *number = next;
                Status::Done
            }
            Err(_) => Status::Refused(Fault::Memory),
        },
        Err(fault) => Status::Refused(fault),
    }
}

// The meta whose texts are all the bytes. None: the data say nothing, or memory is refused.
fn read_callsite(alloc: Global, meta: &SpanMeta, texts: &[u8]) -> Option<SharedMeta>
    ensures is { OnSome result (IsCallsite meta.now texts.now) }
    ensures meta { IfSome result (λ read. read ≡ said_meta meta.now texts.now) }
{
    let (read, behind) = read_meta(alloc, meta, texts)?;
    if behind.is_empty() { Some(read) } else { None }
}

fn add_callsite(
    alloc: Global,
    callsites: &mut Callsites,
    meta: &SpanMeta,
    texts: &[u8],
    number: &mut u32,
) -> Status
    ensures added { AddsCallsite meta.now texts.now number.new callsites.old result callsites.new }
    ensures kept { Keeps (Some result) number.old number.new }
{
    match read_callsite(alloc, meta, texts) {
        Some(read) => add_meta(callsites, read, number),
        None => unread(is_span(meta, &[], texts)),
    }
}

/// Adds a callsite, and tells its number: how many there were before. The texts are its name and its target. A name
/// that no span and no event may have is refused here.
#[unsafe(no_mangle)]
pub extern "C" fn span_registry_add_callsite(
    alloc: Global,
    registry: &mut SpanRegistry,
    meta: &SpanMeta,
    texts: &[u8],
    number: &mut u32,
) -> u32
    ensures added { OnHeld registry.old.held (OnCallsites (AddsCallsite meta.now texts.now number.new))
        (meant result) registry.new.held }
    ensures kept { Keeps (meant result) number.old number.new }
{
    let Some(mut held) = registry.take(alloc) else {
        return Status::EmptyHandle.number();
    };
    let status = add_callsite(alloc, &mut held.callsites, meta, texts, number);
    registry.put(held);
    status.number()
}
