//! Questions, which change nothing.
ghost use Rattle.std.specs.Prelude.{Some};
ghost use Rattle.span_border.specs.Status.{meant};
ghost use Rattle.span_ffi.specs.Registry.{AsksCore};
ghost use Rattle.span_border.specs.Ends.{OnHeld, Keeps};
ghost use Rattle.span_ffi.specs.Calls.{Finds, SeesCurrent, Counts};
ghost use Rattle.span_ffi.specs.Questions.{SeesEntry, AnswersLayers, AnswersTimesFull};

use crate::data::{SpanCounts, SpanFound};
use crate::exports::callers::{has_worker, id_of};
use crate::registry::RingCore;
use crate::registry_handle::SpanRegistry;
use span_border::{Holds, Status, id_number};
use span_core::laws::layers_admit_spans_by_their_rules;
use span_id::Fault;
use std::alloc::Global;

fn find(core: &RingCore, id: u64, found: &mut SpanFound) -> Status
    ensures found { Finds id found.new core.now result core.now }
    ensures kept { Keeps (Some result) found.old found.new }
{
    let Some(id) = id_of(core, id) else {
        return Status::Refused(Fault::Unknown);
    };
    let Some(span) = core.find(id) else {
        return Status::Refused(Fault::Unknown);
    };
    *found = SpanFound {
        parent: id_number(span.parent),
        handles: span.handles,
        entries: span.entries,
        count: span.count,
        level: u32::from(span.meta.as_meta().level.verbosity()),
    };
    Status::Done
}

/// What is known of a span, where it is open.
#[unsafe(no_mangle)]
pub extern "C" fn span_registry_find(
    alloc: Global,
    registry: &mut SpanRegistry,
    id: u64,
    found: &mut SpanFound,
) -> u32
    ensures found { OnHeld registry.old.held (AsksCore (Finds id found.new)) (meant result) registry.new.held }
    ensures kept { Keeps (meant result) found.old found.new }
{
    let Some(held) = registry.take(alloc) else {
        return Status::EmptyHandle.number();
    };
    let status = find(&held.core, id, found);
    registry.put(held);
    status.number()
}

fn layers_of(core: &RingCore, id: u64, layers: &mut u64) -> Status
    ensures layers { AnswersLayers id layers.new core.now result core.now }
    ensures kept { Keeps (Some result) layers.old layers.new }
{
    layers_admit_spans_by_their_rules(core);
    let Some(id) = id_of(core, id) else {
        return Status::Refused(Fault::Unknown);
    };
    let Some(span) = core.find(id) else {
        return Status::Refused(Fault::Unknown);
    };
    *layers = span.bits.0;
    Status::Done
}

/// Which layers admit an open span, as bits, of which bit n is layer n's.
#[unsafe(no_mangle)]
pub extern "C" fn span_registry_layers_of(
    alloc: Global,
    registry: &mut SpanRegistry,
    id: u64,
    layers: &mut u64,
) -> u32
    ensures layers { OnHeld registry.old.held (AsksCore (AnswersLayers id layers.new)) (meant result) registry.new.held }
    ensures kept { Keeps (meant result) layers.old layers.new }
{
    let Some(held) = registry.take(alloc) else {
        return Status::EmptyHandle.number();
    };
    let status = layers_of(&held.core, id, layers);
    registry.put(held);
    status.number()
}

fn current_span(core: &RingCore, worker: u32, id: &mut u64) -> Status
    ensures current { SeesCurrent worker id.new core.now result core.now }
    ensures kept { Keeps (Some result) id.old id.new }
{
    if !has_worker(core, worker) {
        return Status::NoSuchWorker;
    }
    *id = id_number(core.stack(worker).current());
    Status::Done
}

/// A worker's current span: the topmost one of its stack that it entered first there; 0 where it has none.
#[unsafe(no_mangle)]
pub extern "C" fn span_registry_current_span(
    alloc: Global,
    registry: &mut SpanRegistry,
    worker: u32,
    id: &mut u64,
) -> u32
    ensures current { OnHeld registry.old.held (AsksCore (SeesCurrent worker id.new)) (meant result) registry.new.held }
    ensures kept { Keeps (meant result) id.old id.new }
{
    let Some(held) = registry.take(alloc) else {
        return Status::EmptyHandle.number();
    };
    let status = current_span(&held.core, worker, id);
    registry.put(held);
    status.number()
}

fn entry(core: &RingCore, worker: u32, place: usize, id: &mut u64, depth: &mut usize) -> Status
    ensures entry { SeesEntry worker place id.new depth.new core.now result core.now }
    ensures id { Keeps (Some result) id.old id.new }
    ensures depth { Keeps (Some result) depth.old depth.new }
{
    if !has_worker(core, worker) {
        return Status::NoSuchWorker;
    }
    let stack = core.stack(worker);
    *id = id_number(stack.get(place));
    *depth = stack.len();
    Status::Done
}

/// The span at a place of a worker's stack, counted from the lowest, which is 0; the id is 0 where the stack has no
/// such place. It also tells how many entries the stack has. A span that was entered again stands there again.
#[unsafe(no_mangle)]
pub extern "C" fn span_registry_entry(
    alloc: Global,
    registry: &mut SpanRegistry,
    worker: u32,
    place: usize,
    id: &mut u64,
    depth: &mut usize,
) -> u32
    ensures entry { OnHeld registry.old.held (AsksCore (SeesEntry worker place id.new depth.new)) (meant result)
        registry.new.held }
    ensures id { Keeps (meant result) id.old id.new }
    ensures depth { Keeps (meant result) depth.old depth.new }
{
    let Some(held) = registry.take(alloc) else {
        return Status::EmptyHandle.number();
    };
    let status = entry(&held.core, worker, place, id, depth);
    registry.put(held);
    status.number()
}

/// How often a call found no place in the ring. It stays at its greatest value.
#[unsafe(no_mangle)]
pub extern "C" fn span_registry_times_full(
    alloc: Global,
    registry: &mut SpanRegistry,
    times: &mut u64,
) -> u32
    ensures times { OnHeld registry.old.held (AsksCore (AnswersTimesFull times.new)) (meant result) registry.new.held }
    ensures kept { Keeps (meant result) times.old times.new }
{
    let Some(held) = registry.take(alloc) else {
        return Status::EmptyHandle.number();
    };
    *times = held.core.outlet().times_full();
    registry.put(held);
    Status::Done.number()
}

fn counts_of(core: &RingCore) -> SpanCounts
    ensures { Counts result core.now Status.Done core.now }
{
    SpanCounts {
        made: core.made(),
        closed: core.closed(),
        calls: core.calls(),
        held: core.total(),
        open: core.len(),
        workers: core.limits().workers,
    }
}

/// The numbers of a registry.
#[unsafe(no_mangle)]
pub extern "C" fn span_registry_counts(
    alloc: Global,
    registry: &mut SpanRegistry,
    counts: &mut SpanCounts,
) -> u32
    ensures counts { OnHeld registry.old.held (AsksCore (Counts counts.new)) (meant result) registry.new.held }
    ensures kept { Keeps (meant result) counts.old counts.new }
{
    let Some(held) = registry.take(alloc) else {
        return Status::EmptyHandle.number();
    };
    *counts = counts_of(&held.core);
    registry.put(held);
    Status::Done.number()
}
