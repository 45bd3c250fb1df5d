//! New spans.
ghost use Rattle.std.specs.Prelude.{◌≡◌, ◌<◌, Some, None, IfSome, OnSome};
ghost use Rattle.span_outlet.specs.Request.{new_span};
ghost use Rattle.span_core.specs.Parent.{parent_found};
ghost use Rattle.span_border.specs.Status.{meant};
ghost use Rattle.span_ffi.specs.Registry.{OnCore, WithCallsites, HasSpanHeading};
ghost use Rattle.span_border.specs.Ends.{OnHeld, Keeps};
ghost use Rattle.span_ffi.specs.Data.{IsMeta, AreFields, said_meta, said_fields, behind_meta};
ghost use Rattle.span_ffi.specs.Calls.{MakesSaid, IsMadeOrRefused};
ghost use Rattle.span_ffi.specs.Callsites.{MakesSpanAt};

use crate::callsites::Callsites;
use crate::data::{SpanField, SpanMeta};
use crate::exports::callers::{has_worker, read_parent};
use crate::exports::recalling::{read_span_fields, recall_meta};
use crate::reading::unread;
use crate::registry::{Registry, RingCore};
use crate::registry_handle::SpanRegistry;
use crate::valid::{are_fields, is_span};
use span_border::{Holds, Status};
use span_id::{Fields, SharedMeta};
use span_outlet::ParentOf;
use std::alloc::Global;

// The meta and the fields of a span. None: the data say nothing, or memory is refused.
fn read_span(
    alloc: Global,
    core: &mut RingCore,
    meta: &SpanMeta,
    fields: &[SpanField],
    texts: &[u8],
) -> Option<(SharedMeta, Fields)>
    ensures is { OnSome result (IsMeta meta.now texts.now) }
    ensures are { OnSome result (AreFields fields.now (behind_meta meta.now texts.now)) }
    ensures meta { IfSome result (λ span. span.0 ≡ said_meta meta.now texts.now) }
    ensures fields { IfSome result (λ span. span.1 ≡ said_fields fields.now (behind_meta meta.now texts.now)) }
    ensures same { core.new ≡ core.old }
{
    let (meta, rest) = recall_meta(core, meta, texts)?;
    let fields = read_span_fields(alloc, core, fields, rest)?;
    Some((meta, fields))
}

fn new_span(
    core: &mut RingCore,
    worker: u32,
    parent: ParentOf,
    meta: &SharedMeta,
    fields: Fields,
    id: &mut u64,
) -> Status
    requires { worker < core.old.limits.workers }
    ensures made { IsMadeOrRefused (new_span worker meta.now fields
        (parent_found core.old.world worker parent)) id.new core.old result core.new }
    ensures kept { Keeps (Some result) id.old id.new }
{
    match core.new_span_owning(worker, meta, fields, parent) {
        Ok(Some(made)) => {
            *id = made.get();
            Status::Done
        }
        Ok(None) => {
            *id = 0;
            Status::Done
        }
        Err(fault) => Status::Refused(fault),
    }
}

fn make_span(
    alloc: Global,
    core: &mut RingCore,
    worker: u32,
    parent_kind: u32,
    parent: u64,
    meta: &SpanMeta,
    fields: &[SpanField],
    texts: &[u8],
    id: &mut u64,
) -> Status
    ensures made { MakesSaid (record {
      worker = worker;
      parent_kind = parent_kind;
      parent = parent;
      meta = meta.now;
      fields = fields.now;
      texts = texts.now;
    }) id.new core.old result core.new }
    ensures kept { Keeps (Some result) id.old id.new }
{
    if !has_worker(core, worker) {
        return Status::NoSuchWorker;
    }
    let Some(parent) = read_parent(core, parent_kind, parent) else {
        return Status::BadData;
    };
    match read_span(alloc, core, meta, fields, texts) {
        Some((meta, fields)) => new_span(core, worker, parent, &meta, fields, id),
        None => unread(is_span(meta, fields, texts)),
    }
}

/// Makes a span. The texts are its name, its target, and the keys and values, one after another. It tells the id, and 0
/// where there are layers and none admits the span.
#[unsafe(no_mangle)]
pub extern "C" fn span_registry_new_span(
    alloc: Global,
    registry: &mut SpanRegistry,
    worker: u32,
    parent_kind: u32,
    parent: u64,
    meta: &SpanMeta,
    fields: &[SpanField],
    texts: &[u8],
    id: &mut u64,
) -> u32
    ensures made { OnHeld registry.old.held (OnCore (MakesSaid (record {
      worker = worker;
      parent_kind = parent_kind;
      parent = parent;
      meta = meta.now;
      fields = fields.now;
      texts = texts.now;
    }) id.new)) (meant result) registry.new.held }
    ensures kept { Keeps (meant result) id.old id.new }
    ensures heading { OnHeld registry.old.held (HasSpanHeading None id.new) (meant result) registry.new.held }
{
    let Some(mut held) = registry.take(alloc) else {
        return Status::EmptyHandle.number();
    };
    let calls = held.core.calls();
    let status = make_span(
        alloc,
        &mut held.core,
        worker,
        parent_kind,
        parent,
        meta,
        fields,
        texts,
        id,
    );
    held.keep_span_heading(alloc, status, calls, None, *id);
    registry.put(held);
    status.number()
}

fn make_span_at(
    alloc: Global,
    core: &mut RingCore,
    callsites: &Callsites,
    worker: u32,
    parent_kind: u32,
    parent: u64,
    callsite: u32,
    fields: &[SpanField],
    texts: &[u8],
    id: &mut u64,
) -> Status
    ensures made { MakesSpanAt (record {
      worker = worker;
      parent_kind = parent_kind;
      parent = parent;
      callsite = callsite;
      fields = fields.now;
      texts = texts.now;
    }) id.new callsites.now core.old result core.new }
    ensures kept { Keeps (Some result) id.old id.new }
{
    if !has_worker(core, worker) {
        return Status::NoSuchWorker;
    }
    let Some(meta) = callsites.get(callsite) else {
        return Status::NoSuchCallsite;
    };
    let Some(parent) = read_parent(core, parent_kind, parent) else {
        return Status::BadData;
    };
    match read_span_fields(alloc, core, fields, texts) {
        Some(fields) => new_span(core, worker, parent, meta, fields, id),
        None => unread(are_fields(fields, texts)),
    }
}

/// Makes a span as `span_registry_new_span` does, with the meta of a callsite. The texts are the keys and values, one
/// after another.
#[unsafe(no_mangle)]
pub extern "C" fn span_registry_new_span_at(
    alloc: Global,
    registry: &mut SpanRegistry,
    worker: u32,
    parent_kind: u32,
    parent: u64,
    callsite: u32,
    fields: &[SpanField],
    texts: &[u8],
    id: &mut u64,
) -> u32
    ensures made { OnHeld registry.old.held (WithCallsites (MakesSpanAt (record {
      worker = worker;
      parent_kind = parent_kind;
      parent = parent;
      callsite = callsite;
      fields = fields.now;
      texts = texts.now;
    }) id.new)) (meant result) registry.new.held }
    ensures kept { Keeps (meant result) id.old id.new }
    ensures heading { OnHeld registry.old.held (HasSpanHeading (Some callsite) id.new) (meant result) registry.new.held }
{
    let Some(mut held) = registry.take(alloc) else {
        return Status::EmptyHandle.number();
    };
    let calls = held.core.calls();
    let Registry {
        core,
        callsites,
        ..
    } = &mut *held;
    let status = make_span_at(
        alloc,
        core,
        callsites,
        worker,
        parent_kind,
        parent,
        callsite,
        fields,
        texts,
        id,
    );
    held.keep_span_heading(alloc, status, calls, Some(callsite), *id);
    registry.put(held);
    status.number()
}
