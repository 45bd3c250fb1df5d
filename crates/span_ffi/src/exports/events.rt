//! What a worker tells: more fields of a span, and events.
ghost use Rattle.std.specs.Prelude.{◌≡◌, ◌<◌, Some, None, if◌then◌else◌, take, drop, IfSome, OnSome};
ghost use Rattle.std.specs.Arc.{arc_str_bytes};
ghost use Rattle.span_id.specs.Meta.{plain_fields};
ghost use Rattle.span_outlet.specs.Request.{event, told};
ghost use Rattle.span_core.specs.Core.{are_keys};
ghost use Rattle.span_border.specs.Status.{meant};
ghost use Rattle.span_ffi.specs.Registry.{OnCore, WithCallsites, HasPlainHeading, HasEventHeading, HasEventHeadingAt};
ghost use Rattle.span_border.specs.Ends.{OnHeld};
ghost use Rattle.span_ffi.specs.Data.{IsEventAt, said_meta, said_fields};
ghost use Rattle.span_ffi.specs.Calls.{Records, TellsEvent, AnswersData};
ghost use Rattle.span_ffi.specs.Callsites.{TellsAt};

use crate::callsites::Callsites;
use crate::data::{SpanField, SpanMeta};
use crate::exports::callers::{has_worker, id_of, read_parent};
use crate::exports::recalling::recall_meta;
use crate::reading::{read_fields, read_message, unread};
use crate::registry::{Registry, RingCore};
use crate::registry_handle::SpanRegistry;
use crate::valid::{are_fields, is_event, is_told};
use span_border::{Holds, Status};
use span_id::{Fault, Field, Fields, SharedMeta};
use span_outlet::ParentOf;
use std::alloc::Global;
use std::sync::ArcStr;

// Whether all keys are names.
fn are_keys(fields: &[Field]) -> bool
    ensures { result ≡ are_keys (plain_fields fields.now) }
{
    fields.iter().all(|field| field.fit())
}

// Why fields for a span that isn't open are refused.
fn fault_of_absent(fields: &[Field]) -> Fault
    ensures { result ≡ (if are_keys (plain_fields fields.now) then Fault.Unknown else Fault.BadName) }
{
    if are_keys(fields) {
        Fault::Unknown
    } else {
        Fault::BadName
    }
}

fn record(
    alloc: Global,
    core: &mut RingCore,
    worker: u32,
    id: u64,
    fields: &[SpanField],
    texts: &[u8],
) -> Status
    ensures { Records worker id fields.now texts.now core.old result core.new }
{
    if !has_worker(core, worker) {
        return Status::NoSuchWorker;
    }
    let Some(fields) = read_fields(alloc, fields, texts) else {
        return unread(are_fields(fields, texts));
    };
    let Some(id) = id_of(core, id) else {
        return Status::Refused(fault_of_absent(fields.as_slice()));
    };
    match core.record_shared(worker, id, &fields) {
        Ok(()) => Status::Done,
        Err(fault) => Status::Refused(fault),
    }
}

/// Appends fields to those of a span that has a handle. The texts are the keys and values, one after another.
#[unsafe(no_mangle)]
pub extern "C" fn span_registry_record(
    alloc: Global,
    registry: &mut SpanRegistry,
    worker: u32,
    id: u64,
    fields: &[SpanField],
    texts: &[u8],
) -> u32
    ensures recorded { OnHeld registry.old.held (OnCore (Records worker id fields.now texts.now)) (meant result)
        registry.new.held }
    ensures heading { OnHeld registry.old.held HasPlainHeading (meant result) registry.new.held }
{
    let Some(mut held) = registry.take(alloc) else {
        return Status::EmptyHandle.number();
    };
    let calls = held.core.calls();
    let status = record(alloc, &mut held.core, worker, id, fields, texts);
    held.keep_heading(alloc, status, calls);
    registry.put(held);
    status.number()
}

fn event(
    alloc: Global,
    core: &mut RingCore,
    worker: u32,
    parent_kind: u32,
    parent: u64,
    meta: &SpanMeta,
    message_len: u32,
    fields: &[SpanField],
    texts: &[u8],
) -> Status
    ensures { TellsEvent (record {
      worker = worker;
      parent_kind = parent_kind;
      parent = parent;
      meta = meta.now;
      message_len = message_len;
      fields = fields.now;
      texts = texts.now;
    }) core.old result core.new }
{
    if !has_worker(core, worker) {
        return Status::NoSuchWorker;
    }
    let Some(parent) = read_parent(core, parent_kind, parent) else {
        return Status::BadData;
    };
    match recall_meta(core, meta, texts) {
        Some((meta, rest)) => tell(
            alloc,
            core,
            worker,
            parent,
            &meta,
            message_len,
            fields,
            rest,
        ),
        None => unread(is_event(meta, message_len, fields, texts)),
    }
}

// Tells an event of this meta under this parent; its message and its fields are read first.
#[inline]
fn tell(
    alloc: Global,
    core: &mut RingCore,
    worker: u32,
    parent: ParentOf,
    meta: &SharedMeta,
    message_len: u32,
    fields: &[SpanField],
    texts: &[u8],
) -> Status
    requires { worker < core.old.limits.workers }
    ensures told { AnswersData worker (IsEventAt message_len fields.now texts.now)
        (event worker meta.now (take message_len texts.now) (said_fields fields.now (drop message_len texts.now)) parent)
        told core.old result core.new }
{
    let Some((message, fields)) = read_told(alloc, message_len, fields, texts) else {
        return unread(is_told(message_len, fields, texts));
    };
    match core.event_in_shared(worker, meta, &message, &fields, parent) {
        Ok(()) => Status::Done,
        Err(fault) => Status::Refused(fault),
    }
}

// The message and the fields of an event. None: the data say nothing, or memory is refused.
fn read_told(
    alloc: Global,
    message_len: u32,
    fields: &[SpanField],
    texts: &[u8],
) -> Option<(ArcStr, Fields)>
    ensures is { OnSome result (IsEventAt message_len fields.now texts.now) }
    ensures message { IfSome result (λ told. arc_str_bytes told.0 ≡ take message_len texts.now) }
    ensures fields { IfSome result (λ told. told.1 ≡ said_fields fields.now (drop message_len texts.now)) }
{
    let (message, rest) = read_message(alloc, texts, message_len)?;
    let fields = read_fields(alloc, fields, rest)?;
    Some((message, fields))
}

/// Tells an event under the worker's current span, as `span_registry_event_in` does with 1 for the kind of parent.
#[unsafe(no_mangle)]
pub extern "C" fn span_registry_event(
    alloc: Global,
    registry: &mut SpanRegistry,
    worker: u32,
    meta: &SpanMeta,
    message_len: u32,
    fields: &[SpanField],
    texts: &[u8],
) -> u32
    ensures told { OnHeld registry.old.held (OnCore (TellsEvent (record {
      worker = worker;
      parent_kind = 1;
      parent = 0;
      meta = meta.now;
      message_len = message_len;
      fields = fields.now;
      texts = texts.now;
    }))) (meant result) registry.new.held }
    ensures heading { OnHeld registry.old.held (HasEventHeading (said_meta meta.now texts.now))
        (meant result) registry.new.held }
{
    span_registry_event_in(
        alloc,
        registry,
        worker,
        1,
        0,
        meta,
        message_len,
        fields,
        texts,
    )
}

/// Tells an event under a parent, as `span_registry_new_span` makes a span. The texts are its name, its target, the
/// message, and the keys and values, one after another.
#[unsafe(no_mangle)]
pub extern "C" fn span_registry_event_in(
    alloc: Global,
    registry: &mut SpanRegistry,
    worker: u32,
    parent_kind: u32,
    parent: u64,
    meta: &SpanMeta,
    message_len: u32,
    fields: &[SpanField],
    texts: &[u8],
) -> u32
    ensures told { OnHeld registry.old.held (OnCore (TellsEvent (record {
      worker = worker;
      parent_kind = parent_kind;
      parent = parent;
      meta = meta.now;
      message_len = message_len;
      fields = fields.now;
      texts = texts.now;
    }))) (meant result) registry.new.held }
    ensures heading { OnHeld registry.old.held (HasEventHeading (said_meta meta.now texts.now))
        (meant result) registry.new.held }
{
    let Some(mut held) = registry.take(alloc) else {
        return Status::EmptyHandle.number();
    };
    let calls = held.core.calls();
    let status = event(
        alloc,
        &mut held.core,
        worker,
        parent_kind,
        parent,
        meta,
        message_len,
        fields,
        texts,
    );
    held.keep_event_heading(alloc, status, calls, meta, texts);
    registry.put(held);
    status.number()
}

fn tell_at(
    alloc: Global,
    core: &mut RingCore,
    callsites: &Callsites,
    worker: u32,
    parent_kind: u32,
    parent: u64,
    callsite: u32,
    message_len: u32,
    fields: &[SpanField],
    texts: &[u8],
) -> Status
    ensures { TellsAt (record {
      worker = worker;
      parent_kind = parent_kind;
      parent = parent;
      callsite = callsite;
      message_len = message_len;
      fields = fields.now;
      texts = texts.now;
    }) callsites.now core.old result core.new }
{
    if !has_worker(core, worker) {
        return Status::NoSuchWorker;
    }
    let Some(meta) = callsites.get(callsite) else {
        return Status::NoSuchCallsite;
    };
    match read_parent(core, parent_kind, parent) {
        Some(parent) => tell(
            alloc,
            core,
            worker,
            parent,
            meta,
            message_len,
            fields,
            texts,
        ),
        None => Status::BadData,
    }
}

/// Tells an event under the worker's current span, as `span_registry_event_in_at` does with 1 for the kind of parent.
#[unsafe(no_mangle)]
pub extern "C" fn span_registry_event_at(
    alloc: Global,
    registry: &mut SpanRegistry,
    worker: u32,
    callsite: u32,
    message_len: u32,
    fields: &[SpanField],
    texts: &[u8],
) -> u32
    ensures told { OnHeld registry.old.held (WithCallsites (TellsAt (record {
      worker = worker;
      parent_kind = 1;
      parent = 0;
      callsite = callsite;
      message_len = message_len;
      fields = fields.now;
      texts = texts.now;
    }))) (meant result) registry.new.held }
    ensures heading { OnHeld registry.old.held (HasEventHeadingAt callsite) (meant result) registry.new.held }
{
    span_registry_event_in_at(
        alloc,
        registry,
        worker,
        1,
        0,
        callsite,
        message_len,
        fields,
        texts,
    )
}

/// Tells an event as `span_registry_event_in` does, with the meta of a callsite. The texts are the message, and the keys
/// and values, one after another.
#[unsafe(no_mangle)]
pub extern "C" fn span_registry_event_in_at(
    alloc: Global,
    registry: &mut SpanRegistry,
    worker: u32,
    parent_kind: u32,
    parent: u64,
    callsite: u32,
    message_len: u32,
    fields: &[SpanField],
    texts: &[u8],
) -> u32
    ensures told { OnHeld registry.old.held (WithCallsites (TellsAt (record {
      worker = worker;
      parent_kind = parent_kind;
      parent = parent;
      callsite = callsite;
      message_len = message_len;
      fields = fields.now;
      texts = texts.now;
    }))) (meant result) registry.new.held }
    ensures heading { OnHeld registry.old.held (HasEventHeadingAt callsite) (meant result) registry.new.held }
{
    let Some(mut held) = registry.take(alloc) else {
        return Status::EmptyHandle.number();
    };
    let calls = held.core.calls();
    let Registry {
        core,
        callsites,
        ..
    } = &mut *held;
    let status = tell_at(
        alloc,
        core,
        callsites,
        worker,
        parent_kind,
        parent,
        callsite,
        message_len,
        fields,
        texts,
    );
    held.keep_event_heading_at(alloc, status, calls, callsite);
    registry.put(held);
    status.number()
}
