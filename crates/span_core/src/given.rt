//! What a caller gives to a call: lent, to be copied, shared, to get one more owner, or given away.
ghost use Rattle.std.specs.Prelude.{◌≡◌, IfOk, IfErr};
ghost use Rattle.std.specs.Arc.{arc_str_bytes};
ghost use Rattle.span_id.specs.Meta.{plain_meta, plain_fields};
ghost use Rattle.span_core.specs.inside.Given.{meta_given, fields_given, text_given, IsKept};

use crate::recent::Recent;
use span_id::{Fault, Field, Fields, Meta, SharedMeta};
use span_outlet::ParentOf;
use span_recent::{RecentMetas, SpareFields};
use std::alloc::Global;
use std::sync::ArcStr;

/// A meta.
#[derive(Clone, Copy)]
pub(crate) enum GivenMeta<'a> {
    Lent(&'a Meta),
    Shared(&'a SharedMeta),
}

/// Fields. Those that are given away are for a new span.
#[derive(Drop)]
pub(crate) enum GivenFields<'a> {
    Lent(&'a [Field]),
    Shared(&'a Fields),
    Owned(Fields),
}

/// An event's message.
#[derive(Clone, Copy)]
pub(crate) enum GivenText<'a> {
    Lent(&'a str),
    Shared(&'a ArcStr),
}

/// An event's message and fields, to be shared.
#[derive(Drop)]
pub(crate) struct KeptEvent {
    pub(crate) message: ArcStr,
    pub(crate) fields: Fields,
}

/// An event as a caller gives it, lent or shared, and the parent that it asks for.
#[derive(Drop)]
pub(crate) struct GivenEvent<'a> {
    pub(crate) meta: GivenMeta<'a>,
    pub(crate) message: GivenText<'a>,
    pub(crate) fields: GivenFields<'a>,
    pub(crate) parent: ParentOf,
}

impl<'a> GivenMeta<'a> {
    // The meta, to be read.
    pub(crate) fn read(&self) -> &'a Meta
        ensures { plain_meta result.now ≡ meta_given self.now }
    {
        match self {
            GivenMeta::Lent(meta) => meta,
            GivenMeta::Shared(meta) => meta.as_meta(),
        }
    }

    // The meta, to be kept.
    #[inline(always)]
    pub(crate) fn keep(&self, recent: &mut RecentMetas) -> Result<SharedMeta, Fault>
        ensures meta { IfOk result (λ kept. kept ≡ meta_given self.now) }
        ensures memory { IfErr result (λ fault. fault ≡ Fault.Memory) }
    {
        match self {
            GivenMeta::Lent(meta) => recent.share(meta),
            GivenMeta::Shared(meta) => meta.share(),
        }
    }
}

impl<'a> GivenFields<'a> {
    // The fields, to be read.
    pub(crate) fn read(&self) -> &[Field]
        ensures { plain_fields result.now ≡ fields_given self.now }
    {
        match self {
            GivenFields::Lent(fields) => fields,
            GivenFields::Shared(fields) => fields.as_slice(),
            GivenFields::Owned(fields) => fields.as_slice(),
        }
    }

    // The fields, to be kept by a span: it alone has the list of a copy once its batch is told, so that it may append to
    // it. What is given away it takes as it is.
    pub(crate) fn keep(self, alloc: Global) -> Result<Fields, Fault>
        ensures fields { IfOk result (λ kept. kept ≡ fields_given self.entry) }
        ensures memory { IfErr result (λ fault. fault ≡ Fault.Memory) }
    {
        match self {
            GivenFields::Lent(fields) => Fields::copy_of(alloc, fields),
            GivenFields::Shared(fields) => fields.share(),
            GivenFields::Owned(fields) => Ok(fields),
        }
    }

    // The same for a new span: a copy is made in the memory of the fields of one that closed.
    pub(crate) fn keep_of_new(self, spare: &mut SpareFields) -> Result<Fields, Fault>
        ensures fields { IfOk result (λ kept. kept ≡ fields_given self.entry) }
        ensures memory { IfErr result (λ fault. fault ≡ Fault.Memory) }
    {
        match self {
            GivenFields::Lent(fields) => spare.copy(fields),
            GivenFields::Shared(fields) => fields.share(),
            GivenFields::Owned(fields) => Ok(fields),
        }
    }

    // The fields, to be kept until an event is told.
    fn keep_of_event(&self, recent: &mut Recent) -> Result<Fields, Fault>
        ensures fields { IfOk result (λ kept. kept ≡ fields_given self.now) }
        ensures paths { recent.new.paths ≡ recent.old.paths }
        ensures memory { IfErr result (λ fault. fault ≡ Fault.Memory) }
    {
        match self {
            GivenFields::Lent(fields) => recent.copy_fields(fields),
            GivenFields::Shared(fields) => fields.share(),
            GivenFields::Owned(fields) => fields.share(),
        }
    }
}

impl<'a> GivenText<'a> {
    // The text, to be read.
    pub(crate) fn read(&self) -> &'a str
        ensures { result.now ≡ text_given self.now }
    {
        match self {
            GivenText::Lent(text) => text,
            GivenText::Shared(text) => text.as_str(),
        }
    }

    // The text, to be kept.
    pub(crate) fn keep(&self, alloc: Global) -> Result<ArcStr, Fault>
        ensures text { IfOk result (λ kept. arc_str_bytes kept ≡ text_given self.now) }
        ensures memory { IfErr result (λ fault. fault ≡ Fault.Memory) }
    {
        match self {
            GivenText::Lent(text) => Ok(ArcStr::from_str(alloc, text)?),
            GivenText::Shared(text) => Ok((**text).clone()?),
        }
    }
}

impl<'a> GivenEvent<'a> {
    // The message and the fields, to be kept.
    pub(crate) fn keep(&self, recent: &mut Recent) -> Result<KeptEvent, Fault>
        ensures kept { IfOk result (λ kept. IsKept self.now kept) }
        ensures paths { recent.new.paths ≡ recent.old.paths }
        ensures memory { IfErr result (λ fault. fault ≡ Fault.Memory) }
    {
        let message = self.message.keep(recent.alloc)?;
        let fields = self.fields.keep_of_event(recent)?;
        Ok(KeptEvent { message, fields })
    }
}
