//! The headings of calls, where any are kept.
ghost use Rattle.std.specs.Prelude.{◌≡◌, ◌≢◌, Some, None, IfSome, slice_get};
ghost use Rattle.std.specs.Option.{option_map};
ghost use Rattle.span_ffi.specs.declared.headings.About.TheVariants.{Event, Other};
ghost use Rattle.span_ffi.specs.Data.{said_meta};
ghost use Rattle.span_ffi.specs.Registry.{KeepsHeading, KeepsIfDone, IsAboutSpan};

use crate::callsites::Callsites;
use crate::data::SpanMeta;
use crate::exports::callers::id_of;
use crate::exports::recalling::recall_meta;
use crate::headings::About;
use crate::registry::{Registry, RingCore};
use span_border::Status;
use std::alloc::Global;

// The new span of this id. None: it has no id, or memory is refused.
fn about_span(core: &RingCore, id: u64) -> Option<About>
    ensures { IfSome result (IsAboutSpan id core.now) }
{
    let id = id_of(core, id)?;
    let span = core.find(id)?;
    Some(About::Span {
        id,
        parent: span.parent,
        meta: span.meta.share().ok()?,
    })
}

// An event of this meta, which was recalled for it. None: memory is refused.
fn about_event(core: &mut RingCore, meta: &SpanMeta, texts: &[u8]) -> Option<About>
    ensures about { IfSome result (λ about. about ≡ Event (said_meta meta.now texts.now)) }
    ensures same { core.new ≡ core.old }
{
    let (meta, _) = recall_meta(core, meta, texts)?;
    Some(About::Event(meta))
}

// An event at this callsite. None: memory is refused.
fn about_event_at(callsites: &Callsites, callsite: u32) -> Option<About>
    ensures { IfSome result (λ about. option_map Event (slice_get callsites.now callsite) ≡ Some about) }
{
    let meta = callsites.get(callsite)?;
    Some(About::Event(meta.share().ok()?))
}

// Where none are kept, the inlined part of each call is a test.
impl Registry {
    /// The heading of a call on a span that was there, and which puts out the batch of this number.
    #[inline(always)]
    pub(crate) fn keep_heading(&mut self, alloc: Global, status: Status, batch: u64)
        ensures core { self.new.core ≡ self.old.core }
        ensures callsites { self.new.callsites ≡ self.old.callsites }
        ensures heading { KeepsIfDone status batch None (λ about. about ≡ Some Other)
            self.old.headings self.new.headings }
    {
        if self.headings.is_some() && status == Status::Done {
            self.send_heading(alloc, batch);
        }
    }

    #[inline(never)]
    fn send_heading(&mut self, alloc: Global, batch: u64)
        ensures core { self.new.core ≡ self.old.core }
        ensures callsites { self.new.callsites ≡ self.old.callsites }
        ensures heading { KeepsHeading batch None (λ about. about ≡ Some Other) self.old.headings self.new.headings }
    {
        if let Some(headings) = &mut self.headings {
            headings.send(alloc, batch, None, Some(About::Other));
        }
    }

    /// That of the call that made the span of this id, if it isn't 0.
    #[inline(always)]
    pub(crate) fn keep_span_heading(
        &mut self,
        alloc: Global,
        status: Status,
        batch: u64,
        callsite: Option<u32>,
        id: u64,
    )
        ensures core { self.new.core ≡ self.old.core }
        ensures callsites { self.new.callsites ≡ self.old.callsites }
        ensures none { id ≡ 0 → self.new.headings ≡ self.old.headings }
        ensures heading { id ≢ 0 → KeepsIfDone status batch callsite
            (λ about. IfSome about (IsAboutSpan id self.old.core)) self.old.headings self.new.headings }
    {
        if self.headings.is_some() && status == Status::Done && id != 0 {
            self.send_span_heading(alloc, batch, callsite, id);
        }
    }

    #[inline(never)]
    fn send_span_heading(&mut self, alloc: Global, batch: u64, callsite: Option<u32>, id: u64)
        ensures core { self.new.core ≡ self.old.core }
        ensures callsites { self.new.callsites ≡ self.old.callsites }
        ensures heading { KeepsHeading batch callsite (λ about. IfSome about (IsAboutSpan id self.old.core))
            self.old.headings self.new.headings }
    {
        if let Some(headings) = &mut self.headings {
            headings.send(alloc, batch, callsite, about_span(&self.core, id));
        }
    }

    /// That of the call that told an event of this meta.
    #[inline(always)]
    pub(crate) fn keep_event_heading(
        &mut self,
        alloc: Global,
        status: Status,
        batch: u64,
        meta: &SpanMeta,
        texts: &[u8],
    )
        ensures core { self.new.core ≡ self.old.core }
        ensures callsites { self.new.callsites ≡ self.old.callsites }
        ensures heading { KeepsIfDone status batch None
            (λ about. IfSome about (λ told. told ≡ Event (said_meta meta.now texts.now)))
            self.old.headings self.new.headings }
    {
        if self.headings.is_some() && status == Status::Done {
            self.send_event_heading(alloc, batch, meta, texts);
        }
    }

    #[inline(never)]
    fn send_event_heading(&mut self, alloc: Global, batch: u64, meta: &SpanMeta, texts: &[u8])
        ensures core { self.new.core ≡ self.old.core }
        ensures callsites { self.new.callsites ≡ self.old.callsites }
        ensures heading { KeepsHeading batch None
            (λ about. IfSome about (λ told. told ≡ Event (said_meta meta.now texts.now)))
            self.old.headings self.new.headings }
    {
        if let Some(headings) = &mut self.headings {
            let about = about_event(&mut self.core, meta, texts);
            headings.send(alloc, batch, None, about);
        }
    }

    /// The same of the meta of a callsite.
    #[inline(always)]
    pub(crate) fn keep_event_heading_at(
        &mut self,
        alloc: Global,
        status: Status,
        batch: u64,
        callsite: u32,
    )
        ensures core { self.new.core ≡ self.old.core }
        ensures callsites { self.new.callsites ≡ self.old.callsites }
        ensures heading { KeepsIfDone status batch (Some callsite)
            (λ about. IfSome about (λ told. option_map Event (slice_get self.old.callsites callsite) ≡ Some told))
            self.old.headings self.new.headings }
    {
        if self.headings.is_some() && status == Status::Done {
            self.send_event_heading_at(alloc, batch, callsite);
        }
    }

    #[inline(never)]
    fn send_event_heading_at(&mut self, alloc: Global, batch: u64, callsite: u32)
        ensures core { self.new.core ≡ self.old.core }
        ensures callsites { self.new.callsites ≡ self.old.callsites }
        ensures heading { KeepsHeading batch (Some callsite)
            (λ about. IfSome about (λ told. option_map Event (slice_get self.old.callsites callsite) ≡ Some told))
            self.old.headings self.new.headings }
    {
        if let Some(headings) = &mut self.headings {
            let about = about_event_at(&self.callsites, callsite);
            headings.send(alloc, batch, Some(callsite), about);
        }
    }
}
