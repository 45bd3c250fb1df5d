//! The beginning and the end of a registry.
ghost use Rattle.std.specs.Prelude.{◌≡◌, Some, None, is_some, if◌then◌else◌, true};
ghost use Rattle.span_border.specs.Status.{meant};
ghost use Rattle.span_ffi.specs.Opening.{Opens, OpensKeeping};

use crate::data::{SpanLayer, SpanLimits, SpanRule};
use crate::drain_handle::SpanDrain;
use crate::opening::open;
use crate::registry_handle::SpanRegistry;
use span_border::{Holds, Status};
use std::alloc::Global;

// Fills two empty handles, which keep headings or not.
fn open_into(
    alloc: Global,
    registry: &mut SpanRegistry,
    drain: &mut SpanDrain,
    limits: &SpanLimits,
    layers: &[SpanLayer],
    rules: &[SpanRule],
    texts: &[u8],
    keeps: bool,
) -> u32
    ensures { OpensKeeping keeps
        (record { limits = limits.now; layers = layers.now; rules = rules.now; texts = texts.now })
        registry.old.held drain.old.held (meant result)
        registry.new.held drain.new.held }
{
    if !(registry.is_empty(alloc) && drain.is_empty(alloc)) {
        return Status::HandleInUse.number();
    }
    match open(alloc, limits, layers, rules, texts, keeps) {
        Ok((new, other)) => {
            registry.put(new);
            drain.put(other);
            Status::Done.number()
        }
        Err(status) => status.number(),
    }
}

/// Fills two empty handles with a new registry and the other end of its ring. Each layer takes the next of the rules for
/// its own; the texts are the prefixes of all rules, one after another.
#[unsafe(no_mangle)]
pub extern "C" fn span_registry_new(
    alloc: Global,
    registry: &mut SpanRegistry,
    drain: &mut SpanDrain,
    limits: &SpanLimits,
    layers: &[SpanLayer],
    rules: &[SpanRule],
    texts: &[u8],
) -> u32
    ensures { Opens
        (record { limits = limits.now; layers = layers.now; rules = rules.now; texts = texts.now })
        registry.old.held drain.old.held (meant result)
        registry.new.held drain.new.held }
{
    open_into(alloc, registry, drain, limits, layers, rules, texts, false)
}

/// Does the same, and a heading is kept of each accepted call, for `span_drain_heading` to tell with its notes.
#[unsafe(no_mangle)]
pub extern "C" fn span_registry_new_with_headings(
    alloc: Global,
    registry: &mut SpanRegistry,
    drain: &mut SpanDrain,
    limits: &SpanLimits,
    layers: &[SpanLayer],
    rules: &[SpanRule],
    texts: &[u8],
) -> u32
    ensures { OpensKeeping true
        (record { limits = limits.now; layers = layers.now; rules = rules.now; texts = texts.now })
        registry.old.held drain.old.held (meant result)
        registry.new.held drain.new.held }
{
    open_into(alloc, registry, drain, limits, layers, rules, texts, true)
}

/// Gives a registry and its memory up: the handle is empty then. Its drain may still be read.
#[unsafe(no_mangle)]
pub extern "C" fn span_registry_free(alloc: Global, registry: &mut SpanRegistry) -> u32
    ensures status { meant result
        ≡ Some (if is_some registry.old.held then Status.Done else Status.EmptyHandle) }
    ensures empty { registry.new.held ≡ None }
{
    registry.free(alloc).number()
}
