//! A long chain of spans: each is made under the one before, whose handle is given back at once.
ghost use Rattle.std.specs.Prelude.{◌≡◌, ◌<◌};

use crate::call_costs::core_loop::{CoreLoop, PLACES, PlainCore, read_all};
use crate::ended::Made;
use crate::layers::PlainLayers;
use crate::texts::Texts;
use span_id::{Fault, Id, Limits};
use span_layers::Say;
use span_outlet::{LineReader, ParentOf};
use std::alloc::Global;

/// Makes the chain, tells an event inside its last span, and gives the last handle back: then all of it closes.
pub fn chain(alloc: Global, length: u32, layers: PlainLayers) -> Result<Made, Fault> {
    let limits = Limits {
        workers: 1,
        ring: PLACES,
        slots: 1 << 20,
        ..Limits::default()
    };
    let CoreLoop {
        texts,
        mut core,
        mut reader,
    } = CoreLoop::new(alloc, limits, 0, layers)?;
    make_links(length, &texts, &mut core, &mut reader)
}

fn make_links<V: Say>(
    length: u32,
    texts: &Texts,
    core: &mut PlainCore,
    reader: &mut LineReader<V>,
) -> Result<Made, Fault>
    requires { 0 < core.old.limits.workers }
{
    let mut last = None;
    let mut lines = 0u64;
    for _ in 0..length {
        last = link(core, texts, last)?;
        lines = read_all(reader).saturating_add(lines);
    }
    if let Some(id) = last {
        tell_inside(core, texts, id)?;
        core.try_close(0, id)?;
    }
    Ok(Made {
        calls: core.calls(),
        lines: read_all(reader).saturating_add(lines),
        left: core.len(),
        ..Made::NONE
    })
}

// A span more, under the last one, whose handle is given back.
fn link(core: &mut PlainCore, texts: &Texts, last: Option<Id>) -> Result<Option<Id>, Fault>
    requires { 0 < core.old.limits.workers }
    ensures { core.new.limits ≡ core.old.limits }
{
    let parent = match last {
        Some(id) => ParentOf::Of(id),
        None => ParentOf::Root,
    };
    let made = core.new_span(0, &texts.meta, &[], parent)?;
    if let Some(id) = last {
        core.try_close(0, id)?;
    }
    Ok(made)
}

// An event inside a span.
fn tell_inside(core: &mut PlainCore, texts: &Texts, id: Id) -> Result<(), Fault>
    requires { 0 < core.old.limits.workers }
    ensures { core.new.limits ≡ core.old.limits }
{
    core.enter(0, id)?;
    core.event(0, &texts.meta, "a message", &[])?;
    core.exit(0, id)?;
    Ok(())
}
