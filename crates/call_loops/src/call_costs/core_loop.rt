//! Rounds of calls on a core over a ring, whose reader is in the same thread.
ghost use Rattle.std.specs.Prelude.{◌≡◌, ◌<◌, IfOk};

use crate::ended::Made;
use crate::layers::PlainLayers;
use crate::order::Shape;
use crate::parts::CoreParts;
use crate::reading::read_waiting;
use crate::texts::Texts;
use span_core::Core;
use span_id::{Fault, Limits};
use span_layers::{Admitters, ByForm, ByRule, Formatters, Say};
use span_outlet::{LineReader, ParentOf, Ring};
use std::alloc::Global;

/// How many places the ring has.
pub const PLACES: u32 = 8;

/// A core whose layers have no closures.
pub type PlainCore = Core<Ring, Admitters<ByRule>>;

/// A core over a ring in whose thread the lines are read, and what its calls pass.
pub struct CoreLoop {
    pub texts: Texts,
    pub core: PlainCore,
    pub reader: LineReader<Formatters<ByForm>>,
}

impl CoreLoop {
    /// With these limits and layers, and so many fields of each span and event.
    pub fn new(
        alloc: Global,
        limits: Limits,
        fields: u32,
        layers: PlainLayers,
    ) -> Result<CoreLoop, Fault>
        ensures { IfOk result (λ made. made.core.limits ≡ limits) }
    {
        let CoreParts {
            checked,
            texts,
            ring,
            tap,
        } = CoreParts::new(alloc, limits, fields)?;
        let (filters, formatting) = layers.split();
        let core = Core::new(alloc, &checked, filters, ring)?;
        let reader = LineReader::new(alloc, tap, formatting);
        Ok(CoreLoop {
            texts,
            core,
            reader,
        })
    }
}

/// Makes the rounds, each with its five calls at this depth, and answers what came of them.
pub fn calls_on_core(alloc: Global, shape: &Shape, layers: PlainLayers) -> Result<Made, Fault> {
    let limits = Limits {
        workers: 1,
        ring: PLACES,
        ..Limits::default()
    };
    let CoreLoop {
        texts,
        mut core,
        mut reader,
    } = CoreLoop::new(alloc, limits, shape.fields, layers)?;
    make_rounds(shape, &texts, &mut core, &mut reader)
}

// Stands as deep as the shape says, and makes its rounds there. The lines are read after each of them.
fn make_rounds<V: Say>(
    shape: &Shape,
    texts: &Texts,
    core: &mut PlainCore,
    reader: &mut LineReader<V>,
) -> Result<Made, Fault>
    requires { 0 < core.old.limits.workers }
{
    let mut lines = 0u64;
    for _ in 1..shape.depth {
        stand(core, texts)?;
        lines = read_all(reader).saturating_add(lines);
    }
    for _ in 0..shape.rounds {
        round(core, texts)?;
        lines = read_all(reader).saturating_add(lines);
    }
    Ok(Made {
        calls: core.calls(),
        lines,
        ..Made::NONE
    })
}

// A span more under the current one, which is entered and stays.
fn stand(core: &mut PlainCore, texts: &Texts) -> Result<(), Fault>
    requires { 0 < core.old.limits.workers }
    ensures { core.new.limits ≡ core.old.limits }
{
    if let Some(id) = core.new_span(0, &texts.meta, texts.fields.as_slice(), ParentOf::Current)? {
        core.enter(0, id)?;
    }
    Ok(())
}

// A span under the current one is made, entered, told an event, left and closed.
fn round(core: &mut PlainCore, texts: &Texts) -> Result<(), Fault>
    requires { 0 < core.old.limits.workers }
    ensures { core.new.limits ≡ core.old.limits }
{
    let fields = texts.fields.as_slice();
    if let Some(id) = core.new_span(0, &texts.meta, fields, ParentOf::Current)? {
        core.enter(0, id)?;
        core.event(0, &texts.meta, "a message", fields)?;
        core.exit(0, id)?;
        core.try_close(0, id)?;
    }
    Ok(())
}

/// Reads the lines of what stands in the ring, keeps none of them, and answers how many they were.
pub fn read_all<V: Say>(reader: &mut LineReader<V>) -> u64 {
    let mut lines = 0u64;
    for _ in 0..PLACES {
        if !reader.fill() {
            break;
        }
        lines = lines.saturating_add(read_waiting(reader));
    }
    lines
}
