//! The same rounds on a registry with its lock, whose reader is in the same thread.
ghost use Rattle.std.specs.Prelude.{◌≡◌, [], Some};
ghost use Rattle.span_registry.specs.Blanks.{blanks_of};

use crate::call_costs::core_loop::{PLACES, read_all};
use crate::ended::Made;
use crate::layers::PlainLayers;
use crate::order::Shape;
use crate::parts::{CoreParts, Parts};
use crate::texts::Texts;
use span_id::{Fault, Limits};
use span_layers::{Admitters, ByRule, Filters, Say};
use span_outlet::LineReader;
use span_registry::{
    Blanks, DroppableHandle, Handle, ParentOf, RefusedClose, Registry, Ring, Setup, Worker,
};
use std::alloc::Global;
use std::marker::Brand;
use std::sync::Wait;
use std::sync::ledger::Ledger;

// A registry whose layers have no closures.
type PlainRegistry<H, C, S> = Registry<H, C, S, Ring, Admitters<ByRule>>;

/// Makes the rounds, each with its five calls at this depth, and answers what came of them.
pub fn calls_on_registry<R: Wait>(
    rt: &R,
    alloc: Global,
    shape: &Shape,
    layers: PlainLayers,
) -> Result<Made, Fault> {
    let limits = Limits {
        workers: 1,
        ring: PLACES,
        ..Limits::default()
    };
    let Parts { core, blanks } = Parts::new(alloc, limits, shape.fields)?;
    let CoreParts {
        checked: _,
        texts,
        ring,
        tap,
    } = core;
    let (filters, formatting) = layers.split();
    run::<Brand, Brand, Brand, _, _>(
        rt,
        alloc,
        shape,
        &texts,
        filters,
        ring,
        LineReader::new(alloc, tap, formatting),
        blanks,
    )
}

// It is generic in the registry's names, so that its caller picks them.
fn run<H: Ledger, C: Ledger, S: Setup, V: Say + Drop, R: Wait>(
    rt: &R,
    alloc: Global,
    shape: &Shape,
    texts: &Texts,
    filters: Filters<ByRule>,
    ring: Ring,
    reader: LineReader<V>,
    blanks: Blanks,
) -> Result<Made, Fault>
    requires workers { S.limits.workers ≡ 1 }
    requires setup { (filters.rules ≡ S.rules) × ([] ≡ S.forms) × (Some ring.name ≡ S.ring) }
    requires ring { ring.sent ≡ [] }
    requires blanks { blanks ≡ blanks_of S.limits H.name H.parts C.name C.parts S.table S.history }
{
    let (registry, mut workers) = PlainRegistry::<H, C, S>::new(alloc, filters, ring, blanks)?;
    let Some(worker) = workers.get_mut(0) else {
        unreachable!()
    };
    let mut reader = reader;
    make_rounds(rt, &registry, worker, &mut reader, texts, shape)
}

// Stands as deep as the shape says, and makes its rounds there. The lines are read after each of them.
fn make_rounds<H: Ledger, C: Ledger, S: Setup, V: Say, R: Wait>(
    rt: &R,
    registry: &PlainRegistry<H, C, S>,
    worker: &mut Worker<H, C, S>,
    reader: &mut LineReader<V>,
    texts: &Texts,
    shape: &Shape,
) -> Result<Made, Fault> {
    let mut lines = 0u64;
    for _ in 1..shape.depth {
        stand(rt, registry, worker, texts)?;
        lines = read_all(reader).saturating_add(lines);
    }
    for _ in 0..shape.rounds {
        round(rt, registry, worker, texts)?;
        lines = read_all(reader).saturating_add(lines);
    }
    Ok(Made {
        calls: worker.accepted(),
        lines,
        ..Made::NONE
    })
}

// A span more under the current one, which is entered and stays. Its handle is given up.
fn stand<H: Ledger, C: Ledger, S: Setup, R: Wait>(
    rt: &R,
    registry: &PlainRegistry<H, C, S>,
    worker: &mut Worker<H, C, S>,
    texts: &Texts,
) -> Result<(), Fault> {
    let fields = texts.fields.as_slice();
    if let Some(handle) = registry.new_span(rt, worker, &texts.meta, fields, ParentOf::Current)? {
        let mut held = DroppableHandle { handle };
        registry.enter(rt, worker, &mut held.handle)?;
    }
    Ok(())
}

// A span under the current one is made, entered, told an event, left and closed.
fn round<H: Ledger, C: Ledger, S: Setup, R: Wait>(
    rt: &R,
    registry: &PlainRegistry<H, C, S>,
    worker: &mut Worker<H, C, S>,
    texts: &Texts,
) -> Result<(), Fault> {
    let fields = texts.fields.as_slice();
    let made = registry.new_span(rt, worker, &texts.meta, fields, ParentOf::Current)?;
    let Some(handle) = made else {
        return Ok(());
    };
    let mut held = DroppableHandle { handle };
    visit(rt, registry, worker, texts, &mut held.handle)?;
    match registry.try_close(rt, worker, held.into_handle()) {
        Ok(_closed) => Ok(()),
        Err(RefusedClose { handle, fault }) => {
            drop(handle.into_share());
            Err(fault)
        }
    }
}

// The span is entered, told an event and left.
fn visit<H: Ledger, C: Ledger, S: Setup, R: Wait>(
    rt: &R,
    registry: &PlainRegistry<H, C, S>,
    worker: &mut Worker<H, C, S>,
    texts: &Texts,
    handle: &mut Handle<H, C, S>,
) -> Result<(), Fault> {
    registry.enter(rt, worker, handle)?;
    let fields = texts.fields.as_slice();
    registry.event(rt, worker, &texts.meta, "a message", fields)?;
    registry.exit(rt, worker, handle.id())?;
    Ok(())
}
