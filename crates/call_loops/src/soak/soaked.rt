//! A whole run, from the making of its registry to its last line.
ghost use Rattle.std.specs.Prelude.{◌≡◌, ◌+◌, ◌<◌, ◌↔◌, [], Some, IfOk};
ghost use Rattle.span_layers.specs.Layers.{filters_in, forms_in};
ghost use Rattle.span_registry.specs.Blanks.{blanks_of};
ghost use Rattle.call_loops.specs.Back.{IsMadeByNew};
ghost use Rattle.call_loops.specs.ReadOut.{EndsReadOut};

use crate::ended::Ended;
use crate::order::{Crew, Plan};
use crate::parts::{CoreParts, Parts};
use crate::reading::{Reading, finish_and_read};
use crate::soak::threads::in_threads;
use crate::texts::Texts;
use span_id::{Fault, Limits};
use span_layers::{Filters, Layers, Say};
use span_registry::{Blanks, LineReader, Registry, Ring, Setup};
use std::alloc::Global;
use std::marker::Brand;
use std::sync::Wait;
use std::sync::ledger::Ledger;
use std::thread::Threads;
use std::time::Clock;

/// Has the workers make their calls on one registry with these layers, and ends it.
pub fn soak<R: Threads + Wait + Clock + Sync>(
    rt: &R,
    alloc: Global,
    crew: &Crew,
    layers: Layers,
) -> Result<Ended, Fault>
    ensures handles { IfOk result (λ ended. ended.counts.handles ≡ 0) }
    ensures empty { IfOk result (λ ended. (ended.counts.left ≡ 0) ↔ (ended.counts.entries ≡ 0)) }
    ensures balance { IfOk result (λ ended. ended.counts.made ≡ ended.counts.closed + ended.counts.left) }
    ensures read { IfOk result (λ ended. ended.read ≡ ended.counts.calls) }
{
    let limits = Limits {
        workers: crew.workers,
        ring: crew.places,
        slots: 65536,
        ..Limits::default()
    };
    let plan = Plan::Random {
        rounds: crew.rounds,
        seed: crew.seed,
    };
    beside_a_reader(rt, alloc, limits, plan, layers)
}

/// Has as many workers as the limits say follow the plan on one registry with these layers, ends it, and reads its lines
/// to the last one: they are those of its whole history.
pub fn beside_a_reader<R: Threads + Wait + Clock + Sync>(
    rt: &R,
    alloc: Global,
    limits: Limits,
    plan: Plan,
    layers: Layers,
) -> Result<Ended, Fault>
    ensures calls { IfOk result (λ ended. IsMadeByNew plan limits.workers ended.counts.calls) }
    ensures handles { IfOk result (λ ended. ended.counts.handles ≡ 0) }
    ensures empty { IfOk result (λ ended. (ended.counts.left ≡ 0) ↔ (ended.counts.entries ≡ 0)) }
    ensures balance { IfOk result (λ ended. ended.counts.made ≡ ended.counts.closed + ended.counts.left) }
    ensures read { IfOk result (λ ended. ended.read ≡ ended.counts.calls) }
    ensures told { IfOk result (λ ended. EndsReadOut limits (filters_in layers) (forms_in layers) ended) }
{
    let Parts { core, blanks } = Parts::new(alloc, limits, plan.fields())?;
    let CoreParts {
        checked: _,
        texts,
        ring,
        tap,
    } = core;
    let (filters, formatting) = layers.split();
    run::<Brand, Brand, Brand, _, _>(
        rt,
        alloc,
        plan,
        &texts,
        filters,
        ring,
        LineReader::new(alloc, tap, formatting),
        blanks,
    )
}

// It is generic in the registry's names, so that its caller picks them.
fn run<
    H: Ledger + Send + Sync,
    C: Ledger + Send + Sync,
    S: Setup + Send + Sync,
    V: Say + Drop + Send,
    R: Threads + Wait + Clock + Sync,
>(
    rt: &R,
    alloc: Global,
    plan: Plan,
    texts: &Texts,
    filters: Filters,
    ring: Ring,
    reader: LineReader<V>,
    blanks: Blanks,
) -> Result<Ended, Fault>
    requires workers { 0 < S.limits.workers }
    requires setup { (filters.rules ≡ S.rules) × ([] ≡ S.forms) × (Some ring.name ≡ S.ring) }
    requires ring { (ring.sent ≡ []) × (Some reader.name ≡ S.ring) }
    requires given { reader.given ≡ [] }
    requires blanks { blanks ≡ blanks_of S.limits H.name H.parts C.name C.parts S.table S.history }
    ensures calls { IfOk result (λ ended. IsMadeByNew plan S.limits.workers ended.counts.calls) }
    ensures handles { IfOk result (λ ended. ended.counts.handles ≡ 0) }
    ensures empty { IfOk result (λ ended. (ended.counts.left ≡ 0) ↔ (ended.counts.entries ≡ 0)) }
    ensures balance { IfOk result (λ ended. ended.counts.made ≡ ended.counts.closed + ended.counts.left) }
    ensures read { IfOk result (λ ended. ended.read ≡ ended.counts.calls) }
    ensures told { IfOk result (λ ended. EndsReadOut S.limits S.rules reader.forms ended) }
{
    let (registry, workers) = Registry::<H, C, S, Ring>::new(alloc, filters, ring, blanks)?;
    let (whole, read) = in_threads(rt, &registry, texts, plan, workers, reader)?;
    let Reading { mut reader, lines } = read;
    let (counts, rest) = finish_and_read(registry, whole.share, &mut reader);
    Ok(Ended {
        counts,
        lines: lines.saturating_add(rest),
        missed: reader.missed(),
        read: reader.taken(),
        tally: whole.tally,
    })
}
