//! The shortest caller, as the page on calling shows it.
ghost use Rattle.std.specs.Prelude.{◌≡◌, ◌<◌, ◌∷◌, [], ℕ, None, IfOk, vec_len, slice_index_or};
ghost use Rattle.span_registry.specs.Blanks.{blanks_of};
ghost use Rattle.span_registry.specs.Share.{IsWhole};
ghost use Rattle.span_registry.specs.Worker.{IsNew};

use crate::tests::registry::layers::meta_of;
use crate::tests::registry::same::same;
use span_id::{Fault, Level, Limits, Meta};
use span_layers::{Filters, Formatting, Layers, Say};
use span_registry::{Blanks, Kept, ParentOf, RefusedClose, Registry, Report, Setup, Share, Worker};
use std::alloc::Global;
use std::marker::Brand;
use std::sync::Wait;
use std::sync::ledger::Ledger;

/// One worker makes a span and closes it; the report has the lines.
pub fn one_span<R: Wait>(
    rt: &R,
    alloc: Global,
    filters: Filters,
    formatting: Formatting,
    meta: &Meta,
) -> Result<Report, Fault> {
    let limits = Limits {
        workers: 1,
        ..Limits::default()
    };
    let blanks = Blanks::new(alloc, &limits.check()?)?;
    let outlet = Kept::new(alloc, formatting);
    run::<Brand, Brand, Brand, _, _>(rt, alloc, filters, outlet, meta, blanks)
}

fn run<H: Ledger, C: Ledger, S: Setup, V: Say, R: Wait>(
    rt: &R,
    alloc: Global,
    filters: Filters,
    outlet: Kept<V>,
    meta: &Meta,
    blanks: Blanks,
) -> Result<Report, Fault>
    requires sent { outlet.sent ≡ [] }
    requires setup { (filters.rules ≡ S.rules) × (outlet.forms ≡ S.forms) × (None ≡ S.ring) }
    requires workers { S.limits.workers ≡ 1 }
    requires blanks { blanks ≡ blanks_of S.limits H.name H.parts C.name C.parts S.table S.history }
{
    let (registry, workers) = Registry::<H, C, S, Kept<V>>::new(alloc, filters, outlet, blanks)?;
    let share = work(rt, &registry, only(workers), meta)?;
    Ok(registry.finish_kept(share))
}

// The worker of a registry that has one.
fn only<H: Ledger, C: Ledger, S: Setup>(workers: Vec<Worker<H, C, S>>) -> Worker<H, C, S>
    requires one { vec_len workers ≡ 1 }
    requires new { (i : ℕ) (d : _) → i < 1 → IsNew i (slice_index_or workers.items i d) }
    ensures new { result.accepted ≡ 0 }
    ensures items { workers.items ≡ result ∷ [] }
{
    let mut workers = workers;
    let Some(worker) = workers.pop() else {
        unreachable!()
    };
    worker
}

// The worker makes a span, closes it and leaves.
fn work<H: Ledger, C: Ledger, S: Setup, V: Say, R: Wait>(
    rt: &R,
    registry: &Registry<H, C, S, Kept<V>>,
    worker: Worker<H, C, S>,
    meta: &Meta,
) -> Result<Share<H, C, S>, Fault>
    requires { worker.accepted ≡ 0 }
    ensures { IfOk result (λ share. IsWhole worker.spare 1 share) }
{
    let mut worker = worker;
    match registry.new_span(rt, &mut worker, meta, &[], ParentOf::Root)? {
        None => Ok(worker.leave()), // no layer wants it
        Some(span) => match registry.try_close(rt, &mut worker, span) {
            Ok(_closed) => Ok(worker.leave()),
            Err(RefusedClose { handle, fault: _ }) => Ok(worker.leave().join(handle.into_share())),
        },
    }
}

#[test]
fn one_worker_makes_a_span(rt: HostRuntime) {
    let alloc = rt.alloc();
    let meta = meta_of(&rt, alloc, "a", "app", Level::Info);
    let (filters, formatting) = Layers::new(alloc).split();
    let report = one_span(&rt, alloc, filters, formatting, &meta).expect(&rt, "a report");
    let counts = (report.calls, report.made, report.closed, report.left);
    same(&rt, counts, (2, 1, 1, 0));
}
