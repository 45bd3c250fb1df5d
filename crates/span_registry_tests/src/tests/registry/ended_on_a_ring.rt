//! Registries over a ring, from their making to their reports.
ghost use Rattle.std.specs.Prelude.{◌≡◌, [], Some};
ghost use Rattle.span_registry.specs.Blanks.{blanks_of};

use crate::tests::registry::acts::Act;
use crate::tests::registry::layers::{PlainDrain, PlainRegistry, Plan, layers};
use crate::tests::registry::on_registry::calls;
use crate::tests::registry::parts::{Part, gather, whole_share};
use span_id::Limits;
use span_layers::{ByRule, Filters};
use span_registry::{Blanks, Drain, HANDLE_PARTS, Report, Ring, Setup, Worker};
use std::alloc::Global;
use std::marker::Brand;
use std::process::Abort;
use std::sync::Wait;
use std::sync::ledger::Ledger;

// The calls, and the parts of the workers and of the handles that are left.
fn all_calls<H: Ledger, C: Ledger, S: Setup, R: Wait + Abort>(
    rt: &R,
    alloc: Global,
    registry: &PlainRegistry<H, C, S, Ring>,
    drain: &mut PlainDrain,
    workers: Vec<Worker<H, C, S>>,
    acts: &[(u32, Act)],
    answers: &mut String,
) -> Option<Part<H, C, S>>
    requires pair { Some drain.old.name ≡ S.ring }
    ensures name { drain.new.name ≡ drain.old.name }
{
    let mut workers = workers;
    let mut held = Vec::new(alloc);
    let all = workers.as_mut_slice();
    calls(rt, alloc, registry, drain, all, &mut held, acts, answers);
    gather(rt, workers, held)
}

// Generic in the names, which the caller picks.
fn named<H: Ledger, C: Ledger, S: Setup, R: Wait + Abort>(
    rt: &R,
    alloc: Global,
    filters: Filters<ByRule>,
    ring: Ring,
    drain: PlainDrain,
    blanks: Blanks,
    acts: &[(u32, Act)],
    answers: &mut String,
) -> Report
    requires sent { ring.sent ≡ [] }
    requires setup { (filters.rules ≡ S.rules) × ([] ≡ S.forms) }
    requires pair { (Some ring.name ≡ S.ring) × (Some drain.name ≡ S.ring) }
    requires parts { H.parts ≡ HANDLE_PARTS }
    requires blanks { blanks ≡ blanks_of S.limits H.name H.parts C.name C.parts S.table S.history }
{
    let number = blanks.limits().limits().workers;
    let made = PlainRegistry::<H, C, S, Ring>::new(alloc, filters, ring, blanks);
    let (registry, workers) = made.expect(rt, "memory");
    let mut drain = drain;
    let whole = all_calls(rt, alloc, &registry, &mut drain, workers, acts, answers);
    registry.finish(whole_share(rt, number, whole), drain)
}

/// Makes a registry over a ring with these layers, makes the calls and the steps of the drain, and ends it.
pub(crate) fn run_to_end<R: Wait + Abort>(
    rt: &R,
    alloc: Global,
    limits: Limits,
    plans: &[Plan],
    acts: &[(u32, Act)],
    answers: &mut String,
) -> Report {
    let checked = limits.check().expect(rt, "limits");
    let blanks = Blanks::new(alloc, &checked).expect(rt, "memory");
    let (ring, tap) = Ring::pair(alloc, &checked).expect(rt, "memory");
    let (filters, formatting) = layers(rt, alloc, plans);
    let drain = Drain::new(alloc, tap, formatting);
    named::<Brand, Brand, Brand, R>(rt, alloc, filters, ring, drain, blanks, acts, answers)
}
