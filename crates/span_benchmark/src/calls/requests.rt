//! The registry with its worker and the reader of its lines, and the requests.
ghost use Rattle.std.specs.Prelude.{◌≡◌, [], Some};
ghost use Rattle.span_registry.specs.Blanks.{blanks_of};

use crate::calls::caller::{Caller, DEEPEST};
use crate::calls::metas::Metas;
use crate::calls::parts::{PLACES, Parts};
use crate::dice::Dice;
use crate::outcome::Outcome;
use span_id::Fault;
use span_layers::{Filters, Layers, Say};
use span_outlet::LineReader;
use span_registry::{Blanks, Registry, Ring, Setup};
use std::alloc::Global;
use std::marker::Brand;
use std::sync::Wait;
use std::sync::ledger::Ledger;

/// Makes so many requests on a registry with these layers.
pub fn on_registry<R: Wait>(
    rt: &R,
    alloc: Global,
    seed: u32,
    requests: u32,
    layers: Layers,
) -> Result<Outcome, Fault> {
    let Parts { ring, tap, blanks } = Parts::new(alloc)?;
    let (filters, tellers) = layers.split();
    run::<Brand, Brand, Brand, _, _>(
        rt,
        alloc,
        seed,
        requests,
        filters,
        ring,
        LineReader::new(alloc, tap, tellers),
        blanks,
    )
}

// It is generic in the registry's names, so that its caller picks them.
fn run<H: Ledger, C: Ledger, S: Setup, V: Say + Drop, R: Wait>(
    rt: &R,
    alloc: Global,
    seed: u32,
    requests: u32,
    filters: Filters,
    ring: Ring,
    reader: LineReader<V>,
    blanks: Blanks,
) -> Result<Outcome, Fault>
    requires workers { S.limits.workers ≡ 1 }
    requires setup { (filters.rules ≡ S.rules) × ([] ≡ S.forms) × (Some ring.name ≡ S.ring) }
    requires ring { ring.sent ≡ [] }
    requires blanks { blanks ≡ blanks_of S.limits H.name H.parts C.name C.parts S.table S.history }
{
    let (registry, mut workers) = Registry::<H, C, S, Ring>::new(alloc, filters, ring, blanks)?;
    let Some(worker) = workers.pop() else {
        unreachable!()
    };
    let mut dice = Dice::new(seed, 20);
    let metas = Metas::new(alloc, &mut dice)?;
    let mut caller = Caller {
        alloc,
        worker,
        inside: Vec::with_capacity(alloc, DEEPEST)?,
        dice,
        metas,
    };
    let mut reader = reader;
    serve(rt, &registry, &mut caller, &mut reader, requests)
}

// Makes the requests, and reads the lines after each.
fn serve<H: Ledger, C: Ledger, S: Setup, V: Say, R: Wait>(
    rt: &R,
    registry: &Registry<H, C, S, Ring>,
    caller: &mut Caller<H, C, S>,
    reader: &mut LineReader<V>,
    requests: u32,
) -> Result<Outcome, Fault> {
    let mut outcome = Outcome::new();
    for _ in 0..requests {
        request(rt, registry, caller)?;
        read_all(reader, &mut outcome);
    }
    outcome.count(caller.worker.accepted(), 0);
    Ok(outcome)
}

// A root, some turns inside it, and the way out.
fn request<H: Ledger, C: Ledger, S: Setup, R: Wait>(
    rt: &R,
    registry: &Registry<H, C, S, Ring>,
    caller: &mut Caller<H, C, S>,
) -> Result<(), Fault> {
    caller.open(rt, registry, true)?;
    for _ in 0..caller.dice.below(16).saturating_add(4) {
        caller.turn(rt, registry)?;
    }
    go_out(rt, registry, caller)
}

fn go_out<H: Ledger, C: Ledger, S: Setup, R: Wait>(
    rt: &R,
    registry: &Registry<H, C, S, Ring>,
    caller: &mut Caller<H, C, S>,
) -> Result<(), Fault> {
    for _ in 0..DEEPEST {
        caller.leave(rt, registry)?;
    }
    Ok(())
}

// Reads the lines of what stands in the ring.
fn read_all<V: Say>(reader: &mut LineReader<V>, outcome: &mut Outcome) {
    for _ in 0..PLACES {
        if !reader.fill() {
            break;
        }
        read_waiting(reader, outcome);
    }
}

// Adds the lines that wait to the outcome. A batch has fewer than the bound.
fn read_waiting<V>(reader: &mut LineReader<V>, outcome: &mut Outcome) {
    for _ in 0..1_000 {
        let Some(line) = reader.next() else {
            break;
        };
        outcome.count(0, 1);
        outcome.digest.number(u64::from(line.layer));
        outcome.digest.text(line.text.as_slice());
    }
}
