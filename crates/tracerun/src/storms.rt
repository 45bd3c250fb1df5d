//! A storm whose one layer is told of everything.
ghost use Rattle.std.specs.Prelude.{◌≡◌, ◌≤◌, true, IfOk};
ghost use Rattle.span_layers.specs.Layers.{filters_in};
ghost use Rattle.span_storm.specs.Storm.{wants_jobs};

use crate::failure::Failure;
use span_id::Fault;
use span_layers::{ByForm, ByRule, FmtSpan, Form, Hooks, Layer, Layers, Rule, Style};
use span_run::{Counted, flush};
use span_storm::{Open, show, storm};
use std::alloc::Global;
use std::io::Write;
use std::sync::Wait;
use std::thread::Threads;

/// Runs the storm and writes how it ended.
pub fn run<R: Threads + Wait + Sync, W: Write>(
    rt: &R,
    alloc: Global,
    workers: u32,
    rounds: u32,
    output: &mut Counted<W>,
) -> Result<(), Failure>
    requires workers { (1 ≤ workers) × (workers ≤ 16) }
    requires rounds { (1 ≤ rounds) × (rounds ≤ 400) }
{
    let Ok(layers) = layers_of_all(alloc) else {
        return Err(Failure::Memory);
    };
    let report = storm(rt, alloc, workers, rounds, layers, &Open)?;
    show(workers, rounds, &report, output)?;
    flush(output)?;
    Ok(())
}

// The layers of the storm: one, which admits everything and writes in the compact form. It calls no closure.
fn layers_of_all(alloc: Global) -> Result<Layers<ByRule, ByForm>, Fault>
    ensures { IfOk result (λ layers. wants_jobs (filters_in layers) ≡ true) }
{
    let rule = Rule::everything(alloc)?;
    let style = Style {
        form: Form::Compact,
        spans: FmtSpan::FULL,
    };
    let hooks = Hooks::by_rule_and_form();
    let mut layers = Layers::new(alloc);
    match layers.add(Layer { style, rule, hooks }) {
        Ok(_) => Ok(layers),
        Err((_, fault)) => Err(fault),
    }
}
