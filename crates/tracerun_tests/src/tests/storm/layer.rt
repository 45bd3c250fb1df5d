//! A storm with one layer, which is told of everything.
ghost use Rattle.std.specs.Prelude.{◌≡◌, ◌<◌, ◌≤◌, [], ◌∷◌, IfOk, string_bytes};
ghost use Rattle.std.specs.Result.{ForOk};
ghost use Rattle.span_id.specs.declared.level.Level.TheVariants.{Trace};
ghost use Rattle.span_layers.specs.Note.{plain_note};
ghost use Rattle.span_layers.specs.Rule.{pairs_of, is_admitted};
ghost use Rattle.span_layers.specs.Text.{text_of};

use span_id::{Fault, Meta};
use span_layers::{FmtSpan, Form, Hooks, Layer, Layers, Note, Rule, Style, admits, text};
use span_registry::Report;
use span_storm::{Gate, StormFault, storm};
use std::alloc::{AllocError, Global};
use std::sync::atomic::{AtomicU64, Ordering};
use std::sync::{Arc, Wait};
use std::thread::Threads;

/// From which number of texts on the layer is refused memory: only a count that begins here gets there.
pub(crate) const REFUSED_FROM: u64 = 1 << 32;

// Hooks that answer as the rules say, and count the texts.
fn hooks(alloc: Global, said: Arc<AtomicU64>) -> Result<Hooks, AllocError> {
    Ok(Hooks::new(
        Box::new(
            alloc,
            |rule: &Rule, meta: &Meta| -> bool
                ensures { result
                    ≡ is_admitted (pairs_of rule.now) (string_bytes meta.now.target) meta.now.level }
            { admits(rule, meta) },
        )?,
        Box::new(
            alloc,
            move |alloc: Global, form: Form, note: &Note| -> Result<Vec<u8>, AllocError>
                ensures { ForOk result (λ text. text.items ≡ text_of form (plain_note note.now)) }
            {
                if said.fetch_add(1, Ordering::SeqCst) >= REFUSED_FROM {
                    return Err(AllocError);
                }
                text(alloc, form, note)
            },
        )?,
    ))
}

// The layer of a storm: it admits everything, writes in the compact form, and counts what it writes.
fn counting_layer(alloc: Global, said: Arc<AtomicU64>) -> Result<Layer, Fault>
    ensures { IfOk result (λ layer. pairs_of layer.rule ≡ ([], Trace) ∷ []) }
{
    let rule = Rule::everything(alloc)?;
    let hooks = hooks(alloc, said)?;
    let style = Style {
        form: Form::Compact,
        spans: FmtSpan::FULL,
    };
    Ok(Layer { style, rule, hooks })
}

/// Runs a storm whose layer admits everything, writes in the compact form, and counts what it writes.
pub(crate) fn storm_of_all<G: Gate + Sync, R: Threads + Wait + Sync>(
    rt: &R,
    alloc: Global,
    workers: u32,
    rounds: u32,
    said: Arc<AtomicU64>,
    gate: &G,
) -> Result<Report, StormFault>
    requires { (0 < workers) × (workers ≤ 16) × (0 < rounds) × (rounds ≤ 400) }
{
    let Ok(layer) = counting_layer(alloc, said) else {
        return Err(StormFault::Memory);
    };
    let mut layers = Layers::new(alloc);
    let Ok(_) = layers.add(layer) else {
        return Err(StormFault::Memory);
    };
    storm(rt, alloc, workers, rounds, layers, gate)
}
