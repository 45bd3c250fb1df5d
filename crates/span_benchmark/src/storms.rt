//! Storms of workers in threads, under a layer that is told of everything, some under two.
ghost use Rattle.std.specs.Prelude.{◌≡◌, ◌<◌, ◌≤◌, IfOk, string_bytes};
ghost use Rattle.std.specs.Result.{ForOk};
ghost use Rattle.span_layers.specs.Filter.{filter_of};
ghost use Rattle.span_layers.specs.Note.{plain_note};
ghost use Rattle.span_layers.specs.Rule.{pairs_of, is_admitted};
ghost use Rattle.span_layers.specs.Text.{text_of};
ghost use Rattle.span_benchmark.specs.Told.{told_of_all};

use crate::dice::Dice;
use crate::layers::{add, everything};
use crate::outcome::{Outcome, Stop};
use crate::workload::Scale;
use span_id::{Fault, Meta};
use span_layers::{FmtSpan, Form, Hooks, Layer, Layers, Note, Rule, Style, admits, text};
use span_outlet::Line;
use span_registry::Report;
use span_storm::{Open, storm};
use std::alloc::{AllocError, Global};
use std::sync::Wait;
use std::thread::Threads;

/// Runs the storms, no two of which have as many rounds.
pub fn run<R: Threads + Wait + Sync>(
    rt: &R,
    alloc: Global,
    seed: u32,
    scale: Scale,
) -> Result<Outcome, Stop> {
    let mut dice = Dice::new(seed, 30);
    let mut outcome = Outcome::new();
    let first = dice.below(41);
    for number in 0..scale.pick(2, 40) {
        let rounds = scale
            .pick(3, 360)
            .saturating_add(first.saturating_add(number) % 41)
            .min(400);
        let workers = dice.below(13).saturating_add(4);
        let is_double = dice.below(3) == 0;
        let report = one(rt, alloc, workers, rounds.max(1), is_double)?;
        add_report(&mut outcome, &report);
    }
    Ok(outcome)
}

// The numbers that do not depend on how the threads met.
fn add_report(outcome: &mut Outcome, report: &Report) {
    let lines = report.lines.len() as u64;
    outcome.count(report.calls, lines);
    outcome.digest.number(report.calls);
    outcome.digest.number(report.made);
    outcome.digest.number(report.handles);
    outcome.digest.number(lines);
    outcome.digest.number(sum(report.lines.as_slice()));
}

// The sum of what the lines have but for numbers, in whichever order they came.
fn sum(lines: &[Line]) -> u64 {
    let mut sum = 0u64;
    for line in lines {
        sum = sum.wrapping_add(hash(line.text.as_slice()));
    }
    sum
}

// A number for a text without its digits: ids and workers depend on how the threads met.
fn hash(text: &[u8]) -> u64 {
    let mut hash = 1u64;
    for byte in text {
        if !byte.is_ascii_digit() {
            hash = hash.wrapping_mul(31).wrapping_add(u64::from(*byte));
        }
    }
    hash
}

// A storm under a compact layer, and maybe a second one. The closures' contracts are what `Hooks::new` asks for.
fn one<R: Threads + Wait + Sync>(
    rt: &R,
    alloc: Global,
    workers: u32,
    rounds: u32,
    is_double: bool,
) -> Result<Report, Stop>
    requires workers { (0 < workers) × (workers ≤ 16) }
    requires rounds { (0 < rounds) × (rounds ≤ 400) }
{
    let mut hooks = Vec::new(alloc);
    for _ in 0..2 {
        let admit = Box::new(
            alloc,
            |rule: &Rule, meta: &Meta| -> bool
                ensures { result
                    ≡ is_admitted (pairs_of rule.now) (string_bytes meta.now.target) meta.now.level }
            { admits(rule, meta) },
        )?;
        let say = Box::new(
            alloc,
            |alloc: Global, form: Form, note: &Note| -> Result<Vec<u8>, AllocError>
                ensures { ForOk result (λ text. text.items ≡ text_of form (plain_note note.now)) }
            { text(alloc, form, note) },
        )?;
        hooks.push(Hooks::new(admit, say))?;
    }
    let (Some(first), Some(second)) = (hooks.pop(), hooks.pop()) else {
        return Err(Stop::Refused(Fault::Memory));
    };
    let layer = told(alloc, Form::Compact, first)?;
    if is_double {
        let other = told(alloc, Form::Json, second)?;
        return under_two(rt, alloc, workers, rounds, layer, other);
    }
    under_one(rt, alloc, workers, rounds, layer)
}

// A layer that is told of everything.
fn told(alloc: Global, form: Form, hooks: Hooks) -> Result<Layer, Fault>
    ensures { IfOk result (λ layer. filter_of layer.rule layer.style.spans ≡ told_of_all) }
{
    let rule = everything(alloc)?;
    let style = Style {
        form,
        spans: FmtSpan::FULL,
    };
    Ok(Layer { style, rule, hooks })
}

// A storm under this layer.
fn under_one<R: Threads + Wait + Sync>(
    rt: &R,
    alloc: Global,
    workers: u32,
    rounds: u32,
    layer: Layer,
) -> Result<Report, Stop>
    requires workers { (0 < workers) × (workers ≤ 16) }
    requires rounds { (0 < rounds) × (rounds ≤ 400) }
    requires told { filter_of layer.rule layer.style.spans ≡ told_of_all }
{
    let mut layers = Layers::new(alloc);
    add(&mut layers, layer)?;
    Ok(storm(rt, alloc, workers, rounds, layers, &Open)?)
}

// A storm under these two layers.
fn under_two<R: Threads + Wait + Sync>(
    rt: &R,
    alloc: Global,
    workers: u32,
    rounds: u32,
    layer: Layer,
    other: Layer,
) -> Result<Report, Stop>
    requires workers { (0 < workers) × (workers ≤ 16) }
    requires rounds { (0 < rounds) × (rounds ≤ 400) }
    requires told { filter_of layer.rule layer.style.spans ≡ told_of_all }
    requires other_told { filter_of other.rule other.style.spans ≡ told_of_all }
{
    let mut layers = Layers::new(alloc);
    add(&mut layers, layer)?;
    add(&mut layers, other)?;
    Ok(storm(rt, alloc, workers, rounds, layers, &Open)?)
}
