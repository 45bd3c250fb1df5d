//! Rows whose calls need layers.
ghost use Rattle.std.specs.Prelude.{◌≡◌, string_bytes};
ghost use Rattle.std.specs.Result.{ForOk};
ghost use Rattle.span_layers.specs.Note.{plain_note};
ghost use Rattle.span_layers.specs.Rule.{pairs_of, is_admitted};
ghost use Rattle.span_layers.specs.Text.{text_of};

use crate::rows::acts::Given;
use crate::rows::{Row, appended, kept, layers, on_core, on_latest, outlets, ring};
use crate::stage::Stage;
use crate::stop::Stop;
use span_id::Meta;
use span_layers::{FmtSpan, Form, Hooks, Layer, Layers, Note, Rule, Style, admits, text};
use std::alloc::{AllocError, Global};
use std::sync::Wait;

/// Adds so many layers, and goes on with the row. `Memory` where it has to begin anew.
///
/// The closures are made here, and not handed out before they lie in hooks.
pub(crate) fn run<R: Print + Wait>(
    stage: &Stage<R>,
    alloc: Global,
    row: Row,
    count: usize,
    given: &Given,
) -> Result<(), Stop> {
    let mut layers = Layers::new(alloc);
    for number in 0..count {
        let admit = Box::new(
            alloc,
            |rule: &Rule, meta: &Meta| -> bool
                ensures { result
                    ≡ is_admitted (pairs_of rule.now) (string_bytes meta.now.target) meta.now.level }
            { admits(rule, meta) },
        )?;
        let say = Box::new(
            alloc,
            |alloc: Global, form: Form, note: &Note| -> Result<Vec<u8>, AllocError>
                ensures { ForOk result (λ text. text.items ≡ text_of form (plain_note note.now)) }
            { text(alloc, form, note) },
        )?;
        add(
            stage,
            alloc,
            row,
            number,
            &mut layers,
            Hooks::new(admit, say),
        )?;
    }
    go_on(stage, alloc, row, given, layers)
}

// Adds the layer of this number, and tells what is answered where layers are what the row is about.
fn add<R: Print>(
    stage: &Stage<R>,
    alloc: Global,
    row: Row,
    number: usize,
    layers: &mut Layers,
    hooks: Hooks,
) -> Result<(), Stop> {
    let layer = Layer {
        style: style(row, number),
        rule: Rule::everything(alloc)?,
        hooks,
    };
    layers::add(stage, layers, layer, matches!(row, Row::Layers))
}

// A layer wants everything and writes plain text; of many layers every second writes JSON, from the first on.
fn style(row: Row, number: usize) -> Style {
    let form = if matches!(row, Row::Layers) && number % 2 == 0 {
        Form::Json
    } else {
        Form::Compact
    };
    Style {
        form,
        spans: FmtSpan::FULL,
    }
}

// Makes the row's calls with these layers.
fn go_on<R: Print + Wait>(
    stage: &Stage<R>,
    alloc: Global,
    row: Row,
    given: &Given,
    layers: Layers,
) -> Result<(), Stop> {
    if matches!(row, Row::Layers) {
        return layers::run(stage, alloc, layers);
    }
    let (filters, formatting) = layers.split();
    match row {
        Row::Outlets => outlets::run(stage, alloc, formatting),
        Row::Core => on_core::run(stage, alloc, given, filters, formatting),
        Row::Texts => appended::run(stage, alloc, &formatting.formatters),
        Row::Latest => on_latest::run(stage, alloc, given, filters, formatting),
        Row::FullRing | Row::Ring => ring::run(stage, alloc, row, given, filters, formatting),
        _ => kept::run(stage, alloc, row, given, filters, formatting),
    }
}
