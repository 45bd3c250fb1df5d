//! Requests on a registry in the thread of its one worker, under three layers.
ghost use Rattle.std.specs.Prelude.{◌≡◌, string_bytes};
ghost use Rattle.std.specs.Result.{ForOk};
ghost use Rattle.span_layers.specs.Note.{plain_note};
ghost use Rattle.span_layers.specs.Rule.{pairs_of, is_admitted};
ghost use Rattle.span_layers.specs.Text.{text_of};

mod caller;
mod metas;
mod parts;
pub mod quiet;
mod requests;

use crate::calls::requests::on_registry;
use crate::layers::{add, rule_of};
use crate::outcome::Outcome;
use crate::workload::Scale;
use span_id::{Fault, Level, Meta};
use span_layers::{FmtSpan, Form, Hooks, Layer, Layers, Note, Rule, Style, admits, text};
use std::alloc::{AllocError, Global};
use std::sync::Wait;

// Of each layer what it is told of spans, in two parts, its form, and which prefixes it admits up to which level.
const LAYERS: [(FmtSpan, FmtSpan, Form, &[(&str, Level)]); 3] = [
    (
        FmtSpan::FULL,
        FmtSpan::FULL,
        Form::Compact,
        &[("", Level::Trace)],
    ),
    (
        FmtSpan::NONE,
        FmtSpan::NONE,
        Form::Json,
        &[("app", Level::Info)],
    ),
    (
        FmtSpan::NEW,
        FmtSpan::CLOSE,
        Form::Compact,
        &[("app::db", Level::Trace), ("app", Level::Warn)],
    ),
];

/// Makes the requests. The closures' contracts are what `Hooks::new` asks for.
pub fn run<R: Wait>(rt: &R, alloc: Global, seed: u32, scale: Scale) -> Result<Outcome, Fault> {
    let mut layers = Layers::new(alloc);
    for (first, second, form, pairs) in LAYERS {
        let admit = Box::new(
            alloc,
            |rule: &Rule, meta: &Meta| -> bool
                ensures { result
                    ≡ is_admitted (pairs_of rule.now) (string_bytes meta.now.target) meta.now.level }
            { admits(rule, meta) },
        )?;
        let say = Box::new(
            alloc,
            |alloc: Global, form: Form, note: &Note| -> Result<Vec<u8>, AllocError>
                ensures { ForOk result (λ text. text.items ≡ text_of form (plain_note note.now)) }
            { text(alloc, form, note) },
        )?;
        let rule = rule_of(alloc, pairs)?;
        let style = Style {
            form,
            spans: first | second,
        };
        let hooks = Hooks::new(admit, say);
        add(&mut layers, Layer { style, rule, hooks })?;
    }
    on_registry(rt, alloc, seed, scale.pick(20, 80_000), layers)
}
