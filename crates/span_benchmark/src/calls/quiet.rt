//! Requests as most programs make them: of most calls no layer is told. It shares the registry's parts and the texts with
//! `calls`, and has code of its own for the rest, so that neither workload changes with the other.
ghost use Rattle.std.specs.Prelude.{◌≡◌, string_bytes};
ghost use Rattle.std.specs.Result.{ForOk};
ghost use Rattle.span_layers.specs.Note.{plain_note};
ghost use Rattle.span_layers.specs.Rule.{pairs_of, is_admitted};
ghost use Rattle.span_layers.specs.Text.{text_of};

mod caller;
mod metas;
mod requests;
mod reused;

use crate::calls::quiet::requests::on_registry;
use crate::layers::{add, rule_of};
use crate::outcome::Outcome;
use crate::workload::Scale;
use span_id::{Fault, Level, Meta};
use span_layers::{FmtSpan, Form, Hooks, Layer, Layers, Note, Rule, Style, admits, text};
use std::alloc::{AllocError, Global};
use std::sync::Wait;

// Of each layer what it is told of spans, its form, and which prefixes it admits up to which level.
const LAYERS: [(FmtSpan, Form, &[(&str, Level)]); 2] = [
    (FmtSpan::NONE, Form::Compact, &[("", Level::Info)]),
    (FmtSpan::NONE, Form::Json, &[("app::db", Level::Warn)]),
];

/// Makes the requests. The closures' contracts are what `Hooks::new` asks for.
pub fn run<R: Wait>(rt: &R, alloc: Global, seed: u32, scale: Scale) -> Result<Outcome, Fault> {
    let mut layers = Layers::new(alloc);
    for (spans, form, pairs) in LAYERS {
        let admit = Box::new(
            alloc,
            |rule: &Rule, meta: &Meta| -> bool
                ensures { result
                    ≡ is_admitted (pairs_of rule.now) (string_bytes meta.now.target) meta.now.level }
            { admits(rule, meta) },
        )?;
        let say = Box::new(
            alloc,
            |alloc: Global, form: Form, note: &Note| -> Result<Vec<u8>, AllocError>
                ensures { ForOk result (λ text. text.items ≡ text_of form (plain_note note.now)) }
            { text(alloc, form, note) },
        )?;
        let rule = rule_of(alloc, pairs)?;
        let style = Style { form, spans };
        let hooks = Hooks::new(admit, say);
        add(&mut layers, Layer { style, rule, hooks })?;
    }
    on_registry(rt, alloc, seed, scale.pick(5, 90_000), layers)
}
