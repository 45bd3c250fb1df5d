//! Layers that admit everything.
ghost use Rattle.std.specs.Prelude.{◌≡◌};
ghost use Rattle.std.specs.Result.{ForOk};
ghost use Rattle.span_layers.specs.Note.{plain_note};
ghost use Rattle.span_layers.specs.Text.{text_of};

use span_id::Fault;
use span_layers::{ByForm, ByRule, Form, Hooks, Layer, Layers, Note, Rule, Style, text};
use std::alloc::{AllocError, Global};

/// Layers with no closures.
pub type PlainLayers = Layers<ByRule, ByForm>;

/// So many layers that admit everything and write in their form.
pub fn plain(alloc: Global, count: u32, style: Style) -> Result<PlainLayers, Fault> {
    let mut layers = Layers::new(alloc);
    for _ in 0..count {
        add(alloc, &mut layers, style, Hooks::by_rule_and_form())?;
    }
    Ok(layers)
}

/// Adds a layer that admits everything.
pub fn add<A: Drop, F: Drop>(
    alloc: Global,
    layers: &mut Layers<A, F>,
    style: Style,
    hooks: Hooks<A, F>,
) -> Result<(), Fault> {
    let rule = Rule::everything(alloc)?;
    match layers.add(Layer { style, rule, hooks }) {
        Ok(_number) => Ok(()),
        Err((_layer, fault)) => Err(fault),
    }
}

/// The text of a note, made so many times more, so that it takes longer.
pub fn write(alloc: Global, form: Form, note: &Note, more: u32) -> Result<Vec<u8>, AllocError>
    ensures { ForOk result (λ text. text.items ≡ text_of form (plain_note note.now)) }
{
    for _ in 0..more {
        drop(text(alloc, form, note)?);
    }
    text(alloc, form, note)
}
