//! Layers in few words.

use span_id::{Fault, Level};
use span_layers::{ByForm, ByRule, FmtSpan, Form, Hooks, Layer, Layers, Rule, Style};
use std::alloc::{AllocError, Global};

/// A rule of these pairs.
pub fn rule(alloc: Global, pairs: &[(&str, Level)]) -> Result<Rule, AllocError> {
    let mut made = Vec::new(alloc);
    for (prefix, level) in pairs {
        let prefix = String::from_str(alloc, prefix)?;
        made.push((prefix, *level))?;
    }
    Ok(Rule { pairs: made })
}

/// The kinds of notes on spans that a layer wants, as tables of constants can hold them.
#[derive(Clone, Copy)]
pub enum Wanted {
    /// No kind.
    None,
    /// New spans.
    New,
    /// Closes.
    Close,
    /// New spans and closes.
    NewAndClose,
    /// Exits and closes.
    ExitAndClose,
    /// Entries and exits.
    EnterAndExit,
    /// Each kind.
    All,
}

fn spans_of(wanted: Wanted) -> FmtSpan {
    match wanted {
        Wanted::None => FmtSpan::NONE,
        Wanted::New => FmtSpan::NEW,
        Wanted::Close => FmtSpan::CLOSE,
        Wanted::NewAndClose => FmtSpan::NEW | FmtSpan::CLOSE,
        Wanted::ExitAndClose => FmtSpan::EXIT | FmtSpan::CLOSE,
        Wanted::EnterAndExit => FmtSpan::ACTIVE,
        Wanted::All => FmtSpan::FULL,
    }
}

/// A layer in few words: its form, the kinds that it wants, and the one pair of its rule.
pub type Plan<'a> = (Form, Wanted, &'a str, Level);

/// Lets everything in, and writes everything in the compact form.
pub const EVERYTHING: Plan<'static> = (Form::Compact, Wanted::All, "", Level::Trace);

/// A layer of this plan with these hooks.
pub fn layer_with<A: Drop, F: Drop>(
    alloc: Global,
    plan: &Plan,
    hooks: Hooks<A, F>,
) -> Result<Layer<A, F>, AllocError> {
    let (form, wanted, prefix, level) = *plan;
    let rule = rule(alloc, &[(prefix, level)])?;
    let spans = spans_of(wanted);
    let style = Style { form, spans };
    Ok(Layer { style, rule, hooks })
}

/// Adds a layer of this plan with these hooks.
pub fn add<A: Drop, F: Drop>(
    alloc: Global,
    layers: &mut Layers<A, F>,
    plan: &Plan,
    hooks: Hooks<A, F>,
) -> Result<(), Fault> {
    added(layers, layer_with(alloc, plan, hooks)?)
}

fn added<A: Drop, F: Drop>(layers: &mut Layers<A, F>, layer: Layer<A, F>) -> Result<(), Fault> {
    match layers.add(layer) {
        Ok(_number) => Ok(()),
        Err((_layer, fault)) => Err(fault),
    }
}

/// Layers of these plans with no closures.
pub fn plain_layers(alloc: Global, plans: &[Plan]) -> Result<Layers<ByRule, ByForm>, Fault> {
    let mut layers = Layers::new(alloc);
    add_all(alloc, &mut layers, plans)?;
    Ok(layers)
}

fn add_all(
    alloc: Global,
    layers: &mut Layers<ByRule, ByForm>,
    plans: &[Plan],
) -> Result<(), Fault> {
    for plan in plans {
        add(alloc, layers, plan, Hooks::by_rule_and_form())?;
    }
    Ok(())
}
