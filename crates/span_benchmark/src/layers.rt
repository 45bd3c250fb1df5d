//! Layers that are made for calls and storms.
ghost use Rattle.std.specs.Prelude.{◌≡◌, ◌++◌, [], ◌∷◌, OnOk, IfOk};
ghost use Rattle.span_id.specs.declared.level.Level.TheVariants.{Trace};
ghost use Rattle.span_layers.specs.Filter.{filter_of};
ghost use Rattle.span_layers.specs.Layers.{filters_in};
ghost use Rattle.span_layers.specs.Rule.{pairs_of};

use span_id::{Fault, Level, copy_text};
use span_layers::{Layer, Layers, Rule};
use std::alloc::Global;

/// Adds a layer.
pub fn add(layers: &mut Layers, layer: Layer) -> Result<(), Fault>
    ensures { OnOk result
        (filters_in layers.new ≡ filters_in layers.old ++ filter_of layer.rule layer.style.spans ∷ []) }
{
    match layers.add(layer) {
        Ok(_number) => Ok(()),
        Err((_layer, fault)) => Err(fault),
    }
}

/// The rule that admits everything.
pub fn everything(alloc: Global) -> Result<Rule, Fault>
    ensures { IfOk result (λ rule. pairs_of rule ≡ ([], Trace) ∷ []) }
{
    let mut pairs = Vec::with_capacity(alloc, 1)?;
    pairs.push_reserved((copy_text(alloc, "")?, Level::Trace));
    Ok(Rule { pairs })
}

/// The rule with these pairs.
pub fn rule_of(alloc: Global, pairs: &[(&str, Level)]) -> Result<Rule, Fault> {
    let mut copies = Vec::new(alloc);
    for pair in pairs {
        copies.push((copy_text(alloc, pair.0)?, pair.1))?;
    }
    Ok(Rule { pairs: copies })
}
