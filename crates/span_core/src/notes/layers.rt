//! The layers that are told of what happens.
ghost use Rattle.std.specs.Prelude.{◌≡◌, ◌<◌, ℕ, true, false, [], filter, length};
ghost use Rattle.std.specs.List.{range_with_len};
ghost use Rattle.std.specs.Iterator.{YieldsFirst, item_count};
ghost use Rattle.span_layers.specs.Filter.{layer_wants};
ghost use Rattle.span_core.specs.inside.Sound.{hears};

use span_id::Bits;
use span_layers::{Kind, Rules};
use std::marker::Model;

/// The numbers of the layers that admit what happened and want its kind, ascending.
///
/// Contracts see the list of those that are still to come. Layers that aren't told are skipped with no look at them.
#[derive(Drop)]
pub(crate) struct ToldLayers {
    told: Bits,
    next: u32,
}

impl Model for ToldLayers {
    ghost use Rattle.std.specs.Prelude.{List, ℕ};

    ghost Value = { List ℕ };

    ghost use Rattle.span_core.specs.inside.Telling.{told_from};

    ghost view = { λ layers. told_from layers.told.0 layers.next };
}

impl ToldLayers {
    // How many layers are told, if none was given out.
    pub(crate) fn len(&self) -> usize {
        self.told.0.count_ones() as usize
    }
}

impl Iterator for ToldLayers {
    type Item = u32;

    ghost next_gives = { YieldsFirst (λ rest. rest) };

    ghost remaining = { item_count (λ rest. rest) };

    fn next(&mut self) -> Option<u32> {
        if self.next >= 64 {
            return None;
        }
        let rest = self.told.0 >> self.next;
        if rest == 0 {
            return None;
        }
        let layer = self.next + rest.trailing_zeros();
        self.next = layer + 1;
        Some(layer)
    }
}

// The layers that are told of what these layers admit, where it is of this kind.
pub(crate) fn told_layers(rules: &Rules, bits: Bits, kind: Kind) -> ToldLayers
    ensures { result ≡ filter (hears rules.now bits.0 kind) (range_with_len 0 (length rules.now)) }
{
    rules.len();
    ToldLayers {
        told: bits.and(rules.wanting(kind)),
        next: 0,
    }
}

// Whether no layer is told.
pub(crate) fn is_told_to_none(rules: &Rules, bits: Bits, kind: Kind) -> bool
    ensures { result ≡ true → filter (hears rules.now bits.0 kind) (range_with_len 0 (length rules.now)) ≡ [] }
{
    told_layers(rules, bits, kind).next().is_none()
}

// Whether any layer wants notes of this kind.
pub(crate) fn is_wanted(rules: &Rules, kind: Kind) -> bool
    ensures { result ≡ false → (layer : ℕ) → layer < length rules.now → layer_wants rules.now layer kind ≡ false }
{
    rules.wanting(kind).0 != 0
}
