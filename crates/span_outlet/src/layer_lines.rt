//! The lines of one layer.
ghost use Rattle.std.specs.Iterator.{YieldsFirstRef, item_count};

use std::iter::FusedIterator;
use std::marker::Model;
use std::slice;

/// The lines of one layer, in order.
///
/// Contracts see the list of those that are still to come.
#[derive(Debug, Drop)]
pub struct LayerLines<'a> {
    pub(crate) lines: slice::Iter<'a, crate::line::Line>,
    pub(crate) layer: u32,
}

impl<'a> Model for LayerLines<'a> {
    ghost use Rattle.std.specs.Prelude.{List};
    ghost use Rattle.std.specs.Slice.Iter.{iter_rest};
    ghost use Rattle.span_outlet.specs.declared.line.Line.{Line};
    ghost use Rattle.span_outlet.specs.inside.OfLayer.{of_layer};

    ghost Value = { List Line };

    ghost view = { λ left. of_layer left.layer (iter_rest left.lines) };
}

impl<'a> Iterator for LayerLines<'a> {
    type Item = &'a crate::line::Line;

    ghost next_gives = { YieldsFirstRef (λ rest. rest) };

    ghost remaining = { item_count (λ rest. rest) };

    fn next(&mut self) -> Option<&'a crate::line::Line> {
        let layer = self.layer;
        self.lines.find(|line| line.layer == layer)
    }
}

impl<'a> FusedIterator for LayerLines<'a> {}
