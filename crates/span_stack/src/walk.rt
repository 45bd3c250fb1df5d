ghost use Rattle.std.specs.Iterator.{YieldsFirst, item_count};

use crate::entry::Entry;
use span_id::Id;
use std::iter::FusedIterator;
use std::marker::Model;
use std::slice;

/// The entries of a stack that are no duplicates, topmost first.
///
/// Contracts see the list of the ids that are still to come.
#[derive(Debug, Drop)]
pub struct Walk<'a> {
    pub(crate) entries: slice::Iter<'a, Entry>,
}

impl<'a> Model for Walk<'a> {
    ghost use Rattle.std.specs.Prelude.{List, ℕ};
    ghost use Rattle.std.specs.Slice.Iter.{iter_rest};

    ghost Value = { List ℕ };

    ghost use Rattle.span_stack.specs.inside.Entry.{unflagged};

    ghost view = { λ walk. unflagged (iter_rest walk.entries) };
}

impl<'a> Iterator for Walk<'a> {
    type Item = Id;

    ghost next_gives = { YieldsFirst (λ rest. rest) };

    ghost remaining = { item_count (λ rest. rest) };

    fn next(&mut self) -> Option<Id> {
        self.entries
            .rfind(|entry| !entry.duplicate)
            .map(|entry| entry.id)
    }
}

impl<'a> FusedIterator for Walk<'a> {}
