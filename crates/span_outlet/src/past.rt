//! A history that is known and not kept.
ghost use Rattle.std.specs.Prelude.{◌≡◌, ◌++◌, ◌∷◌, []};
ghost use Rattle.span_outlet.specs.Past.{batches_of};
ghost use Rattle.span_outlet.specs.Posted.{plain_posted};

use crate::posted::Posted;
use std::mem;
use std::snapshot::Snapshot;

/// The batches that were sent, as clauses see them. Nothing of a batch is kept: a snapshot has no bytes.
#[derive(Drop)]
pub(crate) enum Past {
    Nothing,
    After(Snapshot<Past>, Snapshot<Posted>),
}

impl Past {
    // One batch more.
    pub(crate) fn add(&mut self, batch: &Posted)
        ensures { batches_of self.new ≡ batches_of self.old ++ plain_posted batch.now ∷ [] }
    {
        let before = mem::replace(self, Past::Nothing);
        *self = Past::After(Snapshot::of(&before), Snapshot::of(batch));
    }
}
