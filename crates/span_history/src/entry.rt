//! What a seat's view lists.

use span_outlet::Batch;
use std::marker::Model;

/// A batch, as contracts see it: `PlainBatch`. No value of it is ever made.
#[derive(Drop)]
pub struct Entry {
    batch: Batch,
}

impl Model for Entry {
    ghost use Rattle.span_outlet.specs.Batch.{PlainBatch, plain_batch};

    ghost Value = { PlainBatch };

    ghost view = { λ e. plain_batch e.batch };
}
