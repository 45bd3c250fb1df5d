//! A new span that is known and not kept.
ghost use Rattle.std.specs.Prelude.{◌≡◌};
ghost use Rattle.span_id.specs.Meta.{plain_meta, plain_fields};
ghost use Rattle.span_outlet.specs.KnownSpan.{request_of_known_span};
ghost use Rattle.span_outlet.specs.Request.{new_span};

use span_id::{Field, Id, Meta};
use span_known::{KnownItems, KnownValue};

/// A span that was made, as clauses see the call: nothing of it is kept but the number of its worker, its id and its
/// parent's.
#[derive(Drop)]
pub struct KnownSpan {
    pub worker: u32,
    pub id: Id,
    pub meta: KnownValue<Meta>,
    pub fields: KnownItems<Field>,
    pub parent: Option<Id>,
}

impl KnownSpan {
    /// The span of this id that this worker makes under this parent. It takes no memory, and copies nothing.
    #[inline(always)]
    pub fn new(worker: u32, id: Id, meta: &Meta, fields: &[Field], parent: Option<Id>) -> KnownSpan
        ensures request { request_of_known_span result
            ≡ new_span worker (plain_meta meta.now) (plain_fields fields.now) parent }
        ensures id { result.id ≡ id }
    {
        KnownSpan {
            worker,
            id,
            meta: KnownValue::of(meta),
            fields: KnownItems::of(fields),
            parent,
        }
    }
}
