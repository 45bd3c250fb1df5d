//! An event that is known and not kept.
ghost use Rattle.std.specs.Prelude.{◌≡◌};
ghost use Rattle.span_id.specs.Meta.{plain_meta, plain_fields};
ghost use Rattle.span_outlet.specs.KnownEvent.{request_of_known};
ghost use Rattle.span_outlet.specs.Request.{event};

use crate::batch::ParentOf;
use span_id::{Field, Meta};
use span_known::{KnownItems, KnownValue};

/// An event that was accepted, as clauses see it: nothing of it is kept but the number of its worker and
/// its parent.
#[derive(Drop)]
pub struct KnownEvent {
    pub worker: u32,
    pub meta: KnownValue<Meta>,
    pub message: KnownItems<u8>,
    pub fields: KnownItems<Field>,
    pub parent: ParentOf,
}

impl KnownEvent {
    /// The event that this worker tells under this parent. It takes no memory, and copies nothing.
    #[inline(always)]
    pub fn new(
        worker: u32,
        meta: &Meta,
        message: &str,
        fields: &[Field],
        parent: ParentOf,
    ) -> KnownEvent
        ensures { request_of_known result
            ≡ event worker (plain_meta meta.now) message.now (plain_fields fields.now) parent }
    {
        KnownEvent {
            worker,
            meta: KnownValue::of(meta),
            message: KnownItems::of(message.as_bytes()),
            fields: KnownItems::of(fields),
            parent,
        }
    }
}
