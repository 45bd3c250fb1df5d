//! Fields that nobody needs any longer.
ghost use Rattle.std.specs.Prelude.{◌≡◌, ◌∷◌, [], IfOk, IfErr};
ghost use Rattle.span_id.specs.Meta.{plain_fields};

use span_id::{Fault, Field, Fields};
use std::alloc::Global;
use std::mem;

// How many lists are kept.
const PLACES: usize = 4;

// How many fields a list that is kept has at most.
const MOST: usize = 4;

// How many bytes of memory it has room for, with its texts, at most.
const MOST_BYTES: usize = 512;

/// The fields of spans that closed, for the memory that they have: those of the next spans are written there. Of at most
/// four lists, each of at most 4 fields and 512 bytes with its texts, the one that came last is taken first, and freed
/// where it doesn't serve.
#[derive(Drop)]
pub struct SpareFields {
    alloc: Global,
    places: [Fields; PLACES],
    // In how many places fields stand: these are the first ones.
    len: usize,
}

impl SpareFields {
    /// None yet.
    pub fn none(alloc: Global) -> SpareFields {
        SpareFields {
            alloc,
            places: [
                Fields::none(),
                Fields::none(),
                Fields::none(),
                Fields::none(),
            ],
            len: 0,
        }
    }

    /// Keeps these, unless there are none, or they take much memory, or four lists are kept.
    pub fn keep(&mut self, fields: Fields) {
        if fields.is_empty() || fields.len() > MOST || fields.bytes() > MOST_BYTES {
            return;
        }
        if let Some(place) = self.places.get_mut(self.len) {
            *place = fields;
            self.len = self.len.saturating_add(1);
        }
    }

    /// A field of its own: in the memory of the list that is taken, where that has one field too, and nobody else has it.
    /// The only error is `Memory`.
    pub fn one(&mut self, key: &str, value: &str) -> Result<Fields, Fault>
        ensures field { IfOk result (λ fields. fields ≡ (key.now, value.now) ∷ []) }
        ensures memory { IfErr result (λ fault. fault ≡ Fault.Memory) }
    {
        self.take().one_over(self.alloc, key, value)
    }

    /// Equal fields of their own: in the memory of the list that is taken, where that has as many, and nobody else has it.
    /// The only error is `Memory`.
    pub fn copy(&mut self, fields: &[Field]) -> Result<Fields, Fault>
        ensures fields { IfOk result (λ copy. copy ≡ plain_fields fields.now) }
        ensures memory { IfErr result (λ fault. fault ≡ Fault.Memory) }
    {
        if fields.is_empty() {
            return Ok(Fields::none());
        }
        self.take().copy_over(self.alloc, fields)
    }

    // The list that came last, in whose place none stand then; none where none is kept.
    fn take(&mut self) -> Fields {
        self.len = self.len.saturating_sub(1);
        match self.places.get_mut(self.len) {
            Some(place) => mem::replace(place, Fields::none()),
            None => Fields::none(),
        }
    }
}
