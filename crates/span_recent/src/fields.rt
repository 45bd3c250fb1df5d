//! Fields that were copied lately.
ghost use Rattle.std.specs.Prelude.{◌≡◌, ◌<◌, IfOk, IfErr};
ghost use Rattle.span_id.specs.Meta.{plain_fields};

use span_id::{Fault, Field, Fields};
use std::alloc::Global;

// The length of the longest list that is kept, in fields: lists of each length have places of their own.
const MOST: usize = 4;

// How many places the lists of one length have.
const PLACES: usize = 16;

// How many bytes the texts of a list that is kept have together, at most: so what is kept takes little memory.
const MOST_BYTES: usize = 256;

/// Fields that were copied lately: of lists of 1 to 4 fields, whose texts have at most 256 bytes together, the last 16 of
/// each length. They stay owned until others take their places: less than 40 KiB of memory, whatever is copied.
#[derive(Drop)]
pub struct RecentFields {
    alloc: Global,
    // Empty, or 16 for each length: they are used in turn.
    places: Vec<Option<Fields>>,
    // How many turns were taken at each length, modulo 256.
    turns: [u8; MOST],
}

impl RecentFields {
    /// None yet. It takes no memory.
    pub fn none(alloc: Global) -> RecentFields {
        RecentFields {
            alloc,
            places: Vec::new(alloc),
            turns: [0; MOST],
        }
    }

    /// Equal fields of their own: in the memory of the copy of as many fields that was made 16 copies ago, where nobody
    /// else has it any longer. The only error is `Memory`.
    pub fn copy(&mut self, fields: &[Field]) -> Result<Fields, Fault>
        ensures fields { IfOk result (λ copy. copy ≡ plain_fields fields.now) }
        ensures memory { IfErr result (λ fault. fault ≡ Fault.Memory) }
    {
        let alloc = self.alloc;
        if fields.is_empty() || !is_kept(fields) || self.make_places().is_err() {
            return Fields::copy_of(alloc, fields);
        }
        let at = self.turn(fields.len());
        match self.places.get_mut(at) {
            Some(place) => copy_at(alloc, place, fields),
            None => Fields::copy_of(alloc, fields),
        }
    }

    // The place whose turn it is for a list of this length.
    fn turn(&mut self, len: usize) -> usize {
        let group = len % MOST;
        let turn = self.turns[group];
        self.turns[group] = turn.wrapping_add(1);
        group * PLACES + usize::from(turn) % PLACES
    }

    // Makes the places where there are none, in which nothing stands.
    fn make_places(&mut self) -> Result<(), Fault> {
        if !self.places.is_empty() {
            return Ok(());
        }
        self.places.reserve_exact(MOST * PLACES)?;
        for _ in 0..MOST * PLACES {
            self.places.push(None)?;
        }
        Ok(())
    }
}

// Equal fields of their own, over those that stand at a place, where they take these' place. Where one more owner can't be
// counted nothing is kept, which is no error.
fn copy_at(alloc: Global, place: &mut Option<Fields>, fields: &[Field]) -> Result<Fields, Fault>
    ensures fields { IfOk result (λ copy. copy ≡ plain_fields fields.now) }
    ensures memory { IfErr result (λ fault. fault ≡ Fault.Memory) }
{
    let copy = match place.take() {
        Some(earlier) => earlier.copy_over(alloc, fields)?,
        None => Fields::copy_of(alloc, fields)?,
    };
    *place = copy.share().ok();
    Ok(copy)
}

// Whether a copy of these fields is kept: of few fields with short texts.
fn is_kept(fields: &[Field]) -> bool {
    fields.len() <= MOST && bytes_of(fields) <= MOST_BYTES
}

// How many bytes the texts of these fields have together.
fn bytes_of(fields: &[Field]) -> usize {
    let mut bytes = 0usize;
    for field in fields {
        let more = field.key.len().saturating_add(field.value.len());
        bytes = bytes.saturating_add(more);
    }
    bytes
}
