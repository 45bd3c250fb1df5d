//! Metas that were copied lately.
ghost use Rattle.std.specs.Prelude.{◌≡◌, ◌<◌, IfOk, IfErr, IfSome};
ghost use Rattle.span_id.specs.Meta.{plain_meta};

use crate::place::{PLACES, place_of};
use span_id::{Fault, Level, Meta, SharedMeta, copy_text};
use std::alloc::Global;

// How many bytes both texts of a meta that is kept have together, at most: so what is kept takes little memory.
const MOST_BYTES: usize = 128;

/// The metas that were copied lately, one at each of 64 places. They stay owned until others take their places: less
/// than 16 KiB of memory, whatever is copied, since both texts of a meta that is kept have at most 128 bytes together.
#[derive(Drop)]
pub struct RecentMetas {
    alloc: Global,
    // Empty, or one for each place.
    places: Vec<Option<SharedMeta>>,
}

impl RecentMetas {
    /// None yet. It takes no memory.
    pub fn none(alloc: Global) -> RecentMetas {
        RecentMetas {
            alloc,
            places: Vec::new(alloc),
        }
    }

    /// An equal meta: one that was copied lately gets one more owner, else it is copied, as a long one always is. The
    /// only error is `Memory`.
    pub fn share(&mut self, meta: &Meta) -> Result<SharedMeta, Fault>
        ensures meta { IfOk result (λ shared. shared ≡ plain_meta meta.now) }
        ensures memory { IfErr result (λ fault. fault ≡ Fault.Memory) }
    {
        if !is_kept(meta) {
            return SharedMeta::copy_of(self.alloc, meta);
        }
        let at = place_of(meta.name.as_bytes());
        if let Some(recent) = self.of_texts(at, meta.level, &meta.name, &meta.target) {
            return recent.share();
        }
        let copy = SharedMeta::copy_of(self.alloc, meta)?;
        self.keep(at, &copy);
        Ok(copy)
    }

    /// The meta of this level and these texts, as `share` gives it: one that was copied lately is found without a copy. The
    /// only error is `Memory`.
    pub fn share_texts(
        &mut self,
        level: Level,
        name: &str,
        target: &str,
    ) -> Result<SharedMeta, Fault>
        ensures meta { IfOk result (λ shared. shared ≡ record { name = name.now; target = target.now; level = level }) }
        ensures memory { IfErr result (λ fault. fault ≡ Fault.Memory) }
    {
        let at = place_of(name.as_bytes());
        if let Some(recent) = self.of_texts(at, level, name, target) {
            return recent.share();
        }
        let name = copy_text(self.alloc, name)?;
        let target = copy_text(self.alloc, target)?;
        let meta = Meta {
            name,
            target,
            level,
        };
        let is_kept = is_kept(&meta);
        let copy = SharedMeta::new(self.alloc, meta)?;
        if is_kept {
            self.keep(at, &copy);
        }
        Ok(copy)
    }

    // What stands at a place, if it has this level and these texts.
    fn of_texts(&self, at: usize, level: Level, name: &str, target: &str) -> Option<&SharedMeta>
        ensures { IfSome result (λ recent.
            recent.now ≡ record { name = name.now; target = target.now; level = level }) }
    {
        let recent = self.places.get(at)?.as_ref()?;
        let meta = recent.as_meta();
        if meta.level == level && meta.name.as_str() == name && meta.target.as_str() == target {
            Some(recent)
        } else {
            None
        }
    }

    // Puts a meta at its place. Where memory is refused it isn't kept, which is no error.
    fn keep(&mut self, at: usize, meta: &SharedMeta) {
        if self.places.is_empty() && self.make_places().is_err() {
            return;
        }
        if let (Some(place), Ok(shared)) = (self.places.get_mut(at), meta.share()) {
            *place = Some(shared);
        }
    }

    // Makes the places, in which nothing stands.
    fn make_places(&mut self) -> Result<(), Fault> {
        self.places.reserve_exact(PLACES)?;
        for _ in 0..PLACES {
            self.places.push(None)?;
        }
        Ok(())
    }
}

// Whether a copy of this meta is kept: of one with short texts.
fn is_kept(meta: &Meta) -> bool {
    meta.name.len().saturating_add(meta.target.len()) <= MOST_BYTES
}
