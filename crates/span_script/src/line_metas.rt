//! Where the metas of new spans and events come from.
ghost use Rattle.std.specs.Prelude.{◌≡◌, ◌<◌, IfOk, IfErr, IfSome};

use crate::meta::meta;
use crate::stop::Stop;
use span_id::{Level, SharedMeta};
use std::alloc::{AllocError, Global};

// How many places there are.
const PLACES: usize = 64;

// How many bytes both texts of a meta that is kept have together, at most: so what is kept takes little memory.
const MOST_BYTES: usize = 128;

/// Gives metas.
pub(crate) trait Metas {
    /// A meta of these texts and this level. The only error is `Memory`.
    fn give(
        &mut self,
        alloc: Global,
        name: &str,
        target: &str,
        level: Level,
    ) -> Result<SharedMeta, Stop>
        ensures meta { IfOk result (λ meta. meta ≡ record { name = name.now; target = target.now; level = level }) }
        ensures memory { IfErr result (λ stop. stop ≡ Stop.Memory) };
}

/// Each meta has texts of its own.
#[derive(Drop)]
pub(crate) struct OwnMetas;

impl Metas for OwnMetas {
    fn give(
        &mut self,
        alloc: Global,
        name: &str,
        target: &str,
        level: Level,
    ) -> Result<SharedMeta, Stop> {
        meta(alloc, name, target, level)
    }
}

/// The metas that lines gave lately, one at each of 64 places, to be shared where they come again: a script makes its
/// spans and events at the same few places again and again. They stay owned until others take their places: less than
/// 16 KiB of memory, since both texts of a meta that is kept have at most 128 bytes together.
#[derive(Drop)]
pub struct LineMetas {
    // Empty, or one for each place.
    places: Vec<Option<SharedMeta>>,
}

impl LineMetas {
    /// None yet. It takes no memory.
    pub fn none(alloc: Global) -> LineMetas {
        LineMetas {
            places: Vec::new(alloc),
        }
    }

    // One owner more of what stands at a place, if it has these texts and this level.
    fn shared(&self, at: usize, name: &str, target: &str, level: Level) -> Option<SharedMeta>
        ensures { IfSome result (λ meta. meta ≡ record { name = name.now; target = target.now; level = level }) }
    {
        let recent = self.places.get(at)?.as_ref()?;
        let meta = recent.as_meta();
        if meta.name.as_str() == name && meta.target.as_str() == target && meta.level == level {
            return recent.share().ok();
        }
        None
    }

    // Puts a meta at its place. Where memory is refused it isn't kept, which is no error.
    fn keep(&mut self, at: usize, meta: &SharedMeta) {
        if self.places.is_empty() && self.make_places().is_err() {
            return;
        }
        if let (Some(place), Ok(shared)) = (self.places.get_mut(at), meta.share()) {
            *place = Some(shared);
        }
    }

    // Makes the places, in which nothing stands.
    fn make_places(&mut self) -> Result<(), AllocError> {
        self.places.reserve_exact(PLACES)?;
        for _ in 0..PLACES {
            self.places.push(None)?;
        }
        Ok(())
    }
}

impl Metas for LineMetas {
    fn give(
        &mut self,
        alloc: Global,
        name: &str,
        target: &str,
        level: Level,
    ) -> Result<SharedMeta, Stop> {
        if name.len().saturating_add(target.len()) > MOST_BYTES {
            return meta(alloc, name, target, level);
        }
        let at = place_of(name, target);
        if let Some(shared) = self.shared(at, name, target, level) {
            return Ok(shared);
        }
        let made = meta(alloc, name, target, level)?;
        self.keep(at, &made);
        Ok(made)
    }
}

// The place of a meta of these texts: equal texts have the same one.
fn place_of(name: &str, target: &str) -> usize
    ensures { result < 64 }
{
    mixed(name).wrapping_add(mixed(target).wrapping_mul(7)) % PLACES
}

// A number of a text: of its length and its last byte.
fn mixed(text: &str) -> usize {
    let last = text.as_bytes().last().copied().unwrap_or(0);
    text.len().wrapping_mul(5).wrapping_add(usize::from(last))
}
