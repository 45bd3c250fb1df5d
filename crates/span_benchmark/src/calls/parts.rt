//! What the registry is made of, beside its layers.
ghost use Rattle.std.specs.Prelude.{◌≡◌, [], IfOk};

use span_id::{Fault, Limits};
use span_registry::{Blanks, Ring, Tap};
use std::alloc::Global;

/// How many places the ring has. A request has fewer calls than that.
pub const PLACES: u32 = 64;

/// Both ends of the ring, and the blanks, which have the limits.
pub struct Parts {
    pub ring: Ring,
    pub tap: Tap,
    pub blanks: Blanks,
}

impl Parts {
    /// Those of a registry with one worker.
    pub fn new(alloc: Global) -> Result<Parts, Fault>
        ensures workers { IfOk result (λ parts. parts.blanks.limits.workers ≡ 1) }
        ensures ring { IfOk result (λ parts. (parts.ring.sent ≡ []) × (parts.ring.name ≡ parts.tap)) }
    {
        let limits = Limits {
            workers: 1,
            ring: PLACES,
            ..Limits::default()
        };
        let checked = limits.check()?;
        let blanks = Blanks::new(alloc, &checked)?;
        let (ring, tap) = Ring::pair(alloc, &checked)?;
        Ok(Parts { ring, tap, blanks })
    }
}
