//! What the loops' cores and registries are made of.
ghost use Rattle.std.specs.Prelude.{◌≡◌, [], IfOk};

use crate::texts::Texts;
use span_id::{Checked, Fault, Limits};
use span_registry::{Blanks, Ring, Tap};
use std::alloc::Global;

/// What a core over a ring is made of, beside its layers; the other end of the ring; and what the calls pass.
pub struct CoreParts {
    pub checked: Checked,
    pub texts: Texts,
    pub ring: Ring,
    pub tap: Tap,
}

impl CoreParts {
    /// With these limits, and so many fields of each span and event.
    pub fn new(alloc: Global, limits: Limits, fields: u32) -> Result<CoreParts, Fault>
        ensures limits { IfOk result (λ parts. parts.checked ≡ limits) }
        ensures ring { IfOk result (λ parts. (parts.ring.sent ≡ []) × (parts.ring.name ≡ parts.tap)) }
    {
        CoreParts::of(alloc, limits.check()?, fields)
    }

    // The same, with limits that were checked.
    fn of(alloc: Global, checked: Checked, fields: u32) -> Result<CoreParts, Fault>
        ensures limits { IfOk result (λ parts. parts.checked ≡ checked) }
        ensures ring { IfOk result (λ parts. (parts.ring.sent ≡ []) × (parts.ring.name ≡ parts.tap)) }
    {
        let texts = Texts::new(alloc, fields)?;
        let (ring, tap) = Ring::pair(alloc, &checked)?;
        Ok(CoreParts {
            checked,
            texts,
            ring,
            tap,
        })
    }
}

/// The same of a registry.
pub struct Parts {
    pub core: CoreParts,
    pub blanks: Blanks,
}

impl Parts {
    /// With these limits, and so many fields of each span and event.
    pub fn new(alloc: Global, limits: Limits, fields: u32) -> Result<Parts, Fault>
        ensures limits { IfOk result (λ parts. parts.core.checked ≡ limits) }
        ensures ring { IfOk result (λ parts. (parts.core.ring.sent ≡ []) × (parts.core.ring.name ≡ parts.core.tap)) }
        ensures blanks { IfOk result (λ parts. parts.blanks.limits ≡ limits) }
    {
        let checked = limits.check()?;
        let blanks = Blanks::new(alloc, &checked)?;
        let core = CoreParts::of(alloc, checked, fields)?;
        Ok(Parts { core, blanks })
    }
}
