//! What workers come back with.
ghost use Rattle.std.specs.Prelude.{◌≡◌, IfOk};
ghost use Rattle.span_registry.specs.Share.{joined};

use crate::ended::Tally;
use span_id::Fault;
use span_registry::{Setup, Share};
use std::sync::ledger::Ledger;

/// What workers left, and what their calls were.
#[derive(Drop)]
pub struct Returned<H: Ledger, C: Ledger, S: Setup> {
    pub share: Share<H, C, S>,
    pub tally: Tally,
}

impl<H: Ledger, C: Ledger, S: Setup> Returned<H, C, S> {
    /// Both together. Where their calls are more than a `u64` has room for, that is `CountFull`.
    pub fn join(self, other: Returned<H, C, S>) -> Result<Returned<H, C, S>, Fault>
        requires { (self.share.units ≡ 0) × (other.share.units ≡ 0) }
        ensures { IfOk result (λ whole. whole.share ≡ joined self.share other.share) }
    {
        let (one, another) = (self.share.accepted(), other.share.accepted());
        if one.checked_add(another).is_none() {
            return Err(Fault::CountFull);
        }
        Ok(Returned {
            share: self.share.join(other.share),
            tally: self.tally.and(other.tally),
        })
    }
}
