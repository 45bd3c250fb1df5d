//! Handles that are given up where they are dropped.
ghost use Rattle.std.specs.Prelude.{◌≡◌};

use span_registry::{Handle, Setup};
use std::sync::ledger::Ledger;

/// A handle that becomes a share where it is dropped, so that a refused call may end the run.
pub struct Held<H: Ledger, C: Ledger, S: Setup> {
    pub handle: Handle<H, C, S>,
}

impl<H: Ledger, C: Ledger, S: Setup> Drop for Held<H, C, S> {
    fn drop(self) {
        drop(self.into_handle().into_share());
    }
}

impl<H: Ledger, C: Ledger, S: Setup> Held<H, C, S> {
    /// The handle, which has to be spent.
    pub fn into_handle(self) -> Handle<H, C, S>
        ensures { result ≡ self.handle }
    {
        let Held { handle } = self;
        handle
    }
}
