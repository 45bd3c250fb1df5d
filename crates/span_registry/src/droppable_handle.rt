//! Handles that may be dropped.
ghost use Rattle.std.specs.Prelude.{◌≡◌};

use crate::handle::Handle;
use crate::setup::Setup;
use std::sync::ledger::Ledger;

/// A handle that is given up where it is dropped, as where its owner returns early: its span stays open.
///
/// The share that it leaves is dropped with it, so from then on no share of its registry is the whole one. `into_handle`
/// takes the handle out, to be given back or given up with its share kept.
pub struct DroppableHandle<H: Ledger, C: Ledger, S: Setup> {
    /// The handle, to be lent to calls.
    pub handle: Handle<H, C, S>,
}

impl<H: Ledger, C: Ledger, S: Setup> Drop for DroppableHandle<H, C, S> {
    fn drop(self) {
        drop(self.into_handle().into_share());
    }
}

impl<H: Ledger, C: Ledger, S: Setup> DroppableHandle<H, C, S> {
    /// The handle, which has to be spent.
    pub fn into_handle(self) -> Handle<H, C, S>
        ensures { result ≡ self.handle }
    {
        let DroppableHandle { handle } = self;
        handle
    }
}
