//! Closes that are refused.

use crate::handle::Handle;
use crate::setup::Setup;
use span_id::Fault;
use std::sync::ledger::Ledger;

/// What a refused `try_close` answers: a handle of the same span, which has to be spent as every other, and why.
pub struct RefusedClose<H: Ledger, C: Ledger, S: Setup> {
    /// The handle that comes back.
    pub handle: Handle<H, C, S>,
    /// Why the call was refused.
    pub fault: Fault,
}
