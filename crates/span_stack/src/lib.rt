//! The stack of spans that a worker has entered.
//!
//! An entry is a duplicate if its id stands further below already. The current span is the topmost
//! entry that is no duplicate: after entering a, b and a again, it is b.
#![tactic(auto)]

mod entry;
pub mod laws;
mod stack;
mod walk;

pub use stack::{IN_PLACE, SpanStack};
pub use walk::Walk;
