//! A store of spans that close in two steps, for callers that tell of a close outside their lock.
//!
//! A release answers that nothing holds the span any longer: it is closing. It stays there, with its hold of its
//! parent, until its end is told; that frees its slot, and answers the parent where nothing holds that any longer. So
//! at most one span becomes closing by a call, and none while a child of it is there.
#![tactic(auto)]

mod adding;
mod details;
mod entry;
mod reading;
mod store;
#[cfg(test)]
mod tests;
mod writing;

pub use details::SpanDetails;
pub use entry::Entry;
pub use store::{Store, laws};
