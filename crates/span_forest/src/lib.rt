//! A forest of counted spans: a span is open as long as a handle, an entry or an open child holds it.
//!
//! A release takes one holder from a span, and closes exactly the spans that nothing holds any longer,
//! child first.
#![tactic(auto)]

mod adding;
mod closing;
mod forest;
mod holders;
mod holding;
mod path_text;
mod span;
mod writing;

pub use forest::{Forest, laws};
pub use holding::Held;
pub use path_text::PathText;
pub use span::{Holder, Span};
