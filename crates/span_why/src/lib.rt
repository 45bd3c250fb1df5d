//! Why spans are open: a text that shows each open span below its parent, with what keeps it open.
#![tactic(auto)]

mod families;
mod line;
mod open_span;
mod tree;

pub use open_span::{Inside, OpenSpan};
pub use tree::{write_why, write_why_of};
