//! Tests of what `span_core` is made of, and of `span_seats`, by their public words: what no clause says.
//!
//! Beside them, what the tests of several crates take: texts as metas and fields, layers in few words, what layers'
//! closures write down, and lines as text.
#![tactic(auto)]

pub mod lines;
pub mod plans;
#[cfg(test)]
mod tests;
pub mod values;
pub mod watch;
