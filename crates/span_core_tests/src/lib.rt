//! Tests of `span_core` by its public words: what no clause says.
#![tactic(auto)]

#[cfg(test)]
mod tests;
