//! Tests of `span_registry`, by its public words: what no clause says.
#![tactic(auto)]

#[cfg(test)]
mod tests;
