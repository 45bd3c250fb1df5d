//! Tests of scripts, of their runs and of storms, by their public words: what no clause says.
#![tactic(auto)]

#[cfg(test)]
mod tests;
