//! Replays of scripts that stand in memory.

use crate::outcome::{Outcome, Stop};
use span_layers::MAX_LAYERS;
use span_replay::{Remains, replay_with_layers};
use span_run::Counted;
use std::alloc::Global;

/// Replays a script, and adds what it answers to the outcome.
pub fn play(alloc: Global, script: &[u8], outcome: &mut Outcome) -> Result<(), Stop> {
    let mut input = Counted::new(script);
    let mut output = Counted::new(Vec::new(alloc));
    replay_with_layers(alloc, &mut input, &mut output, MAX_LAYERS, Remains::Left)?;
    let answers: Vec<u8> = output.into_inner();
    outcome.count(script.len() as u64, answers.len() as u64);
    outcome.digest.text(answers.as_slice());
    Ok(())
}
