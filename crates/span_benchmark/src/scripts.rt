//! The trace of a service: four workers serve requests, under three layers.

use crate::dice::Dice;
use crate::outcome::{Outcome, Stop};
use crate::play::play;
use crate::script::{Place, Script};
use crate::texts::TARGETS;
use crate::workload::Scale;
use std::alloc::{AllocError, Global};

const HEAD: &str = "{\"op\":\"limits\",\"workers\":4}\n{\"op\":\"layer\"}\n\
    {\"op\":\"layer\",\"form\":\"json\",\"rule\":[[\"app\",\"INFO\"]]}\n\
    {\"op\":\"layer\",\"rule\":[[\"app::db\",\"TRACE\"],[\"app\",\"WARN\"]],\"spans\":9}\n";

// How deep the spans of a request stand at most.
const DEEPEST: u32 = 4;

/// Replays two such traces.
pub fn run(alloc: Global, seed: u32, scale: Scale) -> Result<Outcome, Stop> {
    let size = scale.pick(6_000, 15_000_000) as usize;
    let mut outcome = Outcome::new();
    for part in 0..2u32 {
        let mut dice = Dice::new(seed, part);
        let script = trace(alloc, &mut dice, size)?;
        play(alloc, script.bytes(), &mut outcome)?;
    }
    Ok(outcome)
}

// A trace of about so many bytes.
fn trace(alloc: Global, dice: &mut Dice, size: usize) -> Result<Script, AllocError> {
    let mut script = Script::new(alloc, size)?;
    script.lines(HEAD)?;
    let mut depths = [0u32; 4];
    for _ in 0..size {
        if script.bytes().len() >= size {
            break;
        }
        let worker = dice.below(4);
        if let Some(depth) = depths.get_mut(worker as usize) {
            *depth = turn(&mut script, dice, worker, *depth)?;
        }
    }
    Ok(script)
}

// What a worker that is so deep inside does next. Answers how deep it is then.
fn turn(script: &mut Script, dice: &mut Dice, worker: u32, depth: u32) -> Result<u32, AllocError> {
    let next = Place { worker, depth };
    if depth == 0 {
        script.open(dice, next)?;
        return Ok(1);
    }
    let current = Place {
        worker,
        depth: depth.saturating_sub(1),
    };
    match dice.below(16) {
        0..=3 if depth < DEEPEST => {
            script.open(dice, next)?;
            return Ok(depth.saturating_add(1));
        }
        0..=8 => {
            let target = dice.word(&TARGETS);
            script.event(dice, worker, target)?;
        }
        9 => script.record(dice, current)?,
        10 => {
            script.call("clone", current)?;
            script.call("close", current)?;
        }
        _ => {
            script.call("exit", current)?;
            script.call("close", current)?;
            return Ok(current.depth);
        }
    }
    Ok(depth)
}
