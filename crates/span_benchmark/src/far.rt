//! Calls far from the roots: deep nests, spans that are entered again and again, and two deep stacks.

use crate::dice::Dice;
use crate::outcome::{Outcome, Stop};
use crate::play::play;
use crate::script::{Place, Script};
use crate::texts::TARGETS;
use crate::workload::Scale;
use std::alloc::{AllocError, Global};

// The first layer admits the spans and is told of nothing, since no event is of these targets; the second admits few of
// the spans, the third the root alone, and both the events.
const DEEP: &str = "{\"op\":\"limits\",\"slots\":65536,\"workers\":2}\n\
    {\"op\":\"layer\",\"rule\":[[\"app\",\"TRACE\"],[\"lib\",\"TRACE\"],[\"other\",\"TRACE\"]],\"spans\":0}\n\
    {\"op\":\"layer\",\"rule\":[[\"app::db::pool\",\"ERROR\"],[\"far\",\"TRACE\"]],\"spans\":9}\n\
    {\"op\":\"layer\",\"rule\":[[\"root\",\"TRACE\"],[\"far\",\"INFO\"]]}\n";

// The first layer is told of all events and of nothing else, the second of few of the spans too.
const MEDIUM: &str = "{\"op\":\"limits\",\"slots\":65536}\n{\"op\":\"layer\",\"spans\":0}\n\
    {\"op\":\"layer\",\"form\":\"json\",\"rule\":[[\"lib\",\"INFO\"]]}\n";

/// Replays a deep nest, a shallower one under a layer that is told of all events, and deep stacks.
pub fn run(alloc: Global, seed: u32, scale: Scale) -> Result<Outcome, Stop> {
    let mut outcome = Outcome::new();
    let deep = nest(
        alloc,
        &mut Dice::new(seed, 10),
        DEEP,
        "far",
        scale.pick(20, 12_000),
        scale.pick(20, 12_000),
    )?;
    play(alloc, deep.bytes(), &mut outcome)?;
    let medium = nest(
        alloc,
        &mut Dice::new(seed, 11),
        MEDIUM,
        "lib",
        scale.pick(10, 250),
        scale.pick(20, 2_500),
    )?;
    play(alloc, medium.bytes(), &mut outcome)?;
    let stacks = stacks(alloc, &mut Dice::new(seed, 12), scale)?;
    play(alloc, stacks.bytes(), &mut outcome)?;
    Ok(outcome)
}

// A nest that one worker is inside, so many spans deep, and so many turns far below its root,
// with events of this target.
fn nest(
    alloc: Global,
    dice: &mut Dice,
    head: &str,
    target: &str,
    depth: u32,
    turns: u32,
) -> Result<Script, AllocError> {
    let mut script = Script::new(alloc, 1 << 20)?;
    script.lines(head)?;
    let root = Place {
        worker: 0,
        depth: 0,
    };
    script.new_span(dice, root, "root")?;
    script.call("enter", root)?;
    go_down(&mut script, dice, depth)?;
    stay(&mut script, dice, target, depth, turns)?;
    Ok(script)
}

// Spans are made and entered, each under the one before, from the depth 1 on, to the last one above this depth.
fn go_down(script: &mut Script, dice: &mut Dice, depth: u32) -> Result<(), AllocError> {
    for depth in 1..depth {
        script.open(dice, Place { worker: 0, depth })?;
    }
    Ok(())
}

// So many turns at this depth, with events of this target.
fn stay(
    script: &mut Script,
    dice: &mut Dice,
    target: &str,
    depth: u32,
    turns: u32,
) -> Result<(), AllocError> {
    for _ in 0..turns {
        turn(script, dice, target, depth)?;
    }
    Ok(())
}

// An event, or a span that is made and closed, entered or not.
fn turn(script: &mut Script, dice: &mut Dice, target: &str, depth: u32) -> Result<(), AllocError> {
    let place = Place { worker: 0, depth };
    match dice.below(8) {
        0 => {
            script.open(dice, place)?;
            script.event(dice, 0, target)?;
            script.call("exit", place)?;
            script.call("close", place)
        }
        1 | 2 => {
            let of_span = dice.word(&TARGETS);
            script.new_span(dice, place, of_span)?;
            script.call("close", place)
        }
        _ => script.event(dice, 0, target),
    }
}

// A worker enters the span on top of its stack again and again, and makes turns there, some times over; then another
// one enters what the first one is inside.
fn stacks(alloc: Global, dice: &mut Dice, scale: Scale) -> Result<Script, AllocError> {
    let mut script = Script::new(alloc, 1 << 20)?;
    script.lines(DEEP)?;
    let depth = scale.pick(10, 10_000);
    go_down(&mut script, dice, depth)?;
    follow(&mut script, depth)?;
    let times = scale.pick(5, 800);
    for _ in 0..scale.pick(2, 6) {
        let again = dice.below(depth.saturating_sub(1).max(1)).saturating_add(1);
        enter_again(&mut script, again, times)?;
        stay(&mut script, dice, "far", depth, times)?;
    }
    Ok(script)
}

// The other worker enters the spans above this depth.
fn follow(script: &mut Script, depth: u32) -> Result<(), AllocError> {
    for depth in 1..depth {
        script.enter_other(depth)?;
    }
    Ok(())
}

// The worker enters the span at this depth so many times.
fn enter_again(script: &mut Script, depth: u32, times: u32) -> Result<(), AllocError> {
    for _ in 0..times {
        script.call("enter", Place { worker: 0, depth })?;
    }
    Ok(())
}
