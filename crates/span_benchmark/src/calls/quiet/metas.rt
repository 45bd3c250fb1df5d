//! What the spans and events of a quiet program are called.

use crate::calls::metas::text;
use crate::dice::Dice;
use crate::texts::{REQUESTS, STEPS, TARGETS};
use span_id::{Fault, Level, Meta, copy_text};
use std::alloc::Global;

// How many call sites there are of each kind.
const NUMBER: u32 = 16;

// The levels of those inside a request: layers that admit `Info` are told of 3 of 16.
const LEVELS: [Level; 16] = [
    Level::Warn,
    Level::Info,
    Level::Info,
    Level::Debug,
    Level::Debug,
    Level::Debug,
    Level::Debug,
    Level::Debug,
    Level::Debug,
    Level::Debug,
    Level::Trace,
    Level::Trace,
    Level::Trace,
    Level::Trace,
    Level::Trace,
    Level::Trace,
];

/// Metas to pick from.
#[derive(Drop)]
pub struct Metas {
    requests: Vec<Meta>,
    steps: Vec<Meta>,
}

impl Metas {
    /// Random ones. All requests are at `Info`.
    pub fn new(alloc: Global, dice: &mut Dice) -> Result<Metas, Fault> {
        let requests = sites(alloc, dice, &REQUESTS, &[Level::Info; 16])?;
        let steps = sites(alloc, dice, &STEPS, &LEVELS)?;
        Ok(Metas { requests, steps })
    }

    /// That of a root, or of a span or an event further inside.
    pub fn pick(&self, dice: &mut Dice, is_root: bool) -> Result<&Meta, Fault> {
        let metas = if is_root { &self.requests } else { &self.steps };
        let place = dice.below(NUMBER);
        metas.get(place as usize).ok_or(Fault::BadName)
    }
}

// A meta of each level, with a name of its own. What warns is of the database.
fn sites(
    alloc: Global,
    dice: &mut Dice,
    names: &[&'static str; 8],
    levels: &[Level; 16],
) -> Result<Vec<Meta>, Fault> {
    let mut metas = Vec::new(alloc);
    for level in levels {
        let name = text(alloc, dice, names)?;
        let target = match level {
            Level::Warn => "app::db::pool",
            _ => dice.word(&TARGETS),
        };
        metas.push(Meta {
            name,
            target: copy_text(alloc, target)?,
            level: *level,
        })?;
    }
    Ok(metas)
}
