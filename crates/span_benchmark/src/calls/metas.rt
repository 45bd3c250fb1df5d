//! What the requests' spans and events are called.

use crate::dice::Dice;
use crate::texts::{KEYS, REQUESTS, STEPS, TARGETS, VALUES};
use span_id::{Fault, Field, Level, Meta, copy_text};
use std::alloc::{AllocError, Global};

// How many there are of each kind.
const NUMBER: u32 = 16;

const LEVELS: [Level; 4] = [Level::Info, Level::Debug, Level::Warn, Level::Trace];

/// Metas to pick from.
#[derive(Drop)]
pub struct Metas {
    requests: Vec<Meta>,
    steps: Vec<Meta>,
}

impl Metas {
    /// Random ones.
    pub fn new(alloc: Global, dice: &mut Dice) -> Result<Metas, Fault> {
        let requests = table(alloc, dice, &REQUESTS)?;
        let steps = table(alloc, dice, &STEPS)?;
        Ok(Metas { requests, steps })
    }

    /// That of a root, or of a span or an event further inside.
    pub fn pick(&self, dice: &mut Dice, is_root: bool) -> Result<&Meta, Fault> {
        let metas = if is_root { &self.requests } else { &self.steps };
        let place = dice.below(NUMBER);
        metas.get(place as usize).ok_or(Fault::BadName)
    }
}

fn table(alloc: Global, dice: &mut Dice, names: &[&'static str; 8]) -> Result<Vec<Meta>, Fault> {
    let mut metas = Vec::new(alloc);
    for _ in 0..NUMBER {
        let name = copy_text(alloc, dice.word(names))?;
        let target = copy_text(alloc, dice.word(&TARGETS))?;
        let level = LEVELS[dice.below(4) as usize];
        metas.push(Meta {
            name,
            target,
            level,
        })?;
    }
    Ok(metas)
}

/// So many fields with random values.
pub fn fields(alloc: Global, dice: &mut Dice, number: u32) -> Result<Vec<Field>, AllocError> {
    let mut fields = Vec::new(alloc);
    for _ in 0..number {
        let key = String::from_str(alloc, dice.word(&KEYS))?;
        let value = text(alloc, dice, &VALUES)?;
        fields.push(Field { key, value })?;
    }
    Ok(fields)
}

/// One of the beginnings and a random number.
pub fn text(
    alloc: Global,
    dice: &mut Dice,
    words: &[&'static str; 8],
) -> Result<String, AllocError> {
    let word = dice.word(words);
    let number = dice.below(1_000_000);
    format!(in alloc; "{word}{number}")
}
