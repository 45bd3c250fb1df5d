//! Fields and a message that are written anew in the memory that they have, so that they cost little beside the calls.

use crate::calls::metas::fields;
use crate::dice::Dice;
use crate::texts::{MESSAGES, STEPS, VALUES};
use itoa::Buffer;
use span_id::Field;
use std::alloc::{AllocError, Global};

/// How many fields a call has at most.
pub const MOST_FIELDS: u32 = 6;

// How many fields there are to pick from.
const FIELDS: u32 = 64;

// How many texts there are for messages to end with.
const ENDS: u32 = 32;

// How many words such a text has at most. A message has 10 to 200 bytes with it.
const MOST_WORDS: u32 = 11;

// The most bytes of a message.
const LONGEST: usize = 200;

/// What a call is made with.
#[derive(Drop)]
pub struct Reused {
    fields: Vec<Field>,
    // Where the picked fields begin, and where they end.
    first: usize,
    end: usize,
    ends: Vec<String>,
    message: String,
}

impl Reused {
    /// Random fields to pick from, and no message yet.
    pub fn new(alloc: Global, dice: &mut Dice) -> Result<Reused, AllocError> {
        let fields = fields(alloc, dice, FIELDS)?;
        let mut ends = Vec::new(alloc);
        for _ in 0..ENDS {
            ends.push(words(alloc, dice)?)?;
        }
        Ok(Reused {
            fields,
            first: 0,
            end: 0,
            ends,
            message: String::with_capacity(alloc, LONGEST)?,
        })
    }

    /// Picks so many fields that stand side by side. The first of them gets a new random value.
    pub fn pick_fields(&mut self, dice: &mut Dice, number: u32) -> Result<(), AllocError> {
        self.first = dice.below(FIELDS - MOST_FIELDS) as usize;
        self.end = self.first.saturating_add(number as usize);
        match self.fields.get_mut(self.first) {
            Some(field) => write_text(&mut field.value, dice, &VALUES),
            None => Ok(()),
        }
    }

    /// The picked fields.
    pub fn fields(&self) -> &[Field] {
        self.fields
            .as_slice()
            .get(self.first..self.end)
            .unwrap_or(&[])
    }

    /// Writes another message.
    pub fn write_message(&mut self, dice: &mut Dice) -> Result<(), AllocError> {
        write_text(&mut self.message, dice, &MESSAGES)?;
        match self.ends.get(dice.below(ENDS) as usize) {
            Some(end) => self.message.push_str(end.as_str()),
            None => Ok(()),
        }
    }

    /// The message.
    pub fn message(&self) -> &str {
        self.message.as_str()
    }
}

// Writes one of the beginnings and a random number, in place of what stood there.
fn write_text(
    text: &mut String,
    dice: &mut Dice,
    words: &[&'static str; 8],
) -> Result<(), AllocError> {
    text.clear();
    text.push_str(dice.word(words))?;
    text.push_str(Buffer::new().format(dice.below(1_000_000)))
}

// Some words, or none.
fn words(alloc: Global, dice: &mut Dice) -> Result<String, AllocError> {
    let mut text = String::new(alloc);
    for _ in 0..dice.below(MOST_WORDS + 1) {
        text.push_str(" ")?;
        text.push_str(dice.word(&STEPS))?;
    }
    Ok(text)
}
