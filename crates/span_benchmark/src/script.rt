//! Lines of scripts.

use crate::dice::Dice;
use crate::texts::{KEYS, LEVELS, MESSAGES, REQUESTS, STEPS, TARGETS, VALUES};
use std::alloc::{AllocError, Global};

/// Which span a line speaks of: the worker that makes it, and how deep it stands, from 0. Its label says both.
#[derive(Clone, Copy)]
pub struct Place {
    pub worker: u32,
    pub depth: u32,
}

/// A script that grows line by line.
#[derive(Drop)]
pub struct Script {
    text: String,
}

impl Script {
    /// An empty one with room for so many bytes.
    pub fn new(alloc: Global, room: usize) -> Result<Script, AllocError> {
        let text = String::with_capacity(alloc, room)?;
        Ok(Script { text })
    }

    /// Its bytes.
    pub fn bytes(&self) -> &[u8] {
        self.text.as_bytes()
    }

    /// A text as it stands, with its ends of lines.
    pub fn lines(&mut self, text: &str) -> Result<(), AllocError> {
        self.text.push_str(text)
    }

    /// A span is made and entered: a request at depth 0, else a step under the current span.
    pub fn open(&mut self, dice: &mut Dice, place: Place) -> Result<(), AllocError> {
        let target = dice.word(&TARGETS);
        self.new_span(dice, place, target)?;
        self.call("enter", place)
    }

    /// A span is made with a random name and level.
    pub fn new_span(
        &mut self,
        dice: &mut Dice,
        place: Place,
        target: &str,
    ) -> Result<(), AllocError> {
        let Place { worker, depth } = place;
        let (names, parent) = if depth == 0 {
            (&REQUESTS, ",\"parent\":null")
        } else {
            (&STEPS, "")
        };
        let name = dice.word(names);
        let level = dice.word(&LEVELS);
        write!(
            self.text,
            "{{\"op\":\"new\",\"name\":\"{name}\",\"target\":\"{target}\",\"level\":\"{level}\"{parent},\"label\":\"r{worker}d{depth}\",\"w\":{worker}"
        )?;
        let number = dice.below(4);
        self.fields(dice, number)?;
        self.text.push_str("}\n")
    }

    /// A call that names a span and nothing else.
    pub fn call(&mut self, op: &str, place: Place) -> Result<(), AllocError> {
        let Place { worker, depth } = place;
        write!(
            self.text,
            "{{\"op\":\"{op}\",\"span\":\"r{worker}d{depth}\",\"w\":{worker}}}\n"
        )
    }

    /// Worker 1 enters a span that worker 0 made.
    pub fn enter_other(&mut self, depth: u32) -> Result<(), AllocError> {
        write!(
            self.text,
            "{{\"op\":\"enter\",\"span\":\"r0d{depth}\",\"w\":1}}\n"
        )
    }

    /// Fields are recorded.
    pub fn record(&mut self, dice: &mut Dice, place: Place) -> Result<(), AllocError> {
        let Place { worker, depth } = place;
        write!(
            self.text,
            "{{\"op\":\"record\",\"span\":\"r{worker}d{depth}\",\"w\":{worker}"
        )?;
        self.fields(dice, 1)?;
        self.text.push_str("}\n")
    }

    /// An event with a random message and level is told.
    pub fn event(&mut self, dice: &mut Dice, worker: u32, target: &str) -> Result<(), AllocError> {
        let message = dice.word(&MESSAGES);
        let level = dice.word(&LEVELS);
        let number = dice.below(100_000);
        write!(
            self.text,
            "{{\"op\":\"event\",\"message\":\"{message}{number}\",\"target\":\"{target}\",\"level\":\"{level}\",\"w\":{worker}"
        )?;
        let fields = dice.below(3);
        self.fields(dice, fields)?;
        self.text.push_str("}\n")
    }

    // So many fields, as a part of a line.
    fn fields(&mut self, dice: &mut Dice, number: u32) -> Result<(), AllocError> {
        if number == 0 {
            return Ok(());
        }
        self.text.push_str(",\"fields\":[")?;
        for place in 0..number {
            let comma = if place == 0 { "" } else { "," };
            let key = dice.word(&KEYS);
            let value = dice.word(&VALUES);
            let ending = dice.below(1_000_000);
            write!(self.text, "{comma}[\"{key}\",\"{value}{ending}\"]")?;
        }
        self.text.push_str("]")
    }
}
