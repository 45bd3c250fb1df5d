//! What is written beside the answers: where a call begins and ends.

use crate::rows::Row;
use crate::stop::Stop;
use std::cell::Cell;
use std::io;

/// How often a call is made: more than once only where it was refused memory.
pub(crate) const TRIES: u32 = 3;

/// Whether a call may take memory.
#[derive(Clone, Copy)]
pub(crate) enum Memory {
    /// It may be refused.
    Taken,
    /// It has to succeed with no memory at all.
    Untouched,
}

/// Where the answers go. Who refuses memory reads the marks: it refuses only between the mark of a call's begin and the
/// mark of its end.
#[derive(Drop)]
pub(crate) struct Stage<'a, R> {
    pub(crate) rt: &'a R,
    /// The row whose calls are made.
    row: Row,
    /// Whether marks are written.
    marked: bool,
    /// Why an answer or a mark could not be written. The row goes on, and its end tells.
    lost: Cell<Option<io::Error>>,
}

impl<'a, R> Stage<'a, R> {
    /// The stage of a row.
    pub(crate) fn new(rt: &'a R, row: Row, marked: bool) -> Stage<'a, R> {
        Stage {
            rt,
            row,
            marked,
            lost: Cell::new(None),
        }
    }

    /// Takes what came of writing an answer or a mark.
    pub(crate) fn wrote(&self, written: io::Result<()>) {
        if let Err(error) = written {
            let first = self.lost.replace(None);
            self.lost.set(Some(first.unwrap_or(error)));
        }
    }

    /// The row is over: an error where an answer or a mark could not be written.
    pub(crate) fn end(&self) -> io::Result<()> {
        match self.lost.replace(None) {
            Some(error) => Err(error),
            None => Ok(()),
        }
    }
}

impl<'a, R: Print> Stage<'a, R> {
    /// A call begins.
    pub(crate) fn begin(&self, memory: Memory) {
        match memory {
            Memory::Taken => self.mark(". call"),
            Memory::Untouched => self.mark(". no memory"),
        }
    }

    /// The call is over.
    pub(crate) fn over(&self) {
        self.mark(". over");
    }

    /// A refused call changed something that can be looked at.
    pub(crate) fn changed(&self, call: &str) -> Stop {
        self.tell("changed", call)
    }

    /// A call was refused memory again and again.
    pub(crate) fn refused_too_often(&self, call: &str) -> Stop {
        self.tell("refused too often", call)
    }

    /// A call was refused that should be accepted.
    pub(crate) fn refused(&self, call: &str) -> Stop {
        self.tell("refused", call)
    }

    fn tell(&self, what: &str, call: &str) -> Stop {
        self.wrote(println!(self.rt; "{what}: {} {call}", self.row.name()));
        Stop::Told
    }

    fn mark(&self, text: &str) {
        if self.marked {
            self.wrote(self.rt.println(text));
        }
    }
}
