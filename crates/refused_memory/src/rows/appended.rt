//! Texts that are appended to buffers.

use crate::answer::Answer;
use crate::stage::Memory::{Taken, Untouched};
use crate::stage::Stage;
use crate::stop::Stop;
use crate::texts::note_of;
use crate::trial::{Planned, Subject, attempt};
use span_id::Fault;
use span_layers::Form::{self, Compact, Json};
use span_layers::{Kind, Note, Say, text_onto};
use std::alloc::{AllocError, Global};
use std::mem;

/// What appends the text of a note.
enum Way {
    /// `text_onto`.
    Text,
    /// What writes the notes of layers.
    Say,
}

/// A text that is appended to a buffer, which holds so much before, and has so much room at least.
struct Appending(Way, Form, &'static str, usize);

static APPENDED: [Planned<'static, Appending>; 7] = [
    (
        "text onto nothing",
        Taken,
        Appending(Way::Text, Compact, "", 0),
    ),
    (
        "text onto some",
        Taken,
        Appending(Way::Text, Compact, "held ", 0),
    ),
    (
        "text onto some",
        Taken,
        Appending(Way::Text, Json, "held ", 0),
    ),
    (
        "text where there is room",
        Untouched,
        Appending(Way::Text, Compact, "held ", 64),
    ),
    (
        "text where there is room",
        Untouched,
        Appending(Way::Text, Json, "", 256),
    ),
    ("say onto nothing", Taken, Appending(Way::Say, Json, "", 0)),
    (
        "say onto some",
        Taken,
        Appending(Way::Say, Compact, "held ", 0),
    ),
];

/// A note, and the buffer to which its text is appended.
#[derive(Drop)]
struct OnBuffer<'a, S> {
    alloc: Global,
    formatters: &'a S,
    note: &'a Note,
    out: Vec<u8>,
}

/// Appends the text of a note in each way.
pub(crate) fn run<S: Say, R: Print>(
    stage: &Stage<R>,
    alloc: Global,
    formatters: &S,
) -> Result<(), Stop> {
    let note = note_of(alloc, 0, Kind::OnEvent, &[("k", "v")])?;
    let mut subject = OnBuffer {
        alloc,
        formatters,
        note: &note,
        out: Vec::new(alloc),
    };
    append_all(stage, alloc, &mut subject)
}

fn append_all<S: Say, R: Print>(
    stage: &Stage<R>,
    alloc: Global,
    subject: &mut OnBuffer<'_, S>,
) -> Result<(), Stop> {
    for planned in &APPENDED {
        let (_, _, Appending(_, _, held, room)) = planned;
        subject.out = buffer(alloc, held, *room)?;
        attempt(stage, alloc, subject, planned)?;
    }
    Ok(())
}

// The buffer as it is before.
fn buffer(alloc: Global, held: &str, room: usize) -> Result<Vec<u8>, AllocError> {
    let mut out = Vec::with_capacity(alloc, room)?;
    out.extend_from_slice(held.as_bytes())?;
    Ok(out)
}

impl<'a, S: Say> Subject<Appending> for OnBuffer<'a, S> {
    // Hands the buffer out.
    fn call(&mut self, appending: &Appending) -> Result<Answer, Fault> {
        let Appending(way, form, _, _) = appending;
        match way {
            Way::Text => text_onto(*form, self.note, &mut self.out)?,
            Way::Say => self.formatters.say_onto(*form, self.note, &mut self.out)?,
        }
        let out = mem::replace(&mut self.out, Vec::new(self.alloc));
        Ok(Answer::Bytes(out))
    }

    fn look(&mut self, text: &mut String) -> Result<(), AllocError> {
        write!(text, "{:?} {:?}", self.note, self.out)
    }
}
