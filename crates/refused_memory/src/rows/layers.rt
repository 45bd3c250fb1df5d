//! Layers that are added one after another, and the texts that they write.

use crate::answer::Answer;
use crate::stage::Memory::{self, Taken};
use crate::stage::{Stage, TRIES};
use crate::stop::Stop;
use crate::texts::{meta_of, note_of};
use crate::trial::{Planned, Subject, perform, tell_refused};
use span_id::{Fault, Level, Meta};
use span_layers::{
    Filters, Form, Formatting, Kind, Layer, Layers, Note, Rule, Style, admits, text,
};
use std::alloc::{AllocError, Global};

// Of which kinds notes are written, and with which fields.
static NOTES: [(Kind, &[(&str, &str)]); 4] = [
    (Kind::OnNew, &[("k", "1")]),
    (Kind::OnRecord, &[("k", "2")]),
    (Kind::OnEvent, &[]),
    (Kind::OnClose, &[("k", "1"), ("k", "2")]),
];

/// What writes a note.
enum Act {
    /// `text`, in this form.
    Text(Form),
    /// What writes the notes of layers, as the note's layer does.
    Say,
}

static WAYS: [Planned<'static, Act>; 3] = [
    ("text", Taken, Act::Text(Form::Json)),
    ("text", Taken, Act::Text(Form::Compact)),
    ("say", Taken, Act::Say),
];

/// A note, and what writes the notes of layers.
#[derive(Drop)]
struct OnNote<'a> {
    alloc: Global,
    formatting: &'a Formatting,
    note: &'a Note,
}

/// Adds a layer, and tells its number where that is asked for. One that was refused memory comes back as it was, and is
/// added again.
pub(crate) fn add<R: Print>(
    stage: &Stage<R>,
    layers: &mut Layers,
    layer: Layer,
    is_told: bool,
) -> Result<(), Stop> {
    let before = sizes(&layer);
    let mut layer = layer;
    for _ in 0..TRIES {
        stage.begin(Memory::Taken);
        let added = layers.add(layer);
        stage.over();
        match added {
            Ok(number) => {
                if is_told {
                    stage.wrote(println!(stage.rt; "add: {number}"));
                }
                return Ok(());
            }
            Err((back, fault)) => {
                if let Some(ended) = judge(stage, is_told, fault, sizes(&back) == before) {
                    return ended;
                }
                layer = back;
            }
        }
    }
    Err(stage.refused_too_often("add"))
}

// What of a layer can be told from another.
fn sizes(layer: &Layer) -> (Style, usize) {
    (layer.style, layer.rule.pairs.len())
}

// What a refusal means: nothing where the layer is added again.
fn judge<R: Print>(
    stage: &Stage<R>,
    is_told: bool,
    fault: Fault,
    is_same: bool,
) -> Option<Result<(), Stop>> {
    if !is_same {
        return Some(Err(stage.changed("add")));
    }
    if fault == Fault::Memory {
        return None;
    }
    if is_told {
        tell_refused(stage, "add", fault);
    }
    Some(Ok(()))
}

/// Splits the layers, and tells what both parts answer.
pub(crate) fn run<R: Print>(stage: &Stage<R>, alloc: Global, layers: Layers) -> Result<(), Stop> {
    stage.begin(Memory::Untouched);
    let (filters, formatting) = layers.split();
    stage.over();
    tell_parts(stage, alloc, &filters, &formatting)
}

fn tell_parts<R: Print>(
    stage: &Stage<R>,
    alloc: Global,
    filters: &Filters,
    formatting: &Formatting,
) -> Result<(), Stop> {
    ask(stage, alloc, filters)?;
    stage.wrote(println!(stage.rt; "formatting: {}", formatting.len()));
    for layer in 0..2 {
        for (kind, fields) in &NOTES {
            let note = note_of(alloc, layer, *kind, fields)?;
            write(stage, alloc, formatting, &note)?;
        }
    }
    Ok(())
}

// Asks the filters, which takes no memory.
fn ask<R: Print>(stage: &Stage<R>, alloc: Global, filters: &Filters) -> Result<(), Stop> {
    let meta = meta_of(alloc, "a", Level::Info)?;
    let rule = Rule::everything(alloc)?;
    ask_of(stage, filters, &meta, &rule);
    Ok(())
}

fn ask_of<R: Print>(stage: &Stage<R>, filters: &Filters, meta: &Meta, rule: &Rule) {
    stage.begin(Memory::Untouched);
    let len = filters.len();
    let bits = filters.bits(meta);
    let wants = 0 < len && filters.want(0, Kind::OnNew);
    let is_admitted = admits(rule, meta);
    stage.over();
    stage.wrote(println!(stage.rt; "filters: {len}, bits {}, {wants}, {is_admitted}", bits.0));
}

// Writes a note in both forms, and as its layer does.
fn write<R: Print>(
    stage: &Stage<R>,
    alloc: Global,
    formatting: &Formatting,
    note: &Note,
) -> Result<(), Stop> {
    let mut subject = OnNote {
        alloc,
        formatting,
        note,
    };
    perform(stage, alloc, &mut subject, &WAYS)
}

impl<'a> Subject<Act> for OnNote<'a> {
    fn call(&mut self, act: &Act) -> Result<Answer, Fault> {
        match act {
            Act::Text(form) => Ok(Answer::Bytes(text(self.alloc, *form, self.note)?)),
            Act::Say => say(self.formatting, self.note).map(Answer::Bytes),
        }
    }

    fn look(&mut self, text: &mut String) -> Result<(), AllocError> {
        write!(text, "{:?} {}", self.note, self.formatting.len())
    }
}

// The text of a note whose layer is there.
fn say(formatting: &Formatting, note: &Note) -> Result<Vec<u8>, Fault> {
    if (note.layer as usize) < formatting.len() {
        formatting.say(note)
    } else {
        Err(Fault::Unknown)
    }
}
