//! Metas, fields, notes and rules, and how they are looked at.

use crate::stop::Stop;
use span_forest::Span;
use span_id::{Field, Fields, Id, Level, Meta, SharedMeta};
use span_layers::{
    ByForm, ByRule, FmtSpan, Form, Formatting, Hooks, Kind, Layer, Layers, Note, Rule, Style,
};
use span_outlet::Line;
use span_stack::SpanStack;
use std::alloc::{AllocError, Global};
use std::sync::ArcStr;

/// What a span or an event of target `app` is known by.
pub(crate) fn meta_of(alloc: Global, name: &str, level: Level) -> Result<Meta, Stop> {
    Ok(Meta {
        name: String::from_str(alloc, name)?,
        target: String::from_str(alloc, "app")?,
        level,
    })
}

/// One field.
pub(crate) fn field_of(alloc: Global, key: &str, value: &str) -> Result<Field, Stop> {
    Ok(Field {
        key: String::from_str(alloc, key)?,
        value: String::from_str(alloc, value)?,
    })
}

/// Fields.
pub(crate) fn fields_of(alloc: Global, pairs: &[(&str, &str)]) -> Result<Vec<Field>, Stop> {
    let mut fields = Vec::new(alloc);
    for (key, value) in pairs {
        fields.push(field_of(alloc, key, value)?)?;
    }
    Ok(fields)
}

/// What spans of this name are known by, which several owners may share.
pub(crate) fn shared_meta_of(alloc: Global, name: &str) -> Result<SharedMeta, Stop> {
    Ok(SharedMeta::new(alloc, meta_of(alloc, name, Level::Info)?)?)
}

/// Fields that several owners may share.
pub(crate) fn shared_fields_of(alloc: Global, pairs: &[(&str, &str)]) -> Result<Fields, Stop> {
    Ok(Fields::new(alloc, fields_of(alloc, pairs)?)?)
}

/// The formatting of two layers that have no closures and write plain text.
pub(crate) fn plain_formatting(alloc: Global) -> Result<Formatting<ByForm>, Stop> {
    let mut layers = Layers::<ByRule, ByForm>::new(alloc);
    for _ in 0..2 {
        let style = Style {
            form: Form::Compact,
            spans: FmtSpan::FULL,
        };
        let layer = Layer {
            style,
            rule: Rule::everything(alloc)?,
            hooks: Hooks::by_rule_and_form(),
        };
        if layers.add(layer).is_err() {
            return Err(Stop::Memory);
        }
    }
    Ok(layers.split().1)
}

/// A note of the span `a`, which is open under the id 1; where it is of an event, of none.
pub(crate) fn note_of(
    alloc: Global,
    layer: u32,
    kind: Kind,
    fields: &[(&str, &str)],
) -> Result<Note, Stop> {
    let (id, path) = place_of(kind);
    let path = ArcStr::from_str(alloc, path)?;
    let fields = shared_fields_of(alloc, fields)?;
    Ok(Note {
        layer,
        kind,
        worker: 0,
        id,
        path,
        fields,
        event: event_of(alloc, kind)?,
    })
}

// The id and the path of such a note.
fn place_of(kind: Kind) -> (u64, &'static str) {
    if kind == Kind::OnEvent {
        (0, "-")
    } else {
        (1, "a")
    }
}

// What only the note of an event has.
fn event_of(alloc: Global, kind: Kind) -> Result<Option<(Level, ArcStr)>, Stop> {
    if kind == Kind::OnEvent {
        Ok(Some((Level::Warn, ArcStr::from_str(alloc, "x\ny")?)))
    } else {
        Ok(None)
    }
}

/// Adds numbers to a text.
pub(crate) fn add_numbers(text: &mut String, numbers: &[u64]) -> Result<(), AllocError> {
    for number in numbers {
        write!(text, " {number}")?;
    }
    Ok(())
}

/// Adds an id to a text, or that there is none.
pub(crate) fn add_id(text: &mut String, id: Option<Id>) -> Result<(), AllocError> {
    write!(text, " {id:?}")
}

/// Adds the lines that an outlet or a drain has to a text.
pub(crate) fn add_lines(text: &mut String, lines: &[Line]) -> Result<(), AllocError> {
    write!(text, " {lines:?}")
}

/// Adds what a stack answers of itself to a text, and its entries, from the lowest.
pub(crate) fn add_stack(text: &mut String, stack: &SpanStack) -> Result<(), AllocError> {
    add_id(text, stack.current())?;
    add_id(text, stack.top())?;
    for place in 0..stack.len() {
        add_id(text, stack.get(place))?;
    }
    Ok(())
}

/// Adds all that an open span shows to a text.
pub(crate) fn add_span(text: &mut String, span: &Span) -> Result<(), AllocError> {
    write!(text, "\n{span:?}")
}

/// The bytes of a text.
pub(crate) fn shown(text: &[u8]) -> &str {
    str::from_utf8(text).unwrap_or("no text")
}
