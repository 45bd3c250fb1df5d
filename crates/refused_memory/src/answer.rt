//! What calls answer.

use crate::texts::shown;
use span_core::SpanDetails;
use span_forest::{Held, Span};
use span_id::{Fault, Field, Fields, Id, Meta, SharedMeta};
use span_registry::Found;
use std::fmt;

/// What a call answers, as the call gave it: nothing is made of it before it is written.
#[derive(Drop)]
pub(crate) enum Answer {
    /// Nothing but that it is done.
    Done,
    /// None.
    Nothing,
    Yes(bool),
    Number(u64),
    Span(Id),
    Spans(Vec<Id>),
    /// Spans with their handles and entries.
    Holders(Vec<Held>),
    Workers(Vec<u32>),
    /// Open spans with all that is told of them.
    Details(Vec<SpanDetails>),
    Names(Vec<String>),
    Text(String),
    /// What a layer writes.
    Bytes(Vec<u8>),
    Meta(Meta),
    SharedMeta(SharedMeta),
    Field(Field),
    Fields(Fields),
    Found(Found),
    /// Handles, entries and count.
    Held(u32, u32, u32),
}

impl From<Option<Id>> for Answer {
    fn from(id: Option<Id>) -> Answer {
        match id {
            Some(id) => Answer::Span(id),
            None => Answer::Nothing,
        }
    }
}

/// The answer of a call that tells only that it is done.
pub(crate) fn done(made: Result<(), Fault>) -> Result<Answer, Fault> {
    made?;
    Ok(Answer::Done)
}

/// What holds a span, if it is open.
pub(crate) fn held(span: Option<&Span>) -> Answer {
    match span {
        Some(span) => Answer::Held(span.handles, span.entries, span.count),
        None => Answer::Nothing,
    }
}

impl fmt::Display for Answer {
    fn fmt<W: fmt::Write>(&self, f: &mut fmt::Formatter<W>) -> fmt::Result {
        match self {
            Answer::Done => f.write_str("done"),
            Answer::Nothing => f.write_str("none"),
            Answer::Yes(yes) => yes.fmt(f),
            Answer::Number(number) => number.fmt(f),
            Answer::Span(id) => id.fmt(f),
            Answer::Spans(ids) => write_all(f, ids.as_slice()),
            Answer::Holders(held) => write_holders(f, held.as_slice()),
            Answer::Workers(numbers) => write_all(f, numbers.as_slice()),
            Answer::Details(list) => write_details(f, list.as_slice()),
            Answer::Names(names) => write_all(f, names.as_slice()),
            Answer::Text(text) => f.write_str(text.as_str()),
            Answer::Bytes(text) => f.write_str(shown(text.as_slice())),
            Answer::Meta(meta) => write_meta(f, meta),
            Answer::SharedMeta(meta) => write_meta(f, meta.as_meta()),
            Answer::Field(field) => write_field(f, field),
            Answer::Fields(fields) => write_fields(f, fields.as_slice()),
            Answer::Found(found) => write_found(f, found),
            Answer::Held(handles, entries, count) => write_held(f, *handles, *entries, *count),
        }
    }
}

fn write_meta<W: fmt::Write>(f: &mut fmt::Formatter<W>, meta: &Meta) -> fmt::Result {
    write!(f, "{} {} {}", meta.name, meta.target, meta.level)
}

fn write_field<W: fmt::Write>(f: &mut fmt::Formatter<W>, field: &Field) -> fmt::Result {
    write!(f, "{}={}", field.key, field.value)
}

fn write_fields<W: fmt::Write>(f: &mut fmt::Formatter<W>, fields: &[Field]) -> fmt::Result {
    let mut gap = "";
    for field in fields {
        f.write_str(gap)?;
        write_field(f, field)?;
        gap = " ";
    }
    Ok(())
}

fn write_held<W: fmt::Write>(
    f: &mut fmt::Formatter<W>,
    handles: u32,
    entries: u32,
    count: u32,
) -> fmt::Result {
    write!(f, "handles {handles} entries {entries} count {count}")
}

fn write_all<T: fmt::Display, W: fmt::Write>(
    f: &mut fmt::Formatter<W>,
    items: &[T],
) -> fmt::Result {
    f.write_str("[")?;
    for item in items {
        write!(f, " {item}")?;
    }
    f.write_str(" ]")
}

// Each span with its handles and its entries, as `1:2/0`.
fn write_holders<W: fmt::Write>(f: &mut fmt::Formatter<W>, held: &[Held]) -> fmt::Result {
    f.write_str("[")?;
    for one in held {
        let Held {
            id,
            handles,
            entries,
        } = one;
        write!(f, " {id}:{handles}/{entries}")?;
    }
    f.write_str(" ]")
}

fn write_details<W: fmt::Write>(f: &mut fmt::Formatter<W>, list: &[SpanDetails]) -> fmt::Result {
    f.write_str("[")?;
    for one in list {
        write_detail(f, one)?;
    }
    f.write_str(" ]")
}

// A span with its name, its parent, its handles, the workers that are inside it, and its open children.
fn write_detail<W: fmt::Write>(f: &mut fmt::Formatter<W>, one: &SpanDetails) -> fmt::Result {
    let (name, parent) = (&one.meta.as_meta().name, one.parent.map_or(0, Id::get));
    write!(
        f,
        " {} {name} parent {parent} handles {} workers ",
        one.id, one.handles
    )?;
    write_all(f, one.workers.as_slice())?;
    write!(f, " children {}", one.children)
}

fn write_found<W: fmt::Write>(f: &mut fmt::Formatter<W>, found: &Found) -> fmt::Result {
    let Found {
        name,
        parent,
        handles,
        entries,
        count,
    } = found;
    let parent = parent.map_or(0, Id::get);
    write!(f, "{name} parent {parent} ")?;
    write_held(f, *handles, *entries, *count)
}
