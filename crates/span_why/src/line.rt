//! The line of an open span.
ghost use Rattle.std.specs.Prelude.{◌≡◌, ◌++◌, flat_map, OnOk};
ghost use Rattle.span_layers.specs.Text.{escape, escaped};
ghost use Rattle.span_core.specs.Details.{plain_details};
ghost use Rattle.span_why.specs.Why.{about_text, blanks, exits_text, inside_text, origin_text};
ghost use Rattle.span_why.specs.Why.{plain_open_span, span_line, worker_text};

use crate::open_span::{Inside, OpenSpan};
use span_core::SpanDetails;
use span_id::Level;
use std::io;
use std::io::Write;

// How many levels are indented at most: else the lines of a long chain would be mostly blanks.
const DEEPEST: usize = 32;

/// Appends the line of a span that stands so deep in its tree. The only error is that memory was refused.
#[tactic(auto, using(std::proofs::Common::append_assoc))]
pub(crate) fn write_line(text: &mut Vec<u8>, depth: usize, span: &OpenSpan) -> io::Result<()>
    ensures { OnOk result (text.new.items ≡ text.old.items ++ span_line depth (plain_open_span span.now)) }
{
    write_blanks(text, depth.min(DEEPEST))?;
    write_about(text, &span.details)?;
    write_inside(text, span.inside.as_slice())?;
    write_origin(text, span)
}

// Appends the id, the name, the level and the handles of a span.
fn write_about(text: &mut Vec<u8>, details: &SpanDetails) -> io::Result<()>
    ensures { OnOk result (text.new.items ≡ text.old.items ++ about_text (plain_details details.now)) }
{
    let (id, handles) = (details.id, details.handles);
    let (name, level) = (name_of(details), level_of(details));
    write!(text, "{id} {name} {level} handles {handles} inside")
}

// Appends the line that made a span, and the span's target.
#[tactic(auto, using(std::proofs::Common::append_assoc))]
fn write_origin(text: &mut Vec<u8>, span: &OpenSpan) -> io::Result<()>
    ensures { OnOk result (text.new.items ≡ text.old.items ++ origin_text (plain_open_span span.now)) }
{
    let line = span.line;
    write!(text, " line {line} target ")?;
    write_escaped(text, target_of(&span.details).as_bytes())?;
    text.write_all(b"\n")
}

fn name_of(details: &SpanDetails) -> &str
    ensures { result.now ≡ details.now.meta.name }
{
    details.meta.as_meta().name.as_str()
}

fn level_of(details: &SpanDetails) -> Level
    ensures { result ≡ details.now.meta.level }
{
    details.meta.as_meta().level
}

fn target_of(details: &SpanDetails) -> &str
    ensures { result.now ≡ details.now.meta.target }
{
    details.meta.as_meta().target.as_str()
}

// Appends two blanks for each of so many levels.
fn write_blanks(text: &mut Vec<u8>, levels: usize) -> io::Result<()>
    ensures { OnOk result (text.new.items ≡ text.old.items ++ blanks levels) }
{
    let mut left = levels;
    while left > 0 {
        text.write_all(b"  ")?;
        left -= 1;
    }
    Ok(())
}

// Appends the workers that are inside a span, or a dash.
fn write_inside(text: &mut Vec<u8>, workers: &[Inside]) -> io::Result<()>
    ensures { OnOk result (text.new.items ≡ text.old.items ++ inside_text workers.now) }
{
    if workers.is_empty() {
        text.write_all(b" -")
    } else {
        write_workers(text, workers)
    }
}

// Appends the workers that are inside a span.
fn write_workers(text: &mut Vec<u8>, workers: &[Inside]) -> io::Result<()>
    ensures { OnOk result (text.new.items ≡ text.old.items ++ flat_map worker_text workers.now) }
{
    for inside in workers {
        write_worker(text, *inside)?;
    }
    Ok(())
}

// Appends a worker that is inside a span.
fn write_worker(text: &mut Vec<u8>, inside: Inside) -> io::Result<()>
    ensures { OnOk result (text.new.items ≡ text.old.items ++ worker_text inside) }
{
    let Inside { worker, exits } = inside;
    write!(text, " w{worker}")?;
    write_exits(text, exits)
}

// Appends how many exits a worker needs, if they are more than one.
fn write_exits(text: &mut Vec<u8>, exits: usize) -> io::Result<()>
    ensures { OnOk result (text.new.items ≡ text.old.items ++ exits_text exits) }
{
    if exits > 1 {
        write!(text, " (one entry, {exits} exits)")
    } else {
        Ok(())
    }
}

// Appends a text in which each backslash, newline and carriage return stands behind a backslash.
fn write_escaped(text: &mut Vec<u8>, bytes: &[u8]) -> io::Result<()>
    ensures { OnOk result (text.new.items ≡ text.old.items ++ escaped bytes.now) }
{
    for byte in bytes {
        write_byte(text, *byte)?;
    }
    Ok(())
}

fn write_byte(text: &mut Vec<u8>, byte: u8) -> io::Result<()>
    ensures { OnOk result (text.new.items ≡ text.old.items ++ escape byte) }
{
    match byte {
        b'\\' => text.write_all(b"\\\\"),
        b'\n' => text.write_all(b"\\n"),
        b'\r' => text.write_all(b"\\r"),
        _ => {
            text.push(byte)?;
            Ok(())
        }
    }
}
