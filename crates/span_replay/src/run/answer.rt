//! What a call answers, as a line of text.
ghost use Rattle.std.specs.Prelude.{◌≡◌, ◌++◌, IfErr, OnOk, codes, decimal};
ghost use Rattle.span_outlet.specs.Lines.{plain_line};
ghost use Rattle.span_replay.specs.Answer.{answer_text, found_text, left_text};
ghost use Rattle.span_replay.specs.Written.{note_line};

use itoa::Buffer;
use span_id::{Fault, Id};
use span_outlet::Line;
use span_script::Stop;
use std::io;
use std::io::Write;

// The most bytes that the line of a note has beside the text: its mark, ten digits of its layer, a blank and its end.
const MOST_AROUND: usize = 13;

/// What a call answers.
#[derive(Clone, Copy)]
pub enum Answer {
    /// The limits stand.
    Limits,
    /// A layer was added, with this number.
    Layer(usize),
    /// A span was made.
    Made(Id),
    /// No layer wants the span.
    NotWanted,
    Cloned,
    /// Whether the span closed: after a `close` and after an `exit`.
    Closed(bool),
    /// Whether the entry is no duplicate.
    Entered(bool),
    Recorded,
    Told,
    Refused(Fault),
}

/// A span that was looked up.
#[derive(Clone, Copy)]
pub struct Found<'s> {
    pub name: &'s str,
    /// The number of the parent's id, or 0.
    pub parent: u64,
    pub handles: u32,
    pub entries: u32,
    pub count: u32,
}

/// Appends the line of an answer to a text. The only error is `Memory`.
pub fn write_answer(text: &mut Vec<u8>, answer: Answer) -> Result<(), Stop>
    ensures text { OnOk result (text.new.items ≡ text.old.items ++ answer_text answer) }
    ensures memory { IfErr result (λ stop. stop ≡ Stop.Memory) }
{
    match answer_line(text, answer) {
        Ok(()) => Ok(()),
        Err(_) => Err(Stop::Memory),
    }
}

/// The same, with the error of a text that is written to.
fn answer_line(text: &mut Vec<u8>, answer: Answer) -> io::Result<()>
    ensures { OnOk result (text.new.items ≡ text.old.items ++ answer_text answer) }
{
    match answer {
        Answer::Limits => put(text, b"= limits\n"),
        Answer::Layer(number) => writeln!(text, "= layer {number}"),
        Answer::Made(id) => {
            put(text, b"= ")?;
            write_number(text, id.get())?;
            put(text, b"\n")
        }
        Answer::NotWanted => put(text, b"= not wanted\n"),
        Answer::Cloned => put(text, b"= cloned\n"),
        Answer::Closed(true) => put(text, b"= closed\n"),
        Answer::Closed(false) => put(text, b"= open\n"),
        Answer::Entered(true) => put(text, b"= entered\n"),
        Answer::Entered(false) => put(text, b"= again\n"),
        Answer::Recorded => put(text, b"= recorded\n"),
        Answer::Told => put(text, b"= told\n"),
        Answer::Refused(fault) => writeln!(text, "! {fault}"),
    }
}

/// Appends the line of a span that was looked up to a text. The only error is that memory was refused.
pub fn write_found(text: &mut Vec<u8>, found: &Found<'_>) -> io::Result<()>
    ensures { OnOk result (text.new.items ≡ text.old.items ++ found_text found.now) }
{
    let Found {
        name,
        parent,
        handles,
        entries,
        count,
    } = *found;
    writeln!(
        text,
        "= {name} parent {parent} handles {handles} entries {entries} count {count}"
    )
}

/// Makes room for the lines of notes at once: a text that grows under long lines moves, and lies in memory twice then.
/// The only error is `Memory`.
pub fn make_room(text: &mut Vec<u8>, lines: &[Line]) -> Result<(), Stop>
    ensures text { text.new.items ≡ text.old.items }
    ensures memory { IfErr result (λ stop. stop ≡ Stop.Memory) }
{
    let mut bytes = 0usize;
    for line in lines {
        bytes = bytes
            .saturating_add(line.text.len())
            .saturating_add(MOST_AROUND);
    }
    text.reserve(bytes)?;
    Ok(())
}

/// Appends the line of a note to a text: its layer, and what the layer wrote of it. The only error is that memory was
/// refused.
pub fn write_note(text: &mut Vec<u8>, line: &Line) -> io::Result<()>
    ensures { OnOk result (text.new.items ≡ text.old.items ++ note_line (plain_line line.now)) }
{
    write_layer(text, line.layer)?;
    put(text, line.text.as_slice())?;
    put(text, b"\n")
}

/// Appends a layer's number between its mark and a blank, at once where it has one digit, as most have. The only error is
/// that memory was refused.
fn write_layer(text: &mut Vec<u8>, layer: u32) -> io::Result<()>
    ensures { OnOk result (text.new.items ≡ text.old.items ++ (codes "L" ++ (decimal layer ++ codes " "))) }
{
    if layer < 10 {
        return put(text, &[b'L', b'0' + layer as u8, b' ']);
    }
    put(text, b"L")?;
    write_number(text, u64::from(layer))?;
    put(text, b" ")
}

/// Appends bytes to a text. The only error is that memory was refused.
#[inline(always)]
fn put(text: &mut Vec<u8>, bytes: &[u8]) -> io::Result<()>
    ensures { OnOk result (text.new.items ≡ text.old.items ++ bytes.now) }
{
    text.extend_from_slice(bytes)?;
    Ok(())
}

/// Appends a number in decimal to a text. The only error is that memory was refused.
fn write_number(text: &mut Vec<u8>, number: u64) -> io::Result<()>
    ensures { OnOk result (text.new.items ≡ text.old.items ++ decimal number) }
{
    let mut buffer = Buffer::new();
    put(text, buffer.format(number).as_bytes())
}

/// Appends the last line, which tells how many spans are open, to a text. The only error is that memory was refused.
pub fn write_left(text: &mut Vec<u8>, left: u32) -> io::Result<()>
    ensures { OnOk result (text.new.items ≡ text.old.items ++ left_text left) }
{
    writeln!(text, "left {left}")
}
