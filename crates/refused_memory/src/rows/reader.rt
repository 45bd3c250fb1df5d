//! A reader at the end of a ring, which gives the buffers of its lines back.

use crate::rows::ending::tell_line;
use crate::stage::{Memory, Stage};
use crate::stop::Stop;
use crate::texts::plain_formatting;
use span_layers::Say;
use span_outlet::{LineReader, Tap};
use std::alloc::Global;

/// Reads four lines of a ring, one after another, and gives each buffer back for the next one. A line is missed where
/// its text is refused memory.
pub(crate) fn read_lines<R: Print>(stage: &Stage<R>, alloc: Global, tap: Tap) -> Result<(), Stop> {
    let formatting = plain_formatting(alloc)?;
    stage.begin(Memory::Untouched);
    let mut lines = LineReader::new(alloc, tap, formatting);
    stage.over();
    for _ in 0..4 {
        read_line(stage, &mut lines);
    }
    Ok(())
}

fn read_line<V: Say, R: Print>(stage: &Stage<R>, lines: &mut LineReader<V>) {
    stage.begin(Memory::Taken);
    lines.fill();
    stage.over();
    stage.begin(Memory::Untouched);
    let line = lines.next();
    stage.over();
    let Some(line) = line else {
        return;
    };
    tell_line(stage, &line);
    stage.begin(Memory::Taken);
    lines.take_back(line);
    stage.over();
}
