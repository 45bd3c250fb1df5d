//! The end from which lines are read.
ghost use Rattle.std.specs.Prelude.{◌≡◌, Some, None, is_some, if◌then◌else◌};
ghost use Rattle.span_border.specs.Status.{meant};
ghost use Rattle.span_border.specs.Ends.{OnHeld, Keeps};
ghost use Rattle.span_border.specs.Buffers.{KeepsNumbers};
ghost use Rattle.span_ffi.specs.Drain.{OnLines, AsksLines};
ghost use Rattle.span_ffi.specs.Lines.{GivesLine, SkipsBatch, CountsLines};
ghost use Rattle.span_ffi.specs.inside.Giving.{GivesFirst};

use crate::drain_handle::SpanDrain;
use crate::reader::Lines;
use span_border::{Holds, Status, write_all};
use std::alloc::Global;

#[tactic(auto, using(crate::proofs::Given::filled_gives))]
fn give_line(lines: &mut Lines, layer: &mut u32, into: &mut [u8], len: &mut usize) -> Status
    ensures line { GivesLine layer.new into.old into.new len.new lines.old result lines.new }
    ensures layer { Keeps (Some result) layer.old layer.new }
    ensures into { Keeps (Some result) into.old into.new }
    ensures len { KeepsNumbers (Some result) len.old len.new }
{
    lines.fill();
    give_first(lines, layer, into, len)
}

// Gives out the first of the lines that wait already.
fn give_first(lines: &mut Lines, layer: &mut u32, into: &mut [u8], len: &mut usize) -> Status
    ensures line { GivesFirst layer.new into.old into.new len.new lines.old result lines.new }
    ensures layer { Keeps (Some result) layer.old layer.new }
    ensures into { Keeps (Some result) into.old into.new }
    ensures len { KeepsNumbers (Some result) len.old len.new }
{
    let Some(line) = lines.peek() else {
        return Status::NoLine;
    };
    let status = write_all(line.text.as_slice(), into, len);
    if status == Status::Done {
        *layer = line.layer;
        if let Some(line) = lines.next() {
            lines.take_back(line);
        }
    }
    status
}

/// Gives the next line out, without a newline, and tells its layer and its length. Where no line is at hand, it takes
/// batches out of the ring until one is. A line that is longer than the buffer stays the next one.
#[unsafe(no_mangle)]
pub extern "C" fn span_drain_line(
    alloc: Global,
    drain: &mut SpanDrain,
    layer: &mut u32,
    into: &mut [u8],
    len: &mut usize,
) -> u32
    ensures line { OnHeld drain.old.held (OnLines (GivesLine layer.new into.old into.new len.new)) (meant result)
        drain.new.held }
    ensures layer { Keeps (meant result) layer.old layer.new }
    ensures into { Keeps (meant result) into.old into.new }
    ensures len { KeepsNumbers (meant result) len.old len.new }
{
    let Some(mut held) = drain.take(alloc) else {
        return Status::EmptyHandle.number();
    };
    let status = give_line(&mut held.lines, layer, into, len);
    held.take_headings();
    drain.put(held);
    status.number()
}

#[tactic(auto, using(crate::proofs::Given::filled_skips))]
fn skip_batch(lines: &mut Lines, skipped: &mut usize) -> Status
    ensures batch { SkipsBatch skipped.new lines.old result lines.new }
    ensures kept { Keeps (Some result) skipped.old skipped.new }
{
    if !lines.fill() {
        return Status::NoLine;
    }
    *skipped = lines.skip();
    Status::Done
}

/// Gives up the lines that are left of the batch whose lines are at hand, and tells how many. Where none is at hand, it
/// takes batches out of the ring until one is, and gives up all lines of that batch.
#[unsafe(no_mangle)]
pub extern "C" fn span_drain_skip_batch(
    alloc: Global,
    drain: &mut SpanDrain,
    skipped: &mut usize,
) -> u32
    ensures batch { OnHeld drain.old.held (OnLines (SkipsBatch skipped.new)) (meant result) drain.new.held }
    ensures kept { Keeps (meant result) skipped.old skipped.new }
{
    let Some(mut held) = drain.take(alloc) else {
        return Status::EmptyHandle.number();
    };
    let status = skip_batch(&mut held.lines, skipped);
    held.take_headings();
    drain.put(held);
    status.number()
}

/// How many batches were taken, and how many notes were missed for want of memory.
#[unsafe(no_mangle)]
pub extern "C" fn span_drain_counts(
    alloc: Global,
    drain: &mut SpanDrain,
    batches: &mut u64,
    missed: &mut u64,
) -> u32
    ensures counts { OnHeld drain.old.held (AsksLines (CountsLines batches.new missed.new)) (meant result)
        drain.new.held }
    ensures batches { Keeps (meant result) batches.old batches.new }
    ensures missed { Keeps (meant result) missed.old missed.new }
{
    let Some(held) = drain.take(alloc) else {
        return Status::EmptyHandle.number();
    };
    *batches = held.lines.taken();
    *missed = held.lines.missed();
    drain.put(held);
    Status::Done.number()
}

/// Gives a drain and its memory up: the handle is empty then. Its registry may still be used; once the ring is full, its
/// calls are refused.
#[unsafe(no_mangle)]
pub extern "C" fn span_drain_free(alloc: Global, drain: &mut SpanDrain) -> u32
    ensures status { meant result
        ≡ Some (if is_some drain.old.held then Status.Done else Status.EmptyHandle) }
    ensures empty { drain.new.held ≡ None }
{
    drain.free(alloc).number()
}
