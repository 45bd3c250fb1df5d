//! Trees of open spans.
ghost use Rattle.std.specs.Prelude.{◌≡◌, ◌+◌, ◌++◌, length, map, reverse, flat_map, OnOk, OnErr, option_map};
ghost use Rattle.span_why.specs.Why.{GrowsByFront, open_line, plain_open_span, span_at, span_line, whole_tree};
ghost use Rattle.span_why.specs.Why.{why_of_text, why_text};
ghost use Rattle.span_why.specs.inside.Families.{AreFamilies};
ghost use Rattle.span_why.specs.inside.Pending.{Leaves, lines_text, pending_lines, pending_size, pending_tree, size_of};

use crate::families::Families;
use crate::line::write_line;
use crate::open_span::OpenSpan;
use span_id::Id;
use std::alloc::{AllocError, Global};
use std::io;
use std::io::Write;

/// A span whose tree is still to be written, and how deep it stands.
#[derive(Clone, Copy)]
pub(crate) struct Pending<'s> {
    depth: usize,
    span: &'s OpenSpan,
}

/// Appends to a text how many spans are open, and the tree of each root: a line for each span, its children below it.
///
/// The spans are all that are open. It takes time in proportion to them and to the length of the text, and for finding
/// parents to the logarithm of their number. The only error is that memory was refused; then whole lines stand that
/// begin the text.
pub fn write_why(alloc: Global, text: &mut Vec<u8>, spans: &[OpenSpan]) -> io::Result<()>
    ensures whole { OnOk result (text.new.items ≡ text.old.items ++ why_text (map plain_open_span spans.now)) }
    ensures front { OnErr result
        (GrowsByFront text.old.items text.new.items (why_text (map plain_open_span spans.now))) }
{
    append_count(alloc, text, spans)?;
    let families = Families::of(alloc, spans)?;
    append_trees(alloc, text, spans, &families, families.roots.as_slice())
}

/// Appends to a text how many spans are open, and the tree of one of them, or that it isn't open.
///
/// The spans are all that are open. The only error is that memory was refused; then whole lines stand that begin the
/// text.
pub fn write_why_of(
    alloc: Global,
    text: &mut Vec<u8>,
    spans: &[OpenSpan],
    id: Option<Id>,
) -> io::Result<()>
    ensures whole { OnOk result (text.new.items ≡ text.old.items ++ why_of_text (map plain_open_span spans.now) id) }
    ensures front { OnErr result
        (GrowsByFront text.old.items text.new.items (why_of_text (map plain_open_span spans.now) id)) }
{
    append_count(alloc, text, spans)?;
    match find(spans, id) {
        Some(span) => append_tree(alloc, text, spans, span),
        None => {
            text.extend_from_slice(b"not open\n")?;
            Ok(())
        }
    }
}

// Appends how many spans are open, or nothing where memory is refused.
fn append_count(alloc: Global, text: &mut Vec<u8>, spans: &[OpenSpan]) -> io::Result<()>
    ensures whole { OnOk result (text.new.items ≡ text.old.items ++ open_line (map plain_open_span spans.now)) }
    ensures nothing { OnErr result (text.new.items ≡ text.old.items) }
{
    let count = spans.len();
    let mut line = Vec::new(alloc);
    writeln!(line, "open {count}")?;
    text.extend_from_slice(line.as_slice())?;
    Ok(())
}

// The open span with this id.
fn find(spans: &[OpenSpan], id: Option<Id>) -> Option<&OpenSpan>
    ensures { option_map (λ span. plain_open_span span.now) result ≡ span_at (map plain_open_span spans.now) id }
{
    let id = id?;
    for span in spans {
        if span.details.id == id {
            return Some(span);
        }
    }
    None
}

// Appends the tree of a span.
fn append_tree(
    alloc: Global,
    text: &mut Vec<u8>,
    spans: &[OpenSpan],
    span: &OpenSpan,
) -> io::Result<()>
    ensures whole { OnOk result (text.new.items ≡ text.old.items
        ++ lines_text (whole_tree (map plain_open_span spans.now) (plain_open_span span.now))) }
    ensures front { OnErr result (GrowsByFront text.old.items text.new.items
        (lines_text (whole_tree (map plain_open_span spans.now) (plain_open_span span.now)))) }
{
    let families = Families::of(alloc, spans)?;
    append_trees(alloc, text, spans, &families, &[span])
}

// Appends the trees of these spans.
fn append_trees<'s>(
    alloc: Global,
    text: &mut Vec<u8>,
    spans: &[OpenSpan],
    families: &Families<'s>,
    starts: &[&'s OpenSpan],
) -> io::Result<()>
    requires { AreFamilies (map plain_open_span spans.now) families.now }
    ensures whole { OnOk result (text.new.items ≡ text.old.items
        ++ lines_text (flat_map (whole_tree (map plain_open_span spans.now))
        (map (λ span. plain_open_span span.now) starts.now))) }
    ensures front { OnErr result (GrowsByFront text.old.items text.new.items
        (lines_text (flat_map (whole_tree (map plain_open_span spans.now))
        (map (λ span. plain_open_span span.now) starts.now)))) }
{
    let mut line = Vec::new(alloc);
    let mut pending = Vec::new(alloc);
    push_last_first(&mut pending, 0, starts)?;
    'next: while let Some(at) = pending.pop() {
        append_next(text, &mut line, spans, families, at, &mut pending)?;
    }
    Ok(())
}

// Appends the line of a span, and leaves its children's trees to be written next. The line before it in the buffer is
// lost.
fn append_next<'s>(
    text: &mut Vec<u8>,
    line: &mut Vec<u8>,
    spans: &[OpenSpan],
    families: &Families<'s>,
    at: Pending<'s>,
    pending: &mut Vec<Pending<'s>>,
) -> io::Result<()>
    requires { AreFamilies (map plain_open_span spans.now) families.now }
    ensures leaves { OnOk result (Leaves text.old.items text.new.items
        (lines_text (pending_tree (map plain_open_span spans.now) at.entry)
        ++ lines_text (pending_lines (map plain_open_span spans.now) pending.old.items))
        (lines_text (pending_lines (map plain_open_span spans.now) pending.new.items))) }
    ensures front { OnErr result (GrowsByFront text.old.items text.new.items
        (lines_text (pending_tree (map plain_open_span spans.now) at.entry))) }
    ensures shorter { OnOk result (pending_size (map plain_open_span spans.now) pending.new.items + 1
        ≡ size_of (map plain_open_span spans.now) at.entry
        + pending_size (map plain_open_span spans.now) pending.old.items) }
{
    if at.depth >= spans.len() {
        return Ok(());
    }
    append_line(text, line, at.depth, at.span)?;
    if let Some(children) = families.children(at.span.details.id) {
        push_last_first(pending, at.depth + 1, children.as_slice())?;
    }
    Ok(())
}

// Appends the line of a span that stands so deep, or nothing where memory is refused: it is made in a buffer first.
fn append_line(
    text: &mut Vec<u8>,
    line: &mut Vec<u8>,
    depth: usize,
    span: &OpenSpan,
) -> io::Result<()>
    ensures whole { OnOk result (text.new.items ≡ text.old.items ++ span_line depth (plain_open_span span.now)) }
    ensures nothing { OnErr result (text.new.items ≡ text.old.items) }
{
    line.clear();
    write_line(line, depth, span)?;
    text.extend_from_slice(line.as_slice())?;
    Ok(())
}

// Leaves the trees of these spans, which stand so deep, to be written next, the first one first.
fn push_last_first<'s>(
    pending: &mut Vec<Pending<'s>>,
    depth: usize,
    spans: &[&'s OpenSpan],
) -> Result<(), AllocError>
    ensures { OnOk result (reverse pending.new.items
        ≡ map (λ span. record { depth = depth; span = span }) spans.now ++ reverse pending.old.items) }
{
    let mut left = spans.len();
    while left > 0 {
        left -= 1;
        pending.push(Pending {
            depth,
            span: spans[left],
        })?;
    }
    Ok(())
}
