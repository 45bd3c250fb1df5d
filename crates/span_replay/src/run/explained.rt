//! Why spans are open where a script's lines end.
ghost use Rattle.std.specs.Prelude.{◌≡◌, ◌<◌, ◌++◌, ◌==◌, [], None, count_by, length, map, slice_index_or};
ghost use Rattle.std.specs.Prelude.{IfOk, IfErr, OnOk, option_copied};
ghost use Rattle.span_core.specs.Details.{plain_details};
ghost use Rattle.span_id.specs.Id.{slot_of};
ghost use Rattle.span_replay.specs.Explained.{inside_in, text_about, open_spans_in, open_span_of};
ghost use Rattle.span_replay.specs.inside.Reaching.{reached_at, text_of};
ghost use Rattle.span_replay.specs.inside.Running.{core_in};
ghost use Rattle.span_script.specs.Operation.{Stage};
ghost use Rattle.span_why.specs.Why.{plain_open_span};

use crate::run::fault::ReplayFault;
use crate::run::reaching::{Reaching, named_by};
use crate::run::script::Script;
use span_core::SpanDetails;
use span_id::Id;
use span_layers::{Admit, Say};
use span_stack::SpanStack;
use span_why::{Inside, OpenSpan, write_why, write_why_of};
use std::alloc::{AllocError, Global};
use std::io;

/// What `why` writes of a script, and how it ends.
#[derive(Drop)]
pub struct Explained {
    /// Why the spans are open that are open where the lines end.
    pub text: Vec<u8>,
    /// How many these are, or the fault of the script that ended them.
    pub ended: Result<u64, ReplayFault>,
}

/// What `why` writes where the lines have got so far, and ended so: about all open spans, or about the one that a label
/// names. The only error is `Memory`.
pub fn explain<V: Say, A: Admit>(
    alloc: Global,
    reaching: &Reaching<V, A>,
    about: Option<&str>,
    ended: Result<u64, ReplayFault>,
) -> Result<Explained, ReplayFault>
    requires workers { reaching.now.script.workers ≡ (core_in reaching.now.script).limits.workers }
    ensures text { IfOk result (λ explained. (stage : Stage) →
        explained.text.items ≡ text_about (reached_at reaching.now stage) (option_copied about.entry)) }
    ensures ended { IfOk result (λ explained. explained.ended ≡ ended) }
    ensures memory { IfErr result (λ fault. fault ≡ ReplayFault.Memory) }
{
    let Ok(spans) = open_spans(alloc, reaching) else {
        return Err(ReplayFault::Memory);
    };
    let id = named_by(&reaching.script.labels, about);
    write_out(alloc, spans.as_slice(), about, id, ended)
}

/// The same where no span is open.
pub fn nothing_open(
    alloc: Global,
    about: Option<&str>,
    ended: Result<u64, ReplayFault>,
) -> Result<Explained, ReplayFault>
    ensures text { IfOk result (λ explained. explained.text.items ≡ text_of [] (option_copied about.entry) None) }
    ensures ended { IfOk result (λ explained. explained.ended ≡ ended) }
    ensures memory { IfErr result (λ fault. fault ≡ ReplayFault.Memory) }
{
    write_out(alloc, &[], about, None, ended)
}

/// The text about these spans, or about the one with this id.
fn write_out(
    alloc: Global,
    spans: &[OpenSpan],
    about: Option<&str>,
    id: Option<Id>,
    ended: Result<u64, ReplayFault>,
) -> Result<Explained, ReplayFault>
    ensures text { IfOk result (λ explained. explained.text.items
        ≡ text_of (map plain_open_span spans.now) (option_copied about.entry) id) }
    ensures ended { IfOk result (λ explained. explained.ended ≡ ended) }
    ensures memory { IfErr result (λ fault. fault ≡ ReplayFault.Memory) }
{
    let mut text = Vec::new(alloc);
    match write_about(alloc, &mut text, spans, about, id) {
        Ok(()) => Ok(Explained { text, ended }),
        Err(_) => Err(ReplayFault::Memory),
    }
}

/// Appends the text about these spans, or about the one with this id where a label is asked about. The only error is
/// that memory was refused.
fn write_about(
    alloc: Global,
    text: &mut Vec<u8>,
    spans: &[OpenSpan],
    about: Option<&str>,
    id: Option<Id>,
) -> io::Result<()>
    ensures { OnOk result (text.new.items
        ≡ text.old.items ++ text_of (map plain_open_span spans.now) (option_copied about.entry) id) }
{
    match about {
        Some(_) => write_why_of(alloc, text, spans, id),
        None => write_why(alloc, text, spans),
    }
}

/// The open spans, by ascending slot, each with who is inside it and the line that made it. The only error is that
/// memory was refused.
fn open_spans<V: Say, A: Admit>(
    alloc: Global,
    reaching: &Reaching<V, A>,
) -> Result<Vec<OpenSpan>, AllocError>
    requires { reaching.now.script.workers ≡ (core_in reaching.now.script).limits.workers }
    ensures { IfOk result (λ spans. (stage : Stage) →
        map plain_open_span spans.items ≡ open_spans_in (reached_at reaching.now stage)) }
{
    let Ok(details) = reaching.script.span_details() else {
        return Err(AllocError);
    };
    let mut spans = Vec::with_capacity(alloc, details.len())?;
    for one in details {
        let span = open_span(alloc, reaching, one)?;
        spans.push(span)?;
    }
    Ok(spans)
}

/// A span with who is inside it and the line that made it.
fn open_span<V: Say, A: Admit>(
    alloc: Global,
    reaching: &Reaching<V, A>,
    details: SpanDetails,
) -> Result<OpenSpan, AllocError>
    requires { reaching.now.script.workers ≡ (core_in reaching.now.script).limits.workers }
    ensures { IfOk result (λ span. (stage : Stage) →
        plain_open_span span ≡ open_span_of (reached_at reaching.now stage) (plain_details details)) }
{
    let inside = inside(alloc, &reaching.script, &details)?;
    let line = line_at(reaching.lines.as_slice(), details.id);
    Ok(OpenSpan {
        details,
        inside,
        line,
    })
}

/// The workers that are inside a span, each with how many exits it needs.
fn inside<V: Say, A: Admit>(
    alloc: Global,
    script: &Script<V, A>,
    details: &SpanDetails,
) -> Result<Vec<Inside>, AllocError>
    requires { script.now.workers ≡ (core_in script.now).limits.workers }
    ensures { IfOk result (λ inside. inside.items ≡ inside_in (core_in script.now) (plain_details details.now)) }
{
    let mut inside = Vec::new(alloc);
    for worker in details.workers.as_slice() {
        if *worker < script.workers {
            let exits = exits(script.stack(*worker), details.id);
            inside.push(Inside {
                worker: *worker,
                exits,
            })?;
        }
    }
    Ok(inside)
}

/// How often a span stands in a stack.
fn exits(stack: &SpanStack, id: Id) -> usize
    ensures { result ≡ count_by (λ entry. entry == id) stack.now.ids }
{
    let mut exits = 0;
    for place in 0..stack.len() {
        if stands_at(stack, place, id) {
            exits += 1;
        }
    }
    exits
}

/// Whether a span stands at this place of a stack.
#[tactic(auto, using(crate::proofs::Explaining::entry_at, crate::proofs::Explaining::some_entry))]
fn stands_at(stack: &SpanStack, place: usize, id: Id) -> bool
    requires { place < length stack.now.ids }
    ensures { result ≡ (slice_index_or stack.now.ids place 0 == id) }
{
    let Some(entry) = stack.get(place) else {
        unreachable!()
    };
    entry == id
}

/// The number of the line that made a span.
fn line_at(lines: &[u64], id: Id) -> u64
    ensures { result ≡ slice_index_or lines.now (slot_of id) 0 }
{
    match lines.get(id.slot() as usize) {
        Some(line) => *line,
        None => 0,
    }
}
