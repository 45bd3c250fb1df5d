//! What is answered to calls, as text.
use span_id::{Fault, Id};
use span_outlet::{Line, Step};
use std::alloc::Global;
use std::process::Abort;

/// What a call answers, or what a look shows.
#[derive(Clone, Copy)]
pub(crate) enum Answer {
    Made(Id),
    NotWanted,
    Cloned,
    Entered(bool),
    Closed(bool),
    /// Whether a span closed, and of the closing list how long it is, its first id and its last.
    Shown(bool, [u64; 3]),
    Recorded,
    Told,
    /// The handles, the entries, the count and the fields of a span.
    Found([u64; 4]),
    Counted([u64; 7]),
    /// How many calls were accepted.
    Accepted(u64),
    Is(bool),
    /// How many notes were told and missed.
    Stepped(Option<Step>),
    /// How many batches the drain had, how many notes were missed, and how many lines there are.
    Drained([u64; 3]),
    Refused(Fault),
    NoWorker,
    NoCall,
}

/// What a call answers that is accepted with no value, or refused.
pub(crate) fn accepted(answer: Result<(), Fault>, done: Answer) -> Answer {
    match answer {
        Ok(()) => done,
        Err(fault) => Answer::Refused(fault),
    }
}

/// What a call answers by which a span closes or stays open.
pub(crate) fn closed(answer: Result<bool, Fault>) -> Answer {
    match answer {
        Ok(closed) => Answer::Closed(closed),
        Err(fault) => Answer::Refused(fault),
    }
}

pub(crate) fn entered(answer: Result<bool, Fault>) -> Answer {
    match answer {
        Ok(first) => Answer::Entered(first),
        Err(fault) => Answer::Refused(fault),
    }
}

pub(crate) fn made(answer: Result<Option<Id>, Fault>) -> Answer {
    match answer {
        Ok(Some(id)) => Answer::Made(id),
        Ok(None) => Answer::NotWanted,
        Err(fault) => Answer::Refused(fault),
    }
}

pub(crate) fn found(counts: Option<[u64; 4]>) -> Answer {
    match counts {
        Some(counts) => Answer::Found(counts),
        None => Answer::Refused(Fault::Unknown),
    }
}

// An answer that has no number.
fn word(answer: &Answer) -> &'static str {
    match answer {
        Answer::NotWanted => "= not wanted\n",
        Answer::Cloned => "= cloned\n",
        Answer::Entered(true) => "= entered\n",
        Answer::Entered(false) => "= again\n",
        Answer::Closed(true) => "= closed\n",
        Answer::Closed(false) => "= open\n",
        Answer::Recorded => "= recorded\n",
        Answer::Told => "= told\n",
        Answer::Is(true) => "= yes\n",
        Answer::Is(false) => "= no\n",
        Answer::Stepped(None) => "= no batch\n",
        Answer::NoWorker => "! there is no such worker\n",
        _ => "! there is no such call\n",
    }
}

/// Writes these bytes behind the others.
pub(crate) fn push(rt: &impl Abort, all: &mut Vec<u8>, bytes: &[u8]) {
    all.extend_from_slice(bytes).expect(rt, "memory");
}

// A word and numbers, on a line.
fn push_numbers(rt: &impl Abort, alloc: Global, text: &mut Vec<u8>, word: &str, numbers: &[u64]) {
    push(rt, text, word.as_bytes());
    for number in numbers {
        let number = format!(in alloc; " {number}").expect(rt, "memory");
        push(rt, text, number.as_bytes());
    }
    push(rt, text, b"\n");
}

/// `! ` and the refusal, on a line.
pub(crate) fn push_refusal(rt: &impl Abort, alloc: Global, text: &mut Vec<u8>, fault: Fault) {
    let line = format!(in alloc; "! {fault}\n").expect(rt, "memory");
    push(rt, text, line.as_bytes());
}

/// `= ` and the answer, or `! ` and the refusal, on a line.
pub(crate) fn push_answer(rt: &impl Abort, alloc: Global, text: &mut Vec<u8>, answer: &Answer) {
    match answer {
        Answer::Made(id) => push_numbers(rt, alloc, text, "=", &[id.get()]),
        Answer::Refused(fault) => push_refusal(rt, alloc, text, *fault),
        Answer::Shown(true, list) => push_numbers(rt, alloc, text, "= closed", list),
        Answer::Shown(false, list) => push_numbers(rt, alloc, text, "= open", list),
        Answer::Found(numbers) => push_numbers(rt, alloc, text, "= found", numbers),
        Answer::Counted(counts) => push_numbers(rt, alloc, text, "= counts", counts),
        Answer::Accepted(number) => push_numbers(rt, alloc, text, "= accepted", &[*number]),
        Answer::Stepped(Some(Step { told, missed })) => {
            let numbers = [*told as u64, *missed as u64];
            push_numbers(rt, alloc, text, "= step", &numbers);
        }
        Answer::Drained(numbers) => push_numbers(rt, alloc, text, "= drained", numbers),
        _ => push(rt, text, word(answer).as_bytes()),
    }
}

/// `L<layer> <text>`, on a line each, of the lines from this one on.
pub(crate) fn push_lines(
    rt: &impl Abort,
    alloc: Global,
    text: &mut Vec<u8>,
    lines: &[Line],
    first: usize,
) {
    for line in lines.iter().skip(first) {
        let layer = format!(in alloc; "L{} ", line.layer).expect(rt, "memory");
        push(rt, text, layer.as_bytes());
        push(rt, text, line.text.as_slice());
        push(rt, text, b"\n");
    }
}
