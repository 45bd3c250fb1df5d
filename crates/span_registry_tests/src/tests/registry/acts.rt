//! Calls as data, and what is answered to them as text.
use crate::tests::registry::layers::{Said, said_of};
use span_id::{Fault, Id, Level};
use span_outlet::Line;
use span_registry::{ParentOf, Step};
use std::alloc::{AllocError, Global};
use std::fmt::Debug;
use std::process::Abort;

/// Keys and values.
pub(crate) type Fields<'a> = &'a [(&'a str, &'a str)];

/// In the place of the number of an id, in a call on a registry that is lent a handle or takes one back: the handle that
/// came last. No id has this number.
pub(crate) const NEWEST: u64 = u64::MAX;

/// A call; spans stand under the numbers of their ids.
#[derive(Clone, Copy)]
pub(crate) enum Act<'a> {
    /// A new span of this name, whose parent is the current span.
    New(&'a str),
    /// A new span of this name under the span of this id; where the number is no id, a root.
    Child(&'a str, u64),
    /// A new span of this name and target, with these fields, whose parent is the current span.
    Make(&'a str, &'a str, Fields<'a>),
    Clone(u64),
    Enter(u64),
    Exit(u64),
    Close(u64),
    Record(u64, Fields<'a>),
    /// An event of this level, with this message and these fields.
    Event(Level, &'a str, Fields<'a>),
    /// An event with this message under the span of this id; where the number is no id, under none.
    EventIn(u64, &'a str),
    Find(u64),
    /// What holds all spans and what holds this one.
    Ask(u64),
    /// What was counted of the worker.
    Count,
    /// A step of the drain.
    Step,
}

/// The meta and the fields that a call is told; where it is told none, they are empty.
pub(crate) fn said_by(rt: &impl Abort, alloc: Global, act: &Act) -> Said {
    match act {
        Act::New(name) | Act::Child(name, _) => {
            said_of(rt, alloc, (name, "app"), Level::Info, &[])
        }
        Act::Make(name, target, fields) => said_of(rt, alloc, (name, target), Level::Info, fields),
        Act::Event(level, _, fields) => said_of(rt, alloc, ("event", "app"), *level, fields),
        Act::EventIn(..) => said_of(rt, alloc, ("event", "app"), Level::Info, &[]),
        Act::Record(_, fields) => said_of(rt, alloc, ("", ""), Level::Info, fields),
        _ => said_of(rt, alloc, ("", ""), Level::Info, &[]),
    }
}

/// The parent of a new span or an event: the current span, unless the call names one.
pub(crate) fn parent_of(act: &Act) -> ParentOf {
    match act {
        Act::Child(_, number) | Act::EventIn(number, _) => match Id::from_u64(*number) {
            Some(id) => ParentOf::Of(id),
            None => ParentOf::Root,
        },
        _ => ParentOf::Current,
    }
}

/// What a call answers.
#[derive(Clone, Copy)]
pub(crate) enum Answer {
    Made(Id),
    NotWanted,
    Cloned,
    Entered(bool),
    Closed(bool),
    Recorded,
    Told,
    /// How many calls were accepted of the worker, and how many parts of the ledger of handles are not with it.
    Counted(u64, u64),
    Stepped(Option<Step>),
    Refused(Fault),
    /// Nothing: a look or a step is no call of a worker.
    NoCall,
}

/// What a call answers that is accepted with no value, or refused.
pub(crate) fn accepted(answer: Result<(), Fault>, done: Answer) -> Answer {
    match answer {
        Ok(()) => done,
        Err(fault) => Answer::Refused(fault),
    }
}

/// What a call answers by which a span closes or stays open.
pub(crate) fn closed(answer: Result<bool, Fault>) -> Answer {
    match answer {
        Ok(closed) => Answer::Closed(closed),
        Err(fault) => Answer::Refused(fault),
    }
}

// An answer that has no number.
fn word(answer: &Answer) -> &'static str {
    match answer {
        Answer::NotWanted => "= not wanted\n",
        Answer::Cloned => "= cloned\n",
        Answer::Entered(true) => "= entered\n",
        Answer::Entered(false) => "= again\n",
        Answer::Closed(true) => "= closed\n",
        Answer::Closed(false) => "= open\n",
        Answer::Recorded => "= recorded\n",
        Answer::Told => "= told\n",
        Answer::Stepped(None) => "= no batch\n",
        Answer::NoCall => "= no call\n",
        Answer::Made(_) | Answer::Counted(..) | Answer::Stepped(Some(_)) | Answer::Refused(_) => "",
    }
}

// `= ` and the answer, or `! ` and the refusal, as the next line.
fn add_answer(text: &mut String, answer: &Answer) -> Result<(), AllocError> {
    match answer {
        Answer::Made(id) => write!(text, "= {id}\n"),
        Answer::Refused(fault) => write!(text, "! {fault}\n"),
        Answer::Counted(accepted, out) => write!(text, "= accepted {accepted} out {out}\n"),
        Answer::Stepped(Some(Step { told, missed })) => {
            write!(text, "= told {told} missed {missed}\n")
        }
        _ => text.push_str(word(answer)),
    }
}

/// The answer of the next call.
pub(crate) fn push_answer(rt: &impl Abort, text: &mut String, answer: &Answer) {
    add_answer(text, answer).expect(rt, "memory");
}

/// What was found or asked for, as the next line.
pub(crate) fn push_shown<T: Debug>(rt: &impl Abort, text: &mut String, shown: &T) {
    write!(text, "{shown:?}\n").expect(rt, "memory");
}

/// The number of the batch, the place, the layer and the text of each line.
pub(crate) fn numbered(rt: &impl Abort, alloc: Global, lines: &[Line]) -> String {
    let mut text = String::new(alloc);
    for line in lines {
        add_line(&mut text, line).expect(rt, "memory");
    }
    text
}

// The numbers and the text of a line, as the next line.
fn add_line(text: &mut String, line: &Line) -> Result<(), AllocError> {
    let (batch, place, layer) = (line.batch, line.place, line.layer);
    let said = str::from_utf8(line.text.as_slice()).unwrap_or("no text");
    write!(text, "{batch} {place} {layer} {said}\n")
}
