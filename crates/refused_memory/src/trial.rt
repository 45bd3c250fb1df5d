//! Calls that may be refused memory: made, compared where they are refused, and made again.

use crate::answer::Answer;
use crate::stage::{Memory, Stage, TRIES};
use crate::stop::Stop;
use span_id::Fault;
use std::alloc::{AllocError, Global};

/// What calls are made on, and what can be looked at of it.
pub(crate) trait Subject<A> {
    /// Makes a call. It takes no memory but what the call itself takes.
    fn call(&mut self, act: &A) -> Result<Answer, Fault>;

    /// Adds all that can be looked at to a text.
    fn look(&mut self, text: &mut String) -> Result<(), AllocError>;
}

/// A call: the words in which its answer is told, and whether it may take memory.
pub(crate) type Planned<'a, A> = (&'a str, Memory, A);

/// What came of a try.
#[derive(Clone, Copy)]
enum Tried {
    /// It was answered, and the answer is told.
    Told,
    /// It was refused memory and changed nothing: it is made again.
    Refused,
    /// The row ends.
    Stopped(Stop),
}

/// Makes all calls, and tells what they answer.
pub(crate) fn perform<A, S: Subject<A>, R: Print>(
    stage: &Stage<R>,
    alloc: Global,
    subject: &mut S,
    plan: &[Planned<'_, A>],
) -> Result<(), Stop> {
    for planned in plan {
        attempt(stage, alloc, subject, planned)?;
    }
    Ok(())
}

/// Makes a call, tells its answer, and makes it again where it was refused memory.
pub(crate) fn attempt<A, S: Subject<A>, R: Print>(
    stage: &Stage<R>,
    alloc: Global,
    subject: &mut S,
    planned: &Planned<'_, A>,
) -> Result<(), Stop> {
    for _ in 0..TRIES {
        match once(stage, alloc, subject, planned) {
            Tried::Told => return Ok(()),
            Tried::Refused => {}
            Tried::Stopped(stop) => return Err(stop),
        }
    }
    let (name, _, _) = planned;
    Err(stage.refused_too_often(name))
}

// Makes a call once.
fn once<A, S: Subject<A>, R: Print>(
    stage: &Stage<R>,
    alloc: Global,
    subject: &mut S,
    planned: &Planned<'_, A>,
) -> Tried {
    match look_at(alloc, subject) {
        Ok(before) => beside(stage, alloc, subject, planned, before.as_str()),
        Err(_) => Tried::Stopped(Stop::Memory),
    }
}

// The same, where this could be looked at before.
fn beside<A, S: Subject<A>, R: Print>(
    stage: &Stage<R>,
    alloc: Global,
    subject: &mut S,
    planned: &Planned<'_, A>,
    before: &str,
) -> Tried {
    let (name, memory, act) = planned;
    stage.begin(*memory);
    let answer = subject.call(act);
    stage.over();
    match answer {
        Ok(answer) => {
            tell(stage, name, &answer);
            Tried::Told
        }
        Err(fault) => match is_changed(alloc, subject, before) {
            Ok(changed) => judge(stage, name, *memory, fault, changed),
            Err(_) => Tried::Stopped(Stop::Memory),
        },
    }
}

/// Tells what a call answered.
pub(crate) fn tell<R: Print>(stage: &Stage<R>, name: &str, answer: &Answer) {
    stage.wrote(println!(stage.rt; "{name}: {answer}"));
}

/// Tells that a call was refused, for another reason than memory.
pub(crate) fn tell_refused<R: Print>(stage: &Stage<R>, name: &str, fault: Fault) {
    stage.wrote(println!(stage.rt; "{name}: ! {fault}"));
}

// A refused call changes nothing, and one that takes no memory isn't refused any.
fn judge<R: Print>(
    stage: &Stage<R>,
    name: &str,
    memory: Memory,
    fault: Fault,
    changed: bool,
) -> Tried {
    if changed {
        return Tried::Stopped(stage.changed(name));
    }
    if fault != Fault::Memory {
        tell_refused(stage, name, fault);
        return Tried::Told;
    }
    match memory {
        Memory::Taken => Tried::Refused,
        Memory::Untouched => Tried::Stopped(stage.refused(name)),
    }
}

// All that can be looked at.
fn look_at<A, S: Subject<A>>(alloc: Global, subject: &mut S) -> Result<String, AllocError> {
    let mut text = String::new(alloc);
    subject.look(&mut text)?;
    Ok(text)
}

// Whether something else can be looked at than before.
fn is_changed<A, S: Subject<A>>(
    alloc: Global,
    subject: &mut S,
    before: &str,
) -> Result<bool, AllocError> {
    Ok(look_at(alloc, subject)?.as_str() != before)
}
