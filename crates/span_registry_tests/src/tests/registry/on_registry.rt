//! Calls on a registry over a ring, with the handles that it gave and the steps of its drain.
ghost use Rattle.std.specs.Prelude.{◌≡◌, Some};

use crate::tests::registry::acts::{
    Act, Answer, NEWEST, accepted, closed, parent_of, push_answer, push_shown, said_by,
};
use crate::tests::registry::layers::{PlainDrain, PlainRegistry, Said};
use span_id::{Fault, Id};
use span_registry::{
    DroppableHandle, HANDLE_PARTS, Handle, Outlet, ParentOf, RefusedClose, Ring, Setup, Worker,
};
use std::alloc::Global;
use std::process::Abort;
use std::sync::Wait;
use std::sync::ledger::Ledger;

// Keeps a handle that came with this answer.
fn keep<H: Ledger, C: Ledger, S: Setup>(
    held: &mut Vec<DroppableHandle<H, C, S>>,
    handle: Handle<H, C, S>,
    answer: Answer,
) -> Answer {
    match held.push(DroppableHandle { handle }) {
        Ok(()) => answer,
        Err(_) => Answer::Refused(Fault::Memory),
    }
}

// A new span, whose handle is kept.
fn make<H: Ledger, C: Ledger, S: Setup, O: Outlet, R: Wait>(
    rt: &R,
    registry: &PlainRegistry<H, C, S, O>,
    worker: &mut Worker<H, C, S>,
    held: &mut Vec<DroppableHandle<H, C, S>>,
    parent: ParentOf,
    said: &Said,
) -> Answer {
    match registry.new_span(rt, worker, &said.meta, said.fields.as_slice(), parent) {
        Ok(Some(handle)) => {
            let made = Answer::Made(handle.id());
            keep(held, handle, made)
        }
        Ok(None) => Answer::NotWanted,
        Err(fault) => Answer::Refused(fault),
    }
}

// The place of a handle of this id.
fn place_of<H: Ledger, C: Ledger, S: Setup>(
    held: &[DroppableHandle<H, C, S>],
    number: u64,
) -> Option<usize> {
    if number == NEWEST {
        return held.len().checked_sub(1);
    }
    for (place, one) in held.iter().enumerate() {
        if one.handle.id().get() == number {
            return Some(place);
        }
    }
    None
}

// A handle of this id is lent: for one more of its span, for an entry or for fields.
fn lend<H: Ledger, C: Ledger, S: Setup, O: Outlet, R: Wait>(
    rt: &R,
    registry: &PlainRegistry<H, C, S, O>,
    worker: &mut Worker<H, C, S>,
    held: &mut Vec<DroppableHandle<H, C, S>>,
    act: &Act,
    number: u64,
    said: &Said,
) -> Answer {
    let Some(place) = place_of(held.as_slice(), number) else {
        return Answer::Refused(Fault::Unknown);
    };
    let Some(one) = held.get_mut(place) else {
        return Answer::Refused(Fault::Unknown);
    };
    match act {
        Act::Clone(_) => match registry.clone_span(rt, worker, &mut one.handle) {
            Ok(handle) => keep(held, handle, Answer::Cloned),
            Err(fault) => Answer::Refused(fault),
        },
        Act::Enter(_) => match registry.enter(rt, worker, &mut one.handle) {
            Ok(first) => Answer::Entered(first),
            Err(fault) => Answer::Refused(fault),
        },
        _ => {
            let fields = said.fields.as_slice();
            let recorded = registry.record(rt, worker, &mut one.handle, fields);
            accepted(recorded, Answer::Recorded)
        }
    }
}

// Gives a handle back, which is kept where that is refused.
fn give_back<H: Ledger, C: Ledger, S: Setup, O: Outlet, R: Wait>(
    rt: &R,
    registry: &PlainRegistry<H, C, S, O>,
    worker: &mut Worker<H, C, S>,
    held: &mut Vec<DroppableHandle<H, C, S>>,
    handle: Handle<H, C, S>,
) -> Answer {
    match registry.try_close(rt, worker, handle) {
        Ok(closed) => Answer::Closed(closed),
        Err(RefusedClose { handle, fault }) => keep(held, handle, Answer::Refused(fault)),
    }
}

// Gives a handle of this id back.
fn close<H: Ledger, C: Ledger, S: Setup, O: Outlet, R: Wait>(
    rt: &R,
    registry: &PlainRegistry<H, C, S, O>,
    worker: &mut Worker<H, C, S>,
    held: &mut Vec<DroppableHandle<H, C, S>>,
    number: u64,
) -> Answer {
    match place_of(held.as_slice(), number) {
        Some(place) if place < held.len() => {
            let handle = held.swap_remove(place).into_handle();
            give_back(rt, registry, worker, held, handle)
        }
        _ => Answer::Refused(Fault::Unknown),
    }
}

// A call that is told something, or lent a handle.
fn pass<H: Ledger, C: Ledger, S: Setup, O: Outlet, R: Wait>(
    rt: &R,
    registry: &PlainRegistry<H, C, S, O>,
    worker: &mut Worker<H, C, S>,
    held: &mut Vec<DroppableHandle<H, C, S>>,
    act: &Act,
    said: &Said,
) -> Answer {
    let (meta, fields, parent) = (&said.meta, said.fields.as_slice(), parent_of(act));
    match act {
        Act::Event(_, message, _) => {
            let told = registry.event(rt, worker, meta, message, fields);
            accepted(told, Answer::Told)
        }
        Act::EventIn(_, message) => {
            let told = registry.event_in(rt, worker, meta, message, fields, parent);
            accepted(told, Answer::Told)
        }
        Act::Clone(number) | Act::Enter(number) | Act::Record(number, _) => {
            lend(rt, registry, worker, held, act, *number, said)
        }
        _ => make(rt, registry, worker, held, parent, said),
    }
}

/// What a registry answers to a call of this worker; the handles that it gives are kept.
pub(crate) fn call<H: Ledger, C: Ledger, S: Setup, O: Outlet, R: Wait + Abort>(
    rt: &R,
    alloc: Global,
    registry: &PlainRegistry<H, C, S, O>,
    worker: &mut Worker<H, C, S>,
    held: &mut Vec<DroppableHandle<H, C, S>>,
    act: &Act,
) -> Answer {
    match act {
        Act::Close(number) => close(rt, registry, worker, held, *number),
        Act::Exit(number) => match Id::from_u64(*number) {
            Some(id) => closed(registry.exit(rt, worker, id)),
            None => Answer::Refused(Fault::Unknown),
        },
        Act::Count => {
            let out = HANDLE_PARTS.wrapping_sub(worker.spare());
            Answer::Counted(worker.accepted(), out)
        }
        Act::Find(_) | Act::Ask(_) | Act::Step => Answer::NoCall,
        _ => {
            let said = said_by(rt, alloc, act);
            pass(rt, registry, worker, held, act, &said)
        }
    }
}

// What is open, what is held at all, what holds one span, who is inside it, and what is told of all spans.
fn push_asked<H: Ledger, C: Ledger, S: Setup, O: Outlet, R: Wait + Abort>(
    rt: &R,
    registry: &PlainRegistry<H, C, S, O>,
    worker: &mut Worker<H, C, S>,
    id: Id,
    answers: &mut String,
) {
    push_shown(rt, answers, &registry.open_spans(rt, worker));
    push_shown(rt, answers, &registry.held_spans(rt, worker));
    push_shown(rt, answers, &registry.holders_of(rt, worker, id));
    push_shown(rt, answers, &registry.workers_inside(rt, worker, id));
    push_shown(rt, answers, &registry.span_details(rt, worker));
}

// A call, a look or a step of the drain.
fn note_act<H: Ledger, C: Ledger, S: Setup, R: Wait + Abort>(
    rt: &R,
    alloc: Global,
    registry: &PlainRegistry<H, C, S, Ring>,
    drain: &mut PlainDrain,
    worker: &mut Worker<H, C, S>,
    held: &mut Vec<DroppableHandle<H, C, S>>,
    act: &Act,
    answers: &mut String,
)
    ensures name { drain.new.name ≡ drain.old.name }
{
    match act {
        Act::Step => push_answer(rt, answers, &Answer::Stepped(drain.step())),
        Act::Find(number) => {
            let id = Id::from_u64(*number).expect(rt, "an id");
            push_shown(rt, answers, &registry.find(rt, alloc, worker, id));
        }
        Act::Ask(number) => {
            let id = Id::from_u64(*number).expect(rt, "an id");
            push_asked(rt, registry, worker, id, answers);
        }
        _ => {
            let answer = call(rt, alloc, registry, worker, held, act);
            push_answer(rt, answers, &answer);
        }
    }
}

/// All calls, each made by the worker beside it, and the steps of the drain. At the end the first worker sees what the
/// drain has taken, which changes nothing else. The handles that are left are kept.
pub(crate) fn calls<H: Ledger, C: Ledger, S: Setup, R: Wait + Abort>(
    rt: &R,
    alloc: Global,
    registry: &PlainRegistry<H, C, S, Ring>,
    drain: &mut PlainDrain,
    workers: &mut [Worker<H, C, S>],
    held: &mut Vec<DroppableHandle<H, C, S>>,
    acts: &[(u32, Act)],
    answers: &mut String,
)
    requires pair { Some drain.old.name ≡ S.ring }
    ensures name { drain.new.name ≡ drain.old.name }
{
    for (number, act) in acts {
        let worker = workers
            .get_mut(*number as usize)
            .expect(rt, "no such worker");
        note_act(rt, alloc, registry, drain, worker, held, act, answers);
    }
    let first = workers.first_mut().expect(rt, "a worker");
    registry.drained(rt, first, drain);
}
