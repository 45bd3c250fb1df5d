//! Who calls on a registry: its one worker, with the handles that it has.
ghost use Rattle.std.specs.Prelude.{◌≡◌, ◌+◌, ◌-◌, ◌^◌, vec_len, sum_by};
ghost use Rattle.refused_memory.specs.Units.{units_in};

use crate::answer::{Answer, done};
use crate::rows::acts::Question::{
    self, Find, HeldSpans, HoldersOf, OpenSpans, SpanDetails, WorkersInside,
};
use crate::rows::acts::{Act, Given, MESSAGE};
use crate::rows::hands::Hands;
use span_id::{Fault, Field, Id, Meta};
use span_layers::Admit;
use span_outlet::{Outlet, ParentOf};
use span_registry::{DroppableHandle, Handle, RefusedClose, Registry, Setup, Worker};
use std::alloc::Global;
use std::sync::Wait;
use std::sync::ledger::Ledger;

/// The one worker of a registry and its handles: all parts of the ledger of handles.
#[derive(Drop)]
pub(crate) struct Caller<H: Ledger, C: Ledger, S: Setup> {
    pub(crate) worker: Worker<H, C, S>,
    pub(crate) hands: Hands<H, C, S>,
    ghost whole: { worker.spare + units_in hands.first + units_in hands.second ≡ 2 ^ 64 - 1 },
}

/// A call with a handle that is lent.
#[derive(Clone, Copy)]
enum Lent<'a> {
    Enter,
    /// Writes these fields.
    Record(&'a [Field]),
}

impl<H: Ledger, C: Ledger, S: Setup> Caller<H, C, S> {
    /// Makes a call.
    pub(crate) fn call<O: Outlet, A: Admit, R: Wait>(
        &mut self,
        rt: &R,
        alloc: Global,
        registry: &Registry<H, C, S, O, A>,
        given: &Given,
        act: &Act,
    ) -> Result<Answer, Fault> {
        match act {
            Act::New(called, place) => self.new_span(
                rt,
                registry,
                given.meta(called),
                place.parent(),
            ),
            Act::Clone(named) => self.clone_span(rt, registry, named.id()),
            Act::Enter(named) => self.lend(rt, registry, named.id(), Lent::Enter),
            Act::Record(named) => {
                let fields = given.fields.as_slice();
                self.lend(rt, registry, named.id(), Lent::Record(fields))
            }
            Act::Close(named) => self.try_close(rt, registry, named.id()),
            _ => with_no_handle(rt, alloc, registry, &mut self.worker, given, act),
        }
    }

    // A new span, whose handle is kept.
    fn new_span<O: Outlet, A: Admit, R: Wait>(
        &mut self,
        rt: &R,
        registry: &Registry<H, C, S, O, A>,
        meta: &Meta,
        parent: ParentOf,
    ) -> Result<Answer, Fault> {
        if !self.hands.has_place() {
            return Err(Fault::Full);
        }
        match registry.new_span(rt, &mut self.worker, meta, &[], parent) {
            Ok(Some(handle)) => {
                let id = handle.id();
                self.hands.put(DroppableHandle { handle });
                Ok(Answer::Span(id))
            }
            Ok(None) => Ok(Answer::Nothing),
            Err(fault) => Err(fault),
        }
    }

    // One more handle, which is kept.
    fn clone_span<O: Outlet, A: Admit, R: Wait>(
        &mut self,
        rt: &R,
        registry: &Registry<H, C, S, O, A>,
        id: Id,
    ) -> Result<Answer, Fault> {
        if !self.hands.has_place() {
            return Err(Fault::Full);
        }
        let Some(mut lent) = self.hands.take(id) else {
            return Err(Fault::Unknown);
        };
        let cloned = registry.clone_span(rt, &mut self.worker, &mut lent.handle);
        self.hands.put(lent);
        match cloned {
            Ok(handle) => {
                self.hands.put(DroppableHandle { handle });
                Ok(Answer::Done)
            }
            Err(fault) => Err(fault),
        }
    }

    // A call with a handle that is lent.
    fn lend<O: Outlet, A: Admit, R: Wait>(
        &mut self,
        rt: &R,
        registry: &Registry<H, C, S, O, A>,
        id: Id,
        call: Lent<'_>,
    ) -> Result<Answer, Fault> {
        let Some(mut held) = self.hands.take(id) else {
            return Err(Fault::Unknown);
        };
        let answer = with_handle(rt, registry, &mut self.worker, &mut held.handle, call);
        self.hands.put(held);
        answer
    }

    // Gives a handle back. Where that is refused, the handle that comes back is kept.
    fn try_close<O: Outlet, A: Admit, R: Wait>(
        &mut self,
        rt: &R,
        registry: &Registry<H, C, S, O, A>,
        id: Id,
    ) -> Result<Answer, Fault> {
        let Some(held) = self.hands.take(id) else {
            return Err(Fault::Unknown);
        };
        match registry.try_close(rt, &mut self.worker, held.into_handle()) {
            Ok(closed) => Ok(Answer::Yes(closed)),
            Err(RefusedClose { handle, fault }) => {
                self.hands.put(DroppableHandle { handle });
                Err(fault)
            }
        }
    }
}

// A call with a handle.
fn with_handle<H: Ledger, C: Ledger, S: Setup, O: Outlet, A: Admit, R: Wait>(
    rt: &R,
    registry: &Registry<H, C, S, O, A>,
    worker: &mut Worker<H, C, S>,
    handle: &mut Handle<H, C, S>,
    call: Lent<'_>,
) -> Result<Answer, Fault>
    ensures { worker.new.spare ≡ worker.old.spare }
{
    match call {
        Lent::Enter => registry.enter(rt, worker, handle).map(Answer::Yes),
        Lent::Record(fields) => done(registry.record(rt, worker, handle, fields)),
    }
}

// A call with no handle: an exit, a question or an event.
fn with_no_handle<H: Ledger, C: Ledger, S: Setup, O: Outlet, A: Admit, R: Wait>(
    rt: &R,
    alloc: Global,
    registry: &Registry<H, C, S, O, A>,
    worker: &mut Worker<H, C, S>,
    given: &Given,
    act: &Act,
) -> Result<Answer, Fault>
    ensures { worker.new.spare ≡ worker.old.spare }
{
    let parent = match act {
        Act::Exit(named) => return registry.exit(rt, worker, named.id()).map(Answer::Yes),
        Act::Ask(question) => return ask(rt, alloc, registry, worker, question),
        Act::EventIn(named) => ParentOf::Of(named.id()),
        _ => ParentOf::Current,
    };
    let fields = given.fields_of(act);
    done(registry.event_in(rt, worker, &given.event, MESSAGE, fields, parent))
}

fn ask<H: Ledger, C: Ledger, S: Setup, O: Outlet, A: Admit, R: Wait>(
    rt: &R,
    alloc: Global,
    registry: &Registry<H, C, S, O, A>,
    worker: &mut Worker<H, C, S>,
    question: &Question,
) -> Result<Answer, Fault>
    ensures { worker.new.spare ≡ worker.old.spare }
{
    match question {
        Find(named) => match registry.find(rt, alloc, worker, named.id()) {
            Ok(Some(found)) => Ok(Answer::Found(found)),
            Ok(None) => Ok(Answer::Nothing),
            Err(fault) => Err(fault),
        },
        OpenSpans => registry.open_spans(rt, worker).map(Answer::Spans),
        HeldSpans => registry.held_spans(rt, worker).map(Answer::Holders),
        HoldersOf(named) => registry
            .holders_of(rt, worker, named.id())
            .map(Answer::Holders),
        WorkersInside(named) => {
            let inside = registry.workers_inside(rt, worker, named.id());
            inside.map(Answer::Workers)
        }
        SpanDetails => registry.span_details(rt, worker).map(Answer::Details),
    }
}

/// The one worker, with no handle.
#[tactic(auto, unfolding(crate::specs::Units::units_in))]
pub(crate) fn caller_of<H: Ledger, C: Ledger, S: Setup>(
    workers: Vec<Worker<H, C, S>>,
) -> Caller<H, C, S>
    requires one { vec_len workers ≡ 1 }
    requires whole { sum_by (λ worker. worker.spare) workers.items ≡ 2 ^ 64 - 1 }
{
    let mut workers = workers;
    let Some(worker) = workers.pop() else {
        unreachable!()
    };
    let hands = Hands {
        first: None,
        second: None,
    };
    Caller { worker, hands }
}
