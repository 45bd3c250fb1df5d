//! A worker with what it holds, and the calls that it makes.
ghost use Rattle.std.specs.Prelude.{◌≡◌, ◌+◌, vec_len, IfOk, OnOk};
ghost use Rattle.call_loops.specs.Back.{HasParts};

use crate::ended::Tally;
use crate::soak::act::{Act, MOST_HANDLES, MOST_INSIDE, choose};
use crate::soak::dice::Dice;
use crate::soak::returned::Returned;
use crate::texts::Texts;
use span_id::{Fault, Id};
use span_registry::{DroppableHandle, ParentOf, RefusedClose, Registry, Ring, Setup, Worker};
use std::alloc::Global;
use std::sync::Wait;
use std::sync::ledger::Ledger;
use std::thread;

/// A worker, its handles, the spans that it is inside, and what its calls were.
#[derive(Drop)]
pub struct Caller<H: Ledger, C: Ledger, S: Setup> {
    worker: Worker<H, C, S>,
    hands: Vec<DroppableHandle<H, C, S>>,
    inside: Vec<Id>,
    tally: Tally,
}

/// What a worker does: its random calls, and then it gives all back and leaves.
pub fn work<H: Ledger, C: Ledger, S: Setup, R: Wait>(
    rt: &R,
    registry: &Registry<H, C, S, Ring>,
    texts: &Texts,
    worker: Worker<H, C, S>,
    rounds: u64,
    seed: u64,
) -> Result<Returned<H, C, S>, Fault>
    ensures { IfOk result (λ returned. HasParts worker.spare returned.share) }
{
    let mut dice = Dice::new(seed, worker.number());
    let mut caller = Caller::new(*texts.fields.allocator(), worker)?;
    caller.make_random(rt, registry, texts, rounds, &mut dice)?;
    caller.leave(rt, registry, texts)
}

impl<H: Ledger, C: Ledger, S: Setup> Caller<H, C, S> {
    // Holds nothing, and has room for as much as it may hold.
    fn new(alloc: Global, worker: Worker<H, C, S>) -> Result<Caller<H, C, S>, Fault>
        ensures worker { IfOk result (λ caller. caller.worker ≡ worker) }
        ensures hands { IfOk result (λ caller. vec_len caller.hands ≡ 0) }
    {
        let hands = Vec::with_capacity(alloc, MOST_HANDLES)?;
        let inside = Vec::with_capacity(alloc, MOST_INSIDE)?;
        Ok(Caller {
            worker,
            hands,
            inside,
            tally: Tally::default(),
        })
    }

    // Makes so many random calls.
    fn make_random<R: Wait>(
        &mut self,
        rt: &R,
        registry: &Registry<H, C, S, Ring>,
        texts: &Texts,
        rounds: u64,
        dice: &mut Dice,
    ) -> Result<(), Fault>
        ensures parts { self.new.worker.spare + vec_len self.new.hands
            ≡ self.old.worker.spare + vec_len self.old.hands }
    {
        for _ in 0..rounds {
            let act = choose(dice, self.hands.len(), self.inside.len());
            self.make(rt, registry, texts, act)?;
        }
        Ok(())
    }

    // Gives all back, and leaves.
    fn leave<R: Wait>(
        self,
        rt: &R,
        registry: &Registry<H, C, S, Ring>,
        texts: &Texts,
    ) -> Result<Returned<H, C, S>, Fault>
        ensures { IfOk result (λ returned. HasParts (self.worker.spare + vec_len self.hands) returned.share) }
    {
        let mut caller = self;
        caller.give_back(rt, registry, texts)?;
        let Caller { worker, tally, .. } = caller;
        Ok(Returned {
            share: worker.leave(),
            tally,
        })
    }

    // Leaves each span that it is inside, and closes each handle.
    fn give_back<R: Wait>(
        &mut self,
        rt: &R,
        registry: &Registry<H, C, S, Ring>,
        texts: &Texts,
    ) -> Result<(), Fault>
        ensures parts { self.new.worker.spare + vec_len self.new.hands
            ≡ self.old.worker.spare + vec_len self.old.hands }
        ensures hands { OnOk result (vec_len self.new.hands ≡ 0) }
    {
        for _ in rt.forever() {
            let act = if !self.inside.is_empty() {
                Act::Exit(0)
            } else if !self.hands.is_empty() {
                Act::Close(0)
            } else {
                break;
            };
            self.make(rt, registry, texts, act)?;
        }
        Ok(())
    }

    // Makes a call until it isn't refused for want of a place.
    fn make<R: Wait>(
        &mut self,
        rt: &R,
        registry: &Registry<H, C, S, Ring>,
        texts: &Texts,
        act: Act,
    ) -> Result<(), Fault>
        ensures parts { self.new.worker.spare + vec_len self.new.hands
            ≡ self.old.worker.spare + vec_len self.old.hands }
    {
        for _ in rt.forever() {
            match self.call(rt, registry, texts, act) {
                Err(Fault::Backlog) => {
                    self.tally.backlogs = self.tally.backlogs.saturating_add(1);
                    thread::yield_now();
                }
                ended => {
                    self.tally.notes = self.tally.notes.saturating_add(act.notes());
                    return ended;
                }
            }
        }
        unreachable!()
    }

    // Makes a call once.
    fn call<R: Wait>(
        &mut self,
        rt: &R,
        registry: &Registry<H, C, S, Ring>,
        texts: &Texts,
        act: Act,
    ) -> Result<(), Fault>
        ensures parts { self.new.worker.spare + vec_len self.new.hands
            ≡ self.old.worker.spare + vec_len self.old.hands }
    {
        match act {
            Act::NewRoot => self.new_span(rt, registry, texts, ParentOf::Root),
            Act::NewCurrent => self.new_span(rt, registry, texts, ParentOf::Current),
            Act::NewUnder(place) => self.new_under(rt, registry, texts, place),
            Act::Clone(place) => self.clone_span(rt, registry, place),
            Act::Enter(place) => self.enter(rt, registry, place),
            Act::Exit(place) => self.exit(rt, registry, place),
            Act::Record(place) => self.record(rt, registry, texts, place),
            Act::Event => registry.event(
                rt,
                &mut self.worker,
                &texts.meta,
                "a message",
                texts.fields.as_slice(),
            ),
            Act::Close(place) => self.try_close(rt, registry, place),
        }
    }

    // A new span, whose handle is kept.
    fn new_span<R: Wait>(
        &mut self,
        rt: &R,
        registry: &Registry<H, C, S, Ring>,
        texts: &Texts,
        parent: ParentOf,
    ) -> Result<(), Fault>
        ensures parts { self.new.worker.spare + vec_len self.new.hands
            ≡ self.old.worker.spare + vec_len self.old.hands }
    {
        self.hands.reserve(1)?;
        let made = registry.new_span(
            rt,
            &mut self.worker,
            &texts.meta,
            texts.fields.as_slice(),
            parent,
        )?;
        if let Some(handle) = made {
            self.hands.push_reserved(DroppableHandle { handle });
        }
        Ok(())
    }

    // The same under the span of a handle.
    fn new_under<R: Wait>(
        &mut self,
        rt: &R,
        registry: &Registry<H, C, S, Ring>,
        texts: &Texts,
        place: usize,
    ) -> Result<(), Fault>
        ensures parts { self.new.worker.spare + vec_len self.new.hands
            ≡ self.old.worker.spare + vec_len self.old.hands }
    {
        let Some(held) = self.hands.get(place) else {
            return Err(Fault::Unknown);
        };
        let parent = held.handle.id();
        self.new_span(rt, registry, texts, ParentOf::Of(parent))
    }

    // One more handle, which is kept.
    fn clone_span<R: Wait>(
        &mut self,
        rt: &R,
        registry: &Registry<H, C, S, Ring>,
        place: usize,
    ) -> Result<(), Fault>
        ensures parts { self.new.worker.spare + vec_len self.new.hands
            ≡ self.old.worker.spare + vec_len self.old.hands }
    {
        self.hands.reserve(1)?;
        let Some(held) = self.hands.get_mut(place) else {
            return Err(Fault::Unknown);
        };
        let handle = registry.clone_span(rt, &mut self.worker, &mut held.handle)?;
        self.hands.push_reserved(DroppableHandle { handle });
        Ok(())
    }

    // The span that is entered is written down.
    fn enter<R: Wait>(
        &mut self,
        rt: &R,
        registry: &Registry<H, C, S, Ring>,
        place: usize,
    ) -> Result<(), Fault>
        ensures parts { self.new.worker.spare + vec_len self.new.hands
            ≡ self.old.worker.spare + vec_len self.old.hands }
    {
        self.inside.reserve(1)?;
        let Some(held) = self.hands.get_mut(place) else {
            return Err(Fault::Unknown);
        };
        registry.enter(rt, &mut self.worker, &mut held.handle)?;
        self.inside.push_reserved(held.handle.id());
        Ok(())
    }

    fn exit<R: Wait>(
        &mut self,
        rt: &R,
        registry: &Registry<H, C, S, Ring>,
        place: usize,
    ) -> Result<(), Fault>
        ensures parts { self.new.worker.spare + vec_len self.new.hands
            ≡ self.old.worker.spare + vec_len self.old.hands }
    {
        let Some(id) = self.inside.get(place).copied() else {
            return Err(Fault::NotEntered);
        };
        registry.exit(rt, &mut self.worker, id)?;
        self.inside.swap_remove(place);
        Ok(())
    }

    fn record<R: Wait>(
        &mut self,
        rt: &R,
        registry: &Registry<H, C, S, Ring>,
        texts: &Texts,
        place: usize,
    ) -> Result<(), Fault>
        ensures parts { self.new.worker.spare + vec_len self.new.hands
            ≡ self.old.worker.spare + vec_len self.old.hands }
    {
        let Some(held) = self.hands.get_mut(place) else {
            return Err(Fault::Unknown);
        };
        registry.record(
            rt,
            &mut self.worker,
            &mut held.handle,
            texts.fields.as_slice(),
        )
    }

    // Gives a handle back. Where that is refused, the handle that comes back is kept.
    fn try_close<R: Wait>(
        &mut self,
        rt: &R,
        registry: &Registry<H, C, S, Ring>,
        place: usize,
    ) -> Result<(), Fault>
        ensures parts { self.new.worker.spare + vec_len self.new.hands
            ≡ self.old.worker.spare + vec_len self.old.hands }
    {
        if place >= self.hands.len() {
            return Err(Fault::Unknown);
        }
        let held = self.hands.swap_remove(place);
        match registry.try_close(rt, &mut self.worker, held.into_handle()) {
            Ok(_closed) => Ok(()),
            Err(RefusedClose { handle, fault }) => {
                self.hands.push_reserved(DroppableHandle { handle });
                Err(fault)
            }
        }
    }
}
