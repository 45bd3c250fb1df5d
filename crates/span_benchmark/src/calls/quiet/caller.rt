//! A worker most of whose calls are told to nobody.

use crate::calls::quiet::metas::Metas;
use crate::calls::quiet::reused::{MOST_FIELDS, Reused};
use crate::dice::Dice;
use crate::held::Held;
use span_id::Fault;
use span_registry::{ParentOf, RefusedClose, Registry, Ring, Setup, Worker};
use std::alloc::Global;
use std::sync::Wait;
use std::sync::ledger::Ledger;

// How deep the spans of a request stand at most.
const DEEPEST: u32 = 8;

// How many calls a request has at least, and at most.
const LEAST_CALLS: u32 = 10;

const MOST_CALLS: u32 = 60;

// The calls of a span that a layer wants: it is made, entered, left and closed.
const OF_SPAN: u32 = 4;

/// A worker, and the program's spans that it is inside, of which layers want few.
#[derive(Drop)]
pub struct Caller<H: Ledger, C: Ledger, S: Setup> {
    worker: Worker<H, C, S>,
    // Those that a layer wants, root first.
    inside: Vec<Held<H, C, S>>,
    // Whether a layer wants the span, for each that the program is inside, root first.
    nest: Vec<bool>,
    dice: Dice,
    metas: Metas,
    reused: Reused,
    // How many more calls the request may make. Its way out is taken off before.
    left: u32,
}

impl<H: Ledger, C: Ledger, S: Setup> Caller<H, C, S> {
    /// One that is inside no span.
    pub fn new(
        alloc: Global,
        worker: Worker<H, C, S>,
        seed: u32,
    ) -> Result<Caller<H, C, S>, Fault> {
        let mut dice = Dice::new(seed, 40);
        let metas = Metas::new(alloc, &mut dice)?;
        let reused = Reused::new(alloc, &mut dice)?;
        Ok(Caller {
            worker,
            inside: Vec::with_capacity(alloc, DEEPEST as usize)?,
            nest: Vec::with_capacity(alloc, DEEPEST as usize)?,
            dice,
            metas,
            reused,
            left: 0,
        })
    }

    /// How many calls were accepted so far.
    pub fn accepted(&self) -> u64 {
        self.worker.accepted()
    }

    /// Makes the calls of a request, which are fewer than the ring has places: a root, turns inside it while calls are
    /// left, and the way out.
    pub fn request<R: Wait>(
        &mut self,
        rt: &R,
        registry: &Registry<H, C, S, Ring>,
    ) -> Result<(), Fault> {
        let deepest = self.dice.below(DEEPEST - 1).saturating_add(2) as usize;
        let least = LEAST_CALLS + OF_SPAN - 1;
        self.left = self
            .dice
            .below(MOST_CALLS - least + 1)
            .saturating_add(least);
        self.open(rt, registry, true)?;
        for _ in 0..MOST_CALLS {
            if self.left < OF_SPAN {
                break;
            }
            self.turn(rt, registry, deepest)?;
        }
        for _ in 0..DEEPEST {
            self.leave(rt, registry)?;
        }
        Ok(())
    }

    // Makes the next call: a span deeper inside, a record, a clone, the way up, or most often an event.
    fn turn<R: Wait>(
        &mut self,
        rt: &R,
        registry: &Registry<H, C, S, Ring>,
        deepest: usize,
    ) -> Result<(), Fault> {
        let depth = self.nest.len();
        match self.dice.below(16) {
            0..=3 if depth < deepest => self.open(rt, registry, false),
            4 => self.record(rt, registry),
            5 => self.clone_and_close(rt, registry),
            6 | 7 if depth > 1 => self.leave(rt, registry),
            _ => self.event(rt, registry),
        }
    }

    // The program goes into a span, a root or under the current one. It makes one call where no layer wants it.
    fn open<R: Wait>(
        &mut self,
        rt: &R,
        registry: &Registry<H, C, S, Ring>,
        is_root: bool,
    ) -> Result<(), Fault> {
        self.pick_fields(MOST_FIELDS)?;
        let is_wanted = self.make(rt, registry, is_root)?;
        self.nest.push(is_wanted)?;
        self.spend(if is_wanted { OF_SPAN } else { 1 });
        Ok(())
    }

    // Makes a span with the picked fields and enters it. False where no layer wants it.
    fn make<R: Wait>(
        &mut self,
        rt: &R,
        registry: &Registry<H, C, S, Ring>,
        is_root: bool,
    ) -> Result<bool, Fault> {
        let meta = self.metas.pick(&mut self.dice, is_root)?;
        let parent = if is_root {
            ParentOf::Root
        } else {
            ParentOf::Current
        };
        let fields = self.reused.fields();
        let made = registry.new_span(rt, &mut self.worker, meta, fields, parent)?;
        let Some(handle) = made else {
            return Ok(false);
        };
        let mut held = Held { handle };
        registry.enter(rt, &mut self.worker, &mut held.handle)?;
        self.inside.push(held)?;
        Ok(true)
    }

    // The program leaves a span, which makes calls where a layer wanted it.
    fn leave<R: Wait>(&mut self, rt: &R, registry: &Registry<H, C, S, Ring>) -> Result<(), Fault> {
        match self.nest.pop() {
            Some(true) => self.exit(rt, registry),
            _ => Ok(()),
        }
    }

    // Leaves the current span and closes it.
    fn exit<R: Wait>(&mut self, rt: &R, registry: &Registry<H, C, S, Ring>) -> Result<(), Fault> {
        let Some(held) = self.inside.pop() else {
            return Ok(());
        };
        registry.exit(rt, &mut self.worker, held.handle.id())?;
        self.close(rt, registry, held)
    }

    fn event<R: Wait>(&mut self, rt: &R, registry: &Registry<H, C, S, Ring>) -> Result<(), Fault> {
        self.reused.write_message(&mut self.dice)?;
        self.pick_fields(MOST_FIELDS)?;
        self.spend(1);
        let meta = self.metas.pick(&mut self.dice, false)?;
        let message = self.reused.message();
        registry.event(rt, &mut self.worker, meta, message, self.reused.fields())
    }

    fn record<R: Wait>(&mut self, rt: &R, registry: &Registry<H, C, S, Ring>) -> Result<(), Fault> {
        self.reused.pick_fields(&mut self.dice, 1)?;
        self.spend(1);
        let Some(held) = self.inside.last_mut() else {
            return Ok(());
        };
        let fields = self.reused.fields();
        registry.record(rt, &mut self.worker, &mut held.handle, fields)
    }

    // One more handle of the current span, which is given back at once.
    fn clone_and_close<R: Wait>(
        &mut self,
        rt: &R,
        registry: &Registry<H, C, S, Ring>,
    ) -> Result<(), Fault> {
        self.spend(2);
        let Some(held) = self.inside.last_mut() else {
            return Ok(());
        };
        let handle = registry.clone_span(rt, &mut self.worker, &mut held.handle)?;
        self.close(rt, registry, Held { handle })
    }

    fn close<R: Wait>(
        &mut self,
        rt: &R,
        registry: &Registry<H, C, S, Ring>,
        held: Held<H, C, S>,
    ) -> Result<(), Fault> {
        match registry.try_close(rt, &mut self.worker, held.into_handle()) {
            Ok(_closed) => Ok(()),
            Err(RefusedClose { handle, fault }) => {
                drop(handle.into_share());
                Err(fault)
            }
        }
    }

    // Picks at most so many fields.
    fn pick_fields(&mut self, most: u32) -> Result<(), Fault> {
        let number = self.dice.below(most.saturating_add(1));
        self.reused.pick_fields(&mut self.dice, number)?;
        Ok(())
    }

    fn spend(&mut self, calls: u32) {
        self.left = self.left.saturating_sub(calls);
    }
}
