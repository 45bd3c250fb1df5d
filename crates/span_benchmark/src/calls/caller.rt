//! A worker with the spans of its request, and its calls.

use crate::calls::metas::{Metas, fields, text};
use crate::dice::Dice;
use crate::held::Held;
use crate::texts::MESSAGES;
use span_id::Fault;
use span_registry::{ParentOf, RefusedClose, Registry, Ring, Setup, Worker};
use std::alloc::Global;
use std::sync::Wait;
use std::sync::ledger::Ledger;

/// How deep the spans of a request stand at most.
pub const DEEPEST: usize = 4;

/// A worker, and the spans that it is inside, root first.
#[derive(Drop)]
pub struct Caller<H: Ledger, C: Ledger, S: Setup> {
    pub alloc: Global,
    pub worker: Worker<H, C, S>,
    pub inside: Vec<Held<H, C, S>>,
    pub dice: Dice,
    pub metas: Metas,
}

impl<H: Ledger, C: Ledger, S: Setup> Caller<H, C, S> {
    /// Makes the next call inside a request: a span deeper inside, an event, a record, a clone, or the way up.
    pub fn turn<R: Wait>(
        &mut self,
        rt: &R,
        registry: &Registry<H, C, S, Ring>,
    ) -> Result<(), Fault> {
        let depth = self.inside.len();
        match self.dice.below(16) {
            0..=3 if depth < DEEPEST => self.open(rt, registry, false),
            0..=9 => self.event(rt, registry),
            10 => self.record(rt, registry),
            11 => self.clone_and_close(rt, registry),
            _ if depth > 1 => self.leave(rt, registry),
            _ => self.event(rt, registry),
        }
    }

    /// Makes a span, a root or under the current one, and enters it.
    pub fn open<R: Wait>(
        &mut self,
        rt: &R,
        registry: &Registry<H, C, S, Ring>,
        is_root: bool,
    ) -> Result<(), Fault> {
        let number = self.dice.below(4);
        let fields = fields(self.alloc, &mut self.dice, number)?;
        let meta = self.metas.pick(&mut self.dice, is_root)?;
        let parent = if is_root {
            ParentOf::Root
        } else {
            ParentOf::Current
        };
        let made = registry.new_span(rt, &mut self.worker, meta, fields.as_slice(), parent)?;
        if let Some(handle) = made {
            let mut held = Held { handle };
            registry.enter(rt, &mut self.worker, &mut held.handle)?;
            self.inside.push(held)?;
        }
        Ok(())
    }

    /// Leaves the current span and closes it.
    pub fn leave<R: Wait>(
        &mut self,
        rt: &R,
        registry: &Registry<H, C, S, Ring>,
    ) -> Result<(), Fault> {
        let Some(held) = self.inside.pop() else {
            return Ok(());
        };
        registry.exit(rt, &mut self.worker, held.handle.id())?;
        self.close(rt, registry, held)
    }

    fn event<R: Wait>(&mut self, rt: &R, registry: &Registry<H, C, S, Ring>) -> Result<(), Fault> {
        let message = text(self.alloc, &mut self.dice, &MESSAGES)?;
        let number = self.dice.below(3);
        let fields = fields(self.alloc, &mut self.dice, number)?;
        let meta = self.metas.pick(&mut self.dice, false)?;
        registry.event(
            rt,
            &mut self.worker,
            meta,
            message.as_str(),
            fields.as_slice(),
        )
    }

    fn record<R: Wait>(&mut self, rt: &R, registry: &Registry<H, C, S, Ring>) -> Result<(), Fault> {
        let fields = fields(self.alloc, &mut self.dice, 1)?;
        let Some(held) = self.inside.last_mut() else {
            return Ok(());
        };
        registry.record(rt, &mut self.worker, &mut held.handle, fields.as_slice())
    }

    // One more handle of the current span, which is given back at once.
    fn clone_and_close<R: Wait>(
        &mut self,
        rt: &R,
        registry: &Registry<H, C, S, Ring>,
    ) -> Result<(), Fault> {
        let Some(held) = self.inside.last_mut() else {
            return Ok(());
        };
        let handle = registry.clone_span(rt, &mut self.worker, &mut held.handle)?;
        self.close(rt, registry, Held { handle })
    }

    fn close<R: Wait>(
        &mut self,
        rt: &R,
        registry: &Registry<H, C, S, Ring>,
        held: Held<H, C, S>,
    ) -> Result<(), Fault> {
        match registry.try_close(rt, &mut self.worker, held.into_handle()) {
            Ok(_closed) => Ok(()),
            Err(RefusedClose { handle, fault }) => {
                drop(handle.into_share());
                Err(fault)
            }
        }
    }
}
