//! A drain beside the calls.
ghost use Rattle.std.specs.Prelude.{◌≡◌, Some};
ghost use mathlib.Core.List.{IsPrefix};
ghost use Rattle.span_registry.specs.Worker.{HasNoMore};
ghost use Rattle.span_registry.specs.Happened.{Happened};

use crate::registry::Registry;
use crate::setup::Setup;
use crate::under_lock;
use crate::worker::Worker;
use span_outlet::{Drain, Ring};
use std::sync::Wait;
use std::sync::ledger::Ledger;

impl<H: Ledger, C: Ledger, S: Setup, A> Registry<H, C, S, Ring, A> {
    /// The worker sees the history so far, which is legal, and that what the drain has taken is its beginning. It takes the
    /// lock, and no place of the ring. The drain is that of this registry's ring; who has it needs a worker for this alone.
    pub fn drained<V, R: Wait>(&self, rt: &R, worker: &mut Worker<H, C, S>, drain: &mut Drain<V>)
        requires pair { Some drain.old.name ≡ S.ring }
        ensures taken { IsPrefix drain.old.taken worker.new.seen }
        ensures seen { IsPrefix worker.old.seen worker.new.seen }
        ensures own { HasNoMore worker.old worker.new }
        ensures happened { Happened S.limits S.rules worker.old worker.new (λ old new. new ≡ old) }
        ensures worker { worker.new ≡ record worker.old { seen = worker.new.seen } }
        ensures drain { drain.new ≡ drain.old }
    {
        under_lock::drained(&mut *self.locked.lock(rt), worker, drain)
    }
}
