//! What a drain has taken, beside what a worker has seen.
ghost use Rattle.std.specs.Prelude.{◌≡◌, Some};
ghost use mathlib.Core.List.{IsPrefix};
ghost use Rattle.span_registry.specs.Worker.{HasNoMore};
ghost use Rattle.span_registry.specs.Happened.{Happened};

use crate::locked::Locked;
use crate::setup::Setup;
use crate::under_lock::finds::look;
use crate::worker::Worker;
use span_outlet::{Drain, Ring};
use std::sync::ledger::Ledger;

/// The worker sees the history so far, and that what the drain of the registry's ring has taken is its beginning. It is
/// no call of the history.
pub fn drained<H: Ledger, C: Ledger, S: Setup, A, V>(
    locked: &mut Locked<H, C, S, Ring, A>,
    worker: &mut Worker<H, C, S>,
    drain: &mut Drain<V>,
)
    requires pair { Some drain.old.name ≡ S.ring }
    ensures taken { IsPrefix drain.old.taken worker.new.seen }
    ensures seen { IsPrefix worker.old.seen worker.new.seen }
    ensures own { HasNoMore worker.old worker.new }
    ensures happened { Happened S.limits S.rules worker.old worker.new (λ old new. new ≡ old) }
    ensures whole { worker.new.seen ≡ locked.old.sent }
    ensures worker { worker.new ≡ record worker.old { seen = worker.new.seen } }
    ensures drain { drain.new ≡ drain.old }
    ensures same { locked.new ≡ locked.old }
{
    locked.core.show(drain);
    look(locked, worker);
}
