//! The drain's thread.
ghost use Rattle.std.specs.Prelude.{◌≡◌, IfOk, IfErr, IfSome};
ghost use Rattle.span_storm.specs.inside.Back.{DrainingView, IsDrainsStop, IsSameDrain};

use crate::fault::StormFault;
use crate::gate::Gate;
use span_layers::Say;
use span_registry::Drain;
use std::marker::Model;
use std::snapshot::Snapshot;
use std::sync::Wait;
use std::sync::atomic::{AtomicBool, Ordering};
use std::thread;
use std::thread::{Promise, PromisedHandle, Scope, Threads};

/// The drain that comes back is that of the same ring; if it was held, then as the party of this number.
#[derive(Drop)]
pub(crate) struct BackAgain<V, G> {
    drain: Snapshot<Drain<V>>,
    gate: Snapshot<G>,
    party: u32,
}

impl<V, G: Gate> Promise<Result<Drain<V>, StormFault>> for BackAgain<V, G> {
    ghost use Rattle.std.specs.Prelude.{IfOk, IfErr};
    ghost use Rattle.span_storm.specs.inside.Back.{IsDrainsStop, IsSameDrain};

    ghost kept_by = { λ back result. IfOk result (λ drain. IsSameDrain back.drain.value drain)
        × IfErr result (IsDrainsStop (G.holds back.gate.value) back.party) };
}

/// The drain in its thread, if one could be made.
#[derive(Drop)]
pub(crate) struct Draining<V, G: Gate> {
    drain: Snapshot<Drain<V>>,
    gate: Snapshot<G>,
    party: u32,
    running: Option<PromisedHandle<Result<Drain<V>, StormFault>, BackAgain<V, G>>>,
}

impl<V, G: Gate> Model for Draining<V, G> {
    ghost use Rattle.std.specs.Prelude.{◌≡◌, IfSome};
    ghost use Rattle.span_storm.specs.inside.Back.{DrainingView};

    ghost Value = { DrainingView G };

    ghost view = { λ draining.
        record { drain = draining.drain.value; gate = draining.gate.value; party = draining.party } };

    ghost invariant = { λ draining. IfSome draining.running (λ handle.
        (handle.promise.drain.value ≡ draining.drain.value) × (handle.promise.gate.value ≡ draining.gate.value)
        × (handle.promise.party ≡ draining.party)) };
}

impl<V: Drop, G: Gate> Draining<V, G> {
    /// The drain, once its thread has ended.
    pub(crate) fn join<R: Threads>(self, rt: &R) -> Result<Drain<V>, StormFault>
        ensures back { IfOk result (λ drain. IsSameDrain self.drain drain) }
        ensures stopped { IfErr result (IsDrainsStop (G.holds self.gate) self.party) }
    {
        let Draining {
            drain: _,
            gate: _,
            party: _,
            running,
        } = self;
        match running {
            Some(handle) => handle.join(rt),
            None => Err(StormFault::Memory),
        }
    }
}

/// Starts the thread of the drain, as the party of this number. It steps until all workers have come back.
pub(crate) fn start_drain<
    's,
    E: 's,
    V: Say + Drop + Send + 's,
    G: Gate + Sync + 's,
    R: Wait + Sync,
>(
    rt: &'s R,
    scope: &Scope<'s, E>,
    gate: &'s G,
    party: u32,
    drain: Drain<V>,
    all_back: &'s AtomicBool,
) -> Draining<V, G>
    ensures { result ≡ record { drain = drain; gate = gate.now; party = party } }
{
    let went = Snapshot::of(&drain);
    let promise = BackAgain {
        drain: Snapshot::of(&drain),
        gate: Snapshot::of(gate),
        party,
    };
    let started = scope.spawn_with(
        promise,
        move || -> Result<Drain<V>, StormFault>
            ensures back { IfOk result (λ back. IsSameDrain drain back) }
            ensures stopped { IfErr result (IsDrainsStop (G.holds gate.entry.now) party) }
        { step_beside(rt, gate, party, drain, all_back) },
    );
    Draining {
        drain: went,
        gate: Snapshot::of(gate),
        party,
        running: started.ok(),
    }
}

// Lets the drain step, if it isn't held.
fn step_beside<V: Say, G: Gate, R: Wait>(
    rt: &R,
    gate: &G,
    party: u32,
    drain: Drain<V>,
    all_back: &AtomicBool,
) -> Result<Drain<V>, StormFault>
    ensures back { IfOk result (λ back. IsSameDrain drain back) }
    ensures stopped { IfErr result (IsDrainsStop (G.holds gate.now) party) }
{
    if gate.before(party, 1) {
        let mut drain = drain;
        step_until(rt, &mut drain, all_back);
        Ok(drain)
    } else {
        Err(StormFault::Held(party))
    }
}

// Steps until all workers have come back.
fn step_until<V: Say, R: Wait>(rt: &R, drain: &mut Drain<V>, all_back: &AtomicBool)
    ensures { IsSameDrain drain.old drain.new }
{
    for _ in rt.forever() {
        if drain.step().is_none() {
            if all_back.load(Ordering::SeqCst) {
                return;
            }
            thread::yield_now();
        }
    }
    unreachable!()
}
