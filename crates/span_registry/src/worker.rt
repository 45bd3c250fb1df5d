//! Workers.
ghost use Rattle.std.specs.Prelude.{◌≡◌, ◌<◌, ◌≤◌, [], ◌∷◌, length};
ghost use Rattle.span_history.specs.Own.{own};
ghost use Rattle.span_registry.specs.Worker.{WorkerView, front_of};
ghost use Rattle.span_registry.specs.Share.{ShareView};

use crate::setup::Setup;
use crate::share::Share;
use span_history::{Front, Place};
use std::marker::Model;
use std::sync::ledger;
use std::sync::ledger::Ledger;

/// Who makes calls on a registry: one for each thread. `Registry::new` makes them all.
///
/// To a contract it is its number, how many calls were accepted of it, and how many more handles it may make: its free
/// parts of the ledger of handles, of which a registry has 2^64 - 1. A new handle takes one, and a handle that is given
/// back brings one to the worker that closes it. And it is what the worker has seen of the registry's one history.
#[derive(Drop)]
pub struct Worker<H: Ledger, C: Ledger, S: Setup> {
    pub(crate) number: u32,
    pub(crate) accepted: u64,
    pub(crate) spare: u64,
    pub(crate) handles: ledger::Share<H>,
    pub(crate) calls: ledger::Share<C>,
    // What it has seen of the registry's one history.
    pub(crate) front: Front<S>,
    // Where that stands once the worker leaves.
    pub(crate) place: Place<S>,
}

impl<H: Ledger, C: Ledger, S: Setup> Model for Worker<H, C, S> {
    ghost use Rattle.std.specs.Prelude.{◌≡◌, ◌<◌, ◌≤◌, length};
    ghost use Rattle.span_history.specs.Own.{own};
    ghost use Rattle.span_core.specs.World.{World};
    ghost use Rattle.span_core.specs.History.{IsLegal};
    ghost use Rattle.span_registry.specs.Worker.{WorkerView};

    ghost Value = { WorkerView };

    ghost view = { λ w. record { number = w.number; accepted = w.accepted; spare = w.spare; seen = w.front.seen } };

    ghost invariant = { λ w. (w.handles.parts ≡ w.spare) × (w.handles.amount ≡ 0)
        × (w.calls.parts ≡ 1) × (w.calls.amount ≡ w.accepted) × (w.number < C.parts) × (C.parts ≤ 65536)
        × (w.front.number ≡ w.number) × (w.accepted ≡ length (own w.number w.front.seen))
        × ((world : World) × IsLegal S.rules S.limits.workers w.front.seen world) };
}

impl<H: Ledger, C: Ledger, S: Setup> Worker<H, C, S> {
    // A worker that has made no call, with these parts of the two ledgers.
    #[tactic(auto, using(crate::proofs::NoCalls::empty_legal))]
    pub(crate) fn new(
        number: u32,
        spare: u64,
        handles: ledger::Share<H>,
        calls: ledger::Share<C>,
        front: Front<S>,
        place: Place<S>,
    ) -> Worker<H, C, S>
        requires number { (number < C.parts) × (C.parts ≤ 65536) }
        requires handles { (handles.parts ≡ spare) × (handles.amount ≡ 0) }
        requires calls { (calls.parts ≡ 1) × (calls.amount ≡ 0) }
        requires front { front ≡ record { number = number; seen = [] } }
        ensures { result ≡ record { number = number; accepted = 0; spare = spare; seen = [] } }
    {
        Worker {
            number,
            accepted: 0,
            spare,
            handles,
            calls,
            front,
            place,
        }
    }

    /// The number of the worker, from 0. It is below the number of workers, which is that of the parts of the ledger of
    /// calls.
    pub fn number(&self) -> u32
        ensures value { result ≡ self.now.number }
        ensures below { result < C.parts }
    {
        self.number
    }

    /// How many calls were accepted of this worker: so many of what it has seen are its own.
    pub fn accepted(&self) -> u64
        ensures value { result ≡ self.now.accepted }
        ensures own { result ≡ length (own self.now.number self.now.seen) }
    {
        self.accepted
    }

    /// How many more handles the worker may make.
    pub fn spare(&self) -> u64
        ensures { result ≡ self.now.spare }
    {
        self.spare
    }

    /// Ends the worker: its share has its parts of both ledgers and no unit, and what it has seen of the history.
    pub fn leave(self) -> Share<H, C, S>
        ensures { result ≡ record {
          units = 0;
          accepted = self.accepted;
          handle_parts = self.spare;
          call_parts = 1;
          seen = front_of self ∷ [];
        } }
    {
        let Worker {
            number: _,
            accepted,
            spare: _,
            handles,
            calls,
            front,
            place,
        } = self;
        Share {
            units: 0,
            accepted,
            handles,
            calls,
            seen: place.filled(front),
        }
    }
}
