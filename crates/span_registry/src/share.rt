//! Shares.
ghost use Rattle.std.specs.Prelude.{◌≡◌, ◌+◌, ◌^◌, ◌<◌, ◌≤◌, length};
ghost use Rattle.span_registry.specs.Share.{ShareView, joined};

use crate::setup::Setup;
use span_history::Fronts;
use std::marker::Model;
use std::sync::ledger;
use std::sync::ledger::Ledger;

/// What is left of workers and handles that are done: parts of the registry's two ledgers, with the handles that were
/// given up unclosed and the calls that were accepted, and what each of the workers had seen. All of them joined are the
/// whole share.
#[derive(Drop)]
pub struct Share<H: Ledger, C: Ledger, S: Setup> {
    pub(crate) units: u64,
    pub(crate) accepted: u64,
    pub(crate) handles: ledger::Share<H>,
    pub(crate) calls: ledger::Share<C>,
    pub(crate) seen: Fronts<S>,
}

impl<H: Ledger, C: Ledger, S: Setup> Model for Share<H, C, S> {
    ghost use Rattle.std.specs.Prelude.{◌≡◌, ◌<◌, ◌≤◌, length};
    ghost use Rattle.span_registry.specs.Share.{ShareView};

    ghost Value = { ShareView };

    ghost view = { λ s. record {
      units = s.units;
      accepted = s.accepted;
      handle_parts = s.handles.parts;
      call_parts = s.calls.parts;
      seen = s.seen;
    } };

    ghost invariant = { λ s. (s.handles.amount ≡ s.units) × (s.calls.amount ≡ s.accepted)
        × (length s.seen ≡ s.calls.parts) × (0 < s.calls.parts → C.parts ≤ 65536) };
}

impl<H: Ledger, C: Ledger, S: Setup> Share<H, C, S> {
    /// How many handles were given up.
    pub fn units(&self) -> u64
        ensures { result ≡ self.now.units }
    {
        self.units
    }

    /// How many calls were accepted.
    pub fn accepted(&self) -> u64
        ensures { result ≡ self.now.accepted }
    {
        self.accepted
    }

    /// Both shares together. Both sums have to fit.
    pub fn join(self, other: Share<H, C, S>) -> Share<H, C, S>
        requires units { self.units + other.units < 2 ^ 64 }
        requires accepted { self.accepted + other.accepted < 2 ^ 64 }
        ensures { result ≡ joined self other }
    {
        let Share {
            units,
            accepted,
            mut handles,
            mut calls,
            seen,
        } = self;
        handles.merge(other.handles);
        calls.merge(other.calls);
        Share {
            units: units + other.units,
            accepted: accepted + other.accepted,
            handles,
            calls,
            seen: seen.join(other.seen),
        }
    }
}
