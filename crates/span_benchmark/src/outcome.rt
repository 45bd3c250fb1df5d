//! How a run ended.

use crate::digest::Digest;
use span_id::Fault;
use span_replay::ReplayFault;
use span_storm::StormFault;
use std::alloc::{AllocError, AllocFailed};
use std::fmt;

/// What came of a run: how much went in (bytes of scripts, or accepted calls), how much came out (bytes, or lines), and
/// the digest of what came out.
#[derive(Drop)]
pub struct Outcome {
    pub taken: u64,
    pub given: u64,
    pub digest: Digest,
}

impl Outcome {
    /// That of no run.
    pub fn new() -> Outcome {
        Outcome {
            taken: 0,
            given: 0,
            digest: Digest::new(),
        }
    }

    /// Counts what one part of a run took and gave.
    pub fn count(&mut self, taken: u64, given: u64) {
        self.taken = self.taken.saturating_add(taken);
        self.given = self.given.saturating_add(given);
    }
}

impl fmt::Display for Outcome {
    fn fmt<W: fmt::Write>(&self, f: &mut fmt::Formatter<W>) -> fmt::Result {
        let taken = self.taken;
        let given = self.given;
        let digest = self.digest.value();
        write!(f, "{taken} taken, {given} given, digest {digest:016x}")
    }
}

/// Why a run ended early.
#[derive(Debug, Drop)]
pub enum Stop {
    /// A replay did.
    Replay(ReplayFault),
    /// A storm did.
    Storm(StormFault),
    /// A call was refused, or memory was.
    Refused(Fault),
}

impl fmt::Display for Stop {
    fn fmt<W: fmt::Write>(&self, f: &mut fmt::Formatter<W>) -> fmt::Result {
        match self {
            Stop::Replay(fault) => write!(f, "{fault}"),
            Stop::Storm(fault) => write!(f, "{fault}"),
            Stop::Refused(fault) => write!(f, "{fault}"),
        }
    }
}

impl From<ReplayFault> for Stop {
    fn from(fault: ReplayFault) -> Stop {
        Stop::Replay(fault)
    }
}

impl From<StormFault> for Stop {
    fn from(fault: StormFault) -> Stop {
        Stop::Storm(fault)
    }
}

impl From<Fault> for Stop {
    fn from(fault: Fault) -> Stop {
        Stop::Refused(fault)
    }
}

impl From<AllocError> for Stop {
    fn from(_refused: AllocError) -> Stop {
        Stop::Refused(Fault::Memory)
    }
}

impl<T: Drop> From<AllocFailed<T>> for Stop {
    fn from(_refused: AllocFailed<T>) -> Stop {
        Stop::Refused(Fault::Memory)
    }
}
