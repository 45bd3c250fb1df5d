//! Why the program ends early.
ghost use Rattle.std.specs.Prelude.{◌≡◌};
ghost use Rattle.tracerun.specs.Failure.{failure_status};

use span_replay::ReplayFault;
use span_run::{FAILED_STATUS, WriteFailed};
use span_storm::StormFault;
use thiserror::Error;

/// Why the program ends early: its text is what it tells on standard error.
#[derive(Debug, Drop, Error)]
pub enum Failure {
    /// Memory was refused outside a run.
    #[error("out of memory")]
    Memory,
    #[error("{0}")]
    Replay(ReplayFault),
    #[error("{0}")]
    Storm(StormFault),
    /// The numbers of a storm couldn't be written.
    #[error("{0}")]
    Write(WriteFailed),
}

impl Failure {
    /// The status with which the program ends.
    pub fn status(&self) -> u8
        ensures { result ≡ failure_status self.now }
    {
        match self {
            Failure::Memory => FAILED_STATUS,
            Failure::Replay(fault) => fault.status(),
            Failure::Storm(fault) => fault.status(),
            Failure::Write(failed) => failed.status(),
        }
    }
}

impl From<ReplayFault> for Failure {
    fn from(fault: ReplayFault) -> Failure {
        Failure::Replay(fault)
    }
}

impl From<StormFault> for Failure {
    fn from(fault: StormFault) -> Failure {
        Failure::Storm(fault)
    }
}

impl From<WriteFailed> for Failure {
    fn from(failed: WriteFailed) -> Failure {
        Failure::Write(failed)
    }
}
