//! Why a script's run ends early.
ghost use Rattle.std.specs.Prelude.{◌≡◌};
ghost use Rattle.span_replay.specs.ReplayFault.{status_of};
ghost use Rattle.span_replay.specs.inside.Ended.{fault_at};

use span_run::{FAILED_STATUS, SCRIPT_STATUS};
use span_script::{Reason, Stop};
use thiserror::Error;

/// Why a script's run ended early.
#[derive(Debug, Drop, Error)]
pub enum ReplayFault {
    /// The script is at fault in this line, counted from 1; 0 stands for the whole script.
    #[error("line {0}: {1}")]
    Script(u64, Reason),
    /// Memory was refused.
    #[error("out of memory")]
    Memory,
    /// The reader failed.
    #[error("device: read failed")]
    Read,
    /// The writer failed, or took no byte of a text.
    #[error("device: write failed")]
    Write,
}

impl ReplayFault {
    /// The status with which the program ends: 1 for a fault of the script, else 3.
    pub fn status(&self) -> u8
        ensures { result ≡ status_of self.now }
    {
        match self {
            ReplayFault::Script(_, _) => SCRIPT_STATUS,
            ReplayFault::Memory | ReplayFault::Read | ReplayFault::Write => FAILED_STATUS,
        }
    }
}

/// The fault with which a run ends where the line of this number has no answer.
pub fn at_line(number: u64, stop: Stop) -> ReplayFault
    ensures { result ≡ fault_at number stop }
{
    match stop {
        Stop::Memory => ReplayFault::Memory,
        Stop::Refused(reason) => ReplayFault::Script(number, reason),
    }
}
