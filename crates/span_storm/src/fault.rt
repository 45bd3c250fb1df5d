//! Why a storm ends early.
ghost use Rattle.std.specs.Prelude.{◌≡◌};
ghost use Rattle.span_run.specs.Status.{failed_status};
ghost use Rattle.span_storm.specs.declared.fault.StormFault.TheVariants.{Refused};

use span_id::Fault;
use span_run::FAILED_STATUS;
use thiserror::Error;

/// Why a storm, or a party of it, ended early.
#[derive(Clone, Copy, Debug, Error)]
pub enum StormFault {
    /// A thread couldn't be made, or memory was refused outside the workers' calls.
    #[error("out of memory")]
    Memory,
    /// A worker's call was refused.
    #[error("refused: {0}")]
    Refused(Fault),
    /// The party of this number, counted from 0, was held by the gate.
    #[error("worker {0} was held")]
    Held(u32),
}

impl From<Fault> for StormFault {
    ghost from_gives = { λ fault stopped. stopped ≡ Refused fault };

    fn from(fault: Fault) -> StormFault {
        StormFault::Refused(fault)
    }
}

impl StormFault {
    /// The status with which the program ends.
    pub fn status(&self) -> u8
        ensures { result ≡ failed_status }
    {
        FAILED_STATUS
    }
}
