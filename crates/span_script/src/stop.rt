//! Why a line has no answer.
ghost use Rattle.std.specs.Prelude.{◌≡◌};
ghost use Rattle.span_script.specs.declared.stop.Stop.TheVariants.{Memory, Refused};

use crate::reason::Reason;
use std::alloc::{AllocError, AllocFailed};
use std::io;

/// Why a line has no answer.
#[derive(Clone, Copy, Debug, PartialEq, Eq)]
pub enum Stop {
    /// Memory was refused.
    Memory,
    /// The script is at fault.
    Refused(Reason),
}

impl From<AllocError> for Stop {
    ghost from_gives = { λ _ stop. stop ≡ Memory };

    fn from(_error: AllocError) -> Stop {
        Stop::Memory
    }
}

impl From<Reason> for Stop {
    ghost from_gives = { λ reason stop. stop ≡ Refused reason };

    fn from(reason: Reason) -> Stop {
        Stop::Refused(reason)
    }
}

impl<T: Drop> From<AllocFailed<T>> for Stop {
    ghost from_gives = { λ _ stop. stop ≡ Memory };

    fn from(_error: AllocFailed<T>) -> Stop {
        Stop::Memory
    }
}

// What a `Vec` answers that is written to and has no memory.
impl From<io::Error> for Stop {
    ghost from_gives = { λ _ stop. stop ≡ Memory };

    fn from(_error: io::Error) -> Stop {
        Stop::Memory
    }
}
