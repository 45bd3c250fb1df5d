//! Why a row ends early.

use span_id::Fault;
use std::alloc::{AllocError, AllocFailed};

/// Why a row ended early.
#[derive(Clone, Copy)]
pub(crate) enum Stop {
    /// What is wrong was told.
    Told,
    /// What is called on could not be made, for want of memory: the row begins anew.
    Memory,
}

impl From<AllocError> for Stop {
    fn from(_: AllocError) -> Stop {
        Stop::Memory
    }
}

impl From<Fault> for Stop {
    fn from(_: Fault) -> Stop {
        Stop::Memory
    }
}

impl<T: Drop> From<AllocFailed<T>> for Stop {
    fn from(_: AllocFailed<T>) -> Stop {
        Stop::Memory
    }
}
