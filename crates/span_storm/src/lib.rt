//! A storm: many workers who make calls on one registry, each in a thread of its own, beside a drain in another.
//!
//! [`storm`] runs it and answers how the registry ended, [`show`] writes that down. A [`Gate`] is asked before each
//! call whether the caller may go on, so that a test can say what has to happen at the same time; [`Open`] never holds
//! anybody.
#![tactic(auto)]

mod called;
mod draining;
mod fault;
mod gate;
mod metas;
mod numbers;
mod party;
mod round;
mod run;
mod threads;

pub use called::{AdmitAs, SayAs};
pub use fault::StormFault;
pub use gate::{Gate, Open};
pub use numbers::show;
pub use run::storm;
