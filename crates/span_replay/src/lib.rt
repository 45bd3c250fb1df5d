//! The run of a script of calls on the span registry: bytes in, bytes out.
//!
//! A script is read to its end, its lines run one after another on the registry's core, and after them comes the
//! tidying. What the calls answer and what the layers are told is written as it arises (`replay`;
//! `replay_with_layers` for layers with no closures).
#![tactic(auto)]

pub mod laws;
mod run;

pub use run::device::read_script;
pub use run::fault::ReplayFault;
pub use run::hooks::replay_with_layers;
pub use run::replay::replay;
pub use run::tidying::Remains;
pub use run::why::why_with_layers;
pub use span_run::Counted;
