//! Readers and writers whose calls are counted, text that goes out through them, and the statuses of a run.
#![tactic(auto)]

mod counted;
mod status;
mod transfer;

pub use counted::Counted;
pub use status::{FAILED_STATUS, SCRIPT_STATUS};
pub use transfer::{WriteFailed, flush, write_text};
