//! What a C caller hands in and gets back: handles, statuses, numbers and buffers.
#![tactic(auto)]

mod buffers;
mod handle;
mod holds;
mod numbers;
mod parts;
mod status;

pub use buffers::{InC, write_all, write_ids, write_in_c};
pub use handle::Handle;
pub use holds::Holds;
pub use numbers::id_number;
pub use status::Status;
