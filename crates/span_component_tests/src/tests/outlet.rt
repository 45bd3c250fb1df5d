//! What no clause says: when the ring has room, worked lines, how often closures are called, and each call once.

pub(crate) mod batches;
mod buffers;
mod calls;
mod drain;
mod line_reader;
mod returning;
