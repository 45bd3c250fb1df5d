//! The core's calls together with the handles' seats: each keeps the root of the seats and the core agreed.
//!
//! A call on a handle joins its seat, which shows that the span is open, and splits one off again for the handle.
pub(crate) mod entries;
pub(crate) mod handles;
pub(crate) mod spans;
