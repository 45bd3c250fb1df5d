//! The registry of spans behind a lock: the crate that a program names.
//!
//! A [`Registry`] is shared by threads. Each thread has a [`Worker`], and who holds a span has a [`Handle`], which
//! proves that the span is open. At the end the workers, and the handles that were not given back, become one
//! [`Share`], and with the whole share the registry becomes a [`Report`].
//!
//! What each call does to the locked value is said in full by the function of its name in [`under_lock`]. The calls of
//! the registry take the lock, run that one function and give the lock back. What every registry promises is said in
//! [`laws`].
//!
//! The crate also gives every public word of the core (`span_core`, which has no lock) and of what leaves it
//! (`span_outlet`) again.
#![tactic(auto)]

mod blanks;
mod books;
mod droppable_handle;
mod found;
mod handle;
pub mod laws;
mod locked;
mod refused_close;
mod registry;
mod report;
mod setup;
mod share;
pub mod under_lock;
mod with_seats;
mod worker;

pub use blanks::Blanks;
pub use droppable_handle::DroppableHandle;
pub use found::Found;
pub use handle::Handle;
pub use locked::Locked;
pub use refused_close::RefusedClose;
pub use registry::{HANDLE_PARTS, Registry};
pub use report::{Counts, Report};
pub use setup::Setup;
pub use share::Share;
pub use span_core::{Core, SpanDetails};
pub use span_forest::Held;
pub use span_outlet::{
    Batch, Call, Drain, Kept, KnownEvent, KnownRelease, KnownSpan, Latest, LayerLines, Line,
    LineReader, Outlet, ParentOf, Reply, Ring, Step, Tap,
};
pub use span_seats::TableName;
pub use worker::Worker;
