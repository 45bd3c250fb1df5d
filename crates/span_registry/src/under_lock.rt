//! What each call does to the value under the lock, said in full.
//!
//! The function of a call's name is what that call runs while it has the lock: it is lent the locked value, and the worker
//! and the handle of the call, if it has them. The three endings are given the value, since nobody else has it then. That
//! the books move with each call is said by what holds whenever the lock is free (`HoldsWhenFree`).
mod drains;
mod entries;
mod events;
mod finds;
mod handles;
mod holding;
mod reports;
mod spans;

pub use drains::drained;
pub use entries::{enter, exit};
pub use events::{event, record};
pub use finds::find;
pub use handles::{clone_span, try_close};
pub use holding::{held_spans, holders_of, open_spans, span_details, workers_inside};
pub use reports::{finish, finish_kept, finish_reading};
pub use spans::new_span;
