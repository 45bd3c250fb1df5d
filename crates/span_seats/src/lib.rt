//! Seats of an atomic table: a handle that carries one proves that its span is open.
#![tactic(auto)]

mod handle;
pub mod laws;
mod root;
mod rule;
mod table;
mod view;

pub use handle::HandleSeat;
pub use root::RootSeat;
pub use table::{SeatTable, TableName};
pub use view::{HandleView, RootView};
