//! One history of batches, which only its keeper lengthens, and fronts of it that others have seen.
#![tactic(auto)]

mod entry;
mod front;
mod fronts;
mod history;
mod keeper;
mod rule;
mod view;

pub use front::Front;
pub use fronts::{Fronts, Place};
pub use history::History;
pub use keeper::Keeper;
