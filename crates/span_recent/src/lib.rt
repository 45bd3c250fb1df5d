//! Metas and fields that were copied lately: metas to be shared where they come again, fields for their memory.
//!
//! A copy of a meta takes three allocations, and one more owner takes none. A program makes its spans and events at the
//! same few places again and again, so a caller that copies their metas keeps the last ones here. The values of fields
//! change from call to call, but not how many there are and how long: a copy is made in the memory of an earlier one.
#![tactic(auto)]

mod fields;
mod metas;
mod place;
mod spare;

pub use fields::RecentFields;
pub use metas::RecentMetas;
pub use spare::SpareFields;
