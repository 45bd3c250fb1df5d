//! The store of spans that close in two steps, behind a C interface.
#![tactic(auto)]

mod data;
mod exports;
mod handle;

pub use data::{SpanStoreCounts, SpanStoreDetails, SpanStoreFound};
pub use handle::SpanStore;
