//! The registry of spans without its lock, and the end from which its lines are read, behind a C interface.
//!
//! `include/span_registry.h` at the top of the repository is what a C program sees.
#![tactic(auto)]

mod callsites;
mod data;
mod drain_handle;
mod exports;
mod heading_reader;
mod headings;
mod opening;
mod reader;
mod reading;
mod registry;
mod registry_handle;
mod valid;

pub use data::{
    SpanCounts, SpanField, SpanFound, SpanHeading, SpanHeld, SpanLayer, SpanLimits, SpanMeta,
    SpanNote, SpanRule, SpanSizes,
};
pub use drain_handle::SpanDrain;
pub use registry_handle::SpanRegistry;
