//! What leaves the registry: the batches of accepted calls, where they go, and the lines that layers write of their
//! notes.
#![tactic(auto)]

mod batch;
mod drain;
mod given_out;
mod kept;
mod known_event;
mod known_release;
mod known_span;
mod latest;
mod layer_lines;
mod line;
mod line_reader;
mod memory;
mod note_lines;
mod outlet;
mod past;
mod posted;
mod returning;
mod ring;
mod same_text;

pub use batch::{Batch, Call, ParentOf, Reply};
pub use drain::{Drain, Step};
pub use kept::Kept;
pub use known_event::KnownEvent;
pub use known_release::KnownRelease;
pub use known_span::KnownSpan;
pub use latest::Latest;
pub use layer_lines::LayerLines;
pub use line::Line;
pub use line_reader::LineReader;
pub use outlet::Outlet;
pub use ring::{Ring, Tap};
