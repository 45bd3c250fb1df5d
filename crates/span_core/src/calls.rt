//! The calls of a core that change something.
mod closes;
mod entries;
mod events;
mod handles;
mod held;
mod names;
mod room;
mod spans;
