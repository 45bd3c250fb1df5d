//! What no clause says: the calls of a registry, in one thread and in many.
mod registry;
