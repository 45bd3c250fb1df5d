//! What C calls. Each function takes whatever C passes, tests it, and answers the number of a status.

mod abi;
mod callers;
mod callsite_of;
mod callsites;
mod closing;
mod details;
mod drain;
mod entries;
mod events;
mod follows;
mod handles;
mod headings;
mod holding;
mod keeping;
mod note_headings;
mod notes;
mod packing;
mod queries;
mod recalling;
mod registry;
mod spans;
mod texts;
mod wants;
