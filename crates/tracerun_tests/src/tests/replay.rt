//! Whole runs of scripts, devices that fail, and which hooks a layer takes.
mod dropped_hooks;
mod fixtures;
mod flushes;
mod hooks;
mod runs;
mod taken_hooks;
