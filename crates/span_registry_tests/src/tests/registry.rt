//! The calls of a registry run, with their answers and their reports.
mod acts;
mod backlog;
mod caller;
mod ended_by_reading;
mod ended_on_a_ring;
mod endings;
mod handed_on;
mod jobs;
mod layers;
mod names;
mod on_registry;
mod parts;
mod same;
mod scripts;
mod strangers;
mod threads;
