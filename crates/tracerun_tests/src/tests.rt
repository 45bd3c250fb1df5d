//! What no clause says: lines of scripts, and whole runs and storms.
mod compare;
mod faults;
mod lines;
mod numbers;
mod replay;
mod script;
mod storm;
mod texts;
