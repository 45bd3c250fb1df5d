//! The run of a script: its lines on the registry's core, the tidying, and what is written.
pub mod answer;
pub mod calls;
pub mod device;
pub mod explained;
pub mod fault;
pub mod hooks;
pub mod labels;
pub mod lately;
pub mod opening;
pub mod progress;
pub mod reaching;
pub mod replay;
pub mod script;
pub mod setup;
pub mod tidying;
pub mod why;
