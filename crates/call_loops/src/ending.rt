//! Ends that all loops have.

use span_id::Fault;
use std::io;
use std::process::ExitCode;

/// The end of a run that the words don't name.
pub fn wrong_words<R: Eprint>(rt: &R, usage: &str) -> io::Result<ExitCode> {
    eprintln!(rt; "{usage}")?;
    Ok(ExitCode::from(2))
}

/// The end of a run that a fault ended.
pub fn ended_by<R: Eprint>(rt: &R, fault: Fault) -> io::Result<ExitCode> {
    eprintln!(rt; "{fault}")?;
    Ok(ExitCode::FAILURE)
}
