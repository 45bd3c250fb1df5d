//! A long run: workers that make random calls on one registry, each in a thread of its own, beside a slow reader behind
//! a ring of few places. What is refused for want of a place is called again, and in the end all is given back.
//!
//! `call_loops soak WORKERS PLACES ROUNDS SEED`; with no more words a short run.

mod act;
mod caller;
mod dice;
pub mod returned;
pub mod soaked;
mod threads;
mod words;

use crate::ended::Made;
use crate::ending::{ended_by, wrong_words};
use crate::made::make;
use crate::order::SHORT_SOAK;
use crate::soak::words::read_order;
use std::alloc::Global;
use std::io;
use std::process::ExitCode;
use std::sync::Wait;
use std::thread::Threads;
use std::time::Clock;

const USAGE: &str =
    "call_loops soak: WORKERS (1 to 256) PLACES (1 to 65536) ROUNDS SEED, or no more words";

/// Makes the run that the words ask for, or a short one.
pub fn run<R: Print + Eprint + Threads + Wait + Clock + Sync>(
    rt: &R,
    alloc: Global,
    words: &[String],
) -> io::Result<ExitCode> {
    let order = if words.is_empty() {
        Some(SHORT_SOAK)
    } else {
        read_order(words)
    };
    let Some(order) = order else {
        return wrong_words(rt, USAGE);
    };
    match make(rt, alloc, &order) {
        Ok(made) => print(rt, &made),
        Err(fault) => ended_by(rt, fault),
    }
}

// How often there was no place is told on standard error, since it differs from run to run.
fn print<R: Print + Eprint>(rt: &R, made: &Made) -> io::Result<ExitCode> {
    let counts = [
        ("calls", made.calls),
        ("made", made.made),
        ("closed", made.closed),
        ("left", u64::from(made.left)),
        ("handles", made.handles),
        ("entries", made.entries),
        ("notes", made.notes),
        ("lines", made.lines),
        ("missed", made.missed),
    ];
    for (name, count) in counts {
        println!(rt; "{name} {count}")?;
    }
    eprintln!(rt; "{} times no place", made.backlogs)?;
    Ok(ExitCode::SUCCESS)
}
