//! Loops of calls, to be timed from outside: on a core, on a registry, in a storm, and beside a slow reader.
//!
//! `call_loops call-costs core LAYERS FIELDS DEPTH ROUNDS`, the same with `registry`,
//! `call_loops call-costs storm WORKERS ROUNDS`, `call_loops call-costs chain LENGTH`, and
//! `call_loops call-costs slow PLACES ROUNDS`. With no more words each is run once, shortly.

pub mod chain;
pub mod core_loop;
pub mod registry_loop;
pub mod slow_reader;
mod words;

use crate::call_costs::words::read_order;
use crate::ended::Made;
use crate::ending::{ended_by, wrong_words};
use crate::made::make;
use crate::order::SHORT_RUNS;
use std::alloc::Global;
use std::io;
use std::process::ExitCode;
use std::sync::Wait;
use std::thread::Threads;
use std::time::Clock;

const USAGE: &str =
    "call_loops call-costs: core|registry LAYERS FIELDS DEPTH ROUNDS, storm WORKERS ROUNDS, chain LENGTH, or slow PLACES ROUNDS";

/// Makes the run that the words ask for, or each of them shortly.
pub fn run<R: Print + Eprint + Threads + Wait + Clock + Sync>(
    rt: &R,
    alloc: Global,
    words: &[String],
) -> io::Result<ExitCode> {
    if words.is_empty() {
        let is_made = run_shortly(rt, alloc)?;
        return Ok(if is_made {
            ExitCode::SUCCESS
        } else {
            ExitCode::FAILURE
        });
    }
    let Some(order) = read_order(words) else {
        return wrong_words(rt, USAGE);
    };
    match make(rt, alloc, &order) {
        Ok(made) => {
            eprintln!(rt; "{} left, {} times no place", made.left, made.backlogs)?;
            tell(rt, &made)?;
            Ok(ExitCode::SUCCESS)
        }
        Err(fault) => ended_by(rt, fault),
    }
}

/// Makes a few rounds of each run. Whether all of them were made.
pub fn run_shortly<R: Print + Eprint + Threads + Wait + Clock + Sync>(
    rt: &R,
    alloc: Global,
) -> io::Result<bool> {
    for order in SHORT_RUNS {
        match make(rt, alloc, &order) {
            Ok(made) => tell(rt, &made)?,
            Err(fault) => {
                ended_by(rt, fault)?;
                return Ok(false);
            }
        }
    }
    Ok(true)
}

fn tell<R: Print>(rt: &R, made: &Made) -> io::Result<()> {
    println!(rt; "{} calls, {} lines", made.calls, made.lines)
}
