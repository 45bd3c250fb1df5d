//! Workloads that builds of the libraries are compared by: scripts that are replayed, calls on a registry, and storms.
//! Each prints one line, which is the same at each run with the same seed.
//!
//! `span_benchmark scripts|far|calls|storms|quiet SEED`. With no words each of them is run shortly, with the seed 1.
#![tactic(auto)]

mod calls;
mod dice;
mod digest;
mod far;
mod held;
mod layers;
mod outcome;
mod play;
mod script;
mod scripts;
mod storms;
mod texts;
mod workload;

use crate::outcome::{Outcome, Stop};
use crate::workload::{Scale, Workload};
use std::alloc::Global;
use std::io;
use std::process::ExitCode;
use std::sync::Wait;
use std::thread::Threads;

const USAGE: &str =
    "usage: span_benchmark [scripts|far|calls|storms|quiet SEED], the seed a number below 2^32";

fn main(rt: HostRuntime) -> io::Result<ExitCode> {
    let words: Vec<String> = std::env::args(&rt)?.collect(rt.alloc())?;
    run(&rt, rt.alloc(), words.as_slice())
}

// Makes the run that the words ask for.
fn run<R: Print + Eprint + Threads + Wait + Sync>(
    rt: &R,
    alloc: Global,
    words: &[String],
) -> io::Result<ExitCode> {
    match words {
        [] | [_] => all_shortly(rt, alloc),
        [_, name, seed] => match (Workload::named(name.as_str()), seed.parse::<u32>()) {
            (Some(workload), Ok(seed)) => one(rt, alloc, workload, seed, Scale::Whole),
            _ => wrong_words(rt),
        },
        _ => wrong_words(rt),
    }
}

// A short run of each workload.
fn all_shortly<R: Print + Eprint + Threads + Wait + Sync>(
    rt: &R,
    alloc: Global,
) -> io::Result<ExitCode> {
    let mut status = ExitCode::SUCCESS;
    for workload in Workload::ALL {
        status = one(rt, alloc, workload, 1, Scale::Short)?;
    }
    Ok(status)
}

// Makes one run and tells what came of it.
fn one<R: Print + Eprint + Threads + Wait + Sync>(
    rt: &R,
    alloc: Global,
    workload: Workload,
    seed: u32,
    scale: Scale,
) -> io::Result<ExitCode> {
    match made(rt, alloc, workload, seed, scale) {
        Ok(outcome) => {
            println!(rt; "{}: {outcome}", workload.name())?;
            Ok(ExitCode::SUCCESS)
        }
        Err(stop) => {
            eprintln!(rt; "{stop}")?;
            Ok(ExitCode::FAILURE)
        }
    }
}

// Makes one run.
fn made<R: Threads + Wait + Sync>(
    rt: &R,
    alloc: Global,
    workload: Workload,
    seed: u32,
    scale: Scale,
) -> Result<Outcome, Stop> {
    match workload {
        Workload::Scripts => scripts::run(alloc, seed, scale),
        Workload::Far => far::run(alloc, seed, scale),
        Workload::Calls => Ok(calls::run(rt, alloc, seed, scale)?),
        Workload::Storms => storms::run(rt, alloc, seed, scale),
        Workload::Quiet => Ok(calls::quiet::run(rt, alloc, seed, scale)?),
    }
}

fn wrong_words<R: Eprint>(rt: &R) -> io::Result<ExitCode> {
    eprintln!(rt; "{USAGE}")?;
    Ok(ExitCode::from(2))
}
