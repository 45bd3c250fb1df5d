//! Programs that make calls for the benchmarks and the tests, under one name: loops of calls, to be timed from outside,
//! and a long run of random calls.
//!
//! `call_loops call-costs ..` and `call_loops soak ..`; with no words each of them is run shortly.
#![tactic(auto)]

mod call_costs;
mod ended;
mod ending;
mod layers;
mod made;
mod numbers;
mod order;
mod parts;
mod reading;
mod soak;
mod texts;

use crate::ending::wrong_words;
use std::alloc::Global;
use std::io;
use std::process::ExitCode;
use std::sync::Wait;
use std::thread::Threads;
use std::time::Clock;

const USAGE: &str = "call_loops: call-costs .., soak .., or no words";

fn main(rt: HostRuntime) -> io::Result<ExitCode> {
    let words: Vec<String> = std::env::args(&rt)?.collect(rt.alloc())?;
    run(&rt, rt.alloc(), words.as_slice())
}

// Runs the workload that the words name.
fn run<R: Print + Eprint + Threads + Wait + Clock + Sync>(
    rt: &R,
    alloc: Global,
    words: &[String],
) -> io::Result<ExitCode> {
    let [_, name, words @ ..] = words else {
        if !call_costs::run_shortly(rt, alloc)? {
            return Ok(ExitCode::FAILURE);
        }
        return soak::run(rt, alloc, &[]);
    };
    match name.as_str() {
        "call-costs" => call_costs::run(rt, alloc, words),
        "soak" => soak::run(rt, alloc, words),
        _ => wrong_words(rt, USAGE),
    }
}
