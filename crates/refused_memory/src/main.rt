//! Calls on the registry's crates, made by someone who may be refused memory at each of them.
#![tactic(auto)]

mod answer;
mod named;
mod rows;
mod stage;
mod stop;
mod texts;
mod trial;

use crate::rows::Row;
use crate::stage::Stage;
use std::alloc::Global;
use std::io;
use std::process::ExitCode;
use std::sync::Wait;

fn main(rt: HostRuntime) -> io::Result<ExitCode> {
    let words: Vec<String> = std::env::args(&rt)?.collect(rt.alloc())?;
    match words.as_slice() {
        [_, name] => match Row::named(name.as_str()) {
            Some(row) => run(&rt, rt.alloc(), true, &[row]),
            None => no_row(&rt),
        },
        [] | [_] => run(&rt, rt.alloc(), false, Row::together()),
        _ => no_row(&rt),
    }
}

// Runs rows, one after the other, until one ends early.
fn run<R: Print + Wait>(rt: &R, alloc: Global, marked: bool, rows: &[Row]) -> io::Result<ExitCode> {
    for row in rows {
        if !run_row(rt, alloc, marked, *row)? {
            return Ok(ExitCode::FAILURE);
        }
    }
    Ok(ExitCode::SUCCESS)
}

// Runs a row. Whether it came to its end.
fn run_row<R: Print + Wait>(rt: &R, alloc: Global, marked: bool, row: Row) -> io::Result<bool> {
    let stage = Stage::new(rt, row, marked);
    let ended = row.run(&stage, alloc);
    stage.end()?;
    Ok(ended.is_ok())
}

// Tells how the program is called.
fn no_row<R: Eprint>(rt: &R) -> io::Result<ExitCode> {
    eprintln!(rt; "usage: refused_memory [ROW]")?;
    Ok(ExitCode::from(2))
}
