//! The program `tracerun`, which runs scripts of calls, and storms of workers, on the span registry.
#![tactic(auto)]

ghost use Rattle.std.specs.Prelude.{◌≡◌, IfOk};
ghost use Rattle.std.specs.Process.{exit_status};
ghost use Rattle.tracerun.specs.Failure.{ended_status};
ghost use Rattle.tracerun_command_line.specs.Order.{IsInRange};

mod failure;
mod storms;

use crate::failure::Failure;
use clap::Error;
use span_layers::MAX_LAYERS;
use span_replay::{Remains, replay_with_layers, why_with_layers};
use span_run::Counted;
use std::io;
use std::io::{BufWriter, ErrorKind};
use std::process::ExitCode;
use tracerun_command_line::orders::Order;
use tracerun_command_line::{order_of, status};

/// How many bytes of the output are gathered before they are written: as many as a piece that `span_run` writes at least,
/// so that a write that is interrupted is made again.
const BUFFER: usize = 32_768;

fn main(rt: HostRuntime) -> io::Result<ExitCode> {
    match order(&rt) {
        Ok(Order::Replay) => status_of(&rt, replay(&rt)),
        Ok(Order::Why { span }) => status_of(&rt, why(&rt, &span)),
        Ok(Order::Storm { workers, rounds }) => {
            let mut output = Counted::new(rt.stdout());
            status_of(
                &rt,
                storms::run(&rt, rt.alloc(), workers, rounds, &mut output),
            )
        }
        Err(none) => no_order(&rt, &none),
    }
}

/// Why the command line gives no order.
#[derive(Drop)]
enum NoOrder {
    /// Memory for its words was refused.
    Memory,
    /// A word isn't UTF-8.
    NoText,
    /// What is wrong with its words, or what they ask to be told.
    Words(Error),
}

/// The order that the command line gives.
fn order(rt: &HostRuntime) -> Result<Order, NoOrder>
    ensures { IfOk result IsInRange }
{
    match words(rt) {
        Ok(words) => order_of(rt.alloc(), words.as_slice()).map_err(NoOrder::Words),
        Err(error) if matches!(error.kind(), ErrorKind::OutOfMemory) => Err(NoOrder::Memory),
        Err(_) => Err(NoOrder::NoText),
    }
}

/// The words of the command line.
fn words(rt: &HostRuntime) -> io::Result<Vec<String>> {
    let words = std::env::args(rt)?.collect(rt.alloc())?;
    Ok(words)
}

/// Tells on standard error why there is no order.
fn no_order(rt: &HostRuntime, none: &NoOrder) -> io::Result<ExitCode> {
    match none {
        NoOrder::Memory => status_of(rt, Err(Failure::Memory)),
        NoOrder::NoText => {
            eprintln!(rt; "error: a word of the command line isn't UTF-8")?;
            Ok(ExitCode::from(2))
        }
        NoOrder::Words(error) => match status(error) {
            3 => status_of(rt, Err(Failure::Memory)),
            status => {
                rt.eprint(error)?;
                Ok(ExitCode::from(status))
            }
        },
    }
}

/// Runs the script of standard input. What it answers goes to standard output through a buffer. The program ends then,
/// so the system frees what the run kept.
fn replay(rt: &HostRuntime) -> Result<(), Failure> {
    let alloc = rt.alloc();
    let Ok(buffer) = BufWriter::with_capacity(alloc, BUFFER, rt.stdout()) else {
        return Err(Failure::Memory);
    };
    let mut input = Counted::new(rt.stdin());
    let mut output = Counted::new(buffer);
    replay_with_layers(alloc, &mut input, &mut output, MAX_LAYERS, Remains::Left)?;
    Ok(())
}

/// Runs the lines of the script of standard input, and tells why spans are open then: all, or the one that this label
/// names.
fn why(rt: &HostRuntime, span: &Option<String>) -> Result<(), Failure> {
    let alloc = rt.alloc();
    let about = match span {
        Some(label) => Some(label.as_str()),
        None => None,
    };
    let Ok(buffer) = BufWriter::with_capacity(alloc, BUFFER, rt.stdout()) else {
        return Err(Failure::Memory);
    };
    let mut input = Counted::new(rt.stdin());
    let mut output = Counted::new(buffer);
    why_with_layers(alloc, &mut input, &mut output, MAX_LAYERS, about)?;
    Ok(())
}

/// The status with which the program ends. A failure is told on standard error as one line.
fn status_of<R: Eprint>(rt: &R, ended: Result<(), Failure>) -> io::Result<ExitCode>
    ensures { IfOk result (λ code. exit_status code ≡ ended_status ended) }
{
    match ended {
        Ok(()) => Ok(ExitCode::SUCCESS),
        Err(failure) => {
            eprintln!(rt; "{failure}")?;
            Ok(ExitCode::from(failure.status()))
        }
    }
}
