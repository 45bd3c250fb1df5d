//! The command line of the program `tracerun`: its words, read to an order.
#![tactic(auto)]

ghost use Rattle.std.specs.Prelude.{IfOk};
ghost use Rattle.tracerun_command_line.specs.Order.{IsInRange};

pub mod orders;

use crate::orders::Order;
use clap::error::ErrorKind;
use clap::{Arg, Command, Error, value_parser};
use std::alloc::{AllocError, Global};

const ABOUT: &str = "Runs scripts of calls, and storms of workers, on the span registry.";

const ABOUT_REPLAY: &str =
    "Runs the script of standard input, and writes to standard output what its calls answer and its layers are told.";

const ABOUT_WHY: &str =
    "Runs the lines of the script of standard input, and writes to standard output which spans are open then, and why.";

const ABOUT_STORM: &str =
    "Has workers call one registry at the same time, and writes to standard output how it ended.";

const AFTER_HELP: &str = "docs/FORMATS.md describes scripts, what is written, and the statuses.\n\n\
    Examples:\n  \
    tracerun replay < examples/first.jsonl\n  \
    tracerun why < examples/leak.jsonl\n  \
    tracerun storm --workers 4 --rounds 100";

const AFTER_STORM_HELP: &str =
    "Each worker has a thread of its own and makes nine calls a round. docs/FORMATS.md describes them, what is written, \
    and the statuses.\n\n\
    Example:\n  tracerun storm --workers 4 --rounds 100";

const AFTER_REPLAY_HELP: &str =
    "A script has a JSON object on each line. docs/FORMATS.md describes scripts, what is written, and the statuses.\n\n\
    Example:\n  tracerun replay < examples/first.jsonl";

const AFTER_WHY_HELP: &str =
    "The script is one for replay. docs/FORMATS.md describes scripts, what is written, and the statuses.\n\n\
    Examples:\n  tracerun why < examples/leak.jsonl\n  tracerun why --span query < examples/leak.jsonl";

/// The program's command line.
fn command<'a>(alloc: Global) -> Result<Command<'a>, AllocError> {
    Command::new(alloc, "tracerun")
        .version("0.2.0")
        .about(ABOUT)
        .after_help(AFTER_HELP)
        .subcommand_required(true)
        .subcommand(
            Command::new(alloc, "replay")
                .about(ABOUT_REPLAY)
                .after_help(AFTER_REPLAY_HELP),
        )?
        .subcommand(why_command(alloc)?)?
        .subcommand(storm_command(alloc)?)
}

/// The command line of the question why spans are open.
fn why_command<'a>(alloc: Global) -> Result<Command<'a>, AllocError> {
    let span = Arg::new(alloc, "span")
        .long("span")
        .value_name("LABEL")
        .help("Tells of the span alone that this label names");
    Command::new(alloc, "why")
        .about(ABOUT_WHY)
        .after_help(AFTER_WHY_HELP)
        .arg(span)
}

/// The command line of a storm.
fn storm_command<'a>(alloc: Global) -> Result<Command<'a>, AllocError> {
    let workers = Arg::new(alloc, "workers")
        .long("workers")
        .value_name("N")
        .help("How many workers there are, 1 to 16")
        .required(true)
        .value_parser(value_parser!(u32).range(1..=16));
    let rounds = Arg::new(alloc, "rounds")
        .long("rounds")
        .value_name("M")
        .help("How many rounds each worker makes, 1 to 400")
        .required(true)
        .value_parser(value_parser!(u32).range(1..=400));
    Command::new(alloc, "storm")
        .about(ABOUT_STORM)
        .after_help(AFTER_STORM_HELP)
        .arg(workers)?
        .arg(rounds)
}

/// The order that the words give, of which the first is the program's name.
///
/// Words that give no order are an error, and so is a request for help or for the version.
fn order<'a>(alloc: Global, words: &'a [&'a str]) -> Result<Order, Error>
    ensures { IfOk result IsInRange }
{
    let mut command = command(alloc)?;
    let matches = command.try_get_matches_from_mut(words)?;
    match matches.subcommand() {
        Some(("replay", _)) => return Ok(Order::Replay),
        Some(("why", given)) => {
            let span = match given.get_str("span") {
                Some(label) => Some(String::from_str(alloc, label)?),
                None => None,
            };
            return Ok(Order::Why { span });
        }
        Some(("storm", numbers)) => {
            let workers = numbers.get_one("workers");
            let rounds = numbers.get_one("rounds");
            // The command line lets no other numbers through.
            if let (Some(workers @ 1..=16), Some(rounds @ 1..=400)) = (workers, rounds) {
                return Ok(Order::Storm { workers, rounds });
            }
        }
        _ => {}
    }
    Err(command.error(ErrorKind::InvalidSubcommand, "no such order")?)
}

/// The order that the words of the command line give, as `order` does.
pub fn order_of(alloc: Global, words: &[String]) -> Result<Order, Error>
    ensures { IfOk result IsInRange }
{
    let mut texts = Vec::new(alloc);
    for word in words {
        texts.push(word.as_str())?;
    }
    order(alloc, texts.as_slice())
}

/// The status with which the program ends where its words give no order: 2, after help and the version too, and 3 where
/// memory was refused.
pub fn status(error: &Error) -> u8 {
    match error.kind() {
        ErrorKind::OutOfMemory => 3,
        _ => 2,
    }
}
