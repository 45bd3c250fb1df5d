//! Hooks of layers, runs of scripts over devices, and how they end.
ghost use Rattle.std.specs.Prelude.{◌≡◌, string_bytes};
ghost use Rattle.std.specs.Result.{ForOk};
ghost use Rattle.span_layers.specs.Note.{plain_note};
ghost use Rattle.span_layers.specs.Rule.{pairs_of, is_admitted};
ghost use Rattle.span_layers.specs.Text.{text_of};

use span_id::Meta;
use span_layers::{Form, Hooks, Note, Rule, admits, text};
use span_replay::{Remains, ReplayFault, replay, replay_with_layers};
use span_run::Counted;
use std::alloc::{AllocError, Global};
use std::io::{Read, Write};
use std::process::Abort;

/// Hooks that answer as `admits` and `text` do, or whose texts are all refused memory. They are handed out, so the
/// closures state what they answer.
pub(crate) fn hooks(rt: &impl Abort, alloc: Global, has_memory: bool) -> Hooks {
    let admit = Box::new(
        alloc,
        |rule: &Rule, meta: &Meta| -> bool
            ensures { result
                ≡ is_admitted (pairs_of rule.now) (string_bytes meta.now.target) meta.now.level }
        { admits(rule, meta) },
    );
    let say = Box::new(
        alloc,
        move |alloc: Global, form: Form, note: &Note| -> Result<Vec<u8>, AllocError>
            ensures { ForOk result (λ text. text.items ≡ text_of form (plain_note note.now)) }
        {
            if has_memory {
                text(alloc, form, note)
            } else {
                Err(AllocError)
            }
        },
    );
    Hooks::new(admit.expect(rt, "memory"), say.expect(rt, "memory"))
}

/// How a run ended, and what its devices counted.
#[derive(Drop)]
pub(crate) struct Ran {
    /// How many spans are left, or the fault.
    pub(crate) end: String,
    /// The status of the fault.
    pub(crate) status: Option<u8>,
    pub(crate) reads: u64,
    pub(crate) failed_reads: u64,
    pub(crate) flushes: u64,
}

/// A run of a script that may have so many layers.
pub(crate) fn run<R: Read + Drop, W: Write + Drop>(
    rt: &impl Abort,
    alloc: Global,
    reader: R,
    writer: W,
    layers: usize,
) -> Ran {
    let (mut input, mut output) = (Counted::new(reader), Counted::new(writer));
    let ended = replay_with_layers(alloc, &mut input, &mut output, layers, Remains::Freed);
    told(rt, alloc, &ended, &input, &output)
}

/// A run of a script whose layers call these hooks.
pub(crate) fn run_with<R: Read + Drop, W: Write + Drop>(
    rt: &impl Abort,
    alloc: Global,
    reader: R,
    writer: W,
    hooks: Vec<Hooks>,
) -> Ran {
    let (mut input, mut output) = (Counted::new(reader), Counted::new(writer));
    let ended = replay(alloc, &mut input, &mut output, hooks, Remains::Freed);
    told(rt, alloc, &ended, &input, &output)
}

// How many spans are left, or the fault, as text.
fn end_of(rt: &impl Abort, alloc: Global, ended: &Result<u64, ReplayFault>) -> String {
    match ended {
        Ok(left) => left.to_string(alloc).expect(rt, "memory"),
        Err(fault) => fault.to_string(alloc).expect(rt, "memory"),
    }
}

fn told<R, W>(
    rt: &impl Abort,
    alloc: Global,
    ended: &Result<u64, ReplayFault>,
    input: &Counted<R>,
    output: &Counted<W>,
) -> Ran {
    Ran {
        end: end_of(rt, alloc, ended),
        status: ended.as_ref().err().map(ReplayFault::status),
        reads: input.calls(),
        failed_reads: input.failed(),
        flushes: output.flushes(),
    }
}
