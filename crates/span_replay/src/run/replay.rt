//! Running a whole script: reading it, its lines, the tidying and the last line, and writing out.
ghost use Rattle.std.specs.Prelude.{◌≡◌, ◌+◌, ◌≤◌, ◌∷◌, ℕ, Some, IfOk, IfErr, IfSome, IfNone, OnOk, length, slice_get, vec_len};
ghost use Rattle.std.specs.Io.KnownBytes.{IsAtEnd};
ghost use Rattle.span_run.specs.Counted.{inner_of, calls_of, failed_of, flushes_of};
ghost use Rattle.span_replay.specs.Meaning.{last_part, run};
ghost use Rattle.span_replay.specs.Replayed.{Fails, FlushesOnce, IsReplayed, IsWrittenWhole, KeepsUnread, Runs};
ghost use Rattle.span_replay.specs.ReplayFault.{EndsAsCounted};
ghost use Rattle.span_script.specs.Script.{script_lines, most_bytes};
ghost use Rattle.span_replay.specs.State.{first_state};
ghost use Rattle.span_replay.specs.inside.Ended.{has_end};
ghost use Rattle.span_replay.specs.inside.Progress.{HasHooks, MayGoOn, state_of};
ghost use Rattle.span_replay.specs.inside.Turns.{Sent};
ghost use Rattle.span_replay.specs.inside.Writing.{OnlyWrites};

use crate::run::device::{flush, read_script, send};
use crate::run::fault::{ReplayFault, at_line};
use crate::run::progress::{Progress, end, step};
use crate::run::script::Script;
use crate::run::setup::Setup;
use crate::run::tidying::{Remains, let_go};
use span_json::Scratch;
use span_layers::{Admit, Admitters, Formatters, Hooks, Say};
use span_run::Counted;
use span_script::{LineMetas, cut_line, is_skipped};
use std::alloc::Global;
use std::io::{Read, Write};

/// Runs the script that the input holds, and writes what it answers.
///
/// The input is read to its end first. Each layer takes one of the hooks, in their order. Where the result is `Ok`,
/// what was written is the notes and the answer of each line, those of the tidying, and then how many spans are left
/// open, which is the result, and which is 0. What the run kept is then freed or left, as `remains` says. After a fault
/// of the script the text of the lines before it stands. After `Memory`, `Read` and `Write` a front of the text went
/// out, and nothing where it was the reader that failed. The output is flushed by one call, which is the last: where
/// memory is refused or a device fails before it, there is none.
pub fn replay<A: Drop, F: Drop, R: Read, W: Write>(
    alloc: Global,
    input: &mut Counted<R>,
    output: &mut Counted<W>,
    hooks: Vec<Hooks<A, F>>,
    remains: Remains,
) -> Result<u64, ReplayFault>
where
    Admitters<A>: Admit,
    Formatters<F>: Say,
    ensures replayed { IfSome (R.remaining (inner_of input.old)) (λ bytes.
        IsReplayed (vec_len hooks) bytes
        (W.contents (inner_of output.old)) (W.contents (inner_of output.new)) result) }
    ensures whole { OnOk result (IsAtEnd (R.remaining (inner_of input.new))) }
    ensures unread { IfErr result (KeepsUnread (W.contents (inner_of output.old)) (W.contents (inner_of output.new))) }
    ensures flushed { FlushesOnce
        (IsWrittenWhole (vec_len hooks) (R.remaining (inner_of input.old))
        (W.contents (inner_of output.old)) (W.contents (inner_of output.new)))
        output.old output.new result }
    ensures left { IfSome (R.remaining (inner_of input.old)) (λ bytes. IfOk result (λ left. left ≡ 0)) }
    ensures counts { EndsAsCounted
        (failed_of input.old) (failed_of input.new) (failed_of output.old) (failed_of output.new) result }
    ensures reads { calls_of input.new ≤ calls_of input.old + 16777217 }
{
    let ended = read_and_run(alloc, input, output, hooks, remains);
    if !has_end(&ended) {
        return ended;
    }
    flush(output)?;
    ended
}

/// Whether a run came to an end of its own: well, or at a fault of the script.
fn has_end(ended: &Result<u64, ReplayFault>) -> bool
    ensures { result ≡ has_end ended.now }
{
    matches!(ended, Ok(_) | Err(ReplayFault::Script(_, _)))
}

/// Reads a script to its end and runs it.
fn read_and_run<A: Drop, F: Drop, R: Read, W: Write>(
    alloc: Global,
    input: &mut Counted<R>,
    output: &mut Counted<W>,
    hooks: Vec<Hooks<A, F>>,
    remains: Remains,
) -> Result<u64, ReplayFault>
where
    Admitters<A>: Admit,
    Formatters<F>: Say,
    ensures replayed { IfSome (R.remaining (inner_of input.old)) (λ bytes.
        IsReplayed (vec_len hooks) bytes
        (W.contents (inner_of output.old)) (W.contents (inner_of output.new)) result) }
    ensures whole { OnOk result (IsAtEnd (R.remaining (inner_of input.new))) }
    ensures unread { IfErr result (KeepsUnread (W.contents (inner_of output.old)) (W.contents (inner_of output.new))) }
    ensures counts { EndsAsCounted
        (failed_of input.old) (failed_of input.new) (failed_of output.old) (failed_of output.new) result }
    ensures flushes { flushes_of output.new ≡ flushes_of output.old }
    ensures reads { calls_of input.new ≤ calls_of input.old + 16777217 }
{
    let script = read_script(alloc, input)?;
    run_script(alloc, &script, output, hooks, remains)
}

/// Runs a script that was read, and then frees what it kept, or leaves it where the run ended well.
fn run_script<A: Drop, F: Drop, W: Write>(
    alloc: Global,
    script: &[u8],
    output: &mut Counted<W>,
    hooks: Vec<Hooks<A, F>>,
    remains: Remains,
) -> Result<u64, ReplayFault>
where
    Admitters<A>: Admit,
    Formatters<F>: Say,
    requires { length script.now ≤ most_bytes }
    ensures runs { Runs (run (vec_len hooks) 1 first_state (script_lines script.now))
        (W.contents (inner_of output.old)) (W.contents (inner_of output.new)) result }
    ensures calls { OnlyWrites output.old output.new result }
{
    let mut progress = Progress::Opening(Setup::new(alloc, hooks));
    let mut text = Vec::new(alloc);
    let ended = run_all(alloc, script, &mut progress, &mut text, output);
    let_go(progress, remains, ended.is_ok());
    ended
}

/// Runs the lines of a script, and then tidies.
fn run_all<A: Drop, F: Drop, W: Write>(
    alloc: Global,
    script: &[u8],
    progress: &mut Progress<Setup<A, F>, Script<Formatters<F>, Admitters<A>>>,
    text: &mut Vec<u8>,
    output: &mut Counted<W>,
) -> Result<u64, ReplayFault>
where
    Admitters<A>: Admit,
    Formatters<F>: Say,
    requires fits { length script.now ≤ most_bytes }
    requires ready { MayGoOn progress.old }
    ensures runs { (hooks : ℕ) → HasHooks hooks progress.old →
        Runs (run hooks 1 (state_of progress.old) (script_lines script.now))
        (W.contents (inner_of output.old)) (W.contents (inner_of output.new)) result }
    ensures calls { OnlyWrites output.old output.new result }
{
    run_lines(alloc, script, progress, text, output)?;
    end(progress, alloc, text, output)
}

/// Runs the lines of a script, and writes the text of each.
fn run_lines<A: Drop, F: Drop, W: Write>(
    alloc: Global,
    script: &[u8],
    progress: &mut Progress<Setup<A, F>, Script<Formatters<F>, Admitters<A>>>,
    text: &mut Vec<u8>,
    output: &mut Counted<W>,
) -> Result<(), ReplayFault>
where
    Admitters<A>: Admit,
    Formatters<F>: Say,
    requires fits { length script.now ≤ most_bytes }
    requires ready { MayGoOn progress.old }
    ensures sent { OnOk result ((hooks : ℕ) → HasHooks hooks progress.old →
        Sent (W.contents (inner_of output.old)) (W.contents (inner_of output.new))
        (run hooks 1 (state_of progress.old) (script_lines script.now)) (last_part (state_of progress.new))) }
    ensures ready { OnOk result (MayGoOn progress.new) }
    ensures err { IfErr result (λ fault. (hooks : ℕ) → HasHooks hooks progress.old →
        Fails (run hooks 1 (state_of progress.old) (script_lines script.now))
        (W.contents (inner_of output.old)) (W.contents (inner_of output.new)) fault) }
    ensures calls { OnlyWrites output.old output.new result }
{
    let mut scratch = Scratch::new(alloc);
    let mut metas = LineMetas::none(alloc);
    let mut lines = script;
    let mut number = 1u64;
    while !lines.is_empty() {
        if let Some(tail) = after_empty_line(lines) {
            lines = tail;
            number += 1;
            continue;
        }
        let (line, tail) = cut_line(lines);
        lines = tail;
        // Asked here, so that nothing is made ready for a line that is skipped.
        if is_skipped(line) {
            number += 1;
            continue;
        }
        if let Err(stop) = step(progress, alloc, line, &mut scratch, &mut metas, text) {
            return Err(at_line(number, stop));
        }
        send(output, text.as_slice())?;
        number += 1;
    }
    Ok(())
}

// What follows an empty line, if the script begins with one: it needs no look for its end.
#[inline(always)]
fn after_empty_line(script: &[u8]) -> Option<&[u8]>
    ensures some { IfSome result (λ tail. script.now ≡ 10 ∷ tail.now) }
    ensures none { IfNone result (slice_get script.now 0 ≡ Some 10 → ⊥) }
{
    match script {
        [b'\n', tail @ ..] => Some(tail),
        _ => None,
    }
}
