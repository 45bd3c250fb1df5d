//! Running a whole script with nothing written but why spans are open where its lines end.
ghost use Rattle.std.specs.Prelude.{◌≡◌, ◌+◌, ◌^◌, ◌<◌, ◌≤◌, ℕ, [], false, length, option_copied};
ghost use Rattle.std.specs.Prelude.{IfOk, IfErr, IfSome, IfNone, IsOk, IsTrue, OnOk};
ghost use Rattle.std.specs.Io.KnownBytes.{Appends, IsAtEnd};
ghost use Rattle.span_json.specs.Seen.{view};
ghost use Rattle.span_run.specs.Counted.{inner_of, calls_of, failed_of};
ghost use Rattle.span_replay.specs.ReplayFault.{EndsAsCounted};
ghost use Rattle.span_replay.specs.Explained.{IsWholeWhy, first_reached, label_by, label_in, why_meaning, why_run};
ghost use Rattle.span_replay.specs.Meaning.{Transcript, line_turn, value_turn};
ghost use Rattle.span_replay.specs.Replayed.{FlushesOnce, KeepsUnread, Runs};
ghost use Rattle.span_replay.specs.inside.Ended.{has_end};
ghost use Rattle.span_replay.specs.inside.Reaching.{IsExplained, IsOfReading, SetsTo};
ghost use Rattle.span_replay.specs.inside.Reaching.{reached_at, resumed_why, set_up_at};
ghost use Rattle.span_replay.specs.inside.Running.{IsWritten};
ghost use Rattle.span_replay.specs.inside.Setup.{hooks_in, setup_state};
ghost use Rattle.span_script.specs.Operation.{is_setup, running};
ghost use Rattle.span_script.specs.Reason.{StopsFor};
ghost use Rattle.span_script.specs.Script.{is_skipped, script_lines, most_bytes};

use crate::run::device::{flush, read_script, send};
use crate::run::explained::{Explained, explain, nothing_open};
use crate::run::fault::ReplayFault;
use crate::run::hooks::plain_hooks;
use crate::run::opening::open;
use crate::run::reaching::{Reaching, run_rest};
use crate::run::setup::Setup;
use span_json::{Scratch, Value};
use span_layers::{Admit, Admitters, Formatters, MAX_LAYERS, Say};
use span_run::Counted;
use span_script::{Stop, cut_line, is_setup_line, is_skipped, json_line};
use std::alloc::Global;
use std::io::{Read, Write};

/// Runs the lines of the script that the input holds, as `replay` does, but writes nothing for them, and tidies
/// nothing: it writes why the spans are open that are open where the lines end, about all of them or about the one that
/// a label names. So it does after a fault of the script too.
///
/// The input is read to its end first. There may be so many layers. Where the result is `Ok` it is how many spans are
/// open. After `Memory`, `Read` and `Write` a front of the text went out, and nothing where it was the reader that
/// failed. The output is flushed by one call, which is the last, after a fault of the script too: where memory is
/// refused or a device fails before it, there is none.
pub fn why_with_layers<R: Read, W: Write>(
    alloc: Global,
    input: &mut Counted<R>,
    output: &mut Counted<W>,
    layers: usize,
    about: Option<&str>,
) -> Result<u64, ReplayFault>
    ensures explained { IfSome (R.remaining (inner_of input.old)) (λ bytes.
        Runs (why_meaning layers (option_copied about.entry) bytes)
        (W.contents (inner_of output.old)) (W.contents (inner_of output.new)) result) }
    ensures whole { OnOk result (IsAtEnd (R.remaining (inner_of input.new))) }
    ensures unread { IfErr result (KeepsUnread (W.contents (inner_of output.old)) (W.contents (inner_of output.new))) }
    ensures flushed { FlushesOnce
        (IsWholeWhy layers (option_copied about.entry) (R.remaining (inner_of input.old))
        (W.contents (inner_of output.old)) (W.contents (inner_of output.new)))
        output.old output.new result }
    ensures counts { EndsAsCounted
        (failed_of input.old) (failed_of input.new) (failed_of output.old) (failed_of output.new) result }
    ensures reads { calls_of input.new ≤ calls_of input.old + 16777217 }
{
    let explained = explain_input(alloc, input, layers, about)?;
    tell(explained, output)
}

/// Writes a text, flushes, and ends as was found.
fn tell<W: Write>(explained: Explained, output: &mut Counted<W>) -> Result<u64, ReplayFault>
    requires ends { IsTrue (has_end explained.ended) }
    ensures runs { (meant : Transcript) → IsExplained meant explained →
        Runs meant (W.contents (inner_of output.old)) (W.contents (inner_of output.new)) result }
    ensures ok { OnOk result (IsOk explained.ended) }
    ensures flushed { FlushesOnce
        (Appends (W.contents (inner_of output.old)) (W.contents (inner_of output.new)) explained.text.items)
        output.old output.new result }
    ensures counts { EndsAsCounted 0 0 (failed_of output.old) (failed_of output.new) result }
{
    send(output, explained.text.as_slice())?;
    flush(output)?;
    explained.ended
}

/// Reads a script to its end and runs its lines. The errors are `Memory` and `Read`.
fn explain_input<R: Read>(
    alloc: Global,
    input: &mut Counted<R>,
    layers: usize,
    about: Option<&str>,
) -> Result<Explained, ReplayFault>
    ensures explained { IfOk result (λ explained. IfSome (R.remaining (inner_of input.old)) (λ bytes.
        IsExplained (why_meaning layers (option_copied about.entry) bytes) explained)) }
    ensures ends { IfOk result (λ explained. IsTrue (has_end explained.ended)) }
    ensures whole { IfOk result (λ explained. OnOk explained.ended (IsAtEnd (R.remaining (inner_of input.new)))) }
    ensures err { IfErr result IsOfReading }
    ensures counts { EndsAsCounted (failed_of input.old) (failed_of input.new) 0 0 result }
    ensures reads { calls_of input.new ≤ calls_of input.old + 16777217 }
{
    match read_script(alloc, input) {
        Ok(script) => explain_script(alloc, &script, layers, about),
        Err(ReplayFault::Script(number, reason)) => Ok(Explained {
            text: Vec::new(alloc),
            ended: Err(ReplayFault::Script(number, reason)),
        }),
        Err(ReplayFault::Memory) => Err(ReplayFault::Memory),
        Err(ReplayFault::Read) => Err(ReplayFault::Read),
        Err(ReplayFault::Write) => unreachable!(),
    }
}

/// Runs the lines of a script that was read. The only error is `Memory`.
fn explain_script(
    alloc: Global,
    script: &[u8],
    layers: usize,
    about: Option<&str>,
) -> Result<Explained, ReplayFault>
    requires { length script.now ≤ most_bytes }
    ensures explained { IfOk result
        (IsExplained (why_run layers (option_copied about.entry) 1 first_reached (script_lines script.now))) }
    ensures memory { IfErr result (λ fault. fault ≡ ReplayFault.Memory) }
{
    // No script has more than MAX_LAYERS layers.
    match plain_hooks(alloc, layers.min(MAX_LAYERS)) {
        Ok(hooks) => explain_all(alloc, script, Setup::new(alloc, hooks), about),
        Err(_) => Err(ReplayFault::Memory),
    }
}

/// Runs all lines of a script from this set-up on. The only error is `Memory`.
fn explain_all<A: Drop, F: Drop>(
    alloc: Global,
    script: &[u8],
    mut setup: Setup<A, F>,
    about: Option<&str>,
) -> Result<Explained, ReplayFault>
where
    Admitters<A>: Admit,
    Formatters<F>: Say,
    requires { length script.now ≤ most_bytes }
    ensures explained { IfOk result
        (IsExplained
        (why_run (hooks_in setup) (option_copied about.entry) 1 (set_up_at setup) (script_lines script.now))) }
    ensures memory { IfErr result (λ fault. fault ≡ ReplayFault.Memory) }
{
    let mut text = Vec::new(alloc);
    let mut scratch = Scratch::new(alloc);
    let mut lines = script;
    let mut number = 1u64;
    while !lines.is_empty() {
        let (line, tail) = cut_line(lines);
        lines = tail;
        if is_skipped(line) {
            number += 1;
            continue;
        }
        match set_up(alloc, line, &mut scratch, &mut setup, &mut text) {
            Ok(None) => number += 1,
            Ok(Some(value)) => return explain_calls(alloc, setup, number, &value, lines, about),
            Err(Stop::Memory) => return Err(ReplayFault::Memory),
            Err(Stop::Refused(reason)) => {
                return nothing_open(alloc, about, Err(ReplayFault::Script(number, reason)));
            }
        }
    }
    nothing_open(alloc, about, Ok(0))
}

/// Runs a line that isn't skipped, or answers its value where its op is neither `limits` nor `layer`.
fn set_up<'s, A: Drop, F: Drop>(
    alloc: Global,
    line: &'s [u8],
    scratch: &'s mut Scratch,
    setup: &mut Setup<A, F>,
    text: &mut Vec<u8>,
) -> Result<Option<Value<'s>>, Stop>
    requires read { is_skipped line.now ≡ false }
    ensures turned { IfOk result (λ value. IfNone value
        (SetsTo (line_turn (hooks_in setup.old) (setup_state setup.old) line.now) (setup_state setup.new))) }
    ensures same { IfOk result (λ value. IfSome value (λ value. setup_state setup.new ≡ setup_state setup.old)) }
    ensures value { IfOk result (λ value. IfSome value (λ value.
        line_turn (hooks_in setup.old) (setup_state setup.old) line.now
        ≡ value_turn (hooks_in setup.old) (setup_state setup.old) (view value))) }
    ensures label { IfOk result (λ value. IfSome value (λ value.
        label_in (setup_state setup.old) line.now ≡ label_by (setup_state setup.old) (view value))) }
    ensures call { IfOk result (λ value. IfSome value (λ value. is_setup (view value) ≡ false)) }
    ensures hooks { OnOk result (hooks_in setup.new ≡ hooks_in setup.old) }
    ensures err { IfErr result (StopsFor (line_turn (hooks_in setup.old) (setup_state setup.old) line.now)) }
{
    let value = json_line(alloc, line, scratch)?;
    if !is_setup_line(&value) {
        return Ok(Some(value));
    }
    setup.run(alloc, &value, text)?;
    Ok(None)
}

/// Runs what is left of a script, with the limits and the layers that its first lines gave. The only error is `Memory`.
fn explain_calls<A: Drop, F: Drop>(
    alloc: Global,
    setup: Setup<A, F>,
    number: u64,
    value: &Value<'_>,
    lines: &[u8],
    about: Option<&str>,
) -> Result<Explained, ReplayFault>
where
    Admitters<A>: Admit,
    Formatters<F>: Say,
    requires call { is_setup (view value.now) ≡ false }
    requires place { number + length lines.now ≤ most_bytes + 1 }
    ensures explained { IfOk result (λ explained. (hooks : ℕ) → IsExplained
        (resumed_why hooks (option_copied about.entry) number (set_up_at setup) (view value.now) lines.now) explained) }
    ensures memory { IfErr result (λ fault. fault ≡ ReplayFault.Memory) }
{
    match open(alloc, setup) {
        Ok(script) => {
            let mut reaching = Reaching {
                script,
                lines: Vec::new(alloc),
            };
            explain_rest(alloc, number, value, lines, about, &mut reaching)
        }
        Err(_) => Err(ReplayFault::Memory),
    }
}

/// The same, on a script of which no call has run.
fn explain_rest<V: Say, A: Admit>(
    alloc: Global,
    number: u64,
    value: &Value<'_>,
    lines: &[u8],
    about: Option<&str>,
    reaching: &mut Reaching<V, A>,
) -> Result<Explained, ReplayFault>
    requires written { IsWritten reaching.old.script }
    requires call { is_setup (view value.now) ≡ false }
    requires place { number + length lines.now ≤ most_bytes + 1 }
    ensures explained { IfOk result (λ explained. (hooks : ℕ) → IsExplained
        (resumed_why hooks (option_copied about.entry) number
        (reached_at reaching.old running) (view value.now) lines.now) explained) }
    ensures memory { IfErr result (λ fault. fault ≡ ReplayFault.Memory) }
{
    match run_rest(alloc, number, value, lines, reaching) {
        Ok(()) => {
            let open = u64::from(reaching.script.open_spans());
            explain(alloc, reaching, about, Ok(open))
        }
        Err(ReplayFault::Script(number, reason)) => {
            explain(
                alloc,
                reaching,
                about,
                Err(ReplayFault::Script(number, reason)),
            )
        }
        // (no other fault ends them)
        Err(_) => Err(ReplayFault::Memory),
    }
}
