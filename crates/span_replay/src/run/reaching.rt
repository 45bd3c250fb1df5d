//! The lines of a script from the first call on, with nothing written: how far they get.
ghost use Rattle.std.specs.Prelude.{◌≡◌, ◌+◌, ◌≤◌, ℕ, List, Option, false, length, option_copied, IfErr, OnOk};
ghost use Rattle.span_json.specs.Seen.{view};
ghost use Rattle.span_replay.specs.Explained.{label_by, label_in, label_of, lines_after, named_by, other_id, why_run};
ghost use Rattle.span_replay.specs.Meaning.{line_turn, turn_of, value_turn};
ghost use Rattle.span_replay.specs.inside.Reaching.{EndsAt, Halts, HasEnded, HasReached, KnowsWorkers};
ghost use Rattle.span_replay.specs.inside.Reaching.{reached_at, resumed_why};
ghost use Rattle.span_replay.specs.inside.Running.{IsWritten, state_at};
ghost use Rattle.span_script.specs.Operation.{is_setup, running};
ghost use Rattle.span_script.specs.Script.{is_skipped, script_lines, most_bytes};
ghost use Rattle.span_script.specs.Views.{IsCall, NamesWorker, operation_seen};

use crate::run::fault::{ReplayFault, at_line};
use crate::run::labels::Labels;
use crate::run::script::Script;
use span_id::Id;
use span_json::{Scratch, Value};
use span_layers::{Admit, Say};
use span_script::{Operation, Stop, cut_line, is_skipped, json_line, operation_in_line};
use std::alloc::{AllocError, Global};

/// A script between two of its calls, and which lines made its spans.
#[derive(Drop)]
pub struct Reaching<V: Say, A> {
    /// The registry and the labels.
    pub script: Script<V, A>,
    /// By slot the number of the line that last made a span there.
    pub lines: Vec<u64>,
}

/// Runs the line of this number, whose value was read already, and then these lines.
///
/// `Script` where the script is at fault: then what is reached is what the lines before have left. The only other error
/// is `Memory`.
pub fn run_rest<V: Say, A: Admit>(
    alloc: Global,
    number: u64,
    value: &Value<'_>,
    lines: &[u8],
    reaching: &mut Reaching<V, A>,
) -> Result<(), ReplayFault>
    requires written { IsWritten reaching.old.script }
    requires call { is_setup (view value.now) ≡ false }
    requires place { number + length lines.now ≤ most_bytes + 1 }
    ensures ended { OnOk result ((hooks : ℕ) (about : Option (List ℕ)) → HasEnded
        (resumed_why hooks about number (reached_at reaching.old running) (view value.now) lines.now)
        about (reached_at reaching.new running)) }
    ensures err { IfErr result (λ fault. (hooks : ℕ) (about : Option (List ℕ)) → EndsAt
        (resumed_why hooks about number (reached_at reaching.old running) (view value.now) lines.now)
        about (reached_at reaching.new running) fault) }
    ensures written { OnOk result (IsWritten reaching.new.script) }
    ensures known { IfErr result (λ fault.
        KnowsWorkers fault reaching.new.script.workers (reached_at reaching.new running)) }
{
    let mut text = Vec::new(alloc);
    match run_value(alloc, number, value, reaching, &mut text) {
        Ok(()) => run_lines(alloc, number + 1, lines, reaching, &mut text),
        Err(stop) => Err(at_line(number, stop)),
    }
}

/// Runs lines, of which the first has this number.
fn run_lines<V: Say, A: Admit>(
    alloc: Global,
    first: u64,
    lines: &[u8],
    reaching: &mut Reaching<V, A>,
    text: &mut Vec<u8>,
) -> Result<(), ReplayFault>
    requires written { IsWritten reaching.old.script }
    requires place { first + length lines.now ≤ most_bytes + 2 }
    ensures ended { OnOk result ((hooks : ℕ) (about : Option (List ℕ)) → HasEnded
        (why_run hooks about first (reached_at reaching.old running) (script_lines lines.now))
        about (reached_at reaching.new running)) }
    ensures err { IfErr result (λ fault. (hooks : ℕ) (about : Option (List ℕ)) → EndsAt
        (why_run hooks about first (reached_at reaching.old running) (script_lines lines.now))
        about (reached_at reaching.new running) fault) }
    ensures written { OnOk result (IsWritten reaching.new.script) }
    ensures known { IfErr result (λ fault.
        KnowsWorkers fault reaching.new.script.workers (reached_at reaching.new running)) }
{
    let mut scratch = Scratch::new(alloc);
    let mut rest = lines;
    let mut number = first;
    while !rest.is_empty() {
        let (line, tail) = cut_line(rest);
        rest = tail;
        if is_skipped(line) {
            number += 1;
            continue;
        }
        if let Err(stop) = run_line(alloc, number, line, &mut scratch, reaching, text) {
            return Err(at_line(number, stop));
        }
        number += 1;
    }
    Ok(())
}

/// Runs one line that isn't skipped.
fn run_line<V: Say, A: Admit>(
    alloc: Global,
    number: u64,
    line: &[u8],
    scratch: &mut Scratch,
    reaching: &mut Reaching<V, A>,
    text: &mut Vec<u8>,
) -> Result<(), Stop>
    requires written { IsWritten reaching.old.script }
    requires read { is_skipped line.now ≡ false }
    ensures turned { OnOk result ((hooks : ℕ) → HasReached number
        (label_in (state_at reaching.old.script running) line.now)
        (line_turn hooks (state_at reaching.old.script running) line.now)
        (reached_at reaching.old running) (reached_at reaching.new running)) }
    ensures written { OnOk result (IsWritten reaching.new.script) }
    ensures err { IfErr result (λ stop. (hooks : ℕ) → Halts
        (line_turn hooks (state_at reaching.old.script running) line.now)
        (reached_at reaching.old running) (reached_at reaching.new running) stop) }
    ensures workers { reaching.new.script.workers ≡ reaching.old.script.workers }
{
    let value = json_line(alloc, line, scratch)?;
    run_value(alloc, number, &value, reaching, text)
}

/// Runs the line of a JSON value.
fn run_value<V: Say, A: Admit>(
    alloc: Global,
    number: u64,
    value: &Value<'_>,
    reaching: &mut Reaching<V, A>,
    text: &mut Vec<u8>,
) -> Result<(), Stop>
    requires written { IsWritten reaching.old.script }
    ensures turned { OnOk result ((hooks : ℕ) → HasReached number
        (label_by (state_at reaching.old.script running) (view value.now))
        (value_turn hooks (state_at reaching.old.script running) (view value.now))
        (reached_at reaching.old running) (reached_at reaching.new running)) }
    ensures written { OnOk result (IsWritten reaching.new.script) }
    ensures err { IfErr result (λ stop. (hooks : ℕ) → Halts
        (value_turn hooks (state_at reaching.old.script running) (view value.now))
        (reached_at reaching.old running) (reached_at reaching.new running) stop) }
    ensures workers { reaching.new.script.workers ≡ reaching.old.script.workers }
{
    let workers = reaching.script.workers as usize;
    let operation = operation_in_line(alloc, value, workers, span_script::Stage::Running)?;
    run_operation(alloc, number, operation, reaching, text)
}

/// Runs a call or `find`, and notes which line made the span, if one was made.
fn run_operation<V: Say, A: Admit>(
    alloc: Global,
    number: u64,
    operation: Operation<'_>,
    reaching: &mut Reaching<V, A>,
    text: &mut Vec<u8>,
) -> Result<(), Stop>
    requires call { IsCall operation }
    requires worker { NamesWorker operation reaching.old.script.workers }
    requires written { IsWritten reaching.old.script }
    ensures turned { OnOk result ((hooks : ℕ) → HasReached number (label_of (operation_seen operation.entry))
        (turn_of hooks (state_at reaching.old.script running) (operation_seen operation.entry))
        (reached_at reaching.old running) (reached_at reaching.new running)) }
    ensures written { OnOk result (IsWritten reaching.new.script) }
    ensures err { IfErr result (λ stop. (hooks : ℕ) → Halts
        (turn_of hooks (state_at reaching.old.script running) (operation_seen operation.entry))
        (reached_at reaching.old running) (reached_at reaching.new running) stop) }
    ensures workers { reaching.new.script.workers ≡ reaching.old.script.workers }
{
    let label = label_of(&operation);
    let before = named_by(&reaching.script.labels, label);
    text.clear();
    reaching.script.run(alloc, operation, text)?;
    let made = other_id(before, named_by(&reaching.script.labels, label));
    note_line(&mut reaching.lines, number, made)?;
    Ok(())
}

/// The label that an operation binds where it makes a span.
fn label_of<'s>(operation: &Operation<'s>) -> Option<&'s str>
    ensures { option_copied result ≡ label_of (operation_seen operation.now) }
{
    match operation {
        Operation::New(new) => Some(new.label),
        _ => None,
    }
}

/// The id that a label names, if there is one.
pub fn named_by(labels: &Labels, label: Option<&str>) -> Option<Id>
    ensures { result ≡ named_by labels.now (option_copied label.entry) }
{
    match label {
        Some(label) => labels.get(label),
        None => None,
    }
}

/// An id that stands there now, and didn't before.
fn other_id(before: Option<Id>, after: Option<Id>) -> Option<Id>
    ensures { result ≡ other_id before after }
{
    let id = after?;
    match before {
        Some(before) => { if before == id { None } else { Some(id) } }
        None => Some(id),
    }
}

/// Notes the number of the line that made a span, at its slot.
fn note_line(lines: &mut Vec<u64>, number: u64, made: Option<Id>) -> Result<(), AllocError>
    ensures { OnOk result (lines.new.items ≡ lines_after number lines.old.items made) }
{
    let Some(id) = made else {
        return Ok(());
    };
    let slot = id.slot() as usize;
    if lines.len() <= slot {
        lines.resize(slot + 1, 0)?;
    }
    lines[slot] = number;
    Ok(())
}
