//! The tidying at the end of a script, and the last line.
ghost use Rattle.std.specs.Prelude.{◌≡◌, ◌^◌, ◌<◌, ℕ, map, IfOk, IfErr, OnOk};
ghost use Rattle.std.specs.List.{range_with_len};
ghost use Rattle.std.specs.Io.KnownBytes.{Appends};
ghost use Rattle.span_replay.specs.Answer.{left_text};
ghost use Rattle.span_run.specs.Counted.{inner_of};
ghost use Rattle.span_replay.specs.Meaning.{last_part};
ghost use Rattle.span_script.specs.Operation.{Stage};
ghost use Rattle.span_replay.specs.Replayed.{Runs};
ghost use Rattle.span_replay.specs.Requests.{request_of_call};
ghost use Rattle.span_replay.specs.inside.Running.{IsWritten, core_in, labels_in, state_at};
ghost use Rattle.span_replay.specs.inside.Turns.{TextFails, AreMade};
ghost use Rattle.span_replay.specs.inside.Writing.{OnlyWrites};
ghost use Rattle.span_replay.specs.Written.{call_written, calls_written, closes, each_written, exits};
ghost use Rattle.span_replay.specs.declared.run.fault.ReplayFault.TheVariants.{Memory};

use crate::run::answer::write_left;
use crate::run::device::send;
use crate::run::fault::ReplayFault;
use crate::run::labels::Labels;
use crate::run::script::Script;
use span_id::Id;
use span_layers::{Admit, Say};
use span_run::Counted;
use span_script::SpanCall;
use std::alloc::Global;
use std::io::Write;
use std::mem;

/// What becomes of the memory that a run kept for its spans, its workers' entries and its labels.
#[derive(Clone, Copy, Debug, PartialEq, Eq)]
pub enum Remains {
    /// It is freed.
    Freed,
    /// It is left to the system, for a program that ends after the run: that frees all of it at once.
    Left,
}

/// Frees what a run kept, or leaves it to the system where that is asked for and the run ended well.
pub fn let_go<T: Drop>(kept: T, remains: Remains, ended_well: bool) {
    if ended_well && remains == Remains::Left {
        mem::forget(kept);
    } else {
        drop(kept);
    }
}

/// Leaves what is entered, worker by worker, closes what the labels name, label by label, and writes how many spans
/// are left open, which is the answer.
pub fn tidy<V: Say, A: Admit, W: Write>(
    alloc: Global,
    script: &mut Script<V, A>,
    text: &mut Vec<u8>,
    output: &mut Counted<W>,
) -> Result<u64, ReplayFault>
    requires written { IsWritten script.old }
    ensures runs { (stage : Stage) → Runs (last_part (state_at script.old stage))
        (W.contents (inner_of output.old)) (W.contents (inner_of output.new)) result }
    ensures calls { OnlyWrites output.old output.new result }
{
    let labels = mem::replace(&mut script.labels, Labels::new(alloc));
    let ended = leave_and_close(alloc, script, &labels, text, output);
    script.labels = labels;
    ended
}

/// Leaves what is entered, closes what these labels name, and writes how many spans are left open.
fn leave_and_close<V: Say, A: Admit, W: Write>(
    alloc: Global,
    script: &mut Script<V, A>,
    labels: &Labels,
    text: &mut Vec<u8>,
    output: &mut Counted<W>,
) -> Result<u64, ReplayFault>
    requires written { IsWritten script.old }
    ensures runs { (stage : Stage) →
        Runs (last_part (record { core = core_in script.old; labels = labels.now; stage = stage }))
        (W.contents (inner_of output.old)) (W.contents (inner_of output.new)) result }
    ensures calls { OnlyWrites output.old output.new result }
{
    leave_all(alloc, script, text, output)?;
    close_all(alloc, script, labels, text, output)?;
    finish(script.open_spans(), text, output)
}

/// Leaves what the workers have entered, worker by worker, the last entry first.
fn leave_all<V: Say, A: Admit, W: Write>(
    alloc: Global,
    script: &mut Script<V, A>,
    text: &mut Vec<u8>,
    output: &mut Counted<W>,
) -> Result<(), ReplayFault>
    requires written { IsWritten script.old }
    ensures made { OnOk result (AreMade
        (each_written exits (core_in script.old) (range_with_len 0 script.old.workers))
        (core_in script.new) (W.contents (inner_of output.old)) (W.contents (inner_of output.new))) }
    ensures written { OnOk result (IsWritten script.new) }
    ensures labels { labels_in script.new ≡ labels_in script.old }
    ensures workers { script.new.workers ≡ script.old.workers }
    ensures err { IfErr result (TextFails
        (each_written exits (core_in script.old) (range_with_len 0 script.old.workers)).text
        (W.contents (inner_of output.old)) (W.contents (inner_of output.new))) }
    ensures calls { OnlyWrites output.old output.new result }
{
    for worker in 0..script.workers {
        leave(alloc, worker, script, text, output)?;
    }
    Ok(())
}

/// Leaves what a worker has entered, the last entry first.
fn leave<V: Say, A: Admit, W: Write>(
    alloc: Global,
    worker: u32,
    script: &mut Script<V, A>,
    text: &mut Vec<u8>,
    output: &mut Counted<W>,
) -> Result<(), ReplayFault>
    requires worker { worker < script.old.workers }
    requires written { IsWritten script.old }
    ensures made { OnOk result (AreMade
        (calls_written (core_in script.old) (exits (core_in script.old) worker))
        (core_in script.new) (W.contents (inner_of output.old)) (W.contents (inner_of output.new))) }
    ensures written { OnOk result (IsWritten script.new) }
    ensures labels { labels_in script.new ≡ labels_in script.old }
    ensures workers { script.new.workers ≡ script.old.workers }
    ensures err { IfErr result (TextFails
        (calls_written (core_in script.old) (exits (core_in script.old) worker)).text
        (W.contents (inner_of output.old)) (W.contents (inner_of output.new))) }
    ensures calls { OnlyWrites output.old output.new result }
{
    match script.entered(alloc, worker) {
        Ok(ids) => call_all(SpanCall::Exit, worker, &ids, script, text, output),
        Err(_) => Err(ReplayFault::Memory),
    }
}

/// Closes what the labels name, label by label, as often as it has handles.
fn close_all<V: Say, A: Admit, W: Write>(
    alloc: Global,
    script: &mut Script<V, A>,
    labels: &Labels,
    text: &mut Vec<u8>,
    output: &mut Counted<W>,
) -> Result<(), ReplayFault>
    requires worker { 0 < script.old.workers }
    requires written { IsWritten script.old }
    ensures made { OnOk result (AreMade
        (each_written closes (core_in script.old) (map (λ entry. entry.1) labels.now))
        (core_in script.new) (W.contents (inner_of output.old)) (W.contents (inner_of output.new))) }
    ensures err { IfErr result (TextFails
        (each_written closes (core_in script.old) (map (λ entry. entry.1) labels.now)).text
        (W.contents (inner_of output.old)) (W.contents (inner_of output.new))) }
    ensures calls { OnlyWrites output.old output.new result }
{
    for id in labels.ids() {
        close(alloc, *id, script, text, output)?;
    }
    Ok(())
}

/// Closes a span as often as it has handles.
fn close<V: Say, A: Admit, W: Write>(
    alloc: Global,
    id: Id,
    script: &mut Script<V, A>,
    text: &mut Vec<u8>,
    output: &mut Counted<W>,
) -> Result<(), ReplayFault>
    requires worker { 0 < script.old.workers }
    requires written { IsWritten script.old }
    ensures made { OnOk result (AreMade
        (calls_written (core_in script.old) (closes (core_in script.old) id))
        (core_in script.new) (W.contents (inner_of output.old)) (W.contents (inner_of output.new))) }
    ensures written { OnOk result (IsWritten script.new) }
    ensures workers { script.new.workers ≡ script.old.workers }
    ensures err { IfErr result (TextFails
        (calls_written (core_in script.old) (closes (core_in script.old) id)).text
        (W.contents (inner_of output.old)) (W.contents (inner_of output.new))) }
    ensures calls { OnlyWrites output.old output.new result }
{
    match vec![in alloc; id; script.handles(id) as usize] {
        Ok(ids) => call_all(SpanCall::Close, 0, &ids, script, text, output),
        Err(_) => Err(ReplayFault::Memory),
    }
}

/// Makes a worker's call on these spans, one after another.
fn call_all<V: Say, A: Admit, W: Write>(
    call: SpanCall,
    worker: u32,
    ids: &[Id],
    script: &mut Script<V, A>,
    text: &mut Vec<u8>,
    output: &mut Counted<W>,
) -> Result<(), ReplayFault>
    requires worker { worker < script.old.workers }
    requires written { IsWritten script.old }
    ensures made { OnOk result (AreMade
        (calls_written (core_in script.old) (map (request_of_call call worker) ids.now))
        (core_in script.new) (W.contents (inner_of output.old)) (W.contents (inner_of output.new))) }
    ensures written { OnOk result (IsWritten script.new) }
    ensures labels { labels_in script.new ≡ labels_in script.old }
    ensures workers { script.new.workers ≡ script.old.workers }
    ensures err { IfErr result (TextFails
        (calls_written (core_in script.old) (map (request_of_call call worker) ids.now)).text
        (W.contents (inner_of output.old)) (W.contents (inner_of output.new))) }
    ensures calls { OnlyWrites output.old output.new result }
{
    for id in ids {
        call_one(call, worker, *id, script, text, output)?;
    }
    Ok(())
}

/// Makes a worker's call on a span, and writes its notes and its answer.
fn call_one<V: Say, A: Admit, W: Write>(
    call: SpanCall,
    worker: u32,
    id: Id,
    script: &mut Script<V, A>,
    text: &mut Vec<u8>,
    output: &mut Counted<W>,
) -> Result<(), ReplayFault>
    requires worker { worker < script.old.workers }
    requires written { IsWritten script.old }
    ensures made { OnOk result (AreMade
        (call_written (core_in script.old) (request_of_call call worker id))
        (core_in script.new) (W.contents (inner_of output.old)) (W.contents (inner_of output.new))) }
    ensures written { OnOk result (IsWritten script.new) }
    ensures labels { labels_in script.new ≡ labels_in script.old }
    ensures workers { script.new.workers ≡ script.old.workers }
    ensures err { IfErr result (TextFails
        (call_written (core_in script.old) (request_of_call call worker id)).text
        (W.contents (inner_of output.old)) (W.contents (inner_of output.new))) }
    ensures calls { OnlyWrites output.old output.new result }
{
    text.clear();
    match script.call(call, worker, id, text) {
        Ok(()) => send(output, text.as_slice()),
        Err(_) => Err(ReplayFault::Memory),
    }
}

/// Writes the last line: how many spans are open.
fn finish<W: Write>(
    left: u32,
    text: &mut Vec<u8>,
    output: &mut Counted<W>,
) -> Result<u64, ReplayFault>
    ensures ok { IfOk result (λ n. (n ≡ left)
        × Appends (W.contents (inner_of output.old)) (W.contents (inner_of output.new)) (left_text left)) }
    ensures err { IfErr result (TextFails (left_text left)
        (W.contents (inner_of output.old)) (W.contents (inner_of output.new))) }
    ensures calls { OnlyWrites output.old output.new result }
{
    text.clear();
    if write_left(text, left).is_err() {
        return Err(ReplayFault::Memory);
    }
    send(output, text.as_slice())?;
    Ok(u64::from(left))
}
