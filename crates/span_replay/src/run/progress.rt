//! How far a script has run: its limits and its layers are being given, or its calls are being made.
ghost use Rattle.std.specs.Prelude.{◌≡◌, ℕ, Ok, false, IfErr, OnOk};
ghost use Rattle.std.specs.Prelude.{IfOk};
ghost use Rattle.span_json.specs.Seen.{view};
ghost use Rattle.span_replay.specs.Meaning.{last_part, line_turn, value_turn};
ghost use Rattle.span_replay.specs.Replayed.{Runs};
ghost use Rattle.span_replay.specs.inside.Progress.{HasHooks, IsRunning, MayGoOn, state_of};
ghost use Rattle.span_replay.specs.inside.Running.{IsWritten, state_at};
ghost use Rattle.span_replay.specs.inside.Writing.{OnlyWrites};
ghost use Rattle.span_run.specs.Counted.{inner_of};
ghost use Rattle.span_script.specs.Operation.{running};
ghost use Rattle.span_script.specs.Reason.{StopsFor};
ghost use Rattle.span_script.specs.Script.{is_skipped};

use crate::run::fault::ReplayFault;
use crate::run::opening::open;
use crate::run::script::Script;
use crate::run::setup::Setup;
use crate::run::tidying::tidy;
use span_json::{Scratch, Value};
use span_layers::{Admit, Admitters, Formatters, Say};
use span_run::Counted;
use span_script::{LineMetas, Stage, Stop, is_setup_line, json_line, operation_with_metas};
use std::alloc::{AllocError, Global};
use std::io::Write;
use std::mem;

/// How far a script has run, by what stands then: `S` until its first call, `R` from it on.
#[derive(Drop)]
pub enum Progress<S, R> {
    /// Its lines gave limits and layers, and no call came.
    Opening(S),
    /// The registry was made, and calls on it.
    Running(R),
    /// Memory for the registry was refused.
    Lost,
}

impl<S: Drop, R: Drop> Progress<S, R> {
    ghost use Rattle.span_replay.specs.inside.Progress.{TakesOpening};
    ghost use Rattle.span_replay.specs.declared.run.progress.Progress.TheVariants.{Running};

    /// Takes out what stands before the first call, unless calls are made already.
    fn take_opening(&mut self) -> Option<S>
        ensures { TakesOpening self.old self.new result }
    {
        match mem::replace(self, Progress::Lost) {
            Progress::Opening(opening) => Some(opening),
            Progress::Running(running) => {
                *self = Progress::Running(running);
                None
            }
            Progress::Lost => None,
        }
    }

    /// Calls are made on this from now on.
    fn run_on(&mut self, running: R)
        ensures { self.new ≡ Running running }
    {
        *self = Progress::Running(running);
    }
}

/// Runs a line that isn't skipped. The text is its notes and its answer.
///
/// The line's value ends with it: its members may take much memory, of which the later lines need nothing.
pub fn step<A: Drop, F: Drop>(
    progress: &mut Progress<Setup<A, F>, Script<Formatters<F>, Admitters<A>>>,
    alloc: Global,
    line: &[u8],
    scratch: &mut Scratch,
    metas: &mut LineMetas,
    text: &mut Vec<u8>,
) -> Result<(), Stop>
where
    Admitters<A>: Admit,
    Formatters<F>: Say,
    requires read { is_skipped line.now ≡ false }
    requires ready { MayGoOn progress.old }
    ensures turned { OnOk result ((hooks : ℕ) → HasHooks hooks progress.old →
        line_turn hooks (state_of progress.old) line.now
        ≡ Ok (record { text = text.new.items; state = state_of progress.new })) }
    ensures ready { OnOk result (MayGoOn progress.new) }
    ensures hooks { OnOk result ((hooks : ℕ) → HasHooks hooks progress.old → HasHooks hooks progress.new) }
    ensures err { IfErr result (λ stop. (hooks : ℕ) → HasHooks hooks progress.old →
        StopsFor (line_turn hooks (state_of progress.old) line.now) stop) }
{
    let value = json_line(alloc, line, scratch)?;
    if let Progress::Opening(setup) = progress {
        if is_setup_line(&value) {
            return setup.run(alloc, &value, text);
        }
        let Ok(()) = begin(progress, alloc) else {
            return Err(Stop::Memory);
        };
    }
    let Progress::Running(script) = progress else {
        unreachable!()
    };
    call(alloc, &value, metas, script, text)
}

/// Makes the registry with the limits and the layers that the lines gave, if it isn't made.
fn begin<A: Drop, F: Drop>(
    progress: &mut Progress<Setup<A, F>, Script<Formatters<F>, Admitters<A>>>,
    alloc: Global,
) -> Result<(), AllocError>
where
    Admitters<A>: Admit,
    Formatters<F>: Say,
    requires { MayGoOn progress.old }
    ensures running { OnOk result (IsRunning progress.new) }
    ensures state { OnOk result (state_of progress.new ≡ record (state_of progress.old) { stage = running }) }
{
    let Some(setup) = progress.take_opening() else {
        return Ok(());
    };
    let script = open(alloc, setup)?;
    progress.run_on(script);
    Ok(())
}

/// The tidying at the end of a script, and the last line: how many spans are left open, which is the answer.
pub fn end<A: Drop, F: Drop, W: Write>(
    progress: &mut Progress<Setup<A, F>, Script<Formatters<F>, Admitters<A>>>,
    alloc: Global,
    text: &mut Vec<u8>,
    output: &mut Counted<W>,
) -> Result<u64, ReplayFault>
where
    Admitters<A>: Admit,
    Formatters<F>: Say,
    requires { MayGoOn progress.old }
    ensures runs { Runs (last_part (state_of progress.old))
        (W.contents (inner_of output.old)) (W.contents (inner_of output.new)) result }
    ensures calls { OnlyWrites output.old output.new result }
{
    let Ok(()) = begin(progress, alloc) else {
        return Err(ReplayFault::Memory);
    };
    let Progress::Running(script) = progress else {
        unreachable!()
    };
    tidy(alloc, script, text, output)
}

/// Makes the call that a line asks for. The text is its notes and its answer.
fn call<V: Say, A: Admit>(
    alloc: Global,
    line: &Value<'_>,
    metas: &mut LineMetas,
    script: &mut Script<V, A>,
    text: &mut Vec<u8>,
) -> Result<(), Stop>
    requires { IsWritten script.old }
    ensures turned { OnOk result ((hooks : ℕ) → value_turn hooks (state_at script.old running) (view line.now)
        ≡ Ok (record { text = text.new.items; state = state_at script.new running })) }
    ensures written { OnOk result (IsWritten script.new) }
    ensures err { IfErr result
        (λ stop. (hooks : ℕ) → StopsFor (value_turn hooks (state_at script.old running) (view line.now)) stop) }
{
    text.clear();
    let workers = script.workers as usize;
    let operation = operation_with_metas(alloc, line, workers, Stage::Running, metas)?;
    script.run(alloc, operation, text)
}
