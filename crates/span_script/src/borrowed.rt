//! Lines as JSON values over their own text, and what they ask for.
ghost use Rattle.std.specs.Prelude.{◌≡◌, ◌<◌, IfOk, Result};
ghost use Rattle.span_json.specs.Seen.{view};
ghost use Rattle.span_script.specs.Reason.{Answers, AnswersOrStops};
ghost use Rattle.span_script.specs.Operation.{json_of, op_of, is_setup, operation_of};
ghost use Rattle.span_script.specs.Views.{operation_seen, op_seen, stage_seen, NamesWorker};

use crate::line_metas::{LineMetas, OwnMetas};
use crate::line_value::Borrowed;
use crate::operations::Operation;
use crate::reading::{Op, Stage, asked, op_given, sets_up};
use crate::reason::Reason;
use crate::stop::Stop;
use span_json::{Scratch, Unread, Value, read_value};
use std::alloc::Global;

/// The line as JSON, as `json_value` reads it, with its texts in the line and in the scratch.
#[tactic(auto, using(crate::proofs::Json::json_ok, crate::proofs::Json::json_err))]
pub fn json_line<'v>(
    alloc: Global,
    line: &'v [u8],
    scratch: &'v mut Scratch,
) -> Result<Value<'v>, Stop>
    ensures { AnswersOrStops view result (json_of line.now) }
{
    match read_value(alloc, line, scratch) {
        Ok(value) => Ok(value),
        Err(Unread::Memory) => Err(Stop::Memory),
        Err(Unread::NotJson) => Err(Stop::Refused(Reason::NotJson)),
    }
}

/// Whether the line's op is `limits` or `layer`, as `is_setup` says it.
pub fn is_setup_line(line: &Value<'_>) -> bool
    ensures { result ≡ is_setup (view line.now) }
{
    sets_up(Borrowed(line))
}

/// What a line asks for, as `operation` reads it.
pub fn operation_in_line<'v>(
    alloc: Global,
    line: &Value<'v>,
    workers: usize,
    stage: Stage,
) -> Result<Operation<'v>, Stop>
    ensures meant { AnswersOrStops operation_seen result (operation_of workers (stage_seen stage) (view line.now)) }
    ensures worker { 0 < workers → IfOk result (λ operation. NamesWorker operation workers) }
{
    asked(alloc, Borrowed(line), workers, stage, &mut OwnMetas)
}

/// The same, where metas are shared with earlier lines.
pub fn operation_with_metas<'v>(
    alloc: Global,
    line: &Value<'v>,
    workers: usize,
    stage: Stage,
    metas: &mut LineMetas,
) -> Result<Operation<'v>, Stop>
    ensures meant { AnswersOrStops operation_seen result (operation_of workers (stage_seen stage) (view line.now)) }
    ensures worker { 0 < workers → IfOk result (λ operation. NamesWorker operation workers) }
{
    asked(alloc, Borrowed(line), workers, stage, metas)
}

/// The line's op, as `op_in` reads it.
pub fn op_in_line(line: &Value<'_>) -> Result<Op, Reason>
    ensures { Answers op_seen result (op_of (view line.now)) }
{
    op_given(Borrowed(line))
}
