//! The hooks that the layers of a run call.
ghost use Rattle.std.specs.Prelude.{◌≡◌, ◌+◌, ◌^◌, ◌<◌, ◌≤◌, IfOk, IfErr, IfSome, OnOk, vec_len};
ghost use Rattle.std.specs.Io.KnownBytes.{IsAtEnd};
ghost use Rattle.span_run.specs.Counted.{inner_of, calls_of, failed_of};
ghost use Rattle.span_replay.specs.Replayed.{FlushesOnce, IsReplayed, IsWrittenWhole, KeepsUnread};
ghost use Rattle.span_replay.specs.ReplayFault.{EndsAsCounted};

use crate::run::fault::ReplayFault;
use crate::run::replay::replay;
use crate::run::tidying::Remains;
use span_layers::{ByForm, ByRule, Hooks, MAX_LAYERS};
use span_run::Counted;
use std::alloc::{AllocError, Global};
use std::io::{Read, Write};

/// Runs a script that may have so many layers, as `replay` does. Each layer applies its rule by `admits` and writes its
/// notes by `text`.
pub fn replay_with_layers<R: Read, W: Write>(
    alloc: Global,
    input: &mut Counted<R>,
    output: &mut Counted<W>,
    layers: usize,
    remains: Remains,
) -> Result<u64, ReplayFault>
    ensures replayed { IfSome (R.remaining (inner_of input.old)) (λ bytes.
        IsReplayed layers bytes (W.contents (inner_of output.old)) (W.contents (inner_of output.new)) result) }
    ensures whole { OnOk result (IsAtEnd (R.remaining (inner_of input.new))) }
    ensures unread { IfErr result (KeepsUnread (W.contents (inner_of output.old)) (W.contents (inner_of output.new))) }
    ensures flushed { FlushesOnce
        (IsWrittenWhole layers (R.remaining (inner_of input.old))
        (W.contents (inner_of output.old)) (W.contents (inner_of output.new)))
        output.old output.new result }
    ensures left { IfSome (R.remaining (inner_of input.old)) (λ bytes. IfOk result (λ left. left ≡ 0)) }
    ensures counts { EndsAsCounted
        (failed_of input.old) (failed_of input.new) (failed_of output.old) (failed_of output.new) result }
    ensures reads { calls_of input.new ≤ calls_of input.old + 16777217 }
{
    // No script has more than MAX_LAYERS layers. What they call is alike, and takes one block for the list.
    match plain_hooks(alloc, layers.min(MAX_LAYERS)) {
        Ok(hooks) => replay(alloc, input, output, hooks, remains),
        Err(_) => Err(ReplayFault::Memory),
    }
}

/// So many hooks that apply a rule by `admits` and write a note by `text`.
pub fn plain_hooks(alloc: Global, count: usize) -> Result<Vec<Hooks<ByRule, ByForm>>, AllocError>
    ensures { IfOk result (λ hooks. vec_len hooks ≡ count) }
{
    let mut hooks = Vec::with_capacity(alloc, count)?;
    for _ in 0..count {
        hooks.push_reserved(Hooks::by_rule_and_form());
    }
    Ok(hooks)
}
