//! The end of a registry: the share of its caller, and its report.
ghost use Rattle.std.specs.Prelude.{◌≡◌, ◌+◌, ◌-◌, ◌^◌, ◌≤◌};
ghost use Rattle.refused_memory.specs.Units.{units_in};

use crate::rows::caller::Caller;
use crate::rows::hands::Hands;
use crate::stage::{Memory, Stage};
use crate::texts::shown;
use span_registry::{DroppableHandle, Line, Report, Setup, Share};
use std::sync::ledger::Ledger;

/// The whole share, that of the worker and those of the handles that are left. What it counts is told where that is
/// asked for.
pub(crate) fn whole<H: Ledger, C: Ledger, S: Setup, R: Print>(
    stage: &Stage<R>,
    caller: Caller<H, C, S>,
    is_told: bool,
) -> Share<H, C, S>
    ensures handles { result.handle_parts ≡ 2 ^ 64 - 1 }
    ensures calls { result.call_parts ≡ 1 }
{
    let Caller { worker, hands } = caller;
    let Hands { first, second } = hands;
    stage.begin(Memory::Untouched);
    let accepted = worker.accepted();
    let share = with(worker.leave(), first);
    let share = with(share, second);
    let units = share.units();
    stage.over();
    if is_told {
        tell_share(stage, units, accepted);
    }
    share
}

// A share with that of a handle.
#[tactic(auto, unfolding(crate::specs::Units::units_in))]
fn with<H: Ledger, C: Ledger, S: Setup>(
    share: Share<H, C, S>,
    held: Option<DroppableHandle<H, C, S>>,
) -> Share<H, C, S>
    requires few { share.units ≤ 1 }
    ensures handles { result.handle_parts ≡ share.handle_parts + units_in held }
    ensures calls { result.call_parts ≡ share.call_parts }
    ensures units { result.units ≡ share.units + units_in held }
    ensures few { result.units ≤ share.units + 1 }
{
    let _accepted = share.accepted();
    match held {
        None => share,
        Some(held) => share.join(held.into_handle().into_share()),
    }
}

fn tell_share<R: Print>(stage: &Stage<R>, units: u64, accepted: u64) {
    stage.wrote(println!(stage.rt; "share: units {units} accepted {accepted}"));
}

/// Tells how a registry ended, where that is asked for. A line may be missed where memory was refused; then it is
/// counted.
pub(crate) fn tell_end<R: Print>(stage: &Stage<R>, report: &Report, is_told: bool) {
    if !is_told {
        return;
    }
    let Report {
        left,
        handles,
        entries,
        calls,
        made,
        closed,
        lines,
        missed,
    } = report;
    stage.wrote(println!(stage.rt;
        "left {left} handles {handles} entries {entries} calls {calls} made {made} closed {closed}"
    ));
    let told = lines.len() as u64;
    stage.wrote(println!(stage.rt; "lines and missed: {}", missed.saturating_add(told)));
    tell_lines(stage, lines.as_slice());
}

/// Tells lines, of which some may be missed where memory was refused.
pub(crate) fn tell_lines<R: Print>(stage: &Stage<R>, lines: &[Line]) {
    for line in lines {
        tell_line(stage, line);
    }
}

/// Tells a line that may be missed.
pub(crate) fn tell_line<R: Print>(stage: &Stage<R>, line: &Line) {
    let text = shown(line.text.as_slice());
    stage.wrote(println!(stage.rt; "+ {} {} {} {text}", line.batch, line.place, line.layer));
}
