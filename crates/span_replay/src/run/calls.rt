//! The calls of a script on the registry, each with the answer that is written for it.
ghost use Rattle.std.specs.Prelude.{◌≡◌, ◌<◌, IfOk, IfErr, OnOk};
ghost use Rattle.span_id.specs.declared.fault.Fault.TheVariants.{Backlog};
ghost use Rattle.span_core.specs.Core.{IsLate};
ghost use Rattle.span_outlet.specs.Request.{record_fields};
ghost use Rattle.span_replay.specs.inside.Calls.{IsMade};
ghost use Rattle.span_replay.specs.Requests.{request_of_call, request_of_new, request_of_event};
ghost use Rattle.span_script.specs.Views.{new_seen, event_seen};

use crate::run::answer::Answer;
use span_core::Core;
use span_id::{Fault, Fields, Id};
use span_layers::{Admit, Say};
use span_outlet::{Latest, ParentOf};
use span_script::{NewEvent, NewSpan, SpanCall, Stop};

/// Makes a span under the parent that was found. The answer is its id, or that no layer wants it, or a refusal.
///
/// The only error is `Memory`.
pub fn new_span<V: Say, A: Admit>(
    core: &mut Core<Latest<V>, A>,
    new: &NewSpan<'_>,
    worker: u32,
    parent: Option<Id>,
) -> Result<Answer, Stop>
    requires worker { worker < core.old.limits.workers }
    requires number { new.now.worker ≡ worker }
    ensures made { IfOk result (λ answer. IsMade core.old (request_of_new (new_seen new.now) parent) answer core.new) }
    ensures memory { IfErr result (λ stop. stop ≡ Stop.Memory) }
{
    let parent = parent.map_or(ParentOf::Root, ParentOf::Of);
    match core.new_span_shared(worker, &new.meta, &new.fields, parent) {
        Ok(Some(id)) => Ok(Answer::Made(id)),
        Ok(None) => Ok(Answer::NotWanted),
        Err(fault) => refusal(core, fault),
    }
}

/// Makes a worker's call on a span. The only error is `Memory`.
#[tactic(auto, using(crate::proofs::CallLemmas::late_counts, crate::proofs::CallLemmas::refused_answer))]
pub fn call<V: Say, A: Admit>(
    core: &mut Core<Latest<V>, A>,
    call: SpanCall,
    worker: u32,
    id: Id,
) -> Result<Answer, Stop>
    requires { worker < core.old.limits.workers }
    ensures made { IfOk result (λ answer. IsMade core.old (request_of_call call worker id) answer core.new) }
    ensures memory { IfErr result (λ stop. stop ≡ Stop.Memory) }
{
    match call {
        SpanCall::Clone => match core.clone_span(worker, id) {
            Ok(()) => Ok(Answer::Cloned),
            Err(fault) => refusal(core, fault),
        },
        SpanCall::Close => match core.try_close(worker, id) {
            Ok(closed) => Ok(Answer::Closed(closed)),
            Err(fault) => refusal(core, fault),
        },
        SpanCall::Enter => match core.enter(worker, id) {
            Ok(first) => Ok(Answer::Entered(first)),
            Err(fault) => refusal(core, fault),
        },
        SpanCall::Exit => match core.exit(worker, id) {
            Ok(closed) => Ok(Answer::Closed(closed)),
            Err(fault) => refusal(core, fault),
        },
    }
}

/// Adds fields to a span. The only error is `Memory`.
pub fn record<V: Say, A: Admit>(
    core: &mut Core<Latest<V>, A>,
    worker: u32,
    id: Id,
    fields: &Fields,
) -> Result<Answer, Stop>
    requires { worker < core.old.limits.workers }
    ensures made { IfOk result (λ answer. IsMade core.old (record_fields worker id fields.now) answer core.new) }
    ensures memory { IfErr result (λ stop. stop ≡ Stop.Memory) }
{
    match core.record_shared(worker, id, fields) {
        Ok(()) => Ok(Answer::Recorded),
        Err(fault) => refusal(core, fault),
    }
}

/// Tells an event. The only error is `Memory`.
pub fn event<V: Say, A: Admit>(
    core: &mut Core<Latest<V>, A>,
    event: &NewEvent,
    worker: u32,
) -> Result<Answer, Stop>
    requires worker { worker < core.old.limits.workers }
    requires number { event.now.worker ≡ worker }
    ensures made { IfOk result (λ answer. IsMade core.old (request_of_event (event_seen event.now)) answer core.new) }
    ensures memory { IfErr result (λ stop. stop ≡ Stop.Memory) }
{
    match core.event_shared(worker, &event.meta, &event.message, &event.fields) {
        Ok(()) => Ok(Answer::Told),
        Err(fault) => refusal(core, fault),
    }
}

/// The answer of a refused call. Want of memory is none: it ends the run.
fn refusal<V: Say, A: Admit>(core: &Core<Latest<V>, A>, fault: Fault) -> Result<Answer, Stop>
    requires { fault ≡ Backlog → 0 < core.now.times_full }
    ensures judged { OnOk result (IsLate fault → ⊥) }
    ensures answer { IfOk result (λ answer. answer ≡ Answer.Refused fault) }
    ensures memory { IfErr result (λ stop. stop ≡ Stop.Memory) }
{
    if fault == Fault::Memory {
        return Err(Stop::Memory);
    }
    if fault == Fault::Backlog {
        outlet_has_places(core);
        unreachable!()
    }
    Ok(Answer::Refused(fault))
}

/// The outlet never lacked a place: it keeps no batch, and each comes in place of the one before.
fn outlet_has_places<V: Say, A: Admit>(core: &Core<Latest<V>, A>)
    ensures { core.now.times_full ≡ 0 }
{
    let _ = core.outlet();
}
