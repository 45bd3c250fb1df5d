//! Reading a line: from its bytes to the operation that it asks for.
ghost use Rattle.std.specs.Prelude.{◌≡◌, ◌<◌, codes, IfErr, IfOk, Result};
ghost use Rattle.std.specs.Arc.{arc_str_bytes};
ghost use Rattle.std.specs.Option.{option_map};
ghost use Rattle.serde_json.specs.View.{view};
ghost use Rattle.span_script.specs.Reason.{Answers, AnswersOrStops};
ghost use Rattle.span_script.specs.Operation.{json_of, op_named, op_of, is_setup, operation_of, keys_of, limits_of, layer_of, new_of};
ghost use Rattle.span_script.specs.Operation.{on_span_of, record_of, event_of, find as look_up, find_of, find_old_of};
ghost use Rattle.span_script.specs.Views.{key_seen, operation_seen, op_seen, stage_seen, NamesWorker};
ghost use Rattle.span_script.specs.inside.Parts.{head_of, label_and_worker_of, event_rest};
ghost use Rattle.span_script.specs.inside.Heads.{head_seen};

use crate::fields::fields;
use crate::key::Key;
use crate::key_values::{
    form, kinds, level, limit, parent, required_text, span, text, text_at, worker,
};
use crate::line_metas::{Metas, OwnMetas};
use crate::line_value::{JsonValue, Owned};
use crate::operations::{NewEvent, NewLayer, NewSpan, Operation, SpanCall, SpanKey};
use crate::reason::Reason;
use crate::rules::rule;
use crate::stop::Stop;
use serde_json::Value;
use span_id::{Fields, Id, Level, Limits, SharedMeta};
use span_layers::Style;
use std::alloc::Global;
use std::sync::ArcStr;

/// The ops of a line.
#[derive(Clone, Copy, Debug, PartialEq, Eq)]
pub enum Op {
    Limits,
    Layer,
    New,
    OnSpan(SpanCall),
    Record,
    Event,
    Find,
}

/// How far a script has run.
#[derive(Clone, Copy, Debug, PartialEq, Eq)]
pub enum Stage {
    /// No line has run: `limits` may come.
    AtStart,
    /// Lines of `limits` and `layer` alone have run: `layer` may come.
    InSetup,
    /// A line of another operation has run.
    Running,
}

/// The line as JSON.
#[tactic(auto, using(crate::proofs::Json::json_ok, crate::proofs::Json::json_err))]
pub fn json_value(alloc: Global, line: &[u8]) -> Result<Value, Stop>
    ensures { AnswersOrStops view result (json_of line.now) }
{
    match Value::from_slice(alloc, line) {
        Ok(value) => Ok(value),
        Err(e) => {
            if e.is_memory() {
                Err(Stop::Memory)
            } else {
                Err(Stop::Refused(Reason::NotJson))
            }
        }
    }
}

/// Whether the line's op is `limits` or `layer`, which come before all others.
pub fn is_setup(line: &Value) -> bool
    ensures { result ≡ is_setup (view line.now) }
{
    sets_up(Owned(line))
}

/// What a line's value asks for, where there are so many workers.
///
/// `limits` and `layer` may be late in the script. The operations but these two and `find` name workers
/// below `workers`.
pub fn operation<'v>(
    alloc: Global,
    line: &'v Value,
    workers: usize,
    stage: Stage,
) -> Result<Operation<'v>, Stop>
    ensures meant { AnswersOrStops operation_seen result (operation_of workers (stage_seen stage) (view line.now)) }
    ensures worker { 0 < workers → IfOk result (λ operation. NamesWorker operation workers) }
{
    asked(alloc, Owned(line), workers, stage, &mut OwnMetas)
}

/// The line's op.
pub fn op_in(line: &Value) -> Result<Op, Reason>
    ensures { Answers op_seen result (op_of (view line.now)) }
{
    op_given(Owned(line))
}

/// Whether the op of a line is `limits` or `layer`.
#[tactic(auto, unfolding(crate::specs::Operation::is_setup, crate::specs::Operation::op_of))]
pub(crate) fn sets_up<'v, V: JsonValue<'v>>(line: V) -> bool
    ensures { result ≡ is_setup (V.json line) }
{
    matches!(op_given(line), Ok(Op::Limits | Op::Layer))
}

/// What a line asks for.
#[tactic(auto, unfolding(crate::specs::Operation::operation_of))]
pub(crate) fn asked<'v, V: JsonValue<'v>, M: Metas>(
    alloc: Global,
    line: V,
    workers: usize,
    stage: Stage,
    metas: &mut M,
) -> Result<Operation<'v>, Stop>
    ensures meant { AnswersOrStops operation_seen result (operation_of workers (stage_seen stage) (V.json line)) }
    ensures worker { 0 < workers → IfOk result (λ operation. NamesWorker operation workers) }
{
    if !line.is_object() {
        return Err(Stop::Refused(Reason::NotObject));
    }
    let op = op_given(line)?;
    with_op(alloc, line, workers, stage, op, metas)
}

/// What a line with this op asks for.
fn with_op<'v, V: JsonValue<'v>, M: Metas>(
    alloc: Global,
    line: V,
    workers: usize,
    stage: Stage,
    op: Op,
    metas: &mut M,
) -> Result<Operation<'v>, Stop>
    ensures { AnswersOrStops operation_seen result
        (keys_of workers (stage_seen stage) (V.json line) (op_seen op)) }
{
    match op {
        Op::Limits => match stage {
            Stage::AtStart => limits(line),
            Stage::InSetup | Stage::Running => Err(Stop::Refused(Reason::LateLine)),
        },
        Op::Layer => match stage {
            Stage::AtStart | Stage::InSetup => layer(alloc, line),
            Stage::Running => Err(Stop::Refused(Reason::LateLine)),
        },
        Op::New => new_span(alloc, line, workers, metas),
        Op::OnSpan(call) => on_span(line, workers, call),
        Op::Record => record(alloc, line, workers),
        Op::Event => event(alloc, line, workers, metas),
        Op::Find => find(line),
    }
}

/// The op that a line gives.
#[tactic(auto, unfolding(crate::specs::Operation::op_of))]
pub(crate) fn op_given<'v, V: JsonValue<'v>>(line: V) -> Result<Op, Reason>
    ensures { Answers op_seen result (op_of (V.json line)) }
{
    match text_at(line, "op").and_then(op_named) {
        Some(op) => Ok(op),
        None => Err(Reason::NoSuchOp),
    }
}

/// The op of this name.
fn op_named(name: &str) -> Option<Op>
    ensures { option_map op_seen result ≡ op_named name.now }
{
    match name {
        "limits" => Some(Op::Limits),
        "layer" => Some(Op::Layer),
        "new" => Some(Op::New),
        "clone" => Some(Op::OnSpan(SpanCall::Clone)),
        "close" => Some(Op::OnSpan(SpanCall::Close)),
        "enter" => Some(Op::OnSpan(SpanCall::Enter)),
        "exit" => Some(Op::OnSpan(SpanCall::Exit)),
        "record" => Some(Op::Record),
        "event" => Some(Op::Event),
        "find" => Some(Op::Find),
        _ => None,
    }
}

/// The limits that a line asks for, the default where it gives none. They may be out of their ranges.
#[tactic(auto, unfolding(crate::specs::Operation::limits_of))]
fn limits<'v, V: JsonValue<'v>>(line: V) -> Result<Operation<'v>, Stop>
    ensures { AnswersOrStops operation_seen result (limits_of (V.json line)) }
{
    let default = Limits::default();
    let slots = limit(line, Key::Slots, default.slots)?;
    let last_generation = limit(line, Key::LastGeneration, default.last_generation)?;
    let max_count = limit(line, Key::MaxCount, default.max_count)?;
    let workers = limit(line, Key::Workers, default.workers)?;
    Ok(Operation::Limits(Limits {
        slots,
        last_generation,
        max_count,
        workers,
        ring: default.ring,
    }))
}

/// The layer that a line asks for.
#[tactic(auto, unfolding(crate::specs::Operation::layer_of))]
fn layer<'v, V: JsonValue<'v>>(alloc: Global, line: V) -> Result<Operation<'v>, Stop>
    ensures { AnswersOrStops operation_seen result (layer_of (V.json line)) }
{
    let form = form(line)?;
    let spans = kinds(line)?;
    let rule = rule(alloc, line)?;
    Ok(Operation::Layer(NewLayer {
        style: Style { form, spans },
        rule,
    }))
}

/// What a line of a new span or an event begins with: a span's name or an event's message, and where it comes from.
#[derive(Clone, Copy)]
struct Head<'v> {
    text: &'v str,
    target: &'v str,
    level: Level,
}

/// What the line of a new span or an event begins with. The text is the value of this key.
#[tactic(auto, unfolding(crate::specs::inside::Parts::head_of))]
fn read_head<'v, V: JsonValue<'v>>(line: V, key: Key) -> Result<Head<'v>, Reason>
    ensures { Answers head_seen result (head_of key (V.json line)) }
{
    Ok(Head {
        text: required_text(line, key)?,
        target: text(line, Key::Target, "app")?,
        level: level(line)?,
    })
}

/// The new span that a line asks for.
fn new_span<'v, V: JsonValue<'v>, M: Metas>(
    alloc: Global,
    line: V,
    workers: usize,
    metas: &mut M,
) -> Result<Operation<'v>, Stop>
    ensures { AnswersOrStops operation_seen result (new_of workers (V.json line)) }
{
    let head = read_head(line, Key::Name)?;
    let parent = match parent(line) {
        Ok(parent) => parent,
        Err(reason) => return Err(Stop::Refused(reason)),
    };
    let fields = fields(alloc, line)?;
    let (meta, label, worker) = meta_and_label(alloc, line, workers, &head, metas)?;
    Ok(Operation::New(NewSpan {
        meta,
        fields,
        parent,
        label,
        worker,
    }))
}

/// The meta of a new span, its label and its worker.
fn meta_and_label<'v, V: JsonValue<'v>, M: Metas>(
    alloc: Global,
    line: V,
    workers: usize,
    head: &Head<'v>,
    metas: &mut M,
) -> Result<(SharedMeta, &'v str, usize), Stop>
    ensures given { AnswersOrStops (λ given. (given.1.now, given.2)) result
        (label_and_worker_of workers (V.json line) head.now.text.now) }
    ensures meta { IfOk result (λ given. given.0
        ≡ record { name = head.now.text.now; target = head.now.target.now; level = head.now.level }) }
{
    let (label, worker) = label_and_worker(line, head.text, workers)?;
    let meta = metas.give(alloc, head.text, head.target, head.level)?;
    Ok((meta, label, worker))
}

/// The label of a new span of this name, and its worker.
#[tactic(auto, unfolding(crate::specs::inside::Parts::label_and_worker_of))]
fn label_and_worker<'v, V: JsonValue<'v>>(
    line: V,
    name: &'v str,
    workers: usize,
) -> Result<(&'v str, usize), Reason>
    ensures { Answers (λ given. (given.0.now, given.1)) result (label_and_worker_of workers (V.json line) name.now) }
{
    let label = text(line, Key::Label, name)?;
    let worker = worker(line, workers)?;
    Ok((label, worker))
}

/// The call on a span that a line asks for.
#[tactic(auto, unfolding(crate::specs::Operation::on_span_of))]
fn on_span<'v, V: JsonValue<'v>>(
    line: V,
    workers: usize,
    call: SpanCall,
) -> Result<Operation<'v>, Stop>
    ensures { AnswersOrStops operation_seen result (on_span_of workers call (V.json line)) }
{
    let span = match span(line) {
        Ok(span) => span,
        Err(reason) => return Err(Stop::Refused(reason)),
    };
    let worker = worker(line, workers)?;
    Ok(Operation::OnSpan { call, span, worker })
}

/// The record that a line asks for.
#[tactic(auto, unfolding(crate::specs::Operation::record_of))]
fn record<'v, V: JsonValue<'v>>(
    alloc: Global,
    line: V,
    workers: usize,
) -> Result<Operation<'v>, Stop>
    ensures { AnswersOrStops operation_seen result (record_of workers (V.json line)) }
{
    let span = match span(line) {
        Ok(span) => span,
        Err(reason) => return Err(Stop::Refused(reason)),
    };
    let fields = fields(alloc, line)?;
    let worker = worker(line, workers)?;
    Ok(Operation::Record {
        span,
        fields,
        worker,
    })
}

/// The event that a line asks for, whose name is `event`.
fn event<'v, V: JsonValue<'v>, M: Metas>(
    alloc: Global,
    line: V,
    workers: usize,
    metas: &mut M,
) -> Result<Operation<'v>, Stop>
    ensures { AnswersOrStops operation_seen result (event_of workers (V.json line)) }
{
    let head = read_head(line, Key::Message)?;
    let fields = fields(alloc, line)?;
    event_with(alloc, line, workers, &head, fields, metas)
}

/// The event of a line that gives these fields.
fn event_with<'v, V: JsonValue<'v>, M: Metas>(
    alloc: Global,
    line: V,
    workers: usize,
    head: &Head<'_>,
    fields: Fields,
    metas: &mut M,
) -> Result<Operation<'v>, Stop>
    ensures { AnswersOrStops operation_seen result
        (event_rest workers (V.json line) (head_seen head.now) fields) }
{
    let worker = worker(line, workers)?;
    let (meta, message) = event_texts(alloc, head, metas)?;
    Ok(Operation::Event(NewEvent {
        meta,
        message,
        fields,
        worker,
    }))
}

/// The meta and the message of an event. The only error is `Memory`.
fn event_texts<M: Metas>(
    alloc: Global,
    head: &Head<'_>,
    metas: &mut M,
) -> Result<(SharedMeta, ArcStr), Stop>
    ensures texts { IfOk result (λ texts. (texts.0
        ≡ record { name = codes "event"; target = head.now.target.now; level = head.now.level })
        × (arc_str_bytes texts.1 ≡ head.now.text.now)) }
    ensures memory { IfErr result (λ stop. stop ≡ Stop.Memory) }
{
    let meta = metas.give(alloc, "event", head.target, head.level)?;
    let message = ArcStr::from_str(alloc, head.text)?;
    Ok((meta, message))
}

/// The look-up that a line asks for.
fn find<'v, V: JsonValue<'v>>(line: V) -> Result<Operation<'v>, Stop>
    ensures { AnswersOrStops operation_seen result (find_of (V.json line)) }
{
    match looked_up(line) {
        Ok(span) => Ok(Operation::Find(span)),
        Err(reason) => Err(Stop::Refused(reason)),
    }
}

/// The span that a line looks up: by `span`, or by `old`, an id of the older layout.
#[tactic(auto, unfolding(crate::specs::Operation::find_of))]
fn looked_up<'v, V: JsonValue<'v>>(line: V) -> Result<SpanKey<'v>, Reason>
    ensures { Answers (λ span. look_up (key_seen span)) result (find_of (V.json line)) }
{
    let Some(old) = line.member(Key::Old.text()) else {
        return span(line);
    };
    if line.member(Key::Span.text()).is_none() {
        return span_of_old(old);
    }
    match span(line) {
        Ok(_) => Err(Reason::BadKey(Key::Old)),
        Err(reason) => Err(reason),
    }
}

/// The span that had this id in the older layout.
fn span_of_old<'v, V: JsonValue<'v>>(value: V) -> Result<SpanKey<'v>, Reason>
    ensures { Answers (λ span. look_up (key_seen span)) result (find_old_of (V.json value)) }
{
    match value.number().and_then(Id::from_v1) {
        Some(id) => Ok(SpanKey::Id(id)),
        None => Err(Reason::BadKey(Key::Old)),
    }
}
