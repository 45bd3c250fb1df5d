//! A script as far as its calls have run: the registry, the labels, and of how many batches the notes were written.
ghost use Rattle.std.specs.Prelude.{◌≡◌, ◌<◌, ◌≤◌, ◌++◌, [], None, Ok, ℕ, IfOk, IfErr, OnOk, unwrap_or};
ghost use Rattle.std.specs.Prelude.{length, flat_map, is_some, map, reverse};
ghost use Rattle.span_core.specs.Details.{plain_details, details_of};
ghost use Rattle.span_outlet.specs.Latest.{lines_from};
ghost use Rattle.span_replay.specs.Faults.{id_of_key};
ghost use Rattle.span_replay.specs.Meaning.{labels_after, made_turn, new_turn};
ghost use Rattle.span_script.specs.Reason.{Answers};
ghost use Rattle.span_script.specs.Views.{key_seen};
ghost use Rattle.span_replay.specs.Written.{note_line};
ghost use Rattle.span_replay.specs.inside.Sending.{IsAtMostOneMore};

use crate::run::answer::{Answer, Found, make_room, write_answer, write_found, write_note};
use crate::run::calls;
use crate::run::labels::Labels;
use span_core::{Core, SpanDetails};
use span_forest::Span;
use span_id::{Fault, Fields, Id};
use span_layers::{Admit, Say};
use span_outlet::Latest;
use span_script::{NewEvent, NewSpan, Operation, Parent, Reason, SpanCall, SpanKey, Stop};
use span_stack::SpanStack;
use std::alloc::{AllocError, Global};

/// A script as far as its calls have run. `V` makes the texts of the notes, and `A` applies the layers' rules.
#[derive(Drop)]
pub struct Script<V: Say, A> {
    /// The registry. Its outlet makes the lines of the notes.
    core: Core<Latest<V>, A>,
    /// The labels that are bound.
    pub labels: Labels,
    // How many batches were sent whose lines were written.
    written: u64,
    /// How many workers there are.
    pub workers: u32,
}

impl<V: Say, A: Admit> Script<V, A> {
    ghost use Rattle.span_forest.specs.declared.span.Holder.TheVariants.{Handle};
    ghost use Rattle.span_forest.specs.Holders.{held_in};
    ghost use Rattle.span_forest.specs.Spans.{find};
    ghost use Rattle.span_stack.specs.Stack.{current};
    ghost use Rattle.span_core.specs.World.{stack_of};
    ghost use Rattle.span_replay.specs.Answer.{answer_text};
    ghost use Rattle.span_replay.specs.Faults.{has_handles, parent_of_key};
    ghost use Rattle.span_replay.specs.Labels.{id_in};
    ghost use Rattle.span_replay.specs.Meaning.{turn_of};
    ghost use Rattle.span_replay.specs.Requests.{request_of_call, request_of_new};
    ghost use Rattle.span_script.specs.Operation.{Stage, make, on_span, record_fields, tell, find as look_up};
    ghost use Rattle.span_replay.specs.inside.Running.{core_in, labels_in, state_at, IsWritten, RunsAs, IsWrittenCall};
    ghost use Rattle.span_script.specs.Views.{parent_seen, new_seen, event_seen, operation_seen, NamesWorker, IsCall};

    /// A script of which no call has run, on this registry. The workers are as many as its limits say.
    pub fn new(alloc: Global, workers: u32, core: Core<Latest<V>, A>) -> Script<V, A>
        requires fresh { core.sent ≡ [] }
        requires workers { workers ≡ core.limits.workers }
        requires some { 1 ≤ workers }
        ensures core { core_in result ≡ core }
        ensures labels { labels_in result ≡ [] }
        ensures written { IsWritten result }
    {
        Script {
            core,
            labels: Labels::new(alloc),
            written: 0,
            workers,
        }
    }

    /// Runs a call or `find`, and appends its notes and its answer to the text.
    ///
    /// `Refused` where the script is at fault: then nothing has changed. `Memory` where memory was refused, also for
    /// the text of a note: then the run has to end.
    pub fn run(
        &mut self,
        alloc: Global,
        operation: Operation<'_>,
        text: &mut Vec<u8>,
    ) -> Result<(), Stop>
        requires call { IsCall operation }
        requires worker { NamesWorker operation self.old.workers }
        requires written { IsWritten self.old }
        ensures turn { (hooks : ℕ) (stage : Stage) →
            RunsAs (turn_of hooks (state_at self.old stage) (operation_seen operation.entry)) (state_at self.old stage)
            text.old.items (state_at self.new stage) text.new.items result }
        ensures written { OnOk result (IsWritten self.new) }
        ensures workers { self.new.workers ≡ self.old.workers }
    {
        match operation {
            Operation::New(new) => self.make(alloc, &new, text),
            Operation::OnSpan { call, span, worker } => self.on_span(call, &span, worker, text),
            Operation::Record {
                span,
                fields,
                worker,
            } => self.record(&span, &fields, worker, text),
            Operation::Event(event) => self.tell(event, text),
            Operation::Find(span) => self.find(&span, text),
            Operation::Limits(_) => unreachable!(),
            Operation::Layer(_) => unreachable!(),
        }
    }

    /// A worker's call on a span. Its notes and its answer are appended to the text.
    ///
    /// The only error is `Memory`: then the run has to end.
    pub fn call(
        &mut self,
        call: SpanCall,
        worker: u32,
        id: Id,
        text: &mut Vec<u8>,
    ) -> Result<(), Stop>
        requires worker { worker < self.old.workers }
        requires written { IsWritten self.old }
        ensures call { OnOk result (IsWrittenCall (core_in self.old) text.old.items
            (request_of_call call worker id) (core_in self.new) text.new.items) }
        ensures written { OnOk result (IsWritten self.new) }
        ensures workers { self.new.workers ≡ self.old.workers }
        ensures labels { labels_in self.new ≡ labels_in self.old }
        ensures memory { IfErr result (λ stop. stop ≡ Stop.Memory) }
    {
        let answer = calls::call(&mut self.core, call, worker, id)?;
        self.answer(answer, text)
    }

    /// The ids of the worker's entries, the topmost first. The only error is `Memory`.
    pub fn entered(&self, alloc: Global, worker: u32) -> Result<Vec<Id>, Stop>
        requires worker { worker < self.now.workers }
        requires written { IsWritten self.now }
        ensures ids { IfOk result (λ ids. ids.items ≡ reverse (stack_of (core_in self.now).world worker)) }
        ensures memory { IfErr result (λ stop. stop ≡ Stop.Memory) }
    {
        topmost_first(alloc, self.core.stack(worker))
    }

    /// How many handles the span has: none where it isn't open.
    pub fn handles(&self, id: Id) -> u32
        ensures { result ≡ held_in Handle (find (core_in self.now).world.spans id) }
    {
        match self.core.find(id) {
            Some(span) => span.handles,
            None => 0,
        }
    }

    /// How many spans are open.
    pub fn open_spans(&self) -> u32
        ensures { result ≡ length (core_in self.now).world.spans }
    {
        self.core.len()
    }

    /// All open spans, by ascending slot, each with what is told of it. The only error is `Memory`.
    pub fn span_details(&self) -> Result<Vec<SpanDetails>, Fault>
        ensures { IfOk result (λ list. map plain_details list.items
            ≡ map (details_of (core_in self.now).world) (core_in self.now).world.spans) }
    {
        self.core.span_details()
    }

    /// The worker's stack.
    pub fn stack(&self, worker: u32) -> &SpanStack
        requires { worker < (core_in self.now).limits.workers }
        ensures { result.now.ids ≡ stack_of (core_in self.now).world worker }
    {
        self.core.stack(worker)
    }

    // Makes a span and binds its label, which may name no span that has handles.
    fn make(&mut self, alloc: Global, new: &NewSpan<'_>, text: &mut Vec<u8>) -> Result<(), Stop>
        requires worker { new.now.worker < self.old.workers }
        requires written { IsWritten self.old }
        ensures turn { (hooks : ℕ) (stage : Stage) →
            RunsAs (turn_of hooks (state_at self.old stage) (make (new_seen new.now))) (state_at self.old stage)
            text.old.items (state_at self.new stage) text.new.items result }
        ensures written { OnOk result (IsWritten self.new) }
        ensures workers { self.new.workers ≡ self.old.workers }
    {
        let worker = worker_number(new.worker, self.workers);
        let named = self.labels.get(new.label);
        let is_bound = named.is_some();
        let parent = self.place(new, worker, named)?;
        self.make_under(alloc, new, worker, parent, is_bound, text)
    }

    // The parent of a new span of this worker, whose label may name no span that has handles. It names this one.
    fn place(&self, new: &NewSpan<'_>, worker: u32, named: Option<Id>) -> Result<Option<Id>, Reason>
        requires worker { worker < self.now.workers }
        requires number { worker ≡ new.now.worker }
        requires named { named ≡ id_in (labels_in self.now) new.now.label.now }
        requires written { IsWritten self.now }
        ensures { (stage : Stage) → Answers (λ parent. made_turn (state_at self.now stage) new.now.label.now
            (request_of_new (new_seen new.now) parent)) result (new_turn (state_at self.now stage) (new_seen new.now)) }
    {
        let parent = self.parent(worker, &new.parent)?;
        if self.is_taken(named) {
            return Err(Reason::LabelTaken);
        }
        Ok(parent)
    }

    // Makes a span under this parent and binds its label, which may be bound already.
    fn make_under(
        &mut self,
        alloc: Global,
        new: &NewSpan<'_>,
        worker: u32,
        parent: Option<Id>,
        is_bound: bool,
        text: &mut Vec<u8>,
    ) -> Result<(), Stop>
        requires worker { worker < self.old.workers }
        requires number { new.now.worker ≡ worker }
        requires bound { is_bound ≡ is_some (id_in (labels_in self.old) new.now.label.now) }
        requires written { IsWritten self.old }
        ensures turn { (stage : Stage) →
            RunsAs (Ok (made_turn (state_at self.old stage) new.now.label.now
            (request_of_new (new_seen new.now) parent))) (state_at self.old stage)
            text.old.items (state_at self.new stage) text.new.items result }
        ensures written { OnOk result (IsWritten self.new) }
        ensures workers { self.new.workers ≡ self.old.workers }
    {
        let answer = calls::new_span(&mut self.core, new, worker, parent)?;
        self.give_label(alloc, new.label, is_bound, &answer)?;
        self.answer(answer, text)
    }

    // Makes a worker's call on a span.
    fn on_span(
        &mut self,
        call: SpanCall,
        span: &SpanKey<'_>,
        worker: usize,
        text: &mut Vec<u8>,
    ) -> Result<(), Stop>
        requires worker { worker < self.old.workers }
        requires written { IsWritten self.old }
        ensures turn { (hooks : ℕ) (stage : Stage) →
            RunsAs (turn_of hooks (state_at self.old stage) (on_span call (key_seen span.now) worker))
            (state_at self.old stage) text.old.items (state_at self.new stage) text.new.items result }
        ensures written { OnOk result (IsWritten self.new) }
        ensures workers { self.new.workers ≡ self.old.workers }
    {
        let id = id_of(&self.labels, span)?;
        let worker = worker_number(worker, self.workers);
        let answer = calls::call(&mut self.core, call, worker, id)?;
        self.answer(answer, text)
    }

    // Adds fields to a span.
    fn record(
        &mut self,
        span: &SpanKey<'_>,
        fields: &Fields,
        worker: usize,
        text: &mut Vec<u8>,
    ) -> Result<(), Stop>
        requires worker { worker < self.old.workers }
        requires written { IsWritten self.old }
        ensures turn { (hooks : ℕ) (stage : Stage) →
            RunsAs (turn_of hooks (state_at self.old stage) (record_fields (key_seen span.now) fields.now worker))
            (state_at self.old stage) text.old.items (state_at self.new stage) text.new.items result }
        ensures written { OnOk result (IsWritten self.new) }
        ensures workers { self.new.workers ≡ self.old.workers }
    {
        let id = id_of(&self.labels, span)?;
        let worker = worker_number(worker, self.workers);
        let answer = calls::record(&mut self.core, worker, id, fields)?;
        self.answer(answer, text)
    }

    // Tells an event. Its message is let go of before its lines, which may be as long, are copied.
    fn tell(&mut self, event: NewEvent, text: &mut Vec<u8>) -> Result<(), Stop>
        requires worker { event.worker < self.old.workers }
        requires written { IsWritten self.old }
        ensures turn { (hooks : ℕ) (stage : Stage) →
            RunsAs (turn_of hooks (state_at self.old stage) (tell (event_seen event))) (state_at self.old stage)
            text.old.items (state_at self.new stage) text.new.items result }
        ensures written { OnOk result (IsWritten self.new) }
        ensures workers { self.new.workers ≡ self.old.workers }
    {
        let worker = worker_number(event.worker, self.workers);
        let answer = calls::event(&mut self.core, &event, worker)?;
        drop(event);
        self.answer(answer, text)
    }

    // Looks a span up.
    fn find(&self, span: &SpanKey<'_>, text: &mut Vec<u8>) -> Result<(), Stop>
        ensures turn { (hooks : ℕ) (stage : Stage) →
            RunsAs (turn_of hooks (state_at self.now stage) (look_up (key_seen span.now))) (state_at self.now stage)
            text.old.items (state_at self.now stage) text.new.items result }
    {
        let id = id_of(&self.labels, span)?;
        let Some(span) = self.core.find(id) else {
            return write_answer(text, Answer::Refused(Fault::Unknown));
        };
        write_found(text, &found(span))?;
        Ok(())
    }

    // Binds the label of a span, where it was made. It may be bound already.
    fn give_label(
        &mut self,
        alloc: Global,
        label: &str,
        is_bound: bool,
        answer: &Answer,
    ) -> Result<(), AllocError>
        requires { is_bound ≡ is_some (id_in (labels_in self.old) label.now) }
        ensures labels { OnOk result (labels_in self.new ≡ labels_after (labels_in self.old) label.now answer.now) }
        ensures core { core_in self.new ≡ core_in self.old }
        ensures written { self.new.written ≡ self.old.written }
        ensures workers { self.new.workers ≡ self.old.workers }
    {
        match answer {
            Answer::Made(id) => {
                if is_bound {
                    self.labels.bind(alloc, label, *id)
                } else {
                    self.labels.bind_first(alloc, label, *id)
                }
            }
            _ => Ok(()),
        }
    }

    // The parent that is meant for a new span of this worker.
    fn parent(&self, worker: u32, parent: &Parent<'_>) -> Result<Option<Id>, Reason>
        requires worker { worker < self.now.workers }
        requires written { IsWritten self.now }
        ensures { Answers (λ id. id) result
            (parent_of_key (labels_in self.now) (current (stack_of (core_in self.now).world worker))
            (parent_seen parent.now)) }
    {
        match parent {
            Parent::Current => Ok(self.core.stack(worker).current()),
            Parent::Root => Ok(None),
            Parent::Named(key) => Ok(Some(id_of(&self.labels, key)?)),
        }
    }

    // Whether the span that a label names, if any, is open and has handles.
    fn is_taken(&self, named: Option<Id>) -> bool
        ensures { result ≡ has_handles (core_in self.now).world.spans named }
    {
        match named {
            Some(id) => self.handles(id) > 0,
            None => false,
        }
    }

    // Writes the notes that are new, and then the answer of the call that made them. The only error is `Memory`.
    fn answer(&mut self, answer: Answer, text: &mut Vec<u8>) -> Result<(), Stop>
        requires { IsAtMostOneMore self.old.written (core_in self.old).sent }
        ensures text { OnOk result (text.new.items ≡ text.old.items
            ++ (flat_map note_line (lines_from (core_in self.old).forms self.old.written (core_in self.old).sent)
            ++ answer_text answer)) }
        ensures written { OnOk result (self.new.written ≡ length (core_in self.old).sent) }
        ensures core { core_in self.new ≡ core_in self.old }
        ensures labels { labels_in self.new ≡ labels_in self.old }
        ensures workers { self.new.workers ≡ self.old.workers }
        ensures memory { IfErr result (λ stop. stop ≡ Stop.Memory) }
    {
        self.written = write_notes(self.core.outlet(), self.written, text)?;
        write_answer(text, answer)
    }
}

// The number of a worker, of which there are so many.
fn worker_number(worker: usize, workers: u32) -> u32
    requires { worker < workers }
    ensures { result ≡ worker }
{
    worker as u32
}

// Writes the lines of the outlet, if it was sent a batch more than so many, and answers how many it was sent. The only
// error is `Memory`, also where the outlet had none.
fn write_notes<V: Say>(latest: &Latest<V>, written: u64, text: &mut Vec<u8>) -> Result<u64, Stop>
    requires { IsAtMostOneMore written latest.now.sent }
    ensures text { OnOk result (text.new.items
        ≡ text.old.items ++ flat_map note_line (lines_from latest.now.forms written latest.now.sent)) }
    ensures written { IfOk result (λ sent. sent ≡ length latest.now.sent) }
    ensures memory { IfErr result (λ stop. stop ≡ Stop.Memory) }
{
    if latest.missed() > 0 {
        return Err(Stop::Memory);
    }
    let sent = latest.sent();
    if sent == written {
        return Ok(sent);
    }
    make_room(text, latest.lines())?;
    for line in latest.lines() {
        let Ok(()) = write_note(text, line) else {
            return Err(Stop::Memory);
        };
    }
    Ok(sent)
}

// What is told of a span that was looked up.
fn found(span: &Span) -> Found<'_>
    ensures name { result.name.now ≡ span.now.meta.name }
    ensures parent { result.parent ≡ unwrap_or span.now.parent 0 }
    ensures handles { result.handles ≡ span.now.handles }
    ensures entries { result.entries ≡ span.now.entries }
    ensures count { result.count ≡ span.now.count }
{
    Found {
        name: span.meta.as_meta().name.as_str(),
        parent: span.parent.map_or(0, Id::get),
        handles: span.handles,
        entries: span.entries,
        count: span.count,
    }
}

// The id of the span that a line names.
fn id_of(labels: &Labels, key: &SpanKey<'_>) -> Result<Id, Reason>
    ensures { Answers (λ id. id) result (id_of_key labels.now (key_seen key.now)) }
{
    match key {
        SpanKey::Label(label) => match labels.get(label) {
            Some(id) => Ok(id),
            None => Err(Reason::NoSuchLabel),
        },
        SpanKey::Id(id) => Ok(*id),
    }
}

// The ids of a stack's entries, the topmost first. The only error is `Memory`.
fn topmost_first(alloc: Global, stack: &SpanStack) -> Result<Vec<Id>, Stop>
    ensures ids { IfOk result (λ ids. ids.items ≡ reverse stack.now.ids) }
    ensures memory { IfErr result (λ stop. stop ≡ Stop.Memory) }
{
    let mut ids = Vec::new(alloc);
    let mut below = stack.len();
    while below > 0 {
        below -= 1;
        let Some(id) = stack.get(below) else {
            unreachable!()
        };
        ids.push(id)?;
    }
    Ok(ids)
}
