//! Spans on a core, which has no lock.
ghost use Rattle.std.specs.Prelude.{◌≡◌, ◌<◌, []};

use crate::answer::{Answer, done, held};
use crate::named::Named::{self, One, OneAnew, Two};
use crate::rows::acts::Place::{Apart, Inside};
use crate::rows::acts::Question::{
    self, Find, HeldSpans, HoldersOf, OpenSpans, SpanDetails, WorkersInside,
};
use crate::rows::acts::{Act, Called, Given, MESSAGE};
use crate::rows::on_core::Asked::Call;
use crate::rows::outlets::{Lines, notes_of};
use crate::stage::Memory::{Taken, Untouched};
use crate::stage::Stage;
use crate::stop::Stop;
use crate::texts::{add_lines, add_numbers, add_span, add_stack};
use crate::trial::{Planned, Subject, perform};
use span_core::Core;
use span_id::{Fault, Level, Meta};
use span_layers::{Admit, Filters, Formatting};
use span_outlet::{Kept, Outlet, ParentOf};
use std::alloc::{AllocError, Global};

pub(crate) enum Asked {
    Call(Act),
    /// A field, and a meta, of texts.
    OneField,
    SharedMeta,
    Len,
    Total,
    Calls,
    /// The topmost entry of the worker's stack.
    Top,
    /// How many batches were sent.
    Batches,
    /// How many notes were told or missed.
    Notes,
}

// A span inside another, and one that is entered nine times. The third span gets the slot of the first.
static PLAN: [Planned<'static, Asked>; 40] = [
    ("a field", Taken, Asked::OneField),
    ("a meta", Taken, Asked::SharedMeta),
    ("a meta again", Taken, Asked::SharedMeta),
    ("new a", Taken, Call(Act::New(Called::A, Apart))),
    ("clone 1", Taken, Call(Act::Clone(One))),
    ("enter 1", Taken, Call(Act::Enter(One))),
    ("new b inside", Taken, Call(Act::New(Called::B, Inside))),
    ("record 2", Taken, Call(Act::Record(Two))),
    ("event m", Taken, Call(Act::Event)),
    ("event in 2", Taken, Call(Act::EventIn(Two))),
    ("find 1", Untouched, Call(Act::Ask(Find(One)))),
    ("find 2", Untouched, Call(Act::Ask(Find(Two)))),
    ("open spans", Taken, Call(Act::Ask(OpenSpans))),
    ("held spans", Taken, Call(Act::Ask(HeldSpans))),
    ("holders of 1", Taken, Call(Act::Ask(HoldersOf(One)))),
    (
        "workers inside 1",
        Taken,
        Call(Act::Ask(WorkersInside(One))),
    ),
    (
        "workers inside 2",
        Taken,
        Call(Act::Ask(WorkersInside(Two))),
    ),
    ("span details", Taken, Call(Act::Ask(SpanDetails))),
    ("close 1", Taken, Call(Act::Close(One))),
    ("close 1", Taken, Call(Act::Close(One))),
    ("top", Untouched, Asked::Top),
    ("total", Untouched, Asked::Total),
    ("exit 1", Taken, Call(Act::Exit(One))),
    ("len", Untouched, Asked::Len),
    ("close 2", Taken, Call(Act::Close(Two))),
    ("len", Untouched, Asked::Len),
    ("event in 2", Taken, Call(Act::EventIn(Two))),
    ("new a", Taken, Call(Act::New(Called::A, Apart))),
    ("enter it", Taken, Call(Act::Enter(OneAnew))),
    ("enter it, 2", Taken, Call(Act::Enter(OneAnew))),
    ("enter it, 3", Taken, Call(Act::Enter(OneAnew))),
    ("enter it, 4", Taken, Call(Act::Enter(OneAnew))),
    ("enter it, 5", Taken, Call(Act::Enter(OneAnew))),
    ("enter it, 6", Taken, Call(Act::Enter(OneAnew))),
    ("enter it, 7", Taken, Call(Act::Enter(OneAnew))),
    ("enter it, 8", Taken, Call(Act::Enter(OneAnew))),
    ("enter it, 9", Taken, Call(Act::Enter(OneAnew))),
    ("calls", Untouched, Asked::Calls),
    ("batches", Untouched, Asked::Batches),
    ("notes", Untouched, Asked::Notes),
];

/// A core on which the worker 0 calls.
#[derive(Drop)]
pub(crate) struct OnCore<'n, O: Outlet + Lines + Drop, A: Admit> {
    pub(crate) given: &'n Given,
    pub(crate) core: Core<O, A>,
    ghost has_worker: { 0 < core.limits.workers },
}

/// Makes the calls, and tells what they answer.
pub(crate) fn run<R: Print>(
    stage: &Stage<R>,
    alloc: Global,
    given: &Given,
    filters: Filters,
    formatting: Formatting,
) -> Result<(), Stop> {
    on_outlet(stage, alloc, given, filters, Kept::new(alloc, formatting))
}

fn on_outlet<O: Outlet + Lines + Drop, R: Print>(
    stage: &Stage<R>,
    alloc: Global,
    given: &Given,
    filters: Filters,
    outlet: O,
) -> Result<(), Stop>
    requires { O.sent outlet ≡ [] }
{
    stage.begin(Taken);
    let made = Core::new(alloc, &given.checked, filters, outlet);
    stage.over();
    match made {
        Ok(core) => perform(stage, alloc, &mut OnCore { given, core }, &PLAN),
        Err(_) => Err(Stop::Memory),
    }
}

impl<'n, O: Outlet + Lines + Drop, A: Admit> Subject<Asked> for OnCore<'n, O, A> {
    fn call(&mut self, asked: &Asked) -> Result<Answer, Fault> {
        let core = &self.core;
        Ok(match asked {
            Call(act) => return make(&mut self.core, self.given, act),
            Asked::OneField => return self.core.one_field("k", "1").map(Answer::Fields),
            Asked::SharedMeta => return shared_meta(&mut self.core),
            Asked::Len => Answer::Number(u64::from(core.len())),
            Asked::Total => Answer::Number(core.total()),
            Asked::Calls => Answer::Number(core.calls()),
            Asked::Top => Answer::from(core.stack(0).top()),
            Asked::Batches => Answer::Number(core.outlet().counted().0),
            Asked::Notes => Answer::Number(notes_of(core.outlet())),
        })
    }

    fn look(&mut self, text: &mut String) -> Result<(), AllocError> {
        let core = &self.core;
        let (batches, missed) = core.outlet().counted();
        add_numbers(text, &[u64::from(core.len()), core.total(), core.calls()])?;
        add_numbers(text, &[core.made(), core.closed(), batches, missed])?;
        add_lines(text, core.outlet().told())?;
        add_stack(text, core.stack(0))?;
        add_spans(text, core)
    }
}

// Adds the spans that rows name and that are open to a text.
fn add_spans<O: Outlet, A: Admit>(text: &mut String, core: &Core<O, A>) -> Result<(), AllocError> {
    for named in Named::ALL {
        if let Some(span) = core.find(named.id()) {
            add_span(text, span)?;
        }
    }
    Ok(())
}

// A call that may change the core, or a question.
fn make<O: Outlet, A: Admit>(
    core: &mut Core<O, A>,
    given: &Given,
    act: &Act,
) -> Result<Answer, Fault>
    requires { 0 < core.old.limits.workers }
    ensures { core.new.limits ≡ core.old.limits }
{
    match act {
        Act::New(called, place) => new_span(core, given.meta(called), place.parent()),
        Act::Clone(named) => done(core.clone_span(0, named.id())),
        Act::Enter(named) => core.enter(0, named.id()).map(Answer::Yes),
        Act::Exit(named) => core.exit(0, named.id()).map(Answer::Yes),
        Act::Close(named) => core.try_close(0, named.id()).map(Answer::Yes),
        Act::Record(named) => done(core.record(0, named.id(), given.fields.as_slice())),
        Act::Event | Act::EventWithFields => {
            done(core.event(0, &given.event, MESSAGE, given.fields_of(act)))
        }
        Act::EventIn(named) => {
            let parent = ParentOf::Of(named.id());
            done(core.event_in(0, &given.event, MESSAGE, &[], parent))
        }
        Act::Ask(question) => ask(core, question),
    }
}

fn shared_meta<O: Outlet, A: Admit>(core: &mut Core<O, A>) -> Result<Answer, Fault>
    ensures { core.new.limits ≡ core.old.limits }
{
    core.shared_meta(Level::Info, "c", "app")
        .map(Answer::SharedMeta)
}

fn new_span<O: Outlet, A: Admit>(
    core: &mut Core<O, A>,
    meta: &Meta,
    parent: ParentOf,
) -> Result<Answer, Fault>
    requires { 0 < core.old.limits.workers }
    ensures { core.new.limits ≡ core.old.limits }
{
    core.new_span(0, meta, &[], parent).map(Answer::from)
}

fn ask<O: Outlet, A: Admit>(core: &Core<O, A>, question: &Question) -> Result<Answer, Fault> {
    match question {
        Find(named) => Ok(held(core.find(named.id()))),
        OpenSpans => core.open_spans().map(Answer::Spans),
        HeldSpans => core.held_spans().map(Answer::Holders),
        HoldersOf(named) => core.holders_of(named.id()).map(Answer::Holders),
        WorkersInside(named) => core.workers_inside(named.id()).map(Answer::Workers),
        SpanDetails => core.span_details().map(Answer::Details),
    }
}
