//! Calls and looks as data. The calls are made here, but those that share in `shared`; what a whole run is asked is
//! answered in `play`, and what its ring and its drain are asked in `on_a_ring`.
ghost use Rattle.std.specs.Prelude.{◌<◌};

use crate::tests::answers::{Answer, accepted, closed, entered, found, made};
use crate::tests::compare::id;
use span_component_tests::values::{list, meta};
use span_core::Core;
use span_id::{Field, Id, Level, Meta};
use span_outlet::{Outlet, ParentOf};
use std::alloc::Global;
use std::process::Abort;

/// Keys and values.
pub(crate) type Fields<'a> = &'a [(&'a str, &'a str)];

/// Ids by their numbers.
#[derive(Clone, Copy)]
pub(crate) enum Ids<'a> {
    /// From one up to another.
    Up(u64, u64),
    /// From one down to another.
    Down(u64, u64),
    These(&'a [u64]),
}

/// Calls that are made with many ids.
#[derive(Clone, Copy)]
pub(crate) enum Calls {
    /// A span under the current one, which is entered.
    GoDown,
    Enter,
    Exit,
    /// A span under this one, whose handle is given back.
    Grow,
    /// Events with none to three fields.
    Events,
    /// A span with a long name under the current one, which is entered, and two events in it.
    Look,
    /// Each call that takes an id.
    OfIds,
}

// 64 bytes, so the path of 63 such spans has 4,094.
const LONG: &str = "nnnnnnnnnnnnnnnnnnnnnnnnnnnnnnnnnnnnnnnnnnnnnnnnnnnnnnnnnnnnnnnn";

const LOOK: Act<'static> = Act::Event("app", Level::Info, "look", &[]);

static GO_DOWN: [Act<'static>; 2] = [Act::New("p"), Act::Enter(0)];

static ENTER: [Act<'static>; 1] = [Act::Enter(0)];

static EXIT: [Act<'static>; 1] = [Act::Exit(0)];

static GROW: [Act<'static>; 2] = [Act::Child("p", 0), Act::Close(0)];

static EVENTS: [Act<'static>; 5] = [
    Act::Event("app", Level::Info, "told", &[]),
    Act::Event("app", Level::Info, "told", &[("k", "v")]),
    Act::Event("app", Level::Info, "told", &[("k", LONG), ("k", "v")]),
    Act::Event(
        "app",
        Level::Info,
        "told",
        &[
            ("k", LONG),
            ("k", LONG),
            ("k", LONG),
            ("k", LONG),
            ("k", LONG),
        ],
    ),
    Act::Event(
        "app",
        Level::Info,
        "told",
        &[("k", ""), ("k", LONG), ("k", "v")],
    ),
];

static LOOKS: [Act<'static>; 4] = [Act::New(LONG), Act::Enter(0), LOOK, LOOK];

static OF_IDS: [Act<'static>; 10] = [
    Act::Find(0),
    Act::Child("a", 0),
    Act::EventIn(0, "m"),
    Act::Clone(0),
    Act::Enter(0),
    Act::Exit(0),
    Act::Record(0, &[("k", "v")]),
    Act::Close(0),
    Act::ExitShown(0),
    Act::CloseShown(0),
];

fn calls_of(calls: Calls) -> &'static [Act<'static>] {
    match calls {
        Calls::GoDown => &GO_DOWN,
        Calls::Enter => &ENTER,
        Calls::Exit => &EXIT,
        Calls::Grow => &GROW,
        Calls::Events => &EVENTS,
        Calls::Look => &LOOKS,
        Calls::OfIds => &OF_IDS,
    }
}

/// A call, or a look; spans stand under the numbers of their ids.
#[derive(Clone, Copy)]
pub(crate) enum Act<'a> {
    /// A new span of the target `app` at INFO, whose parent is the current span.
    New(&'a str),
    /// The same under the span of this id; under 0 a root.
    Child(&'a str, u64),
    /// A new span of this name, target and level, with these fields, whose parent is the current span.
    NewWith(&'a str, &'a str, Level, Fields<'a>),
    Clone(u64),
    Enter(u64),
    Exit(u64),
    Close(u64),
    /// An exit and a close that show which spans close.
    ExitShown(u64),
    CloseShown(u64),
    Record(u64, Fields<'a>),
    /// An event of this target and level, with this message and these fields.
    Event(&'a str, Level, &'a str, Fields<'a>),
    /// An event of the target `app` at INFO with this message, under the span of this id; under 0 in none.
    EventIn(u64, &'a str),
    Find(u64),
    /// What is counted of the core.
    Count,
    /// The ids of the open spans.
    Open,
    /// The spans that have holders of their own, as `1:2/0` for two handles and no entry.
    AllHeld,
    /// The same of those that keep a span open.
    HeldBelow(u64),
    /// The workers that are inside a span.
    Inside(u64),
    /// The calls of this list with each of these ids; how many were accepted.
    Each(Ids<'a>, Calls),
    /// Whether the paths and the messages of all batches have so many owners.
    Owners(&'a [(usize, usize)]),
    /// A step of the drain.
    Step,
    /// So many steps of the drain, and how many batches, missed notes and lines it had.
    Drain(u32),
}

// A call that is told a worker and a span, and no more.
fn hold<O: Outlet>(core: &mut Core<O>, worker: u32, act: &Act, id: Id) -> Answer
    requires { worker < core.old.limits.workers }
{
    match act {
        Act::Clone(_) => accepted(core.clone_span(worker, id), Answer::Cloned),
        Act::Enter(_) => entered(core.enter(worker, id)),
        Act::Exit(_) => closed(core.exit(worker, id)),
        _ => closed(core.try_close(worker, id)),
    }
}

// The number of an id; 0 for none.
fn number_of(id: Option<&Id>) -> u64 {
    match id {
        Some(id) => id.get(),
        None => 0,
    }
}

// Keeps of a list that is shown how long it is, and its two ends.
fn keep(list: &mut [u64; 3], ids: &[Id]) {
    *list = [
        ids.len() as u64,
        number_of(ids.first()),
        number_of(ids.last()),
    ];
}

// A call that shows which spans close.
fn show<O: Outlet>(core: &mut Core<O>, worker: u32, act: &Act, id: Id) -> Answer
    requires { worker < core.old.limits.workers }
{
    let mut list = [0; 3];
    let closed = match act {
        Act::ExitShown(_) => core.exit_with(worker, id, &mut list, keep),
        _ => core.try_close_with(worker, id, &mut list, keep),
    };
    match closed {
        Ok(closed) => Answer::Shown(closed, list),
        Err(fault) => Answer::Refused(fault),
    }
}

/// The handles, the entries, the count and the fields of a span.
pub(crate) fn counts_of<O: Outlet>(core: &Core<O>, id: Id) -> Option<[u64; 4]> {
    let span = core.find(id)?;
    Some([
        u64::from(span.handles),
        u64::from(span.entries),
        u64::from(span.count),
        span.fields.len() as u64,
    ])
}

// What a call passes.
#[derive(Drop)]
struct Parts {
    meta: Meta,
    fields: Vec<Field>,
}

fn given(
    rt: &impl Abort,
    alloc: Global,
    name: &str,
    target: &str,
    level: Level,
    fields: Fields,
) -> Parts {
    Parts {
        meta: meta(alloc, name, target, level).expect(rt, "memory"),
        fields: list(alloc, fields).expect(rt, "memory"),
    }
}

// What this call passes, where it passes something.
fn given_by(rt: &impl Abort, alloc: Global, act: &Act) -> Parts {
    match act {
        Act::New(name) | Act::Child(name, _) => given(rt, alloc, name, "app", Level::Info, &[]),
        Act::NewWith(name, target, level, fields) => given(rt, alloc, name, target, *level, fields),
        Act::Event(target, level, _, fields) => given(rt, alloc, "event", target, *level, fields),
        Act::EventIn(..) => given(rt, alloc, "event", "app", Level::Info, &[]),
        Act::Record(_, fields) => given(rt, alloc, "", "", Level::Info, fields),
        _ => given(rt, alloc, "", "", Level::Info, &[]),
    }
}

// The span of this number as a parent; 0 for none.
fn parent_of(rt: &impl Abort, number: u64) -> ParentOf {
    if number == 0 {
        return ParentOf::Root;
    }
    ParentOf::Of(id(rt, number))
}

// A call that passes what is given; any other act is none.
fn pass<O: Outlet>(
    rt: &impl Abort,
    core: &mut Core<O>,
    worker: u32,
    act: &Act,
    given: &Parts,
) -> Answer
    requires { worker < core.old.limits.workers }
{
    let (meta, fields) = (&given.meta, given.fields.as_slice());
    match act {
        Act::New(_) | Act::NewWith(..) => {
            made(core.new_span(worker, meta, fields, ParentOf::Current))
        }
        Act::Child(_, parent) => {
            made(core.new_span(worker, meta, fields, parent_of(rt, *parent)))
        }
        Act::Event(_, _, message, _) => {
            accepted(core.event(worker, meta, message, fields), Answer::Told)
        }
        Act::EventIn(parent, message) => {
            let told = core.event_in(worker, meta, message, fields, parent_of(rt, *parent));
            accepted(told, Answer::Told)
        }
        Act::Record(number, _) => {
            let recorded = core.record(worker, id(rt, *number), fields);
            accepted(recorded, Answer::Recorded)
        }
        _ => Answer::NoCall,
    }
}

/// What is counted of a core: the spans that are open, how often they are held, the handles, the entries, the accepted
/// calls, and the spans that were made and that closed.
pub(crate) fn counts<O: Outlet>(core: &Core<O>) -> [u64; 7] {
    [
        u64::from(core.len()),
        core.total(),
        core.handles(),
        core.entries(),
        core.calls(),
        core.made(),
        core.closed(),
    ]
}

/// What a core answers to a call of this worker, or to a look.
pub(crate) fn perform<O: Outlet>(
    rt: &impl Abort,
    alloc: Global,
    core: &mut Core<O>,
    worker: u32,
    act: &Act,
) -> Answer {
    if worker >= core.limits().workers {
        return Answer::NoWorker;
    }
    match act {
        Act::Find(number) => found(counts_of(core, id(rt, *number))),
        Act::ExitShown(number) | Act::CloseShown(number) => {
            show(core, worker, act, id(rt, *number))
        }
        Act::Clone(number) | Act::Enter(number) | Act::Exit(number) | Act::Close(number) => {
            hold(core, worker, act, id(rt, *number))
        }
        Act::Count => Answer::Counted(counts(core)),
        _ => pass(rt, core, worker, act, &given_by(rt, alloc, act)),
    }
}

// The same call with this id, where it takes one.
fn with_id<'a>(act: &Act<'a>, id: u64) -> Act<'a> {
    match *act {
        Act::Child(name, _) => Act::Child(name, id),
        Act::Clone(_) => Act::Clone(id),
        Act::Enter(_) => Act::Enter(id),
        Act::Exit(_) => Act::Exit(id),
        Act::Close(_) => Act::Close(id),
        Act::ExitShown(_) => Act::ExitShown(id),
        Act::CloseShown(_) => Act::CloseShown(id),
        Act::Record(_, fields) => Act::Record(id, fields),
        Act::EventIn(_, message) => Act::EventIn(id, message),
        Act::Find(_) => Act::Find(id),
        other => other,
    }
}

// Whether a call was made, and was wanted and accepted.
fn is_accepted(answer: &Answer) -> bool {
    !matches!(
        answer,
        Answer::Refused(_) | Answer::NotWanted | Answer::NoWorker | Answer::NoCall
    )
}

// How many of these calls with this id were accepted.
fn with_one<O: Outlet>(
    rt: &impl Abort,
    alloc: Global,
    core: &mut Core<O>,
    worker: u32,
    (id, acts): (u64, &[Act]),
) -> u64 {
    let mut accepted = 0u64;
    for act in acts {
        let answer = perform(rt, alloc, core, worker, &with_id(act, id));
        accepted = accepted.saturating_add(u64::from(is_accepted(&answer)));
    }
    accepted
}

/// How many of these calls with each of these ids were accepted.
pub(crate) fn with_each<O: Outlet>(
    rt: &impl Abort,
    alloc: Global,
    core: &mut Core<O>,
    worker: u32,
    (ids, calls): (&Ids, Calls),
) -> u64 {
    let mut accepted = 0u64;
    let count = match ids {
        Ids::Up(first, last) => last.saturating_sub(*first).saturating_add(1),
        Ids::Down(first, last) => first.saturating_sub(*last).saturating_add(1),
        Ids::These(ids) => ids.len() as u64,
    };
    for nth in 0..count {
        let id = nth_of(ids, nth);
        let more = with_one(rt, alloc, core, worker, (id, calls_of(calls)));
        accepted = accepted.saturating_add(more);
    }
    accepted
}

// The number at this place.
fn nth_of(ids: &Ids, nth: u64) -> u64 {
    match ids {
        Ids::Up(first, _) => first.saturating_add(nth),
        Ids::Down(first, _) => first.saturating_sub(nth),
        Ids::These(ids) => ids.get(nth as usize).copied().unwrap_or(0),
    }
}
