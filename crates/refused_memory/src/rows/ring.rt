//! A registry over a ring, with one worker, and the drain of the ring.
ghost use Rattle.std.specs.Prelude.{◌≡◌, [], Some, vec_len, sum_by, IfOk};
ghost use Rattle.span_registry.specs.Blanks.{blanks_of};

use crate::answer::Answer;
use crate::named::Named::{One, Two};
use crate::rows::Row;
use crate::rows::acts::Place::{Apart, Inside};
use crate::rows::acts::Question::Find;
use crate::rows::acts::{Act, Called, Given};
use crate::rows::caller::caller_of;
use crate::rows::ending::{tell_end, whole};
use crate::rows::on_registry::OnRegistry;
use crate::stage::Memory::{Taken, Untouched};
use crate::stage::Stage;
use crate::stop::Stop;
use crate::texts::{add_lines, add_numbers};
use crate::trial::{Planned, Subject, perform};
use span_id::Fault;
use span_layers::{Admit, Filters, Formatting, Say};
use span_outlet::{Drain, Ring, Step, Tap};
use span_registry::{Blanks, HANDLE_PARTS, Registry, Setup, Worker};
use std::alloc::{AllocError, Global};
use std::marker::Brand;
use std::sync::Wait;
use std::sync::ledger::Ledger;

enum Ask {
    Call(Act),
    Drain(Asked),
}

/// What the drain is asked.
enum Asked {
    /// A step: how many notes the batch had.
    Step,
    /// How many batches it took.
    Taken,
    /// How many lines it has of layer 0, and how many notes were missed.
    Lines,
}

/// A registry, who calls on it, and the drain of its ring.
#[derive(Drop)]
struct OnRing<'r, 'n, H: Ledger, C: Ledger, S: Setup, V: Say, A: Admit, R: Wait> {
    registry: OnRegistry<'r, 'n, H, C, S, Ring, A, R>,
    drain: Drain<V>,
    ghost pair: { Some drain.name ≡ S.ring },
}

impl<'r, 'n, H: Ledger, C: Ledger, S: Setup, V: Say, A: Admit, R: Wait> Subject<Ask>
    for OnRing<'r, 'n, H, C, S, V, A, R> {
    fn call(&mut self, ask: &Ask) -> Result<Answer, Fault> {
        match ask {
            Ask::Call(act) => self.registry.call(act),
            Ask::Drain(asked) => Ok(drained(&mut self.drain, asked)),
        }
    }

    fn look(&mut self, text: &mut String) -> Result<(), AllocError> {
        self.registry.look(text)?;
        add_drain(text, &self.drain)
    }
}

fn add_drain<V>(text: &mut String, drain: &Drain<V>) -> Result<(), AllocError> {
    add_numbers(text, &[drain.taken(), drain.missed()])?;
    add_lines(text, drain.all())
}

// What the drain answers.
fn drained<V: Say>(drain: &mut Drain<V>, asked: &Asked) -> Answer
    ensures { drain.new.name ≡ drain.old.name }
{
    match asked {
        Asked::Step => notes_of(drain.step()),
        Asked::Taken => Answer::Number(drain.taken()),
        Asked::Lines => {
            let told = drain.lines(0).count() as u64;
            Answer::Number(drain.missed().saturating_add(told))
        }
    }
}

// How many notes the batch of a step had.
fn notes_of(step: Option<Step>) -> Answer {
    match step {
        Some(step) => Answer::Number((step.told as u64).saturating_add(step.missed as u64)),
        None => Answer::Nothing,
    }
}

// A ring of one place: a call that finds it full changes nothing, and is made again after a step.
static FULL_RING: [Planned<'static, Ask>; 7] = [
    ("new a", Taken, Ask::Call(Act::New(Called::A, Apart))),
    ("clone 1", Taken, Ask::Call(Act::Clone(One))),
    ("close 1", Taken, Ask::Call(Act::Close(One))),
    ("step", Taken, Ask::Drain(Asked::Step)),
    ("step", Untouched, Ask::Drain(Asked::Step)),
    ("close 1", Taken, Ask::Call(Act::Close(One))),
    ("taken", Untouched, Ask::Drain(Asked::Taken)),
];

// A span inside another, and steps of the drain between the calls, with memory and without.
static EVERY_CALL: [Planned<'static, Ask>; 17] = [
    ("new a", Taken, Ask::Call(Act::New(Called::A, Apart))),
    ("enter 1", Taken, Ask::Call(Act::Enter(One))),
    ("step", Taken, Ask::Drain(Asked::Step)),
    ("step", Untouched, Ask::Drain(Asked::Step)),
    (
        "new b inside",
        Taken,
        Ask::Call(Act::New(Called::B, Inside)),
    ),
    ("record 2", Taken, Ask::Call(Act::Record(Two))),
    ("event m", Taken, Ask::Call(Act::Event)),
    ("step", Untouched, Ask::Drain(Asked::Step)),
    ("close 1", Taken, Ask::Call(Act::Close(One))),
    ("clone 2", Taken, Ask::Call(Act::Clone(Two))),
    ("close 2", Taken, Ask::Call(Act::Close(Two))),
    ("exit 1", Taken, Ask::Call(Act::Exit(One))),
    ("find 2", Taken, Ask::Call(Act::Ask(Find(Two)))),
    ("close 2", Taken, Ask::Call(Act::Close(Two))),
    ("step", Taken, Ask::Drain(Asked::Step)),
    ("taken", Untouched, Ask::Drain(Asked::Taken)),
    ("lines and missed", Untouched, Ask::Drain(Asked::Lines)),
];

/// Makes the row's calls, and tells what they answer and how the registry ended. `Memory` where the registry could not
/// be made.
pub(crate) fn run<R: Print + Wait>(
    stage: &Stage<R>,
    alloc: Global,
    row: Row,
    given: &Given,
    filters: Filters,
    formatting: Formatting,
) -> Result<(), Stop> {
    let (ring, tap, blanks) = parts(stage, alloc, given)?;
    stage.begin(Untouched);
    let drain = Drain::new(alloc, tap, formatting);
    stage.over();
    named::<Brand, Brand, Brand, _, R>(
        stage,
        alloc,
        plan_of(row),
        given,
        filters,
        ring,
        drain,
        blanks,
    )
}

// The row's calls.
fn plan_of(row: Row) -> &'static [Planned<'static, Ask>] {
    if matches!(row, Row::FullRing) {
        FULL_RING.as_slice()
    } else {
        EVERY_CALL.as_slice()
    }
}

// Both ends of the ring of a registry, and its blanks.
fn parts<R: Print>(
    stage: &Stage<R>,
    alloc: Global,
    given: &Given,
) -> Result<(Ring, Tap, Blanks), Stop>
    ensures pair { IfOk result (λ parts. (parts.0.name ≡ parts.1) × (parts.0.sent ≡ [])) }
    ensures workers { IfOk result (λ parts. parts.2.limits.workers ≡ 1) }
    ensures parts { IfOk result (λ parts. (parts.2.handle_parts ≡ HANDLE_PARTS) × (parts.2.call_parts ≡ 1)) }
{
    stage.begin(Taken);
    let ends = Ring::pair(alloc, &given.checked);
    let blanks = Blanks::new(alloc, &given.checked);
    stage.over();
    match (ends, blanks) {
        (Ok((ring, tap)), Ok(blanks)) => Ok((ring, tap, blanks)),
        _ => Err(Stop::Memory),
    }
}

// Generic in the registry's names, which the caller picks.
fn named<H: Ledger, C: Ledger, S: Setup, V: Say, R: Print + Wait>(
    stage: &Stage<R>,
    alloc: Global,
    plan: &[Planned<'_, Ask>],
    given: &Given,
    filters: Filters,
    ring: Ring,
    drain: Drain<V>,
    blanks: Blanks,
) -> Result<(), Stop>
    requires sent { ring.sent ≡ [] }
    requires setup { (filters.rules ≡ S.rules) × ([] ≡ S.forms) }
    requires pair { (Some ring.name ≡ S.ring) × (Some drain.name ≡ S.ring) }
    requires workers { S.limits.workers ≡ 1 }
    requires parts { (H.parts ≡ HANDLE_PARTS) × (C.parts ≡ 1) }
    requires blanks { blanks ≡ blanks_of S.limits H.name H.parts C.name C.parts S.table S.history }
{
    stage.begin(Taken);
    let made = Registry::<H, C, S, Ring>::new(alloc, filters, ring, blanks);
    stage.over();
    match made {
        Ok((registry, workers)) => called(stage, alloc, plan, given, registry, workers, drain),
        Err(_) => Err(Stop::Memory),
    }
}

// Generic in what applies the rules. The registry ends whole however its calls went. Where they ended early
// nothing more is told.
fn called<H: Ledger, C: Ledger, S: Setup, V: Say, A: Admit, R: Print + Wait>(
    stage: &Stage<R>,
    alloc: Global,
    plan: &[Planned<'_, Ask>],
    given: &Given,
    registry: Registry<H, C, S, Ring, A>,
    workers: Vec<Worker<H, C, S>>,
    drain: Drain<V>,
) -> Result<(), Stop>
    requires pair { Some drain.name ≡ S.ring }
    requires parts { (H.parts ≡ HANDLE_PARTS) × (C.parts ≡ 1) }
    requires one { vec_len workers ≡ 1 }
    requires whole { sum_by (λ worker. worker.spare) workers.items ≡ H.parts }
{
    let mut subject = OnRing {
        registry: OnRegistry {
            rt: stage.rt,
            alloc,
            given,
            registry,
            caller: caller_of(workers),
        },
        drain,
    };
    let ended = perform(stage, alloc, &mut subject, plan);
    let OnRing { registry, drain } = subject;
    let OnRegistry {
        registry,
        caller,
        ..
    } = registry;
    let is_told = ended.is_ok();
    let share = whole(stage, caller, is_told);
    stage.begin(Taken);
    let report = registry.finish(share, drain);
    stage.over();
    tell_end(stage, &report, is_told);
    ended
}
