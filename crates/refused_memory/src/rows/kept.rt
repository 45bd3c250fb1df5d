//! A registry whose outlet keeps the lines, with one worker.
ghost use Rattle.std.specs.Prelude.{◌≡◌, [], None, vec_len, sum_by, IfOk};
ghost use Rattle.span_registry.specs.Blanks.{blanks_of};

use crate::named::Named::One;
use crate::rows::Row;
use crate::rows::acts::Place::Apart;
use crate::rows::acts::Question::{
    Find, HeldSpans, HoldersOf, OpenSpans, SpanDetails, WorkersInside,
};
use crate::rows::acts::{Act, Called, Given};
use crate::rows::caller::caller_of;
use crate::rows::ending::{tell_end, whole};
use crate::rows::on_registry::OnRegistry;
use crate::stage::Memory::Taken;
use crate::stage::Stage;
use crate::stop::Stop;
use crate::trial::{Planned, perform};
use span_layers::{Admit, Filters, Formatting, Say};
use span_outlet::Kept;
use span_registry::{Blanks, HANDLE_PARTS, Registry, Setup, Worker};
use std::alloc::Global;
use std::marker::Brand;
use std::sync::Wait;
use std::sync::ledger::Ledger;

// Each call once or twice.
static EVERY_CALL: [Planned<'static, Act>; 16] = [
    ("new a", Taken, Act::New(Called::A, Apart)),
    ("clone 1", Taken, Act::Clone(One)),
    ("enter 1", Taken, Act::Enter(One)),
    ("record 1", Taken, Act::Record(One)),
    ("event m", Taken, Act::Event),
    ("find 1", Taken, Act::Ask(Find(One))),
    ("open spans", Taken, Act::Ask(OpenSpans)),
    ("held spans", Taken, Act::Ask(HeldSpans)),
    ("holders of 1", Taken, Act::Ask(HoldersOf(One))),
    ("workers inside 1", Taken, Act::Ask(WorkersInside(One))),
    ("span details", Taken, Act::Ask(SpanDetails)),
    ("close 1", Taken, Act::Close(One)),
    ("exit 1", Taken, Act::Exit(One)),
    ("close 1", Taken, Act::Close(One)),
    ("find 1", Taken, Act::Ask(Find(One))),
    ("holders of 1", Taken, Act::Ask(HoldersOf(One))),
];

// A handle that is given up.
static GIVEN_UP: [Planned<'static, Act>; 1] = [("new a", Taken, Act::New(Called::A, Apart))];

/// Makes the row's calls, and tells what they answer and how the registry ended. `Memory` where the registry could not
/// be made.
pub(crate) fn run<R: Print + Wait>(
    stage: &Stage<R>,
    alloc: Global,
    row: Row,
    given: &Given,
    filters: Filters,
    formatting: Formatting,
) -> Result<(), Stop> {
    let plan = if matches!(row, Row::GivenUp) {
        GIVEN_UP.as_slice()
    } else {
        EVERY_CALL.as_slice()
    };
    on_outlet(
        stage,
        alloc,
        plan,
        given,
        filters,
        Kept::new(alloc, formatting),
    )
}

// Generic in what makes the texts.
fn on_outlet<V: Say, R: Print + Wait>(
    stage: &Stage<R>,
    alloc: Global,
    plan: &[Planned<'_, Act>],
    given: &Given,
    filters: Filters,
    outlet: Kept<V>,
) -> Result<(), Stop>
    requires { outlet.sent ≡ [] }
{
    let blanks = blanks(stage, alloc, given)?;
    named::<Brand, Brand, Brand, V, R>(stage, alloc, plan, given, filters, outlet, blanks)
}

// The blanks of a registry.
fn blanks<R: Print>(stage: &Stage<R>, alloc: Global, given: &Given) -> Result<Blanks, Stop>
    ensures workers { IfOk result (λ blanks. blanks.limits.workers ≡ 1) }
    ensures parts { IfOk result (λ blanks. (blanks.handle_parts ≡ HANDLE_PARTS) × (blanks.call_parts ≡ 1)) }
{
    stage.begin(Taken);
    let blanks = Blanks::new(alloc, &given.checked);
    stage.over();
    Ok(blanks?)
}

// Generic in the registry's names, which the caller picks.
fn named<H: Ledger, C: Ledger, S: Setup, V: Say, R: Print + Wait>(
    stage: &Stage<R>,
    alloc: Global,
    plan: &[Planned<'_, Act>],
    given: &Given,
    filters: Filters,
    outlet: Kept<V>,
    blanks: Blanks,
) -> Result<(), Stop>
    requires sent { outlet.sent ≡ [] }
    requires setup { (filters.rules ≡ S.rules) × (outlet.forms ≡ S.forms) × (None ≡ S.ring) }
    requires workers { S.limits.workers ≡ 1 }
    requires parts { (H.parts ≡ HANDLE_PARTS) × (C.parts ≡ 1) }
    requires blanks { blanks ≡ blanks_of S.limits H.name H.parts C.name C.parts S.table S.history }
{
    stage.begin(Taken);
    let made = Registry::<H, C, S, Kept<V>>::new(alloc, filters, outlet, blanks);
    stage.over();
    match made {
        Ok((registry, workers)) => called(stage, alloc, plan, given, registry, workers),
        Err(_) => Err(Stop::Memory),
    }
}

// Generic in what applies the rules. The registry ends whole however its calls went. Where they ended early
// nothing more is told.
fn called<H: Ledger, C: Ledger, S: Setup, V: Say, A: Admit, R: Print + Wait>(
    stage: &Stage<R>,
    alloc: Global,
    plan: &[Planned<'_, Act>],
    given: &Given,
    registry: Registry<H, C, S, Kept<V>, A>,
    workers: Vec<Worker<H, C, S>>,
) -> Result<(), Stop>
    requires parts { (H.parts ≡ HANDLE_PARTS) × (C.parts ≡ 1) }
    requires one { vec_len workers ≡ 1 }
    requires whole { sum_by (λ worker. worker.spare) workers.items ≡ H.parts }
{
    let mut subject = OnRegistry {
        rt: stage.rt,
        alloc,
        given,
        registry,
        caller: caller_of(workers),
    };
    let ended = perform(stage, alloc, &mut subject, plan);
    let OnRegistry {
        registry,
        caller,
        ..
    } = subject;
    let is_told = ended.is_ok();
    let share = whole(stage, caller, is_told);
    stage.begin(Taken);
    let report = registry.finish_kept(share);
    stage.over();
    tell_end(stage, &report, is_told);
    ended
}
