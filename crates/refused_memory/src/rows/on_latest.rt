//! Spans on a core whose outlet has the lines of the last batch alone.
ghost use Rattle.std.specs.Prelude.{◌≡◌, []};

use crate::named::Named::{One, OneAnew, Two};
use crate::rows::acts::Place::{Apart, Inside};
use crate::rows::acts::{Act, Called, Given};
use crate::rows::on_core::Asked::{self, Call};
use crate::rows::on_core::OnCore;
use crate::rows::outlets::{Lines, tell_last};
use crate::stage::Memory::{Taken, Untouched};
use crate::stage::Stage;
use crate::stop::Stop;
use crate::trial::{Planned, attempt};
use span_core::Core;
use span_layers::{Admit, Filters, Formatting, Rules, Say};
use span_outlet::Latest;
use std::alloc::Global;

// A span inside another, events in the first and outside, and a span like the first. Metas, fields and paths come again:
// where the core was refused memory to remember them, a call is made as if they were new.
static PLAN: [Planned<'static, Asked>; 17] = [
    ("new a", Taken, Call(Act::New(Called::A, Apart))),
    ("enter 1", Taken, Call(Act::Enter(One))),
    ("event m", Taken, Call(Act::Event)),
    ("event with fields", Taken, Call(Act::EventWithFields)),
    ("event with fields", Taken, Call(Act::EventWithFields)),
    ("new b inside", Taken, Call(Act::New(Called::B, Inside))),
    ("record 2", Taken, Call(Act::Record(Two))),
    ("enter 2", Taken, Call(Act::Enter(Two))),
    ("close 1", Taken, Call(Act::Close(One))),
    ("close 2", Taken, Call(Act::Close(Two))),
    ("exit 1", Taken, Call(Act::Exit(One))),
    ("exit 2", Taken, Call(Act::Exit(Two))),
    ("event m", Taken, Call(Act::Event)),
    ("new a", Taken, Call(Act::New(Called::A, Apart))),
    ("close it", Taken, Call(Act::Close(OneAnew))),
    ("len", Untouched, Asked::Len),
    ("calls", Untouched, Asked::Calls),
];

/// Makes the calls, and tells what they answer and what the layers are told of each.
pub(crate) fn run<R: Print>(
    stage: &Stage<R>,
    alloc: Global,
    given: &Given,
    filters: Filters,
    formatting: Formatting,
) -> Result<(), Stop> {
    let Filters { rules, admitters } = filters;
    let Formatting { forms, formatters } = formatting;
    stage.begin(Untouched);
    let latest = Latest::with_formatters(alloc, forms, formatters);
    stage.over();
    on_outlet(stage, alloc, given, rules, admitters, latest)
}

// Generic in what applies the rules and what makes the texts.
fn on_outlet<V: Say, A: Admit, R: Print>(
    stage: &Stage<R>,
    alloc: Global,
    given: &Given,
    rules: Rules,
    admitters: A,
    latest: Latest<V>,
) -> Result<(), Stop>
    requires { latest.sent ≡ [] }
{
    stage.begin(Taken);
    let made = Core::with_admitters(alloc, &given.checked, latest, rules, admitters);
    stage.over();
    match made {
        Ok(core) => on_core(stage, alloc, &mut OnCore { given, core }),
        Err(_) => Err(Stop::Memory),
    }
}

fn on_core<V: Say, A: Admit, R: Print>(
    stage: &Stage<R>,
    alloc: Global,
    subject: &mut OnCore<'_, Latest<V>, A>,
) -> Result<(), Stop> {
    for planned in &PLAN {
        let before = subject.core.outlet().counted();
        attempt(stage, alloc, subject, planned)?;
        tell_last(stage, subject.core.outlet(), before);
    }
    Ok(())
}
