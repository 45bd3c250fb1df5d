//! The registry of a script, made with the limits and the layers that the lines before the first call gave.
ghost use Rattle.std.specs.Prelude.{◌≡◌, [], IfOk};
ghost use Rattle.span_replay.specs.inside.Running.{IsWritten, core_in, labels_in};
ghost use Rattle.span_replay.specs.inside.Setup.{opened_in, setup_state};
ghost use Rattle.span_script.specs.Operation.{Stage};

use crate::run::script::Script;
use crate::run::setup::{Opened, Setup};
use span_core::Core;
use span_layers::{Admit, Admitters, Formatters, Say};
use span_outlet::Latest;
use std::alloc::{AllocError, Global};

/// A script of which no call has run, on a registry of what the lines before the first call gave.
pub fn open<A: Drop, F: Drop>(
    alloc: Global,
    setup: Setup<A, F>,
) -> Result<Script<Formatters<F>, Admitters<A>>, AllocError>
where
    Admitters<A>: Admit,
    Formatters<F>: Say,
    ensures core { IfOk result (λ script. core_in script ≡ (setup_state setup).core) }
    ensures labels { IfOk result (λ script. labels_in script ≡ []) }
    ensures written { IfOk result (λ script. IsWritten script) }
{
    let (opened, admitters, formatters) = setup.split();
    open_with(alloc, opened, admitters, formatters)
}

/// The same with what applies the layers' rules and writes their notes, whatever it is.
fn open_with<V: Say, A: Admit>(
    alloc: Global,
    opened: Opened,
    admitters: A,
    formatters: V,
) -> Result<Script<V, A>, AllocError>
    ensures core { IfOk result (λ script. (stage : Stage) → core_in script ≡ (opened_in opened stage).core) }
    ensures labels { IfOk result (λ script. labels_in script ≡ []) }
    ensures written { IfOk result (λ script. IsWritten script) }
{
    let Opened {
        checked,
        rules,
        forms,
    } = opened;
    let latest = Latest::with_formatters(alloc, forms, formatters);
    let workers = checked.limits().workers;
    match Core::with_admitters(alloc, &checked, latest, rules, admitters) {
        Ok(core) => Ok(Script::new(alloc, workers, core)),
        Err(_) => Err(AllocError),
    }
}
