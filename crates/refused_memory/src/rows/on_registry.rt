//! A registry as what calls are made on.
ghost use Rattle.std.specs.Prelude.{◌≡◌};

use crate::answer::Answer;
use crate::named::Named;
use crate::rows::acts::{Act, Given};
use crate::rows::caller::Caller;
use crate::texts::add_numbers;
use crate::trial::Subject;
use span_id::{Fault, Id};
use span_layers::Admit;
use span_outlet::Outlet;
use span_registry::{Registry, Setup, Worker};
use std::alloc::{AllocError, Global};
use std::sync::Wait;
use std::sync::ledger::Ledger;

/// A registry and who calls on it.
#[derive(Drop)]
pub(crate) struct OnRegistry<'r, 'n, H: Ledger, C: Ledger, S: Setup, O: Outlet, A: Admit, R: Wait> {
    pub(crate) rt: &'r R,
    pub(crate) alloc: Global,
    pub(crate) given: &'n Given,
    pub(crate) registry: Registry<H, C, S, O, A>,
    pub(crate) caller: Caller<H, C, S>,
}

impl<'r, 'n, H: Ledger, C: Ledger, S: Setup, O: Outlet, A: Admit, R: Wait> Subject<Act>
    for OnRegistry<'r, 'n, H, C, S, O, A, R> {
    fn call(&mut self, act: &Act) -> Result<Answer, Fault> {
        self.caller
            .call(self.rt, self.alloc, &self.registry, self.given, act)
    }

    fn look(&mut self, text: &mut String) -> Result<(), AllocError> {
        let caller = &mut self.caller;
        let number = u64::from(caller.worker.number());
        let accepted = caller.worker.accepted();
        let (first, second) = caller.hands.ids();
        add_numbers(text, &[number, accepted, first, second])?;
        for named in Named::ALL {
            let worker = &mut caller.worker;
            add_found(
                self.rt,
                self.alloc,
                &self.registry,
                worker,
                named.id(),
                text,
            )?;
        }
        Ok(())
    }
}

// Adds what the registry finds of a span.
fn add_found<H: Ledger, C: Ledger, S: Setup, O: Outlet, A: Admit, R: Wait>(
    rt: &R,
    alloc: Global,
    registry: &Registry<H, C, S, O, A>,
    worker: &mut Worker<H, C, S>,
    id: Id,
    text: &mut String,
) -> Result<(), AllocError>
    ensures { worker.new.spare ≡ worker.old.spare }
{
    match registry.find(rt, alloc, worker, id) {
        Ok(found) => write!(text, "{found:?}\n"),
        Err(_) => Err(AllocError),
    }
}
