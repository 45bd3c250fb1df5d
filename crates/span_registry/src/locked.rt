//! What lies under the lock.
ghost use Rattle.std.specs.Prelude.{◌≡◌, ◌^◌, ◌<◌, [], IfErr};

use crate::setup::Setup;
use span_core::Core;
use span_history::Keeper;
use span_id::{Checked, Fault};
use span_layers::{Admitters, Filters};
use span_outlet::Outlet;
use span_seats::{RootSeat, SeatTable};
use std::alloc::Global;
use std::marker::{Model, PhantomData};
use std::sync::ledger::{Book, Ledger};

/// The value under a registry's lock: the core, the root of the handles' seats, the keeper of the history, and the two
/// books.
///
/// To a contract it is the view of its core. What holds whenever the lock is free is its invariant, `HoldsWhenFree`.
#[derive(Drop)]
pub struct Locked<H: Ledger, C: Ledger, S: Setup, O: Outlet, A = Admitters> {
    pub(crate) core: Core<O, A>,
    pub(crate) root: RootSeat<S>,
    pub(crate) keeper: Keeper<S>,
    pub(crate) handles: Book<H>,
    pub(crate) calls: Book<C>,
    pub(crate) setup: PhantomData<S>,
}

impl<H: Ledger, C: Ledger, S: Setup, O: Outlet, A> Model for Locked<H, C, S, O, A> {
    ghost use Rattle.span_core.specs.Core.{CoreView};
    ghost use Rattle.span_registry.specs.Locked.{HoldsWhenFree};

    ghost Value = { CoreView };

    ghost view = { λ l. l.core };

    ghost invariant = { λ l.
        HoldsWhenFree S.limits S.rules S.forms S.ring H.parts C.parts l.handles.total l.calls.total l.keeper.history l.root l.core };
}

impl<H: Ledger, C: Ledger, S: Setup, O: Outlet, A> Locked<H, C, S, O, A> {
    /// The core: what its `find` and its laws say holds whenever the lock is free.
    pub fn core(&self) -> &Core<O, A>
        ensures { result.now ≡ self.now }
    {
        &self.core
    }
}

impl<H: Ledger, C: Ledger, S: Setup, O: Outlet + Drop, F: Drop> Locked<H, C, S, O, Admitters<F>> {
    // No span is open, no handle is out and no call was accepted. The only error is `Memory`.
    pub(crate) fn new(
        alloc: Global,
        checked: &Checked,
        filters: Filters<F>,
        outlet: O,
        handles: Book<H>,
        calls: Book<C>,
        table: SeatTable,
        keeper: Keeper<S>,
    ) -> Result<Locked<H, C, S, O, Admitters<F>>, Fault>
        requires sent { O.sent outlet ≡ [] }
        requires setup { (checked.now ≡ S.limits) × (filters.rules ≡ S.rules) × (O.forms outlet ≡ S.forms)
            × (O.name outlet ≡ S.ring) }
        requires handles { (handles.total ≡ 0) × (H.parts < 2 ^ 64) }
        requires calls { (calls.total ≡ 0) × (C.parts ≡ checked.now.workers) }
        requires table { (table ≡ S.table) × (table.words ≡ checked.now.slots) }
        requires history { keeper.history ≡ [] }
        ensures { IfErr result (λ fault. fault ≡ Fault.Memory) }
    {
        let core = Core::new(alloc, checked, filters, outlet)?;
        Ok(Locked {
            core,
            root: table.named::<S>(),
            keeper,
            handles,
            calls,
            setup: PhantomData,
        })
    }
}
