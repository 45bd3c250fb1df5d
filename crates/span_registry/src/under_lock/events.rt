//! The calls that write fields to a span or tell an event.
ghost use Rattle.std.specs.Prelude.{◌≡◌, ◌≢◌, IfErr, OnOk, OnErr, MatchResult};
ghost use Rattle.span_id.specs.declared.fault.Fault.TheVariants.{Unknown};
ghost use Rattle.span_id.specs.Meta.{plain_meta, plain_fields};
ghost use Rattle.span_outlet.specs.Request.{record_fields, recorded, event, told};
ghost use Rattle.span_core.specs.Core.{IsAccepted, IsRefused};
ghost use mathlib.Core.List.{IsPrefix};
ghost use Rattle.span_registry.specs.Worker.{after_call, HasOneMore, HasNoMore};
ghost use Rattle.span_registry.specs.Happened.{Happened};

use crate::books::{count_call, see};
use crate::handle::Handle;
use crate::locked::Locked;
use crate::setup::Setup;
use crate::with_seats;
use crate::worker::Worker;
use span_id::{Fault, Field, Meta};
use span_layers::Admit;
use span_outlet::{Outlet, ParentOf};
use std::sync::ledger::Ledger;

/// Appends fields to those of the span of a handle: one step.
///
/// Refused as `Core::record`, but never with `Unknown`. A refused call changes nothing but what its worker has seen and
/// how often the outlet lacked a place. The handle keeps its id.
pub fn record<H: Ledger, C: Ledger, S: Setup, O: Outlet, A>(
    locked: &mut Locked<H, C, S, O, A>,
    worker: &mut Worker<H, C, S>,
    handle: &mut Handle<H, C, S>,
    fields: &[Field],
) -> Result<(), Fault>
    ensures seen { IsPrefix worker.old.seen worker.new.seen }
    ensures own { MatchResult result (λ _. HasOneMore worker.old worker.new) (λ _. HasNoMore worker.old worker.new) }
    ensures happened { OnOk result (Happened S.limits S.rules worker.old worker.new (λ old new.
        IsAccepted old (record_fields worker.old.number handle.old.id (plain_fields fields.now)) recorded new)) }
    ensures was_refused { IfErr result (λ fault. Happened S.limits S.rules worker.old worker.new (λ old new.
        IsRefused old (record_fields worker.old.number handle.old.id (plain_fields fields.now)) fault new)) }
    ensures step { OnOk result (IsAccepted locked.old
        (record_fields worker.old.number handle.old.id (plain_fields fields.now)) recorded locked.new) }
    ensures worker { OnOk result (worker.new ≡ after_call worker.old worker.old.spare locked.new.sent) }
    ensures refused { IfErr result (λ fault. IsRefused locked.old
        (record_fields worker.old.number handle.old.id (plain_fields fields.now)) fault locked.new) }
    ensures never_unknown { IfErr result (λ fault. fault ≢ Unknown) }
    ensures unchanged { OnErr result (worker.new ≡ record worker.old { seen = worker.new.seen }) }
    ensures keeps_id { handle.new.id ≡ handle.old.id }
{
    let Locked {
        core,
        root,
        keeper,
        handles: _,
        calls,
        setup: _,
    } = locked;
    match with_seats::handles::record(core, root, worker.number, handle, fields) {
        Ok(()) => {}
        Err(fault) => {
            see(keeper, core, worker);
            return Err(fault);
        }
    }
    count_call(calls, keeper, core, worker);
    Ok(())
}

/// Tells an event under the parent that is meant: one step, which leaves the world as it is.
///
/// Refused as `Core::event_in`. A refused call changes nothing but what its worker has seen and how often the outlet lacked a
/// place.
pub fn event<H: Ledger, C: Ledger, S: Setup, O: Outlet, A: Admit>(
    locked: &mut Locked<H, C, S, O, A>,
    worker: &mut Worker<H, C, S>,
    meta: &Meta,
    message: &str,
    fields: &[Field],
    parent: ParentOf,
) -> Result<(), Fault>
    ensures seen { IsPrefix worker.old.seen worker.new.seen }
    ensures own { MatchResult result (λ _. HasOneMore worker.old worker.new) (λ _. HasNoMore worker.old worker.new) }
    ensures happened { OnOk result (Happened S.limits S.rules worker.old worker.new (λ old new.
        IsAccepted old (event worker.old.number (plain_meta meta.now) message.now (plain_fields fields.now) parent) told new)) }
    ensures was_refused { IfErr result (λ fault. Happened S.limits S.rules worker.old worker.new (λ old new.
        IsRefused old (event worker.old.number (plain_meta meta.now) message.now (plain_fields fields.now) parent) fault new)) }
    ensures step { OnOk result (IsAccepted locked.old
        (event worker.old.number (plain_meta meta.now) message.now (plain_fields fields.now) parent) told locked.new) }
    ensures worker { OnOk result (worker.new ≡ after_call worker.old worker.old.spare locked.new.sent) }
    ensures refused { IfErr result (λ fault. IsRefused locked.old
        (event worker.old.number (plain_meta meta.now) message.now (plain_fields fields.now) parent) fault locked.new) }
    ensures unchanged { OnErr result (worker.new ≡ record worker.old { seen = worker.new.seen }) }
{
    let Locked {
        core,
        root,
        keeper,
        handles: _,
        calls,
        setup: _,
    } = locked;
    match with_seats::spans::event(core, root, worker.number, meta, message, fields, parent) {
        Ok(()) => {}
        Err(fault) => {
            see(keeper, core, worker);
            return Err(fault);
        }
    }
    count_call(calls, keeper, core, worker);
    Ok(())
}
