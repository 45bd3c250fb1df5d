//! New spans.
ghost use Rattle.std.specs.Prelude.{◌≡◌, ◌≢◌, ℕ, ◌-◌, ◌<◌, true, false, Some, None, IfOk, IfErr, OnOk, OnErr, IfSome, IfNone, OnSome, MatchResult, MatchOption};
ghost use Rattle.span_id.specs.declared.fault.Fault.TheVariants.{CountFull};
ghost use Rattle.span_id.specs.Meta.{plain_meta, plain_fields};
ghost use Rattle.span_outlet.specs.Request.{new_span, made};
ghost use Rattle.span_id.specs.Id.{slot_of};
ghost use Rattle.span_forest.specs.Spans.{IsOpen};
ghost use Rattle.span_core.specs.Parent.{parent_found};
ghost use Rattle.span_core.specs.Step.{is_wanted_meta};
ghost use Rattle.span_core.specs.NextId.{next_id_after};
ghost use Rattle.span_core.specs.Core.{is_named, IsAccepted, IsRefused, IsNotWanted};
ghost use mathlib.Core.List.{IsPrefix};
ghost use Rattle.span_registry.specs.Worker.{after_call, HasOneMore, HasNoMore};
ghost use Rattle.span_registry.specs.Happened.{Happened};

use crate::books::{count_call, make_handle, see};
use crate::handle::Handle;
use crate::locked::Locked;
use crate::setup::Setup;
use crate::with_seats;
use crate::worker::Worker;
use span_id::{Fault, Field, Meta};
use span_layers::Admit;
use span_outlet::{Outlet, ParentOf};
use std::sync::ledger::Ledger;

/// Makes a span, under no parent, under the worker's current span or under a named one: one step, one unit more in the
/// book, on a part of the worker's. The answer is its one handle, with the id that the history so far gives. It is
/// `None`, and nothing changes, where there are layers and none admits the meta.
///
/// Refused in this order: `CountFull` where the worker has no part of the ledger of handles left; then as
/// `Core::new_span`, where the answer `None` comes after `BadName` and before `Unknown`. The slot of its id is no open
/// span's, so while a handle of a span is there its slot isn't given again. A refused call changes nothing but what its
/// worker has seen and how often the outlet lacked a place.
pub fn new_span<H: Ledger, C: Ledger, S: Setup, O: Outlet, A: Admit>(
    locked: &mut Locked<H, C, S, O, A>,
    worker: &mut Worker<H, C, S>,
    meta: &Meta,
    fields: &[Field],
    parent: ParentOf,
) -> Result<Option<Handle<H, C, S>>, Fault>
    ensures seen { IsPrefix worker.old.seen worker.new.seen }
    ensures own { MatchResult result
        (λ new. MatchOption new (HasNoMore worker.old worker.new) (λ _. HasOneMore worker.old worker.new))
        (λ _. HasNoMore worker.old worker.new) }
    ensures happened { IfOk result (λ made_one. IfSome made_one (λ handle. Happened S.limits S.rules worker.old worker.new (λ old new.
        IsAccepted old (new_span worker.old.number (plain_meta meta.now) (plain_fields fields.now)
        (parent_found old.world worker.old.number parent)) (made handle.id) new
        × (next_id_after old.limits.slots old.limits.last_generation old.sent ≡ Some handle.id)))) }
    ensures was_refused { IfErr result (λ fault. 0 < worker.old.spare → Happened S.limits S.rules worker.old worker.new (λ old new.
        IsRefused old (new_span worker.old.number (plain_meta meta.now) (plain_fields fields.now)
        (parent_found old.world worker.old.number parent)) fault new)) }
    ensures step { IfOk result (λ new. IfSome new (λ handle. IsAccepted locked.old
        (new_span worker.old.number (plain_meta meta.now) (plain_fields fields.now)
        (parent_found locked.old.world worker.old.number parent)) (made handle.id) locked.new)) }
    ensures next { IfOk result (λ new. IfSome new (λ handle.
        next_id_after locked.old.limits.slots locked.old.limits.last_generation locked.old.sent ≡ Some handle.id)) }
    ensures worker { IfOk result (λ new. OnSome new (worker.new ≡ after_call worker.old (worker.old.spare - 1) locked.new.sent)) }
    ensures not_wanted { IfOk result (λ new. IfNone new (IsNotWanted locked.old
        (new_span worker.old.number (plain_meta meta.now) (plain_fields fields.now)
        (parent_found locked.old.world worker.old.number parent)) locked.new × (worker.new ≡ worker.old))) }
    ensures wanted { IfOk result (λ new. OnSome new (is_wanted_meta S.rules (plain_meta meta.now) ≡ true)) }
    ensures unwanted { IfOk result (λ new. IfNone new (
        (is_named (new_span worker.old.number (plain_meta meta.now) (plain_fields fields.now) None) ≡ true)
        × (is_wanted_meta S.rules (plain_meta meta.now) ≡ false))) }
    ensures slot { IfOk result (λ new. IfSome new (λ handle.
        (id : ℕ) → IsOpen locked.old.world.spans id → slot_of id ≢ slot_of handle.id)) }
    ensures part { OnOk result (0 < worker.old.spare) }
    ensures no_part { IfErr result (λ fault. worker.old.spare ≡ 0 →
        (fault ≡ CountFull) × (locked.new ≡ locked.old)) }
    ensures refused { IfErr result (λ fault. 0 < worker.old.spare → IsRefused locked.old
        (new_span worker.old.number (plain_meta meta.now) (plain_fields fields.now)
        (parent_found locked.old.world worker.old.number parent)) fault locked.new) }
    ensures unchanged { OnErr result (worker.new ≡ record worker.old { seen = worker.new.seen }) }
{
    if worker.spare == 0 {
        return Err(Fault::CountFull);
    }
    let Locked {
        core,
        root,
        keeper,
        handles,
        calls,
        setup: _,
    } = locked;
    let new = with_seats::spans::new_span(core, root, worker.number, meta, fields, parent);
    let (id, seat) = match new {
        Ok(Some(made)) => made,
        Ok(None) => return Ok(None),
        Err(fault) => {
            see(keeper, core, worker);
            return Err(fault);
        }
    };
    count_call(calls, keeper, core, worker);
    Ok(Some(make_handle(handles, worker, id, seat)))
}
