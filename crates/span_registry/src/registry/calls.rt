//! The calls, which take the lock.
ghost use Rattle.std.specs.Prelude.{◌≡◌, ◌≢◌, ◌↔◌, ◌+◌, ◌-◌, ◌<◌, true, false, Some, None, IfOk, IfErr, OnOk, OnErr, IfSome, IfNone, IsSomeAnd, OnSome, MatchResult, MatchOption, IsTrue};
ghost use Rattle.span_forest.specs.Spans.{find, IsOpen};
ghost use Rattle.span_forest.specs.Count.{reference_count};
ghost use Rattle.span_registry.specs.Found.{IsFound};
ghost use Rattle.span_core.specs.Parent.{parent_found};
ghost use Rattle.span_core.specs.NextId.{next_id_after};
ghost use Rattle.span_id.specs.declared.fault.Fault.TheVariants.{Unknown, CountFull, BadName};
ghost use Rattle.span_id.specs.Meta.{plain_meta, plain_fields};
ghost use Rattle.span_outlet.specs.declared.batch.ParentOf.TheVariants.{Current};
ghost use Rattle.span_outlet.specs.Request.{event, told, record_fields, recorded, clone_span, cloned, new_span, made, enter, entered, exit, exited, try_close, released};
ghost use Rattle.span_stack.specs.Stack.{without_last};
ghost use Rattle.span_core.specs.World.{stack_of};
ghost use Rattle.span_core.specs.GivenBack.{ClosesWhatNothingHolds};
ghost use Rattle.span_core.specs.Step.{is_wanted_meta, closed_by_exit};
ghost use Rattle.span_core.specs.Core.{is_named, IsAccepted, IsRefused};
ghost use mathlib.Core.List.{IsPrefix};
ghost use Rattle.span_registry.specs.Worker.{after_call, HasOneMore, HasNoMore};
ghost use Rattle.span_registry.specs.Happened.{Happened, closed_by_close};

use crate::found::Found;
use crate::handle::Handle;
use crate::refused_close::RefusedClose;
use crate::registry::Registry;
use crate::setup::Setup;
use crate::under_lock;
use crate::worker::Worker;
use span_id::{Fault, Field, Id, Meta};
use span_layers::Admit;
use span_outlet::{Outlet, ParentOf};
use std::alloc::Global;
use std::sync::Wait;
use std::sync::ledger::Ledger;

impl<H: Ledger, C: Ledger, S: Setup, O: Outlet, A: Admit> Registry<H, C, S, O, A> {
    /// Makes a span with copies of the meta and the fields, under no parent, under the worker's current span or under a
    /// named one, and answers its one handle. The answer is `None`, and nothing changes, where there are layers and
    /// none admits the meta.
    ///
    /// Refused in this order: `CountFull` where the worker has no part of the ledger of handles left; `BadName` where
    /// the name or a key is no name; then comes the answer `None`; `Unknown` where a named parent isn't open,
    /// `CountFull` where the parent's count or the number of accepted calls is at its greatest, `Full` where no slot is
    /// free, `Backlog`, `Memory`.
    pub fn new_span<R: Wait>(
        &self,
        rt: &R,
        worker: &mut Worker<H, C, S>,
        meta: &Meta,
        fields: &[Field],
        parent: ParentOf,
    ) -> Result<Option<Handle<H, C, S>>, Fault>
        ensures seen { IsPrefix worker.old.seen worker.new.seen }
        ensures own { MatchResult result
            (λ new. MatchOption new (HasNoMore worker.old worker.new) (λ _. HasOneMore worker.old worker.new))
            (λ _. HasNoMore worker.old worker.new) }
        ensures happened { IfOk result (λ made_one. IfSome made_one (λ handle. Happened S.limits S.rules worker.old worker.new (λ old new.
            IsAccepted old (new_span worker.old.number (plain_meta meta.now) (plain_fields fields.now)
            (parent_found old.world worker.old.number parent)) (made handle.id) new
            × (next_id_after old.limits.slots old.limits.last_generation old.sent ≡ Some handle.id)))) }
        ensures was_refused { IfErr result (λ fault. 0 < worker.old.spare → Happened S.limits S.rules worker.old worker.new (λ old new.
            IsRefused old (new_span worker.old.number (plain_meta meta.now) (plain_fields fields.now)
            (parent_found old.world worker.old.number parent)) fault new)) }
        ensures worker { IfOk result (λ new. OnSome new (worker.new ≡ after_call worker.old (worker.old.spare - 1) worker.new.seen)) }
        ensures part { OnOk result (0 < worker.old.spare) }
        ensures no_part { IfErr result (λ fault. worker.old.spare ≡ 0 → fault ≡ CountFull) }
        ensures not_wanted { IfOk result (λ new. IfNone new (
            (is_named (new_span worker.old.number (plain_meta meta.now) (plain_fields fields.now) None) ≡ true)
            × (is_wanted_meta S.rules (plain_meta meta.now) ≡ false) × (worker.new ≡ worker.old))) }
        ensures wanted { IfOk result (λ new. OnSome new (is_wanted_meta S.rules (plain_meta meta.now) ≡ true)) }
        ensures unchanged { OnErr result (worker.new ≡ record worker.old { seen = worker.new.seen }) }
    {
        under_lock::new_span(&mut *self.locked.lock(rt), worker, meta, fields, parent)
    }

    /// Tells an event under the worker's current span, as a core does. An event that no layer admits is accepted and has
    /// no notes.
    ///
    /// Refused in this order: `BadName` where the name or a key is no name, `CountFull` where the number of accepted
    /// calls is at its greatest, `Backlog`, `Memory`.
    pub fn event<R: Wait>(
        &self,
        rt: &R,
        worker: &mut Worker<H, C, S>,
        meta: &Meta,
        message: &str,
        fields: &[Field],
    ) -> Result<(), Fault>
        ensures seen { IsPrefix worker.old.seen worker.new.seen }
        ensures own { MatchResult result (λ _. HasOneMore worker.old worker.new) (λ _. HasNoMore worker.old worker.new) }
        ensures happened { OnOk result (Happened S.limits S.rules worker.old worker.new (λ old new.
            IsAccepted old (event worker.old.number (plain_meta meta.now) message.now (plain_fields fields.now) Current) told new)) }
        ensures was_refused { IfErr result (λ fault. Happened S.limits S.rules worker.old worker.new (λ old new.
            IsRefused old (event worker.old.number (plain_meta meta.now) message.now (plain_fields fields.now) Current) fault new)) }
        ensures worker { OnOk result (worker.new ≡ after_call worker.old worker.old.spare worker.new.seen) }
        ensures unchanged { OnErr result (worker.new ≡ record worker.old { seen = worker.new.seen }) }
        ensures named { OnOk result (is_named
            (event worker.old.number (plain_meta meta.now) message.now (plain_fields fields.now) Current) ≡ true) }
        ensures bad_name { IfErr result (λ fault. fault ≡ BadName → is_named
            (event worker.old.number (plain_meta meta.now) message.now (plain_fields fields.now) Current) ≡ false) }
    {
        self.event_in(rt, worker, meta, message, fields, ParentOf::Current)
    }

    /// Tells an event under no parent, under the worker's current span or under a named one, as a core does. The named
    /// one is held by nothing for it.
    ///
    /// Refused in this order: `BadName` where the name or a key is no name, `Unknown` where the named parent isn't open,
    /// `CountFull` where the number of accepted calls is at its greatest, `Backlog`, `Memory`.
    pub fn event_in<R: Wait>(
        &self,
        rt: &R,
        worker: &mut Worker<H, C, S>,
        meta: &Meta,
        message: &str,
        fields: &[Field],
        parent: ParentOf,
    ) -> Result<(), Fault>
        ensures seen { IsPrefix worker.old.seen worker.new.seen }
        ensures own { MatchResult result (λ _. HasOneMore worker.old worker.new) (λ _. HasNoMore worker.old worker.new) }
        ensures happened { OnOk result (Happened S.limits S.rules worker.old worker.new (λ old new.
            IsAccepted old (event worker.old.number (plain_meta meta.now) message.now (plain_fields fields.now) parent) told new)) }
        ensures was_refused { IfErr result (λ fault. Happened S.limits S.rules worker.old worker.new (λ old new.
            IsRefused old (event worker.old.number (plain_meta meta.now) message.now (plain_fields fields.now) parent) fault new)) }
        ensures worker { OnOk result (worker.new ≡ after_call worker.old worker.old.spare worker.new.seen) }
        ensures unchanged { OnErr result (worker.new ≡ record worker.old { seen = worker.new.seen }) }
        ensures named { OnOk result (is_named
            (event worker.old.number (plain_meta meta.now) message.now (plain_fields fields.now) parent) ≡ true) }
        ensures bad_name { IfErr result (λ fault. fault ≡ BadName → is_named
            (event worker.old.number (plain_meta meta.now) message.now (plain_fields fields.now) parent) ≡ false) }
    {
        under_lock::event(
            &mut *self.locked.lock(rt),
            worker,
            meta,
            message,
            fields,
            parent,
        )
    }
}

impl<H: Ledger, C: Ledger, S: Setup, O: Outlet, A> Registry<H, C, S, O, A> {
    /// One more handle of the span of a handle. The handle that was lent keeps its id.
    ///
    /// Refused in this order: `CountFull` where the worker has no part of the ledger of handles left, or where the
    /// span's count or the number of accepted calls is at its greatest, `Backlog`, `Memory`.
    pub fn clone_span<R: Wait>(
        &self,
        rt: &R,
        worker: &mut Worker<H, C, S>,
        handle: &mut Handle<H, C, S>,
    ) -> Result<Handle<H, C, S>, Fault>
        ensures seen { IsPrefix worker.old.seen worker.new.seen }
        ensures own { MatchResult result (λ _. HasOneMore worker.old worker.new) (λ _. HasNoMore worker.old worker.new) }
        ensures happened { OnOk result (Happened S.limits S.rules worker.old worker.new (λ old new.
            IsAccepted old (clone_span worker.old.number handle.old.id) cloned new)) }
        ensures was_refused { IfErr result (λ fault. 0 < worker.old.spare → Happened S.limits S.rules worker.old worker.new (λ old new.
            IsRefused old (clone_span worker.old.number handle.old.id) fault new)) }
        ensures id { IfOk result (λ clone. clone.id ≡ handle.old.id) }
        ensures worker { OnOk result (worker.new ≡ after_call worker.old (worker.old.spare - 1) worker.new.seen) }
        ensures part { OnOk result (0 < worker.old.spare) }
        ensures no_part { IfErr result (λ fault. worker.old.spare ≡ 0 → fault ≡ CountFull) }
        ensures unchanged { OnErr result (worker.new ≡ record worker.old { seen = worker.new.seen }) }
        ensures never_unknown { IfErr result (λ fault. fault ≢ Unknown) }
        ensures keeps_id { handle.new.id ≡ handle.old.id }
        ensures no_names { IfErr result (λ fault. fault ≢ BadName) }
    {
        under_lock::clone_span(&mut *self.locked.lock(rt), worker, handle)
    }

    /// The worker enters the span of a handle. It answers whether the entry is no duplicate: only then it holds the
    /// span. The handle keeps its id.
    ///
    /// Refused in this order: `CountFull` where the entry is no duplicate and the span's count is at its greatest, or
    /// where the number of accepted calls is, `Backlog`, `Memory`.
    pub fn enter<R: Wait>(
        &self,
        rt: &R,
        worker: &mut Worker<H, C, S>,
        handle: &mut Handle<H, C, S>,
    ) -> Result<bool, Fault>
        ensures seen { IsPrefix worker.old.seen worker.new.seen }
        ensures own { MatchResult result (λ _. HasOneMore worker.old worker.new) (λ _. HasNoMore worker.old worker.new) }
        ensures happened { IfOk result (λ first. Happened S.limits S.rules worker.old worker.new (λ old new.
            IsAccepted old (enter worker.old.number handle.old.id) (entered first) new)) }
        ensures was_refused { IfErr result (λ fault. Happened S.limits S.rules worker.old worker.new (λ old new.
            IsRefused old (enter worker.old.number handle.old.id) fault new)) }
        ensures worker { OnOk result (worker.new ≡ after_call worker.old worker.old.spare worker.new.seen) }
        ensures unchanged { OnErr result (worker.new ≡ record worker.old { seen = worker.new.seen }) }
        ensures never_unknown { IfErr result (λ fault. fault ≢ Unknown) }
        ensures keeps_id { handle.new.id ≡ handle.old.id }
        ensures no_names { IfErr result (λ fault. fault ≢ BadName) }
    {
        under_lock::enter(&mut *self.locked.lock(rt), worker, handle)
    }

    /// The worker leaves a span: its topmost entry of it is taken out. Where the span stands in its stack no longer,
    /// the entry is given back. It answers whether the span closed.
    ///
    /// Refused in this order: `Unknown` where the span isn't open, `CountFull` where the number of accepted calls is at
    /// its greatest, `NotEntered` where the span doesn't stand in the worker's stack, `Backlog`, `Memory`.
    pub fn exit<R: Wait>(&self, rt: &R, worker: &mut Worker<H, C, S>, id: Id) -> Result<bool, Fault>
        ensures seen { IsPrefix worker.old.seen worker.new.seen }
        ensures own { MatchResult result (λ _. HasOneMore worker.old worker.new) (λ _. HasNoMore worker.old worker.new) }
        ensures happened { OnOk result (Happened S.limits S.rules worker.old worker.new (λ old new.
            IsAccepted old (exit worker.old.number id) (exited (closed_by_exit old.world worker.old.number id)) new)) }
        ensures released { IfOk result (λ closed. Happened S.limits S.rules worker.old worker.new (λ old new.
            ClosesWhatNothingHolds old (exit worker.old.number id) new × (IsTrue closed ↔ (find new.world.spans id ≡ None))
            × (stack_of new.world worker.old.number ≡ without_last (stack_of old.world worker.old.number) id))) }
        ensures was_refused { IfErr result (λ fault. Happened S.limits S.rules worker.old worker.new (λ old new.
            IsRefused old (exit worker.old.number id) fault new)) }
        ensures worker { OnOk result (worker.new ≡ after_call worker.old worker.old.spare worker.new.seen) }
        ensures unchanged { OnErr result (worker.new ≡ record worker.old { seen = worker.new.seen }) }
        ensures no_names { IfErr result (λ fault. fault ≢ BadName) }
    {
        under_lock::exit(&mut *self.locked.lock(rt), worker, id)
    }

    /// Gives a handle back, and answers whether the span closed. Where the call is refused, a handle of the same id
    /// comes back.
    ///
    /// Refused in this order: `CountFull` where the number of accepted calls is at its greatest, `Backlog`, `Memory`.
    pub fn try_close<R: Wait>(
        &self,
        rt: &R,
        worker: &mut Worker<H, C, S>,
        handle: Handle<H, C, S>,
    ) -> Result<bool, RefusedClose<H, C, S>>
        ensures seen { IsPrefix worker.old.seen worker.new.seen }
        ensures own { MatchResult result (λ _. HasOneMore worker.old worker.new) (λ _. HasNoMore worker.old worker.new) }
        ensures happened { OnOk result (Happened S.limits S.rules worker.old worker.new (λ old new.
            IsAccepted old (try_close worker.old.number handle.id) (released (closed_by_close old.world handle.id)) new)) }
        ensures released { IfOk result (λ closed. Happened S.limits S.rules worker.old worker.new (λ old new.
            ClosesWhatNothingHolds old (try_close worker.old.number handle.id) new
            × (IsTrue closed ↔ (find new.world.spans handle.id ≡ None)))) }
        ensures was_refused { IfErr result (λ refused. Happened S.limits S.rules worker.old worker.new (λ old new.
            IsRefused old (try_close worker.old.number handle.id) refused.fault new)) }
        ensures worker { OnOk result (worker.new ≡ after_call worker.old (worker.old.spare + 1) worker.new.seen) }
        ensures unchanged { OnErr result (worker.new ≡ record worker.old { seen = worker.new.seen }) }
        ensures never_unknown { IfErr result (λ refused. refused.fault ≢ Unknown) }
        ensures back { IfErr result (λ refused. refused.handle.id ≡ handle.id) }
        ensures no_names { IfErr result (λ refused. refused.fault ≢ BadName) }
    {
        under_lock::try_close(&mut *self.locked.lock(rt), worker, handle)
    }

    /// Appends fields to those of the span of a handle. The handle keeps its id.
    ///
    /// Refused in this order: `BadName` where a key is no name, `CountFull` where the number of accepted calls is at
    /// its greatest, `Backlog`, `Memory`.
    pub fn record<R: Wait>(
        &self,
        rt: &R,
        worker: &mut Worker<H, C, S>,
        handle: &mut Handle<H, C, S>,
        fields: &[Field],
    ) -> Result<(), Fault>
        ensures seen { IsPrefix worker.old.seen worker.new.seen }
        ensures own { MatchResult result (λ _. HasOneMore worker.old worker.new) (λ _. HasNoMore worker.old worker.new) }
        ensures happened { OnOk result (Happened S.limits S.rules worker.old worker.new (λ old new.
            IsAccepted old (record_fields worker.old.number handle.old.id (plain_fields fields.now)) recorded new)) }
        ensures was_refused { IfErr result (λ fault. Happened S.limits S.rules worker.old worker.new (λ old new.
            IsRefused old (record_fields worker.old.number handle.old.id (plain_fields fields.now)) fault new)) }
        ensures worker { OnOk result (worker.new ≡ after_call worker.old worker.old.spare worker.new.seen) }
        ensures unchanged { OnErr result (worker.new ≡ record worker.old { seen = worker.new.seen }) }
        ensures never_unknown { IfErr result (λ fault. fault ≢ Unknown) }
        ensures keeps_id { handle.new.id ≡ handle.old.id }
        ensures named { OnOk result (is_named
            (record_fields worker.old.number handle.old.id (plain_fields fields.now)) ≡ true) }
        ensures bad_name { IfErr result (λ fault. fault ≡ BadName → is_named
            (record_fields worker.old.number handle.old.id (plain_fields fields.now)) ≡ false) }
    {
        under_lock::record(&mut *self.locked.lock(rt), worker, handle, fields)
    }

    /// The name, the parent and the numbers of the span of an id, if it is open. It is no call of the history. The only
    /// error is `Memory`, for the copy of the name.
    pub fn find<R: Wait>(
        &self,
        rt: &R,
        alloc: Global,
        worker: &mut Worker<H, C, S>,
        id: Id,
    ) -> Result<Option<Found>, Fault>
        ensures seen { IsPrefix worker.old.seen worker.new.seen }
        ensures own { HasNoMore worker.old worker.new }
        ensures happened { IfOk result (λ answer. Happened S.limits S.rules worker.old worker.new (λ old new.
            (new ≡ old) × IfNone answer (find old.world.spans id ≡ None)
            × IfSome answer (λ found. IsSomeAnd (find old.world.spans id) (λ node.
            IsFound node (reference_count old.world.spans id) found)))) }
        ensures was_refused { OnErr result (Happened S.limits S.rules worker.old worker.new (λ old new.
            (new ≡ old) × IsOpen old.world.spans id)) }
        ensures worker { worker.new ≡ record worker.old { seen = worker.new.seen } }
        ensures memory { IfErr result (λ fault. fault ≡ Fault.Memory) }
    {
        under_lock::find(alloc, &mut *self.locked.lock(rt), worker, id)
    }
}
