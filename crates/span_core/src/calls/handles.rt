//! The calls on a handle that enter no stack: one more handle, fields appended, a handle given back.
ghost use Rattle.std.specs.Prelude.{◌≡◌, ◌<◌, ◌-◌, ◌^◌, ◌↔◌, ◌++◌, ◌∷◌, [], true, nat_lt, map, length, None, IsTrue, OnOk, OnErr, IfOk, IfErr};
ghost use Rattle.span_forest.specs.declared.span.Holder.TheVariants.{Handle};
ghost use Rattle.span_forest.specs.Node.{with_fields};
ghost use Rattle.span_forest.specs.Spans.{find, with_change};
ghost use Rattle.span_forest.specs.Holders.{IsHeld};
ghost use Rattle.span_forest.specs.Release.{closing_list};
ghost use Rattle.span_id.specs.Meta.{plain_fields};
ghost use Rattle.span_layers.specs.Note.{plain_note};
ghost use Rattle.span_outlet.specs.Request.{clone_span, cloned, record_fields, recorded, try_close, released};
ghost use Rattle.span_core.specs.inside.Given.{fields_given};
ghost use Rattle.span_core.specs.Core.{IsDue, IsAccepted, IsRefused};
ghost use Rattle.span_core.specs.GivenBack.{ClosesWhatNothingHolds};
ghost use Rattle.span_core.specs.Shown.{MayBeShown, IsShown};

use crate::Core;
use crate::calls::closes::{Closes, closes_on_release, give_back};
use crate::calls::held::held_span;
use crate::calls::names::are_keys;
use crate::calls::room::ask;
use crate::given::GivenFields;
use crate::laws::{accepted_releases_close_what_nothing_holds, the_named_span_closes_first};
use crate::notes::{Announced, FoundSpan, record_told};
use crate::recent::Recent;
use span_forest::{Forest, Holder};
use span_id::{Fault, Field, Fields, Id};
use span_outlet::{Batch, Call, KnownRelease, Outlet, Reply};

impl<O: Outlet, A> Core<O, A> {
    /// One more handle of a span that has a handle. The number of the worker that calls needs to be below `workers`.
    ///
    /// Refused in this order: `Unknown` where the span has no handle, `CountFull` where its count or the number of
    /// accepted calls is at its greatest, `Backlog`, `Memory`.
    pub fn clone_span(&mut self, worker: u32, id: Id) -> Result<(), Fault>
        requires { worker < self.old.limits.workers }
        ensures accepted { OnOk result (IsAccepted self.old (clone_span worker id) cloned self.new) }
        ensures refused { IfErr result (λ fault. IsRefused self.old (clone_span worker id) fault self.new) }
    {
        self.cloning(worker, id)?;
        ask(&mut self.outlet, &mut self.recent.spare)?;
        self.forest.add_holder(id, Holder::Handle);
        self.calls += 1;
        self.outlet.put(Batch {
            call: Call::CloneSpan { worker, id },
            reply: Reply::Cloned,
            notes: Vec::new(self.recent.alloc),
        });
        Ok(())
    }

    /// Appends fields to those of a span that has a handle. The number of the worker that calls needs to be below
    /// `workers`.
    ///
    /// Refused in this order: `BadName` where a key is no name, `Unknown` where the span has no handle, `CountFull`
    /// where the number of accepted calls is at its greatest, `Backlog`, `Memory`.
    pub fn record(&mut self, worker: u32, id: Id, fields: &[Field]) -> Result<(), Fault>
        requires { worker < self.old.limits.workers }
        ensures accepted { OnOk result (IsAccepted self.old (record_fields worker id (plain_fields fields.now))
            recorded self.new) }
        ensures refused { IfErr result (λ fault. IsRefused self.old
            (record_fields worker id (plain_fields fields.now)) fault self.new) }
    {
        self.record_given(worker, id, GivenFields::Lent(fields))
    }

    /// Appends fields as `record` does, with the same refusals. The batch shares them with the caller, and so does a
    /// span that has none yet: nothing is copied. To the end of fields that are there they are copied.
    pub fn record_shared(&mut self, worker: u32, id: Id, fields: &Fields) -> Result<(), Fault>
        requires { worker < self.old.limits.workers }
        ensures accepted { OnOk result (IsAccepted self.old (record_fields worker id fields.now) recorded self.new) }
        ensures refused { IfErr result (λ fault. IsRefused self.old (record_fields worker id fields.now)
            fault self.new) }
    {
        self.record_given(worker, id, GivenFields::Shared(fields))
    }

    // Appends fields that are lent or shared.
    fn record_given(&mut self, worker: u32, id: Id, fields: GivenFields<'_>) -> Result<(), Fault>
        requires { worker < self.old.limits.workers }
        ensures accepted { OnOk result (IsAccepted self.old (record_fields worker id (fields_given fields.entry))
            recorded self.new) }
        ensures refused { IfErr result (λ fault. IsRefused self.old
            (record_fields worker id (fields_given fields.entry)) fault self.new) }
    {
        if !are_keys(fields.read()) {
            return Err(Fault::BadName);
        }
        let Some(span) = held_span(&self.forest, id) else {
            return Err(Fault::Unknown);
        };
        if self.calls == u64::MAX {
            return Err(Fault::CountFull);
        }
        ask(&mut self.outlet, &mut self.recent.spare)?;
        let found = FoundSpan { worker, id, span };
        let kept = fields.keep(self.recent.alloc)?;
        let recorded = record_told(&mut self.recent, &self.rules, &self.forest, &found, &kept)?;
        let Announced { call, notes } = recorded;
        append_fields(&mut self.forest, id, &kept)?;
        self.calls += 1;
        self.outlet.put(Batch {
            call,
            reply: Reply::Recorded,
            notes,
        });
        Ok(())
    }

    /// Gives a handle of a span back, and answers whether the span closed. The number of the worker that calls needs
    /// to be below `workers`.
    ///
    /// Refused in this order: `Unknown` where the span has no handle, `CountFull` where the number of accepted calls is
    /// at its greatest, `Backlog`, `Memory`.
    pub fn try_close(&mut self, worker: u32, id: Id) -> Result<bool, Fault>
        requires { worker < self.old.limits.workers }
        ensures accepted { OnOk result (IsAccepted self.old (try_close worker id)
            (released (closing_list self.old.world.spans id Handle)) self.new) }
        ensures closed { IfOk result (λ closed. closed
            ≡ nat_lt 0 (length (closing_list self.old.world.spans id Handle))) }
        ensures gone { IfOk result (λ closed. IsTrue closed ↔ (find self.new.world.spans id ≡ None)) }
        ensures released { OnOk result (ClosesWhatNothingHolds self.old (try_close worker id) self.new) }
        ensures refused { IfErr result (λ fault. IsRefused self.old (try_close worker id) fault self.new) }
    {
        the_named_span_closes_first(self);
        accepted_releases_close_what_nothing_holds(self);
        self.try_close_with(worker, id, &mut (), |_, _| ())
    }

    /// Gives a handle of a span back, as `try_close` does and with the same refusals, and shows which spans close.
    ///
    /// Where nothing stands against the call any longer, `see` is called with `state` and the ids of the spans that
    /// close, child first, of which there may be none; then their list goes to the outlet. A refused call shows `see`
    /// nothing. What `see` changes is `state`: contracts tell what becomes of it.
    pub fn try_close_with<S, F: FnOnce(&mut S, &[Id])>(
        &mut self,
        worker: u32,
        id: Id,
        state: &mut S,
        see: F,
    ) -> Result<bool, Fault>
        requires worker { worker < self.old.limits.workers }
        requires may { IsDue self.old (try_close worker id) →
            MayBeShown F.FnOnce see state.old (closing_list self.old.world.spans id Handle) }
        ensures accepted { OnOk result (IsAccepted self.old (try_close worker id)
            (released (closing_list self.old.world.spans id Handle)) self.new) }
        ensures closed { IfOk result (λ closed. closed
            ≡ nat_lt 0 (length (closing_list self.old.world.spans id Handle))) }
        ensures shown { OnOk result
            (IsShown F.FnOnce see state.old (closing_list self.old.world.spans id Handle) state.new) }
        ensures refused { IfErr result (λ fault. IsRefused self.old (try_close worker id) fault self.new) }
        ensures not_shown { OnErr result (state.new ≡ state.old) }
    {
        let Some(span) = held_span(&self.forest, id) else {
            return Err(Fault::Unknown);
        };
        if self.calls == u64::MAX {
            return Err(Fault::CountFull);
        }
        ask(&mut self.outlet, &mut self.recent.spare)?;
        let release = FoundSpan { worker, id, span };
        let closes = closes_on_release(&mut self.recent, &self.rules, &self.forest, &release)?;
        let ids = closes.ids.as_slice();
        give_back(&mut self.recent, &mut self.forest, id, ids);
        see(state, ids);
        let closed = !ids.is_empty();
        self.calls += 1;
        put_release(&mut self.outlet, &mut self.recent, worker, id, closes);
        Ok(closed)
    }

    // Why one more handle is refused, if it is.
    fn cloning(&self, worker: u32, id: Id) -> Result<(), Fault>
        ensures due { OnOk result (IsDue self.now (clone_span worker id)) }
        ensures refused { IfErr result (λ fault. IsRefused self.now (clone_span worker id) fault self.now) }
    {
        let Some(seen) = held_span(&self.forest, id) else {
            return Err(Fault::Unknown);
        };
        if seen.count >= self.limits.limits().max_count || self.calls == u64::MAX {
            return Err(Fault::CountFull);
        }
        Ok(())
    }
}

// Appends fields to those of a span. They stay as they are where memory is refused.
fn append_fields(forest: &mut Forest, id: Id, fields: &Fields) -> Result<(), Fault>
    requires { IsHeld forest.old.spans id Handle }
    ensures forest { OnOk result (forest.new ≡ record forest.old {
      spans = with_change (with_fields fields.now) forest.old.spans id;
    }) }
    ensures unchanged { OnErr result (forest.new ≡ forest.old) }
    ensures memory { IfErr result (λ fault. fault ≡ Fault.Memory) }
{
    let Ok(()) = forest.share_fields(id, fields) else {
        return Err(Fault::Memory);
    };
    Ok(())
}

// Sends the batch of a handle given back: its notes alone, or the call and the list of what closed too where the outlet
// gives them back. A list that isn't sent serves the next release.
fn put_release<O: Outlet>(outlet: &mut O, recent: &mut Recent, worker: u32, id: Id, closes: Closes)
    requires ready { O.ready outlet.old ≡ true }
    requires countable { length (O.sent outlet.old) < 2 ^ 64 - 1 }
    ensures sent { O.sent outlet.new ≡ O.sent outlet.old ++ (record {
      request = try_close worker id;
      answer = released closes.ids.items;
      notes = map plain_note closes.notes.items;
    }) ∷ [] }
    ensures forms { O.forms outlet.new ≡ O.forms outlet.old }
    ensures name { O.name outlet.new ≡ O.name outlet.old }
    ensures times_full { O.times_full outlet.new ≡ O.times_full outlet.old }
    ensures paths { recent.new.paths ≡ recent.old.paths }
{
    let Closes { ids, notes } = closes;
    let known = KnownRelease::new(worker, id, ids.as_slice());
    match outlet.put_release(known, notes) {
        Ok(()) => recent.take_ids(ids),
        Err(notes) => outlet.put(Batch {
            call: Call::TryClose { worker, id },
            reply: Reply::Released(ids),
            notes,
        }),
    }
}
