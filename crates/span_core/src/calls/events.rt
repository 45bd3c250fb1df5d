//! Events.
ghost use Rattle.std.specs.Prelude.{◌≡◌, ◌<◌, ◌-◌, ◌^◌, ◌++◌, ◌∷◌, [], true, map, length, OnOk, OnErr, IfErr, IfSome};
ghost use Rattle.std.specs.Arc.{arc_str_bytes};
ghost use Rattle.span_id.specs.Meta.{plain_meta, plain_fields};
ghost use Rattle.span_layers.specs.Note.{plain_note};
ghost use Rattle.span_outlet.specs.declared.batch.ParentOf.TheVariants.{Current};
ghost use Rattle.span_outlet.specs.Request.{event, told};
ghost use Rattle.span_core.specs.Parent.{parent_named};
ghost use Rattle.span_core.specs.Step.{is_open_parent};
ghost use Rattle.span_core.specs.inside.Given.{IsKept};
ghost use Rattle.span_core.specs.inside.Lent.{given_event, event_request};
ghost use Rattle.span_core.specs.Core.{IsDue, IsAccepted, IsRefused};

use crate::Core;
use crate::calls::names::are_keys;
use crate::calls::room::ask;
use crate::given::{GivenEvent, GivenFields, GivenMeta, GivenText};
use crate::notes::events::{Event, ToldEvent, event_call, event_told};
use crate::recent::Recent;
use span_forest::Forest;
use span_id::{Fault, Field, Fields, Meta, SharedMeta};
use span_layers::Admit;
use span_outlet::{Batch, KnownEvent, Outlet, ParentOf, Reply};
use std::sync::ArcStr;

impl<O: Outlet, A: Admit> Core<O, A> {
    /// Tells an event under the worker's current span: each layer sees it in the topmost span, of those that the worker
    /// is inside, that it admits. The number of the worker that tells it needs to be below `workers`. The world stays as
    /// it is; an event that no layer admits is accepted and has no notes.
    ///
    /// Refused in this order: `BadName` where the name or a key is no name, `CountFull` where the number of accepted
    /// calls is at its greatest, `Backlog`, `Memory`.
    pub fn event(
        &mut self,
        worker: u32,
        meta: &Meta,
        message: &str,
        fields: &[Field],
    ) -> Result<(), Fault>
        requires { worker < self.old.limits.workers }
        ensures accepted { OnOk result (IsAccepted self.old
            (event worker (plain_meta meta.now) message.now (plain_fields fields.now) Current) told self.new) }
        ensures refused { IfErr result (λ fault. IsRefused self.old
            (event worker (plain_meta meta.now) message.now (plain_fields fields.now) Current) fault self.new) }
    {
        self.event_in(worker, meta, message, fields, ParentOf::Current)
    }

    /// Tells an event under no parent, under the worker's current span or under a named one. Under a named one each layer
    /// that admits that span sees it there, and any other layer in no span. The event holds nothing: no count changes.
    /// All else is as in `event`.
    ///
    /// Refused in this order: `BadName` where the name or a key is no name, `Unknown` where the named parent isn't open,
    /// `CountFull` where the number of accepted calls is at its greatest, `Backlog`, `Memory`.
    pub fn event_in(
        &mut self,
        worker: u32,
        meta: &Meta,
        message: &str,
        fields: &[Field],
        parent: ParentOf,
    ) -> Result<(), Fault>
        requires { worker < self.old.limits.workers }
        ensures accepted { OnOk result (IsAccepted self.old
            (event worker (plain_meta meta.now) message.now (plain_fields fields.now) parent) told self.new) }
        ensures refused { IfErr result (λ fault. IsRefused self.old
            (event worker (plain_meta meta.now) message.now (plain_fields fields.now) parent) fault self.new) }
    {
        let given = GivenEvent {
            meta: GivenMeta::Lent(meta),
            message: GivenText::Lent(message),
            fields: GivenFields::Lent(fields),
            parent,
        };
        self.event_given(worker, &given)
    }

    /// Tells an event as `event` does, with the same refusals. The batch shares the meta, the message and the fields
    /// with the caller: each has one more owner, and nothing is copied.
    pub fn event_shared(
        &mut self,
        worker: u32,
        meta: &SharedMeta,
        message: &ArcStr,
        fields: &Fields,
    ) -> Result<(), Fault>
        requires { worker < self.old.limits.workers }
        ensures accepted { OnOk result (IsAccepted self.old
            (event worker meta.now (arc_str_bytes message.now) fields.now Current) told self.new) }
        ensures refused { IfErr result (λ fault. IsRefused self.old
            (event worker meta.now (arc_str_bytes message.now) fields.now Current) fault self.new) }
    {
        self.event_in_shared(worker, meta, message, fields, ParentOf::Current)
    }

    /// Tells an event as `event_in` does, with the same refusals, and shares as `event_shared` does.
    pub fn event_in_shared(
        &mut self,
        worker: u32,
        meta: &SharedMeta,
        message: &ArcStr,
        fields: &Fields,
        parent: ParentOf,
    ) -> Result<(), Fault>
        requires { worker < self.old.limits.workers }
        ensures accepted { OnOk result (IsAccepted self.old
            (event worker meta.now (arc_str_bytes message.now) fields.now parent) told self.new) }
        ensures refused { IfErr result (λ fault. IsRefused self.old
            (event worker meta.now (arc_str_bytes message.now) fields.now parent) fault self.new) }
    {
        let given = GivenEvent {
            meta: GivenMeta::Shared(meta),
            message: GivenText::Shared(message),
            fields: GivenFields::Shared(fields),
            parent,
        };
        self.event_given(worker, &given)
    }

    // Tells an event of what is lent or shared.
    fn event_given(&mut self, worker: u32, given: &GivenEvent<'_>) -> Result<(), Fault>
        requires { worker < self.old.limits.workers }
        ensures accepted { OnOk result (IsAccepted self.old (given_event worker given.now) told self.new) }
        ensures refused { IfErr result (λ fault. IsRefused self.old (given_event worker given.now) fault self.new) }
    {
        self.telling(worker, given)?;
        ask(&mut self.outlet, &mut self.recent.spare)?;
        let event = Event {
            worker,
            bits: self.rules.bits(&self.admitters, given.meta.read()),
            given,
        };
        let stacks = self.stacks.as_slice();
        let told = event_told(
            &mut self.recent,
            &self.rules,
            &self.forest,
            stacks,
            &mut self.summary,
            &event,
        )?;
        put_told(&mut self.outlet, &mut self.recent, &event, told)?;
        self.calls += 1;
        Ok(())
    }

    // Why an event is refused, if it is.
    fn telling(&self, worker: u32, given: &GivenEvent<'_>) -> Result<(), Fault>
        ensures due { OnOk result (IsDue self.now (given_event worker given.now)) }
        ensures refused { IfErr result (λ fault. IsRefused self.now (given_event worker given.now) fault self.now) }
    {
        if !(given.meta.read().fit() && are_keys(given.fields.read())) {
            return Err(Fault::BadName);
        }
        if !is_open_parent(&self.forest, &given.parent) {
            return Err(Fault::Unknown);
        }
        if self.calls == u64::MAX {
            return Err(Fault::CountFull);
        }
        Ok(())
    }
}

// Whether the parent that is named, if one is, is open.
fn is_open_parent(forest: &Forest, parent: &ParentOf) -> bool
    ensures { result ≡ is_open_parent forest.now.spans (parent_named parent.now) }
{
    match parent {
        ParentOf::Of(id) => forest.find(*id).is_some(),
        ParentOf::Root => true,
        ParentOf::Current => true,
    }
}

// Sends the batch of an event: its notes alone, or the call too where the outlet gives them back.
fn put_told<O: Outlet>(
    outlet: &mut O,
    recent: &mut Recent,
    event: &Event<'_>,
    told_event: ToldEvent,
) -> Result<(), Fault>
    requires ready { O.ready outlet.old ≡ true }
    requires countable { length (O.sent outlet.old) < 2 ^ 64 - 1 }
    requires kept { IfSome told_event.kept (IsKept event.now.given.now) }
    ensures sent { OnOk result (O.sent outlet.new ≡ O.sent outlet.old ++ (record {
      request = event_request event.now;
      answer = told;
      notes = map plain_note told_event.notes.items;
    }) ∷ []) }
    ensures unsent { OnErr result (O.sent outlet.new ≡ O.sent outlet.old) }
    ensures forms { O.forms outlet.new ≡ O.forms outlet.old }
    ensures name { O.name outlet.new ≡ O.name outlet.old }
    ensures times_full { O.times_full outlet.new ≡ O.times_full outlet.old }
    ensures paths { recent.new.paths ≡ recent.old.paths }
    ensures memory { IfErr result (λ fault. fault ≡ Fault.Memory) }
{
    let ToldEvent { notes, kept } = told_event;
    let given = event.given;
    let known = KnownEvent::new(
        event.worker,
        given.meta.read(),
        given.message.read(),
        given.fields.read(),
        given.parent,
    );
    if let Err(notes) = outlet.put_event(known, notes) {
        let call = event_call(recent, event, kept)?;
        outlet.put(Batch {
            call,
            reply: Reply::Told,
            notes,
        });
    }
    Ok(())
}
