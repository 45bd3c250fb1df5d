//! New spans.
ghost use Rattle.std.specs.Prelude.{◌≡◌, ◌<◌, ◌-◌, ◌^◌, ◌↔◌, ◌⊎◌, ◌++◌, ◌∷◌, [], ℕ, true, false, not, map, length, IfOk, OnOk, IfErr, OnErr, IfSome, IfNone, OnSome, Some, None};
ghost use Rattle.span_layers.specs.Filter.{admission_set};
ghost use Rattle.span_layers.specs.Note.{plain_note};
ghost use Rattle.span_slots.specs.Table.{IsIssued};
ghost use Rattle.span_forest.specs.Add.{with_span};
ghost use Rattle.span_forest.specs.Forest.{table_of, next_span_id};
ghost use Rattle.span_forest.specs.Node.{new_node};
ghost use Rattle.span_forest.specs.Path.{path_text};
ghost use Rattle.span_id.specs.Id.{IsId};
ghost use Rattle.span_id.specs.Meta.{plain_meta, plain_fields};
ghost use Rattle.span_outlet.specs.Request.{new_span, made};
ghost use Rattle.span_core.specs.Parent.{parent_found};
ghost use Rattle.span_core.specs.Step.{is_open_parent};
ghost use Rattle.span_core.specs.NextId.{next_id_after};
ghost use Rattle.span_core.specs.inside.Given.{meta_given, fields_given};
ghost use Rattle.span_core.specs.inside.Lent.{span_request};
ghost use Rattle.span_core.specs.Core.{is_parent_below_max, IsDue, IsAccepted, IsRefused, IsNotWanted};
ghost use Rattle.span_core.specs.inside.Remembering.{Remembers};
ghost use Rattle.span_core.specs.inside.Telling.{Knows};

use crate::Core;
use crate::calls::names::are_keys;
use crate::calls::room::ask;
use crate::given::{GivenFields, GivenMeta};
use crate::notes::new_spans::{NewSpan, new_notes};
use crate::notes::paths::SharedPaths;
use crate::recent::Recent;
use span_forest::Forest;
use span_forest::laws::{
    each_slot_has_one_open_id, next_id_is_new, open_spans_are_counted, walks_end,
};
use span_id::{Fault, Field, Fields, Id, Level, Meta, SharedMeta};
use span_layers::{Admit, Note};
use span_outlet::{Batch, Call, KnownSpan, Outlet, ParentOf, Reply};

impl<O: Outlet, A: Admit> Core<O, A> {
    // The parent that a caller means.
    pub(crate) fn parent(&self, worker: u32, parent: ParentOf) -> Option<Id>
        requires { worker < self.now.limits.workers }
        ensures { result ≡ parent_found self.now.world worker parent }
    {
        match parent {
            ParentOf::Root => None,
            ParentOf::Current => self.stack(worker).current(),
            ParentOf::Of(id) => Some(id),
        }
    }

    /// Makes a span with copies of the meta and the fields, under no parent, under the worker's current span or under a
    /// named one. The number of the worker needs to be below `workers`. The span has one handle. The layers that
    /// admit it are those whose rule admits the meta.
    ///
    /// The answer is its id: the one that the history so far gives, which was never issued before. It is `None`, and
    /// nothing changes, where there are layers and none admits the meta.
    ///
    /// Refused in this order: `BadName` where the name or a key is no name; then comes the answer `None`; `Unknown`
    /// where the parent isn't open, `CountFull` where the parent's count or the number of accepted calls is at its
    /// greatest, `Full` where no slot is free, `Backlog`, `Memory`.
    pub fn new_span(
        &mut self,
        worker: u32,
        meta: &Meta,
        fields: &[Field],
        parent: ParentOf,
    ) -> Result<Option<Id>, Fault>
        requires { worker < self.old.limits.workers }
        ensures made { IfOk result (λ made_id. IfSome made_id (λ id.
            IsAccepted self.old (new_span worker (plain_meta meta.now) (plain_fields fields.now)
            (parent_found self.old.world worker parent)) (made id) self.new)) }
        ensures next { IfOk result (λ made_id. IfSome made_id (λ id.
            next_id_after self.old.limits.slots self.old.limits.last_generation self.old.sent ≡ Some id)) }
        ensures not_wanted { IfOk result (λ made_id. IfNone made_id (
            IsNotWanted self.old (new_span worker (plain_meta meta.now) (plain_fields fields.now)
            (parent_found self.old.world worker parent)) self.new)) }
        ensures refused { IfErr result (λ fault.
            IsRefused self.old (new_span worker (plain_meta meta.now) (plain_fields fields.now)
            (parent_found self.old.world worker parent)) fault self.new) }
    {
        self.new_span_given(
            worker,
            &GivenMeta::Lent(meta),
            GivenFields::Lent(fields),
            parent,
        )
    }

    /// Makes a span as `new_span` does, with the same answers and refusals. The span, and the batch where it is kept,
    /// share the meta and the fields with the caller: each has more owners, and nothing is copied.
    pub fn new_span_shared(
        &mut self,
        worker: u32,
        meta: &SharedMeta,
        fields: &Fields,
        parent: ParentOf,
    ) -> Result<Option<Id>, Fault>
        requires { worker < self.old.limits.workers }
        ensures made { IfOk result (λ made_id. IfSome made_id (λ id.
            IsAccepted self.old (new_span worker meta.now fields.now
            (parent_found self.old.world worker parent)) (made id) self.new)) }
        ensures next { IfOk result (λ made_id. IfSome made_id (λ id.
            next_id_after self.old.limits.slots self.old.limits.last_generation self.old.sent ≡ Some id)) }
        ensures not_wanted { IfOk result (λ made_id. IfNone made_id (
            IsNotWanted self.old (new_span worker meta.now fields.now
            (parent_found self.old.world worker parent)) self.new)) }
        ensures refused { IfErr result (λ fault.
            IsRefused self.old (new_span worker meta.now fields.now
            (parent_found self.old.world worker parent)) fault self.new) }
    {
        self.new_span_given(
            worker,
            &GivenMeta::Shared(meta),
            GivenFields::Shared(fields),
            parent,
        )
    }

    /// Makes a span as `new_span_shared` does, with the same answers and refusals, and takes the fields, which are dropped
    /// where none is made.
    pub fn new_span_owning(
        &mut self,
        worker: u32,
        meta: &SharedMeta,
        fields: Fields,
        parent: ParentOf,
    ) -> Result<Option<Id>, Fault>
        requires { worker < self.old.limits.workers }
        ensures made { IfOk result (λ made_id. IfSome made_id (λ id.
            IsAccepted self.old (new_span worker meta.now fields
            (parent_found self.old.world worker parent)) (made id) self.new)) }
        ensures next { IfOk result (λ made_id. IfSome made_id (λ id.
            next_id_after self.old.limits.slots self.old.limits.last_generation self.old.sent ≡ Some id)) }
        ensures not_wanted { IfOk result (λ made_id. IfNone made_id (
            IsNotWanted self.old (new_span worker meta.now fields
            (parent_found self.old.world worker parent)) self.new)) }
        ensures refused { IfErr result (λ fault.
            IsRefused self.old (new_span worker meta.now fields
            (parent_found self.old.world worker parent)) fault self.new) }
    {
        self.new_span_given(
            worker,
            &GivenMeta::Shared(meta),
            GivenFields::Owned(fields),
            parent,
        )
    }

    /// A meta for the calls that share one: where an equal one was copied lately, it has one owner more. The only error is
    /// `Memory`.
    pub fn shared_meta(
        &mut self,
        level: Level,
        name: &str,
        target: &str,
    ) -> Result<SharedMeta, Fault>
        ensures meta { IfOk result (λ meta. meta ≡ record { name = name.now; target = target.now; level = level }) }
        ensures memory { IfErr result (λ fault. fault ≡ Fault.Memory) }
        ensures same { self.new ≡ self.old }
    {
        self.recent.metas.share_texts(level, name, target)
    }

    /// A field of its own, for `new_span_owning`: in the memory of the field of a span that closed, where nobody else has
    /// that. The only error is `Memory`.
    pub fn one_field(&mut self, key: &str, value: &str) -> Result<Fields, Fault>
        ensures field { IfOk result (λ fields. fields ≡ (key.now, value.now) ∷ []) }
        ensures memory { IfErr result (λ fault. fault ≡ Fault.Memory) }
        ensures same { self.new ≡ self.old }
    {
        self.recent.spare_fields.one(key, value)
    }

    // Makes a span of what is given.
    fn new_span_given(
        &mut self,
        worker: u32,
        meta: &GivenMeta<'_>,
        fields: GivenFields<'_>,
        parent: ParentOf,
    ) -> Result<Option<Id>, Fault>
        requires { worker < self.old.limits.workers }
        ensures made { IfOk result (λ made_id. IfSome made_id (λ id.
            IsAccepted self.old (new_span worker (meta_given meta.now) (fields_given fields.entry)
            (parent_found self.old.world worker parent)) (made id) self.new)) }
        ensures next { IfOk result (λ made_id. IfSome made_id (λ id.
            next_id_after self.old.limits.slots self.old.limits.last_generation self.old.sent ≡ Some id)) }
        ensures not_wanted { IfOk result (λ made_id. IfNone made_id (
            IsNotWanted self.old (new_span worker (meta_given meta.now) (fields_given fields.entry)
            (parent_found self.old.world worker parent)) self.new)) }
        ensures refused { IfErr result (λ fault.
            IsRefused self.old (new_span worker (meta_given meta.now) (fields_given fields.entry)
            (parent_found self.old.world worker parent)) fault self.new) }
    {
        if !(meta.read().fit() && are_keys(fields.read())) {
            return Err(Fault::BadName);
        }
        let parent = self.parent(worker, parent);
        let bits = self.rules.bits(&self.admitters, meta.read());
        if self.rules.len() > 0 && bits.0 == 0 {
            return Ok(None);
        }
        let Some(full) = parent_full(&self.forest, self.limits.limits().max_count, &parent) else {
            return Err(Fault::Unknown);
        };
        if full || self.calls == u64::MAX {
            return Err(Fault::CountFull);
        }
        let Some(id) = self.forest.next_id() else {
            return Err(Fault::Full);
        };
        let new = NewSpan {
            worker,
            id,
            bits,
            parent,
            meta: *meta,
        };
        self.make(&new, fields)?;
        Ok(Some(id))
    }

    // Makes a span that nothing but the outlet or memory can stand against.
    fn make(&mut self, new: &NewSpan<'_>, fields: GivenFields<'_>) -> Result<(), Fault>
        requires within { new.now.worker < self.old.limits.workers }
        requires due { IsDue self.old (span_request new.now (fields_given fields)) }
        requires bits { new.now.bits.0 ≡ admission_set self.old.rules (meta_given new.now.meta).target
            (meta_given new.now.meta).level }
        requires next { next_id_after self.old.limits.slots self.old.limits.last_generation self.old.sent
            ≡ Some new.now.id }
        ensures made { OnOk result
            (IsAccepted self.old (span_request new.now (fields_given fields.entry)) (made new.now.id) self.new) }
        ensures refused { IfErr result (λ fault.
            IsRefused self.old (span_request new.now (fields_given fields.entry)) fault self.new) }
    {
        ask(&mut self.outlet, &mut self.recent.spare)?;
        next_id_is_new(&self.forest);
        each_slot_has_one_open_id(&self.forest);
        open_spans_are_counted(&self.forest);
        let meta = new.meta.keep(&mut self.recent.metas)?;
        let fields = fields.keep_of_new(&mut self.recent.spare_fields)?;
        let mut paths = SharedPaths::none(self.recent.alloc);
        let notes = new_notes(
            &mut self.recent,
            &self.rules,
            &self.forest,
            new,
            &fields,
            &mut paths,
        )?;
        put_new(&mut self.outlet, new, &meta, &fields, notes)?;
        self.calls += 1;
        self.made += 1;
        add_span(&mut self.recent, &mut self.forest, new, meta, fields, paths);
        Ok(())
    }
}

// Sends the batch of a new span: its notes alone, or the call too where the outlet gives them back.
fn put_new<O: Outlet>(
    outlet: &mut O,
    new: &NewSpan<'_>,
    meta: &SharedMeta,
    fields: &Fields,
    notes: Vec<Note>,
) -> Result<(), Fault>
    requires ready { O.ready outlet.old ≡ true }
    requires countable { length (O.sent outlet.old) < 2 ^ 64 - 1 }
    requires meta { meta.now ≡ meta_given new.now.meta }
    ensures sent { OnOk result (O.sent outlet.new ≡ O.sent outlet.old ++ (record {
      request = span_request new.now fields.now;
      answer = made new.now.id;
      notes = map plain_note notes.items;
    }) ∷ []) }
    ensures unsent { OnErr result (O.sent outlet.new ≡ O.sent outlet.old) }
    ensures forms { O.forms outlet.new ≡ O.forms outlet.old }
    ensures name { O.name outlet.new ≡ O.name outlet.old }
    ensures times_full { O.times_full outlet.new ≡ O.times_full outlet.old }
    ensures memory { IfErr result (λ fault. fault ≡ Fault.Memory) }
{
    let known = KnownSpan::new(
        new.worker,
        new.id,
        meta.as_meta(),
        fields.as_slice(),
        new.parent,
    );
    if let Err(notes) = outlet.put_span(known, notes) {
        let call = Call::NewSpan {
            worker: new.worker,
            meta: meta.share()?,
            fields: fields.share()?,
            parent: new.parent,
        };
        outlet.put(Batch {
            call,
            reply: Reply::Made(new.id),
            notes,
        });
    }
    Ok(())
}

// Adds a span to the forest, whose batch is sent: that takes no memory. What is remembered of it may ask for some, and
// isn't where it is refused.
fn add_span(
    recent: &mut Recent,
    forest: &mut Forest,
    new: &NewSpan<'_>,
    meta: SharedMeta,
    fields: Fields,
    paths: SharedPaths,
)
    requires open { is_open_parent forest.old.spans new.now.parent ≡ true }
    requires count { is_parent_below_max forest.old.max_count forest.old.spans new.now.parent ≡ true }
    requires next { next_span_id forest.old ≡ Some new.now.id }
    requires meta { meta ≡ meta_given new.now.meta }
    requires paths { Knows (λ path. path_text (path ++ (meta_given new.now.meta).name ∷ [])) forest.old.spans paths }
    requires remembers { Remembers forest.old recent.old.paths }
    ensures forest { forest.new ≡ with_span forest.old new.now.id
        (new_node (meta_given new.now.meta) fields new.now.parent new.now.bits.0) }
    ensures issued { (other : ℕ) → IsId other →
        (IsIssued (table_of forest.new) other ↔ (IsIssued (table_of forest.old) other ⊎ (new.now.id ≡ other))) }
    ensures remembers { Remembers forest.new recent.new.paths }
{
    next_id_is_new(forest);
    open_spans_are_counted(forest);
    walks_end(forest);
    let Ok(_) = forest.add(meta, fields, new.parent, new.bits) else {
        unreachable!();
    };
    walks_end(forest);
    paths.remember_new(&mut recent.paths, &new.parent, new.bits, new.id);
}

// Whether the count of a parent is at its greatest; none where the parent isn't open.
fn parent_full(forest: &Forest, max_count: u32, parent: &Option<Id>) -> Option<bool>
    ensures open { OnSome result (is_open_parent forest.now.spans parent.now ≡ true) }
    ensures absent { IfNone result (is_open_parent forest.now.spans parent.now ≡ false) }
    ensures full { IfSome result (λ full. not full ≡ is_parent_below_max max_count forest.now.spans parent.now) }
{
    match parent {
        None => Some(false),
        Some(id) => {
            let span = forest.find(*id)?;
            Some(span.count >= max_count)
        }
    }
}
