//! Questions about the open spans, which take the lock.
ghost use Rattle.std.specs.Prelude.{◌≡◌, ◌↔◌, [], map, length, IfOk, IfErr, OnErr};
ghost use Rattle.span_forest.specs.Spans.{find, IsOpen, WhyNotFound};
ghost use Rattle.span_forest.specs.declared.span.Holder.TheVariants.{Entry};
ghost use Rattle.span_forest.specs.Holders.{held_in};
ghost use Rattle.span_forest.specs.Holding.{all_ids, held_spans, what_holds};
ghost use Rattle.span_core.specs.World.{workers_with};
ghost use Rattle.span_core.specs.Details.{plain_details, details_of};
ghost use mathlib.Core.List.{IsPrefix};
ghost use Rattle.span_registry.specs.Worker.{HasNoMore};
ghost use Rattle.span_registry.specs.Happened.{Happened};

use crate::registry::Registry;
use crate::setup::Setup;
use crate::under_lock;
use crate::worker::Worker;
use span_core::SpanDetails;
use span_forest::Held;
use span_id::{Fault, Id};
use span_outlet::Outlet;
use std::sync::Wait;
use std::sync::ledger::Ledger;

impl<H: Ledger, C: Ledger, S: Setup, O: Outlet, A> Registry<H, C, S, O, A> {
    /// The ids of the open spans, by ascending slot. It is no call of the history. Under the lock it looks once at each
    /// slot that was ever used. The only error is `Memory`.
    pub fn open_spans<R: Wait>(
        &self,
        rt: &R,
        worker: &mut Worker<H, C, S>,
    ) -> Result<Vec<Id>, Fault>
        ensures seen { IsPrefix worker.old.seen worker.new.seen }
        ensures own { HasNoMore worker.old worker.new }
        ensures happened { IfOk result (λ ids. Happened S.limits S.rules worker.old worker.new (λ old new.
            (new ≡ old) × (ids.items ≡ all_ids old.world.spans))) }
        ensures was_refused { OnErr result (Happened S.limits S.rules worker.old worker.new (λ old new. new ≡ old)) }
        ensures worker { worker.new ≡ record worker.old { seen = worker.new.seen } }
        ensures memory { IfErr result (λ fault. fault ≡ Fault.Memory) }
    {
        under_lock::open_spans(&mut *self.locked.lock(rt), worker)
    }

    /// What keeps all open spans open: the spans that have handles or entries of their own, with how many, by ascending
    /// slot. There are none exactly where no span is open. `finish` can't fail, so this is asked for before it. It is
    /// no call of the history. Under the lock it looks at each slot that was ever used. The only error is `Memory`.
    pub fn held_spans<R: Wait>(
        &self,
        rt: &R,
        worker: &mut Worker<H, C, S>,
    ) -> Result<Vec<Held>, Fault>
        ensures seen { IsPrefix worker.old.seen worker.new.seen }
        ensures own { HasNoMore worker.old worker.new }
        ensures happened { IfOk result (λ list. Happened S.limits S.rules worker.old worker.new (λ old new.
            (new ≡ old) × (list.items ≡ held_spans old.world.spans)
            × ((list.items ≡ []) ↔ (old.world.spans ≡ [])))) }
        ensures was_refused { OnErr result (Happened S.limits S.rules worker.old worker.new (λ old new. new ≡ old)) }
        ensures worker { worker.new ≡ record worker.old { seen = worker.new.seen } }
        ensures memory { IfErr result (λ fault. fault ≡ Fault.Memory) }
    {
        under_lock::held_spans(&mut *self.locked.lock(rt), worker)
    }

    /// What keeps a span open: the spans at it or below it that have handles or entries of their own, with how many, by
    /// ascending slot; there is at least one. The span closes with the last of these, and not before. It is no call of
    /// the history. Under the lock it looks at each slot that was ever used, and takes the same time however deep the
    /// spans stand.
    ///
    /// Refused in this order: `Unknown` where the span isn't open, `Memory`.
    pub fn holders_of<R: Wait>(
        &self,
        rt: &R,
        worker: &mut Worker<H, C, S>,
        id: Id,
    ) -> Result<Vec<Held>, Fault>
        ensures seen { IsPrefix worker.old.seen worker.new.seen }
        ensures own { HasNoMore worker.old worker.new }
        ensures happened { IfOk result (λ list. Happened S.limits S.rules worker.old worker.new (λ old new.
            (new ≡ old) × IsOpen old.world.spans id × (list.items ≡ what_holds old.world.spans id))) }
        ensures was_refused { IfErr result (λ fault. Happened S.limits S.rules worker.old worker.new (λ old new.
            (new ≡ old) × WhyNotFound old.world.spans id fault)) }
        ensures worker { worker.new ≡ record worker.old { seen = worker.new.seen } }
    {
        under_lock::holders_of(&mut *self.locked.lock(rt), worker, id)
    }

    /// The workers that are inside a span, by their numbers, as many as it has entries. A worker that entered it more
    /// than once is one entry, and has to leave it as often. It is no call of the history. Under the lock it goes
    /// through the stacks of all workers. The only error is `Memory`.
    pub fn workers_inside<R: Wait>(
        &self,
        rt: &R,
        worker: &mut Worker<H, C, S>,
        id: Id,
    ) -> Result<Vec<u32>, Fault>
        ensures seen { IsPrefix worker.old.seen worker.new.seen }
        ensures own { HasNoMore worker.old worker.new }
        ensures happened { IfOk result (λ workers. Happened S.limits S.rules worker.old worker.new (λ old new.
            (new ≡ old) × (workers.items ≡ workers_with old.world.stacks id)
            × (length workers.items ≡ held_in Entry (find old.world.spans id)))) }
        ensures was_refused { OnErr result (Happened S.limits S.rules worker.old worker.new (λ old new. new ≡ old)) }
        ensures worker { worker.new ≡ record worker.old { seen = worker.new.seen } }
        ensures memory { IfErr result (λ fault. fault ≡ Fault.Memory) }
    {
        under_lock::workers_inside(&mut *self.locked.lock(rt), worker, id)
    }

    /// All open spans of one moment, by ascending slot, each with its name, target, level, parent, handles, the workers
    /// that are inside it and how many open children it has. It is no call of the history. Under the lock it looks at
    /// each slot that was ever used, and for each span that has an entry through the stacks of all workers; names are
    /// shared and not copied. The only error is `Memory`.
    pub fn span_details<R: Wait>(
        &self,
        rt: &R,
        worker: &mut Worker<H, C, S>,
    ) -> Result<Vec<SpanDetails>, Fault>
        ensures seen { IsPrefix worker.old.seen worker.new.seen }
        ensures own { HasNoMore worker.old worker.new }
        ensures happened { IfOk result (λ list. Happened S.limits S.rules worker.old worker.new (λ old new.
            (new ≡ old) × (map plain_details list.items ≡ map (details_of old.world) old.world.spans))) }
        ensures was_refused { OnErr result (Happened S.limits S.rules worker.old worker.new (λ old new. new ≡ old)) }
        ensures worker { worker.new ≡ record worker.old { seen = worker.new.seen } }
        ensures memory { IfErr result (λ fault. fault ≡ Fault.Memory) }
    {
        under_lock::span_details(&mut *self.locked.lock(rt), worker)
    }
}
