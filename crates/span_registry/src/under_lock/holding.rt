//! What keeps spans open.
ghost use Rattle.std.specs.Prelude.{◌≡◌, ◌≢◌, ◌↔◌, [], map, length, IfOk, IfErr, OnOk, OnErr};
ghost use Rattle.span_forest.specs.Spans.{find, IsOpen, WhyNotFound};
ghost use Rattle.span_forest.specs.declared.span.Holder.TheVariants.{Entry};
ghost use Rattle.span_forest.specs.Holders.{held_in};
ghost use Rattle.span_forest.specs.Holding.{all_ids, held_spans, what_holds};
ghost use Rattle.span_core.specs.World.{workers_with};
ghost use Rattle.span_core.specs.Details.{plain_details, details_of};
ghost use mathlib.Core.List.{IsPrefix};
ghost use Rattle.span_registry.specs.Worker.{HasNoMore};
ghost use Rattle.span_registry.specs.Happened.{Happened};

use crate::locked::Locked;
use crate::setup::Setup;
use crate::under_lock::finds::look;
use crate::worker::Worker;
use span_core::SpanDetails;
use span_core::laws::{
    a_span_is_open_as_long_as_something_keeps_it, no_span_is_held_where_none_is_open,
};
use span_forest::Held;
use span_id::{Fault, Id};
use span_outlet::Outlet;
use std::sync::ledger::Ledger;

/// The ids of the open spans, by ascending slot. It is no call of the history. The only error is `Memory`.
pub fn open_spans<H: Ledger, C: Ledger, S: Setup, O: Outlet, A>(
    locked: &mut Locked<H, C, S, O, A>,
    worker: &mut Worker<H, C, S>,
) -> Result<Vec<Id>, Fault>
    ensures seen { IsPrefix worker.old.seen worker.new.seen }
    ensures own { HasNoMore worker.old worker.new }
    ensures happened { IfOk result (λ ids. Happened S.limits S.rules worker.old worker.new (λ old new.
        (new ≡ old) × (ids.items ≡ all_ids old.world.spans))) }
    ensures was_refused { OnErr result (Happened S.limits S.rules worker.old worker.new (λ old new. new ≡ old)) }
    ensures worker { worker.new ≡ record worker.old { seen = worker.new.seen } }
    ensures same { locked.new ≡ locked.old }
    ensures ids { IfOk result (λ ids. ids.items ≡ all_ids locked.old.world.spans) }
    ensures memory { IfErr result (λ fault. fault ≡ Fault.Memory) }
{
    look(locked, worker);
    locked.core.open_spans()
}

/// What keeps all open spans open: the spans that have handles or entries of their own, with how many, by ascending
/// slot. There are none exactly where no span is open. It is no call of the history. The only error is `Memory`.
pub fn held_spans<H: Ledger, C: Ledger, S: Setup, O: Outlet, A>(
    locked: &mut Locked<H, C, S, O, A>,
    worker: &mut Worker<H, C, S>,
) -> Result<Vec<Held>, Fault>
    ensures seen { IsPrefix worker.old.seen worker.new.seen }
    ensures own { HasNoMore worker.old worker.new }
    ensures happened { IfOk result (λ list. Happened S.limits S.rules worker.old worker.new (λ old new.
        (new ≡ old) × (list.items ≡ held_spans old.world.spans)
        × ((list.items ≡ []) ↔ (old.world.spans ≡ [])))) }
    ensures was_refused { OnErr result (Happened S.limits S.rules worker.old worker.new (λ old new. new ≡ old)) }
    ensures worker { worker.new ≡ record worker.old { seen = worker.new.seen } }
    ensures same { locked.new ≡ locked.old }
    ensures list { IfOk result (λ list. list.items ≡ held_spans locked.old.world.spans) }
    ensures empty { IfOk result (λ list. (list.items ≡ []) ↔ (locked.old.world.spans ≡ [])) }
    ensures memory { IfErr result (λ fault. fault ≡ Fault.Memory) }
{
    look(locked, worker);
    no_span_is_held_where_none_is_open(&locked.core);
    locked.core.held_spans()
}

/// What keeps a span open: the spans at it or below it that have handles or entries of their own, with how many, by
/// ascending slot; there is at least one. It is no call of the history.
///
/// Refused in this order: `Unknown` where the span isn't open, `Memory`.
pub fn holders_of<H: Ledger, C: Ledger, S: Setup, O: Outlet, A>(
    locked: &mut Locked<H, C, S, O, A>,
    worker: &mut Worker<H, C, S>,
    id: Id,
) -> Result<Vec<Held>, Fault>
    ensures seen { IsPrefix worker.old.seen worker.new.seen }
    ensures own { HasNoMore worker.old worker.new }
    ensures happened { IfOk result (λ list. Happened S.limits S.rules worker.old worker.new (λ old new.
        (new ≡ old) × IsOpen old.world.spans id × (list.items ≡ what_holds old.world.spans id))) }
    ensures was_refused { IfErr result (λ fault. Happened S.limits S.rules worker.old worker.new (λ old new.
        (new ≡ old) × WhyNotFound old.world.spans id fault)) }
    ensures worker { worker.new ≡ record worker.old { seen = worker.new.seen } }
    ensures same { locked.new ≡ locked.old }
    ensures found { OnOk result (IsOpen locked.old.world.spans id) }
    ensures list { IfOk result (λ list. list.items ≡ what_holds locked.old.world.spans id) }
    ensures some { OnOk result (what_holds locked.old.world.spans id ≢ []) }
    ensures refused { IfErr result (λ fault. WhyNotFound locked.old.world.spans id fault) }
{
    look(locked, worker);
    a_span_is_open_as_long_as_something_keeps_it(&locked.core);
    locked.core.holders_of(id)
}

/// The workers that are inside a span, by their numbers: as many as the span has entries. A worker that entered it more
/// than once is one entry. It is no call of the history. The only error is `Memory`.
pub fn workers_inside<H: Ledger, C: Ledger, S: Setup, O: Outlet, A>(
    locked: &mut Locked<H, C, S, O, A>,
    worker: &mut Worker<H, C, S>,
    id: Id,
) -> Result<Vec<u32>, Fault>
    ensures seen { IsPrefix worker.old.seen worker.new.seen }
    ensures own { HasNoMore worker.old worker.new }
    ensures happened { IfOk result (λ workers. Happened S.limits S.rules worker.old worker.new (λ old new.
        (new ≡ old) × (workers.items ≡ workers_with old.world.stacks id)
        × (length workers.items ≡ held_in Entry (find old.world.spans id)))) }
    ensures was_refused { OnErr result (Happened S.limits S.rules worker.old worker.new (λ old new. new ≡ old)) }
    ensures worker { worker.new ≡ record worker.old { seen = worker.new.seen } }
    ensures same { locked.new ≡ locked.old }
    ensures workers { IfOk result (λ workers. workers.items ≡ workers_with locked.old.world.stacks id) }
    ensures count { IfOk result (λ workers. length workers.items
        ≡ held_in Entry (find locked.old.world.spans id)) }
    ensures memory { IfErr result (λ fault. fault ≡ Fault.Memory) }
{
    look(locked, worker);
    locked.core.workers_inside(id)
}

/// All open spans of one moment, by ascending slot, each with its name, target, level, parent, handles, the workers that
/// are inside it and how many open children it has. It is no call of the history. The only error is `Memory`.
pub fn span_details<H: Ledger, C: Ledger, S: Setup, O: Outlet, A>(
    locked: &mut Locked<H, C, S, O, A>,
    worker: &mut Worker<H, C, S>,
) -> Result<Vec<SpanDetails>, Fault>
    ensures seen { IsPrefix worker.old.seen worker.new.seen }
    ensures own { HasNoMore worker.old worker.new }
    ensures happened { IfOk result (λ list. Happened S.limits S.rules worker.old worker.new (λ old new.
        (new ≡ old) × (map plain_details list.items ≡ map (details_of old.world) old.world.spans))) }
    ensures was_refused { OnErr result (Happened S.limits S.rules worker.old worker.new (λ old new. new ≡ old)) }
    ensures worker { worker.new ≡ record worker.old { seen = worker.new.seen } }
    ensures same { locked.new ≡ locked.old }
    ensures details { IfOk result (λ list. map plain_details list.items
        ≡ map (details_of locked.old.world) locked.old.world.spans) }
    ensures memory { IfErr result (λ fault. fault ≡ Fault.Memory) }
{
    look(locked, worker);
    locked.core.span_details()
}
