//! The promise of the registry, what a handle proves, and where no span is left at the end.
ghost use Rattle.std.specs.Prelude.{◌≡◌, ◌≢◌, ◌↔◌, ◌^◌, ◌<◌, ◌≤◌, ℕ, [], length, List, Some, None, IsTrue, IfSome, IfNone};
ghost use Rattle.span_layers.specs.Filter.{Filter};
ghost use Rattle.span_outlet.specs.Batch.{PlainBatch};
ghost use Rattle.span_forest.specs.declared.span.Holder.TheVariants.{Handle};
ghost use Rattle.span_forest.specs.Node.{node_of};
ghost use Rattle.span_forest.specs.Spans.{find, IsOpen};
ghost use Rattle.span_forest.specs.Count.{reference_count, total_handles};
ghost use Rattle.span_forest.specs.Holders.{IsHeld};
ghost use Rattle.span_forest.specs.Holding.{held_spans};
ghost use Rattle.span_id.specs.Id.{slot_of};
ghost use Rattle.span_id.specs.Ids.{has};
ghost use Rattle.span_core.specs.World.{World, IsCounted};
ghost use Rattle.span_core.specs.ClosedSpans.{closed_in};
ghost use Rattle.span_core.specs.History.{IsLegal};
ghost use Rattle.span_core.specs.Core.{CoreView};
ghost use Rattle.span_registry.specs.declared.report.Counts.{Counts};
ghost use Rattle.span_registry.specs.Report.{AreCounts};
ghost use mathlib.Core.List.{IsPrefix};

use crate::handle::take_seat;
use crate::laws::what_was_sent_is_legal;
use crate::locked::Locked;
use crate::setup::Setup;
use crate::with_seats;
use span_core::laws::outcome::a_history_leaves_one_world;
use span_core::laws::{
    counts_and_calls_have_bounds, no_span_is_held_where_none_is_left,
    open_spans_were_made_and_not_closed,
};
use span_forest::Span;
use span_id::Id;
use span_outlet::Outlet;
use std::sync::ledger::{Book, Ledger};

/// Whenever the lock is free, of any id: an open span's count is its handles, the workers that are inside it and its open
/// children; it is positive and at most `max_count`, and the span's parent is open. A closed id finds nothing. The book
/// of handles, which is lent too, is the sum of the handles of all open spans.
pub fn the_promise<H: Ledger, C: Ledger, S: Setup, O: Outlet, A>(
    locked: &Locked<H, C, S, O, A>,
    id: Id,
) -> (Option<&Span>, &Book<H>)
    ensures absent { IfNone result.0 (find locked.now.world.spans id ≡ None) }
    ensures found { IfSome result.0 (λ span. find locked.now.world.spans id ≡ Some (node_of span.now)) }
    ensures counted { IfSome result.0 (λ span. IsCounted locked.now.world id span.now) }
    ensures bounded { IfSome result.0 (λ span. span.now.count ≤ S.limits.max_count) }
    ensures closed { IsTrue (has (closed_in locked.now.sent) id) → result.0 ≡ None }
    ensures ledgered { result.1.now.total ≡ total_handles locked.now.world.spans }
{
    open_spans_were_made_and_not_closed(&locked.core);
    let span = locked.core.find(id);
    (span, &locked.handles)
}

/// Whenever the lock is free: the registry's limits, rules, forms and ring are those that it was made with, and the
/// batches sent are a legal history of at most 2^64 - 1 calls, which leaves this world. No count is above `max_count`.
/// What else every core knows is known of [`Locked::core`].
pub fn whenever_the_lock_is_free<H: Ledger, C: Ledger, S: Setup, O: Outlet, A>(
    locked: &Locked<H, C, S, O, A>,
)
    ensures setup { (locked.now.limits ≡ S.limits) × (locked.now.rules ≡ S.rules) × (locked.now.forms ≡ S.forms)
        × (locked.now.name ≡ S.ring) }
    ensures legal { IsLegal S.rules S.limits.workers locked.now.sent locked.now.world }
    ensures counts { (id : ℕ) → reference_count locked.now.world.spans id ≤ S.limits.max_count }
    ensures fits { length locked.now.sent < 2 ^ 64 }
{
    what_was_sent_is_legal(&locked.core);
    counts_and_calls_have_bounds(&locked.core);
}

/// A handle proves that its span is open: its id finds a span, of that generation, which has a handle. No other span is
/// open in its slot. The core stays as it is, and the handle keeps its id.
pub fn a_handles_span_is_open<H: Ledger, C: Ledger, S: Setup, O: Outlet, A>(
    locked: &mut Locked<H, C, S, O, A>,
    handle: &mut crate::Handle<H, C, S>,
)
    ensures open { IsOpen locked.old.world.spans handle.old.id }
    ensures held { IsHeld locked.old.world.spans handle.old.id Handle }
    ensures slot { (id : ℕ) → IsOpen locked.old.world.spans id →
        slot_of id ≡ slot_of handle.old.id → id ≡ handle.old.id }
    ensures same { locked.new ≡ locked.old }
    ensures keeps_id { handle.new.id ≡ handle.old.id }
{
    with_seats::handles::show(&locked.core, &mut locked.root, handle);
}

/// Two handles have two numbers: no unit of the book is in two handles. The core stays as it is, and both handles keep
/// their ids.
pub fn two_handles_have_two_numbers<H: Ledger, C: Ledger, S: Setup, O: Outlet, A>(
    locked: &mut Locked<H, C, S, O, A>,
    first: &mut crate::Handle<H, C, S>,
    second: &mut crate::Handle<H, C, S>,
)
    ensures numbers { first.old.number ≢ second.old.number }
    ensures same { locked.new ≡ locked.old }
    ensures keep_ids { (first.new.id ≡ first.old.id) × (second.new.id ≡ second.old.id) }
{
    let one = take_seat(&mut first.seat);
    let other = take_seat(&mut second.seat);
    let (one, other) = with_seats::handles::show_two(&locked.core, &mut locked.root, one, other);
    first.seat = Some(one);
    second.seat = Some(other);
}

/// Where no call was accepted after the list of all that is held was asked for, the registry ends with no span left
/// exactly where that list is empty: what is counted is of a core whose history begins with the one that was known
/// then, and is no longer.
pub fn no_span_is_left_where_none_is_held()
    ensures { (rules : List Filter) (workers : ℕ) (history : List PlainBatch) (world : World) (core : CoreView)
        (counts : Counts) →
        IsLegal rules workers history world → IsLegal rules workers core.sent core.world → AreCounts core counts →
        IsPrefix history core.sent → counts.calls ≡ length history →
        ((counts.left ≡ 0) ↔ (held_spans world.spans ≡ [])) }
{
    a_history_leaves_one_world();
    no_span_is_held_where_none_is_left();
}
