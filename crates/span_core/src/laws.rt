//! What every registry promises, in plain words: each function does nothing, and its contract is the promise.
ghost use Rattle.std.specs.Prelude.{◌≡◌, ◌≢◌, ◌≤◌, ◌<◌, ◌+◌, ◌^◌, ℕ, nat_lt, true, false, ◌&&◌, ◌↔◌, if◌then◌else◌, [], List, length, Option, Some, None, IsTrue, All, AllPairs, Contains, count_by};
ghost use Rattle.span_id.specs.Id.{slot_of, IsId};
ghost use Rattle.span_id.specs.Meta.{KeyValue, PlainMeta};
ghost use Rattle.span_id.specs.Ids.{has};
ghost use Rattle.span_layers.specs.Filter.{Filter, admission_set};
ghost use Rattle.span_forest.specs.Node.{Node, new_node};
ghost use Rattle.span_forest.specs.Spans.{find, IsOpen, parent_of};
ghost use Rattle.span_forest.specs.declared.span.Holder.TheVariants.{Handle};
ghost use Rattle.span_forest.specs.Count.{reference_count, total_held, total_handles};
ghost use Rattle.span_forest.specs.Holders.{held_in};
ghost use Rattle.span_forest.specs.declared.span.Holder.{Holder};
ghost use Rattle.span_forest.specs.declared.holding.Held.{Held};
ghost use Rattle.span_forest.specs.Holding.{held_spans, what_holds, AreHeld, spans_after, IsGivenBack};
ghost use Rattle.span_forest.specs.Live.{is_live};
ghost use Rattle.span_forest.specs.Forest.{IsForest};
ghost use Rattle.span_outlet.specs.Batch.{PlainBatch};
ghost use Rattle.span_core.specs.World.{World, IsWorld, entries_in};
ghost use Rattle.span_outlet.specs.Request.{Request, new_span, exit, try_close, Answer, made, exited, released};
ghost use Rattle.span_core.specs.Core.{CoreView, IsAccepted};
ghost use Rattle.span_core.specs.History.{issued, IsLegal};
ghost use Rattle.span_core.specs.NextId.{next_id_after, is_used_up};
ghost use Rattle.span_core.specs.Handles.{handles_given_out, handles_given_back};
ghost use Rattle.span_core.specs.ClosedSpans.{closed_by, closed_in, gives_back, spans_before_closing, tells_close, hears_close, notes_in};
ghost use Rattle.span_core.specs.GivenBack.{ClosesWhatNothingHolds};

pub mod outcome;
mod sent;

use crate::Core;
use crate::laws::sent::what_was_sent_is_legal;
use span_forest::laws::{
    a_span_closes_with_the_last_that_keeps_it, each_slot_has_one_open_id,
    full_where_each_slot_is_used_up as full_where_no_slot_is_left,
    no_span_is_held_where_none_is_open as no_span_is_held_in_an_empty_forest,
    open_slots_are_in_range, open_spans_are_counted, open_spans_are_kept_open,
};
use span_outlet::Outlet;

/// The open spans are a forest: each parent is open, and each walk ends at a root. Each open span is live: it stands on
/// the walk of a span that has a holder.
pub fn open_spans_are_a_live_forest<O: Outlet, A>(core: &Core<O, A>)
    ensures forest { IsForest core.now.world.spans }
    ensures live { (id : ℕ) → IsOpen core.now.world.spans id → is_live core.now.world.spans id ≡ true }
{
    what_was_sent_is_legal(core);
}

/// No count is above the greatest one, whatever the id, and at most 2^64 - 1 calls were accepted.
pub fn counts_and_calls_have_bounds<O: Outlet, A>(core: &Core<O, A>)
    ensures counts { (id : ℕ) → reference_count core.now.world.spans id ≤ core.now.limits.max_count }
    ensures calls { length core.now.sent < 2 ^ 64 }
{
    open_spans_are_counted(&core.forest);
    what_was_sent_is_legal(core);
}

/// The entries of each span are the workers that are inside it, each counted once.
pub fn entries_are_the_workers_inside<O: Outlet, A>(core: &Core<O, A>)
    ensures { IsWorld core.now.world }
{
    let _opened = &core.calls;
}

/// All entries that are no duplicates, of all stacks, are as many as the entries that the open spans count.
pub fn entries_are_counted_once<O: Outlet, A>(core: &Core<O, A>)
    ensures { entries_in core.now.world.stacks + total_handles core.now.world.spans
        ≡ total_held core.now.world.spans }
{
    entries_are_the_workers_inside(core);
    what_was_sent_is_legal(core);
}

/// Where the total of handles and entries is 0, no span is open. The same where no span has a handle and no
/// worker's stack has an entry, or where the number of handles and that of entries are 0.
pub fn empty_where_nothing_is_held<O: Outlet, A>(core: &Core<O, A>)
    ensures total { total_held core.now.world.spans ≡ 0 → core.now.world.spans ≡ [] }
    ensures stacks { ((id : ℕ) → held_in Handle (find core.now.world.spans id) ≡ 0) →
        All (λ stack. stack ≡ []) core.now.world.stacks → core.now.world.spans ≡ [] }
    ensures counted { total_handles core.now.world.spans ≡ 0 → entries_in core.now.world.stacks ≡ 0 →
        core.now.world.spans ≡ [] }
{
    entries_are_the_workers_inside(core);
    entries_are_counted_once(core);
    what_was_sent_is_legal(core);
}

/// Whichever call is accepted next: it closes exactly the spans that its answer lists, which only an exit and
/// a release do. They are the open spans that are not live without the holder that the call gives back: no
/// holder is left on them or below them. Each other span stays as it was, but for that holder. No span is listed
/// twice, and none after its parent.
pub fn release_closes_what_nothing_holds<O: Outlet, A>(core: &Core<O, A>)
    ensures exact { (request : Request) (answer : Answer) (new : CoreView) (id : ℕ) →
        IsAccepted core.now request answer new →
        (IsTrue (has (closed_by answer) id)
        ↔ (IsOpen core.now.world.spans id × (find new.world.spans id ≡ None))) }
    ensures not_live { (request : Request) (answer : Answer) (new : CoreView) (id : ℕ) →
        IsAccepted core.now request answer new →
        IsOpen core.now.world.spans id →
        (IsTrue (has (closed_by answer) id)
        ↔ (is_live (spans_before_closing core.now.world request) id ≡ false)) }
    ensures others { (request : Request) (answer : Answer) (new : CoreView) (id : ℕ) →
        IsAccepted core.now request answer new →
        IsTrue (gives_back request) → (IsTrue (has (closed_by answer) id) → ⊥) →
        find new.world.spans id ≡ find (spans_before_closing core.now.world request) id }
    ensures once { (request : Request) (answer : Answer) (new : CoreView) →
        IsAccepted core.now request answer new →
        AllPairs (λ first later. first ≢ later) (closed_by answer) }
    ensures child_first { (request : Request) (answer : Answer) (new : CoreView) →
        IsAccepted core.now request answer new →
        AllPairs (λ first later. parent_of core.now.world.spans later ≢ Some first) (closed_by answer) }
{
    entries_are_the_workers_inside(core);
    what_was_sent_is_legal(core);
}

/// Whichever call is accepted next: each span that closes is announced once to every layer that admits the
/// span and wants closes, and to no other layer. A span that doesn't close is announced to none.
pub fn closes_are_announced_once<O: Outlet, A>(core: &Core<O, A>)
    ensures { (request : Request) (answer : Answer) (new : CoreView) (layer id : ℕ) →
        (accepted : IsAccepted core.now request answer new) →
        count_by (tells_close layer id) accepted.notes
        ≡ (if has (closed_by answer) id && hears_close core.now.rules core.now.world.spans layer id
        then 1 else 0) }
{
    what_was_sent_is_legal(core);
}

/// Whichever call is accepted next: where it gives a holder back, it closes exactly the spans that nothing holds any
/// longer, and announces each once. It is what an exit and a release promise.
pub fn accepted_releases_close_what_nothing_holds<O: Outlet, A>(core: &Core<O, A>)
    ensures { (request : Request) (answer : Answer) (new : CoreView) →
        IsAccepted core.now request answer new → IsTrue (gives_back request) →
        ClosesWhatNothingHolds core.now request new }
{
    entries_are_the_workers_inside(core);
    closes_are_announced_once(core);
    what_was_sent_is_legal(core);
}

/// What a release or an exit promises leaves no choice: the spans that may be left are the same.
pub fn releases_leave_no_choice<O: Outlet, A>(core: &Core<O, A>)
    ensures { (request : Request) (new other : CoreView) (id : ℕ) → ClosesWhatNothingHolds core.now request new →
        ClosesWhatNothingHolds core.now request other → find new.world.spans id ≡ find other.world.spans id }
{
    open_spans_are_a_live_forest(core);
}

/// In the whole history no layer is told twice that a span closed, and none is told so of a span that didn't.
pub fn no_close_is_told_twice<O: Outlet, A>(core: &Core<O, A>)
    ensures { (layer id : ℕ) → count_by (tells_close layer id) (notes_in core.now.sent)
        ≤ (if has (closed_in core.now.sent) id then 1 else 0) }
{
    what_was_sent_is_legal(core);
}

/// The open spans are those whose id was issued and that didn't close. No id was issued twice. So a span that
/// closed is never open again.
pub fn open_spans_were_made_and_not_closed<O: Outlet, A>(core: &Core<O, A>)
    ensures exact { (id : ℕ) → (IsOpen core.now.world.spans id
        ↔ (IsTrue (has (issued core.now.sent) id) × (IsTrue (has (closed_in core.now.sent) id) → ⊥))) }
    ensures once { AllPairs (λ first later. first ≢ later) (issued core.now.sent) }
    ensures closed { (id : ℕ) → IsTrue (has (closed_in core.now.sent) id) →
        find core.now.world.spans id ≡ None }
{
    what_was_sent_is_legal(core);
}

/// As many spans are open as were made and didn't close.
pub fn made_spans_are_open_or_closed<O: Outlet, A>(core: &Core<O, A>)
    ensures { length (issued core.now.sent) ≡ length (closed_in core.now.sent) + length core.now.world.spans }
{
    what_was_sent_is_legal(core);
}

/// Whichever release or exit is accepted next: where it closes any span, it closes the one that it names.
pub fn the_named_span_closes_first<O: Outlet, A>(core: &Core<O, A>)
    ensures try_close { (worker id : ℕ) (closed : List ℕ) (new : CoreView) →
        IsAccepted core.now (try_close worker id) (released closed) new →
        (IsTrue (nat_lt 0 (length closed)) ↔ (find new.world.spans id ≡ None)) }
    ensures exit { (worker id : ℕ) (closed : List ℕ) (new : CoreView) →
        IsAccepted core.now (exit worker id) (exited closed) new →
        (IsTrue (nat_lt 0 (length closed)) ↔ (find new.world.spans id ≡ None)) }
{
    entries_are_the_workers_inside(core);
    what_was_sent_is_legal(core);
}

/// Whichever new span is accepted next: its id finds it, and every other id finds what it found before.
pub fn new_id_finds_its_span<O: Outlet, A>(core: &Core<O, A>)
    ensures new { (worker id : ℕ) (meta : PlainMeta) (fields : List KeyValue) (parent : Option ℕ) (new : CoreView) →
        IsAccepted core.now (new_span worker meta fields parent) (made id) new →
        find new.world.spans id
        ≡ Some (new_node meta fields parent (admission_set core.now.rules meta.target meta.level)) }
    ensures others { (worker id other : ℕ) (meta : PlainMeta) (fields : List KeyValue) (parent : Option ℕ)
        (new : CoreView) →
        IsAccepted core.now (new_span worker meta fields parent) (made id) new → other ≢ id →
        find new.world.spans other ≡ find core.now.world.spans other }
{
    what_was_sent_is_legal(core);
}

/// Whichever call is accepted next: a new span and one more handle make the handles of all spans one more, a handle
/// that is given back makes them one less, and no other call changes how many there are.
pub fn handles_follow_the_calls<O: Outlet, A>(core: &Core<O, A>)
    ensures { (request : Request) (answer : Answer) (new : CoreView) →
        IsAccepted core.now request answer new →
        total_handles new.world.spans + handles_given_back request
        ≡ total_handles core.now.world.spans + handles_given_out request }
{
    what_was_sent_is_legal(core);
}

/// There is no id for a new span exactly where each slot is used up: an open span has it, or the id of its last
/// generation was issued.
pub fn full_where_each_slot_is_used_up<O: Outlet, A>(core: &Core<O, A>)
    ensures { (next_id_after core.now.limits.slots core.now.limits.last_generation core.now.sent ≡ None)
        ↔ ((slot : ℕ) → slot < core.now.limits.slots →
        IsTrue (is_used_up core.now.limits.last_generation core.now.world.spans core.now.sent slot)) }
{
    core.limits.limits();
    full_where_no_slot_is_left(&core.forest);
}

/// The layers that admit an open span are those whose rule admits its target and its level.
pub fn layers_admit_spans_by_their_rules<O: Outlet, A>(core: &Core<O, A>)
    ensures { (id : ℕ) (node : Node) → find core.now.world.spans id ≡ Some node →
        node.bits ≡ admission_set core.now.rules node.target node.level }
{
    what_was_sent_is_legal(core);
}

/// No two open ids have one slot. Each is in the layout of ids, and its slot is below the number of slots.
pub fn each_slot_has_one_open_span<O: Outlet, A>(core: &Core<O, A>)
    ensures one_slot { (id other : ℕ) → IsOpen core.now.world.spans id → IsOpen core.now.world.spans other →
        slot_of id ≡ slot_of other → id ≡ other }
    ensures in_layout { (id : ℕ) → IsOpen core.now.world.spans id → IsId id }
    ensures in_range { (id : ℕ) → IsOpen core.now.world.spans id → slot_of id < core.now.limits.slots }
{
    each_slot_has_one_open_id(&core.forest);
    open_slots_are_in_range(&core.forest);
}

/// A span closes with the last of the holders that are listed, and not before. It is open exactly where its list isn't
/// empty. After releases that give all of them back, in whatever order and among others, it is closed; as long as one of
/// them is left it stays open. Whichever call is accepted next: it closes exactly the open spans whose list is empty
/// after it.
pub fn a_span_is_open_as_long_as_something_keeps_it<O: Outlet, A>(core: &Core<O, A>)
    ensures open { (id : ℕ) → IsOpen core.now.world.spans id ↔ (what_holds core.now.world.spans id ≢ []) }
    ensures closes { (id : ℕ) (releases : List (ℕ × Holder)) → AreHeld core.now.world.spans releases →
        All (IsGivenBack releases) (what_holds core.now.world.spans id) →
        find (spans_after core.now.world.spans releases) id ≡ None }
    ensures stays { (id : ℕ) (releases : List (ℕ × Holder)) (held : Held) →
        AreHeld core.now.world.spans releases →
        Contains (what_holds core.now.world.spans id) held → (IsGivenBack releases held → ⊥) →
        IsOpen (spans_after core.now.world.spans releases) id }
    ensures next { (request : Request) (answer : Answer) (new : CoreView) (id : ℕ) →
        IsAccepted core.now request answer new → IsOpen core.now.world.spans id →
        (IsTrue (has (closed_by answer) id) ↔ (what_holds new.world.spans id ≡ [])) }
{
    what_was_sent_is_legal(core);
    entries_are_the_workers_inside(core);
    open_spans_are_kept_open(&core.forest);
    a_span_closes_with_the_last_that_keeps_it(&core.forest);
}

/// The list of what holds any span at all is empty exactly where no span is open.
pub fn no_span_is_held_where_none_is_open<O: Outlet, A>(core: &Core<O, A>)
    ensures { (held_spans core.now.world.spans ≡ []) ↔ (core.now.world.spans ≡ []) }
{
    no_span_is_held_in_an_empty_forest(&core.forest);
}

/// In the world that any legal history leaves, the list of what holds any span at all is empty exactly where no span is
/// left.
pub fn no_span_is_held_where_none_is_left()
    ensures { (rules : List Filter) (workers : ℕ) (history : List PlainBatch) (world : World) →
        IsLegal rules workers history world → ((held_spans world.spans ≡ []) ↔ (length world.spans ≡ 0)) }
{}
