//! What every forest promises, in plain words: each function does nothing, and its contract is the promise.
ghost use Rattle.std.specs.Prelude.{◌≡◌, ◌≢◌, ℕ, ◌<◌, ◌≤◌, ◌↔◌, ◌⊎◌, [], false, Some, None, IfSome, IsTrue, All, AllPairs, Contains, List, length, map, take};
ghost use Rattle.std.specs.List.Sorted.{IsStrictlyIncreasing};
ghost use Rattle.span_id.specs.Id.{id_of, slot_of, IsId};
ghost use Rattle.span_id.specs.Ids.{has};
ghost use Rattle.span_slots.specs.Table.{IsIssued, IsFull, find, all_ids};
ghost use Rattle.span_forest.specs.declared.span.Holder.{Holder};
ghost use Rattle.span_forest.specs.Node.{Node};
ghost use Rattle.span_forest.specs.Add.{with_span};
ghost use Rattle.span_forest.specs.Spans.{IsOpen, IsOccupied, parent_of};
ghost use Rattle.span_forest.specs.Walk.{walk, Ends};
ghost use Rattle.span_forest.specs.Count.{holders_in, reference_count, total_held};
ghost use Rattle.span_forest.specs.Live.{is_live};
ghost use Rattle.span_forest.specs.Forest.{IsForest, next_span_id, table_of};
ghost use Rattle.span_forest.specs.Holders.{IsHeld, held_in};
ghost use Rattle.span_forest.specs.declared.holding.Held.{Held};
ghost use Rattle.span_forest.specs.Holding.{held_spans, what_holds, releases_of, spans_after, AreHeld, given_back, IsGivenBack};
ghost use Rattle.span_forest.specs.Release.{without_holder, closing_list, spans_left};

use super::Forest;
use span_slots::laws::{
    each_slot_has_one_id, full_where_no_slot_is_free, issued_ids_are_in_range,
    next_id_was_never_issued,
};

/// Each walk, from an open span to its parent and so on, ends at a root within as many steps as there
/// are open spans.
pub fn walks_end(forest: &Forest)
    ensures { (id : ℕ) → IsOpen forest.now.spans id →
        Ends (length forest.now.spans) forest.now.spans (Some id) }
{
    let _opened = &forest.slots;
}

/// No id is open twice, each parent is open, and each walk ends at a root.
pub fn spans_are_a_forest(forest: &Forest)
    ensures { IsForest forest.now.spans }
{
    let _opened = &forest.slots;
}

/// No walk has an id twice.
pub fn walks_have_no_id_twice(forest: &Forest)
    ensures { (id : ℕ) → AllPairs (λ first later. first ≢ later) (walk forest.now.spans id) }
{
    let _opened = &forest.slots;
}

/// An open span has a positive count, which is at most the greatest one, and its parent is open.
pub fn open_spans_are_counted(forest: &Forest)
    ensures positive { (id : ℕ) → IsOpen forest.now.spans id → 0 < reference_count forest.now.spans id }
    ensures bounded { (id : ℕ) → reference_count forest.now.spans id ≤ forest.now.max_count }
    ensures parent { (id parent : ℕ) → parent_of forest.now.spans id ≡ Some parent →
        IsOpen forest.now.spans parent }
{
    let _opened = &forest.slots;
}

/// An id that has a handle or an entry is open.
pub fn held_ids_are_open(forest: &Forest)
    ensures { (id : ℕ) (holder : Holder) → IsHeld forest.now.spans id holder → IsOpen forest.now.spans id }
{}

/// No two open ids have one slot. Each is in the layout of ids, and was issued.
pub fn each_slot_has_one_open_id(forest: &Forest)
    ensures one_slot { (id other : ℕ) → IsOpen forest.now.spans id → IsOpen forest.now.spans other →
        slot_of id ≡ slot_of other → id ≡ other }
    ensures in_layout { (id : ℕ) → IsOpen forest.now.spans id → IsId id }
    ensures issued { (id : ℕ) → IsOpen forest.now.spans id → IsIssued (table_of forest.now) id }
{
    each_slot_has_one_id(&forest.slots);
}

/// The slot of an open id is one of the forest's.
pub fn open_slots_are_in_range(forest: &Forest)
    ensures { (id : ℕ) → IsOpen forest.now.spans id → slot_of id < forest.now.slots }
{
    each_slot_has_one_id(&forest.slots);
    issued_ids_are_in_range(&forest.slots);
}

/// Where no span has a handle or an entry, no span is open.
pub fn empty_where_nothing_is_held(forest: &Forest)
    ensures { total_held forest.now.spans ≡ 0 → forest.now.spans ≡ [] }
{
    let _opened = &forest.slots;
}

/// The id that the next span gets is in the layout, and was never issued before, so it isn't open.
pub fn next_id_is_new(forest: &Forest)
    ensures in_layout { IfSome (next_span_id forest.now) IsId }
    ensures never_issued { IfSome (next_span_id forest.now) (λ id. IsIssued (table_of forest.now) id → ⊥) }
    ensures not_open { IfSome (next_span_id forest.now) (λ id. find forest.now.spans id ≡ None) }
{
    each_slot_has_one_id(&forest.slots);
    next_id_was_never_issued(&forest.slots);
}

/// A new id finds its span, and each other id finds what it found before.
pub fn new_id_finds_its_span(forest: &Forest)
    ensures found { (node : Node) → IfSome (next_span_id forest.now) (λ id.
        find (with_span forest.now id node).spans id ≡ Some node) }
    ensures others { (id other : ℕ) (node : Node) → other ≢ id →
        find (with_span forest.now id node).spans other ≡ find forest.now.spans other }
{
    next_id_is_new(forest);
}

/// An id that was issued stays issued where a span is added. A release issues no id and takes none back.
pub fn issued_ids_stay_issued(forest: &Forest)
    ensures { (id issued : ℕ) (node : Node) → IsIssued (table_of forest.now) issued →
        IsIssued (table_of (with_span forest.now id node)) issued }
{}

/// No span can be added exactly where each slot is an open span's, or its id of the last generation was
/// issued.
pub fn full_where_each_slot_is_used_up(forest: &Forest)
    ensures full { (next_span_id forest.now ≡ None) ↔ IsFull (table_of forest.now) }
    ensures slots { (next_span_id forest.now ≡ None) ↔ ((slot : ℕ) → slot < forest.now.slots →
        (IsOccupied forest.now.spans slot
        ⊎ IsIssued (table_of forest.now) (id_of slot forest.now.last_generation))) }
{
    full_where_no_slot_is_free(&forest.slots);
}

/// A release closes exactly the spans of its closing list: each other span stays open.
pub fn release_closes_its_list(forest: &Forest)
    ensures { (id span : ℕ) (holder : Holder) → IsHeld forest.now.spans id holder →
        IsOpen forest.now.spans span →
        (IsTrue (has (closing_list forest.now.spans id holder) span)
        ↔ (find (spans_left forest.now.spans id holder) span ≡ None)) }
{
    let _opened = &forest.slots;
}

/// Exactly those open spans close that are no longer live: no holder is left on them or below them. Each
/// span of the list was open, and each other span stays as it was but for the holder that was given back.
pub fn release_closes_what_nothing_holds(forest: &Forest)
    ensures was_open { (id span : ℕ) (holder : Holder) → IsHeld forest.now.spans id holder →
        IsTrue (has (closing_list forest.now.spans id holder) span) → IsOpen forest.now.spans span }
    ensures not_live { (id span : ℕ) (holder : Holder) → IsHeld forest.now.spans id holder →
        IsOpen forest.now.spans span →
        (IsTrue (has (closing_list forest.now.spans id holder) span)
        ↔ (is_live (without_holder forest.now.spans id holder) span ≡ false)) }
    ensures others { (id span : ℕ) (holder : Holder) → IsHeld forest.now.spans id holder →
        (IsTrue (has (closing_list forest.now.spans id holder) span) → ⊥) →
        find (spans_left forest.now.spans id holder) span ≡ find (without_holder forest.now.spans id holder) span }
{
    let _opened = &forest.slots;
}

/// No closing list has an id twice, and none has a span after its parent.
pub fn children_close_before_parents(forest: &Forest)
    ensures once { (id : ℕ) (holder : Holder) →
        AllPairs (λ first later. first ≢ later) (closing_list forest.now.spans id holder) }
    ensures child_first { (id : ℕ) (holder : Holder) →
        AllPairs (λ first later. parent_of forest.now.spans later ≢ Some first)
        (closing_list forest.now.spans id holder) }
{
    let _opened = &forest.slots;
}

/// A closing list is the first part of the walk of the span that gives a holder back, so each span
/// stands before its parent.
pub fn closing_list_begins_the_walk(forest: &Forest)
    ensures { (id : ℕ) (holder : Holder) → IsHeld forest.now.spans id holder →
        closing_list forest.now.spans id holder
        ≡ take (length (closing_list forest.now.spans id holder)) (walk forest.now.spans id) }
{
    let _opened = &forest.slots;
}

/// A span that keeps a holder, and one with a child that stays open, is never in a closing list.
pub fn what_is_held_stays_open(forest: &Forest)
    ensures holder { (id span : ℕ) (holder : Holder) → IsHeld forest.now.spans id holder →
        0 < holders_in (find (without_holder forest.now.spans id holder) span) →
        (IsTrue (has (closing_list forest.now.spans id holder) span) → ⊥) }
    ensures child { (id child parent : ℕ) (holder : Holder) → IsHeld forest.now.spans id holder →
        parent_of forest.now.spans child ≡ Some parent →
        IsOpen (spans_left forest.now.spans id holder) child →
        (IsTrue (has (closing_list forest.now.spans id holder) parent) → ⊥) }
{
    let _opened = &forest.slots;
}

/// The list of the open spans has exactly the ids that are open, each once, by ascending slot.
pub fn open_spans_are_listed_once(forest: &Forest)
    ensures exact { (id : ℕ) → Contains (all_ids forest.now.spans) id ↔ IsOpen forest.now.spans id }
    ensures once { AllPairs (λ first later. first ≢ later) (all_ids forest.now.spans) }
    ensures ascending { IsStrictlyIncreasing (map slot_of (all_ids forest.now.spans)) }
{
    each_slot_has_one_id(&forest.slots);
}

/// A span is open exactly where something keeps it open.
pub fn open_spans_are_kept_open(forest: &Forest)
    ensures { (id : ℕ) → IsOpen forest.now.spans id ↔ (what_holds forest.now.spans id ≢ []) }
{
    let _opened = &forest.slots;
}

/// Where no span has a handle or an entry, none is open, and where none is open, none has.
pub fn no_span_is_held_where_none_is_open(forest: &Forest)
    ensures { (held_spans forest.now.spans ≡ []) ↔ (forest.now.spans ≡ []) }
{
    let _opened = &forest.slots;
}

/// Releases may be made in any order: each finds its holder when its turn comes, exactly where no more handles
/// and entries of a span are given back than it has.
pub fn holders_may_be_given_back_in_any_order(forest: &Forest)
    ensures { (releases : List (ℕ × Holder)) → AreHeld forest.now.spans releases
        ↔ ((id : ℕ) (holder : Holder) →
        given_back holder id releases ≤ held_in holder (find forest.now.spans id)) }
{
    let _opened = &forest.slots;
}

/// What keeps a span open can be given back in the order of the list, and then the span is closed.
pub fn a_span_closes_where_its_list_is_given_back(forest: &Forest)
    ensures legal { (id : ℕ) → AreHeld forest.now.spans (releases_of (what_holds forest.now.spans id)) }
    ensures closes { (id : ℕ) →
        find (spans_after forest.now.spans (releases_of (what_holds forest.now.spans id))) id ≡ None }
{
    let _opened = &forest.slots;
}

/// A span closes with the last of the holders that are listed, and not before. After releases that give all of them back,
/// in whatever order and among others, it is closed; as long as one of them is left it stays open.
pub fn a_span_closes_with_the_last_that_keeps_it(forest: &Forest)
    ensures closes { (id : ℕ) (releases : List (ℕ × Holder)) → AreHeld forest.now.spans releases →
        All (IsGivenBack releases) (what_holds forest.now.spans id) →
        find (spans_after forest.now.spans releases) id ≡ None }
    ensures stays { (id : ℕ) (releases : List (ℕ × Holder)) (held : Held) →
        AreHeld forest.now.spans releases →
        Contains (what_holds forest.now.spans id) held → (IsGivenBack releases held → ⊥) →
        IsOpen (spans_after forest.now.spans releases) id }
{
    let _opened = &forest.slots;
}
