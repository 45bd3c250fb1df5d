//! What every store promises over its calls: each function does nothing, and its contract is the promise.
//!
//! `Add`, `Keep`, `Release` and `Ended` stand for the calls; `store_after` is the store after one of them,
//! `store_after_all` after any number, and `told` the span that a call tells to be closing now.
ghost use Rattle.std.specs.Prelude.{◌≡◌, ◌≢◌, ℕ, ◌+◌, ◌<◌, ◌≤◌, ◌↔◌, List, [], ◌∷◌, map, Option, Some, None, length, IsTrue, All, AllPairs, Contains};
ghost use Rattle.std.specs.List.Sorted.{IsStrictlyIncreasing};
ghost use Rattle.span_id.specs.Id.{IsId, slot_of};
ghost use Rattle.span_id.specs.declared.fault.Fault.TheVariants.{Unknown};
ghost use Rattle.span_slots.specs.Table.{find, id_from, ids_from, next_id, IsIssued};
ghost use Rattle.span_store.specs.StoredSpan.{StoredSpan, added_span};
ghost use Rattle.span_store.specs.StoredSpans.{IsThere, IsStillHeld, IsClosing, parent_there, count, all_handles};
ghost use Rattle.span_store.specs.Details.{all_details};
ghost use Rattle.span_store.specs.Calls.{Call, Add, Keep, Release, Ended, refusal, store_after, told, store_after_all, NeverEnds, times_told, times_accepted, is_add, is_keep, is_release, is_ended, handles_then, spans_then};

use super::Store;
use span_slots::laws::{a_walk_meets_each_id_once, each_slot_has_one_id};

/// A call tells a span to be closing exactly where the span becomes closing by it: so it tells at most one.
pub fn what_becomes_closing_is_told(store: &Store)
    ensures { (call : Call) (id : ℕ) → (told store.now call ≡ Some id)
        ↔ ((IsClosing store.now.table.entries id → ⊥) × IsClosing (store_after store.now call).table.entries id) }
{
    let _opened = &store.slots;
}

/// Each span is told to be closing at most once, however many calls are made; and once where it wasn't closing before
/// them and is after them.
pub fn each_span_is_told_once(store: &Store)
    ensures at_most { (id : ℕ) (calls : List Call) → times_told id store.now calls ≤ 1 }
    ensures once { (id : ℕ) (calls : List Call) → (IsClosing store.now.table.entries id → ⊥) →
        IsClosing (store_after_all store.now calls).table.entries id → times_told id store.now calls ≡ 1 }
    ensures not_again { (id : ℕ) (calls : List Call) → IsClosing store.now.table.entries id →
        times_told id store.now calls ≡ 0 }
{
    let _opened = &store.slots;
}

/// A closing span stays there as it is, and closing, however many calls later, until `ended` is called for it.
pub fn closing_spans_stay_until_their_end(store: &Store)
    ensures same { (id : ℕ) (calls : List Call) → IsClosing store.now.table.entries id → NeverEnds id calls →
        find (store_after_all store.now calls).table.entries id ≡ find store.now.table.entries id }
    ensures closing { (id : ℕ) (calls : List Call) → IsClosing store.now.table.entries id → NeverEnds id calls →
        IsClosing (store_after_all store.now calls).table.entries id }
{
    let _opened = &store.slots;
}

/// A closing span is held by nobody, however many calls later, until `ended` is called for it: no handle of it is given
/// or taken back, and no child is made under it.
pub fn closing_spans_are_held_by_nobody(store: &Store)
    ensures not_kept { (id : ℕ) (calls : List Call) → IsClosing store.now.table.entries id → NeverEnds id calls →
        refusal (store_after_all store.now calls) (Keep id) ≡ Some Unknown }
    ensures not_released { (id : ℕ) (calls : List Call) → IsClosing store.now.table.entries id → NeverEnds id calls →
        refusal (store_after_all store.now calls) (Release id) ≡ Some Unknown }
    ensures no_child { (id bits word : ℕ) (calls : List Call) → IsClosing store.now.table.entries id →
        NeverEnds id calls → refusal (store_after_all store.now calls) (Add (Some id) bits word) ≡ Some Unknown }
{
    let _opened = &store.slots;
}

/// An id that ended finds nothing ever again, however many calls later, and no call gives it again.
pub fn ended_ids_never_come_back(store: &Store)
    ensures gone { (id : ℕ) (calls : List Call) → IsClosing store.now.table.entries id →
        find (store_after_all (store_after store.now (Ended id)) calls).table.entries id ≡ None }
    ensures never_given { (id : ℕ) (calls : List Call) → IsClosing store.now.table.entries id →
        next_id (store_after_all (store_after store.now (Ended id)) calls).table ≢ Some id }
{
    let _opened = &store.slots;
}

/// No span is closing while a child of it is there, and none is told to be closing by a call that leaves a child of it.
pub fn no_span_closes_before_its_children_ended(store: &Store)
    ensures closing { (id child : ℕ) → IsClosing store.now.table.entries id →
        parent_there store.now.table.entries child ≢ Some id }
    ensures told { (call : Call) (id child : ℕ) → told store.now call ≡ Some id →
        parent_there (store_after store.now call).table.entries child ≢ Some id }
{
    let _opened = &store.slots;
}

/// Each parent is there and isn't closing. No count is above the greatest one.
pub fn parents_are_open(store: &Store)
    ensures parent { (id parent : ℕ) → parent_there store.now.table.entries id ≡ Some parent →
        IsStillHeld store.now.table.entries parent }
    ensures bounded { (id : ℕ) → count store.now.table.entries id ≤ store.now.max_count }
{
    let _opened = &store.slots;
}

/// Where no span has a handle and none is closing, no span is there.
pub fn empty_where_nothing_is_held(store: &Store)
    ensures { all_handles store.now.table.entries ≡ 0 → ((id : ℕ) → IsClosing store.now.table.entries id → ⊥) →
        store.now.table.entries ≡ [] }
{
    let _opened = &store.slots;
}

/// An accepted `add` and `keep` make the handles of all spans one more, `release` one less, and `ended` leaves them;
/// and as many spans are there as were added and didn't end.
pub fn numbers_follow_the_calls(store: &Store)
    ensures handles { (call : Call) → refusal store.now call ≡ None →
        all_handles (store_after store.now call).table.entries
        ≡ handles_then (all_handles store.now.table.entries) call }
    ensures spans { (call : Call) → refusal store.now call ≡ None →
        length (store_after store.now call).table.entries ≡ spans_then (length store.now.table.entries) call }
{
    let _opened = &store.slots;
}

/// However many calls later, as many spans are there as before them and as were added and didn't end; and as many
/// handles as before them and as were given by `add` and `keep` and not given back.
pub fn as_many_are_there_as_did_not_end(store: &Store)
    ensures spans { (calls : List Call) →
        length (store_after_all store.now calls).table.entries + times_accepted is_ended store.now calls
        ≡ length store.now.table.entries + times_accepted is_add store.now calls }
    ensures handles { (calls : List Call) →
        all_handles (store_after_all store.now calls).table.entries + times_accepted is_release store.now calls
        ≡ all_handles store.now.table.entries
        + (times_accepted is_add store.now calls + times_accepted is_keep store.now calls) }
{
    let _opened = &store.slots;
}

/// A walk by `id_from`, which begins at slot 0 and goes on at the slot after the one that was told, meets the id of
/// each span that is there once, and no other: by ascending slot.
pub fn a_walk_meets_each_span_once(store: &Store)
    ensures all { ids_from store.now.table.entries 0 ≡ map (λ e. e.0) store.now.table.entries }
    ensures next { (slot id : ℕ) → id_from store.now.table.entries slot ≡ Some id →
        ids_from store.now.table.entries slot ≡ id ∷ ids_from store.now.table.entries (slot_of id + 1) }
    ensures end { (slot : ℕ) → id_from store.now.table.entries slot ≡ None →
        ids_from store.now.table.entries slot ≡ [] }
{
    a_walk_meets_each_id_once(&store.slots);
}

/// `span_details` tells of each span that is there once, by ascending slot, and of no other; and exactly those are
/// closing that nothing holds.
pub fn spans_are_told_once(store: &Store)
    ensures exact { (id : ℕ) →
        Contains (map (λ told. told.id) (all_details store.now.table.entries)) id ↔ IsThere store.now.table.entries id }
    ensures once { AllPairs (λ first later. first.id ≢ later.id) (all_details store.now.table.entries) }
    ensures ascending { IsStrictlyIncreasing (map (λ told. slot_of told.id) (all_details store.now.table.entries)) }
    ensures closing { All (λ told. IsTrue told.closing ↔ ((told.handles ≡ 0) × (told.children ≡ 0)))
        (all_details store.now.table.entries) }
{
    each_slot_has_one_id(&store.slots);
}

/// What a span was made with stays: as long as it is there, its parent, its bits and its word are those of its start,
/// however many calls later.
pub fn a_span_keeps_what_it_was_made_with(store: &Store)
    ensures parent { (id : ℕ) (calls : List Call) (first last : StoredSpan) →
        find store.now.table.entries id ≡ Some first →
        find (store_after_all store.now calls).table.entries id ≡ Some last → last.parent ≡ first.parent }
    ensures bits { (id : ℕ) (calls : List Call) (first last : StoredSpan) →
        find store.now.table.entries id ≡ Some first →
        find (store_after_all store.now calls).table.entries id ≡ Some last → last.bits ≡ first.bits }
    ensures word { (id : ℕ) (calls : List Call) (first last : StoredSpan) →
        find store.now.table.entries id ≡ Some first →
        find (store_after_all store.now calls).table.entries id ≡ Some last → last.word ≡ first.word }
{
    let _opened = &store.slots;
}

/// The new id finds the new span, and each other id finds what it found before. The other calls change the span of
/// their id alone.
pub fn calls_change_their_span_alone(store: &Store)
    ensures added { (parent : Option ℕ) (bits word id : ℕ) → refusal store.now (Add parent bits word) ≡ None →
        next_id store.now.table ≡ Some id →
        find (store_after store.now (Add parent bits word)).table.entries id ≡ Some (added_span parent bits word) }
    ensures others { (parent : Option ℕ) (bits word other : ℕ) → next_id store.now.table ≢ Some other →
        find (store_after store.now (Add parent bits word)).table.entries other
        ≡ find store.now.table.entries other }
    ensures keep { (id other : ℕ) → other ≢ id →
        find (store_after store.now (Keep id)).table.entries other ≡ find store.now.table.entries other }
    ensures release { (id other : ℕ) → other ≢ id →
        find (store_after store.now (Release id)).table.entries other ≡ find store.now.table.entries other }
    ensures ended { (id other : ℕ) → other ≢ id →
        find (store_after store.now (Ended id)).table.entries other ≡ find store.now.table.entries other }
{
    let _opened = &store.slots;
}

/// No two ids that are there have one slot. Each is in the layout of ids, and was issued.
pub fn each_slot_has_one_id_there(store: &Store)
    ensures one_slot { (id other : ℕ) → IsThere store.now.table.entries id → IsThere store.now.table.entries other →
        slot_of id ≡ slot_of other → id ≡ other }
    ensures in_layout { (id : ℕ) → IsThere store.now.table.entries id → IsId id }
    ensures issued { (id : ℕ) → IsThere store.now.table.entries id → IsIssued store.now.table id }
{
    each_slot_has_one_id(&store.slots);
}
