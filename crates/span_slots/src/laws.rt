//! What a table promises over all its calls: each function does nothing, and its contract is the promise.
//!
//! `Insert`, `Remove` and `Write` stand for the calls `insert` and `remove` and for a write through
//! what `get_mut` gave; `after` is the table after one of them, `after_all` after any number.
ghost use Rattle.std.specs.Prelude.{◌≡◌, ◌≢◌, ℕ, ◌+◌, ◌<◌, ◌≤◌, ◌↔◌, ◌⊎◌, List, [], ◌∷◌, length, map, All, AllPairs, Contains, Some, None, IsSome, IfSome, IsTrue};
ghost use Rattle.std.specs.List.Sorted.{IsStrictlyIncreasing};
ghost use Rattle.span_id.specs.Id.{id_of, slot_of, generation_of, IsId};
ghost use Rattle.span_slots.specs.Table.{find, all_ids, id_from, ids_from, next_id, IsIssued, IsUsed, IsFull, is_free, is_retired};
ghost use Rattle.span_slots.specs.Change.{Change, Insert, Remove, Write, after, after_all};

use super::Slots;

/// `insert` is refused exactly where each slot is occupied or retired.
pub fn full_where_no_slot_is_free<T>(slots: &Slots<T>)
    ensures { (next_id slots.now ≡ None) ↔ IsFull slots.now }
{
    let _opened = &slots.cells;
}

/// The id that `insert` gives was never issued before.
pub fn next_id_was_never_issued<T>(slots: &Slots<T>)
    ensures in_layout { IfSome (next_id slots.now) IsId }
    ensures never_issued { IfSome (next_id slots.now) (λ id. IsIssued slots.now id → ⊥) }
{
    let _opened = &slots.cells;
}

/// `insert` issues the id that it gives and no other, and no other call issues any.
pub fn insert_issues_its_id_alone<T>(slots: &Slots<T>)
    ensures insert { (value : T) (id : ℕ) → IsId id →
        (IsIssued (after slots.now (Insert value)) id ↔ (IsIssued slots.now id ⊎ (next_id slots.now ≡ Some id))) }
    ensures remove { (id other : ℕ) → IsIssued (after slots.now (Remove other)) id ↔ IsIssued slots.now id }
    ensures write { (value : T) (id other : ℕ) →
        (IsIssued (after slots.now (Write other value)) id ↔ IsIssued slots.now id) }
{
    let _opened = &slots.cells;
}

/// An id that was issued stays issued, however many calls later.
pub fn issued_ids_stay_issued<T>(slots: &Slots<T>)
    ensures { (id : ℕ) (changes : List (Change T)) →
        IsIssued slots.now id → IsIssued (after_all slots.now changes) id }
{
    let _opened = &slots.cells;
}

/// Only slots of the table give ids, and none past the last generation.
pub fn issued_ids_are_in_range<T>(slots: &Slots<T>)
    ensures slot { (id : ℕ) → IsIssued slots.now id → slot_of id < slots.now.slots }
    ensures generation { (id : ℕ) → IsIssued slots.now id → generation_of id ≤ slots.now.last_generation }
{
    let _opened = &slots.cells;
}

/// An id that was removed is never in the map again, however many calls later. Neither is any id
/// that was issued and is not in the map.
pub fn removed_id_never_comes_back<T>(slots: &Slots<T>)
    ensures removed { (id : ℕ) (changes : List (Change T)) → IsSome (find slots.now.entries id) →
        find (after_all (after slots.now (Remove id)) changes).entries id ≡ None }
    ensures absent { (id : ℕ) (changes : List (Change T)) →
        IsIssued slots.now id → find slots.now.entries id ≡ None →
        find (after_all slots.now changes).entries id ≡ None }
{
    let _opened = &slots.cells;
}

/// The next value gets the slot that was freed last, at its next generation. Where no slot was freed
/// it gets the lowest slot that was never used.
pub fn next_slot_is_the_one_freed_last<T>(slots: &Slots<T>)
    ensures freed_last { (id : ℕ) → IsSome (find slots.now.entries id) →
        generation_of id < slots.now.last_generation →
        next_id (after slots.now (Remove id)) ≡ Some (id_of (slot_of id) (generation_of id + 1)) }
    ensures else_first_use { slots.now.freed ≡ [] → IfSome (next_id slots.now) (λ id. generation_of id ≡ 0) }
    ensures else_lowest { slots.now.freed ≡ [] → IfSome (next_id slots.now) (λ id.
        (slot : ℕ) → slot < slots.now.slots → (IsUsed slots.now slot ↔ (slot < slot_of id))) }
{
    let _opened = &slots.cells;
}

/// A slot whose id of the last generation was issued is retired: it stays so however many calls
/// later, it is never the next slot, and removing its value frees no slot.
pub fn retired_slots_are_never_given_again<T>(slots: &Slots<T>)
    ensures retired { (id : ℕ) → IsIssued slots.now id → generation_of id ≡ slots.now.last_generation →
        IsTrue (is_retired slots.now (slot_of id)) }
    ensures for_good { (slot : ℕ) (changes : List (Change T)) → slot < slots.now.slots →
        IsTrue (is_retired slots.now slot) → IsTrue (is_retired (after_all slots.now changes) slot) }
    ensures never_next { (slot : ℕ) → IsTrue (is_retired slots.now slot) →
        IfSome (next_id slots.now) (λ id. slot_of id ≢ slot) }
    ensures frees_none { (id : ℕ) → IsSome (find slots.now.entries id) →
        generation_of id ≡ slots.now.last_generation →
        next_id (after slots.now (Remove id)) ≡ next_id slots.now }
{
    let _opened = &slots.cells;
}

/// The number of slots and the last generation never change.
pub fn limits_never_change<T>(slots: &Slots<T>)
    ensures slots { (changes : List (Change T)) → (after_all slots.now changes).slots ≡ slots.now.slots }
    ensures last_generation { (changes : List (Change T)) →
        (after_all slots.now changes).last_generation ≡ slots.now.last_generation }
{
    let _opened = &slots.cells;
}

/// The freed slots are exactly those that were used and are neither occupied nor retired, each once.
pub fn freed_slots_may_be_given_again<T>(slots: &Slots<T>)
    ensures exact { (slot : ℕ) → slot < slots.now.slots →
        (Contains slots.now.freed slot ↔ (IsUsed slots.now slot × IsTrue (is_free slots.now slot))) }
    ensures once { AllPairs (λ slot other. slot ≢ other) slots.now.freed }
{
    let _opened = &slots.cells;
}

/// Each id of the map was issued and is the last that its slot gave; no two ids of the map have one
/// slot; and the map has its entries by ascending slot.
pub fn each_slot_has_one_id<T>(slots: &Slots<T>)
    ensures in_layout { (id : ℕ) → IsSome (find slots.now.entries id) → IsId id }
    ensures issued { (id : ℕ) → IsSome (find slots.now.entries id) → IsIssued slots.now id }
    ensures newest { (id : ℕ) → IsSome (find slots.now.entries id) →
        (IsIssued slots.now (id_of (slot_of id) (generation_of id + 1)) → ⊥) }
    ensures one_slot { (id other : ℕ) →
        IsSome (find slots.now.entries id) → IsSome (find slots.now.entries other) →
        slot_of id ≡ slot_of other → id ≡ other }
    ensures ascending { IsStrictlyIncreasing (map (λ e. slot_of e.0) slots.now.entries) }
    ensures found { All (λ e. find slots.now.entries e.0 ≡ Some e.1) slots.now.entries }
{
    let _opened = &slots.cells;
}

/// A walk by `id_from`, which begins at slot 0 and goes on at the slot after the one that was told, meets each id of
/// the map once, and no other: by ascending slot.
pub fn a_walk_meets_each_id_once<T>(slots: &Slots<T>)
    ensures all { ids_from slots.now.entries 0 ≡ all_ids slots.now.entries }
    ensures next { (slot id : ℕ) → id_from slots.now.entries slot ≡ Some id →
        ids_from slots.now.entries slot ≡ id ∷ ids_from slots.now.entries (slot_of id + 1) }
    ensures end { (slot : ℕ) → id_from slots.now.entries slot ≡ None → ids_from slots.now.entries slot ≡ [] }
{
    let _opened = &slots.cells;
}

/// `insert` puts the value under the new id, which had none, and changes no other id's value.
pub fn insert_adds_its_value_alone<T>(slots: &Slots<T>)
    ensures absent { IfSome (next_id slots.now) (λ id. find slots.now.entries id ≡ None) }
    ensures added { (value : T) → IfSome (next_id slots.now) (λ id.
        find (after slots.now (Insert value)).entries id ≡ Some value) }
    ensures others { (value : T) (other : ℕ) → next_id slots.now ≢ Some other →
        find (after slots.now (Insert value)).entries other ≡ find slots.now.entries other }
{
    let _opened = &slots.cells;
}

/// `remove` takes out the value of its id and changes no other id's value.
pub fn remove_takes_its_value_alone<T>(slots: &Slots<T>)
    ensures gone { (id : ℕ) → find (after slots.now (Remove id)).entries id ≡ None }
    ensures others { (id other : ℕ) → other ≢ id →
        find (after slots.now (Remove id)).entries other ≡ find slots.now.entries other }
{
    let _opened = &slots.cells;
}

/// A write through what `get_mut` gave changes the value of its id, and nothing else of the table.
pub fn write_changes_its_value_alone<T>(slots: &Slots<T>)
    ensures written { (id : ℕ) (value : T) → IsSome (find slots.now.entries id) →
        find (after slots.now (Write id value)).entries id ≡ Some value }
    ensures others { (id other : ℕ) (value : T) → other ≢ id →
        find (after slots.now (Write id value)).entries other ≡ find slots.now.entries other }
    ensures ids { (id : ℕ) (value : T) →
        all_ids (after slots.now (Write id value)).entries ≡ all_ids slots.now.entries }
    ensures next { (id : ℕ) (value : T) → next_id (after slots.now (Write id value)) ≡ next_id slots.now }
{
    let _opened = &slots.cells;
}
