//! Promises that follow from the definitions, each as the contract of a function that does nothing.

ghost use Rattle.std.specs.Prelude.{◌≡◌, ℕ, List, [], ◌∷◌, ◌++◌, Some, true, false, not, ◌==◌, if◌then◌else◌, length, filter};
ghost use Rattle.span_id.specs.Ids.{has};
ghost use Rattle.span_stack.specs.Stack.{first_places, current, top, without_last, TakesLast};

/// Among the entries that are no duplicates, an id stands once if it stands in the stack, else not at all.
pub fn an_id_has_one_first_place()
    ensures { (ids : List ℕ) (id : ℕ)
        → length (filter (λ entry. entry == id) (first_places ids)) ≡ if has ids id then 1 else 0 }
{}

/// An id that is pushed becomes a duplicate if it stands in the stack, else an entry that is none.
/// All others stay what they are.
pub fn push_adds_a_first_place_or_a_duplicate()
    ensures { (ids : List ℕ) (id : ℕ) → first_places (ids ++ id ∷ [])
        ≡ if has ids id then first_places ids else (first_places ids ++ id ∷ []) }
{}

/// An id that is popped loses its last place, above which it doesn't stand. All other entries stay.
pub fn pop_takes_out_the_last_place()
    ensures there { (ids : List ℕ) (id : ℕ) → has ids id ≡ true → TakesLast ids id (without_last ids id) }
    ensures absent { (ids : List ℕ) (id : ℕ) → has ids id ≡ false → without_last ids id ≡ ids }
{}

/// Where an id still stands in the stack after it was popped, the entries that are no duplicates
/// stay. Else they lose that one.
pub fn pop_takes_out_a_duplicate_or_a_first_place()
    ensures { (ids : List ℕ) (id : ℕ) → first_places (without_last ids id)
        ≡ if has (without_last ids id) id then first_places ids
        else filter (λ other. not (other == id)) (first_places ids) }
{}

/// What was pushed last and is popped leaves the stack as it was before.
pub fn pop_undoes_push()
    ensures { (ids : List ℕ) (id : ℕ) → without_last (ids ++ id ∷ []) id ≡ ids }
{}

/// The current span and the topmost entry stand in the stack.
pub fn current_and_top_stand_in_the_stack()
    ensures current { (ids : List ℕ) (id : ℕ) → current ids ≡ Some id → has ids id ≡ true }
    ensures top { (ids : List ℕ) (id : ℕ) → top ids ≡ Some id → has ids id ≡ true }
{}
