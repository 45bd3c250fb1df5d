//! A table of slots: values under ids, where an id that was removed finds nothing ever again.
//!
//! Each slot gives its ids one after another, at the generations 0, 1, 2 and so on up to the last
//! generation of the limits. Then it is retired. What a table promises over all its calls is said
//! by the functions of [`laws`].
#![tactic(auto)]

ghost use Rattle.std.specs.Prelude.{◌≡◌, ℕ, ◌+◌, ◌-◌, ◌<◌, ◌≤◌, ◌↔◌, [], length, map, Some, None, Ok, Err, is_some, IsTrue, IsOk, IsSome, IfOk, IfErr, OnErr, option_copied, slice_index};
ghost use Rattle.std.specs.Option.{option_copied_mut};
ghost use Rattle.std.specs.Borrow.{sem};
ghost use Rattle.span_id.specs.Id.{IsId, slot_of};
ghost use Rattle.span_slots.specs.Table.{Table, find, all_ids, id_from, next_id, next_slot, table_inserted, table_removed, IsIssued, free_count};
ghost use Rattle.span_slots.specs.Change.{Insert, Remove, after};

mod cells;
pub mod laws;

use cells::Cell;
use span_id::{Checked, Fault, Id};
use std::alloc::Global;
use std::marker::Model;

/// Values under ids, in a fixed number of slots.
///
/// No call but `new` and `ids` takes memory, and each other call costs the same however many
/// slots there are, but for `id_from`.
#[derive(Debug, Drop)]
pub struct Slots<T> {
    // The slots that were used. The others have never given an id.
    cells: Vec<Cell<T>>,
    // The slots that may be given again, the one freed last at the end.
    freed: Vec<u32>,
    // How many cells hold a value.
    len: u32,
    slots: u32,
    last_generation: u32,
}

impl<T> Model for Slots<T> {
    ghost use Rattle.std.specs.Prelude.{map, reverse, vec_capacity};
    ghost use Rattle.span_slots.specs.Table.{Table, table_code};

    ghost Value = { Table T };

    ghost coded = { table_code T.code };

    ghost use Rattle.span_slots.specs.inside.Cells.{row_of};
    ghost use Rattle.span_slots.specs.inside.Rows.{entries_from, IsSound};

    ghost view = { λ s. record {
      slots = s.slots;
      last_generation = s.last_generation;
      entries = entries_from 0 (map row_of s.cells.items);
      given = map (λ c. c.given) s.cells.items;
      freed = reverse s.freed.items;
    } };

    ghost invariant = { λ s. IsSound s.slots s.last_generation s.len (vec_capacity s.cells) (vec_capacity s.freed)
        (map row_of s.cells.items) s.freed.items };
}

impl<T: Drop> Slots<T> {
    ghost use Rattle.span_slots.specs.Lends.{lends_get, lends_value};

    /// An empty table with as many slots as the limits say, 1 to 2^24.
    ///
    /// It reserves all that it will ever need and touches none of it. The only error is `Memory`.
    pub fn new(alloc: Global, checked: &Checked) -> Result<Self, Fault>
        ensures slots { IfOk result (λ t. t.slots ≡ checked.now.slots) }
        ensures last_generation { IfOk result (λ t. t.last_generation ≡ checked.now.last_generation) }
        ensures entries { IfOk result (λ t. t.entries ≡ []) }
        ensures given { IfOk result (λ t. t.given ≡ []) }
        ensures freed { IfOk result (λ t. t.freed ≡ []) }
        ensures none_issued { IfOk result (λ t. (id : ℕ) → IsIssued t id → ⊥) }
        ensures fault { IfErr result (λ fault. fault ≡ Fault.Memory) }
    {
        let limits = checked.limits();
        let slots = limits.slots;
        let last_generation = limits.last_generation;
        let cells = Vec::with_capacity(alloc, slots as usize)?;
        let freed = Vec::with_capacity(alloc, slots as usize)?;
        Ok(Slots {
            cells,
            freed,
            len: 0,
            slots,
            last_generation,
        })
    }

    /// How many values there are.
    pub fn len(&self) -> u32
        ensures { result ≡ length self.now.entries }
    {
        self.len
    }

    /// Whether there is no value.
    pub fn is_empty(&self) -> bool
        ensures { IsTrue result ↔ (self.now.entries ≡ []) }
    {
        self.len == 0
    }

    /// How many slots were ever used: these are the first ones.
    pub fn used(&self) -> u32
        ensures { result ≡ length self.now.given }
    {
        self.cells.len() as u32
    }

    /// How many slots are neither occupied nor retired: so many values can be inserted.
    pub fn free(&self) -> u32
        ensures count { result ≡ free_count self.now }
        ensures parts { result ≡ self.now.slots - length self.now.given + length self.now.freed }
    {
        self.slots - self.cells.len() as u32 + self.freed.len() as u32
    }

    /// The ids of the values, by ascending slot. The only error is `Memory`.
    ///
    /// It looks at each slot that was ever used.
    pub fn ids(&self) -> Result<Vec<Id>, Fault>
        ensures ids { IfOk result (λ ids. ids.items ≡ all_ids self.now.entries) }
        ensures fault { IfErr result (λ fault. fault ≡ Fault.Memory) }
    {
        let alloc = *self.cells.allocator();
        let mut ids = Vec::with_capacity(alloc, self.len as usize)?;
        for (slot, cell) in self.cells.iter().enumerate() {
            let occupied = cell.value.is_some();
            if occupied {
                ids.push_reserved(Id::pack(slot as u32, (cell.given - 1) as u32));
            }
        }
        Ok(ids)
    }

    /// The lowest id that has a value, by slots, from this slot on.
    ///
    /// It looks at each slot that was ever used from there on, up to the one that it tells. So who asks for the slot
    /// after the one that was told, again and again, meets each id once, and looks at each such slot once.
    pub fn id_from(&self, slot: u32) -> Option<Id>
        ensures { result ≡ id_from self.now.entries slot }
    {
        for place in slot as usize..self.cells.len() {
            let cell = &self.cells[place];
            let occupied = cell.value.is_some();
            if occupied {
                return Some(Id::pack(place as u32, (cell.given - 1) as u32));
            }
        }
        None
    }

    /// The value under an id.
    pub fn get(&self, id: Id) -> Option<&T>
        ensures { option_copied result ≡ find self.now.entries id }
    {
        let place = id.slot() as usize;
        let given = u64::from(id.generation()) + 1;
        let _layout = id.get();
        if place >= self.cells.len() {
            return None;
        }
        let cell = &self.cells[place];
        if cell.given != given {
            return None;
        }
        cell.value.as_ref()
    }

    /// The id that `insert` would give now, or `None` where it would be refused.
    pub fn next_id(&self) -> Option<Id>
        ensures { result ≡ next_id self.now }
    {
        let freed = self.freed.len();
        if freed > 0 {
            let slot = self.freed[freed - 1];
            let given = self.cells[slot as usize].given;
            return Some(Id::pack(slot, given as u32));
        }
        let used = self.cells.len() as u32;
        if used < self.slots {
            return Some(Id::pack(used, 0));
        }
        None
    }

    /// The value under an id, for writing.
    pub fn get_mut(&mut self, id: Id) -> Option<&mut T>
        ensures* writes_back { sem 𝓛 (lends_get T.row self.entry id result) }
        ensures value { option_copied_mut result ≡ find self.old.entries id }
    {
        if self.get(id).is_some() {
            Some(self.value_mut(id))
        } else {
            None
        }
    }

    // The value under an id that is there.
    fn value_mut(&mut self, id: Id) -> &mut T
        requires { IsSome (find self.old.entries id) }
        ensures* writes_back { sem 𝓛 (lends_value T.row self.entry id result) }
        ensures value { find self.old.entries id ≡ Some result.now }
    {
        let slot = id.slot();
        let _generation = id.generation();
        let _layout = id.get();
        self.cells[slot as usize].value_mut()
    }

    /// Stores a value under an id that was never issued before: in the slot that was freed last,
    /// else in the lowest slot that was never used.
    ///
    /// Where each slot is occupied or retired it hands the value back, with `Full`.
    pub fn insert(&mut self, value: T) -> Result<Id, (T, Fault)>
        ensures full { IsOk result ↔ IsSome (next_id self.old) }
        ensures id { IfOk result (λ id. next_id self.old ≡ Some id) }
        ensures vacant { IfOk result (λ id. find self.old.entries id ≡ None) }
        ensures table { IfOk result (λ id. self.new ≡ table_inserted self.old (slot_of id) value) }
        ensures change { self.new ≡ after self.old (Insert value) }

        ensures unchanged { OnErr result (self.new ≡ self.old) }
        ensures value_returned { IfErr result (λ e. e.0 ≡ value) }
        ensures fault { IfErr result (λ e. e.1 ≡ Fault.Full) }
    {
        if !self.freed.is_empty() {
            return Ok(self.reuse(value));
        }
        if self.cells.len() < self.slots as usize {
            return Ok(self.fresh(value));
        }
        Err((value, Fault::Full))
    }

    // Stores a value in the slot that was freed last.
    fn reuse(&mut self, value: T) -> Id
        requires { 0 < length self.old.freed }
        ensures slot { next_slot self.old ≡ Some (slot_of result) }
        ensures id { next_id self.old ≡ Some result }
        ensures vacant { find self.old.entries result ≡ None }
        ensures table { self.new ≡ table_inserted self.old (slot_of result) value }
    {
        let Some(slot) = self.freed.pop() else {
            unreachable!()
        };
        let cell = &mut self.cells[slot as usize];
        let given = cell.given;
        cell.given = given + 1;
        cell.value = Some(value);
        self.len += 1;
        Id::pack(slot, given as u32)
    }

    // Stores a value in the lowest slot that was never used.
    fn fresh(&mut self, value: T) -> Id
        requires none_freed { self.old.freed ≡ [] }
        requires room { length self.old.given < self.old.slots }
        ensures slot { next_slot self.old ≡ Some (slot_of result) }
        ensures id { next_id self.old ≡ Some result }
        ensures vacant { find self.old.entries result ≡ None }
        ensures table { self.new ≡ table_inserted self.old (slot_of result) value }
    {
        let slot = self.cells.len() as u32;
        self.cells.push_reserved(Cell {
            given: 1,
            value: Some(value),
        });
        self.len += 1;
        Id::pack(slot, 0)
    }

    /// Takes out the value under an id. The id finds nothing ever again.
    ///
    /// The slot may be given again, unless the id was its last one.
    pub fn remove(&mut self, id: Id) -> Option<T>
        ensures value { result ≡ find self.old.entries id }
        ensures table { self.new ≡ table_removed self.old id }
        ensures change { self.new ≡ after self.old (Remove id) }
    {
        if self.get(id).is_none() {
            return None;
        }
        Some(self.take_out(id))
    }

    // Takes out a value that is there.
    fn take_out(&mut self, id: Id) -> T
        requires { IsSome (find self.old.entries id) }
        ensures value { find self.old.entries id ≡ Some result }
        ensures table { self.new ≡ table_removed self.old id }
    {
        let slot = id.slot();
        let _generation = id.generation();
        let _layout = id.get();
        let cell = &mut self.cells[slot as usize];
        let given = cell.given;
        let Some(value) = cell.value.take() else {
            unreachable!()
        };
        self.len -= 1;
        if given <= u64::from(self.last_generation) {
            self.freed.push_reserved(slot);
        }
        value
    }
}
