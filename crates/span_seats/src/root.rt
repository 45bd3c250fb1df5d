//! The root's seat, with the table.
ghost use Rattle.std.specs.Prelude.{◌≡◌, ◌+◌, ◌<◌, length, true};
ghost use Rattle.span_id.specs.Id.{slot_of, generation_of};
ghost use Rattle.span_seats.specs.RootView.{has_number, IsOpenIn, HasNoHandle, MayClose};
ghost use Rattle.span_seats.specs.RootView.{stored, with_number, without_number, closed_words};

use crate::handle::HandleSeat;
use crate::rule::{Hand, Look, Store};
use crate::table::{TableName, WordTable};
use crate::view::SeatView;
use atomic_table::Seat;
use span_id::Id;
use std::marker::{Model, PhantomData};

/// The root of the table named `T`, and the table itself: who has it makes every step. To a contract it is the
/// root's view.
#[derive(Drop)]
pub struct RootSeat<T: TableName> {
    pub(crate) table: WordTable,
    pub(crate) seat: Seat<(), SeatView>,
    pub(crate) name: PhantomData<T>,
}

impl<T: TableName> Model for RootSeat<T> {
    ghost use Rattle.std.specs.Prelude.{◌≡◌, ◌<◌, [], length, true};
    ghost use Rattle.span_seats.specs.declared.view.RootView.{RootView};
    ghost use Rattle.span_seats.specs.inside.WellFormed.{IsWellFormed};
    ghost use Rattle.span_seats.specs.inside.SeatView.{root_seat};

    ghost Value = { RootView };

    ghost view = { λ r. r.seat.me.0.root };

    ghost invariant = { λ r.
        (r.table.shared.table_id ≡ T.table) × (r.seat.table_id ≡ T.table) × (0 < r.table.shared.table_id.words)
        × (length r.seat.me.0.root.words ≡ r.table.shared.table_id.words) × (r.seat.id ≡ 0)
        × (r.seat.me ≡ (root_seat r.seat.me.0.root true, [])) × IsWellFormed r.seat.me.0.root };
}

impl<T: TableName> RootSeat<T> {
    /// Stores the word of a slot of which no id has a handle. The next split is of the id that slot and word name.
    ///
    /// Keeps that an id whose set isn't empty is open: the ids of this slot have empty sets.
    #[tactic(auto, using(crate::proofs::WellFormed::stored_well_formed))]
    pub fn store(&mut self, slot: usize, word: u64)
        requires slot { slot < length self.old.words }
        requires free { HasNoHandle self.old.handles slot }
        ensures { self.new ≡ stored self.old slot word }
    {
        let table = &self.table;
        table.shared.store::<Store>(&mut self.seat, slot, word);
    }

    /// Writes down that the span of this id is open: its slot's word becomes its generation plus 1.
    ///
    /// Keeps what `store` keeps.
    pub fn mark_open(&mut self, id: Id)
        requires slot { slot_of id < length self.old.words }
        requires free { HasNoHandle self.old.handles (slot_of id) }
        ensures { self.new ≡ stored self.old (slot_of id) (generation_of id + 1) }
    {
        self.store(id.slot() as usize, u64::from(id.generation()) + 1);
    }

    /// Writes down that these spans are closed: the words of their slots become 0.
    ///
    /// Keeps what `store` keeps.
    pub fn mark_closed(&mut self, closed: &[Id])
        requires { MayClose self.old closed.now }
        ensures handles { self.new.handles ≡ self.old.handles }
        ensures next_number { self.new.next_number ≡ self.old.next_number }
        ensures words { self.new.words ≡ closed_words self.old.words closed.now }
    {
        for id in closed {
            self.store(id.slot() as usize, 0);
        }
    }

    /// The seat of a new handle of the id that was stored or joined last.
    ///
    /// Keeps that a handle's number stands in the set of its id, as it is put there, and that no two handles have
    /// one number, as it is above them all.
    #[tactic(auto, using(crate::proofs::WellFormed::with_well_formed))]
    pub fn split(&mut self) -> HandleSeat<T>
        requires { IsOpenIn self.old.words self.old.split_id }
        ensures root { self.new ≡ with_number self.old }
        ensures id { result.id ≡ self.old.split_id }
        ensures number { result.number ≡ self.old.next_number }
    {
        let table = &self.table;
        let seat = table.shared.split_seat::<Hand>(&mut self.seat);
        HandleSeat {
            seat,
            name: PhantomData,
        }
    }

    /// Takes a handle's seat in. This shows that its number stood in the set of its id, and that its span is open.
    ///
    /// Keeps that a handle's number stands in the set of its id: the number that leaves is no other handle's.
    #[tactic(auto, using(crate::proofs::WellFormed::without_well_formed))]
    pub fn join(&mut self, handle: HandleSeat<T>)
        ensures root { self.new ≡ without_number self.old handle.id handle.number }
        ensures in_set { has_number handle.id handle.number self.old.handles ≡ true }
        ensures is_open { IsOpenIn self.old.words handle.id }
    {
        let HandleSeat { seat, name: _ } = handle;
        let table = &self.table;
        table.shared.join_seat::<Hand>(&mut self.seat, seat);
        // The join tells nothing by itself. A look does, at any word.
        table.shared.load::<Look>(&mut self.seat, 0);
    }
}
